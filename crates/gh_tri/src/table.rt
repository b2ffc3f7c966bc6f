//! Tables that are kept in one vector, row after row.

ghost use Rattle.std.specs.Prelude.{◌≡◌, ℕ, ◌+◌, ◌*◌, ◌<◌, ◌≤◌, length, replicate, IfOk, None};
ghost use Rattle.gh_tri.specs.Tables.{cells};
ghost use Rattle.gh_tri.specs.Opening.{AreCells, put_in_table};

use std::alloc::{AllocError, Global};

/// A table of rows that have the same number of columns.
#[derive(Drop)]
pub struct Table<T> {
    pub rows: usize,
    pub columns: usize,
    pub items: Vec<T>,
    ghost full: { length items.items ≡ rows * columns },
}

impl<T: Copy> Table<T> {
    ghost use Rattle.gh_tri.specs.Tricolour.{put2};

    /// A table that has the same value everywhere. Without the memory for it, and where it would have 2^64 cells or more,
    /// the answer is an error.
    pub fn new(alloc: Global, rows: usize, columns: usize, value: T) -> Result<Self, AllocError>
        ensures rows { IfOk result (λ t. t.rows ≡ rows) }
        ensures columns { IfOk result (λ t. t.columns ≡ columns) }
        ensures items { IfOk result (λ t. t.items.items ≡ replicate (rows * columns) value) }
    {
        let count = rows.checked_mul(columns).ok_or(AllocError)?;
        let items = repeated(alloc, count, value)?;
        Ok(Table {
            rows,
            columns,
            items,
        })
    }

    /// What stands in a row and a column.
    pub fn get(&self, row: usize, column: usize) -> T
        requires row_in { row < self.now.rows }
        requires column_in { column < self.now.columns }
        ensures { (d : T) → result ≡ cells d self.now.columns self.now.items.items row column }
    {
        self.items[row * self.columns + column]
    }

    /// Replaces what stands in a row and a column.
    pub fn set(&mut self, row: usize, column: usize, value: T)
        requires row_in { row < self.old.rows }
        requires column_in { column < self.old.columns }
        ensures cells { (d : T) → cells d self.new.columns self.new.items.items ≡ put2 (cells d self.old.columns self.old.items.items) row column value }
        ensures rows { self.new.rows ≡ self.old.rows }
        ensures columns { self.new.columns ≡ self.old.columns }
    {
        let place = row * self.columns + column;
        self.items[place] = value;
    }
}

/// A vector of so many copies of a value.
pub fn repeated<T: Copy>(alloc: Global, count: usize, value: T) -> Result<Vec<T>, AllocError>
    ensures { IfOk result (λ v. v.items ≡ replicate count value) }
{
    let mut items = Vec::with_capacity(alloc, count)?;
    for _ in 0..count {
        items.push(value)?;
    }
    Ok(items)
}

/// Puts the object of each triple into its row and column.
pub fn place(table: &mut Table<Option<u32>>, entries: &[(u32, u32, u32)])
    requires { AreCells table.old.rows table.old.columns entries.now }
    ensures cells { cells None table.new.columns table.new.items.items ≡ put_in_table (cells None table.old.columns table.old.items.items) entries.now }
    ensures rows { table.new.rows ≡ table.old.rows }
    ensures columns { table.new.columns ≡ table.old.columns }
{
    for e in entries {
        table.set(e.0 as usize, e.1 as usize, Some(e.2));
    }
}
