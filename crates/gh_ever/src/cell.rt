//! Cells: what was stored, by its place.

ghost use Rattle.std.specs.Prelude.{◌≡◌, ◌+◌, ◌<◌, ◌≤◌, vec_len, vec_capacity};
ghost use Rattle.std.specs.Cmp.Rules.{comparing, hashing};
ghost use Rattle.std.specs.HashMap.{spare};
ghost use Rattle.std.proofs.Common.{rules};
ghost use Rattle.gh_model.specs.Ever.{same_name};
ghost use Rattle.gh_ever.specs.Cells.{put_value, same_place, stored_value};
ghost use Rattle.gh_ever.specs.Found.{FindsCells, place_writes};

use gh_base::Name;
use gh_model::EverValue;
use std::collections::HashMap;
use std::hash::{Hash, Hasher};

/// Where a value can stand.
#[derive(Clone, Copy, Debug)]
pub enum Place {
    /// This global.
    Global(u32),
    /// Of this goroutine, this register.
    Register(u32, u32),
    /// Of this object, this field.
    Field(Name, u32),
}

impl PartialEq for Place {
    ghost eq = { same_place };

    ghost laws = { Prim.search (comparing, rules) };

    fn eq(&self, other: &Place) -> bool {
        match (*self, *other) {
            (Place::Global(j), Place::Global(k)) => j == k,
            (Place::Register(g, c), Place::Register(h, d)) => g == h && c == d,
            (Place::Field(n, j), Place::Field(m, k)) => same_name(n, m) && j == k,
            _ => false,
        }
    }
}

impl Eq for Place {
    ghost laws = { Prim.search (comparing, rules) };
}

impl Hash for Place {
    ghost hash_input = { place_writes };

    ghost respects_eq = { Prim.search (hashing, rules) };

    fn hash<H: Hasher>(&self, state: &mut H) {
        match *self {
            Place::Global(k) => state.write_u32(k),
            Place::Register(g, d) => {
                state.write_u32(g);
                state.write_u32(d);
            }
            Place::Field(n, k) => {
                state.write_u32(n.g);
                state.write_u32(n.k);
                state.write_u32(k);
            }
        }
    }
}

/// A value at its place.
#[derive(Clone, Copy, Debug)]
pub struct Cell {
    /// Where it stands.
    pub place: Place,
    /// What stands there.
    pub value: EverValue,
}

/// That the names are equal.
pub fn same_name(n: Name, m: Name) -> bool
    ensures { result ≡ same_name n m }
{
    n.g == m.g && n.k == m.k
}

/// Which cell each place has, for the places that have one.
pub type Places = HashMap<Place, usize>;

/// The value at the place, if one was stored there.
pub fn held(cells: &Vec<Cell>, places: &Places, place: Place) -> Option<EverValue>
    requires { FindsCells places.now cells.now.items }
    ensures { result ≡ stored_value cells.now.items place }
{
    match places.get(&place) {
        Some(i) => Some(cells[*i].value),
        None => None,
    }
}

/// Stores the value at the place. A place without a cell gets one, in reserved room.
pub fn put(cells: &mut Vec<Cell>, places: &mut Places, place: Place, value: EverValue)
    requires finds { FindsCells places.old cells.old.items }
    requires room { vec_len cells.old < vec_capacity cells.old }
    requires spare { 0 < spare places.old }
    ensures finds { FindsCells places.new cells.new.items }
    ensures items { cells.new.items ≡ put_value cells.old.items place value }
    ensures room { vec_capacity cells.new ≡ vec_capacity cells.old }
    ensures len { vec_len cells.new ≤ vec_len cells.old + 1 }
    ensures spare { spare places.old ≤ spare places.new + 1 }
{
    match places.get(&place).copied() {
        Some(i) => cells[i].value = value,
        None => {
            let _ = places.insert(place, cells.len());
            cells.push_reserved(Cell { place, value });
        }
    }
}
