//! Where each cell lies in the list of all words.
//!
//! The rows stand one behind the other: 15 control words, then for each page its word, for each
//! 64 heap words a word of alloc, mark and bitmap bits, for each heap word its birth and itself,
//! the globals, the buffers with their entries, the acknowledgements and the stacks scanned.

ghost use Rattle.gh_base.specs.Limits.{InLimits};

use crate::cell::{Ask, Cell, Req};
use crate::limits::{
    LEAST_PAGES, MOST_GLOBALS, MOST_GOROUTINES, MOST_PAGES, MOST_PROCS, MOST_WORKERS,
};
use crate::plan::LayoutPlan;
use thiserror::Error;

/// Why there is no such layout.
#[derive(Clone, Copy, Debug, PartialEq, Eq, Error)]
pub enum LayoutFault {
    /// A number lies outside its limits, or not all pages are in use from the opening on.
    #[error("a number lies outside its limits")]
    Range,
}

/// How many there are of everything that has words. Seats are numbered: the processors from 0,
/// then the workers, then the coordinator.
#[derive(Clone, Copy, Debug, PartialEq, Eq)]
pub struct Layout {
    /// The arena's pages of 1024 words that are in use as the heap opens. Today all are: it is
    /// `pages`.
    pub opened: u32,
    /// The pages of 1024 words that the arena may come to have at most, 16 to 1024.
    pub pages: u32,
    /// The globals, 1 to 256.
    pub globals: u32,
    /// The processors, 1 to 8.
    pub procs: u32,
    /// The workers, 1 to 4.
    pub workers: u32,
    /// The goroutines, 1 to 32.
    pub goroutines: u32,
    pub ghost limits: { InLimits (record { opened = opened; pages = pages; globals = globals; procs = procs; workers = workers; goroutines = goroutines }) },
}

impl Layout {
    ghost use Rattle.std.specs.Prelude.{◌≡◌, ◌<◌, ◌↔◌, IsTrue, IsOk, IfOk};
    ghost use Rattle.gh_base.specs.Cells.{word_of, InRange, length_of, seats_of, buffers_of, IsLayoutOf, alloc_row, mark_row, bitmap_row, birth_row, field_row, global_row, buffer_row, entry_row, ack_row, scanned_row};
    ghost use Rattle.gh_base.specs.Steps.{cell_of, request, target};

    /// A layout of the plan's numbers. It is refused exactly where one lies outside its limits,
    /// or `opened` is not `pages`.
    pub fn new(plan: LayoutPlan) -> Result<Layout, LayoutFault>
        ensures made { IsOk result ↔ InLimits plan }
        ensures numbers { IfOk result (IsLayoutOf plan) }
    {
        let in_limits = plan.opened == plan.pages
            && LEAST_PAGES <= plan.pages
            && plan.pages <= MOST_PAGES
            && 1 <= plan.globals
            && plan.globals <= MOST_GLOBALS
            && 1 <= plan.procs
            && plan.procs <= MOST_PROCS
            && 1 <= plan.workers
            && plan.workers <= MOST_WORKERS
            && 1 <= plan.goroutines
            && plan.goroutines <= MOST_GOROUTINES;
        if !in_limits {
            return Err(LayoutFault::Range);
        }
        Ok(Layout {
            opened: plan.opened,
            pages: plan.pages,
            globals: plan.globals,
            procs: plan.procs,
            workers: plan.workers,
            goroutines: plan.goroutines,
        })
    }

    /// How many actors there are: the processors, the workers and the coordinator.
    pub fn seats(&self) -> u32
        ensures { result ≡ seats_of self.now }
    {
        self.procs + self.workers + 1
    }

    /// How many grey work buffers there are: so many that at each moment one that nobody holds
    /// has room for two entries.
    pub fn buffers(&self) -> u32
        ensures { result ≡ buffers_of self.now }
    {
        self.seats() + 1024 * self.pages / 252 + 1
    }

    /// How many words there are.
    pub fn words(&self) -> u32
        ensures { result ≡ length_of self.now }
    {
        self.scanned_row() + self.goroutines
    }

    /// That the layout has the cell.
    pub fn has(&self, cell: Cell) -> bool
        ensures { IsTrue result ↔ InRange self.now cell }
    {
        match cell {
            Cell::Page(i) => i < self.pages,
            Cell::Alloc(i) | Cell::Mark(i) | Cell::Bitmap(i) => i < 16 * self.pages,
            Cell::Birth(i) | Cell::Field(i) => i < 1024 * self.pages,
            Cell::Global(i) => i < self.globals,
            Cell::Buffer(i) => i < self.buffers(),
            Cell::Entry(i, j) => i < self.buffers() && j < 253,
            Cell::Ack(i) => i < self.procs + self.workers,
            Cell::Scanned(i) => i < self.goroutines,
            _ => true,
        }
    }

    /// The number of the cell's word.
    // A machine names the row of its cell, so once this stands in its code no choice is left to make.
    #[inline(always)]
    pub fn word(&self, cell: Cell) -> u32
        requires { InRange self.now cell }
        ensures at { result ≡ word_of self.now cell }
        ensures below { result < length_of self.now }
    {
        match cell {
            Cell::Touch => 0,
            Cell::Phase => 1,
            Cell::Gen => 2,
            Cell::Begun => 3,
            Cell::Swept => 4,
            Cell::Lock => 5,
            Cell::Want => 6,
            Cell::Bank => 7,
            Cell::Gcur => 8,
            Cell::Heap => 9,
            Cell::Trigger => 10,
            Cell::Work => 11,
            Cell::Slack => 12,
            Cell::Tally => 13,
            Cell::Live => 14,
            Cell::Page(i) => 15 + i,
            Cell::Alloc(i) => self.alloc_row() + i,
            Cell::Mark(i) => self.mark_row() + i,
            Cell::Bitmap(i) => self.bitmap_row() + i,
            Cell::Birth(i) => self.birth_row() + i,
            Cell::Field(i) => self.field_row() + i,
            Cell::Global(i) => self.global_row() + i,
            Cell::Buffer(i) => self.buffer_row() + i,
            Cell::Entry(i, j) => self.entry_row() + 253 * i + j,
            Cell::Ack(i) => self.ack_row() + i,
            Cell::Scanned(i) => self.scanned_row() + i,
        }
    }

    /// The same step on the cell's word, by its number.
    // As `word`: a machine names the kind of its step.
    #[inline(always)]
    pub fn request(&self, ask: Ask) -> Req
        requires { InRange self.now (cell_of ask) }
        ensures same { result ≡ request self.now ask }
        ensures below { target result < length_of self.now }
    {
        match ask {
            Ask::Load(cell) => Req::Load(self.word(cell)),
            Ask::Store(cell, value) => Req::Store(self.word(cell), value),
            Ask::Or(cell, bits) => Req::Or(self.word(cell), bits),
            Ask::And(cell, bits) => Req::And(self.word(cell), bits),
            Ask::Add(cell, more) => Req::Add(self.word(cell), more),
            Ask::Swap(cell, old, new) => Req::Swap(self.word(cell), old, new),
        }
    }

    pub(crate) fn alloc_row(&self) -> u32
        ensures { result ≡ alloc_row self.now }
    {
        15 + self.pages
    }

    pub(crate) fn mark_row(&self) -> u32
        ensures { result ≡ mark_row self.now }
    {
        self.alloc_row() + 16 * self.pages
    }

    pub(crate) fn bitmap_row(&self) -> u32
        ensures { result ≡ bitmap_row self.now }
    {
        self.mark_row() + 16 * self.pages
    }

    pub(crate) fn birth_row(&self) -> u32
        ensures { result ≡ birth_row self.now }
    {
        self.bitmap_row() + 16 * self.pages
    }

    pub(crate) fn field_row(&self) -> u32
        ensures { result ≡ field_row self.now }
    {
        self.birth_row() + 1024 * self.pages
    }

    pub(crate) fn global_row(&self) -> u32
        ensures { result ≡ global_row self.now }
    {
        self.field_row() + 1024 * self.pages
    }

    pub(crate) fn buffer_row(&self) -> u32
        ensures { result ≡ buffer_row self.now }
    {
        self.global_row() + self.globals
    }

    pub(crate) fn entry_row(&self) -> u32
        ensures { result ≡ entry_row self.now }
    {
        self.buffer_row() + self.buffers()
    }

    pub(crate) fn ack_row(&self) -> u32
        ensures { result ≡ ack_row self.now }
    {
        self.entry_row() + 253 * self.buffers()
    }

    pub(crate) fn scanned_row(&self) -> u32
        ensures { result ≡ scanned_row self.now }
    {
        self.ack_row() + self.procs + self.workers
    }
}
