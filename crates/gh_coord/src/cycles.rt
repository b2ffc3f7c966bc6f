//! The list of swept cycles, whose room is taken once.

ghost use Rattle.std.specs.Prelude.{◌≡◌, ◌≤◌, [], length, IfOk};
ghost use Rattle.gh_coord.specs.Keeping.{kept_with_cycle, last_kept};

use std::alloc::{AllocError, Global};
use std::marker::Model;

/// A swept cycle.
#[derive(Clone, Copy, Debug, PartialEq, Eq)]
pub struct Cycle {
    /// Its number: the first cycle has 1.
    pub k: u64,
    /// The objects that were marked, and so kept.
    pub marked: u64,
    /// The objects that were freed.
    pub freed: u64,
}

/// The swept cycles in their order, as many as there is room for.
#[derive(Drop)]
pub struct Cycles {
    items: Vec<Cycle>,
}

impl Model for Cycles {
    ghost use Rattle.std.specs.Prelude.{◌≤◌, vec_len};
    ghost use Rattle.std.specs.Vec.{vec_capacity};
    ghost use Rattle.gh_coord.specs.Keeping.{Kept};

    ghost Value = { Kept };

    ghost view = { λ c. record { items = c.items.items; room = vec_capacity c.items } };
}

impl Cycles {
    /// No cycles yet, and room for so many.
    pub fn new(alloc: Global, room: u32) -> Result<Cycles, AllocError>
        ensures { IfOk result (λ c. c ≡ record { items = []; room = room }) }
    {
        let items = Vec::with_capacity(alloc, room as usize)?;
        Ok(Cycles { items })
    }

    /// Adds a cycle, where there is room for it.
    pub fn keep(&mut self, cycle: Cycle)
        ensures { self.new ≡ kept_with_cycle self.old cycle }
    {
        if self.items.len() < self.items.capacity() {
            self.items.push_reserved(cycle);
        }
    }

    /// The cycle that was kept last, if one was.
    pub fn last(&self) -> Option<Cycle>
        ensures { result ≡ last_kept self.now }
    {
        self.items.last().copied()
    }

    /// The cycles.
    pub fn as_slice(&self) -> &[Cycle]
        ensures are { result.now ≡ self.now.items }
        ensures few { length result.now ≤ self.now.room }
    {
        self.items.as_slice()
    }
}
