//! The write barrier of a processor's stores: a write of a pointer runs with the buffer that the processor holds.
//!
//! `gh_barrier` has the write, and why it is made so. It is begun with the held buffer, in which two entries are free:
//! the poll before the statement has seen to that. Behind each of its steps what it holds is what the processor holds.

ghost use Rattle.std.specs.Prelude.{◌≡◌, ◌≤◌, IsTrue, true};
ghost use Rattle.gh_base.specs.Cells.{InRange};
ghost use Rattle.gh_base.specs.Machines.{Runs};
ghost use Rattle.gh_barrier.specs.Listing as writes;
ghost use Rattle.gh_barrier.specs.Listing.{cell_at};
ghost use Rattle.gh_barrier.specs.Sound.{FitsPointer, HasTwo, SoundWriting};
ghost use Rattle.gh_poll.specs.Barrier.{has_entries, held_then, pointer_of, with_held, written};
ghost use Rattle.gh_poll.specs.Local.{marking_at};
ghost use Rattle.gh_poll.specs.Room.{room_in};
ghost use Rattle.gh_poll.specs.Registers.{IsNear};
ghost use Rattle.gh_poll.specs.PollSound.{SoundPolling};

use crate::poll::Poll;
use gh_barrier::{PointerCell, WritePointer, has_two};
use gh_base::{ENTRIES, Layout, Routine, Value};

/// The object that a value names; nil and numbers name none.
fn pointer_of(layout: &Layout, value: Value) -> Option<u64>
    requires { IsNear layout.now.pages value }
    ensures is { result ≡ pointer_of value }
    ensures fits { FitsPointer layout.now result }
{
    match value {
        Value::Nil | Value::Int(_) => None,
        Value::Ref(reference) => {
            if reference == 0 {
                None
            } else {
                Some(reference)
            }
        }
    }
}

impl Poll {
    /// Where marking is on, as the processor knows, two entries go into the buffer that it holds.
    #[inline(always)]
    pub fn has_entries(&self) -> bool
        ensures { result ≡ has_entries self.now }
    {
        !self.marking() || has_two(self.local.held)
    }

    /// How many entries more the processor has room for, as it knows.
    pub fn room(&self) -> u32
        ensures { result ≡ room_in self.now }
    {
        if !self.marking() {
            return ENTRIES;
        }
        match self.local.held {
            Some(held) => ENTRIES.saturating_sub(held.count),
            None => 0,
        }
    }

    /// A value is written to this cell, with the buffer that is held.
    pub fn write(&self, layout: &Layout, at: PointerCell, value: Value) -> WritePointer
        requires sound { SoundPolling layout.now self.now }
        requires cell { InRange layout.now (cell_at at) }
        requires near { IsNear layout.now.pages value }
        requires marking { marking_at self.now ≡ true }
        requires room { has_entries self.now ≡ true }
        ensures is { result ≡ written self.now.local at value }
        ensures runs { Runs (writes.listing layout.now) result }
    {
        let pointer = pointer_of(layout, value);
        WritePointer::new(at, pointer, self.local.held)
    }

    /// Takes a step of this write.
    pub fn take_write(
        &mut self,
        layout: &Layout,
        write: &mut WritePointer,
        found: u64,
    ) -> Option<()>
        requires sound { SoundPolling layout.now self.old }
        requires runs { Runs (writes.listing layout.now) write.old }
        ensures goes { write.new ≡ writes.goes layout.now write.old found }
        ensures gives { result ≡ writes.gives layout.now write.old found }
        ensures writes { SoundWriting layout.now write.new }
        ensures holds { self.new ≡ with_held self.old (held_then layout.now write.old found) }
        ensures sound { SoundPolling layout.now self.new }
    {
        let out = write.take(layout, found);
        self.local.held = write.held();
        out
    }
}
