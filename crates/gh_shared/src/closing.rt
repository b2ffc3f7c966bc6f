//! How handles are gathered, and the heap is closed.

ghost use Rattle.std.specs.Prelude.{◌≡◌, ◌<◌};
ghost use mathlib.Core.Option.{some};
ghost use lib.ListN.{get_elem?};
ghost use Rattle.std.specs.Slots.{slots_items, slots_len, IsFull};
ghost use Rattle.gh_base.specs.Cells.{length_of, seats_of};
ghost use Rattle.gh_coord.specs.Listing.{lapsed_at};
ghost use Rattle.gh_shared.specs.Calls.{Gathered, IsClosedAfter};
ghost use Rattle.gh_shared.specs.Credit.{earned_by};
ghost use Rattle.gh_shared.specs.Handles.{carries_of, machine_of, number_of, plan_of, view_of, IsHandleOf};
ghost use Rattle.gh_shared.specs.Shown.{credit_drawn, first_of, leader_of};

use crate::handle::Handle;
use crate::heap::Heap;
use gh_actor::{ActorMachine, AnyActor, HeapActor};
use gh_base::Op;
use gh_base::laws::a_state_is_of_its_own_entries;
use gh_coord::{Coord, Cycle};
use gh_explained::every_list_of_a_script_balances;
use gh_table::close;
use std::alloc::Global;

/// What is left of a heap, once no thread runs: its words, and what its coordinator has kept.
pub struct Closed {
    pub words: atomic_table::Closed<(), Global>,
    pub coordinator: Coord,
    /// The words of credit that its processors have drawn, modulo 2^64.
    pub drawn: u64,
    pub ghost full: { IsFull words.words },
    pub ghost slotless: { slots_len words.slots ≡ 0 },
}

/// The coordinator's machine, if the actor is the coordinator, and else the one that was gathered.
fn leader_of<'s>(machine: ActorMachine<'s>, led: Option<Coord>) -> Option<Coord>
    ensures { result ≡ leader_of machine.entry.actor led }
{
    match machine.into_actor() {
        HeapActor::Leads(coordinator) => Some(coordinator),
        _ => led,
    }
}

/// The second where there is no first.
fn first_of(led: Option<Coord>, other: Option<Coord>) -> Option<Coord>
    ensures { result ≡ first_of led other }
{
    match led {
        Some(coordinator) => Some(coordinator),
        None => other,
    }
}

/// The words of credit that the actor has drawn: none, if it is no processor.
fn drawn_by<'s>(machine: &ActorMachine<'s>) -> u64
    ensures { result ≡ credit_drawn machine.now.actor }
{
    match machine.actor() {
        HeapActor::Runs(processor) => processor.spent(),
        _ => 0,
    }
}

impl Heap {
    /// The handle takes over what the other carries, whose actor steps no more.
    pub fn gather<'s>(&self, h: &mut Handle<'s>, other: Handle<'s>)
        requires of { IsHandleOf self.now h.old }
        requires other { IsHandleOf self.now other }
        ensures of { IsHandleOf self.now h.new }
        ensures same { (number_of h.new ≡ number_of h.old) × (machine_of h.new ≡ machine_of h.old) }
        ensures gathered { Gathered h.old other.entry h.new }
    {
        a_state_is_of_its_own_entries::<AnyActor, Op>();
        let Handle {
            hand,
            counts: _,
            carried,
            drawn,
            led,
        } = other;
        let machine = h.hand.join(&self.table.shared, hand);
        let more = drawn.wrapping_add(drawn_by(&machine));
        h.carried += carried;
        h.drawn = h.drawn.wrapping_add(more);
        h.led = first_of(h.led.take(), leader_of(machine, led));
    }

    /// Closes the heap, where the handle carries all its actors. Its words are those after one legal list, which has of each
    /// actor exactly the entries of the handle; the cycles are those that the coordinator has kept by then, and the credit that was
    /// spent is what all processors have drawn. Where the coordinator is done, what was earned is the words that workers have scanned in
    /// that list, and it was spent or has lapsed.
    pub fn close<'s>(self, last: Handle<'s>) -> Closed
        requires of { IsHandleOf self last }
        requires all { carries_of last ≡ seats_of (plan_of self).layout }
        ensures after { IsClosedAfter (plan_of self) (view_of last.entry) result.coordinator result.drawn (slots_items result.words.words) }
        ensures many { slots_len result.words.words ≡ length_of (plan_of self).layout }
    {
        a_state_is_of_its_own_entries::<AnyActor, Op>();
        every_list_of_a_script_balances();
        let Heap { table, layout: _ } = self;
        let Handle {
            hand,
            counts: _,
            carried: _,
            drawn,
            led,
        } = last;
        let (machine, seat) = hand.into_parts();
        let drawn = drawn.wrapping_add(drawn_by(&machine));
        let words = close(table, seat);
        match leader_of(machine, led) {
            Some(coordinator) => Closed {
                words,
                coordinator,
                drawn,
            },
            None => unreachable!(),
        }
    }
}

impl Closed {
    /// How many words there are.
    pub fn count(&self) -> usize
        ensures { result ≡ slots_len self.now.words.words }
    {
        self.words.words.len()
    }

    /// The word of this number.
    pub fn word(&self, i: usize) -> u64
        requires { i < slots_len self.now.words.words }
        ensures { get_elem? (slots_items self.now.words.words) i ≡ some result }
    {
        self.words.word(i)
    }

    /// The swept cycles, in their order: the number of each, and how many objects its sweep kept and freed.
    pub fn cycles(&self) -> &[Cycle]
        ensures { result.now ≡ self.now.coordinator.cycles.items }
    {
        self.coordinator.cycles()
    }

    /// The words of credit that the workers earned and that were spent or have lapsed, modulo 2^64. That is all that they earned, and
    /// scanned, where the coordinator is done ([`Heap::close`]); of a heap that is closed before, what is still in the bank is not in it.
    pub fn earned(&self) -> u64
        ensures { result ≡ earned_by self.now.drawn self.now.coordinator }
    {
        self.drawn.wrapping_add(self.lapsed())
    }

    /// How much of it was spent, modulo 2^64: what processors have drawn from the bank.
    pub fn spent(&self) -> u64
        ensures { result ≡ self.now.drawn }
    {
        self.drawn
    }

    /// How much of it has lapsed, modulo 2^64: what was left in the bank where marking ended.
    pub fn lapsed(&self) -> u64
        ensures { result ≡ lapsed_at self.now.coordinator.lapsed self.now.coordinator.stage }
    {
        self.coordinator.lapsed()
    }

    /// The bytes that were marked in the last swept cycle; 0 where none was swept.
    pub fn live(&self) -> u64
        ensures { result ≡ self.now.coordinator.live }
    {
        self.coordinator.live()
    }
}

impl Drop for Closed {
    fn drop(self) {
        let Closed {
            words,
            coordinator: _,
            drawn: _,
        } = self;
        words.free();
    }
}
