//! The right to run an actor of a heap.

ghost use Rattle.gh_base.specs.Lists.{by};
ghost use Rattle.gh_shared.specs.Shown.{CarriesSo, IsKeptByHandle};

use gh_actor::{ActorMachine, AnyActor, Counts, HeapPlan};
use gh_base::Op;
use gh_coord::Coord;
use gh_table::Hand;

/// An actor of a heap: its machine, and the seat that carries it. Whoever has it runs the actor, and no other does; it may
/// go to another thread.
#[derive(Drop)]
pub struct Handle<'s> {
    pub hand: Hand<AnyActor, Op, HeapPlan, ActorMachine<'s>>,
    pub counts: Counts,
    /// How many actors the seat carries.
    pub carried: u32,
    /// The words of credit that they have drawn, modulo 2^64, beside its own actor, which counts its own.
    pub drawn: u64,
    /// The coordinator's machine, once the coordinator's handle was gathered.
    pub led: Option<Coord>,
    pub ghost kept: { IsKeptByHandle hand.seat.me.0.plan hand.actor hand.machine.actor (by hand.actor hand.seat.me.0.log) counts.procs counts.left.items counts.over.items counts.gone },
    pub ghost carries: { CarriesSo hand.seat.me.0.plan hand.seat.me.0.actors hand.seat.me.0.log hand.actor hand.machine.actor carried drawn led },
}
