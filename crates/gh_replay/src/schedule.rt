//! Who steps when, as a caller says it.
//!
//! A schedule is a list of items and, for what comes behind the list, a seed or none. The list comes
//! first. An item names one actor, which takes so many steps, or steps until it has so many marks. An item
//! for an actor that does not exist, is done or becomes done ends there. Or so many turns are those of others: an
//! item without an actor goes on whether that actor exists or is done, and ends where all others are done. Behind
//! the list the actors that are not done take turns in ascending order, from actor 0 on; with a seed each turn
//! draws a word of SplitMix64, and is that of number `w mod c`, counted from 0, among the `c` actors that are not
//! done, in ascending order. An item without an actor gives its turns in the same way, among the others: in
//! ascending order from the lowest on, again and again, or by the words that it draws. Other items draw none.

ghost use Rattle.std.specs.Prelude.{◌≡◌};
ghost use Rattle.gh_replay.specs.Plan.{no_plan};

use std::alloc::Global;
use std::marker::Model;

/// How long an item of a list goes on.
#[derive(Clone, Copy, Debug, PartialEq, Eq)]
pub enum Until {
    /// The actor takes so many steps.
    Steps(u32),
    /// The actor steps until its marks are at least so many.
    Marks(u64),
    /// So many turns are taken, by others than the actor.
    Without(u32),
}

/// An item of a list.
#[derive(Clone, Copy, Debug, PartialEq, Eq)]
pub struct Turn {
    /// The actor's number: the processors from 0, then the workers, then the coordinator.
    pub actor: u8,
    /// How long it, or others, step.
    pub until: Until,
}

/// Who steps when: the items of a list, and a seed for what comes behind them, if there is one.
#[derive(Debug, Drop)]
pub struct Schedule {
    /// The items, which come first.
    pub list: Vec<Turn>,
    /// The seed.
    pub seed: Option<u64>,
}

impl Model for Schedule {
    ghost use Rattle.gh_replay.specs.Plan.{Plan};

    ghost Value = { Plan };

    ghost view = { λ s. record { list = s.list.items; seed = s.seed } };
}

impl Schedule {
    /// One that says nothing: the actors take turns in ascending order.
    pub fn unsaid(alloc: Global) -> Schedule
        ensures { result ≡ no_plan }
    {
        Schedule {
            list: Vec::new(alloc),
            seed: None,
        }
    }
}
