//! What the steps of a world say, and what is known at its end.

ghost use Rattle.std.specs.Prelude.{◌≡◌};
ghost use Rattle.gh_world.specs.World.{done_or, event_at, told_event};

use gh_base::Answer;
use gh_coord::Cycle;

/// What a step of an actor says.
#[derive(Clone, Copy, Debug, PartialEq, Eq)]
pub enum Event {
    /// Nothing more.
    Moved,
    /// It ended statement `n` of goroutine `g`, counted from 1, which is answered so.
    Answered { g: u32, n: u32, answer: Answer },
    /// It told that cycle `k`, counted from 1, is swept: so many objects it kept, and so many it freed.
    Swept { k: u64, marked: u64, freed: u64 },
    /// The actor is done.
    Finished,
}

/// What is known at the end of a run, beside its answers and its cycles.
#[derive(Clone, Copy, Debug, PartialEq, Eq)]
pub struct Totals {
    /// The objects that the last cycle marked, and the bytes of their slots.
    pub objects: u64,
    pub live: u64,
    /// The credit that workers earned, and how much of it was spent and has lapsed, in words of the heap.
    pub earned: u64,
    pub spent: u64,
    pub lapsed: u64,
}

/// What a step of the processor says, where statement `n` of goroutine `g` was begun last: the actor's last
/// step, or one that ends a statement or none.
pub fn event_at(g: u32, n: u32, is_last: bool, answer: Option<Answer>) -> Event
    ensures { result ≡ event_at (g, n) is_last answer }
{
    if is_last {
        return Event::Finished;
    }
    match answer {
        Some(answer) => Event::Answered { g, n, answer },
        None => Event::Moved,
    }
}

/// What a step says that tells this cycle to be swept, or none.
pub fn told_event(told: Option<Cycle>) -> Event
    ensures { result ≡ told_event told }
{
    match told {
        Some(Cycle { k, marked, freed }) => Event::Swept { k, marked, freed },
        None => Event::Moved,
    }
}

/// What a step says by which its actor is done, and else this.
pub fn done_or(out: Option<()>, other: Event) -> Event
    ensures { result ≡ done_or out other }
{
    match out {
        Some(()) => Event::Finished,
        None => other,
    }
}
