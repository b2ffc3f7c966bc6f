//! Actors and their routines as machines: each asks for one atomic step at a time, and goes on
//! by what was found.

ghost use Rattle.std.specs.Prelude.{◌≡◌};

use crate::cell::{Ask, Req};

/// A routine that makes one atomic step after the other until it ends.
///
/// Its meaning is its listing, in four ghost members over its own state: whether it is busy, what
/// it asks for, what it goes over to by a found word, and what it gives if it ends with that. A
/// word that is told may be any: `take` is total.
pub trait Machine {
    ghost use Rattle.std.specs.Prelude.{ℕ, ◌≡◌, ◌↔◌, Bool, true, Option, IsNone};
    ghost use Rattle.gh_base.specs.declared.cell.Ask.{Ask};
    ghost use Rattle.gh_base.specs.declared.layout.Layout.{Layout};
    ghost use Rattle.gh_base.specs.Cells.{InRange};
    ghost use Rattle.gh_base.specs.Steps.{cell_of, request};

    /// What it ends with.
    type Out;

    // The heap's layout, in which it numbers words.
    ghost layout: { Self → Layout };

    // It is not finished.
    ghost busy: { Self → Bool };

    // The step that it asks for.
    ghost asks: { Self → Ask };

    // What it is after the step found this.
    ghost goes: { Self → ℕ → Self };

    // What it ends with, if the step that found this is its last.
    ghost gives: { Self → ℕ → Option Self.Out };

    /// The step that it asks for, on a word of its layout.
    fn next(&self) -> Req
        requires { busy self.now ≡ true }
        ensures same { result ≡ request (layout self.now) (asks self.now) }
        ensures within { InRange (layout self.now) (cell_of (asks self.now)) };

    /// Tells it what that step found. It answers `None` exactly where it asks for a further step.
    fn take(&mut self, found: u64) -> Option<Self::Out>
        requires { busy self.old ≡ true }
        ensures state { self.new ≡ goes self.old found }
        ensures out { result ≡ gives self.old found };

    // It has given nothing exactly where it asks for a further step.
    ghost ends: { (m : Self) (found : ℕ) → busy m ≡ true → (IsNone (gives m found) ↔ (busy (goes m found) ≡ true)) };

    // Its layout stays.
    ghost stays: { (m : Self) (found : ℕ) → layout (goes m found) ≡ layout m };
}

/// One step of an actor in a list of steps. No value of it is made: it is what clauses on such
/// lists, and on what a thread has seen of them, speak of.
pub struct Entry<O> {
    /// The actor's seat.
    pub actor: u32,
    /// The operation that it began with this step, if any.
    pub begun: Option<O>,
    /// The step.
    pub ask: Ask,
    /// The word that it found.
    pub found: u64,
}
