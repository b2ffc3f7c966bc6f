//! What one step of a statement does.

ghost use Rattle.std.specs.Prelude.{◌≡◌};
ghost use Rattle.gh_mutator.specs.Step.{ends, goes_on};

use gh_base::{Answer, Value};

/// What follows a step.
#[derive(Clone, Copy, Debug, PartialEq, Eq)]
pub enum Then<S> {
    /// The statement goes on so.
    GoesOn(S),
    /// It ends, and is answered so.
    Ends(Answer),
}

/// What a step of a statement does that has found its word. All else is read off it: what the statement
/// is answered, what becomes of the processor, and where the statement acts.
#[derive(Clone, Copy, Debug, PartialEq, Eq)]
pub struct Step<S> {
    /// What follows.
    pub then: Then<S>,
    /// What the statement's register takes.
    pub sets: Option<Value>,
    /// The step is the statement's point: by it the statement acts.
    pub acts: bool,
}

impl<S> Step<S> {
    /// The statement goes on so, and the step does nothing else.
    pub(crate) fn goes_on(next: S) -> Step<S>
        ensures { result ≡ goes_on next }
    {
        Step {
            then: Then::GoesOn(next),
            sets: None,
            acts: false,
        }
    }

    /// The statement acts by the step, and ends with this answer.
    pub(crate) fn ends(answer: Answer) -> Step<S>
        ensures { result ≡ ends answer }
    {
        Step {
            then: Then::Ends(answer),
            sets: None,
            acts: true,
        }
    }
}
