//! A statement on registers alone: an `int`, a `move` or a `nil`. It loads the touch word, since each
//! statement takes a step.

ghost use Rattle.std.specs.Prelude.{◌≡◌};
ghost use Rattle.gh_mutator.specs.Register.{read_of, step, value_of_source};

use crate::step::{Step, Then};
use gh_base::{Answer, Value};

/// What a register takes.
#[derive(Clone, Copy, Debug, PartialEq, Eq)]
pub enum Source {
    /// This number.
    Int(u64),
    /// What this register holds.
    Move(u32),
    /// Nil.
    Nil,
}

/// Register `d` of goroutine `g` takes a value.
#[derive(Clone, Copy, Debug, PartialEq, Eq)]
pub struct Register {
    pub g: u32,
    pub d: u32,
    pub source: Source,
}

impl Register {
    /// The register that it reads; where it reads none, its own.
    pub(crate) fn read(self) -> u32
        ensures { result ≡ read_of self }
    {
        match self.source {
            Source::Move(s) => s,
            _ => self.d,
        }
    }

    /// The value that the register takes, where the one that is read holds this.
    fn value(self, held: Value) -> Value
        ensures { result ≡ value_of_source held self.source }
    {
        match self.source {
            Source::Int(number) => Value::Int(number),
            Source::Move(_) => held,
            Source::Nil => Value::Nil,
        }
    }

    /// What its step does.
    pub(crate) fn step(self, held: Value) -> Step<Register>
        ensures { result ≡ step held self }
    {
        Step {
            then: Then::Ends(Answer::Done),
            sets: Some(self.value(held)),
            acts: true,
        }
    }
}
