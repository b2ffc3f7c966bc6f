//! Why a text is no script.

ghost use Rattle.std.specs.Prelude.{◌≡◌};
ghost use Rattle.gh_script.specs.declared.fault.ParseError.TheVariants.{NoMemory};

use std::alloc::{AllocError, AllocFailed};
use thiserror::Error;

/// The cause of a refusal.
#[derive(Clone, Copy, Debug, PartialEq, Eq)]
pub enum Why {
    /// The text has more bytes than a script may have.
    Size,
    /// The text is not UTF-8.
    Utf8,
    /// A word is unknown or misspelt, or a line has too many or too few.
    Word,
    /// Something else stands where a number belongs.
    Number,
    /// A number, a length or a count lies outside its limits.
    Limit,
    /// A setting or a name stands a second time.
    Twice,
    /// No type has this name.
    Unknown,
    /// A line stands where it may not.
    Nesting,
    /// There is no goroutine.
    Missing,
}

/// The first line that cannot be continued, from 1 (0: no line), and its first cause.
#[derive(Clone, Copy, Debug, PartialEq, Eq, Error)]
#[error("line {line}: {why:?}")]
pub struct ScriptFault {
    /// The line's number, from 1; 0 where the cause is no line's.
    pub line: u32,
    /// The first cause of the table that it meets.
    pub why: Why,
}

/// Why a text was not parsed.
#[derive(Debug, Drop, Error)]
pub enum ParseError {
    /// Memory ran out.
    #[error("out of memory")]
    NoMemory,
    /// The text is no script.
    #[error("{0}")]
    Script(ScriptFault),
}

impl From<AllocError> for ParseError {
    ghost from_gives = { λ _ e. e ≡ NoMemory };

    fn from(_e: AllocError) -> ParseError {
        ParseError::NoMemory
    }
}

impl<T: Drop> From<AllocFailed<T>> for ParseError {
    ghost from_gives = { λ _ e. e ≡ NoMemory };

    fn from(_e: AllocFailed<T>) -> ParseError {
        ParseError::NoMemory
    }
}
