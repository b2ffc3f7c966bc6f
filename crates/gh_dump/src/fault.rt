//! Why a text is no certificate.

ghost use Rattle.std.specs.Prelude.{◌≡◌, ◌≤◌, length};
ghost use Rattle.gh_dump.specs.Causes.{cause_word};
ghost use Rattle.gh_dump.specs.declared.fault.VerifyError.TheVariants.{NoMemory};

use std::alloc::AllocError;
use thiserror::Error;

/// The cause for which a line is refused, in the order of the table.
#[derive(Clone, Copy, Debug, PartialEq, Eq)]
pub enum DumpWhy {
    /// The text has more bytes than a dump may have.
    Size,
    /// The line is none of the forms, or it stands where it may not.
    Word,
    /// The object is listed already, or a number isn't above the last one of its group.
    Twice,
    /// The object that is named is listed nowhere.
    Unknown,
    /// What the line says of the object's origin isn't listed.
    Parent,
    /// The numbers aren't those of what is listed.
    Total,
}

impl DumpWhy {
    /// The cause in one word: `size`, `word`, `twice`, `unknown`, `parent` or `total`.
    pub fn word(&self) -> &'static [u8]
        ensures word { result.now ≡ cause_word self.now }
        ensures short { length result.now ≤ 7 }
    {
        match self {
            DumpWhy::Size => b"size",
            DumpWhy::Word => b"word",
            DumpWhy::Twice => b"twice",
            DumpWhy::Unknown => b"unknown",
            DumpWhy::Parent => b"parent",
            DumpWhy::Total => b"total",
        }
    }
}

/// The first line with a cause, from 1 (0: no line), and its first cause.
#[derive(Clone, Copy, Debug, PartialEq, Eq, Error)]
#[error("line {line}: {why:?}")]
pub struct DumpFault {
    /// The line's number, from 1; 0 if the cause is no line's.
    pub line: u32,
    /// The first cause of the table that it has.
    pub why: DumpWhy,
}

/// Why a text was not verified.
#[derive(Debug, Drop, Error)]
pub enum VerifyError {
    /// Memory ran out.
    #[error("out of memory")]
    NoMemory,
    /// A line of the text has a cause.
    #[error("{0}")]
    Dump(DumpFault),
}

impl From<AllocError> for VerifyError {
    ghost from_gives = { λ _ e. e ≡ NoMemory };

    fn from(_e: AllocError) -> VerifyError {
        VerifyError::NoMemory
    }
}
