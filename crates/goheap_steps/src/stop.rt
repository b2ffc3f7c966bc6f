//! Why there are no turns, or not all of them.

use gh_io::Failed;
use std::alloc::{AllocError, AllocFailed};

/// Why there are no turns, or not all of them.
#[derive(Clone, Copy, Debug, PartialEq, Eq)]
pub enum Stop {
    /// The words are no list.
    BadWords,
    /// The text is no script.
    BadScript,
    /// Standard input failed.
    ReadFault,
    /// Standard output failed.
    WriteFault,
    /// Memory ran out.
    NoMemory,
    /// As many turns were told as are told at most.
    OutOfTurns,
}

impl Stop {
    /// The status of the process, as `goheap` ends.
    pub fn code(self) -> u8 {
        match self {
            Stop::BadWords => 2,
            Stop::BadScript => 3,
            Stop::ReadFault => 4,
            Stop::WriteFault => 5,
            Stop::NoMemory => 6,
            Stop::OutOfTurns => 8,
        }
    }
}

impl From<AllocError> for Stop {
    fn from(_e: AllocError) -> Stop {
        Stop::NoMemory
    }
}

impl<T: Drop> From<AllocFailed<T>> for Stop {
    fn from(_e: AllocFailed<T>) -> Stop {
        Stop::NoMemory
    }
}

impl From<Failed> for Stop {
    fn from(_e: Failed) -> Stop {
        Stop::WriteFault
    }
}
