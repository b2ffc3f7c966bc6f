//! Why a replay has no answers.

ghost use Rattle.std.specs.Prelude.{◌≡◌};
ghost use Rattle.gh_replay.specs.declared.fault.ReplayFault.TheVariants.{NoMemory};

use std::alloc::AllocError;
use thiserror::Error;

/// Why a replay has no answers.
#[derive(Debug, Drop, Error)]
pub enum ReplayFault {
    /// Memory ran out, before the first turn.
    #[error("out of memory")]
    NoMemory,
    /// So many turns were taken, which is the budget, and an actor is not done.
    #[error("turns {0}")]
    OutOfTurns(u64),
}

impl From<AllocError> for ReplayFault {
    ghost from_gives = { λ _ e. e ≡ NoMemory };

    fn from(_e: AllocError) -> ReplayFault {
        ReplayFault::NoMemory
    }
}
