//! Why a heap is not opened, and why its actors are not run.

ghost use Rattle.std.specs.Prelude.{◌≡◌};
ghost use Rattle.gh_shared.specs.declared.fault.OpenFault.TheVariants.{NoMemory};
ghost use Rattle.gh_shared.specs.declared.fault.RunFault.TheVariants as run_faults;

use std::alloc::AllocError;
use thiserror::Error;

/// Why a heap is not opened.
#[derive(Debug, Drop, Error)]
pub enum OpenFault {
    /// Memory ran out.
    #[error("out of memory")]
    NoMemory,
}

impl From<AllocError> for OpenFault {
    ghost from_gives = { λ _ e. e ≡ NoMemory };

    fn from(_e: AllocError) -> OpenFault {
        OpenFault::NoMemory
    }
}

/// Why the actors of a heap are not run.
#[derive(Debug, Drop, Error)]
pub enum RunFault {
    /// Memory ran out.
    #[error("out of memory")]
    NoMemory,
    /// No thread could be had for some actor.
    #[error("no threads")]
    NoThread,
    /// The handles that came back do not carry all actors.
    #[error("an actor is missing")]
    NotAll,
}

impl From<AllocError> for RunFault {
    ghost from_gives = { λ _ e. e ≡ run_faults.NoMemory };

    fn from(_e: AllocError) -> RunFault {
        RunFault::NoMemory
    }
}
