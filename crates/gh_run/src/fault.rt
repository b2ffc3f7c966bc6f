//! Why a script is not run.

ghost use Rattle.std.specs.Prelude.{◌≡◌};
ghost use Rattle.gh_run.specs.declared.fault.RunFault.TheVariants.{NoMemory};

use gh_shared::OpenFault;
use std::alloc::AllocError;
use thiserror::Error;

/// Why a script is not run. No actor has made a step then.
#[derive(Debug, Drop, Error)]
pub enum RunFault {
    /// No thread could be had for some actor. The spawner has counted a fault.
    #[error("no threads")]
    NoThread,
    /// Memory ran out before any actor ran.
    #[error("out of memory")]
    NoMemory,
}

impl From<AllocError> for RunFault {
    ghost from_gives = { λ _ e. e ≡ NoMemory };

    fn from(_e: AllocError) -> RunFault {
        RunFault::NoMemory
    }
}

impl From<OpenFault> for RunFault {
    ghost from_gives = { λ _ e. e ≡ NoMemory };

    fn from(_e: OpenFault) -> RunFault {
        RunFault::NoMemory
    }
}
