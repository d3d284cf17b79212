//! Why a job has no problem.
ghost use Rattle.std.specs.Prelude.{◌≡◌};
ghost use Rattle.ccr_problem.specs.declared.fault.ProblemFault.TheVariants.{NoMemory};

use std::alloc::AllocError;
use thiserror::Error;

/// Why there is no problem of a job, in the order in which the causes are tested.
#[derive(Clone, Copy, Debug, PartialEq, Eq, Error)]
pub enum ProblemFault {
    /// The pipeline has no job of this name.
    #[error("no such job")]
    NoJob,
    /// Out of memory.
    #[error("out of memory")]
    NoMemory,
}

impl From<AllocError> for ProblemFault {
    ghost from_gives = { λ _ fault. fault ≡ NoMemory };

    fn from(_error: AllocError) -> ProblemFault {
        ProblemFault::NoMemory
    }
}
