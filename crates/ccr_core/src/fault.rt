//! Why an event is refused.
ghost use Rattle.std.specs.Prelude.{◌≡◌};
ghost use Rattle.ccr_core.specs.declared.fault.CoreFault.TheVariants.{NoMemory};

use std::alloc::AllocError;
use thiserror::Error;

/// Why an event is refused, in the order in which the causes are tested; the core is as it was.
#[derive(Clone, Copy, Debug, PartialEq, Eq, Error)]
pub enum CoreFault {
    /// No pipeline was set.
    #[error("no pipeline")]
    NoPipeline,
    /// The pipeline has no job of this name.
    #[error("no such job")]
    NoJob,
    /// The pipeline has no resource of this name.
    #[error("no such resource")]
    NoResource,
    /// No build of this job and number runs.
    #[error("no such build")]
    NoBuild,
    /// A build runs.
    #[error("builds open")]
    BuildsOpen,
    /// The build has another turn.
    #[error("not wanted")]
    NotWanted,
    /// 64 builds run.
    #[error("too many builds open")]
    TooManyOpen,
    /// There would be more than 100,000 versions in a scope, 1,000,000 scopes or 1,000,000 builds.
    #[error("table full")]
    TableFull,
    /// The resource's table has no such place.
    #[error("no such version")]
    NoVersion,
    /// Out of memory.
    #[error("out of memory")]
    NoMemory,
}

impl From<AllocError> for CoreFault {
    ghost from_gives = { λ _ fault. fault ≡ NoMemory };

    fn from(_error: AllocError) -> CoreFault {
        CoreFault::NoMemory
    }
}
