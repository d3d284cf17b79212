//! Why a build doesn't take an answer.
ghost use Rattle.std.specs.Prelude.{◌≡◌};
ghost use Rattle.ccr_steps.specs.declared.fault.FeedFault.TheVariants.{NoMemory};

use std::alloc::AllocError;
use thiserror::Error;

/// Why a build doesn't take an answer; the build is as it was.
#[derive(Clone, Copy, Debug, PartialEq, Eq, Error)]
pub enum FeedFault {
    /// The build has ended: it asks nothing.
    #[error("nothing asked")]
    NothingAsked,
    /// Out of memory.
    #[error("out of memory")]
    NoMemory,
}

impl From<AllocError> for FeedFault {
    ghost from_gives = { λ _ fault. fault ≡ NoMemory };

    fn from(_error: AllocError) -> FeedFault {
        FeedFault::NoMemory
    }
}
