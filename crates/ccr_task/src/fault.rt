//! Why a shelf doesn't do what it is asked.
ghost use Rattle.std.specs.Prelude.{◌≡◌};
ghost use Rattle.ccr_task.specs.declared.fault.ShelfFault.TheVariants.{NoMemory};

use std::alloc::AllocError;
use thiserror::Error;

/// Why a shelf doesn't do what it is asked.
#[derive(Clone, Copy, Debug, PartialEq, Eq, Error)]
pub enum ShelfFault {
    /// The shelf failed at the call, and counts it.
    #[error("failed")]
    Failed,
    /// The file has more than 1,048,576 bytes.
    #[error("too long")]
    TooLong,
    /// Out of memory, of this program or of the system.
    #[error("out of memory")]
    NoMemory,
}

impl From<AllocError> for ShelfFault {
    ghost from_gives = { λ _ fault. fault ≡ NoMemory };

    fn from(_error: AllocError) -> ShelfFault {
        ShelfFault::NoMemory
    }
}
