//! Why a call of the storage is refused.
ghost use Rattle.std.specs.Prelude.{◌≡◌};
ghost use Rattle.ccr_history.specs.declared.store_fault.StoreFault.TheVariants.{NoMemory};

use std::alloc::{AllocError, AllocFailed};
use thiserror::Error;

/// Why a call of the storage is refused.
#[derive(Clone, Copy, Debug, PartialEq, Eq, Error)]
pub enum StoreFault {
    /// A statement was refused.
    #[error("refused")]
    Refused,
    /// Out of memory.
    #[error("out of memory")]
    NoMemory,
    /// The disk failed, is full or locked, or the file can't be used.
    #[error("disk")]
    Disk,
    /// The limit on steps was met.
    #[error("interrupted")]
    Interrupted,
    /// The database has other tables, or rows that no history has.
    #[error("not ours")]
    NotOurs,
}

impl From<AllocError> for StoreFault {
    ghost from_gives = { λ _ fault. fault ≡ NoMemory };

    fn from(_error: AllocError) -> StoreFault {
        StoreFault::NoMemory
    }
}

impl<T: Drop> From<AllocFailed<T>> for StoreFault {
    ghost from_gives = { λ _ fault. fault ≡ NoMemory };

    fn from(_error: AllocFailed<T>) -> StoreFault {
        StoreFault::NoMemory
    }
}
