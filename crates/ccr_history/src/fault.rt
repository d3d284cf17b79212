//! Why a call of this crate is refused.
ghost use Rattle.std.specs.Prelude.{◌≡◌};
ghost use Rattle.ccr_history.specs.declared.fault.HistoryFault.TheVariants.{NoMemory};

use std::alloc::{AllocError, AllocFailed};
use thiserror::Error;

/// Why a call is refused, in the order in which the causes are tested.
#[derive(Clone, Copy, Debug, PartialEq, Eq, Error)]
pub enum HistoryFault {
    /// The JSON value isn't an object.
    #[error("not an object")]
    NotObject,
    /// A field of the object isn't a text.
    #[error("version not text")]
    VersionNotText,
    /// Out of memory.
    #[error("out of memory")]
    NoMemory,
    /// A scope would have too many versions, or there would be too many scopes.
    #[error("table full")]
    TableFull,
    /// There are as many builds as are kept.
    #[error("too many builds")]
    BuildsFull,
    /// The job has no build of this number.
    #[error("no such build")]
    NoBuild,
    /// The build has ended already.
    #[error("already ended")]
    AlreadyEnded,
    /// The scope's table has no such place.
    #[error("no such version")]
    NoVersion,
}

impl From<AllocError> for HistoryFault {
    ghost from_gives = { λ _ fault. fault ≡ NoMemory };

    fn from(_error: AllocError) -> HistoryFault {
        HistoryFault::NoMemory
    }
}

impl<T: Drop> From<AllocFailed<T>> for HistoryFault {
    ghost from_gives = { λ _ fault. fault ≡ NoMemory };

    fn from(_error: AllocFailed<T>) -> HistoryFault {
        HistoryFault::NoMemory
    }
}
