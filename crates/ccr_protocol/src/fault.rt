//! Why a request isn't sent, and why a reply isn't read.
ghost use Rattle.std.specs.Prelude.{◌≡◌};
ghost use Rattle.ccr_protocol.specs.declared.fault.RequestFault.TheVariants.{NoMemory};
ghost use Rattle.ccr_protocol.specs.declared.fault.ReplyFault.TheVariants.{NoMemory as NoMemoryToRead};

use std::alloc::{AllocError, AllocFailed};
use thiserror::Error;

/// Why a request isn't sent, in the order in which the causes are tested.
#[derive(Clone, Copy, Debug, PartialEq, Eq, Error)]
pub enum RequestFault {
    /// The text has more than 65,536 bytes.
    #[error("request too long")]
    TooLong,
    /// Out of memory.
    #[error("out of memory")]
    NoMemory,
}

/// Why a reply isn't read: the first fault that is met, members of a list in their order.
#[derive(Clone, Copy, Debug, PartialEq, Eq, Error)]
pub enum ReplyFault {
    /// The bytes are no JSON value.
    #[error("not JSON")]
    NotJson,
    /// The value, a member of the list or the version is of another kind.
    #[error("wrong kind")]
    WrongKind,
    /// A field of a version isn't a text.
    #[error("version not text")]
    VersionNotText,
    /// The reply has no version.
    #[error("missing version")]
    MissingVersion,
    /// Out of memory.
    #[error("out of memory")]
    NoMemory,
}

impl From<AllocError> for RequestFault {
    ghost from_gives = { λ _ fault. fault ≡ NoMemory };

    fn from(_error: AllocError) -> RequestFault {
        RequestFault::NoMemory
    }
}

impl<T: Drop> From<AllocFailed<T>> for ReplyFault {
    ghost from_gives = { λ _ fault. fault ≡ NoMemoryToRead };

    fn from(_error: AllocFailed<T>) -> ReplyFault {
        ReplyFault::NoMemory
    }
}
