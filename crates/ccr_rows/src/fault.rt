//! Why a line isn't played.
ghost use Rattle.std.specs.Prelude.{◌≡◌};
ghost use Rattle.ccr_rows.specs.declared.fault.LineFault.TheVariants.{NoMemory};

use ccr_pipeline::ReadFault;
use std::alloc::AllocError;
use thiserror::Error;

/// Why a line isn't played.
#[derive(Debug, Drop, Error)]
pub enum LineFault {
    /// No line begins so.
    #[error("no such line")]
    NoSuchLine,
    /// A number of the line isn't one.
    #[error("not a number")]
    NotANumber,
    /// The text isn't a version, or isn't a list of versions where there is to be one.
    #[error("not a version")]
    NotAVersion,
    /// The word isn't a pair of a scope and a place.
    #[error("not a pair")]
    NotAPair,
    /// No build ends with a status of this name.
    #[error("not a status")]
    NotAStatus,
    /// No resource of the pipeline has the name.
    #[error("no resource has this name")]
    NoResource,
    /// The text isn't a pin.
    #[error("not a pin")]
    NotAPin,
    /// No answer is called so.
    #[error("not an answer")]
    NotAnAnswer,
    /// The pipeline or the task file is refused.
    #[error("{0}")]
    Unread(ReadFault),
    /// Out of memory.
    #[error("out of memory")]
    NoMemory,
}

impl From<AllocError> for LineFault {
    ghost from_gives = { λ _ fault. fault ≡ NoMemory };

    fn from(_error: AllocError) -> LineFault {
        LineFault::NoMemory
    }
}

impl From<ReadFault> for LineFault {
    fn from(fault: ReadFault) -> LineFault {
        match fault {
            ReadFault::NoMemory => LineFault::NoMemory,
            fault => LineFault::Unread(fault),
        }
    }
}
