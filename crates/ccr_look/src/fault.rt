//! Why a database isn't read.
ghost use Rattle.std.specs.Prelude.{◌≡◌};
ghost use Rattle.ccr_look.specs.declared.fault.CopyFault.TheVariants.{NoMemory};

use std::alloc::AllocError;

/// Why a database isn't read. Nothing was written.
#[derive(Clone, Copy, PartialEq, Eq)]
pub enum CopyFault {
    /// Nothing is at the path.
    NoFile,
    /// Nothing is at the path, and a log of it lies beside it.
    OnlyLog,
    /// The file is empty.
    Empty,
    /// What is there, or its log, is a directory, a device, or something else that is no file.
    NotAFile,
    /// A journal lies beside the file, which no program has rolled back yet.
    Journal,
    /// It changed all the time: at each try a checkpoint ended meanwhile.
    Restless,
    /// It can't be read.
    Unread,
    /// Out of memory.
    NoMemory,
}

impl From<AllocError> for CopyFault {
    ghost from_gives = { λ _ fault. fault ≡ NoMemory };

    fn from(_error: AllocError) -> CopyFault {
        CopyFault::NoMemory
    }
}
