//! Why a call of `sqlite` failed.

ghost use Rattle.std.specs.Prelude.{◌≡◌};
ghost use Rattle.ccr_tables.specs.Cause.{cause_of};

use sqlite::{Error, ErrorCode};

/// The four causes that a caller tells apart.
#[derive(Clone, Copy, PartialEq, Eq)]
pub enum Cause {
    /// The statement was refused; nothing is wrong with memory or disk.
    Refused,
    /// Out of memory.
    NoMemory,
    /// The disk failed, is full or locked, or the file can't be used; also each call after such a failure.
    Disk,
    /// The limit on steps was met.
    Interrupted,
}

impl Cause {
    /// The cause that an error of SQLite stands for.
    pub fn of(error: &Error) -> Cause
        ensures { result ≡ cause_of error.now }
    {
        match error {
            Error::SqliteFailure(ErrorCode::OutOfMemory) => Cause::NoMemory,
            Error::SqliteFailure(
                ErrorCode::SystemIoFailure
                | ErrorCode::DiskFull
                | ErrorCode::DatabaseCorrupt
                | ErrorCode::DatabaseBusy
                | ErrorCode::CannotOpen
                | ErrorCode::Closed,
            ) => Cause::Disk,
            Error::SqliteFailure(ErrorCode::OperationInterrupted) => Cause::Interrupted,
            _ => Cause::Refused,
        }
    }
}
