//! Which fault a failure of `sqlite` is.
ghost use Rattle.std.specs.Prelude.{◌≡◌};
ghost use Rattle.ccr_tables.specs.Cause.{cause_of};
ghost use Rattle.ccr_store.specs.Faults as spec;

use ccr_history::StoreFault;
use ccr_tables::Cause;
use sqlite::{Error as SqlError, ErrorCode};

/// The fault of an open that failed so: `NoMemory` if out of memory, and else `Disk`, also where the file is no database.
pub fn open_fault_of(error: &SqlError) -> StoreFault
    ensures { result ≡ spec.open_fault_of error.now }
{
    match error {
        SqlError::SqliteFailure(ErrorCode::OutOfMemory) => StoreFault::NoMemory,
        _ => StoreFault::Disk,
    }
}

/// The fault of a call in which `sqlite` failed so.
pub(crate) fn fault_of(error: &SqlError) -> StoreFault
    ensures { result ≡ spec.fault_of (cause_of error.now) }
{
    match Cause::of(error) {
        Cause::Refused => StoreFault::Refused,
        Cause::NoMemory => StoreFault::NoMemory,
        Cause::Disk => StoreFault::Disk,
        Cause::Interrupted => StoreFault::Interrupted,
    }
}
