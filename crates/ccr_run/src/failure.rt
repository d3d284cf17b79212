//! Why a command has no status.
ghost use Rattle.std.specs.Prelude.{◌≡◌};
ghost use Rattle.ccr_run.specs.declared.failure.Failure.TheVariants.{Refused, Unread};
ghost use Rattle.ccr_serve.specs.declared.fault.ServeFault.TheVariants.{Store, NoMemory};

use ccr_look::CopyFault;
use ccr_serve::ServeFault;
use ccr_store::StoreFault;
use sqlite::Error;
use std::alloc::AllocError;

/// Why a command has no status.
#[derive(Drop)]
pub enum Failure {
    /// Another program has the database open.
    Locked,
    /// The database can't be opened: what SQLite answered.
    Unopened(Error),
    /// No server is made, or it ends the command early.
    Refused(ServeFault),
    /// There is no database to look at, or it can't be read.
    Unread(CopyFault),
    /// A look finds no history in what was read.
    Unfound(StoreFault),
}

impl From<ServeFault> for Failure {
    ghost from_gives = { λ fault failure. failure ≡ Refused fault };

    fn from(fault: ServeFault) -> Failure {
        Failure::Refused(fault)
    }
}

impl From<StoreFault> for Failure {
    ghost from_gives = { λ fault failure. failure ≡ Refused (Store fault) };

    fn from(fault: StoreFault) -> Failure {
        Failure::Refused(ServeFault::Store(fault))
    }
}

impl From<CopyFault> for Failure {
    ghost from_gives = { λ fault failure. failure ≡ Unread fault };

    fn from(fault: CopyFault) -> Failure {
        Failure::Unread(fault)
    }
}

impl From<AllocError> for Failure {
    ghost from_gives = { λ _ failure. failure ≡ Refused NoMemory };

    fn from(_error: AllocError) -> Failure {
        Failure::Refused(ServeFault::NoMemory)
    }
}
