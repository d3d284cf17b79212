//! A database over bytes that were read, in memory.
ghost use Rattle.std.specs.Prelude.{◌≡◌, false, IfOk, IfErr};
ghost use Rattle.sqlite.specs.Files.{file_state};
ghost use Rattle.ccr_look.specs.Looks.{image_of, IsOpenedOver, IsShut};
ghost use Rattle.ccr_look.specs.Scratch.{scratch_bytes};

use crate::copied::Copied;
use crate::scratch::Scratch;
use ccr_store::{StoreFault, open_fault_of};
use sqlite::{Connection, FileStore, Files, Options};
use sqlite_disk::Disk;
use std::alloc::Global;

/// How many pages are kept beside the bytes, each of 4,096 bytes as a rule.
const CACHE_PAGES: usize = 256;

/// The two files, which are what was read, and no copy of it.
fn files_of(copied: Copied<'_>) -> Files<Scratch>
    ensures log { scratch_bytes result.log ≡ copied.entry.log.items }
    ensures db { scratch_bytes result.db ≡ copied.entry.db.items }
{
    let Copied {
        path: _,
        calls: _,
        db,
        log,
    } = copied;
    Files {
        log: Scratch::new(log),
        db: Scratch::new(db),
    }
}

/// How a database in memory is opened: a page that isn't kept is near.
fn options() -> Options {
    // Nothing of the seed gets to a disk.
    let mut options = Options::new(1);
    options.cache_pages = CACHE_PAGES;
    options
}

/// The database of the bytes that were read. What is written to it stays in memory.
///
/// The fault is that of the open.
pub(crate) fn open(
    alloc: Global,
    copied: Copied<'_>,
) -> Result<Connection<FileStore<Scratch>>, StoreFault>
    ensures opened { IfOk result (λ conn. IsOpenedOver (image_of copied.entry) conn) }
    ensures idle { IfOk result (λ conn. (file_state conn).in_transaction ≡ false) }
    ensures shut { IfErr result (IsShut ⟦<Scratch as Disk>⟧ (image_of copied.entry)) }
{
    let files = files_of(copied);
    match Connection::open_files(alloc, files, options()) {
        Ok(conn) => Ok(conn),
        Err((error, _)) => Err(open_fault_of(&error)),
    }
}
