//! The two files of a database, in memory.
ghost use Rattle.std.specs.Prelude.{IsTrue};
ghost use Rattle.sqlite_disk.specs.Memory.{memory_is_usable};

use anyhow::Result;
use sqlite::{Files, Options};
use sqlite_disk::{Crash, Disk, Fuse, Memory};
use std::alloc::{AllocError, Global};

/// Files of which one may fail.
pub(super) type Fused = Files<Fuse<Memory>>;

/// How the files are used. Few pages are kept in memory, so that there are many calls of a file. A log that is so many
/// frames long is copied into the database.
pub(super) fn options(frames: u32) -> Options {
    Options {
        cache_pages: 2,
        spill_pages: 2,
        checkpoint_frames: frames as usize,
        seed: 1,
    }
}

/// Two files without a byte.
pub(super) fn empty_files(alloc: Global) -> Files<Memory>
    ensures { IsTrue (memory_is_usable result.log) × IsTrue (memory_is_usable result.db) }
{
    Files {
        log: Memory::new(alloc),
        db: Memory::new(alloc),
    }
}

/// A file that holds these bytes, which a crash leaves.
pub(super) fn file_of(alloc: Global, bytes: &[u8]) -> Result<Memory> {
    let mut file = Memory::new(alloc);
    file.write_at(0, bytes)?;
    file.sync()?;
    Ok(file)
}

/// A file with the bytes of another, which fails after so many calls.
fn fused_copy(alloc: Global, file: &Memory, calls: u64) -> Result<Fuse<Memory>> {
    Ok(Fuse::new(file_of(alloc, file.bytes())?, calls))
}

/// Copies of these files that fail after so many calls.
pub(super) fn fused(
    alloc: Global,
    files: &Files<Memory>,
    log_calls: u64,
    db_calls: u64,
) -> Result<Fused> {
    Ok(Files {
        log: fused_copy(alloc, &files.log, log_calls)?,
        db: fused_copy(alloc, &files.db, db_calls)?,
    })
}

/// What a program that is killed leaves: all that it wrote.
pub(super) fn left_by_kill(alloc: Global, files: &Fused) -> Result<Files<Memory>> {
    Ok(Files {
        log: file_of(alloc, files.log.inner().bytes())?,
        db: file_of(alloc, files.db.inner().bytes())?,
    })
}

/// What a crash of the machine leaves: what was synced.
pub(super) fn left_by_crash(files: Fused) -> Fused {
    let mut files = files;
    files.log.crash();
    files.db.crash();
    files
}

/// The bytes of both files.
pub(super) fn bytes_of(
    alloc: Global,
    files: &Files<Memory>,
) -> Result<(Vec<u8>, Vec<u8>), AllocError> {
    let log = Vec::from_slice(alloc, files.log.bytes())?;
    let db = Vec::from_slice(alloc, files.db.bytes())?;
    Ok((log, db))
}
