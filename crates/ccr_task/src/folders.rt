//! The machine's folders.
ghost use Rattle.std.specs.Prelude.{◌≡◌, ◌≢◌, ◌≤◌, ◌<◌, [], length, IfOk, IfErr, IfSome, IsOk, IsOkAnd, IsErrAnd, MatchResult, vec_len};
ghost use Rattle.std.specs.IoError.{error_kind};
ghost use Rattle.ccr_task.specs.Calls.{counts_of};
ghost use Rattle.ccr_task.specs.Shelves.{IsFaultOf, RemovesAs, SeesAs, folders_calls};

use crate::calls::Call;
use crate::counts::ShelfCounts;
use crate::fault::ShelfFault;
use crate::noted::Noted;
use crate::shelf::{MOST_FILE, Shelf};
use std::alloc::Global;
use std::io::{ErrorKind, Read};
use std::rt::Files;
use std::{fs, io};

/// How often a file is read before it is given up.
const MOST_READS: u32 = 1_000_000_000;

/// The machine's folders and files, by a runtime `R`.
///
/// Paths count from the folder that the program runs in. A link is followed, except where a folder is removed: then the
/// link goes, and what it leads to stays. Nothing but a file is read: what else has bytes, as a pipe, is a failure.
#[derive(Drop)]
pub struct Folders<R> {
    rt: R,
    alloc: Global,
    noted: Noted,
}

/// What an error of the system counts as.
fn fault_of(error: &io::Error) -> ShelfFault
    ensures { IsFaultOf (error_kind error.now) result }
{
    if error.kind() == ErrorKind::OutOfMemory {
        ShelfFault::NoMemory
    } else {
        ShelfFault::Failed
    }
}

/// What the system's answer to the making of a folder comes to.
fn made(end: io::Result<()>) -> Result<(), ShelfFault>
    ensures { MatchResult end (λ _. IsOk result)
        (λ error. IsErrAnd result (IsFaultOf (error_kind error))) }
{
    end.map_err(|error| fault_of(&error))
}

/// What the system's answer to the removal of a folder comes to: one that isn't there is removed.
fn removed(end: io::Result<()>) -> Result<(), ShelfFault>
    ensures { MatchResult end (λ _. IsOk result) (λ error. RemovesAs (error_kind error) result) }
{
    match end {
        Ok(()) => Ok(()),
        Err(error) if error.kind() == ErrorKind::NotFound => Ok(()),
        Err(error) => Err(fault_of(&error)),
    }
}

/// What the system's answer to the question whether a folder is there comes to: what isn't there is none.
fn seen(end: io::Result<bool>) -> Result<bool, ShelfFault>
    ensures { MatchResult end (λ is_folder. result ≡ Ok is_folder) (λ error. SeesAs (error_kind error) result) }
{
    match end {
        Ok(is_folder) => Ok(is_folder),
        Err(error) if error.kind() == ErrorKind::NotFound => Ok(false),
        Err(error) => Err(fault_of(&error)),
    }
}

/// All bytes that a reader has left. An interrupted read counts and is tried again.
fn read_all<T: Read>(alloc: Global, reader: &mut T) -> Result<Vec<u8>, ShelfFault>
    ensures short { IfOk result (λ bytes. vec_len bytes ≤ MOST_FILE) }
    ensures whole { IfOk result (λ bytes. IfSome (T.remaining reader.old) (λ all. bytes.items ≡ all)) }
    ensures too_long { result ≡ Err ShelfFault.TooLong
        → IfSome (T.remaining reader.old) (λ all. MOST_FILE < length all) }
{
    let mut bytes = Vec::new(alloc);
    let mut chunk = [0u8; 8192];
    for _ in 0..MOST_READS {
        match reader.read(&mut chunk) {
            Ok(0) => return Ok(bytes),
            Ok(count) if count > MOST_FILE - bytes.len() => return Err(ShelfFault::TooLong),
            Ok(count) => bytes.extend_from_slice(&chunk[..count])?,
            Err(error) if error.kind() == ErrorKind::Interrupted => {}
            Err(error) => return Err(fault_of(&error)),
        }
    }
    Err(ShelfFault::Failed)
}

/// All bytes of a file that the system was asked to open, as [`Folders`] reads it.
///
/// `Failed` if it wasn't opened, a read failed, or its end wasn't reached after 1,000,000,000 reads, interrupted ones
/// included; `TooLong` if it has more than 1,048,576 bytes; `NoMemory`.
pub fn read_opened<T: Read + Drop>(
    alloc: Global,
    opened: io::Result<T>,
) -> Result<Vec<u8>, ShelfFault>
    ensures short { IfOk result (λ bytes. vec_len bytes ≤ MOST_FILE) }
    ensures whole { IfOk result (λ bytes. IsOkAnd opened
        (λ file. IfSome (T.remaining file) (λ all. bytes.items ≡ all))) }
    ensures too_long { result ≡ Err ShelfFault.TooLong → IsOkAnd opened
        (λ file. IfSome (T.remaining file) (λ all. MOST_FILE < length all)) }
    ensures unopened { IfErr opened (λ error. IsErrAnd result (IsFaultOf (error_kind error))) }
{
    match opened {
        Ok(mut file) => read_all(alloc, &mut file),
        Err(error) => Err(fault_of(&error)),
    }
}

/// Opens what a path leads to if it is a file. It is looked at first, since opening a pipe would wait for a writer.
fn open_file<R: Files>(rt: &R, path: &str) -> io::Result<R::File> {
    if fs::metadata(rt, path)?.is_file() {
        fs::open(rt, path)
    } else {
        Err(io::Error::from(ErrorKind::InvalidInput))
    }
}

/// Whether what a path leads to is a folder.
fn is_folder<R: Files>(rt: &R, path: &str) -> io::Result<bool> {
    Ok(fs::metadata(rt, path)?.is_dir())
}

impl<R> Folders<R> {
    /// The machine's folders, of which nothing was asked yet.
    pub fn new(rt: R, alloc: Global) -> Folders<R>
        ensures { folders_calls result ≡ [] }
    {
        Folders {
            rt,
            alloc,
            noted: Noted::new(),
        }
    }

    /// What was counted so far.
    pub fn counts(&self) -> ShelfCounts
        ensures { result ≡ counts_of (folders_calls self.now) }
    {
        self.noted.counts()
    }
}

impl<R: Files + Drop> Shelf for Folders<R> {
    ghost calls = { folders_calls };

    fn make_folder(&mut self, path: &str) -> Result<(), ShelfFault> {
        let answer = made(fs::create_dir_all(&self.rt, path));
        self.noted.note(&Call::Make(path, &answer));
        answer
    }

    fn read_file(&mut self, path: &str) -> Result<Vec<u8>, ShelfFault> {
        let answer = read_opened(self.alloc, open_file(&self.rt, path));
        self.noted.note(&Call::Read(path, &answer));
        answer
    }

    fn remove_folder(&mut self, path: &str) -> Result<(), ShelfFault> {
        let answer = removed(self.rt.remove_dir_all(self.alloc, path));
        self.noted.note(&Call::Remove(path, &answer));
        answer
    }

    fn has_folder(&mut self, path: &str) -> Result<bool, ShelfFault> {
        let answer = seen(is_folder(&self.rt, path));
        self.noted.note(&Call::Has(path, &answer));
        answer
    }
}
