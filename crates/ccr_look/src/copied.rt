//! The bytes of a database and its log, read while another program may write both.
//!
//! A database is two files. Between two checkpoints its own file doesn't change, and a committed frame of the log
//! doesn't either: so what is read of the file, and then of the log, is together what a crash may leave, if no
//! checkpoint has ended between. A checkpoint gives the log another header, whose salt always differs.
ghost use Rattle.std.specs.Prelude.{◌≡◌, ◌++◌, [], ◌∷◌, codes, string_bytes, take, Decides, IfOk, IfSome, MatchResult};
ghost use Rattle.ccr_look.specs.Answers.{log_fault, absence, file_fault, journal_fault};
ghost use Rattle.ccr_look.specs.Noted.{noted};
ghost use Rattle.ccr_look.specs.Parts.{Adds};
ghost use Rattle.ccr_look.specs.Reads.{AreRead, BelongTogether, CameOf, Copies, Gives, IsCutAt, IsNotThere, IsReadInOrder, IsThere};
ghost use Rattle.ccr_look.specs.Reads.{parts_of, place_named, place_of};
ghost use Rattle.ccr_look.specs.declared.copied.TheConstants.{HEADER};

use crate::calls::{Calls, Found};
use crate::fault::CopyFault;
use crate::noted::Reader;
use crate::reads::{fault_of, read};
use std::alloc::{AllocError, Global};
use std::rt::Files;

/// How long the header of a log is.
const HEADER: usize = 32;

/// As many bytes as there are.
const ALL: usize = usize::MAX;

/// How often the files are read before a look is given up.
const MOST_TRIES: u32 = 100;

/// What was read of a database. Only [`copy`] and [`copy_with`] make one.
#[derive(Drop)]
pub struct Copied<'a> {
    /// Where it is.
    pub path: &'a str,
    // All calls of its reader until then.
    pub(crate) calls: Calls,
    // The bytes of its own file.
    pub(crate) db: Vec<u8>,
    // The bytes of its log; none where it has no log.
    pub(crate) log: Vec<u8>,
}

/// Where the files of a database are.
#[derive(Drop)]
struct Names {
    db: String,
    log: String,
    journal: String,
}

/// What a try read.
#[derive(Drop)]
struct Parts {
    // The header of the log, before the others were read.
    before: Vec<u8>,
    db: Vec<u8>,
    log: Vec<u8>,
    // The header of the log that was there at the end.
    after: Vec<u8>,
}

/// The name of what lies beside a file, by how it ends.
fn beside(alloc: Global, path: &str, end: &str) -> Result<String, AllocError>
    ensures { IfOk result (λ name. string_bytes name ≡ path.now ++ end.now) }
{
    let mut name = String::from_str(alloc, path)?;
    name.push_str(end)?;
    Ok(name)
}

/// Where the files of the database at a path are.
fn names_of(alloc: Global, path: &str) -> Result<Names, AllocError>
    ensures { IfOk result (λ names. place_named names ≡ place_of path.now) }
{
    Ok(Names {
        db: String::from_str(alloc, path)?,
        log: beside(alloc, path, "-wal")?,
        journal: beside(alloc, path, "-journal")?,
    })
}

/// Why a database isn't read whose log is so.
fn log_fault(log: Found) -> Option<CopyFault>
    ensures { result ≡ log_fault log }
{
    match log {
        Found::File(_) | Found::Nothing => None,
        Found::NoFile => Some(CopyFault::NotAFile),
        Found::Unseen(trouble) => Some(fault_of(trouble)),
    }
}

/// Why a database isn't read whose own file isn't there, and whose log is so.
fn absence(log: Found) -> CopyFault
    ensures { result ≡ absence log }
{
    match log {
        Found::File(_) => CopyFault::OnlyLog,
        Found::NoFile | Found::Nothing | Found::Unseen(_) => CopyFault::NoFile,
    }
}

/// Why a database isn't read whose own file is so, and whose log so.
fn file_fault(log: Found, file: Found) -> Option<CopyFault>
    ensures { result ≡ file_fault log file }
{
    match file {
        Found::File(size) if size == 0 => Some(CopyFault::Empty),
        Found::File(_) => None,
        Found::NoFile => Some(CopyFault::NotAFile),
        Found::Nothing => Some(absence(log)),
        Found::Unseen(trouble) => Some(fault_of(trouble)),
    }
}

/// Why a database isn't read whose journal is so: it has to be rolled back.
fn journal_fault(journal: Found) -> Option<CopyFault>
    ensures { result ≡ journal_fault journal }
{
    match journal {
        Found::File(size) if size == 0 => None,
        Found::File(_) => Some(CopyFault::Journal),
        Found::NoFile => Some(CopyFault::NotAFile),
        Found::Nothing => None,
        Found::Unseen(trouble) => Some(fault_of(trouble)),
    }
}

/// Sees that a database is there that can be read: a file that isn't empty, without a journal that has to be rolled
/// back. To open what is no file, as a pipe, could make a look wait.
fn see_it_is_there<R: Files>(reader: &mut Reader<'_, R>, names: &Names) -> Result<(), CopyFault>
    ensures { MatchResult result (λ _. Adds (noted reader.old) (noted reader.new) (IsThere (place_named names.now)))
        (λ fault. Adds (noted reader.old) (noted reader.new) (IsNotThere (place_named names.now) fault)) }
{
    let log = reader.look(names.log.as_str());
    if let Some(fault) = log_fault(log) {
        return Err(fault);
    }
    let file = reader.look(names.db.as_str());
    if let Some(fault) = file_fault(log, file) {
        return Err(fault);
    }
    let journal = reader.look(names.journal.as_str());
    match journal_fault(journal) {
        Some(fault) => Err(fault),
        None => Ok(()),
    }
}

/// Reads the log's header, the database's file, the log, and the header of the log that is there then.
fn read_parts<R: Files>(
    alloc: Global,
    reader: &mut Reader<'_, R>,
    names: &Names,
) -> Result<Parts, CopyFault>
    ensures { MatchResult result
        (λ parts. Adds (noted reader.old) (noted reader.new) (AreRead (parts_of (place_named names.now))
        (parts.before.items ∷ parts.db.items ∷ parts.log.items ∷ parts.after.items ∷ [])))
        (λ fault. Adds (noted reader.old) (noted reader.new) (IsCutAt (parts_of (place_named names.now)) fault)) }
{
    let before = read(alloc, reader, names.log.as_str(), HEADER)?;
    let db = read(alloc, reader, names.db.as_str(), ALL)?;
    let log = read(alloc, reader, names.log.as_str(), ALL)?;
    let after = read(alloc, reader, names.log.as_str(), HEADER)?;
    Ok(Parts {
        before,
        db,
        log,
        after,
    })
}

/// The header of a log, as it begins; all of it where it is shorter.
fn header_of(log: &[u8]) -> &[u8]
    ensures { result.now ≡ take HEADER log.now }
{
    if log.len() <= HEADER {
        return log;
    }
    &log[..HEADER]
}

/// Whether what was read belongs together: no checkpoint has ended meanwhile.
fn belong_together(before: &[u8], log: &[u8], after: &[u8]) -> bool
    ensures { Decides result (BelongTogether before.now log.now after.now) }
{
    after == before && header_of(log) == before
}

/// What comes of the bytes that were read: None where they don't belong together.
fn judged<'a>(path: &'a str, parts: Parts, calls: Calls) -> Result<Option<Copied<'a>>, CopyFault>
    ensures gives { Gives parts.before.items parts.db.items parts.log.items parts.after.items result }
    ensures path { IfOk result (λ copied. IfSome copied (λ c. c.path.now ≡ path.entry.now)) }
    ensures calls { IfOk result (λ copied. IfSome copied (λ c. c.calls.list ≡ calls.list)) }
{
    let Parts {
        before,
        db,
        log,
        after,
    } = parts;
    if !belong_together(&before, &log, &after) {
        return Ok(None);
    }
    if db.is_empty() {
        return Err(CopyFault::Empty);
    }
    Ok(Some(Copied {
        path,
        calls,
        db,
        log,
    }))
}

/// Sees that a database is there, and reads it. None where what was read doesn't belong together.
fn read_once<'a, R: Files>(
    alloc: Global,
    reader: &mut Reader<'_, R>,
    path: &'a str,
    names: &Names,
) -> Result<Option<Copied<'a>>, CopyFault>
    ensures came { Adds (noted reader.old) (noted reader.new) (CameOf (place_named names.now) result) }
    ensures path { IfOk result (λ copied. IfSome copied (λ c. c.path.now ≡ path.entry.now)) }
    ensures calls { IfOk result (λ copied. IfSome copied (λ c. c.calls.list ≡ noted reader.new)) }
{
    see_it_is_there(reader, names)?;
    let parts = read_parts(alloc, reader, names)?;
    judged(path, parts, reader.calls())
}

/// Reads the database at a path by a reader. It takes no lock, waits for nobody and writes nothing.
///
/// Contracts see the calls of the reader, each with its answer, and what comes of them. The faults are those of [`copy`].
pub fn copy_with<'a, R: Files>(
    alloc: Global,
    reader: &mut Reader<'_, R>,
    path: &'a str,
) -> Result<Copied<'a>, CopyFault>
    ensures came { Adds (noted reader.old) (noted reader.new) (Copies (place_of path.entry.now) result) }
    ensures path { IfOk result (λ copied. copied.path.now ≡ path.entry.now) }
    ensures read { IfOk result IsReadInOrder }
    ensures calls { IfOk result (λ copied. copied.calls.list ≡ noted reader.new) }
{
    let names = names_of(alloc, path)?;
    for _ in 0..MOST_TRIES {
        match read_once(alloc, reader, path, &names) {
            Ok(Some(copied)) => return Ok(copied),
            Ok(None) => {}
            Err(fault) => return Err(fault),
        }
    }
    Err(CopyFault::Restless)
}

/// Reads the database at a path. It takes no lock, waits for nobody and writes nothing.
///
/// - `NoFile`, `OnlyLog`, `Empty`, `NotAFile` and `Journal` where there is no database to read, or none that may be read.
/// - `Restless` where 100 tries weren't enough, `Unread` where a file can't be read.
/// - `NoMemory` if out of memory.
pub fn copy<'a>(rt: &HostRuntime, path: &'a str) -> Result<Copied<'a>, CopyFault>
    ensures path { IfOk result (λ copied. copied.path.now ≡ path.entry.now) }
    ensures read { IfOk result IsReadInOrder }
{
    copy_with(rt.alloc(), &mut Reader::new(rt), path)
}
