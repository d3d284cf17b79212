//! What to do about a refusal.
ghost use Rattle.std.specs.Prelude.{◌≡◌, option_map};
ghost use Rattle.ccr_run.specs.Hints.{hint_data};
ghost use Rattle.ccr_run.specs.Hints as spec;

use crate::failure::Failure;
use ccr_core::CoreFault;
use ccr_look::CopyFault;
use ccr_pipeline::ReadFault;
use ccr_serve::ServeFault;
use ccr_store::StoreFault;
use sqlite::{Error, ErrorCode};
use std::fmt;

/// About a file that is no database of this program.
const NOT_OURS: &str =
    "the file isn't a database of ccr_run in format 1 or 2; name another one, or use a newer ccr_run";

/// About being out of memory.
const NO_MEMORY: &str = "what was printed is kept; try again with more memory";

/// What to do, with the path of the database that it is about, if it is about one.
#[derive(Clone, Copy, PartialEq, Eq)]
pub struct Hint<'a> {
    /// The database's path.
    pub path: Option<&'a str>,
    /// What to do.
    pub words: &'static str,
}

impl fmt::Display for Hint<'_> {
    ghost use Rattle.std.specs.Prelude.{Some};
    ghost use Rattle.ccr_run.specs.Hints.{hint_data, hint_text};

    ghost output = { λ hint. Some (hint_text (hint_data hint)) };

    fn fmt<W: fmt::Write>(&self, f: &mut fmt::Formatter<W>) -> fmt::Result {
        let words = self.words;
        match self.path {
            Some(path) => write!(f, "hint: {path}: {words}"),
            None => write!(f, "hint: {words}"),
        }
    }
}

/// What to do, whichever database it is.
fn bare<'a>(words: &'static str) -> Hint<'a>
    ensures { hint_data result ≡ spec.bare words.now }
{
    Hint { path: None, words }
}

/// What to do about the database at a path.
fn about<'a>(path: &'a str, words: &'static str) -> Hint<'a>
    ensures { hint_data result ≡ spec.about path.now words.now }
{
    Hint {
        path: Some(path),
        words,
    }
}

/// That no pipeline is set in the database at a path.
pub fn unset_in<'a>(path: &'a str) -> Hint<'a>
    ensures { hint_data result ≡ spec.about path.now spec.unset }
{
    about(
        path,
        "no pipeline is set in it; is --db right? set-pipeline PIPELINE.json sets one",
    )
}

/// What to do about a fault of a pipeline's text.
fn of_text(fault: &ReadFault) -> &'static str
    ensures { result.now ≡ spec.of_text fault.now }
{
    match fault {
        ReadFault::NotJson(_) => {
            "YAML isn't read: examples/operating/pipeline-json FILE makes JSON of it. JSON has no comments; ccr_run \
             validate-pipeline FILE shows where the slip is"
        }
        ReadFault::BadName(_) => {
            "a name has 1 to 128 bytes, no / and no control character, and isn't . or ..; ccr_run validate-pipeline \
             FILE shows what stands there"
        }
        ReadFault::BadAttempts(_) => {
            "attempts are from 1 to 100, and of steps that stand in one another at most 10000 together; ccr_run \
             validate-pipeline FILE shows what stands there"
        }
        ReadFault::NumberNotWhole(_) => {
            "a number here is whole: write another one as a text, as \"0.5\"; ccr_run validate-pipeline FILE says \
             which it is"
        }
        _ => {
            "ccr_run validate-pipeline FILE says what stands there and what is wanted; docs/FORMATS.md has the format"
        }
    }
}

/// What to do about a fault of the server, of the database at a path, where that helps.
fn of_server<'a>(path: &'a str, fault: &ServeFault) -> Option<Hint<'a>>
    ensures { option_map hint_data result ≡ spec.of_server path.now fault.now }
{
    let hint = match fault {
        ServeFault::Core(CoreFault::NoPipeline) => unset_in(path),
        ServeFault::Core(CoreFault::NoJob | CoreFault::NoResource) => about(
            path,
            "the pipeline that is set in it, if one is, has no such name: jobs and resources show those that it has; \
             is --db right?",
        ),
        ServeFault::Core(CoreFault::NoBuild) => about(
            path,
            "it has no such build: builds shows those that it has; is --db right?",
        ),
        ServeFault::Core(CoreFault::NoVersion) => bare(
            "resource-versions NAME shows which places there are",
        ),
        ServeFault::Read(fault) => bare(of_text(fault)),
        ServeFault::BadPin => bare(
            "a version is written as a JSON object of texts, as {\"ref\":\"61cbef\"}: resource-versions NAME shows \
             them so",
        ),
        ServeFault::Store(StoreFault::NotOurs) => bare(NOT_OURS),
        ServeFault::Store(StoreFault::Disk) => bare(
            "is the disk full or read-only? may you write the file and its directory? what was printed is kept",
        ),
        ServeFault::File => bare("is the file there, and may you read it?"),
        ServeFault::NoMemory | ServeFault::Store(StoreFault::NoMemory) => bare(NO_MEMORY),
        ServeFault::TurnsUsedUp => bare(
            "the next command ends the builds that still run as errored",
        ),
        _ => return None,
    };
    Some(hint)
}

/// What to do where there is no database to look at, at a path.
fn of_copy<'a>(path: &'a str, fault: CopyFault) -> Hint<'a>
    ensures { hint_data result ≡ spec.of_copy path.now fault }
{
    let words = match fault {
        CopyFault::NoFile => {
            "nothing is there: is --db right? set-pipeline makes a database, where the directory is there"
        }
        CopyFault::OnlyLog => {
            "what was written last is in the file beside it that ends in -wal: bring back the file that belongs to \
             it, or a copy"
        }
        CopyFault::Empty => {
            "a command without --look makes a database of it; if a copy is being put there, look again when it is whole"
        }
        CopyFault::NotAFile => {
            "--db names a file; what is beside it and ends in -wal or -journal is a file too"
        }
        CopyFault::Journal => {
            "another program was writing the database and has not ended it: open it once with sqlite3, which takes \
             that back"
        }
        CopyFault::Restless => "it changed at each of 100 tries; look again",
        CopyFault::Unread => {
            "may you read the file, the one beside it that ends in -wal, and their directory?"
        }
        CopyFault::NoMemory => return bare(NO_MEMORY),
    };
    about(path, words)
}

/// What to do where a look finds no history in the database at a path, where that helps.
fn of_bytes<'a>(path: &'a str, fault: StoreFault) -> Option<Hint<'a>>
    ensures { option_map hint_data result ≡ spec.of_bytes path.now fault }
{
    match fault {
        StoreFault::Disk => Some(about(
            path,
            "it is no database, which begins with SQLite format 3 (head -c 15 FILE), or it is damaged, or its file \
             that ends in -wal isn't beside it: name another one, or bring back a copy with both",
        )),
        StoreFault::NotOurs => Some(about(path, NOT_OURS)),
        StoreFault::NoMemory => Some(bare(NO_MEMORY)),
        _ => None,
    }
}

/// What to do about a status of a command, where that helps.
fn of_status<'a>(status: u8) -> Option<Hint<'a>>
    ensures { option_map hint_data result ≡ option_map spec.bare (spec.of_status status) }
{
    if status == 3 {
        Some(bare("--budget N allows more, up to 1000000"))
    } else {
        None
    }
}

/// What to do about the database at a path that can't be opened.
fn of_open<'a>(path: &'a str, error: &Error) -> Hint<'a>
    ensures { hint_data result ≡ spec.of_open path.now error.now }
{
    match error {
        Error::SqliteFailure(ErrorCode::OutOfMemory) => bare(NO_MEMORY),
        Error::SqliteFailure(ErrorCode::NotADatabase) => about(
            path,
            "the file is no database; name another one",
        ),
        Error::SqliteFailure(ErrorCode::DatabaseCorrupt) => about(
            path,
            "the database is damaged; bring back a copy of it",
        ),
        Error::SqliteFailure(ErrorCode::DiskFull) => about(path, "the disk is full; make room"),
        Error::SqliteFailure(ErrorCode::TooBig) => about(
            path,
            "the file is too large for a database",
        ),
        Error::SqliteFailure(ErrorCode::CannotOpen) => about(
            path,
            "it can't be opened: is its directory there, is it a file, and may you read and write both?",
        ),
        _ => about(path, "it can't be read or written; is the disk in order?"),
    }
}

/// What to do about why a command wasn't done over the database at a path, where that helps.
fn of_failure<'a>(path: &'a str, failure: &Failure) -> Option<Hint<'a>>
    ensures { option_map hint_data result ≡ spec.of_failure path.now failure.now }
{
    match failure {
        Failure::Locked => Some(about(
            path,
            "another program has the database open: lsof FILE names it. Try again when it has ended \
             (examples/operating/ccr waits for it); what only shows waits for nobody with --look, as builds --look",
        )),
        Failure::Unopened(error) => Some(of_open(path, error)),
        Failure::Refused(fault) => of_server(path, fault),
        Failure::Unread(fault) => Some(of_copy(path, *fault)),
        Failure::Unfound(fault) => of_bytes(path, *fault),
    }
}

/// What to do about how a command ended over the database at a path, where that helps.
pub fn hint_of<'a>(path: &'a str, end: &Result<u8, Failure>) -> Option<Hint<'a>>
    ensures { option_map hint_data result ≡ spec.hint_of path.now end.now }
{
    match end {
        Ok(status) => of_status(*status),
        Err(_) if path.len() == 0 => Some(bare("--db names no file: is a variable empty?")),
        Err(failure) => of_failure(path, failure),
    }
}
