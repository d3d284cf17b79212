//! How a refusal reads.
ghost use Rattle.std.specs.Prelude.{◌≡◌, string_bytes};
ghost use Rattle.ccr_run.specs.Refusals.{refusal_data};
ghost use Rattle.ccr_run.specs.Refusals as spec;

use crate::failure::Failure;
use ccr_core::CoreFault;
use ccr_look::CopyFault;
use ccr_pipeline::ReadFault;
use ccr_serve::ServeFault;
use ccr_store::{StoreFault, open_fault_of};
use std::fmt;

/// The words of a refusal, with the path of what is refused where there is one, and the status that the program ends
/// with.
#[derive(Clone, Copy, PartialEq, Eq)]
pub struct Refusal<'a> {
    /// The words.
    pub words: &'static str,
    /// The path in the pipeline's text.
    pub path: Option<&'a String>,
    /// The status.
    pub status: u8,
}

impl fmt::Display for Refusal<'_> {
    ghost use Rattle.std.specs.Prelude.{Some};
    ghost use Rattle.ccr_run.specs.Refusals.{refusal_data, refusal_text};

    ghost output = { λ refusal. Some (refusal_text (refusal_data refusal)) };

    fn fmt<W: fmt::Write>(&self, f: &mut fmt::Formatter<W>) -> fmt::Result {
        let words = self.words;
        match self.path {
            Some(path) => {
                let path = path.as_str();
                write!(f, "refused: {words} at {path}")
            }
            None => write!(f, "refused: {words}"),
        }
    }
}

/// Words without a path, for status 1.
pub fn refused<'a>(words: &'static str) -> Refusal<'a>
    ensures { refusal_data result ≡ spec.refused words.now }
{
    Refusal {
        words,
        path: None,
        status: 1,
    }
}

/// Words without a path, for status 4: disk or memory.
pub fn broken<'a>(words: &'static str) -> Refusal<'a>
    ensures { refusal_data result ≡ spec.broken words.now }
{
    Refusal {
        words,
        path: None,
        status: 4,
    }
}

/// Words of a fault at a path of the pipeline's text.
fn at<'a>(words: &'static str, path: &'a String) -> Refusal<'a>
    ensures { refusal_data result ≡ spec.at words.now (string_bytes path.now) }
{
    Refusal {
        words,
        path: Some(path),
        status: 1,
    }
}

/// How a refusal by the core reads.
fn of_core<'a>(fault: CoreFault) -> Refusal<'a>
    ensures { refusal_data result ≡ spec.of_core fault }
{
    match fault {
        CoreFault::NoPipeline => refused("no pipeline"),
        CoreFault::NoJob => refused("no such job"),
        CoreFault::NoResource => refused("no such resource"),
        CoreFault::NoBuild => refused("no such build"),
        CoreFault::BuildsOpen => refused("builds open"),
        CoreFault::NotWanted => refused("not wanted"),
        CoreFault::TooManyOpen => refused("too many builds open"),
        CoreFault::TableFull => refused("table full"),
        CoreFault::NoVersion => refused("no such version"),
        CoreFault::NoMemory => broken("out of memory"),
    }
}

/// How a fault of the store reads.
fn of_store<'a>(fault: StoreFault) -> Refusal<'a>
    ensures { refusal_data result ≡ spec.of_store fault }
{
    match fault {
        StoreFault::Refused => broken("store: refused"),
        StoreFault::NoMemory => broken("out of memory"),
        StoreFault::Disk => broken("store: disk"),
        StoreFault::Interrupted => broken("store: interrupted"),
        StoreFault::NotOurs => broken("store: not ours"),
    }
}

/// How a fault in a pipeline's text reads.
fn of_text(fault: &ReadFault) -> Refusal<'_>
    ensures { refusal_data result ≡ spec.of_text fault.now }
{
    match fault {
        ReadFault::TooLong(path) => at("pipeline: too long", path),
        ReadFault::NotJson(path) => at("pipeline: not JSON", path),
        ReadFault::Missing(path) => at("pipeline: missing", path),
        ReadFault::WrongKind(path) => at("pipeline: wrong kind", path),
        ReadFault::BadName(path) => at("pipeline: bad name", path),
        ReadFault::Repeated(path) => at("pipeline: repeated", path),
        ReadFault::NoStep(path) => at("pipeline: no step", path),
        ReadFault::TwoSteps(path) => at("pipeline: two steps", path),
        ReadFault::UnknownResource(path) => at("pipeline: unknown resource", path),
        ReadFault::UnknownJob(path) => at("pipeline: unknown job", path),
        ReadFault::BadAttempts(path) => at("pipeline: bad attempts", path),
        ReadFault::TooDeep(path) => at("pipeline: too deep", path),
        ReadFault::TooMany(path) => at("pipeline: too many", path),
        ReadFault::Unsupported(path) => at("pipeline: unsupported", path),
        ReadFault::NumberNotWhole(path) => at("pipeline: number not whole", path),
        ReadFault::NoMemory => broken("out of memory"),
    }
}

/// How a fault of the server reads.
fn of_server(fault: &ServeFault) -> Refusal<'_>
    ensures { refusal_data result ≡ spec.of_server fault.now }
{
    match fault {
        ServeFault::Core(fault) => of_core(*fault),
        ServeFault::Store(fault) => of_store(*fault),
        ServeFault::Read(fault) => of_text(fault),
        ServeFault::File => broken("file: cannot read"),
        ServeFault::BadPin => refused("bad pin"),
        ServeFault::NoMemory => broken("out of memory"),
        ServeFault::Closed => broken("closed"),
        ServeFault::TurnsUsedUp => refused("turns used up"),
    }
}

/// How it reads that there is no database to look at.
fn of_copy<'a>(fault: CopyFault) -> Refusal<'a>
    ensures { refusal_data result ≡ spec.of_copy fault }
{
    match fault {
        CopyFault::NoFile => broken("database: no such file"),
        CopyFault::OnlyLog => broken("database: only its log is there"),
        CopyFault::Empty => broken("database: empty file"),
        CopyFault::NotAFile => broken("database: not a file"),
        CopyFault::Journal => broken("database: a journal is beside it"),
        CopyFault::Restless => broken("database: changes all the time"),
        CopyFault::Unread => broken("database: cannot read"),
        CopyFault::NoMemory => broken("out of memory"),
    }
}

/// How a failure reads. That another program has the database open is a fault of the disk.
pub fn refusal_of(failure: &Failure) -> Refusal<'_>
    ensures { refusal_data result ≡ spec.refusal_of failure.now }
{
    match failure {
        Failure::Locked => of_store(StoreFault::Disk),
        Failure::Unopened(error) => of_store(open_fault_of(error)),
        Failure::Refused(fault) => of_server(fault),
        Failure::Unread(fault) => of_copy(*fault),
        Failure::Unfound(fault) => of_store(*fault),
    }
}
