//! Which file the database is in.
ghost use Rattle.std.specs.Prelude.{◌≡◌, ◌++◌, ◌∷◌, [], Some, None, false, IsSome, OnOk, OnErr, IfOk, IfErr};
ghost use Rattle.sqlite_std_file.specs.File.{IsFresh};
ghost use Rattle.sqlite_wal.specs.Files.{image_at};
ghost use Rattle.sqlite.specs.declared.error.Error.{Error as ErrorData};
ghost use Rattle.sqlite.specs.Files.{file_state, IsOpened};
ghost use Rattle.sqlite.specs.Held.{IsNew};
ghost use Rattle.sqlite.specs.Start.{FindsIn};
ghost use Rattle.sqlite.specs.State.{HasCleanDisk};
ghost use Rattle.ccr_look.specs.Reads.{IsReadInOrder};
ghost use Rattle.ccr_run.specs.Asked.{opened, read};
ghost use Rattle.ccr_run.specs.Opening.{HasOpened, HasRefused};
ghost use Rattle.ccr_run.specs.Opening as spec;

use crate::failure::Failure;
use crate::opening::{FileConnection, FilesLeftOver, Opens};
use ccr_look::{Copied, CopyFault};
use sqlite::{Error, ErrorCode, Start};
use std::snapshot::Snapshot;

/// What an open was answered, with a connection `C`, or what is left of the files, `L`.
#[derive(Drop)]
pub enum Answer<C, L> {
    /// It wasn't asked yet.
    Unasked,
    /// The connection, as it was given.
    Opened(Snapshot<C>),
    /// An error, with what is left of the files, once they were opened.
    Refused(Error, Option<L>),
}

/// Opens the database, once, or reads it, by files that open. `S` says what they hold: a function over any `S` is
/// proved for all files.
#[derive(Drop)]
pub struct Opener<O, S, C, L> {
    files: O,
    // What is supposed of the files, until they are opened.
    start: Option<S>,
    answer: Answer<C, L>,
}

/// What opens the database's files.
pub type FileOpener<O, S> = Opener<O, S, FileConnection<S>, FilesLeftOver<S>>;

/// The failure of an open.
fn failure_of(error: &Error) -> Failure
    ensures exact { result ≡ spec.failure_of error.now }
{
    match error {
        Error::SqliteFailure(ErrorCode::DatabaseBusy) => Failure::Locked,
        _ => Failure::Unopened(*error),
    }
}

impl<O: Opens, S: Start> FileOpener<O, S> {
    /// An opener of files of which this is supposed.
    pub fn new(files: O, start: S) -> FileOpener<O, S>
        ensures unopened { IsSome result.start }
        ensures files { result.files ≡ files }
    {
        Opener {
            files,
            start: Some(start),
            answer: Answer::Unasked,
        }
    }

    /// The database in the file at this path. It is made where there is none, and no other program can open it until this
    /// one ends.
    ///
    /// `Locked` where another program has it open, and else `Unopened` with the error that the files answered.
    pub fn open(&mut self, path: &str) -> Result<FileConnection<S>, Failure>
        requires { IsSome self.old.start }
        ensures asked { OnOk result (O.asked self.new.files ≡ O.asked self.old.files ++ opened path.now None ∷ []) }
        ensures fresh { IfOk result IsNew }
        ensures opened { IfOk result (λ conn. HasCleanDisk (file_state conn) → IsOpened conn) }
        ensures found { IfOk result (λ conn. HasCleanDisk (file_state conn)
            → FindsIn (image_at S.Start) (file_state conn)) }
        ensures same { IfOk result (λ conn. HasOpened self.new.answer conn) }
        ensures exact { IfErr result (λ failure. (error : ErrorData) × (failure ≡ spec.failure_of error)
            × (O.asked self.new.files ≡ O.asked self.old.files ++ opened path.now (Some error) ∷ [])
            × HasRefused (λ is_log file. IsFresh is_log file) self.new.answer error) }
    {
        let start = self.start.take().unwrap();
        match self.files.open(path, start) {
            Ok(conn) => {
                self.answer = Answer::Opened(Snapshot::of(&conn));
                Ok(conn)
            }
            Err((error, left)) => {
                self.answer = Answer::Refused(error, left);
                Err(failure_of(&error))
            }
        }
    }

    /// The bytes of the database in the file at this path, as a look reads them. It isn't opened, and no lock is taken.
    ///
    /// The faults are those of [`copy`](ccr_look::copy).
    pub fn read<'p>(&mut self, path: &'p str) -> Result<Copied<'p>, CopyFault>
        ensures asked { OnOk result (O.asked self.new.files ≡ O.asked self.old.files ++ read path.entry.now None ∷ []) }
        ensures failed { IfErr result (λ fault.
            O.asked self.new.files ≡ O.asked self.old.files ++ read path.entry.now (Some fault) ∷ []) }
        ensures path { IfOk result (λ copied. copied.path.now ≡ path.entry.now) }
        ensures read { IfOk result IsReadInOrder }
    {
        self.files.read(path)
    }
}
