//! The files of a database are opened, or read.
ghost use Rattle.std.specs.Prelude.{◌≡◌, ◌⊎◌, ◌++◌, ◌∷◌, [], List, Some, None, true, false, IsTrue, OnOk, IfOk, IfErr, IfSome};
ghost use Rattle.sqlite_std_file.specs.File.{IsFresh};
ghost use Rattle.sqlite_wal.specs.Files.{image_at};
ghost use Rattle.sqlite.specs.Files.{file_state, IsOpened};
ghost use Rattle.sqlite.specs.Held.{IsNew};
ghost use Rattle.sqlite.specs.Opening.{is_open_error};
ghost use Rattle.sqlite.specs.Start.{FindsIn};
ghost use Rattle.sqlite.specs.State.{HasCleanDisk};
ghost use Rattle.ccr_look.specs.Reads.{IsReadInOrder};
ghost use Rattle.ccr_run.specs.Asked.{AskedData, opened, read};
ghost use Rattle.ccr_run.specs.Opening.{IsShutOut, FailsOver};

use crate::asked::{Asked, AskedList};
use ccr_look::{Copied, CopyFault, copy};
use sqlite::{Connection, Error, FileFrom, FileStore, Leftover, Start};

/// A connection to the database's files.
pub type FileConnection<S> = Connection<FileStore<FileFrom<S>>>;

/// What is left of files that were opened as a database, and aren't one.
pub type FilesLeftOver<S> = Leftover<FileFrom<S>>;

/// What opens the files of a database, or reads them. Contracts see what was asked of it, in order, and what it answered.
pub trait Opens {
    ghost asked: { Self → List AskedData };

    /// A connection to the database in the file at this path, as it is made: no statement was run over it, and none is
    /// limited. The file is made where there is none, and no other program can open it until this one ends. `start`
    /// says what is supposed of the files.
    ///
    /// An error comes with what is left of the files, once they were opened.
    fn open<S: Start>(
        &mut self,
        path: &str,
        start: S,
    ) -> Result<FileConnection<S>, (Error, Option<FilesLeftOver<S>>)>
        ensures asked { OnOk result (asked self.new ≡ asked self.old ++ opened path.now None ∷ []) }
        ensures failed { IfErr result (λ e. asked self.new ≡ asked self.old ++ opened path.now (Some e.0) ∷ []) }
        ensures fresh { IfOk result IsNew }
        ensures whole { IfOk result (λ conn. HasCleanDisk (file_state conn) → IsOpened conn) }
        ensures found { IfOk result (λ conn. HasCleanDisk (file_state conn)
            → FindsIn (image_at S.Start) (file_state conn)) }
        ensures named { IfErr result (λ e. IsTrue (is_open_error e.0)) }
        ensures shut { IfErr result (λ e. e.1 ≡ None → IsShutOut e.0) }
        ensures cause { IfErr result (λ e. IfSome e.1 (FailsOver (λ is_log file. IsFresh is_log file) e.0)) };

    /// The bytes of the database in the file at this path, as a look reads them. It isn't opened, and no lock is taken.
    ///
    /// The faults are those of [`copy`].
    fn read<'p>(&mut self, path: &'p str) -> Result<Copied<'p>, CopyFault>
        ensures asked { OnOk result (asked self.new ≡ asked self.old ++ read path.entry.now None ∷ []) }
        ensures failed { IfErr result (λ fault. asked self.new ≡ asked self.old ++ read path.entry.now (Some fault) ∷ []) }
        ensures path { IfOk result (λ copied. copied.path.now ≡ path.entry.now) }
        ensures read { IfOk result IsReadInOrder };
}

/// The files of this machine.
#[derive(Drop)]
pub struct HostFiles<'a> {
    rt: &'a HostRuntime,
    // No bytes: what was asked is there for contracts alone.
    asked: AskedList,
}

impl<'a> HostFiles<'a> {
    /// The files of this machine, of which nothing was asked.
    pub fn new(rt: &'a HostRuntime) -> HostFiles<'a>
        ensures { result.asked.list ≡ [] }
    {
        HostFiles {
            rt,
            asked: AskedList::new(),
        }
    }
}

/// The error of an open, if it was answered with one.
fn error_of<C, L>(answer: &Result<C, (Error, L)>) -> Option<Error>
    ensures opened { OnOk answer.now (result ≡ None) }
    ensures failed { IfErr answer.now (λ e. result ≡ Some e.0) }
{
    match answer {
        Ok(_) => None,
        Err((error, _)) => Some(*error),
    }
}

/// The fault of a reading, if it was answered with one.
fn fault_of(answer: &Result<Copied<'_>, CopyFault>) -> Option<CopyFault>
    ensures read { OnOk answer.now (result ≡ None) }
    ensures failed { IfErr answer.now (λ fault. result ≡ Some fault) }
{
    match answer {
        Ok(_) => None,
        Err(fault) => Some(*fault),
    }
}

impl Opens for HostFiles<'_> {
    ghost asked = { λ files. files.asked.list };

    fn open<S: Start>(
        &mut self,
        path: &str,
        start: S,
    ) -> Result<FileConnection<S>, (Error, Option<FilesLeftOver<S>>)> {
        let answer = Connection::open_from(self.rt, path, false, start);
        self.asked = self.asked.and(&Asked::Opened(path, error_of(&answer)));
        answer
    }

    fn read<'p>(&mut self, path: &'p str) -> Result<Copied<'p>, CopyFault> {
        let answer = copy(self.rt, path);
        self.asked = self.asked.and(&Asked::Read(path, fault_of(&answer)));
        answer
    }
}
