//! What looks at files, opens and reads them, and notes each call with its answer.
//!
//! Nothing else of this crate holds the system. That a call is the one that is noted no clause can see: each method
//! makes one, of the path that it is given.
ghost use Rattle.std.specs.Prelude.{◌≡◌, ◌++◌, ◌∷◌, [], IfOk, IfSome, MatchResult};
ghost use Rattle.std.specs.Io.{ReadsAtMost};
ghost use Rattle.std.specs.Io.KnownBytes.{ReadConsumes};
ghost use Rattle.std.specs.IoError.{error_kind};
ghost use Rattle.ccr_look.specs.Calls.{looked, opened, read_of};
ghost use Rattle.ccr_look.specs.Answers.{IsTroubleOf, is_there};
ghost use Rattle.ccr_look.specs.Seen.{IsMissedAs, IsSeenAs};
ghost use Rattle.ccr_look.specs.Noted.{noted};

use crate::calls::{Call, Calls, Found, Trouble};
use std::fs::{File, Metadata};
use std::io::{Error, ErrorKind, Read};
use std::rt::Files;
use std::{fs, io};

/// Looks at files, opens and reads them by a runtime `R`, and notes each call with its answer for contracts.
#[derive(Drop)]
pub struct Reader<'a, R> {
    rt: &'a R,
    calls: Calls,
}

/// A file that was opened, and where.
#[derive(Drop)]
pub(crate) struct Opened<'p, F> {
    file: F,
    path: &'p str,
}

/// The trouble that an error of the system is.
fn trouble_of(error: &Error) -> Trouble
    ensures { IsTroubleOf (error_kind error.now) result }
{
    match error.kind() {
        ErrorKind::Interrupted => Trouble::Interrupted,
        ErrorKind::OutOfMemory => Trouble::NoMemory,
        _ => Trouble::Other,
    }
}

/// What the system's answer says of a path.
fn found_of(answer: io::Result<Metadata>) -> Found
    ensures { MatchResult answer (λ seen. IsSeenAs seen result) (λ error. IsMissedAs (error_kind error) result) }
{
    match answer {
        Ok(found) if found.is_file() => Found::File(found.len()),
        Ok(_) => Found::NoFile,
        Err(error) if error.kind() == ErrorKind::NotFound => Found::Nothing,
        Err(error) => Found::Unseen(trouble_of(&error)),
    }
}

impl<'a, R: Files> Reader<'a, R> {
    /// A reader that was called for nothing yet.
    pub fn new(rt: &'a R) -> Reader<'a, R>
        ensures { noted result ≡ [] }
    {
        Reader {
            rt,
            calls: Calls::new(),
        }
    }

    /// The calls so far.
    pub(crate) fn calls(&self) -> Calls
        ensures { result.list ≡ noted self.now }
    {
        self.calls.copy()
    }

    /// What is at a path.
    pub(crate) fn look(&mut self, path: &str) -> Found
        ensures { noted self.new ≡ noted self.old ++ looked path.now result ∷ [] }
    {
        let found = found_of(fs::metadata(self.rt, path));
        self.calls = self.calls.and(&Call::Look(path, found));
        found
    }

    /// The file at a path, to be read; None where nothing is there.
    pub(crate) fn open<'p>(&mut self, path: &'p str) -> Result<Option<Opened<'p, R::File>>, Trouble>
        ensures noted { noted self.new ≡ noted self.old ++ opened path.now (is_there result) ∷ [] }
        ensures path { IfOk result (λ file. IfSome file (λ f. f.path.now ≡ path.now)) }
    {
        match File::open(self.rt, path) {
            Ok(file) => {
                self.calls = self.calls.and(&Call::Open(path, Ok(true)));
                Ok(Some(Opened { file, path }))
            }
            Err(error) if error.kind() == ErrorKind::NotFound => {
                self.calls = self.calls.and(&Call::Open(path, Ok(false)));
                Ok(None)
            }
            Err(error) => {
                let trouble = trouble_of(&error);
                self.calls = self.calls.and(&Call::Open(path, Err(trouble)));
                Err(trouble)
            }
        }
    }

    /// Reads bytes of a file that was opened to the front of a buffer: how many.
    pub(crate) fn read(
        &mut self,
        from: &mut Opened<'_, R::File>,
        buffer: &mut [u8],
    ) -> Result<usize, Trouble>
        ensures noted { noted self.new ≡ noted self.old ++ read_of from.old.path.now buffer.new result ∷ [] }
        ensures path { from.new.path.now ≡ from.old.path.now }
        ensures bound { ReadsAtMost result buffer.new }
        ensures bytes { ReadConsumes (R.File.Read.remaining from.old.file) (R.File.Read.remaining from.new.file)
            result buffer.new }
    {
        let answer = match from.file.read(buffer) {
            Ok(count) => Ok(count),
            Err(error) => Err(trouble_of(&error)),
        };
        self.calls = self.calls.and(&Call::Read(from.path, buffer, answer));
        answer
    }
}
