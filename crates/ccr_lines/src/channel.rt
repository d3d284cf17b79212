//! A writer whose failures are noted.
ghost use Rattle.std.specs.Prelude.{◌≡◌, ◌++◌, ◌∷◌, [], true, false, OnOk, MatchResult, is_err};
ghost use Rattle.std.specs.Io.KnownBytes.{Appends, Keeps};
ghost use Rattle.ccr_lines.specs.Calls.{wrote, flushed, IsGiven, IsAnswered, StopsAtError};

use crate::calls::Noted;
use std::io;
use std::io::Write;
use std::snapshot::Snapshot;

/// A writer, with whether one of its calls answered an error.
#[derive(Drop)]
pub(crate) struct Channel<W: Write> {
    noted: Noted<W>,
    start: Snapshot<W>,
    failed: bool,
}

impl<W: Write> Channel<W> {
    /// Nothing is written yet.
    pub(crate) fn new(writer: W) -> Channel<W>
        ensures writer { result.noted.writer ≡ writer }
        ensures uncalled { result.noted.calls.list ≡ [] }
        ensures start { result.start.value ≡ writer }
        ensures unfailed { result.failed ≡ false }
    {
        Channel {
            start: Snapshot::of(&writer),
            noted: Noted::new(writer),
            failed: false,
        }
    }

    /// Whether a call of the writer answered an error.
    pub(crate) fn has_failed(&self) -> bool
        ensures { result ≡ self.now.failed }
    {
        self.failed
    }

    /// Has the writer write all of these bytes, and notes whether it answered an error.
    fn write_all(&mut self, bytes: &[u8]) -> io::Result<()>
        ensures noted { MatchResult result (λ _. self.new.failed ≡ self.old.failed) (λ _. self.new.failed ≡ true) }
        ensures calls { self.new.noted.calls.list ≡ self.old.noted.calls.list ++ wrote bytes.now (is_err result) ∷ [] }
        ensures bytes { OnOk result
            (Appends (W.contents self.old.noted.writer) (W.contents self.new.noted.writer) bytes.now) }
        ensures start { self.new.start ≡ self.old.start }
    {
        let answer = self.noted.write_all(bytes);
        if answer.is_err() {
            self.failed = true;
        }
        answer
    }

    /// Has the writer pass on what it was given, and notes whether it answered an error.
    fn flush(&mut self) -> io::Result<()>
        ensures noted { MatchResult result (λ _. self.new.failed ≡ self.old.failed) (λ _. self.new.failed ≡ true) }
        ensures calls { self.new.noted.calls.list ≡ self.old.noted.calls.list ++ flushed (is_err result) ∷ [] }
        ensures bytes { Keeps (W.contents self.old.noted.writer) (W.contents self.new.noted.writer) }
        ensures start { self.new.start ≡ self.old.start }
    {
        let answer = self.noted.flush();
        if answer.is_err() {
            self.failed = true;
        }
        answer
    }

    /// Gives the writer these bytes, and has it pass them on, unless writing them failed.
    pub(crate) fn give(&mut self, bytes: &[u8])
        ensures given { self.new.failed ≡ false → (self.old.failed ≡ false)
            × Appends (W.contents self.old.noted.writer) (W.contents self.new.noted.writer) bytes.now }
        ensures calls { IsGiven bytes.now self.old.noted.calls.list self.new.noted.calls.list }
        ensures answered { IsAnswered self.old.failed self.old.noted.calls.list
            → IsAnswered self.new.failed self.new.noted.calls.list }
        ensures start { self.new.start ≡ self.old.start }
    {
        match self.write_all(bytes) {
            Ok(()) => {
                let _ = self.flush();
            }
            Err(_) => {}
        }
    }

    /// Gives the writer these bytes, and has it pass them on, unless a call of it failed before.
    pub(crate) fn go_on(&mut self, bytes: &[u8])
        ensures given { self.new.failed ≡ false → (self.old.failed ≡ false)
            × Appends (W.contents self.old.noted.writer) (W.contents self.new.noted.writer) bytes.now }
        ensures still { self.old.failed ≡ true → self.new ≡ self.old }
        ensures calls { self.old.failed ≡ false → IsGiven bytes.now self.old.noted.calls.list self.new.noted.calls.list }
        ensures answered { IsAnswered self.old.failed self.old.noted.calls.list
            → IsAnswered self.new.failed self.new.noted.calls.list }
        ensures stopped { IsAnswered self.old.failed self.old.noted.calls.list
            → StopsAtError self.old.noted.calls.list → StopsAtError self.new.noted.calls.list }
        ensures start { self.new.start ≡ self.old.start }
    {
        if self.failed {
            return;
        }
        self.give(bytes);
    }
}
