//! The calls that a writer got. The list of them is there for contracts alone.
ghost use Rattle.std.specs.Prelude.{◌≡◌, List, [], ◌∷◌, ◌++◌, OnOk, is_err};
ghost use Rattle.std.specs.Io.KnownBytes.{Appends, Keeps};
ghost use base.Fml.{ftrue};
ghost use Rattle.ccr_lines.specs.Calls.{CallData, wrote, flushed, call_data};

use std::io;
use std::io::Write;
use std::marker::Model;

/// One call of a writer, and whether it answered an error.
#[derive(Clone, Copy, Drop)]
pub(crate) enum Call<'a> {
    /// It was given these bytes, to write them all.
    Wrote(&'a [u8], bool),
    /// It was to pass on what it was given.
    Flushed(bool),
}

/// Calls in their order. Only contracts read them: they take no byte.
#[derive(Drop)]
pub(crate) struct Calls {
    pub ghost list: { List CallData },
}

impl Model for Calls {
    ghost also_owns = { λ _. ftrue };
}

impl Calls {
    /// No calls.
    pub(crate) fn new() -> Calls
        ensures { result.list ≡ [] }
    {
        Calls {}
    }

    /// These calls, and then this one.
    pub(crate) fn and(&self, _call: &Call<'_>) -> Calls
        ensures { result.list ≡ self.now.list ++ call_data _call.now ∷ [] }
    {
        Calls {}
    }
}

/// A writer that nothing else reaches, with each of its calls noted for contracts as it is answered.
#[derive(Drop)]
pub(crate) struct Noted<W: Write> {
    writer: W,
    calls: Calls,
}

impl<W: Write> Noted<W> {
    /// A writer that wasn't called yet.
    pub(crate) fn new(writer: W) -> Noted<W>
        ensures writer { result.writer ≡ writer }
        ensures uncalled { result.calls.list ≡ [] }
    {
        Noted {
            writer,
            calls: Calls::new(),
        }
    }

    /// Has the writer write all of these bytes.
    pub(crate) fn write_all(&mut self, bytes: &[u8]) -> io::Result<()>
        ensures noted { self.new.calls.list ≡ self.old.calls.list ++ wrote bytes.now (is_err result) ∷ [] }
        ensures bytes { OnOk result (Appends (W.contents self.old.writer) (W.contents self.new.writer) bytes.now) }
    {
        let answer = self.writer.write_all(bytes);
        self.calls = self.calls.and(&Call::Wrote(bytes, answer.is_err()));
        answer
    }

    /// Has the writer pass on what it was given.
    pub(crate) fn flush(&mut self) -> io::Result<()>
        ensures noted { self.new.calls.list ≡ self.old.calls.list ++ flushed (is_err result) ∷ [] }
        ensures bytes { Keeps (W.contents self.old.writer) (W.contents self.new.writer) }
    {
        let answer = self.writer.flush();
        self.calls = self.calls.and(&Call::Flushed(answer.is_err()));
        answer
    }
}
