//! The ends of a program's two pipes, whose calls are noted.
ghost use Rattle.std.specs.Prelude.{◌≡◌, ◌++◌, ◌∷◌, []};
ghost use Rattle.std.specs.Io.{ReadsAtMost, WritesAtMost};
ghost use Rattle.std.specs.Io.KnownBytes.{ReadConsumes, WriteAppends};
ghost use Rattle.std.specs.IoError.{error_kind};
ghost use Rattle.ccr_process.specs.Pipes.{IsTroubleOf, call_data, call_of};
ghost use Rattle.ccr_process.specs.Piping.{reads, writes};

use crate::noted::{Call, Calls, Trouble};
use std::io;
use std::io::{ErrorKind, Read, Write};

/// Where a program's input is written, with each write noted for contracts.
#[derive(Drop)]
pub struct Input<W: Write> {
    writer: W,
    calls: Calls,
}

/// Where a program's output is read, with each read noted for contracts.
#[derive(Drop)]
pub struct Output<R: Read> {
    reader: R,
    calls: Calls,
}

/// The trouble that an error of the system is.
fn trouble_of(error: &io::Error) -> Trouble
    ensures { IsTroubleOf (error_kind error.now) result }
{
    match error.kind() {
        ErrorKind::Interrupted => Trouble::Interrupted,
        ErrorKind::BrokenPipe => Trouble::Closed,
        _ => Trouble::Failed,
    }
}

/// The call that moved bytes of these, from the first on, and was answered so.
fn call_of<'a>(bytes: &'a [u8], answer: &Result<usize, Trouble>) -> Call<'a>
    ensures { call_data result ≡ call_of bytes.now answer.now }
{
    match answer {
        Ok(count) => Call::Moved(bytes, *count),
        Err(trouble) => Call::Troubled(*trouble),
    }
}

impl<W: Write> Input<W> {
    /// Nothing is written yet.
    pub fn new(writer: W) -> Input<W>
        ensures none { writes result ≡ [] }
        ensures writer { result.writer ≡ writer }
    {
        Input {
            writer,
            calls: Calls::new(),
        }
    }

    /// The writer.
    pub fn into_writer(self) -> W
        ensures { result ≡ self.writer }
    {
        self.writer
    }

    /// Writes bytes of these, from the first on: how many.
    pub(crate) fn write(&mut self, bytes: &[u8]) -> Result<usize, Trouble>
        ensures noted { writes self.new ≡ writes self.old ++ call_of bytes.now result ∷ [] }
        ensures bound { WritesAtMost result bytes.now }
        ensures bytes { WriteAppends (W.contents self.old.writer) (W.contents self.new.writer) result bytes.now }
    {
        let answer = match self.writer.write(bytes) {
            Ok(count) => Ok(count),
            Err(error) => Err(trouble_of(&error)),
        };
        self.calls = self.calls.and(&call_of(bytes, &answer));
        answer
    }
}

impl<R: Read> Output<R> {
    /// Nothing is read yet.
    pub fn new(reader: R) -> Output<R>
        ensures none { reads result ≡ [] }
        ensures reader { result.reader ≡ reader }
    {
        Output {
            reader,
            calls: Calls::new(),
        }
    }

    /// Reads bytes to the front of a buffer: how many.
    pub(crate) fn read(&mut self, buffer: &mut [u8]) -> Result<usize, Trouble>
        ensures noted { reads self.new ≡ reads self.old ++ call_of buffer.new result ∷ [] }
        ensures bound { ReadsAtMost result buffer.new }
        ensures bytes { ReadConsumes (R.remaining self.old.reader) (R.remaining self.new.reader) result buffer.new }
    {
        let answer = match self.reader.read(buffer) {
            Ok(count) => Ok(count),
            Err(error) => Err(trouble_of(&error)),
        };
        self.calls = self.calls.and(&call_of(buffer, &answer));
        answer
    }
}
