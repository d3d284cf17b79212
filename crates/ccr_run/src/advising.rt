//! A writer that says what to do about what it is given.
ghost use Rattle.std.specs.Prelude.{◌≡◌};
ghost use Rattle.ccr_run.specs.Advised as spec;

use crate::advice::Advice;
use crate::errors::Errors;
use crate::topic::Topic;
use std::alloc::Global;
use std::io;
use std::io::Write;

/// Of how many bytes at most, written by one call, it is looked what they say.
pub const MOST_SEARCHED: usize = 65_536;

/// The bytes to look at, of those that one call writes.
pub fn searched(bytes: &[u8]) -> &[u8]
    ensures { result.now ≡ spec.searched bytes.now }
{
    if bytes.len() <= MOST_SEARCHED {
        bytes
    } else {
        b""
    }
}

/// Passes on to a writer all that it is given, and says on standard error what to do about certain words of it, behind
/// the lines that one call gives, if these aren't too many. It says nothing of a write that may take a part of what it
/// is given.
#[derive(Drop)]
pub struct Advising<W, E: Write> {
    writer: W,
    errors: Errors<E>,
    advice: Advice,
}

impl<W, E: Write> Advising<W, E> {
    ghost use Rattle.std.specs.Prelude.{◌≡◌, false};
    ghost use Rattle.ccr_run.specs.Advised.{advice_data, advice_on};
    ghost use Rattle.ccr_run.specs.Topics.{topic_data};

    /// Passes on to this writer; what to do about a line goes to `errors`, unless it is silent.
    pub fn new(alloc: Global, writer: W, errors: E, topic: Topic, is_silent: bool) -> Advising<W, E>
        ensures writer { result.writer ≡ writer }
        ensures errors { result.errors ≡ record { got = E.contents errors; failed = false } }
        ensures advice { advice_data result.advice ≡ advice_on (topic_data topic) is_silent }
    {
        Advising {
            writer,
            errors: Errors::new(alloc, errors),
            advice: Advice::on(topic, is_silent),
        }
    }
}

impl<W: Write, E: Write> Write for Advising<W, E> {
    ghost use Rattle.std.specs.Prelude.{◌≡◌, [], OnOk};
    ghost use Rattle.std.specs.Io.{WritesAtMost};
    ghost use Rattle.std.specs.Io.KnownBytes.{Appends, Keeps, WriteAppends};
    ghost use Rattle.ccr_run.specs.Advised.{advice_data, advice_lines, heeded, searched};
    ghost use Rattle.ccr_run.specs.Writers.{GetsLines};

    ghost contents = { λ a. W.contents a.writer };

    fn write(&mut self, buf: &[u8]) -> io::Result<usize>
        ensures bound { WritesAtMost result buf.now }
        ensures bytes { WriteAppends (W.contents self.old.writer) (W.contents self.new.writer) result buf.now }
        ensures quiet { (self.new.errors ≡ self.old.errors) × (self.new.advice ≡ self.old.advice) }
    {
        self.writer.write(buf)
    }

    fn flush(&mut self) -> io::Result<()>
        ensures bytes { Keeps (W.contents self.old.writer) (W.contents self.new.writer) }
        ensures quiet { (self.new.errors ≡ self.old.errors) × (self.new.advice ≡ self.old.advice) }
    {
        self.writer.flush()
    }

    fn write_all(&mut self, buf: &[u8]) -> io::Result<()>
        ensures bytes { OnOk result (Appends (W.contents self.old.writer) (W.contents self.new.writer) buf.now) }
        ensures heeded { advice_data self.new.advice ≡ heeded (searched buf.now) (advice_data self.old.advice) }
        ensures told { GetsLines (advice_lines (searched buf.now) (advice_data self.old.advice)) self.old.errors self.new.errors }
        ensures quiet { advice_lines (searched buf.now) (advice_data self.old.advice) ≡ []
            → self.new.errors ≡ self.old.errors }
    {
        let answer = self.writer.write_all(buf);
        self.advice.heed(searched(buf), &mut self.errors);
        answer
    }
}
