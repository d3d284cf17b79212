//! What is kept of what a writer is given.
ghost use Rattle.std.specs.Prelude.{◌≡◌};
ghost use Rattle.ccr_run.specs.Heard.{heard_data, unheard, Hears};

use crate::advice::has_words;
use crate::advising::searched;
use crate::kept::Kept;
use std::alloc::Global;
use std::io;
use std::io::Write;

/// What is kept of what is given by one call each: what has certain words, once certain others were given.
#[derive(Drop)]
pub struct Heard {
    cause: &'static str,
    words: &'static str,
    // Whether the others were given.
    is_due: bool,
    /// Whether anything was given.
    pub is_used: bool,
    /// What is kept.
    pub kept: Kept,
}

impl Heard {
    /// Nothing was given yet.
    pub fn new(alloc: Global, cause: &'static str, words: &'static str) -> Heard
        ensures { heard_data result ≡ unheard cause.now words.now }
    {
        Heard {
            cause,
            words,
            is_due: false,
            is_used: false,
            kept: Kept::new(alloc),
        }
    }

    /// Keeps what is given, if it is to be kept.
    fn hear(&mut self, bytes: &[u8])
        ensures { Hears bytes.now (heard_data self.old) (heard_data self.new) }
    {
        self.is_due = self.is_due || has_words(bytes, self.cause);
        self.is_used = self.is_used || !bytes.is_empty();
        let is_kept = self.is_due && has_words(bytes, self.words);
        self.kept.keep_if(is_kept, bytes);
    }
}

/// Passes on to a writer all that it is given, and keeps some of it: nothing of a write that may take a part of what it is
/// given.
#[derive(Drop)]
pub struct Hearing<W> {
    writer: W,
    /// What is kept.
    pub heard: Heard,
}

impl<W> Hearing<W> {
    /// Passes on to this writer, and keeps what has these words.
    pub fn new(writer: W, heard: Heard) -> Hearing<W>
        ensures writer { result.writer ≡ writer }
        ensures heard { result.heard ≡ heard }
    {
        Hearing { writer, heard }
    }
}

impl<W: Write> Write for Hearing<W> {
    ghost use Rattle.std.specs.Prelude.{◌≡◌, OnOk};
    ghost use Rattle.std.specs.Io.{WritesAtMost};
    ghost use Rattle.std.specs.Io.KnownBytes.{Appends, Keeps, WriteAppends};
    ghost use Rattle.ccr_run.specs.Advised.{searched};
    ghost use Rattle.ccr_run.specs.Heard.{heard_data, Hears};

    ghost contents = { λ h. W.contents h.writer };

    fn write(&mut self, buf: &[u8]) -> io::Result<usize>
        ensures bound { WritesAtMost result buf.now }
        ensures bytes { WriteAppends (W.contents self.old.writer) (W.contents self.new.writer) result buf.now }
        ensures quiet { self.new.heard ≡ self.old.heard }
    {
        self.writer.write(buf)
    }

    fn flush(&mut self) -> io::Result<()>
        ensures bytes { Keeps (W.contents self.old.writer) (W.contents self.new.writer) }
        ensures quiet { self.new.heard ≡ self.old.heard }
    {
        self.writer.flush()
    }

    fn write_all(&mut self, buf: &[u8]) -> io::Result<()>
        ensures bytes { OnOk result (Appends (W.contents self.old.writer) (W.contents self.new.writer) buf.now) }
        ensures heard { Hears (searched buf.now) (heard_data self.old.heard) (heard_data self.new.heard) }
    {
        let answer = self.writer.write_all(buf);
        self.heard.hear(searched(buf));
        answer
    }
}
