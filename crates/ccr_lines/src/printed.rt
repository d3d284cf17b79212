//! Lines that are printed as they are handed out, and what is told beside them.

use crate::channel::Channel;
use crate::lines::Lines;
use crate::log::{Entry, Log};
use std::alloc::{AllocError, Global};
use std::io::Write;
use std::marker::Model;

/// Lines that a writer gets as they are handed out. What was written before is kept without memory. What is told beside
/// them goes to a second writer, a line at a time, and nothing else goes there; its failures change nothing.
///
/// Once a write of lines fails the writer gets nothing more, so that no line stands behind half of another.
#[derive(Drop)]
pub struct Printed<W: Write, E: Write> {
    out: Channel<W>,
    errors: Channel<E>,
    lines: Vec<u8>,
    // No bytes: what was shown and told is there for contracts alone.
    log: Log,
}

impl<W: Write, E: Write> Model for Printed<W, E> {
    ghost use Rattle.std.specs.Prelude.{◌-◌, vec_len, vec_capacity};
    ghost use Rattle.ccr_lines.specs.Printed.{PrintedData, all_shown, all_told, IsWhole, AreWhole, AreCalled};

    ghost Value = { PrintedData };

    ghost view = { λ p. record {
      shown = all_shown p.log.list;
      waiting = p.lines.items;
      room = vec_capacity p.lines - vec_len p.lines;
      notes = all_told p.log.list;
      failed = p.out.failed;
      before = W.contents p.out.start.value;
      holds = W.contents p.out.noted.writer;
      calls = p.out.noted.calls.list;
      errors = record {
        failed = p.errors.failed;
        before = E.contents p.errors.start.value;
        holds = E.contents p.errors.noted.writer;
        calls = p.errors.noted.calls.list;
      };
    } };

    ghost invariant = { λ p. AreWhole p.log.list
        (IsWhole p.out.failed (W.contents p.out.start.value) (W.contents p.out.noted.writer))
        (IsWhole p.errors.failed (E.contents p.errors.start.value) (E.contents p.errors.noted.writer))
        × AreCalled p.log.list p.out.failed p.errors.failed p.out.noted.calls.list p.errors.noted.calls.list };
}

impl<W: Write, E: Write> Printed<W, E> {
    ghost use Rattle.std.specs.Prelude.{◌≡◌, ◌++◌, [], false};
    ghost use Rattle.std.specs.Io.KnownBytes.{Appends};
    ghost use Rattle.ccr_lines.specs.Calls.{all_bytes, IsAnswered, HasBegun};
    ghost use Rattle.ccr_lines.specs.Printed.{told_lines};

    /// Nothing is written yet; lines will go to this writer, and what is told beside them to `errors`.
    pub fn new(alloc: Global, writer: W, errors: E) -> Printed<W, E>
        ensures nothing { result.shown ++ result.waiting ≡ [] }
        ensures quiet { result.notes ≡ [] }
        ensures before { result.before ≡ W.contents writer }
        ensures unfailed { result.failed ≡ false }
        ensures errors { result.errors ≡ record {
          failed = false;
          before = E.contents errors;
          holds = E.contents errors;
          calls = [];
        } }
        ensures uncalled { result.calls ≡ [] }
    {
        Printed {
            out: Channel::new(writer),
            errors: Channel::new(errors),
            lines: Vec::new(alloc),
            log: Log::new(),
        }
    }

    /// Whether a write of lines failed. If none did, the writer has got all that was handed out, in order, and nothing else.
    /// So has `errors` each line that was told, with its line feed, if no write of those failed.
    ///
    /// Where nobody knows what a writer holds, as of standard output, the calls that it got say as much. The one was given what
    /// was handed out, from the first byte on, and nothing behind a call that answered an error; there was such a call if and
    /// only if this says so. `errors` was given each line that was told, whatever its calls answered.
    pub fn has_failed(&self) -> bool
        ensures failed { result ≡ self.now.failed }
        ensures whole { result ≡ false → Appends self.now.before self.now.holds self.now.shown }
        ensures told { self.now.errors.failed ≡ false
            → Appends self.now.errors.before self.now.errors.holds (told_lines self.now.notes) }
        ensures answered { IsAnswered result self.now.calls }
        ensures begun { HasBegun self.now.shown self.now.calls }
        ensures given { result ≡ false → all_bytes self.now.calls ≡ self.now.shown }
        ensures unsaid { IsAnswered self.now.errors.failed self.now.errors.calls
            × (all_bytes self.now.errors.calls ≡ told_lines self.now.notes) }
    {
        self.out.has_failed()
    }
}

impl<W: Write, E: Write> Lines for Printed<W, E> {
    ghost use Rattle.std.specs.Prelude.{◌≡◌, ◌+◌, ◌≤◌, ◌++◌, [], false, length, OnOk, string_bytes};
    ghost use Rattle.ccr_lines.specs.Noted.{IsNoted};
    ghost use Rattle.ccr_lines.specs.Printed.{IsSaid, SameOut, HandsOut};

    ghost written = { λ p. p.shown ++ p.waiting };

    ghost waiting = { λ p. p.waiting };

    ghost room = { λ p. p.room };

    ghost notes = { λ p. p.notes };

    fn make_room(&mut self, bytes: usize) -> Result<(), AllocError>
        ensures same { self.new.shown ++ self.new.waiting ≡ self.old.shown ++ self.old.waiting }
        ensures waiting { self.new.waiting ≡ self.old.waiting }
        ensures notes { self.new.notes ≡ self.old.notes }
        ensures room { OnOk result (bytes ≤ self.new.room) }
        ensures out { SameOut self.old self.new }
        ensures errors { self.new.errors ≡ self.old.errors }
    {
        self.lines.reserve(bytes)
    }

    fn add(&mut self, bytes: &[u8])
        requires { length bytes.now ≤ self.old.room }
        ensures added { self.new.shown ++ self.new.waiting ≡ (self.old.shown ++ self.old.waiting) ++ bytes.now }
        ensures notes { self.new.notes ≡ self.old.notes }
        ensures left { self.old.room ≤ self.new.room + length bytes.now }
        ensures out { SameOut self.old self.new }
        ensures errors { self.new.errors ≡ self.old.errors }
    {
        self.lines.extend_from_slice(bytes).unwrap();
    }

    fn hand_out(&mut self)
        ensures same { self.new.shown ++ self.new.waiting ≡ self.old.shown ++ self.old.waiting }
        ensures notes { self.new.notes ≡ self.old.notes }
        ensures shown { self.new.waiting ≡ [] }
        ensures before { self.new.before ≡ self.old.before }
        ensures errors { self.new.errors ≡ self.old.errors }
        ensures handed { HandsOut self.old self.new }
    {
        if self.lines.is_empty() {
            return;
        }
        self.log = self.log.and(&Entry::Shown(&self.lines));
        self.out.go_on(&self.lines);
        self.lines.clear();
    }

    fn note(&mut self, line: String)
        ensures noted { IsNoted (string_bytes line) self.old.notes self.new.notes }
        ensures same { self.new.shown ++ self.new.waiting ≡ self.old.shown ++ self.old.waiting }
        ensures waiting { self.new.waiting ≡ self.old.waiting }
        ensures room { self.new.room ≡ self.old.room }
        ensures out { SameOut self.old self.new }
        ensures said { IsSaid (string_bytes line) self.old self.new }
    {
        let log = self.log.and(&Entry::Told(line.as_str()));
        let mut line = line;
        if line.push_str("\n").is_ok() {
            self.log = log;
            self.errors.give(line.as_str().as_bytes());
        }
    }
}
