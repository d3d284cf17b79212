//! Standard error, a line at a time.
ghost use Rattle.std.specs.Prelude.{[], ◌∷◌, ◌++◌, IfSome, OnOk};
ghost use Rattle.std.specs.Io.KnownBytes.{Appends};

use std::alloc::Global;
use std::fmt::Display;
use std::io;
use std::io::Write;
use std::marker::Model;

/// A writer that gets lines. Contracts see what it has got, and whether a write has failed.
#[derive(Drop)]
pub struct Errors<E: Write> {
    alloc: Global,
    writer: E,
    failed: bool,
}

impl<E: Write> Model for Errors<E> {
    ghost use Rattle.ccr_run.specs.Writers.{WriterData};

    ghost Value = { WriterData };

    ghost view = { λ e. record { got = E.contents e.writer; failed = e.failed } };
}

/// Has a writer write a line, with its line end: by one call, so that nothing that another program writes stands within it;
/// out of memory, piece by piece.
fn write_line<E: Write, D: Display + Drop>(alloc: Global, writer: &mut E, line: D) -> io::Result<()>
    ensures { OnOk result (IfSome (D.output line)
        (λ text. Appends (E.contents writer.old) (E.contents writer.new) (text ++ 10 ∷ []))) }
{
    match format!(in alloc; "{line}\n") {
        Ok(text) => writer.write_all(text.as_str().as_bytes()),
        Err(_) => writer.writeln(line),
    }
}

impl<E: Write> Errors<E> {
    ghost use Rattle.std.specs.Prelude.{◌≡◌, false};
    ghost use Rattle.ccr_run.specs.Writers.{GetsLines};

    /// No write has failed yet.
    pub fn new(alloc: Global, writer: E) -> Errors<E>
        ensures { result ≡ record { got = E.contents writer; failed = false } }
    {
        Errors {
            alloc,
            writer,
            failed: false,
        }
    }

    /// Writes a line, with its line end. A failure is noted, and else changes nothing.
    pub fn say<D: Display + Drop>(&mut self, line: D)
        ensures { IfSome (D.output line) (λ text. GetsLines (text ∷ []) self.old self.new) }
    {
        if write_line(self.alloc, &mut self.writer, line).is_err() {
            self.failed = true;
        }
    }
}
