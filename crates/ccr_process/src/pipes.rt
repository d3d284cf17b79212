//! The two pipes of a program: its input is written whole, then its output is read to its end.
ghost use Rattle.std.specs.Prelude.{◌≡◌, ◌≢◌, ◌≤◌, ◌<◌, ◌+◌, ◌++◌, [], true, length, IfOk, IfErr, IfSome, OnOk};
ghost use Rattle.std.specs.Prelude.{vec_len, if◌then◌else◌};
ghost use Rattle.std.specs.Io.KnownBytes.{IsAtEnd};
ghost use Rattle.ccr_process.specs.Ends.{IsOutput};
ghost use Rattle.ccr_process.specs.Pipes.{GivesInput, TakesOutput};
ghost use Rattle.ccr_process.specs.Piping.{reads, writes};

use crate::noted::Trouble;
use crate::pipe::{Input, Output};
use std::alloc::Global;
use std::io::{Read, Write};
use thiserror::Error;

/// The greatest number of bytes of an output that is kept.
pub(crate) const MOST_OUTPUT: usize = 1_048_576;

/// The greatest number of calls on a pipe.
pub(crate) const MOST_CALLS: u32 = 1_000_000_000;

/// Why an input wasn't written.
#[derive(Clone, Copy, Debug, PartialEq, Eq, Error)]
pub enum GiveFault {
    /// A write failed or took no byte, or the input wasn't written after 1,000,000,000 writes.
    #[error("input fault")]
    InputFault,
}

/// Why an output wasn't read.
#[derive(Clone, Copy, Debug, PartialEq, Eq, Error)]
pub enum TakeFault {
    /// A read failed.
    #[error("read fault")]
    ReadFault,
    /// An output to keep has more than 1,048,576 bytes, or the end wasn't reached after 1,000,000,000 reads.
    #[error("output too long")]
    TooLong,
    /// Out of memory.
    #[error("out of memory")]
    NoMemory,
}

/// Writes a program's whole input.
///
/// An interrupted write is tried again. It is no fault if the reader closed its end: what is left of the input is
/// dropped. `InputFault` if a write fails otherwise or takes no byte, and after 1,000,000,000 writes, interrupted ones
/// included. The pipe has no other call.
pub fn give_input<W: Write>(pipe: &mut Input<W>, input: &[u8]) -> Result<(), GiveFault>
    ensures { GivesInput (writes pipe.old) (W.contents pipe.old.writer) input.now result
        (writes pipe.new) (W.contents pipe.new.writer) }
{
    let mut rest = input;
    for _ in 0..MOST_CALLS {
        if rest.is_empty() {
            return Ok(());
        }
        match pipe.write(rest) {
            Ok(0) => return Err(GiveFault::InputFault),
            Ok(count) => rest = &rest[count..],
            Err(Trouble::Interrupted) => {}
            Err(Trouble::Closed) => return Ok(()),
            Err(Trouble::Failed) => return Err(GiveFault::InputFault),
        }
    }
    Err(GiveFault::InputFault)
}

/// Adds bytes to an output if it is kept.
fn add_kept(output: &mut Vec<u8>, bytes: &[u8], keep: bool) -> Result<(), TakeFault>
    requires { vec_len output.old ≤ MOST_OUTPUT }
    ensures added { OnOk result (output.new.items ≡ output.old.items ++ (if keep then bytes.now else [])) }
    ensures fits { OnOk result (vec_len output.new ≤ MOST_OUTPUT) }
    ensures kept { IfErr result (λ _. keep ≡ true) }
    ensures readable { result ≢ Err TakeFault.ReadFault }
    ensures too_long { result ≡ Err TakeFault.TooLong → MOST_OUTPUT < vec_len output.old + length bytes.now }
    ensures no_memory { result ≡ Err TakeFault.NoMemory → vec_len output.old + length bytes.now ≤ MOST_OUTPUT }
{
    if !keep {
        return Ok(());
    }
    if bytes.len() > MOST_OUTPUT - output.len() {
        return Err(TakeFault::TooLong);
    }
    match output.extend_from_slice(bytes) {
        Ok(()) => Ok(()),
        Err(_) => Err(TakeFault::NoMemory),
    }
}

/// Reads a program's output to its end. Gives all of it if `keep` is true, and else nothing.
///
/// An interrupted read is tried again. `ReadFault` if a read fails otherwise; `TooLong` once more than 1,048,576 bytes
/// were read of an output to keep, and after 1,000,000,000 reads, interrupted ones included; `NoMemory`. The pipe has no
/// other call.
pub fn take_output<R: Read>(
    alloc: Global,
    pipe: &mut Output<R>,
    keep: bool,
) -> Result<Vec<u8>, TakeFault>
    ensures calls { TakesOutput (reads pipe.old) (R.remaining pipe.old.reader) keep result
        (reads pipe.new) (R.remaining pipe.new.reader) }
    ensures end { OnOk result (IsAtEnd (R.remaining pipe.new.reader)) }
    ensures whole { IfOk result (λ output. keep ≡ true
        → IfSome (R.remaining pipe.old.reader) (λ all. output.items ≡ all)) }
    ensures short { IfOk result (λ output. IsOutput keep output.items) }
{
    let mut output = Vec::new(alloc);
    let mut buffer = [0u8; 8192];
    for _ in 0..MOST_CALLS {
        match pipe.read(&mut buffer) {
            Ok(0) => return Ok(output),
            Ok(count) => add_kept(&mut output, &buffer[..count], keep)?,
            Err(Trouble::Interrupted) => {}
            Err(Trouble::Closed) => return Err(TakeFault::ReadFault),
            Err(Trouble::Failed) => return Err(TakeFault::ReadFault),
        }
    }
    Err(TakeFault::TooLong)
}
