//! The bytes that the checker's program judges: those of one reader, or of two joined.

ghost use Rattle.std.specs.Prelude.{◌≡◌, ◌≢◌, ◌<◌, ◌↔◌, ◌++◌, length, IfOk, IfErr, OnOk, IfSome};
ghost use Rattle.std.specs.IoError.{error_kind};
ghost use Rattle.ccr_check.specs.declared.input.InputFault.TheVariants.{NoMemory, WrongWords};

use std::alloc::{AllocError, Global};
use std::io::{ErrorKind, Read};
use std::{fmt, io};
use thiserror::Error;

/// How often an input is read before it counts as one without an end.
const MOST_READS: u32 = 1_000_000_000;

/// How many bytes are asked for at a time.
const CHUNK: usize = 65_536;

/// Why there is nothing to judge. Its words are those of `docs/FORMATS.md`.
#[derive(Clone, Copy, Debug, PartialEq, Eq, Drop, Error)]
pub enum InputFault {
    /// The program was given other than no words or two.
    WrongWords,
    /// A file that can't be opened, an error of reading, or no end after 1,000,000,000 reads.
    Unreadable,
    /// Memory was refused.
    NoMemory,
}

impl fmt::Display for InputFault {
    ghost use Rattle.std.specs.Prelude.{Some};
    ghost use Rattle.ccr_check.specs.Words.{input_fault_words};

    ghost output = { λ fault. Some (input_fault_words fault) };

    fn fmt<W: fmt::Write>(&self, f: &mut fmt::Formatter<W>) -> fmt::Result {
        match self {
            InputFault::WrongWords => f.write_str("usage: ccr_verify [PROBLEM PROOF]"),
            InputFault::Unreadable => f.write_str("cannot read"),
            InputFault::NoMemory => f.write_str("out of memory"),
        }
    }
}

impl From<AllocError> for InputFault {
    ghost from_gives = { λ _ e. e ≡ NoMemory };

    fn from(_e: AllocError) -> InputFault {
        InputFault::NoMemory
    }
}

/// What an error of the system says: out of memory, or that there is nothing to read.
fn fault_of(error: &io::Error) -> InputFault
    ensures memory { (result ≡ InputFault.NoMemory) ↔ (error_kind error.now ≡ ErrorKind.OutOfMemory) }
    ensures words { result ≢ InputFault.WrongWords }
{
    if error.kind() == ErrorKind::OutOfMemory {
        InputFault::NoMemory
    } else {
        InputFault::Unreadable
    }
}

impl From<io::Error> for InputFault {
    ghost from_gives = { λ _ fault. fault ≢ WrongWords };

    fn from(error: io::Error) -> InputFault {
        fault_of(&error)
    }
}

/// So many bytes to read into.
fn room(alloc: Global, size: usize) -> Result<Vec<u8>, AllocError>
    requires { 0 < size }
    ensures { IfOk result (λ chunk. length chunk.items ≡ size) }
{
    vec![in alloc; 0; size]
}

/// Adds all bytes that a reader has left. An interrupted read counts and is tried again.
fn read_all<R: Read>(reader: &mut R, chunk: &mut [u8], out: &mut Vec<u8>) -> Result<(), InputFault>
    requires { 0 < length chunk.old }
    ensures bytes { OnOk result (IfSome (R.remaining reader.old) (λ bytes. out.new.items ≡ out.old.items ++ bytes)) }
    ensures words { IfErr result (λ fault. fault ≢ WrongWords) }
{
    for _ in 0..MOST_READS {
        match reader.read(chunk) {
            Ok(0) => return Ok(()),
            Ok(n) => out.extend_from_slice(&chunk[..n])?,
            Err(error) => {
                if error.kind() != ErrorKind::Interrupted {
                    return Err(fault_of(&error));
                }
            }
        }
    }
    Err(InputFault::Unreadable)
}

/// All bytes that a reader has left.
///
/// Unreadable: a read failed, or there was no end after 1,000,000,000 reads. NoMemory: memory was refused.
pub fn read_whole<R: Read>(alloc: Global, reader: &mut R) -> Result<Vec<u8>, InputFault>
    ensures bytes { IfOk result (λ out. IfSome (R.remaining reader.old) (λ bytes. out.items ≡ bytes)) }
    ensures words { IfErr result (λ fault. fault ≢ WrongWords) }
{
    let mut out = Vec::new(alloc);
    let mut chunk = room(alloc, CHUNK)?;
    read_all(reader, &mut chunk, &mut out)?;
    Ok(out)
}

/// All bytes that the first reader has left, and behind them those of the second. The errors are those of [`read_whole`].
pub fn read_both<R: Read>(
    alloc: Global,
    first: &mut R,
    second: &mut R,
) -> Result<Vec<u8>, InputFault>
    ensures bytes { IfOk result (λ out. IfSome (R.remaining first.old) (λ front. IfSome (R.remaining second.old)
        (λ behind. out.items ≡ front ++ behind))) }
    ensures words { IfErr result (λ fault. fault ≢ WrongWords) }
{
    let mut out = Vec::new(alloc);
    let mut chunk = room(alloc, CHUNK)?;
    read_all(first, &mut chunk, &mut out)?;
    read_all(second, &mut chunk, &mut out)?;
    Ok(out)
}
