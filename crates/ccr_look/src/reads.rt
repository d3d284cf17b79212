//! The bytes of files, from the first on.
ghost use Rattle.std.specs.Prelude.{◌≡◌, ◌≤◌, ◌<◌, ◌++◌, IfOk, IfErr, IfSome, OnOk, MatchResult, take};
ghost use Rattle.ccr_look.specs.Answers.{fault_of};
ghost use Rattle.ccr_look.specs.Noted.{noted};
ghost use Rattle.ccr_look.specs.Parts.{Adds, FailsToRead, GivesBytes, GivesNoBytes, IsRead};
ghost use Rattle.ccr_look.specs.declared.reads.TheConstants.{CHUNK};

use crate::calls::Trouble;
use crate::fault::CopyFault;
use crate::noted::{Opened, Reader};
use std::alloc::Global;
use std::io::Read;
use std::rt::Files;

/// The most reads of a file.
pub(crate) const MOST_READS: u64 = u64::MAX;

/// How many bytes are asked for at once.
const CHUNK: usize = 8192;

/// The fault that is told of a trouble.
pub(crate) fn fault_of(trouble: Trouble) -> CopyFault
    ensures { result ≡ fault_of trouble }
{
    match trouble {
        Trouble::NoMemory => CopyFault::NoMemory,
        Trouble::Interrupted | Trouble::Other => CopyFault::Unread,
    }
}

/// How many bytes are asked for next, where so many are still wanted.
fn next_of(wanted: usize) -> usize
    ensures most { result ≤ wanted }
    ensures fits { result ≤ CHUNK }
    ensures some { 0 < wanted → 0 < result }
{
    wanted.min(CHUNK)
}

/// Adds bytes to others. The only fault is out of memory.
fn add(bytes: &mut Vec<u8>, more: &[u8]) -> Result<(), CopyFault>
    ensures added { OnOk result (bytes.new.items ≡ bytes.old.items ++ more.now) }
    ensures only { IfErr result (λ fault. fault ≡ CopyFault.NoMemory) }
{
    match bytes.extend_from_slice(more) {
        Ok(()) => Ok(()),
        Err(_) => Err(CopyFault::NoMemory),
    }
}

/// The first bytes of a file that was opened, so many at most. An interrupted read is tried again.
fn read_opened<R: Files>(
    alloc: Global,
    reader: &mut Reader<'_, R>,
    from: &mut Opened<'_, R::File>,
    most: usize,
) -> Result<Vec<u8>, CopyFault>
    ensures given { MatchResult result
        (λ bytes. Adds (noted reader.old) (noted reader.new) (GivesBytes from.old.path.now most bytes.items))
        (λ fault. Adds (noted reader.old) (noted reader.new) (GivesNoBytes from.old.path.now most fault)) }
    ensures whole { IfOk result (λ bytes. IfSome (R.File.Read.remaining from.old.file)
        (λ all. bytes.items ≡ take most all)) }
{
    let mut bytes = Vec::new(alloc);
    let mut chunk = [0u8; CHUNK];
    for _ in 0..MOST_READS {
        if bytes.len() >= most {
            return Ok(bytes);
        }
        let room = next_of(most - bytes.len());
        let part = &mut chunk[..room];
        match reader.read(from, part) {
            Ok(0) => return Ok(bytes),
            Ok(count) => add(&mut bytes, &part[..count])?,
            Err(Trouble::Interrupted) => {}
            Err(Trouble::NoMemory) => return Err(CopyFault::NoMemory),
            Err(Trouble::Other) => return Err(CopyFault::Unread),
        }
    }
    Err(CopyFault::Unread)
}

/// The first bytes of the file at a path, so many at most; none where nothing is there.
pub(crate) fn read<R: Files>(
    alloc: Global,
    reader: &mut Reader<'_, R>,
    path: &str,
    most: usize,
) -> Result<Vec<u8>, CopyFault>
    ensures { MatchResult result
        (λ bytes. Adds (noted reader.old) (noted reader.new) (IsRead path.now most bytes.items))
        (λ fault. Adds (noted reader.old) (noted reader.new) (FailsToRead path.now most fault)) }
{
    match reader.open(path) {
        Ok(Some(mut file)) => read_opened(alloc, reader, &mut file, most),
        Ok(None) => Ok(Vec::new(alloc)),
        Err(trouble) => Err(fault_of(trouble)),
    }
}
