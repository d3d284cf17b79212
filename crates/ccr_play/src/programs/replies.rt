//! Replies: `PROGRAM BYTES`.

use anyhow::Result;
use ccr_history::Version;
use ccr_protocol::{ReplyFault, read_check, read_in, read_out};
use std::alloc::Global;

/// Adds keys, a blank after each.
fn push_keys(alloc: Global, told: &mut String, versions: &[Version]) -> Result<()> {
    for version in versions {
        let key = version.key(alloc)?;
        told.push_str(key.as_str())?;
        told.push_str(" ")?;
    }
    Ok(())
}

fn keys(alloc: Global, versions: &[Version]) -> Result<String> {
    let mut told = String::new(alloc);
    push_keys(alloc, &mut told, versions)?;
    Ok(told)
}

/// The keys of the versions that `check` wrote, or what refused its reply.
fn checked(alloc: Global, reply: &[u8]) -> Result<String> {
    match read_check(alloc, reply) {
        Ok(versions) => keys(alloc, &versions),
        Err(fault) => Ok(fault.to_string(alloc)?),
    }
}

/// The program before the first blank, and the bytes behind it.
fn halves(given: &[u8]) -> (&[u8], &[u8]) {
    match given.iter().position(|byte| *byte == b' ') {
        Some(at) => (&given[..at], &given[at + 1..]),
        None => (given, &[]),
    }
}

/// What a program's reply is read as.
pub(super) fn read(alloc: Global, given: &[u8]) -> Result<String> {
    let (program, reply) = halves(given);
    let version = match program {
        b"check" => return checked(alloc, reply),
        b"in" => read_in(alloc, reply),
        _ => read_out(alloc, reply),
    };
    match version {
        Ok(version) => Ok(version.key(alloc)?),
        Err(fault) => Ok(fault.to_string(alloc)?),
    }
}

/// What a program's reply with a line feed behind it is read as.
pub(super) fn read_line(alloc: Global, given: &str) -> Result<String> {
    read(alloc, format!(in alloc; "{given}\n")?.as_bytes())
}

/// How many of a reply's beginnings `in` may not write, since they are no JSON.
pub(super) fn cut(alloc: Global, reply: &[u8]) -> Result<String> {
    let mut refused = 0u64;
    for (i, _) in reply.iter().enumerate() {
        if read_in(alloc, &reply[..i]).err() == Some(ReplyFault::NotJson) {
            refused = refused.saturating_add(1);
        }
    }
    let all = reply.len();
    Ok(format!(in alloc; "not JSON at {refused} of {all} cuts")?)
}

/// A reply with the byte at a position changed.
fn spoilt_at(alloc: Global, reply: &[u8], position: usize, byte: u8) -> Result<Vec<u8>> {
    let mut spoilt = Vec::from_slice(alloc, reply)?;
    if let Some(place) = spoilt.get_mut(position) {
        *place = byte;
    }
    Ok(spoilt)
}

/// How often a spoilt reply is refused, 0 or 1: by `check`, and by `out` as no JSON.
fn refusals(alloc: Global, spoilt: &[u8]) -> (u64, u64) {
    let listed = u64::from(read_check(alloc, spoilt).is_err());
    let not_json = u64::from(read_out(alloc, spoilt).err() == Some(ReplyFault::NotJson));
    (listed, not_json)
}

/// How often a reply with one byte changed is refused: by `check` for any byte, by `out` as no JSON for the byte 255.
pub(super) fn spoilt(alloc: Global, reply: &[u8]) -> Result<String> {
    let (mut all, mut listed, mut not_json) = (0u64, 0u64, 0u64);
    for (i, _) in reply.iter().enumerate() {
        for byte in [0u8, b'"', b'0', b'[', b'}', b'\\', b'n', 255] {
            let (by_check, by_out) = refusals(alloc, &spoilt_at(alloc, reply, i, byte)?);
            all = all.saturating_add(1);
            listed = listed.saturating_add(by_check);
            if byte == 255 {
                not_json = not_json.saturating_add(by_out);
            }
        }
    }
    Ok(format!(in alloc; "check refuses {listed} of {all}; out calls {not_json} not JSON")?)
}
