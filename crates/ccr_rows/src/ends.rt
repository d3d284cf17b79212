//! How programs end, what folders answer, and where they lie, as words.

use anyhow::Result;
use ccr_process::Ended;
use ccr_task::{Places, ShelfFault};
use std::alloc::{AllocError, Global};
use std::collections::VecDeque;

/// Types in `/t`, builds in `/w`.
pub fn places(alloc: Global) -> Result<Places, AllocError> {
    Ok(Places {
        types: String::from_str(alloc, "/t")?,
        work: String::from_str(alloc, "/w")?,
        launcher: None,
    })
}

/// The same, with the launcher `/l`.
pub fn places_by_launcher(alloc: Global) -> Result<Places, AllocError> {
    let mut places = places(alloc)?;
    places.launcher = Some(String::from_str(alloc, "/l")?);
    Ok(places)
}

/// A status and an output, with a blank or a colon between.
fn halves(words: &str) -> (&str, &str) {
    match words.split_once(" ") {
        Some((status, output)) if !status.contains(":") => (status, output),
        _ => words.split_once(":").unwrap_or((words, "")),
    }
}

/// The reply of a check that found the versions `{"n":"1"}` to `{"n":"COUNT"}`.
fn numbers(alloc: Global, count: u32) -> Result<Vec<u8>> {
    let mut reply = String::from_str(alloc, "[")?;
    for before in 0..count {
        let number = u64::from(before) + 1;
        let mark = if before == 0 { "" } else { "," };
        write!(reply, "{mark}{{\"n\":\"{number}\"}}")?;
    }
    reply.push_str("]")?;
    Ok(reply.into_bytes())
}

/// The exit of a word: `numbers:COUNT`, or a status, with what was printed behind a colon.
fn exit_of(alloc: Global, word: &str) -> Result<Ended> {
    if let Some(count) = word.strip_prefix("numbers:") {
        return Ok(Ended::Exit(0, numbers(alloc, count.parse::<u32>()?)?));
    }
    let (status, output) = halves(word);
    let status = status.parse::<u8>()?;
    Ok(Ended::Exit(status, Vec::from_slice(alloc, output.as_bytes())?))
}

/// The end of the words `STATUS OUTPUT` or `STATUS:OUTPUT`, or of a word for another end.
pub fn end_of(alloc: Global, words: &str) -> Result<Ended> {
    Ok(match words {
        "killed" => Ended::Killed(9),
        "not-started" => Ended::NotStarted,
        "input-fault" => Ended::InputFault,
        "read-fault" => Ended::ReadFault,
        "too-long" => Ended::OutputTooLong,
        "no-memory" => Ended::NoMemory,
        _ => exit_of(alloc, words)?,
    })
}

/// The ends of words with blanks between.
pub fn ends_of(alloc: Global, words: &str) -> Result<VecDeque<Ended>> {
    let mut ends = VecDeque::new(alloc);
    for word in words.split_whitespace() {
        ends.push_back(end_of(alloc, word)?)?;
    }
    Ok(ends)
}

/// The fault of a word.
pub fn fault_of(word: &str) -> ShelfFault {
    match word {
        "too-long" => ShelfFault::TooLong,
        "no-memory" => ShelfFault::NoMemory,
        _ => ShelfFault::Failed,
    }
}

/// Whether folders are there, of words: `there`, `absent`, or a fault.
pub fn sights_of(alloc: Global, words: &str) -> Result<VecDeque<Result<bool, ShelfFault>>> {
    let mut sights = VecDeque::new(alloc);
    for word in words.split_whitespace() {
        sights.push_back(match word {
            "there" => Ok(true),
            "absent" => Ok(false),
            _ => Err(fault_of(word)),
        })?;
    }
    Ok(sights)
}
