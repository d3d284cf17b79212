//! Programs: requests and replies, launches and ends, and whole builds whose programs end by a script.
//!
//! A part of a line that is absent is written `-`. Parts are set apart by ` | `. The files of this folder say which parts a
//! line has.

mod launches;
mod replies;
mod requests;
mod whole;

use anyhow::{Result, anyhow};
use ccr_history::{Object, Version};
use ccr_rows::{Player, places, places_by_launcher, split, version_of};
use serde_json::Value;
use std::alloc::{AllocError, Global};

/// Plays lines of programs.
#[derive(Clone, Copy)]
pub(crate) struct Programs;

fn answered(alloc: Global, kind: &str, given: &str) -> Result<String> {
    match kind {
        "request" => requests::sent(alloc, given),
        "request-length" => requests::length(alloc, given),
        "reply" => replies::read(alloc, given.as_bytes()),
        "reply-line" => replies::read_line(alloc, given),
        "reply-cut" => replies::cut(alloc, given.as_bytes()),
        "reply-spoilt" => replies::spoilt(alloc, given.as_bytes()),
        "launch" => launches::launched(alloc, &places(alloc)?, given),
        "launcher" => launches::launched(alloc, &places_by_launcher(alloc)?, given),
        "timed" => launches::timed(alloc, &places_by_launcher(alloc)?, given),
        "in-build" => launches::in_build(alloc, given),
        "end" => launches::ended(alloc, given),
        "task-file" => launches::task_file(alloc, given),
        "task-file-fault" => launches::task_file_fault(alloc, given),
        "build" => whole::played(alloc, given),
        _ => Err(anyhow!("no such line")),
    }
}

impl Player for Programs {
    fn answer_to(&mut self, alloc: Global, line: &str) -> Result<String, AllocError> {
        let (kind, given) = split(line);
        answered(alloc, kind, given).or_else(|error| format!(in alloc; "no answer: {error}"))
    }
}

/// The part of a case at a position; `-` where there is none.
fn part(given: &str, position: usize) -> &str {
    given.split(" | ").nth(position).unwrap_or("-")
}

/// Adds the text of an object with one text of so many letters.
fn push_letters(text: &mut String, count: usize) -> Result<()> {
    text.push_str("{\"x\":\"")?;
    for _ in 0..count {
        text.push_str("a")?;
    }
    text.push_str("\"}")?;
    Ok(())
}

/// The text of a source: as it stands, or that of an object with one text of so many letters, by `letters:COUNT`.
fn source_text(alloc: Global, part: &str) -> Result<String> {
    let mut text = String::new(alloc);
    match part.strip_prefix("letters:") {
        Some(count) => push_letters(&mut text, count.parse::<usize>()?)?,
        None => text.push_str(part)?,
    }
    Ok(text)
}

/// The object that a part is, if it is there.
fn object(alloc: Global, part: &str) -> Result<Option<Object>> {
    if part == "-" {
        return Ok(None);
    }
    let text = source_text(alloc, part)?;
    Ok(Object::from_value(Value::from_str(alloc, text.as_str())?))
}

/// The version that a part is, if it is there.
fn version(alloc: Global, part: &str) -> Result<Option<Version>> {
    if part == "-" {
        return Ok(None);
    }
    Ok(Some(version_of(alloc, part)?))
}

/// The version that a part has to be.
fn some_version(alloc: Global, part: &str) -> Result<Version> {
    version(alloc, part)?.ok_or(anyhow!("no version"))
}
