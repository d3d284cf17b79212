//! What the words of a line stand for.
ghost use Rattle.std.specs.Prelude.{◌≢◌, IfOk};
ghost use Rattle.ccr_history.specs.declared.build.Status.TheVariants.{Running};

use crate::fault::LineFault;
use ccr_history::{HistoryFault, Pin, Scope, Status, Used, Version};
use ccr_pipeline::Pipeline;
use ccr_steps::Outcome;
use serde_json::Value;
use std::alloc::{AllocError, Global};

/// The first word, and what stands behind the blank after it.
pub fn split(text: &str) -> (&str, &str) {
    text.split_once(" ").unwrap_or((text, ""))
}

/// The whole number that a word spells.
pub fn number_of(word: &str) -> Result<u32, LineFault> {
    word.parse::<u32>().ok().ok_or(LineFault::NotANumber)
}

/// The turn that a word spells.
pub fn turn_of(word: &str) -> Result<u64, LineFault> {
    word.parse::<u64>().ok().ok_or(LineFault::NotANumber)
}

/// The value of a JSON text, if it is one.
pub fn value_of(alloc: Global, text: &str) -> Result<Option<Value>, AllocError> {
    match Value::from_str(alloc, text) {
        Ok(value) => Ok(Some(value)),
        Err(error) if error.is_memory() => Err(AllocError),
        Err(_) => Ok(None),
    }
}

fn version_in(alloc: Global, value: &Value) -> Result<Version, LineFault> {
    match Version::from_value(alloc, value) {
        Ok(version) => Ok(version),
        Err(HistoryFault::NoMemory) => Err(LineFault::NoMemory),
        Err(_) => Err(LineFault::NotAVersion),
    }
}

/// The version of a JSON text.
pub fn version_of(alloc: Global, text: &str) -> Result<Version, LineFault> {
    match value_of(alloc, text)? {
        Some(value) => version_in(alloc, &value),
        None => Err(LineFault::NotAVersion),
    }
}

/// Adds an item to a list.
fn add<T: Drop>(items: &mut Vec<T>, item: T) -> Result<(), AllocError> {
    items.push(item)?;
    Ok(())
}

/// Adds the versions of a JSON list.
fn push_versions(
    alloc: Global,
    versions: &mut Vec<Version>,
    value: &Value,
) -> Result<(), LineFault> {
    for member in value.as_array().ok_or(LineFault::NotAVersion)? {
        add(versions, version_in(alloc, member)?)?;
    }
    Ok(())
}

fn versions_in(alloc: Global, value: &Value) -> Result<Vec<Version>, LineFault> {
    let mut versions = Vec::new(alloc);
    push_versions(alloc, &mut versions, value)?;
    Ok(versions)
}

/// The versions of a JSON list.
pub fn versions_of(alloc: Global, text: &str) -> Result<Vec<Version>, LineFault> {
    match value_of(alloc, text)? {
        Some(value) => versions_in(alloc, &value),
        None => Err(LineFault::NotAVersion),
    }
}

/// The version `{"n":"NUMBER"}`.
pub fn version_numbered(alloc: Global, number: u64) -> Result<Version, LineFault> {
    let text = format!(in alloc; "{{\"n\":\"{number}\"}}")?;
    version_of(alloc, text.as_str())
}

fn push_numbered(alloc: Global, versions: &mut Vec<Version>, count: u32) -> Result<(), LineFault> {
    for before in 0..count {
        add(versions, version_numbered(alloc, u64::from(before) + 1)?)?;
    }
    Ok(())
}

/// The versions `{"n":"1"}` to `{"n":"COUNT"}`.
pub fn numbered(alloc: Global, count: u32) -> Result<Vec<Version>, LineFault> {
    let mut versions = Vec::new(alloc);
    push_numbered(alloc, &mut versions, count)?;
    Ok(versions)
}

fn pin_in(alloc: Global, value: &Value) -> Result<Pin, LineFault> {
    match Pin::from_value(alloc, value) {
        Ok(pin) => Ok(pin),
        Err(HistoryFault::NoMemory) => Err(LineFault::NoMemory),
        Err(_) => Err(LineFault::NotAPin),
    }
}

/// The pin of a JSON text.
pub fn pin_of(alloc: Global, text: &str) -> Result<Pin, LineFault> {
    match value_of(alloc, text)? {
        Some(value) => pin_in(alloc, &value),
        None => Err(LineFault::NotAPin),
    }
}

/// The pair that `SCOPE.PLACE` spells.
pub fn pair_of(word: &str) -> Result<(u32, u32), LineFault> {
    let (scope, place) = word.split_once(".").ok_or(LineFault::NotAPair)?;
    Ok((number_of(scope)?, number_of(place)?))
}

/// The pairs of words with blanks between.
pub fn pairs_of(alloc: Global, words: &str) -> Result<Vec<(u32, u32)>, LineFault> {
    let mut pairs = Vec::new(alloc);
    for word in words.split_whitespace() {
        add(&mut pairs, pair_of(word)?)?;
    }
    Ok(pairs)
}

/// The used place that `INPUT=SCOPE.PLACE` spells.
fn used_of(alloc: Global, word: &str) -> Result<Used, LineFault> {
    let (input, pair) = word.split_once("=").ok_or(LineFault::NotAPair)?;
    let (scope, place) = pair_of(pair)?;
    Ok(Used {
        input: String::from_str(alloc, input)?,
        scope,
        place,
    })
}

fn push_used(alloc: Global, used: &mut Vec<Used>, words: &str) -> Result<(), LineFault> {
    for word in words.split_whitespace() {
        add(used, used_of(alloc, word)?)?;
    }
    Ok(())
}

/// The used places of words with blanks between.
pub fn used_places(alloc: Global, words: &str) -> Result<Vec<Used>, LineFault> {
    let mut used = Vec::new(alloc);
    push_used(alloc, &mut used, words)?;
    Ok(used)
}

/// The scope of a resource of a pipeline.
pub fn scope_in(pipeline: &Pipeline, name: &str) -> Result<Scope, LineFault> {
    match pipeline.resource(name) {
        Some(resource) => Ok(resource.scope().copy()?),
        None => Err(LineFault::NoResource),
    }
}

/// The status of this name, with which a build can end.
pub fn status_of(word: &str) -> Result<Status, LineFault>
    ensures { IfOk result (λ status. status ≢ Running) }
{
    match word {
        "succeeded" => Ok(Status::Succeeded),
        "failed" => Ok(Status::Failed),
        "errored" => Ok(Status::Errored),
        "aborted" => Ok(Status::Aborted),
        _ => Err(LineFault::NotAStatus),
    }
}

/// The name of a status.
pub fn status_name(status: Status) -> &'static str {
    match status {
        Status::Running => "running",
        Status::Succeeded => "succeeded",
        Status::Failed => "failed",
        Status::Errored => "errored",
        Status::Aborted => "aborted",
    }
}

/// The name of an outcome.
pub fn outcome_name(outcome: Outcome) -> &'static str {
    match outcome {
        Outcome::Succeeded => "succeeded",
        Outcome::Failed => "failed",
        Outcome::Errored => "errored",
        Outcome::Aborted => "aborted",
    }
}
