//! Events, as lines.

use ccr_core::Event;
use ccr_pipeline::read;
use ccr_rows::{LineFault, answered_of, number_of, numbered, pin_of, split, turn_of, versions_of};
use std::alloc::{AllocError, Global};

fn name_of(alloc: Global, word: &str) -> Result<String, AllocError> {
    String::from_str(alloc, word)
}

/// What a check of a resource printed.
fn checked(alloc: Global, given: &str) -> Result<Event, LineFault> {
    let (resource, versions) = split(given);
    let versions = versions_of(alloc, versions)?;
    Ok(Event::Checked(name_of(alloc, resource)?, versions))
}

/// That a check of a resource printed the versions from `{"n":"1"}` to that of a number.
fn filled(alloc: Global, given: &str) -> Result<Event, LineFault> {
    let (resource, count) = split(given);
    let versions = numbered(alloc, number_of(count)?)?;
    Ok(Event::Checked(name_of(alloc, resource)?, versions))
}

fn answer(alloc: Global, given: &str) -> Result<Event, LineFault> {
    let (job, rest) = split(given);
    let (number, rest) = split(rest);
    let (turn, words) = split(rest);
    let (kind, given) = split(words);
    let (number, turn) = (number_of(number)?, turn_of(turn)?);
    let answered = answered_of(alloc, kind, given)?;
    Ok(Event::Answer(name_of(alloc, job)?, number, turn, answered))
}

fn abort(alloc: Global, given: &str) -> Result<Event, LineFault> {
    let (job, number) = split(given);
    let number = number_of(number)?;
    Ok(Event::Abort(name_of(alloc, job)?, number))
}

fn pin(alloc: Global, given: &str) -> Result<Event, LineFault> {
    let (resource, pin) = split(given);
    let pin = pin_of(alloc, pin)?;
    Ok(Event::Pin(name_of(alloc, resource)?, pin))
}

/// A resource and a place, as an event has them.
fn place_of(alloc: Global, given: &str) -> Result<(String, u32), LineFault> {
    let (resource, place) = split(given);
    let place = number_of(place)?;
    Ok((name_of(alloc, resource)?, place))
}

fn disable(alloc: Global, given: &str) -> Result<Event, LineFault> {
    let (resource, place) = place_of(alloc, given)?;
    Ok(Event::Disable(resource, place))
}

fn enable(alloc: Global, given: &str) -> Result<Event, LineFault> {
    let (resource, place) = place_of(alloc, given)?;
    Ok(Event::Enable(resource, place))
}

/// The event that a line tells by its first word and by what stands behind it.
pub(crate) fn event_of(alloc: Global, kind: &str, given: &str) -> Result<Event, LineFault> {
    match kind {
        "pipeline" => Ok(Event::SetPipeline(read(alloc, given.as_bytes())?)),
        "checked" => checked(alloc, given),
        "fill" => filled(alloc, given),
        "schedule" => Ok(Event::Schedule(name_of(alloc, given)?)),
        "trigger" => Ok(Event::Trigger(name_of(alloc, given)?)),
        "answer" => answer(alloc, given),
        "abort" => abort(alloc, given),
        "pin" => pin(alloc, given),
        "unpin" => Ok(Event::Unpin(name_of(alloc, given)?)),
        "disable" => disable(alloc, given),
        "enable" => enable(alloc, given),
        "restart" => Ok(Event::Restart),
        _ => Err(LineFault::NoSuchLine),
    }
}
