//! Versions, pins and objects: each line is answered with a text, or with why there is none.
//!
//! `version JSON`, `pin JSON` and `object JSON` ask for the text of one; `meets VERSION PIN`, texts without blanks, whether the
//! version meets the pin.

use ccr_history::{HistoryFault, Object, Pin, Version, has_float};
use ccr_rows::{LineFault, Player, pin_of, split, value_of, version_of};
use serde_json::Value;
use std::alloc::{AllocError, Global};

/// Plays lines of versions, pins and objects.
#[derive(Clone, Copy)]
pub(crate) struct Versions;

fn fault_text(alloc: Global, fault: HistoryFault) -> Result<String, AllocError> {
    match fault {
        HistoryFault::NoMemory => Err(AllocError),
        other => format!(in alloc; "{other}"),
    }
}

/// The key of the version, or its fault.
fn version(alloc: Global, value: &Value) -> Result<String, AllocError> {
    match Version::from_value(alloc, value) {
        Ok(version) => version.copy()?.key(alloc),
        Err(fault) => fault_text(alloc, fault),
    }
}

/// The text of the pin, or its fault.
fn pin(alloc: Global, value: &Value) -> Result<String, AllocError> {
    match Pin::from_value(alloc, value) {
        Ok(pin) => pin.copy()?.text(alloc),
        Err(fault) => fault_text(alloc, fault),
    }
}

/// The text of the source or params, and whether a number in the value isn't whole where it is none.
fn object(alloc: Global, value: Value) -> Result<String, AllocError> {
    let float = has_float(&value);
    match Object::from_value(value) {
        Some(object) => object.copy()?.text(alloc),
        None if float => String::from_str(alloc, "a number is not whole"),
        None => String::from_str(alloc, "no object"),
    }
}

/// Whether the version of the first text meets the pin of the second.
fn meets(alloc: Global, texts: &str) -> Result<bool, LineFault> {
    let (version, pin) = split(texts);
    let version = version_of(alloc, version)?;
    let pin = pin_of(alloc, pin)?;
    Ok(version.meets(&pin))
}

fn met(alloc: Global, texts: &str) -> Result<String, AllocError> {
    let answer = match meets(alloc, texts) {
        Ok(true) => "met",
        Ok(false) => "not met",
        Err(LineFault::NoMemory) => return Err(AllocError),
        Err(_) => "no version and pin",
    };
    String::from_str(alloc, answer)
}

impl Player for Versions {
    fn answer_to(&mut self, alloc: Global, line: &str) -> Result<String, AllocError> {
        let (kind, given) = split(line);
        if kind == "meets" {
            return met(alloc, given);
        }
        let Some(value) = value_of(alloc, given)? else {
            return String::from_str(alloc, "not JSON");
        };
        match kind {
            "version" => version(alloc, &value),
            "pin" => pin(alloc, &value),
            "object" => object(alloc, value),
            _ => String::from_str(alloc, "no such line"),
        }
    }
}
