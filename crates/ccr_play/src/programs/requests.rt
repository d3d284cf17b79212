//! Requests: `PROGRAM SOURCE | VERSION | PARAMS`.

use super::{object, part, some_version, version};
use anyhow::Result;
use ccr_history::Object;
use ccr_protocol::{check_request, in_request, out_request};
use std::alloc::Global;

/// What `check` is sent.
fn to_check(alloc: Global, source: Option<&Object>, parts: &str) -> Result<Vec<u8>> {
    let version = version(alloc, part(parts, 1))?;
    Ok(check_request(alloc, source, version.as_ref())?)
}

/// What `in` is sent.
fn to_in(
    alloc: Global,
    source: Option<&Object>,
    params: Option<&Object>,
    parts: &str,
) -> Result<Vec<u8>> {
    let version = some_version(alloc, part(parts, 1))?;
    Ok(in_request(alloc, source, &version, params)?)
}

/// The bytes of a request to a program with a source, or what refuses it.
fn bytes_to(alloc: Global, program: &str, source: Option<&Object>, parts: &str) -> Result<Vec<u8>> {
    let params = object(alloc, part(parts, 2))?;
    match program {
        "check" => to_check(alloc, source, parts),
        "in" => to_in(alloc, source, params.as_ref(), parts),
        _ => Ok(out_request(alloc, source, params.as_ref())?),
    }
}

/// The bytes of a request, or what refuses it.
fn bytes(alloc: Global, given: &str) -> Result<Vec<u8>> {
    let (program, parts) = given.split_once(" ").unwrap_or((given, "-"));
    let source = object(alloc, part(parts, 0))?;
    bytes_to(alloc, program, source.as_ref(), parts)
}

/// What a program is sent, or what refuses it.
pub(super) fn sent(alloc: Global, given: &str) -> Result<String> {
    match bytes(alloc, given) {
        Ok(bytes) => Ok(String::from_utf8(bytes)?),
        Err(fault) => Ok(format!(in alloc; "{fault}")?),
    }
}

/// How many bytes a program is sent, or what refuses them.
pub(super) fn length(alloc: Global, given: &str) -> Result<String> {
    match bytes(alloc, given) {
        Ok(bytes) => {
            let count = bytes.len();
            Ok(format!(in alloc; "{count} bytes")?)
        }
        Err(fault) => Ok(format!(in alloc; "{fault}")?),
    }
}
