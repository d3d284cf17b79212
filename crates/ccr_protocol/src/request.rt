//! Requests: what a program is given on its standard input.
ghost use Rattle.std.specs.Prelude.{◌≡◌, ◌++◌, [], Some, None, IfOk, string_bytes, codes};
ghost use Rattle.std.specs.Option.{option_map_or, option_copied};
ghost use Rattle.serde_json.specs.Written.{compact_text};
ghost use Rattle.ccr_history.specs.Sources.{source_or_empty};
ghost use Rattle.ccr_history.specs.TextMap.{key_text};
ghost use Rattle.ccr_protocol.specs.Requests.{data_of, request_text, Sends};

use crate::fault::RequestFault;
use ccr_history::{Object, Version};
use std::alloc::{AllocError, Global};

/// The greatest number of bytes of a request.
pub const MOST_REQUEST: usize = 65_536;

/// The member of the params, with the comma that follows it; nothing where there are none.
fn params_member(alloc: Global, params: Option<&Object>) -> Result<String, AllocError>
    ensures { IfOk result (λ text. string_bytes text
        ≡ option_map_or (λ d. codes "\"params\":" ++ compact_text d ++ codes ",") (data_of params.entry) []) }
{
    let mut text = String::new(alloc);
    if let Some(params) = params {
        text.push_str("\"params\":")?;
        text.push_str(params.text(alloc)?.as_str())?;
        text.push_str(",")?;
    }
    Ok(text)
}

/// The text of the source, an empty object where there is none.
fn source_text(alloc: Global, source: Option<&Object>) -> Result<String, AllocError>
    ensures { IfOk result (λ text. string_bytes text
        ≡ compact_text (source_or_empty (data_of source.entry))) }
{
    match source {
        Some(source) => source.text(alloc),
        None => String::from_str(alloc, "{}"),
    }
}

/// The member of the version, with the comma before it; nothing where there is none.
fn version_member(alloc: Global, version: Option<&Version>) -> Result<String, AllocError>
    ensures { IfOk result (λ text. string_bytes text
        ≡ option_map_or (λ fields. codes ",\"version\":" ++ key_text fields) (option_copied version.entry) []) }
{
    let mut text = String::new(alloc);
    if let Some(version) = version {
        text.push_str(",\"version\":")?;
        text.push_str(version.key(alloc)?.as_str())?;
    }
    Ok(text)
}

/// The whole text.
fn request_body(
    alloc: Global,
    params: Option<&Object>,
    source: Option<&Object>,
    version: Option<&Version>,
) -> Result<String, AllocError>
    ensures { IfOk result (λ text. string_bytes text
        ≡ request_text (data_of params.entry) (data_of source.entry) (option_copied version.entry)) }
{
    let params = params_member(alloc, params)?;
    let source = source_text(alloc, source)?;
    let version = version_member(alloc, version)?;
    format!(in alloc; "{{{params}\"source\":{source}{version}}}")
}

/// The text's bytes, if there aren't too many.
fn request(
    alloc: Global,
    params: Option<&Object>,
    source: Option<&Object>,
    version: Option<&Version>,
) -> Result<Vec<u8>, RequestFault>
    ensures { Sends (request_text (data_of params.entry) (data_of source.entry) (option_copied version.entry)) result }
{
    let text = request_body(alloc, params, source, version)?;
    if text.len() > MOST_REQUEST {
        return Err(RequestFault::TooLong);
    }
    Ok(text.into_bytes())
}

/// What `check` is given: the resource's source, and the version with the greatest place, if there is one
/// (Concourse: implementing a resource type, check).
///
/// `TooLong` exactly where the text has more than 65,536 bytes; `NoMemory` where memory runs out.
pub fn check_request(
    alloc: Global,
    source: Option<&Object>,
    version: Option<&Version>,
) -> Result<Vec<u8>, RequestFault>
    ensures { Sends (request_text None (data_of source.entry) (option_copied version.entry)) result }
{
    request(alloc, None, source, version)
}

/// What `in` is given: the step's params, if there are such, the resource's source and the version that is asked for
/// (Concourse: implementing a resource type, in).
///
/// `TooLong` exactly where the text has more than 65,536 bytes; `NoMemory` where memory runs out.
pub fn in_request(
    alloc: Global,
    source: Option<&Object>,
    version: &Version,
    params: Option<&Object>,
) -> Result<Vec<u8>, RequestFault>
    ensures { Sends (request_text (data_of params.entry) (data_of source.entry)
        (Some version.now)) result }
{
    request(alloc, params, source, Some(version))
}

/// What `out` is given: the step's params, if there are such, and the resource's source
/// (Concourse: implementing a resource type, out).
///
/// `TooLong` exactly where the text has more than 65,536 bytes; `NoMemory` where memory runs out.
pub fn out_request(
    alloc: Global,
    source: Option<&Object>,
    params: Option<&Object>,
) -> Result<Vec<u8>, RequestFault>
    ensures { Sends (request_text (data_of params.entry) (data_of source.entry) None)
        result }
{
    request(alloc, params, source, None)
}
