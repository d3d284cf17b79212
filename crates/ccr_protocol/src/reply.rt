//! Replies: what a program wrote on its standard output.
ghost use Rattle.std.specs.Prelude.{◌≡◌, ◌⊎◌, None, IfOk, IfErr, IsUtf8};
ghost use Rattle.serde_json.specs.View.{view};
ghost use Rattle.serde_json.specs.Read.{read as json};
ghost use Rattle.ccr_protocol.specs.Replies.{version_reading, check_reply, step_reply, IsTextOf, IsReadAs, ReadsReply};
ghost use Rattle.ccr_protocol.specs.declared.fault.ReplyFault.TheVariants.{NotJson, NoMemory};

use crate::fault::ReplyFault;
use ccr_history::{HistoryFault, Version};
use serde_json::Value;
use std::alloc::Global;

/// The JSON value that the bytes spell.
fn value_of(alloc: Global, bytes: &[u8]) -> Result<Value, ReplyFault>
    ensures ok { IfOk result (λ value. IsTextOf bytes.now (view value)) }
    ensures err { IfErr result (λ fault. (fault ≡ NoMemory)
        ⊎ ((fault ≡ NotJson) × (IsUtf8 bytes.now → json bytes.now ≡ None))) }
{
    match Value::from_slice(alloc, bytes) {
        Ok(value) => Ok(value),
        Err(error) if error.is_memory() => Err(ReplyFault::NoMemory),
        Err(_) => Err(ReplyFault::NotJson),
    }
}

/// The version that a value is.
fn version(alloc: Global, value: &Value) -> Result<Version, ReplyFault>
    ensures { IsReadAs (version_reading (view value.now)) (λ v. v) result }
{
    match Version::from_value(alloc, value) {
        Ok(version) => Ok(version),
        Err(HistoryFault::NotObject) => Err(ReplyFault::WrongKind),
        Err(HistoryFault::VersionNotText) => Err(ReplyFault::VersionNotText),
        Err(HistoryFault::NoMemory) => Err(ReplyFault::NoMemory),
        Err(_) => unreachable!(),
    }
}

/// The versions that a list's members are, up to the first fault.
fn versions(alloc: Global, value: &Value) -> Result<Vec<Version>, ReplyFault>
    ensures { IsReadAs (check_reply (view value.now)) (λ v. v.items) result }
{
    let mut versions = Vec::new(alloc);
    if value.is_null() {
        return Ok(versions);
    }
    let Some(members) = value.as_array() else {
        return Err(ReplyFault::WrongKind);
    };
    for member in members {
        versions.push(version(alloc, member)?)?;
    }
    Ok(versions)
}

/// The version that an object has.
fn version_in(alloc: Global, value: &Value) -> Result<Version, ReplyFault>
    ensures { IsReadAs (step_reply (view value.now)) (λ v. v) result }
{
    if !value.is_object() {
        return Err(ReplyFault::WrongKind);
    }
    match value.get("version") {
        Some(found) if !found.is_null() => version(alloc, found),
        _ => Err(ReplyFault::MissingVersion),
    }
}

/// Reads what `check` wrote: a list of versions in their order, where `null` is the empty list
/// (Concourse: implementing a resource type, check).
///
/// `NotJson` where the bytes are no JSON value, `WrongKind` where the value is no list; else the fault of the first
/// member that has one: `WrongKind` where it is no object, `VersionNotText` where a field isn't a text. `NoMemory`
/// where memory runs out.
pub fn read_check(alloc: Global, reply: &[u8]) -> Result<Vec<Version>, ReplyFault>
    ensures { ReadsReply check_reply (λ v. v.items) reply.now result }
{
    let value = value_of(alloc, reply)?;
    versions(alloc, &value)
}

/// Reads what `in` wrote: the version of an object, whose other keys are passed over, whatever they hold
/// (Concourse: implementing a resource type, in).
///
/// `NotJson` where the bytes are no JSON value, `WrongKind` where the value or its version is no object,
/// `MissingVersion` where the version is absent or null, `VersionNotText` where a field of it isn't a text. `NoMemory`
/// where memory runs out.
pub fn read_in(alloc: Global, reply: &[u8]) -> Result<Version, ReplyFault>
    ensures { ReadsReply step_reply (λ v. v) reply.now result }
{
    let value = value_of(alloc, reply)?;
    version_in(alloc, &value)
}

/// Reads what `out` wrote: the version of an object, whose other keys are passed over, whatever they hold
/// (Concourse: implementing a resource type, out).
///
/// The form and the faults are those of [`read_in`].
pub fn read_out(alloc: Global, reply: &[u8]) -> Result<Version, ReplyFault>
    ensures { ReadsReply step_reply (λ v. v) reply.now result }
{
    read_in(alloc, reply)
}
