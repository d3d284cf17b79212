//! Keys of versions and pins: the compact JSON text of an object whose fields are all texts, keys ascending.
//!
//! A version and a pin keep their key and nothing else. So whether a version meets a pin is read off the two keys: each
//! member of the pin's key, as it is spelled, has to be a member of the version's. A text has one spelling in a key, so
//! equal members are equal texts.
ghost use Rattle.std.specs.Prelude.{◌≡◌, ◌↔◌, ◌<◌, ◌≤◌, Some, None, IfOk, IfErr, IfSome, IsTrue, IsErrOf, IsSome, string_bytes, length, false, option_map, drop};
ghost use Rattle.std.specs.List.{list_all};
ghost use Rattle.std.specs.BTreeMap.{values, IsOrdered};
ghost use Rattle.std.specs.String.{string_cmp};
ghost use Rattle.serde_json.specs.Find.{as_object};
ghost use Rattle.serde_json.specs.View.{view};
ghost use Rattle.ccr_history.specs.TextMap.{TextMap, text_map_of, fields_in, IsKey};
ghost use Rattle.ccr_history.specs.Members.{is_text, first_member, has_member, has_members, IsLeft};
ghost use Rattle.ccr_history.specs.Faults.{is_fault_of_value};
ghost use Rattle.ccr_history.specs.Scan.{after_string};

use crate::fault::HistoryFault;
use serde_json::Value;
use std::alloc::Global;
use std::collections::BTreeMap;

fn all_texts(members: &BTreeMap<String, Value>) -> bool
    ensures all { result ≡ list_all (λ member. is_text (view member)) (values members.now) }
    ensures ordered { IsOrdered string_cmp members.now }
{
    members.values().all(|member| member.is_string())
}

/// The key of a JSON object whose fields are all texts.
pub(crate) fn key_of(alloc: Global, value: &Value) -> Result<String, HistoryFault>
    ensures ok { IfOk result (λ key. IsKey (string_bytes key)
        × (text_map_of (view value.now) ≡ Some (fields_in (string_bytes key)))) }
    ensures not_object { IsErrOf result HistoryFault.NotObject
        ↔ (as_object (view value.now) ≡ None) }
    ensures not_text { IsErrOf result HistoryFault.VersionNotText
        ↔ (IsSome (as_object (view value.now)) × (text_map_of (view value.now) ≡ None)) }
    ensures only { IfErr result (λ fault. IsTrue (is_fault_of_value fault)) }
{
    let Some(members) = value.as_object() else {
        return Err(HistoryFault::NotObject);
    };
    if !all_texts(members) {
        return Err(HistoryFault::VersionNotText);
    }
    let mut key = value.to_string(alloc)?;
    key.shrink_to_fit();
    Ok(key)
}

/// What stands behind the closing quote of the string whose content the text begins with.
fn after_string(text: &[u8]) -> &[u8]
    ensures after { result.now ≡ after_string false text.now }
    ensures shorter { length result.now ≤ length text.now }
{
    let mut rest = text;
    let mut escaped = false;
    while let [first, others @ ..] = rest {
        rest = others;
        if escaped {
            escaped = false;
        } else if *first == b'"' {
            return rest;
        } else {
            escaped = *first == b'\\';
        }
    }
    rest
}

fn skip(text: &[u8], count: usize) -> &[u8]
    ensures after { result.now ≡ drop count text.now }
    ensures shorter { length result.now ≤ length text.now }
{
    text.get(count..).unwrap_or(&[])
}

/// The first member that is left of a key, as it is spelled, and what follows it.
fn split_member(text: &[u8]) -> Option<(&[u8], &[u8])>
    ensures first { (fields : TextMap) → IsLeft fields text.now
        → option_map (λ r. (r.0.now, r.1.now)) result ≡ first_member fields }
    ensures shorter { IfSome result (λ r. length r.1.now < length text.now) }
{
    let [_, quote, content @ ..] = text else {
        return None;
    };
    if *quote != b'"' {
        return None;
    }
    let rest = after_string(skip(after_string(content), 2));
    let member = skip(text, 1);
    Some((&member[..member.len() - rest.len()], rest))
}

/// Whether one of the members that are left of a key is spelled so.
fn has_member(text: &[u8], member: &[u8]) -> bool
    ensures { (fields : TextMap) → IsLeft fields text.now → result ≡ has_member fields member.now }
{
    let mut rest = text;
    while let Some((found, others)) = split_member(rest) {
        if found == member {
            return true;
        }
        rest = others;
    }
    false
}

/// Whether each of the members that are left of the wanted key is a member of the other key.
pub(crate) fn has_members(text: &[u8], wanted: &[u8]) -> bool
    ensures { (fields wanted_fields : TextMap) → IsLeft fields text.now → IsLeft wanted_fields wanted.now
        → result ≡ has_members fields wanted_fields }
{
    let mut rest = wanted;
    while let Some((member, others)) = split_member(rest) {
        if !has_member(text, member) {
            return false;
        }
        rest = others;
    }
    true
}
