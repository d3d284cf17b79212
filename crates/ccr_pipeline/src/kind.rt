//! The tests of single values.
ghost use Rattle.std.specs.Prelude.{◌≡◌};
ghost use Rattle.std.specs.List.{list_all};
ghost use Rattle.serde_json.specs.View.{items_view, members_view};
ghost use Rattle.ccr_pipeline.specs.Keys.{here, path_of};
ghost use Rattle.ccr_pipeline.specs.Faults.{Checks};
ghost use Rattle.ccr_pipeline.specs.Kinds.{is_name, is_name_byte, broken_texts, broken_pin, is_empty};
ghost use Rattle.ccr_pipeline.specs.Objects.{broken};

use crate::cursor::Cursor;
use crate::fault::{Checked, Rule};
use crate::place::Place;
use crate::schema::Kind;
use ccr_history::has_float;
use serde_json::Value;
use std::alloc::Global;
use std::collections::BTreeMap;

/// How many bytes a name may have.
const MOST_NAME_BYTES: usize = 128;

fn has_name_bytes(bytes: &[u8]) -> bool
    ensures { result ≡ list_all is_name_byte bytes.now }
{
    bytes
        .iter()
        .all(|byte| *byte >= 32 && *byte != 127 && *byte != b'/')
}

/// Whether the text may be a name: 1 to 128 bytes, none of them below 32, 127 or `/`, and neither `.` nor `..`.
#[tactic(auto, unfolding(crate::specs::Kinds::is_name))]
pub fn is_name(text: &str) -> bool
    ensures { result ≡ is_name text.now }
{
    if text.is_empty() || text.len() > MOST_NAME_BYTES {
        return false;
    }
    if text == "." || text == ".." {
        return false;
    }
    has_name_bytes(text.as_bytes())
}

fn check_texts(alloc: Global, list: &[Value], place: &Place) -> Checked
    ensures { Checks (broken_texts (path_of place.now) 0 (items_view list.now)) result }
{
    for (i, member) in list.iter().enumerate() {
        if !member.is_string() {
            return place.member(i).require(alloc, false, Rule::Kind);
        }
    }
    Ok(())
}

/// Whether an object has no members.
pub fn is_empty(members: &BTreeMap<String, Value>) -> bool
    ensures { result ≡ is_empty (members_view members.now.entries) }
{
    members.len() == 0
}

fn check_pin(alloc: Global, found: &Cursor) -> Checked
    ensures { Checks (here broken_pin found.now) result }
{
    let Some(members) = found.value.as_object() else {
        return found.place.require(alloc, false, Rule::Kind);
    };
    for (field, member) in members.iter() {
        if !member.is_string() {
            let place = found.place.key(field.as_str());
            return place.require(alloc, false, Rule::Kind);
        }
    }
    Ok(())
}

/// Refuses a value that isn't of the kind, at the first place that breaks it. In the objects that it holds nothing is tested.
#[tactic(auto, unfolding(crate::specs::Objects::broken))]
pub(crate) fn check(alloc: Global, kind: Kind, found: &Cursor) -> Checked
    ensures { Checks (here (broken kind) found.now) result }
{
    let (value, place) = (found.value, found.place);
    match kind {
        Kind::Text | Kind::OwnName => place.require(alloc, value.is_string(), Rule::Kind),
        Kind::Steps | Kind::Objects(_) => place.require(alloc, value.is_array(), Rule::Kind),
        Kind::Truth => place.require(alloc, value.is_boolean(), Rule::Kind),
        Kind::Whole => place.require(alloc, value.is_u64(), Rule::Kind),
        Kind::Name => match value.as_str() {
            Some(text) => place.require(alloc, is_name(text), Rule::Name),
            None => place.require(alloc, false, Rule::Kind),
        },
        Kind::Texts => match value.as_array() {
            Some(list) => check_texts(alloc, list, &place),
            None => place.require(alloc, false, Rule::Kind),
        },
        Kind::Params => match value.as_object() {
            Some(_) => place.require(alloc, !has_float(value), Rule::Whole),
            None => place.require(alloc, false, Rule::Kind),
        },
        Kind::Fields => check_pin(alloc, found),
        Kind::Nothing => match value.as_object() {
            Some(members) => place.require(alloc, is_empty(members), Rule::Supported),
            None => place.require(alloc, false, Rule::Kind),
        },
        Kind::Wanted => match value.as_str() {
            Some(text) => place.require(alloc, text == "latest" || text == "every", Rule::Kind),
            None => check_pin(alloc, found),
        },
        Kind::Undone => place.require(alloc, false, Rule::Supported),
        Kind::Object(_) | Kind::Parallel | Kind::Step | Kind::Attempts | Kind::Any => Ok(()),
    }
}
