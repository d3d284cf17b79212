//! Where a number stands that isn't whole.
ghost use Rattle.std.specs.Prelude.{◌≡◌, option_map, string_bytes, IfOk};
ghost use Rattle.serde_json.specs.View.{view, items_view, members_view};
ghost use Rattle.ccr_findings.specs.Floats as spec;

use ccr_pipeline::{path_at, path_below};
use serde_json::Value;
use std::alloc::{AllocError, Global};
use std::collections::BTreeMap;

/// The path of the first such number, if there is one; memory may be refused.
type Found = Result<Option<String>, AllocError>;

/// Where it stands in the members of a list.
#[cycle(floats)]
fn float_in_items(alloc: Global, path: &str, list: &Vec<Value>) -> Found
    ensures { IfOk result (λ o. option_map string_bytes o
        ≡ spec.float_in_items path.now 0 (items_view list.now.items)) }
{
    for (i, member) in list.iter().enumerate() {
        let below = path_at(alloc, path, i)?;
        if let Some(found) = float_in(alloc, below.as_str(), member)? {
            return Ok(Some(found));
        }
    }
    Ok(None)
}

/// Where it stands in the members of an object.
#[cycle(floats)]
fn float_in_members(alloc: Global, path: &str, members: &BTreeMap<String, Value>) -> Found
    ensures { IfOk result (λ o. option_map string_bytes o
        ≡ spec.float_in_members path.now (members_view members.now.entries)) }
{
    for (key, member) in members.iter() {
        let below = path_below(alloc, path, key.as_str())?;
        if let Some(found) = float_in(alloc, below.as_str(), member)? {
            return Ok(Some(found));
        }
    }
    Ok(None)
}

/// Where the first number stands that isn't whole, in a value at a path.
#[cycle(floats)]
pub(crate) fn float_in(alloc: Global, path: &str, value: &Value) -> Found
    ensures { IfOk result (λ o. option_map string_bytes o ≡ spec.float_in path.now (view value.now)) }
{
    match value {
        Value::Number(number) => {
            if number.is_f64() {
                Ok(Some(String::from_str(alloc, path)?))
            } else {
                Ok(None)
            }
        }
        Value::Array(list) => float_in_items(alloc, path, list),
        Value::Object(members) => float_in_members(alloc, path, members),
        Value::Null | Value::Bool(_) | Value::String(_) => Ok(None),
    }
}
