//! JSON objects whose numbers are all whole, as sources and params are.
ghost use Rattle.std.specs.Prelude.{◌≡◌, IfOk, IsTrue, option_map, string_bytes};
ghost use Rattle.serde_json.specs.View.{view, items_view, members_view};
ghost use Rattle.serde_json.specs.Written.{compact_text, has_float, items_have_float, members_have_float};
ghost use Rattle.ccr_history.specs.Objects.{is_object, object_of};

use serde_json::Value;
use std::alloc::{AllocError, Global};
use std::collections::BTreeMap;

/// What a resource's programs are given: a JSON object in which each number is whole and in the range of 64 bits
/// (Concourse: source, params).
#[derive(Drop)]
pub struct Object {
    value: Value,
    // It is such an object.
    pub ghost whole: { IsTrue (is_object (view value)) },
}

impl Object {
    /// The object that a JSON value is: None where the value is of another kind, or a number in it isn't whole or is out
    /// of the range of 64 bits.
    pub fn from_value(value: Value) -> Option<Object>
        ensures { option_map (λ object. view object.value) result ≡ object_of (view value) }
    {
        if !value.is_object() || has_float(&value) {
            return None;
        }
        Some(Object { value })
    }

    /// The object as a JSON value.
    pub fn as_value(&self) -> &Value
        ensures { view result.now ≡ view self.now.value }
    {
        &self.value
    }

    /// The object's compact JSON text with keys in ascending byte order.
    pub fn text(&self, alloc: Global) -> Result<String, AllocError>
        ensures { IfOk result (λ text. string_bytes text ≡ compact_text (view self.now.value)) }
    {
        self.value.to_string(alloc)
    }

    /// A copy of the object.
    pub fn copy(&self) -> Result<Object, AllocError>
        ensures { IfOk result (λ o. view o.value ≡ view self.now.value) }
    {
        Ok(Object {
            value: self.value.clone()?,
        })
    }
}

/// Whether a number in the value isn't whole, or is out of the range of 64 bits.
#[cycle(float)]
pub fn has_float(value: &Value) -> bool
    ensures { result ≡ has_float (view value.now) }
{
    match value {
        Value::Number(number) => number.is_f64(),
        Value::Array(items) => items_have_float(items),
        Value::Object(members) => members_have_float(members),
        _ => false,
    }
}

#[cycle(float)]
fn items_have_float(items: &Vec<Value>) -> bool
    ensures { result ≡ items_have_float (items_view items.now.items) }
{
    for item in items {
        if has_float(item) {
            return true;
        }
    }
    false
}

#[cycle(float)]
fn members_have_float(members: &BTreeMap<String, Value>) -> bool
    ensures { result ≡ members_have_float (members_view members.now.entries) }
{
    for (_, member) in members.iter() {
        if has_float(member) {
            return true;
        }
    }
    false
}
