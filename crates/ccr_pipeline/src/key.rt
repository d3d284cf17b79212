//! Keys of JSON objects, and what stands at them.
ghost use Rattle.std.specs.Prelude.{◌≡◌, option_map};
ghost use Rattle.serde_json.specs.View.{view, items_view};
ghost use Rattle.ccr_pipeline.specs.Keys.{at_key, items_in, list_at};

use serde_json::Value;

/// What stands at a key of an object; `null` is as absent.
pub fn at_key<'v>(value: &'v Value, key: &str) -> Option<&'v Value>
    ensures { option_map (λ found. view found.now) result ≡ at_key key.now (view value.now) }
{
    match value.get(key) {
        Some(found) if !found.is_null() => Some(found),
        _ => None,
    }
}

/// The members of a list; there are none where no list is.
pub fn items_in(value: &Value) -> &[Value]
    ensures { items_view result.now ≡ items_in (view value.now) }
{
    match value.as_array() {
        Some(list) => list,
        None => &[],
    }
}

/// The members of the list at a key.
pub fn list_at<'v>(value: &'v Value, key: &str) -> &'v [Value]
    ensures { items_view result.now ≡ list_at key.now (view value.now) }
{
    match at_key(value, key) {
        Some(found) => items_in(found),
        None => &[],
    }
}
