//! JSON values as texts.
ghost use Rattle.std.specs.Prelude.{◌≡◌, ◌++◌, ◌∷◌, [], drop, IfOk};
ghost use Rattle.serde_json.specs.Data.{boolean, string};
ghost use Rattle.serde_json.specs.Written.{compact_text};
ghost use Rattle.ccr_lines.specs.Json.{array_of};

use serde_json::Value;
use std::alloc::{AllocError, Global};

/// A text as a JSON string.
pub(crate) fn string_text(alloc: Global, text: &str) -> Result<Vec<u8>, AllocError>
    ensures { IfOk result (λ json. json.items ≡ compact_text (string text.now)) }
{
    Value::try_from_str(alloc, text)?.to_vec(alloc)
}

/// A `bool` as JSON.
pub(crate) fn bool_text(value: bool) -> &'static str
    ensures { result.now ≡ compact_text (boolean value) }
{
    if value { "true" } else { "false" }
}

/// What follows the first byte.
pub(crate) fn without_first(text: &[u8]) -> &[u8]
    ensures { result.now ≡ drop 1 text.now }
{
    text.get(1..).unwrap_or(&[])
}

/// An array of the values in this text, each of which stands behind a comma.
pub(crate) fn array_text(alloc: Global, items: &[u8]) -> Result<Vec<u8>, AllocError>
    ensures { IfOk result (λ text. text.items ≡ array_of items.now) }
{
    let mut text = Vec::new(alloc);
    text.extend_from_slice("[".as_bytes())?;
    text.extend_from_slice(without_first(items))?;
    text.extend_from_slice("]".as_bytes())?;
    Ok(text)
}

/// A text on a line.
pub(crate) fn on_a_line(text: Vec<u8>) -> Result<Vec<u8>, AllocError>
    ensures { IfOk result (λ line. line.items ≡ text.items ++ 10 ∷ []) }
{
    let mut line = text;
    line.extend_from_slice("\n".as_bytes())?;
    Ok(line)
}

/// The same array on a line.
pub(crate) fn array_line(alloc: Global, items: &[u8]) -> Result<Vec<u8>, AllocError>
    ensures { IfOk result (λ text. text.items ≡ array_of items.now ++ 10 ∷ []) }
{
    let text = array_text(alloc, items)?;
    let line = on_a_line(text)?;
    Ok(line)
}
