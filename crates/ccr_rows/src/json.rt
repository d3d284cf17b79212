//! JSON texts, built piece by piece.

use serde_json::Value;
use std::alloc::{AllocError, Global};

/// A text as JSON.
fn quoted(alloc: Global, text: &str) -> Result<String, AllocError> {
    Value::String(String::from_str(alloc, text)?).to_string(alloc)
}

/// Adds a text as JSON.
fn push_quoted(alloc: Global, out: &mut String, text: &str) -> Result<(), AllocError> {
    let quoted = quoted(alloc, text)?;
    out.push_str(quoted.as_str())
}

/// Adds a piece of JSON, and a text behind it.
pub fn push_text(
    alloc: Global,
    out: &mut String,
    before: &str,
    text: &str,
) -> Result<(), AllocError> {
    out.push_str(before)?;
    push_quoted(alloc, out, text)
}

/// Adds the comma that stands before each item of a list but the first.
pub fn push_comma(out: &mut String, position: usize) -> Result<(), AllocError> {
    out.push_str(if position == 0 { "" } else { "," })
}

/// Adds texts as a list.
pub(crate) fn push_texts(
    alloc: Global,
    out: &mut String,
    texts: &[String],
) -> Result<(), AllocError> {
    out.push_str("[")?;
    for (i, text) in texts.iter().enumerate() {
        push_comma(out, i)?;
        push_quoted(alloc, out, text.as_str())?;
    }
    out.push_str("]")
}
