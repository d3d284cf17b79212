//! JSON objects, written member by member.
ghost use Rattle.std.specs.Prelude.{◌≡◌, ◌++◌, ◌∷◌, List, map, option_copied, decimal, OnOk};
ghost use Rattle.serde_json.specs.Data.{Data, string, object};
ghost use Rattle.serde_json.specs.Written.{compact_text};
ghost use Rattle.ccr_lines.specs.Json.{fields_json, after_comma, array_of};
ghost use Rattle.ccr_lines.specs.Objects.{field_text, member_text, object_text, named};

use crate::json::{bool_text, string_text, without_first};
use ccr_history::{Pin, Version};
use itoa::Buffer;
use std::alloc::{AllocError, Global};

/// The value of a member.
#[derive(Clone, Copy)]
pub enum Field<'a> {
    /// There is none: null.
    Null,
    Flag(bool),
    Number(u64),
    /// A number as a string.
    Numeral(u32),
    Text(&'a str),
    /// The fields of a version, if there is one.
    Version(Option<&'a Version>),
    /// The fields of a pin, if there is one.
    Pin(Option<&'a Pin>),
    /// A value that is JSON already.
    Json(&'a [u8]),
    /// An array of values that are JSON already, each behind a comma.
    Items(&'a [u8]),
}

// ---- values

/// Adds a text as a JSON string.
pub(crate) fn push_string(alloc: Global, out: &mut Vec<u8>, text: &str) -> Result<(), AllocError>
    ensures { OnOk result (out.new.items ≡ out.old.items ++ compact_text (string text.now)) }
{
    let json = string_text(alloc, text)?;
    out.extend_from_slice(&json)
}

/// Adds a number.
fn push_number(out: &mut Vec<u8>, number: u64) -> Result<(), AllocError>
    ensures { OnOk result (out.new.items ≡ out.old.items ++ decimal number) }
{
    let mut buffer = Buffer::new();
    out.extend_from_slice(buffer.format(number).as_bytes())
}

/// Adds a number as a string.
fn push_numeral(alloc: Global, out: &mut Vec<u8>, number: u32) -> Result<(), AllocError>
    ensures { OnOk result (out.new.items ≡ out.old.items ++ compact_text (string (decimal number))) }
{
    let mut buffer = Buffer::new();
    push_string(alloc, out, buffer.format(number))
}

/// Adds the fields of a version, if there is one; else null.
fn push_version(
    alloc: Global,
    out: &mut Vec<u8>,
    version: Option<&Version>,
) -> Result<(), AllocError>
    ensures { OnOk result (out.new.items
        ≡ out.old.items ++ compact_text (fields_json (option_copied version.entry))) }
{
    match version {
        Some(version) => {
            let key = version.key(alloc)?;
            out.extend_from_slice(key.as_bytes())
        }
        None => out.extend_from_slice("null".as_bytes()),
    }
}

/// Adds the fields of a pin, if there is one; else null.
fn push_pin(alloc: Global, out: &mut Vec<u8>, pin: Option<&Pin>) -> Result<(), AllocError>
    ensures { OnOk result (out.new.items
        ≡ out.old.items ++ compact_text (fields_json (option_copied pin.entry))) }
{
    match pin {
        Some(pin) => {
            let text = pin.text(alloc)?;
            out.extend_from_slice(text.as_bytes())
        }
        None => out.extend_from_slice("null".as_bytes()),
    }
}

/// Adds an array of values, each of which stands behind a comma.
fn push_array(out: &mut Vec<u8>, items: &[u8]) -> Result<(), AllocError>
    ensures { OnOk result (out.new.items ≡ out.old.items ++ array_of items.now) }
{
    out.extend_from_slice("[".as_bytes())?;
    out.extend_from_slice(without_first(items))?;
    out.extend_from_slice("]".as_bytes())
}

/// Adds the value of a member.
fn push_field(alloc: Global, out: &mut Vec<u8>, field: Field<'_>) -> Result<(), AllocError>
    ensures { OnOk result (out.new.items ≡ out.old.items ++ field_text field.entry) }
{
    match field {
        Field::Null => out.extend_from_slice("null".as_bytes()),
        Field::Flag(flag) => out.extend_from_slice(bool_text(flag).as_bytes()),
        Field::Number(number) => push_number(out, number),
        Field::Numeral(number) => push_numeral(alloc, out, number),
        Field::Text(text) => push_string(alloc, out, text),
        Field::Version(version) => push_version(alloc, out, version),
        Field::Pin(pin) => push_pin(alloc, out, pin),
        Field::Json(json) => out.extend_from_slice(json),
        Field::Items(items) => push_array(out, items),
    }
}

// ---- objects

/// Adds a member, behind a comma where others stand before it.
fn push_member(
    alloc: Global,
    out: &mut Vec<u8>,
    later: bool,
    name: &str,
    field: Field<'_>,
) -> Result<(), AllocError>
    ensures { OnOk result (out.new.items
        ≡ out.old.items ++ member_text later (name.now, field_text field.entry)) }
{
    if later {
        out.extend_from_slice(",".as_bytes())?;
    }
    push_string(alloc, out, name)?;
    out.extend_from_slice(":".as_bytes())?;
    push_field(alloc, out, field)
}

/// Adds an object of these members, in their order.
fn push_members(
    alloc: Global,
    out: &mut Vec<u8>,
    members: &[(&str, Field<'_>)],
) -> Result<(), AllocError>
    ensures { OnOk result (out.new.items
        ≡ out.old.items ++ object_text (map (λ m. (m.0.now, field_text m.1)) members.now)) }
{
    out.extend_from_slice("{".as_bytes())?;
    let mut later = false;
    for (name, field) in members {
        push_member(alloc, out, later, name, *field)?;
        later = true;
    }
    out.extend_from_slice("}".as_bytes())
}

/// Adds an object of these members, in their order: the object of the values of which they are the texts.
pub(crate) fn push_object(
    alloc: Global,
    out: &mut Vec<u8>,
    members: &[(&str, Field<'_>)],
) -> Result<(), AllocError>
    ensures text { OnOk result (out.new.items
        ≡ out.old.items ++ object_text (map (λ m. (m.0.now, field_text m.1)) members.now)) }
    ensures object { (ds : List Data) → map (λ m. field_text m.1) members.now ≡ map compact_text ds
        → OnOk result (out.new.items
        ≡ out.old.items ++ compact_text (object (named (map (λ m. m.0.now) members.now) ds))) }
{
    push_members(alloc, out, members)?;
    Ok(())
}

/// Adds the same to a list, behind a comma.
pub(crate) fn push_item(
    alloc: Global,
    out: &mut Vec<u8>,
    members: &[(&str, Field<'_>)],
) -> Result<(), AllocError>
    ensures text { OnOk result (out.new.items
        ≡ out.old.items ++ 44 ∷ object_text (map (λ m. (m.0.now, field_text m.1)) members.now)) }
    ensures object { (ds : List Data) → map (λ m. field_text m.1) members.now ≡ map compact_text ds
        → OnOk result (out.new.items
        ≡ out.old.items ++ after_comma (object (named (map (λ m. m.0.now) members.now) ds))) }
{
    out.extend_from_slice(",".as_bytes())?;
    push_object(alloc, out, members)?;
    Ok(())
}
