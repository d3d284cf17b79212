//! Versions in a few letters.
ghost use Rattle.std.specs.Prelude.{◌≡◌, ◌++◌, ◌∷◌, [], true, map, flat_map, take, drop, string_bytes, option_map, unwrap_or, IfOk, OnOk};
ghost use Rattle.std.specs.List.{list_all};
ghost use Rattle.std.specs.Option.{option_copied};
ghost use Rattle.serde_json.specs.Read.{read as json};
ghost use Rattle.serde_json.specs.View.{view, members_view};
ghost use Rattle.ccr_history.specs.TextMap.{fields_in, texts_of, text_map_of};
ghost use Rattle.ccr_overview.specs.Each.{each_from};
ghost use Rattle.ccr_overview.specs.PageData.{version_data, word_data};
ghost use Rattle.ccr_overview.specs.Sayings.{version_word};
ghost use Rattle.ccr_overview.specs.Shorts.{is_hex, is_hash, begins, behind_name, short_text, field_data, texts_onto, short_field, short, version_of, short_there};

use crate::word::numbered;
use ccr_history::{History, Pin, Version as HistoryVersion};
use ccr_page::{Version, Word};
use serde_json::Value;
use std::alloc::{AllocError, Global};
use std::collections::BTreeMap;

// ---- texts

/// Whether a byte is a hexadecimal digit in lowercase.
fn is_hex(byte: u8) -> bool
    ensures { result ≡ is_hex byte }
{
    48 <= byte && byte <= 57 || 97 <= byte && byte <= 102
}

/// Whether all these bytes are.
fn are_hex(bytes: &[u8]) -> bool
    ensures { result ≡ list_all is_hex bytes.now }
{
    for byte in bytes {
        if !is_hex(*byte) {
            return false;
        }
    }
    true
}

/// Whether a text is a long hexadecimal number.
fn is_hash(text: &[u8]) -> bool
    ensures { result ≡ is_hash text.now }
{
    16 <= text.len() && are_hex(text)
}

/// Whether a text begins with another one.
fn begins(start: &str, text: &[u8]) -> bool
    ensures { result ≡ begins start.now text.now }
{
    text.get(..start.len().min(text.len())).unwrap_or(text) == start.as_bytes()
}

/// What follows a number of bytes.
fn skip(text: &[u8], count: usize) -> &[u8]
    ensures { result.now ≡ drop count text.now }
{
    text.get(count..).unwrap_or(&[])
}

/// What follows the name of a hash, if a text begins with one.
fn behind_name(text: &[u8]) -> &[u8]
    ensures { result.now ≡ behind_name text.now }
{
    if begins("sha256:", text) {
        skip(text, 7)
    } else if begins("sha512:", text) {
        skip(text, 7)
    } else if begins("sha1:", text) {
        skip(text, 5)
    } else {
        text
    }
}

/// Adds the first seven digits of a hash.
#[tactic(auto, using(crate::proofs::Digits::digits))]
fn push_digits(text: &mut String, digits: &[u8]) -> Result<(), AllocError>
    requires { is_hash digits.now ≡ true }
    ensures { OnOk result (string_bytes text.new ≡ string_bytes text.old ++ take 7 digits.now) }
{
    for k in 0..7 {
        text.push(digits[k] as char)?;
    }
    Ok(())
}

/// Adds a text; of a hash its first seven digits.
fn push_short(text: &mut String, value: &str) -> Result<(), AllocError>
    ensures { OnOk result (string_bytes text.new ≡ string_bytes text.old ++ short_text value.now) }
{
    let digits = behind_name(value.as_bytes());
    if is_hash(digits) {
        push_digits(text, digits)
    } else {
        text.push_str(value)
    }
}

// ---- fields

/// The members of a JSON object; None where one isn't a text.
fn members_of(
    alloc: Global,
    members: &BTreeMap<String, Value>,
) -> Result<Option<Vec<(String, String)>>, AllocError>
    ensures { IfOk result (λ found. option_map (λ all. map field_data all.items) found
        ≡ texts_onto [] (members_view members.now.entries)) }
{
    let mut all = Vec::new(alloc);
    for (key, member) in members.iter() {
        let Some(text) = member.as_str() else {
            return Ok(None);
        };
        let text = String::from_str(alloc, text)?;
        let key = String::from_str(alloc, key.as_str())?;
        all.push((key, text))?;
    }
    Ok(Some(all))
}

/// The same.
#[tactic(auto, using(crate::proofs::Fields::onto_none))]
fn object_fields(
    alloc: Global,
    members: &BTreeMap<String, Value>,
) -> Result<Option<Vec<(String, String)>>, AllocError>
    ensures { IfOk result (λ found. option_map (λ all. map field_data all.items) found
        ≡ texts_of (members_view members.now.entries)) }
{
    let found = members_of(alloc, members)?;
    Ok(found)
}

/// The fields of a JSON object whose fields are all texts; None where a value is no such object.
fn value_fields(alloc: Global, value: &Value) -> Result<Option<Vec<(String, String)>>, AllocError>
    ensures { IfOk result (λ found. option_map (λ all. map field_data all.items) found
        ≡ text_map_of (view value.now)) }
{
    match value.as_object() {
        Some(members) => object_fields(alloc, members),
        None => Ok(None),
    }
}

/// The same; no fields where a value is no such object.
fn some_fields(alloc: Global, value: &Value) -> Result<Vec<(String, String)>, AllocError>
    ensures { IfOk result (λ all. map field_data all.items ≡ unwrap_or (text_map_of (view value.now)) []) }
{
    match value_fields(alloc, value)? {
        Some(fields) => Ok(fields),
        None => Ok(Vec::new(alloc)),
    }
}

/// The value that a text spells, if it spells one.
fn value_of(alloc: Global, text: &str) -> Result<Option<Value>, AllocError>
    ensures { IfOk result (λ found. option_map (λ v. view v) found ≡ json text.now) }
{
    match Value::from_str(alloc, text) {
        Ok(value) => Ok(Some(value)),
        Err(error) if error.is_memory() => Err(AllocError),
        Err(_) => Ok(None),
    }
}

/// The fields that a key spells.
#[tactic(auto, unfolding(ccr_history::specs::TextMap::fields_in))]
fn fields_of(alloc: Global, key: &str) -> Result<Vec<(String, String)>, AllocError>
    ensures { IfOk result (λ all. map field_data all.items ≡ fields_in key.now) }
{
    match value_of(alloc, key)? {
        Some(value) => some_fields(alloc, &value),
        None => Ok(Vec::new(alloc)),
    }
}

/// Adds the texts of fields.
fn push_only(text: &mut String, fields: &[(String, String)]) -> Result<(), AllocError>
    ensures { OnOk result (string_bytes text.new ≡ string_bytes text.old
        ++ flat_map (λ f. short_text f.1) (map field_data fields.now)) }
{
    for field in fields {
        push_short(text, field.1.as_str())?;
    }
    Ok(())
}

/// Adds a field of a version, behind the others.
fn push_field(text: &mut String, position: usize, key: &str, value: &str) -> Result<(), AllocError>
    ensures { OnOk result (string_bytes text.new
        ≡ string_bytes text.old ++ short_field position (key.now, value.now)) }
{
    text.push_str(if position == 0 { "" } else { ", " })?;
    text.push_str(key)?;
    text.push_str(" ")?;
    push_short(text, value)
}

/// Adds fields, each with its text.
fn push_fields(text: &mut String, fields: &[(String, String)]) -> Result<(), AllocError>
    ensures { OnOk result (string_bytes text.new ≡ string_bytes text.old
        ++ each_from short_field 0 (map field_data fields.now)) }
{
    for (position, field) in fields.iter().enumerate() {
        push_field(text, position, field.0.as_str(), field.1.as_str())?;
    }
    Ok(())
}

/// Fields in a few letters.
fn fields_short(alloc: Global, fields: &[(String, String)]) -> Result<String, AllocError>
    ensures { IfOk result (λ t. string_bytes t ≡ short (map field_data fields.now)) }
{
    let mut text = String::new(alloc);
    if fields.len() == 1 {
        push_only(&mut text, fields)?;
    } else {
        push_fields(&mut text, fields)?;
    }
    Ok(text)
}

/// The version of a key in a few letters.
fn key_short(alloc: Global, key: &str) -> Result<String, AllocError>
    ensures { IfOk result (λ t. string_bytes t ≡ short (fields_in key.now)) }
{
    let fields = fields_of(alloc, key)?;
    fields_short(alloc, &fields)
}

// ---- versions

/// A version, by its key.
fn key_version(alloc: Global, key: String) -> Result<Version, AllocError>
    ensures { IfOk result (λ v. version_data v
        ≡ record { key = string_bytes key; short = short (fields_in (string_bytes key)) }) }
{
    let short = key_short(alloc, key.as_str())?;
    Ok(Version { key, short })
}

/// A version, in full and in a few letters.
pub(crate) fn version_of(alloc: Global, version: &HistoryVersion) -> Result<Version, AllocError>
    ensures { IfOk result (λ v. version_data v ≡ version_of version.now) }
{
    let key = version.key(alloc)?;
    key_version(alloc, key)
}

/// The same of a pin.
pub(crate) fn pin_version(alloc: Global, pin: &Pin) -> Result<Version, AllocError>
    ensures { IfOk result (λ v. version_data v ≡ version_of pin.now) }
{
    let key = pin.text(alloc)?;
    key_version(alloc, key)
}

/// A pin in a few letters.
pub(crate) fn pin_short(alloc: Global, pin: &Pin) -> Result<String, AllocError>
    ensures { IfOk result (λ t. string_bytes t ≡ short pin.now) }
{
    let key = pin.text(alloc)?;
    key_short(alloc, key.as_str())
}

/// The version at a place of the scope of this number in a few letters; nothing where there is none.
pub(crate) fn short_there(
    alloc: Global,
    history: &History,
    scope: u32,
    place: u32,
) -> Result<String, AllocError>
    ensures { IfOk result (λ t. string_bytes t ≡ short_there history.now scope place) }
{
    match history.version_at(scope, place) {
        Some(version) => {
            let key = version.key(alloc)?;
            key_short(alloc, key.as_str())
        }
        None => Ok(String::new(alloc)),
    }
}

/// A version, or its place where there is none, as a word.
pub(crate) fn version_word(
    alloc: Global,
    version: Option<&HistoryVersion>,
    place: u32,
) -> Result<Word, AllocError>
    ensures { IfOk result (λ w. word_data w ≡ version_word (option_copied version.entry) place) }
{
    match version {
        Some(version) => Ok(Word::Version(version_of(alloc, version)?)),
        None => Ok(Word::Plain(numbered(alloc, "", place)?)),
    }
}

/// Adds a version, or its place where there is none.
pub(crate) fn push_version(
    alloc: Global,
    out: &mut Vec<Word>,
    version: Option<&HistoryVersion>,
    place: u32,
) -> Result<(), AllocError>
    ensures { OnOk result (map word_data out.new.items
        ≡ map word_data out.old.items ++ version_word (option_copied version.entry) place ∷ []) }
{
    let word = version_word(alloc, version, place)?;
    out.push(word)?;
    Ok(())
}
