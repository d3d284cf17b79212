//! Texts that a variable was to replace.
ghost use Rattle.std.specs.Prelude.{◌≡◌, ◌++◌, [], Decides, OnOk};
ghost use Rattle.serde_json.specs.View.{view, items_view, members_view};
ghost use Rattle.ccr_findings.specs.Findings.{findings_data};
ghost use Rattle.ccr_findings.specs.Vars as spec;
ghost use Rattle.ccr_findings.specs.Vars.{HasVariable, vars_at, vars_in, vars_in_items, vars_in_members};

use crate::finding::{Finding, Findings, Kind};
use ccr_pipeline::{path_at, path_below};
use serde_json::Value;
use std::alloc::{AllocError, Global};
use std::collections::BTreeMap;

/// What a search answers: memory may be refused.
type Found = Result<(), AllocError>;

/// Whether a byte is a letter of a variable's name: a letter, a digit, or one of `_`, `-`, `.`, `/`, `:`, `@` and `"`.
fn is_letter(byte: u8) -> bool
    ensures { result ≡ spec.is_letter byte }
{
    matches!(byte, b'a'..=b'z' | b'A'..=b'Z' | b'-'..=b':' | b'_' | b'@' | b'"' | 128..)
}

/// Whether letters are some, and have no `-` at their ends: `((n--))` is arithmetic of a shell.
fn is_free(letters: &[u8]) -> bool
    ensures { result ≡ spec.is_free letters.now }
{
    match (letters.first(), letters.last()) {
        (Some(first), Some(last)) => *first != b'-' && *last != b'-',
        _ => false,
    }
}

/// The letters that a text begins with, and what is behind them.
fn split_letters(text: &[u8]) -> (&[u8], &[u8])
    ensures front { result.0.now ≡ spec.front_letters text.now }
    ensures behind { result.1.now ≡ spec.behind_letters text.now }
{
    for (i, byte) in text.iter().enumerate() {
        if !is_letter(*byte) {
            return text.split_at(i);
        }
    }
    (text, &[])
}

/// Whether a text begins with a variable.
fn begins_variable(text: &[u8]) -> bool
    ensures { result ≡ spec.begins_variable text.now }
{
    let [b'(', b'(', rest @ ..] = text else {
        return false;
    };
    let (name, behind) = split_letters(rest);
    is_free(name) && matches!(behind, [b')', b')', ..])
}

/// Whether a variable begins somewhere in a text. Behind a `$` it is arithmetic of a shell.
fn is_found(text: &[u8]) -> bool
    ensures { result ≡ spec.has_variable text.now }
{
    let mut last = 0;
    for (i, byte) in text.iter().enumerate() {
        if last != b'$' && begins_variable(&text[i..]) {
            return true;
        }
        last = *byte;
    }
    false
}

/// Whether a text has a variable: somewhere in it stands a name between `((` and `))`, with no `$` before it.
#[tactic(auto, using(crate::proofs::Somewhere::variable_Decides))]
fn has_variable(text: &str) -> bool
    ensures whether { result ≡ spec.has_variable text.now }
    ensures somewhere { Decides result (HasVariable text.now) }
{
    is_found(text.as_bytes())
}

/// Adds the finding of a text, if it has variables.
#[tactic(auto, using(crate::proofs::Lists::and_none))]
fn find_text(alloc: Global, out: &mut Findings, text: &str, path: &str) -> Found
    ensures { OnOk result
        (findings_data out.new.items ≡ findings_data out.old.items ++ vars_at path.now text.now) }
{
    if !has_variable(text) {
        return Ok(());
    }
    let line = format!(in alloc; "vars {path}")?;
    out.push(Finding {
        kind: Kind::Vars,
        line,
    })?;
    Ok(())
}

/// Adds those of the members of a list.
#[cycle(vars)]
#[tactic(auto, using(std::proofs::Common::append_assoc, crate::proofs::Lists::and_none))]
fn find_in_items(alloc: Global, out: &mut Findings, list: &Vec<Value>, path: &str) -> Found
    ensures { OnOk result (findings_data out.new.items
        ≡ findings_data out.old.items ++ vars_in_items path.now 0 (items_view list.now.items)) }
{
    for (i, member) in list.iter().enumerate() {
        let below = path_at(alloc, path, i)?;
        find_in(alloc, out, member, below.as_str())?;
    }
    Ok(())
}

/// Adds those of the members of an object.
#[cycle(vars)]
#[tactic(auto, using(std::proofs::Common::append_assoc, crate::proofs::Lists::and_none))]
fn find_in_members(
    alloc: Global,
    out: &mut Findings,
    members: &BTreeMap<String, Value>,
    path: &str,
) -> Found
    ensures { OnOk result (findings_data out.new.items
        ≡ findings_data out.old.items ++ vars_in_members path.now (members_view members.now.entries)) }
{
    for (key, member) in members.iter() {
        let below = path_below(alloc, path, key.as_str())?;
        find_in(alloc, out, member, below.as_str())?;
    }
    Ok(())
}

/// Says which texts of a value have variables.
#[cycle(vars)]
#[tactic(auto, using(crate::proofs::Lists::and_none))]
fn find_in(alloc: Global, out: &mut Findings, value: &Value, path: &str) -> Found
    ensures { OnOk result
        (findings_data out.new.items ≡ findings_data out.old.items ++ vars_in path.now (view value.now)) }
{
    match value {
        Value::String(text) => find_text(alloc, out, text.as_str(), path),
        Value::Array(list) => find_in_items(alloc, out, list, path),
        Value::Object(members) => find_in_members(alloc, out, members, path),
        Value::Null | Value::Bool(_) | Value::Number(_) => Ok(()),
    }
}

/// Says which texts of a pipeline have variables.
pub(crate) fn find_vars(alloc: Global, out: &mut Findings, value: &Value) -> Found
    ensures { OnOk result
        (findings_data out.new.items ≡ findings_data out.old.items ++ vars_in [] (view value.now)) }
{
    find_in(alloc, out, value, "")
}
