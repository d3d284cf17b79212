//! The lines of all faults of a pipeline's text.
ghost use Rattle.std.specs.Prelude.{◌≡◌, ◌∷◌, ◌++◌, [], map, option_map, codes, string_bytes, IfOk, OnOk};
ghost use Rattle.serde_json.specs.Data.{string};
ghost use Rattle.serde_json.specs.View.{view, items_view};
ghost use Rattle.serde_json.specs.Written.{compact_text};
ghost use Rattle.ccr_pipeline.specs.Faults.{fault_of};
ghost use Rattle.ccr_pipeline.specs.JobRules.{names_in};
ghost use Rattle.ccr_findings.specs.Stands.{stand_data};
ghost use Rattle.ccr_findings.specs.Told as spec;
ghost use Rattle.ccr_findings.specs.Told.{AreLines};

use crate::broken::{break_lines, offset_of};
use crate::find_all::faults_in;
use crate::float::float_in;
use crate::meant::nearest;
use crate::stand::{Stand, is_within, stand_on};
use crate::undone::undone_words;
use ccr_pipeline::schema::Kind;
use ccr_pipeline::{MOST_BYTES, ReadFault, list_at};
use serde_json::Value;
use std::alloc::{AllocError, Global};

/// What the line of a fault tells beside its path.
#[derive(Clone, Copy)]
pub(crate) enum More {
    Nothing,
    /// What is wanted there.
    Wanted,
    /// What stands there.
    Stands,
    Both,
}

/// Where a fault is.
fn path_of(fault: &ReadFault) -> &str
    ensures { result.now ≡ spec.path_in (fault_of fault.now) }
{
    match fault {
        ReadFault::TooLong(path)
        | ReadFault::NotJson(path)
        | ReadFault::Missing(path)
        | ReadFault::WrongKind(path)
        | ReadFault::BadName(path)
        | ReadFault::Repeated(path)
        | ReadFault::NoStep(path)
        | ReadFault::TwoSteps(path)
        | ReadFault::UnknownResource(path)
        | ReadFault::UnknownJob(path)
        | ReadFault::BadAttempts(path)
        | ReadFault::TooDeep(path)
        | ReadFault::TooMany(path)
        | ReadFault::Unsupported(path)
        | ReadFault::NumberNotWhole(path) => path.as_str(),
        ReadFault::NoMemory => "",
    }
}

/// Where a value is of the wrong kind, if a fault tells of one.
fn kind_path(fault: &ReadFault) -> Option<&str>
    ensures { option_map (λ path. path.now) result ≡ spec.kind_path (fault_of fault.now) }
{
    match fault {
        ReadFault::WrongKind(path) => Some(path.as_str()),
        ReadFault::TooLong(_)
        | ReadFault::NotJson(_)
        | ReadFault::Missing(_)
        | ReadFault::BadName(_)
        | ReadFault::Repeated(_)
        | ReadFault::NoStep(_)
        | ReadFault::TwoSteps(_)
        | ReadFault::UnknownResource(_)
        | ReadFault::UnknownJob(_)
        | ReadFault::BadAttempts(_)
        | ReadFault::TooDeep(_)
        | ReadFault::TooMany(_)
        | ReadFault::Unsupported(_)
        | ReadFault::NumberNotWhole(_)
        | ReadFault::NoMemory => None,
    }
}

/// Whether a fault only follows from the other one.
fn follows(told: &ReadFault, fault: &ReadFault) -> bool
    ensures { result ≡ spec.follows (fault_of told.now) (fault_of fault.now) }
{
    match kind_path(told) {
        Some(path) => is_within(path, path_of(fault)),
        None => false,
    }
}

/// The words of a rule that is broken.
fn words_of(fault: &ReadFault) -> &'static str
    ensures { result.now ≡ spec.words_at (fault_of fault.now) }
{
    match fault {
        ReadFault::TooLong(_) => "too long",
        ReadFault::NotJson(_) => "not JSON",
        ReadFault::Missing(_) => "missing",
        ReadFault::WrongKind(_) => "wrong kind",
        ReadFault::BadName(_) => "bad name",
        ReadFault::Repeated(_) => "repeated",
        ReadFault::NoStep(_) => "no step",
        ReadFault::TwoSteps(_) => "two steps",
        ReadFault::UnknownResource(_) => "unknown resource",
        ReadFault::UnknownJob(_) => "unknown job",
        ReadFault::BadAttempts(_) => "bad attempts",
        ReadFault::TooDeep(_) => "too deep",
        ReadFault::TooMany(_) => "too many",
        ReadFault::Unsupported(_) => "unsupported",
        ReadFault::NumberNotWhole(_) => "number not whole",
        ReadFault::NoMemory => "out of memory",
    }
}

/// What a name is of that isn't there, and the key of the list in which it isn't, if a fault tells of one.
fn unknown_in(fault: &ReadFault) -> Option<(&'static str, &'static str)>
    ensures { option_map (λ u. (u.0.now, u.1.now)) result ≡ spec.unknown_in (fault_of fault.now) }
{
    match fault {
        ReadFault::UnknownResource(_) => Some(("resource", "resources")),
        ReadFault::UnknownJob(_) => Some(("job", "jobs")),
        ReadFault::TooLong(_)
        | ReadFault::NotJson(_)
        | ReadFault::Missing(_)
        | ReadFault::WrongKind(_)
        | ReadFault::BadName(_)
        | ReadFault::Repeated(_)
        | ReadFault::NoStep(_)
        | ReadFault::TwoSteps(_)
        | ReadFault::BadAttempts(_)
        | ReadFault::TooDeep(_)
        | ReadFault::TooMany(_)
        | ReadFault::Unsupported(_)
        | ReadFault::NumberNotWhole(_)
        | ReadFault::NoMemory => None,
    }
}

/// What the line of a fault tells beside its path.
fn more_of(fault: &ReadFault) -> More
    ensures { result ≡ spec.more_at (fault_of fault.now) }
{
    match fault {
        ReadFault::Missing(_) => More::Wanted,
        ReadFault::WrongKind(_) => More::Both,
        ReadFault::BadName(_)
        | ReadFault::Repeated(_)
        | ReadFault::UnknownResource(_)
        | ReadFault::UnknownJob(_)
        | ReadFault::BadAttempts(_)
        | ReadFault::Unsupported(_) => More::Stands,
        ReadFault::TooLong(_)
        | ReadFault::NotJson(_)
        | ReadFault::NoStep(_)
        | ReadFault::TwoSteps(_)
        | ReadFault::TooDeep(_)
        | ReadFault::TooMany(_)
        | ReadFault::NumberNotWhole(_)
        | ReadFault::NoMemory => More::Nothing,
    }
}

/// What is said where a rule is broken of what keeps it; nothing where that is said of the place.
fn rule_words(fault: &ReadFault) -> &'static str
    ensures { result.now ≡ spec.rule_words_at (fault_of fault.now) }
{
    match fault {
        ReadFault::BadName(_) => {
            "; a name has 1 to 128 bytes, no / and no control character, and isn't . or .."
        }
        ReadFault::NoStep(_) => ": a step has one of get, put, task, do, in_parallel and try",
        ReadFault::TwoSteps(_) => {
            ": a step has only one of get, put, task, do, in_parallel and try"
        }
        ReadFault::BadAttempts(_) => {
            "; attempts are from 1 to 100, and multiplied with those around them at most 10000"
        }
        ReadFault::TooDeep(_) => ": steps nest at most 30 deep",
        ReadFault::TooMany(_) => {
            ": at most 200 resources and 200 jobs; in a job at most 32 inputs, and 32 jobs in passed"
        }
        ReadFault::NumberNotWhole(_) => {
            ": write it as a text, in quotes; a number is whole here, and has 64 bits at most"
        }
        ReadFault::Unsupported(path) => undone_words(path.as_str()),
        ReadFault::TooLong(_)
        | ReadFault::NotJson(_)
        | ReadFault::Missing(_)
        | ReadFault::WrongKind(_)
        | ReadFault::Repeated(_)
        | ReadFault::UnknownResource(_)
        | ReadFault::UnknownJob(_)
        | ReadFault::NoMemory => "",
    }
}

/// What is wanted, in words.
fn wanted_words(kind: Kind) -> &'static str
    ensures { result.now ≡ spec.wanted_words kind }
{
    match kind {
        Kind::Text | Kind::OwnName => "a text",
        Kind::Name => "a name",
        Kind::Texts => "a list of texts",
        Kind::Truth => "true or false",
        Kind::Whole => "a whole number from 0 on",
        Kind::Fields => "an object of texts",
        Kind::Wanted => "\"latest\", \"every\" or an object of texts",
        Kind::Params | Kind::Nothing | Kind::Object(_) | Kind::Step => "an object",
        Kind::Objects(_) => "a list of objects",
        Kind::Steps => "a list of steps",
        Kind::Parallel => "a list of steps or an object",
        Kind::Attempts => "a whole number from 1 to 100",
        Kind::Any => "any value",
        Kind::Undone => "no value",
    }
}

/// A truth as JSON writes it.
fn truth_word(truth: bool) -> &'static str
    ensures { result.now ≡ spec.truth_word truth }
{
    if truth { "true" } else { "false" }
}

/// A value as a line shows it.
fn shown(alloc: Global, value: &Value) -> Result<String, AllocError>
    ensures { IfOk result (λ text. string_bytes text ≡ spec.shown (view value.now)) }
{
    match value {
        Value::Null => String::from_str(alloc, "null"),
        Value::Bool(truth) => String::from_str(alloc, truth_word(*truth)),
        Value::Number(number) => {
            if number.is_f64() {
                String::from_str(alloc, "a number that isn't whole")
            } else {
                value.to_string(alloc)
            }
        }
        Value::String(_) => value.to_string(alloc),
        Value::Array(_) => String::from_str(alloc, "a list"),
        Value::Object(_) => String::from_str(alloc, "an object"),
    }
}

/// What stands at a place.
fn shown_at(alloc: Global, stand: &Stand<'_>) -> Result<String, AllocError>
    ensures { IfOk result (λ text. string_bytes text ≡ spec.shown_at (stand_data stand.now)) }
{
    match stand.value {
        Some(value) => shown(alloc, value),
        None => String::from_str(alloc, "nothing"),
    }
}

/// What a line tells beside a path, of the place.
fn more_words(alloc: Global, more: More, stand: &Stand<'_>) -> Result<String, AllocError>
    ensures { IfOk result (λ text. string_bytes text ≡ spec.more_words more (stand_data stand.now)) }
{
    let wanted = wanted_words(stand.kind);
    match more {
        More::Nothing => Ok(String::new(alloc)),
        More::Wanted => format!(in alloc; ": {wanted}"),
        More::Stands => {
            let shown = shown_at(alloc, stand)?;
            let shown = shown.as_str();
            format!(in alloc; ": {shown}")
        }
        More::Both => {
            let shown = shown_at(alloc, stand)?;
            let shown = shown.as_str();
            format!(in alloc; ": {shown}, not {wanted}")
        }
    }
}

/// The text at a place, or none.
fn name_at<'v>(stand: Option<Stand<'v>>) -> &'v str
    ensures { result.now ≡ spec.name_at (option_map stand_data stand.entry) }
{
    let Some(stand) = stand else {
        return "";
    };
    let Some(value) = stand.value else {
        return "";
    };
    match value.as_str() {
        Some(name) => name,
        None => "",
    }
}

/// A text as JSON writes it.
fn quoted(alloc: Global, text: &str) -> Result<String, AllocError>
    ensures { IfOk result (λ q. string_bytes q ≡ compact_text (string text.now)) }
{
    Value::String(String::from_str(alloc, text)?).to_string(alloc)
}

/// The line of a name at a path that isn't there, with the nearest of those of a list.
fn named_line(
    alloc: Global,
    word: &str,
    name: &str,
    list: &[Value],
    path: &str,
) -> Result<String, AllocError>
    ensures { IfOk result (λ line. string_bytes line
        ≡ spec.named_line word.now name.now (names_in (items_view list.now)) path.now) }
{
    let quoted = quoted(alloc, name)?;
    let quoted = quoted.as_str();
    match nearest(alloc, list, name)? {
        Some(known) => format!(in alloc; "unknown {word} {quoted} at {path}: {known}?"),
        None => format!(in alloc; "unknown {word} {quoted} at {path}"),
    }
}

/// What a line tells of a fault's place behind its path.
fn place_words(
    alloc: Global,
    fault: &ReadFault,
    stand: Option<Stand<'_>>,
) -> Result<String, AllocError>
    ensures { IfOk result (λ words. string_bytes words
        ≡ spec.place_words (fault_of fault.now) (option_map stand_data stand.entry)) }
{
    match stand {
        Some(stand) => more_words(alloc, more_of(fault), &stand),
        None => Ok(String::new(alloc)),
    }
}

/// Where a number stands that isn't whole, if a fault tells of one.
fn float_at(
    alloc: Global,
    fault: &ReadFault,
    stand: Option<Stand<'_>>,
) -> Result<Option<String>, AllocError>
    ensures { IfOk result (λ o. option_map string_bytes o
        ≡ spec.float_at (fault_of fault.now) (option_map stand_data stand.entry)) }
{
    let ReadFault::NumberNotWhole(path) = fault else {
        return Ok(None);
    };
    let Some(stand) = stand else {
        return Ok(None);
    };
    match stand.value {
        Some(value) => float_in(alloc, path.as_str(), value),
        None => Ok(None),
    }
}

/// The line of a fault at a path, with what is told of its place.
fn line_at(
    alloc: Global,
    fault: &ReadFault,
    path: &str,
    stand: Option<Stand<'_>>,
) -> Result<String, AllocError>
    ensures { IfOk result (λ line. string_bytes line ≡ spec.line_at (fault_of fault.now) path.now
        (option_map stand_data stand.entry)) }
{
    let words = words_of(fault);
    let rule = rule_words(fault);
    let place = place_words(alloc, fault, stand)?;
    let place = place.as_str();
    format!(in alloc; "{words} at {path}{place}{rule}")
}

/// The line of a fault that tells of no name, with what is told of its place.
fn plain_line(
    alloc: Global,
    fault: &ReadFault,
    stand: Option<Stand<'_>>,
) -> Result<String, AllocError>
    ensures { IfOk result (λ line. string_bytes line
        ≡ spec.plain_line (fault_of fault.now) (option_map stand_data stand.entry)) }
{
    match float_at(alloc, fault, stand)? {
        Some(path) => line_at(alloc, fault, path.as_str(), stand),
        None => line_at(alloc, fault, path_of(fault), stand),
    }
}

/// The line of a fault in a value.
fn fault_line(alloc: Global, value: &Value, fault: &ReadFault) -> Result<String, AllocError>
    ensures { IfOk result (λ line. string_bytes line ≡ spec.fault_line (view value.now) (fault_of fault.now)) }
{
    let path = path_of(fault);
    let stand = stand_on(alloc, value, path)?;
    match unknown_in(fault) {
        Some((word, key)) => { named_line(alloc, word, name_at(stand), list_at(value, key), path) }
        None => plain_line(alloc, fault, stand),
    }
}

/// The lines of the faults after one that is told, but those that only follow from the last one told.
fn add_after(
    lines: &mut Vec<String>,
    value: &Value,
    first: &ReadFault,
    faults: &[ReadFault],
) -> Result<(), AllocError>
    ensures { OnOk result (map string_bytes lines.new.items ≡ map string_bytes lines.old.items
        ++ map (spec.fault_line (view value.now)) (spec.told_after (fault_of first.now) (map fault_of faults.now))) }
{
    let alloc = *lines.allocator();
    let mut told = first;
    for fault in faults {
        if !follows(told, fault) {
            lines.push(fault_line(alloc, value, fault)?)?;
            told = fault;
        }
    }
    Ok(())
}

/// The lines of faults in a value.
fn lines_of(alloc: Global, value: &Value, faults: &[ReadFault]) -> Result<Vec<String>, AllocError>
    ensures { IfOk result
        (λ v. map string_bytes v.items ≡ spec.value_lines (view value.now) (map fault_of faults.now)) }
{
    let mut lines = Vec::new(alloc);
    let Some((first, rest)) = faults.split_first() else {
        return Ok(lines);
    };
    lines.push(fault_line(alloc, value, first)?)?;
    add_after(&mut lines, value, first, rest)?;
    Ok(lines)
}

/// The one line of a text that is too long.
fn too_long(alloc: Global) -> Result<Vec<String>, AllocError>
    ensures { IfOk result (λ v. map string_bytes v.items ≡ codes "too long at pipeline" ∷ []) }
{
    let mut lines = Vec::new(alloc);
    lines.push(String::from_str(alloc, "too long at pipeline")?)?;
    Ok(lines)
}

/// The lines of all that is wrong with a pipeline's text, in the order in which it counts, but for what only follows from
/// what was told. The first is that of the fault that [`ccr_pipeline::read`] tells. There are none of a text that can be read.
///
/// The line of a fault says where it is, what stands there, what is wanted there, and the nearest name that is there, as far as
/// it tells of them. Of a text that is no JSON value three lines say where it stops being one: line and column, the line
/// itself, and a mark below.
pub fn fault_lines(alloc: Global, text: &[u8]) -> Result<Vec<String>, AllocError>
    ensures { IfOk result (λ v. AreLines text.now (map string_bytes v.items)) }
{
    if text.len() > MOST_BYTES {
        return too_long(alloc);
    }
    match Value::from_slice(alloc, text) {
        Ok(value) => lines_of(alloc, &value, &faults_in(alloc, &value)?),
        Err(error) if error.is_memory() => Err(AllocError),
        Err(error) => break_lines(alloc, text, offset_of(text, &error)),
    }
}
