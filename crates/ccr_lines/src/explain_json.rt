//! What is said of a job's next build, as JSON; and in one of the forms.
ghost use Rattle.std.specs.Prelude.{◌≡◌, ◌++◌, List, map, flat_map, option_map, option_copied, string_bytes, IfOk, OnOk};
ghost use Rattle.serde_json.specs.Data.{Data, string};
ghost use Rattle.serde_json.specs.Written.{compact_text};
ghost use Rattle.ccr_lines.specs.ExplainJson.{refusal_json, passed_json, taken_object, taken_json, last_build_json, last_json, words_json, explained_object, explained_json, explained_shown, status_of};
ghost use Rattle.ccr_lines.specs.Json.{list, json_line, after_comma, array_of};
ghost use Rattle.ccr_lines.specs.Outlooks.{outlook_words};

use crate::explain_lines::explained_lines;
use crate::explained::{Explained, Passed, Refusal, Taken};
use crate::jobs_json::{is_due, outlook_text};
use crate::json::{on_a_line, string_text};
use crate::object::{Field, push_item, push_object};
use crate::outlook::Outlook;
use crate::print::word_of;
use crate::release_json::push_witness;
use ccr_core::Form;
use ccr_history::{Status, Version};
use std::alloc::{AllocError, Global};

// ---- one input

/// Adds a place that an input doesn't take, and why, behind a comma.
fn push_refusal<'a>(
    alloc: Global,
    out: &mut Vec<u8>,
    refusal: &'a Refusal,
) -> Result<(), AllocError>
    ensures { OnOk result (out.new.items ≡ out.old.items ++ after_comma (refusal_json refusal.now)) }
{
    let members = [
        ("place", Field::Number(refusal.place as u64)),
        ("reason", Field::Text(refusal.words.as_str())),
        ("version", Field::Version(refusal.version.as_ref())),
    ];
    push_item(alloc, out, &members)
}

/// The places that an input doesn't take, and why, each behind a comma.
fn each_newer(alloc: Global, newer: &[Refusal]) -> Result<Vec<u8>, AllocError>
    ensures { IfOk result (λ out. out.items ≡ flat_map (λ r. after_comma (refusal_json r)) newer.now) }
{
    let mut out = Vec::new(alloc);
    for refusal in newer {
        push_refusal(alloc, &mut out, refusal)?;
    }
    Ok(out)
}

/// Adds a build of a job, behind a comma.
fn push_passed(alloc: Global, out: &mut Vec<u8>, passed: &Passed) -> Result<(), AllocError>
    ensures { OnOk result (out.new.items ≡ out.old.items ++ after_comma (passed_json passed.now)) }
{
    push_witness(alloc, out, passed.job.as_str(), passed.build)
}

/// The builds through which a version passed, each behind a comma.
fn each_passed(alloc: Global, passed: &[Passed]) -> Result<Vec<u8>, AllocError>
    ensures { IfOk result (λ out. out.items ≡ flat_map (λ b. after_comma (passed_json b)) passed.now) }
{
    let mut out = Vec::new(alloc);
    for one in passed {
        push_passed(alloc, &mut out, one)?;
    }
    Ok(out)
}

/// Adds an input of this name and resource, the place that it takes with its version, and the texts of the newer places that it
/// doesn't take and of the builds through which it passed, of which each stands behind a comma; all behind a comma.
fn push_taken_of<'a>(
    alloc: Global,
    out: &mut Vec<u8>,
    name: &'a str,
    newer: &'a [u8],
    passed: &'a [u8],
    place: u32,
    resource: &'a str,
    version: Option<&'a Version>,
) -> Result<(), AllocError>
    ensures { (ns ps : List Data) → array_of newer.now ≡ compact_text (list ns)
        → array_of passed.now ≡ compact_text (list ps) → OnOk result (out.new.items ≡ out.old.items
        ++ after_comma (taken_object name.now ns ps place resource.now (option_copied version.entry))) }
{
    let members = [
        ("name", Field::Text(name)),
        ("newer", Field::Items(newer)),
        ("passed", Field::Items(passed)),
        ("place", Field::Number(place as u64)),
        ("resource", Field::Text(resource)),
        ("version", Field::Version(version)),
    ];
    push_item(alloc, out, &members)
}

/// Adds what an input takes, and the newer places that it doesn't, behind a comma.
fn push_taken(alloc: Global, out: &mut Vec<u8>, taken: &Taken) -> Result<(), AllocError>
    ensures { OnOk result (out.new.items ≡ out.old.items ++ after_comma (taken_json taken.now)) }
{
    let name = taken.name.as_str();
    let resource = taken.resource.as_str();
    let version = taken.version.as_ref();
    let newer = each_newer(alloc, &taken.newer)?;
    let passed = each_passed(alloc, &taken.passed)?;
    push_taken_of(
        alloc,
        out,
        name,
        &newer,
        &passed,
        taken.place,
        resource,
        version,
    )?;
    Ok(())
}

/// What each input takes, each behind a comma.
fn each_taken(alloc: Global, inputs: &[Taken]) -> Result<Vec<u8>, AllocError>
    ensures { IfOk result (λ out. out.items ≡ flat_map (λ t. after_comma (taken_json t)) inputs.now) }
{
    let mut out = Vec::new(alloc);
    for taken in inputs {
        push_taken(alloc, &mut out, taken)?;
    }
    Ok(out)
}

// ---- a job

/// A build of the job, and how it stands.
fn build_text(alloc: Global, number: u32, status: Status) -> Result<Vec<u8>, AllocError>
    ensures { IfOk result (λ text. text.items ≡ compact_text (last_build_json (number, status))) }
{
    let members = [
        ("name", Field::Numeral(number)),
        ("status", Field::Text(word_of(status))),
    ];
    let mut text = Vec::new(alloc);
    push_object(alloc, &mut text, &members)?;
    Ok(text)
}

/// The same, if there is one; else null.
fn last_text(alloc: Global, last: Option<(u32, Status)>) -> Result<Vec<u8>, AllocError>
    ensures { IfOk result (λ text. text.items ≡ compact_text (last_json last)) }
{
    match last {
        Some((number, status)) => build_text(alloc, number, status),
        None => Vec::from_slice(alloc, "null".as_bytes()),
    }
}

/// Words, if there are some; else null.
fn words_text(alloc: Global, words: Option<&String>) -> Result<Vec<u8>, AllocError>
    ensures { IfOk result (λ text. text.items
        ≡ compact_text (words_json (option_map string_bytes (option_copied words.entry)))) }
{
    match words {
        Some(words) => string_text(alloc, words.as_str()),
        None => Vec::from_slice(alloc, "null".as_bytes()),
    }
}

/// Adds what is said of a job of this name, with the texts of what each input takes, each behind a comma, of the build that has
/// the same versions, of what the next build would be, and of why there is none.
fn push_explained_of<'a>(
    alloc: Global,
    out: &mut Vec<u8>,
    due: bool,
    inputs: &'a [u8],
    name: &'a str,
    last: &'a [u8],
    next: &'a [u8],
    why: &'a [u8],
) -> Result<(), AllocError>
    ensures { (is : List Data) (l n w : Data) → array_of inputs.now ≡ compact_text (list is) → last.now ≡ compact_text l
        → next.now ≡ compact_text n → why.now ≡ compact_text w → OnOk result (out.new.items ≡ out.old.items
        ++ compact_text (explained_object due is name.now l n w)) }
{
    let members = [
        ("has_new_inputs", Field::Flag(due)),
        ("inputs", Field::Items(inputs)),
        ("job_name", Field::Text(name)),
        ("last", Field::Json(last)),
        ("next", Field::Json(next)),
        ("reason", Field::Json(why)),
    ];
    push_object(alloc, out, &members)
}

/// What is said of a job, on a line.
fn explained_line(alloc: Global, explained: &Explained) -> Result<Vec<u8>, AllocError>
    ensures { IfOk result (λ text. text.items ≡ json_line (explained_json explained.now)) }
{
    let due = is_due(explained.outlook);
    let inputs = each_taken(alloc, &explained.inputs)?;
    let name = explained.job.as_str();
    let last = last_text(alloc, explained.last)?;
    let next = outlook_text(alloc, explained.outlook)?;
    let why = words_text(alloc, explained.why.as_ref())?;
    let mut text = Vec::new(alloc);
    push_explained_of(alloc, &mut text, due, &inputs, name, &last, &next, &why)?;
    let line = on_a_line(text)?;
    Ok(line)
}

// ---- in one of the forms

/// The status: 3 where the search went over the budget, else 0.
fn status_of(outlook: Outlook) -> u8
    ensures { result ≡ status_of outlook }
{
    match outlook {
        Outlook::OverBudget(_) => 3,
        Outlook::Due | Outlook::NothingNew | Outlook::ByCommandOnly | Outlook::NoneSatisfies => 0,
    }
}

/// What is said of a job, as it is shown, with the status.
pub(crate) fn explained_shown(
    alloc: Global,
    form: Form,
    explained: &Explained,
) -> Result<(u8, Vec<u8>), AllocError>
    ensures status { IfOk result (λ r. r.0 ≡ status_of explained.now.outlook) }
    ensures text { IfOk result (λ r. r.1.items ≡ explained_shown form explained.now) }
{
    let status = status_of(explained.outlook);
    match form {
        Form::Lines => Ok((status, explained_lines(alloc, explained)?.into_bytes())),
        Form::Json => Ok((status, explained_line(alloc, explained)?)),
    }
}
