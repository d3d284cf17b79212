//! What is live: the newest build of a job that succeeded, with what it took.
ghost use Rattle.std.specs.Prelude.{◌≡◌, ◌++◌, List, Some, flat_map, string_bytes, IfOk, IfErr, OnOk};
ghost use Rattle.std.specs.Option.{option_copied};
ghost use Rattle.serde_json.specs.Data.{Data};
ghost use Rattle.serde_json.specs.Written.{compact_text};
ghost use Rattle.ccr_core.specs.Commands as spec;
ghost use Rattle.ccr_core.specs.Cores.{core_data};
ghost use Rattle.ccr_lines.specs.Json.{list, json_line, array_of};
ghost use Rattle.ccr_lines.specs.Live.{live_of, live_words, live_line, live_object, live_json, live_text, live_status};
ghost use Rattle.ccr_lines.specs.Shown.{needs, IsMade, IsUnshown};

use crate::held::known_job;
use crate::json::on_a_line;
use crate::newest::{Sought, newest_of};
use crate::object::{Field, push_object};
use crate::release::{key_at, used_at};
use crate::release_json::each_taken;
use crate::shown::ShowFault;
use crate::texts::push_line;
use ccr_core::{Core, Form};
use ccr_history::{BuildRef, History};
use itoa::Buffer;
use std::alloc::{AllocError, Global};

// ---- as a line

/// Adds what a build took for an input, behind a comma.
fn push_words(
    alloc: Global,
    text: &mut String,
    history: &History,
    input: &str,
    scope: u32,
    place: u32,
) -> Result<(), AllocError>
    ensures { OnOk result (string_bytes text.new ≡ string_bytes text.old
        ++ live_words history.now.tables (record { input = input.now; scope = scope; place = place })) }
{
    let key = key_at(alloc, history, scope, place)?;
    text.push_str(", ")?;
    text.push_str(input)?;
    text.push_str(" ")?;
    text.push_str(key.as_str())
}

/// What a build took, each behind a comma.
fn words_of(alloc: Global, history: &History, build: &BuildRef<'_>) -> Result<String, AllocError>
    ensures { IfOk result (λ text. string_bytes text
        ≡ flat_map (λ u. live_words history.now.tables u) build.now.used) }
{
    let mut text = String::new(alloc);
    for k in 0..build.used_count() {
        let (input, scope, place) = used_at(build, k);
        push_words(alloc, &mut text, history, input, scope, place)?;
    }
    Ok(text)
}

/// The line of a live build, or that a job has none.
fn live_line(
    alloc: Global,
    history: &History,
    job: &str,
    found: Option<&BuildRef<'_>>,
) -> Result<String, AllocError>
    ensures { IfOk result (λ text. string_bytes text
        ≡ live_line history.now.tables job.now (option_copied found.entry)) }
{
    let mut text = String::new(alloc);
    match found {
        Some(build) => {
            let mut buffer = Buffer::new();
            let words = words_of(alloc, history, build)?;
            let parts = [
                build.job(),
                " ",
                buffer.format(build.number()),
                words.as_str(),
            ];
            push_line(&mut text, &parts)?;
        }
        None => push_line(&mut text, &["no build of ", job, " has succeeded"])?,
    }
    Ok(text)
}

// ---- as JSON

/// A build with what it took, of which each stands behind a comma.
fn live_object<'a>(
    alloc: Global,
    build: &'a BuildRef<'_>,
    inputs: &'a [u8],
) -> Result<Vec<u8>, AllocError>
    ensures { (us : List Data) → array_of inputs.now ≡ compact_text (list us)
        → IfOk result (λ text. text.items ≡ compact_text (live_object build.now us)) }
{
    let members = [
        ("inputs", Field::Items(inputs)),
        ("job_name", Field::Text(build.job())),
        ("name", Field::Numeral(build.number())),
    ];
    let mut out = Vec::new(alloc);
    push_object(alloc, &mut out, &members)?;
    Ok(out)
}

/// A live build with what it took.
fn build_json(alloc: Global, history: &History, build: &BuildRef<'_>) -> Result<Vec<u8>, AllocError>
    ensures { IfOk result (λ text. text.items ≡ compact_text (live_json history.now.tables (Some build.now))) }
{
    let inputs = each_taken(alloc, history, build)?;
    let text = live_object(alloc, build, &inputs)?;
    Ok(text)
}

/// A live build with what it took, or null, as JSON on a line.
fn live_json(
    alloc: Global,
    history: &History,
    found: Option<&BuildRef<'_>>,
) -> Result<Vec<u8>, AllocError>
    ensures { IfOk result (λ text. text.items ≡ json_line (live_json history.now.tables (option_copied found.entry))) }
{
    match found {
        Some(build) => {
            let text = build_json(alloc, history, build)?;
            on_a_line(text)
        }
        None => Vec::from_slice(alloc, "null\n".as_bytes()),
    }
}

// ---- in either form

/// What is live of a job, in one of the forms.
fn live_text(
    alloc: Global,
    form: Form,
    history: &History,
    job: &str,
    found: Option<&BuildRef<'_>>,
) -> Result<Vec<u8>, AllocError>
    ensures { IfOk result (λ text. text.items
        ≡ live_text form history.now.tables job.now (option_copied found.entry)) }
{
    match form {
        Form::Lines => Ok(live_line(alloc, history, job, found)?.into_bytes()),
        Form::Json => live_json(alloc, history, found),
    }
}

/// 0 if there is a build, else 1.
fn live_status(found: Option<&BuildRef<'_>>) -> u8
    ensures { result ≡ live_status (option_copied found.entry) }
{
    if found.is_some() { 0 } else { 1 }
}

/// What is shown of what is live of a job: the job is the pipeline's, or has builds.
pub(crate) fn live_made(
    alloc: Global,
    core: &Core,
    form: Form,
    job: &str,
) -> Result<(u8, Vec<u8>), ShowFault>
    ensures made { IfOk result (λ r. IsMade (spec.live form job.now) (core_data core.now) r.0 r.1.items) }
    ensures unshown { let c = core_data core.now in
        IfErr result (IsUnshown (needs (spec.live form job.now)) c.pipeline c.history) }
{
    match known_job(core, job) {
        Ok(()) => {}
        Err(fault) => return Err(ShowFault::Lacks(fault)),
    }
    let history = core.history();
    let found = newest_of(history, Sought::Succeeded, job);
    let text = live_text(alloc, form, history, job, found.as_ref())?;
    Ok((live_status(found.as_ref()), text))
}
