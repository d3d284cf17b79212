//! How the jobs of a pipeline stand, as JSON.
ghost use Rattle.std.specs.Prelude.{◌≡◌, ◌++◌, List, Option, map, flat_map, string_bytes, IfOk, OnOk};
ghost use Rattle.serde_json.specs.Data.{Data, string};
ghost use Rattle.serde_json.specs.Written.{compact_text};
ghost use Rattle.ccr_history.specs.Builds.{BuildData};
ghost use Rattle.ccr_pipeline.specs.Inputs.{input_data, inputs};
ghost use Rattle.ccr_pipeline.specs.JobData.{resource_data, job_data};
ghost use Rattle.ccr_lines.specs.Json.{list, json_line, after_comma, array_of};
ghost use Rattle.ccr_lines.specs.JobsJson.{newest_that, build_json, newest_json, input_json, output_json, output_of, is_due, job_object, job_json, jobs_json};
ghost use Rattle.ccr_lines.specs.Outlooks.{outlook_words};
ghost use Rattle.ccr_lines.specs.Standing.{next_data};

use crate::builds::push_build_json;
use crate::edge::puts;
use crate::json::{array_line, string_text};
use crate::newest::{Sought, newest_of};
use crate::next_build::NextBuild;
use crate::object::{Field, push_item, push_string};
use crate::outlook::{Outlook, push_outlook};
use ccr_history::{BuildRef, History};
use ccr_pipeline::{Input, Job, Resource, inputs_of};
use std::alloc::{AllocError, Global};

// ---- builds

/// The newest build of a job that runs, or the newest one that has ended.
fn newest_that<'h>(history: &'h History, runs: bool, job: &str) -> Option<BuildRef<'h>>
    ensures { result ≡ newest_that runs job.now history.now }
{
    newest_of(history, Sought::Stands(runs), job)
}

/// A build, and how it stands.
fn build_text(alloc: Global, build: &BuildRef<'_>) -> Result<Vec<u8>, AllocError>
    ensures { IfOk result (λ text. text.items ≡ compact_text (build_json build.now)) }
{
    let mut text = Vec::new(alloc);
    push_build_json(alloc, &mut text, build)?;
    Ok(text)
}

/// A build, if there is one; else null.
fn newest_text(alloc: Global, newest: Option<BuildRef<'_>>) -> Result<Vec<u8>, AllocError>
    ensures { IfOk result (λ text. text.items ≡ compact_text (newest_json newest.entry)) }
{
    match newest {
        Some(build) => build_text(alloc, &build),
        None => Vec::from_slice(alloc, "null".as_bytes()),
    }
}

// ---- inputs

/// Adds a name, behind a comma.
fn push_name(alloc: Global, out: &mut Vec<u8>, name: &str) -> Result<(), AllocError>
    ensures { OnOk result (out.new.items ≡ out.old.items ++ after_comma (string name.now)) }
{
    out.extend_from_slice(",".as_bytes())?;
    push_string(alloc, out, name)
}

/// Names, each behind a comma.
fn each_name(alloc: Global, names: &[String]) -> Result<Vec<u8>, AllocError>
    ensures { IfOk result (λ out. out.items
        ≡ flat_map (λ name. after_comma (string (string_bytes name))) names.now) }
{
    let mut out = Vec::new(alloc);
    for name in names {
        push_name(alloc, &mut out, name.as_str())?;
    }
    Ok(out)
}

/// Adds an input with the names in its `passed`, of which each stands behind a comma; all behind a comma.
fn push_input_of<'a>(
    alloc: Global,
    out: &mut Vec<u8>,
    input: &'a Input,
    passed: &'a [u8],
) -> Result<(), AllocError>
    ensures { let i = input_data input.now in
        array_of passed.now ≡ compact_text (list (map (λ job. string job) i.passed))
        → OnOk result (out.new.items ≡ out.old.items ++ after_comma (input_json i)) }
{
    let members = [
        ("name", Field::Text(input.name.as_str())),
        ("passed", Field::Items(passed)),
        ("resource", Field::Text(input.resource.as_str())),
        ("trigger", Field::Flag(input.trigger)),
    ];
    push_item(alloc, out, &members)
}

/// Adds an input, behind a comma.
fn push_input(alloc: Global, out: &mut Vec<u8>, input: &Input) -> Result<(), AllocError>
    ensures { OnOk result (out.new.items ≡ out.old.items ++ after_comma (input_json (input_data input.now))) }
{
    let passed = each_name(alloc, &input.passed)?;
    push_input_of(alloc, out, input, &passed)?;
    Ok(())
}

/// Inputs, each behind a comma.
fn each_input(alloc: Global, inputs: &[Input]) -> Result<Vec<u8>, AllocError>
    ensures { IfOk result (λ out. out.items
        ≡ flat_map (λ i. after_comma (input_json (input_data i))) inputs.now) }
{
    let mut out = Vec::new(alloc);
    for input in inputs {
        push_input(alloc, &mut out, input)?;
    }
    Ok(out)
}

/// The inputs of a job, each behind a comma.
fn inputs_items(alloc: Global, job: &Job) -> Result<Vec<u8>, AllocError>
    ensures { IfOk result (λ items. array_of items.items
        ≡ compact_text (list (map (λ i. input_json i) (inputs (job_data job.now).plan)))) }
{
    let inputs = inputs_of(alloc, job)?;
    let items = each_input(alloc, &inputs)?;
    Ok(items)
}

// ---- outputs

/// Adds a resource, behind a comma.
fn push_output<'a>(alloc: Global, out: &mut Vec<u8>, resource: &'a str) -> Result<(), AllocError>
    ensures { OnOk result (out.new.items ≡ out.old.items ++ after_comma (output_json resource.now)) }
{
    push_item(alloc, out, &[("resource", Field::Text(resource))])
}

/// Adds a resource if the job puts it, behind a comma.
fn push_output_if(
    alloc: Global,
    out: &mut Vec<u8>,
    job: &Job,
    resource: &Resource,
) -> Result<(), AllocError>
    ensures { OnOk result (out.new.items ≡ out.old.items
        ++ flat_map after_comma (output_of (job_data job.now).plan (resource_data resource.now))) }
{
    if puts(&job.plan, resource.name.as_str()) {
        push_output(alloc, out, resource.name.as_str())
    } else {
        Ok(())
    }
}

/// The resources that a job puts, each behind a comma.
fn each_output(alloc: Global, job: &Job, resources: &[Resource]) -> Result<Vec<u8>, AllocError>
    ensures { IfOk result (λ out. out.items
        ≡ flat_map (λ r. flat_map after_comma (output_of (job_data job.now).plan (resource_data r))) resources.now) }
{
    let mut out = Vec::new(alloc);
    for resource in resources {
        push_output_if(alloc, &mut out, job, resource)?;
    }
    Ok(out)
}

// ---- jobs

/// Whether a schedule would make a build.
pub(crate) fn is_due(outlook: Outlook) -> bool
    ensures { result ≡ is_due outlook }
{
    match outlook {
        Outlook::Due => true,
        Outlook::NothingNew
        | Outlook::ByCommandOnly
        | Outlook::NoneSatisfies
        | Outlook::OverBudget(_) => false,
    }
}

/// An outlook in words, as a JSON string.
pub(crate) fn outlook_text(alloc: Global, outlook: Outlook) -> Result<Vec<u8>, AllocError>
    ensures { IfOk result (λ text. text.items ≡ compact_text (string (outlook_words outlook))) }
{
    let mut words = String::new(alloc);
    push_outlook(&mut words, outlook)?;
    string_text(alloc, words.as_str())
}

/// Adds a job of this name, with the texts of its newest builds, of what its next build would be, and of its inputs and outputs,
/// of which each stands behind a comma; all behind a comma.
fn push_job_of<'a>(
    alloc: Global,
    out: &mut Vec<u8>,
    name: &'a str,
    outlook: Outlook,
    finished: &'a [u8],
    inputs: &'a [u8],
    words: &'a [u8],
    running: &'a [u8],
    outputs: &'a [u8],
) -> Result<(), AllocError>
    ensures { (f r : Option BuildData) (is os : List Data) → finished.now ≡ compact_text (newest_json f)
        → array_of inputs.now ≡ compact_text (list is) → words.now ≡ compact_text (string (outlook_words outlook))
        → running.now ≡ compact_text (newest_json r) → array_of outputs.now ≡ compact_text (list os)
        → OnOk result (out.new.items ≡ out.old.items ++ after_comma (job_object name.now outlook f is r os)) }
{
    let members = [
        ("finished_build", Field::Json(finished)),
        ("has_new_inputs", Field::Flag(is_due(outlook))),
        ("inputs", Field::Items(inputs)),
        ("name", Field::Text(name)),
        ("next", Field::Json(words)),
        ("next_build", Field::Json(running)),
        ("outputs", Field::Items(outputs)),
    ];
    push_item(alloc, out, &members)
}

/// Adds a job with what its next build would be, behind a comma.
fn push_job(
    alloc: Global,
    out: &mut Vec<u8>,
    resources: &[Resource],
    history: &History,
    next: &NextBuild<'_>,
) -> Result<(), AllocError>
    ensures { OnOk result (out.new.items ≡ out.old.items ++ after_comma (job_json
        (map resource_data resources.now) history.now (job_data next.now.job.now) next.now.outlook)) }
{
    let name = next.job.name.as_str();
    let finished = newest_text(alloc, newest_that(history, false, name))?;
    let inputs = inputs_items(alloc, next.job)?;
    let words = outlook_text(alloc, next.outlook)?;
    let running = newest_text(alloc, newest_that(history, true, name))?;
    let outputs = each_output(alloc, next.job, resources)?;
    push_job_of(
        alloc,
        out,
        name,
        next.outlook,
        &finished,
        &inputs,
        &words,
        &running,
        &outputs,
    )?;
    Ok(())
}

/// The jobs, each behind a comma.
fn each_job(
    alloc: Global,
    resources: &[Resource],
    history: &History,
    next: &[NextBuild<'_>],
) -> Result<Vec<u8>, AllocError>
    ensures { IfOk result (λ out. out.items ≡ flat_map (λ n. after_comma (job_json
        (map resource_data resources.now) history.now (job_data n.job.now) n.outlook)) next.now) }
{
    let mut out = Vec::new(alloc);
    for it in next {
        push_job(alloc, &mut out, resources, history, it)?;
    }
    Ok(out)
}

/// The jobs as JSON on a line.
pub(crate) fn jobs_json(
    alloc: Global,
    resources: &[Resource],
    history: &History,
    next: &[NextBuild<'_>],
) -> Result<Vec<u8>, AllocError>
    ensures { IfOk result (λ text. text.items
        ≡ json_line (jobs_json (map resource_data resources.now) history.now (map next_data next.now))) }
{
    let items = each_job(alloc, resources, history, next)?;
    let text = array_line(alloc, &items)?;
    Ok(text)
}
