//! Where a version stopped: the job that hasn't passed it, and what became of it there.
ghost use Rattle.std.specs.Prelude.{◌≡◌, ◌++◌, codes, map, find, option_map, option_and_then, string_bytes, IfOk, OnOk};
ghost use Rattle.ccr_pipeline.specs.Inputs.{input_data};
ghost use Rattle.ccr_pipeline.specs.Pipelines.{pipeline_data};
ghost use Rattle.ccr_lines.specs.Stops.{is_unpassed, input_in, job_before, next_stop, stopping_job, stop_data, stop_at, stop_of, stands_word, without_word, stands_words, stop_words};

use crate::newest::{Sought, newest_of, standing_of};
use crate::print::word_of;
use crate::release::inputs_in_plan;
use crate::taken::history_number;
use crate::words::push_number;
use ccr_history::{History, Status};
use ccr_pipeline::{Input, Pipeline};
use std::alloc::{AllocError, Global};

/// Where a version stopped.
#[derive(Drop)]
pub struct Stop {
    /// The job.
    pub job: String,
    /// The number of its newest build that took or moved the version, and how that stands; None where none did.
    pub build: Option<(u32, Status)>,
}

// ---- from job to job

/// Whether no successful build of a job moved a pair of scope and place.
fn is_unpassed(history: &History, pair: (u32, u32), job: &str) -> bool
    ensures { result ≡ is_unpassed history.now pair job.now }
{
    newest_of(history, Sought::Passed(pair), job).is_none()
}

/// The first of these inputs whose resource has the scope of this number.
fn input_in<'i>(
    pipeline: &Pipeline,
    history: &History,
    scope: u32,
    inputs: &'i [Input],
) -> Option<&'i Input>
    ensures { option_map (λ i. input_data i.now) result
        ≡ input_in (pipeline_data pipeline.now) history.now scope (map input_data inputs.now) }
{
    for input in inputs {
        if history_number(pipeline, history, input.resource.as_str()) == scope {
            return Some(input);
        }
    }
    None
}

/// The first of these jobs of which no successful build moved a pair of scope and place.
fn first_unpassed<'j>(history: &History, pair: (u32, u32), jobs: &'j [String]) -> Option<&'j str>
    ensures { option_map (λ j. j.now) result ≡ find (is_unpassed history.now pair) (map string_bytes jobs.now) }
{
    for job in jobs {
        if is_unpassed(history, pair, job.as_str()) {
            return Some(job.as_str());
        }
    }
    None
}

/// A copy of a name, if there is one.
fn name_copy(alloc: Global, name: Option<&str>) -> Result<Option<String>, AllocError>
    ensures { IfOk result (λ copy. option_map string_bytes copy ≡ option_map (λ n. n.now) name.entry) }
{
    match name {
        Some(name) => Ok(Some(String::from_str(alloc, name)?)),
        None => Ok(None),
    }
}

/// The first job that an input names in `passed`, and that hasn't passed the pair; none where there is no input.
fn unpassed_of(
    alloc: Global,
    history: &History,
    pair: (u32, u32),
    input: Option<&Input>,
) -> Result<Option<String>, AllocError>
    ensures { IfOk result (λ found. option_map string_bytes found
        ≡ option_and_then (λ i. find (is_unpassed history.now pair) i.passed) (option_map (λ i. input_data i.now) input.entry)) }
{
    match input {
        Some(input) => name_copy(alloc, first_unpassed(history, pair, &input.passed)),
        None => Ok(None),
    }
}

/// The first job that a job's own input in the scope names in `passed`, and that hasn't passed the pair.
fn job_before(
    alloc: Global,
    pipeline: &Pipeline,
    history: &History,
    pair: (u32, u32),
    job: &str,
) -> Result<Option<String>, AllocError>
    ensures { IfOk result (λ found. option_map string_bytes found
        ≡ job_before (pipeline_data pipeline.now) history.now pair job.now) }
{
    let inputs = inputs_in_plan(alloc, pipeline, job)?;
    let input = input_in(pipeline, history, pair.0, &inputs);
    unpassed_of(alloc, history, pair, input)
}

/// Where no build of a job took or moved the pair, the job before it, if there is one.
fn next_stop(
    alloc: Global,
    pipeline: &Pipeline,
    history: &History,
    pair: (u32, u32),
    job: &str,
) -> Result<Option<String>, AllocError>
    ensures { IfOk result (λ found. option_map string_bytes found
        ≡ next_stop (pipeline_data pipeline.now) history.now pair job.now) }
{
    if newest_of(history, Sought::Met(pair), job).is_some() {
        Ok(None)
    } else {
        job_before(alloc, pipeline, history, pair, job)
    }
}

/// The job at which a pair stopped, looked for from a job on over at most so many others.
fn stopping_job(
    alloc: Global,
    pipeline: &Pipeline,
    history: &History,
    pair: (u32, u32),
    job: &str,
    most: usize,
) -> Result<String, AllocError>
    ensures { IfOk result (λ found. string_bytes found
        ≡ stopping_job most (pipeline_data pipeline.now) history.now pair job.now) }
{
    let mut stop = String::from_str(alloc, job)?;
    for _ in 0..most {
        match next_stop(alloc, pipeline, history, pair, stop.as_str())? {
            Some(next) => stop = next,
            None => return Ok(stop),
        }
    }
    Ok(stop)
}

// ---- the stop

/// The newest build of a job that took or moved a pair, if there is one.
fn stop_at(history: &History, pair: (u32, u32), job: String) -> Stop
    ensures { stop_data result ≡ stop_at history.now pair (string_bytes job) }
{
    let build = standing_of(newest_of(history, Sought::Met(pair), job.as_str()));
    Stop { job, build }
}

/// Where a pair of scope and place stopped that hasn't passed a job.
pub fn stop_of(
    alloc: Global,
    pipeline: &Pipeline,
    history: &History,
    pair: (u32, u32),
    job: &str,
) -> Result<Stop, AllocError>
    ensures { IfOk result (λ stop. stop_data stop ≡ stop_of (pipeline_data pipeline.now) history.now pair job.now) }
{
    let most = pipeline.jobs().len();
    let last = stopping_job(alloc, pipeline, history, pair, job, most)?;
    Ok(stop_at(history, pair, last))
}

// ---- in words

/// How a build stands, behind its number.
fn stands_word(status: Status) -> &'static str
    ensures { result.now ≡ stands_word status }
{
    match status {
        Status::Running => "runs",
        Status::Succeeded | Status::Failed | Status::Errored | Status::Aborted => word_of(status),
    }
}

/// What is added where a build succeeded that hasn't moved the version.
fn without_word(status: Status) -> &'static str
    ensures { result.now ≡ without_word status }
{
    match status {
        Status::Succeeded => " without it",
        Status::Running | Status::Failed | Status::Errored | Status::Aborted => "",
    }
}

/// Adds a build of a job, and how it stands.
pub(crate) fn push_stands(
    text: &mut String,
    job: &str,
    number: u32,
    status: Status,
) -> Result<(), AllocError>
    ensures { OnOk result (string_bytes text.new ≡ string_bytes text.old ++ stands_words job.now number status) }
{
    text.push_str(job)?;
    push_number(text, " ", number)?;
    text.push_str(" ")?;
    text.push_str(stands_word(status))
}

/// Adds that no build of a job had the version.
fn push_unbuilt(text: &mut String, job: &str) -> Result<(), AllocError>
    ensures { OnOk result (string_bytes text.new ≡ string_bytes text.old ++ (codes "not built by " ++ job.now)) }
{
    text.push_str("not built by ")?;
    text.push_str(job)
}

/// Adds the build that had the version, and how it stands; or that no build of the job had it.
pub fn push_stop(text: &mut String, stop: &Stop) -> Result<(), AllocError>
    ensures { OnOk result (string_bytes text.new ≡ string_bytes text.old ++ stop_words (stop_data stop.now)) }
{
    match &stop.build {
        Some((number, status)) => {
            push_stands(text, stop.job.as_str(), *number, *status)?;
            text.push_str(without_word(*status))
        }
        None => push_unbuilt(text, stop.job.as_str()),
    }
}
