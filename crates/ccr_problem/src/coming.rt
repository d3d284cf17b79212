//! What comes to the problem of a job when the history changes.
ghost use Rattle.std.specs.Prelude.{◌≡◌, ◌≢◌, ◌+◌, ◌≤◌, false, length, map, option_map, string_bytes, AllPairs, IfOk};
ghost use Rattle.ccr_pipeline.specs.Inputs.{input_data, inputs};
ghost use Rattle.ccr_pipeline.specs.Pipelines.{pipeline_data};
ghost use Rattle.ccr_pipeline.specs.Tree.{tree_of};
ghost use Rattle.ccr_problem.specs.Follows.{has_newer, new_places, passed_to, place_taken};
ghost use Rattle.ccr_history.specs.Newest.{last_given, place_if_at};
ghost use Rattle.std.specs.Option.{option_map_or};
ghost use Rattle.ccr_history.specs.Builds.{by_place, build_of, is_succeeded};

use crate::allowed::places_from;
use crate::inputs::{named_jobs, pins_of, takes_every, used_resources};
use crate::passed::{cut_to, is_succeeded};
use crate::scopes::{history_number, history_numbers};
use ccr_history::{History, Reported, Used};
use ccr_pipeline::{Input, Job, Pipeline, inputs_of};
use std::alloc::{AllocError, Global};

/// What the success of a build brings to the problem of a job that names its job.
#[derive(Drop)]
pub(crate) struct Passed {
    /// The number of the build's job among those that the inputs name, from 0 in order of first mention.
    pub job: usize,
    /// What passed with the build in the inputs' scopes, ascending.
    pub pairs: Vec<(u32, u32)>,
}

/// The places that come to an input with a report.
fn input_places(
    alloc: Global,
    pipeline: &Pipeline,
    history: &History,
    report: &Reported,
    input: &Input,
) -> Result<Vec<u32>, AllocError>
    requires { report.now.first + length report.now.versions.items ≤ 100001 }
    ensures { IfOk result (λ v. v.items ≡ new_places (pipeline_data pipeline.now) history.now
        report.now.scope report.now.first report.now.versions.items (input_data input.now)) }
{
    let Some(resource) = pipeline.resource(input.resource.as_str()) else {
        return Ok(Vec::new(alloc));
    };
    if report.scope != *resource.scope() {
        return Ok(Vec::new(alloc));
    }
    let pins = pins_of(resource, history, input);
    places_from(alloc, report.first, &pins, &report.versions)
}

/// The places that come to each input of a job with a report of versions, in plan order: of those in the scope of the
/// input's resource that meet its pins (Concourse: pinning versions).
///
/// Of the history it reads the pins alone. The caller gives a report that a table has room for. The only error is out of
/// memory.
pub(crate) fn new_places(
    alloc: Global,
    pipeline: &Pipeline,
    history: &History,
    report: &Reported,
    job: &Job,
) -> Result<Vec<Vec<u32>>, AllocError>
    requires { report.now.first + length report.now.versions.items ≤ 100001 }
    ensures { IfOk result (λ v. map (λ x. x.items) v.items
        ≡ map (new_places (pipeline_data pipeline.now) history.now report.now.scope report.now.first
        report.now.versions.items) (inputs (tree_of job.now.plan.value))) }
{
    let inputs = inputs_of(alloc, job)?;
    let mut places = Vec::new(alloc);
    for input in &inputs {
        places.push(input_places(alloc, pipeline, history, report, input)?)?;
    }
    Ok(places)
}

/// The place of a used place, if it is one of an input in a scope.
fn place_if_at(one: &Used, input: &str, scope: u32) -> Option<u32>
    ensures { result ≡ place_if_at input.now scope one.now }
{
    if input == one.input.as_str() && scope == one.scope {
        Some(one.place)
    } else {
        None
    }
}

/// The last of these places that is one of an input in a scope.
fn last_used(used: &[Used], input: &str, scope: u32) -> Option<u32>
    ensures { result ≡ last_given (place_if_at input.now scope) used.now }
{
    let mut place = None;
    for one in used {
        place = place_if_at(one, input, scope).or(place);
    }
    place
}

/// The place that a build used for an input of its job, if the input takes every version.
fn place_taken(pipeline: &Pipeline, history: &History, used: &[Used], input: &Input) -> Option<u32>
    ensures { result
        ≡ place_taken (pipeline_data pipeline.now) history.now used.now (input_data input.now) }
{
    if !takes_every(&input.wanted) {
        return None;
    }
    let scope = history_number(pipeline, history, input.resource.as_str());
    last_used(used, input.name.as_str(), scope)
}

/// The places that a build of a job used for the job's inputs, in plan order: for each that takes every version
/// (Concourse: get step, `version: every`).
///
/// Of the history it reads the numbers of scopes alone. The only error is out of memory.
pub(crate) fn places_taken(
    alloc: Global,
    pipeline: &Pipeline,
    history: &History,
    used: &[Used],
    job: &Job,
) -> Result<Vec<Option<u32>>, AllocError>
    ensures { IfOk result (λ v. v.items
        ≡ map (place_taken (pipeline_data pipeline.now) history.now used.now) (inputs (tree_of job.now.plan.value))) }
{
    let inputs = inputs_of(alloc, job)?;
    let mut places = Vec::new(alloc);
    for input in &inputs {
        places.push(place_taken(pipeline, history, used, input))?;
    }
    Ok(places)
}

/// Pairs by scope and then by place.
fn sorted(alloc: Global, pairs: &[(u32, u32)]) -> Result<Vec<(u32, u32)>, AllocError>
    requires { AllPairs (λ p q. p ≢ q) pairs.now }
    ensures { IfOk result (λ v. v.items ≡ by_place pairs.now) }
{
    let mut sorted = Vec::from_slice(alloc, pairs)?;
    sorted.sort_unstable();
    Ok(sorted)
}

/// What a build's success, with these pairs, brings to the problem of a job, if the job's inputs name the build's job.
///
/// Of the history it reads the numbers of scopes alone. The caller gives each pair once. The only error is out of memory.
pub(crate) fn passed_to(
    alloc: Global,
    pipeline: &Pipeline,
    history: &History,
    pairs: &[(u32, u32)],
    name: &str,
    number: u32,
    job: &Job,
) -> Result<Option<Passed>, AllocError>
    requires { AllPairs (λ p q. p ≢ q) pairs.now }
    ensures { IfOk result (λ o. option_map (λ x. (x.job, record { number = number; pairs = x.pairs.items })) o
        ≡ passed_to (pipeline_data pipeline.now) history.now (inputs (tree_of job.now.plan.value)) name.now number
        pairs.now) }
{
    let inputs = inputs_of(alloc, job)?;
    let jobs = named_jobs(alloc, &inputs)?;
    if !jobs.has(name) {
        return Ok(None);
    }
    let resources = used_resources(alloc, &inputs)?;
    let scopes = history_numbers(alloc, pipeline, history, resources.names())?;
    let pairs = cut_to(alloc, &scopes, &sorted(alloc, pairs)?)?;
    let job = jobs.number(name) as usize;
    Ok(Some(Passed { job, pairs }))
}

/// Whether the job has a build of this number that has succeeded.
fn has_succeeded(history: &History, job: &str, number: u32) -> bool
    ensures { result
        ≡ option_map_or (λ b. is_succeeded b.status) (build_of job.now number history.now.builds) false }
{
    match history.build(job, number) {
        Some(build) => is_succeeded(build.status()),
        None => false,
    }
}

/// Whether a build of the job with a greater number has succeeded.
///
/// It takes a time that grows with the number of newer builds. No memory is taken.
pub fn has_newer(history: &History, job: &str, number: u32) -> bool
    ensures { result ≡ has_newer job.now number history.now.builds }
{
    history.rules();
    for newer in number..history.count_of(job) {
        if has_succeeded(history, job, newer + 1) {
            return true;
        }
    }
    false
}
