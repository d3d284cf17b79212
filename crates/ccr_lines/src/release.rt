//! What a build took and moved, and the earlier builds through which that went together.
ghost use Rattle.std.specs.Prelude.{◌≡◌, ◌<◌, ◌≤◌, ◌++◌, ◌&&◌, ◌∷◌, [], Some, if◌then◌else◌, length, map, take, flat_map, slice_get, option_map, option_copied, unwrap_or, string_bytes, IfOk, IfErr, OnOk};
ghost use Rattle.std.specs.List.{list_any};
ghost use Rattle.ccr_history.specs.Builds.{is_of, passed_pairs};
ghost use Rattle.ccr_pipeline.specs.Inputs.{input_data};
ghost use Rattle.ccr_pipeline.specs.JobData.{job_data};
ghost use Rattle.ccr_pipeline.specs.Names.{has_name};
ghost use Rattle.ccr_pipeline.specs.Pipelines.{pipeline_data};
ghost use Rattle.ccr_core.specs.Cores.{core_data};
ghost use Rattle.ccr_core.specs.State.{no_pipeline};
ghost use Rattle.ccr_lines.specs.Releases.{key_at, resource_at, place_line, took_line, moved_line, is_pair, pairs_for, pairs_naming, passed_all, newest_together, witness_line, together_data, together, inputs_in_plan, all_together, release_lines};
ghost use Rattle.ccr_lines.specs.ReleaseJson.{release_shown};
ghost use Rattle.ccr_lines.specs.Shown.{needs, IsMade, IsUnshown};
ghost use Rattle.ccr_core.specs.Commands as spec;

use crate::builds::push_build;
use crate::release_json::release_json;
use crate::shown::ShowFault;
use crate::texts::push_line;
use ccr_core::{Core, CoreFault, Form};
use ccr_history::{BuildRef, History, Status};
use ccr_pipeline::{Input, Job, Pipeline, inputs_of};
use itoa::Buffer;
use std::alloc::{AllocError, Global};

/// A job with its newest build through which went together what a build took, if there is one.
#[derive(Clone, Copy)]
pub struct Together<'p> {
    pub job: &'p str,
    pub number: Option<u32>,
}

// ---- versions

/// The name of the resource of the scope of this number.
pub(crate) fn resource_at(history: &History, scope: u32) -> &str
    ensures { result.now ≡ resource_at history.now.tables scope }
{
    match history.scope_at(scope) {
        Some(scope) => scope.resource.as_str(),
        None => "",
    }
}

/// The key of the version at a place of the scope of this number.
pub fn key_at(
    alloc: Global,
    history: &History,
    scope: u32,
    place: u32,
) -> Result<String, AllocError>
    ensures { IfOk result (λ key. string_bytes key ≡ key_at history.now.tables scope place) }
{
    match history.version_at(scope, place) {
        Some(version) => version.key(alloc),
        None => Ok(String::new(alloc)),
    }
}

/// Adds the line of a place with its version, behind a word and a name.
fn push_place(
    alloc: Global,
    text: &mut String,
    word: &str,
    name: &str,
    history: &History,
    scope: u32,
    place: u32,
) -> Result<(), AllocError>
    ensures { OnOk result (string_bytes text.new ≡ string_bytes text.old
        ++ place_line word.now name.now history.now.tables scope place) }
{
    let mut buffer = Buffer::new();
    let key = key_at(alloc, history, scope, place)?;
    push_line(
        text,
        &[
            word,
            " ",
            name,
            " ",
            buffer.format(place),
            " ",
            key.as_str(),
        ],
    )
}

/// What a build took for its input at an index, which is below the number of its inputs: the input's name, the scope and
/// the place.
pub fn used_at<'b>(build: &'b BuildRef<'_>, index: usize) -> (&'b str, u32, u32)
    requires { index < length build.now.used }
    ensures { slice_get build.now.used index
        ≡ Some (record { input = result.0.now; scope = result.1; place = result.2 }) }
{
    match build.used(index) {
        Some(used) => used,
        None => unreachable!(),
    }
}

/// Adds the lines of what a build took.
fn push_taken(
    alloc: Global,
    text: &mut String,
    history: &History,
    build: &BuildRef<'_>,
) -> Result<(), AllocError>
    ensures { OnOk result (string_bytes text.new ≡ string_bytes text.old
        ++ flat_map (λ u. took_line history.now.tables u) build.now.used) }
{
    for k in 0..build.used_count() {
        let (input, scope, place) = used_at(build, k);
        push_place(alloc, text, "took", input, history, scope, place)?;
    }
    Ok(())
}

/// Adds the lines of what a build moved.
fn push_moved(
    alloc: Global,
    text: &mut String,
    history: &History,
    moved: &[(u32, u32)],
) -> Result<(), AllocError>
    ensures { OnOk result (string_bytes text.new ≡ string_bytes text.old
        ++ flat_map (λ q. moved_line history.now.tables q) moved.now) }
{
    for (scope, place) in moved {
        let name = resource_at(history, *scope);
        push_place(alloc, text, "moved", name, history, *scope, *place)?;
    }
    Ok(())
}

// ---- what went together

/// Adds a pair, if it is to be.
fn push_if(pairs: &mut Vec<(u32, u32)>, is: bool, pair: (u32, u32)) -> Result<(), AllocError>
    ensures { OnOk result (pairs.new.items
        ≡ (if is then pairs.old.items ++ pair ∷ [] else pairs.old.items)) }
{
    if is {
        pairs.push(pair)?;
    }
    Ok(())
}

/// Adds what a build took for the input of this name.
fn push_pairs_for(
    pairs: &mut Vec<(u32, u32)>,
    input: &str,
    build: &BuildRef<'_>,
) -> Result<(), AllocError>
    ensures { OnOk result (pairs.new.items ≡ pairs.old.items ++ pairs_for input.now build.now.used) }
{
    for k in 0..build.used_count() {
        let (name, scope, place) = used_at(build, k);
        push_if(pairs, input == name, (scope, place))?;
    }
    Ok(())
}

/// Whether a name is among these.
pub(crate) fn has_name(names: &[String], name: &str) -> bool
    ensures { result ≡ has_name (map string_bytes names.now) name.now }
{
    for other in names {
        if name == other.as_str() {
            return true;
        }
    }
    false
}

/// Adds what a build took for an input, if it names the job in `passed`.
fn push_pairs_of(
    pairs: &mut Vec<(u32, u32)>,
    job: &str,
    input: &Input,
    build: &BuildRef<'_>,
) -> Result<(), AllocError>
    ensures { let i = input_data input.now in OnOk result (pairs.new.items ≡ pairs.old.items
        ++ (if has_name i.passed job.now then pairs_for i.name build.now.used else [])) }
{
    if has_name(&input.passed, job) {
        push_pairs_for(pairs, input.name.as_str(), build)
    } else {
        Ok(())
    }
}

/// What a build took for those of these inputs that name a job in `passed`.
pub(crate) fn pairs_naming(
    alloc: Global,
    job: &str,
    inputs: &[Input],
    build: &BuildRef<'_>,
) -> Result<Vec<(u32, u32)>, AllocError>
    ensures { IfOk result (λ pairs. pairs.items ≡ pairs_naming job.now (map input_data inputs.now) build.now.used) }
{
    let mut pairs = Vec::new(alloc);
    for input in inputs {
        push_pairs_of(&mut pairs, job, input, build)?;
    }
    Ok(pairs)
}

/// Whether a pair is among these.
pub(crate) fn has_pair(pairs: &[(u32, u32)], pair: (u32, u32)) -> bool
    ensures { result ≡ list_any (is_pair pair) pairs.now }
{
    for other in pairs {
        if pair.0 == other.0 && pair.1 == other.1 {
            return true;
        }
    }
    false
}

/// The pairs that passed a build's job with it.
pub(crate) fn passed_pairs<'b>(build: &'b BuildRef<'_>) -> &'b [(u32, u32)]
    ensures { result.now ≡ passed_pairs build.now }
{
    match build.status() {
        Status::Succeeded => build.moved(),
        Status::Running | Status::Failed | Status::Errored | Status::Aborted => &[],
    }
}

/// Whether all these pairs passed a build's job with it.
fn has_passed_all(pairs: &[(u32, u32)], build: &BuildRef<'_>) -> bool
    ensures { result ≡ passed_all pairs.now build.now }
{
    let passed = passed_pairs(build);
    for pair in pairs {
        if !has_pair(passed, *pair) {
            return false;
        }
    }
    true
}

/// The number of a build if it is the job's and all these pairs passed the job with it; else the other number.
fn newer(newest: Option<u32>, job: &str, pairs: &[(u32, u32)], build: &BuildRef<'_>) -> Option<u32>
    ensures { result
        ≡ (if is_of job.now build.now && passed_all pairs.now build.now then Some build.now.number else newest) }
{
    if job == build.job() && has_passed_all(pairs, build) {
        Some(build.number())
    } else {
        newest
    }
}

/// The number of the newest build of a job among the first builds, of which there are so many, that all these pairs passed
/// together.
pub(crate) fn newest_together(
    history: &History,
    job: &str,
    pairs: &[(u32, u32)],
    before: usize,
) -> Option<u32>
    requires { before ≤ length history.now.builds }
    ensures { result ≡ option_map (λ b. b.number)
        (newest_together job.now pairs.now (take before history.now.builds)) }
{
    let mut newest = None;
    for k in 0..before {
        let build = history.build_at(k).unwrap();
        newest = newer(newest, job, pairs, &build);
    }
    newest
}

/// Adds a job with its newest build among the first ones that shows that pairs, which have to have passed the job, passed it
/// together: nothing where there are none.
fn push_together<'p>(
    found: &mut Vec<Together<'p>>,
    history: &History,
    job: &'p str,
    pairs: &[(u32, u32)],
    before: usize,
) -> Result<(), AllocError>
    requires { before ≤ length history.now.builds }
    ensures { OnOk result (map together_data found.new.items ≡ map together_data found.old.items
        ++ together job.now pairs.now (take before history.now.builds)) }
{
    if pairs.is_empty() {
        return Ok(());
    }
    let number = newest_together(history, job, pairs, before);
    found.push(Together { job, number })?;
    Ok(())
}

/// The inputs that a job has in a pipeline; none where it has no such job.
pub(crate) fn inputs_in_plan(
    alloc: Global,
    pipeline: &Pipeline,
    job: &str,
) -> Result<Vec<Input>, AllocError>
    ensures { IfOk result (λ inputs.
        map input_data inputs.items ≡ inputs_in_plan (pipeline_data pipeline.now) job.now) }
{
    match pipeline.job(job) {
        Some(job) => inputs_of(alloc, job),
        None => Ok(Vec::new(alloc)),
    }
}

/// Those of these jobs that the inputs of a build's job name in `passed`, each with its newest build among the first ones
/// that moved together what the build took for them.
fn together_of<'p>(
    alloc: Global,
    history: &History,
    jobs: &'p [Job],
    inputs: &[Input],
    build: &BuildRef<'_>,
    before: usize,
) -> Result<Vec<Together<'p>>, AllocError>
    requires { before ≤ length history.now.builds }
    ensures { IfOk result (λ found. map together_data found.items
        ≡ flat_map (λ j. together (job_data j).name
        (pairs_naming (job_data j).name (map input_data inputs.now) build.now.used)
        (take before history.now.builds)) jobs.now) }
{
    let mut found = Vec::new(alloc);
    for job in jobs {
        let pairs = pairs_naming(alloc, job.name.as_str(), inputs, build)?;
        push_together(&mut found, history, job.name.as_str(), &pairs, before)?;
    }
    Ok(found)
}

/// The jobs that the inputs of a build's job name in `passed` today, each with its newest build among the first ones that
/// moved together what the build took for them; none where there is no pipeline.
pub fn all_together<'p>(
    alloc: Global,
    pipeline: Option<&'p Pipeline>,
    history: &History,
    build: &BuildRef<'_>,
    before: usize,
) -> Result<Vec<Together<'p>>, AllocError>
    requires { before ≤ length history.now.builds }
    ensures { let p = unwrap_or (option_map pipeline_data (option_copied pipeline.entry)) no_pipeline in
        IfOk result (λ found. map together_data found.items
        ≡ all_together p (take before history.now.builds) build.now) }
{
    let Some(pipeline) = pipeline else {
        return Ok(Vec::new(alloc));
    };
    let inputs = inputs_in_plan(alloc, pipeline, build.job())?;
    let found = together_of(alloc, history, pipeline.jobs(), &inputs, build, before)?;
    Ok(found)
}

// ---- a build

/// Adds the number of the build of a job that shows that pairs passed it together, or that there is none.
fn push_witness(text: &mut String, job: &str, number: Option<u32>) -> Result<(), AllocError>
    ensures { OnOk result (string_bytes text.new ≡ string_bytes text.old ++ witness_line job.now number) }
{
    match number {
        Some(number) => {
            let mut buffer = Buffer::new();
            push_line(text, &["together ", job, " ", buffer.format(number)])
        }
        None => push_line(text, &["no build of ", job, " moved them together"]),
    }
}

/// Adds the lines of jobs with the builds through which what a build took had gone together.
fn push_witnesses(text: &mut String, together: &[Together<'_>]) -> Result<(), AllocError>
    ensures { OnOk result (string_bytes text.new ≡ string_bytes text.old
        ++ flat_map (λ t. witness_line t.job t.number) (map together_data together.now)) }
{
    for it in together {
        push_witness(text, it.job, it.number)?;
    }
    Ok(())
}

/// How a build stands, what it took, through which builds that had gone together, and what it moved.
fn release_text(
    alloc: Global,
    history: &History,
    build: &BuildRef<'_>,
    together: &[Together<'_>],
) -> Result<String, AllocError>
    ensures { IfOk result (λ text. string_bytes text
        ≡ release_lines history.now.tables build.now (map together_data together.now)) }
{
    let mut text = String::new(alloc);
    push_build(&mut text, build)?;
    push_taken(alloc, &mut text, history, build)?;
    push_witnesses(&mut text, together)?;
    push_moved(alloc, &mut text, history, build.moved())?;
    Ok(text)
}

/// The same in one of the forms.
fn release_shown(
    alloc: Global,
    form: Form,
    history: &History,
    build: &BuildRef<'_>,
    together: &[Together<'_>],
) -> Result<Vec<u8>, AllocError>
    ensures { IfOk result (λ text. text.items
        ≡ release_shown form history.now.tables build.now (map together_data together.now)) }
{
    match form {
        Form::Lines => Ok(release_text(alloc, history, build, together)?.into_bytes()),
        Form::Json => release_json(alloc, history, build, together),
    }
}

/// What is shown of the job's build of this number.
pub(crate) fn release_made(
    alloc: Global,
    core: &Core,
    form: Form,
    job: &str,
    number: u32,
) -> Result<(u8, Vec<u8>), ShowFault>
    ensures made { IfOk result (λ r. IsMade (spec.build form job.now number) (core_data core.now) r.0 r.1.items) }
    ensures unshown { let c = core_data core.now in
        IfErr result (IsUnshown (needs (spec.build form job.now number)) c.pipeline c.history) }
{
    let Some(position) = core.made_at(job, number) else {
        return Err(ShowFault::Lacks(CoreFault::NoBuild));
    };
    let history = core.history();
    let build = history.build_at(position as usize).unwrap();
    let together = all_together(alloc, core.pipeline(), history, &build, position as usize)?;
    let text = release_shown(alloc, form, history, &build, &together)?;
    Ok((0, text))
}
