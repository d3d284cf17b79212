//! The problem that a build answered.
ghost use Rattle.std.specs.Prelude.{◌≡◌, ◌≤◌, ◌-◌, ◌+◌, ◌++◌, ◌∷◌, [], ℕ, List, None, if◌then◌else◌, length, map, take, drop, string_bytes, IfOk, OnOk};
ghost use Rattle.std.specs.List.{range_with_len};
ghost use Rattle.ccr_history.specs.History.{places_at};
ghost use Rattle.ccr_history.specs.Text.{Text};
ghost use Rattle.ccr_pipeline.specs.Inputs.{input_data, inputs, named_jobs};
ghost use Rattle.ccr_pipeline.specs.Names.{with_name, with_names};
ghost use Rattle.ccr_pipeline.specs.Pipelines.{pipeline_data};
ghost use Rattle.ccr_pipeline.specs.Tree.{tree_of};
ghost use Rattle.ccr_problem.specs.Passed.{job_value, successful};
ghost use Rattle.ccr_problem.specs.ProblemOf.{history_number, input_value, used_resources};
ghost use Rattle.ccr_lines.specs.PastProblems.{open_input, past_problem};

use crate::release::has_name;
use crate::taken::history_number;
use ccr_choice::{Build, Input as ChoiceInput, JobBuilds, Problem};
use ccr_history::{BuildRef, History, Status};
use ccr_pipeline::{Input, Job, Pipeline};
use ccr_problem::problem_of_job;
use std::alloc::{AllocError, Global};

// ---- the jobs that inputs name

/// Adds a name at the end, unless it is there.
fn add_name(alloc: Global, names: &mut Vec<String>, name: &str) -> Result<(), AllocError>
    ensures { OnOk result (map string_bytes names.new.items ≡ with_name (map string_bytes names.old.items) name.now) }
{
    if !has_name(names, name) {
        names.push(String::from_str(alloc, name)?)?;
    }
    Ok(())
}

/// Adds the names of a list that aren't there, in its order.
fn add_names(alloc: Global, names: &mut Vec<String>, more: &[String]) -> Result<(), AllocError>
    ensures { OnOk result (map string_bytes names.new.items
        ≡ with_names (map string_bytes names.old.items) (map string_bytes more.now)) }
{
    for name in more {
        add_name(alloc, names, name.as_str())?;
    }
    Ok(())
}

/// The jobs that inputs name in `passed`, each once, in order of first mention.
pub(crate) fn named_jobs(alloc: Global, inputs: &[Input]) -> Result<Vec<String>, AllocError>
    ensures { IfOk result (λ names. map string_bytes names.items ≡ named_jobs [] (map input_data inputs.now)) }
{
    let mut names = Vec::new(alloc);
    for input in inputs {
        add_names(alloc, &mut names, &input.passed)?;
    }
    Ok(names)
}

// ---- inputs

/// The places from 1 to so many.
fn places_to(alloc: Global, count: u32) -> Result<Vec<u32>, AllocError>
    requires { count ≤ 100000 }
    ensures { IfOk result (λ places. places.items ≡ range_with_len 1 count) }
{
    let mut places = Vec::new(alloc);
    for k in 0..count {
        places.push(k + 1)?;
    }
    Ok(places)
}

/// The places of the scope of this number.
fn places_in(alloc: Global, history: &History, scope: u32) -> Result<Vec<u32>, AllocError>
    ensures { IfOk result (λ places. places.items ≡ range_with_len 1 (places_at history.now.tables scope)) }
{
    // A scope has few versions.
    history.rules();
    places_to(alloc, history.versions_at(scope).len() as u32)
}

/// An input of today's problem, which may take each version of its scope, and for which no place is kept.
fn open_input(
    alloc: Global,
    pipeline: &Pipeline,
    history: &History,
    value: &ChoiceInput,
    input: &Input,
) -> Result<ChoiceInput, AllocError>
    ensures { let number = history_number (pipeline_data pipeline.now) history.now (input_data input.now).resource in
        IfOk result (λ v. v ≡ record {
          scope = value.now.scope;
          places = range_with_len 1 (places_at history.now.tables number);
          jobs = value.now.jobs;
          after = None;
        }) }
{
    let scope = history_number(pipeline, history, input.resource.as_str());
    let places = places_in(alloc, history, scope)?;
    let jobs = Vec::from_slice(alloc, value.jobs())?;
    Ok(ChoiceInput::new(value.scope(), jobs, None, places))
}

/// The inputs of today's problem, each of which may take each version of its scope, and for which no place is kept.
fn open_inputs(
    alloc: Global,
    pipeline: &Pipeline,
    history: &History,
    values: &[ChoiceInput],
    inputs: &[Input],
) -> Result<Vec<ChoiceInput>, AllocError>
    requires { length values.now ≡ length inputs.now }
    ensures { let p = pipeline_data pipeline.now in
        let all = map input_data inputs.now in
        IfOk result (λ v. (own : Text) (resources jobs : List Text)
        → values.now ≡ map (input_value p history.now own resources jobs) all
        → v.items ≡ map (open_input p history.now resources jobs) all) }
{
    let mut open = Vec::new(alloc);
    for (k, input) in inputs.iter().enumerate() {
        open.push(open_input(alloc, pipeline, history, &values[k], input)?)?;
    }
    Ok(open)
}

// ---- builds

/// How many successful builds of a job this build is: one or none.
fn count_one(job: &str, build: &BuildRef<'_>) -> usize
    ensures { result ≡ length (successful job.now (build.now ∷ [])) }
{
    match build.status() {
        Status::Succeeded if job == build.job() => 1,
        _ => 0,
    }
}

/// How many of the first builds, of which there are so many, are successful ones of a job.
fn count_successful(history: &History, job: &str, before: usize) -> usize
    requires { before ≤ length history.now.builds }
    ensures { result ≡ length (successful job.now (take before history.now.builds)) }
{
    let mut count = 0;
    for k in 0..before {
        let build = history.build_at(k).unwrap();
        count += count_one(job, &build);
    }
    count
}

/// A copy of a build.
fn copy_build(alloc: Global, build: &Build) -> Result<Build, AllocError>
    ensures { IfOk result (λ copy. copy ≡ build.now) }
{
    Ok(Build::new(build.number(), Vec::from_slice(alloc, build.pairs())?))
}

/// A copy of builds.
fn copy_builds(alloc: Global, builds: &[Build]) -> Result<JobBuilds, AllocError>
    ensures { IfOk result (λ copies. copies ≡ builds.now) }
{
    let mut copies = Vec::new(alloc);
    for build in builds {
        copies.push(copy_build(alloc, build)?)?;
    }
    Ok(JobBuilds::new(copies))
}

/// The last of these builds, so many.
fn last_builds(alloc: Global, builds: &[Build], count: usize) -> Result<JobBuilds, AllocError>
    ensures { IfOk result (λ last. last ≡ drop (length builds.now - count) builds.now) }
{
    let (_first, last) = builds.split_at(builds.len().saturating_sub(count));
    copy_builds(alloc, last)
}

/// The builds of these jobs in today's problem, as far as they are among the first builds, of which there are so many.
fn builds_before(
    alloc: Global,
    history: &History,
    names: &[String],
    jobs: &[JobBuilds],
    before: usize,
) -> Result<Vec<JobBuilds>, AllocError>
    requires within { before ≤ length history.now.builds }
    requires each { length jobs.now ≡ length names.now }
    ensures { let all = map string_bytes names.now in
        IfOk result (λ v. (scopes : List ℕ) → jobs.now ≡ map (job_value history.now.builds scopes) all
        → v.items ≡ map (job_value (take before history.now.builds) scopes) all) }
{
    let mut builds = Vec::new(alloc);
    for (k, name) in names.iter().enumerate() {
        let count = count_successful(history, name.as_str(), before);
        builds.push(last_builds(alloc, jobs[k].builds(), count)?)?;
    }
    Ok(builds)
}

// ---- the problem

/// The problem of a job's inputs, which name the jobs of these names, with the first builds alone, of which there are so
/// many.
pub(crate) fn past_problem(
    alloc: Global,
    pipeline: &Pipeline,
    history: &History,
    job: &Job,
    gets: &[Input],
    names: &[String],
    before: usize,
) -> Result<Problem, AllocError>
    requires within { before ≤ length history.now.builds }
    requires inputs { map input_data gets.now ≡ inputs (tree_of job.now.plan.value) }
    requires names { map string_bytes names.now ≡ named_jobs [] (map input_data gets.now) }
    ensures { IfOk result (λ q. q ≡ past_problem (pipeline_data pipeline.now) history.now
        (take before history.now.builds) (map input_data gets.now)) }
{
    let today = problem_of_job(alloc, pipeline, history, job)?;
    let values = open_inputs(alloc, pipeline, history, today.inputs(), gets)?;
    let builds = builds_before(alloc, history, names, today.jobs(), before)?;
    // What a history keeps makes this keep the rules of a problem.
    history.rules();
    Ok(Problem::new(values, builds))
}
