//! What a build took, in one text for the checker: that it went together, by today's plan, through builds that were
//! made before and have succeeded.
ghost use Rattle.std.specs.Prelude.{◌≡◌, ◌<◌, ℕ, Some, length, map, take, slice_get, option_map, option_copied, unwrap_or, string_bytes, IfOk, IfErr, MatchBool};
ghost use Rattle.ccr_choice.specs.Satisfies.{Satisfies, IsAllowed};
ghost use Rattle.ccr_pipeline.specs.Inputs.{input_data, inputs};
ghost use Rattle.ccr_pipeline.specs.Pipelines.{pipeline_data};
ghost use Rattle.ccr_pipeline.specs.Tree.{tree_of};
ghost use Rattle.ccr_core.specs.Cores.{core_data};
ghost use Rattle.ccr_core.specs.State.{no_pipeline};
ghost use Rattle.ccr_lines.specs.BuildCertificates.{place_for, took_these, is_plan_kept, plan_changed, not_together, IsRefused, IsSatisfiedOf, IsSaidOf, IsTakenShown};
ghost use Rattle.ccr_lines.specs.Releases.{inputs_in_plan};
ghost use Rattle.ccr_lines.specs.Shown.{needs, IsMade, IsUnshown};
ghost use Rattle.ccr_core.specs.Commands as spec;

use crate::past::{named_jobs, past_problem};
use crate::shown::ShowFault;
use crate::taken::{places_taken, took_no_other};
use crate::texts::push_line;
use crate::witness::witnesses;
use ccr_choice::{Choice, Problem, write_problem};
use ccr_core::{Core, CoreFault};
use ccr_history::{BuildRef, History};
use ccr_pipeline::{Input, Job, Pipeline, inputs_of};
use ccr_proof::{Claim, write_claim};
use std::alloc::{AllocError, Global};

// ---- refusals

/// The line of a build whose inputs aren't those of its job today, with status 1.
fn plan_changed(alloc: Global) -> Result<(u8, String), AllocError>
    ensures { IfOk result (λ r. IsRefused plan_changed r.0 (string_bytes r.1)) }
{
    let mut text = String::new(alloc);
    push_line(&mut text, &["refused: plan changed"])?;
    Ok((1, text))
}

/// The line of a build whose versions no build of this job had moved together, with status 1.
fn not_together(alloc: Global, job: &str) -> Result<(u8, String), AllocError>
    ensures { IfOk result (λ r. IsRefused (not_together job.now) r.0 (string_bytes r.1)) }
{
    let mut text = String::new(alloc);
    push_line(
        &mut text,
        &["refused: no build of ", job, " moved them together"],
    )?;
    Ok((1, text))
}

// ---- the claim

/// A problem with a claim, whose choice satisfies the problem, in one text.
fn satisfied_text(
    alloc: Global,
    problem: &Problem,
    places: Vec<u32>,
    builds: Vec<u32>,
) -> Result<String, AllocError>
    requires { Satisfies problem.now places.items builds.items }
    ensures { IfOk result (λ text. IsSatisfiedOf problem.now
        (record { places = places.items; builds = builds.items }) 0 (string_bytes text)) }
{
    // What a problem keeps is what its text has to keep.
    let _inputs = problem.inputs();
    let mut text = write_problem(alloc, problem)?;
    let claim = write_claim(alloc, &Claim::Best(Choice { places, builds }))?;
    text.push_str(claim.as_str())?;
    Ok(text)
}

/// A problem with these places, which it allows, and the witnesses of its jobs, with status 0; or the refusal that names the
/// first job that has none, with status 1.
fn said(
    alloc: Global,
    problem: &Problem,
    jobs: &[String],
    places: Vec<u32>,
) -> Result<(u8, String), AllocError>
    requires each { length places.items ≡ length problem.now.inputs }
    requires allowed { (i : ℕ) → i < length problem.now.inputs → IsAllowed problem.now places.items i }
    requires jobs { length jobs.now ≡ length problem.now.jobs }
    ensures { IfOk result (λ r.
        IsSaidOf problem.now (map string_bytes jobs.now) places.items r.0 (string_bytes r.1)) }
{
    // What a problem keeps says that an input names only its jobs.
    let _inputs = problem.inputs();
    match witnesses(alloc, problem, &places)? {
        Ok(builds) => Ok((0, satisfied_text(alloc, problem, places, builds)?)),
        Err(job) => not_together(alloc, jobs[job].as_str()),
    }
}

// ---- a build

/// What is said of the build at a position, which took these places for the inputs of its job.
fn taken_text(
    alloc: Global,
    pipeline: &Pipeline,
    history: &History,
    job: &Job,
    gets: &[Input],
    build: &BuildRef<'_>,
    before: usize,
    places: Vec<u32>,
) -> Result<(u8, String), AllocError>
    requires at { slice_get history.now.builds before ≡ Some build.now }
    requires inputs { map input_data gets.now ≡ inputs (tree_of job.now.plan.value) }
    requires taken { map Some places.items
        ≡ map (place_for (pipeline_data pipeline.now) history.now build.now.used) (map input_data gets.now) }
    ensures { IfOk result (λ r. IsTakenShown (pipeline_data pipeline.now) history.now
        (take before history.now.builds) (map input_data gets.now) build.now.used r.0 (string_bytes r.1)) }
{
    // What the build took are places of the tables.
    history.rules();
    let jobs = named_jobs(alloc, gets)?;
    let problem = past_problem(alloc, pipeline, history, job, gets, &jobs, before)?;
    said(alloc, &problem, &jobs, places)
}

/// What is said of the build at a position, whose job is this one today.
fn job_text(
    alloc: Global,
    pipeline: &Pipeline,
    history: &History,
    job: &Job,
    build: &BuildRef<'_>,
    before: usize,
) -> Result<(u8, String), AllocError>
    requires { slice_get history.now.builds before ≡ Some build.now }
    ensures { let p = pipeline_data pipeline.now in
        let is = inputs (tree_of job.now.plan.value) in
        IfOk result (λ r. MatchBool (took_these p history.now is build.now.used)
        (IsTakenShown p history.now (take before history.now.builds) is build.now.used r.0 (string_bytes r.1))
        (IsRefused plan_changed r.0 (string_bytes r.1))) }
{
    let gets = inputs_of(alloc, job)?;
    let Some(places) = places_taken(alloc, pipeline, history, build, &gets)? else {
        return plan_changed(alloc);
    };
    if !took_no_other(build, &gets) {
        return plan_changed(alloc);
    }
    taken_text(alloc, pipeline, history, job, &gets, build, before, places)
}

/// What is said of the build at a position, which is one of the job of this name.
fn build_text(
    alloc: Global,
    pipeline: Option<&Pipeline>,
    history: &History,
    job: &str,
    build: &BuildRef<'_>,
    before: usize,
) -> Result<(u8, String), AllocError>
    requires { slice_get history.now.builds before ≡ Some build.now }
    ensures { let p = unwrap_or (option_map pipeline_data (option_copied pipeline.entry)) no_pipeline in
        IfOk result (λ r. MatchBool (is_plan_kept p history.now job.now build.now.used)
        (IsTakenShown p history.now (take before history.now.builds) (inputs_in_plan p job.now) build.now.used r.0
        (string_bytes r.1))
        (IsRefused plan_changed r.0 (string_bytes r.1))) }
{
    let Some(pipeline) = pipeline else {
        return plan_changed(alloc);
    };
    match pipeline.job(job) {
        Some(found) => job_text(alloc, pipeline, history, found, build, before),
        None => plan_changed(alloc),
    }
}

/// What is shown of the job's build of this number, for the checker. It shows that what the build took went together
/// through builds that have succeeded and were made before it, by today's plan; not that they had succeeded when it was
/// made.
pub(crate) fn build_certificate_made(
    alloc: Global,
    core: &Core,
    job: &str,
    number: u32,
) -> Result<(u8, Vec<u8>), ShowFault>
    ensures made { IfOk result (λ r.
        IsMade (spec.build_certificate job.now number) (core_data core.now) r.0 r.1.items) }
    ensures unshown { let c = core_data core.now in
        IfErr result (IsUnshown (needs (spec.build_certificate job.now number)) c.pipeline c.history) }
{
    let Some(position) = core.made_at(job, number) else {
        return Err(ShowFault::Lacks(CoreFault::NoBuild));
    };
    let history = core.history();
    let build = history.build_at(position as usize).unwrap();
    let (status, text) = build_text(
        alloc,
        core.pipeline(),
        history,
        job,
        &build,
        position as usize,
    )?;
    Ok((status, text.into_bytes()))
}
