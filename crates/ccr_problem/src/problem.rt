//! The problem of a job.
ghost use Rattle.std.specs.Prelude.{◌≡◌, ◌↔◌, ◌≤◌, false, length, map, option_map, string_bytes, IfOk, IsErrOf, IsTrue};
ghost use Rattle.ccr_pipeline.specs.Inputs.{are_few, input_data, inputs};
ghost use Rattle.ccr_pipeline.specs.JobData.{job_data};
ghost use Rattle.ccr_pipeline.specs.Links.{job_names};
ghost use Rattle.ccr_pipeline.specs.Names.{has_name};
ghost use Rattle.ccr_pipeline.specs.Pipelines.{pipeline_data};
ghost use Rattle.ccr_pipeline.specs.Tree.{tree_of};
ghost use Rattle.ccr_problem.specs.Passed.{job_value};
ghost use Rattle.ccr_problem.specs.ProblemOf.{job_of, problem_with, IsProblemOf};

use crate::fault::ProblemFault;
use crate::inputs::{input_values, named_jobs, used_resources};
use crate::passed::job_builds;
use crate::scopes::history_numbers;
use ccr_choice::{JobBuilds, Problem};
use ccr_history::History;
use ccr_pipeline::{Input, Job, Pipeline, inputs_of};
use std::alloc::{AllocError, Global};

/// The successful builds of each named job.
fn builds_of_jobs(
    alloc: Global,
    history: &History,
    scopes: &[u32],
    names: &[String],
) -> Result<Vec<JobBuilds>, AllocError>
    requires { length scopes.now ≤ 32 }
    ensures { IfOk result (λ v. v.items
        ≡ map (job_value history.now.builds scopes.now) (map string_bytes names.now)) }
{
    let mut jobs = Vec::new(alloc);
    for name in names {
        jobs.push(job_builds(alloc, history, scopes, name.as_str())?)?;
    }
    Ok(jobs)
}

fn problem_with(
    alloc: Global,
    pipeline: &Pipeline,
    history: &History,
    own: &str,
    inputs: &[Input],
) -> Result<Problem, AllocError>
    requires { IsTrue (are_few (map input_data inputs.now)) }
    ensures { IfOk result (λ p. p
        ≡ problem_with (pipeline_data pipeline.now) history.now own.now (map input_data inputs.now)) }
{
    let resources = used_resources(alloc, inputs)?;
    let jobs = named_jobs(alloc, inputs)?;
    let scopes = history_numbers(alloc, pipeline, history, resources.names())?;
    let values = input_values(alloc, pipeline, history, own, &resources, &jobs, inputs)?;
    let builds = builds_of_jobs(alloc, history, &scopes, jobs.names())?;
    // What a history keeps makes this keep the rules of a problem.
    history.rules();
    Ok(Problem::new(values, builds))
}

/// The problem of a job of a pipeline, as [`problem_of`] gives it by the job's name.
///
/// The only error is out of memory.
pub fn problem_of_job(
    alloc: Global,
    pipeline: &Pipeline,
    history: &History,
    job: &Job,
) -> Result<Problem, AllocError>
    ensures { IfOk result (λ p. p
        ≡ problem_with (pipeline_data pipeline.now) history.now (string_bytes job.now.name)
        (inputs (tree_of job.now.plan.value))) }
{
    let inputs = inputs_of(alloc, job)?;
    problem_with(alloc, pipeline, history, job.name.as_str(), &inputs)
}

/// The problem of a job: what has to be chosen for its next build (Concourse: get step, `passed` and `version`; pinning and
/// disabling versions).
///
/// Its inputs are those of the job's plan, in plan order. Scopes and named jobs are numbered in order of first mention.
/// An input with `version: every` keeps the place that the newest build of the job which used it had. It takes a time
/// that grows with the versions in the inputs' scopes and with the builds of the named jobs, whatever else the history
/// has.
///
/// `NoJob` exactly where the pipeline has no such job; `NoMemory` if out of memory.
pub fn problem_of(
    alloc: Global,
    pipeline: &Pipeline,
    history: &History,
    job: &str,
) -> Result<Problem, ProblemFault>
    ensures ok { IfOk result (IsProblemOf (pipeline_data pipeline.now) history.now job.now) }
    ensures no_job { IsErrOf result ProblemFault.NoJob
        ↔ (has_name (job_names (pipeline_data pipeline.now).jobs) job.now ≡ false) }
{
    match pipeline.job(job) {
        Some(job) => Ok(problem_of_job(alloc, pipeline, history, job)?),
        None => Err(ProblemFault::NoJob),
    }
}
