//! The problem of a job's next build, and the proof of the choice for it.
ghost use Rattle.std.specs.Prelude.{◌≡◌, ◌≤◌, Some, string_bytes, IfOk, IfErr, IsSome};
ghost use Rattle.ccr_pipeline.specs.Pipelines.{pipeline_data};
ghost use Rattle.ccr_problem.specs.ProblemOf.{job_of, IsProblemOf};
ghost use Rattle.ccr_proof.specs.declared.proof.TheConstants.{MOST_NODES};
ghost use Rattle.ccr_core.specs.Cores.{core_data};
ghost use Rattle.ccr_lines.specs.Shown.{needs, IsProblemShown, IsProofShown, IsTextOf, IsMade, IsUnshown};
ghost use Rattle.ccr_core.specs.Commands as spec;

use crate::held::pipeline_with_job;
use crate::shown::ShowFault;
use ccr_choice::{Problem, write_problem};
use ccr_core::Core;
use ccr_history::History;
use ccr_index::build_index;
use ccr_pipeline::Pipeline;
use ccr_problem::{ProblemFault, problem_of};
use ccr_proof::write_proof;
use ccr_resolve::{Answer, resolve};
use std::alloc::{AllocError, Global};

/// The problem of a job that the pipeline has.
pub(crate) fn problem_in(
    alloc: Global,
    pipeline: &Pipeline,
    history: &History,
    job: &str,
) -> Result<Problem, AllocError>
    requires { IsSome (job_of job.now (pipeline_data pipeline.now).jobs) }
    ensures { IfOk result (IsProblemOf (pipeline_data pipeline.now) history.now job.now) }
{
    match problem_of(alloc, pipeline, history, job) {
        Ok(problem) => Ok(problem),
        Err(ProblemFault::NoJob) => unreachable!(),
        Err(ProblemFault::NoMemory) => Err(AllocError),
    }
}

/// The text of the problem of a job's next build. The pipeline has the job.
fn problem_text_of(
    alloc: Global,
    pipeline: &Pipeline,
    history: &History,
    job: &str,
) -> Result<String, AllocError>
    requires { IsSome (job_of job.now (pipeline_data pipeline.now).jobs) }
    ensures { IfOk result (λ text.
        IsProblemShown (pipeline_data pipeline.now) history.now job.now (string_bytes text)) }
{
    let problem = problem_in(alloc, pipeline, history, job)?;
    write_problem(alloc, &problem)
}

/// What is shown of the problem of the next build of the job of this name.
pub(crate) fn problem_made(
    alloc: Global,
    core: &Core,
    job: &str,
) -> Result<(u8, Vec<u8>), ShowFault>
    ensures made { IfOk result (λ r. IsMade (spec.problem job.now) (core_data core.now) r.0 r.1.items) }
    ensures unshown { let c = core_data core.now in
        IfErr result (IsUnshown (needs (spec.problem job.now)) c.pipeline c.history) }
{
    let pipeline = match pipeline_with_job(core, job) {
        Ok(pipeline) => pipeline,
        Err(fault) => return Err(ShowFault::Lacks(fault)),
    };
    let text = problem_text_of(alloc, pipeline, core.history(), job)?;
    Ok((0, text.into_bytes()))
}

/// The proof of an answer, with status 0; no text where the budget is over, with status 3.
fn answer_text(alloc: Global, answer: &Answer) -> Result<(u8, String), AllocError>
    ensures { IfOk result (λ r. IsTextOf answer.now r.0 (string_bytes r.1)) }
{
    match answer {
        Answer::Best(proof) => Ok((0, write_proof(alloc, proof)?)),
        Answer::Nothing(proof) => Ok((0, write_proof(alloc, proof)?)),
        Answer::OverBudget(_) => Ok((3, String::new(alloc))),
    }
}

/// The proof of the choice for a job's next build, or that there is none: status 0, or 3 with no text where a proof of
/// more than `budget` nodes, from 1 to 1,000,000, would be needed. The pipeline has the job.
fn proof_text_of(
    alloc: Global,
    pipeline: &Pipeline,
    history: &History,
    job: &str,
    budget: u32,
) -> Result<(u8, String), AllocError>
    requires least { 1 ≤ budget }
    requires most { budget ≤ MOST_NODES }
    requires there { IsSome (job_of job.now (pipeline_data pipeline.now).jobs) }
    ensures { IfOk result (λ r.
        IsProofShown (pipeline_data pipeline.now) history.now budget job.now r.0 (string_bytes r.1)) }
{
    let problem = problem_in(alloc, pipeline, history, job)?;
    let index = build_index(alloc, &problem)?;
    let answer = resolve(alloc, &problem, &index, budget)?;
    answer_text(alloc, &answer)
}

/// What is shown of the proof of the choice for the next build of the job of this name, or that there is none.
pub(crate) fn proof_made(alloc: Global, core: &Core, job: &str) -> Result<(u8, Vec<u8>), ShowFault>
    ensures made { IfOk result (λ r. IsMade (spec.proof job.now) (core_data core.now) r.0 r.1.items) }
    ensures unshown { let c = core_data core.now in
        IfErr result (IsUnshown (needs (spec.proof job.now)) c.pipeline c.history) }
{
    // What a core keeps says that its budget is one that a search takes.
    core.rules();
    let pipeline = match pipeline_with_job(core, job) {
        Ok(pipeline) => pipeline,
        Err(fault) => return Err(ShowFault::Lacks(fault)),
    };
    let (status, text) = proof_text_of(alloc, pipeline, core.history(), job, core.budget())?;
    Ok((status, text.into_bytes()))
}
