//! The choice for a job's next build in one text, for the checker.
ghost use Rattle.std.specs.Prelude.{◌≡◌, ◌≤◌, Some, string_bytes, IfOk, IfErr, IsSome};
ghost use Rattle.ccr_choice.specs.Preference.{order_of};
ghost use Rattle.ccr_choice.specs.Problem.{IsProblem};
ghost use Rattle.ccr_pipeline.specs.Pipelines.{pipeline_data};
ghost use Rattle.ccr_problem.specs.ProblemOf.{job_of};
ghost use Rattle.ccr_proof.specs.Refutes.{IsAccepted};
ghost use Rattle.ccr_proof.specs.Tree.{tree_of};
ghost use Rattle.ccr_proof.specs.declared.proof.TheConstants.{MOST_NODES};
ghost use Rattle.ccr_resolve.specs.Answer.{IsAnswer};
ghost use Rattle.ccr_core.specs.Cores.{core_data};
ghost use Rattle.ccr_lines.specs.Certificates.{IsAcceptedOf, IsCertificateOf, IsCertificateShown};
ghost use Rattle.ccr_lines.specs.Shown.{needs, IsMade, IsUnshown};
ghost use Rattle.ccr_core.specs.Commands as spec;

use crate::held::pipeline_with_job;
use crate::problem::problem_in;
use crate::shown::ShowFault;
use ccr_choice::{Problem, write_problem};
use ccr_core::Core;
use ccr_history::History;
use ccr_index::build_index;
use ccr_pipeline::Pipeline;
use ccr_proof::{Proof, write_proof};
use ccr_resolve::{Answer, resolve};
use std::alloc::{AllocError, Global};

/// A problem with a proof that is accepted for it, in one text.
fn accepted_text(alloc: Global, problem: &Problem, proof: &Proof) -> Result<String, AllocError>
    requires { IsAccepted (order_of problem.now) problem.now proof.now.claim (tree_of proof.now.tree) }
    ensures { IfOk result (λ text. IsAcceptedOf problem.now proof.now 0 (string_bytes text)) }
{
    // What a problem keeps is what its text has to keep.
    let _inputs = problem.inputs();
    let mut text = write_problem(alloc, problem)?;
    let proof = write_proof(alloc, proof)?;
    text.push_str(proof.as_str())?;
    Ok(text)
}

/// A problem with the proof of its answer, with status 0; no text where the budget is over, with status 3.
fn certificate_text(
    alloc: Global,
    problem: &Problem,
    answer: &Answer,
    budget: u32,
) -> Result<(u8, String), AllocError>
    requires { IsAnswer (order_of problem.now) problem.now budget answer.now }
    ensures { IfOk result (λ r. IsCertificateOf problem.now answer.now r.0 (string_bytes r.1)) }
{
    // The budget is what the answer was sought with.
    let _budget = budget;
    match answer {
        Answer::Best(proof) => Ok((0, accepted_text(alloc, problem, proof)?)),
        Answer::Nothing(proof) => Ok((0, accepted_text(alloc, problem, proof)?)),
        Answer::OverBudget(_) => Ok((3, String::new(alloc))),
    }
}

/// The problem of a job's next build with the proof of the choice for it, or that there is none: status 0, or 3 with no
/// text where a proof of more than `budget` nodes, from 1 to 1,000,000, would be needed. The pipeline has the job.
fn certificate_of(
    alloc: Global,
    pipeline: &Pipeline,
    history: &History,
    job: &str,
    budget: u32,
) -> Result<(u8, String), AllocError>
    requires least { 1 ≤ budget }
    requires most { budget ≤ MOST_NODES }
    requires there { IsSome (job_of job.now (pipeline_data pipeline.now).jobs) }
    ensures { IfOk result (λ r.
        IsCertificateShown (pipeline_data pipeline.now) history.now budget job.now r.0 (string_bytes r.1)) }
{
    let problem = problem_in(alloc, pipeline, history, job)?;
    let index = build_index(alloc, &problem)?;
    let answer = resolve(alloc, &problem, &index, budget)?;
    certificate_text(alloc, &problem, &answer, budget)
}

/// What is shown of the problem and the proof of the choice for the next build of the job of this name.
pub(crate) fn certificate_made(
    alloc: Global,
    core: &Core,
    job: &str,
) -> Result<(u8, Vec<u8>), ShowFault>
    ensures made { IfOk result (λ r. IsMade (spec.certificate job.now) (core_data core.now) r.0 r.1.items) }
    ensures unshown { let c = core_data core.now in
        IfErr result (IsUnshown (needs (spec.certificate job.now)) c.pipeline c.history) }
{
    // What a core keeps says that its budget is one that a search takes.
    core.rules();
    let pipeline = match pipeline_with_job(core, job) {
        Ok(pipeline) => pipeline,
        Err(fault) => return Err(ShowFault::Lacks(fault)),
    };
    let (status, text) = certificate_of(alloc, pipeline, core.history(), job, core.budget())?;
    Ok((status, text.into_bytes()))
}
