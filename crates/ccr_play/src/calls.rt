//! What is printed for a whole text: a pipeline or a problem.
ghost use Rattle.std.specs.Prelude.{◌≤◌};
ghost use Rattle.ccr_proof.specs.Claim.{IsClaim};

use crate::problems::proof_text;
use ccr_choice::{Problem, ProblemFault, read_problem};
use ccr_index::build_index;
use ccr_pipeline::{Pipeline, ReadFault, read};
use ccr_proof::{Claim, write_claim};
use ccr_resolve::{Chosen, choose};
use ccr_rows::{Answer, OVER_BUDGET};
use std::alloc::{AllocError, Global};

/// A line that tells why a text is refused.
fn refused(alloc: Global, fault: &ReadFault) -> Result<Answer, AllocError> {
    if let ReadFault::NoMemory = fault {
        return Err(AllocError);
    }
    Ok(Answer {
        lines: format!(in alloc; "refused: pipeline: {fault}\n")?,
        status: 1,
    })
}

/// Adds the unused keys of a pipeline, a line each.
fn push_unused(lines: &mut String, pipeline: &Pipeline) -> Result<(), AllocError> {
    for path in pipeline.unused() {
        let path = path.as_str();
        write!(lines, "unused {path}\n")?;
    }
    Ok(())
}

fn pipeline_told(alloc: Global, pipeline: &Pipeline) -> Result<String, AllocError> {
    let resources = pipeline.resources().len();
    let jobs = pipeline.jobs().len();
    let mut lines = format!(in alloc; "read: {resources} resources, {jobs} jobs\n")?;
    push_unused(&mut lines, pipeline)?;
    Ok(lines)
}

/// How many resources and jobs a pipeline has, and its unused keys, or why it is refused.
pub(crate) fn answer_pipeline(alloc: Global, text: &[u8]) -> Result<Answer, AllocError> {
    match read(alloc, text) {
        Ok(pipeline) => Ok(Answer {
            lines: pipeline_told(alloc, &pipeline)?,
            status: 0,
        }),
        Err(fault) => refused(alloc, &fault),
    }
}

/// The line that tells why a problem is refused.
fn bad_problem(alloc: Global, fault: ProblemFault) -> Result<Answer, AllocError> {
    if let ProblemFault::NoMemory = fault {
        return Err(AllocError);
    }
    Ok(Answer {
        lines: format!(in alloc; "refused: {fault}\n")?,
        status: 1,
    })
}

/// The proof of a problem's best choice, or that none satisfies, or that the budget is over.
pub(crate) fn answer_resolve(alloc: Global, text: &[u8], budget: u32) -> Result<Answer, AllocError>
    requires least { 1 ≤ budget }
    requires most { budget ≤ 1000000 }
{
    match read_problem(alloc, text) {
        Ok(problem) => resolved(alloc, &problem, budget),
        Err(fault) => bad_problem(alloc, fault),
    }
}

fn resolved(alloc: Global, problem: &Problem, budget: u32) -> Result<Answer, AllocError>
    requires least { 1 ≤ budget }
    requires most { budget ≤ 1000000 }
{
    match proof_text(alloc, problem, budget)? {
        Some(lines) => Ok(Answer { lines, status: 0 }),
        None => over_budget(alloc, budget),
    }
}

/// The line that claims a problem's best choice, or that none satisfies, or that the budget is over.
pub(crate) fn answer_choose(alloc: Global, text: &[u8], budget: u32) -> Result<Answer, AllocError>
    requires least { 1 ≤ budget }
    requires most { budget ≤ 1000000 }
{
    let problem = match read_problem(alloc, text) {
        Ok(problem) => problem,
        Err(fault) => return bad_problem(alloc, fault),
    };
    let index = build_index(alloc, &problem)?;
    match choose(alloc, &index, budget)? {
        Chosen::Best(choice) => claimed(alloc, &Claim::Best(choice)),
        Chosen::Nothing => claimed(alloc, &Claim::Nothing),
        Chosen::OverBudget(n) => over_budget(alloc, n),
    }
}

fn claimed(alloc: Global, claim: &Claim) -> Result<Answer, AllocError>
    requires { IsClaim claim.now }
{
    Ok(Answer {
        lines: write_claim(alloc, claim)?,
        status: 0,
    })
}

fn over_budget(alloc: Global, budget: u32) -> Result<Answer, AllocError> {
    Ok(Answer {
        lines: format!(in alloc; "over budget {budget}\n")?,
        status: OVER_BUDGET,
    })
}
