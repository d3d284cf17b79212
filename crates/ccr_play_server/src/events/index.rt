//! The indexes that a core keeps, beside indexes that are built anew.
ghost use Rattle.std.specs.Prelude.{◌≡◌, ◌<◌, length};

use ccr_choice::MOST_JOBS;
use ccr_core::Core;
use ccr_index::{FixedBuilds, Index, build_index};
use ccr_pipeline::Pipeline;
use ccr_problem::{ProblemFault, problem_of};
use std::alloc::{AllocError, Global};

/// With no build fixed.
const NOTHING_FIXED: FixedBuilds = [0; MOST_JOBS as usize];

/// Whether two indexes of as many inputs and jobs have the same best places and counts of viable builds, while these builds are
/// fixed.
fn answer_alike(kept: &Index, anew: &Index, fixed: &FixedBuilds) -> bool
    requires inputs { length kept.now.problem.inputs ≡ length anew.now.problem.inputs }
    requires jobs { length kept.now.problem.jobs ≡ length anew.now.problem.jobs }
{
    for input in 0..kept.input_count() {
        if kept.greatest(input, fixed) != anew.greatest(input, fixed) {
            return false;
        }
    }
    for job in 0..kept.job_count() {
        if kept.viable(job, fixed) != anew.viable(job, fixed) {
            return false;
        }
    }
    true
}

/// Whether two indexes have the same builds of a job, and answer alike while any one of them is fixed.
fn have_same_builds(kept: &Index, anew: &Index, job: usize) -> bool
    requires inputs { length kept.now.problem.inputs ≡ length anew.now.problem.inputs }
    requires jobs { length kept.now.problem.jobs ≡ length anew.now.problem.jobs }
    requires job { job < length kept.now.problem.jobs }
{
    let (rows, others) = (kept.rows(job), anew.rows(job));
    if rows.len() != others.len() || job >= MOST_JOBS as usize {
        return false;
    }
    let mut fixed = NOTHING_FIXED;
    for build in 0..rows.len() {
        if rows.number(build) != others.number(build) || rows.pairs(build) != others.pairs(build) {
            return false;
        }
        fixed[job] = rows.number(build);
        if !answer_alike(kept, anew, &fixed) {
            return false;
        }
    }
    true
}

/// Whether two indexes answer alike, while nothing is fixed and while any one build is.
fn are_alike(kept: &Index, anew: &Index) -> bool {
    if kept.input_count() != anew.input_count() || kept.job_count() != anew.job_count() {
        return false;
    }
    for job in 0..kept.job_count() {
        if !have_same_builds(kept, anew, job) {
            return false;
        }
    }
    answer_alike(kept, anew, &NOTHING_FIXED)
}

/// Whether the index that the core keeps for a job answers as one that is built anew.
fn is_as_anew(
    alloc: Global,
    core: &Core,
    pipeline: &Pipeline,
    job: &str,
) -> Result<bool, AllocError> {
    let Some(kept) = core.index(job) else {
        return Ok(false);
    };
    match problem_of(alloc, pipeline, core.history(), job) {
        Ok(problem) => Ok(are_alike(kept, &build_index(alloc, &problem)?)),
        Err(ProblemFault::NoJob) => Ok(false),
        Err(ProblemFault::NoMemory) => Err(AllocError),
    }
}

/// The first job of the core's pipeline whose index doesn't answer as one that is built anew, if there is one.
pub(crate) fn first_other(alloc: Global, core: &Core) -> Result<Option<&str>, AllocError> {
    let Some(pipeline) = core.pipeline() else {
        return Ok(None);
    };
    for job in pipeline.jobs() {
        if !is_as_anew(alloc, core, pipeline, job.name.as_str())? {
            return Ok(Some(job.name.as_str()));
        }
    }
    Ok(None)
}

fn push_index(text: &mut String, index: &Index) -> Result<(), AllocError> {
    text.push_str("greatest")?;
    for input in 0..index.input_count() {
        write!(text, " {}", index.greatest(input, &NOTHING_FIXED))?;
    }
    text.push_str(", viable")?;
    for job in 0..index.job_count() {
        write!(text, " {}", index.viable(job, &NOTHING_FIXED))?;
    }
    Ok(())
}

fn index_told(alloc: Global, index: &Index) -> Result<String, AllocError> {
    let mut text = String::new(alloc);
    push_index(&mut text, index)?;
    Ok(text)
}

/// The best place of each input of a job, and how many builds of each job that it names are viable, while nothing is fixed;
/// `null` where there is no such job.
pub(crate) fn index_text(alloc: Global, core: &Core, job: &str) -> Result<String, AllocError> {
    match core.index(job) {
        Some(index) => index_told(alloc, index),
        None => String::from_str(alloc, "null"),
    }
}
