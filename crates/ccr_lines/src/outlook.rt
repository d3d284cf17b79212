//! What the next build of a job would be.
ghost use Rattle.std.specs.Prelude.{◌≡◌, ◌≤◌, ◌++◌, Some, map, codes, decimal, string_bytes, IsSome, IfOk, OnOk};
ghost use Rattle.ccr_pipeline.specs.Inputs.{input_data};
ghost use Rattle.ccr_pipeline.specs.JobData.{job_data};
ghost use Rattle.ccr_pipeline.specs.Pipelines.{pipeline_data};
ghost use Rattle.ccr_problem.specs.ProblemOf.{job_of, IsProblemOf};
ghost use Rattle.ccr_proof.specs.declared.proof.TheConstants.{MOST_NODES};
ghost use Rattle.ccr_core.specs.Choices.{best};
ghost use Rattle.ccr_core.specs.Cores.{core_data};
ghost use Rattle.ccr_core.specs.Picking.{IsFound};
ghost use Rattle.ccr_lines.specs.Outlooks.{HasOutlook, has_trigger, outlook_at, outlook_words};

use ccr_core::{Core, has_news};
use ccr_history::History;
use ccr_index::Index;
use ccr_pipeline::{Input, Job, Pipeline, inputs_of};
use ccr_resolve::{Chosen, choose};
use itoa::Buffer;
use std::alloc::{AllocError, Global};

/// What the next build of a job would be, were the job scheduled.
#[derive(Clone, Copy, PartialEq, Eq)]
pub enum Outlook {
    /// Its versions are chosen, and have something new.
    Due,
    /// Its versions are chosen, and those of all inputs with `trigger` were built before.
    NothingNew,
    /// Its versions are chosen, and no input has `trigger`.
    ByCommandOnly,
    /// No choice of versions satisfies.
    NoneSatisfies,
    /// The search needs more nodes than this budget.
    OverBudget(u32),
}

/// Whether one of the inputs makes builds by itself.
fn has_trigger(inputs: &[Input]) -> bool
    ensures { result ≡ has_trigger (map input_data inputs.now) }
{
    for input in inputs {
        if input.trigger {
            return true;
        }
    }
    false
}

/// The outlook of a job for whose next build these places were chosen.
pub(crate) fn outlook_at(
    alloc: Global,
    pipeline: &Pipeline,
    history: &History,
    job: &Job,
    places: &[u32],
    budget: u32,
) -> Result<Outlook, AllocError>
    requires { IsFound (pipeline_data pipeline.now) history.now budget (job_data job.now).name (best places.now) }
    ensures is { IfOk result (λ o. o ≡ outlook_at (pipeline_data pipeline.now) history.now (job_data job.now) places.now) }
    ensures has { IfOk result (HasOutlook (pipeline_data pipeline.now) history.now budget (job_data job.now)) }
{
    if has_news(alloc, pipeline, history, job, places)? {
        return Ok(Outlook::Due);
    }
    let inputs = inputs_of(alloc, job)?;
    if has_trigger(&inputs) {
        Ok(Outlook::NothingNew)
    } else {
        Ok(Outlook::ByCommandOnly)
    }
}

/// The outlook of a job whose next build is chosen by this index.
fn outlook_by(
    alloc: Global,
    pipeline: &Pipeline,
    history: &History,
    job: &Job,
    index: &Index,
    budget: u32,
) -> Result<Outlook, AllocError>
    requires least { 1 ≤ budget }
    requires most { budget ≤ MOST_NODES }
    requires indexed { IsProblemOf (pipeline_data pipeline.now) history.now (job_data job.now).name index.now.problem }
    ensures { IfOk result (HasOutlook (pipeline_data pipeline.now) history.now budget (job_data job.now)) }
{
    match choose(alloc, index, budget)? {
        Chosen::Nothing => Ok(Outlook::NoneSatisfies),
        Chosen::OverBudget(budget) => Ok(Outlook::OverBudget(budget)),
        Chosen::Best(choice) => outlook_at(alloc, pipeline, history, job, &choice.places, budget),
    }
}

/// What the next build would be of a job that a core's pipeline has.
///
/// The only error is out of memory.
pub(crate) fn outlook_of(
    alloc: Global,
    core: &Core,
    pipeline: &Pipeline,
    job: &Job,
) -> Result<Outlook, AllocError>
    requires held { (core_data core.now).pipeline ≡ Some (pipeline_data pipeline.now) }
    requires there { IsSome (job_of (job_data job.now).name (pipeline_data pipeline.now).jobs) }
    ensures { let c = core_data core.now in
        IfOk result (HasOutlook (pipeline_data pipeline.now) c.history c.budget (job_data job.now)) }
{
    // What a core keeps says that its budget is one that a search takes.
    core.rules();
    match core.index(job.name.as_str()) {
        Some(index) => outlook_by(alloc, pipeline, core.history(), job, index, core.budget()),
        None => unreachable!(),
    }
}

/// Adds that the search needs more nodes than this budget.
fn push_budget(text: &mut String, budget: u32) -> Result<(), AllocError>
    ensures { OnOk result (string_bytes text.new ≡ string_bytes text.old ++ (codes "over budget " ++ decimal budget)) }
{
    let mut buffer = Buffer::new();
    text.push_str("over budget ")?;
    text.push_str(buffer.format(budget))?;
    Ok(())
}

/// Adds an outlook in words.
pub fn push_outlook(text: &mut String, outlook: Outlook) -> Result<(), AllocError>
    ensures { OnOk result (string_bytes text.new ≡ string_bytes text.old ++ outlook_words outlook) }
{
    match outlook {
        Outlook::Due => text.push_str("due"),
        Outlook::NothingNew => text.push_str("nothing new"),
        Outlook::ByCommandOnly => text.push_str("by command only"),
        Outlook::NoneSatisfies => text.push_str("none satisfies"),
        Outlook::OverBudget(budget) => push_budget(text, budget),
    }
}
