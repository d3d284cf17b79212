//! What comes of a schedule or a trigger before a build is made.
ghost use Rattle.std.specs.Prelude.{◌≡◌, ◌≤◌, Some, map, IfOk};
ghost use Rattle.ccr_pipeline.specs.Inputs.{inputs};
ghost use Rattle.ccr_pipeline.specs.JobData.{job_data};
ghost use Rattle.ccr_pipeline.specs.Pipelines.{pipeline_data};
ghost use Rattle.ccr_problem.specs.ProblemOf.{job_of};
ghost use Rattle.ccr_proof.specs.declared.proof.TheConstants.{MOST_NODES};
ghost use Rattle.ccr_problem.specs.Indexes.{AreIndexes};
ghost use Rattle.ccr_core.specs.Choices.{used_at};
ghost use Rattle.ccr_problem.specs.Triggers.{is_new};
ghost use Rattle.ccr_core.specs.Holding.{name_data};
ghost use Rattle.ccr_core.specs.Picking.{IsPicked};

use crate::busy::is_busy;
use crate::search::found;
use crate::used::used_at;
use ccr_history::History;
use ccr_pipeline::{Job, Pipeline, inputs_of};
use ccr_problem::{Indexes, is_new};
use ccr_resolve::Chosen;
use std::alloc::{AllocError, Global};

/// What comes of it.
#[derive(Drop)]
pub(crate) enum Picked {
    /// The job is busy.
    Busy,
    /// No choice satisfies.
    NoneSatisfies,
    /// The search needs more than this budget.
    OverBudget(u32),
    /// The best choice has nothing new.
    NotNew,
    /// A build is to be made with the best choice: its places, in plan order.
    Best(Vec<u32>),
}

/// Whether there is something new for a job at these places: one of its inputs with `trigger` has a place that it had in no
/// earlier build of the job. The only error is out of memory.
pub fn has_news(
    alloc: Global,
    pipeline: &Pipeline,
    history: &History,
    job: &Job,
    places: &[u32],
) -> Result<bool, AllocError>
    ensures { let p = pipeline_data pipeline.now in let j = job_data job.now in
        IfOk result (λ is. is ≡ is_new j.name history.now.builds (inputs j.plan)
        (used_at p history.now (inputs j.plan) places.now)) }
{
    let inputs = inputs_of(alloc, job)?;
    let used = used_at(alloc, pipeline, history, &inputs, places)?;
    Ok(is_new(history, job.name.as_str(), &inputs, &used))
}

/// What comes of a schedule of a job, or of a trigger if it is by command, where builds of these names run.
pub(crate) fn pick(
    alloc: Global,
    pipeline: &Pipeline,
    history: &History,
    indexes: &Indexes,
    budget: u32,
    names: &[(String, u32)],
    job: &Job,
    by_command: bool,
) -> Result<Picked, AllocError>
    requires least { 1 ≤ budget }
    requires most { budget ≤ MOST_NODES }
    requires there { job_of (job_data job.now).name (pipeline_data pipeline.now).jobs ≡ Some (job_data job.now) }
    requires indexed { AreIndexes (pipeline_data pipeline.now) history.now indexes.now }
    ensures { IfOk result (IsPicked (pipeline_data pipeline.now) history.now budget (map name_data names.now)
        (job_data job.now) by_command) }
{
    if is_busy(pipeline, job, names) {
        return Ok(Picked::Busy);
    }
    match found(alloc, pipeline, history, indexes, budget, job.name.as_str())? {
        Chosen::Nothing => Ok(Picked::NoneSatisfies),
        Chosen::OverBudget(_) => Ok(Picked::OverBudget(budget)),
        Chosen::Best(choice) => {
            let places = choice.places;
            if by_command || has_news(alloc, pipeline, history, job, &places)? {
                Ok(Picked::Best(places))
            } else {
                Ok(Picked::NotNew)
            }
        }
    }
}
