//! The search for a job's next build.
ghost use Rattle.std.specs.Prelude.{◌≡◌, ◌≤◌, Some, IfOk};
ghost use Rattle.ccr_pipeline.specs.JobData.{JobData};
ghost use Rattle.ccr_pipeline.specs.Pipelines.{pipeline_data};
ghost use Rattle.ccr_problem.specs.ProblemOf.{job_of};
ghost use Rattle.ccr_proof.specs.declared.proof.TheConstants.{MOST_NODES};
ghost use Rattle.ccr_problem.specs.Indexes.{AreIndexes};
ghost use Rattle.ccr_core.specs.Picking.{IsFound, finding_of};

use ccr_history::History;
use ccr_pipeline::Pipeline;
use ccr_problem::Indexes;
use ccr_resolve::{Chosen, choose};
use std::alloc::{AllocError, Global};

/// What is found by the indexes for the next build of the job of a name, with a search of at most so many nodes.
pub(crate) fn found(
    alloc: Global,
    pipeline: &Pipeline,
    history: &History,
    indexes: &Indexes,
    budget: u32,
    job: &str,
) -> Result<Chosen, AllocError>
    requires least { 1 ≤ budget }
    requires most { budget ≤ MOST_NODES }
    requires there { (j : JobData) × (job_of job.now (pipeline_data pipeline.now).jobs ≡ Some j) }
    requires indexed { AreIndexes (pipeline_data pipeline.now) history.now indexes.now }
    ensures { IfOk result (λ c. IsFound (pipeline_data pipeline.now) history.now budget job.now (finding_of c)) }
{
    match indexes.of_job(pipeline, history, job) {
        Some(index) => choose(alloc, index, budget),
        None => unreachable!(),
    }
}
