//! How a build ends, and the history with it.
ghost use Rattle.std.specs.Prelude.{◌≡◌, ◌<◌, true, false, map, IfOk, IfSome, vec_len, vec_capacity};
ghost use Rattle.ccr_history.specs.Changes.{changed, IsRunning};
ghost use Rattle.ccr_history.specs.Edits.{edit_data, row_of, HaveTheirNumbers};
ghost use Rattle.ccr_history.specs.History.{HistoryData};
ghost use Rattle.ccr_pipeline.specs.Pipelines.{pipeline_data};
ghost use Rattle.ccr_steps.specs.Runs.{run_data};
ghost use Rattle.ccr_history.specs.Builds.{is_succeeded};
ghost use Rattle.ccr_problem.specs.Follows.{has_newer};
ghost use Rattle.ccr_problem.specs.Indexes.{AreIndexes, IsBrought, HaveRoom};
ghost use Rattle.ccr_core.specs.Builds.{status_of};
ghost use Rattle.ccr_core.specs.Endings.{IsAtEnding, end_edits, PairsFit};

use crate::place::places_of;
use ccr_history::{Edit, Ended, History, Status};
use ccr_pipeline::Pipeline;
use ccr_problem::{Brought, Indexes};
use ccr_steps::{BuildRun, Outcome};
use std::alloc::{AllocError, Global};

/// How a build stands, with all that its end takes: nothing grows once it is made.
#[derive(Drop)]
pub(crate) struct Ending {
    // How it ended; None where it goes on.
    pub(crate) outcome: Option<Outcome>,
    // Where what it moved stands.
    pub(crate) pairs: Vec<(u32, u32)>,
    // The edit that ends it, if it has ended, and room for one before it.
    pub(crate) edits: Vec<Edit>,
}

/// The status of a build that ended so.
pub(crate) fn status_of(outcome: Outcome) -> Status
    ensures { result ≡ status_of outcome }
{
    match outcome {
        Outcome::Succeeded => Status::Succeeded,
        Outcome::Failed => Status::Failed,
        Outcome::Errored => Status::Errored,
        Outcome::Aborted => Status::Aborted,
    }
}

/// How a build stands, which has this row. Nothing changes.
pub(crate) fn ending_of(
    alloc: Global,
    pipeline: &Pipeline,
    history: &History,
    run: &BuildRun,
    job: &str,
    number: u32,
    row: u32,
) -> Result<Ending, AllocError>
    ensures stands { IfOk result (λ e. IsAtEnding (pipeline_data pipeline.now) history.now (run_data run.now)
        e.outcome e.pairs.items) }
    ensures edits { IfOk result (λ e. map edit_data e.edits.items
        ≡ end_edits job.now number e.outcome e.pairs.items) }
    ensures numbered { IfOk result (λ e. (h : HistoryData) → row ≡ row_of job.now number h.builds
        → HaveTheirNumbers h e.edits.items) }
    ensures room { IfOk result (λ e. vec_len e.edits < vec_capacity e.edits) }
{
    let mut edits = Vec::with_capacity(alloc, 2)?;
    let Some(outcome) = run.outcome() else {
        return Ok(Ending {
            outcome: None,
            pairs: Vec::new(alloc),
            edits,
        });
    };
    let pairs = places_of(alloc, pipeline, history, run.moved())?;
    let kept = Vec::from_slice(alloc, &pairs)?;
    edits.push(Edit::Ended(Ended {
        row,
        job: String::from_str(alloc, job)?,
        number,
        status: status_of(outcome),
        moved: kept,
    }))?;
    Ok(Ending {
        outcome: Some(outcome),
        pairs,
        edits,
    })
}

/// Ends a build in the history and in the indexes, if it has ended, with what its end brings. It takes no memory.
///
/// There is room for what is brought, and if the build succeeded, no newer one of its job has.
pub(crate) fn finish(
    pipeline: &Pipeline,
    history: &mut History,
    indexes: &mut Indexes,
    brought: &Brought,
    job: &str,
    number: u32,
    outcome: Option<Outcome>,
    pairs: Vec<(u32, u32)>,
)
    requires running { IsRunning job.now number history.old.builds }
    requires fits { PairsFit history.old.tables outcome pairs.items }
    requires indexed { AreIndexes (pipeline_data pipeline.now) history.old indexes.old }
    requires newest { IfSome outcome (λ o. is_succeeded (status_of o) ≡ true
        → has_newer job.now number history.old.builds ≡ false) }
    requires brought { IfSome outcome (λ o. IsBrought (pipeline_data pipeline.now) history.old job.now number
        (status_of o) pairs.items brought.now) }
    requires room { HaveRoom brought.now indexes.old }
    ensures history { history.new ≡ changed (end_edits job.now number outcome pairs.items) history.old }
    ensures indexed { AreIndexes (pipeline_data pipeline.now) history.new indexes.new }
{
    if let Some(outcome) = outcome {
        let status = status_of(outcome);
        indexes.end(pipeline, history, brought, job, number, status, pairs);
    }
}
