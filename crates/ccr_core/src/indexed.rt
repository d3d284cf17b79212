//! The indexes that a core keeps, and how they follow its history.
ghost use Rattle.std.specs.Prelude.{◌≡◌, List, Option, ℕ, true, false, option_map, IfOk, IfSome, OnOk, OnErr};
ghost use Rattle.ccr_choice.specs.Problem.{BuildValue};
ghost use Rattle.ccr_history.specs.Builds.{is_succeeded};
ghost use Rattle.ccr_history.specs.Changes.{changed, IsRunning};
ghost use Rattle.ccr_pipeline.specs.Pipelines.{pipeline_data};
ghost use Rattle.ccr_problem.specs.Follows.{has_newer};
ghost use Rattle.ccr_problem.specs.Indexes.{problems, AreIndexes, IsBrought, HaveRoom};
ghost use Rattle.ccr_core.specs.Builds.{status_of};
ghost use Rattle.ccr_core.specs.Endings.{end_edits, PairsFit};
ghost use Rattle.ccr_core.specs.Indexed.{AreIndexesOf, AreReported};

use crate::end::{finish, status_of};
use ccr_history::{History, Reported};
use ccr_pipeline::Pipeline;
use ccr_problem::{Brought, Indexes, has_newer};
use ccr_steps::Outcome;
use std::alloc::{AllocError, Global};

/// The indexes of a pipeline's jobs, if there is one.
pub(crate) fn indexes_of(
    alloc: Global,
    pipeline: &Option<Pipeline>,
    history: &History,
) -> Result<Indexes, AllocError>
    ensures { IfOk result (AreIndexesOf (option_map pipeline_data pipeline.now) history.now) }
{
    match pipeline {
        Some(pipeline) => Indexes::of(alloc, pipeline, history),
        None => Ok(Indexes::none(alloc)),
    }
}

/// What the end of a build brings to the indexes, if it has ended.
pub(crate) fn brought_by(
    alloc: Global,
    pipeline: &Pipeline,
    history: &History,
    job: &str,
    number: u32,
    outcome: Option<Outcome>,
    pairs: &[(u32, u32)],
) -> Result<Brought, AllocError>
    requires { PairsFit history.now.tables outcome pairs.now }
    ensures { IfOk result (λ brought. IfSome outcome (λ o. IsBrought (pipeline_data pipeline.now) history.now
        job.now number (status_of o) pairs.now brought)) }
{
    match outcome {
        Some(outcome) => Brought::of(
            alloc,
            pipeline,
            history,
            job,
            number,
            status_of(outcome),
            pairs,
        ),
        None => Ok(Brought::nothing(alloc)),
    }
}

/// Brings the indexes to the history after a report, if there was one. Where memory is refused, the problems stay.
fn add_report(
    alloc: Global,
    pipeline: &Pipeline,
    history: &History,
    indexes: &mut Indexes,
    reported: &Option<Reported>,
) -> Result<(), AllocError>
    requires { AreReported (pipeline_data pipeline.now) history.now reported.now indexes.old }
    ensures ok { OnOk result (AreIndexes (pipeline_data pipeline.now) history.now indexes.new) }
    ensures err { OnErr result (problems indexes.new ≡ problems indexes.old) }
    ensures room { (brought : List (Option (ℕ × BuildValue))) → HaveRoom brought indexes.old → HaveRoom brought indexes.new }
{
    match reported {
        Some(reported) => indexes.add_report(alloc, pipeline, history, reported),
        None => Ok(()),
    }
}

/// Whether a build ended so that what it moved passes its job, and a newer build of the job has succeeded already.
fn is_behind(history: &History, job: &str, number: u32, outcome: Option<Outcome>) -> bool
    ensures { result ≡ false → IfSome outcome (λ o. is_succeeded (status_of o) ≡ true
        → has_newer job.now number history.now.builds ≡ false) }
{
    match outcome {
        Some(Outcome::Succeeded) => has_newer(history, job, number),
        Some(Outcome::Failed) | Some(Outcome::Errored) | Some(Outcome::Aborted) | None => false,
    }
}

/// Ends a build that is behind a newer one: all indexes are built anew. Where memory is refused, nothing changes.
fn end_anew(
    alloc: Global,
    pipeline: &Pipeline,
    history: &mut History,
    indexes: &mut Indexes,
    job: &str,
    number: u32,
    outcome: Option<Outcome>,
    pairs: Vec<(u32, u32)>,
) -> Result<(), AllocError>
    requires running { IsRunning job.now number history.old.builds }
    requires fits { PairsFit history.old.tables outcome pairs.items }
    ensures ok { OnOk result (history.new ≡ changed (end_edits job.now number outcome pairs.items) history.old) }
    ensures indexed { OnOk result (AreIndexes (pipeline_data pipeline.now) history.new indexes.new) }
    ensures err { OnErr result (history.new ≡ history.old) }
    ensures problems { OnErr result (problems indexes.new ≡ problems indexes.old) }
{
    let mut next = history.copy(alloc)?;
    if let Some(outcome) = outcome {
        next.end_build_with(job, number, status_of(outcome), pairs)
            .unwrap();
    }
    let anew = Indexes::of(alloc, pipeline, &next)?;
    *history = next;
    *indexes = anew;
    Ok(())
}

/// Ends a build in the history, if it has ended, and brings the indexes to the history then, from the one before a report,
/// if there was one. Where memory is refused, nothing changes.
pub(crate) fn follow(
    alloc: Global,
    pipeline: &Pipeline,
    history: &mut History,
    indexes: &mut Indexes,
    reported: &Option<Reported>,
    job: &str,
    number: u32,
    outcome: Option<Outcome>,
    pairs: Vec<(u32, u32)>,
) -> Result<(), AllocError>
    requires running { IsRunning job.now number history.old.builds }
    requires fits { PairsFit history.old.tables outcome pairs.items }
    requires indexed { AreReported (pipeline_data pipeline.now) history.old reported.now indexes.old }
    ensures ok { OnOk result (history.new ≡ changed (end_edits job.now number outcome pairs.items) history.old) }
    ensures indexed { OnOk result (AreIndexes (pipeline_data pipeline.now) history.new indexes.new) }
    ensures err { OnErr result (history.new ≡ history.old) }
    ensures problems { OnErr result (problems indexes.new ≡ problems indexes.old) }
{
    if is_behind(history, job, number, outcome) {
        return end_anew(
            alloc, pipeline, history, indexes, job, number, outcome, pairs,
        );
    }
    let brought = brought_by(alloc, pipeline, history, job, number, outcome, &pairs)?;
    indexes.make_room(&brought)?;
    add_report(alloc, pipeline, history, indexes, reported)?;
    finish(
        pipeline, history, indexes, &brought, job, number, outcome, pairs,
    );
    Ok(())
}
