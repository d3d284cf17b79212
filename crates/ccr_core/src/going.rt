//! One build that goes on, and the history with it.
ghost use Rattle.std.specs.Prelude.{◌≡◌, ◌⊎◌, ◌<◌, ◌++◌, map, List, vec_len, vec_capacity};
ghost use Rattle.std.specs.Prelude.{IfOk, IfErr, OnOk, OnErr};
ghost use Rattle.ccr_history.specs.Changes.{changed, IsRunning};
ghost use Rattle.ccr_history.specs.Edits.{change_data};
ghost use Rattle.ccr_pipeline.specs.Pipelines.{pipeline_data};
ghost use Rattle.ccr_pipeline.specs.Tree.{Tree};
ghost use Rattle.ccr_steps.specs.Asks.{Chosen, Exchange, answer_data};
ghost use Rattle.ccr_steps.specs.Runs.{run_data, StandsFor};
ghost use Rattle.ccr_core.specs.declared.fault.CoreFault.TheVariants.{TableFull, NoMemory};
ghost use Rattle.ccr_core.specs.Builds.{Settles};
ghost use Rattle.ccr_core.specs.Edits.{AreEndEdits, AreMoreEdits, AreNextEdits};
ghost use Rattle.ccr_core.specs.Going.{CanGoOn, GoesOn, IsRefused, Changes, Waits, named};
ghost use Rattle.ccr_problem.specs.Indexes.{problems, AreIndexes};
ghost use Rattle.ccr_core.specs.Indexed.{AreReported};
ghost use Rattle.ccr_core.specs.Endings.{reports, report_edits, IsOver, EndFits, ReportFits};

use crate::end::{Ending, ending_of};
use crate::fault::CoreFault;
use crate::indexed::follow;
use crate::pushed::{Report, append, report_by, rules_of, take_back};
use ccr_history::{Edit, History, Reported};
use ccr_pipeline::Pipeline;
use ccr_problem::Indexes;
use ccr_steps::{Answered, BuildRun, Outcome};
use std::alloc::{AllocError, Global};

/// Ends a build in the history and in the indexes, if it has ended, after a report, if there was one; its edits have room
/// for one more. Where memory is refused, nothing changes.
fn settle(
    alloc: Global,
    pipeline: &Pipeline,
    history: &mut History,
    indexes: &mut Indexes,
    reported: &Option<Reported>,
    run: &BuildRun,
    job: &str,
    number: u32,
) -> Result<(Option<Outcome>, Vec<Edit>), AllocError>
    requires running { IsRunning job.now number history.old.builds }
    requires fits { EndFits (pipeline_data pipeline.now) history.old (run_data run.now) }
    requires indexed { AreReported (pipeline_data pipeline.now) history.old reported.now indexes.old }
    ensures settled { IfOk result (λ r. (plan : Tree) (inputs : Chosen) (es : List Exchange)
        → StandsFor (run_data run.now) plan inputs es
        → Settles (pipeline_data pipeline.now) history.old (named job.now number plan inputs es) r.0 history.new) }
    ensures change { IfOk result (λ r. Changes r.1.items history.old history.new) }
    ensures edits { IfOk result (λ r. (plan : Tree) (inputs : Chosen) (es : List Exchange)
        → StandsFor (run_data run.now) plan inputs es
        → AreEndEdits (pipeline_data pipeline.now) history.old (named job.now number plan inputs es) r.0
        (change_data r.1.items)) }
    ensures room { IfOk result (λ r. vec_len r.1 < vec_capacity r.1) }
    ensures indexed { OnOk result (AreIndexes (pipeline_data pipeline.now) history.new indexes.new) }
    ensures err { OnErr result (history.new ≡ history.old) }
    ensures problems { OnErr result (problems indexes.new ≡ problems indexes.old) }
{
    let row = history.row_of(job, number);
    let Ending {
        outcome,
        pairs,
        edits,
    } = ending_of(alloc, pipeline, history, run, job, number, row)?;
    follow(
        alloc, pipeline, history, indexes, reported, job, number, outcome, pairs,
    )?;
    Ok((outcome, edits))
}

/// The edits of an answer: what it reports, and then what it ends. It takes no memory.
fn with_report(reported: Option<Reported>, mut edits: Vec<Edit>) -> Vec<Edit>
    requires { vec_len edits < vec_capacity edits }
    ensures { result.items ≡ report_edits reported ++ edits.items }
{
    if let Some(reported) = reported {
        edits.insert(0, Edit::Versions(reported)).unwrap();
    }
    edits
}

/// The history after an answer that the build has taken. Where it is refused, nothing changes.
fn go_on(
    alloc: Global,
    pipeline: &Pipeline,
    history: &mut History,
    indexes: &mut Indexes,
    run: &BuildRun,
    job: &str,
    number: u32,
    report: Option<Report>,
) -> Result<(Option<Outcome>, Vec<Edit>), CoreFault>
    requires running { IsRunning job.now number history.old.builds }
    requires fits { ReportFits (pipeline_data pipeline.now) history.old report (run_data run.now) }
    requires indexed { AreIndexes (pipeline_data pipeline.now) history.old indexes.old }
    ensures settled { IfOk result (λ r. (plan : Tree) (inputs : Chosen) (es : List Exchange)
        → StandsFor (run_data run.now) plan inputs es
        → Settles (pipeline_data pipeline.now) (changed (reports report) history.old)
        (named job.now number plan inputs es) r.0 history.new) }
    ensures change { IfOk result (λ r. Changes r.1.items history.old history.new) }
    ensures edits { IfOk result (λ r. (plan : Tree) (inputs : Chosen) (es : List Exchange)
        → StandsFor (run_data run.now) plan inputs es → AreMoreEdits (pipeline_data pipeline.now) history.old
        (reports report) (named job.now number plan inputs es) r.0 (change_data r.1.items)) }
    ensures room { OnOk result (IsOver report history.old → ⊥) }
    ensures indexed { AreIndexes (pipeline_data pipeline.now) history.new indexes.new }
    ensures err { OnErr result (history.new ≡ history.old) }
    ensures refused { IfErr result (λ f. (f ≡ NoMemory) ⊎ ((f ≡ TableFull) × IsOver report history.old)) }
{
    history.rules();
    let reported = append(alloc, history, report)?;
    match settle(
        alloc, pipeline, history, indexes, &reported, run, job, number,
    ) {
        Ok((outcome, edits)) => Ok((outcome, with_report(reported, edits))),
        Err(fault) => {
            take_back(history, &reported);
            Err(CoreFault::from(fault))
        }
    }
}

/// Gives a build an answer. Where it is refused, nothing changes.
pub(crate) fn answer_build(
    alloc: Global,
    pipeline: &Pipeline,
    history: &mut History,
    indexes: &mut Indexes,
    run: &mut BuildRun,
    job: &str,
    number: u32,
    answer: Answered,
) -> Result<(Option<Outcome>, Vec<Edit>), CoreFault>
    requires can { CanGoOn (pipeline_data pipeline.now) history.old (run_data run.old) job.now number }
    requires indexed { AreIndexes (pipeline_data pipeline.now) history.old indexes.old }
    ensures on { IfOk result (λ r. GoesOn (pipeline_data pipeline.now) history.old (run_data run.old) job.now number
        (answer_data answer) r.0 history.new (run_data run.new)) }
    ensures change { IfOk result (λ r. Changes r.1.items history.old history.new) }
    ensures edits { IfOk result (λ r. (plan : Tree) (inputs : Chosen) (es : List Exchange)
        → Waits (run_data run.old) plan inputs es → AreNextEdits (pipeline_data pipeline.now) history.old
        (named job.now number plan inputs es) (answer_data answer) r.0 (change_data r.1.items)) }
    ensures indexed { AreIndexes (pipeline_data pipeline.now) history.new indexes.new }
    ensures history { OnErr result (history.new ≡ history.old) }
    ensures run { OnErr result (run_data run.new ≡ run_data run.old) }
    ensures refused { IfErr result (IsRefused (pipeline_data pipeline.now) history.old (run_data run.old)
        (answer_data answer)) }
{
    rules_of(&answer);
    // It waits for an answer.
    let ask = run.wants().unwrap();
    let report = report_by(alloc, pipeline, &ask, &answer)?;
    let before = match run.feed_back(answer) {
        Ok(before) => before,
        // It waits: only memory is refused.
        Err(_) => return Err(CoreFault::NoMemory),
    };
    match go_on(alloc, pipeline, history, indexes, run, job, number, report) {
        Ok(gone) => Ok(gone),
        Err(fault) => {
            run.undo(before);
            Err(fault)
        }
    }
}
