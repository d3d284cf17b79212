//! One build that is made, and the history with it.
ghost use Rattle.std.specs.Prelude.{◌≡◌, ◌<◌, ◌+◌, ℕ, List, Option, false, length, IfOk, OnOk, OnErr};
ghost use Rattle.ccr_choice.specs.Problem.{BuildValue};
ghost use Rattle.ccr_history.specs.declared.builds.TheConstants.{MOST_BUILDS};
ghost use Rattle.ccr_history.specs.Builds.{count_of};
ghost use Rattle.ccr_history.specs.Changes.{build, edited, AreUsed, IsRunning};
ghost use Rattle.ccr_history.specs.Edits.{change_data, row_of};
ghost use Rattle.ccr_pipeline.specs.JobData.{job_data};
ghost use Rattle.ccr_pipeline.specs.Pipelines.{pipeline_data};
ghost use Rattle.ccr_steps.specs.Runs.{run_data};
ghost use Rattle.ccr_problem.specs.Follows.{has_newer};
ghost use Rattle.ccr_problem.specs.Indexes.{AreIndexes, HaveRoom};
ghost use Rattle.ccr_core.specs.Edits.{AreBuildEdits};
ghost use Rattle.ccr_core.specs.Going.{CanMake, IsMade, Changes};

use crate::end::{Ending, ending_of, finish};
use crate::indexed::brought_by;
use crate::used::{used_at, versions_at};
use ccr_history::{Edit, History, Made, Used};
use ccr_pipeline::{Job, Pipeline, inputs_of};
use ccr_problem::Indexes;
use ccr_steps::{BuildRun, Outcome, start};
use std::alloc::{AllocError, Global};

/// A build that was made.
#[derive(Drop)]
pub(crate) struct MadeBuild {
    pub(crate) run: BuildRun,
    pub(crate) number: u32,
    // How it ended, if it asks nothing.
    pub(crate) outcome: Option<Outcome>,
    pub(crate) edits: Vec<Edit>,
}

/// The number of a job's next build.
fn next_number(history: &History, job: &str) -> u32
    requires { length history.now.builds < MOST_BUILDS }
    ensures { result ≡ count_of job.now history.now.builds + 1 }
{
    history.count_of(job) + 1
}

/// The row of the next build.
fn next_row(history: &History) -> u32
    requires { length history.now.builds < MOST_BUILDS }
    ensures { result ≡ length history.now.builds + 1 }
{
    history.build_count() as u32 + 1
}

/// Adds a build for which there is room, in the history and in the indexes. Where memory is refused, nothing changes.
fn add(
    alloc: Global,
    pipeline: &Pipeline,
    history: &mut History,
    indexes: &mut Indexes,
    job: &str,
    used: &[Used],
) -> Result<(), AllocError>
    requires room { length history.old.builds < MOST_BUILDS }
    requires used { AreUsed history.old.tables used.now }
    requires indexed { AreIndexes (pipeline_data pipeline.now) history.old indexes.old }
    ensures ok { OnOk result (history.new ≡ edited (build job.now used.now) history.old) }
    ensures running { OnOk result (IsRunning job.now (count_of job.now history.old.builds + 1) history.new.builds) }
    ensures row { OnOk result (length history.old.builds + 1
        ≡ row_of job.now (count_of job.now history.old.builds + 1) history.new.builds) }
    ensures newest { OnOk result (has_newer job.now (count_of job.now history.old.builds + 1) history.new.builds
        ≡ false) }
    ensures indexed { AreIndexes (pipeline_data pipeline.now) history.new indexes.new }
    ensures spare { (brought : List (Option (ℕ × BuildValue))) → HaveRoom brought indexes.old → HaveRoom brought indexes.new }
    ensures err { OnErr result (history.new ≡ history.old) }
{
    history.rules();
    match indexes.make(alloc, pipeline, history, job, used) {
        Ok(_) => Ok(()),
        // There is room: only memory is refused.
        Err(_) => Err(AllocError),
    }
}

/// Makes a build of a job for these places, in plan order. A build whose plan asks nothing ends at once. Where memory
/// is refused, nothing changes.
pub(crate) fn make_build(
    alloc: Global,
    pipeline: &Pipeline,
    history: &mut History,
    indexes: &mut Indexes,
    job: &Job,
    places: &[u32],
) -> Result<MadeBuild, AllocError>
    requires can { CanMake (pipeline_data pipeline.now) history.old (job_data job.now) places.now }
    requires indexed { AreIndexes (pipeline_data pipeline.now) history.old indexes.old }
    ensures made { IfOk result (λ m. IsMade (pipeline_data pipeline.now) history.old (job_data job.now) places.now
        m.number m.outcome history.new (run_data m.run)) }
    ensures change { IfOk result (λ m. Changes m.edits.items history.old history.new) }
    ensures edits { IfOk result (λ m. AreBuildEdits (pipeline_data pipeline.now) history.old (job_data job.now)
        places.now (change_data m.edits.items)) }
    ensures indexed { AreIndexes (pipeline_data pipeline.now) history.new indexes.new }
    ensures err { OnErr result (history.new ≡ history.old) }
{
    let name = job.name.as_str();
    let inputs = inputs_of(alloc, job)?;
    let used = used_at(alloc, pipeline, history, &inputs, places)?;
    let versions = versions_at(alloc, pipeline, history, &inputs, places)?;
    let run = start(alloc, job, &versions)?;
    let number = next_number(history, name);
    let row = next_row(history);
    let Ending {
        outcome,
        pairs,
        mut edits,
    } = ending_of(alloc, pipeline, history, &run, name, number, row)?;
    let copy = String::from_str(alloc, name)?;
    let brought = brought_by(alloc, pipeline, history, name, number, outcome, &pairs)?;
    indexes.make_room(&brought)?;
    add(alloc, pipeline, history, indexes, name, &used)?;
    let made = Made {
        row,
        job: copy,
        number,
        used,
    };
    edits.insert(0, Edit::Build(made)).unwrap();
    finish(
        pipeline, history, indexes, &brought, name, number, outcome, pairs,
    );
    Ok(MadeBuild {
        run,
        number,
        outcome,
        edits,
    })
}
