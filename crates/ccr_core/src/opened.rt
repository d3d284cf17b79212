//! A build that is made comes to those that run.
ghost use Rattle.std.specs.Prelude.{◌≡◌, map, IfOk, OnErr};
ghost use Rattle.ccr_history.specs.Edits.{change_data};
ghost use Rattle.ccr_pipeline.specs.JobData.{job_data};
ghost use Rattle.ccr_pipeline.specs.Pipelines.{pipeline_data};
ghost use Rattle.ccr_steps.specs.Runs.{run_data};
ghost use Rattle.ccr_problem.specs.Indexes.{AreIndexes};
ghost use Rattle.ccr_core.specs.Edits.{AreBuildEdits};
ghost use Rattle.ccr_core.specs.Going.{CanMake, Changes};
ghost use Rattle.ccr_core.specs.Holding.{name_data};
ghost use Rattle.ccr_core.specs.Opening.{IsOpened};

use crate::made::{MadeBuild, make_build};
use ccr_history::{Change, History};
use ccr_pipeline::{Job, Pipeline};
use ccr_problem::Indexes;
use ccr_steps::BuildRun;
use std::alloc::{AllocError, Global};

/// Makes a build of a job for these places, and gives its number. It comes to those that run, unless it has ended.
/// Where memory is refused, nothing changes.
pub(crate) fn open_build(
    alloc: Global,
    pipeline: &Pipeline,
    history: &mut History,
    indexes: &mut Indexes,
    names: &mut Vec<(String, u32)>,
    runs: &mut Vec<BuildRun>,
    job: &Job,
    places: &[u32],
) -> Result<(u32, Change), AllocError>
    requires can { CanMake (pipeline_data pipeline.now) history.old (job_data job.now) places.now }
    requires indexed { AreIndexes (pipeline_data pipeline.now) history.old indexes.old }
    ensures opened { IfOk result (λ r. IsOpened (pipeline_data pipeline.now) history.old (job_data job.now) places.now
        r.0 history.new (map name_data names.old.items) (map name_data names.new.items)
        (map run_data runs.old.items) (map run_data runs.new.items)) }
    ensures change { IfOk result (λ r. Changes r.1.items history.old history.new) }
    ensures edits { IfOk result (λ r. AreBuildEdits (pipeline_data pipeline.now) history.old (job_data job.now)
        places.now (change_data r.1.items)) }
    ensures indexed { AreIndexes (pipeline_data pipeline.now) history.new indexes.new }
    ensures history { OnErr result (history.new ≡ history.old) }
    ensures names { OnErr result (names.new.items ≡ names.old.items) }
    ensures runs { OnErr result (runs.new.items ≡ runs.old.items) }
{
    let name = String::from_str(alloc, job.name.as_str())?;
    names.reserve(1)?;
    runs.reserve(1)?;
    match make_build(alloc, pipeline, history, indexes, job, places) {
        Ok(made) => {
            let MadeBuild {
                run,
                number,
                outcome,
                edits,
            } = made;
            match outcome {
                Some(_) => Ok((number, edits)),
                None => {
                    names.push_reserved((name, number));
                    runs.push_reserved(run);
                    Ok((number, edits))
                }
            }
        }
        Err(fault) => Err(fault),
    }
}
