//! Builds that are to be made, because there is something new or by command.
ghost use Rattle.std.specs.Prelude.{◌≡◌, Ok, Err, map, IfOk, IfErr, OnOk, OnErr};
ghost use Rattle.ccr_history.specs.Edits.{change_data};
ghost use Rattle.ccr_core.specs.Cores.{core_data};
ghost use Rattle.ccr_core.specs.Going.{Changes};
ghost use Rattle.ccr_core.specs.Indexed.{IsIndexed};
ghost use Rattle.ccr_core.specs.Holding.{HasEdits, IsCore, TakesStep};
ghost use Rattle.ccr_core.specs.Opening.{asked, HasRoom, LacksRoom};

use crate::fault::CoreFault;
use crate::limit::MOST_RUNNING;
use crate::opened::open_build;
use crate::parts::Parts;
use crate::pick::{Picked, pick};
use crate::reply::Reply;
use ccr_history::{Change, History, MOST_BUILDS};
use std::alloc::Global;

/// Whether there is room for one more build where so many run, or why not.
fn check_room(history: &History, running: usize) -> Result<(), CoreFault>
    ensures has { OnOk result (HasRoom history.now running) }
    ensures lacks { IfErr result (LacksRoom history.now running) }
{
    if running >= MOST_RUNNING {
        return Err(CoreFault::TooManyOpen);
    }
    if history.build_count() >= MOST_BUILDS {
        return Err(CoreFault::TableFull);
    }
    Ok(())
}

impl Parts {
    /// A build of a job is to be made: by command, or else only if there is something new. Where it is refused, nothing
    /// changes.
    pub(crate) fn make(
        &mut self,
        alloc: Global,
        job: &str,
        by_command: bool,
    ) -> Result<(Reply, Change), CoreFault>
        requires core { IsCore (core_data self.old) }
        requires indexed { IsIndexed self.old }
        ensures step { IfOk result (λ r. TakesStep (core_data self.old) (core_data self.new)
            (asked by_command job.now) (Ok r.0)) }
        ensures change { IfOk result (λ r. Changes r.1.items self.old.history self.new.history) }
        ensures edits { IfOk result (λ r. HasEdits (core_data self.old) (asked by_command job.now) (Ok r.0)
            (change_data r.1.items)) }
        ensures refused { IfErr result (λ f. TakesStep (core_data self.old) (core_data self.old)
            (asked by_command job.now) (Err f)) }
        ensures unchanged { OnErr result (core_data self.new ≡ core_data self.old) }
        ensures budget { self.new.budget ≡ self.old.budget }
        ensures indexed { IsIndexed self.new }
    {
        let Some(pipeline) = &self.pipeline else {
            return Err(CoreFault::NoPipeline);
        };
        let Some(found) = pipeline.job(job) else {
            return Err(CoreFault::NoJob);
        };
        check_room(&self.history, self.names.len())?;
        match pick(
            alloc,
            pipeline,
            &self.history,
            &self.indexes,
            self.budget,
            &self.names,
            found,
            by_command,
        ) {
            Ok(pick) => match pick {
                Picked::Busy => Ok((Reply::Busy, Vec::new(alloc))),
                Picked::NoneSatisfies => Ok((Reply::NoneSatisfies, Vec::new(alloc))),
                Picked::OverBudget(budget) => Ok((Reply::OverBudget(budget), Vec::new(alloc))),
                Picked::NotNew => Ok((Reply::NotNew, Vec::new(alloc))),
                Picked::Best(places) => match open_build(
                    alloc,
                    pipeline,
                    &mut self.history,
                    &mut self.indexes,
                    &mut self.names,
                    &mut self.runs,
                    found,
                    &places,
                ) {
                    Ok((number, change)) => Ok((Reply::Made(number), change)),
                    Err(_) => Err(CoreFault::NoMemory),
                },
            },
            Err(_) => Err(CoreFault::NoMemory),
        }
    }
}
