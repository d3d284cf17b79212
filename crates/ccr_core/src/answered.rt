//! Answers to what builds asked.
ghost use Rattle.std.specs.Prelude.{◌≡◌, ◌≢◌, Ok, Err, map, IsTrue, IsFalse, IsSomeAnd, IfOk, IfErr, OnErr};
ghost use Rattle.std.specs.Option.{IfSome};
ghost use Rattle.ccr_history.specs.Edits.{change_data};
ghost use Rattle.ccr_steps.specs.Asks.{answer_data};
ghost use Rattle.ccr_core.specs.Addressed.{answer_to};
ghost use Rattle.ccr_core.specs.Cores.{core_data};
ghost use Rattle.ccr_core.specs.Going.{Changes};
ghost use Rattle.ccr_core.specs.Indexed.{IsIndexed};
ghost use Rattle.ccr_core.specs.Holding.{HasSaidEdits, IsCore, TakesSaidStep};
ghost use Rattle.ccr_core.specs.Kept.{IsAnswer};

use crate::fault::CoreFault;
use crate::going::answer_build;
use crate::parts::Parts;
use crate::pushed::rules_of;
use crate::reply::Reply;
use crate::wanted::index_of;
use ccr_history::Change;
use ccr_steps::Answered;
use std::alloc::Global;

/// Whether a turn is named that isn't this one.
fn names_other(turn: Option<u64>, present: u64) -> bool
    ensures other { IsTrue result → IsSomeAnd turn (λ named. present ≢ named) }
    ensures own { IsFalse result → IfSome turn (λ named. present ≡ named) }
{
    match turn {
        Some(named) => present != named,
        None => false,
    }
}

impl Parts {
    /// An answer to what the job's build of this number asked at this turn, or, where no turn is named, to what it
    /// asks. Where it is refused, nothing changes.
    pub(crate) fn answer(
        &mut self,
        alloc: Global,
        job: &str,
        number: u32,
        turn: Option<u64>,
        answered: Answered,
    ) -> Result<(Reply, Change), CoreFault>
        requires core { IsCore (core_data self.old) }
        requires indexed { IsIndexed self.old }
        ensures step { IfOk result (λ r. TakesSaidStep (core_data self.old) (core_data self.new)
            (answer_to job.now number turn (answer_data answered)) (Ok r.0)) }
        ensures change { IfOk result (λ r. Changes r.1.items self.old.history self.new.history) }
        ensures edits { IfOk result (λ r. HasSaidEdits (core_data self.old)
            (answer_to job.now number turn (answer_data answered)) (Ok r.0) (change_data r.1.items)) }
        ensures refused { IfErr result (λ f. TakesSaidStep (core_data self.old) (core_data self.old)
            (answer_to job.now number turn (answer_data answered)) (Err f)) }
        ensures unchanged { OnErr result (core_data self.new ≡ core_data self.old) }
        ensures kept { IsAnswer (answer_data answered) }
        ensures budget { self.new.budget ≡ self.old.budget }
        ensures indexed { IsIndexed self.new }
    {
        rules_of(&answered);
        // Where no pipeline is set, nothing runs.
        let Some(pipeline) = &self.pipeline else {
            return Err(CoreFault::NoBuild);
        };
        let k = index_of(&self.names, job, number);
        if k >= self.runs.len() {
            return Err(CoreFault::NoBuild);
        }
        let run = &mut self.runs[k];
        if names_other(turn, run.turn()) {
            return Err(CoreFault::NotWanted);
        }
        match answer_build(
            alloc,
            pipeline,
            &mut self.history,
            &mut self.indexes,
            run,
            job,
            number,
            answered,
        ) {
            Ok((outcome, edits)) => match outcome {
                Some(outcome) => {
                    let _name = self.names.remove(k);
                    let _run = self.runs.remove(k);
                    Ok((Reply::Ends(outcome), edits))
                }
                None => Ok((Reply::Goes, edits)),
            },
            Err(fault) => Err(fault),
        }
    }
}
