//! New pipelines.
ghost use Rattle.std.specs.Prelude.{◌≡◌, [], ◌∷◌, Ok, Err, map, IfOk, IfErr, OnErr};
ghost use Rattle.ccr_history.specs.Changes.{text};
ghost use Rattle.ccr_history.specs.Edits.{change_data, edit_data, HaveTheirNumbers};
ghost use Rattle.ccr_history.specs.History.{HistoryData};
ghost use Rattle.ccr_pipeline.specs.Pipelines.{pipeline_data};
ghost use Rattle.ccr_problem.specs.Indexes.{AreIndexes};
ghost use Rattle.ccr_core.specs.Cores.{core_data};
ghost use Rattle.ccr_core.specs.Events.{set_pipeline};
ghost use Rattle.ccr_core.specs.Going.{Changes};
ghost use Rattle.ccr_core.specs.Indexed.{IsIndexed};
ghost use Rattle.ccr_core.specs.Holding.{HasEdits, IsCore, TakesStep};
ghost use Rattle.ccr_core.specs.Kept.{IsPipeline};

use crate::change::change_of;
use crate::fault::CoreFault;
use crate::parts::Parts;
use crate::reply::Reply;
use ccr_history::{Change, Edit, History};
use ccr_pipeline::Pipeline;
use ccr_problem::Indexes;
use std::alloc::{AllocError, Global};

/// The text of a pipeline, the change that it is, and the indexes of the pipeline's jobs.
fn text_change(
    alloc: Global,
    pipeline: &Pipeline,
    history: &History,
) -> Result<(Vec<u8>, Change, Indexes), AllocError>
    ensures text { IfOk result (λ r. r.0.items ≡ (pipeline_data pipeline.now).text) }
    ensures change { IfOk result (λ r. map edit_data r.1.items ≡ text (pipeline_data pipeline.now).text ∷ []) }
    ensures numbered { IfOk result (λ r. (h : HistoryData) → HaveTheirNumbers h r.1.items) }
    ensures indexes { IfOk result (λ r. AreIndexes (pipeline_data pipeline.now) history.now r.2) }
{
    let text = Vec::from_slice(alloc, pipeline.text())?;
    let copy = Vec::from_slice(alloc, pipeline.text())?;
    let change = change_of(alloc, Edit::Text(copy))?;
    let indexes = Indexes::of(alloc, pipeline, history)?;
    Ok((text, change, indexes))
}

impl Parts {
    /// This is the pipeline from now on. Where it is refused, nothing changes.
    pub(crate) fn set_pipeline(
        &mut self,
        alloc: Global,
        pipeline: Pipeline,
    ) -> Result<(Reply, Change), CoreFault>
        requires core { IsCore (core_data self.old) }
        requires indexed { IsIndexed self.old }
        ensures step { IfOk result (λ r. TakesStep (core_data self.old) (core_data self.new)
            (set_pipeline (pipeline_data pipeline)) (Ok r.0)) }
        ensures change { IfOk result (λ r. Changes r.1.items self.old.history self.new.history) }
        ensures edits { IfOk result (λ r. HasEdits (core_data self.old) (set_pipeline (pipeline_data pipeline)) (Ok r.0)
            (change_data r.1.items)) }
        ensures refused { IfErr result (λ f. TakesStep (core_data self.old) (core_data self.old)
            (set_pipeline (pipeline_data pipeline)) (Err f)) }
        ensures unchanged { OnErr result (core_data self.new ≡ core_data self.old) }
        ensures kept { IsPipeline (pipeline_data pipeline) }
        ensures budget { self.new.budget ≡ self.old.budget }
        ensures indexed { IsIndexed self.new }
    {
        if !self.runs.is_empty() {
            return Err(CoreFault::BuildsOpen);
        }
        match text_change(alloc, &pipeline, &self.history) {
            Ok((text, change, indexes)) => {
                self.history.set_text(text);
                self.pipeline = Some(pipeline);
                self.indexes = indexes;
                Ok((Reply::Set, change))
            }
            Err(_) => Err(CoreFault::NoMemory),
        }
    }
}
