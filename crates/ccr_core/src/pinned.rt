//! Pins by command.
ghost use Rattle.std.specs.Prelude.{◌≡◌, [], ◌∷◌, Ok, Err, map, option_map, IfOk, IfErr, OnOk, OnErr};
ghost use Rattle.ccr_history.specs.Changes.{pin_set, pin_cleared, edited};
ghost use Rattle.ccr_history.specs.Edits.{change_data, edit_data, HaveTheirNumbers};
ghost use Rattle.ccr_history.specs.History.{HistoryData};
ghost use Rattle.ccr_history.specs.TextMap.{IsAscending};
ghost use Rattle.ccr_pipeline.specs.Pipelines.{pipeline_data};
ghost use Rattle.ccr_core.specs.Cores.{core_data};
ghost use Rattle.ccr_core.specs.Events.{pin, unpin};
ghost use Rattle.ccr_core.specs.Going.{Changes};
ghost use Rattle.ccr_core.specs.Indexed.{AreIndexesOf, IsIndexed};
ghost use Rattle.ccr_core.specs.Holding.{HasEdits, TakesStep};
ghost use Rattle.ccr_core.specs.Opening.{HasResource, LacksResource};

use crate::change::change_of;
use crate::fault::CoreFault;
use crate::indexed::indexes_of;
use crate::parts::Parts;
use crate::reply::Reply;
use ccr_history::{Change, Edit, History, Pin};
use ccr_pipeline::Pipeline;
use ccr_problem::Indexes;
use std::alloc::{AllocError, Global};

/// The change that a pin by command is.
fn pin_change(alloc: Global, resource: &str, pin: &Pin) -> Result<Change, AllocError>
    ensures is { IfOk result (λ change. map edit_data change.items ≡ pin_set resource.now pin.now ∷ []) }
    ensures numbered { IfOk result (λ change. (h : HistoryData) → HaveTheirNumbers h change.items) }
{
    change_of(
        alloc,
        Edit::PinSet(String::from_str(alloc, resource)?, pin.copy()?),
    )
}

/// The change that the end of a pin by command is.
fn unpin_change(alloc: Global, resource: &str) -> Result<Change, AllocError>
    ensures is { IfOk result (λ change. map edit_data change.items ≡ pin_cleared resource.now ∷ []) }
    ensures numbered { IfOk result (λ change. (h : HistoryData) → HaveTheirNumbers h change.items) }
{
    change_of(alloc, Edit::PinCleared(String::from_str(alloc, resource)?))
}

/// The history with a resource pinned by command, and the indexes then.
fn pinned(
    alloc: Global,
    pipeline: &Option<Pipeline>,
    history: &History,
    resource: &str,
    given: Pin,
) -> Result<(History, Indexes), AllocError>
    ensures history { IfOk result (λ r. r.0 ≡ edited (pin_set resource.now given) history.now) }
    ensures indexes { IfOk result (λ r. AreIndexesOf (option_map pipeline_data pipeline.now) r.0 r.1) }
{
    let mut next = history.copy(alloc)?;
    match next.set_pin(alloc, resource, given) {
        Ok(()) => match indexes_of(alloc, pipeline, &next) {
            Ok(indexes) => Ok((next, indexes)),
            Err(fault) => Err(fault),
        },
        // Only memory is refused.
        Err(_) => Err(AllocError),
    }
}

/// The history without the pin by command of a resource, and the indexes then.
fn unpinned(
    alloc: Global,
    pipeline: &Option<Pipeline>,
    history: &History,
    resource: &str,
) -> Result<(History, Indexes), AllocError>
    ensures history { IfOk result (λ r. r.0 ≡ edited (pin_cleared resource.now) history.now) }
    ensures indexes { IfOk result (λ r. AreIndexesOf (option_map pipeline_data pipeline.now) r.0 r.1) }
{
    let mut next = history.copy(alloc)?;
    let _had = next.clear_pin(resource);
    let indexes = indexes_of(alloc, pipeline, &next)?;
    Ok((next, indexes))
}

impl Parts {
    /// Whether the pipeline has a resource of a name, or why not.
    fn has_resource(&self, resource: &str) -> Result<(), CoreFault>
        ensures has { OnOk result (HasResource (core_data self.now) resource.now) }
        ensures lacks { IfErr result (LacksResource (core_data self.now) resource.now) }
    {
        let Some(pipeline) = &self.pipeline else {
            return Err(CoreFault::NoPipeline);
        };
        match pipeline.resource(resource) {
            Some(_) => Ok(()),
            None => Err(CoreFault::NoResource),
        }
    }

    /// A resource is pinned by command. Where it is refused, nothing changes.
    pub(crate) fn pin(
        &mut self,
        alloc: Global,
        resource: &str,
        given: Pin,
    ) -> Result<(Reply, Change), CoreFault>
        requires { IsIndexed self.old }
        ensures step { IfOk result (λ r. TakesStep (core_data self.old) (core_data self.new)
            (pin resource.now given) (Ok r.0)) }
        ensures change { IfOk result (λ r. Changes r.1.items self.old.history self.new.history) }
        ensures edits { IfOk result (λ r. HasEdits (core_data self.old) (pin resource.now given) (Ok r.0)
            (change_data r.1.items)) }
        ensures refused { IfErr result (λ f. TakesStep (core_data self.old) (core_data self.old)
            (pin resource.now given) (Err f)) }
        ensures unchanged { OnErr result (core_data self.new ≡ core_data self.old) }
        ensures kept { IsAscending given }
        ensures budget { self.new.budget ≡ self.old.budget }
        ensures indexed { IsIndexed self.new }
    {
        given.rules();
        match self.has_resource(resource) {
            Ok(()) => match pin_change(alloc, resource, &given) {
                Ok(change) => match pinned(alloc, &self.pipeline, &self.history, resource, given) {
                    Ok((history, indexes)) => {
                        self.history = history;
                        self.indexes = indexes;
                        Ok((Reply::Pinned, change))
                    }
                    Err(_) => Err(CoreFault::NoMemory),
                },
                Err(_) => Err(CoreFault::NoMemory),
            },
            Err(fault) => Err(fault),
        }
    }

    /// The pin by command of a resource is taken away. Where it is refused, nothing changes.
    pub(crate) fn unpin(
        &mut self,
        alloc: Global,
        resource: &str,
    ) -> Result<(Reply, Change), CoreFault>
        requires { IsIndexed self.old }
        ensures step { IfOk result (λ r. TakesStep (core_data self.old) (core_data self.new)
            (unpin resource.now) (Ok r.0)) }
        ensures change { IfOk result (λ r. Changes r.1.items self.old.history self.new.history) }
        ensures edits { IfOk result (λ r. HasEdits (core_data self.old) (unpin resource.now) (Ok r.0)
            (change_data r.1.items)) }
        ensures refused { IfErr result (λ f. TakesStep (core_data self.old) (core_data self.old)
            (unpin resource.now) (Err f)) }
        ensures unchanged { OnErr result (core_data self.new ≡ core_data self.old) }
        ensures budget { self.new.budget ≡ self.old.budget }
        ensures indexed { IsIndexed self.new }
    {
        match self.has_resource(resource) {
            Ok(()) => match unpin_change(alloc, resource) {
                Ok(change) => match unpinned(alloc, &self.pipeline, &self.history, resource) {
                    Ok((history, indexes)) => {
                        self.history = history;
                        self.indexes = indexes;
                        Ok((Reply::Unpinned, change))
                    }
                    Err(_) => Err(CoreFault::NoMemory),
                },
                Err(_) => Err(CoreFault::NoMemory),
            },
            Err(fault) => Err(fault),
        }
    }
}
