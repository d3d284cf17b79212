//! Places of tables that are disabled and enabled by command.
ghost use Rattle.std.specs.Prelude.{◌≡◌, [], ◌∷◌, Ok, Err, map, option_map, IfOk, IfErr, OnOk, OnErr};
ghost use Rattle.ccr_history.specs.Changes.{disabled, enabled, edited};
ghost use Rattle.ccr_history.specs.Edits.{change_data, edit_data, HaveTheirNumbers};
ghost use Rattle.ccr_history.specs.Tables.{scope_number};
ghost use Rattle.ccr_pipeline.specs.Pipelines.{pipeline_data};
ghost use Rattle.ccr_core.specs.Cores.{core_data};
ghost use Rattle.ccr_core.specs.Events.{disable, enable};
ghost use Rattle.ccr_core.specs.Going.{Changes};
ghost use Rattle.ccr_core.specs.Indexed.{AreIndexesOf, IsIndexed};
ghost use Rattle.ccr_core.specs.Holding.{HasEdits, TakesStep};
ghost use Rattle.ccr_core.specs.Opening.{HasVersion, LacksVersion};

use crate::change::change_of;
use crate::fault::CoreFault;
use crate::indexed::indexes_of;
use crate::parts::Parts;
use crate::reply::Reply;
use ccr_history::{Change, Edit, History, Scope};
use ccr_pipeline::Pipeline;
use ccr_problem::Indexes;
use std::alloc::{AllocError, Global};

/// A history with a place of a scope disabled, the indexes then, and the change that this is.
fn without_place(
    alloc: Global,
    pipeline: &Option<Pipeline>,
    history: &History,
    scope: &Scope,
    place: u32,
) -> Result<(History, Indexes, Change), AllocError>
    ensures history { IfOk result (λ r. r.0
        ≡ edited (disabled (scope_number scope.now history.now.tables) place) history.now) }
    ensures indexes { IfOk result (λ r. AreIndexesOf (option_map pipeline_data pipeline.now) r.0 r.1) }
    ensures change { IfOk result (λ r. map edit_data r.2.items
        ≡ disabled (scope_number scope.now history.now.tables) place ∷ []) }
    ensures numbered { IfOk result (λ r. HaveTheirNumbers history.now r.2.items) }
{
    let mut next = history.copy(alloc)?;
    match next.disable(scope, place) {
        Ok(switched) => {
            let indexes = indexes_of(alloc, pipeline, &next)?;
            let change = change_of(alloc, Edit::Disabled(switched))?;
            Ok((next, indexes, change))
        }
        // The caller gives a place that is there: only memory is refused.
        Err(_) => Err(AllocError),
    }
}

/// A history with a place of a scope enabled, the indexes then, and the change that this is.
fn with_place(
    alloc: Global,
    pipeline: &Option<Pipeline>,
    history: &History,
    scope: &Scope,
    place: u32,
) -> Result<(History, Indexes, Change), AllocError>
    ensures history { IfOk result (λ r. r.0
        ≡ edited (enabled (scope_number scope.now history.now.tables) place) history.now) }
    ensures indexes { IfOk result (λ r. AreIndexesOf (option_map pipeline_data pipeline.now) r.0 r.1) }
    ensures change { IfOk result (λ r. map edit_data r.2.items
        ≡ enabled (scope_number scope.now history.now.tables) place ∷ []) }
    ensures numbered { IfOk result (λ r. HaveTheirNumbers history.now r.2.items) }
{
    let mut next = history.copy(alloc)?;
    match next.enable(scope, place) {
        Ok(switched) => {
            let indexes = indexes_of(alloc, pipeline, &next)?;
            let change = change_of(alloc, Edit::Enabled(switched))?;
            Ok((next, indexes, change))
        }
        // The caller gives a place that is there: only memory is refused.
        Err(_) => Err(AllocError),
    }
}

impl Parts {
    /// The scope of a resource, if the pipeline has the resource and its table this place, or why not.
    fn scope_with(&self, resource: &str, place: u32) -> Result<&Scope, CoreFault>
        ensures has { IfOk result (λ s. HasVersion (core_data self.now) resource.now place s.now) }
        ensures lacks { IfErr result (LacksVersion (core_data self.now) resource.now place) }
    {
        let Some(pipeline) = &self.pipeline else {
            return Err(CoreFault::NoPipeline);
        };
        let Some(found) = pipeline.resource(resource) else {
            return Err(CoreFault::NoResource);
        };
        let scope = found.scope();
        if self
            .history
            .has_place(self.history.scope_number(scope), place)
        {
            Ok(scope)
        } else {
            Err(CoreFault::NoVersion)
        }
    }

    /// A place of a resource's table is disabled. Where it is refused, nothing changes.
    pub(crate) fn disable(
        &mut self,
        alloc: Global,
        resource: &str,
        place: u32,
    ) -> Result<(Reply, Change), CoreFault>
        requires { IsIndexed self.old }
        ensures step { IfOk result (λ r. TakesStep (core_data self.old) (core_data self.new)
            (disable resource.now place) (Ok r.0)) }
        ensures change { IfOk result (λ r. Changes r.1.items self.old.history self.new.history) }
        ensures edits { IfOk result (λ r. HasEdits (core_data self.old) (disable resource.now place) (Ok r.0)
            (change_data r.1.items)) }
        ensures refused { IfErr result (λ f. TakesStep (core_data self.old) (core_data self.old)
            (disable resource.now place) (Err f)) }
        ensures unchanged { OnErr result (core_data self.new ≡ core_data self.old) }
        ensures budget { self.new.budget ≡ self.old.budget }
        ensures indexed { IsIndexed self.new }
    {
        match self.scope_with(resource, place) {
            Ok(scope) => match without_place(alloc, &self.pipeline, &self.history, scope, place) {
                Ok((history, indexes, change)) => {
                    self.history = history;
                    self.indexes = indexes;
                    Ok((Reply::Disabled, change))
                }
                Err(_) => Err(CoreFault::NoMemory),
            },
            Err(fault) => Err(fault),
        }
    }

    /// A place of a resource's table is enabled. Where it is refused, nothing changes.
    pub(crate) fn enable(
        &mut self,
        alloc: Global,
        resource: &str,
        place: u32,
    ) -> Result<(Reply, Change), CoreFault>
        requires { IsIndexed self.old }
        ensures step { IfOk result (λ r. TakesStep (core_data self.old) (core_data self.new)
            (enable resource.now place) (Ok r.0)) }
        ensures change { IfOk result (λ r. Changes r.1.items self.old.history self.new.history) }
        ensures edits { IfOk result (λ r. HasEdits (core_data self.old) (enable resource.now place) (Ok r.0)
            (change_data r.1.items)) }
        ensures refused { IfErr result (λ f. TakesStep (core_data self.old) (core_data self.old)
            (enable resource.now place) (Err f)) }
        ensures unchanged { OnErr result (core_data self.new ≡ core_data self.old) }
        ensures budget { self.new.budget ≡ self.old.budget }
        ensures indexed { IsIndexed self.new }
    {
        match self.scope_with(resource, place) {
            Ok(scope) => match with_place(alloc, &self.pipeline, &self.history, scope, place) {
                Ok((history, indexes, change)) => {
                    self.history = history;
                    self.indexes = indexes;
                    Ok((Reply::Enabled, change))
                }
                Err(_) => Err(CoreFault::NoMemory),
            },
            Err(fault) => Err(fault),
        }
    }
}
