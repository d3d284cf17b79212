//! Reports of checks.
ghost use Rattle.std.specs.Prelude.{◌≡◌, [], ◌∷◌, Ok, Err, map, IfOk, IfErr, OnOk, OnErr};
ghost use Rattle.std.specs.List.{AllByRecursion};
ghost use Rattle.ccr_history.specs.Changes.{versions};
ghost use Rattle.ccr_history.specs.Edits.{change_data};
ghost use Rattle.ccr_history.specs.TextMap.{IsAscending};
ghost use Rattle.ccr_pipeline.specs.Pipelines.{pipeline_data};
ghost use Rattle.ccr_problem.specs.Indexes.{problems, AreIndexes, AreBefore};
ghost use Rattle.ccr_core.specs.Cores.{core_data};
ghost use Rattle.ccr_core.specs.Edits.{news_in};
ghost use Rattle.ccr_core.specs.Events.{checked};
ghost use Rattle.ccr_core.specs.Going.{Changes};
ghost use Rattle.ccr_core.specs.Indexed.{IsIndexed};
ghost use Rattle.ccr_core.specs.Holding.{HasEdits, TakesStep};
ghost use Rattle.ccr_core.specs.Opening.{IsReported, IsNotReported};

use crate::fault::CoreFault;
use crate::named::scope_named;
use crate::parts::Parts;
use crate::reply::Reply;
use ccr_history::{Change, Edit, History, HistoryFault, Reported, Scope, Version};
use ccr_pipeline::Pipeline;
use ccr_problem::Indexes;
use std::alloc::{AllocError, Global};

/// Each version has its keys in order. Nothing runs.
pub(crate) fn versions_ascend(versions: &[Version])
    ensures { AllByRecursion IsAscending versions.now }
{
    for version in versions {
        version.rules();
    }
}

/// From how many new versions on the indexes are built anew. With fewer, each index makes room for every version in each of
/// its inputs, so that nothing is refused once the first has come.
const MANY_VERSIONS: usize = 1000;

/// Brings the indexes from the history before a report to the one after it. Where memory is refused, the problems stay.
fn follow_report(
    alloc: Global,
    pipeline: &Pipeline,
    history: &History,
    indexes: &mut Indexes,
    reported: &Reported,
) -> Result<(), AllocError>
    requires { AreBefore (pipeline_data pipeline.now) history.now reported.now indexes.old }
    ensures ok { OnOk result (AreIndexes (pipeline_data pipeline.now) history.now indexes.new) }
    ensures err { OnErr result (problems indexes.new ≡ problems indexes.old) }
{
    if reported.versions.is_empty() {
        return Ok(());
    }
    if reported.versions.len() < MANY_VERSIONS {
        return indexes.add_report(alloc, pipeline, history, reported);
    }
    let anew = Indexes::of(alloc, pipeline, history)?;
    *indexes = anew;
    Ok(())
}

/// Reports versions of a scope, to the history and to the indexes, and gives how many were new. Where it is refused,
/// nothing changes.
fn append(
    alloc: Global,
    pipeline: &Pipeline,
    history: &mut History,
    indexes: &mut Indexes,
    scope: Scope,
    seen: Vec<Version>,
) -> Result<(u32, Change), CoreFault>
    requires { AreIndexes (pipeline_data pipeline.now) history.old indexes.old }
    ensures ok { IfOk result (λ r. IsReported history.old history.new scope seen.items r.0) }
    ensures change { IfOk result (λ r. Changes r.1.items history.old history.new) }
    ensures edits { IfOk result (λ r. change_data r.1.items ≡ news_in history.old (versions scope seen.items ∷ [])) }
    ensures indexed { AreIndexes (pipeline_data pipeline.now) history.new indexes.new }
    ensures refused { IfErr result (IsNotReported history.old scope seen.items) }
    ensures err { OnErr result (history.new ≡ history.old) }
{
    history.rules();
    let mut change = Vec::with_capacity(alloc, 1)?;
    match history.report(alloc, scope, &seen) {
        Ok(reported) => match follow_report(alloc, pipeline, history, indexes, &reported) {
            Ok(()) => {
                versions_ascend(&reported.versions);
                let count = reported.versions.len() as u32;
                change.push_reserved(Edit::Versions(reported));
                Ok((count, change))
            }
            Err(_) => {
                history.take_back(&reported);
                Err(CoreFault::NoMemory)
            }
        },
        Err(HistoryFault::TableFull) => Err(CoreFault::TableFull),
        Err(_) => Err(CoreFault::NoMemory),
    }
}

impl Parts {
    /// A check of a resource found these versions. Where it is refused, nothing changes.
    pub(crate) fn report(
        &mut self,
        alloc: Global,
        resource: &str,
        seen: Vec<Version>,
    ) -> Result<(Reply, Change), CoreFault>
        requires { IsIndexed self.old }
        ensures step { IfOk result (λ r. TakesStep (core_data self.old) (core_data self.new)
            (checked resource.now seen.items) (Ok r.0)) }
        ensures change { IfOk result (λ r. Changes r.1.items self.old.history self.new.history) }
        ensures edits { IfOk result (λ r. HasEdits (core_data self.old) (checked resource.now seen.items) (Ok r.0)
            (change_data r.1.items)) }
        ensures refused { IfErr result (λ f. TakesStep (core_data self.old) (core_data self.old)
            (checked resource.now seen.items) (Err f)) }
        ensures unchanged { OnErr result (core_data self.new ≡ core_data self.old) }
        ensures kept { AllByRecursion IsAscending seen.items }
        ensures budget { self.new.budget ≡ self.old.budget }
        ensures indexed { IsIndexed self.new }
    {
        versions_ascend(&seen);
        let Some(pipeline) = &self.pipeline else {
            return Err(CoreFault::NoPipeline);
        };
        match scope_named(pipeline, resource) {
            Ok(found) => match found {
                Some(scope) => {
                    match append(
                        alloc,
                        pipeline,
                        &mut self.history,
                        &mut self.indexes,
                        scope,
                        seen,
                    ) {
                        Ok((count, change)) => Ok((Reply::New(count), change)),
                        Err(fault) => Err(fault),
                    }
                }
                None => Err(CoreFault::NoResource),
            },
            Err(_) => Err(CoreFault::NoMemory),
        }
    }
}
