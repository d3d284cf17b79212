//! What an answer to a push reports.
ghost use Rattle.std.specs.Prelude.{◌≡◌, ◌∷◌, [], ◌⊎◌, IfOk, IfErr, OnOk, OnErr};
ghost use Rattle.ccr_history.specs.Changes.{changed};
ghost use Rattle.ccr_history.specs.Edits.{change_data};
ghost use Rattle.ccr_history.specs.History.{HistoryData, IsHistory};
ghost use Rattle.ccr_pipeline.specs.Pipelines.{pipeline_data};
ghost use Rattle.ccr_steps.specs.Asks.{ask_data, answer_data};
ghost use Rattle.ccr_core.specs.declared.fault.CoreFault.TheVariants.{TableFull, NoMemory};
ghost use Rattle.ccr_core.specs.Edits.{news_in};
ghost use Rattle.ccr_core.specs.Kept.{IsAnswer};
ghost use Rattle.ccr_core.specs.Seen.{report, report_by};
ghost use Rattle.ccr_core.specs.Endings.{reports, report_edits, IsOver};
ghost use Rattle.ccr_core.specs.Going.{Changes};

use crate::fault::CoreFault;
use crate::named::scope_named;
use crate::reported::versions_ascend;
use ccr_history::{History, HistoryFault, Reported, Scope, Version};
use ccr_pipeline::Pipeline;
use ccr_steps::{Answered, Ask};
use std::alloc::{AllocError, Global};

/// Versions that were seen of a scope.
#[derive(Drop)]
pub(crate) struct Report {
    pub(crate) scope: Scope,
    pub(crate) versions: Vec<Version>,
}

/// What every answer keeps: a version that it brings has its keys in order. Nothing runs.
pub(crate) fn rules_of(answer: &Answered)
    ensures { IsAnswer (answer_data answer.now) }
{
    if let Answered::Pushed(version) = answer {
        version.rules();
    }
}

/// A report of one version of a resource, if the pipeline has the resource.
fn report_of(
    alloc: Global,
    pipeline: &Pipeline,
    resource: &str,
    version: &Version,
) -> Result<Option<Report>, AllocError>
    ensures { IfOk result (λ r. reports r ≡ report (pipeline_data pipeline.now) resource.now (version.now ∷ [])) }
{
    match scope_named(pipeline, resource)? {
        Some(scope) => {
            let mut versions = Vec::new(alloc);
            versions.push(version.copy()?)?;
            Ok(Some(Report { scope, versions }))
        }
        None => Ok(None),
    }
}

/// What an answer to an ask reports: a pushed version.
pub(crate) fn report_by(
    alloc: Global,
    pipeline: &Pipeline,
    ask: &Ask<'_>,
    answer: &Answered,
) -> Result<Option<Report>, AllocError>
    ensures { IfOk result (λ r. reports r
        ≡ report_by (pipeline_data pipeline.now) (ask_data ask.now) (answer_data answer.now)) }
{
    let Ask::Push { resource, .. } = ask else {
        return Ok(None);
    };
    let Answered::Pushed(version) = answer else {
        return Ok(None);
    };
    report_of(alloc, pipeline, resource, version)
}

/// Appends what was reported, and gives those versions that are new. Where it is refused, nothing changes.
pub(crate) fn append(
    alloc: Global,
    history: &mut History,
    report: Option<Report>,
) -> Result<Option<Reported>, CoreFault>
    ensures ok { OnOk result (history.new ≡ changed (reports report) history.old) }
    ensures change { IfOk result (λ r. Changes (report_edits r) history.old history.new) }
    ensures edits { IfOk result (λ r. change_data (report_edits r) ≡ news_in history.old (reports report)) }
    ensures fits { OnOk result (IsOver report history.old → ⊥) }
    ensures err { OnErr result (history.new ≡ history.old) }
    ensures refused { IfErr result (λ f. (f ≡ NoMemory) ⊎ ((f ≡ TableFull) × IsOver report history.old)) }
{
    let Some(report) = report else {
        return Ok(None);
    };
    match history.report(alloc, report.scope, &report.versions) {
        Ok(reported) => {
            versions_ascend(&reported.versions);
            Ok(Some(reported))
        }
        Err(HistoryFault::TableFull) => Err(CoreFault::TableFull),
        Err(_) => Err(CoreFault::NoMemory),
    }
}

/// Takes back what was appended last. It takes no memory.
pub(crate) fn take_back(history: &mut History, reported: &Option<Reported>)
    requires { (before : HistoryData) × IsHistory before × Changes (report_edits reported.now) before history.old }
    ensures { (before : HistoryData) → IsHistory before → Changes (report_edits reported.now) before history.old
        → history.new ≡ before }
{
    if let Some(reported) = reported {
        history.take_back(reported);
    }
}
