//! What a core begins with.
ghost use Rattle.std.specs.Prelude.{◌≡◌, ◌≤◌, ◌+◌, ◌++◌, drop, map, option_map, IfOk, IfErr, OnOk};
ghost use Rattle.std.specs.Option.{IfSome};
ghost use Rattle.ccr_pipeline.specs.Pipelines.{pipeline_data};
ghost use Rattle.ccr_history.specs.Edits.{edit_data, HaveTheirNumbers};
ghost use Rattle.ccr_proof.specs.declared.proof.TheConstants.{MOST_NODES};
ghost use Rattle.ccr_core.specs.Cores.{core_data};
ghost use Rattle.ccr_core.specs.Going.{Changes};
ghost use Rattle.ccr_core.specs.Indexed.{IsIndexed};
ghost use Rattle.ccr_core.specs.Holding.{name_data, IsCore};
ghost use Rattle.ccr_core.specs.Resumed.{running_in, resumed, IsReadable, IsPipelineIn, IsResumed, IsOver};
ghost use Rattle.ccr_core.specs.declared.fault.CoreFault.TheVariants.{NoMemory};

use crate::fault::CoreFault;
use crate::indexed::indexes_of;
use crate::parts::Parts;
use crate::restarted::{cut_all, cuts};
use ccr_history::{Change, History, Status};
use ccr_pipeline::{Pipeline, ReadFault, read};
use std::alloc::{AllocError, Global};

/// The pipeline of a history's text, if it has one.
fn pipeline_in(alloc: Global, history: &History) -> Result<Option<Pipeline>, CoreFault>
    requires { IfSome history.now.text IsReadable }
    ensures ok { IfOk result (λ p. IsPipelineIn history.now.text (option_map pipeline_data p)) }
    ensures only { IfErr result (λ fault. fault ≡ NoMemory) }
{
    let Some(text) = history.text() else {
        return Ok(None);
    };
    match read(alloc, text) {
        Ok(pipeline) => Ok(Some(pipeline)),
        Err(ReadFault::NoMemory) => Err(CoreFault::NoMemory),
        // The text is one that is read.
        Err(_) => unreachable!(),
    }
}

/// Takes the name of the build at a position, if it runs.
fn add_running(
    alloc: Global,
    names: &mut Vec<(String, u32)>,
    history: &History,
    position: usize,
) -> Result<(), AllocError>
    ensures { OnOk result (map name_data names.new.items ++ running_in (drop (position + 1) history.now.builds)
        ≡ map name_data names.old.items ++ running_in (drop position history.now.builds)) }
{
    match history.build_at(position) {
        Some(build) => match build.status() {
            Status::Running => {
                let job = String::from_str(alloc, build.job())?;
                names.push((job, build.number()))?;
                Ok(())
            }
            _ => Ok(()),
        },
        None => Ok(()),
    }
}

/// The names of the builds that run in a history, in order of making.
fn running_in(alloc: Global, history: &History) -> Result<Vec<(String, u32)>, AllocError>
    ensures { IfOk result (λ names. map name_data names.items ≡ running_in history.now.builds) }
{
    let mut names = Vec::new(alloc);
    for position in 0..history.build_count() {
        add_running(alloc, &mut names, history, position)?;
    }
    Ok(names)
}

/// The names of the builds that run in a history, and the change that cuts them short.
fn cuts_in(alloc: Global, history: &History) -> Result<(Vec<(String, u32)>, Change), AllocError>
    ensures names { IfOk result (λ r. map name_data r.0.items ≡ running_in history.now.builds) }
    ensures change { IfOk result (λ r. map edit_data r.1.items ≡ resumed history.now) }
    ensures numbered { IfOk result (λ r. HaveTheirNumbers history.now r.1.items) }
{
    let names = running_in(alloc, history)?;
    let change = cuts(alloc, history, &names)?;
    Ok((names, change))
}

/// Cuts the builds short that run in a history, and gives the change that this is. Where it is refused, nothing changes.
fn cut_running(alloc: Global, history: &mut History) -> Result<Change, AllocError>
    ensures is { IfOk result (λ change. map edit_data change.items ≡ resumed history.old) }
    ensures change { IfOk result (λ change. Changes change.items history.old history.new) }
{
    let (names, change) = cuts_in(alloc, history)?;
    history.rules();
    cut_all(alloc, history, &names);
    Ok(change)
}

/// Cuts the builds short that run in a history, and gives the pipeline of its text, with the change.
fn pipeline_and_change(
    alloc: Global,
    history: &mut History,
) -> Result<(Option<Pipeline>, Change), CoreFault>
    requires { IfSome history.old.text IsReadable }
    ensures pipeline { IfOk result (λ r. IsPipelineIn history.old.text (option_map pipeline_data r.0)) }
    ensures is { IfOk result (λ r. map edit_data r.1.items ≡ resumed history.old) }
    ensures change { IfOk result (λ r. Changes r.1.items history.old history.new) }
    ensures only { IfErr result (λ fault. fault ≡ NoMemory) }
{
    let pipeline = pipeline_in(alloc, history)?;
    match cut_running(alloc, history) {
        Ok(change) => Ok((pipeline, change)),
        Err(_) => Err(CoreFault::NoMemory),
    }
}

/// The parts of a core that begins with a history, and what changed of the history.
pub(crate) fn begin(
    alloc: Global,
    history: History,
    budget: u32,
) -> Result<(Parts, Change), CoreFault>
    requires least { 1 ≤ budget }
    requires most { budget ≤ MOST_NODES }
    requires readable { IfSome history.text IsReadable }
    ensures begun { IfOk result (λ r. IsResumed history budget (core_data r.0)) }
    ensures core { IfOk result (λ r. IsCore (core_data r.0)) }
    ensures indexed { IfOk result (λ r. IsIndexed r.0) }
    ensures is { IfOk result (λ r. map edit_data r.1.items ≡ resumed history) }
    ensures change { IfOk result (λ r. Changes r.1.items history r.0.history) }
    ensures only { IfErr result (λ fault. fault ≡ NoMemory) }
{
    let mut history = history;
    match pipeline_and_change(alloc, &mut history) {
        Ok((pipeline, change)) => {
            history.rules();
            match indexes_of(alloc, &pipeline, &history) {
                Ok(indexes) => {
                    let parts = Parts {
                        history,
                        pipeline,
                        budget,
                        names: Vec::new(alloc),
                        runs: Vec::new(alloc),
                        indexes,
                    };
                    Ok((parts, change))
                }
                Err(_) => Err(CoreFault::NoMemory),
            }
        }
        Err(fault) => Err(fault),
    }
}

/// The parts of a core over a history as it stands: what runs in it stays so, and takes no events.
pub(crate) fn over(alloc: Global, history: History, budget: u32) -> Result<Parts, CoreFault>
    requires least { 1 ≤ budget }
    requires most { budget ≤ MOST_NODES }
    requires readable { IfSome history.text IsReadable }
    ensures over { IfOk result (λ parts. IsOver history budget (core_data parts)) }
    ensures core { IfOk result (λ parts. IsCore (core_data parts)) }
    ensures indexed { IfOk result IsIndexed }
    ensures only { IfErr result (λ fault. fault ≡ NoMemory) }
{
    let pipeline = match pipeline_in(alloc, &history) {
        Ok(pipeline) => pipeline,
        Err(fault) => return Err(fault),
    };
    history.rules();
    match indexes_of(alloc, &pipeline, &history) {
        Ok(indexes) => Ok(Parts {
            history,
            pipeline,
            budget,
            names: Vec::new(alloc),
            runs: Vec::new(alloc),
            indexes,
        }),
        Err(_) => Err(CoreFault::NoMemory),
    }
}
