//! What to do about resource types whose directory isn't there.
ghost use Rattle.std.specs.Prelude.{◌≡◌, drop, map, string_bytes, IfOk, OnErr, OnOk};
ghost use Rattle.ccr_pipeline.specs.JobData.{resource_data};
ghost use Rattle.ccr_task.specs.Places.{below};
ghost use Rattle.ccr_core.specs.Commands.{command_data};
ghost use Rattle.ccr_core.specs.Cores.{core_data};
ghost use Rattle.ccr_run.specs.Lacking.{answer_lines, resources_set, TellsLacking, TellsType};
ghost use Rattle.ccr_run.specs.Writers.{GetsLines};

use crate::errors::Errors;
use ccr_core::{Command, Core};
use ccr_pipeline::Resource;
use ccr_task::{Shelf, ShelfFault};
use std::alloc::{AllocError, Global};
use std::io::Write;

/// The directory of a type.
fn type_folder(alloc: Global, types: &str, kind: &str) -> Result<String, AllocError>
    ensures { IfOk result (λ path. string_bytes path ≡ below types.now kind.now) }
{
    format!(in alloc; "{types}/{kind}")
}

/// Says what to do about the type of the resource at a position, if the answer is that its directory isn't there.
fn tell_answer<E: Write>(
    errors: &mut Errors<E>,
    at: usize,
    folder: &str,
    answer: Result<bool, ShelfFault>,
)
    ensures { GetsLines (answer_lines at folder.now answer) errors.old errors.new }
{
    if let Ok(false) = answer {
        errors.say(format_args!(
            "hint: resources[{at}].type: there is no directory {folder}, where check, in and out of this type belong: \
             is --types right?"
        ));
    }
}

/// Looks for the directory of the type of the resource at a position, and says what to do if it isn't there.
fn tell_type<F: Shelf, E: Write>(
    alloc: Global,
    errors: &mut Errors<E>,
    shelf: &mut F,
    types: &str,
    resource: &Resource,
    at: usize,
) -> Result<(), AllocError>
    ensures told { OnOk result (TellsType types.now at (resource_data resource.now)
        (F.calls shelf.old) (F.calls shelf.new) errors.old errors.new) }
    ensures unasked { OnErr result (F.calls shelf.new ≡ F.calls shelf.old) }
    ensures untold { OnErr result (errors.new ≡ errors.old) }
{
    let folder = type_folder(alloc, types, resource.kind.as_str())?;
    let answer = shelf.has_folder(folder.as_str());
    tell_answer(errors, at, folder.as_str(), answer);
    Ok(())
}

/// The same for each resource from a position on.
fn tell_from<F: Shelf, E: Write>(
    alloc: Global,
    errors: &mut Errors<E>,
    shelf: &mut F,
    types: &str,
    resources: &[Resource],
    at: usize,
) -> Result<(), AllocError>
    ensures { TellsLacking types.now at (drop at (map resource_data resources.now)) result
        (F.calls shelf.old) (F.calls shelf.new) errors.old errors.new }
{
    if at >= resources.len() {
        return Ok(());
    }
    tell_type(alloc, errors, shelf, types, &resources[at], at)?;
    tell_from(alloc, errors, shelf, types, resources, at + 1)
}

/// The resources of the pipeline, if the command has set one.
fn resources_set<'c>(command: &Command, core: &'c Core) -> &'c [Resource]
    ensures { map resource_data result.now ≡ resources_set (command_data command.now) (core_data core.now) }
{
    match command {
        Command::SetPipeline(_) => match core.pipeline() {
            Some(pipeline) => pipeline.resources(),
            None => &[],
        },
        _ => &[],
    }
}

/// Looks for the directories of the types of the pipeline that a command has set, in the directory of types, and says
/// what to do about each that isn't there. The core is as the command left it. The only error is out of memory.
pub fn tell_lacking<F: Shelf, E: Write>(
    alloc: Global,
    errors: &mut Errors<E>,
    shelf: &mut F,
    types: &str,
    command: &Command,
    core: &Core,
) -> Result<(), AllocError>
    ensures { TellsLacking types.now 0 (resources_set (command_data command.now) (core_data core.now)) result
        (F.calls shelf.old) (F.calls shelf.new) errors.old errors.new }
{
    tell_from(alloc, errors, shelf, types, resources_set(command, core), 0)
}
