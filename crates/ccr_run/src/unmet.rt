//! What to do about a pin that no version meets.
ghost use Rattle.std.specs.Prelude.{◌≡◌, option_map, unwrap_or};
ghost use Rattle.std.specs.Option.{option_copied};
ghost use Rattle.ccr_pipeline.specs.JobData.{resource_data};
ghost use Rattle.ccr_pipeline.specs.Named.{resource_of};
ghost use Rattle.ccr_pipeline.specs.Pipelines.{pipeline_data};
ghost use Rattle.ccr_core.specs.Commands.{command_data};
ghost use Rattle.ccr_core.specs.Cores.{core_data};
ghost use Rattle.ccr_core.specs.State.{no_pipeline};
ghost use Rattle.ccr_run.specs.Unmet.{has_unmet, is_met, is_unmet, pin_lines, unmet_lines};
ghost use Rattle.ccr_run.specs.Writers.{GetsLines};

use crate::errors::Errors;
use ccr_core::{Command, Core};
use ccr_history::{History, Pin, Version};
use ccr_pipeline::{Pipeline, Resource};
use std::io::Write;

/// Whether one of these versions meets a pin.
fn is_met(pin: &Pin, versions: &[Version]) -> bool
    ensures { result ≡ is_met pin.now versions.now }
{
    for version in versions {
        if version.meets(pin) {
            return true;
        }
    }
    false
}

/// Whether there are a resource and a pin, and no version in the history of the resource's scope meets the pin.
fn is_unmet(resource: Option<&Resource>, pin: Option<&Pin>, history: &History) -> bool
    ensures { result ≡ is_unmet (option_map (λ r. resource_data r.now) resource.entry) (option_copied pin.entry)
        history.now }
{
    let Some(resource) = resource else {
        return false;
    };
    let Some(pin) = pin else {
        return false;
    };
    !is_met(pin, history.versions(resource.scope()))
}

/// The resource of a name, if there is a pipeline that has one.
fn resource_in<'p>(pipeline: Option<&'p Pipeline>, name: &str) -> Option<&'p Resource>
    ensures { let p = unwrap_or (option_map pipeline_data (option_copied pipeline.entry)) no_pipeline in
        option_map (λ r. resource_data r.now) result ≡ resource_of name.now p.resources }
{
    match pipeline {
        Some(pipeline) => pipeline.resource(name),
        None => None,
    }
}

/// Whether no version meets the pin by command of the resource of a name, if it has one.
fn has_unmet(core: &Core, name: &str) -> bool
    ensures { result ≡ has_unmet name.now (core_data core.now) }
{
    let history = core.history();
    let resource = resource_in(core.pipeline(), name);
    is_unmet(resource, history.pin(name), history)
}

/// Says what to do about the pin by command of the resource of a name, if it has one that no version meets.
fn tell_pin<E: Write>(errors: &mut Errors<E>, core: &Core, name: &str)
    ensures { GetsLines (pin_lines name.now (core_data core.now)) errors.old errors.new }
{
    if has_unmet(core, name) {
        errors.say(format_args!(
            "hint: {name}: no version of it has this yet: resource-versions {name} shows those that are there; \
             unpin-resource {name} takes it back"
        ));
    }
}

/// Says what to do about the pin that a command has set, if no version meets it yet. The core is as the command left
/// it.
pub fn tell_unmet<E: Write>(errors: &mut Errors<E>, command: &Command, core: &Core)
    ensures { GetsLines (unmet_lines (command_data command.now) (core_data core.now)) errors.old errors.new }
{
    match command {
        Command::PinResource(name, _) => tell_pin(errors, core, name.as_str()),
        _ => {}
    }
}
