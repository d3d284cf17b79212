//! A pin because of which an input has no version at all.
ghost use Rattle.std.specs.Prelude.{◌≡◌, map, option_map};
ghost use Rattle.std.specs.Option.{option_copied};
ghost use Rattle.std.specs.List.{list_any};
ghost use Rattle.ccr_history.specs.TextMap.{meets};
ghost use Rattle.ccr_pipeline.specs.Inputs.{input_data};
ghost use Rattle.ccr_pipeline.specs.JobData.{resource_data};
ghost use Rattle.ccr_pipeline.specs.Pipelines.{pipeline_data};
ghost use Rattle.ccr_pipeline.specs.Tree.{wanted_data};
ghost use Rattle.ccr_problem.specs.ProblemOf.{get_pin};
ghost use Rattle.ccr_lines.specs.UnmetPins.{unmet_by, unmet_at, unmet_pin, input_in, lacking, pinned_out};

use ccr_explain::Demand;
use ccr_history::{History, Pin, Version};
use ccr_pipeline::{Input, Pipeline, Resource, Wanted};

/// Whether one of these versions meets a pin.
fn is_met(versions: &[Version], pin: &Pin) -> bool
    ensures { result ≡ list_any (λ v. meets v pin.now) versions.now }
{
    for version in versions {
        if version.meets(pin) {
            return true;
        }
    }
    false
}

/// A pin, if there is one, that none of these versions meets.
fn unmet_by<'p>(versions: &[Version], pin: Option<&'p Pin>) -> Option<&'p Pin>
    ensures { option_copied result ≡ unmet_by versions.now (option_copied pin.entry) }
{
    match pin {
        Some(pin) => {
            if is_met(versions, pin) {
                None
            } else {
                Some(pin)
            }
        }
        None => None,
    }
}

/// The pin that a get sets, if it sets one.
fn get_pin(wanted: &Wanted) -> Option<&Pin>
    ensures { option_copied result ≡ get_pin (wanted_data wanted.now) }
{
    match wanted {
        Wanted::Latest | Wanted::Every => None,
        Wanted::Pinned(pin) => Some(pin),
    }
}

/// A pin of an input of this resource that no version of its scope meets.
fn unmet_at<'p>(history: &'p History, input: &'p Input, resource: &'p Resource) -> Option<&'p Pin>
    ensures { option_copied result ≡ unmet_at history.now (input_data input.now) (resource_data resource.now) }
{
    let versions = history.versions(resource.scope());
    match unmet_by(versions, history.pin(input.resource.as_str())) {
        Some(pin) => return Some(pin),
        None => {}
    }
    match unmet_by(versions, resource.version.as_ref()) {
        Some(pin) => Some(pin),
        None => unmet_by(versions, get_pin(&input.wanted)),
    }
}

/// A pin of an input that no version meets.
fn unmet_pin<'p>(pipeline: &'p Pipeline, history: &'p History, input: &'p Input) -> Option<&'p Pin>
    ensures { option_copied result ≡ unmet_pin (pipeline_data pipeline.now) history.now (input_data input.now) }
{
    match pipeline.resource(input.resource.as_str()) {
        Some(resource) => unmet_at(history, input, resource),
        None => None,
    }
}

/// The input whose allowed places a demand speaks of.
fn input_in(demand: &Demand) -> Option<usize>
    ensures { result ≡ input_in demand.now }
{
    match demand {
        Demand::Allowed(input) => Some(*input),
        Demand::Passed(_, _) => None,
    }
}

/// The input that has no allowed place, where demands say so.
fn lacking(demands: &[Demand]) -> Option<usize>
    ensures { result ≡ lacking demands.now }
{
    if demands.len() == 1 {
        input_in(&demands[0])
    } else {
        None
    }
}

/// The name of that input, of these, and a pin of it that no version meets.
pub(crate) fn pinned_out<'p>(
    pipeline: &'p Pipeline,
    history: &'p History,
    inputs: &'p [Input],
    demands: &[Demand],
) -> Option<(&'p str, &'p Pin)>
    ensures { option_map (λ found. (found.0.now, found.1.now)) result
        ≡ pinned_out (pipeline_data pipeline.now) history.now (map input_data inputs.now) demands.now }
{
    let input = inputs.get(lacking(demands)?)?;
    let pin = unmet_pin(pipeline, history, input)?;
    Some((input.name.as_str(), pin))
}
