//! The inputs of a job, as its problem has them.
ghost use Rattle.std.specs.Prelude.{◌≡◌, ◌≤◌, [], length, map, string_bytes, IfOk};
ghost use Rattle.std.specs.Option.{option_copied};
ghost use Rattle.ccr_pipeline.specs.Inputs.{input_data, named_jobs};
ghost use Rattle.ccr_pipeline.specs.JobData.{resource_data};
ghost use Rattle.ccr_pipeline.specs.Pipelines.{pipeline_data};
ghost use Rattle.ccr_pipeline.specs.Tree.{wanted_data};
ghost use Rattle.ccr_problem.specs.Numbering.{each_once, number_of};
ghost use Rattle.ccr_problem.specs.ProblemOf.{get_pin, pins_of, input_places, input_after, input_value, takes_every, used_resources};

use crate::allowed::{Pins, allowed_places};
use crate::numbering::Numbering;
use crate::scopes::history_number;
use ccr_choice::Input as ChoiceInput;
use ccr_history::{History, Pin};
use ccr_pipeline::{Input, Pipeline, Resource, Wanted};
use std::alloc::{AllocError, Global};

/// The resources that inputs use, each once, in order of first use.
pub(crate) fn used_resources(alloc: Global, inputs: &[Input]) -> Result<Numbering, AllocError>
    ensures { IfOk result (λ n. n ≡ used_resources (map input_data inputs.now)) }
{
    let mut resources = Numbering::new(alloc);
    for input in inputs {
        resources.add(alloc, input.resource.as_str())?;
    }
    Ok(resources)
}

/// The jobs that inputs name in `passed`, each once, in order of first mention.
pub(crate) fn named_jobs(alloc: Global, inputs: &[Input]) -> Result<Numbering, AllocError>
    ensures { IfOk result (λ n. n ≡ named_jobs [] (map input_data inputs.now)) }
{
    let mut jobs = Numbering::new(alloc);
    for input in inputs {
        jobs.add_all(alloc, &input.passed)?;
    }
    Ok(jobs)
}

/// The pin that a get sets, if it sets one; `every` allows any version.
fn get_pin(wanted: &Wanted) -> Option<&Pin>
    ensures { option_copied result ≡ get_pin (wanted_data wanted.now) }
{
    match wanted {
        Wanted::Latest | Wanted::Every => None,
        Wanted::Pinned(pin) => Some(pin),
    }
}

/// The pins of an input of a resource.
pub(crate) fn pins_of<'p>(
    resource: &'p Resource,
    history: &'p History,
    input: &'p Input,
) -> Pins<'p>
    ensures { result ≡ pins_of (resource_data resource.now) history.now (input_data input.now) }
{
    Pins {
        by_resource: resource.version.as_ref(),
        by_get: get_pin(&input.wanted),
        by_command: history.pin(input.resource.as_str()),
    }
}

/// The allowed places of an input.
fn input_places(
    alloc: Global,
    pipeline: &Pipeline,
    history: &History,
    input: &Input,
) -> Result<Vec<u32>, AllocError>
    ensures { IfOk result (λ v. v.items
        ≡ input_places (pipeline_data pipeline.now) history.now (input_data input.now)) }
{
    let Some(resource) = pipeline.resource(input.resource.as_str()) else {
        return Ok(Vec::new(alloc));
    };
    // A scope has few versions.
    history.rules();
    let pins = pins_of(resource, history, input);
    let scope = history.scope_number(resource.scope());
    allowed_places(
        alloc,
        &pins,
        history,
        scope,
        history.versions(resource.scope()),
    )
}

/// Whether an input takes every version, one after the other (Concourse: get step, `version: every`).
pub(crate) fn takes_every(wanted: &Wanted) -> bool
    ensures { result ≡ takes_every (wanted_data wanted.now) }
{
    match wanted {
        Wanted::Every => true,
        Wanted::Latest | Wanted::Pinned(_) => false,
    }
}

/// The place after which an input of a job prefers others, if there is one.
fn input_after(pipeline: &Pipeline, history: &History, own: &str, input: &Input) -> Option<u32>
    ensures { result ≡ input_after (pipeline_data pipeline.now) history.now own.now (input_data input.now) }
{
    if !takes_every(&input.wanted) {
        return None;
    }
    let scope = history_number(pipeline, history, input.resource.as_str());
    history.newest_used(own, input.name.as_str(), scope)
}

/// The numbers of names.
fn numbers_of(
    alloc: Global,
    numbering: &Numbering,
    names: &[String],
) -> Result<Vec<u32>, AllocError>
    requires { length numbering.now ≤ 32 }
    ensures { IfOk result (λ v. v.items ≡ map (number_of numbering.now) (map string_bytes names.now)) }
{
    let mut numbers = Vec::new(alloc);
    for name in names {
        numbers.push(numbering.number(name.as_str()))?;
    }
    Ok(numbers)
}

/// The numbers of the jobs that an input names, each once.
fn passed_numbers(
    alloc: Global,
    jobs: &Numbering,
    passed: &[String],
) -> Result<Vec<u32>, AllocError>
    requires { length jobs.now ≤ 32 }
    ensures { IfOk result (λ v. v.items
        ≡ map (number_of jobs.now) (each_once (map string_bytes passed.now))) }
{
    let mut once = Numbering::new(alloc);
    once.add_all(alloc, passed)?;
    numbers_of(alloc, jobs, once.names())
}

fn input_value(
    alloc: Global,
    pipeline: &Pipeline,
    history: &History,
    own: &str,
    resources: &Numbering,
    jobs: &Numbering,
    input: &Input,
) -> Result<ChoiceInput, AllocError>
    requires few_resources { length resources.now ≤ 32 }
    requires few_jobs { length jobs.now ≤ 32 }
    ensures { IfOk result (λ v. v ≡ input_value (pipeline_data pipeline.now) history.now
        own.now resources.now jobs.now (input_data input.now)) }
{
    let scope = resources.number(input.resource.as_str());
    let passed = passed_numbers(alloc, jobs, &input.passed)?;
    let places = input_places(alloc, pipeline, history, input)?;
    let after = input_after(pipeline, history, own, input);
    Ok(ChoiceInput::new(scope, passed, after, places))
}

/// The inputs of a job, where these resources and jobs are numbered.
pub(crate) fn input_values(
    alloc: Global,
    pipeline: &Pipeline,
    history: &History,
    own: &str,
    resources: &Numbering,
    jobs: &Numbering,
    inputs: &[Input],
) -> Result<Vec<ChoiceInput>, AllocError>
    requires few_resources { length resources.now ≤ 32 }
    requires few_jobs { length jobs.now ≤ 32 }
    ensures { IfOk result (λ v. v.items ≡ map (input_value (pipeline_data pipeline.now) history.now
        own.now resources.now jobs.now) (map input_data inputs.now)) }
{
    let mut values = Vec::new(alloc);
    for input in inputs {
        values.push(input_value(alloc, pipeline, history, own, resources, jobs, input)?)?;
    }
    Ok(values)
}
