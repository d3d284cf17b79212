//! What a build uses.
ghost use Rattle.std.specs.Prelude.{◌≡◌, [], map, IfOk};
ghost use Rattle.ccr_pipeline.specs.Inputs.{input_data};
ghost use Rattle.ccr_pipeline.specs.Pipelines.{pipeline_data};
ghost use Rattle.ccr_problem.specs.ProblemOf.{history_number};
ghost use Rattle.ccr_core.specs.Choices.{used_at, versions_at};
ghost use Rattle.ccr_core.specs.Seen.{version_at};

use ccr_history::{History, Used, Version};
use ccr_pipeline::{Input, Pipeline};
use serde_json::{Map, Value};
use std::alloc::{AllocError, Global};

/// A place of a resource, used for an input of this name.
fn used_for(
    alloc: Global,
    pipeline: &Pipeline,
    history: &History,
    input: &Input,
    place: u32,
) -> Result<Used, AllocError>
    ensures { IfOk result (λ u. u ≡ record {
      input = (input_data input.now).name;
      scope = history_number (pipeline_data pipeline.now) history.now (input_data input.now).resource;
      place = place;
    }) }
{
    let scope = match pipeline.resource(input.resource.as_str()) {
        Some(resource) => history.scope_number(resource.scope()),
        None => 0,
    };
    Ok(Used {
        input: String::from_str(alloc, input.name.as_str())?,
        scope,
        place,
    })
}

/// The places chosen for inputs, with their scopes.
pub(crate) fn used_at(
    alloc: Global,
    pipeline: &Pipeline,
    history: &History,
    inputs: &[Input],
    places: &[u32],
) -> Result<Vec<Used>, AllocError>
    ensures { IfOk result (λ v. v.items
        ≡ used_at (pipeline_data pipeline.now) history.now (map input_data inputs.now) places.now) }
{
    let mut used = Vec::new(alloc);
    for (input, place) in inputs.iter().zip(places) {
        used.push(used_for(alloc, pipeline, history, input, *place)?)?;
    }
    Ok(used)
}

/// The version without fields.
fn without_fields(alloc: Global) -> Result<Version, AllocError>
    ensures { IfOk result (λ v. v ≡ []) }
{
    match Version::from_value(alloc, &Value::Object(Map::new(alloc))) {
        Ok(version) => Ok(version),
        Err(_) => Err(AllocError),
    }
}

/// The version at a place of a resource; the one without fields where there is no such place.
fn version_at(
    alloc: Global,
    pipeline: &Pipeline,
    history: &History,
    resource: &str,
    place: u32,
) -> Result<Version, AllocError>
    ensures { IfOk result (λ v. v ≡ version_at (pipeline_data pipeline.now) history.now resource.now place) }
{
    let Some(found) = pipeline.resource(resource) else {
        return without_fields(alloc);
    };
    let versions = history.versions(found.scope());
    match versions.get(place.saturating_sub(1) as usize) {
        Some(version) => version.copy(),
        None => without_fields(alloc),
    }
}

/// The versions chosen for inputs.
pub(crate) fn versions_at(
    alloc: Global,
    pipeline: &Pipeline,
    history: &History,
    inputs: &[Input],
    places: &[u32],
) -> Result<Vec<Version>, AllocError>
    ensures { IfOk result (λ v. v.items
        ≡ versions_at (pipeline_data pipeline.now) history.now (map input_data inputs.now) places.now) }
{
    let mut versions = Vec::new(alloc);
    for (input, place) in inputs.iter().zip(places) {
        let resource = input.resource.as_str();
        versions.push(version_at(alloc, pipeline, history, resource, *place)?)?;
    }
    Ok(versions)
}
