//! What a build took for the inputs that its job has today.
ghost use Rattle.std.specs.Prelude.{◌≡◌, ◌&&◌, ◌==◌, map, find, is_some, option_map, false, Some, IfOk, MatchOption};
ghost use Rattle.std.specs.List.{list_all};
ghost use Rattle.std.specs.Str.{bytes_eq};
ghost use Rattle.ccr_pipeline.specs.Inputs.{input_data};
ghost use Rattle.ccr_pipeline.specs.Pipelines.{pipeline_data};
ghost use Rattle.ccr_problem.specs.ProblemOf.{history_number};
ghost use Rattle.ccr_lines.specs.BuildCertificates.{is_taken, place_for, has_input};

use crate::release::used_at;
use ccr_history::{BuildRef, History};
use ccr_pipeline::{Input, Pipeline};
use std::alloc::{AllocError, Global};

/// The number that the history has for the scope of the resource of this name; 0 where it has none.
pub fn history_number(pipeline: &Pipeline, history: &History, name: &str) -> u32
    ensures { result ≡ history_number (pipeline_data pipeline.now) history.now name.now }
{
    match pipeline.resource(name) {
        Some(resource) => history.scope_number(resource.scope()),
        None => 0,
    }
}

/// Whether what a build took for the input of the second name, in the second scope, is for the input of the first name in
/// the first scope.
fn is_taken(input: &str, scope: u32, name: &str, at: u32) -> bool
    ensures { result ≡ (bytes_eq input.now name.now && scope == at) }
{
    input == name && scope == at
}

/// The place that a build took for the input of this name, in the scope of this number, if it took one there.
fn place_in(build: &BuildRef<'_>, input: &str, scope: u32) -> Option<u32>
    ensures { result ≡ option_map (λ u. u.place) (find (is_taken input.now scope) build.now.used) }
{
    for k in 0..build.used_count() {
        let (name, at, place) = used_at(build, k);
        if is_taken(input, scope, name, at) {
            return Some(place);
        }
    }
    None
}

/// The place that a build took for an input, in the scope that the input's resource has today, if it took one there.
pub(crate) fn place_for(
    pipeline: &Pipeline,
    history: &History,
    build: &BuildRef<'_>,
    input: &Input,
) -> Option<u32>
    ensures { result ≡ place_for (pipeline_data pipeline.now) history.now build.now.used (input_data input.now) }
{
    let scope = history_number(pipeline, history, input.resource.as_str());
    place_in(build, input.name.as_str(), scope)
}

/// The place that a build took for each of these inputs; None where it took none for one of them.
pub(crate) fn places_taken(
    alloc: Global,
    pipeline: &Pipeline,
    history: &History,
    build: &BuildRef<'_>,
    inputs: &[Input],
) -> Result<Option<Vec<u32>>, AllocError>
    ensures { let taken = place_for (pipeline_data pipeline.now) history.now build.now.used in
        let all = map input_data inputs.now in
        IfOk result (λ found. MatchOption found (list_all (λ i. is_some (taken i)) all ≡ false)
        (λ places. map Some places.items ≡ map taken all)) }
{
    let mut places = Vec::new(alloc);
    for input in inputs {
        match place_for(pipeline, history, build, input) {
            Some(place) => places.push(place)?,
            None => return Ok(None),
        }
    }
    Ok(Some(places))
}

/// Whether one of these inputs has this name.
fn has_input(inputs: &[Input], name: &str) -> bool
    ensures { result ≡ has_input (map input_data inputs.now) name.now }
{
    for input in inputs {
        if name == input.name.as_str() {
            return true;
        }
    }
    false
}

/// Whether a build took places for these inputs alone.
pub(crate) fn took_no_other(build: &BuildRef<'_>, inputs: &[Input]) -> bool
    ensures { result ≡ list_all (λ u. has_input (map input_data inputs.now) u.input) build.now.used }
{
    for k in 0..build.used_count() {
        let (name, _scope, _place) = used_at(build, k);
        if !has_input(inputs, name) {
            return false;
        }
    }
    true
}
