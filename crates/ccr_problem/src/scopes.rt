//! The numbers that a history has for the scopes of resources.
ghost use Rattle.std.specs.Prelude.{◌≡◌, map, string_bytes, IfOk};
ghost use Rattle.ccr_pipeline.specs.Pipelines.{pipeline_data};
ghost use Rattle.ccr_problem.specs.ProblemOf.{history_number};

use ccr_history::History;
use ccr_pipeline::Pipeline;
use std::alloc::{AllocError, Global};

/// The number that the history has for a resource's scope, or 0.
pub(crate) fn history_number(pipeline: &Pipeline, history: &History, name: &str) -> u32
    ensures { result ≡ history_number (pipeline_data pipeline.now) history.now name.now }
{
    match pipeline.resource(name) {
        Some(resource) => history.scope_number(resource.scope()),
        None => 0,
    }
}

/// The numbers that the history has for the scopes of resources, each or 0.
pub(crate) fn history_numbers(
    alloc: Global,
    pipeline: &Pipeline,
    history: &History,
    names: &[String],
) -> Result<Vec<u32>, AllocError>
    ensures { IfOk result (λ v. v.items
        ≡ map (history_number (pipeline_data pipeline.now) history.now) (map string_bytes names.now)) }
{
    let mut numbers = Vec::new(alloc);
    for name in names {
        numbers.push(history_number(pipeline, history, name.as_str()))?;
    }
    Ok(numbers)
}
