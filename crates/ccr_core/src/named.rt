//! Scopes of resources by their names.
ghost use Rattle.std.specs.Prelude.{◌≡◌, option_map, IfOk};
ghost use Rattle.ccr_pipeline.specs.Pipelines.{pipeline_data};
ghost use Rattle.ccr_problem.specs.ProblemOf.{resource_of, scope_of};

use ccr_history::Scope;
use ccr_pipeline::Pipeline;
use std::alloc::AllocError;

/// A copy of the scope of the resource of a name. The only error is out of memory.
pub(crate) fn scope_named(pipeline: &Pipeline, name: &str) -> Result<Option<Scope>, AllocError>
    ensures { IfOk result (λ scope. scope
        ≡ option_map scope_of (resource_of name.now (pipeline_data pipeline.now).resources)) }
{
    match pipeline.resource(name) {
        Some(resource) => Ok(Some(resource.scope().copy()?)),
        None => Ok(None),
    }
}
