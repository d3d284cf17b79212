//! Where versions of the pipeline's resources stand.
ghost use Rattle.std.specs.Prelude.{◌≡◌, map, IfOk};
ghost use Rattle.ccr_pipeline.specs.Pipelines.{pipeline_data};
ghost use Rattle.ccr_steps.specs.Gains.{moved_data};
ghost use Rattle.ccr_core.specs.Seen.{pair_of, pairs_of};

use ccr_history::History;
use ccr_pipeline::Pipeline;
use ccr_steps::Moved;
use std::alloc::{AllocError, Global};

/// The number of a moved version's scope, and its place there; 0 for what isn't there.
fn pair_of(pipeline: &Pipeline, history: &History, moved: &Moved) -> (u32, u32)
    ensures { result ≡ pair_of (pipeline_data pipeline.now) history.now (moved_data moved.now) }
{
    match pipeline.resource(moved.resource.as_str()) {
        Some(resource) => {
            let scope = resource.scope();
            (
                history.scope_number(scope),
                history.place_of(scope, &moved.version),
            )
        }
        None => (0, 0),
    }
}

/// Where moved versions stand.
pub(crate) fn places_of(
    alloc: Global,
    pipeline: &Pipeline,
    history: &History,
    moved: &[Moved],
) -> Result<Vec<(u32, u32)>, AllocError>
    ensures { IfOk result (λ v. v.items
        ≡ pairs_of (pipeline_data pipeline.now) history.now (map moved_data moved.now)) }
{
    let mut places = Vec::new(alloc);
    for one in moved {
        places.push(pair_of(pipeline, history, one))?;
    }
    Ok(places)
}
