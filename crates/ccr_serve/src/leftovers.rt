//! The directories that a build leaves.
ghost use Rattle.std.specs.Prelude.{IfOk};
ghost use Rattle.ccr_task.specs.Places.{places_data};
ghost use Rattle.ccr_serve.specs.Aborts.{AreLeftovers};

use ccr_task::Places;
use std::alloc::{AllocError, Global};

/// The directories that a build may leave: its own, and the one that asks for its abort.
#[derive(Drop)]
pub(crate) struct Leftovers {
    pub(crate) build: String,
    pub(crate) request: String,
}

/// The directories that a job's build of this number may leave.
pub(crate) fn leftovers_of(
    alloc: Global,
    places: &Places,
    job: &str,
    number: u32,
) -> Result<Leftovers, AllocError>
    ensures { IfOk result (λ left. AreLeftovers (places_data places.now) job.now number left) }
{
    let build = places.build_folder(alloc, job, number)?;
    let request = places.abort_folder(alloc, job, number)?;
    Ok(Leftovers { build, request })
}
