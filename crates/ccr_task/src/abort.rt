//! How it is asked that a build be aborted.
ghost use Rattle.std.specs.Prelude.{[], ◌∷◌};
ghost use Rattle.ccr_task.specs.Calls.{making, Does};
ghost use Rattle.ccr_task.specs.Places.{places_data, abort_folder};

use crate::fault::ShelfFault;
use crate::places::Places;
use crate::shelf::Shelf;
use std::alloc::Global;

/// Asks that a job's build of this number be aborted: makes the folder `WORK/JOB/abort-NUMBER`, which the server looks for
/// at each turn of the build. Where it is there already, the build is asked to be aborted already, and nothing changes.
///
/// `Failed` where the folder can't be made; `NoMemory`; never `TooLong`.
pub fn ask_abort<S: Shelf>(
    alloc: Global,
    shelf: &mut S,
    places: &Places,
    job: &str,
    number: u32,
) -> Result<(), ShelfFault>
    ensures { Does (making (abort_folder (places_data places.now) job.now number) ∷ [])
        (S.calls shelf.old) result (S.calls shelf.new) }
{
    let Ok(path) = places.abort_folder(alloc, job, number) else {
        return Err(ShelfFault::NoMemory);
    };
    shelf.make_folder(path.as_str())
}
