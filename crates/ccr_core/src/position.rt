//! Where builds stand in a history.
ghost use Rattle.std.specs.Prelude.{◌≡◌, slice_get};
ghost use Rattle.ccr_core.specs.Positions.{IsMadeAt};

use ccr_history::History;

/// The number at a place, counted from 0; None past the end.
fn number_at(numbers: &[u32], place: usize) -> Option<u32>
    ensures { result ≡ slice_get numbers.now place }
{
    numbers.get(place).copied()
}

/// Where the job's build of this number stands among all builds of the history, counted from 0 in order of making; None
/// where there is no such build.
pub(crate) fn position_of(history: &History, job: &str, number: u32) -> Option<u32>
    ensures { IsMadeAt history.now.builds job.now number result }
{
    history.rules();
    if number == 0 {
        return None;
    }
    match number_at(history.builds_of(job), number as usize - 1) {
        Some(position) => Some(position),
        None => None,
    }
}
