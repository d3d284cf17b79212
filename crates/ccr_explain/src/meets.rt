//! Which demands a choice meets.

ghost use Rattle.std.specs.Prelude.{◌≡◌, ◌<◌, length, remove, slice_index, IsTrue, IfSome, Contains, All};
ghost use Rattle.ccr_choice.specs.Problem.{input_at, builds_at};
ghost use Rattle.ccr_choice.specs.Satisfies.{Moved};
ghost use Rattle.ccr_explain.specs.Cut.{build_in};
ghost use Rattle.ccr_explain.specs.Demand.{Meets, CanBeMet};

use crate::demand::Demand;
use crate::indexed::Indexed;
use ccr_choice::Choice;
use ccr_choice::possible::has_place;
use ccr_index::JobRows;

/// Where the build with this number lies.
pub(crate) fn build_of(rows: &JobRows, number: u32) -> Option<usize>
    ensures { IfSome result (λ k. (k < length rows.now.builds) × ((build_in rows.now.builds k).number ≡ number)) }
{
    // Builds stand newest first.
    let mut low = 0;
    let mut high = rows.len();
    while low < high {
        let middle = low + (high - low) / 2;
        if rows.number(middle) > number {
            low = middle + 1;
        } else {
            high = middle;
        }
    }
    if low < rows.len() && rows.number(low) == number {
        Some(low)
    } else {
        None
    }
}

fn has_moved(rows: &JobRows, number: u32, scope: u32, place: u32) -> bool
    ensures { IsTrue result → Moved rows.now.builds number (scope, place) }
{
    match build_of(rows, number) {
        Some(k) => rows.pairs(k).contains(&(scope, place)),
        None => false,
    }
}

fn is_allowed(problem: &Indexed<'_>, choice: &Choice, input: usize) -> bool
    ensures { IsTrue result → Contains (input_at problem.now input).places (slice_index choice.now.places input) }
{
    let Some(x) = problem.inputs().get(input) else {
        return false;
    };
    let Some(place) = choice.places.get(input) else {
        return false;
    };
    has_place(x.places(), *place)
}

/// Whether the place of an input passed a job with the build of it.
pub(crate) fn has_passed(problem: &Indexed<'_>, choice: &Choice, input: usize, job: usize) -> bool
    ensures { IsTrue result → Moved (builds_at problem.now job) (slice_index choice.now.builds job)
        ((input_at problem.now input).scope, slice_index choice.now.places input) }
{
    let Some(x) = problem.inputs().get(input) else {
        return false;
    };
    let Some(place) = choice.places.get(input) else {
        return false;
    };
    let Some(number) = choice.builds.get(job) else {
        return false;
    };
    if job >= problem.job_count() {
        return false;
    }
    has_moved(problem.rows(job), *number, x.scope(), *place)
}

/// Whether a choice meets a demand of a problem.
fn meets(problem: &Indexed<'_>, choice: &Choice, demand: &Demand) -> bool
    ensures { IsTrue result → Meets problem.now choice.now.places choice.now.builds demand.now }
{
    match demand {
        Demand::Allowed(i) => is_allowed(problem, choice, *i),
        Demand::Passed(i, j) => has_passed(problem, choice, *i, *j),
    }
}

/// Whether a choice meets each of these demands of a problem.
pub(crate) fn meets_all(problem: &Indexed<'_>, demands: &[Demand], choice: &Choice) -> bool
    ensures { IsTrue result → CanBeMet problem.now demands.now }
{
    choice.places.len() == problem.inputs().len()
        && choice.builds.len() == problem.job_count()
        && meet_each(problem, demands, choice)
}

fn meet_each(problem: &Indexed<'_>, demands: &[Demand], choice: &Choice) -> bool
    ensures { IsTrue result → All (Meets problem.now choice.now.places choice.now.builds) demands.now }
{
    for demand in demands {
        if !meets(problem, choice, demand) {
            return false;
        }
    }
    true
}

/// The demand that a choice doesn't meet, if it is the only one.
pub(crate) fn only_unmet(
    problem: &Indexed<'_>,
    demands: &[Demand],
    choice: &Choice,
) -> Option<usize>
    ensures within { IfSome result (λ m. m < length demands.now) }
    ensures others { IfSome result (λ m. CanBeMet problem.now (remove demands.now m)) }
{
    let inputs = problem.inputs().len();
    if choice.places.len() != inputs || choice.builds.len() != problem.job_count() {
        return None;
    }
    let mut unmet = None;
    for m in 0..demands.len() {
        if !meets(problem, choice, &demands[m]) {
            match unmet {
                Some(_) => return None,
                None => unmet = Some(m),
            }
        }
    }
    unmet
}
