//! The best places of the inputs while some builds are fixed. They are handed down, and none is looked for twice.

ghost use Rattle.std.specs.Prelude.{◌≡◌, ◌<◌, ◌≤◌, ◌↔◌, ℕ, length, take, IsTrue, MatchOption, Contains};
ghost use Rattle.ccr_choice.specs.Problem.{BuildValue, IsProblem, input_at};
ghost use Rattle.ccr_choice.specs.Preference.{order_of, IsBetter};
ghost use Rattle.ccr_choice.specs.Assignment.{Assignment, nothing_fixed, with_build};
ghost use Rattle.ccr_choice.specs.Possible.{IsBestPlace};
ghost use Rattle.ccr_choice.specs.Table.{assigned};
ghost use Rattle.ccr_proof.specs.Refutes.{HasNoPlace, IsBounded};
ghost use Rattle.ccr_resolve.specs.Search.{AreUpper, places_of};

use ccr_choice::possible::Fixed;
use ccr_choice::{Choice, MOST_INPUTS, is_preferred};
use ccr_index::Index;

/// For each input its best place, 0 where it has none.
pub(crate) type BestPlaces = [u32; MOST_INPUTS as usize];

/// The best places where nothing is fixed.
pub(crate) fn tops(index: &Index) -> BestPlaces
    ensures { AreUpper index.now.problem nothing_fixed result }
{
    let mut upper = [0; MOST_INPUTS as usize];
    for i in 0..index.input_count() {
        upper[i] = index.top(i);
    }
    upper
}

/// Whether input `input` names job `job`.
pub(crate) fn names(index: &Index, input: usize, job: usize) -> bool
    requires { input < length index.now.problem.inputs }
    ensures { IsTrue result ↔ Contains (input_at index.now.problem input).jobs job }
{
    index.input(input).jobs().iter().any(|j| *j as usize == job)
}

/// The best place of input `input` once a build of job `job` is fixed as well.
fn lowered_place(index: &Index, upper: &BestPlaces, fixed: &Fixed, job: usize, input: usize) -> u32
    requires input { input < length index.now.problem.inputs }
    requires few { input < MOST_INPUTS }
    ensures { let p = index.now.problem in (a : Assignment) (b : BuildValue) → AreUpper p a upper.now
        → assigned p fixed.now ≡ with_build a job b → IsBestPlace (order_of p) p (assigned p fixed.now) input result }
{
    if names(index, input, job) {
        index.greatest_at(input, fixed)
    } else {
        upper[input]
    }
}

/// The best places once a build of job `job` is fixed as well.
pub(crate) fn lowered(index: &Index, upper: &BestPlaces, fixed: &Fixed, job: usize) -> BestPlaces
    ensures { let p = index.now.problem in (a : Assignment) (b : BuildValue) → AreUpper p a upper.now
        → assigned p fixed.now ≡ with_build a job b → AreUpper p (assigned p fixed.now) result }
{
    let mut inner = [0; MOST_INPUTS as usize];
    for i in 0..index.input_count() {
        inner[i] = lowered_place(index, upper, fixed, job, i);
    }
    inner
}

/// The first input without a possible place.
pub(crate) fn first_empty(index: &Index, upper: &BestPlaces) -> Option<u32>
    ensures rules { IsProblem index.now.problem }
    ensures found { (a : Assignment) → AreUpper index.now.problem a upper.now → MatchOption result
        ((i : ℕ) → ¬ HasNoPlace index.now.problem a i)
        (HasNoPlace index.now.problem a) }
{
    let count = index.input_count() as u32;
    for i in 0..count {
        if upper[i as usize] == 0 {
            return Some(i);
        }
    }
    None
}

/// Whether the first place is preferred to the second at input `input`.
fn prefers(index: &Index, input: usize, place: u32, other: u32) -> bool
    requires { input < length index.now.problem.inputs }
    ensures { result ≡ order_of index.now.problem input place other }
{
    is_preferred(index.input(input).after(), place, other)
}

/// Whether the best places are better than these: at the first input where they differ, as far as there are such, the place is
/// preferred.
pub(crate) fn is_better(index: &Index, upper: &BestPlaces, places: &[u32]) -> bool
    ensures value { let p = index.now.problem in IsTrue result
        ↔ IsBetter (order_of p) (take (length p.inputs) upper.now) places.now }
    ensures few { length index.now.problem.inputs ≤ MOST_INPUTS }
{
    let both = index.input_count().min(places.len());
    for i in 0..both {
        if upper[i] != places[i] {
            return prefers(index, i, upper[i], places[i]);
        }
    }
    false
}

/// Whether the best places are no better than those of what was found.
pub(crate) fn is_closed(index: &Index, upper: &BestPlaces, best: &Option<Choice>) -> bool
    ensures { (a : Assignment) → AreUpper index.now.problem a upper.now
        → (IsTrue result ↔ IsBounded (order_of index.now.problem) index.now.problem (places_of best.now) a) }
{
    match best {
        None => false,
        Some(choice) => !is_better(index, upper, &choice.places),
    }
}
