//! The orders of places: the plain one of lists, and the one in which a problem prefers them.

ghost use Rattle.std.specs.Prelude.{◌≡◌, ◌↔◌, IsTrue};
ghost use Rattle.ccr_choice.specs.Later.{IsLater};
ghost use Rattle.ccr_choice.specs.Preference.{prefers_after, order_of, IsBetter};

use crate::problem::Problem;

/// Whether the first list of places is later than the second: at the first position where they differ, as far as both
/// go, it has the greater place.
#[tactic(auto, using(crate::proofs::LaterLemmas::not_later))]
pub fn later(first: &[u32], second: &[u32]) -> bool
    ensures { IsTrue result ↔ IsLater first.now second.now }
{
    let mut xs = first;
    let mut ys = second;
    while let ([x, later_xs @ ..], [y, later_ys @ ..]) = (xs, ys) {
        if *x != *y {
            return *y < *x;
        }
        xs = later_xs;
        ys = later_ys;
    }
    false
}

/// Whether the first place is preferred to the second at an input for which `after` is kept: the places above it come
/// first, in ascending order, then those up to it, in descending order; descending order where none is kept (Concourse:
/// get step, `version: every`). 0 is the least preferred.
pub fn is_preferred(after: Option<u32>, place: u32, other: u32) -> bool
    ensures { result ≡ prefers_after after place other }
{
    match after {
        Some(kept) if kept < place => place < other || other <= kept,
        _ => other < place,
    }
}

/// Whether the first list of places is preferred to the second: at the first position where they differ, as far as both
/// go, its place is the more preferred one at the input of this position.
pub fn preferred(problem: &Problem, first: &[u32], second: &[u32]) -> bool
    ensures { IsTrue result ↔ IsBetter (order_of problem.now) first.now second.now }
{
    let both = first.len().min(second.len());
    for i in 0..both {
        if first[i] != second[i] {
            return is_preferred(problem.after(i), first[i], second[i]);
        }
    }
    false
}
