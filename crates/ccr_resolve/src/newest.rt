//! The newest builds, where they fit the best places.

ghost use Rattle.std.specs.Prelude.{◌≡◌, ◌<◌, ◌↔◌, ℕ, length, IfOk, MatchOption, IsTrue};
ghost use Rattle.ccr_choice.specs.Problem.{IsProblem, builds_at};
ghost use Rattle.ccr_choice.specs.Preference.{order_of};
ghost use Rattle.ccr_choice.specs.Assignment.{nothing_fixed};
ghost use Rattle.ccr_choice.specs.Table.{assigned};
ghost use Rattle.ccr_proof.specs.Refutes.{HasNoPlace};
ghost use Rattle.ccr_resolve.specs.NodeBound.{TopFits};
ghost use Rattle.ccr_resolve.specs.Search.{AreUpper, IsNewest, IsTopChoice};

use crate::choice::full_choice;
use crate::upper::BestPlaces;
use ccr_choice::possible::Fixed;
use ccr_choice::{Choice, MOST_JOBS};
use ccr_index::Index;
use std::alloc::{AllocError, Global};

/// The table that fixes the newest build of each job, if each has one.
fn newest_builds(index: &Index) -> Option<Fixed>
    ensures rules { IsProblem index.now.problem }
    ensures found { MatchOption result
        ((j : ℕ) × (j < length index.now.problem.jobs) × (length (builds_at index.now.problem j) ≡ 0))
        (IsNewest index.now.problem) }
{
    let mut fixed = [0; MOST_JOBS as usize];
    for j in 0..index.job_count() {
        if index.rows(j).len() == 0 {
            return None;
        }
        fixed[j] = 1;
    }
    Some(fixed)
}

/// Whether these are the best places while these builds are fixed, too.
fn are_kept(index: &Index, upper: &BestPlaces, fixed: &Fixed) -> bool
    ensures { IsTrue result ↔ AreUpper index.now.problem (assigned index.now.problem fixed.now) upper.now }
{
    for i in 0..index.input_count() {
        if index.greatest_at(i, fixed) != upper[i] {
            return false;
        }
    }
    true
}

/// The best places with the newest build of each job, where they satisfy.
pub(crate) fn newest_choice(
    alloc: Global,
    index: &Index,
    upper: &BestPlaces,
) -> Result<Option<Choice>, AllocError>
    requires upper { AreUpper index.now.problem nothing_fixed upper.now }
    requires some { (i : ℕ) → ¬ HasNoPlace index.now.problem nothing_fixed i }
    ensures { IfOk result (λ found. MatchOption found (¬ TopFits (order_of index.now.problem) index.now.problem)
        (IsTopChoice index.now.problem)) }
{
    let Some(fixed) = newest_builds(index) else {
        return Ok(None);
    };
    if !are_kept(index, upper, &fixed) {
        return Ok(None);
    }
    Ok(Some(full_choice(alloc, index, &fixed, upper)?))
}
