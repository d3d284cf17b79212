//! The best choice, without the proof.

ghost use Rattle.std.specs.Prelude.{◌≤◌, IfOk};
ghost use Rattle.ccr_choice.specs.Preference.{order_of};
ghost use Rattle.ccr_choice.specs.Table.{assigned};
ghost use Rattle.ccr_resolve.specs.Chosen.{IsChosen};
ghost use Rattle.ccr_resolve.specs.Search.{AreUpper, FixesKnown, FoundSatisfies};
ghost use Rattle.ccr_resolve.specs.Sought.{Sought};

use crate::choice::full_choice;
use crate::dive::good_choice;
use crate::dominator::dominator;
use crate::newest::newest_choice;
use crate::upper::{BestPlaces, first_empty, is_closed, lowered, tops};
use crate::wanted::next_split;
use ccr_choice::possible::Fixed;
use ccr_choice::{Choice, MOST_JOBS};
use ccr_index::Index;
use ccr_proof::MOST_NODES;
use std::alloc::{AllocError, Global};

/// What is chosen.
#[derive(Drop)]
pub enum Chosen {
    /// The best choice.
    Best(Choice),
    /// No choice satisfies.
    Nothing,
    /// More boxes than this many, the budget, would have to be looked at.
    OverBudget(u32),
}

/// The best choice that satisfies the problem of an index, or that none does, rightly so; or that the budget, from 1 to
/// 1,000,000, is over, only where it is below the node bound of the problem. The only error is out of memory.
///
/// Where [`crate::resolve_indexed`] answers too, it has the same places, since the best choice is one list; its builds may be
/// others. With a small budget one of the two may be over it and the other not, since they look at different boxes.
///
/// Where a job has few builds that can be part of a better choice than the one found, it goes into these alone, and into no
/// build that a newer one dominates.
pub fn choose(alloc: Global, index: &Index, budget: u32) -> Result<Chosen, AllocError>
    requires least { 1 ≤ budget }
    requires most { budget ≤ MOST_NODES }
    ensures { IfOk result (IsChosen (order_of index.now.problem) index.now.problem budget) }
{
    let upper = tops(index);
    if let Some(_) = first_empty(index, &upper) {
        return Ok(Chosen::Nothing);
    }
    let newest = newest_choice(alloc, index, &upper)?;
    if let Some(choice) = newest {
        return Ok(Chosen::Best(choice));
    }
    let mut best = good_choice(alloc, index, &upper)?;
    let mut left = budget;
    let is_over = seek(
        alloc,
        index,
        &[0; MOST_JOBS as usize],
        &upper,
        &mut best,
        &mut left,
    )?;
    if is_over {
        return Ok(Chosen::OverBudget(budget));
    }
    match best {
        None => Ok(Chosen::Nothing),
        Some(choice) => Ok(Chosen::Best(choice)),
    }
}

/// Looks for the best choice while these builds are fixed; true where more boxes would have to be looked at than are
/// left.
fn seek(
    alloc: Global,
    index: &Index,
    fixed: &Fixed,
    upper: &BestPlaces,
    best: &mut Option<Choice>,
    left: &mut u32,
) -> Result<bool, AllocError>
    requires known { FixesKnown index.now.problem fixed.now }
    requires upper { AreUpper index.now.problem (assigned index.now.problem fixed.now) upper.now }
    requires found { FoundSatisfies index.now.problem best.old }
    ensures { IfOk result (λ is_over. Sought (order_of index.now.problem) index.now.problem fixed.now
        best.old best.new left.old left.new is_over) }
{
    if *left == 0 {
        return Ok(true);
    }
    *left -= 1;
    if let Some(_) = first_empty(index, upper) {
        return Ok(false);
    }
    if is_closed(index, upper, best) {
        return Ok(false);
    }
    let Some(found) = next_split(alloc, index, fixed, upper, best)? else {
        *best = Some(full_choice(alloc, index, fixed, upper)?);
        return Ok(false);
    };
    let j = found.job;
    for t in 0..found.builds.len() {
        if is_closed(index, upper, best) {
            return Ok(false);
        }
        let k = found.builds[t];
        if let Some(_) = dominator(index, j, k) {
            continue;
        }
        let mut inner = *fixed;
        inner[j] = k + 1;
        let places = lowered(index, upper, &inner, j);
        let is_over = seek(alloc, index, &inner, &places, best, left)?;
        if is_over {
            return Ok(true);
        }
    }
    Ok(false)
}
