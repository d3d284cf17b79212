//! The resolver, with the proof of its answer.

ghost use Rattle.std.specs.Prelude.{◌≡◌, ◌≤◌, IfOk};
ghost use Rattle.ccr_choice.specs.Preference.{order_of};
ghost use Rattle.ccr_resolve.specs.Answer.{IsAnswer};

use crate::answer::Answer;
use crate::descent::descend;
use crate::dive::good_choice;
use crate::newest::newest_choice;
use crate::upper::{first_empty, tops};
use ccr_choice::{MOST_JOBS, Problem};
use ccr_index::Index;
use ccr_proof::{Claim, MOST_NODES, Node, Proof};
use std::alloc::{AllocError, Global};

/// The best choice that satisfies a problem, or that none does, rightly so, with a proof that is accepted and has at
/// most `budget` nodes, from 1 to 1,000,000; or that the budget is over, only where it is below both bounds of the problem.
/// The index is that of the problem. The only error is out of memory.
///
/// An index stands for its problem, so whoever holds one alone calls [`resolve_indexed`].
pub fn resolve(
    alloc: Global,
    problem: &Problem,
    index: &Index,
    budget: u32,
) -> Result<Answer, AllocError>
    requires least { 1 ≤ budget }
    requires most { budget ≤ MOST_NODES }
    requires same { index.now.problem ≡ problem.now }
    ensures { IfOk result (IsAnswer (order_of problem.now) problem.now budget) }
{
    let _ = problem;
    resolve_indexed(alloc, index, budget)
}

/// The best choice that satisfies the problem of an index, or that none does, rightly so, with a proof that is accepted
/// and has at most `budget` nodes, from 1 to 1,000,000; or that the budget is over, only where it is below the node bound of
/// the problem. The only error is out of memory.
///
/// Its work grows with what has to be refuted. Where the newest builds have the best places, or an input has no place,
/// that is one node, whatever the number of builds ever made.
pub fn resolve_indexed(alloc: Global, index: &Index, budget: u32) -> Result<Answer, AllocError>
    requires least { 1 ≤ budget }
    requires most { budget ≤ MOST_NODES }
    ensures { IfOk result (IsAnswer (order_of index.now.problem) index.now.problem budget) }
{
    let upper = tops(index);
    if let Some(i) = first_empty(index, &upper) {
        return Ok(Answer::Nothing(Proof {
            claim: Claim::Nothing,
            tree: Node::Empty(i),
        }));
    }
    let newest = newest_choice(alloc, index, &upper)?;
    if let Some(choice) = newest {
        return Ok(Answer::Best(Proof {
            claim: Claim::Best(choice),
            tree: Node::Bounded,
        }));
    }
    let mut best = good_choice(alloc, index, &upper)?;
    let mut left = budget;
    let Some(tree) = descend(
        alloc,
        index,
        &[0; MOST_JOBS as usize],
        &upper,
        &mut best,
        &mut left,
    )?
    else {
        return Ok(Answer::OverBudget(budget));
    };
    match best {
        None => Ok(Answer::Nothing(Proof {
            claim: Claim::Nothing,
            tree,
        })),
        Some(choice) => Ok(Answer::Best(Proof {
            claim: Claim::Best(choice),
            tree,
        })),
    }
}
