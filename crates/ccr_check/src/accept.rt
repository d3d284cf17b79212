//! The check of a proof.

ghost use Rattle.std.specs.Prelude.{◌↔◌, IsOk, IfErr, OnOk, MatchResult};
ghost use Rattle.std.specs.Option.{option_copied};
ghost use Rattle.ccr_choice.specs.Preference.{order_of};
ghost use Rattle.ccr_proof.specs.Tree.{tree_of};
ghost use Rattle.ccr_proof.specs.Refutes.{IsAccepted};
ghost use Rattle.ccr_proof.specs.Right.{IsRight};
ghost use Rattle.ccr_check.specs.Fault.{IsFault, HasBound, IsBadClaim};

use crate::fault::CheckFault;
use crate::tree::walk;
use ccr_choice::{MOST_JOBS, Problem, Verdict, satisfies};
use ccr_proof::{Claim, Proof};

/// The bound that a claim sets: the places of its choice, or none.
pub(crate) fn bound_of<'a>(
    problem: &Problem,
    claim: &'a Claim,
) -> Result<Option<&'a [u32]>, CheckFault>
    ensures { MatchResult result
        (λ bound. HasBound problem.now claim.now (option_copied bound))
        (IsBadClaim problem.now claim.now) }
{
    match claim {
        Claim::Best(choice) => match satisfies(problem, choice) {
            Verdict::Satisfies => Ok(Some(&choice.places)),
            verdict => Err(CheckFault::BadChoice(verdict)),
        },
        Claim::Nothing => Ok(None),
    }
}

/// Accepts a proof exactly where it is one: the choice that the claim names satisfies, and the tree refutes what is
/// better than its places, in the order of the problem; where the claim is that there is none, the tree refutes
/// everything.
///
/// Else the first fault: BadChoice with what is said of the choice; then the first node in preorder, counted from 0,
/// whose own test fails, which comes before its children's. The check takes no memory, and no recursion is more than 33
/// deep.
pub fn check(problem: &Problem, proof: &Proof) -> Result<(), CheckFault>
    ensures exact { IsOk result
        ↔ IsAccepted (order_of problem.now) problem.now proof.now.claim (tree_of proof.now.tree) }

    // Accepted means right: no choice that satisfies has better places, or none satisfies.
    ensures right { OnOk result (IsRight (order_of problem.now) problem.now proof.now.claim) }
    ensures first { IfErr result (IsFault (order_of problem.now) problem.now proof.now.claim (tree_of proof.now.tree)) }
{
    let bound = bound_of(problem, &proof.claim)?;
    let fixed = [0; MOST_JOBS as usize];
    prove!(problem.jobs().len() <= fixed.len());
    walk(problem, bound, &fixed, 0, &proof.tree)?;
    Ok(())
}
