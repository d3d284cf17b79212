//! From the resolver to the checker.

ghost use Rattle.std.specs.Prelude.{◌≡◌, ◌≤◌, IfOk, MatchOption, string_bytes};
ghost use Rattle.ccr_choice.specs.Preference.{order_of};
ghost use Rattle.ccr_proof.specs.declared.claim.Claim.{Claim};
ghost use Rattle.ccr_proof.specs.Refutes.{IsAccepted};
ghost use Rattle.ccr_proof.specs.Right.{IsRight};
ghost use Rattle.ccr_proof.specs.Tree.{tree_of};
ghost use Rattle.ccr_resolve.specs.NodeBound.{IsBelowNodeBound};
ghost use Rattle.ccr_check.specs.Judged.{accepted_line};

use ccr_check::judge;
use ccr_choice::{Problem, problem_has_one_text, write_problem};
use ccr_index::build_index;
use ccr_proof::{MOST_NODES, Proof, write_proof};
use ccr_resolve::{Answer, resolve};
use std::alloc::{AllocError, Global};

/// What the checker says of the text of a problem that is followed by the text of a proof that is accepted for it.
fn judged(alloc: Global, problem: &Problem, proof: &Proof) -> Result<(String, u8), AllocError>
    requires { IsAccepted (order_of problem.now) problem.now proof.now.claim (tree_of proof.now.tree) }
    ensures { IfOk result (λ x. (string_bytes x.0 ≡ accepted_line proof.now.claim) × (x.1 ≡ 0)) }
{
    problem_has_one_text();
    let mut text = write_problem(alloc, problem)?;
    let behind = write_proof(alloc, proof)?;
    text.push_str(behind.as_str())?;
    judge(alloc, text.as_bytes())
}

/// What the checker says of the text of a problem that is followed by the text of the resolver's proof: `accepted `,
/// the line of a claim that is right, and status 0. None where the budget, from 1 to 1,000,000 nodes, is over; it is
/// then below the node bound.
///
/// This follows from what [`build_index`], [`resolve`], [`write_problem`], [`write_proof`] and [`judge`] promise, and from
/// nothing else.
pub fn resolved(
    alloc: Global,
    problem: &Problem,
    budget: u32,
) -> Result<Option<(String, u8)>, AllocError>
    requires least { 1 ≤ budget }
    requires most { budget ≤ MOST_NODES }
    ensures { IfOk result (λ told. MatchOption told (IsBelowNodeBound (order_of problem.now) problem.now budget)
        (λ x. (c : Claim) × IsRight (order_of problem.now) problem.now c
        × (string_bytes x.0 ≡ accepted_line c) × (x.1 ≡ 0))) }
{
    let index = build_index(alloc, problem)?;
    match resolve(alloc, problem, &index, budget)? {
        Answer::Best(proof) | Answer::Nothing(proof) => {
            let told = judged(alloc, problem, &proof)?;
            Ok(Some(told))
        }
        Answer::OverBudget(_) => Ok(None),
    }
}
