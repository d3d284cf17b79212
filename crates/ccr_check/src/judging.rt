//! What is said of a problem's text that is followed by a proof's or a claim's.

ghost use Rattle.std.specs.Prelude.{◌≡◌, ◌++◌, nat_eq, codes, IsTrue, IfOk, IfSome, OnOk, string_bytes};
ghost use Rattle.std.specs.List.{flat_map, starts_with};
ghost use Rattle.ccr_proof.specs.ClaimText.{claim_in};
ghost use Rattle.ccr_proof.specs.ProofText.{proof_in};
ghost use Rattle.ccr_check.specs.Accepted.{IsAcceptedText, IsRightlyAccepted};
ghost use Rattle.ccr_check.specs.Judged.{spaced, choice_line, accepted_line, refused, IsProofJudged, IsClaimJudged, IsJudged};

use crate::accept::check;
use crate::cut::cut_index;
use crate::fault::CheckFault;
use crate::stream::accepted_claim;
use ccr_choice::{Choice, Problem, ProblemFault, Verdict, read_problem, satisfies};
use ccr_proof::{Claim, ClaimFault, ProofFault, read_claim, read_proof};
use std::alloc::{AllocError, Global};
use std::fmt::Display;

/// Adds each number behind a blank.
fn push_spaced(alloc: Global, out: &mut String, numbers: &[u32]) -> Result<(), AllocError>
    ensures { OnOk result (string_bytes out.new ≡ string_bytes out.old ++ flat_map spaced numbers.now) }
{
    for n in numbers {
        let word = format!(in alloc; " {n}")?;
        out.push_str(word.as_str())?;
    }
    Ok(())
}

/// A choice behind these words: its places, `builds` and its builds.
fn choice_line(alloc: Global, front: &str, choice: &Choice) -> Result<String, AllocError>
    ensures { IfOk result (λ s. string_bytes s ≡ choice_line front.now choice.now) }
{
    let mut line = String::from_str(alloc, front)?;
    push_spaced(alloc, &mut line, &choice.places)?;
    line.push_str(" builds")?;
    push_spaced(alloc, &mut line, &choice.builds)?;
    Ok(line)
}

/// `accepted`, and the words of the claim's line.
fn accepted_line(alloc: Global, claim: &Claim) -> Result<String, AllocError>
    ensures { IfOk result (λ s. string_bytes s ≡ accepted_line claim.now) }
{
    match claim {
        Claim::Nothing => String::from_str(alloc, "accepted none"),
        Claim::Best(choice) => choice_line(alloc, "accepted best", choice),
    }
}

/// The line and the status of a refusal.
fn refused<D: Display + Drop>(alloc: Global, why: D) -> Result<(String, u8), AllocError>
    ensures { IfSome (D.output why) (λ words. IfOk result (λ x. (string_bytes x.0, x.1) ≡ refused words)) }
{
    let line = format!(in alloc; "refused: {why}")?;
    Ok((line, 1))
}

#[tactic(auto, using(crate::proofs::Accepting::proof_refused, crate::proofs::Streams::streamed_judged))]
fn judge_proof(alloc: Global, problem: &Problem, text: &[u8]) -> Result<(String, u8), AllocError>
    ensures { IfOk result (λ x. IsProofJudged problem.now (proof_in text.now) (string_bytes x.0, x.1)) }
{
    if let Some(claim) = accepted_claim(alloc, problem, text)? {
        return Ok((accepted_line(alloc, &claim)?, 0));
    }
    let proof = match read_proof(alloc, text) {
        Ok(proof) => proof,
        Err(ProofFault::NoMemory) => return Err(AllocError),
        Err(fault) => return refused(alloc, fault),
    };
    match check(problem, &proof) {
        Ok(()) => Ok((accepted_line(alloc, &proof.claim)?, 0)),
        Err(fault) => refused(alloc, fault),
    }
}

fn judge_claim(alloc: Global, problem: &Problem, text: &[u8]) -> Result<(String, u8), AllocError>
    ensures { IfOk result (λ x. IsClaimJudged problem.now (claim_in text.now) (string_bytes x.0, x.1)) }
{
    match read_claim(alloc, text) {
        Ok(Claim::Best(choice)) => match satisfies(problem, &choice) {
            Verdict::Satisfies => Ok((choice_line(alloc, "satisfies", &choice)?, 0)),
            verdict => refused(alloc, CheckFault::BadChoice(verdict)),
        },
        Ok(Claim::Nothing) => refused(alloc, "a bare none"),
        Err(ClaimFault::NoMemory) => Err(AllocError),
        Err(_) => refused(alloc, "claim line"),
    }
}

#[tactic(auto, using(crate::proofs::Accepting::problem_refused))]
fn judge_text(alloc: Global, bytes: &[u8]) -> Result<(String, u8), AllocError>
    ensures { IfOk result (λ x. IsJudged bytes.now (string_bytes x.0, x.1)) }
{
    let (first, second) = bytes.split_at(cut_index(bytes));
    let problem = match read_problem(alloc, first) {
        Ok(problem) => problem,
        Err(ProblemFault::NoMemory) => return Err(AllocError),
        Err(fault) => return refused(alloc, fault),
    };
    if second.starts_with(b"proof") {
        judge_proof(alloc, &problem, second)
    } else {
        judge_claim(alloc, &problem, second)
    }
}

/// The line and the exit status for a problem's text that is followed by a proof's or a claim's: status 0 where the
/// proof is accepted or the claim's choice satisfies the problem, 1 where the text is refused. The only error is want
/// of memory.
pub fn judge(alloc: Global, bytes: &[u8]) -> Result<(String, u8), AllocError>
    ensures judged { IfOk result (λ x. IsJudged bytes.now (string_bytes x.0, x.1)) }

    // A problem's text followed by that of a proof that is accepted for it: `accepted`, the claim's line, and status 0.
    ensures accepted { IfOk result (λ x. (c : Claim) → IsAcceptedText bytes.now c
        → (string_bytes x.0 ≡ accepted_line c) × (x.1 ≡ 0)) }

    // `accepted` is said of nothing else, and of no claim that isn't right.
    ensures right { IfOk result (λ x. IsTrue (starts_with nat_eq (string_bytes x.0) (codes "accepted "))
        → IsRightlyAccepted bytes.now (string_bytes x.0)) }
{
    judge_text(alloc, bytes)
}
