//! Writing a claim as its text.

ghost use Rattle.std.specs.Prelude.{◌≡◌, Ok, IfOk, string_bytes};
ghost use Rattle.ccr_proof.specs.Claim.{IsClaim};
ghost use Rattle.ccr_proof.specs.ClaimText.{claim_line, claim_text, claim_in};

use crate::claim::Claim;
use ccr_choice::{Word, push_numbers, put_line};
use std::alloc::{AllocError, Global};

/// The words of a claim's line.
pub(crate) fn claim_words(alloc: Global, claim: &Claim) -> Result<Vec<Word>, AllocError>
    ensures { IfOk result (λ v. v.items ≡ claim_line claim.now) }
{
    let mut words = Vec::new(alloc);
    match claim {
        Claim::Nothing => words.push(Word::Nothing)?,
        Claim::Best(choice) => {
            words.push(Word::Best)?;
            push_numbers(&mut words, &choice.places)?;
            words.push(Word::Builds)?;
            push_numbers(&mut words, &choice.builds)?;
        }
    }
    Ok(words)
}

/// The one text of a claim of at most 32 numbers in each list. Reading it gives the claim back.
pub fn write_claim(alloc: Global, claim: &Claim) -> Result<String, AllocError>
    requires { IsClaim claim.now }
    ensures text { IfOk result (λ s. string_bytes s ≡ claim_text claim.now) }
    ensures again { IfOk result (λ s. claim_in (string_bytes s) ≡ Ok claim.now) }
{
    let words = claim_words(alloc, claim)?;
    let mut out = String::new(alloc);
    put_line(&mut out, &words)?;
    Ok(out)
}
