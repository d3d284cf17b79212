//! Reading a claim from its text.

ghost use Rattle.std.specs.Prelude.{◌≡◌, IfOk};
ghost use Rattle.ccr_choice.specs.Reading.{Gives};
ghost use Rattle.ccr_proof.specs.declared.claim.Claim.{Claim};
ghost use Rattle.ccr_proof.specs.Claim.{IsClaim};
ghost use Rattle.ccr_proof.specs.ClaimText.{claim_on, next_claim, claim_in, claim_text, IsRead, IsReadAs, NothingFollows};

use crate::claim::{Claim, MOST_NUMBERS};
use crate::fault::ClaimFault;
use ccr_choice::{Choice, Lines, Stop, Word, front_numbers};
use std::alloc::{AllocError, Global};

/// What a claim's line says.
#[tactic(auto, unfolding(crate::specs::ClaimText::claim_on))]
fn claim_on(alloc: Global, words: &[Word]) -> Result<Option<Claim>, AllocError>
    ensures { IfOk result (λ o. o ≡ claim_on words.now) }
{
    match words {
        [Word::Nothing] => Ok(Some(Claim::Nothing)),
        [Word::Best, rest @ ..] => {
            let (places, rest) = front_numbers(alloc, rest)?;
            let [Word::Builds, rest @ ..] = rest else {
                return Ok(None);
            };
            let (builds, rest) = front_numbers(alloc, rest)?;
            if places.len() <= MOST_NUMBERS && builds.len() <= MOST_NUMBERS && rest.is_empty() {
                Ok(Some(Claim::Best(Choice { places, builds })))
            } else {
                Ok(None)
            }
        }
        _ => Ok(None),
    }
}

/// The claim on the next line.
#[tactic(auto, unfolding(crate::specs::ClaimText::next_claim))]
pub(crate) fn next_claim(alloc: Global, lines: &mut Lines<'_>) -> Result<Claim, Stop>
    ensures { Gives (λ c. (c, lines.new)) result (next_claim lines.old) }
{
    let Some(line) = lines.next(alloc)? else {
        return Err(Stop::Left(0));
    };
    match claim_on(alloc, line.words())? {
        Some(claim) => Ok(claim),
        None => Err(Stop::Left(lines.count() + 1)),
    }
}

#[tactic(auto, unfolding(crate::specs::ClaimText::claim_in))]
fn read_whole(alloc: Global, bytes: &[u8]) -> Result<Claim, ClaimFault>
    ensures { IsRead result (claim_in bytes.now) }
{
    let mut lines = Lines::new(bytes);
    match next_claim(alloc, &mut lines) {
        Ok(claim) => {
            if lines.is_empty() {
                Ok(claim)
            } else {
                Err(ClaimFault::Trailing)
            }
        }
        Err(Stop::Left(left)) => {
            let count = Lines::new(bytes).count();
            Err(ClaimFault::BadLine((count + 1).saturating_sub(left)))
        }
        Err(Stop::Memory) => Err(ClaimFault::NoMemory),
    }
}

/// The claim that a text stands for.
///
/// BadLine(1): the line is no claim, lacks its line feed or is missing. Trailing: more bytes follow the line. NoMemory:
/// memory was refused, and nothing is said of the text.
pub fn read_claim(alloc: Global, bytes: &[u8]) -> Result<Claim, ClaimFault>
    // What is read keeps the rules, and the text is its text.
    ensures kept { IfOk result IsClaim }
    ensures found { IfOk result (λ c. bytes.now ≡ claim_text c) }

    // A claim's text is read as this claim, unless memory runs out.
    ensures only { (c : Claim) → IsClaim c → bytes.now ≡ claim_text c → IsReadAs result c }

    // No claim's text begins another's.
    ensures alone { IfOk result (λ _. NothingFollows bytes.now) }

    // A refusal is the bad line, or more than a claim.
    ensures exact { IsRead result (claim_in bytes.now) }
{
    read_whole(alloc, bytes)
}
