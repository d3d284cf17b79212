//! Laws over the definitions alone: that a claim and a proof have one text each.

ghost use Rattle.std.specs.Prelude.{◌≡◌, ◌↔◌, ◌≤◌, ◌++◌, ℕ, List, [], Ok, Err};
ghost use Rattle.ccr_choice.specs.Text.{first_lines, ended_lines};
ghost use Rattle.ccr_choice.specs.Reading.{bad_line as bad_claim_line, IsFirstBad};
ghost use Rattle.ccr_proof.specs.declared.claim.Claim.{Claim};
ghost use Rattle.ccr_proof.specs.Claim.{IsClaim};
ghost use Rattle.ccr_proof.specs.ClaimText.{claim_text, claim_in};
ghost use Rattle.ccr_proof.specs.Tree.{Tree};
ghost use Rattle.ccr_proof.specs.Proof.{IsProof};
ghost use Rattle.ccr_proof.specs.ProofText.{bad_line, too_many_nodes, proof_text, proof_in};

/// Each claim has one text and each text at most one claim, whether or not there is memory to read it.
///
/// It is a law over the definitions alone; nothing runs.
pub fn claim_has_one_text()
    // The text of a claim is read as this claim.
    ensures read { (c : Claim) → IsClaim c → claim_in (claim_text c) ≡ Ok c }

    // What is read keeps the rules, and the text is its text.
    ensures written { (bytes : List ℕ) (c : Claim) → claim_in bytes ≡ Ok c → IsClaim c × (bytes ≡ claim_text c) }

    // No claim's text begins another's.
    ensures alone { (c d : Claim) (more : List ℕ) → IsClaim c → IsClaim d → claim_text d ≡ claim_text c ++ more
        → more ≡ [] }
{}

/// Each claim with its tree has one text and each text at most one of them, whether or not there is memory to read it.
///
/// It is a law over the definitions alone; nothing runs.
pub fn proof_has_one_text()
    // The text of a proof is read as this proof.
    ensures read { (c : Claim) (t : Tree) → IsProof c t → proof_in (proof_text c t) ≡ Ok (c, t) }

    // What is read keeps the rules, and the text is its text.
    ensures written { (bytes : List ℕ) (c : Claim) (t : Tree) → proof_in bytes ≡ Ok (c, t)
        → IsProof c t × (bytes ≡ proof_text c t) }

    // No proof's text begins another's.
    ensures alone { (c d : Claim) (t u : Tree) (more : List ℕ) → IsProof c t → IsProof d u
        → proof_text d u ≡ proof_text c t ++ more → more ≡ [] }
{}

/// Line n of a claim's text is told as the bad one exactly where it is the first bad one as it is seen from outside.
///
/// It is a law over the definitions alone; nothing runs.
pub fn bad_line_of_a_claim_is_the_first()
    ensures { (bytes : List ℕ) (n : ℕ)
        → (claim_in bytes ≡ Err (bad_claim_line n)) ↔ IsFirstBad claim_in bad_claim_line bytes n }
{}

/// Line n of a proof's text is told as the bad one exactly where it is the first bad one as it is seen from outside; and
/// too many nodes are told exactly where the first n lines, for some n, are refused so whatever follows.
///
/// It is a law over the definitions alone; nothing runs.
pub fn bad_line_of_a_proof_is_the_first()
    ensures bad { (bytes : List ℕ) (n : ℕ)
        → (proof_in bytes ≡ Err (bad_line n)) ↔ IsFirstBad proof_in bad_line bytes n }
    ensures many { (bytes : List ℕ) → (proof_in bytes ≡ Err too_many_nodes)
        ↔ ((n : ℕ) × (n ≤ ended_lines bytes)
        × ((more : List ℕ) → proof_in (first_lines n bytes ++ more) ≡ Err too_many_nodes)) }
{}
