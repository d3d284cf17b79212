//! What the resolver answers.

use ccr_proof::Proof;

/// What the resolver answers.
#[derive(Drop)]
pub enum Answer {
    /// The best choice, with its proof.
    Best(Proof),
    /// No choice satisfies; the proof shows it.
    Nothing(Proof),
    /// A proof of more than this many nodes, the budget, would be needed.
    OverBudget(u32),
}
