//! What is said of a problem, and why it is so: claims, refutation trees, and their texts.
//!
//! A [`Claim`] names a choice as the best one, or says that no choice satisfies. A [`Proof`] is a claim with a tree of
//! cases, whose root is a [`Node`]: the builds of a job one by one, an input without a possible place, places that are
//! no better than the claim's, or the same case as an earlier build's. Contracts see a tree without where it lies in
//! memory (`specs/Tree.antt`). When a tree refutes what is better than a claim, when a proof is accepted, and when a
//! claim is right, is defined here for all crates that speak of it (`specs/Refutes.antt`, `specs/Right.antt`), with the
//! order of preference as a parameter; the checker is another crate.
//!
//! Claims and proofs have one text each, and each text one claim or proof: [`write_claim`], [`read_claim`],
//! [`write_proof`], [`read_proof`]. A text that is no claim's or no proof's is refused with its first bad line; a
//! proof's also where its tree isn't whole after 1,000,000 nodes.
#![tactic(auto)]

mod claim;
mod fault;
mod format;
mod halt;
mod law;
mod node;
mod proof;
mod proof_read;
mod proof_write;
mod read;
mod write;

pub use claim::{Claim, MOST_NUMBERS};
pub use fault::{ClaimFault, ProofFault};
pub use law::{
    bad_line_of_a_claim_is_the_first, bad_line_of_a_proof_is_the_first, claim_has_one_text,
    proof_has_one_text,
};
pub use node::Node;
pub use proof::{MOST_LEVELS, MOST_NODES, Proof, count};
pub use proof_read::read_proof;
pub use proof_write::write_proof;
pub use read::read_claim;
pub use write::write_claim;
