//! Claims: what is said of a problem.

use ccr_choice::{Choice, MOST_INPUTS};

/// How many numbers each list of a claim has at the most.
pub const MOST_NUMBERS: usize = MOST_INPUTS as usize;

/// What is said of a problem.
#[derive(Drop)]
pub enum Claim {
    /// This choice is the best.
    Best(Choice),
    /// No choice satisfies.
    Nothing,
}
