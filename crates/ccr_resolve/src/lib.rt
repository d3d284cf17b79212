//! Finds the best choice and writes the proof.
//!
//! [`resolve`] answers the best choice that satisfies a problem, or that none does, with a proof of at most `budget`
//! nodes that the checker accepts; or that the budget is over, which it says only where the budget is below what the
//! problem may need (`specs/NodeBound.antt`). It takes what is possible from the problem's index. [`resolve_indexed`] is the
//! same over the index alone, which stands for its problem.
//!
//! It looks for a good choice first. Then it goes down the jobs with a bound that only rises: it splits the job that
//! costs the least nodes, and closes a box as soon as its best places are no better than what was found.
//! [`choose`] gives the same choice without the proof.
#![tactic(auto)]

mod answer;
mod choice;
mod chosen;
mod descent;
mod dive;
mod dominator;
mod newest;
mod once;
mod pick;
mod resolver;
mod spans;
mod upper;
mod wanted;

pub use answer::Answer;
pub use chosen::{Chosen, choose};
pub use resolver::{resolve, resolve_indexed};
