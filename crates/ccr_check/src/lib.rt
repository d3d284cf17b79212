//! The checker of proofs, which can be trusted with anybody's.
//!
//! A [`Proof`](ccr_proof::Proof) claims that a choice is the best one for a problem, or that there is none, and brings
//! a tree of cases. [`check`] accepts it exactly where the definitions of `ccr_proof` do (`specs/Refutes.antt`), and
//! where it accepts, the claim is right (`specs/Right.antt`): the law is [`accepted_is_right`], which speaks of no
//! program. A proof that isn't accepted is refused with its first fault: the claim's choice, or the first node in
//! preorder whose own test fails.
//!
//! The checker takes no memory. It keeps the fixed builds in a table of 32 entries, copied at each child of a job node, and looks
//! for an input's best place among the pairs of the builds that each possible place must have passed.
//!
//! A proof in which no node is the same as another is accepted while its text is read, without its tree in memory.
//! Every other text, and one in which something is wrong, is read as a tree, and [`check`] says which fault is the
//! first.
//!
//! [`judge`] does the same from bytes to bytes. It is given the text of a problem, followed by that of a proof or of a claim, and
//! says in one line what is to be thought of it (`specs/Judged.antt`, `specs/Accepted.antt`). [`read_whole`] and
//! [`read_both`] read what the program of the checker judges.
#![tactic(auto)]

mod accept;
mod cut;
mod fault;
mod input;
mod judging;
mod law;
mod node_line;
mod stream;
mod tree;

pub use accept::check;
pub use fault::CheckFault;
pub use input::{InputFault, read_both, read_whole};
pub use judging::judge;
pub use law::accepted_is_right;
