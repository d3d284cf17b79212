//! A look at a database that another program may have open: no lock, no waiting, nothing written.
//!
//! [`copy`] reads the database and its log, in an order in which the two belong together; [`copy_with`] does it by a
//! [`Reader`], whose calls contracts see, each with its answer. [`look`] opens what was read in memory, and gives a
//! core over the history that is found there, as it is: a build that runs is shown as running. What bytes hold, and
//! what a look finds in them, stands in `specs/`.
#![tactic(auto)]

mod calls;
mod copied;
mod fault;
mod found;
mod law;
mod looking;
mod noted;
mod opened;
mod reads;
mod scratch;

pub use copied::{Copied, copy, copy_with};
pub use fault::CopyFault;
pub use law::{
    a_first_run_leaves_nothing, a_look_finds_what_is_left, runs_are_one_list,
    what_is_begun_is_taken, what_is_left_is_taken,
};
pub use looking::look;
pub use noted::Reader;
pub use scratch::Scratch;
