//! The history in a database: what its rows are, and what a change writes.
//!
//! A law says that the writes of a change take tables that hold a history to tables that hold the changed history. An
//! edit carries the numbers of its rows, so its writes are made from it alone. What the columns hold is told in
//! docs/FORMATS.md.
//!
//! A [`Store`] keeps a history in a database by these, and is a server's [`Storage`](ccr_history::Storage).
#![tactic(auto)]

mod columns;
mod disabled;
mod fault;
mod format;
mod found;
mod law;
mod loading;
mod matching;
mod reading;
mod still;
mod storage;
mod store;
mod writes;

pub use ccr_history::StoreFault;
pub use fault::open_fault_of;
pub use format::Format;
pub use law::{changes_write_their_rows, rows_tell_the_history};
pub use store::{Store, prepare};
