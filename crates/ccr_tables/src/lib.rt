//! The six tables of a history in SQLite: their schema, and the statements that read and write them.
//!
//! A contract sees the tables as their contents: for each table, the rows that its SELECT shows. [`create`] makes the
//! tables of a new database. [`write_one`] makes one [`Write`] in a transaction; [`commit`] makes a list of them in
//! one, all of them or none. [`select`] reads a table, and [`select_named`] one of the two that are long. What the
//! columns hold is told in docs/FORMATS.md.
#![tactic(auto)]

mod cause;
mod columns;
mod creation;
mod listing;
mod named_row;
mod shared_texts;
mod table;
mod transaction;
mod write;

pub use cause::Cause;
pub use creation::{Creation, create};
pub use listing::select;
pub use named_row::{NamedRow, select_named};
pub use table::Table;
pub use transaction::commit;
pub use write::{Write, write_one};
