//! What has been seen of the resources, what was built, and what is set: histories. Below them stand the values that
//! they hold, and beside them what is asked of a place where one is kept.
//!
//! A [`History`] holds a table of versions for each scope, the builds in order of making, the pins by command, the
//! disabled places and the pipeline's text. Clauses see it as a record of these, without where they lie in memory,
//! which keeps the rules of `IsHistory`. Each call that changes a history gives the named change of it, an [`Edit`]; a
//! [`Change`] is a list of edits, in the order in which they are made.
//!
//! A refused call changes nothing. A history has its limits, `TableFull` and `BuildsFull`, and refuses to
//! end a build that isn't there, `NoBuild`, or that doesn't run, `AlreadyEnded`. A place that its table lacks is neither
//! disabled nor enabled, `NoVersion`. `NoMemory` comes only where memory runs out.
//!
//! A [`Version`] and a [`Pin`] are maps from texts to texts, as a JSON object has them whose fields are all texts.
//! Clauses see either as the list of its fields, a key with its text, keys ascending by bytes: so two are equal
//! exactly where their maps are. Both keep their key, the map's compact JSON text, and nothing beside it.
//!
//! An [`Object`] is a source or params: a JSON object whose numbers are all whole, so that its text is exact.
//! Clauses see it as its JSON value. A [`Scope`] is a resource with its type and source. A JSON value that is no version is
//! refused: `NotObject` where it is no object, `VersionNotText` where a field isn't a text.
//!
//! A [`Storage`] is where a history is kept: a change is written whole, or not at all. Contracts see which history its
//! tables hold. After an `Ok` it is the changed one; after an `Err` it is the one that it was. They also see which
//! history a crash leaves: after an `Ok` the changed one alone. A [`Tally`] says how many commits there were, and why
//! the last one failed, so that a server's promises can say that it asked.
#![tactic(auto)]

mod build;
mod build_ref;
mod builds;
mod change;
mod conditions;
mod fault;
mod history;
mod job_builds;
mod key_text;
mod law;
mod names;
mod object;
mod pair_set;
mod pin;
mod pins;
mod reported;
mod row;
mod rows;
mod scope;
mod storage;
mod store_fault;
mod switched;
mod table;
mod tables;
mod tally;
mod used_row;
mod version;

pub use build::{Status, Used};
pub use build_ref::BuildRef;
pub use builds::MOST_BUILDS;
pub use change::{Change, Edit, Ended, Made, Reported, Switched};
pub use fault::HistoryFault;
pub use history::History;
pub use law::changes_keep_histories;
pub use object::{Object, has_float};
pub use pin::Pin;
pub use pins::Pins;
pub use scope::Scope;
pub use storage::Storage;
pub use store_fault::StoreFault;
pub use table::{MOST_SCOPES, MOST_VERSIONS};
pub use tally::Tally;
pub use version::Version;
