//! What is known of a pipeline before it runs: all faults of its text, its gates, its keys without effect, and what can
//! never happen.
//!
//! [`ccr_pipeline::read`] tells the first fault of a text alone. [`faults_of`] tells all, and [`faults_in`] those of
//! its JSON value, each as the reader would tell it if it were the first, in the order in which they count: what is
//! broken before the jobs, what is broken in the jobs, and then the names of resources and jobs that aren't there. No
//! fault ends the search: the keys beside it and the steps in it are searched as well. A list that isn't one has no
//! members, and steps that lie too deep aren't looked into. [`faults_are_those_of_the_reader`] is the law that ties
//! both: the first of all faults is what the reader refuses the text for, and there are none exactly where it reads the
//! text. Nothing is refused but memory.
//!
//! [`fault_lines`] tells all that is wrong with a text, a line for each fault, with what stands there, what is wanted there and
//! the nearest name that is there.
//!
//! A gate is what has to hold of a version before a job takes it. [`findings_of`] says of a pipeline that was read: the gate of
//! each input of each job; each key without effect, with what to do about it; each job in `passed` that can never pass the
//! resource, and each `passed` that names none; each text that a variable was to replace; each input of a task that no step
//! before it gives; and jobs that wait for each other, if there are such. Each is a [`Finding`]: its kind, and its line.
//!
//! A key without effect is a key of Concourse, a misspelled key, a key of another object, or one that isn't known. It counts as
//! misspelled if it is near another one: [`is_near`] says what that means. The keys stand in one table (`src/known.rt`).
#![tactic(auto)]

mod absent;
mod broken;
mod cycle;
mod find_all;
mod find_job;
mod find_kind;
mod find_object;
mod find_step;
mod find_walk;
mod finding;
mod float;
mod gate;
mod keys;
mod known;
mod law;
mod meant;
mod near;
mod never;
mod objects;
mod present;
mod seen;
mod stand;
mod told;
mod undone;
mod vars;

pub use find_all::{faults_in, faults_of};
pub use finding::{Finding, Findings, Kind, findings_in_text, findings_of, is_faultless};
pub use law::faults_are_those_of_the_reader;
pub use near::{is_like, is_near};
pub use told::fault_lines;
