//! The pipeline file as a tree, or its first fault with its path.
//!
//! [`read`] reads a pipeline from JSON, [`read_task`] a task file. Contracts see a text as the JSON value that it
//! spells, and speak of it in two parts. The faults that are present in a value are a list, each a rule and the path
//! of the place that breaks it, in the order in which they count: the definitions state them rule by rule, over a
//! flat list of a job's steps with their paths. What a value means is a record or a tree, and knows no fault. A text
//! is read as what its value means exactly where no fault is present in it, memory aside; else the first is told.
//!
//! The keys of each object stand in one table, a row for each: whether it has to be there, what stands there, and its
//! text. The tests and the search for keys without effect go over this table; a few rules that no row tells stand beside it.
//!
//! A step's modifiers wrap it, so whoever walks a plan from the outside meets `ensure`, `on_error`, `on_abort`,
//! `on_failure`, `on_success`, the attempts and the step in this order, and no JSON. [`inputs_of`] gives the gets of a
//! job in the order of its plan, which is another.
//!
//! The parts of the reader that a search for all faults of a text needs too are public, as the tables of keys in
//! [`schema`].
//!
//! Refusals are the variants of [`ReadFault`], each with a path but `NoMemory`, which comes only where memory
//! runs out. `docs/FORMATS.md` has the keys, the rules and what to do about each refusal.
#![tactic(auto)]

mod build;
mod build_step;
mod check_step;
mod cursor;
mod fault;
mod input;
mod key;
mod kind;
mod lists;
mod names;
mod notes;
mod object;
mod parts;
mod pipeline;
mod place;
mod read_job;
mod reader;
mod resource;
pub mod schema;
mod scope;
mod step;
mod task;
mod unknown;
mod unused;
mod walk;

pub use build_step::plan;
pub use check_step::{MOST_ATTEMPTS, MOST_TRIES, kinds};
pub use cursor::Cursor;
pub use fault::{Checked, ReadFault, Rule};
pub use input::{Input, inputs_in, inputs_of};
pub use key::{at_key, items_in, list_at};
pub use kind::{is_empty, is_name};
pub use lists::{MOST_MEMBERS, are_few};
pub use names::{Names, text_at};
pub use pipeline::Pipeline;
pub use place::{Place, path_at, path_below, path_of};
pub use read_job::{MOST_INPUTS, add_named_jobs};
pub use reader::{MOST_BYTES, read, read_task, value_of};
pub use resource::{Job, Resource};
pub use step::{Get, Put, Step, Wanted, When};
pub use task::{Run, Task, TaskConfig, TaskInput, TaskSource, Variable};
pub use unknown::name_key;
pub use walk::{JOB_REACH, Reach};
