//! A build as a machine that gives one ask at a time.
//!
//! [`start`] begins a build of a job with a version for each input; [`BuildRun::wants`] is what it waits for,
//! [`BuildRun::feed`] goes on with an answer, until [`BuildRun::outcome`] tells how it ended.
//!
//! What a step means is a relation on whole lists of exchanges, an exchange being an ask and its answer: which lists
//! a step allows, with which outcome, and which artifacts and moved versions the build has gained at their end. A
//! build stands for the exchanges that it has had so far: they begin a list that its plan allows, what it wants is the
//! ask that comes next in every such list, and it has ended exactly where the list is whole.
//!
//! Each ask may be answered as aborted. Then only hooks of the plan are asked for, and the build ends aborted.
//!
//! The builds of a job share its plan, which never changes. Each has a path of its own down to the step that waits, one
//! small frame a level. So going on takes as long as the way from one asking step to the next, however much was asked
//! before.
//!
//! Refusals are the variants of [`FeedFault`]; they leave the build as it was. An answer that a build took can be taken
//! back: [`BuildRun::feed_back`] gives what [`BuildRun::undo`] needs.
#![tactic(auto)]

mod advance;
mod ask;
mod before;
mod begin;
mod build;
mod fault;
mod frame;
mod gains;
mod inputs;
mod law;
mod leaf;
mod moment;
mod moved;
mod outcome;
mod path;
mod run;

pub use ask::{Answered, Ask};
pub use before::Before;
pub use build::BuildRun;
pub use fault::FeedFault;
pub use law::{answers_decide, beginnings_decide, fetches_its_own, moves_its_own};
pub use moved::Moved;
pub use outcome::Outcome;
pub use run::start;
