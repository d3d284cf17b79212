//! What has to be chosen for a job's next build, in a pipeline with a history.
//!
//! [`problem_of`] makes the [`ccr_choice::Problem`] of a job. Which problem that is, `specs/ProblemOf.antt` says, rule by
//! rule: what an input may take is in `specs/Allowed.antt`, what passed a job in `specs/Passed.antt`, and how scopes and
//! jobs are numbered in `specs/Numbering.antt`.
//!
//! It is refused as [`ProblemFault::NoJob`] where the pipeline has no such job, and as [`ProblemFault::NoMemory`] if out of
//! memory.
//!
//! [`Indexes`] has an index ([`ccr_index::Index`]) for each job of a pipeline, in order, which is kept while the history
//! changes. It stands for the job's problem, so that a choice for the job's next build needs no other reading of the history.
//! Versions, builds that are made and successful builds come to it one by one ([`Indexes::add_report`], [`Indexes::make`],
//! [`Indexes::end`]), in a time that doesn't grow with the history. Contracts see the indexes as their list, and say by
//! `AreIndexes` that they are those of a pipeline with a history (`specs/Indexes.antt`). The only error is out of memory, and
//! it leaves the problems that they stand for.
//!
//! Before that stands whether another build of the job may run ([`has_reached`]), and behind it whether what was chosen is new
//! ([`is_new`]). A build that is cut short ([`cut_short`]) changes no problem.
#![tactic(auto)]

mod allowed;
mod brought;
mod coming;
mod cut;
mod fault;
mod indexes;
mod inputs;
mod law;
mod limit;
mod news;
mod numbering;
mod passed;
mod problem;
mod scopes;
mod taken;
mod triggers;

pub use brought::Brought;
pub use coming::has_newer;
pub use cut::cut_short;
pub use fault::ProblemFault;
pub use indexes::Indexes;
pub use law::{best_is_said_by_names, builds_change_problems, reports_change_problems};
pub use limit::has_reached;
pub use problem::{problem_of, problem_of_job};
pub use triggers::is_new;
