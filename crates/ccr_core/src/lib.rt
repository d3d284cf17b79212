//! The server without the world: events in, replies and changes of the history out.
//!
//! The core knows a history, a pipeline, and the builds that run. An [`Event`] is one atomic step: a new pipeline, what
//! a check found, a build that is to be made, an answer to what a build asked, an abort of a build, a pin, a version that
//! is disabled or enabled, or a restart.
//! It is answered by a [`Reply`], or refused with a [`CoreFault`], and then nothing changes.
//!
//! What the core does is a relation on states: from a state, an event may have a reply and lead to another state. A run
//! is a list of events with their replies, one step after another. Which programs ran, how long they took and what else
//! happened between comes in by the answers alone.
//!
//! A [`Core`] is the machine. Its contracts see the states that it stands for: from each of them, [`Core::step`] leads
//! to one that it stands for then. What a core stands for is reached by events from a state in which nothing runs, so
//! the laws over every list of events hold of it.
//!
//! A [`Command`] is what a whole server is told to do, with its arguments; one that changes nothing has a [`Shown`],
//! with the [`Form`] that it is shown in. The command line is read as one, without a server. Clauses see it as
//! `command_data` says (`specs/Commands.antt`). The core itself takes events alone.
#![tactic(auto)]

mod answered;
mod busy;
mod change;
mod command;
mod disabled;
mod end;
mod event;
mod fault;
mod form;
mod going;
mod indexed;
mod law;
mod limit;
mod machine;
mod made;
mod named;
mod opened;
mod parts;
mod pick;
mod pinned;
mod piped;
mod place;
mod position;
mod pushed;
mod reply;
mod reported;
mod restarted;
mod resumed;
mod scheduled;
mod search;
mod shown;
mod step;
mod used;
mod wanted;

pub use command::Command;
pub use event::Event;
pub use fault::CoreFault;
pub use form::Form;
pub use law::{
    aborts_are_answers, each_change_is_taken, each_ends_as_meant, each_fetches_what_it_used,
    each_has_its_fate, each_has_its_own, each_is_made_best, each_moves_its_own, limits_are_kept,
    runs_agree,
};
pub use limit::MOST_RUNNING;
pub use machine::Core;
pub use pick::has_news;
pub use reply::Reply;
pub use shown::Shown;
pub use wanted::wants_are_answered;
