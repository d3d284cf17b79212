//! What the two programs share that play lines.
//!
//! A [`Player`] answers lines of one kind, and [`played`] tells each line with its answer below it, after `> `. A
//! program has its [`Kind`]s of lines; with [`check`] it plays the lines of files, `KIND.cases`, and compares what is
//! told with the files. [`Answer`] is what a program prints, and with which status it ends. The words of lines stand
//! for versions, pins, places, statuses and answers, for how programs end and what folders answer, or they are refused
//! with a [`LineFault`]. What a build asks is told as JSON, by [`ask_text`].
//!
//! Beside these stands one law, [`resolved`]: the checker accepts what the resolver answers.
#![tactic(auto)]

mod accepted;
mod answer;
mod ask;
mod ends;
mod fault;
mod files;
mod history_text;
pub mod json;
mod play;
mod program;
mod words;

pub use accepted::resolved;
pub use answer::answered_of;
pub use ask::ask_text;
pub use ends::{end_of, ends_of, fault_of, places, places_by_launcher, sights_of};
pub use fault::LineFault;
pub use files::{Kind, check};
pub use history_text::text_of;
pub use play::{Player, Telling, played};
pub use program::{Answer, OVER_BUDGET, arguments, input, play_input, tell};
pub use words::{
    number_of, numbered, outcome_name, pair_of, pairs_of, pin_of, scope_in, split, status_name,
    status_of, turn_of, used_places, value_of, version_numbered, version_of, versions_of,
};
