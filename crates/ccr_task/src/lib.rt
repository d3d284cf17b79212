//! An ask becomes a launch, an end becomes an answer; and the folders of builds.
//!
//! [`check_launch`] and [`launch_of`] say what is launched for a resource's check and for an ask of a build, in the two
//! folders of the [`Places`] that the server is given. Where these name a launcher, that is started in the place of each
//! program, with words that say which program it is, and its step's timeout: [`started_check`] and [`started_ask`].
//! [`answered_of`] says what the end of an ask's program answers, [`config_of`] what a task's file does. Contracts see asks,
//! launches, ends and answers as data without where it lies in memory, and each of these calls as the one launch or answer
//! that its data make. An answer that is no success has a [`StepFault`] beside it, and [`note_of`] is the line that is told
//! of that.
//!
//! A [`Shelf`] makes a folder, reads a file, removes a folder and says whether one is there. Its contract says which calls it
//! had, with their paths and their answers, in order: a list that takes no byte. Its counts of failures and of folders that
//! it saw are those of this list. [`ask_abort`] asks for a build to be aborted, by a folder that the server looks for at the
//! build's turns. [`Folders`] are the machine's folders, [`ShelfScript`] gives answers that were handed in. What lies in a
//! folder of the machine, no contract can say, and tests show it; what is read of an open file is its bytes, by contract.
#![tactic(auto)]

mod abort;
mod answer;
mod calls;
mod counts;
mod environment;
mod fault;
mod folders;
mod launch;
mod note;
mod noted;
mod places;
mod said;
mod script;
mod shelf;
mod started;

pub use abort::ask_abort;
pub use answer::{answered_of, config_of};
pub use counts::ShelfCounts;
pub use fault::ShelfFault;
pub use folders::{Folders, read_opened};
pub use launch::{can_launch, check_launch, launch_of};
pub use note::{ask_head, cut_note, note_of, step_head};
pub use places::Places;
pub use said::{Said, StepFault};
pub use script::{ShelfAnswer, ShelfScript};
pub use shelf::Shelf;
pub use started::{Purpose, StepLabel, started_ask, started_check, started_of, step_label};
