//! What has to be chosen for a job, and whether a choice fits.
//!
//! A [`Problem`] has the inputs of a job in plan order, each with its scope, its allowed places and the jobs that its
//! version must have passed, and for each of these named jobs its successful builds with their pairs of scope and
//! place. A [`Choice`] gives each input a place and each named job one build; [`satisfies`] says whether it fits, or
//! what is wrong with it first, and [`later`] compares two lists of places. Contracts see a problem as a record of
//! lists (`specs/Problem.antt`).
//!
//! Where the builds of some jobs are fixed (`specs/Assignment.antt`), [`possible`] finds the best place that each input
//! can still have (`specs/Possible.antt`). What is preferred is a parameter of the definitions
//! (`specs/Preference.antt`), and so is what the best choice is (`specs/Optimal.antt`); the order of a problem is said
//! in one place, `order_of`.
//!
//! A problem has one text and each text one problem: [`write_problem`], [`read_problem`]. A text is refused with the first
//! line that breaks a rule.
//!
//! Problems, claims and proofs are lines of words, with one spelling for each (`specs/Text.antt`). A line is words with
//! one blank between two of them and a line feed. [`Lines`] gives a text's lines from the top, one at a time; a reader
//! that stops says by [`Stop`] how many lines were left.
#![tactic(auto)]

mod choice;
mod dominated;
mod fault;
mod format;
mod law;
mod line;
mod numbers;
mod order;
pub mod possible;
mod problem;
mod put;
mod read;
mod rules;
mod stop;
mod verdict;
mod word;
mod write;

pub use choice::Choice;
pub use dominated::is_dominated;
pub use fault::ProblemFault;
pub use law::{
    bad_line_of_a_problem_is_the_first, best_choice_is_one, best_places_are_one,
    dominating_build_takes_the_place, problem_has_one_text,
};
pub use line::{Line, Lines};
pub use numbers::{front_numbers, push_numbers};
pub use order::{is_preferred, later, preferred};
pub use problem::{
    Build, Input, JobBuilds, MOST_BUILDS, MOST_INPUTS, MOST_JOBS, MOST_PLACES, Problem,
};
pub use put::put_line;
pub use read::read_problem;
pub use stop::Stop;
pub use verdict::{Verdict, satisfies};
pub use word::Word;
pub use write::write_problem;
