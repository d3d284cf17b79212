//! Programs that are started, one launch at a time, each to its end.
//!
//! A [`Runner`] takes a [`Launch`] and answers how it [`Ended`]. It keeps the list of its pairs of launch and end, and
//! contracts see a runner as this list: a call adds one pair, that of the launch given and the end answered. Only where
//! memory for what is needed before the start is refused, nothing is started and none is added; the answer is then
//! `NoMemory`.
//!
//! [`Scripted`] answers ends that were handed in, [`Machine`] starts programs of this machine. What `Machine` tells the
//! system to start is the launch, by contract; what lies past the start, no contract can say, and tests show it.
#![tactic(auto)]

mod command;
mod ended;
mod launch;
mod machine;
mod noted;
mod pipe;
mod pipes;
mod runner;
mod scripted;
mod starter;

pub use ended::Ended;
pub use launch::Launch;
pub use machine::Machine;
pub use pipe::{Input, Output};
pub use pipes::{GiveFault, TakeFault, give_input, take_output};
pub use runner::Runner;
pub use scripted::Scripted;
