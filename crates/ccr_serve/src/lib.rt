//! The server: what it checks, schedules and runs, and what it prints of that.
//!
//! A server serves one item after another: a check of a resource, a schedule of a job, a turn of a running build, or
//! the event of a command. Each starts at most one program, makes at most one event of the core, and prints the event's
//! lines. What it does of an item is a relation (`specs/Serving.antt`), and a call is the items one after another
//! (`specs/Items.antt`): it names what the runner ran, what the core was told and replied, and the lines, and no loop
//! of the code. A call's contract says what was done, and how the server is left (`specs/Served.antt`).
//!
//! A [`Server`] stands over a runner of programs, a shelf of folders and a storage of its history.
#![tactic(auto)]

mod aborting;
mod answer;
mod called;
mod checking;
mod disabling;
mod due;
mod end;
mod ended;
mod fault;
mod found;
mod items;
mod law;
mod leftovers;
mod make;
mod names;
mod notes;
mod open;
mod pinning;
mod round;
mod running;
mod server;
mod setting;
mod showing;
mod turn;
mod wanted;

pub use fault::ServeFault;
pub use law::{calls_are_runs, calls_make_best, openings_make_best, turns_go_round};
pub use open::Unopened;
pub use server::Server;
