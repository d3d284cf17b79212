//! Plays lines of cores and servers, and prints each with its answer, as `ccr_play` does lines of other kinds.
//!
//! `ccr_play_server KIND` reads lines from standard input. The kinds are:
//!
//! | `events` | events of a core |
//! | `servers` | servers whose programs and folders are a script |
//!
//! Each has a module of its name, which says what its lines are. With the word `--timed` behind it, nothing but each line's
//! time is printed.
//!
//! `ccr_play_server check KIND.cases ..` plays the lines of files, and compares what is told with the files: a line for each
//! file. The gate runs this on the files of `data/`, whose answers were worked out by hand.
//!
//! Statuses: 0 done, 1 answered otherwise, 2 usage, 4 out of memory or unreadable.
#![tactic(auto)]

mod event;
mod events;
mod kind;
mod order;
mod reply;
mod servers;
mod show;

use ccr_rows::{Answer, arguments, check, play_input, tell};
use kind::LineKind;
use order::{Call, call_of};
use std::io;
use std::process::ExitCode;

fn answer_of(rt: &HostRuntime, call: Call<'_>) -> io::Result<Answer> {
    match call {
        Call::Check(names) => check::<LineKind>(rt, names),
        Call::Lines(kind, telling) => play_input(rt, kind, telling),
    }
}

/// What the program's words ask for; None where they ask for nothing that there is.
fn answered(rt: &HostRuntime) -> io::Result<Option<Answer>> {
    let words = arguments(rt)?;
    match call_of(&words) {
        Some(call) => Ok(Some(answer_of(rt, call)?)),
        None => Ok(None),
    }
}

fn main(rt: HostRuntime) -> io::Result<ExitCode> {
    match answered(&rt) {
        Ok(Some(answer)) => tell(&rt, &answer),
        Ok(None) => {
            eprintln!(rt; "usage: ccr_play_server KIND [--timed]|check FILE..")?;
            Ok(ExitCode::from(2))
        }
        Err(error) => {
            eprintln!(rt; "{error}")?;
            Ok(ExitCode::from(4))
        }
    }
}
