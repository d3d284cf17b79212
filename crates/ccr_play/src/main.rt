//! Plays lines, and prints each with its answer.
//!
//! `ccr_play KIND` reads lines from standard input. A line's first word says what is asked, and what follows is given to it.
//! The line is printed as it stands, and each line of its answer below it, after `> `. A line that begins with `#`, and an
//! empty one, is printed as it stands. Lines that begin with `> ` are left out: so what was printed can be played again. The
//! kinds are:
//!
//! | `versions` | versions, pins and objects |
//! | `pipelines` | pipelines and task files |
//! | `steps` | builds in one line each |
//! | `builds` | a build of a job, answered line by line |
//! | `problems` | problems, claims, proofs, and what the checker says of them |
//! | `programs` | requests, replies, launches, ends, and builds whose programs are a script |
//! | `histories` | a history, and the problems of its jobs |
//! | `stores` | histories that a store keeps and loads |
//!
//! Each has a module of its name, which says what its lines are. With the word `--timed` behind it, nothing but each
//! line's time is printed. `ccr_play_server` plays those of servers. `ccr_play stores DATABASE` keeps the histories in
//! files of this name too.
//!
//! `ccr_play check KIND.cases ..` plays the lines of files, and compares what is told with the files: a line for each file. The
//! gate runs this on the files of `data/`, whose answers were worked out by hand.
//!
//! Other calls: `ccr_play pipeline` reads a whole pipeline. `ccr_play resolve BUDGET` reads a problem and prints the
//! proof of its best choice, or that none satisfies, of at most BUDGET nodes; `ccr_play choose BUDGET` prints the line
//! of the same claim alone. Statuses: 0 done, 1 refused or answered otherwise, 2 usage, 3 over budget, 4 out of memory
//! or unreadable.
#![tactic(auto)]

mod builds;
mod calls;
mod histories;
mod kind;
mod order;
mod pipelines;
mod problems;
mod programs;
mod steps;
mod stores;
mod versions;

use calls::{answer_choose, answer_pipeline, answer_resolve};
use ccr_rows::{Answer, Telling, arguments, check, input, play_input, played, tell};
use kind::LineKind;
use order::{Call, Whole, call_of};
use std::alloc::{AllocError, Global};
use std::io;
use std::process::ExitCode;
use stores::Stores;

/// What is told of lines of stores on standard input, whose histories are kept in files of this name too.
fn keep(rt: &HostRuntime, path: &str) -> io::Result<Answer> {
    let stores = Stores::new(rt, Some(path));
    let lines = played(rt, stores, input(rt)?.as_str(), Telling::Answers)?;
    Ok(Answer { lines, status: 0 })
}

/// What is made of a whole text.
fn answer_text(alloc: Global, text: &[u8], whole: Whole) -> Result<Answer, AllocError> {
    match whole {
        Whole::Pipeline => answer_pipeline(alloc, text),
        Whole::Resolve(budget) => answer_resolve(alloc, text, budget.nodes),
        Whole::Choose(budget) => answer_choose(alloc, text, budget.nodes),
    }
}

/// What is made of standard input.
fn answer_input(rt: &HostRuntime, whole: Whole) -> io::Result<Answer> {
    let text = input(rt)?;
    Ok(answer_text(rt.alloc(), text.as_bytes(), whole)?)
}

fn answer_of(rt: &HostRuntime, call: Call<'_>) -> io::Result<Answer> {
    match call {
        Call::Check(names) => check::<LineKind>(rt, names),
        Call::Lines(kind, telling) => play_input(rt, kind, telling),
        Call::Text(whole) => answer_input(rt, whole),
        Call::Kept(path) => keep(rt, path),
    }
}

/// What the program's words ask for; None where they ask for nothing that there is.
fn answered(rt: &HostRuntime) -> io::Result<Option<Answer>> {
    let words = arguments(rt)?;
    match call_of(&words) {
        Some(call) => Ok(Some(answer_of(rt, call)?)),
        None => Ok(None),
    }
}

fn main(rt: HostRuntime) -> io::Result<ExitCode> {
    match answered(&rt) {
        Ok(Some(answer)) => tell(&rt, &answer),
        Ok(None) => {
            eprintln!(rt;
                "usage: ccr_play KIND [--timed]|check FILE..|pipeline|resolve BUDGET|choose BUDGET|stores DATABASE"
            )?;
            Ok(ExitCode::from(2))
        }
        Err(error) => {
            eprintln!(rt; "{error}")?;
            Ok(ExitCode::from(4))
        }
    }
}
