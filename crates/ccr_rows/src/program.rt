//! What a program reads and prints.

use crate::files::Kind;
use crate::play::Telling;
use std::io::Read;
use std::process::ExitCode;
use std::{env, io};

/// Lines, each ended by LF, and the status to end with.
#[derive(Drop)]
pub struct Answer {
    /// What is printed.
    pub lines: String,
    /// The status to end with.
    pub status: u8,
}

/// The status where a node budget is over; its line goes to standard error.
pub const OVER_BUDGET: u8 = 3;

/// All of standard input. An error where it can't be read, or is no text.
pub fn input(rt: &HostRuntime) -> io::Result<String> {
    let mut text = String::new(rt.alloc());
    rt.reader().read_to_string(&mut text)?;
    Ok(text)
}

/// What is told of the lines of standard input, with status 0. An error where it can't be read, or is no text.
pub fn play_input<K: Kind>(rt: &HostRuntime, kind: K, telling: Telling) -> io::Result<Answer> {
    let lines = kind.play(rt, input(rt)?.as_str(), telling)?;
    Ok(Answer { lines, status: 0 })
}

/// The words that the program was called with. An error where one is no text.
pub fn arguments(rt: &HostRuntime) -> io::Result<Vec<String>> {
    let mut words = Vec::new(rt.alloc());
    for word in env::args(rt)?.skip(1) {
        words.push(word)?;
    }
    Ok(words)
}

/// Prints an answer, and gives the status to end with. An error where it can't be written.
pub fn tell(rt: &HostRuntime, answer: &Answer) -> io::Result<ExitCode> {
    if answer.status == OVER_BUDGET {
        eprint!(rt; "{}", answer.lines.as_str())?;
    } else {
        print!(rt; "{}", answer.lines.as_str())?;
    }
    Ok(ExitCode::from(answer.status))
}
