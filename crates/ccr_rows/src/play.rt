//! Lines are played, and each is told with its answer.

use std::alloc::{AllocError, Global};
use std::io;
use std::time::Instant;

/// What plays the lines of one kind.
pub trait Player {
    /// The answer to a line, or in its place the words of why there is none.
    fn answer_to(&mut self, alloc: Global, line: &str) -> Result<String, AllocError>;
}

/// What is told of a line.
#[derive(Clone, Copy)]
pub enum Telling {
    /// The line, and its answer below it.
    Answers,
    /// The line alone, behind the microseconds that it took.
    Times,
}

/// What an answer's lines stand behind.
const MARK: &str = "> ";

/// Whether the answer tells that memory was refused, in the words of `AllocError` or of a fault.
fn is_want_of_memory(answer: &str) -> bool {
    answer == "out of memory" || answer == "memory allocation failed"
}

/// The answer to a line. One that ran out of memory is played again: it has left all as it was, so a run in which one
/// allocation is refused tells what every run tells.
fn answer_of<P: Player>(alloc: Global, player: &mut P, line: &str) -> Result<String, AllocError> {
    match player.answer_to(alloc, line) {
        Ok(answer) if !is_want_of_memory(answer.as_str()) => Ok(answer),
        _ => player.answer_to(alloc, line),
    }
}

/// Whether a line is played: it isn't empty, a comment, or an answer.
pub(crate) fn is_played(line: &str) -> bool {
    !line.is_empty() && !line.starts_with("#") && !line.starts_with(MARK)
}

fn push_line(text: &mut String, line: &str) -> Result<(), AllocError> {
    text.push_str(line)?;
    text.push_str("\n")
}

/// Adds a line, and each line of its answer behind a mark.
fn push_answer(text: &mut String, line: &str, answer: &str) -> Result<(), AllocError> {
    push_line(text, line)?;
    for line in answer.lines() {
        text.push_str(MARK)?;
        push_line(text, line)?;
    }
    Ok(())
}

/// Plays a line, and adds what is told of it.
fn push_played<P: Player>(
    rt: &HostRuntime,
    text: &mut String,
    player: &mut P,
    line: &str,
    telling: Telling,
) -> io::Result<()> {
    let start = Instant::now(rt)?;
    let answer = answer_of(rt.alloc(), player, line)?;
    match telling {
        Telling::Answers => push_answer(text, line, answer.as_str())?,
        Telling::Times => {
            let micros = start.elapsed(rt)?.as_micros();
            write!(text, "{micros} microseconds: {line}\n")?;
        }
    }
    Ok(())
}

/// Plays each line of a text, and adds what is told. Lines that begin with `> `, the answers that are wanted, are left
/// out. A line that begins with `#`, and an empty one, is told as it stands.
fn push_all<P: Player>(
    rt: &HostRuntime,
    text: &mut String,
    player: &mut P,
    lines: &str,
    telling: Telling,
) -> io::Result<()> {
    for line in lines.lines() {
        if is_played(line) {
            push_played(rt, text, player, line, telling)?;
        } else if !line.starts_with(MARK) {
            push_line(text, line)?;
        }
    }
    Ok(())
}

/// What is told of the lines of a text, by a player that is let go behind them.
pub fn played<P: Player + Drop>(
    rt: &HostRuntime,
    player: P,
    lines: &str,
    telling: Telling,
) -> io::Result<String> {
    let mut player = player;
    let mut text = String::new(rt.alloc());
    push_all(rt, &mut text, &mut player, lines, telling)?;
    Ok(text)
}
