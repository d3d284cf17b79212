//! Files of lines with their answers: whether the lines are answered so.

use crate::play::{Telling, is_played};
use crate::program::Answer;
use std::alloc::{AllocError, Global};
use std::{fs, io};

/// The number of the first line in which two texts differ.
fn first_difference(stored: &str, told: &str) -> usize {
    let mut lines = stored.lines();
    let same = told
        .lines()
        .take_while(|line| lines.next() == Some(line))
        .count();
    same.saturating_add(1)
}

/// The line that tells of a file how many of its lines were played and are answered as stored, or where the first isn't.
fn compared(alloc: Global, name: &str, stored: &str, told: &str) -> Result<Answer, AllocError> {
    if stored == told {
        let count = stored.lines().filter(|line| is_played(line)).count();
        let lines = format!(in alloc; "{name}: {count} lines, answered as stored\n")?;
        return Ok(Answer { lines, status: 0 });
    }
    let number = first_difference(stored, told);
    let line = told
        .lines()
        .nth(number.saturating_sub(1))
        .unwrap_or("the end");
    let lines = format!(in alloc; "{name}: line {number} is told otherwise: {line}\n")?;
    Ok(Answer { lines, status: 1 })
}

/// A kind of lines.
pub trait Kind: Copy {
    /// The kind of this name, if there is one.
    fn of_name(name: &str) -> Option<Self>;

    /// What is told of the lines of a text.
    fn play(self, rt: &HostRuntime, lines: &str, telling: Telling) -> io::Result<String>;
}

/// The kind that a file's name tells: `KIND.cases`.
fn kind_of_file<K: Kind>(name: &str) -> Option<K> {
    K::of_name(name.strip_suffix(".cases")?)
}

/// Plays the lines of a file, and compares what is told with the file.
fn check_file<K: Kind>(rt: &HostRuntime, name: &str) -> io::Result<Answer> {
    let Some(kind) = kind_of_file::<K>(name) else {
        return Ok(Answer {
            lines: format!(in rt.alloc(); "{name}: no such kind\n")?,
            status: 1,
        });
    };
    let stored = fs::read_to_string(rt, name)?;
    let told = kind.play(rt, stored.as_str(), Telling::Answers)?;
    Ok(compared(rt.alloc(), name, stored.as_str(), told.as_str())?)
}

/// Checks a file, and adds what is told of it.
fn push_checked<K: Kind>(rt: &HostRuntime, all: &mut Answer, name: &str) -> io::Result<()> {
    let found = check_file::<K>(rt, name)?;
    all.status = all.status.max(found.status);
    Ok(all.lines.push_str(found.lines.as_str())?)
}

/// Checks each of these files: a line for each, and status 1 where an answer isn't the stored one. An error where a file can't be
/// read.
pub fn check<K: Kind>(rt: &HostRuntime, names: &[String]) -> io::Result<Answer> {
    let mut all = Answer {
        lines: String::new(rt.alloc()),
        status: 0,
    };
    for name in names {
        push_checked::<K>(rt, &mut all, name.as_str())?;
    }
    Ok(all)
}
