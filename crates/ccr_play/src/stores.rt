//! Histories that a store keeps, change by change, and loads again.
//!
//! The lines that change a history, from its `pipeline` on, are those of histories. `load` makes their changes in a store in
//! memory, and, where the program is given a `DATABASE`, in the files `DATABASE-1`, `DATABASE-2` and so on too; such a file is
//! closed, opened again and loaded once more. It is answered how many lines the history has that was loaded as it was made;
//! where one wasn't, with both.
//!
//! `stops FRAMES` makes the changes, one a line, over files in memory of which one fails from a call on, at each of its
//! calls in turn, and the same while all is loaded. A log of FRAMES frames is copied into the database. It is answered
//! how many stops there were; where one left another history than that before the change that it cut short or after it,
//! with what it left. `raises FRAMES` makes them in a database that gets the number of the first format then, and stops
//! a store at each call while it takes and loads that one; and once more while it takes it as it was left, in the
//! second format.
//!
//! `foreign STATEMENTS` makes a database by these, `spoiled STATEMENTS` one with the six tables and then by these, and
//! `text TEXT` a file of this text: it is answered how a store refuses it, and whether its bytes are as they were.

mod files;
mod foreign;
mod kept;
mod lines;
mod runs;
mod stops;
mod stored;

use anyhow::{Result, bail};
use ccr_rows::{Player, number_of, split};
use ccr_store::Store;
use foreign::{Content, refusal_told};
use sqlite::{Connection, File, FileStore};
use std::alloc::{AllocError, Global};
use stops::{raises_told, stops_told};
use stored::{held, keep};

/// The lines of the history that is made, and where it is kept besides in memory.
#[derive(Drop)]
pub(crate) struct Stores<'r> {
    rt: &'r HostRuntime,
    path: Option<&'r str>,
    loaded: usize,
    lines: String,
}

/// The store in the database of this file.
fn opened(rt: &HostRuntime, path: &str) -> Result<Store<FileStore<File>>> {
    let conn = Connection::open(rt, path)?;
    Ok(Store::adopt(rt.alloc(), conn)?)
}

fn keep_in_file(rt: &HostRuntime, path: &str, lines: &str) -> Result<String> {
    let store = opened(rt, path)?;
    keep(rt.alloc(), store, lines)
}

fn held_in_file(rt: &HostRuntime, path: &str) -> Result<String> {
    let store = opened(rt, path)?;
    held(rt.alloc(), store)
}

fn keep_in_memory(alloc: Global, lines: &str) -> Result<String> {
    let store = Store::open_in_memory(alloc)?;
    keep(alloc, store, lines)
}

/// Keeps a history in a file, which is closed and opened again. An error where it isn't this one then.
fn check_in_file(rt: &HostRuntime, path: &str, lines: &str, made: &str) -> Result<()> {
    let kept = keep_in_file(rt, path, lines)?;
    let again = held_in_file(rt, path)?;
    if kept.as_str() != made || again.as_str() != made {
        bail!("made:\n{made}\nin the file:\n{kept}\nopened again:\n{again}")
    }
    Ok(())
}

/// Keeps a history in the file of a number, where files are named.
fn check_numbered(
    rt: &HostRuntime,
    path: Option<&str>,
    number: usize,
    lines: &str,
    made: &str,
) -> Result<()> {
    match path {
        Some(path) => {
            let path = format!(in rt.alloc(); "{path}-{number}")?;
            check_in_file(rt, path.as_str(), lines, made)
        }
        None => Ok(()),
    }
}

/// Keeps a history in memory, and in a file where one is named: that it was loaded as it was made.
fn told(rt: &HostRuntime, path: Option<&str>, number: usize, lines: &str) -> Result<String> {
    let made = keep_in_memory(rt.alloc(), lines)?;
    check_numbered(rt, path, number, lines, made.as_str())?;
    let count = made.as_str().lines().count();
    Ok(format!(in rt.alloc(); "history {number} of {count} lines: loaded as it was made")?)
}

impl<'r> Stores<'r> {
    /// No history; histories will be kept in memory, and in files of this name.
    pub(crate) fn new(rt: &'r HostRuntime, path: Option<&'r str>) -> Stores<'r> {
        Stores {
            rt,
            path,
            loaded: 0,
            lines: String::new(rt.alloc()),
        }
    }

    fn load(&mut self) -> Result<String> {
        self.loaded = self.loaded.saturating_add(1);
        told(self.rt, self.path, self.loaded, self.lines.as_str())
    }

    fn add(&mut self, line: &str) -> Result<(), AllocError> {
        if line.starts_with("pipeline ") {
            self.lines.clear();
        }
        self.lines.push_str(line)?;
        self.lines.push_str("\n")
    }

    /// The answer to a line.
    fn told(&mut self, alloc: Global, line: &str) -> Result<String> {
        match split(line) {
            ("load", "") => self.load(),
            ("stops", frames) => stops_told(alloc, self.lines.as_str(), number_of(frames)?),
            ("raises", frames) => raises_told(alloc, self.lines.as_str(), number_of(frames)?),
            ("foreign", statements) => refusal_told(alloc, Content::Foreign(statements)),
            ("spoiled", statements) => refusal_told(alloc, Content::Spoiled(statements)),
            ("text", text) => refusal_told(alloc, Content::Text(text)),
            _ => {
                self.add(line)?;
                Ok(String::new(alloc))
            }
        }
    }
}

impl Player for Stores<'_> {
    fn answer_to(&mut self, alloc: Global, line: &str) -> Result<String, AllocError> {
        self.told(alloc, line)
            .or_else(|error| format!(in alloc; "{error}"))
    }
}
