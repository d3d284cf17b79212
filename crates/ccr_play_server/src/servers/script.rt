//! Scripts: how programs end, what folders and files answer, how many commits are taken, how the next one fails, and whether
//! there is a launcher.

use anyhow::Result;
use ccr_history::{History, StoreFault};
use ccr_process::Ended;
use ccr_rows::{end_of, number_of, sights_of, split};
use ccr_task::{ShelfAnswer, ShelfFault};
use std::alloc::{AllocError, Global};
use std::collections::VecDeque;

/// What programs and the machine answer to the next server.
#[derive(Drop)]
pub(super) struct Script {
    pub(super) ends: VecDeque<Ended>,
    pub(super) answers: VecDeque<ShelfAnswer>,
    pub(super) sights: VecDeque<Result<bool, ShelfFault>>,
    pub(super) commits: u32,
    pub(super) fault: StoreFault,
    pub(super) history: History,
    pub(super) has_notes: bool,
    pub(super) has_launcher: bool,
}

/// The fault that a word names; that of a disk where it names none.
fn fault_of(word: &str) -> StoreFault {
    match word {
        "refused" => StoreFault::Refused,
        "no-memory" => StoreFault::NoMemory,
        "interrupted" => StoreFault::Interrupted,
        "not-ours" => StoreFault::NotOurs,
        _ => StoreFault::Disk,
    }
}

impl Script {
    /// No answers; every commit is taken, and the history is empty.
    pub(super) fn new(alloc: Global) -> Script {
        Script {
            ends: VecDeque::new(alloc),
            answers: VecDeque::new(alloc),
            sights: VecDeque::new(alloc),
            commits: u32::MAX,
            fault: StoreFault::Disk,
            history: History::new(alloc),
            has_notes: false,
            has_launcher: false,
        }
    }

    /// Has the storage take so many commits, and fail at each later one with the fault that stands behind their number.
    pub(super) fn fail_after(&mut self, words: &str) -> Result<()> {
        let (commits, fault) = split(words);
        self.commits = number_of(commits)?;
        self.fault = fault_of(fault);
        Ok(())
    }

    /// Adds ends, a word each.
    pub(super) fn add_ends(&mut self, alloc: Global, words: &str) -> Result<()> {
        for word in words.split_whitespace() {
            self.ends.push_back(end_of(alloc, word)?)?;
        }
        Ok(())
    }

    /// Adds so many answers to calls for folders: that it is done, or that it failed.
    pub(super) fn add_folders(&mut self, count: u32, is_done: bool) -> Result<(), AllocError> {
        for _ in 0..count {
            self.answers.push_back(if is_done {
                ShelfAnswer::Done
            } else {
                ShelfAnswer::Fault(ShelfFault::Failed)
            })?;
        }
        Ok(())
    }

    /// Adds a build of a job, which runs, to the history that the server begins with; so many, where a number follows the
    /// name.
    pub(super) fn add_builds(&mut self, alloc: Global, words: &str) -> Result<()> {
        let (job, number) = split(words);
        let count = if number.is_empty() {
            1
        } else {
            number_of(number)?
        };
        let nothing = Vec::new(alloc);
        for _ in 0..count {
            self.history.add_build(alloc, job, &nothing)?;
        }
        Ok(())
    }

    /// Adds whether folders are there, a word each.
    pub(super) fn add_sights(&mut self, alloc: Global, words: &str) -> Result<()> {
        for sight in sights_of(alloc, words)? {
            self.sights.push_back(sight)?;
        }
        Ok(())
    }

    /// Adds an answer to a call for a file: its text.
    pub(super) fn add_file(&mut self, alloc: Global, text: &str) -> Result<(), AllocError> {
        let bytes = Vec::from_slice(alloc, text.as_bytes())?;
        self.answers.push_back(ShelfAnswer::Read(bytes))?;
        Ok(())
    }
}
