//! Answers to what a build asked, as words.

use crate::fault::LineFault;
use crate::words::version_of;
use ccr_pipeline::read_task;
use ccr_steps::Answered;
use std::alloc::Global;

/// The answer of a word: `done`, `failed`, `errored`, `aborted`, `pushed` with a version, or `config` with a task's.
pub fn answered_of(alloc: Global, kind: &str, given: &str) -> Result<Answered, LineFault> {
    match kind {
        "done" => Ok(Answered::Done),
        "failed" => Ok(Answered::Failed),
        "errored" => Ok(Answered::Errored),
        "aborted" => Ok(Answered::Aborted),
        "pushed" => Ok(Answered::Pushed(version_of(alloc, given)?)),
        "config" => Ok(Answered::Config(read_task(alloc, given.as_bytes())?)),
        _ => Err(LineFault::NotAnAnswer),
    }
}
