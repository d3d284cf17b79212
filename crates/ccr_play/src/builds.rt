//! A build of one job, answered line by line.
//!
//! `pipeline JSON` sets a pipeline; `start JOB VERSIONS` starts a build of a job, with a version for each of its inputs
//! in plan order. Each other line is an answer to what the build asked last: `done`, `failed`, `errored`, `aborted`,
//! `pushed VERSION` or `config CONFIG`. The answer to a line is what the build asks then, as JSON, or how it ended and
//! which versions it moved.

use crate::steps::{push_moved, started_of};
use anyhow::{Result, anyhow};
use ccr_pipeline::{Pipeline, read};
use ccr_rows::{Player, answered_of, ask_text, outcome_name, split};
use ccr_steps::{BuildRun, FeedFault};
use std::alloc::{AllocError, Global};

/// The pipeline that was set last, and the build that was started last.
#[derive(Drop)]
pub(crate) struct Builds {
    pipeline: Option<Pipeline>,
    run: Option<BuildRun>,
}

/// Adds how a build ended, and what it moved.
fn push_end(alloc: Global, text: &mut String, run: &BuildRun) -> Result<(), AllocError> {
    if let Some(outcome) = run.outcome() {
        text.push_str("outcome ")?;
        text.push_str(outcome_name(outcome))?;
    }
    push_moved(alloc, text, "\nmoved", run)
}

/// What a build asks, or, where it has ended, its outcome and what it moved.
fn state_of(alloc: Global, run: &BuildRun) -> Result<String, AllocError> {
    if let Some(ask) = run.wants() {
        return ask_text(alloc, &ask, None);
    }
    let mut text = String::new(alloc);
    push_end(alloc, &mut text, run)?;
    Ok(text)
}

/// Gives a build the answer of a line.
fn fed(alloc: Global, run: &mut BuildRun, line: &str) -> Result<String> {
    let (kind, given) = split(line);
    match run.feed(answered_of(alloc, kind, given)?) {
        Ok(()) => Ok(state_of(alloc, run)?),
        Err(FeedFault::NothingAsked) => Ok(String::from_str(alloc, "nothing asked")?),
        Err(fault) => Err(fault.into()),
    }
}

/// A build of the job of this name.
fn run_of(alloc: Global, pipeline: &Pipeline, name: &str, versions: &str) -> Result<BuildRun> {
    match pipeline.jobs().iter().find(|job| job.name.as_str() == name) {
        Some(job) => started_of(alloc, job, versions),
        None => Err(anyhow!("no such job")),
    }
}

impl Builds {
    /// No pipeline, and no build.
    pub(crate) fn new() -> Builds {
        Builds {
            pipeline: None,
            run: None,
        }
    }

    fn set(&mut self, alloc: Global, text: &str) -> Result<String> {
        let pipeline = read(alloc, text.as_bytes())?;
        let resources = pipeline.resources().len();
        let jobs = pipeline.jobs().len();
        self.pipeline = Some(pipeline);
        Ok(format!(in alloc; "{resources} resources, {jobs} jobs")?)
    }

    fn start(&mut self, alloc: Global, words: &str) -> Result<String> {
        let (name, versions) = split(words);
        let pipeline = self.pipeline.as_ref().ok_or(anyhow!("no pipeline"))?;
        self.run = Some(run_of(alloc, pipeline, name, versions)?);
        self.state(alloc)
    }

    fn state(&self, alloc: Global) -> Result<String> {
        let run = self.run.as_ref().ok_or(anyhow!("no build"))?;
        Ok(state_of(alloc, run)?)
    }

    fn played(&mut self, alloc: Global, line: &str) -> Result<String> {
        let (kind, given) = split(line);
        match kind {
            "pipeline" => self.set(alloc, given),
            "start" => self.start(alloc, given),
            _ => fed(alloc, self.run.as_mut().ok_or(anyhow!("no build"))?, line),
        }
    }
}

impl Player for Builds {
    fn answer_to(&mut self, alloc: Global, line: &str) -> Result<String, AllocError> {
        self.played(alloc, line)
            .or_else(|error| format!(in alloc; "refused: {error}"))
    }
}
