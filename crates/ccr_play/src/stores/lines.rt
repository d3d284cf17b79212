//! The lines that make a history.

use super::kept::Kept;
use anyhow::{Result, anyhow};
use ccr_history::{Status, Storage, Version};
use ccr_pipeline::{Pipeline, read};
use ccr_rows::{
    number_of, numbered, pairs_of, pin_of, scope_in, split, status_of, used_places, versions_of,
};
use std::alloc::Global;

impl<S: Storage + Drop> Kept<S> {
    fn report_to(
        &mut self,
        alloc: Global,
        pipeline: &Option<Pipeline>,
        name: &str,
        seen: Vec<Version>,
    ) -> Result<()> {
        let pipeline = pipeline.as_ref().ok_or(anyhow!("no pipeline"))?;
        let scope = scope_in(pipeline, name)?;
        self.report(alloc, scope, seen)
    }

    /// Makes a build, unless its places aren't ones of the tables.
    fn make(&mut self, alloc: Global, job: &str, words: &str) -> Result<()> {
        let used = used_places(alloc, words)?;
        if self.history.can_use(&used) {
            self.add_build(alloc, job, used)?;
        }
        Ok(())
    }

    /// Ends a build, unless it doesn't run, or its pairs aren't places of the tables.
    fn end(&mut self, alloc: Global, job: &str, words: &str) -> Result<()> {
        let (number, words) = split(words);
        let (status, words) = split(words);
        let (number, status) = (number_of(number)?, status_of(status)?);
        let moved = pairs_of(alloc, words)?;
        let runs = match self.history.build(job, number) {
            Some(build) => build.status() == Status::Running,
            None => false,
        };
        if runs && self.history.can_move(&moved) {
            self.end_build(alloc, job, number, status, &moved)?;
        }
        Ok(())
    }

    /// Makes a build of a job, and ends it as failed.
    fn fail_one(&mut self, alloc: Global, job: &str) -> Result<()> {
        let number = self.add_build(alloc, job, Vec::new(alloc))?;
        self.end_build(alloc, job, number, Status::Failed, &[])
    }

    /// Makes so many builds of a job, and ends each as failed.
    fn fail(&mut self, alloc: Global, job: &str, count: u32) -> Result<()> {
        for _build in 0..count {
            self.fail_one(alloc, job)?;
        }
        Ok(())
    }

    /// Sets a pipeline, and gives it.
    fn set(&mut self, alloc: Global, text: &str) -> Result<Pipeline> {
        let pipeline = read(alloc, text.as_bytes())?;
        self.set_text(alloc, text.as_bytes())?;
        Ok(pipeline)
    }

    /// Makes the change of a line, if it makes one.
    pub(super) fn play(
        &mut self,
        alloc: Global,
        pipeline: &mut Option<Pipeline>,
        line: &str,
    ) -> Result<()> {
        let (kind, given) = split(line);
        let (first, rest) = split(given);
        match kind {
            "pipeline" | "again" => {
                *pipeline = Some(self.set(alloc, given)?);
                Ok(())
            }
            "versions" => self.report_to(alloc, pipeline, first, versions_of(alloc, rest)?),
            "fill" => self.report_to(alloc, pipeline, first, numbered(alloc, number_of(rest)?)?),
            "build" => self.make(alloc, first, rest),
            "failed" => self.fail(alloc, first, number_of(rest)?),
            "end" => self.end(alloc, first, rest),
            "pin" => self.set_pin(alloc, first, pin_of(alloc, rest)?),
            "unpin" => self.clear_pin(alloc, first),
            _ => Ok(()),
        }
    }

    /// Makes the changes of these lines.
    pub(super) fn play_lines(&mut self, alloc: Global, lines: &str) -> Result<()> {
        let mut pipeline = None;
        for line in lines.lines() {
            self.play(alloc, &mut pipeline, line)?;
        }
        Ok(())
    }
}
