//! Histories and the problems of their jobs.
//!
//! `pipeline JSON` begins a new history with this pipeline, `again JSON` sets another one in the history.
//! `versions RESOURCE JSON` reports a list of versions; `tried RESOURCE JSON` does so and takes the report back;
//! `fill RESOURCE N` reports the versions `{"n":"1"}` to `{"n":"N"}`; `place RESOURCE JSON` asks for a version's place.
//! `build JOB INPUT=SCOPE.PLACE ..` makes a build; `end JOB NUMBER STATUS SCOPE.PLACE ..` ends one; `failed JOB N`
//! makes N builds and ends them as failed; `used JOB INPUT SCOPE.PLACE` asks whether a build of the job used this
//! place. `pin RESOURCE JSON`, `unpin RESOURCE`, `disable RESOURCE PLACE`, `enable RESOURCE PLACE`. `problem JOB`
//! prints the problem of a job, `resolve JOB BUDGET` its proof. `history` prints the history; `copy` goes on with a
//! copy of it.

ghost use Rattle.std.specs.Prelude.{◌≤◌};

use crate::problems::proof_text;
use anyhow::{Result, anyhow, bail};
use ccr_choice::{Problem, write_problem};
use ccr_history::{History, HistoryFault, Scope, Status, Version};
use ccr_pipeline::{Pipeline, read};
use ccr_problem::problem_of;
use ccr_rows::{
    Player, number_of, numbered, pair_of, pairs_of, pin_of, scope_in, split, status_of, text_of,
    used_places, version_of, versions_of,
};
use std::alloc::{AllocError, Global};

/// The history, and the pipeline that was set last.
#[derive(Drop)]
pub(crate) struct Histories {
    history: History,
    pipeline: Option<Pipeline>,
}

/// Reports versions and takes the report back: how many of them were new.
fn taken_back(
    alloc: Global,
    history: &mut History,
    scope: Scope,
    versions: &[Version],
) -> Result<usize, HistoryFault> {
    history.rules();
    let report = history.report(alloc, scope, versions)?;
    history.take_back(&report);
    Ok(report.versions.len())
}

/// How many resources and jobs a pipeline has.
fn sizes_told(alloc: Global, pipeline: &Pipeline) -> Result<String> {
    let resources = pipeline.resources().len();
    let jobs = pipeline.jobs().len();
    Ok(format!(in alloc; "{resources} resources, {jobs} jobs")?)
}

/// Room for the answer to a change. It is made before the change, so that no answer is refused memory after one.
fn room(alloc: Global) -> Result<String, AllocError> {
    String::with_capacity(alloc, 32)
}

/// Reports versions: how many of them were new.
fn appended(
    alloc: Global,
    history: &mut History,
    scope: &Scope,
    versions: &[Version],
) -> Result<String> {
    let mut text = room(alloc)?;
    let new = history.append_versions(alloc, scope, versions)?;
    write!(text, "{new} new")?;
    Ok(text)
}

/// Makes a build of a job, and ends it as failed: its number.
fn fail_one(alloc: Global, history: &mut History, job: &str) -> Result<u32> {
    let nothing = Vec::new(alloc);
    let number = history.add_build(alloc, job, &nothing)?;
    history.end_build(alloc, job, number, Status::Failed, &[])?;
    Ok(number)
}

/// Makes so many builds of a job, and ends each as failed: the number of the last.
fn fail(alloc: Global, history: &mut History, job: &str, count: u32) -> Result<u32> {
    let mut last = 0;
    for _ in 0..count {
        last = fail_one(alloc, history, job)?;
    }
    Ok(last)
}

impl Player for Histories {
    fn answer_to(&mut self, alloc: Global, line: &str) -> Result<String, AllocError> {
        self.played(alloc, line)
            .or_else(|error| format!(in alloc; "{error}"))
    }
}

impl Histories {
    /// Nothing seen, and no pipeline.
    pub(crate) fn new(alloc: Global) -> Histories {
        Histories {
            history: History::new(alloc),
            pipeline: None,
        }
    }

    /// Each line is played by a function of its own: the proof of a long body with early returns is dear.
    fn played(&mut self, alloc: Global, line: &str) -> Result<String> {
        let (kind, given) = split(line);
        let (first, rest) = split(given);
        match kind {
            "pipeline" => self.set_anew(alloc, given),
            "again" => self.set(alloc, given),
            "versions" => self.reported(alloc, first, rest),
            "fill" => self.filled(alloc, first, rest),
            "tried" => self.tried(alloc, first, rest),
            "place" => self.place(alloc, first, rest),
            "build" => self.made(alloc, first, rest),
            "failed" => self.failed(alloc, first, rest),
            "end" => self.ended(alloc, first, rest),
            "used" => self.used(alloc, first, rest),
            "pin" => self.pinned(alloc, first, rest),
            "unpin" => self.unpinned(alloc, first),
            "disable" => self.disabled(alloc, first, rest),
            "enable" => self.enabled(alloc, first, rest),
            "problem" => self.problem(alloc, first),
            "resolve" => self.resolved(alloc, first, rest),
            "copy" => self.copied(alloc),
            "history" => Ok(text_of(alloc, &self.history)?),
            _ => bail!("no line begins with {kind}"),
        }
    }

    /// Begins a new history with this pipeline.
    fn set_anew(&mut self, alloc: Global, text: &str) -> Result<String> {
        self.history = History::new(alloc);
        self.set(alloc, text)
    }

    fn set(&mut self, alloc: Global, text: &str) -> Result<String> {
        let bytes = Vec::from_slice(alloc, text.as_bytes())?;
        let pipeline = read(alloc, text.as_bytes())?;
        let told = sizes_told(alloc, &pipeline);
        self.history.set_text(bytes);
        self.pipeline = Some(pipeline);
        told
    }

    fn pipeline(&self) -> Result<&Pipeline> {
        self.pipeline.as_ref().ok_or(anyhow!("no pipeline"))
    }

    /// The scope of a resource of the pipeline.
    fn scope(&self, name: &str) -> Result<Scope> {
        Ok(scope_in(self.pipeline()?, name)?)
    }

    fn reported(&mut self, alloc: Global, name: &str, text: &str) -> Result<String> {
        let versions = versions_of(alloc, text)?;
        self.append(alloc, name, &versions)
    }

    fn filled(&mut self, alloc: Global, name: &str, text: &str) -> Result<String> {
        let versions = numbered(alloc, number_of(text)?)?;
        self.append(alloc, name, &versions)
    }

    fn append(&mut self, alloc: Global, name: &str, versions: &[Version]) -> Result<String> {
        let scope = self.scope(name)?;
        appended(alloc, &mut self.history, &scope, versions)
    }

    fn tried(&mut self, alloc: Global, name: &str, text: &str) -> Result<String> {
        let versions = versions_of(alloc, text)?;
        self.take_back(alloc, name, &versions)
    }

    fn take_back(&mut self, alloc: Global, name: &str, versions: &[Version]) -> Result<String> {
        let scope = self.scope(name)?;
        let new = taken_back(alloc, &mut self.history, scope, versions)?;
        Ok(format!(in alloc; "{new} taken back")?)
    }

    fn copied(&mut self, alloc: Global) -> Result<String> {
        self.history = self.history.copy(alloc)?;
        Ok(String::from_str(alloc, "copied")?)
    }

    fn place(&self, alloc: Global, name: &str, text: &str) -> Result<String> {
        let scope = self.scope(name)?;
        let version = version_of(alloc, text)?;
        let place = self.history.place_of(&scope, &version);
        Ok(format!(in alloc; "{place}")?)
    }

    fn made(&mut self, alloc: Global, job: &str, words: &str) -> Result<String> {
        let used = used_places(alloc, words)?;
        if !self.history.can_use(&used) {
            bail!("no such places")
        }
        let mut text = room(alloc)?;
        let number = self.history.add_build(alloc, job, &used)?;
        write!(text, "{number}")?;
        Ok(text)
    }

    fn ended(&mut self, alloc: Global, job: &str, words: &str) -> Result<String> {
        let (number, words) = split(words);
        let (status, words) = split(words);
        let moved = pairs_of(alloc, words)?;
        if !self.history.can_move(&moved) {
            bail!("no such places")
        }
        let text = String::from_str(alloc, "ended")?;
        self.history
            .end_build(alloc, job, number_of(number)?, status_of(status)?, &moved)?;
        Ok(text)
    }

    /// A copy of the history in which builds of a job are made and end as failed, and the number of the last.
    fn copy_failed(&self, alloc: Global, job: &str, count: u32) -> Result<(History, u32)> {
        let mut history = self.history.copy(alloc)?;
        let last = fail(alloc, &mut history, job, count)?;
        Ok((history, last))
    }

    /// The builds are made in a copy, so that either all of them are there or none.
    fn failed(&mut self, alloc: Global, job: &str, text: &str) -> Result<String> {
        let (history, last) = self.copy_failed(alloc, job, number_of(text)?)?;
        let text = format!(in alloc; "{last}")?;
        self.history = history;
        Ok(text)
    }

    fn used(&self, alloc: Global, job: &str, words: &str) -> Result<String> {
        let (input, pair) = words.split_once(" ").ok_or(anyhow!("no place"))?;
        let (scope, place) = pair_of(pair)?;
        let has = self.history.has_used(job, input, scope, place);
        Ok(format!(in alloc; "{has}")?)
    }

    fn pinned(&mut self, alloc: Global, name: &str, text: &str) -> Result<String> {
        let pin = pin_of(alloc, text)?;
        self.history.set_pin(alloc, name, pin)?;
        Ok(String::from_str(alloc, "pinned")?)
    }

    fn unpinned(&mut self, alloc: Global, name: &str) -> Result<String> {
        let mut text = room(alloc)?;
        let had = self.history.clear_pin(name);
        text.push_str(if had { "unpinned" } else { "no pin" })?;
        Ok(text)
    }

    fn disabled(&mut self, alloc: Global, name: &str, text: &str) -> Result<String> {
        let place = number_of(text)?;
        let scope = self.scope(name)?;
        let text = String::from_str(alloc, "disabled")?;
        self.history.disable(&scope, place)?;
        Ok(text)
    }

    fn enabled(&mut self, alloc: Global, name: &str, text: &str) -> Result<String> {
        let place = number_of(text)?;
        let scope = self.scope(name)?;
        let text = String::from_str(alloc, "enabled")?;
        self.history.enable(&scope, place)?;
        Ok(text)
    }

    fn problem(&self, alloc: Global, job: &str) -> Result<String> {
        let problem = problem_of(alloc, self.pipeline()?, &self.history, job)?;
        Ok(write_problem(alloc, &problem)?)
    }

    fn resolved(&self, alloc: Global, job: &str, text: &str) -> Result<String> {
        let budget = number_of(text)?;
        if budget < 1 || budget > 1_000_000 {
            bail!("no such budget")
        }
        let problem = problem_of(alloc, self.pipeline()?, &self.history, job)?;
        proof_told(alloc, &problem, budget)
    }
}

/// The text of the proof that the resolver gives for a problem, or that the budget is over.
fn proof_told(alloc: Global, problem: &Problem, budget: u32) -> Result<String>
    requires least { 1 ≤ budget }
    requires most { budget ≤ 1000000 }
{
    match proof_text(alloc, problem, budget)? {
        Some(text) => Ok(text),
        None => Ok(format!(in alloc; "over budget {budget}")?),
    }
}
