//! The indexes of a pipeline's jobs.
ghost use Rattle.std.specs.Prelude.{◌≡◌, ◌≢◌, ◌+◌, ◌<◌, ℕ, List, Option, [], None, true, false, length, map, option_map, slice_get, slice_index_or, IfOk, IfSome, IfNone, OnOk, OnErr, IsErrOf};
ghost use Rattle.std.specs.List.{position_or_len};
ghost use Rattle.std.specs.Option.{option_copied};
ghost use Rattle.std.specs.Str.{bytes_eq};
ghost use Rattle.ccr_history.specs.Builds.{is_succeeded, count_of};
ghost use Rattle.ccr_history.specs.Changes.{build, ended, edited, AreUsed, AreMoved, IsRunning};
ghost use Rattle.ccr_choice.specs.Problem.{BuildValue};
ghost use Rattle.ccr_history.specs.declared.build.Status.TheVariants.{Running};
ghost use Rattle.ccr_history.specs.declared.builds.TheConstants.{MOST_BUILDS};
ghost use Rattle.ccr_index.specs.Index.{IndexValue};
ghost use Rattle.ccr_pipeline.specs.Inputs.{inputs};
ghost use Rattle.ccr_pipeline.specs.Pipelines.{pipeline_data};
ghost use Rattle.ccr_pipeline.specs.JobData.{job_data};
ghost use Rattle.ccr_problem.specs.ProblemOf.{job_of, IsProblemOf};
ghost use Rattle.ccr_problem.specs.Follows.{has_newer, with_passed};
ghost use Rattle.ccr_problem.specs.Indexes.{problems, AreIndexes, AreBefore, IsBrought, FitsIn, HaveRoom};
ghost use Rattle.ccr_problem.specs.Passing.{CanAllTake};

use crate::brought::Brought;
use crate::coming::Passed;
use crate::law::{builds_change_problems, reports_change_problems};
use crate::news::{follow, news_of};
use crate::problem::problem_of_job;
use crate::taken::{keep_all, taken_of};
use ccr_history::{History, HistoryFault, Reported, Status, Used};
use ccr_index::{Index, build_index};
use ccr_pipeline::{Job, Pipeline};
use std::alloc::{AllocError, Global};
use std::marker::Model;

/// The indexes of a pipeline's jobs, in order.
#[derive(Drop)]
pub struct Indexes {
    of_jobs: Vec<Index>,
}

impl Model for Indexes {
    ghost use Rattle.std.specs.Prelude.{List};
    ghost use Rattle.ccr_index.specs.Index.{IndexValue};

    ghost Value = { List IndexValue };

    ghost view = { λ a. a.of_jobs.items };
}

/// Where the job of a name stands; past the end if there is none.
fn job_position(jobs: &[Job], name: &str) -> usize
    ensures { result ≡ position_or_len (λ j. bytes_eq name.now j.name) (map job_data jobs.now) }
{
    let mut position = 0;
    for job in jobs {
        if name == job.name.as_str() {
            return position;
        }
        position += 1;
    }
    position
}

fn index_at(indexes: &[Index], position: usize) -> Option<&Index>
    ensures { option_copied result ≡ slice_get indexes.now position }
{
    indexes.get(position)
}

fn indexes_of(
    alloc: Global,
    pipeline: &Pipeline,
    history: &History,
) -> Result<Vec<Index>, AllocError>
    ensures { IfOk result (λ v. AreIndexes (pipeline_data pipeline.now) history.now v.items) }
{
    let mut indexes = Vec::new(alloc);
    for job in pipeline.jobs() {
        let problem = problem_of_job(alloc, pipeline, history, job)?;
        indexes.push(build_index(alloc, &problem)?)?;
    }
    Ok(indexes)
}

/// Makes room in an index for what is brought to it.
fn room_for(index: &mut Index, brought: Option<(&Passed, u32)>) -> Result<(), AllocError>
    ensures problem { index.new.problem ≡ index.old.problem }
    ensures room { OnOk result (FitsIn (option_map (λ x. (x.0.now.job, record { number = x.1; pairs = x.0.now.pairs.items }))
        brought.entry) index.new) }
{
    match brought {
        Some((passed, _)) => index.make_room(0, passed.pairs.len() + 1),
        None => Ok(()),
    }
}

/// Makes room in each index for what is brought to it.
fn room_for_all(indexes: &mut [Index], brought: &Brought) -> Result<(), AllocError>
    ensures many { length indexes.new ≡ length indexes.old }
    ensures problems { (k : ℕ) (d : IndexValue) → k < length indexes.old
        → (slice_index_or indexes.new k d).problem ≡ (slice_index_or indexes.old k d).problem }
    ensures room { OnOk result (HaveRoom brought.now indexes.new) }
{
    for k in 0..indexes.len() {
        room_for(&mut indexes[k], brought.at(k))?;
    }
    Ok(())
}

/// Adds to each index what is brought to it, for which there is room.
fn add_brought(indexes: &mut [Index], brought: &Brought)
    requires room { HaveRoom brought.now indexes.old }
    requires rules { CanAllTake brought.now indexes.old }
    ensures many { length indexes.new ≡ length indexes.old }
    ensures problems { (k : ℕ) (d : IndexValue) → k < length indexes.old
        → (slice_index_or indexes.new k d).problem
        ≡ with_passed (slice_index_or indexes.old k d).problem (slice_index_or brought.now k None) }
{
    for k in 0..indexes.len() {
        if let Some((passed, number)) = brought.at(k) {
            let index = &mut indexes[k];
            let has_room = index.add_build(passed.job, number, &passed.pairs).is_ok();
            prove!(has_room);
        }
    }
}

impl Indexes {
    /// No indexes, where there are no jobs.
    pub fn none(alloc: Global) -> Indexes
        ensures { result ≡ [] }
    {
        Indexes {
            of_jobs: Vec::new(alloc),
        }
    }

    /// The indexes of a pipeline's jobs with a history, built from their problems.
    ///
    /// It takes a time that grows with the history. The only error is out of memory.
    pub fn of(alloc: Global, pipeline: &Pipeline, history: &History) -> Result<Indexes, AllocError>
        ensures { IfOk result (AreIndexes (pipeline_data pipeline.now) history.now) }
    {
        Ok(Indexes {
            of_jobs: indexes_of(alloc, pipeline, history)?,
        })
    }

    /// The index of the job of a name, if the pipeline has such a job, where these are the indexes of its jobs with a history.
    /// It stands for the job's problem. No memory is taken.
    pub fn of_job(&self, pipeline: &Pipeline, history: &History, name: &str) -> Option<&Index>
        requires { AreIndexes (pipeline_data pipeline.now) history.now self.now }
        ensures some { IfSome result (λ index. IsProblemOf (pipeline_data pipeline.now) history.now name.now
            index.now.problem) }
        ensures none { IfNone result (job_of name.now (pipeline_data pipeline.now).jobs ≡ None) }
    {
        index_at(&self.of_jobs, job_position(pipeline.jobs(), name))
    }

    /// Makes room for what the end of a build brings. The problems stay, also where memory is refused.
    pub fn make_room(&mut self, brought: &Brought) -> Result<(), AllocError>
        ensures problems { problems self.new ≡ problems self.old }
        ensures room { OnOk result (HaveRoom brought.now self.new) }
    {
        room_for_all(&mut self.of_jobs, brought)
    }

    /// Brings the indexes from the history before a report to the one after it: each version that is new comes to the
    /// inputs of its scope whose pins it meets.
    ///
    /// The only error is out of memory. It leaves the problems.
    pub fn add_report(
        &mut self,
        alloc: Global,
        pipeline: &Pipeline,
        history: &History,
        report: &Reported,
    ) -> Result<(), AllocError>
        requires { AreBefore (pipeline_data pipeline.now) history.now report.now self.old }
        ensures ok { OnOk result (AreIndexes (pipeline_data pipeline.now) history.now self.new) }
        ensures err { OnErr result (problems self.new ≡ problems self.old) }
        ensures room { (brought : List (Option (ℕ × BuildValue))) → HaveRoom brought self.old → HaveRoom brought self.new }
    {
        history.rules();
        reports_change_problems();
        let news = news_of(alloc, pipeline, history, report)?;
        follow(&mut self.of_jobs, &news)
    }

    /// Makes a build of the job of a name, in the history and in the indexes, and gives its number: to the inputs of the
    /// job that take every version come the places that the build used for them.
    ///
    /// The caller gives each input once, by a name that isn't empty, with a place of the tables. Where it is refused, as
    /// `History::add_build` refuses it, nothing changes.
    pub fn make(
        &mut self,
        alloc: Global,
        pipeline: &Pipeline,
        history: &mut History,
        job: &str,
        used: &[Used],
    ) -> Result<u32, HistoryFault>
        requires indexed { AreIndexes (pipeline_data pipeline.now) history.old self.old }
        requires used { AreUsed history.old.tables used.now }
        ensures ok { OnOk result (history.new ≡ edited (build job.now used.now) history.old) }
        ensures number { IfOk result (λ n. n ≡ count_of job.now history.old.builds + 1) }
        ensures full { IsErrOf result HistoryFault.BuildsFull → length history.old.builds ≡ MOST_BUILDS }
        ensures err { OnErr result (history.new ≡ history.old) }
        ensures indexed { AreIndexes (pipeline_data pipeline.now) history.new self.new }
        ensures room { (brought : List (Option (ℕ × BuildValue))) → HaveRoom brought self.old → HaveRoom brought self.new }
    {
        builds_change_problems();
        history.rules();
        let taken = taken_of(alloc, pipeline, history, job, used)?;
        let number = history.add_build(alloc, job, used)?;
        keep_all(&mut self.of_jobs, &taken);
        Ok(number)
    }

    /// Ends a build, in the history and in the indexes. It takes no memory.
    ///
    /// The caller gives a build that runs, each pair once, a place of the tables, a status other than `Running`, and what
    /// the end brings, for which there is room. Where the build succeeded, no newer build of its job has succeeded.
    pub fn end(
        &mut self,
        pipeline: &Pipeline,
        history: &mut History,
        brought: &Brought,
        job: &str,
        number: u32,
        status: Status,
        pairs: Vec<(u32, u32)>,
    )
        requires indexed { AreIndexes (pipeline_data pipeline.now) history.old self.old }
        requires running { IsRunning job.now number history.old.builds }
        requires over { status ≢ Running }
        requires moved { AreMoved history.old.tables pairs.items }
        requires newest { is_succeeded status ≡ true → has_newer job.now number history.old.builds ≡ false }
        requires brought { IsBrought (pipeline_data pipeline.now) history.old job.now number status pairs.items brought.now }
        requires room { HaveRoom brought.now self.old }
        ensures history { history.new ≡ edited (ended job.now number status pairs.items) history.old }
        ensures indexed { AreIndexes (pipeline_data pipeline.now) history.new self.new }
    {
        builds_change_problems();
        history.rules();
        history.end_build_with(job, number, status, pairs).unwrap();
        let _has_text = history.text().is_some();
        add_brought(&mut self.of_jobs, brought);
    }
}
