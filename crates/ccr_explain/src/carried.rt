//! A choice in which an input takes another place, with what has to change for it.

use crate::copies::copied_choice;
use crate::demand::Demand;
use crate::indexed::Indexed;
use crate::meets::{build_of, has_passed};
use crate::witness::set;
use ccr_choice::Choice;
use std::alloc::{AllocError, Global};

/// What was changed last.
#[derive(Clone, Copy, Drop)]
enum Changed {
    /// The place of this input.
    Place(usize),
    /// The build of this job.
    Build(usize),
}

/// A choice, and what was changed in it.
#[derive(Drop)]
struct Change {
    choice: Choice,
    /// Of each input, whether its place was changed.
    has_place: Vec<bool>,
    /// Of each job, whether its build was changed.
    has_build: Vec<bool>,
    /// What was changed, as far as nobody looked yet at what that asks of others.
    work: Vec<Changed>,
}

/// Which demands are followed where a place or a build changes.
#[derive(Clone, Copy)]
pub(crate) struct Followed<'a> {
    pub(crate) demands: &'a [Demand],
    /// One of them that isn't.
    pub(crate) left_out: Option<usize>,
}

impl Followed<'_> {
    /// Whether it is followed that the place of an input has passed a job.
    fn asks(&self, input: usize, job: usize) -> bool {
        let passed = Demand::Passed(input, job);
        match self.demands.iter().position(|d| *d == passed) {
            Some(k) => self.left_out != Some(k),
            None => false,
        }
    }
}

/// The choice where an input takes its newest allowed place, each job that it is to have passed the newest build with
/// which this place passed the job, each other input that is to have passed the job the place that it has there, and so
/// on; but each place and each build is changed once. So around a ring of jobs mostly one demand alone isn't met. None
/// where the input may take no place.
pub(crate) fn carried(
    alloc: Global,
    problem: &Indexed<'_>,
    followed: Followed<'_>,
    choice: &Choice,
    input: usize,
) -> Result<Option<Choice>, AllocError> {
    let Some(place) = newest_allowed(problem, input) else {
        return Ok(None);
    };
    let inputs = problem.inputs().len();
    let jobs = problem.job_count();
    let mut change = Change {
        choice: copied_choice(alloc, choice)?,
        has_place: vec![in alloc; false; inputs]?,
        has_build: vec![in alloc; false; jobs]?,
        work: Vec::new(alloc),
    };
    change.take_place(input, place)?;
    for _ in 0..inputs.saturating_add(jobs) {
        match change.work.pop() {
            Some(Changed::Place(i)) => change.follow_place(problem, followed, i)?,
            Some(Changed::Build(j)) => change.follow_build(problem, followed, j)?,
            None => return Ok(Some(change.choice)),
        }
    }
    Ok(Some(change.choice))
}

/// The newest place that an input may take.
fn newest_allowed(problem: &Indexed<'_>, input: usize) -> Option<u32> {
    problem.inputs().get(input)?.places().last().copied()
}

impl Change {
    /// Lets an input take a place, unless its place was changed.
    fn take_place(&mut self, input: usize, place: u32) -> Result<(), AllocError> {
        if is_new(&mut self.has_place, input) {
            set(&mut self.choice.places, input, place);
            self.work.push(Changed::Place(input))?;
        }
        Ok(())
    }

    /// Lets a job take a build, unless its build was changed.
    fn take_build(&mut self, job: usize, number: u32) -> Result<(), AllocError> {
        if is_new(&mut self.has_build, job) {
            set(&mut self.choice.builds, job, number);
            self.work.push(Changed::Build(job))?;
        }
        Ok(())
    }

    /// Lets the jobs that an input is to have passed take builds with which its place did, where it didn't.
    fn follow_place(
        &mut self,
        problem: &Indexed<'_>,
        followed: Followed<'_>,
        input: usize,
    ) -> Result<(), AllocError> {
        let Some(one) = problem.inputs().get(input) else {
            return Ok(());
        };
        for job in one.jobs() {
            let job = *job as usize;
            if !has_passed(problem, &self.choice, input, job) && followed.asks(input, job) {
                if let Some(number) = build_with(problem, &self.choice, input, job) {
                    self.take_build(job, number)?;
                }
            }
        }
        Ok(())
    }

    /// Lets the inputs that are to have passed a job take the places that they have in its build, where theirs didn't pass it.
    fn follow_build(
        &mut self,
        problem: &Indexed<'_>,
        followed: Followed<'_>,
        job: usize,
    ) -> Result<(), AllocError> {
        let inputs = problem.inputs();
        for input in 0..inputs.len() {
            if inputs[input].jobs().iter().any(|j| *j as usize == job)
                && !has_passed(problem, &self.choice, input, job)
                && followed.asks(input, job)
            {
                if let Some(place) = place_with(problem, &self.choice, input, job) {
                    self.take_place(input, place)?;
                }
            }
        }
        Ok(())
    }
}

/// Sets a mark; whether it is there and wasn't set.
fn is_new(marks: &mut [bool], at: usize) -> bool {
    match marks.get_mut(at) {
        Some(mark) => {
            let before = *mark;
            *mark = true;
            !before
        }
        None => false,
    }
}

/// The number of the newest build of a job with which the place of an input passed it.
pub(crate) fn build_with(
    problem: &Indexed<'_>,
    choice: &Choice,
    input: usize,
    job: usize,
) -> Option<u32> {
    let scope = problem.inputs().get(input)?.scope();
    let place = *choice.places.get(input)?;
    if job >= problem.job_count() {
        return None;
    }
    let rows = problem.rows(job);
    let build = rows.len().checked_sub(rows.last_with(scope, place))?;
    if build < rows.len() {
        Some(rows.number(build))
    } else {
        None
    }
}

/// The place that an input has in the build of a job, the first where it has several.
pub(crate) fn place_with(
    problem: &Indexed<'_>,
    choice: &Choice,
    input: usize,
    job: usize,
) -> Option<u32> {
    let scope = problem.inputs().get(input)?.scope();
    let number = *choice.builds.get(job)?;
    if job >= problem.job_count() {
        return None;
    }
    let rows = problem.rows(job);
    let pairs = rows.pairs(build_of(rows, number)?);
    let pair = pairs.iter().find(|q| q.0 == scope)?;
    Some(pair.1)
}
