//! Copies of a problem's parts.

ghost use Rattle.std.specs.Prelude.{◌≡◌, ◌<◌, length, map, All, IfOk};
ghost use Rattle.ccr_choice.specs.Problem.{IsProblem};
ghost use Rattle.ccr_explain.specs.Cut.{build_in};

use crate::indexed::Indexed;
use ccr_choice::{Build, Choice, Input, JobBuilds};
use ccr_index::{Index, InputRows, JobRows};
use std::alloc::{AllocError, Global};

/// These inputs once more.
pub(crate) fn copied_inputs(alloc: Global, inputs: &[Input]) -> Result<Vec<Input>, AllocError>
    ensures { IfOk result (λ copies. copies.items ≡ inputs.now) }
{
    let mut copies = Vec::new(alloc);
    for input in inputs {
        let jobs = Vec::from_slice(alloc, input.jobs())?;
        let places = Vec::from_slice(alloc, input.places())?;
        copies.push(Input::new(input.scope(), jobs, input.after(), places))?;
    }
    Ok(copies)
}

/// The inputs of an index's problem once more.
pub(crate) fn inputs_of(alloc: Global, index: &Index) -> Result<Vec<Input>, AllocError>
    ensures value { IfOk result (λ copies. copies.items ≡ index.now.problem.inputs) }
    ensures kept { IsProblem index.now.problem }
{
    let mut copies = Vec::new(alloc);
    for input in 0..index.input_count() {
        copies.push(input_of(alloc, index.input(input))?)?;
    }
    Ok(copies)
}

fn input_of(alloc: Global, input: &InputRows) -> Result<Input, AllocError>
    ensures { IfOk result (λ copy. copy ≡ input.now.input) }
{
    let jobs = Vec::from_slice(alloc, input.jobs())?;
    let places = Vec::from_slice(alloc, input.places())?;
    Ok(Input::new(input.scope(), jobs, input.after(), places))
}

/// This choice once more.
pub(crate) fn copied_choice(alloc: Global, choice: &Choice) -> Result<Choice, AllocError>
    ensures { IfOk result (λ copy. copy ≡ choice.now) }
{
    let places = Vec::from_slice(alloc, &choice.places)?;
    let builds = Vec::from_slice(alloc, &choice.builds)?;
    Ok(Choice { places, builds })
}

/// The builds of each job once more.
pub(crate) fn copied_jobs(
    alloc: Global,
    problem: &Indexed<'_>,
) -> Result<Vec<JobBuilds>, AllocError>
    ensures { IfOk result (λ copies. copies.items ≡ problem.now.jobs) }
{
    let mut copies = Vec::new(alloc);
    for job in 0..problem.job_count() {
        copies.push(copied_job(alloc, problem.rows(job))?)?;
    }
    Ok(copies)
}

fn copied_job(alloc: Global, rows: &JobRows) -> Result<JobBuilds, AllocError>
    ensures { IfOk result (λ copy. copy ≡ rows.now.builds) }
{
    let mut copies = Vec::with_capacity(alloc, rows.len())?;
    for k in 0..rows.len() {
        copies.push(copied_build(alloc, rows, k)?)?;
    }
    Ok(JobBuilds::new(copies))
}

/// The builds at these places of the rows, the newest build being at place 0.
pub(crate) fn copied_builds(
    alloc: Global,
    rows: &JobRows,
    places: &[usize],
) -> Result<JobBuilds, AllocError>
    requires { All (λ k. k < length rows.now.builds) places.now }
    ensures { IfOk result (λ copy. copy ≡ map (build_in rows.now.builds) places.now) }
{
    let mut copies = Vec::with_capacity(alloc, places.len())?;
    for k in places {
        copies.push(copied_build(alloc, rows, *k)?)?;
    }
    Ok(JobBuilds::new(copies))
}

/// The build at a place of the rows.
fn copied_build(alloc: Global, rows: &JobRows, k: usize) -> Result<Build, AllocError>
    requires { k < length rows.now.builds }
    ensures { IfOk result (λ copy. copy ≡ build_in rows.now.builds k) }
{
    let pairs = Vec::from_slice(alloc, rows.pairs(k))?;
    Ok(Build::new(rows.number(k), pairs))
}
