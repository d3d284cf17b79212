//! The choice where every job has a fixed build, from the index.

ghost use Rattle.std.specs.Prelude.{◌≡◌, ◌<◌, length, IfOk};
ghost use Rattle.ccr_choice.specs.Table.{assigned};
ghost use Rattle.ccr_resolve.specs.Search.{AreUpper, number_or_0, numbers_of, IsFull};

use crate::upper::BestPlaces;
use ccr_choice::Choice;
use ccr_choice::possible::Fixed;
use ccr_index::Index;
use std::alloc::{AllocError, Global};

/// The number of the fixed build of job `job`, 0 where the job is free.
fn fixed_number(index: &Index, fixed: &Fixed, job: usize) -> u32
    requires { job < length index.now.problem.jobs }
    ensures { result ≡ number_or_0 (assigned index.now.problem fixed.now job) }
{
    let rows = index.rows(job);
    match fixed[job].checked_sub(1) {
        Some(k) if k < rows.len() => rows.number(k),
        _ => 0,
    }
}

/// The number of each job's fixed build, 0 where the job is free.
fn fixed_numbers(alloc: Global, index: &Index, fixed: &Fixed) -> Result<Vec<u32>, AllocError>
    ensures { IfOk result (λ v. v.items
        ≡ numbers_of (assigned index.now.problem fixed.now) (length index.now.problem.jobs)) }
{
    let mut numbers = Vec::new(alloc);
    for j in 0..index.job_count() {
        numbers.push(fixed_number(index, fixed, j))?;
    }
    Ok(numbers)
}

/// The best places with the fixed builds.
pub(crate) fn full_choice(
    alloc: Global,
    index: &Index,
    fixed: &Fixed,
    upper: &BestPlaces,
) -> Result<Choice, AllocError>
    requires { AreUpper index.now.problem (assigned index.now.problem fixed.now) upper.now }
    ensures { IfOk result (IsFull index.now.problem (assigned index.now.problem fixed.now)) }
{
    let places = Vec::from_slice(alloc, &upper[..index.input_count()])?;
    let builds = fixed_numbers(alloc, index, fixed)?;
    Ok(Choice { places, builds })
}
