//! A choice found without a search, among what is left to the inputs of a problem.

use crate::indexed::Indexed;
use crate::narrow::Looked;
use crate::witness::set;
use ccr_choice::{Choice, Input};
use ccr_index::JobRows;
use std::alloc::{AllocError, Global};

/// A choice in which each job, in the order in which they were looked at, takes its newest build that is left and
/// agrees with the places that are taken by then; inputs that name the job take their places in this build, and all
/// others their newest. Where the jobs are no ring, it mostly meets all demands. Nothing is promised: look at it before
/// you rely on it.
pub(crate) fn guessed(
    alloc: Global,
    problem: &Indexed<'_>,
    order: &[u32],
    inputs: &[Input],
    looked: &[Looked],
) -> Result<Choice, AllocError> {
    let mut places = vec![in alloc; 0; inputs.len()]?;
    let mut builds = vec![in alloc; 0; problem.job_count()]?;
    for one in looked {
        take_job(alloc, problem, order, inputs, one, &mut places, &mut builds)?;
    }
    take_newest(inputs, &mut places);
    Ok(Choice { places, builds })
}

/// Lets a job that was looked at take its build, and the inputs that name it the places that they have in it.
fn take_job(
    alloc: Global,
    problem: &Indexed<'_>,
    order: &[u32],
    inputs: &[Input],
    one: &Looked,
    places: &mut [u32],
    builds: &mut [u32],
) -> Result<(), AllocError> {
    let Some(job) = order.get(one.0) else {
        return Ok(());
    };
    let job = *job as usize;
    if job < problem.job_count() {
        let naming = numbers_naming(alloc, inputs, one.0)?;
        let build = take_build(inputs, &naming, problem.rows(job), &one.1, places);
        set(builds, job, build);
    }
    Ok(())
}

/// Which of these inputs name job `job`.
fn numbers_naming(alloc: Global, inputs: &[Input], job: usize) -> Result<Vec<usize>, AllocError> {
    let mut naming = Vec::new(alloc);
    for i in 0..inputs.len() {
        if inputs[i].jobs().iter().any(|m| *m as usize == job) {
            naming.push(i)?;
        }
    }
    Ok(naming)
}

/// The number of the first of these builds that agrees with the places that are taken, where the inputs that name its
/// job have taken their places in it; 0 where there is none.
fn take_build(
    inputs: &[Input],
    naming: &[usize],
    rows: &JobRows,
    left: &[usize],
    places: &mut [u32],
) -> u32 {
    for k in left {
        if *k < rows.len() && agrees(inputs, naming, rows.pairs(*k), places) {
            for i in naming {
                if let Some(place) = place_in(inputs, *i, rows.pairs(*k), places) {
                    set(places, *i, place);
                }
            }
            return rows.number(*k);
        }
    }
    0
}

/// Whether each of these inputs has a place among these pairs that it may take, the one that it took if it did.
fn agrees(inputs: &[Input], naming: &[usize], pairs: &[(u32, u32)], places: &[u32]) -> bool {
    naming
        .iter()
        .all(|i| place_in(inputs, *i, pairs, places).is_some())
}

/// The place of an input among these pairs: the one that it took if it did, else the first that it may take.
fn place_in(inputs: &[Input], i: usize, pairs: &[(u32, u32)], places: &[u32]) -> Option<u32> {
    let input = inputs.get(i)?;
    let taken = *places.get(i)?;
    let pair = pairs.iter().find(|q| {
        q.0 == input.scope() && (q.1 == taken || (taken == 0 && may_take(input, q.1)))
    })?;
    Some(pair.1)
}

fn may_take(input: &Input, place: u32) -> bool {
    input.places().binary_search(&place).is_ok()
}

/// Lets each input that took no place take its newest.
fn take_newest(inputs: &[Input], places: &mut [u32]) {
    for i in 0..inputs.len() {
        if let (Some(0), Some(place)) = (places.get(i), inputs[i].places().last()) {
            set(places, i, *place);
        }
    }
}
