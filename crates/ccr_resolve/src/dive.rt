//! A good choice to begin with: the best builds of each job first, and no proof.

ghost use Rattle.std.specs.Prelude.{◌<◌, ◌≤◌, ℕ, length, IfOk, IfSome, All};
ghost use Rattle.ccr_choice.specs.Problem.{builds_at};
ghost use Rattle.ccr_choice.specs.Assignment.{nothing_fixed};
ghost use Rattle.ccr_choice.specs.Table.{assigned};
ghost use Rattle.ccr_resolve.specs.Search.{AreUpper, FixesKnown, FoundSatisfies};

use crate::choice::full_choice;
use crate::pick::first_free;
use crate::upper::{BestPlaces, first_empty, is_better, is_closed, lowered, names};
use crate::wanted::{add_builds_with, add_builds_with_any, fixed_pairs};
use ccr_choice::possible::Fixed;
use ccr_choice::{Choice, MOST_JOBS};
use ccr_index::{Index, InputRows, JobRows};
use std::alloc::{AllocError, Global};

/// How many boxes are looked at in all, at the most.
const MOST_BOXES: u32 = 2_000;
/// How many of a job's builds are looked at in a box.
const LOOKED_AT: usize = 32;
/// How many places, from the best one on, are tried for them.
const PLACES: u32 = 256;
/// How many of them are gone into.
const GONE_INTO: usize = 16;

/// A build of a job, with the best places that it leaves.
#[derive(Drop)]
struct Step {
    build: usize,
    upper: BestPlaces,
}

/// A choice that satisfies, and is good as a rule.
pub(crate) fn good_choice(
    alloc: Global,
    index: &Index,
    upper: &BestPlaces,
) -> Result<Option<Choice>, AllocError>
    requires { AreUpper index.now.problem nothing_fixed upper.now }
    ensures { IfOk result (FoundSatisfies index.now.problem) }
{
    let mut best = None;
    let mut boxes = MOST_BOXES;
    dive(
        alloc,
        index,
        &[0; MOST_JOBS as usize],
        upper,
        &mut best,
        &mut boxes,
    )?;
    Ok(best)
}

/// The first input that names a job.
fn first_input(index: &Index, job: usize) -> Option<usize>
    ensures { IfSome result (λ i. i < length index.now.problem.inputs) }
{
    for i in 0..index.input_count() {
        if names(index, i, job) {
            return Some(i);
        }
    }
    None
}

/// The input by whose best place builds of a job are looked for: of those that name the job the first whose best place no more
/// builds have than are looked at, or else the first of all.
fn guide(
    alloc: Global,
    index: &Index,
    upper: &BestPlaces,
    job: usize,
    rows: &JobRows,
) -> Result<Option<usize>, AllocError>
    ensures { IfOk result (λ found. IfSome found (λ i. i < length index.now.problem.inputs)) }
{
    for i in 0..index.input_count() {
        if names(index, i, job) {
            let mut builds = Vec::new(alloc);
            let scope = index.input(i).scope();
            if !add_builds_with(&mut builds, rows, scope, upper[i], LOOKED_AT)? {
                return Ok(Some(i));
            }
        }
    }
    Ok(first_input(index, job))
}

/// The place that is preferred next after this one, of those from 1 to the last one; 0 where there is none.
fn next_place(after: Option<u32>, last: u32, place: u32) -> u32 {
    match after {
        Some(kept) if kept < place => { if place < last { place + 1 } else { kept } }
        _ => place.saturating_sub(1),
    }
}

/// Adds the positions of builds with the best places of an input, from this one on.
fn add_builds_from(
    builds: &mut Vec<usize>,
    rows: &JobRows,
    input: &InputRows,
    top: u32,
) -> Result<(), AllocError>
    requires within { All (λ k. k < length rows.now.builds) builds.old.items }
    requires few { length builds.old.items ≤ LOOKED_AT }
    ensures { All (λ k. k < length rows.now.builds) builds.new.items }
{
    let last = input.places().last().copied().unwrap_or(0);
    let mut place = top;
    for _ in 0..PLACES {
        if place == 0 || add_builds_with(builds, rows, input.scope(), place, LOOKED_AT)? {
            return Ok(());
        }
        place = next_place(input.after(), last, place);
    }
    Ok(())
}

/// The builds of a job to look at: those with the best places of one input that names it.
fn looked_at(
    alloc: Global,
    index: &Index,
    fixed: &Fixed,
    upper: &BestPlaces,
    job: usize,
    rows: &JobRows,
) -> Result<Vec<usize>, AllocError>
    ensures { IfOk result (λ builds. All (λ k. k < length rows.now.builds) builds.items) }
{
    let mut builds = Vec::new(alloc);
    let Some(input) = guide(alloc, index, upper, job, rows)? else {
        return Ok(builds);
    };
    let sought = index.input(input);
    match fixed_pairs(index, fixed, input) {
        Some(pairs) => {
            add_builds_with_any(&mut builds, rows, sought.scope(), pairs, LOOKED_AT)?;
        }
        None => add_builds_from(&mut builds, rows, sought, upper[input])?,
    }
    Ok(builds)
}

/// The best builds of a job to fix next, the best first.
fn steps(
    alloc: Global,
    index: &Index,
    fixed: &Fixed,
    upper: &BestPlaces,
    best: &Option<Choice>,
    job: usize,
) -> Result<Vec<Step>, AllocError>
    requires { job < length index.now.problem.jobs }
    ensures { IfOk result (λ steps. All (λ s. s.build < length (builds_at index.now.problem job)) steps.items) }
{
    let mut steps = Vec::new(alloc);
    let rows = index.rows(job);
    let builds = looked_at(alloc, index, fixed, upper, job, rows)?;
    for k in 0..builds.len() {
        let build = builds[k];
        let mut inner = *fixed;
        inner[job] = build + 1;
        let places = lowered(index, upper, &inner, job);
        if first_empty(index, &places).is_none() && !is_closed(index, &places, best) {
            add_step(
                index,
                &mut steps,
                Step {
                    build,
                    upper: places,
                },
            )?;
        }
    }
    Ok(steps)
}

/// Adds a step behind those that are no worse, and drops the last of too many. Of steps that leave the same best places the first
/// is enough.
fn add_step(index: &Index, steps: &mut Vec<Step>, step: Step) -> Result<(), AllocError>
    ensures { (n : ℕ) → step.build < n → All (λ s. s.build < n) steps.old.items
        → All (λ s. s.build < n) steps.new.items }
{
    let at = steps
        .iter()
        .position(|other| is_better(index, &step.upper, &other.upper))
        .unwrap_or(steps.len());
    if at > 0 && !is_better(index, &steps[at - 1].upper, &step.upper) {
        return Ok(());
    }
    if at < GONE_INTO {
        steps.insert(at, step)?;
        steps.truncate(GONE_INTO);
    }
    Ok(())
}

/// Looks for a choice that is better than the one found. Jobs are numbered in order of first mention, so that the first
/// free one belongs to the first input that isn't settled.
fn dive(
    alloc: Global,
    index: &Index,
    fixed: &Fixed,
    upper: &BestPlaces,
    best: &mut Option<Choice>,
    boxes: &mut u32,
) -> Result<(), AllocError>
    requires known { FixesKnown index.now.problem fixed.now }
    requires upper { AreUpper index.now.problem (assigned index.now.problem fixed.now) upper.now }
    requires found { FoundSatisfies index.now.problem best.old }
    ensures { FoundSatisfies index.now.problem best.new }
{
    if let Some(_) = first_empty(index, upper) {
        return Ok(());
    }
    if *boxes == 0 || is_closed(index, upper, best) {
        return Ok(());
    }
    *boxes -= 1;
    let Some(j) = first_free(index.job_count(), fixed) else {
        *best = Some(full_choice(alloc, index, fixed, upper)?);
        return Ok(());
    };
    for step in &steps(alloc, index, fixed, upper, best, j)? {
        let mut inner = *fixed;
        inner[j] = step.build + 1;
        let places = lowered(index, upper, &inner, j);
        dive(alloc, index, &inner, &places, best, boxes)?;
    }
    Ok(())
}
