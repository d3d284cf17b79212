//! The builds that can still be part of a better choice. They are found by their pairs, so that the work doesn't grow
//! with those that can't.

ghost use Rattle.std.specs.Prelude.{◌≡◌, ◌≢◌, ◌<◌, ◌≤◌, ℕ, List, length, slice_index, IfOk, IfSome, MatchOption, IsTrue, not, All, Contains, Option, Some};
ghost use Rattle.ccr_choice.specs.Problem.{input_at, builds_at};
ghost use Rattle.ccr_choice.specs.Table.{assigned};
ghost use Rattle.ccr_resolve.specs.Search.{AreUpper, places_of};
ghost use Rattle.ccr_resolve.specs.Sought.{HasAll, HasAllOf, IsInSpan, AreWanted, AreSources, IsSplit, IsSplitOnce};

use crate::once::each_once;
use crate::pick::cheapest_job;
use crate::spans::{Span, spans_of};
use crate::upper::BestPlaces;
use ccr_choice::Choice;
use ccr_choice::possible::Fixed;
use ccr_index::{Index, JobRows};
use std::alloc::{AllocError, Global};

/// How many wanted builds of a job are few.
const FEW: usize = 32;
/// How many are looked for where no job has few.
const MANY: usize = 4_096;

/// A free job, and the positions of those of its builds that are gone into.
#[derive(Drop)]
pub(crate) struct Split {
    pub(crate) job: usize,
    pub(crate) builds: Vec<usize>,
}

/// Adds the positions of those builds that have a pair, newest first; true where there would be more than `most` in all.
pub(crate) fn add_builds_with(
    builds: &mut Vec<usize>,
    rows: &JobRows,
    scope: u32,
    place: u32,
    most: usize,
) -> Result<bool, AllocError>
    requires within { All (λ k. k < length rows.now.builds) builds.old.items }
    requires few { length builds.old.items ≤ most }
    ensures within { All (λ k. k < length rows.now.builds) builds.new.items }
    ensures few { length builds.new.items ≤ most }
    ensures kept { (k : ℕ) → Contains builds.old.items k → Contains builds.new.items k }
    ensures all { IfOk result (λ is_over. IsTrue (not is_over) → HasAll rows.now.builds (scope, place) builds.new.items) }
{
    let mut last = rows.last_with(scope, place);
    while last != 0 {
        if builds.len() >= most {
            return Ok(true);
        }
        let build = rows.len() - last;
        builds.push(build)?;
        last = rows.last_before(build, scope, place);
    }
    Ok(false)
}

/// Adds the positions of those builds that have one of these pairs in a scope, those with the last pair first; true where there
/// would be more than `most` in all.
pub(crate) fn add_builds_with_any(
    builds: &mut Vec<usize>,
    rows: &JobRows,
    scope: u32,
    pairs: &[(u32, u32)],
    most: usize,
) -> Result<bool, AllocError>
    requires within { All (λ k. k < length rows.now.builds) builds.old.items }
    requires few { length builds.old.items ≤ most }
    ensures within { All (λ k. k < length rows.now.builds) builds.new.items }
    ensures few { length builds.new.items ≤ most }
    ensures all { IfOk result (λ is_over. IsTrue (not is_over) → HasAllOf rows.now.builds scope pairs.now builds.new.items) }
{
    for k in (0..pairs.len()).rev() {
        let (at, place) = pairs[k];
        if at == scope && add_builds_with(builds, rows, scope, place, most)? {
            return Ok(true);
        }
    }
    Ok(false)
}

/// Adds the positions of those builds that have a place of a span in a scope, those with the first place first; true where there
/// would be more than `most` in all.
fn add_builds_in(
    builds: &mut Vec<usize>,
    rows: &JobRows,
    scope: u32,
    span: Span,
    most: usize,
) -> Result<bool, AllocError>
    requires within { All (λ k. k < length rows.now.builds) builds.old.items }
    requires few { length builds.old.items ≤ most }
    ensures within { All (λ k. k < length rows.now.builds) builds.new.items }
    ensures few { length builds.new.items ≤ most }
    ensures kept { (k : ℕ) → Contains builds.old.items k → Contains builds.new.items k }
    ensures all { IfOk result (λ is_over. IsTrue (not is_over) → (place : ℕ) → IsInSpan span place
        → HasAll rows.now.builds (scope, place) builds.new.items) }
{
    for step in 0..span.len() {
        if add_builds_with(builds, rows, scope, span.place(step), most)? {
            return Ok(true);
        }
    }
    Ok(false)
}

/// The positions of those builds of a job that have a place of an input no worse than the one found and no better than
/// the best one, if they are at most `most` and at most half of the job's: else little is left out.
fn wanted_builds(
    alloc: Global,
    index: &Index,
    job: usize,
    input: usize,
    found: u32,
    best: u32,
    most: usize,
) -> Result<Option<Vec<usize>>, AllocError>
    requires job { job < length index.now.problem.jobs }
    requires input { input < length index.now.problem.inputs }
    ensures { IfOk result (λ wanted. IfSome wanted (λ builds.
        AreWanted index.now.problem job input found best builds.items)) }
{
    let rows = index.rows(job);
    let most = most.min(rows.len() / 2);
    let sought = index.input(input);
    let spans = spans_of(sought.after(), sought.places(), found, best);
    if spans.len() > most {
        return Ok(None);
    }
    let scope = sought.scope();
    let mut builds = Vec::new(alloc);
    if add_builds_in(&mut builds, rows, scope, spans.first, most)? {
        return Ok(None);
    }
    if add_builds_in(&mut builds, rows, scope, spans.second, most)? {
        return Ok(None);
    }
    Ok(Some(builds))
}

/// A free job with at most `most` builds that can be part of a better choice. A better one has the places found before
/// the first input whose best place is better, and there a place no worse than the one found.
fn best_split(
    alloc: Global,
    index: &Index,
    fixed: &Fixed,
    upper: &BestPlaces,
    best: &Choice,
    most: usize,
) -> Result<Option<Split>, AllocError>
    requires { AreUpper index.now.problem (assigned index.now.problem fixed.now) upper.now }
    ensures { IfOk result (λ found. IfSome found (λ split.
        IsSplit index.now.problem fixed.now (Some best.now.places) split.job split.builds.items)) }
{
    for i in 0..index.input_count() {
        let Some(found) = best.places.get(i) else {
            return Ok(None);
        };
        for name in index.input(i).jobs() {
            let job = *name as usize;
            if fixed[job] == 0 {
                if let Some(builds) = wanted_builds(alloc, index, job, i, *found, upper[i], most)? {
                    return Ok(Some(Split { job, builds }));
                }
            }
        }
        if upper[i] != *found {
            return Ok(None);
        }
    }
    Ok(None)
}

/// The pairs of the first fixed build among those of the jobs that input `input` names. The input can have no other place.
pub(crate) fn fixed_pairs<'a>(
    index: &'a Index,
    fixed: &Fixed,
    input: usize,
) -> Option<&'a [(u32, u32)]>
    requires { input < length index.now.problem.inputs }
    ensures { let p = index.now.problem in IfSome result (λ pairs. AreSources p (assigned p fixed.now) input pairs.now) }
{
    for name in index.input(input).jobs() {
        let job = *name as usize;
        let rows = index.rows(job);
        if let Some(build) = fixed[job].checked_sub(1) {
            if build < rows.len() {
                return Some(rows.pairs(build));
            }
        }
    }
    None
}

/// A free job among those that input `input` names, and at most `most` of its builds, and at most half: those that have
/// one of these pairs, of which the input's place is one.
fn split_by_pairs(
    alloc: Global,
    index: &Index,
    fixed: &Fixed,
    input: usize,
    pairs: &[(u32, u32)],
    most: usize,
) -> Result<Option<Split>, AllocError>
    requires input { input < length index.now.problem.inputs }
    requires sources { let p = index.now.problem in AreSources p (assigned p fixed.now) input pairs.now }
    ensures { IfOk result (λ found. IfSome found (λ split. (best : Option (List ℕ)) →
        IsSplit index.now.problem fixed.now best split.job split.builds.items)) }
{
    let scope = index.input(input).scope();
    for name in index.input(input).jobs() {
        let job = *name as usize;
        let rows = index.rows(job);
        if fixed[job] == 0 {
            let mut builds = Vec::new(alloc);
            let is_over = add_builds_with_any(
                &mut builds,
                rows,
                scope,
                pairs,
                most.min(rows.len() / 2),
            )?;
            if !is_over {
                return Ok(Some(Split { job, builds }));
            }
        }
    }
    Ok(None)
}

/// A free job with at most `most` builds that have a place which a fixed build left to an input that names both jobs.
fn passed_split(
    alloc: Global,
    index: &Index,
    fixed: &Fixed,
    most: usize,
) -> Result<Option<Split>, AllocError>
    ensures { IfOk result (λ found. IfSome found (λ split. (best : Option (List ℕ)) →
        IsSplit index.now.problem fixed.now best split.job split.builds.items)) }
{
    for i in 0..index.input_count() {
        if let Some(pairs) = fixed_pairs(index, fixed, i) {
            let found = split_by_pairs(alloc, index, fixed, i, pairs, most)?;
            if found.is_some() {
                return Ok(found);
            }
        }
    }
    Ok(None)
}

/// A free job with at most `most` builds that can be part of a better choice.
fn few_split(
    alloc: Global,
    index: &Index,
    fixed: &Fixed,
    upper: &BestPlaces,
    best: &Option<Choice>,
    most: usize,
) -> Result<Option<Split>, AllocError>
    requires { AreUpper index.now.problem (assigned index.now.problem fixed.now) upper.now }
    ensures { IfOk result (λ found. IfSome found (λ split.
        IsSplit index.now.problem fixed.now (places_of best.now) split.job split.builds.items)) }
{
    if let Some(found) = passed_split(alloc, index, fixed, most)? {
        return Ok(Some(found));
    }
    match best {
        Some(choice) => best_split(alloc, index, fixed, upper, choice, most),
        None => Ok(None),
    }
}

/// The same, each build once.
fn few_once(
    alloc: Global,
    index: &Index,
    fixed: &Fixed,
    upper: &BestPlaces,
    best: &Option<Choice>,
    most: usize,
) -> Result<Option<Split>, AllocError>
    requires { AreUpper index.now.problem (assigned index.now.problem fixed.now) upper.now }
    ensures { IfOk result (λ found. IfSome found (λ split.
        IsSplitOnce index.now.problem fixed.now (places_of best.now) split.job split.builds.items)) }
{
    match few_split(alloc, index, fixed, upper, best, most)? {
        Some(found) => {
            let builds = each_once(alloc, &found.builds)?;
            Ok(Some(Split {
                job: found.job,
                builds,
            }))
        }
        None => Ok(None),
    }
}

/// The positions below this one.
fn all_below(alloc: Global, count: usize) -> Result<Vec<usize>, AllocError>
    ensures { IfOk result (λ all. (length all.items ≡ count)
        × ((k : ℕ) → k < count → slice_index all.items k ≡ k)) }
{
    let mut all = Vec::new(alloc);
    for k in 0..count {
        all.push(k)?;
    }
    Ok(all)
}

/// A free job and the builds of it to go into, each once: few that can be part of a better choice, or all of the job
/// that costs the least. None where no job is free.
pub(crate) fn next_split(
    alloc: Global,
    index: &Index,
    fixed: &Fixed,
    upper: &BestPlaces,
    best: &Option<Choice>,
) -> Result<Option<Split>, AllocError>
    requires { AreUpper index.now.problem (assigned index.now.problem fixed.now) upper.now }
    ensures { IfOk result (λ found. MatchOption found
        ((j : ℕ) → j < length index.now.problem.jobs → slice_index fixed.now j ≢ 0)
        (λ split. IsSplitOnce index.now.problem fixed.now (places_of best.now) split.job split.builds.items)) }
{
    if let Some(found) = few_once(alloc, index, fixed, upper, best, FEW)? {
        return Ok(Some(found));
    }
    if let Some(found) = few_once(alloc, index, fixed, upper, best, MANY)? {
        return Ok(Some(found));
    }
    let Some(job) = cheapest_job(index, fixed, upper, best) else {
        return Ok(None);
    };
    let builds = all_below(alloc, index.rows(job).len())?;
    Ok(Some(Split { job, builds }))
}
