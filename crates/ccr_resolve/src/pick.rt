//! Which job is split next.

ghost use Rattle.std.specs.Prelude.{◌≡◌, ◌≢◌, ◌<◌, ◌≤◌, ℕ, length, slice_index, MatchOption};

use crate::upper::{BestPlaces, first_empty, is_closed, lowered};
use ccr_choice::possible::Fixed;
use ccr_choice::{Choice, MOST_JOBS};
use ccr_index::Index;

/// The first of so many named jobs without a fixed build.
pub(crate) fn first_free(jobs: usize, fixed: &Fixed) -> Option<usize>
    requires { jobs ≤ MOST_JOBS }
    ensures { MatchOption result
        ((j : ℕ) → j < jobs → slice_index fixed.now j ≢ 0)
        (λ j. (j < jobs) × (slice_index fixed.now j ≡ 0)) }
{
    (0..jobs).find(|j| fixed[*j] == 0)
}

/// Whether a build of a free job, fixed as well, leaves each input a place, and best places that are better than what
/// was found.
fn is_open(
    index: &Index,
    fixed: &Fixed,
    upper: &BestPlaces,
    best: &Option<Choice>,
    job: usize,
    build: usize,
) -> bool
    requires job { job < 32 }
    requires build { build < 1000000 }
{
    let mut inner = *fixed;
    inner[job] = build + 1;
    let places = lowered(index, upper, &inner, job);
    first_empty(index, &places).is_none() && !is_closed(index, &places, best)
}

/// The least number of builds of a free job other than this one, 0 where there is none.
fn fewest_of_others(index: &Index, fixed: &Fixed, job: usize) -> u64 {
    let mut fewest = None;
    for j in 0..index.job_count() {
        if j != job && fixed[j] == 0 {
            let builds = index.rows(j).len() as u64;
            fewest = Some(fewest.map_or(builds, |f: u64| f.min(builds)));
        }
    }
    fewest.unwrap_or(0)
}

/// Whether no other job is free.
fn is_last_free(index: &Index, fixed: &Fixed, job: usize) -> bool {
    for j in 0..index.job_count() {
        if j != job && fixed[j] == 0 {
            return false;
        }
    }
    true
}

/// How many nodes a split of this job needs at the least: with nothing found the number of its builds that leave each
/// input a place; else its builds, and for each that has to be gone into one more than the builds of a further job.
/// It isn't counted above `most`.
fn cost(
    index: &Index,
    fixed: &Fixed,
    upper: &BestPlaces,
    best: &Option<Choice>,
    job: usize,
    most: u64,
) -> u64
    requires { job < length index.now.problem.jobs }
{
    let builds = index.rows(job).len();
    let (own, each) = match best {
        None => (0, 1),
        Some(_) => (
            builds as u64,
            fewest_of_others(index, fixed, job).saturating_add(1),
        ),
    };
    let mut nodes: u64 = own;
    for build in 0..builds {
        if nodes >= most {
            return nodes;
        }
        if is_open(index, fixed, upper, best, job, build) {
            nodes = nodes.saturating_add(each);
        }
    }
    nodes
}

/// The free job whose split costs the least, the first of several; None where no job is free.
pub(crate) fn cheapest_job(
    index: &Index,
    fixed: &Fixed,
    upper: &BestPlaces,
    best: &Option<Choice>,
) -> Option<usize>
    ensures { MatchOption result
        ((j : ℕ) → j < length index.now.problem.jobs → slice_index fixed.now j ≢ 0)
        (λ j. (j < length index.now.problem.jobs) × (slice_index fixed.now j ≡ 0)) }
{
    let mut cheapest = first_free(index.job_count(), fixed)?;
    if is_last_free(index, fixed, cheapest) {
        return Some(cheapest);
    }
    let mut least = u64::MAX;
    for j in cheapest..index.job_count() {
        if fixed[j] == 0 {
            let nodes = cost(index, fixed, upper, best, j, least);
            if nodes < least {
                cheapest = j;
                least = nodes;
            }
        }
    }
    Some(cheapest)
}
