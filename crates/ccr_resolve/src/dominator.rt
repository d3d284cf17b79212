//! Builds that have nothing which a newer build of their job lacks.

ghost use Rattle.std.specs.Prelude.{◌<◌, ◌↔◌, ◌≡◌, ℕ, length, slice_index_or, IsTrue, MatchOption, Contains, All};
ghost use Rattle.ccr_choice.specs.Problem.{builds_at};
ghost use Rattle.ccr_choice.specs.Ascending.{AreAscending};
ghost use Rattle.ccr_choice.specs.Dominated.{IsNamedIn, IsDominated};
ghost use Rattle.ccr_index.specs.Rows.{no_build};

use ccr_choice::possible::has_pair;
use ccr_index::Index;

/// Whether job `job` is named by an input of this scope.
fn is_named_in(index: &Index, job: usize, scope: u32) -> bool
    requires { job < length index.now.problem.jobs }
    ensures { IsTrue result ↔ IsNamedIn index.now.problem job scope }
{
    index.rows(job).does_count(scope)
}

/// Whether each of these pairs whose scope is that of an input naming the job is among the others.
fn are_covered(index: &Index, job: usize, pairs: &[(u32, u32)], others: &[(u32, u32)]) -> bool
    requires job { job < length index.now.problem.jobs }
    requires ascending { AreAscending others.now }
    ensures { IsTrue result
        ↔ All (λ q. IsNamedIn index.now.problem job q.0 → Contains others.now q) pairs.now }
{
    for (scope, place) in pairs {
        if is_named_in(index, job, *scope) && !has_pair(others, *scope, *place) {
            return false;
        }
    }
    true
}

/// Of the pairs of build `build`, one in the scope of an input naming the job whose newest build is the oldest; None
/// where no pair lies in such a scope. A pair that no newer build has is taken at once.
fn rarest_pair(index: &Index, job: usize, build: usize, pairs: &[(u32, u32)]) -> Option<(u32, u32)>
    requires job { job < length index.now.problem.jobs }
    requires build { build < length (builds_at index.now.problem job) }
    ensures { MatchOption result
        ((q : ℕ × ℕ) → Contains pairs.now q → ¬ IsNamedIn index.now.problem job q.0)
        (λ q. Contains pairs.now q × IsNamedIn index.now.problem job q.0) }
{
    let rows = index.rows(job);
    let own = rows.len() - build;
    let mut rarest = None;
    let mut least = usize::MAX;
    for (scope, place) in pairs {
        if is_named_in(index, job, *scope) {
            let last = rows.last_with(*scope, *place);
            if last <= own {
                return Some((*scope, *place));
            }
            if rarest.is_none() || last < least {
                rarest = Some((*scope, *place));
                least = last;
            }
        }
    }
    rarest
}

/// The newest build of a job that dominates build `build`, if one that is newer does. Only builds that have one pair in common
/// with it are looked at.
fn newest_dominator(index: &Index, job: usize, build: usize) -> Option<usize>
    requires job { job < length index.now.problem.jobs }
    requires build { build < length (builds_at index.now.problem job) }
    ensures { let p = index.now.problem in MatchOption result
        ((q : ℕ) → q < build → ¬ IsDominated p job (slice_index_or (builds_at p job) build no_build)
        (slice_index_or (builds_at p job) q no_build))
        (λ q. (q < build) × IsDominated p job (slice_index_or (builds_at p job) build no_build)
        (slice_index_or (builds_at p job) q no_build)) }
{
    let rows = index.rows(job);
    let pairs = rows.pairs(build);
    let Some(rarest) = rarest_pair(index, job, build, pairs) else {
        return if build == 0 { None } else { Some(0) };
    };
    let mut last = rows.last_with(rarest.0, rarest.1);
    while last != 0 {
        let newer = rows.len() - last;
        if newer >= build {
            return None;
        }
        if are_covered(index, job, pairs, rows.pairs(newer)) {
            return Some(newer);
        }
        last = rows.last_before(newer, rarest.0, rarest.1);
    }
    None
}

/// A build of a job that is newer than build `build` and dominates it, if there is one: the newest that is alike, or else the
/// newest of all.
///
/// The first is found at once. So it is, where no build of the job has more pairs that count, that there is none.
pub(crate) fn dominator(index: &Index, job: usize, build: usize) -> Option<usize>
    requires job { job < length index.now.problem.jobs }
    requires build { build < length (builds_at index.now.problem job) }
    ensures { let p = index.now.problem in MatchOption result
        ((q : ℕ) → q < build → ¬ IsDominated p job (slice_index_or (builds_at p job) build no_build)
        (slice_index_or (builds_at p job) q no_build))
        (λ q. (q < build) × IsDominated p job (slice_index_or (builds_at p job) build no_build)
        (slice_index_or (builds_at p job) q no_build)) }
{
    let rows = index.rows(job);
    let Some(alike) = rows.newest_alike(build) else {
        return None;
    };
    if alike < build && are_covered(index, job, rows.pairs(build), rows.pairs(alike)) {
        return Some(alike);
    }
    newest_dominator(index, job, build)
}
