//! The rules of a problem, one value at a time.

ghost use Rattle.std.specs.Prelude.{◌≡◌, ◌<◌, Some, None, if◌then◌else◌};
ghost use Rattle.ccr_choice.specs.Problem.{next_used, used_after, are_numbered, are_distinct, are_places_after, are_pairs_after, is_after, is_input, is_build};

use crate::problem::{Build, Input, MOST_JOBS, MOST_PLACES};

/// How many numbers are mentioned once `n`, a known or the next one, is.
pub(crate) fn next_used(used: u32, n: u32) -> u32
    requires { used < 1000 }
    ensures { result ≡ next_used used n }
{
    if n == used { used + 1 } else { used }
}

/// Whether no number stands twice.
pub(crate) fn are_distinct(numbers: &[u32]) -> bool
    ensures { result ≡ are_distinct numbers.now }
{
    let mut rest = numbers;
    while let [n, others @ ..] = rest {
        if others.contains(n) {
            return false;
        }
        rest = others;
    }
    true
}

/// How many jobs are mentioned after these, if each was mentioned before or is the next one.
pub(crate) fn numbered(used: u32, numbers: &[u32]) -> Option<u32>
    ensures { result ≡ (if are_numbered used numbers.now then Some (used_after used numbers.now) else None) }
{
    let mut so_far = used;
    let mut rest = numbers;
    while let [n, others @ ..] = rest {
        if *n > so_far || *n >= MOST_JOBS {
            return None;
        }
        if *n == so_far {
            so_far += 1;
        }
        rest = others;
    }
    Some(so_far)
}

/// Whether places strictly ascend, from 1 to the greatest.
pub(crate) fn are_places(numbers: &[u32]) -> bool
    ensures { result ≡ are_places_after 0 numbers.now }
{
    let mut low: u32 = 0;
    let mut rest = numbers;
    while let [n, others @ ..] = rest {
        if *n <= low || *n > MOST_PLACES {
            return false;
        }
        low = *n;
        rest = others;
    }
    true
}

/// Whether pairs strictly ascend, with scopes that inputs mention.
pub(crate) fn are_pairs(scopes: u32, pairs: &[(u32, u32)]) -> bool
    ensures { result ≡ are_pairs_after scopes 0 0 pairs.now }
{
    let mut scope: u32 = 0;
    let mut place: u32 = 0;
    let mut rest = pairs;
    while let [(s, p), others @ ..] = rest {
        let ascends = scope < *s || (scope == *s && place < *p);
        if !ascends || *s >= scopes || *p == 0 || *p > MOST_PLACES {
            return false;
        }
        scope = *s;
        place = *p;
        rest = others;
    }
    true
}

/// Whether a place that is kept is one, from 1 to the greatest.
fn is_after(after: Option<u32>) -> bool
    ensures { result ≡ is_after after }
{
    match after {
        None => true,
        Some(kept) => 0 < kept && kept <= MOST_PLACES,
    }
}

/// How many jobs are mentioned after an input, if it keeps the rules.
pub(crate) fn jobs_after_input(scopes: u32, jobs: u32, input: &Input) -> Option<u32>
    ensures { result ≡ (if is_input scopes jobs input.now then Some (used_after jobs input.now.jobs) else None) }
{
    if input.scope() > scopes || !are_distinct(input.jobs()) {
        return None;
    }
    let mentioned = numbered(jobs, input.jobs())?;
    if !is_after(input.after()) || !are_places(input.places()) {
        return None;
    }
    Some(mentioned)
}

/// Whether a build keeps the rules, where the build before it has the number `high`.
pub(crate) fn is_build(scopes: u32, high: u32, build: &Build) -> bool
    ensures { result ≡ is_build scopes high build.now }
{
    0 < build.number() && build.number() < high && are_pairs(scopes, build.pairs())
}
