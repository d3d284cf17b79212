//! Possible places, and the best of them, under a table of fixed builds.

ghost use Rattle.std.specs.Prelude.{◌≡◌, ◌<◌, ◌≤◌, ◌↔◌, ℕ, [], true, false, length, slice_index_or, IsTrue, IfSome, MatchOption, Contains, All, Any};
ghost use Rattle.std.specs.List.Sorted.{IsPartitionPoint};
ghost use Rattle.std.specs.Option.{option_copied};
ghost use Rattle.ccr_choice.specs.Problem.{input_at};
ghost use Rattle.ccr_choice.specs.Preference.{prefers_after, order_of, IsMostPreferred};
ghost use Rattle.ccr_choice.specs.Possible.{CanHavePassed, IsPossible, IsBestPossible, AreBoundedBy, Reaches};
ghost use Rattle.ccr_choice.specs.Ascending.{AreAscending, AreRising, is_up_to};
ghost use Rattle.ccr_choice.specs.Table.{assigned};

use crate::order::is_preferred;
use crate::problem::{Build, MOST_JOBS, Problem};

/// For each named job 0 where it is free, else one more than the position of its fixed build among its successful
/// builds.
pub type Fixed = [usize; MOST_JOBS as usize];

/// Whether a place is among places that ascend.
pub fn has_place(places: &[u32], place: u32) -> bool
    requires { AreRising places.now }
    ensures { IsTrue result ↔ Contains places.now place }
{
    let at = places.partition_point(|p| *p < place);
    match places.get(at) {
        Some(p) => *p == place,
        None => false,
    }
}

/// Whether a pair of scope and place is among pairs that ascend.
pub fn has_pair(pairs: &[(u32, u32)], scope: u32, place: u32) -> bool
    requires { AreAscending pairs.now }
    ensures { IsTrue result ↔ Contains pairs.now (scope, place) }
{
    let at = pairs.partition_point(|q| q.0 < scope || (q.0 == scope && q.1 < place));
    match pairs.get(at) {
        Some(q) => q.0 == scope && q.1 == place,
        None => false,
    }
}

fn some_has_pair(builds: &[Build], scope: u32, place: u32) -> bool
    requires { All (λ b. AreAscending b.pairs) builds.now }
    ensures { IsTrue result ↔ Any (λ b. Contains b.pairs (scope, place)) builds.now }
{
    for build in builds {
        if has_pair(build.pairs(), scope, place) {
            return true;
        }
    }
    false
}

/// The fixed build of job `job`, if it has one.
pub fn fixed_build<'a>(problem: &'a Problem, fixed: &Fixed, job: usize) -> Option<&'a Build>
    requires { job < length problem.now.jobs }
    ensures value { option_copied result ≡ assigned problem.now fixed.now job }
    ensures ascending { IfSome result (λ b. AreAscending b.now.pairs) }
{
    let jobs = problem.jobs();
    match fixed[job].checked_sub(1) {
        Some(k) => jobs[job].builds().get(k),
        None => None,
    }
}

fn can_have_passed(problem: &Problem, fixed: &Fixed, scope: u32, place: u32, job: usize) -> bool
    requires { job < length problem.now.jobs }
    ensures { IsTrue result ↔ CanHavePassed problem.now (assigned problem.now fixed.now) (scope, place) job }
{
    match fixed_build(problem, fixed, job) {
        Some(build) => has_pair(build.pairs(), scope, place),
        None => some_has_pair(problem.builds(job), scope, place),
    }
}

fn is_possible(problem: &Problem, fixed: &Fixed, input: usize, place: u32) -> bool
    requires { input < length problem.now.inputs }
    ensures { IsTrue result ↔ IsPossible problem.now (assigned problem.now fixed.now) input place }
{
    let inputs = problem.inputs();
    let scope = inputs[input].scope();
    for job in problem.named(input) {
        if !can_have_passed(problem, fixed, scope, place, *job as usize) {
            return false;
        }
    }
    has_place(inputs[input].places(), place)
}

/// Builds of a job that input `input` names, with one of which each possible place must have passed: the fixed build of
/// a job, else all builds of the first named job. None where the input names no job.
fn sources<'a>(problem: &'a Problem, fixed: &Fixed, input: usize) -> Option<&'a [Build]>
    requires { input < length problem.now.inputs }
    ensures passed { MatchOption result ((input_at problem.now input).jobs ≡ [])
        (λ builds. (place : ℕ) → IsPossible problem.now (assigned problem.now fixed.now) input place
        → Any (λ b. Contains b.pairs ((input_at problem.now input).scope, place)) builds.now) }
    ensures ascending { IfSome result (λ builds. All (λ b. AreAscending b.pairs) builds.now) }
{
    for job in problem.named(input) {
        if let Some(build) = fixed_build(problem, fixed, *job as usize) {
            return Some(std::slice::from_ref(build));
        }
    }
    match problem.named(input) {
        [] => None,
        [job, ..] => Some(problem.builds(*job as usize)),
    }
}

/// Whether a place is preferred to the best so far.
fn is_better(after: Option<u32>, place: u32, best: Option<u32>) -> bool
    ensures { MatchOption best (IsTrue result) (λ b. result ≡ prefers_after after place b) }
{
    match best {
        None => true,
        Some(b) => is_preferred(after, place, b),
    }
}

/// How many of the pairs stand before those of this scope whose places lie above the one that is kept; where none is
/// kept, before those of later scopes.
fn up_to(after: Option<u32>, pairs: &[(u32, u32)], scope: u32) -> usize
    requires { AreAscending pairs.now }
    ensures within { result ≤ length pairs.now }
    ensures parted { IsPartitionPoint
        (λ q. is_up_to after scope q ≡ true) (λ q. is_up_to after scope q ≡ false) pairs.now result }
{
    match after {
        Some(kept) => pairs.partition_point(|q| q.0 < scope || (q.0 == scope && q.1 <= kept)),
        None => pairs.partition_point(|q| q.0 <= scope),
    }
}

/// The best of `best` and the possible places among a build's pairs from position `from` on, which lie above the place
/// that is kept. It goes up from there, and ends at the first place that is possible, or not preferred to `best`.
fn best_above(
    problem: &Problem,
    fixed: &Fixed,
    input: usize,
    pairs: &[(u32, u32)],
    from: usize,
    best: Option<u32>,
) -> Option<u32>
    requires input { input < length problem.now.inputs }
    requires ascending { AreAscending pairs.now }
    requires within { from ≤ length pairs.now }
    requires above { (k : ℕ) → from ≤ k → k < length pairs.now
        → is_up_to (input_at problem.now input).after (input_at problem.now input).scope
        (slice_index_or pairs.now k (0, 0)) ≡ false }
    requires possible { IfSome best (IsPossible problem.now (assigned problem.now fixed.now) input) }
    ensures possible { IfSome result (IsPossible problem.now (assigned problem.now fixed.now) input) }
    ensures kept { (place : ℕ) → Reaches (order_of problem.now input) best place
        → Reaches (order_of problem.now input) result place }
    ensures reached { (place k : ℕ) → IsPossible problem.now (assigned problem.now fixed.now) input place
        → from ≤ k → k < length pairs.now
        → slice_index_or pairs.now k (0, 0) ≡ ((input_at problem.now input).scope, place)
        → Reaches (order_of problem.now input) result place }
{
    let inputs = problem.inputs();
    let scope = inputs[input].scope();
    let after = inputs[input].after();
    for k in from..pairs.len() {
        let (at, place) = pairs[k];
        if at != scope || !is_better(after, place, best) {
            return best;
        }
        if is_possible(problem, fixed, input, place) {
            return Some(place);
        }
    }
    best
}

/// The best of `best` and the possible places among a build's pairs before position `to`, which lie up to the place that
/// is kept. It goes down from there, and ends at the first place that is possible, or not preferred to `best`.
fn best_below(
    problem: &Problem,
    fixed: &Fixed,
    input: usize,
    pairs: &[(u32, u32)],
    to: usize,
    best: Option<u32>,
) -> Option<u32>
    requires input { input < length problem.now.inputs }
    requires ascending { AreAscending pairs.now }
    requires within { to ≤ length pairs.now }
    requires below { (k : ℕ) → k < to
        → is_up_to (input_at problem.now input).after (input_at problem.now input).scope
        (slice_index_or pairs.now k (0, 0)) ≡ true }
    requires possible { IfSome best (IsPossible problem.now (assigned problem.now fixed.now) input) }
    ensures possible { IfSome result (IsPossible problem.now (assigned problem.now fixed.now) input) }
    ensures kept { (place : ℕ) → Reaches (order_of problem.now input) best place
        → Reaches (order_of problem.now input) result place }
    ensures reached { (place k : ℕ) → IsPossible problem.now (assigned problem.now fixed.now) input place
        → k < to → slice_index_or pairs.now k (0, 0) ≡ ((input_at problem.now input).scope, place)
        → Reaches (order_of problem.now input) result place }
{
    let inputs = problem.inputs();
    let scope = inputs[input].scope();
    let after = inputs[input].after();
    for k in (0..to).rev() {
        let (at, place) = pairs[k];
        if at != scope || !is_better(after, place, best) {
            return best;
        }
        if is_possible(problem, fixed, input, place) {
            return Some(place);
        }
    }
    best
}

/// The best of `best` and the possible places among a build's pairs, looked at in the order in which they are preferred.
fn best_in(
    problem: &Problem,
    fixed: &Fixed,
    input: usize,
    pairs: &[(u32, u32)],
    best: Option<u32>,
) -> Option<u32>
    requires input { input < length problem.now.inputs }
    requires ascending { AreAscending pairs.now }
    requires possible { IfSome best (IsPossible problem.now (assigned problem.now fixed.now) input) }
    ensures possible { IfSome result (IsPossible problem.now (assigned problem.now fixed.now) input) }
    ensures kept { (place : ℕ) → Reaches (order_of problem.now input) best place
        → Reaches (order_of problem.now input) result place }
    ensures reached { (place : ℕ) → IsPossible problem.now (assigned problem.now fixed.now) input place
        → Contains pairs.now ((input_at problem.now input).scope, place)
        → Reaches (order_of problem.now input) result place }
{
    let inputs = problem.inputs();
    let middle = up_to(inputs[input].after(), pairs, inputs[input].scope());
    let above = best_above(problem, fixed, input, pairs, middle, best);
    best_below(problem, fixed, input, pairs, middle, above)
}

/// The most preferred of places that ascend: the first above the one that is kept, else the last.
fn top_place(after: Option<u32>, places: &[u32]) -> Option<u32>
    requires { AreRising places.now }
    ensures { MatchOption result (places.now ≡ []) (IsMostPreferred (prefers_after after) places.now) }
{
    match after {
        None => places.last().copied(),
        Some(kept) => {
            let above = places.partition_point(|p| *p <= kept);
            match places.get(above) {
                Some(first) => Some(*first),
                None => places.last().copied(),
            }
        }
    }
}

/// The most preferred allowed place of input `input`.
fn top_allowed(problem: &Problem, input: usize) -> Option<u32>
    requires { input < length problem.now.inputs }
    ensures { MatchOption result ((input_at problem.now input).places ≡ [])
        (IsMostPreferred (order_of problem.now input) (input_at problem.now input).places) }
{
    let inputs = problem.inputs();
    top_place(inputs[input].after(), inputs[input].places())
}

/// The best possible place of input `input`, where each possible one has passed with one of these builds.
fn best_among(problem: &Problem, fixed: &Fixed, input: usize, builds: &[Build]) -> Option<u32>
    requires input { input < length problem.now.inputs }
    requires sources { (place : ℕ) → IsPossible problem.now (assigned problem.now fixed.now) input place
        → Any (λ b. Contains b.pairs ((input_at problem.now input).scope, place)) builds.now }
    requires ascending { All (λ b. AreAscending b.pairs) builds.now }
    ensures { IsBestPossible (order_of problem.now) problem.now (assigned problem.now fixed.now) input result }
{
    let top = top_allowed(problem, input);
    let mut best = None;
    for build in builds {
        best = best_in(problem, fixed, input, build.pairs(), best);
        if best == top {
            return best;
        }
    }
    best
}

/// The best possible place of input `input`, which names no job: the most preferred allowed one.
fn best_allowed(problem: &Problem, fixed: &Fixed, input: usize) -> Option<u32>
    requires input { input < length problem.now.inputs }
    requires free { (input_at problem.now input).jobs ≡ [] }
    ensures { IsBestPossible (order_of problem.now) problem.now (assigned problem.now fixed.now) input result }
{
    top_allowed(problem, input)
}

/// The best possible place of input `input`, or None where it has none.
pub fn best_possible(problem: &Problem, fixed: &Fixed, input: usize) -> Option<u32>
    requires { input < length problem.now.inputs }
    ensures { IsBestPossible (order_of problem.now) problem.now (assigned problem.now fixed.now) input result }
{
    match sources(problem, fixed, input) {
        Some(builds) => best_among(problem, fixed, input, builds),
        None => best_allowed(problem, fixed, input),
    }
}

/// Whether the best places aren't better than these.
pub fn is_bounded(problem: &Problem, fixed: &Fixed, bound: &[u32]) -> bool
    ensures { IsTrue result
        ↔ AreBoundedBy (order_of problem.now) problem.now (assigned problem.now fixed.now) bound.now }
{
    let both = problem.inputs().len().min(bound.len());
    for i in 0..both {
        let best = best_possible(problem, fixed, i).unwrap_or(0);
        if best != bound[i] {
            return !is_preferred(problem.after(i), best, bound[i]);
        }
    }
    true
}
