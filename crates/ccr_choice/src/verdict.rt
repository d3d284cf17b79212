//! Whether a choice satisfies a problem, and what is wrong with it first.

ghost use Rattle.std.specs.Prelude.{◌≡◌, ◌<◌, ◌↔◌, ℕ, length, IsTrue, Contains, Any, MatchOption};
ghost use Rattle.ccr_choice.specs.Problem.{input_at};
ghost use Rattle.ccr_choice.specs.Satisfies.{Satisfies, Moved, IsAllowed, IsSuccessful, HasPassed, HasPassedAll, IsFirstFailure, IsFirstFailing, IsFirstVerdict};

use crate::choice::Choice;
use crate::problem::{Build, Problem};
use std::fmt;

/// What is wrong with a choice first, if anything is.
#[derive(Clone, Copy, Debug, PartialEq, Eq)]
pub enum Verdict {
    /// The choice satisfies the problem.
    Satisfies,
    /// There isn't one place for each input and one build for each named job.
    WrongLength,
    /// The place of this input isn't among its allowed places.
    NotAllowed(usize),
    /// This named job has no successful build of the chosen number.
    NotSuccessful(usize),
    /// The place of this input isn't among the pairs of the chosen build of this job, which the input names.
    NotPassed(usize, usize),
}

impl fmt::Display for Verdict {
    ghost use Rattle.std.specs.Prelude.{Some};
    ghost use Rattle.ccr_choice.specs.Words.{verdict_words};

    ghost output = { λ verdict. Some (verdict_words verdict) };

    fn fmt<W: fmt::Write>(&self, f: &mut fmt::Formatter<W>) -> fmt::Result {
        match self {
            Verdict::Satisfies => write!(f, "satisfies"),
            Verdict::WrongLength => write!(f, "wrong length"),
            Verdict::NotAllowed(i) => write!(f, "input {i} not allowed"),
            Verdict::NotSuccessful(j) => write!(f, "job {j} not successful"),
            Verdict::NotPassed(i, j) => write!(f, "input {i} not passed job {j}"),
        }
    }
}

fn contains_place(places: &[u32], place: u32) -> bool
    ensures { IsTrue result ↔ Contains places.now place }
{
    places.contains(&place)
}

fn has_build(builds: &[Build], number: u32) -> bool
    ensures { IsTrue result ↔ Any (λ b. b.number ≡ number) builds.now }
{
    builds.iter().any(|b| b.number() == number)
}

fn contains_pair(pairs: &[(u32, u32)], scope: u32, place: u32) -> bool
    ensures { IsTrue result ↔ Contains pairs.now (scope, place) }
{
    pairs.iter().any(|p| p.0 == scope && p.1 == place)
}

fn has_moved(builds: &[Build], number: u32, scope: u32, place: u32) -> bool
    ensures { IsTrue result ↔ Moved builds.now number (scope, place) }
{
    builds.iter().any(|b| b.number() == number && contains_pair(b.pairs(), scope, place))
}

#[tactic(auto, unfolding(crate::specs::Satisfies::IsAllowed))]
fn is_allowed(problem: &Problem, places: &[u32], i: usize) -> bool
    requires input { i < length problem.now.inputs }
    requires places { length places.now ≡ length problem.now.inputs }
    ensures { IsTrue result ↔ IsAllowed problem.now places.now i }
{
    contains_place(problem.inputs()[i].places(), places[i])
}

#[tactic(auto, unfolding(crate::specs::Satisfies::IsSuccessful))]
fn is_successful(problem: &Problem, builds: &[u32], j: usize) -> bool
    requires job { j < length problem.now.jobs }
    requires builds { length builds.now ≡ length problem.now.jobs }
    ensures { IsTrue result ↔ IsSuccessful problem.now builds.now j }
{
    has_build(problem.builds(j), builds[j])
}

#[tactic(auto, unfolding(crate::specs::Satisfies::HasPassed))]
fn has_passed(problem: &Problem, places: &[u32], builds: &[u32], i: usize, j: usize) -> bool
    requires input { i < length problem.now.inputs }
    requires job { j < length problem.now.jobs }
    requires places { length places.now ≡ length problem.now.inputs }
    requires builds { length builds.now ≡ length problem.now.jobs }
    ensures { IsTrue result ↔ HasPassed problem.now places.now builds.now i j }
{
    has_moved(
        problem.builds(j),
        builds[j],
        problem.inputs()[i].scope(),
        places[i],
    )
}

fn first_not_allowed(problem: &Problem, places: &[u32]) -> Option<usize>
    requires { length places.now ≡ length problem.now.inputs }
    ensures { MatchOption result
        ((i : ℕ) → i < length problem.now.inputs → IsAllowed problem.now places.now i)
        (IsFirstFailure (length problem.now.inputs) (IsAllowed problem.now places.now)) }
{
    for i in 0..problem.inputs().len() {
        if !is_allowed(problem, places, i) {
            return Some(i);
        }
    }
    None
}

fn first_not_successful(problem: &Problem, builds: &[u32]) -> Option<usize>
    requires { length builds.now ≡ length problem.now.jobs }
    ensures { MatchOption result
        ((j : ℕ) → j < length problem.now.jobs → IsSuccessful problem.now builds.now j)
        (IsFirstFailure (length problem.now.jobs) (IsSuccessful problem.now builds.now)) }
{
    for j in 0..problem.jobs().len() {
        if !is_successful(problem, builds, j) {
            return Some(j);
        }
    }
    None
}

/// The first job that input `i` names and whose build doesn't have its pair.
#[tactic(auto, unfolding(crate::specs::Satisfies::HasPassedAll))]
fn first_missing(problem: &Problem, places: &[u32], builds: &[u32], i: usize) -> Option<usize>
    requires input { i < length problem.now.inputs }
    requires places { length places.now ≡ length problem.now.inputs }
    requires builds { length builds.now ≡ length problem.now.jobs }
    ensures { MatchOption result
        (HasPassedAll problem.now places.now builds.now i)
        (λ j. ¬ HasPassedAll problem.now places.now builds.now i
        × IsFirstFailing (input_at problem.now i).jobs (HasPassed problem.now places.now builds.now i) j) }
{
    for j in problem.named(i) {
        if !has_passed(problem, places, builds, i, *j as usize) {
            return Some(*j as usize);
        }
    }
    None
}

/// The first input whose place hasn't passed each job that it names, with the first such job.
fn first_not_passed(problem: &Problem, places: &[u32], builds: &[u32]) -> Option<(usize, usize)>
    requires places { length places.now ≡ length problem.now.inputs }
    requires builds { length builds.now ≡ length problem.now.jobs }
    ensures { MatchOption result
        ((i : ℕ) → i < length problem.now.inputs → HasPassedAll problem.now places.now builds.now i)
        (λ found. IsFirstFailure (length problem.now.inputs) (HasPassedAll problem.now places.now builds.now) found.0
        × IsFirstFailing (input_at problem.now found.0).jobs
        (HasPassed problem.now places.now builds.now found.0) found.1) }
{
    for i in 0..problem.inputs().len() {
        if let Some(job) = first_missing(problem, places, builds, i) {
            return Some((i, job));
        }
    }
    None
}

/// Whether a choice satisfies a problem, and else what is wrong with it first, in the order of the verdicts: the least
/// input whose place isn't allowed, the least job whose build isn't successful, the least input that hasn't passed with
/// the first such job in its list (Concourse: get step, `passed`, all named jobs together).
pub fn satisfies(problem: &Problem, choice: &Choice) -> Verdict
    ensures first { IsFirstVerdict problem.now choice.now.places choice.now.builds result }
    ensures exact { (result ≡ Verdict.Satisfies) ↔ Satisfies problem.now choice.now.places choice.now.builds }
{
    if choice.places.len() != problem.inputs().len()
        || choice.builds.len() != problem.jobs().len()
    {
        return Verdict::WrongLength;
    }
    if let Some(i) = first_not_allowed(problem, &choice.places) {
        return Verdict::NotAllowed(i);
    }
    if let Some(j) = first_not_successful(problem, &choice.builds) {
        return Verdict::NotSuccessful(j);
    }
    if let Some((i, job)) = first_not_passed(problem, &choice.places, &choice.builds) {
        return Verdict::NotPassed(i, job);
    }
    Verdict::Satisfies
}
