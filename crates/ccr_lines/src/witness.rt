//! Which builds show that the places of a problem's inputs went through its jobs together.
ghost use Rattle.std.specs.Prelude.{◌≡◌, ◌<◌, ◌||◌, not, length, find, option_map, IsSome, IfOk, MatchResult};
ghost use Rattle.std.specs.List.{list_any};
ghost use Rattle.ccr_choice.specs.Satisfies.{IsFirstFailure};
ghost use Rattle.ccr_lines.specs.Releases.{is_pair};
ghost use Rattle.ccr_lines.specs.Witnesses.{names_job, passed_together, witness, AreWitnesses};

use crate::release::has_pair;
use ccr_choice::{Build, Input, Problem};
use std::alloc::{AllocError, Global};

/// Whether an input names the job of this number.
fn names_job(job: usize, input: &Input) -> bool
    ensures { result ≡ names_job job input.now }
{
    for n in input.jobs() {
        if *n as usize == job {
            return true;
        }
    }
    false
}

/// Whether a build passed the place of an input, if the input names the job of this number.
fn passed_if_named(job: usize, input: &Input, place: u32, build: &Build) -> bool
    ensures { result ≡ (not (names_job job input.now) || list_any (is_pair (input.now.scope, place)) build.now.pairs) }
{
    !names_job(job, input) || has_pair(build.pairs(), (input.scope(), place))
}

/// Whether a build passed, all together, the places of those of these inputs that name the job of this number.
fn passed_together(job: usize, inputs: &[Input], places: &[u32], build: &Build) -> bool
    requires { length places.now ≡ length inputs.now }
    ensures { result ≡ passed_together job inputs.now places.now build.now }
{
    for (k, input) in inputs.iter().enumerate() {
        if !passed_if_named(job, input, places[k], build) {
            return false;
        }
    }
    true
}

/// The number of the first of these builds that passed, all together, the places of those of these inputs that name the job
/// of this number.
fn first_together(job: usize, inputs: &[Input], places: &[u32], builds: &[Build]) -> Option<u32>
    requires { length places.now ≡ length inputs.now }
    ensures { result ≡ option_map (λ b. b.number) (find (passed_together job inputs.now places.now) builds.now) }
{
    for build in builds {
        if passed_together(job, inputs, places, build) {
            return Some(build.number());
        }
    }
    None
}

/// The witness of the job of this number, where the inputs of the problem have these places.
fn witness(problem: &Problem, places: &[u32], job: usize) -> Option<u32>
    requires job { job < length problem.now.jobs }
    requires places { length places.now ≡ length problem.now.inputs }
    ensures { result ≡ witness problem.now places.now job }
{
    first_together(job, problem.inputs(), places, problem.builds(job))
}

/// The witnesses of all jobs of a problem whose inputs have these places; or the number of the first job that has none.
pub(crate) fn witnesses(
    alloc: Global,
    problem: &Problem,
    places: &[u32],
) -> Result<Result<Vec<u32>, usize>, AllocError>
    requires { length places.now ≡ length problem.now.inputs }
    ensures { IfOk result (λ found. MatchResult found (λ builds. AreWitnesses problem.now places.now builds.items)
        (λ job. IsFirstFailure (length problem.now.jobs) (λ k. IsSome (witness problem.now places.now k)) job)) }
{
    let mut builds = Vec::new(alloc);
    for job in 0..problem.jobs().len() {
        match witness(problem, places, job) {
            Some(number) => builds.push(number)?,
            None => return Ok(Err(job)),
        }
    }
    Ok(Ok(builds))
}
