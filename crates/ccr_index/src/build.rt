//! The index of a problem, made from the problem.

ghost use Rattle.std.specs.Prelude.{◌≡◌, ◌<◌, ◌≤◌, ◌^◌, ◌↔◌, ℕ, length, map, IsTrue, IfOk, All};
ghost use Rattle.ccr_choice.specs.Preference.{order_of};
ghost use Rattle.ccr_choice.specs.Assignment.{nothing_fixed};
ghost use Rattle.ccr_choice.specs.Possible.{IsBestPlace};
ghost use Rattle.ccr_choice.specs.Ascending.{AreAscending};
ghost use Rattle.ccr_choice.specs.Dominated.{IsNamedIn};
ghost use Rattle.ccr_index.specs.Index.{AreTops, HasPassed};
ghost use Rattle.ccr_index.specs.Alike.{does_count, AreCounted};

use crate::alike::Scopes;
use crate::best::names;
use crate::index::Index;
use crate::input::InputRows;
use crate::ranks::ranks_of;
use crate::rows::JobRows;
use ccr_choice::{Build, MOST_INPUTS, Problem};
use std::alloc::{AllocError, Global};

/// The index of this problem, in time that grows with the problem's text.
pub fn build_index(alloc: Global, problem: &Problem) -> Result<Index, AllocError>
    ensures { IfOk result (λ index. index ≡ record { problem = problem.now; spare_places = 0; spare_pairs = 0 }) }
{
    let inputs = inputs_of(alloc, problem)?;
    let jobs = jobs_of(alloc, problem)?;
    let tops = tops_of(problem, &jobs);
    Ok(Index::new(inputs, jobs, tops))
}

fn inputs_of(alloc: Global, problem: &Problem) -> Result<Vec<InputRows>, AllocError>
    ensures { IfOk result (λ inputs. map (λ x. x.input) inputs.items ≡ problem.now.inputs) }
{
    let mut inputs = Vec::new(alloc);
    for input in problem.inputs() {
        inputs.push(InputRows::of(alloc, input)?)?;
    }
    Ok(inputs)
}

fn jobs_of(alloc: Global, problem: &Problem) -> Result<Vec<JobRows>, AllocError>
    ensures builds { IfOk result (λ jobs. map (λ r. r.builds) jobs.items ≡ problem.now.jobs) }
    ensures counted { IfOk result (λ jobs. AreCounted problem.now.inputs (map (λ r. r.scopes) jobs.items)) }
{
    let mut jobs = Vec::new(alloc);
    for j in 0..problem.jobs().len() {
        let scopes = scopes_of(problem, j);
        jobs.push(rows_of(alloc, scopes, problem.builds(j))?)?;
    }
    Ok(jobs)
}

/// The scopes of the inputs that name job `job`.
fn scopes_of(problem: &Problem, job: usize) -> Scopes
    ensures { (scope : ℕ) → IsTrue (does_count result scope) ↔ IsNamedIn problem.now job scope }
{
    let mut scopes = [false; MOST_INPUTS as usize];
    for i in 0..problem.inputs().len() {
        if names(problem.named(i), job) {
            scopes[problem.inputs()[i].scope() as usize] = true;
        }
    }
    scopes
}

fn rows_of(alloc: Global, scopes: Scopes, builds: &[Build]) -> Result<JobRows, AllocError>
    requires ascending { All (λ b. AreAscending b.pairs) builds.now }
    requires few { All (λ b. length b.pairs < 2 ^ 32) builds.now }
    requires limit { length builds.now ≤ 1000000 }
    ensures builds { IfOk result (λ rows. rows.builds ≡ builds.now) }
    ensures scopes { IfOk result (λ rows. rows.scopes ≡ scopes) }
{
    let mut rows = JobRows::new(alloc, scopes);
    for k in (0..builds.len()).rev() {
        let pairs = builds[k].pairs();
        rows.make_room(pairs.len() + 1)?;
        rows.add(builds[k].number(), pairs);
    }
    Ok(rows)
}

/// The best place of each input where nothing is fixed, from the rows of its problem.
fn tops_of(problem: &Problem, jobs: &[JobRows]) -> [u32; MOST_INPUTS as usize]
    requires { map (λ r. r.builds) jobs.now ≡ problem.now.jobs }
    ensures { AreTops problem.now result }
{
    let mut tops = [0; MOST_INPUTS as usize];
    for i in 0..problem.inputs().len() {
        tops[i] = top_of(problem, jobs, i);
    }
    tops
}

/// The most preferred allowed place of input `input` that each job named there has a build with, or 0.
fn top_of(problem: &Problem, jobs: &[JobRows], input: usize) -> u32
    requires input { input < length problem.now.inputs }
    requires jobs { map (λ r. r.builds) jobs.now ≡ problem.now.jobs }
    ensures { IsBestPlace (order_of problem.now) problem.now nothing_fixed input result }
{
    let rows = &problem.inputs()[input];
    let places = rows.places();
    let ranks = ranks_of(rows.after(), places);
    for rank in 0..ranks.to {
        let place = places[ranks.position(rank)];
        if have_passed(problem, jobs, input, place) {
            return place;
        }
    }
    0
}

/// Whether each job that input `input` names has a build with a place.
fn have_passed(problem: &Problem, jobs: &[JobRows], input: usize, place: u32) -> bool
    requires input { input < length problem.now.inputs }
    requires jobs { map (λ r. r.builds) jobs.now ≡ problem.now.jobs }
    ensures { IsTrue result ↔ HasPassed problem.now nothing_fixed input place }
{
    let scope = problem.inputs()[input].scope();
    for job in problem.named(input) {
        if !jobs[*job as usize].has_passed(scope, place) {
            return false;
        }
    }
    true
}
