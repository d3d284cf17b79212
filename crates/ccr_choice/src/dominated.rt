//! Builds of a job that have nothing which another build of the job lacks.

ghost use Rattle.std.specs.Prelude.{◌↔◌, IsTrue, Contains, All};
ghost use Rattle.ccr_choice.specs.Ascending.{AreAscending};
ghost use Rattle.ccr_choice.specs.Dominated.{IsNamedIn, IsDominated};

use crate::possible::has_pair;
use crate::problem::{Build, Problem};

/// Whether job `job` is named by an input of this scope.
fn is_named_in(problem: &Problem, job: u32, scope: u32) -> bool
    ensures { IsTrue result ↔ IsNamedIn problem.now job scope }
{
    let inputs = problem.inputs();
    inputs
        .iter()
        .any(|i| i.scope() == scope && i.jobs().contains(&job))
}

/// Whether each of these pairs whose scope is that of an input naming the job is among the others.
fn are_covered(problem: &Problem, job: u32, pairs: &[(u32, u32)], others: &[(u32, u32)]) -> bool
    requires { AreAscending others.now }
    ensures { IsTrue result
        ↔ All (λ q. IsNamedIn problem.now job q.0 → Contains others.now q) pairs.now }
{
    for (scope, place) in pairs {
        if is_named_in(problem, job, *scope) && !has_pair(others, *scope, *place) {
            return false;
        }
    }
    true
}

/// Whether a build of job `job` is dominated by another: of its pairs, those in the scopes of inputs that name the job
/// are among the pairs of the other.
pub fn is_dominated(problem: &Problem, job: u32, build: &Build, other: &Build) -> bool
    requires { AreAscending other.now.pairs }
    ensures { IsTrue result ↔ IsDominated problem.now job build.now other.now }
{
    are_covered(problem, job, build.pairs(), other.pairs())
}
