//! What passed a job: its successful builds, with the pairs that they moved in the scopes of inputs.
ghost use Rattle.std.specs.Prelude.{◌≡◌, ◌∷◌, ◌++◌, ◌≤◌, [], filter, length, map, IfOk, OnOk};
ghost use Rattle.ccr_history.specs.Builds.{is_succeeded};
ghost use Rattle.ccr_problem.specs.Passed.{places_in, cut_to, build_value, job_value};

use ccr_choice::{Build, JobBuilds};
use ccr_history::{BuildRef, History, Status};
use std::alloc::{AllocError, Global};

/// Adds the places that pairs have in a scope, under another number of the scope.
fn push_places(
    cut: &mut Vec<(u32, u32)>,
    pairs: &[(u32, u32)],
    scope: u32,
    number: u32,
) -> Result<(), AllocError>
    ensures { OnOk result (cut.new.items
        ≡ cut.old.items ++ map (λ place. (number, place)) (places_in pairs.now scope)) }
{
    for pair in pairs {
        if pair.0 == scope {
            cut.push((number, pair.1))?;
        }
    }
    Ok(())
}

/// The pairs that lie in these scopes, each scope under its position among these.
pub(crate) fn cut_to(
    alloc: Global,
    scopes: &[u32],
    pairs: &[(u32, u32)],
) -> Result<Vec<(u32, u32)>, AllocError>
    requires { length scopes.now ≤ 32 }
    ensures { IfOk result (λ v. v.items ≡ cut_to scopes.now pairs.now) }
{
    let mut cut = Vec::new(alloc);
    for (number, scope) in scopes.iter().enumerate() {
        push_places(&mut cut, pairs, *scope, number as u32)?;
    }
    Ok(cut)
}

/// Whether a build stands so that it has succeeded.
pub(crate) fn is_succeeded(status: Status) -> bool
    ensures { result ≡ is_succeeded status }
{
    match status {
        Status::Succeeded => true,
        Status::Running | Status::Failed | Status::Errored | Status::Aborted => false,
    }
}

/// Adds a build with what passed with it in these scopes, if it succeeded.
fn push_build(
    alloc: Global,
    builds: &mut Vec<Build>,
    scopes: &[u32],
    build: &BuildRef<'_>,
) -> Result<(), AllocError>
    requires { length scopes.now ≤ 32 }
    ensures { OnOk result (builds.new.items ≡ builds.old.items
        ++ map (build_value scopes.now) (filter (λ b. is_succeeded b.status) (build.now ∷ []))) }
{
    if is_succeeded(build.status()) {
        let pairs = cut_to(alloc, scopes, build.moved())?;
        builds.push(Build::new(build.number(), pairs))?;
    }
    Ok(())
}

/// The successful builds of a job, newest first, each with what passed with it in these scopes.
pub(crate) fn job_builds(
    alloc: Global,
    history: &History,
    scopes: &[u32],
    job: &str,
) -> Result<JobBuilds, AllocError>
    requires { length scopes.now ≤ 32 }
    ensures { IfOk result (λ v. v ≡ job_value history.now.builds scopes.now job.now) }
{
    let positions = history.builds_of(job);
    let mut builds = Vec::new(alloc);
    for k in (0..positions.len()).rev() {
        let build = history.build_at(positions[k] as usize).unwrap();
        push_build(alloc, &mut builds, scopes, &build)?;
    }
    Ok(JobBuilds::new(builds))
}
