//! The jobs that are red: their newest build that has ended didn't succeed.
ghost use Rattle.std.specs.Prelude.{◌≡◌, ◌++◌, false, flat_map, map, IfOk, IfErr, OnOk};
ghost use Rattle.ccr_pipeline.specs.JobData.{job_data};
ghost use Rattle.ccr_core.specs.Commands as spec;
ghost use Rattle.ccr_core.specs.Cores.{core_data};
ghost use Rattle.ccr_lines.specs.JobsJson.{newest_that};
ghost use Rattle.ccr_lines.specs.Red.{red_if, red_builds, red_status};
ghost use Rattle.ccr_lines.specs.Shown.{needs, IsMade, IsUnshown};

use crate::builds::builds_shown;
use crate::held::pipeline_held;
use crate::newest::{Sought, is_succeeded, newest_of};
use crate::shown::ShowFault;
use ccr_core::{Core, Form};
use ccr_history::{BuildRef, History};
use ccr_pipeline::Job;
use std::alloc::{AllocError, Global};

/// Adds the build, if there is one that didn't succeed.
fn push_red<'h>(
    builds: &mut Vec<BuildRef<'h>>,
    found: Option<BuildRef<'h>>,
) -> Result<(), AllocError>
    ensures { OnOk result (builds.new.items ≡ builds.old.items ++ red_if found.entry) }
{
    match found {
        Some(build) => {
            if !is_succeeded(build.status()) {
                builds.push(build)?;
            }
            Ok(())
        }
        None => Ok(()),
    }
}

/// Of each of these jobs the newest build that has ended, where it didn't succeed.
fn each_red<'h>(
    alloc: Global,
    history: &'h History,
    jobs: &[Job],
) -> Result<Vec<BuildRef<'h>>, AllocError>
    ensures { IfOk result (λ builds. builds.items
        ≡ flat_map (λ j. red_if (newest_that false (job_data j).name history.now)) jobs.now) }
{
    let mut builds = Vec::new(alloc);
    for job in jobs {
        let found = newest_of(history, Sought::Stands(false), job.name.as_str());
        push_red(&mut builds, found)?;
    }
    Ok(builds)
}

/// The same, of a pipeline's jobs.
fn red_builds<'h>(
    alloc: Global,
    history: &'h History,
    jobs: &[Job],
) -> Result<Vec<BuildRef<'h>>, AllocError>
    ensures { IfOk result (λ builds. builds.items ≡ red_builds history.now (map job_data jobs.now)) }
{
    let builds = each_red(alloc, history, jobs)?;
    Ok(builds)
}

/// 1 if there are builds, else 0.
fn red_status(builds: &[BuildRef<'_>]) -> u8
    ensures { result ≡ red_status builds.now }
{
    if builds.is_empty() { 0 } else { 1 }
}

/// What is shown of the red jobs of a core's pipeline.
pub(crate) fn red_made(alloc: Global, core: &Core, form: Form) -> Result<(u8, Vec<u8>), ShowFault>
    ensures made { IfOk result (λ r. IsMade (spec.red form) (core_data core.now) r.0 r.1.items) }
    ensures unshown { let c = core_data core.now in
        IfErr result (IsUnshown (needs (spec.red form)) c.pipeline c.history) }
{
    let pipeline = match pipeline_held(core) {
        Ok(pipeline) => pipeline,
        Err(fault) => return Err(ShowFault::Lacks(fault)),
    };
    let builds = red_builds(alloc, core.history(), pipeline.jobs())?;
    let text = builds_shown(alloc, form, &builds)?;
    Ok((red_status(&builds), text))
}
