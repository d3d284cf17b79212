//! Copies of the names that a round goes through.
ghost use Rattle.std.specs.Prelude.{◌≡◌, map, string_bytes, IfOk};
ghost use Rattle.ccr_pipeline.specs.JobData.{resource_data, job_data};
ghost use Rattle.ccr_core.specs.Cores.{core_data};
ghost use Rattle.ccr_serve.specs.Views.{resources_held, jobs_held};

use ccr_core::Core;
use ccr_pipeline::{Job, Resource};
use std::alloc::{AllocError, Global};

/// Copies of the names of resources, in order.
fn resource_names(alloc: Global, resources: &[Resource]) -> Result<Vec<String>, AllocError>
    ensures { IfOk result (λ names. map string_bytes names.items
        ≡ map (λ r. r.name) (map resource_data resources.now)) }
{
    let mut names = Vec::new(alloc);
    for resource in resources {
        names.push(String::from_str(alloc, resource.name.as_str())?)?;
    }
    Ok(names)
}

/// Copies of the names of jobs, in order.
fn job_names(alloc: Global, jobs: &[Job]) -> Result<Vec<String>, AllocError>
    ensures { IfOk result (λ names. map string_bytes names.items ≡ map (λ j. j.name) (map job_data jobs.now)) }
{
    let mut names = Vec::new(alloc);
    for job in jobs {
        names.push(String::from_str(alloc, job.name.as_str())?)?;
    }
    Ok(names)
}

/// Copies of the names of the pipeline's resources, and of its jobs, in order; none where none was set.
pub(crate) fn names_held(
    alloc: Global,
    core: &Core,
) -> Result<(Vec<String>, Vec<String>), AllocError>
    ensures resources { IfOk result (λ names. map string_bytes names.0.items
        ≡ map (λ r. r.name) (resources_held (core_data core.now))) }
    ensures jobs { IfOk result (λ names. map string_bytes names.1.items
        ≡ map (λ j. j.name) (jobs_held (core_data core.now))) }
{
    let Some(pipeline) = core.pipeline() else {
        return Ok((Vec::new(alloc), Vec::new(alloc)));
    };
    let resources = resource_names(alloc, pipeline.resources())?;
    let jobs = job_names(alloc, pipeline.jobs())?;
    Ok((resources, jobs))
}
