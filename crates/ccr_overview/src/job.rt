//! The jobs of a page.
ghost use Rattle.std.specs.Prelude.{◌≡◌, map, string_bytes, option_copied, IfOk};
ghost use Rattle.ccr_pipeline.specs.Inputs.{input_data};
ghost use Rattle.ccr_overview.specs.Overviews.{port_of, job_with, job_listed, job_at, job_shown};
ghost use Rattle.ccr_overview.specs.PageData.{port_data, page_job_data};
ghost use Rattle.ccr_overview.specs.Each.{each_from};
ghost use Rattle.ccr_overview.specs.Scenes.{told_data, scene_data};

use crate::about::about_words;
use crate::build::{bars, builds_at, listed, newest_number, newest_status};
use crate::row::{columns, rows_at};
use crate::scene::{Scene, Told};
use crate::sentence::why_of;
use ccr_history::BuildRef;
use ccr_page::{Job, Port};
use ccr_pipeline::{Input, inputs_of};
use std::alloc::{AllocError, Global};

/// An input.
fn port_of(alloc: Global, input: &Input) -> Result<Port, AllocError>
    ensures { IfOk result (λ port. port_data port ≡ port_of (input_data input.now)) }
{
    let resource = String::from_str(alloc, input.resource.as_str())?;
    Ok(Port {
        resource,
        is_passed: !input.passed.is_empty(),
    })
}

/// Inputs.
fn ports_of(alloc: Global, inputs: &[Input]) -> Result<Vec<Port>, AllocError>
    ensures { IfOk result (λ ports. map port_data ports.items ≡ map port_of (map input_data inputs.now)) }
{
    let mut ports = Vec::new(alloc);
    for input in inputs {
        ports.push(port_of(alloc, input)?)?;
    }
    Ok(ports)
}

/// The job at a position, whose newest build is this one, and which has rows for the builds at these positions and columns of
/// these names.
fn job_with(
    alloc: Global,
    scene: &Scene<'_>,
    at: usize,
    told: &Told<'_>,
    newest: Option<&BuildRef<'_>>,
    positions: &[u32],
    columns: Vec<String>,
) -> Result<Job, AllocError>
    ensures { IfOk result (λ job. page_job_data job ≡ job_with (scene_data scene.now) at (told_data told.now)
        (option_copied newest.entry) positions.now (map string_bytes columns.items)) }
{
    let inputs = inputs_of(alloc, told.job)?;
    let ports = ports_of(alloc, &inputs)?;
    let about = about_words(alloc, scene, at, told, newest)?;
    let why = why_of(alloc, scene, at, told, newest)?;
    let job = told.job.name.as_str();
    let bars = bars(alloc, scene.history, scene.row_count, job)?;
    let rows = rows_at(alloc, scene, &columns, positions)?;
    Ok(Job {
        name: String::from_str(alloc, job)?,
        status: newest_status(newest),
        number: newest_number(newest),
        ports,
        about,
        why,
        bars,
        columns,
        rows,
    })
}

/// The job at a position, whose newest build is this one, and which has rows for the builds at these positions.
fn job_listed(
    alloc: Global,
    scene: &Scene<'_>,
    at: usize,
    told: &Told<'_>,
    newest: Option<&BuildRef<'_>>,
    positions: &[u32],
) -> Result<Job, AllocError>
    ensures { IfOk result (λ job. page_job_data job ≡ job_listed (scene_data scene.now) at (told_data told.now)
        (option_copied newest.entry) positions.now) }
{
    let builds = builds_at(alloc, scene.history, positions)?;
    let columns = columns(alloc, told.job, &builds)?;
    job_with(alloc, scene, at, told, newest, positions, columns)
}

/// The job at a position.
fn job_at(alloc: Global, scene: &Scene<'_>, at: usize, told: &Told<'_>) -> Result<Job, AllocError>
    ensures { IfOk result (λ job. page_job_data job ≡ job_at (scene_data scene.now) at (told_data told.now)) }
{
    let history = scene.history;
    let job = told.job.name.as_str();
    let newest = history.build(job, history.count_of(job));
    let positions = listed(alloc, history, scene.row_count, job)?;
    job_listed(alloc, scene, at, told, newest.as_ref(), &positions)
}

/// The jobs, in their order.
pub(crate) fn jobs_shown(alloc: Global, scene: &Scene<'_>) -> Result<Vec<Job>, AllocError>
    ensures { let s = scene_data scene.now in
        IfOk result (λ jobs. map page_job_data jobs.items ≡ each_from (job_shown s) 0 s.told) }
{
    let mut jobs = Vec::new(alloc);
    for (at, told) in scene.told.iter().enumerate() {
        let job = job_at(alloc, scene, at, told)?;
        jobs.push(job)?;
    }
    Ok(jobs)
}
