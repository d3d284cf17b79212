//! What a page is made of.
ghost use Rattle.std.specs.Prelude.{◌≡◌, ◌≤◌, Some, map, length, IfOk};
ghost use Rattle.ccr_pipeline.specs.Pipelines.{pipeline_data};
ghost use Rattle.ccr_core.specs.Cores.{core_data};
ghost use Rattle.ccr_overview.specs.Scenes.{told_data, row_count, AreTold};

use ccr_core::Core;
use ccr_history::History;
use ccr_lines::{Explained, explained_in};
use ccr_pipeline::{Job, Pipeline};
use std::alloc::{AllocError, Global};

/// A job, and what `explain` says of it.
#[derive(Drop)]
pub(crate) struct Told<'p> {
    pub(crate) job: &'p Job,
    pub(crate) explained: Explained,
}

/// A pipeline with a history, and its jobs with what is said of them.
#[derive(Clone, Copy)]
pub(crate) struct Scene<'s> {
    pub(crate) pipeline: &'s Pipeline,
    pub(crate) history: &'s History,
    /// How many builds of each job have a row.
    pub(crate) row_count: u32,
    /// The jobs in the pipeline's order.
    pub(crate) told: &'s [Told<'s>],
}

/// What `explain` says of each job of a core's pipeline.
pub(crate) fn each_told<'p>(
    alloc: Global,
    core: &Core,
    pipeline: &'p Pipeline,
) -> Result<Vec<Told<'p>>, AllocError>
    requires { (core_data core.now).pipeline ≡ Some (pipeline_data pipeline.now) }
    ensures { let c = core_data core.now in IfOk result (λ told.
        AreTold (pipeline_data pipeline.now) c.history c.budget (map told_data told.items)) }
{
    let mut told = Vec::new(alloc);
    for job in pipeline.jobs() {
        let explained = explained_in(alloc, core, pipeline, job)?;
        told.push(Told { job, explained })?;
    }
    Ok(told)
}

/// A pipeline has few resources and jobs. Nothing runs.
pub(crate) fn few_members(_pipeline: &Pipeline)
    ensures resources { length (pipeline_data _pipeline.now).resources ≤ 200 }
    ensures jobs { length (pipeline_data _pipeline.now).jobs ≤ 200 }
{}

/// How many builds of each job have a row, where there are so many jobs.
pub(crate) fn row_count(jobs: usize) -> u32
    requires { jobs ≤ 200 }
    ensures { result ≡ row_count jobs }
{
    let rows = 150 / (jobs as u32).max(1);
    rows.min(20).max(2)
}

/// How many builds of each job of a pipeline have a row.
pub(crate) fn rows_of(pipeline: &Pipeline) -> u32
    ensures { result ≡ row_count (length (pipeline_data pipeline.now).jobs) }
{
    few_members(pipeline);
    row_count(pipeline.jobs().len())
}
