//! The page of what a core holds.
ghost use Rattle.std.specs.Prelude.{◌≡◌, ◌+◌, ◌≤◌, Some, map, length, IfOk};
ghost use Rattle.ccr_pipeline.specs.Pipelines.{pipeline_data};
ghost use Rattle.ccr_core.specs.Cores.{core_data};
ghost use Rattle.ccr_overview.specs.Overviews.{options_data, page_with, page_without, IsPageOf, IsOverview};
ghost use Rattle.ccr_overview.specs.PageData.{page_data};
ghost use Rattle.ccr_overview.specs.Scenes.{told_data, scene_data, IsSmall, AreTold};

use crate::arrow::arrows;
use crate::job::jobs_shown;
use crate::options::Options;
use crate::resource::resources_shown;
use crate::scene::{Scene, Told, each_told, few_members, row_count, rows_of};
use ccr_core::Core;
use ccr_page::Page;
use ccr_pipeline::Pipeline;
use std::alloc::{AllocError, Global};

/// The page where no pipeline is set.
fn page_without(alloc: Global, options: Options) -> Page
    ensures shown { page_data result ≡ page_without (options_data options) }
    ensures few { length result.resources.items + length result.jobs.items ≤ 400 }
{
    Page {
        title: options.title,
        made: options.made,
        now: options.now,
        refresh: options.refresh,
        logs: options.logs,
        has_pipeline: false,
        row_count: row_count(0),
        jobs: Vec::new(alloc),
        resources: Vec::new(alloc),
        arrows: Vec::new(alloc),
    }
}

/// The page of a pipeline with a history, and of what is said of its jobs.
fn page_with(alloc: Global, options: Options, scene: &Scene<'_>) -> Result<Page, AllocError>
    requires { IsSmall (scene_data scene.now) }
    ensures { IfOk result (λ page. page_data page ≡ page_with (options_data options) (scene_data scene.now)) }
{
    let jobs = jobs_shown(alloc, scene)?;
    let resources = resources_shown(alloc, scene.history, scene.pipeline.resources())?;
    let arrows = arrows(alloc, scene)?;
    Ok(Page {
        title: options.title,
        made: options.made,
        now: options.now,
        refresh: options.refresh,
        logs: options.logs,
        has_pipeline: true,
        row_count: scene.row_count,
        jobs,
        resources,
        arrows,
    })
}

/// The page of a core's pipeline, of whose jobs this is said.
fn page_told(
    alloc: Global,
    core: &Core,
    pipeline: &Pipeline,
    options: Options,
    told: &[Told<'_>],
) -> Result<Page, AllocError>
    requires { let c = core_data core.now in
        AreTold (pipeline_data pipeline.now) c.history c.budget (map told_data told.now) }
    ensures shown { let c = core_data core.now in IfOk result (λ page.
        IsPageOf (options_data options) (pipeline_data pipeline.now) c.history c.budget (page_data page)) }
    ensures few { IfOk result (λ page. length page.resources.items + length page.jobs.items ≤ 400) }
{
    few_members(pipeline);
    let history = core.history();
    let row_count = rows_of(pipeline);
    let scene = Scene {
        pipeline,
        history,
        row_count,
        told,
    };
    page_with(alloc, options, &scene)
}

/// The page of a core's pipeline.
fn page_of(
    alloc: Global,
    core: &Core,
    pipeline: &Pipeline,
    options: Options,
) -> Result<Page, AllocError>
    requires { (core_data core.now).pipeline ≡ Some (pipeline_data pipeline.now) }
    ensures shown { let c = core_data core.now in IfOk result (λ page.
        IsPageOf (options_data options) (pipeline_data pipeline.now) c.history c.budget (page_data page)) }
    ensures few { IfOk result (λ page. length page.resources.items + length page.jobs.items ≤ 400) }
{
    let told = each_told(alloc, core, pipeline)?;
    let page = page_told(alloc, core, pipeline, options, &told)?;
    Ok(page)
}

/// The page of what a core holds: each job of its pipeline with its newest build, its last ones, what they took, and why it
/// stands still, by what `explain` says; each resource with its versions and pins; and each edge of the graph.
///
/// The only error is out of memory.
pub fn overview(alloc: Global, core: &Core, options: Options) -> Result<Page, AllocError>
    ensures shown { IfOk result (λ page. IsOverview (options_data options) (core_data core.now) (page_data page)) }
    // So few that `ccr_page` draws them.
    ensures few { IfOk result (λ page. length page.resources.items + length page.jobs.items ≤ 400) }
{
    match core.pipeline() {
        Some(pipeline) => page_of(alloc, core, pipeline, options),
        None => Ok(page_without(alloc, options)),
    }
}
