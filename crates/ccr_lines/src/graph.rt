//! The pipeline as a Mermaid flowchart.
ghost use Rattle.std.specs.Prelude.{◌≡◌, ◌++◌, ◌∷◌, [], map, codes, IfOk, IfErr, OnOk};
ghost use Rattle.ccr_pipeline.specs.JobData.{resource_data, job_data};
ghost use Rattle.ccr_pipeline.specs.Pipelines.{pipeline_data};
ghost use Rattle.ccr_core.specs.Cores.{core_data};
ghost use Rattle.ccr_lines.specs.Graphs.{resource_node, job_line, state_line, job_node, class_lines, graph_lines, numbered};
ghost use Rattle.ccr_lines.specs.Lines.{line};
ghost use Rattle.ccr_lines.specs.Shown.{needs, IsMade, IsUnshown};
ghost use Rattle.ccr_core.specs.Commands as spec;

use crate::edge::{push_put_edges, push_taken_edges};
use crate::held::pipeline_held;
use crate::label::{label_of, push_parts};
use crate::print::word_of;
use crate::shown::ShowFault;
use ccr_core::Core;
use ccr_history::{BuildRef, History};
use ccr_pipeline::{Job, Pipeline, Resource};
use itoa::Buffer;
use std::alloc::{AllocError, Global};

// ---- resources

/// Adds the node of the resource at a position.
fn push_resource(
    alloc: Global,
    out: &mut Vec<u8>,
    history: &History,
    k: usize,
    resource: &Resource,
) -> Result<(), AllocError>
    ensures { OnOk result (out.new.items ≡ out.old.items
        ++ resource_node history.now k (resource_data resource.now)) }
{
    let label = label_of(alloc, resource.name.as_str())?;
    let mut position = Buffer::new();
    let mut count = Buffer::new();
    let parts = [
        "    r".as_bytes(),
        position.format(k).as_bytes(),
        "[(\"".as_bytes(),
        label.as_slice(),
        "<br>".as_bytes(),
        count
            .format(history.versions(resource.scope()).len())
            .as_bytes(),
        " versions\")]".as_bytes(),
    ];
    push_parts(out, &parts)
}

/// Adds the nodes of the resources.
fn push_resources(
    alloc: Global,
    out: &mut Vec<u8>,
    history: &History,
    resources: &[Resource],
) -> Result<(), AllocError>
    ensures { OnOk result (out.new.items ≡ out.old.items
        ++ numbered (resource_node history.now) 0 (map resource_data resources.now)) }
{
    for (k, resource) in resources.iter().enumerate() {
        push_resource(alloc, out, history, k, resource)?;
    }
    Ok(())
}

// ---- jobs

/// Adds the node of the job of this name at a position, with two words and a class.
#[tactic(auto, unfolding(crate::specs::Graphs::job_line))]
fn push_state<'t>(
    alloc: Global,
    out: &mut Vec<u8>,
    k: usize,
    name: &str,
    first: &'t str,
    second: &'t str,
    class: &'t str,
) -> Result<(), AllocError>
    ensures { OnOk result (out.new.items ≡ out.old.items ++ job_line k name.now first.now second.now class.now) }
{
    let label = label_of(alloc, name)?;
    let mut position = Buffer::new();
    let parts = [
        "    j".as_bytes(),
        position.format(k).as_bytes(),
        "[\"".as_bytes(),
        label.as_slice(),
        "<br>".as_bytes(),
        first.as_bytes(),
        " ".as_bytes(),
        second.as_bytes(),
        "\"]:::".as_bytes(),
        class.as_bytes(),
    ];
    push_parts(out, &parts)
}

/// Adds the node of the job of this name at a position, with this build, if it has one.
fn push_newest(
    alloc: Global,
    out: &mut Vec<u8>,
    k: usize,
    name: &str,
    newest: Option<BuildRef<'_>>,
) -> Result<(), AllocError>
    ensures { OnOk result (out.new.items ≡ out.old.items ++ state_line k name.now newest.entry) }
{
    match newest {
        Some(build) => {
            let mut number = Buffer::new();
            let number = number.format(build.number());
            let word = word_of(build.status());
            push_state(alloc, out, k, name, number, word, word)
        }
        None => push_state(alloc, out, k, name, "no", "builds", "none"),
    }
}

/// Adds the node of the job at a position.
fn push_job(
    alloc: Global,
    out: &mut Vec<u8>,
    history: &History,
    k: usize,
    job: &Job,
) -> Result<(), AllocError>
    ensures { OnOk result (out.new.items ≡ out.old.items ++ job_node history.now k (job_data job.now)) }
{
    let name = job.name.as_str();
    let newest = history.build(name, history.count_of(name));
    push_newest(alloc, out, k, name, newest)
}

/// Adds the nodes of the jobs.
fn push_jobs(
    alloc: Global,
    out: &mut Vec<u8>,
    history: &History,
    jobs: &[Job],
) -> Result<(), AllocError>
    ensures { OnOk result (out.new.items ≡ out.old.items
        ++ numbered (job_node history.now) 0 (map job_data jobs.now)) }
{
    for (k, job) in jobs.iter().enumerate() {
        push_job(alloc, out, history, k, job)?;
    }
    Ok(())
}

// ---- colours

/// The colours of jobs: a class for each status, and one for jobs without builds.
const CLASSES: &str = "    classDef succeeded fill:#d5f5d5,stroke:#2e8b2e,color:#000000
    classDef failed fill:#d86c6c,stroke:#8b1a1a,color:#000000
    classDef errored fill:#eaa95f,stroke:#9a5b00,color:#000000
    classDef aborted fill:#b09d8f,stroke:#5f4b3c,color:#000000
    classDef running fill:#f0d264,stroke:#8a6d00,color:#000000
    classDef none fill:#ffffff,stroke:#808080,color:#000000
";

/// Adds the colours of jobs.
#[tactic(auto, unfolding(crate::specs::Graphs::class_lines))]
fn push_classes(out: &mut Vec<u8>) -> Result<(), AllocError>
    ensures { OnOk result (out.new.items ≡ out.old.items ++ class_lines) }
{
    out.extend_from_slice(CLASSES.as_bytes())
}

// ---- the whole

/// Adds the first line.
fn push_title(out: &mut Vec<u8>) -> Result<(), AllocError>
    ensures { OnOk result (out.new.items ≡ out.old.items ++ line (codes "flowchart LR" ∷ [])) }
{
    push_parts(out, &["flowchart LR".as_bytes()])
}

/// Adds the graph of a pipeline with a history.
fn push_graph(
    alloc: Global,
    out: &mut Vec<u8>,
    pipeline: &Pipeline,
    history: &History,
) -> Result<(), AllocError>
    ensures { OnOk result (out.new.items ≡ out.old.items ++ graph_lines (pipeline_data pipeline.now) history.now) }
{
    push_title(out)?;
    push_resources(alloc, out, history, pipeline.resources())?;
    push_jobs(alloc, out, history, pipeline.jobs())?;
    push_taken_edges(alloc, out, pipeline, pipeline.jobs())?;
    push_put_edges(out, pipeline.resources(), pipeline.jobs())?;
    push_classes(out)?;
    Ok(())
}

/// The graph of a pipeline with a history.
fn graph_text(alloc: Global, pipeline: &Pipeline, history: &History) -> Result<Vec<u8>, AllocError>
    ensures { IfOk result (λ text. text.items ≡ graph_lines (pipeline_data pipeline.now) history.now) }
{
    let mut text = Vec::new(alloc);
    push_graph(alloc, &mut text, pipeline, history)?;
    Ok(text)
}

/// What is shown of a core's pipeline as a graph.
pub(crate) fn graph_made(alloc: Global, core: &Core) -> Result<(u8, Vec<u8>), ShowFault>
    ensures made { IfOk result (λ r. IsMade spec.graph (core_data core.now) r.0 r.1.items) }
    ensures unshown { let c = core_data core.now in IfErr result (IsUnshown (needs spec.graph) c.pipeline c.history) }
{
    let pipeline = match pipeline_held(core) {
        Ok(pipeline) => pipeline,
        Err(fault) => return Err(ShowFault::Lacks(fault)),
    };
    let text = graph_text(alloc, pipeline, core.history())?;
    Ok((0, text))
}
