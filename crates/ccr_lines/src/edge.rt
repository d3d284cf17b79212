//! The edges of a graph: what jobs take, and what they put.
ghost use Rattle.std.specs.Prelude.{◌≡◌, ◌++◌, map, flat_map, string_bytes, OnOk};
ghost use Rattle.ccr_pipeline.specs.Inputs.{input_data};
ghost use Rattle.ccr_pipeline.specs.JobData.{resource_data, job_data};
ghost use Rattle.ccr_pipeline.specs.Names.{has_name};
ghost use Rattle.ccr_pipeline.specs.Pipelines.{pipeline_data};
ghost use Rattle.ccr_pipeline.specs.Tree.{tree_of, trees_of, gathered, gathered_in};
ghost use Rattle.ccr_lines.specs.Graphs.{arrow, taken_edge, passed_edge, input_edges, edges_to, own_put, put_edge, edges_from, numbered};

use crate::label::{label_of, push_parts};
use ccr_pipeline::{Input, Job, Pipeline, Resource, Step, inputs_of};
use itoa::Buffer;
use std::alloc::{AllocError, Global};

// ---- what a job takes

/// How an input is drawn.
fn arrow(trigger: bool) -> &'static str
    ensures { result.now ≡ arrow trigger }
{
    if trigger { " -->" } else { " -.->" }
}

/// Adds the edge from a resource at a position to the job at another, if the input is one of its versions.
fn push_taken(
    out: &mut Vec<u8>,
    input: &Input,
    k: usize,
    n: usize,
    resource: &Resource,
) -> Result<(), AllocError>
    ensures { OnOk result (out.new.items ≡ out.old.items
        ++ taken_edge (input_data input.now) k n (resource_data resource.now)) }
{
    if input.resource.as_str() != resource.name.as_str() {
        return Ok(());
    }
    let mut from = Buffer::new();
    let mut to = Buffer::new();
    let parts = [
        "    r".as_bytes(),
        from.format(n).as_bytes(),
        arrow(input.trigger).as_bytes(),
        " j".as_bytes(),
        to.format(k).as_bytes(),
    ];
    push_parts(out, &parts)
}

/// Adds the edge from the resource of an input to the job at a position.
fn push_each_taken(
    out: &mut Vec<u8>,
    input: &Input,
    k: usize,
    resources: &[Resource],
) -> Result<(), AllocError>
    ensures { OnOk result (out.new.items ≡ out.old.items
        ++ numbered (taken_edge (input_data input.now) k) 0 (map resource_data resources.now)) }
{
    for (n, resource) in resources.iter().enumerate() {
        push_taken(out, input, k, n, resource)?;
    }
    Ok(())
}

/// Adds the edge from a job at a position to the job at another, if it has this name, which is that of a job that the
/// input's version has to have passed.
fn push_passed(
    alloc: Global,
    out: &mut Vec<u8>,
    input: &Input,
    k: usize,
    name: &str,
    n: usize,
    job: &Job,
) -> Result<(), AllocError>
    ensures { OnOk result (out.new.items ≡ out.old.items
        ++ passed_edge (input_data input.now) k name.now n (job_data job.now)) }
{
    if name != job.name.as_str() {
        return Ok(());
    }
    let label = label_of(alloc, input.resource.as_str())?;
    let mut from = Buffer::new();
    let mut to = Buffer::new();
    let parts = [
        "    j".as_bytes(),
        from.format(n).as_bytes(),
        arrow(input.trigger).as_bytes(),
        "|".as_bytes(),
        label.as_slice(),
        "| j".as_bytes(),
        to.format(k).as_bytes(),
    ];
    push_parts(out, &parts)
}

/// Adds the edge from the job of a name, which an input's version has to have passed, to the job at a position.
fn push_each_passed(
    alloc: Global,
    out: &mut Vec<u8>,
    input: &Input,
    k: usize,
    name: &str,
    jobs: &[Job],
) -> Result<(), AllocError>
    ensures { OnOk result (out.new.items ≡ out.old.items
        ++ numbered (passed_edge (input_data input.now) k name.now) 0 (map job_data jobs.now)) }
{
    for (n, job) in jobs.iter().enumerate() {
        push_passed(alloc, out, input, k, name, n, job)?;
    }
    Ok(())
}

/// Adds the edges from the jobs of these names, which an input's version has to have passed, to the job at a position.
fn push_all_passed(
    alloc: Global,
    out: &mut Vec<u8>,
    input: &Input,
    k: usize,
    names: &[String],
    jobs: &[Job],
) -> Result<(), AllocError>
    ensures { OnOk result (out.new.items ≡ out.old.items
        ++ flat_map (λ passed. numbered (passed_edge (input_data input.now) k passed) 0 (map job_data jobs.now))
        (map string_bytes names.now)) }
{
    for name in names {
        push_each_passed(alloc, out, input, k, name.as_str(), jobs)?;
    }
    Ok(())
}

/// Adds the edges of an input of the job at a position.
fn push_input(
    alloc: Global,
    out: &mut Vec<u8>,
    pipeline: &Pipeline,
    k: usize,
    input: &Input,
) -> Result<(), AllocError>
    ensures { let i = input_data input.now in OnOk result (out.new.items ≡ out.old.items
        ++ input_edges (pipeline_data pipeline.now) i k i.passed) }
{
    if input.passed.is_empty() {
        return push_each_taken(out, input, k, pipeline.resources());
    }
    push_all_passed(alloc, out, input, k, &input.passed, pipeline.jobs())?;
    Ok(())
}

/// Adds the edges of these inputs of the job at a position.
fn push_inputs(
    alloc: Global,
    out: &mut Vec<u8>,
    pipeline: &Pipeline,
    k: usize,
    inputs: &[Input],
) -> Result<(), AllocError>
    ensures { OnOk result (out.new.items ≡ out.old.items
        ++ flat_map (λ i. input_edges (pipeline_data pipeline.now) i k i.passed) (map input_data inputs.now)) }
{
    for input in inputs {
        push_input(alloc, out, pipeline, k, input)?;
    }
    Ok(())
}

/// Adds the edges to the job at a position.
fn push_edges_to(
    alloc: Global,
    out: &mut Vec<u8>,
    pipeline: &Pipeline,
    k: usize,
    job: &Job,
) -> Result<(), AllocError>
    ensures { OnOk result (out.new.items ≡ out.old.items
        ++ edges_to (pipeline_data pipeline.now) k (job_data job.now)) }
{
    let inputs = inputs_of(alloc, job)?;
    push_inputs(alloc, out, pipeline, k, &inputs)
}

/// Adds what each of these jobs takes, in their pipeline.
pub(crate) fn push_taken_edges(
    alloc: Global,
    out: &mut Vec<u8>,
    pipeline: &Pipeline,
    jobs: &[Job],
) -> Result<(), AllocError>
    ensures { OnOk result (out.new.items ≡ out.old.items
        ++ numbered (edges_to (pipeline_data pipeline.now)) 0 (map job_data jobs.now)) }
{
    for (k, job) in jobs.iter().enumerate() {
        push_edges_to(alloc, out, pipeline, k, job)?;
    }
    Ok(())
}

// ---- what a job puts

/// Whether one of the steps puts the resource.
#[cycle(puts)]
fn one_puts(steps: &Vec<Step>, resource: &str) -> bool
    ensures { result ≡ has_name (gathered_in own_put (trees_of (map tree_of steps.now.items))) resource.now }
{
    for step in steps {
        if puts(step, resource) {
            return true;
        }
    }
    false
}

/// Whether a step, or one in it, puts the resource.
#[cycle(puts)]
pub fn puts(step: &Step, resource: &str) -> bool
    ensures { result ≡ has_name (gathered own_put (tree_of step.now)) resource.now }
{
    match step {
        Step::Put(put) => resource == put.resource.as_str(),
        Step::Get(_) | Step::Task(_) => false,
        Step::Do(steps) => one_puts(steps, resource),
        Step::InParallel(steps, _) => one_puts(steps, resource),
        Step::Try(tried) => puts(tried, resource),
        Step::Attempts(_, tried) => puts(tried, resource),
        Step::Hook(_, inner, hook) => puts(inner, resource) || puts(hook, resource),
    }
}

/// Adds the edge from a job at a position to a resource at another, if the job puts it.
fn push_put(
    out: &mut Vec<u8>,
    job: &Job,
    k: usize,
    n: usize,
    resource: &Resource,
) -> Result<(), AllocError>
    ensures { OnOk result (out.new.items ≡ out.old.items
        ++ put_edge (job_data job.now).plan k n (resource_data resource.now)) }
{
    if !puts(&job.plan, resource.name.as_str()) {
        return Ok(());
    }
    let mut from = Buffer::new();
    let mut to = Buffer::new();
    let parts = [
        "    j".as_bytes(),
        from.format(k).as_bytes(),
        " --> r".as_bytes(),
        to.format(n).as_bytes(),
    ];
    push_parts(out, &parts)
}

/// Adds the edges from the job at a position.
fn push_edges_from(
    out: &mut Vec<u8>,
    resources: &[Resource],
    k: usize,
    job: &Job,
) -> Result<(), AllocError>
    ensures { OnOk result (out.new.items ≡ out.old.items
        ++ edges_from (map resource_data resources.now) k (job_data job.now)) }
{
    for (n, resource) in resources.iter().enumerate() {
        push_put(out, job, k, n, resource)?;
    }
    Ok(())
}

/// Adds what each of these jobs puts.
pub(crate) fn push_put_edges(
    out: &mut Vec<u8>,
    resources: &[Resource],
    jobs: &[Job],
) -> Result<(), AllocError>
    ensures { OnOk result (out.new.items ≡ out.old.items
        ++ numbered (edges_from (map resource_data resources.now)) 0 (map job_data jobs.now)) }
{
    for (k, job) in jobs.iter().enumerate() {
        push_edges_from(out, resources, k, job)?;
    }
    Ok(())
}
