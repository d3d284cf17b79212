//! The arrows of a page: the edges of the graph.
ghost use Rattle.std.specs.Prelude.{◌≡◌, ◌++◌, ◌≤◌, map, length, string_bytes, option_map, IfOk, OnOk};
ghost use Rattle.ccr_pipeline.specs.Inputs.{input_data};
ghost use Rattle.ccr_pipeline.specs.JobData.{resource_data, job_data};
ghost use Rattle.ccr_overview.specs.Arrows.{taken_arrow, stopper_at, is_named, passed_arrow, passed_arrows, port_arrows, arrows_to, put_arrow, arrows_from, arrows};
ghost use Rattle.ccr_overview.specs.Each.{each_from};
ghost use Rattle.ccr_overview.specs.Scenes.{told_data, scene_data, IsSmall};

use crate::scene::{Scene, Told};
use crate::stopping::stopper;
use ccr_lines::puts;
use ccr_page::Arrow;
use ccr_pipeline::{Input, Job, Resource, inputs_of};
use std::alloc::{AllocError, Global};

// ---- what a job takes

/// Where an arrow ends: the position of a job, and a port of it.
#[derive(Clone, Copy)]
struct End {
    job: usize,
    port: usize,
}

/// Adds the arrow from a resource at a position, if the input is one of its versions.
fn push_taken(
    out: &mut Vec<Arrow>,
    count: usize,
    end: End,
    input: &Input,
    n: usize,
    resource: &Resource,
) -> Result<(), AllocError>
    requires count { count ≤ 200 }
    requires target { end.job ≤ 200 }
    ensures { OnOk result (out.new.items ≡ out.old.items
        ++ taken_arrow count end.job end.port (input_data input.now) n (resource_data resource.now)) }
{
    if input.resource.as_str() != resource.name.as_str() {
        return Ok(());
    }
    out.push(Arrow {
        source: n,
        target: count + end.job,
        port: end.port,
        trigger: input.trigger,
        is_held: false,
    })?;
    Ok(())
}

/// Adds the arrow from the resource of an input.
fn push_each_taken(
    out: &mut Vec<Arrow>,
    end: End,
    input: &Input,
    resources: &[Resource],
) -> Result<(), AllocError>
    requires count { length resources.now ≤ 200 }
    requires target { end.job ≤ 200 }
    ensures { OnOk result (out.new.items ≡ out.old.items
        ++ each_from (taken_arrow (length resources.now) end.job end.port (input_data input.now)) 0
        (map resource_data resources.now)) }
{
    let count = resources.len();
    for (n, resource) in resources.iter().enumerate() {
        push_taken(out, count, end, input, n, resource)?;
    }
    Ok(())
}

/// The job at which the newest version stopped that the input of a port doesn't take.
fn stopper_at(
    alloc: Global,
    scene: &Scene<'_>,
    told: &Told<'_>,
    port: usize,
) -> Result<Option<String>, AllocError>
    ensures { IfOk result (λ job. option_map string_bytes job
        ≡ stopper_at (scene_data scene.now) (told_data told.now) port) }
{
    match told.explained.inputs.get(port) {
        Some(taken) => stopper(alloc, scene, taken),
        None => Ok(None),
    }
}

/// Whether there is a name, and it is this one.
fn is_named(found: &Option<String>, name: &str) -> bool
    ensures { result ≡ is_named (option_map string_bytes found.now) name.now }
{
    match found {
        Some(other) => name == other.as_str(),
        None => false,
    }
}

/// Adds the arrow from a job at a position, if it has this name, which is that of a job that the input's version has to have
/// passed; and whether the version stopped there.
fn push_passed(
    out: &mut Vec<Arrow>,
    count: usize,
    end: End,
    input: &Input,
    name: &str,
    is_held: bool,
    n: usize,
    job: &Job,
) -> Result<(), AllocError>
    requires count { count ≤ 200 }
    requires target { end.job ≤ 200 }
    requires source { n ≤ 200 }
    ensures { OnOk result (out.new.items ≡ out.old.items
        ++ passed_arrow count end.job end.port (input_data input.now) name.now is_held n (job_data job.now)) }
{
    if name != job.name.as_str() {
        return Ok(());
    }
    out.push(Arrow {
        source: count + n,
        target: count + end.job,
        port: end.port,
        trigger: input.trigger,
        is_held,
    })?;
    Ok(())
}

/// Adds the arrow from the job of a name, which an input's version has to have passed.
fn push_each_passed(
    out: &mut Vec<Arrow>,
    count: usize,
    end: End,
    input: &Input,
    name: &str,
    is_held: bool,
    jobs: &[Job],
) -> Result<(), AllocError>
    requires count { count ≤ 200 }
    requires target { end.job ≤ 200 }
    requires source { length jobs.now ≤ 200 }
    ensures { OnOk result (out.new.items ≡ out.old.items
        ++ each_from (passed_arrow count end.job end.port (input_data input.now) name.now is_held) 0
        (map job_data jobs.now)) }
{
    for (n, job) in jobs.iter().enumerate() {
        push_passed(out, count, end, input, name, is_held, n, job)?;
    }
    Ok(())
}

/// Adds the arrows from the jobs of these names, which an input's version has to have passed, and of which it stopped at one.
fn push_all_passed(
    out: &mut Vec<Arrow>,
    count: usize,
    end: End,
    input: &Input,
    found: &Option<String>,
    jobs: &[Job],
    names: &[String],
) -> Result<(), AllocError>
    requires count { count ≤ 200 }
    requires target { end.job ≤ 200 }
    requires source { length jobs.now ≤ 200 }
    ensures { OnOk result (out.new.items ≡ out.old.items
        ++ passed_arrows count end.job end.port (input_data input.now) (option_map string_bytes found.now)
        (map job_data jobs.now) (map string_bytes names.now)) }
{
    for name in names {
        let is_held = is_named(found, name.as_str());
        push_each_passed(out, count, end, input, name.as_str(), is_held, jobs)?;
    }
    Ok(())
}

/// Adds the arrows to a port from the jobs of these names.
fn push_from_jobs(
    alloc: Global,
    out: &mut Vec<Arrow>,
    scene: &Scene<'_>,
    told: &Told<'_>,
    end: End,
    input: &Input,
    names: &[String],
) -> Result<(), AllocError>
    requires small { IsSmall (scene_data scene.now) }
    requires target { end.job ≤ 200 }
    ensures { let s = scene_data scene.now in let stopped = stopper_at s (told_data told.now) end.port in
        OnOk result (out.new.items ≡ out.old.items
        ++ passed_arrows (length s.pipeline.resources) end.job end.port (input_data input.now) stopped s.pipeline.jobs
        (map string_bytes names.now)) }
{
    let count = scene.pipeline.resources().len();
    let found = stopper_at(alloc, scene, told, end.port)?;
    push_all_passed(out, count, end, input, &found, scene.pipeline.jobs(), names)?;
    Ok(())
}

/// Adds the arrows to a port: from the jobs of these names, or from the resource where there is none.
fn push_named(
    alloc: Global,
    out: &mut Vec<Arrow>,
    scene: &Scene<'_>,
    told: &Told<'_>,
    end: End,
    input: &Input,
    names: &[String],
) -> Result<(), AllocError>
    requires small { IsSmall (scene_data scene.now) }
    requires target { end.job ≤ 200 }
    ensures { let i = input_data input.now in OnOk result (out.new.items ≡ out.old.items
        ++ port_arrows (scene_data scene.now) end.job (told_data told.now) end.port i (map string_bytes names.now)) }
{
    if names.is_empty() {
        return push_each_taken(out, end, input, scene.pipeline.resources());
    }
    push_from_jobs(alloc, out, scene, told, end, input, names)
}

/// Adds the arrows to a port.
fn push_port(
    alloc: Global,
    out: &mut Vec<Arrow>,
    scene: &Scene<'_>,
    told: &Told<'_>,
    end: End,
    input: &Input,
) -> Result<(), AllocError>
    requires small { IsSmall (scene_data scene.now) }
    requires target { end.job ≤ 200 }
    ensures { let i = input_data input.now in OnOk result (out.new.items ≡ out.old.items
        ++ port_arrows (scene_data scene.now) end.job (told_data told.now) end.port i i.passed) }
{
    push_named(alloc, out, scene, told, end, input, &input.passed)
}

/// Adds the arrows to the ports of the job at a position.
fn push_ports(
    alloc: Global,
    out: &mut Vec<Arrow>,
    scene: &Scene<'_>,
    k: usize,
    told: &Told<'_>,
    inputs: &[Input],
) -> Result<(), AllocError>
    requires small { IsSmall (scene_data scene.now) }
    requires target { k ≤ 200 }
    ensures { let s = scene_data scene.now in let t = told_data told.now in
        OnOk result (out.new.items ≡ out.old.items
        ++ each_from (λ i x. port_arrows s k t i x x.passed) 0 (map input_data inputs.now)) }
{
    for (port, input) in inputs.iter().enumerate() {
        push_port(alloc, out, scene, told, End { job: k, port }, input)?;
    }
    Ok(())
}

/// Adds the arrows to the job at a position.
fn push_arrows_to(
    alloc: Global,
    out: &mut Vec<Arrow>,
    scene: &Scene<'_>,
    k: usize,
    told: &Told<'_>,
) -> Result<(), AllocError>
    requires small { IsSmall (scene_data scene.now) }
    requires target { k ≤ 200 }
    ensures { OnOk result (out.new.items ≡ out.old.items
        ++ arrows_to (scene_data scene.now) k (told_data told.now)) }
{
    let inputs = inputs_of(alloc, told.job)?;
    push_ports(alloc, out, scene, k, told, &inputs)?;
    Ok(())
}

/// Adds the arrows to each job.
fn push_each_to(
    alloc: Global,
    out: &mut Vec<Arrow>,
    scene: &Scene<'_>,
    all: &[Told<'_>],
) -> Result<(), AllocError>
    requires small { IsSmall (scene_data scene.now) }
    requires targets { length all.now ≤ 200 }
    ensures { let s = scene_data scene.now in OnOk result (out.new.items ≡ out.old.items
        ++ each_from (arrows_to s) 0 (map told_data all.now)) }
{
    for (k, told) in all.iter().enumerate() {
        push_arrows_to(alloc, out, scene, k, told)?;
    }
    Ok(())
}

// ---- what a job puts

/// Adds the arrow from the job at a position to a resource at another, if the job puts it.
fn push_put(
    out: &mut Vec<Arrow>,
    count: usize,
    k: usize,
    job: &Job,
    n: usize,
    resource: &Resource,
) -> Result<(), AllocError>
    requires count { count ≤ 200 }
    requires source { k ≤ 200 }
    ensures { OnOk result (out.new.items ≡ out.old.items
        ++ put_arrow count k (job_data job.now).plan n (resource_data resource.now)) }
{
    if !puts(&job.plan, resource.name.as_str()) {
        return Ok(());
    }
    out.push(Arrow {
        source: count + k,
        target: n,
        port: 0,
        trigger: true,
        is_held: false,
    })?;
    Ok(())
}

/// Adds the arrows from the job at a position.
fn push_arrows_from(
    out: &mut Vec<Arrow>,
    resources: &[Resource],
    k: usize,
    told: &Told<'_>,
) -> Result<(), AllocError>
    requires resources { length resources.now ≤ 200 }
    requires source { k ≤ 200 }
    ensures { OnOk result (out.new.items ≡ out.old.items
        ++ arrows_from (map resource_data resources.now) k (told_data told.now)) }
{
    let count = resources.len();
    for (n, resource) in resources.iter().enumerate() {
        push_put(out, count, k, told.job, n, resource)?;
    }
    Ok(())
}

/// Adds the arrows from each of these jobs.
fn push_each_from(
    out: &mut Vec<Arrow>,
    resources: &[Resource],
    all: &[Told<'_>],
) -> Result<(), AllocError>
    requires resources { length resources.now ≤ 200 }
    requires sources { length all.now ≤ 200 }
    ensures { OnOk result (out.new.items ≡ out.old.items
        ++ each_from (arrows_from (map resource_data resources.now)) 0 (map told_data all.now)) }
{
    for (k, told) in all.iter().enumerate() {
        push_arrows_from(out, resources, k, told)?;
    }
    Ok(())
}

// ---- all

/// The arrows.
pub(crate) fn arrows(alloc: Global, scene: &Scene<'_>) -> Result<Vec<Arrow>, AllocError>
    requires { IsSmall (scene_data scene.now) }
    ensures { IfOk result (λ all. all.items ≡ arrows (scene_data scene.now)) }
{
    let mut out = Vec::new(alloc);
    push_each_to(alloc, &mut out, scene, scene.told)?;
    push_each_from(&mut out, scene.pipeline.resources(), scene.told)?;
    Ok(out)
}
