//! How the resources and the jobs of a pipeline stand.
ghost use Rattle.std.specs.Prelude.{◌≡◌, ◌++◌, Some, map, flat_map, option_copied, string_bytes, IfOk, IfErr, OnOk};
ghost use Rattle.ccr_pipeline.specs.JobData.{resource_data, job_data};
ghost use Rattle.ccr_pipeline.specs.Pipelines.{pipeline_data};
ghost use Rattle.ccr_core.specs.Cores.{core_data};
ghost use Rattle.ccr_lines.specs.JobsJson.{jobs_shown, AreJobs};
ghost use Rattle.ccr_lines.specs.ResourcesJson.{resources_shown};
ghost use Rattle.ccr_lines.specs.Shown.{needs, IsMade, IsUnshown};
ghost use Rattle.ccr_core.specs.Commands as spec;
ghost use Rattle.ccr_lines.specs.Standing.{pin_words, resource_line, resources_lines, newest_words, newest_build, next_data, job_state, jobs_lines, AreNext};

use crate::held::pipeline_held;
use crate::jobs_json::jobs_json;
use crate::next_build::NextBuild;
use crate::outlook::{outlook_of, push_outlook};
use crate::print::word_of;
use crate::resources_json::resources_json;
use crate::shown::ShowFault;
use crate::texts::push_line;
use ccr_core::{Core, Form};
use ccr_history::{History, Pin};
use ccr_pipeline::{Pipeline, Resource};
use itoa::Buffer;
use std::alloc::{AllocError, Global};

// ---- resources

/// These words and a pin, if there is one.
fn pin_words(alloc: Global, words: &str, pin: Option<&Pin>) -> Result<String, AllocError>
    ensures { IfOk result (λ text. string_bytes text ≡ pin_words words.now (option_copied pin.entry)) }
{
    let mut text = String::new(alloc);
    if let Some(pin) = pin {
        let key = pin.text(alloc)?;
        text.push_str(words)?;
        text.push_str(key.as_str())?;
    }
    Ok(text)
}

/// Adds the line of a resource.
fn push_resource(
    alloc: Global,
    text: &mut String,
    history: &History,
    resource: &Resource,
) -> Result<(), AllocError>
    ensures { OnOk result (string_bytes text.new ≡ string_bytes text.old
        ++ resource_line history.now (resource_data resource.now)) }
{
    let name = resource.name.as_str();
    let by_pipeline = pin_words(alloc, " pinned by pipeline ", resource.version.as_ref())?;
    let by_command = pin_words(alloc, " pinned ", history.pin(name))?;
    let mut buffer = Buffer::new();
    let parts = [
        name,
        " ",
        resource.kind.as_str(),
        " ",
        buffer.format(history.versions(resource.scope()).len()),
        " versions",
        by_pipeline.as_str(),
        by_command.as_str(),
    ];
    push_line(text, &parts)
}

/// The lines of resources.
fn resources_text(
    alloc: Global,
    history: &History,
    resources: &[Resource],
) -> Result<String, AllocError>
    ensures { IfOk result (λ text. string_bytes text
        ≡ flat_map (λ r. resource_line history.now (resource_data r)) resources.now) }
{
    let mut text = String::new(alloc);
    for resource in resources {
        push_resource(alloc, &mut text, history, resource)?;
    }
    Ok(text)
}

/// The lines of resources, as bytes.
fn resources_lines(
    alloc: Global,
    history: &History,
    resources: &[Resource],
) -> Result<Vec<u8>, AllocError>
    ensures { IfOk result (λ text. text.items ≡ resources_lines history.now (map resource_data resources.now)) }
{
    let text = resources_text(alloc, history, resources)?;
    Ok(text.into_bytes())
}

/// The resources, in one of the forms.
fn resources_shown(
    alloc: Global,
    form: Form,
    history: &History,
    resources: &[Resource],
) -> Result<Vec<u8>, AllocError>
    ensures { IfOk result (λ text. text.items ≡ resources_shown form history.now (map resource_data resources.now)) }
{
    match form {
        Form::Lines => resources_lines(alloc, history, resources),
        Form::Json => resources_json(alloc, history, resources),
    }
}

/// What is shown of the resources of a core's pipeline.
pub(crate) fn resources_made(
    alloc: Global,
    core: &Core,
    form: Form,
) -> Result<(u8, Vec<u8>), ShowFault>
    ensures made { IfOk result (λ r. IsMade (spec.resources form) (core_data core.now) r.0 r.1.items) }
    ensures unshown { let c = core_data core.now in
        IfErr result (IsUnshown (needs (spec.resources form)) c.pipeline c.history) }
{
    let pipeline = match pipeline_held(core) {
        Ok(pipeline) => pipeline,
        Err(fault) => return Err(ShowFault::Lacks(fault)),
    };
    let text = resources_shown(alloc, form, core.history(), pipeline.resources())?;
    Ok((0, text))
}

// ---- jobs

/// Adds how the newest build of a job stands, if it has one.
fn push_newest(text: &mut String, history: &History, job: &str) -> Result<(), AllocError>
    ensures { OnOk result (string_bytes text.new ≡ string_bytes text.old
        ++ newest_words (newest_build job.now history.now)) }
{
    let Some(build) = history.build(job, history.count_of(job)) else {
        return text.push_str(" no builds ");
    };
    let mut buffer = Buffer::new();
    text.push_str(" ")?;
    text.push_str(buffer.format(build.number()))?;
    text.push_str(" ")?;
    text.push_str(word_of(build.status()))?;
    text.push_str(" ")
}

/// Adds the line of a job with what its next build would be.
fn push_job(text: &mut String, history: &History, next: &NextBuild<'_>) -> Result<(), AllocError>
    ensures { OnOk result (string_bytes text.new ≡ string_bytes text.old
        ++ job_state history.now (job_data next.now.job.now) next.now.outlook) }
{
    text.push_str(next.job.name.as_str())?;
    push_newest(text, history, next.job.name.as_str())?;
    push_outlook(text, next.outlook)?;
    text.push_str("\n")
}

/// The lines of these jobs.
fn jobs_text(alloc: Global, history: &History, next: &[NextBuild<'_>]) -> Result<String, AllocError>
    ensures { IfOk result (λ text. string_bytes text
        ≡ flat_map (λ n. job_state history.now (job_data n.job.now) n.outlook) next.now) }
{
    let mut text = String::new(alloc);
    for it in next {
        push_job(&mut text, history, it)?;
    }
    Ok(text)
}

/// The lines of these jobs, as bytes.
fn jobs_lines(
    alloc: Global,
    history: &History,
    next: &[NextBuild<'_>],
) -> Result<Vec<u8>, AllocError>
    ensures { IfOk result (λ text. text.items ≡ jobs_lines history.now (map next_data next.now)) }
{
    let text = jobs_text(alloc, history, next)?;
    Ok(text.into_bytes())
}

/// These jobs, in one of the forms.
fn jobs_shown(
    alloc: Global,
    form: Form,
    resources: &[Resource],
    history: &History,
    next: &[NextBuild<'_>],
) -> Result<Vec<u8>, AllocError>
    ensures { IfOk result (λ text. text.items
        ≡ jobs_shown form (map resource_data resources.now) history.now (map next_data next.now)) }
{
    match form {
        Form::Lines => jobs_lines(alloc, history, next),
        Form::Json => jobs_json(alloc, resources, history, next),
    }
}

/// The jobs of a core's pipeline, each with what its next build would be.
fn next_builds<'p>(
    alloc: Global,
    core: &Core,
    pipeline: &'p Pipeline,
) -> Result<Vec<NextBuild<'p>>, AllocError>
    requires { (core_data core.now).pipeline ≡ Some (pipeline_data pipeline.now) }
    ensures { let c = core_data core.now in let p = pipeline_data pipeline.now in
        IfOk result (λ next. AreNext p c.history c.budget p.jobs (map next_data next.items)) }
{
    let mut next = Vec::new(alloc);
    for job in pipeline.jobs() {
        let outlook = outlook_of(alloc, core, pipeline, job)?;
        next.push(NextBuild { job, outlook })?;
    }
    Ok(next)
}

/// The jobs of a core's pipeline, with what their next builds would be, in one of the forms.
fn jobs_text_of(
    alloc: Global,
    form: Form,
    core: &Core,
    pipeline: &Pipeline,
) -> Result<Vec<u8>, AllocError>
    requires { (core_data core.now).pipeline ≡ Some (pipeline_data pipeline.now) }
    ensures { let c = core_data core.now in
        IfOk result (λ text. AreJobs form (pipeline_data pipeline.now) c.history c.budget text.items) }
{
    let next = next_builds(alloc, core, pipeline)?;
    let text = jobs_shown(alloc, form, pipeline.resources(), core.history(), &next)?;
    Ok(text)
}

/// What is shown of the jobs of a core's pipeline.
pub(crate) fn jobs_made(alloc: Global, core: &Core, form: Form) -> Result<(u8, Vec<u8>), ShowFault>
    ensures made { IfOk result (λ r. IsMade (spec.jobs form) (core_data core.now) r.0 r.1.items) }
    ensures unshown { let c = core_data core.now in
        IfErr result (IsUnshown (needs (spec.jobs form)) c.pipeline c.history) }
{
    let pipeline = match pipeline_held(core) {
        Ok(pipeline) => pipeline,
        Err(fault) => return Err(ShowFault::Lacks(fault)),
    };
    let text = jobs_text_of(alloc, form, core, pipeline)?;
    Ok((0, text))
}
