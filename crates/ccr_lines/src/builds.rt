//! How builds stand.
ghost use Rattle.std.specs.Prelude.{◌≡◌, ◌++◌, flat_map, string_bytes, IfOk, IfErr, OnOk};
ghost use Rattle.std.specs.Option.{option_map_or, option_copied};
ghost use Rattle.serde_json.specs.Written.{compact_text};
ghost use Rattle.ccr_core.specs.Commands as spec;
ghost use Rattle.ccr_core.specs.Cores.{core_data};
ghost use Rattle.ccr_lines.specs.JobsJson.{build_json};
ghost use Rattle.ccr_lines.specs.Json.{json_line, after_comma};
ghost use Rattle.ccr_lines.specs.Lines.{build_line, status_word};
ghost use Rattle.ccr_lines.specs.Listed.{is_asked, asked_if, newest, builds_lines, builds_json, builds_shown};
ghost use Rattle.ccr_lines.specs.Needs.{IsMet, Lacks, a_known_job, no_need};
ghost use Rattle.ccr_lines.specs.Shown.{needs, IsMade, IsUnshown};

use crate::held::known_job;
use crate::json::array_line;
use crate::object::{Field, push_object};
use crate::print::word_of;
use crate::shown::ShowFault;
use ccr_core::{Core, CoreFault, Form};
use ccr_history::{BuildRef, History};
use itoa::Buffer;
use std::alloc::{AllocError, Global};

// ---- the builds

/// Whether a build is the job's, if one is named.
fn is_asked(job: Option<&str>, build: &BuildRef<'_>) -> bool
    ensures { result ≡ is_asked (option_copied job.entry) build.now }
{
    match job {
        Some(job) => job == build.job(),
        None => true,
    }
}

/// Adds a build, if it is the job's or none is named.
fn push_asked<'h>(
    builds: &mut Vec<BuildRef<'h>>,
    job: Option<&str>,
    build: BuildRef<'h>,
) -> Result<(), AllocError>
    ensures { OnOk result (builds.new.items ≡ builds.old.items ++ asked_if (option_copied job.entry) build.entry) }
{
    if is_asked(job, &build) {
        builds.push(build)?;
    }
    Ok(())
}

/// The builds of a job, or of all if none is named, in order of making.
fn builds_asked<'h>(
    alloc: Global,
    history: &'h History,
    job: Option<&str>,
) -> Result<Vec<BuildRef<'h>>, AllocError>
    ensures { IfOk result (λ builds. builds.items
        ≡ flat_map (λ b. asked_if (option_copied job.entry) b) history.now.builds) }
{
    let mut builds = Vec::new(alloc);
    for k in 0..history.build_count() {
        let build = history.build_at(k).unwrap();
        push_asked(&mut builds, job, build)?;
    }
    Ok(builds)
}

/// The last of these builds, so many, or all of them if they are fewer; all where no number is given.
fn newest<'v, 'h>(builds: &'v [BuildRef<'h>], count: Option<u32>) -> &'v [BuildRef<'h>]
    ensures { result.now ≡ newest count builds.now }
{
    match count {
        Some(count) => {
            let start = builds.len().saturating_sub(count as usize);
            &builds[start..]
        }
        None => builds,
    }
}

// ---- as lines

/// Adds how a build stands.
pub(crate) fn push_build(text: &mut String, build: &BuildRef<'_>) -> Result<(), AllocError>
    ensures { OnOk result (string_bytes text.new ≡ string_bytes text.old
        ++ build_line build.now.job build.now.number (status_word build.now.status)) }
{
    let mut buffer = Buffer::new();
    text.push_str(build.job())?;
    text.push_str(" ")?;
    text.push_str(buffer.format(build.number()))?;
    text.push_str(" ")?;
    text.push_str(word_of(build.status()))?;
    text.push_str("\n")
}

/// How each of these builds stands.
fn builds_lines(alloc: Global, builds: &[BuildRef<'_>]) -> Result<String, AllocError>
    ensures { IfOk result (λ text. string_bytes text ≡ builds_lines builds.now) }
{
    let mut text = String::new(alloc);
    for build in builds {
        push_build(&mut text, build)?;
    }
    Ok(text)
}

// ---- as JSON

/// Adds a build, and how it stands, as an object.
pub(crate) fn push_build_json<'a>(
    alloc: Global,
    out: &mut Vec<u8>,
    build: &'a BuildRef<'_>,
) -> Result<(), AllocError>
    ensures { OnOk result (out.new.items ≡ out.old.items ++ compact_text (build_json build.now)) }
{
    let members = [
        ("job_name", Field::Text(build.job())),
        ("name", Field::Numeral(build.number())),
        ("status", Field::Text(word_of(build.status()))),
    ];
    push_object(alloc, out, &members)
}

/// Adds the same, behind a comma.
fn push_build_item(alloc: Global, out: &mut Vec<u8>, build: &BuildRef<'_>) -> Result<(), AllocError>
    ensures { OnOk result (out.new.items ≡ out.old.items ++ after_comma (build_json build.now)) }
{
    out.extend_from_slice(",".as_bytes())?;
    push_build_json(alloc, out, build)
}

/// These builds, each behind a comma.
fn each_build(alloc: Global, builds: &[BuildRef<'_>]) -> Result<Vec<u8>, AllocError>
    ensures { IfOk result (λ out. out.items ≡ flat_map (λ b. after_comma (build_json b)) builds.now) }
{
    let mut out = Vec::new(alloc);
    for build in builds {
        push_build_item(alloc, &mut out, build)?;
    }
    Ok(out)
}

/// These builds as JSON on a line.
fn builds_json(alloc: Global, builds: &[BuildRef<'_>]) -> Result<Vec<u8>, AllocError>
    ensures { IfOk result (λ text. text.items ≡ json_line (builds_json builds.now)) }
{
    let items = each_build(alloc, builds)?;
    let text = array_line(alloc, &items)?;
    Ok(text)
}

// ---- in either form

/// These builds, in one of the forms.
pub(crate) fn builds_shown(
    alloc: Global,
    form: Form,
    builds: &[BuildRef<'_>],
) -> Result<Vec<u8>, AllocError>
    ensures { IfOk result (λ text. text.items ≡ builds_shown form builds.now) }
{
    match form {
        Form::Lines => Ok(builds_lines(alloc, builds)?.into_bytes()),
        Form::Json => builds_json(alloc, builds),
    }
}

/// Whether the job of this name is there, if one is named; or that there is none.
fn job_asked(core: &Core, job: Option<&str>) -> Result<(), CoreFault>
    ensures known { let c = core_data core.now in
        OnOk result (IsMet (option_map_or a_known_job (option_copied job.entry) no_need) c.pipeline c.history) }
    ensures lacks { let c = core_data core.now in
        IfErr result (Lacks (option_map_or a_known_job (option_copied job.entry) no_need) c.pipeline c.history) }
{
    match job {
        Some(job) => known_job(core, job),
        None => Ok(()),
    }
}

/// What is shown of the builds of a core's history: those of a job, or of all; of them the newest, so many, or all.
pub(crate) fn builds_made(
    alloc: Global,
    core: &Core,
    form: Form,
    job: Option<&str>,
    count: Option<u32>,
) -> Result<(u8, Vec<u8>), ShowFault>
    ensures made { IfOk result (λ r.
        IsMade (spec.builds form (option_copied job.entry) count) (core_data core.now) r.0 r.1.items) }
    ensures unshown { let c = core_data core.now in
        IfErr result (IsUnshown (needs (spec.builds form (option_copied job.entry) count)) c.pipeline c.history) }
{
    match job_asked(core, job) {
        Ok(()) => {}
        Err(fault) => return Err(ShowFault::Lacks(fault)),
    }
    let builds = builds_asked(alloc, core.history(), job)?;
    let text = builds_shown(alloc, form, newest(&builds, count))?;
    Ok((0, text))
}
