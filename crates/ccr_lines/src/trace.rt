//! Where a version went: the builds that took or moved it.
ghost use Rattle.std.specs.Prelude.{◌≡◌, ◌++◌, ◌∷◌, [], false, codes, decimal, string_bytes, IfOk, IfErr, OnOk};
ghost use Rattle.std.specs.List.{list_any};
ghost use Rattle.std.specs.Option.{option_map_or};
ghost use Rattle.ccr_history.specs.Builds.{is_succeeded};
ghost use Rattle.ccr_history.specs.Tables.{at_place, versions_at};
ghost use Rattle.ccr_history.specs.TextMap.{meets};
ghost use Rattle.ccr_core.specs.Cores.{core_data};
ghost use Rattle.ccr_lines.specs.Lines.{line};
ghost use Rattle.ccr_lines.specs.Shown.{needs, IsMade, IsUnshown};
ghost use Rattle.ccr_core.specs.Commands as spec;
ghost use Rattle.ccr_lines.specs.TraceJson.{trace_shown};
ghost use Rattle.ccr_lines.specs.Traces.{is_sought, has_taken, went, went_if, trace_of, took_word, moved_word, went_line, trace_lines};

use crate::held::{pin_of, resource_held};
use crate::print::word_of;
use crate::release::{resource_at, used_at};
use crate::shown::ShowFault;
use crate::texts::push_line;
use crate::trace_json::trace_json;
use ccr_core::{Core, Form};
use ccr_history::{BuildRef, History, Pin, Status};
use itoa::Buffer;
use std::alloc::{AllocError, Global};

/// What became of a version in a build: whether the build took it, and whether it moved it.
#[derive(Drop)]
pub struct Went<'h> {
    pub build: BuildRef<'h>,
    pub took: bool,
    pub moved: bool,
}

// ---- what is sought

/// Whether the version at a place of the scope of this number meets the pin.
pub(crate) fn meets_at(history: &History, pin: &Pin, scope: u32, place: u32) -> bool
    ensures { result ≡ option_map_or (λ v. meets v pin.now)
        (at_place place (versions_at scope history.now.tables)) false }
{
    match history.version_at(scope, place) {
        Some(version) => version.meets(pin),
        None => false,
    }
}

/// Whether at a place of the scope of this number is a version of the resource that meets the pin.
fn is_sought(history: &History, resource: &str, pin: &Pin, scope: u32, place: u32) -> bool
    ensures { result ≡ is_sought history.now.tables resource.now pin.now scope place }
{
    if resource == resource_at(history, scope) {
        meets_at(history, pin, scope, place)
    } else {
        false
    }
}

/// Whether a build took a version of the resource that meets the pin.
fn has_taken(history: &History, resource: &str, pin: &Pin, build: &BuildRef<'_>) -> bool
    ensures { result ≡ has_taken history.now.tables resource.now pin.now build.now }
{
    for k in 0..build.used_count() {
        let (_, scope, place) = used_at(build, k);
        if is_sought(history, resource, pin, scope, place) {
            return true;
        }
    }
    false
}

/// Whether one of these pairs is a place of a version of the resource that meets the pin.
fn has_sought(history: &History, resource: &str, pin: &Pin, pairs: &[(u32, u32)]) -> bool
    ensures { result ≡ list_any (λ q. is_sought history.now.tables resource.now pin.now q.0 q.1) pairs.now }
{
    for pair in pairs {
        if is_sought(history, resource, pin, pair.0, pair.1) {
            return true;
        }
    }
    false
}

/// Whether a build succeeded.
pub(crate) fn is_succeeded(status: Status) -> bool
    ensures { result ≡ is_succeeded status }
{
    match status {
        Status::Succeeded => true,
        Status::Running | Status::Failed | Status::Errored | Status::Aborted => false,
    }
}

/// That a version was taken.
fn took_word(took: bool) -> &'static str
    ensures { result.now ≡ took_word took }
{
    if took { " took" } else { "" }
}

/// That a version was moved: it passed the job only if the build succeeded.
fn moved_word(moved: bool, succeeded: bool) -> &'static str
    ensures { result.now ≡ moved_word moved succeeded }
{
    if !moved {
        return "";
    }
    if succeeded { " passed" } else { " moved" }
}

// ---- the builds

/// What became of a version in a build.
fn went_in<'h>(history: &History, resource: &str, pin: &Pin, build: BuildRef<'h>) -> Went<'h>
    ensures { result ≡ went history.now.tables resource.now pin.now build.entry }
{
    let took = has_taken(history, resource, pin, &build);
    let moved = has_sought(history, resource, pin, build.moved());
    Went { build, took, moved }
}

/// Adds what became of a version in a build, if it was taken or moved there.
fn push_if<'h>(trace: &mut Vec<Went<'h>>, went: Went<'h>) -> Result<(), AllocError>
    ensures { OnOk result (trace.new.items ≡ trace.old.items ++ went_if went.entry) }
{
    if went.took || went.moved {
        trace.push(went)?;
    }
    Ok(())
}

/// The builds that took or moved a version of the resource that meets the pin.
fn trace_of<'h>(
    alloc: Global,
    history: &'h History,
    resource: &str,
    pin: &Pin,
) -> Result<Vec<Went<'h>>, AllocError>
    ensures { IfOk result (λ trace. trace.items ≡ trace_of history.now resource.now pin.now) }
{
    let mut trace = Vec::new(alloc);
    for k in 0..history.build_count() {
        let build = history.build_at(k).unwrap();
        push_if(&mut trace, went_in(history, resource, pin, build))?;
    }
    Ok(trace)
}

// ---- as lines

/// Adds a job's build with these words.
fn push_words<'a>(
    text: &mut String,
    job: &'a str,
    number: u32,
    status: &'a str,
    took: &'a str,
    moved: &'a str,
) -> Result<(), AllocError>
    ensures { OnOk result (string_bytes text.new ≡ string_bytes text.old
        ++ line (job.now ∷ codes " " ∷ decimal number ∷ codes " " ∷ status.now ∷ took.now ∷ moved.now ∷ [])) }
{
    let mut buffer = Buffer::new();
    push_line(
        text,
        &[job, " ", buffer.format(number), " ", status, took, moved],
    )
}

/// Adds the line of a build with what became of a version there.
fn push_went_line(text: &mut String, went: &Went<'_>) -> Result<(), AllocError>
    ensures { OnOk result (string_bytes text.new ≡ string_bytes text.old ++ went_line went.now) }
{
    let status = went.build.status();
    let moved = moved_word(went.moved, is_succeeded(status));
    push_words(
        text,
        went.build.job(),
        went.build.number(),
        word_of(status),
        took_word(went.took),
        moved,
    )
}

/// The lines of these builds.
fn trace_lines(alloc: Global, trace: &[Went<'_>]) -> Result<String, AllocError>
    ensures { IfOk result (λ text. string_bytes text ≡ trace_lines trace.now) }
{
    let mut text = String::new(alloc);
    for went in trace {
        push_went_line(&mut text, went)?;
    }
    Ok(text)
}

/// These builds, in one of the forms.
fn trace_shown(alloc: Global, form: Form, trace: &[Went<'_>]) -> Result<Vec<u8>, AllocError>
    ensures { IfOk result (λ text. text.items ≡ trace_shown form trace.now) }
{
    match form {
        Form::Lines => Ok(trace_lines(alloc, trace)?.into_bytes()),
        Form::Json => trace_json(alloc, trace),
    }
}

/// What is shown of the builds that took or moved a version of the resource of this name that meets a JSON text.
pub(crate) fn trace_made(
    alloc: Global,
    core: &Core,
    form: Form,
    resource: &str,
    pin: &str,
) -> Result<(u8, Vec<u8>), ShowFault>
    ensures made { IfOk result (λ r. IsMade (spec.trace form resource.now pin.now) (core_data core.now) r.0 r.1.items) }
    ensures unshown { let c = core_data core.now in
        IfErr result (IsUnshown (needs (spec.trace form resource.now pin.now)) c.pipeline c.history) }
{
    match resource_held(core, resource) {
        Ok(_) => {}
        Err(fault) => return Err(ShowFault::Lacks(fault)),
    }
    let Some(pin) = pin_of(alloc, pin)? else {
        return Err(ShowFault::BadPin);
    };
    let trace = trace_of(alloc, core.history(), resource, &pin)?;
    let text = trace_shown(alloc, form, &trace)?;
    Ok((0, text))
}
