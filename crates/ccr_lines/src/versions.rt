//! The versions of a resource.
ghost use Rattle.std.specs.Prelude.{◌≡◌, ◌++◌, map, flat_map, string_bytes, IfOk, IfErr, OnOk};
ghost use Rattle.ccr_pipeline.specs.JobData.{resource_data};
ghost use Rattle.ccr_problem.specs.ProblemOf.{scope_of};
ghost use Rattle.ccr_core.specs.Commands as spec;
ghost use Rattle.ccr_core.specs.Cores.{core_data};
ghost use Rattle.ccr_lines.specs.Json.{json_line, after_comma};
ghost use Rattle.ccr_lines.specs.Listed.{listed_data, versions_listed, disabled_word, version_line, versions_lines, listed_json, versions_json, versions_shown};
ghost use Rattle.ccr_lines.specs.Shown.{needs, IsMade, IsUnshown};

use crate::held::resource_held;
use crate::json::array_line;
use crate::object::{Field, push_item};
use crate::shown::ShowFault;
use crate::texts::push_line;
use ccr_core::{Core, Form};
use ccr_history::{History, Scope, Version};
use itoa::Buffer;
use std::alloc::{AllocError, Global};

/// A version with its place, and whether it is disabled.
#[derive(Clone, Copy)]
pub struct Listed<'h> {
    pub place: u32,
    pub version: &'h Version,
    pub is_disabled: bool,
}

// ---- the versions

/// The versions of a scope, each with its place.
pub fn versions_listed<'h>(
    alloc: Global,
    history: &'h History,
    scope: &Scope,
) -> Result<Vec<Listed<'h>>, AllocError>
    ensures { IfOk result (λ listed. map listed_data listed.items ≡ versions_listed scope.now history.now) }
{
    // A scope has few versions.
    history.rules();
    let number = history.scope_number(scope);
    let mut listed = Vec::new(alloc);
    for (k, version) in history.versions(scope).iter().enumerate() {
        let place = k as u32 + 1;
        let is_disabled = history.is_disabled(number, place);
        listed.push(Listed {
            place,
            version,
            is_disabled,
        })?;
    }
    Ok(listed)
}

// ---- as lines

/// The word behind the key of a version, where it is disabled.
fn disabled_word(is_disabled: bool) -> &'static str
    ensures { result.now ≡ disabled_word is_disabled }
{
    if is_disabled { " disabled" } else { "" }
}

/// Adds the line of a version.
fn push_version(alloc: Global, text: &mut String, listed: &Listed<'_>) -> Result<(), AllocError>
    ensures { OnOk result (string_bytes text.new
        ≡ string_bytes text.old ++ version_line (listed_data listed.now)) }
{
    let mut buffer = Buffer::new();
    let key = listed.version.key(alloc)?;
    let parts = [
        buffer.format(listed.place),
        " ",
        key.as_str(),
        disabled_word(listed.is_disabled),
    ];
    push_line(text, &parts)
}

/// The lines of these versions.
fn versions_lines(alloc: Global, listed: &[Listed<'_>]) -> Result<String, AllocError>
    ensures { IfOk result (λ text. string_bytes text ≡ flat_map (λ l. version_line (listed_data l)) listed.now) }
{
    let mut text = String::new(alloc);
    for it in listed {
        push_version(alloc, &mut text, it)?;
    }
    Ok(text)
}

/// The lines of these versions, as bytes.
fn versions_text(alloc: Global, listed: &[Listed<'_>]) -> Result<Vec<u8>, AllocError>
    ensures { IfOk result (λ text. text.items ≡ versions_lines (map listed_data listed.now)) }
{
    let text = versions_lines(alloc, listed)?;
    Ok(text.into_bytes())
}

// ---- as JSON

/// Adds a version, behind a comma.
fn push_listed<'a>(
    alloc: Global,
    out: &mut Vec<u8>,
    listed: &'a Listed<'a>,
) -> Result<(), AllocError>
    ensures { OnOk result (out.new.items ≡ out.old.items ++ after_comma (listed_json (listed_data listed.now))) }
{
    let members = [
        ("enabled", Field::Flag(!listed.is_disabled)),
        ("place", Field::Number(listed.place as u64)),
        ("version", Field::Version(Some(listed.version))),
    ];
    push_item(alloc, out, &members)
}

/// These versions, each behind a comma.
fn each_listed(alloc: Global, listed: &[Listed<'_>]) -> Result<Vec<u8>, AllocError>
    ensures { IfOk result (λ out. out.items
        ≡ flat_map (λ l. after_comma (listed_json (listed_data l))) listed.now) }
{
    let mut out = Vec::new(alloc);
    for it in listed {
        push_listed(alloc, &mut out, it)?;
    }
    Ok(out)
}

/// These versions as JSON on a line.
fn versions_json(alloc: Global, listed: &[Listed<'_>]) -> Result<Vec<u8>, AllocError>
    ensures { IfOk result (λ text. text.items ≡ json_line (versions_json (map listed_data listed.now))) }
{
    let items = each_listed(alloc, listed)?;
    let text = array_line(alloc, &items)?;
    Ok(text)
}

// ---- in either form

/// These versions, in one of the forms.
fn versions_shown(alloc: Global, form: Form, listed: &[Listed<'_>]) -> Result<Vec<u8>, AllocError>
    ensures { IfOk result (λ text. text.items ≡ versions_shown form (map listed_data listed.now)) }
{
    match form {
        Form::Lines => versions_text(alloc, listed),
        Form::Json => versions_json(alloc, listed),
    }
}

/// What is shown of the versions of the resource of this name.
pub(crate) fn versions_made(
    alloc: Global,
    core: &Core,
    form: Form,
    name: &str,
) -> Result<(u8, Vec<u8>), ShowFault>
    ensures made { IfOk result (λ r. IsMade (spec.versions form name.now) (core_data core.now) r.0 r.1.items) }
    ensures unshown { let c = core_data core.now in
        IfErr result (IsUnshown (needs (spec.versions form name.now)) c.pipeline c.history) }
{
    let resource = match resource_held(core, name) {
        Ok(resource) => resource,
        Err(fault) => return Err(ShowFault::Lacks(fault)),
    };
    let listed = versions_listed(alloc, core.history(), resource.scope())?;
    let text = versions_shown(alloc, form, &listed)?;
    Ok((0, text))
}
