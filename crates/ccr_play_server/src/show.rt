//! What a core holds, as JSON. The members of an object are in the order of their keys.

use ccr_core::Core;
use ccr_history::{BuildRef, History, Scope, Version};
use ccr_rows::json::{push_comma, push_text};
use ccr_rows::{ask_text, status_name};
use std::alloc::{AllocError, Global};

fn push_used(alloc: Global, out: &mut String, build: &BuildRef<'_>) -> Result<(), AllocError> {
    for k in 0..build.used_count() {
        if let Some((input, scope, place)) = build.used(k) {
            push_comma(out, k)?;
            push_text(alloc, out, "{\"input\":", input)?;
            write!(out, ",\"place\":{place},\"scope\":{scope}}}")?;
        }
    }
    Ok(())
}

fn push_moved(out: &mut String, moved: &[(u32, u32)]) -> Result<(), AllocError> {
    for (k, pair) in moved.iter().enumerate() {
        let (scope, place) = *pair;
        push_comma(out, k)?;
        write!(out, "{{\"place\":{place},\"scope\":{scope}}}")?;
    }
    Ok(())
}

fn push_build(alloc: Global, out: &mut String, build: &BuildRef<'_>) -> Result<(), AllocError> {
    push_text(alloc, out, "{\"job\":", build.job())?;
    out.push_str(",\"moved\":[")?;
    push_moved(out, build.moved())?;
    let number = build.number();
    let status = status_name(build.status());
    write!(
        out,
        "],\"number\":{number},\"status\":\"{status}\",\"used\":["
    )?;
    push_used(alloc, out, build)?;
    out.push_str("]}")
}

fn push_builds(alloc: Global, out: &mut String, history: &History) -> Result<(), AllocError> {
    for position in 0..history.build_count() {
        if let Some(build) = history.build_at(position) {
            push_comma(out, position)?;
            push_build(alloc, out, &build)?;
        }
    }
    out.push_str("]")
}

/// The builds of a history, in order of making.
pub(crate) fn builds_text(alloc: Global, history: &History) -> Result<String, AllocError> {
    let mut text = String::from_str(alloc, "[")?;
    push_builds(alloc, &mut text, history)?;
    Ok(text)
}

fn push_versions(alloc: Global, out: &mut String, versions: &[Version]) -> Result<(), AllocError> {
    for (i, version) in versions.iter().enumerate() {
        push_comma(out, i)?;
        let key = version.key(alloc)?;
        out.push_str(key.as_str())?;
    }
    Ok(())
}

fn push_table(
    alloc: Global,
    out: &mut String,
    scope: &Scope,
    versions: &[Version],
) -> Result<(), AllocError> {
    push_text(alloc, out, "{\"resource\":", scope.resource.as_str())?;
    out.push_str(",\"source\":")?;
    out.push_str(scope.source.as_str())?;
    push_text(alloc, out, ",\"type\":", scope.kind.as_str())?;
    out.push_str(",\"versions\":[")?;
    push_versions(alloc, out, versions)?;
    out.push_str("]}")
}

fn push_tables(alloc: Global, out: &mut String, history: &History) -> Result<(), AllocError> {
    for before in 0..history.scope_count() {
        let number = before.saturating_add(1);
        if let Some(scope) = history.scope_at(number) {
            push_comma(out, before as usize)?;
            push_table(alloc, out, scope, history.versions_at(number))?;
        }
    }
    out.push_str("]")
}

/// The tables of a history, in order of their scopes' numbers.
pub(crate) fn tables_text(alloc: Global, history: &History) -> Result<String, AllocError> {
    let mut text = String::from_str(alloc, "[")?;
    push_tables(alloc, &mut text, history)?;
    Ok(text)
}

/// What a build asks and at which turn; `null` where it doesn't run.
pub(crate) fn wants_text(
    alloc: Global,
    core: &Core,
    job: &str,
    number: u32,
) -> Result<String, AllocError> {
    match core.wants(job, number) {
        Some((turn, ask)) => ask_text(alloc, &ask, Some(turn)),
        None => String::from_str(alloc, "null"),
    }
}
