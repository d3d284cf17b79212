//! A history as text.

use crate::words::status_name;
use ccr_history::{BuildRef, History, Version};
use std::alloc::{AllocError, Global};

fn push_versions(alloc: Global, text: &mut String, versions: &[Version]) -> Result<(), AllocError> {
    for (i, version) in versions.iter().enumerate() {
        let place = i.saturating_add(1);
        let key = version.key(alloc)?;
        let key = key.as_str();
        write!(text, "{place} {key}\n")?;
    }
    Ok(())
}

fn push_tables(alloc: Global, text: &mut String, history: &History) -> Result<(), AllocError> {
    for i in 0..history.scope_count() {
        let number = i.saturating_add(1);
        let Some(scope) = history.scope_at(number) else {
            break;
        };
        let resource = scope.resource.as_str();
        let kind = scope.kind.as_str();
        let source = scope.source.as_str();
        write!(text, "scope {number}: {resource} {kind} {source}\n")?;
        push_versions(alloc, text, history.versions_at(number))?;
    }
    Ok(())
}

fn push_build(text: &mut String, build: &BuildRef<'_>) -> Result<(), AllocError> {
    let job = build.job();
    let number = build.number();
    let status = status_name(build.status());
    write!(text, "{job} {number} {status}: used")?;
    for k in 0..build.used_count() {
        if let Some((input, scope, place)) = build.used(k) {
            write!(text, " {input}={scope}.{place}")?;
        }
    }
    text.push_str(", moved")?;
    for pair in build.moved() {
        let (scope, place) = *pair;
        write!(text, " {scope}.{place}")?;
    }
    text.push_str("\n")?;
    Ok(())
}

fn push_pins(alloc: Global, text: &mut String, history: &History) -> Result<(), AllocError> {
    for (resource, pin) in history.pins().as_map().iter() {
        let resource = resource.as_str();
        let pin = pin.text(alloc)?;
        let pin = pin.as_str();
        write!(text, "pin {resource} {pin}\n")?;
    }
    Ok(())
}

/// The scopes with their versions, the builds, the pins and the length of the pipeline's text.
pub fn text_of(alloc: Global, history: &History) -> Result<String, AllocError> {
    let mut text = String::new(alloc);
    push_tables(alloc, &mut text, history)?;
    for i in 0..history.build_count() {
        if let Some(build) = history.build_at(i) {
            push_build(&mut text, &build)?;
        }
    }
    push_pins(alloc, &mut text, history)?;
    if let Some(set) = history.text() {
        let bytes = set.len();
        write!(text, "text of {bytes} bytes\n")?;
    }
    Ok(text)
}
