//! The resources of a page.
ghost use Rattle.std.specs.Prelude.{◌≡◌, ◌++◌, ◌∷◌, [], if◌then◌else◌, map, length, string_bytes, option_map, IfOk, OnOk};
ghost use Rattle.std.specs.Option.{option_copied, option_or};
ghost use Rattle.ccr_history.specs.Changes.{pin_of};
ghost use Rattle.ccr_pipeline.specs.JobData.{resource_data};
ghost use Rattle.ccr_problem.specs.ProblemOf.{scope_of};
ghost use Rattle.ccr_lines.specs.Listed.{listed_data};
ghost use Rattle.ccr_overview.specs.PageData.{word_data, version_data, page_resource_data};
ghost use Rattle.ccr_overview.specs.PageResources.{pin_words, disabled_of, listed_words, further_words, disabled_words, held_words, last_of, resource_shown};
ghost use Rattle.ccr_overview.specs.Each.{each_from};
ghost use Rattle.ccr_overview.specs.Shorts.{short, version_of};

use crate::short::{pin_short, pin_version, version_of};
use crate::word::{counted, join, push_plain, push_separator};
use ccr_history::{History, Pin, Version as HistoryVersion};
use ccr_lines::{Listed, versions_listed};
use ccr_page::{Resource as PageResource, Version, Word};
use ccr_pipeline::Resource;
use std::alloc::{AllocError, Global};

// ---- pins

/// These words and the pin, if there is one.
fn pin_words(alloc: Global, words: &str, pin: Option<&Pin>) -> Result<Vec<Word>, AllocError>
    ensures { IfOk result (λ all. map word_data all.items ≡ pin_words words.now (option_copied pin.entry)) }
{
    let mut all = Vec::new(alloc);
    match pin {
        Some(pin) => {
            push_plain(alloc, &mut all, words)?;
            all.push(Word::Version(pin_version(alloc, pin)?))?;
        }
        None => {}
    }
    Ok(all)
}

// ---- disabled versions

/// Adds a version, if it is disabled.
fn push_disabled<'h>(all: &mut Vec<Listed<'h>>, listed: &Listed<'h>) -> Result<(), AllocError>
    ensures { OnOk result (map listed_data all.new.items ≡ map listed_data all.old.items
        ++ (if (listed_data listed.now).is_disabled then listed_data listed.now ∷ [] else [])) }
{
    if listed.is_disabled {
        all.push(Listed {
            place: listed.place,
            version: listed.version,
            is_disabled: listed.is_disabled,
        })?;
    }
    Ok(())
}

/// The versions that are disabled.
fn disabled_of<'h>(alloc: Global, listed: &[Listed<'h>]) -> Result<Vec<Listed<'h>>, AllocError>
    ensures { IfOk result (λ all. map listed_data all.items ≡ disabled_of (map listed_data listed.now)) }
{
    let mut all = Vec::new(alloc);
    for it in listed {
        push_disabled(&mut all, it)?;
    }
    Ok(all)
}

/// Adds a version with its place.
fn push_listed(
    alloc: Global,
    out: &mut Vec<Word>,
    k: usize,
    listed: &Listed<'_>,
) -> Result<(), AllocError>
    ensures { OnOk result (map word_data out.new.items
        ≡ map word_data out.old.items ++ listed_words k (listed_data listed.now)) }
{
    let place = counted(alloc, "", listed.place as usize, " ")?;
    let version = version_of(alloc, listed.version)?;
    push_separator(alloc, out, ", ", k)?;
    push_plain(alloc, out, place.as_str())?;
    out.push(Word::Version(version))?;
    Ok(())
}

/// Adds versions with their places.
fn push_each_listed(
    alloc: Global,
    out: &mut Vec<Word>,
    listed: &[Listed<'_>],
) -> Result<(), AllocError>
    ensures { OnOk result (map word_data out.new.items ≡ map word_data out.old.items
        ++ each_from listed_words 0 (map listed_data listed.now)) }
{
    for (k, it) in listed.iter().enumerate() {
        push_listed(alloc, out, k, it)?;
    }
    Ok(())
}

/// Adds that there are more, if there are.
fn push_further(alloc: Global, out: &mut Vec<Word>, more: usize) -> Result<(), AllocError>
    ensures { OnOk result (map word_data out.new.items ≡ map word_data out.old.items ++ further_words more) }
{
    if more == 0 {
        return Ok(());
    }
    let words = counted(alloc, " and ", more, " more")?;
    push_plain(alloc, out, words.as_str())
}

/// The newest five of these versions, and how many there are beside.
fn disabled_words(alloc: Global, listed: &[Listed<'_>]) -> Result<Vec<Word>, AllocError>
    ensures { IfOk result (λ all. map word_data all.items ≡ disabled_words (map listed_data listed.now)) }
{
    let mut all = Vec::new(alloc);
    if listed.is_empty() {
        return Ok(all);
    }
    let more = listed.len().saturating_sub(5);
    let (_, last) = listed.split_at(more);
    push_plain(alloc, &mut all, "disabled: ")?;
    push_each_listed(alloc, &mut all, last)?;
    push_further(alloc, &mut all, more)?;
    Ok(all)
}

// ---- what holds it

/// What holds a resource.
fn held_words(
    alloc: Global,
    history: &History,
    resource: &Resource,
) -> Result<Vec<Word>, AllocError>
    ensures { IfOk result (λ all. map word_data all.items ≡ held_words history.now (resource_data resource.now)) }
{
    let by_pipeline = pin_words(
        alloc,
        "pinned by the pipeline to ",
        resource.version.as_ref(),
    )?;
    let by_command = pin_words(alloc, "pinned to ", history.pin(resource.name.as_str()))?;
    let pins = join(alloc, by_pipeline, by_command)?;
    let listed = versions_listed(alloc, history, resource.scope())?;
    let disabled = disabled_of(alloc, &listed)?;
    let words = disabled_words(alloc, &disabled)?;
    join(alloc, pins, words)
}

/// The pin that holds a resource in a few letters: the one by command, or else the pipeline's.
fn pin_of(
    alloc: Global,
    history: &History,
    resource: &Resource,
) -> Result<Option<String>, AllocError>
    ensures { let r = resource_data resource.now in IfOk result (λ pin. option_map string_bytes pin
        ≡ option_map short (option_or (pin_of r.name history.now.pins) r.version)) }
{
    match history.pin(resource.name.as_str()) {
        Some(pin) => Ok(Some(pin_short(alloc, pin)?)),
        None => match resource.version.as_ref() {
            Some(pin) => Ok(Some(pin_short(alloc, pin)?)),
            None => Ok(None),
        },
    }
}

/// The last of these versions.
fn newest_of(alloc: Global, versions: &[HistoryVersion]) -> Result<Option<Version>, AllocError>
    ensures { IfOk result (λ newest. option_map version_data newest ≡ option_map version_of (last_of versions.now)) }
{
    match versions.last() {
        Some(version) => Ok(Some(version_of(alloc, version)?)),
        None => Ok(None),
    }
}

/// A resource.
fn resource_shown(
    alloc: Global,
    history: &History,
    resource: &Resource,
) -> Result<PageResource, AllocError>
    ensures { IfOk result (λ r. page_resource_data r ≡ resource_shown history.now (resource_data resource.now)) }
{
    let versions = history.versions(resource.scope());
    let newest = newest_of(alloc, versions)?;
    let pin = pin_of(alloc, history, resource)?;
    let held = held_words(alloc, history, resource)?;
    let name = String::from_str(alloc, resource.name.as_str())?;
    let kind = String::from_str(alloc, resource.kind.as_str())?;
    Ok(PageResource {
        name,
        kind,
        newest,
        version_count: versions.len() as u64,
        pin,
        held,
    })
}

/// The resources, in their order.
pub(crate) fn resources_shown(
    alloc: Global,
    history: &History,
    resources: &[Resource],
) -> Result<Vec<PageResource>, AllocError>
    ensures { IfOk result (λ all. map page_resource_data all.items
        ≡ map (resource_shown history.now) (map resource_data resources.now)) }
{
    let mut all = Vec::new(alloc);
    for resource in resources {
        let shown = resource_shown(alloc, history, resource)?;
        all.push(shown)?;
    }
    Ok(all)
}
