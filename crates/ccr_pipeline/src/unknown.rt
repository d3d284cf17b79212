//! The names that steps mention: of resources, and of jobs.
ghost use Rattle.std.specs.Prelude.{◌≡◌, IfOk};
ghost use Rattle.serde_json.specs.View.{view, items_view};
ghost use Rattle.ccr_pipeline.specs.Keys.{here, at_key, list_at, path_of};
ghost use Rattle.ccr_pipeline.specs.Faults.{first};
ghost use Rattle.ccr_pipeline.specs.Names.{text_at};
ghost use Rattle.ccr_pipeline.specs.Notes.{told};
ghost use Rattle.ccr_pipeline.specs.Unknown.{name_key, unknown_resource, unknown_texts, unknown_passed, unknown_names};

use crate::cursor::Cursor;
use crate::fault::Rule;
use crate::key::{at_key, list_at};
use crate::names::{Names, text_at};
use crate::place::{Place, path_of};
use serde_json::Value;
use std::alloc::{AllocError, Global};

/// A name that isn't there, if there is one, by the rule that it breaks and its path.
type Unknown = Result<Option<(Rule, String)>, AllocError>;

/// The key that names the resource of a get or put: `resource`, or the key of its own name.
pub fn name_key(step: &Value) -> &'static str
    ensures { result.now ≡ name_key (view step.now) }
{
    if at_key(step, "resource").is_some() {
        "resource"
    } else if at_key(step, "get").is_some() {
        "get"
    } else {
        "put"
    }
}

/// The resource of a get or put, if it isn't there.
#[tactic(auto, unfolding(crate::specs::Unknown::unknown_resource))]
fn unknown_resource(alloc: Global, resources: &Names, step: &Cursor) -> Unknown
    ensures { IfOk result (λ fault. told fault ≡ first (here (unknown_resource resources.now) step.now)) }
{
    if at_key(step.value, "get").is_none() && at_key(step.value, "put").is_none() {
        return Ok(None);
    }
    let key = name_key(step.value);
    match text_at(step.value, key) {
        Some(name) if !resources.contains(name) => {
            Ok(Some((Rule::KnownResource, path_of(alloc, &step.place.key(key))?)))
        }
        _ => Ok(None),
    }
}

/// The first text of a list that is no job.
fn unknown_text(alloc: Global, jobs: &Names, list: &[Value], place: &Place) -> Unknown
    ensures { IfOk result (λ o. told o ≡ first (unknown_texts jobs.now (path_of place.now) 0 (items_view list.now))) }
{
    for (i, member) in list.iter().enumerate() {
        if let Some(name) = member.as_str() {
            if !jobs.contains(name) {
                return Ok(Some((Rule::KnownJob, path_of(alloc, &place.member(i))?)));
            }
        }
    }
    Ok(None)
}

/// The first job that a get names in `passed` and that isn't there.
#[tactic(auto, unfolding(crate::specs::Unknown::unknown_passed))]
fn unknown_passed(alloc: Global, jobs: &Names, step: &Cursor) -> Unknown
    ensures { IfOk result (λ fault. told fault ≡ first (here (unknown_passed jobs.now) step.now)) }
{
    if at_key(step.value, "get").is_none() {
        return Ok(None);
    }
    let list = list_at(step.value, "passed");
    unknown_text(alloc, jobs, list, &step.place.key("passed"))
}

/// The first name that a step mentions and that isn't there.
#[tactic(auto, using(crate::proofs::NoteLemmas::first_or))]
pub(crate) fn unknown_name(alloc: Global, resources: &Names, jobs: &Names, step: &Cursor) -> Unknown
    ensures { IfOk result (λ fault. told fault ≡ first (here (unknown_names resources.now jobs.now) step.now)) }
{
    match unknown_resource(alloc, resources, step)? {
        Some(fault) => Ok(Some(fault)),
        None => unknown_passed(alloc, jobs, step),
    }
}
