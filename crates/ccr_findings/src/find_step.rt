//! What is broken in steps, all of it.
ghost use Rattle.std.specs.Prelude.{◌≡◌, ◌++◌, OnOk, codes};
ghost use Rattle.serde_json.specs.View.{view, items_view};
ghost use Rattle.ccr_pipeline.specs.Keys.{data_of, path_to, here, path_of};
ghost use Rattle.ccr_pipeline.specs.Names.{names_at};
ghost use Rattle.ccr_pipeline.specs.StepRules.{shape_faults, kind_faults, opening_faults};
ghost use Rattle.ccr_pipeline.specs.StepRules.{parallel_rest, closing_faults, attempts_faults};
ghost use Rattle.ccr_pipeline.specs.Unknown.{unknown_resource, unknown_texts, unknown_passed, unknown_names};

use crate::find_object::{find_own_keys, find_rows};
use crate::present::{Added, Present};
use crate::seen::Seen;
use ccr_pipeline::schema::{NESTED, Schema, closing, opening, schema_of};
use ccr_pipeline::{
    Cursor, MOST_ATTEMPTS, MOST_TRIES, Place, Rule, at_key, kinds, list_at, name_key, text_at,
};
use serde_json::Value;
use std::alloc::Global;

#[tactic(auto, using(std::proofs::Common::append_assoc), unfolding(ccr_pipeline::specs::StepRules::shape_faults))]
fn find_shape(alloc: Global, out: &mut Present, step: &Cursor, left: u32) -> Added
    ensures { OnOk result (out.new ≡ out.old ++ shape_faults (path_to step.now) left (data_of step.now)) }
{
    out.require(&step.place, step.value.is_object(), Rule::Kind)?;
    out.require(&step.place, 0 < left, Rule::Depth)?;
    find_own_keys(alloc, out, opening(Schema::Undone), step)
}

#[tactic(auto, using(std::proofs::Common::append_assoc), unfolding(ccr_pipeline::specs::StepRules::kind_faults))]
fn find_kinds(out: &mut Present, step: &Cursor) -> Added
    ensures { OnOk result (out.new ≡ out.old ++ here kind_faults step.now) }
{
    let kinds = kinds(step.value);
    out.require(&step.place, 0 < kinds, Rule::OneStep)?;
    out.require(&step.place, kinds < 2, Rule::OnlyOneStep)
}

/// Adds what a step breaks before the steps in it are read, and the name of a get to those of the job.
#[tactic(auto, using(std::proofs::Common::append_assoc), unfolding(ccr_pipeline::specs::StepRules::opening_faults))]
pub(crate) fn find_opening(
    alloc: Global,
    out: &mut Present,
    names: &mut Seen,
    step: &Cursor,
    left: u32,
) -> Added
    ensures found { OnOk result
        (out.new ≡ out.old ++ opening_faults names.old (path_to step.now) left (data_of step.now)) }
    ensures added { OnOk result (names.new ≡ names.old ++ names_at (codes "get") (data_of step.now)) }
{
    find_shape(alloc, out, step, left)?;
    find_kinds(out, step)?;
    find_rows(
        alloc,
        out,
        NESTED,
        opening(schema_of(step.value)),
        names,
        step,
    )
}

/// Adds attempts that aren't from 1 to 100, or that come to more than 10,000 with those of the steps around.
#[tactic(auto, using(crate::proofs::Lists::and_none))]
fn find_attempts(out: &mut Present, step: &Cursor, tries: u64) -> Added
    ensures { OnOk result (out.new ≡ out.old ++ attempts_faults (path_to step.now) tries (data_of step.now)) }
{
    let Some(found) = step.at("attempts") else {
        return Ok(());
    };
    match found.value.as_u64() {
        Some(n) => {
            let fits = 1 <= n && n <= MOST_ATTEMPTS && tries.saturating_mul(n) <= MOST_TRIES;
            out.require(&found.place, fits, Rule::Attempts)
        }
        None if found.value.is_i64() => out.require(&found.place, false, Rule::Attempts),
        None => out.require(&found.place, false, Rule::Kind),
    }
}

#[tactic(auto, using(crate::proofs::Lists::and_none))]
fn find_parallel_rest(alloc: Global, out: &mut Present, step: &Cursor) -> Added
    ensures { OnOk result (out.new ≡ out.old ++ here parallel_rest step.now) }
{
    let Some(parallel) = step.at("in_parallel") else {
        return Ok(());
    };
    find_own_keys(alloc, out, closing(Schema::Parallel), &parallel)
}

/// Adds what a step breaks in the keys after the steps in it.
#[tactic(auto, using(std::proofs::Common::append_assoc), unfolding(ccr_pipeline::specs::StepRules::closing_faults))]
pub(crate) fn find_closing(alloc: Global, out: &mut Present, step: &Cursor, tries: u64) -> Added
    ensures { OnOk result (out.new ≡ out.old ++ closing_faults (path_to step.now) tries (data_of step.now)) }
{
    find_parallel_rest(alloc, out, step)?;
    find_attempts(out, step, tries)
}

/// Adds the resource of a get or put, if it isn't there.
#[tactic(auto, using(crate::proofs::Lists::and_none), unfolding(ccr_pipeline::specs::Unknown::unknown_resource))]
fn find_resource(out: &mut Present, resources: &Seen, step: &Cursor) -> Added
    ensures { OnOk result (out.new ≡ out.old ++ here (unknown_resource resources.now) step.now) }
{
    if at_key(step.value, "get").is_none() && at_key(step.value, "put").is_none() {
        return Ok(());
    }
    let key = name_key(step.value);
    match text_at(step.value, key) {
        Some(name) => {
            let is_known = resources.contains(name);
            out.require(&step.place.key(key), is_known, Rule::KnownResource)
        }
        None => Ok(()),
    }
}

/// Adds the texts of a list that are no jobs.
#[tactic(auto, using(std::proofs::Common::append_assoc, crate::proofs::Lists::and_none))]
fn find_texts(out: &mut Present, jobs: &Seen, list: &[Value], place: &Place) -> Added
    ensures { OnOk result (out.new ≡ out.old ++ unknown_texts jobs.now (path_of place.now) 0 (items_view list.now)) }
{
    for (i, member) in list.iter().enumerate() {
        if let Some(name) = member.as_str() {
            out.require(&(&*place).member(i), jobs.contains(name), Rule::KnownJob)?;
        }
    }
    Ok(())
}

/// Adds the jobs that a get names in `passed` and that aren't there.
#[tactic(auto, using(crate::proofs::Lists::and_none), unfolding(ccr_pipeline::specs::Unknown::unknown_passed))]
fn find_passed(out: &mut Present, jobs: &Seen, step: &Cursor) -> Added
    ensures { OnOk result (out.new ≡ out.old ++ here (unknown_passed jobs.now) step.now) }
{
    if at_key(step.value, "get").is_none() {
        return Ok(());
    }
    let list = list_at(step.value, "passed");
    find_texts(out, jobs, list, &step.place.key("passed"))
}

/// Adds what a step names that isn't there.
#[tactic(auto, using(std::proofs::Common::append_assoc))]
pub(crate) fn find_unknown(out: &mut Present, resources: &Seen, jobs: &Seen, step: &Cursor) -> Added
    ensures { OnOk result (out.new ≡ out.old ++ here (unknown_names resources.now jobs.now) step.now) }
{
    find_resource(out, resources, step)?;
    find_passed(out, jobs, step)
}
