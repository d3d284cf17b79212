//! The tests of steps.
ghost use Rattle.std.specs.Prelude.{◌≡◌, ◌++◌, codes, is_some, count_by, OnOk};
ghost use Rattle.serde_json.specs.View.{view};
ghost use Rattle.ccr_pipeline.specs.Keys.{data_of, path_to, here, at_key};
ghost use Rattle.ccr_pipeline.specs.Faults.{Checks};
ghost use Rattle.ccr_pipeline.specs.Names.{names_at};
ghost use Rattle.ccr_pipeline.specs.Schema.{opening, closing, schema_of};
ghost use Rattle.ccr_pipeline.specs.StepRules.{kinds, shape_faults, kind_faults, opening_faults};
ghost use Rattle.ccr_pipeline.specs.StepRules.{parallel_rest, closing_faults, attempts_faults};

use crate::cursor::Cursor;
use crate::fault::{Checked, Rule};
use crate::key::at_key;
use crate::names::Names;
use crate::object::{check_own_keys, check_rows};
use crate::schema::{NESTED, Schema, closing, opening, schema_of};
use serde_json::Value;
use std::alloc::Global;

/// How many attempts a step may have.
pub const MOST_ATTEMPTS: u64 = 100;

/// The greatest product of the attempts from a job down to a step.
pub const MOST_TRIES: u64 = 10_000;

/// How many of the keys stand in an object.
fn count(value: &Value, keys: &[&str]) -> usize
    ensures { result ≡ count_by (λ key. is_some (at_key key.now (view value.now))) keys.now }
{
    keys.iter()
        .filter(|key| at_key(value, *key).is_some())
        .count()
}

/// How many of the six keys a step has that say its kind.
pub fn kinds(step: &Value) -> usize
    ensures { result ≡ kinds (view step.now) }
{
    count(step, &["get", "put", "task", "do", "in_parallel", "try"])
}

#[tactic(auto, using(crate::proofs::Faulted::first_append), unfolding(crate::specs::StepRules::shape_faults))]
fn check_shape(alloc: Global, step: &Cursor, left: u32) -> Checked
    ensures { Checks (shape_faults (path_to step.now) left (data_of step.now)) result }
{
    let is_object = step.value.is_object();
    step.place.require(alloc, is_object, Rule::Kind)?;
    step.place.require(alloc, 0 < left, Rule::Depth)?;
    check_own_keys(alloc, opening(Schema::Undone), step)
}

#[tactic(auto, using(crate::proofs::Faulted::first_append), unfolding(crate::specs::StepRules::kind_faults))]
fn check_one_kind(alloc: Global, step: &Cursor) -> Checked
    ensures { Checks (here kind_faults step.now) result }
{
    let kinds = kinds(step.value);
    step.place.require(alloc, 0 < kinds, Rule::OneStep)?;
    step.place.require(alloc, kinds < 2, Rule::OnlyOneStep)
}

/// Refuses a step that breaks a rule before the steps in it are read, and adds the name of a get to those of the job.
#[tactic(auto, using(crate::proofs::Faulted::first_append), unfolding(crate::specs::StepRules::opening_faults))]
pub(crate) fn check_opening(alloc: Global, names: &mut Names, step: &Cursor, left: u32) -> Checked
    ensures checked { Checks (opening_faults names.old (path_to step.now) left (data_of step.now)) result }
    ensures added { OnOk result (names.new ≡ names.old ++ names_at (codes "get") (data_of step.now)) }
{
    check_shape(alloc, step, left)?;
    check_one_kind(alloc, step)?;
    check_rows(alloc, NESTED, opening(schema_of(step.value)), names, step)
}

/// Refuses attempts that aren't from 1 to 100, or that come to more than 10,000 with those of the steps around.
fn check_attempts(alloc: Global, step: &Cursor, tries: u64) -> Checked
    ensures { Checks (attempts_faults (path_to step.now) tries (data_of step.now)) result }
{
    let Some(found) = step.at("attempts") else {
        return Ok(());
    };
    match found.value.as_u64() {
        Some(n) => {
            let fits = 1 <= n && n <= MOST_ATTEMPTS && tries.saturating_mul(n) <= MOST_TRIES;
            found.place.require(alloc, fits, Rule::Attempts)
        }
        None if found.value.is_i64() => found.place.require(alloc, false, Rule::Attempts),
        None => found.place.require(alloc, false, Rule::Kind),
    }
}

fn check_parallel_rest(alloc: Global, step: &Cursor) -> Checked
    ensures { Checks (here parallel_rest step.now) result }
{
    let Some(parallel) = step.at("in_parallel") else {
        return Ok(());
    };
    check_own_keys(alloc, closing(Schema::Parallel), &parallel)
}

/// Refuses a step that breaks a rule in the keys after the steps in it.
#[tactic(auto, using(crate::proofs::Faulted::first_append), unfolding(crate::specs::StepRules::closing_faults))]
pub(crate) fn check_closing(alloc: Global, step: &Cursor, tries: u64) -> Checked
    ensures { Checks (closing_faults (path_to step.now) tries (data_of step.now)) result }
{
    check_parallel_rest(alloc, step)?;
    check_attempts(alloc, step, tries)
}
