//! The walk over the steps of a job: each is tested, and what is told after all jobs is noted.
ghost use Rattle.std.specs.Prelude.{◌≡◌, ◌-◌, [], codes};
ghost use Rattle.serde_json.specs.View.{view};
ghost use Rattle.ccr_pipeline.specs.Keys.{data_of, path_to, here, at_key, or_else, path_below};
ghost use Rattle.ccr_pipeline.specs.Notes.{Walks};
ghost use Rattle.ccr_pipeline.specs.Places.{counted, tries_below, steps_from, steps_in, step_at, own_steps, hook_steps};

use crate::check_step::{MOST_ATTEMPTS, MOST_TRIES, check_closing, check_opening};
use crate::cursor::Cursor;
use crate::fault::Checked;
use crate::key::{at_key, items_in};
use crate::notes::{Notes, note_step};
use serde_json::Value;
use std::alloc::Global;

/// How many levels of steps a job may have.
pub(crate) const LEVELS: u32 = 30;

/// How far the walk may go below a place: the levels of steps that are left, and the product of the attempts above.
#[derive(Clone, Copy)]
pub struct Reach {
    /// The levels of steps that are left.
    pub left: u32,
    /// The product of the attempts above.
    pub tries: u64,
}

/// The reach of a job's plan and hooks.
pub const JOB_REACH: Reach = Reach {
    left: LEVELS,
    tries: 1,
};

/// What a step's attempts count for the steps in it: 1 where they aren't from 1 to 100.
fn counted(step: &Value) -> u64
    ensures { result ≡ counted (view step.now) }
{
    match at_key(step, "attempts").and_then(|found| found.as_u64()) {
        Some(n) if 1 <= n && n <= MOST_ATTEMPTS => n,
        _ => 1,
    }
}

impl Reach {
    /// The reach of the steps in a step.
    pub fn below(self, step: &Value) -> Reach
        ensures left { result.left ≡ self.left - 1 }
        ensures tries { result.tries ≡ tries_below self.tries (view step.now) }
    {
        let left = self.left.saturating_sub(1);
        let tries = self.tries.saturating_mul(counted(step)).min(MOST_TRIES + 1);
        Reach { left, tries }
    }
}

/// Reads the steps of the list at a key, if a list is there.
#[cycle(walk)]
pub(crate) fn read_list(
    alloc: Global,
    notes: &mut Notes,
    above: &Cursor,
    key: &str,
    reach: Reach,
) -> Checked
    ensures { Walks notes.old
        (steps_in (steps_from reach.left) reach.tries (path_to above.now) key.now (data_of above.now)) result notes.new }
{
    let Some(found) = (&*above).at(&*key) else {
        return Ok(());
    };
    let list = items_in(found.value);
    for (i, value) in list.iter().enumerate() {
        read_step(alloc, notes, &found.member(value, i), reach)?;
    }
    Ok(())
}

/// Reads the step at a key, if one is there.
#[cycle(walk)]
#[tactic(auto, unfolding(crate::specs::Places::step_at))]
fn read_at(alloc: Global, notes: &mut Notes, above: &Cursor, key: &str, reach: Reach) -> Checked
    ensures { Walks notes.old
        (step_at (steps_from reach.left) reach.tries (path_to above.now) key.now (data_of above.now)) result notes.new }
{
    match (&*above).at(&*key) {
        Some(step) => read_step(alloc, notes, &step, reach),
        None => Ok(()),
    }
}

/// Reads the steps that the object of an `in_parallel` holds.
#[cycle(walk)]
fn read_parallel(alloc: Global, notes: &mut Notes, step: &Cursor, reach: Reach) -> Checked
    ensures { Walks notes.old (or_else (at_key (codes "in_parallel") (data_of step.now)) [] (steps_in
        (steps_from reach.left) reach.tries (path_below (path_to step.now) (codes "in_parallel")) (codes "steps")))
        result notes.new }
{
    match (&*step).at("in_parallel") {
        Some(parallel) => read_list(alloc, notes, &parallel, "steps", reach),
        None => Ok(()),
    }
}

/// Reads the steps that a step's own keys hold.
#[cycle(walk)]
fn read_own(alloc: Global, notes: &mut Notes, step: &Cursor, reach: Reach) -> Checked
    ensures { Walks notes.old (here (own_steps (steps_from reach.left) reach.tries) step.now) result notes.new }
{
    read_list(alloc, notes, step, "do", reach)?;
    read_list(alloc, notes, step, "in_parallel", reach)?;
    read_parallel(alloc, notes, step, reach)?;
    read_at(alloc, notes, step, "try", reach)
}

/// Reads the hooks of a step or a job.
#[cycle(walk)]
pub(crate) fn read_hooks(alloc: Global, notes: &mut Notes, above: &Cursor, reach: Reach) -> Checked
    ensures { Walks notes.old (here (hook_steps (steps_from reach.left) reach.tries) above.now) result notes.new }
{
    read_at(alloc, notes, above, "on_success", reach)?;
    read_at(alloc, notes, above, "on_failure", reach)?;
    read_at(alloc, notes, above, "on_error", reach)?;
    read_at(alloc, notes, above, "on_abort", reach)?;
    read_at(alloc, notes, above, "ensure", reach)
}

/// Reads a step and those in it, in the order of reading. What lies too deep isn't looked into.
#[cycle(walk)]
fn read_step(alloc: Global, notes: &mut Notes, step: &Cursor, reach: Reach) -> Checked
    ensures { Walks notes.old (here (steps_from reach.left reach.tries) step.now) result notes.new }
{
    check_opening(alloc, &mut notes.gets, step, reach.left)?;
    note_step(alloc, notes, step)?;
    if reach.left == 0 {
        return Ok(());
    }
    let below = reach.below(step.value);
    read_own(alloc, notes, step, below)?;
    check_closing(alloc, step, reach.tries)?;
    read_hooks(alloc, notes, step, below)
}
