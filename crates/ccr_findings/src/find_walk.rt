//! The walk over the steps of a job that finds all that is broken in them.
ghost use Rattle.std.specs.Prelude.{◌≡◌, [], OnOk, codes};
ghost use Rattle.ccr_pipeline.specs.Keys.{data_of, path_to, here, at_key, or_else, path_below};
ghost use Rattle.ccr_pipeline.specs.Places.{steps_from, steps_in, step_at, own_steps, hook_steps};
ghost use Rattle.ccr_findings.specs.Hunts.{hunt_data, with_found};

use crate::find_step::{find_closing, find_opening, find_unknown};
use crate::present::{Added, Present};
use crate::seen::Seen;
use ccr_pipeline::{Cursor, Reach, items_in};
use std::alloc::Global;

/// What is known while jobs are walked over, and what is found.
#[derive(Drop)]
pub(crate) struct Hunt {
    /// The faults that are present.
    pub(crate) present: Present,
    /// The names that aren't there, which count after all others.
    pub(crate) unknown: Present,
    /// The names of the gets that were met in the job.
    pub(crate) gets: Seen,
    /// The names of the pipeline's resources.
    pub(crate) resources: Seen,
    /// The names of its jobs.
    pub(crate) jobs: Seen,
}

/// Goes over the steps of the list at a key, if a list is there.
#[cycle(hunts)]
#[tactic(auto, using(crate::proofs::Hunts::found_append), unfolding(ccr_pipeline::specs::Places::steps_in))]
pub(crate) fn find_list(
    alloc: Global,
    hunt: &mut Hunt,
    above: &Cursor,
    key: &str,
    reach: Reach,
) -> Added
    ensures { OnOk result (hunt_data hunt.new ≡ with_found (hunt_data hunt.old)
        (steps_in (steps_from reach.left) reach.tries (path_to above.now) key.now (data_of above.now))) }
{
    let Some(found) = (&*above).at(&*key) else {
        return Ok(());
    };
    let list = items_in(found.value);
    for (i, value) in list.iter().enumerate() {
        find_steps(alloc, hunt, &found.member(value, i), reach)?;
    }
    Ok(())
}

/// Goes over the step at a key, if one is there.
#[cycle(hunts)]
#[tactic(auto, using(crate::proofs::Hunts::found_none), unfolding(ccr_pipeline::specs::Places::step_at))]
fn find_at(alloc: Global, hunt: &mut Hunt, above: &Cursor, key: &str, reach: Reach) -> Added
    ensures { OnOk result (hunt_data hunt.new ≡ with_found (hunt_data hunt.old)
        (step_at (steps_from reach.left) reach.tries (path_to above.now) key.now (data_of above.now))) }
{
    match (&*above).at(&*key) {
        Some(step) => find_steps(alloc, hunt, &step, reach),
        None => Ok(()),
    }
}

/// Goes over the steps that the object of an `in_parallel` holds.
#[cycle(hunts)]
#[tactic(auto, using(crate::proofs::Hunts::found_none))]
fn find_parallel(alloc: Global, hunt: &mut Hunt, step: &Cursor, reach: Reach) -> Added
    ensures { OnOk result (hunt_data hunt.new ≡ with_found (hunt_data hunt.old)
        (or_else (at_key (codes "in_parallel") (data_of step.now)) [] (steps_in (steps_from reach.left)
        reach.tries (path_below (path_to step.now) (codes "in_parallel")) (codes "steps")))) }
{
    match (&*step).at("in_parallel") {
        Some(parallel) => find_list(alloc, hunt, &parallel, "steps", reach),
        None => Ok(()),
    }
}

/// Goes over the steps that a step's own keys hold.
#[cycle(hunts)]
#[tactic(auto, using(crate::proofs::Hunts::found_append), unfolding(ccr_pipeline::specs::Places::own_steps))]
fn find_own(alloc: Global, hunt: &mut Hunt, step: &Cursor, reach: Reach) -> Added
    ensures { OnOk result (hunt_data hunt.new
        ≡ with_found (hunt_data hunt.old) (here (own_steps (steps_from reach.left) reach.tries) step.now)) }
{
    find_list(alloc, hunt, step, "do", reach)?;
    find_list(alloc, hunt, step, "in_parallel", reach)?;
    find_parallel(alloc, hunt, step, reach)?;
    find_at(alloc, hunt, step, "try", reach)
}

/// Goes over the hooks of a step or a job.
#[cycle(hunts)]
#[tactic(auto, using(crate::proofs::Hunts::found_append), unfolding(ccr_pipeline::specs::Places::hook_steps))]
pub(crate) fn find_hooks(alloc: Global, hunt: &mut Hunt, above: &Cursor, reach: Reach) -> Added
    ensures { OnOk result (hunt_data hunt.new
        ≡ with_found (hunt_data hunt.old) (here (hook_steps (steps_from reach.left) reach.tries) above.now)) }
{
    find_at(alloc, hunt, above, "on_success", reach)?;
    find_at(alloc, hunt, above, "on_failure", reach)?;
    find_at(alloc, hunt, above, "on_error", reach)?;
    find_at(alloc, hunt, above, "on_abort", reach)?;
    find_at(alloc, hunt, above, "ensure", reach)
}

/// Goes over a step and those in it, in the order of reading. What lies too deep isn't looked into.
#[cycle(hunts)]
fn find_steps(alloc: Global, hunt: &mut Hunt, step: &Cursor, reach: Reach) -> Added
    ensures { OnOk result (hunt_data hunt.new
        ≡ with_found (hunt_data hunt.old) (here (steps_from reach.left reach.tries) step.now)) }
{
    find_opening(alloc, &mut hunt.present, &mut hunt.gets, step, reach.left)?;
    find_unknown(&mut hunt.unknown, &hunt.resources, &hunt.jobs, step)?;
    if reach.left == 0 {
        return Ok(());
    }
    let below = reach.below(step.value);
    find_own(alloc, hunt, step, below)?;
    find_closing(alloc, &mut hunt.present, step, reach.tries)?;
    find_hooks(alloc, hunt, step, below)
}
