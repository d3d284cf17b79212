//! What is broken in jobs, all of it.
ghost use Rattle.std.specs.Prelude.{◌≡◌, ◌++◌, [], OnOk, codes};
ghost use Rattle.serde_json.specs.View.{items_view};
ghost use Rattle.ccr_pipeline.specs.Keys.{data_of, path_to, here};
ghost use Rattle.ccr_pipeline.specs.JobRules.{too_many, after_plan, job_rest, job_faults, members};
ghost use Rattle.ccr_pipeline.specs.Names.{names_at};
ghost use Rattle.ccr_pipeline.specs.Places.{plan_steps, job_hooks, job_steps};
ghost use Rattle.ccr_findings.specs.Hunts.{hunt_data, with_plan};
ghost use Rattle.ccr_pipeline.specs.Tree.{tree_of};
ghost use Rattle.ccr_pipeline.specs.Unknown.{unknown_spots};

use crate::find_object::{find_object, find_own_keys};
use crate::find_walk::{Hunt, find_hooks, find_list};
use crate::present::{Added, Present};
use crate::seen::Seen;
use ccr_pipeline::schema::{NESTED, Schema, closing};
use ccr_pipeline::{
    Cursor, JOB_REACH, MOST_INPUTS, Names, Place, Rule, Step, add_named_jobs, inputs_in, plan,
};
use serde_json::Value;
use std::alloc::Global;

/// Adds too many inputs or named jobs of a plan.
fn find_few(alloc: Global, out: &mut Present, plan: &Step, job: &Cursor) -> Added
    ensures { OnOk result (out.new ≡ out.old ++ too_many (path_to job.now) (tree_of plan.now)) }
{
    let inputs = inputs_in(alloc, plan)?;
    let mut jobs = Names::new(alloc);
    add_named_jobs(alloc, &mut jobs, &inputs)?;
    let few = inputs.len() <= MOST_INPUTS && jobs.len() <= MOST_INPUTS;
    out.require(&job.place.key("plan"), few, Rule::Number)
}

/// Adds what a job breaks after its name: in the steps of its plan, in its other keys and in its hooks.
fn find_plan(alloc: Global, hunt: &mut Hunt, job: &Cursor) -> Added
    ensures { OnOk result (hunt_data hunt.new ≡ here (with_plan (hunt_data hunt.old)) job.now) }
{
    hunt.gets = Seen::new(alloc);
    find_list(alloc, hunt, job, "plan", JOB_REACH)?;
    find_own_keys(alloc, &mut hunt.present, closing(Schema::Job), job)?;
    find_hooks(alloc, hunt, job, JOB_REACH)?;
    let plan = plan(alloc, job.value)?;
    find_few(alloc, &mut hunt.present, &plan, job)
}

/// Adds what a job breaks, after those of these names, and adds its name.
#[tactic(auto, using(ccr_pipeline::proofs::TableNames::job_names_are))]
fn find_job(alloc: Global, hunt: &mut Hunt, names: &mut Seen, job: &Cursor) -> Added
    ensures present { OnOk result
        (hunt.new.present ≡ hunt.old.present ++ here (job_faults names.old) job.now) }
    ensures unknown { OnOk result (hunt.new.unknown ≡ hunt.old.unknown
        ++ unknown_spots hunt.old.resources hunt.old.jobs (here plan_steps job.now ++ here job_hooks job.now)) }
    ensures resources { OnOk result (hunt.new.resources ≡ hunt.old.resources) }
    ensures jobs { OnOk result (hunt.new.jobs ≡ hunt.old.jobs) }
    ensures named { OnOk result (names.new ≡ names.old ++ names_at (codes "name") (data_of job.now)) }
{
    find_object(alloc, &mut hunt.present, NESTED, Schema::Job, names, job)?;
    find_plan(alloc, hunt, job)
}

/// Adds what the jobs of a list break.
#[tactic(auto, using(std::proofs::Common::append_assoc, ccr_pipeline::proofs::NoteLemmas::unknown_append))]
pub(crate) fn find_jobs(alloc: Global, hunt: &mut Hunt, list: &[Value]) -> Added
    ensures present { OnOk result (hunt.new.present
        ≡ hunt.old.present ++ members job_faults [] (codes "jobs") 0 (items_view list.now)) }
    ensures unknown { OnOk result (hunt.new.unknown ≡ hunt.old.unknown
        ++ unknown_spots hunt.old.resources hunt.old.jobs (job_steps 0 (items_view list.now))) }
{
    let mut names = Seen::new(alloc);
    let all = Place::top("jobs");
    for (i, value) in list.iter().enumerate() {
        let place = all.member(i);
        find_job(alloc, hunt, &mut names, &Cursor { value, place })?;
    }
    Ok(())
}
