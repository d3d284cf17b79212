//! Jobs, checked and built together.
ghost use Rattle.std.specs.Prelude.{◌≡◌, ◌++◌, ◌+◌, ◌∷◌, [], length, map, codes, string_bytes, IfOk, OnOk};
ghost use Rattle.serde_json.specs.View.{view, items_view};
ghost use Rattle.ccr_pipeline.specs.Keys.{data_of, path_to, here, path_at};
ghost use Rattle.ccr_pipeline.specs.Faults.{Checks, ChecksAs};
ghost use Rattle.ccr_pipeline.specs.Inputs.{are_few, input_data, inputs, named_jobs};
ghost use Rattle.ccr_pipeline.specs.JobData.{job_data};
ghost use Rattle.ccr_pipeline.specs.JobRules.{too_many, after_plan, job_rest, job_faults, members};
ghost use Rattle.ccr_pipeline.specs.Names.{names_at, with_names};
ghost use Rattle.ccr_pipeline.specs.Notes.{notes_data, with_visits};
ghost use Rattle.ccr_pipeline.specs.Pipelines.{job_from, jobs_in, IsJob};
ghost use Rattle.ccr_pipeline.specs.Places.{plan_steps, job_hooks, job_steps};
ghost use Rattle.ccr_pipeline.specs.Plans.{plan_from};
ghost use Rattle.ccr_pipeline.specs.Schema.{closing};
ghost use Rattle.ccr_pipeline.specs.Tree.{tree_of};
ghost use Rattle.ccr_pipeline.specs.declared.schema.Schema.TheVariants as schema;

use crate::build::{text, texts, truth, whole};
use crate::build_step::plan;
use crate::cursor::Cursor;
use crate::fault::{Checked, Rule};
use crate::input::{Input, inputs_in};
use crate::names::Names;
use crate::notes::Notes;
use crate::object::{check_object, check_own_keys};
use crate::place::Place;
use crate::resource::Job;
use crate::schema::{NESTED, Schema, closing};
use crate::step::Step;
use crate::walk::{JOB_REACH, read_hooks, read_list};
use serde_json::Value;
use std::alloc::{AllocError, Global};
use std::rc::Rc;

/// How many inputs, and how many named jobs, a plan may have.
pub const MOST_INPUTS: usize = 32;

/// Adds the jobs that the inputs name in `passed`.
pub fn add_named_jobs(alloc: Global, jobs: &mut Names, inputs: &[Input]) -> Result<(), AllocError>
    ensures { OnOk result (jobs.new ≡ named_jobs jobs.old (map input_data inputs.now)) }
{
    for input in inputs {
        add_texts(alloc, jobs, &input.passed)?;
    }
    Ok(())
}

/// Adds the texts that are new.
fn add_texts(alloc: Global, names: &mut Names, texts: &[String]) -> Result<(), AllocError>
    ensures { OnOk result (names.new ≡ with_names names.old (map string_bytes texts.now)) }
{
    for text in texts {
        names.add(alloc, text.as_str())?;
    }
    Ok(())
}

/// Refuses too many inputs or named jobs of a plan.
fn check_few(alloc: Global, plan: &Step, job: &Cursor) -> Checked
    ensures { Checks (too_many (path_to job.now) (tree_of plan.now)) result }
{
    let inputs = inputs_in(alloc, plan)?;
    let mut jobs = Names::new(alloc);
    add_named_jobs(alloc, &mut jobs, &inputs)?;
    let few = inputs.len() <= MOST_INPUTS && jobs.len() <= MOST_INPUTS;
    job.place.key("plan").require(alloc, few, Rule::Number)
}

/// The plan of a job whose steps are tested; refuses too many inputs or named jobs.
fn read_plan(alloc: Global, job: &Cursor) -> Checked<Step>
    ensures { ChecksAs (too_many (path_to job.now) (plan_from (data_of job.now))) (plan_from (data_of job.now)) tree_of
        result }
{
    let plan = plan(alloc, job.value)?;
    check_few(alloc, &plan, job)?;
    Ok(plan)
}

/// Reads what comes after the steps of a job's plan, whose gets are met, and builds the plan.
#[tactic(auto, using(crate::proofs::Faulted::first_append), unfolding(crate::specs::JobRules::after_plan))]
fn read_after_plan(alloc: Global, notes: &mut Notes, job: &Cursor) -> Checked<Step>
    ensures checked { ChecksAs (here (after_plan notes.old.gets) job.now) (plan_from (data_of job.now)) tree_of
        result }
    ensures noted { OnOk result (notes_data notes.new ≡ with_visits (notes_data notes.old) (here job_hooks job.now)) }
{
    check_own_keys(alloc, closing(Schema::Job), job)?;
    read_hooks(alloc, notes, job, JOB_REACH)?;
    read_plan(alloc, job)
}

/// Reads what comes after a job's name, and builds its plan.
#[tactic(auto, using(crate::proofs::Faulted::first_append), unfolding(crate::specs::JobRules::job_rest))]
fn read_job_rest(alloc: Global, notes: &mut Notes, job: &Cursor) -> Checked<Step>
    ensures checked { ChecksAs (here job_rest job.now) (plan_from (data_of job.now)) tree_of result }
    ensures noted { OnOk result (notes_data notes.new
        ≡ with_visits (notes_data notes.old) (here plan_steps job.now ++ here job_hooks job.now)) }
{
    notes.gets = Names::new(alloc);
    read_list(alloc, notes, job, "plan", JOB_REACH)?;
    read_after_plan(alloc, notes, job)
}

/// The job of a tested text, whose plan is built.
#[tactic(auto, unfolding(crate::specs::Pipelines::job_from))]
fn job_of(alloc: Global, value: &Value, plan: Step) -> Result<Job, AllocError>
    requires job { IsJob (view value.now) }
    requires plan { tree_of plan ≡ plan_from (view value.now) }
    ensures { IfOk result (λ j. job_data j ≡ job_from (view value.now)) }
{
    Ok(Job {
        name: text(alloc, value, "name")?,
        plan: Rc::new(alloc, plan)?,
        serial: truth(value, "serial"),
        serial_groups: texts(alloc, value, "serial_groups")?,
        max_in_flight: whole(value, "max_in_flight"),
    })
}

/// Reads a job (Concourse: jobs), after those of these names, adds its name, and notes its steps.
#[tactic(auto, using(crate::proofs::Faulted::first_append, crate::proofs::TableNames::job_names_are))]
fn read_job(alloc: Global, names: &mut Names, notes: &mut Notes, job: &Cursor) -> Checked<Job>
    ensures checked { ChecksAs (here (job_faults names.old) job.now) (job_from (data_of job.now)) job_data result }
    ensures named { OnOk result (names.new ≡ names.old ++ names_at (codes "name") (data_of job.now)) }
    ensures noted { OnOk result (notes_data notes.new
        ≡ with_visits (notes_data notes.old) (here plan_steps job.now ++ here job_hooks job.now)) }
{
    check_object(alloc, NESTED, Schema::Job, names, job)?;
    let plan = read_job_rest(alloc, notes, job)?;
    Ok(job_of(alloc, job.value, plan)?)
}

/// Reads a job's text, which is dropped once its job is built, and adds the job.
fn push_job(names: &mut Names, notes: &mut Notes, jobs: &mut Vec<Job>, text: Value) -> Checked
    ensures checked { Checks
        (job_faults names.old (path_at (codes "jobs") (length jobs.old.items)) (view text)) result }
    ensures named { OnOk result (names.new ≡ names.old ++ names_at (codes "name") (view text)) }
    ensures noted { OnOk result (notes_data notes.new ≡ with_visits (notes_data notes.old)
        (plan_steps (path_at (codes "jobs") (length jobs.old.items)) (view text)
        ++ job_hooks (path_at (codes "jobs") (length jobs.old.items)) (view text))) }
    ensures added { OnOk result
        (map job_data jobs.new.items ≡ map job_data jobs.old.items ++ job_from (view text) ∷ []) }
    ensures counted { OnOk result (length jobs.new.items ≡ length jobs.old.items + 1) }
{
    let alloc = *jobs.allocator();
    let all = Place::top("jobs");
    let (value, place) = (&text, all.member(jobs.len()));
    jobs.push(read_job(alloc, names, notes, &Cursor { value, place })?)?;
    Ok(())
}

/// Reads jobs, each from its text, so that the jobs and the whole text are never held side by side.
pub(crate) fn read_jobs(alloc: Global, notes: &mut Notes, list: Vec<Value>) -> Checked<Vec<Job>>
    ensures checked { ChecksAs (members job_faults [] (codes "jobs") 0 (items_view list.items))
        (jobs_in (items_view list.items)) (λ v. map job_data v.items) result }
    ensures noted { OnOk result
        (notes_data notes.new ≡ with_visits (notes_data notes.old) (job_steps 0 (items_view list.items))) }
{
    let mut names = Names::new(alloc);
    let mut jobs = Vec::new(alloc);
    for text in list {
        push_job(&mut names, notes, &mut jobs, text)?;
    }
    Ok(jobs)
}
