//! The inputs of a job.
ghost use Rattle.std.specs.Prelude.{◌≡◌, ◌∷◌, ◌++◌, [], map, IfOk, IsTrue, OnOk, string_bytes};
ghost use Rattle.ccr_pipeline.specs.Inputs.{are_few, input_data, input_from, inputs, inputs_in};
ghost use Rattle.ccr_pipeline.specs.Tree.{tree_of, trees_of, get_data, wanted_data};

use crate::resource::Job;
use crate::step::{Get, Step, Wanted, When};
use std::alloc::{AllocError, Global};

/// What a job takes by a get step.
#[derive(Drop)]
pub struct Input {
    /// The artifact's name; no two inputs of a job have the same.
    pub name: String,
    /// The resource.
    pub resource: String,
    /// The jobs that a version has to have passed, as the text lists them.
    pub passed: Vec<String>,
    /// Whether a new version makes a build.
    pub trigger: bool,
    /// Which versions it wants.
    pub wanted: Wanted,
}

/// A copy of a list of texts.
fn copy_texts(alloc: Global, texts: &[String]) -> Result<Vec<String>, AllocError>
    ensures { IfOk result (λ v. map string_bytes v.items ≡ map string_bytes texts.now) }
{
    let mut copies = Vec::new(alloc);
    for text in texts {
        copies.push(String::from_str(alloc, text.as_str())?)?;
    }
    Ok(copies)
}

/// A copy of what a get wants.
fn copy_wanted(wanted: &Wanted) -> Result<Wanted, AllocError>
    ensures { IfOk result (λ w. wanted_data w ≡ wanted_data wanted.now) }
{
    match wanted {
        Wanted::Latest => Ok(Wanted::Latest),
        Wanted::Every => Ok(Wanted::Every),
        Wanted::Pinned(pin) => Ok(Wanted::Pinned(pin.copy()?)),
    }
}

fn input_of(alloc: Global, get: &Get) -> Result<Input, AllocError>
    ensures { IfOk result (λ i. input_data i ≡ input_from (get_data get.now)) }
{
    Ok(Input {
        name: String::from_str(alloc, get.name.as_str())?,
        resource: String::from_str(alloc, get.resource.as_str())?,
        passed: copy_texts(alloc, &get.passed)?,
        trigger: get.trigger,
        wanted: copy_wanted(&get.wanted)?,
    })
}

fn push_get(alloc: Global, out: &mut Vec<Input>, get: &Get) -> Result<(), AllocError>
    ensures { OnOk result (map input_data out.new.items
        ≡ map input_data out.old.items ++ input_from (get_data get.now) ∷ []) }
{
    out.push(input_of(alloc, get)?)?;
    Ok(())
}

#[cycle(inputs)]
#[tactic(auto, using(std::proofs::Common::append_assoc))]
fn push_each(alloc: Global, out: &mut Vec<Input>, steps: &Vec<Step>) -> Result<(), AllocError>
    ensures { OnOk result (map input_data out.new.items
        ≡ map input_data out.old.items ++ inputs_in (trees_of (map tree_of steps.now.items))) }
{
    for step in steps {
        push_step(alloc, out, step)?;
    }
    Ok(())
}

#[cycle(inputs)]
#[tactic(auto, using(std::proofs::Common::append_assoc))]
fn push_step(alloc: Global, out: &mut Vec<Input>, step: &Step) -> Result<(), AllocError>
    ensures { OnOk result (map input_data out.new.items
        ≡ map input_data out.old.items ++ inputs (tree_of step.now)) }
{
    match step {
        Step::Get(get) => push_get(alloc, out, get),
        Step::Put(_) | Step::Task(_) => Ok(()),
        Step::Do(steps) => push_each(alloc, out, steps),
        Step::InParallel(steps, _) => push_each(alloc, out, steps),
        Step::Try(tried) => push_step(alloc, out, tried),
        Step::Attempts(_, tried) => push_step(alloc, out, tried),
        // Those of `on_abort` come after those of `on_error`, though it is further in.
        Step::Hook(When::OnError, inner, errored) => match &**inner {
            Step::Hook(When::OnAbort, step, aborted) => {
                push_step(alloc, out, step)?;
                push_step(alloc, out, errored)?;
                push_step(alloc, out, aborted)
            }
            _ => {
                push_step(alloc, out, inner)?;
                push_step(alloc, out, errored)
            }
        },
        Step::Hook(When::OnSuccess | When::OnFailure | When::OnAbort | When::Ensure, inner, hook) =>
            {
                push_step(alloc, out, inner)?;
                push_step(alloc, out, hook)
            }
    }
}

/// The inputs of a step, in the order of the plan.
pub fn inputs_in(alloc: Global, step: &Step) -> Result<Vec<Input>, AllocError>
    ensures { IfOk result (λ v. map input_data v.items ≡ inputs (tree_of step.now)) }
{
    let mut out = Vec::new(alloc);
    push_step(alloc, &mut out, step)?;
    Ok(out)
}

/// The inputs of a job: its get steps, those in hooks too, in the order of the plan. A step's own steps come in list
/// order, then its hooks in the order `on_success`, `on_failure`, `on_error`, `on_abort`, `ensure`; the job's own hooks
/// come after its plan.
pub fn inputs_of(alloc: Global, job: &Job) -> Result<Vec<Input>, AllocError>
    ensures inputs { IfOk result (λ v. map input_data v.items ≡ inputs (tree_of job.now.plan.value)) }
    // At most 32, which name at most 32 jobs.
    ensures few { IsTrue (are_few (inputs (tree_of job.now.plan.value))) }
{
    inputs_in(alloc, &job.plan)
}
