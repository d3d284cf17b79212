//! The steps that tested text is built into, in their modifiers.
ghost use Rattle.std.specs.Prelude.{◌≡◌, map, IfOk};
ghost use Rattle.serde_json.specs.View.{view, items_view};
ghost use Rattle.ccr_pipeline.specs.Keys.{at_key, items_in, list_at};
ghost use Rattle.ccr_pipeline.specs.Tree.{tree_of, hook};
ghost use Rattle.ccr_pipeline.specs.Steps.{with_attempts, with_hook, with_hooks, each_tree, parallel_items};
ghost use Rattle.ccr_pipeline.specs.Steps.{holder, action, step_tree};
ghost use Rattle.ccr_pipeline.specs.Plans.{plan_from};

use crate::build::{get, put, task, truth};
use crate::key::{at_key, items_in, list_at};
use crate::step::{Step, When};
use crate::walk::LEVELS;
use serde_json::Value;
use std::alloc::{AllocError, Global};

/// A step, or out of memory.
type Built = Result<Step, AllocError>;

fn add_attempts(alloc: Global, value: &Value, step: Step) -> Built
    ensures { IfOk result (λ s. tree_of s ≡ with_attempts (view value.now) (tree_of step)) }
{
    let Some(found) = at_key(value, "attempts") else {
        return Ok(step);
    };
    match found.as_u64() {
        Some(n) => Ok(Step::Attempts(n, Box::new(alloc, step)?)),
        None => Ok(step),
    }
}

fn hooked(alloc: Global, when: When, step: Step, last: Step) -> Built
    ensures { IfOk result (λ s. tree_of s ≡ hook when (tree_of step) (tree_of last)) }
{
    let step = Box::new(alloc, step)?;
    Ok(Step::Hook(when, step, Box::new(alloc, last)?))
}

#[cycle(build)]
#[tactic(auto, unfolding(crate::specs::Steps::with_hook))]
fn add_hook(alloc: Global, when: When, value: &Value, step: Step, left: u32) -> Built
    ensures { IfOk result (λ s. tree_of s ≡ with_hook (step_tree left) when (view value.now) (tree_of step)) }
{
    match at_key(value, when.key()) {
        Some(found) => {
            let hook = step_of(alloc, found, left)?;
            hooked(alloc, when, step, hook)
        }
        None => Ok(step),
    }
}

/// The step in its hooks, innermost `on_success`, outermost `ensure`.
#[cycle(build)]
#[tactic(auto, unfolding(crate::specs::Steps::with_hooks))]
fn add_hooks(alloc: Global, value: &Value, step: Step, left: u32) -> Built
    ensures { IfOk result (λ s. tree_of s ≡ with_hooks (step_tree left) (view value.now) (tree_of step)) }
{
    let step = add_hook(alloc, When::OnSuccess, value, step, left)?;
    let step = add_hook(alloc, When::OnFailure, value, step, left)?;
    let step = add_hook(alloc, When::OnAbort, value, step, left)?;
    let step = add_hook(alloc, When::OnError, value, step, left)?;
    add_hook(alloc, When::Ensure, value, step, left)
}

/// The steps of a list.
#[cycle(build)]
fn steps_of(alloc: Global, list: &[Value], left: u32) -> Result<Vec<Step>, AllocError>
    ensures { IfOk result (λ v. map tree_of v.items ≡ each_tree (step_tree left) (items_view list.now)) }
{
    let mut steps = Vec::new(alloc);
    for member in list {
        steps.push(step_of(alloc, member, left)?)?;
    }
    Ok(steps)
}

/// The texts of the steps of an `in_parallel`: it is a list, or has one at `steps`.
fn parallel_items(found: &Value) -> &[Value]
    ensures { items_view result.now ≡ parallel_items (view found.now) }
{
    if found.is_array() {
        return items_in(found);
    }
    list_at(found, "steps")
}

/// The step of `do`, `in_parallel` or `try`.
#[cycle(build)]
#[tactic(auto, unfolding(crate::specs::Steps::holder))]
fn holder_of(alloc: Global, step: &Value, left: u32) -> Built
    ensures { IfOk result (λ s. tree_of s ≡ holder (step_tree left) (view step.now)) }
{
    if let Some(found) = at_key(step, "do") {
        return Ok(Step::Do(steps_of(alloc, items_in(found), left)?));
    }
    if let Some(found) = at_key(step, "in_parallel") {
        let steps = steps_of(alloc, parallel_items(found), left)?;
        return Ok(Step::InParallel(steps, truth(found, "fail_fast")));
    }
    if let Some(found) = at_key(step, "try") {
        let tried = step_of(alloc, found, left)?;
        return Ok(Step::Try(Box::new(alloc, tried)?));
    }
    Ok(Step::Do(Vec::new(alloc)))
}

/// The step without its modifiers.
#[cycle(build)]
#[tactic(auto, unfolding(crate::specs::Steps::action))]
fn action_of(alloc: Global, step: &Value, left: u32) -> Built
    ensures { IfOk result (λ s. tree_of s ≡ action (step_tree left) (view step.now)) }
{
    if at_key(step, "get").is_some() {
        return Ok(Step::Get(get(alloc, step)?));
    }
    if at_key(step, "put").is_some() {
        return Ok(Step::Put(put(alloc, step)?));
    }
    if at_key(step, "task").is_some() {
        return Ok(Step::Task(task(alloc, step)?));
    }
    holder_of(alloc, step, left)
}

/// The step that a tested text is, of so many levels.
#[cycle(build)]
#[tactic(auto, unfolding(crate::specs::Steps::step_tree))]
fn step_of(alloc: Global, step: &Value, left: u32) -> Built
    ensures { IfOk result (λ s. tree_of s ≡ step_tree left (view step.now)) }
{
    if left == 0 {
        return Ok(Step::Do(Vec::new(alloc)));
    }
    let action = action_of(alloc, step, left - 1)?;
    let tried = add_attempts(alloc, step, action)?;
    add_hooks(alloc, step, tried, left - 1)
}

/// The plan that a job's tested text is: a `do`, in the job's hooks.
#[tactic(auto, unfolding(crate::specs::Plans::plan_from))]
pub fn plan(alloc: Global, job: &Value) -> Built
    ensures { IfOk result (λ s. tree_of s ≡ plan_from (view job.now)) }
{
    let steps = steps_of(alloc, list_at(job, "plan"), LEVELS)?;
    add_hooks(alloc, job, Step::Do(steps), LEVELS)
}
