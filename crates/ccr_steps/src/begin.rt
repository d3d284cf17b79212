//! How a step is begun: down to the first ask, or to its end where nothing is asked.
ghost use Rattle.std.specs.Prelude.{ℕ, false, ◌≡◌, ◌≤◌, [], ◌∷◌, ◌++◌, length, drop, IfOk, OnOk};
ghost use Rattle.ccr_pipeline.specs.Tree.{tree_of, task_data, Tree, in_order, in_parallel, attempts};
ghost use Rattle.ccr_pipeline.specs.Tree.{hook as hook_tree};
ghost use Rattle.ccr_steps.specs.Gains.{gains_data};
ghost use Rattle.ccr_steps.specs.Play.{and_then, and_worse_end, after_hooked, play, play_in_order, play_all, tries};
ghost use Rattle.ccr_steps.specs.Frames.{Came, Begun, BegunUnder, begins_task, more_tries, trees};

use crate::frame::Frame;
use crate::gains::Gains;
use crate::outcome::{Outcome, runs_after};
use ccr_pipeline::{Step, Task, TaskSource, When};
use std::alloc::AllocError;

fn put(frames: &mut Vec<Frame>, frame: Frame) -> Result<(), AllocError>
    ensures { OnOk result (frames.new.items ≡ frames.old.items ++ frame ∷ []) }
{
    frames.push(frame)?;
    Ok(())
}

/// What a task whose inputs aren't all there ends with; None for one that asks.
fn begin_task(task: &Task, gains: &Gains) -> Option<Outcome>
    ensures { result ≡ begins_task (task_data task.now) (gains_data gains.now) }
{
    match &task.source {
        TaskSource::Config(config) if !gains.has_inputs(&config.inputs) => Some(Outcome::Errored),
        _ => None,
    }
}

/// Begins a step under a frame, which stays only where the step waits.
#[cycle(begins)]
fn begin_under(
    frame: Frame,
    step: &Step,
    gains: &Gains,
    frames: &mut Vec<Frame>,
) -> Result<Option<Outcome>, AllocError>
    ensures { IfOk result (λ r. BegunUnder frame (tree_of step.now) (gains_data gains.now)
        frames.old.items frames.new.items r) }
{
    let level = frames.len();
    put(frames, frame)?;
    let came = begin(step, gains, frames)?;
    if came.is_some() {
        frames.truncate(level);
    }
    Ok(came)
}

/// Begins a step: its outcome, where it ends without an ask; else None, and the frames lead to the step that asks.
#[cycle(begins)]
pub(crate) fn begin(
    step: &Step,
    gains: &Gains,
    frames: &mut Vec<Frame>,
) -> Result<Option<Outcome>, AllocError>
    ensures { IfOk result (λ r. Begun (tree_of step.now) (gains_data gains.now) frames.old.items frames.new.items r) }
{
    match step {
        Step::Get(_get) => Ok(None),
        Step::Put(_put) => Ok(None),
        Step::Task(task) => Ok(begin_task(task, gains)),
        Step::Do(steps) => begin_in_order(steps, 0, gains, frames),
        Step::InParallel(steps, fail_fast) => {
            if *fail_fast {
                begin_in_order(steps, 0, gains, frames)
            } else {
                begin_all(steps, 0, Outcome::Succeeded, gains, frames)
            }
        }
        Step::Try(inner) => match begin_under(Frame::In, inner, gains, frames)? {
            Some(outcome) => Ok(Some(outcome.tried())),
            None => Ok(None),
        },
        Step::Attempts(most, inner) => {
            let left = most.saturating_sub(1);
            begin_tries(left, inner, gains, frames)
        }
        Step::Hook(when, inner, hook) => match begin_under(Frame::In, inner, gains, frames)? {
            Some(outcome) => begin_hook(*when, outcome, hook, gains, frames),
            None => Ok(None),
        },
    }
}

/// Begins a try after which so many more may come. One that ends without an ask would end so again.
#[cycle(begins)]
pub(crate) fn begin_tries(
    left: u64,
    step: &Step,
    gains: &Gains,
    frames: &mut Vec<Frame>,
) -> Result<Option<Outcome>, AllocError>
    ensures { IfOk result (λ r. (n : ℕ)
        → Came (λ c. tries left (play c (tree_of step.now)) (gains_data gains.now))
        (attempts n (tree_of step.now)) (gains_data gains.now) frames.old.items frames.new.items r) }
{
    begin_under(Frame::Left(left), step, gains, frames)
}

/// Begins another try of a step that ended so, if it may be tried again and a try is left; else the outcome is the
/// try's.
pub(crate) fn retry(
    left: u64,
    outcome: Outcome,
    step: &Step,
    gains: &Gains,
    frames: &mut Vec<Frame>,
) -> Result<Option<Outcome>, AllocError>
    ensures { IfOk result (λ r. (n : ℕ)
        → Came (λ c. more_tries left (play c (tree_of step.now)) outcome (gains_data gains.now))
        (attempts n (tree_of step.now)) (gains_data gains.now) frames.old.items frames.new.items r) }
{
    if left == 0 || !outcome.is_tried_again() {
        return Ok(Some(outcome));
    }
    begin_tries(left - 1, step, gains, frames)
}

/// Begins the hook of a step that ended so, if it runs then; else the outcome is the step's.
#[cycle(begins)]
pub(crate) fn begin_hook(
    when: When,
    outcome: Outcome,
    hook: &Step,
    gains: &Gains,
    frames: &mut Vec<Frame>,
) -> Result<Option<Outcome>, AllocError>
    ensures { IfOk result (λ r. (t : Tree)
        → Came (λ c. after_hooked when (play c (tree_of hook.now)) outcome (gains_data gains.now))
        (hook_tree when t (tree_of hook.now)) (gains_data gains.now) frames.old.items frames.new.items r) }
{
    if !runs_after(when, outcome) {
        return Ok(Some(outcome));
    }
    match begin_under(Frame::Hook(outcome), hook, gains, frames)? {
        Some(end) => Ok(Some(outcome.worse(end))),
        None => Ok(None),
    }
}

/// Begins the steps of a list from one on, up to the first that doesn't succeed.
#[cycle(begins)]
pub(crate) fn begin_in_order(
    steps: &[Step],
    from: usize,
    gains: &Gains,
    frames: &mut Vec<Frame>,
) -> Result<Option<Outcome>, AllocError>
    requires { from ≤ length steps.now }
    ensures { IfOk result (λ r. Came (λ c. play_in_order c (trees (drop from steps.now)) (gains_data gains.now))
        (in_order (trees steps.now)) (gains_data gains.now) frames.old.items frames.new.items r) }
{
    for i in from..steps.len() {
        match begin_under(Frame::At(i, Outcome::Succeeded), &steps[i], gains, frames)? {
            None => return Ok(None),
            Some(Outcome::Succeeded) => {}
            Some(outcome) => return Ok(Some(outcome)),
        }
    }
    Ok(Some(Outcome::Succeeded))
}

/// Begins all steps of a list from one on, up to the first that is aborted. Those before it had this worst outcome.
#[cycle(begins)]
pub(crate) fn begin_all(
    steps: &[Step],
    from: usize,
    worst: Outcome,
    gains: &Gains,
    frames: &mut Vec<Frame>,
) -> Result<Option<Outcome>, AllocError>
    requires { from ≤ length steps.now }
    ensures { IfOk result (λ r.
        Came (λ c. and_then (play_all c (trees (drop from steps.now)) (gains_data gains.now)) (and_worse_end worst))
        (in_parallel (trees steps.now) false) (gains_data gains.now) frames.old.items frames.new.items r) }
{
    let mut worst = worst;
    for i in from..steps.len() {
        match begin_under(Frame::At(i, worst), &steps[i], gains, frames)? {
            None => return Ok(None),
            Some(outcome) if outcome.is_aborted() => return Ok(Some(outcome)),
            Some(outcome) => worst = worst.worse(outcome),
        }
    }
    Ok(Some(worst))
}
