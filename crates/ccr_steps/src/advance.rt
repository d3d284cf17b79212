//! How a build goes on when the step that it waited for has ended: up the path to the next ask, or to its end.
ghost use Rattle.std.specs.Prelude.{ℕ, false, ◌≡◌, ◌<◌, length, take, slice_get, None, Some, IfOk};
ghost use Rattle.ccr_pipeline.specs.Tree.{Tree, tree_of, in_order, in_parallel, tried, attempts, hook as hook_tree};
ghost use Rattle.ccr_steps.specs.FrameKinds.{hook_frame};
ghost use Rattle.ccr_steps.specs.Gains.{gains_data};
ghost use Rattle.ccr_steps.specs.Frames.{WentOn, WentOnUnder, trees};

use crate::begin::{begin_all, begin_hook, begin_in_order, retry};
use crate::frame::{Frame, frame_at, hook_in, is_in, left_in, place_in};
use crate::gains::Gains;
use crate::outcome::Outcome;
use ccr_pipeline::{Step, When};
use std::alloc::AllocError;

/// Where a path leads to no step, as none of ours does.
fn lost(frames: &mut Vec<Frame>, level: usize) -> Option<Outcome>
    ensures value { result ≡ Some Outcome.Errored }
    ensures cut { frames.new.items ≡ take level frames.old.items }
{
    frames.truncate(level);
    Some(Outcome::Errored)
}

/// Goes on in the step below the frame at a level, which stays only where the step still waits.
#[cycle(advances)]
fn advance_under(
    step: &Step,
    gains: &Gains,
    frames: &mut Vec<Frame>,
    level: usize,
    ended: Outcome,
) -> Result<Option<Outcome>, AllocError>
    requires { level < length frames.old.items }
    ensures { IfOk result (λ r. WentOnUnder (tree_of step.now) (gains_data gains.now) level ended
        frames.old.items frames.new.items r) }
{
    let came = advance(step, gains, frames, level + 1, ended)?;
    if came.is_some() {
        frames.truncate(level);
    }
    Ok(came)
}

/// Goes on in a step whose path of frames begins at a level, the step at the path's end having ended so: its outcome,
/// where nothing more is asked; else None, and the frames lead to the step that asks.
#[cycle(advances)]
pub(crate) fn advance(
    step: &Step,
    gains: &Gains,
    frames: &mut Vec<Frame>,
    level: usize,
    ended: Outcome,
) -> Result<Option<Outcome>, AllocError>
    ensures { IfOk result (λ r. WentOn (tree_of step.now) (gains_data gains.now) level ended
        frames.old.items frames.new.items r) }
{
    match step {
        Step::Get(_) | Step::Put(_) | Step::Task(_) => {
            frames.truncate(level);
            Ok(Some(ended))
        }
        Step::Do(steps) => advance_in_order(steps, gains, frames, level, ended),
        Step::InParallel(steps, fail_fast) => {
            if *fail_fast {
                advance_in_order(steps, gains, frames, level, ended)
            } else {
                advance_all(steps, gains, frames, level, ended)
            }
        }
        Step::Try(inner) => advance_try(inner, gains, frames, level, ended),
        Step::Attempts(_most, inner) => advance_tries(inner, gains, frames, level, ended),
        Step::Hook(when, inner, hook) => match hook_in(frame_at(frames, level)) {
            Some(outcome) => advance_in_hook(outcome, hook, gains, frames, level, ended),
            None => advance_hooked(*when, inner, hook, gains, frames, level, ended),
        },
    }
}

#[cycle(advances)]
fn advance_try(
    step: &Step,
    gains: &Gains,
    frames: &mut Vec<Frame>,
    level: usize,
    ended: Outcome,
) -> Result<Option<Outcome>, AllocError>
    ensures { IfOk result (λ r. WentOn (tried (tree_of step.now)) (gains_data gains.now) level ended
        frames.old.items frames.new.items r) }
{
    if !is_in(frame_at(frames, level)) {
        return Ok(lost(frames, level));
    }
    match advance_under(step, gains, frames, level, ended)? {
        Some(outcome) => Ok(Some(outcome.tried())),
        None => Ok(None),
    }
}

#[cycle(advances)]
fn advance_tries(
    step: &Step,
    gains: &Gains,
    frames: &mut Vec<Frame>,
    level: usize,
    ended: Outcome,
) -> Result<Option<Outcome>, AllocError>
    ensures { IfOk result (λ r. (n : ℕ) → WentOn (attempts n (tree_of step.now)) (gains_data gains.now) level ended
        frames.old.items frames.new.items r) }
{
    let Some(left) = left_in(frame_at(frames, level)) else {
        return Ok(lost(frames, level));
    };
    match advance_under(step, gains, frames, level, ended)? {
        Some(outcome) => retry(left, outcome, step, gains, frames),
        None => Ok(None),
    }
}

#[cycle(advances)]
fn advance_hooked(
    when: When,
    step: &Step,
    hook: &Step,
    gains: &Gains,
    frames: &mut Vec<Frame>,
    level: usize,
    ended: Outcome,
) -> Result<Option<Outcome>, AllocError>
    requires { hook_frame (slice_get frames.old.items level) ≡ None }
    ensures { IfOk result (λ r. WentOn (hook_tree when (tree_of step.now) (tree_of hook.now)) (gains_data gains.now)
        level ended frames.old.items frames.new.items r) }
{
    if !is_in(frame_at(frames, level)) {
        return Ok(lost(frames, level));
    }
    match advance_under(step, gains, frames, level, ended)? {
        Some(outcome) => begin_hook(when, outcome, hook, gains, frames),
        None => Ok(None),
    }
}

#[cycle(advances)]
fn advance_in_hook(
    outcome: Outcome,
    hook: &Step,
    gains: &Gains,
    frames: &mut Vec<Frame>,
    level: usize,
    ended: Outcome,
) -> Result<Option<Outcome>, AllocError>
    requires within { level < length frames.old.items }
    requires at { slice_get frames.old.items level ≡ Some (Frame.Hook outcome) }
    ensures { IfOk result (λ r. (w : When) (t : Tree)
        → WentOn (hook_tree w t (tree_of hook.now)) (gains_data gains.now)
        level ended frames.old.items frames.new.items r) }
{
    match advance_under(hook, gains, frames, level, ended)? {
        Some(end) => Ok(Some(outcome.worse(end))),
        None => Ok(None),
    }
}

#[cycle(advances)]
fn advance_in_order(
    steps: &[Step],
    gains: &Gains,
    frames: &mut Vec<Frame>,
    level: usize,
    ended: Outcome,
) -> Result<Option<Outcome>, AllocError>
    ensures { IfOk result (λ r. WentOn (in_order (trees steps.now)) (gains_data gains.now) level ended
        frames.old.items frames.new.items r) }
{
    let Some((k, _worst)) = place_in(frame_at(frames, level)) else {
        return Ok(lost(frames, level));
    };
    if k >= steps.len() {
        return Ok(lost(frames, level));
    }
    match advance_under(&steps[k], gains, frames, level, ended)? {
        None => Ok(None),
        Some(outcome) if outcome.is_succeeded() => begin_in_order(steps, k + 1, gains, frames),
        Some(outcome) => Ok(Some(outcome)),
    }
}

#[cycle(advances)]
fn advance_all(
    steps: &[Step],
    gains: &Gains,
    frames: &mut Vec<Frame>,
    level: usize,
    ended: Outcome,
) -> Result<Option<Outcome>, AllocError>
    ensures { IfOk result (λ r. WentOn (in_parallel (trees steps.now) false) (gains_data gains.now) level ended
        frames.old.items frames.new.items r) }
{
    let Some((k, worst)) = place_in(frame_at(frames, level)) else {
        return Ok(lost(frames, level));
    };
    if k >= steps.len() {
        return Ok(lost(frames, level));
    }
    match advance_under(&steps[k], gains, frames, level, ended)? {
        None => Ok(None),
        Some(outcome) if outcome.is_aborted() => Ok(Some(outcome)),
        Some(outcome) => begin_all(steps, k + 1, worst.worse(outcome), gains, frames),
    }
}
