//! The step at the end of a path of frames.
ghost use Rattle.std.specs.Prelude.{◌≡◌, drop, option_map};
ghost use Rattle.ccr_pipeline.specs.Tree.{tree_of, in_order};
ghost use Rattle.ccr_steps.specs.Frames.{leaf_at, trees};

use crate::frame::{Frame, frame_at, hook_in, is_in, left_in, place_in};
use ccr_pipeline::Step;

#[cycle(paths)]
fn leaf_in<'r>(steps: &'r [Step], frames: &[Frame], level: usize) -> Option<&'r Step>
    ensures { option_map (λ s. tree_of s.now) result ≡ leaf_at (in_order (trees steps.now)) (drop level frames.now) }
{
    let Some((k, _worst)) = place_in(frame_at(frames, level)) else {
        return None;
    };
    if k >= steps.len() {
        return None;
    }
    leaf_at(&steps[k], frames, level + 1)
}

/// The step at the end of a path of frames that begins at a level.
#[cycle(paths)]
pub(crate) fn leaf_at<'r>(step: &'r Step, frames: &[Frame], level: usize) -> Option<&'r Step>
    ensures { option_map (λ s. tree_of s.now) result ≡ leaf_at (tree_of step.now) (drop level frames.now) }
{
    match step {
        Step::Get(_get) => Some(step),
        Step::Put(_put) => Some(step),
        Step::Task(_task) => Some(step),
        Step::Do(steps) => leaf_in(steps, frames, level),
        Step::InParallel(steps, _fail_fast) => leaf_in(steps, frames, level),
        Step::Try(inner) => {
            if !is_in(frame_at(frames, level)) {
                return None;
            }
            leaf_at(inner, frames, level + 1)
        }
        Step::Attempts(_most, inner) => {
            let Some(_left) = left_in(frame_at(frames, level)) else {
                return None;
            };
            leaf_at(inner, frames, level + 1)
        }
        Step::Hook(_when, inner, hook) => {
            let frame = frame_at(frames, level);
            if is_in(frame) {
                return leaf_at(inner, frames, level + 1);
            }
            let Some(_outcome) = hook_in(frame) else {
                return None;
            };
            leaf_at(hook, frames, level + 1)
        }
    }
}
