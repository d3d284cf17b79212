//! Where a build waits.
ghost use Rattle.std.specs.Prelude.{◌≡◌, ◌<◌, length, slice_get, IsSome, IsTrue};
ghost use Rattle.ccr_steps.specs.FrameKinds.{at_frame, is_in_frame, left_frame, hook_frame};

use crate::outcome::Outcome;
use ccr_history::Version;
use ccr_pipeline::TaskConfig;

/// Where a step that was begun stands, one level of a path down to the step that asks.
#[derive(Clone, Copy, PartialEq, Eq)]
pub(crate) enum Frame {
    /// In the step at this place of a list, with the worst outcome of those before it.
    At(usize, Outcome),
    /// In the only step, or in the step that a hook is for.
    In,
    /// In a try, with at most so many more.
    Left(u64),
    /// In the hook, after its step ended so.
    Hook(Outcome),
}

/// Which ask of its own the step at the end of the path waits for.
#[derive(Drop)]
pub(crate) enum Leaf {
    /// Its first.
    First,
    /// The fetch of the version that it pushed.
    Fetching(Version),
    /// The run of the config that it read.
    Running(TaskConfig),
}

/// The frame at a level of a path.
pub(crate) fn frame_at(frames: &[Frame], level: usize) -> Option<Frame>
    ensures value { result ≡ slice_get frames.now level }
    ensures within { IsSome result → level < length frames.now }
{
    frames.get(level).copied()
}

/// The place of the step of a list that it is in, and the worst outcome before.
pub(crate) fn place_in(frame: Option<Frame>) -> Option<(usize, Outcome)>
    ensures value { result ≡ at_frame frame }
    ensures some { IsSome result → IsSome frame }
{
    match frame {
        Some(Frame::At(k, worst)) => Some((k, worst)),
        Some(Frame::In) => None,
        Some(Frame::Left(_)) => None,
        Some(Frame::Hook(_)) => None,
        None => None,
    }
}

/// Whether it is in the only step, or in the step that a hook is for.
pub(crate) fn is_in(frame: Option<Frame>) -> bool
    ensures value { result ≡ is_in_frame frame }
    ensures some { IsTrue result → IsSome frame }
{
    match frame {
        Some(Frame::At(_, _)) => false,
        Some(Frame::In) => true,
        Some(Frame::Left(_)) => false,
        Some(Frame::Hook(_)) => false,
        None => false,
    }
}

/// How many tries are left after the one that it is in.
pub(crate) fn left_in(frame: Option<Frame>) -> Option<u64>
    ensures value { result ≡ left_frame frame }
    ensures some { IsSome result → IsSome frame }
{
    match frame {
        Some(Frame::At(_, _)) => None,
        Some(Frame::In) => None,
        Some(Frame::Left(left)) => Some(left),
        Some(Frame::Hook(_)) => None,
        None => None,
    }
}

/// How the step ended whose hook it is in.
pub(crate) fn hook_in(frame: Option<Frame>) -> Option<Outcome>
    ensures value { result ≡ hook_frame frame }
    ensures some { IsSome result → IsSome frame }
{
    match frame {
        Some(Frame::At(_, _)) => None,
        Some(Frame::In) => None,
        Some(Frame::Left(_)) => None,
        Some(Frame::Hook(outcome)) => Some(outcome),
        None => None,
    }
}
