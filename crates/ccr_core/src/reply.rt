//! What the core replies.

use ccr_steps::Outcome;

/// What an event that isn't refused is replied.
#[derive(Clone, Copy, PartialEq, Eq)]
pub enum Reply {
    /// To `SetPipeline`.
    Set,
    /// To `Checked`: how many of the versions are new, a repeated one counted once.
    New(u32),
    /// To `Schedule` and `Trigger`: the job's build of this number was made, with the places of an optimal choice. It
    /// may have ended at once.
    Made(u32),
    /// To `Schedule` and `Trigger`: no choice of versions and builds satisfies the job's inputs.
    NoneSatisfies,
    /// To `Schedule` and `Trigger`: the search needed more nodes than this budget.
    OverBudget(u32),
    /// To `Schedule`: each input with `trigger` has a version that an earlier build of the job had for it.
    NotNew,
    /// To `Schedule` and `Trigger`: the job has as many running builds as it may, or a build of another job runs that
    /// shares a serial group with it.
    Busy,
    /// To `Answer`: the build goes on.
    Goes,
    /// To `Answer`: the build has ended so.
    Ends(Outcome),
    /// To `Pin`.
    Pinned,
    /// To `Unpin`, also where there was no pin.
    Unpinned,
    /// To `Disable`, also where the place was disabled.
    Disabled,
    /// To `Enable`, also where the place was enabled.
    Enabled,
    /// To `Restart`.
    Restarted,
}
