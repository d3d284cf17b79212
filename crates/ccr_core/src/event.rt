//! What the core is told.

use ccr_history::Version;
use ccr_pipeline::Pipeline;
use ccr_steps::Answered;

/// What happens to the core: one atomic step.
#[derive(Drop)]
pub enum Event {
    /// This is the pipeline from now on; tables, builds and pins stay. `BuildsOpen` where a build runs.
    SetPipeline(Pipeline),
    /// A check of the resource of this name printed these versions. `NoPipeline`, `NoResource`; `TableFull` where the
    /// resource would have more than 100,000 versions, or be one scope too many.
    Checked(String, Vec<Version>),
    /// A build of the job of this name is to be made if there is something new for it. `NoPipeline`, `NoJob`;
    /// `TooManyOpen` where 64 builds run; `TableFull` where 1,000,000 builds are kept.
    Schedule(String),
    /// A build of the job of this name is to be made by command. Refused as `Schedule` is.
    Trigger(String),
    /// An answer to what the job's build of this number asked at this turn, a turn being the number of its answers so
    /// far, modulo 2 to the 64th. `NoBuild` where no such build runs; `NotWanted` where it has another turn;
    /// `TableFull` where a pushed version would be one too many, as at `Checked`.
    Answer(String, u32, u64, Answered),
    /// The job's build of this number is aborted: what it asks is answered with `Aborted`, whatever its turn is. Hooks
    /// that follow ask as usual, and can be aborted too. `NoBuild` where no such build runs.
    Abort(String, u32),
    /// The resource of this name is held to the versions that meet the pin, in place of an earlier pin. `NoPipeline`,
    /// `NoResource`.
    Pin(String, ccr_history::Pin),
    /// The pin by command of the resource of this name is taken away. `NoPipeline`, `NoResource`.
    Unpin(String),
    /// The place of the table of the resource of this name is disabled: no input takes its version until it is enabled
    /// again. `NoPipeline`, `NoResource`; `NoVersion` where the table has no such place.
    Disable(String, u32),
    /// The place of the table of the resource of this name is enabled. Refused as `Disable` is.
    Enable(String, u32),
    /// Each running build is errored, with nothing moved.
    Restart,
}
