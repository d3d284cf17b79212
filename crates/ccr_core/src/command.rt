//! What the server is commanded.

use crate::shown::Shown;

/// A command, with its arguments as they were typed.
#[derive(Drop)]
pub enum Command {
    /// The pipeline in the file at this path is set.
    SetPipeline(String),
    /// The resource of this name is checked.
    CheckResource(String),
    /// The resource of this name is pinned to the versions that meet this JSON text.
    PinResource(String, String),
    /// The pin by command of the resource of this name is taken away.
    UnpinResource(String),
    /// The version at this place, from 1 to 100,000, of the resource of this name is disabled.
    DisableResourceVersion(String, u32),
    /// The version at this place, from 1 to 100,000, of the resource of this name is enabled again.
    EnableResourceVersion(String, u32),
    /// A build of the job of this name is made, and run to its end.
    TriggerJob(String),
    /// So many rounds are run, from 1 to 1,000,000, and then all builds to their ends.
    Run(u32),
    /// Something is shown, and nothing changes.
    Show(Shown),
}
