//! What a build asks for, and what it is answered.

use ccr_history::{Object, Version};
use ccr_pipeline::{TaskConfig, Variable};

/// What a build waits for.
#[derive(Clone, Copy)]
pub enum Ask<'r> {
    /// A version's files under an artifact's name: a get step, or the get behind a put.
    Fetch {
        /// The artifact's name.
        artifact: &'r str,
        /// The resource that the version is of.
        resource: &'r str,
        /// The version.
        version: &'r Version,
        /// What the resource's program is given.
        params: Option<&'r Object>,
    },
    /// A new version of a resource.
    Push {
        /// The artifact's name.
        artifact: &'r str,
        /// The resource.
        resource: &'r str,
        /// What the resource's program is given.
        params: Option<&'r Object>,
    },
    /// A task file.
    ReadConfig {
        /// Where it lies in the build folder.
        file: &'r str,
    },
    /// A task's program.
    RunTask {
        /// How it runs.
        config: &'r TaskConfig,
        /// The step's own variables, which replace the config's of equal names.
        env: &'r [Variable],
    },
}

/// How an ask went. Every ask may be `Aborted`. An answer of a kind that the ask doesn't have counts as `Errored`.
#[derive(Drop)]
pub enum Answered {
    /// The version was fetched, or the program ended well.
    Done,
    /// This version was pushed.
    Pushed(Version),
    /// The task file holds this.
    Config(TaskConfig),
    /// The program reported a failure.
    Failed,
    /// The program couldn't be run, or its reply couldn't be read.
    Errored,
    /// The build was aborted while it waited: the step that asked is aborted.
    Aborted,
}
