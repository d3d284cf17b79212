//! The steps of a plan.
ghost use Rattle.std.specs.Prelude.{◌≡◌};
ghost use Rattle.ccr_pipeline.specs.Tree.{hook_key};

use crate::task::Task;
use ccr_history::{Object, Pin};

/// Which versions a get wants.
#[derive(Drop)]
pub enum Wanted {
    /// The latest that fits.
    Latest,
    /// Each in turn.
    Every,
    /// Those that meet a pin.
    Pinned(Pin),
}

/// A get step (Concourse: get step).
#[derive(Drop)]
pub struct Get {
    /// The artifact's name: no two gets of a job have the same.
    pub name: String,
    /// The resource, by the artifact's name where the step doesn't say.
    pub resource: String,
    /// The jobs that a version has to have passed, as the text lists them.
    pub passed: Vec<String>,
    /// Whether a new version makes a build.
    pub trigger: bool,
    /// What the resource's program is given.
    pub params: Option<Object>,
    /// Which versions it wants.
    pub wanted: Wanted,
    /// What a launcher is told of how long it may take, as the text says it.
    pub timeout: Option<String>,
}

/// A put step (Concourse: put step).
#[derive(Drop)]
pub struct Put {
    /// The artifact's name.
    pub name: String,
    /// The resource, by the artifact's name where the step doesn't say.
    pub resource: String,
    /// What the resource's program is given to push.
    pub params: Option<Object>,
    /// What it is given to fetch what was pushed.
    pub get_params: Option<Object>,
    /// Whether what was pushed isn't fetched.
    pub no_get: bool,
    /// What a launcher is told of how long each of its programs may take, as the text says it.
    pub timeout: Option<String>,
}

/// When a hook runs: after its step ended so.
#[derive(Clone, Copy, Debug, PartialEq, Eq)]
pub enum When {
    /// The step succeeded.
    OnSuccess,
    /// The step failed.
    OnFailure,
    /// The step errored.
    OnError,
    /// The step was aborted.
    OnAbort,
    /// The step ended, however it did.
    Ensure,
}

/// A step of a plan, in its modifiers.
///
/// Where a step has several, they wrap it in one order, whatever the text's: outermost the hook `ensure`, then
/// `on_error`, `on_abort`, `on_failure`, `on_success`, then the attempts, and innermost the step.
#[derive(Drop)]
pub enum Step {
    /// Fetches a version.
    Get(Get),
    /// Pushes a version.
    Put(Put),
    /// Runs a program.
    Task(Task),
    /// Its steps in order, up to the first that doesn't succeed.
    Do(Vec<Step>),
    /// All its steps in order; with true, up to the first that doesn't succeed (`fail_fast`).
    InParallel(Vec<Step>, bool),
    /// Its step, whose failure is none.
    Try(Box<Step>),
    /// At most so many tries of its step, from 1 to 100.
    Attempts(u64, Box<Step>),
    /// Its step, and then its hook, if the step ended so.
    Hook(When, Box<Step>, Box<Step>),
}

impl When {
    /// The key of the hook in a step's text.
    pub fn key(self) -> &'static str
        ensures { result.now ≡ hook_key self }
    {
        match self {
            When::OnSuccess => "on_success",
            When::OnFailure => "on_failure",
            When::OnError => "on_error",
            When::OnAbort => "on_abort",
            When::Ensure => "ensure",
        }
    }
}
