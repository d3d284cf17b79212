//! Changes of a history, call by call.

use crate::build::{Status, Used};
use crate::pin::Pin;
use crate::scope::Scope;
use crate::version::Version;

/// Versions that came to the table of a scope.
#[derive(Drop)]
pub struct Reported {
    /// The scope.
    pub scope: Scope,
    /// The scope's number, from 1 in order of making.
    pub number: u32,
    /// Whether the scope had no table before.
    pub is_new: bool,
    /// The place of the first of the versions.
    pub first: u32,
    /// The versions, in order of their places.
    pub versions: Vec<Version>,
}

/// A build that was made.
#[derive(Drop)]
pub struct Made {
    /// The build's row: its position among all builds, from 1 in order of making.
    pub row: u32,
    /// The name of the build's job.
    pub job: String,
    /// The build's number within its job.
    pub number: u32,
    /// The places that the build uses.
    pub used: Vec<Used>,
}

/// A build that ended.
#[derive(Drop)]
pub struct Ended {
    /// The build's row: its position among all builds, from 1 in order of making.
    pub row: u32,
    /// The name of the build's job.
    pub job: String,
    /// The build's number within its job.
    pub number: u32,
    /// How the build ended.
    pub status: Status,
    /// The pairs of scope and place that the build moved.
    pub moved: Vec<(u32, u32)>,
}

/// A place of a scope's table that was disabled or enabled.
#[derive(Clone, Copy)]
pub struct Switched {
    /// The scope's number, from 1 in order of making.
    pub scope: u32,
    /// The place of the version in its scope, from 1 in order of first report.
    pub place: u32,
    /// Whether this changed anything: it wasn't so before.
    pub is_changed: bool,
}

/// One change of a history, with the numbers that the history gave it.
#[derive(Drop)]
pub enum Edit {
    /// The text of the pipeline is set.
    Text(Vec<u8>),
    /// Versions came to the table of a scope.
    Versions(Reported),
    /// A build was made.
    Build(Made),
    /// A build ended.
    Ended(Ended),
    /// This resource is pinned by command.
    PinSet(String, Pin),
    /// The pin by command of this resource is cleared.
    PinCleared(String),
    /// This place is disabled.
    Disabled(Switched),
    /// This place is enabled.
    Enabled(Switched),
}

/// What one event changes: its edits, the first to be made first.
pub type Change = Vec<Edit>;
