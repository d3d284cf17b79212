//! Builds, and how they stand.
ghost use Rattle.std.specs.Prelude.{◌≡◌};
ghost use Rattle.ccr_history.specs.Builds.{is_running};

use std::marker::Model;

/// How a build stands (Concourse: build statuses).
#[derive(Clone, Copy, Debug, PartialEq, Eq)]
pub enum Status {
    /// It has been made and has not ended.
    Running,
    /// It ended, and each of its steps succeeded.
    Succeeded,
    /// It ended because a program answered that it failed.
    Failed,
    /// It ended because a program could not be run or answered nonsense.
    Errored,
    /// It was aborted.
    Aborted,
}

impl Status {
    /// Whether the build has not ended.
    pub(crate) fn is_running(self) -> bool
        ensures { result ≡ is_running self }
    {
        match self {
            Status::Running => true,
            Status::Succeeded => false,
            Status::Failed => false,
            Status::Errored => false,
            Status::Aborted => false,
        }
    }
}

/// A version that a build was given for one of its inputs.
#[derive(Drop)]
pub struct Used {
    /// The input's name.
    pub input: String,
    /// The number of the version's scope, from 1 in order of making.
    pub scope: u32,
    /// The place of the version in its scope, from 1 in order of first report.
    pub place: u32,
}

impl Model for Used {
    ghost use Rattle.std.specs.Prelude.{string_bytes};
    ghost use Rattle.ccr_history.specs.Builds.{UsedData};

    ghost Value = { UsedData };

    ghost view = { λ u. record { input = string_bytes u.input; scope = u.scope; place = u.place } };
}
