//! Builds, lent by a history.
ghost use Rattle.std.specs.Prelude.{◌≡◌, length, slice_get, option_map};
ghost use Rattle.ccr_history.specs.Rows.{build_data, with_places, IsNamed};

use crate::build::Status;
use crate::names::Names;
use crate::row::Row;
use crate::used_row::UsedRow;
use std::marker::Model;

/// A build of a history. Its readers take no memory.
#[derive(Drop)]
pub struct BuildRef<'a> {
    row: &'a Row,
    used: &'a [UsedRow],
    jobs: &'a Names,
    inputs: &'a Names,
}

impl<'a> Model for BuildRef<'a> {
    ghost use Rattle.std.specs.Prelude.{length};
    ghost use Rattle.ccr_history.specs.Builds.{BuildData};
    ghost use Rattle.ccr_history.specs.Rows.{build_data, with_places, IsNamed};

    ghost Value = { BuildData };

    ghost view = { λ b. build_data b.jobs.now b.inputs.now (with_places b.used.now b.row.now) };

    ghost invariant = { λ b. IsNamed (length b.jobs.now) (length b.inputs.now) (with_places b.used.now b.row.now) };
}

impl<'a> BuildRef<'a> {
    /// The build of a row with the places that it used, whose names are there.
    pub(crate) fn new(
        row: &'a Row,
        used: &'a [UsedRow],
        jobs: &'a Names,
        inputs: &'a Names,
    ) -> BuildRef<'a>
        requires { IsNamed (length jobs.now) (length inputs.now) (with_places used.now row.now) }
        ensures { result ≡ build_data jobs.now inputs.now (with_places used.now row.now) }
    {
        BuildRef {
            row,
            used,
            jobs,
            inputs,
        }
    }

    /// The name of the build's job.
    pub fn job(&self) -> &str
        ensures { result.now ≡ self.now.job }
    {
        self.jobs.get(self.row.job())
    }

    /// The build's number within its job, from 1 in order of making.
    pub fn number(&self) -> u32
        ensures { result ≡ self.now.number }
    {
        self.row.number()
    }

    /// How the build stands.
    pub fn status(&self) -> Status
        ensures { result ≡ self.now.status }
    {
        self.row.status()
    }

    /// How many inputs the build had.
    pub fn used_count(&self) -> usize
        ensures { result ≡ length self.now.used }
    {
        self.used.len()
    }

    /// An input of the build, counted from 0 in ascending order of the names: its name, and the scope and the place
    /// that it was given. None past the last.
    pub fn used(&self, index: usize) -> Option<(&str, u32, u32)>
        ensures { option_map (λ u. record { input = u.0.now; scope = u.1; place = u.2 }) result
            ≡ slice_get self.now.used index }
    {
        let used = self.used.get(index)?;
        Some((self.inputs.get(used.input), used.scope, used.place))
    }

    /// What the build moved, pairs of scope and place in ascending order. Empty while it runs.
    pub fn moved(&self) -> &[(u32, u32)]
        ensures { result.now ≡ self.now.moved }
    {
        self.row.moved()
    }
}
