//! A history that a storage keeps.
ghost use Rattle.std.specs.Prelude.{◌≢◌};
ghost use Rattle.std.specs.List.{AllByRecursion};
ghost use Rattle.ccr_history.specs.Changes.{AreUsed, AreMoved, Admits};
ghost use Rattle.ccr_history.specs.Edits.{edit_data, HasItsNumbers};
ghost use Rattle.ccr_history.specs.TextMap.{IsAscending};
ghost use Rattle.ccr_history.specs.declared.build.Status.TheVariants.{Running};

use anyhow::{Result, bail};
use ccr_history::{
    Edit, Ended, History, HistoryFault, Made, Pin, Scope, Status, Storage, Used, Version,
};
use std::alloc::Global;
use std::snapshot::Snapshot;

/// A history, and the storage that keeps it.
#[derive(Drop)]
pub(super) struct Kept<S: Storage> {
    pub(super) history: History,
    pub(super) storage: S,
}

/// Each version has its keys in order. Nothing runs.
fn versions_ascend(versions: &[Version])
    ensures { AllByRecursion IsAscending versions.now }
{
    for version in versions {
        version.rules();
    }
}

impl<S: Storage + Drop> Kept<S> {
    /// Has the storage write a change that the history has made just now.
    fn commit(&mut self, alloc: Global, before: Snapshot<History>, edit: Edit) -> Result<()>
        requires takes { Admits before.value (edit_data edit) }
        requires numbered { HasItsNumbers before.value edit }
    {
        let mut change = Vec::new(alloc);
        change.push(edit)?;
        self.storage.commit(alloc, &change)?;
        Ok(())
    }

    /// Sets the text of the pipeline.
    pub(super) fn set_text(&mut self, alloc: Global, text: &[u8]) -> Result<()> {
        let before = Snapshot::of(&self.history);
        self.history.set_text(Vec::from_slice(alloc, text)?);
        self.commit(alloc, before, Edit::Text(Vec::from_slice(alloc, text)?))
    }

    /// Reports versions, unless they have no place in the table.
    pub(super) fn report(&mut self, alloc: Global, scope: Scope, seen: Vec<Version>) -> Result<()> {
        let before = Snapshot::of(&self.history);
        match self.history.report(alloc, scope, &seen) {
            Ok(reported) => {
                versions_ascend(&reported.versions);
                self.commit(alloc, before, Edit::Versions(reported))
            }
            Err(HistoryFault::TableFull) => Ok(()),
            Err(fault) => Err(fault.into()),
        }
    }

    /// Makes a build, and gives its number.
    pub(super) fn add_build(&mut self, alloc: Global, job: &str, used: Vec<Used>) -> Result<u32>
        requires used { AreUsed self.old.history.tables used.items }
    {
        if self.history.build_count() >= 1_000_000 {
            bail!("too many builds")
        }
        let before = Snapshot::of(&self.history);
        let row = self.history.build_count() as u32 + 1;
        let number = self.history.add_build(alloc, job, &used)?;
        let made = Made {
            row,
            job: String::from_str(alloc, job)?,
            number,
            used,
        };
        self.commit(alloc, before, Edit::Build(made))?;
        Ok(number)
    }

    /// Ends a build that runs, with the pairs that it moved.
    pub(super) fn end_build(
        &mut self,
        alloc: Global,
        job: &str,
        number: u32,
        status: Status,
        moved: &[(u32, u32)],
    ) -> Result<()>
        requires over { status ≢ Running }
        requires moved { AreMoved self.old.history.tables moved.now }
    {
        let before = Snapshot::of(&self.history);
        let row = self.history.row_of(job, number);
        let given = Vec::from_slice(alloc, moved)?;
        self.history.end_build_with(job, number, status, given)?;
        let ended = Ended {
            row,
            job: String::from_str(alloc, job)?,
            number,
            status,
            moved: Vec::from_slice(alloc, moved)?,
        };
        self.commit(alloc, before, Edit::Ended(ended))
    }

    /// Pins a resource by command.
    pub(super) fn set_pin(&mut self, alloc: Global, resource: &str, pin: Pin) -> Result<()> {
        let before = Snapshot::of(&self.history);
        pin.rules();
        self.history.set_pin(alloc, resource, pin.copy()?)?;
        self.commit(
            alloc,
            before,
            Edit::PinSet(String::from_str(alloc, resource)?, pin),
        )
    }

    /// Clears the pin by command of a resource.
    pub(super) fn clear_pin(&mut self, alloc: Global, resource: &str) -> Result<()> {
        let before = Snapshot::of(&self.history);
        self.history.clear_pin(resource);
        self.commit(
            alloc,
            before,
            Edit::PinCleared(String::from_str(alloc, resource)?),
        )
    }
}
