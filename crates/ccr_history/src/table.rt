//! Version tables.
ghost use Rattle.std.specs.Prelude.{◌≡◌, ◌-◌, ◌<◌, ◌≤◌, [], length, take, IfOk, IfErr, OnOk, OnErr, IsTrue, IsErrOf};
ghost use Rattle.ccr_history.specs.Faults.{is_fault_of_report};
ghost use Rattle.ccr_history.specs.Tables.{with_version, with_versions, place_in, AreVersions};

use crate::fault::HistoryFault;
use crate::version::Version;
use indexmap::IndexSet;
use std::alloc::{AllocError, Global};
use std::marker::Model;

/// At most so many versions are kept of one scope.
pub const MOST_VERSIONS: usize = 100_000;
/// At most so many scopes are kept.
pub const MOST_SCOPES: usize = 1_000_000;

/// The versions of one scope, each once, in order of first report. A version's place is its position, from 1.
#[derive(Drop)]
pub(crate) struct Table {
    versions: IndexSet<Version>,
}

impl Model for Table {
    ghost use Rattle.std.specs.Prelude.{List};
    ghost use Rattle.ccr_history.specs.TextMap.{TextMap};
    ghost use Rattle.ccr_history.specs.Tables.{AreVersions};

    ghost Value = { List TextMap };

    ghost view = { λ t. t.versions.keys };

    ghost invariant = { λ t. AreVersions t.versions.keys };
}

impl Table {
    /// A table without versions.
    pub(crate) fn new(alloc: Global) -> Table
        ensures { result ≡ [] }
    {
        Table {
            versions: IndexSet::new(alloc),
        }
    }

    /// How many versions there are.
    pub(crate) fn len(&self) -> u32
        ensures { result ≡ length self.now }
    {
        self.versions.len() as u32
    }

    /// The versions, in order of their places.
    pub(crate) fn versions(&self) -> &[Version]
        ensures { result.now ≡ self.now }
    {
        self.versions.as_slice()
    }

    /// The place of a version; 0 where the table lacks it.
    pub(crate) fn place_of(&self, version: &Version) -> u32
        ensures { result ≡ place_in version.now self.now }
    {
        match self.versions.get_index_of(version) {
            Some(index) => index as u32 + 1,
            None => 0,
        }
    }

    /// Adds a version at the end, unless it is there. A refusal changes nothing.
    fn add(&mut self, version: &Version) -> Result<(), HistoryFault>
        ensures ok { OnOk result (self.new ≡ with_version self.old version.now) }
        ensures err { OnErr result (self.new ≡ self.old) }
        ensures full { IsErrOf result HistoryFault.TableFull
            → MOST_VERSIONS < length (with_version self.old version.now) }
        ensures only { IfErr result (λ fault. IsTrue (is_fault_of_report fault)) }
    {
        if self.versions.contains(version) {
            return Ok(());
        }
        if self.versions.len() >= MOST_VERSIONS {
            return Err(HistoryFault::TableFull);
        }
        self.versions.insert(version.clone()?)?;
        Ok(())
    }

    /// Adds versions one after the other. At a refusal those before it have been added.
    fn add_each(&mut self, versions: &[Version]) -> Result<(), HistoryFault>
        ensures ok { OnOk result (self.new ≡ with_versions self.old versions.now) }
        ensures grew { take (length self.old) self.new ≡ self.old }
        ensures full { IsErrOf result HistoryFault.TableFull
            → MOST_VERSIONS < length (with_versions self.old versions.now) }
        ensures only { IfErr result (λ fault. IsTrue (is_fault_of_report fault)) }
    {
        for version in versions {
            self.add(version)?;
        }
        Ok(())
    }

    /// Adds those of the versions that the table lacks, in their order, and answers how many those were.
    ///
    /// `TableFull` where there would be too many versions. A refusal changes nothing. The work grows with the versions
    /// given, and not with the table.
    pub(crate) fn append(&mut self, versions: &[Version]) -> Result<u32, HistoryFault>
        ensures ok { OnOk result (self.new ≡ with_versions self.old versions.now) }
        ensures count { IfOk result (λ n. n ≡ length self.new - length self.old) }
        ensures err { OnErr result (self.new ≡ self.old) }
        ensures full { IsErrOf result HistoryFault.TableFull
            → MOST_VERSIONS < length (with_versions self.old versions.now) }
        ensures only { IfErr result (λ fault. IsTrue (is_fault_of_report fault)) }
        ensures longer { length self.old ≤ length self.new }
        ensures kept { AreVersions self.new }
    {
        let before = self.versions.len();
        match self.add_each(versions) {
            Ok(()) => Ok((self.versions.len() - before) as u32),
            Err(fault) => {
                self.versions.truncate(before);
                Err(fault)
            }
        }
    }

    /// Keeps so many of the versions, those that came first.
    pub(crate) fn truncate(&mut self, count: u32)
        ensures is { self.new ≡ take count self.old }
        ensures kept { AreVersions self.new }
    {
        self.versions.truncate(count as usize);
    }
}

impl Clone for Table {
    ghost is_clone = { λ table copy. copy ≡ table };

    fn clone(&self) -> Result<Table, AllocError> {
        Ok(Table {
            versions: self.versions.clone()?,
        })
    }
}
