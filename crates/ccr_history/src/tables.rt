//! The version tables of a history, in order of making.
ghost use Rattle.std.specs.Prelude.{◌≡◌, ◌<◌, [], length, false, option_map, option_copied, IfOk, IfErr, OnOk, OnErr, IsTrue, IsErrOf, List};
ghost use Rattle.ccr_history.specs.TextMap.{TextMap};
ghost use Rattle.ccr_history.specs.Faults.{is_fault_of_report};
ghost use Rattle.ccr_history.specs.Tables.{TableData, table_of, reported, versions_of, new_count, is_table_full, scope_number, place_in, at_place, versions_at};
ghost use Rattle.ccr_history.specs.History.{AreTables, has_place};

use crate::fault::HistoryFault;
use crate::scope::Scope;
use crate::table::{MOST_SCOPES, Table};
use crate::version::Version;
use indexmap::IndexMap;
use std::alloc::{AllocError, Global};
use std::marker::Model;

/// Version tables, each of its own scope. A scope's number is its position, from 1 in order of making.
#[derive(Drop)]
pub(crate) struct Tables {
    tables: IndexMap<Scope, Table>,
}

impl Model for Tables {
    ghost use Rattle.std.specs.Prelude.{List};
    ghost use Rattle.ccr_history.specs.Tables.{TableData, tables_of};
    ghost use Rattle.ccr_history.specs.History.{AreTables};

    ghost Value = { List TableData };

    ghost view = { λ t. tables_of t.tables.entries };

    ghost invariant = { λ t. AreTables (tables_of t.tables.entries) };
}

impl Tables {
    /// No tables.
    pub(crate) fn new(alloc: Global) -> Tables
        ensures { result ≡ [] }
    {
        Tables {
            tables: IndexMap::new(alloc),
        }
    }

    /// How many tables there are.
    pub(crate) fn len(&self) -> u32
        ensures len { result ≡ length self.now }
        ensures kept { AreTables self.now }
    {
        self.tables.len() as u32
    }

    /// The number of a scope; 0 where it has no table.
    pub(crate) fn scope_number(&self, scope: &Scope) -> u32
        ensures { result ≡ scope_number scope.now self.now }
    {
        match self.tables.get_index_of(scope) {
            Some(index) => index as u32 + 1,
            None => 0,
        }
    }

    /// The versions of a scope, in order of their places; none where it has no table.
    pub(crate) fn versions(&self, scope: &Scope) -> &[Version]
        ensures { result.now ≡ versions_of scope.now self.now }
    {
        match self.tables.get(scope) {
            Some(table) => table.versions(),
            None => &[],
        }
    }

    /// The place of a version in its scope's table; 0 where it isn't there.
    pub(crate) fn place_of(&self, scope: &Scope, version: &Version) -> u32
        ensures { result ≡ place_in version.now (versions_of scope.now self.now) }
    {
        match self.tables.get(scope) {
            Some(table) => table.place_of(version),
            None => 0,
        }
    }

    /// The scope and the table of this number, if there are so many.
    fn table(&self, number: u32) -> Option<(&Scope, &Table)>
        ensures { option_map (λ t. table_of (t.0.now, t.1.now)) result ≡ at_place number self.now }
    {
        self.tables.get_index((number as usize).checked_sub(1)?)
    }

    /// The scope of this number, if there are so many.
    pub(crate) fn scope_at(&self, number: u32) -> Option<&Scope>
        ensures { option_copied result ≡ option_map (λ t. t.scope) (at_place number self.now) }
    {
        let (scope, _) = self.table(number)?;
        Some(scope)
    }

    /// The versions of the scope of this number, in order of their places; none where there is no such scope.
    pub(crate) fn versions_at(&self, number: u32) -> &[Version]
        ensures { result.now ≡ versions_at number self.now }
    {
        match self.table(number) {
            Some((_, table)) => table.versions(),
            None => &[],
        }
    }

    /// The version at a place of the scope of this number, if there is one.
    pub(crate) fn version_at(&self, number: u32, place: u32) -> Option<&Version>
        ensures { option_copied result ≡ at_place place (versions_at number self.now) }
    {
        let index = (place as usize).checked_sub(1)?;
        self.versions_at(number).get(index)
    }

    /// Whether the scope of this number has this place.
    pub(crate) fn has_place(&self, number: u32, place: u32) -> bool
        ensures { result ≡ has_place self.now number place }
    {
        place > 0 && place as usize <= self.versions_at(number).len()
    }

    /// Adds those of the versions that the scope's table lacks, in their order, and answers how many those were.
    /// A scope without a table gets one at the end. Without versions nothing changes.
    ///
    /// `TableFull` where the scope would have too many versions, or be one scope too many. A refusal changes nothing.
    /// The work grows with the versions given, and not with the tables.
    pub(crate) fn append(
        &mut self,
        alloc: Global,
        scope: &Scope,
        versions: &[Version],
    ) -> Result<u32, HistoryFault>
        ensures ok { OnOk result (self.new ≡ reported scope.now versions.now self.old) }
        ensures count { IfOk result (λ n. n ≡ new_count scope.now versions.now self.old) }
        ensures fits { OnOk result (is_table_full scope.now versions.now self.old ≡ false) }
        ensures full { IsErrOf result HistoryFault.TableFull
            → IsTrue (is_table_full scope.now versions.now self.old) }
        ensures err { OnErr result (self.new ≡ self.old) }
        ensures only { IfErr result (λ fault. IsTrue (is_fault_of_report fault)) }
        ensures kept { AreTables self.new }
    {
        let found = self.tables.get_index_of(scope);
        if versions.is_empty() {
            return Ok(0);
        }
        match found {
            Some(index) => self.tables[index].append(versions),
            None => self.add_table(alloc, scope, versions),
        }
    }

    /// Adds a table at the end, for a scope that has none.
    fn add_table(
        &mut self,
        alloc: Global,
        scope: &Scope,
        versions: &[Version],
    ) -> Result<u32, HistoryFault>
        requires new { scope_number scope.now self.old ≡ 0 }
        requires some { 0 < length versions.now }
        ensures ok { OnOk result (self.new ≡ reported scope.now versions.now self.old) }
        ensures count { IfOk result (λ n. n ≡ new_count scope.now versions.now self.old) }
        ensures fits { OnOk result (is_table_full scope.now versions.now self.old ≡ false) }
        ensures full { IsErrOf result HistoryFault.TableFull
            → IsTrue (is_table_full scope.now versions.now self.old) }
        ensures err { OnErr result (self.new ≡ self.old) }
        ensures only { IfErr result (λ fault. IsTrue (is_fault_of_report fault)) }
        ensures kept { AreTables self.new }
    {
        if self.tables.len() >= MOST_SCOPES {
            return Err(HistoryFault::TableFull);
        }
        let mut table = Table::new(alloc);
        let count = table.append(versions)?;
        self.tables.insert(scope.copy()?, table)?;
        Ok(count)
    }

    /// Takes back so many versions of a scope, those that came last, and its table with the last of them. So a report is
    /// undone by the number that `append` answered. No memory is taken.
    pub(crate) fn take_back(&mut self, scope: &Scope, count: u32)
        ensures back { (tables : List TableData) (versions : List TextMap) → AreTables tables
            → self.old ≡ reported scope.now versions tables → count ≡ new_count scope.now versions tables
            → self.new ≡ tables }
        ensures kept { AreTables self.new }
    {
        let Some(index) = self.tables.get_index_of(scope) else {
            return;
        };
        let left = self.tables[index].len().saturating_sub(count);
        if left == 0 {
            self.tables.shift_remove(scope);
        } else {
            self.tables[index].truncate(left);
        }
    }

    /// A copy of the tables.
    pub(crate) fn copy(&self) -> Result<Tables, AllocError>
        ensures { IfOk result (λ tables. tables ≡ self.now) }
    {
        Ok(Tables {
            tables: self.tables.clone()?,
        })
    }
}
