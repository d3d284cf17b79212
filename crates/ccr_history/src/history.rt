//! Histories: what has been seen, what was built, and what is set.
ghost use Rattle.std.specs.Prelude.{◌≡◌, ◌≢◌, ◌↔◌, ◌⊎◌, ◌+◌, List, length, slice_get, false, None, is_some, not, option_map, option_copied, IsTrue, IsOk, IsErrOf, IfOk, IfErr, IfSome, IfNone, OnOk, OnErr};
ghost use Rattle.ccr_history.specs.declared.build.Status.TheVariants.{Running};
ghost use Rattle.ccr_history.specs.TextMap.{TextMap};
ghost use Rattle.ccr_history.specs.Tables.{versions_of, new_count, is_table_full, scope_number, place_in, at_place, versions_at};
ghost use Rattle.ccr_history.specs.Builds.{build_of, is_build_of, count_of, positions_of, has_used, HasEnded};
ghost use Rattle.ccr_history.specs.Newest.{newest_used};
ghost use Rattle.ccr_history.specs.Orderly.{IsOnly};
ghost use Rattle.ccr_history.specs.Pairs.{has_pair};
ghost use Rattle.ccr_history.specs.History.{HistoryData, no_history, IsHistory, has_place};
ghost use Rattle.ccr_history.specs.Changes.{text, versions, build, ended, pin_set, pin_cleared, disabled, enabled, edited, pin_of, AreUsed, AreMoved, IsRunning};
ghost use Rattle.ccr_history.specs.Faults.{is_fault_of_report, is_fault_of_add, is_fault_of_end};

use crate::build::{Status, Used};
use crate::build_ref::BuildRef;
use crate::builds::{Builds, MOST_BUILDS};
use crate::fault::HistoryFault;
use crate::pair_set::PairSet;
use crate::pin::Pin;
use crate::pins::Pins;
use crate::scope::Scope;
use crate::tables::Tables;
use crate::version::Version;
use std::alloc::{AllocError, Global};
use std::marker::Model;

/// What has been seen of the resources, what was built, the pins by command, and the pipeline's text, if one was set.
///
/// A scope's number is its position among the scopes, from 1 in order of first report. A version's place is its position
/// in its scope's table, from 1 in order of first report.
///
/// A refused call leaves the history as it was. What it was given by value isn't handed back.
#[derive(Drop)]
pub struct History {
    tables: Tables,
    builds: Builds,
    pins: Pins,
    disabled: PairSet,
    text: Option<Vec<u8>>,
}

impl Model for History {
    ghost use Rattle.std.specs.Prelude.{option_map};
    ghost use Rattle.ccr_history.specs.History.{HistoryData, IsHistory};

    ghost Value = { HistoryData };

    ghost view = { λ h. record {
      tables = h.tables;
      builds = h.builds;
      pins = h.pins;
      disabled = h.disabled;
      text = option_map (λ t. t.items) h.text;
    } };

    ghost invariant = { λ h. IsHistory (record {
      tables = h.tables;
      builds = h.builds;
      pins = h.pins;
      disabled = h.disabled;
      text = option_map (λ t. t.items) h.text;
    }) };
}

// ---- changes
impl History {
    /// Nothing seen, nothing built, nothing set.
    pub fn new(alloc: Global) -> History
        ensures { result ≡ no_history }
    {
        History {
            tables: Tables::new(alloc),
            builds: Builds::new(alloc),
            pins: Pins::new(alloc),
            disabled: PairSet::new(alloc),
            text: None,
        }
    }

    /// Reports versions of a scope: those that it lacks come to the end of its table, in the order of the report. Gives
    /// how many those were. Without versions nothing changes.
    ///
    /// - `TableFull` if the scope would have more than 100,000 versions, or be the 1,000,001st scope.
    /// - `NoMemory` if out of memory.
    pub fn append_versions(
        &mut self,
        alloc: Global,
        scope: &Scope,
        seen: &[Version],
    ) -> Result<u32, HistoryFault>
        ensures ok { OnOk result (self.new ≡ edited (versions scope.now seen.now) self.old) }
        ensures count { IfOk result (λ n. n ≡ new_count scope.now seen.now self.old.tables) }
        ensures fits { OnOk result (is_table_full scope.now seen.now self.old.tables ≡ false) }
        ensures full { IsErrOf result HistoryFault.TableFull
            → IsTrue (is_table_full scope.now seen.now self.old.tables) }
        ensures err { OnErr result (self.new ≡ self.old) }
        ensures only { IfErr result (λ fault. IsTrue (is_fault_of_report fault)) }
    {
        self.tables.append(alloc, scope, seen)
    }

    /// Takes back the last report, which had so many new versions of this scope. It takes no memory.
    ///
    /// The caller has changed nothing since.
    pub(crate) fn take_back_last(&mut self, scope: &Scope, count: u32)
        requires { (before : HistoryData) × (seen : List TextMap) × IsHistory before
            × (self.old ≡ edited (versions scope.now seen) before) × (count ≡ new_count scope.now seen before.tables) }
        ensures { (before : HistoryData) (seen : List TextMap) → IsHistory before
            → self.old ≡ edited (versions scope.now seen) before → count ≡ new_count scope.now seen before.tables
            → self.new ≡ before }
    {
        self.tables.take_back(scope, count);
    }

    /// Makes a build of a job, and gives its number: one more than the number of builds that the job had.
    ///
    /// The caller gives each input once, by a name that isn't empty, with a place of the tables.
    ///
    /// - `BuildsFull` if there are 1,000,000 builds.
    /// - `NoMemory` if out of memory.
    pub fn add_build(
        &mut self,
        alloc: Global,
        job: &str,
        used: &[Used],
    ) -> Result<u32, HistoryFault>
        requires { AreUsed self.old.tables used.now }
        ensures ok { OnOk result (self.new ≡ edited (build job.now used.now) self.old) }
        ensures number { IfOk result (λ n. n ≡ count_of job.now self.old.builds + 1) }
        ensures full { IsErrOf result HistoryFault.BuildsFull ↔ (length self.old.builds ≡ MOST_BUILDS) }
        ensures err { OnErr result (self.new ≡ self.old) }
        ensures only { IfErr result (λ fault. IsTrue (is_fault_of_add fault)) }
    {
        self.builds.add(alloc, job, used)
    }

    /// Ends the job's build of this number, which moved these pairs of scope and place.
    ///
    /// The caller gives each pair once, a place of the tables, and a status other than `Running`.
    ///
    /// - `NoBuild` if the job has no build of this number.
    /// - `AlreadyEnded` if the build has ended before.
    /// - `NoMemory` if out of memory.
    pub fn end_build(
        &mut self,
        alloc: Global,
        job: &str,
        number: u32,
        status: Status,
        moved: &[(u32, u32)],
    ) -> Result<(), HistoryFault>
        requires over { status ≢ Running }
        requires moved { AreMoved self.old.tables moved.now }
        ensures ok { OnOk result (self.new ≡ edited (ended job.now number status moved.now) self.old) }
        ensures no_build { IsErrOf result HistoryFault.NoBuild ↔ (build_of job.now number self.old.builds ≡ None) }
        ensures already { IsErrOf result HistoryFault.AlreadyEnded ↔ HasEnded job.now number self.old.builds }
        ensures err { OnErr result (self.new ≡ self.old) }
        ensures only { IfErr result (λ fault. (fault ≡ HistoryFault.NoMemory) ⊎ IsTrue (is_fault_of_end fault)) }
    {
        self.builds.end(alloc, job, number, status, moved)
    }

    /// Ends the job's build of this number as `end_build` does, with the pairs by value. It takes no memory.
    pub fn end_build_with(
        &mut self,
        job: &str,
        number: u32,
        status: Status,
        moved: Vec<(u32, u32)>,
    ) -> Result<(), HistoryFault>
        requires over { status ≢ Running }
        requires moved { AreMoved self.old.tables moved.items }
        ensures ok { OnOk result (self.new ≡ edited (ended job.now number status moved.items) self.old) }
        ensures running { IsOk result ↔ IsRunning job.now number self.old.builds }
        ensures no_build { IsErrOf result HistoryFault.NoBuild ↔ (build_of job.now number self.old.builds ≡ None) }
        ensures already { IsErrOf result HistoryFault.AlreadyEnded ↔ HasEnded job.now number self.old.builds }
        ensures err { OnErr result (self.new ≡ self.old) }
        ensures only { IfErr result (λ fault. IsTrue (is_fault_of_end fault)) }
    {
        self.builds.end_with(job, number, status, moved)
    }

    /// Pins a resource by command. A pin by command that it had is replaced.
    ///
    /// `NoMemory` if out of memory.
    pub fn set_pin(&mut self, alloc: Global, resource: &str, pin: Pin) -> Result<(), HistoryFault>
        ensures ok { OnOk result (self.new ≡ edited (pin_set resource.now pin) self.old) }
        ensures err { OnErr result (self.new ≡ self.old) }
        ensures only { IfErr result (λ fault. fault ≡ HistoryFault.NoMemory) }
    {
        self.pins.set(alloc, resource, pin)?;
        Ok(())
    }

    /// Clears the pin by command of a resource, and says whether it had one. It takes no memory.
    pub fn clear_pin(&mut self, resource: &str) -> bool
        ensures cleared { self.new ≡ edited (pin_cleared resource.now) self.old }
        ensures had { result ≡ is_some (pin_of resource.now self.old.pins) }
    {
        self.pins.clear(resource)
    }

    /// Sets the text of the pipeline.
    pub fn set_text(&mut self, bytes: Vec<u8>)
        ensures { self.new ≡ edited (text bytes.items) self.old }
    {
        self.text = Some(bytes);
    }

    /// Disables a place of the scope of this number, as `disable` does: whether it wasn't disabled before.
    ///
    /// The caller gives a place of the tables. `AllocError` if out of memory.
    pub fn disable_place(&mut self, number: u32, place: u32) -> Result<bool, AllocError>
        requires { IsTrue (has_place self.old.tables number place) }
        ensures ok { OnOk result (self.new ≡ edited (disabled number place) self.old) }
        ensures is_changed { IfOk result (λ b. b ≡ not (has_pair (number, place) self.old.disabled)) }
        ensures err { OnErr result (self.new ≡ self.old) }
    {
        self.disabled.add((number, place))
    }

    /// Enables a place of the scope of this number: whether it was disabled before. It takes no memory.
    pub(crate) fn enable_place(&mut self, number: u32, place: u32) -> bool
        ensures enabled { self.new ≡ edited (enabled number place) self.old }
        ensures is_changed { result ≡ has_pair (number, place) self.old.disabled }
    {
        self.disabled.remove((number, place))
    }

    /// A copy of the history.
    pub fn copy(&self, alloc: Global) -> Result<History, AllocError>
        ensures { IfOk result (λ history. history ≡ self.now) }
    {
        let text = match &self.text {
            Some(text) => Some(Vec::from_slice(alloc, text)?),
            None => None,
        };
        Ok(History {
            tables: self.tables.copy()?,
            builds: self.builds.copy(alloc)?,
            pins: self.pins.copy(alloc)?,
            disabled: self.disabled.copy(alloc)?,
            text,
        })
    }
}

// ---- readers, which take no memory
impl History {
    /// Every history keeps the rules of histories. Nothing runs.
    pub fn rules(&self)
        ensures { IsHistory self.now }
    {
        let _text = self.text();
    }

    /// The text of the pipeline, if one was set.
    pub fn text(&self) -> Option<&[u8]>
        ensures is { option_copied result ≡ self.now.text }
        ensures kept { IsHistory self.now }
    {
        match &self.text {
            Some(text) => Some(text),
            None => None,
        }
    }

    /// The pin by command of a resource, if it has one.
    pub fn pin(&self, resource: &str) -> Option<&Pin>
        ensures { option_copied result ≡ pin_of resource.now self.now.pins }
    {
        self.pins.get(resource)
    }

    /// The pins by command.
    pub fn pins(&self) -> &Pins
        ensures { result.now ≡ self.now.pins }
    {
        &self.pins
    }

    /// How many scopes there are.
    pub fn scope_count(&self) -> u32
        ensures is { result ≡ length self.now.tables }
        ensures kept { IsHistory self.now }
    {
        self.tables.len()
    }

    /// The number of a scope; 0 where nothing was reported of it.
    pub fn scope_number(&self, scope: &Scope) -> u32
        ensures { result ≡ scope_number scope.now self.now.tables }
    {
        self.tables.scope_number(scope)
    }

    /// The scope of this number, if there are so many.
    pub fn scope_at(&self, number: u32) -> Option<&Scope>
        ensures { option_copied result ≡ option_map (λ t. t.scope) (at_place number self.now.tables) }
    {
        self.tables.scope_at(number)
    }

    /// The versions of a scope, in order of their places.
    pub fn versions(&self, scope: &Scope) -> &[Version]
        ensures { result.now ≡ versions_of scope.now self.now.tables }
    {
        self.tables.versions(scope)
    }

    /// The versions of the scope of this number, in order of their places; none where there is no such scope.
    pub fn versions_at(&self, number: u32) -> &[Version]
        ensures { result.now ≡ versions_at number self.now.tables }
    {
        self.tables.versions_at(number)
    }

    /// The version at a place of the scope of this number, if there is one.
    pub fn version_at(&self, number: u32, place: u32) -> Option<&Version>
        ensures { option_copied result ≡ at_place place (versions_at number self.now.tables) }
    {
        self.tables.version_at(number, place)
    }

    /// The place of a version in its scope's table; 0 where it isn't there.
    pub fn place_of(&self, scope: &Scope, version: &Version) -> u32
        ensures { result ≡ place_in version.now (versions_of scope.now self.now.tables) }
    {
        self.tables.place_of(scope, version)
    }

    /// Whether the scope of this number has this place.
    pub fn has_place(&self, number: u32, place: u32) -> bool
        ensures { result ≡ has_place self.now.tables number place }
    {
        self.tables.has_place(number, place)
    }

    /// Whether this place of the scope of this number is disabled.
    pub fn is_disabled(&self, number: u32, place: u32) -> bool
        ensures { result ≡ has_pair (number, place) self.now.disabled }
    {
        self.disabled.has((number, place))
    }

    /// The disabled places, pairs of scope and place in ascending order.
    pub fn disabled(&self) -> &[(u32, u32)]
        ensures { result.now ≡ self.now.disabled }
    {
        self.disabled.as_slice()
    }

    /// How many builds there are, of all jobs.
    pub fn build_count(&self) -> usize
        ensures is { result ≡ length self.now.builds }
        ensures kept { IsHistory self.now }
    {
        self.builds.len()
    }

    /// The build at a position, counted from 0 in order of making, if there are so many.
    pub fn build_at(&self, position: usize) -> Option<BuildRef<'_>>
        ensures { result ≡ slice_get self.now.builds position }
    {
        self.builds.at(position)
    }

    /// The job's build of this number, if there is one.
    pub fn build(&self, job: &str, number: u32) -> Option<BuildRef<'_>>
        ensures { result ≡ build_of job.now number self.now.builds }
    {
        self.builds.build(job, number)
    }

    /// The positions of a job's builds, oldest first.
    pub fn builds_of(&self, job: &str) -> &[u32]
        ensures { result.now ≡ positions_of job.now self.now.builds }
    {
        self.builds.builds_of(job)
    }

    /// Where the job's build of this number is, counted from 0 in order of making, if there is one.
    pub(crate) fn position_of(&self, job: &str, number: u32) -> Option<usize>
        ensures only { IfSome result (IsOnly (is_build_of job.now number) self.now.builds) }
        ensures none { IfNone result (build_of job.now number self.now.builds ≡ None) }
        ensures kept { IsHistory self.now }
    {
        self.builds.position_of(job, number)
    }

    /// How many builds of a job were made.
    pub fn count_of(&self, job: &str) -> u32
        ensures { result ≡ count_of job.now self.now.builds }
    {
        self.builds.count_of(job)
    }

    /// Whether a build of the job, of whatever status, used this place for this input.
    pub fn has_used(&self, job: &str, input: &str, scope: u32, place: u32) -> bool
        ensures { result
            ≡ has_used job.now (record { input = input.now; scope = scope; place = place }) self.now.builds }
    {
        self.builds.has_used(job, input, scope, place)
    }

    /// The place that the newest build of the job, of whatever status, which used this input in this scope had.
    pub fn newest_used(&self, job: &str, input: &str, scope: u32) -> Option<u32>
        ensures { result ≡ newest_used job.now input.now scope self.now.builds }
    {
        self.builds.newest_used(job, input, scope)
    }
}
