//! A history, made of rows by its own calls.
ghost use Rattle.std.specs.Prelude.{◌≡◌, ◌≢◌, ◌+◌, ◌^◌, ◌<◌, ◌≤◌, ◌++◌, ℕ, List, [], ◌∷◌, pos, length, map, false, Option, None, Some, IfSome, IfErr, OnOk, IsUtf8, option_copied};
ghost use Rattle.std.specs.List.{AllByRecursion};
ghost use Rattle.sqlite.specs.declared.types.Value.TheVariants.{Int, Text};
ghost use Rattle.sqlite.specs.Order.{Row as RowData, column};
ghost use Rattle.serde_json.specs.Data.{object};
ghost use Rattle.serde_json.specs.View.{view};
ghost use Rattle.ccr_history.specs.TextMap.{TextMap, members_of, key_text};
ghost use Rattle.ccr_history.specs.Scopes.{ScopeData, is_scope};
ghost use Rattle.ccr_history.specs.Tables.{TableData, is_table_full};
ghost use Rattle.ccr_history.specs.Builds.{UsedData, BuildData, new_build, build_of, count_of};
ghost use Rattle.ccr_history.specs.History.{HistoryData, IsHistory, IsTable, IsBuild, AreTables, AreBuilds, ArePins, no_history};
ghost use Rattle.ccr_history.specs.Changes.{versions, build, ended, pin_set, text, edited, AreUsed, AreMoved, IsRunning};
ghost use Rattle.ccr_history.specs.declared.build.Status.{Status as StatusData};
ghost use Rattle.ccr_history.specs.declared.build.Status.TheVariants.{Running};
ghost use Rattle.ccr_history.specs.declared.table.TheConstants.{MOST_SCOPES};
ghost use Rattle.ccr_history.specs.declared.builds.TheConstants.{MOST_BUILDS};
ghost use Rattle.ccr_history.specs.declared.store_fault.StoreFault.TheVariants.{NoMemory, NotOurs};
ghost use Rattle.ccr_store.specs.Listed.{listed_pairs, ListsSeen, ListsBuilt, KeepsSeen, without_builds};
ghost use Rattle.ccr_store.specs.Readable.{IsReadable};
ghost use Rattle.ccr_store.specs.Rows.{meta_rows, text_row, scope_row, scope_rows, version_rows, table_rows, status_number, build_row, build_rows, used_row, moved_row, pin_row};
ghost use Rattle.ccr_store.specs.declared.format.Format.{Format};
ghost use Rattle.ccr_store.specs.Texts.{IsSpelled, IsTextTable, IsTextBuild, IsTextPin, HasTexts, OrNoMemory};

use crate::columns::{has_no_input, is_number, is_of, read_column};
use crate::disabled::add_disabled;
use crate::found::{Built, Seen};
use ccr_history::{History, HistoryFault, Pin, Scope, Status, StoreFault, Used, Version};
use ccr_pipeline::{ReadFault, read};
use ccr_tables::NamedRow;
use serde_json::Value;
use sqlite::Row;
use std::alloc::Global;

/// Out of memory stays so; for every other reason the rows are no history's.
fn fault_of(fault: HistoryFault) -> StoreFault
    ensures { fault ≡ HistoryFault.NoMemory → result ≡ NoMemory }
{
    match fault {
        HistoryFault::NoMemory => StoreFault::NoMemory,
        _ => StoreFault::NotOurs,
    }
}

/// The JSON value that a column spells.
fn read_value(alloc: Global, row: &Row, at: usize) -> Result<Value, StoreFault>
    ensures { (v : TextMap) → IsSpelled v → at < length row.now → column row.now at ≡ Text (key_text v)
        → OrNoMemory (λ value. view value ≡ object (members_of v)) result }
{
    let text: String = read_column(row, at)?;
    match Value::from_str(alloc, text.as_str()) {
        Ok(value) => Ok(value),
        Err(error) if error.is_memory() => Err(StoreFault::NoMemory),
        Err(_) => Err(StoreFault::NotOurs),
    }
}

/// How many of the first rows have this number in their first column.
fn id_count(rows: &[Row], id: u32) -> usize
    ensures within { result ≤ length rows.now }
    ensures is { (here more : List RowData) → rows.now ≡ here ++ more
        → AllByRecursion (λ r. column r 0 ≡ Int (pos id)) here
        → AllByRecursion (λ r. column r 0 ≢ Int (pos id)) more → result ≡ length here }
{
    let mut count = 0;
    for row in rows {
        if !is_number(row, 0, id) {
            return count;
        }
        count += 1;
    }
    count
}

/// How many of the first pairs are of this build.
pub(crate) fn pair_count(pairs: &[NamedRow], build: u32) -> usize
    ensures within { result ≤ length pairs.now }
    ensures is { (here more : List RowData) → pairs.now ≡ here ++ more
        → AllByRecursion (λ r. column r 0 ≡ Int (pos build)) here
        → AllByRecursion (λ r. column r 0 ≢ Int (pos build)) more → result ≡ length here }
{
    let mut count = 0;
    for pair in pairs {
        if !is_of(pair, build) {
            return count;
        }
        count += 1;
    }
    count
}

/// How many of the first pairs have no input.
fn moved_count(pairs: &[NamedRow]) -> usize
    ensures within { result ≤ length pairs.now }
    ensures is { (here more : List RowData) → pairs.now ≡ here ++ more
        → AllByRecursion (λ r. column r 1 ≡ Text []) here
        → AllByRecursion (λ r. column r 1 ≢ Text []) more → result ≡ length here }
{
    let mut count = 0;
    for pair in pairs {
        if !has_no_input(pair) {
            return count;
        }
        count += 1;
    }
    count
}

// ---- what was seen
fn read_scope(row: &Row) -> Result<Scope, StoreFault>
    ensures { (id : ℕ) (s : ScopeData) → IsUtf8 s.resource → IsUtf8 s.kind → IsUtf8 s.source
        → row.now ≡ scope_row id s → OrNoMemory (λ scope. scope ≡ s) result }
{
    Ok(Scope {
        resource: read_column(row, 1)?,
        kind: read_column(row, 2)?,
        source: read_column(row, 3)?,
    })
}

#[tactic(auto, using(crate::proofs::ReadRows::map_again))]
fn read_version(alloc: Global, row: &Row) -> Result<Version, StoreFault>
    ensures { (v : TextMap) → IsSpelled v → 2 < length row.now → column row.now 2 ≡ Text (key_text v)
        → OrNoMemory (λ version. version ≡ v) result }
{
    let value = read_value(alloc, row, 2)?;
    match Version::from_value(alloc, &value) {
        Ok(version) => Ok(version),
        Err(fault) => Err(fault_of(fault)),
    }
}

fn read_versions(alloc: Global, rows: &[Row]) -> Result<Vec<Version>, StoreFault>
    ensures { (scope : ℕ) (vs : List TextMap) → AllByRecursion IsSpelled vs → rows.now ≡ version_rows scope 1 vs
        → OrNoMemory (λ versions. versions.items ≡ vs) result }
{
    let mut versions = Vec::new(alloc);
    for row in rows {
        versions.push(read_version(alloc, row)?)?;
    }
    Ok(versions)
}

fn report(
    alloc: Global,
    history: &mut History,
    scope: &Scope,
    seen: &[Version],
) -> Result<(), StoreFault>
    ensures { is_table_full scope.now seen.now history.old.tables ≡ false
        → OrNoMemory (λ _. history.new ≡ edited (versions scope.now seen.now) history.old) result }
{
    match history.append_versions(alloc, scope, seen) {
        Ok(_) => Ok(()),
        Err(fault) => Err(fault_of(fault)),
    }
}

/// Adds the scope of a row and its versions, and gives the rows of the scopes behind it.
fn add_table<'a>(
    alloc: Global,
    history: &mut History,
    row: &Row,
    rest: &'a [Row],
) -> Result<&'a [Row], StoreFault>
    ensures { (id : ℕ) (t : TableData) (ts : List TableData) → id < 2 ^ 32 → IsTable t → IsTextTable t
        → row.now ≡ scope_row id t.scope → rest.now ≡ table_rows id (t ∷ ts)
        → AllByRecursion (λ s. is_scope t.scope s.scope ≡ false) history.old.tables
        → length history.old.tables < MOST_SCOPES
        → OrNoMemory (λ more. (more.now ≡ table_rows (id + 1) ts)
        × (history.new ≡ record history.old { tables = history.old.tables ++ t ∷ [] })) result }
{
    let id = read_column(row, 0)?;
    let (here, more) = rest.split_at(id_count(rest, id));
    let scope = read_scope(row)?;
    let seen = read_versions(alloc, here)?;
    report(alloc, history, &scope, &seen)?;
    Ok(more)
}

fn add_tables(
    alloc: Global,
    history: &mut History,
    scopes: &[Row],
    bodies: &[Row],
) -> Result<(), StoreFault>
    ensures { (ts : List TableData) → AreTables ts → AllByRecursion IsTextTable ts → history.old.tables ≡ []
        → scopes.now ≡ scope_rows 1 ts → bodies.now ≡ table_rows 1 ts
        → OrNoMemory (λ _. history.new ≡ record history.old { tables = ts }) result }
{
    let mut rest = bodies;
    for row in scopes {
        rest = add_table(alloc, history, row, rest)?;
    }
    Ok(())
}

// ---- what was built
fn read_used(alloc: Global, pairs: &[NamedRow]) -> Result<Vec<Used>, StoreFault>
    ensures { (id : ℕ) (us : List UsedData) → pairs.now ≡ map (used_row id) us
        → OrNoMemory (λ used. used.items ≡ us) result }
{
    let mut used = Vec::new(alloc);
    for pair in pairs {
        let (_, input, scope, place) = pair.columns();
        used.push(Used {
            input: String::from_str(alloc, input)?,
            scope,
            place,
        })?;
    }
    Ok(used)
}

fn read_moved(alloc: Global, pairs: &[NamedRow]) -> Result<Vec<(u32, u32)>, StoreFault>
    ensures { (id : ℕ) (ps : List (ℕ × ℕ)) → pairs.now ≡ map (moved_row id) ps
        → OrNoMemory (λ moved. moved.items ≡ ps) result }
{
    let mut moved = Vec::new(alloc);
    for pair in pairs {
        let (_, _, scope, place) = pair.columns();
        moved.push((scope, place))?;
    }
    Ok(moved)
}

/// The status with which a build has ended, by its number.
fn end_of(number: u32) -> Option<Status>
    ensures ended { IfSome result (λ status. status ≢ Running) }
    ensures is { (s : StatusData) → s ≢ Running → number ≡ status_number s → result ≡ Some s }
{
    match number {
        1 => Some(Status::Succeeded),
        2 => Some(Status::Failed),
        3 => Some(Status::Errored),
        4 => Some(Status::Aborted),
        _ => None,
    }
}

/// Ends a build that has ended so.
fn end(
    alloc: Global,
    history: &mut History,
    job: &str,
    number: u32,
    status: Status,
    moved: &[(u32, u32)],
) -> Result<(), StoreFault>
    requires { status ≢ Running }
    ensures read { AreMoved history.old.tables moved.now → IsRunning job.now number history.old.builds
        → OrNoMemory (λ _. history.new ≡ edited (ended job.now number status moved.now) history.old) result }
    ensures kept { OnOk result (KeepsSeen history.old history.new) }
{
    if !history.can_move(moved) {
        return Err(StoreFault::NotOurs);
    }
    match history.end_build(alloc, job, number, status, moved) {
        Ok(()) => Ok(()),
        Err(fault) => Err(fault_of(fault)),
    }
}

/// Ends the last build, if its row says that it has ended.
fn end_build(
    alloc: Global,
    history: &mut History,
    row: &NamedRow,
    job: &str,
    number: u32,
    pairs: &[NamedRow],
) -> Result<(), StoreFault>
    ensures read { (id : ℕ) (b : BuildData) (before : List BuildData) → AreTables history.old.tables
        → IsBuild history.old.tables b → row.now ≡ build_row id b → pairs.now ≡ map (moved_row id) b.moved
        → job.now ≡ b.job → number ≡ b.number → build_of b.job b.number before ≡ None
        → history.old.builds ≡ before ++ new_build b.job b.number b.used ∷ []
        → OrNoMemory (λ _. history.new ≡ record history.old { builds = before ++ b ∷ [] }) result }
    ensures kept { OnOk result (KeepsSeen history.old history.new) }
{
    let (_, _, _, how) = row.columns();
    if how == 0 {
        return Ok(());
    }
    let Some(status) = end_of(how) else {
        return Err(StoreFault::NotOurs);
    };
    let moved = read_moved(alloc, pairs)?;
    end(alloc, history, job, number, status, &moved)
}

/// Makes a build of a job that may use these places.
fn begin(alloc: Global, history: &mut History, job: &str, used: &[Used]) -> Result<u32, StoreFault>
    ensures read { AreUsed history.old.tables used.now → length history.old.builds < MOST_BUILDS
        → OrNoMemory (λ number. (number ≡ count_of job.now history.old.builds + 1)
        × (history.new ≡ edited (build job.now used.now) history.old)) result }
    ensures kept { OnOk result (KeepsSeen history.old history.new) }
{
    if !history.can_use(used) {
        return Err(StoreFault::NotOurs);
    }
    match history.add_build(alloc, job, used) {
        Ok(number) => Ok(number),
        Err(fault) => Err(fault_of(fault)),
    }
}

/// Makes a build of a job that uses what these rows say.
fn begin_build(
    alloc: Global,
    history: &mut History,
    job: &str,
    pairs: &[NamedRow],
) -> Result<u32, StoreFault>
    ensures read { (id : ℕ) (b : BuildData) → AreTables history.old.tables → IsBuild history.old.tables b
        → IsTextBuild b → pairs.now ≡ map (used_row id) b.used → length history.old.builds < MOST_BUILDS
        → OrNoMemory (λ number. (number ≡ count_of job.now history.old.builds + 1)
        × (history.new ≡ edited (build job.now b.used) history.old)) result }
    ensures kept { OnOk result (KeepsSeen history.old history.new) }
{
    let used = read_used(alloc, pairs)?;
    begin(alloc, history, job, &used)
}

/// Adds the build of a row, with what it used and moved, and gives the pairs of the builds behind it.
fn add_build<'a>(
    alloc: Global,
    history: &mut History,
    row: &NamedRow,
    rest: &'a [NamedRow],
) -> Result<&'a [NamedRow], StoreFault>
    ensures read { (id : ℕ) (b : BuildData) (bs : List BuildData) → id < 2 ^ 32
        → IsBuild history.old.tables b → IsTextBuild b → row.now ≡ build_row id b
        → rest.now ≡ listed_pairs id (b ∷ bs) → b.number ≡ count_of b.job history.old.builds + 1
        → length history.old.builds < MOST_BUILDS
        → OrNoMemory (λ more. (more.now ≡ listed_pairs (id + 1) bs)
        × (history.new ≡ record history.old { builds = history.old.builds ++ b ∷ [] })) result }
    ensures kept { OnOk result (KeepsSeen history.old history.new) }
{
    history.rules();
    let (id, job, _, _) = row.columns();
    let (here, more) = rest.split_at(pair_count(rest, id));
    let (moved, used) = here.split_at(moved_count(here));
    let number = begin_build(alloc, history, job, used)?;
    end_build(alloc, history, row, job, number, moved)?;
    Ok(more)
}

fn add_builds(
    alloc: Global,
    history: &mut History,
    builds: &[NamedRow],
    pairs: &[NamedRow],
) -> Result<(), StoreFault>
    ensures read { (bs : List BuildData) → AreBuilds history.old.tables bs
        → AllByRecursion IsTextBuild bs → history.old.builds ≡ [] → builds.now ≡ build_rows 1 bs
        → pairs.now ≡ listed_pairs 1 bs
        → OrNoMemory (λ _. history.new ≡ record history.old { builds = bs }) result }
    ensures kept { OnOk result (KeepsSeen history.old history.new) }
{
    let mut rest = pairs;
    for row in builds {
        rest = add_build(alloc, history, row, rest)?;
    }
    Ok(())
}

// ---- what was set
#[tactic(auto, using(crate::proofs::ReadRows::map_again))]
fn read_pin(alloc: Global, row: &Row) -> Result<Pin, StoreFault>
    ensures { (v : TextMap) → IsSpelled v → 1 < length row.now → column row.now 1 ≡ Text (key_text v)
        → OrNoMemory (λ pin. pin ≡ v) result }
{
    let value = read_value(alloc, row, 1)?;
    match Pin::from_value(alloc, &value) {
        Ok(pin) => Ok(pin),
        Err(fault) => Err(fault_of(fault)),
    }
}

fn add_pin(alloc: Global, history: &mut History, row: &Row) -> Result<(), StoreFault>
    ensures read { (p : List ℕ × TextMap) → IsTextPin p → row.now ≡ pin_row p
        → OrNoMemory (λ _. history.new ≡ edited (pin_set p.0 p.1) history.old) result }
    ensures kept { OnOk result (KeepsSeen history.old history.new) }
{
    let resource: String = read_column(row, 0)?;
    let pin = read_pin(alloc, row)?;
    match history.set_pin(alloc, resource.as_str(), pin) {
        Ok(()) => Ok(()),
        Err(fault) => Err(fault_of(fault)),
    }
}

fn add_pins(alloc: Global, history: &mut History, pins: &[Row]) -> Result<(), StoreFault>
    ensures read { (ps : List (List ℕ × TextMap)) → ArePins ps → AllByRecursion IsTextPin ps → history.old.pins ≡ []
        → pins.now ≡ map pin_row ps → OrNoMemory (λ _. history.new ≡ record history.old { pins = ps }) result }
    ensures kept { OnOk result (KeepsSeen history.old history.new) }
{
    for row in pins {
        add_pin(alloc, history, row)?;
    }
    Ok(())
}

fn add_text(history: &mut History, row: &Row) -> Result<(), StoreFault>
    ensures { (t : List ℕ) → row.now ≡ text_row t
        → OrNoMemory (λ _. history.new ≡ edited (text t) history.old) result }
{
    history.set_text(read_column(row, 1)?);
    Ok(())
}

fn read_text(history: &mut History, meta: &[Row]) -> Result<(), StoreFault>
    ensures { (format : Format) (t : Option (List ℕ)) → history.old.text ≡ None → meta.now ≡ meta_rows format t
        → OrNoMemory (λ _. history.new ≡ record history.old { text = t }) result }
{
    match meta {
        [_, row] => add_text(history, row),
        _ => Ok(()),
    }
}

/// `NotOurs` where there is a text that no pipeline can be read from.
pub(crate) fn check_text(alloc: Global, text: Option<&[u8]>) -> Result<(), StoreFault>
    ensures is { OnOk result (IfSome (option_copied text.entry) IsReadable) }
    ensures only { IfSome (option_copied text.entry) IsReadable → IfErr result (λ fault. fault ≡ NoMemory) }
{
    let Some(text) = text else {
        return Ok(());
    };
    match read(alloc, text) {
        Ok(_) => Ok(()),
        Err(ReadFault::NoMemory) => Err(StoreFault::NoMemory),
        Err(_) => Err(StoreFault::NotOurs),
    }
}

/// Sets the text and adds the tables of the history that has these rows, if there is one.
fn add_seen(alloc: Global, history: &mut History, seen: &Seen) -> Result<(), StoreFault>
    ensures { history.old ≡ no_history → (h : HistoryData) → IsHistory h → HasTexts h
        → (format : Format) → ListsSeen format h seen.now.meta.items seen.now.scopes.items seen.now.versions.items
        → OrNoMemory (λ _. history.new ≡ without_builds h) result }
{
    read_text(history, &seen.meta)?;
    add_tables(alloc, history, &seen.scopes, &seen.versions)
}

/// What was set and seen of the history that has these rows, if there is one. Whether it has them is for the caller to see.
pub(crate) fn read_tables(alloc: Global, seen: &Seen) -> Result<History, StoreFault>
    ensures { (h : HistoryData) → IsHistory h → HasTexts h
        → (format : Format) → ListsSeen format h seen.now.meta.items seen.now.scopes.items seen.now.versions.items
        → OrNoMemory (λ history. history ≡ without_builds h) result }
{
    let mut history = History::new(alloc);
    match add_seen(alloc, &mut history, seen) {
        Ok(()) => Ok(history),
        Err(fault) => Err(fault),
    }
}

/// Adds the builds, disabled places and pins of the history that has these rows, if there is one. Whether it has them
/// is for the caller to see.
pub(crate) fn read_builds(
    alloc: Global,
    history: &mut History,
    built: &Built,
) -> Result<(), StoreFault>
    ensures read { (h : HistoryData) → IsHistory h → HasTexts h → history.old ≡ without_builds h
        → ListsBuilt h built.now.builds.items built.now.pairs.items built.now.pins.items
        → OrNoMemory (λ _. history.new ≡ h) result }
    ensures kept { OnOk result (KeepsSeen history.old history.new) }
{
    let pairs = add_disabled(history, &built.pairs)?;
    add_builds(alloc, history, &built.builds, pairs)?;
    add_pins(alloc, history, &built.pins)
}
