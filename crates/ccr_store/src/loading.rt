//! The history whose rows the tables have.
ghost use Rattle.std.specs.Prelude.{◌≡◌, ◌≢◌, List, false, IsTrue, IfOk, IfErr, IfSome, OnOk};
ghost use Rattle.sqlite.specs.Order.{Row};
ghost use Rattle.sqlite.specs.State.{HasCleanDisk};
ghost use Rattle.sqlite.specs.Held.{state};
ghost use Rattle.ccr_history.specs.History.{HistoryData, IsHistory};
ghost use Rattle.ccr_history.specs.declared.store_fault.StoreFault.TheVariants.{NoMemory, NotOurs};
ghost use Rattle.ccr_tables.specs.Cause.{cause_of};
ghost use Rattle.ccr_tables.specs.Contents.{Contents, Holds};
ghost use Rattle.ccr_tables.specs.Left.{OnlyReads};
ghost use Rattle.ccr_store.specs.Causes.{ComesOfRows, IsUnloaded, IsForeign};
ghost use Rattle.ccr_store.specs.Faults as spec;
ghost use Rattle.ccr_store.specs.Listed.{AreSeen, AreBuilt, ListsSeen, ListsBuilt, KeepsSeen, without_builds};
ghost use Rattle.ccr_store.specs.Readable.{IsReadable};
ghost use Rattle.ccr_store.specs.Reordered.{HasSameRows};
ghost use Rattle.ccr_store.specs.Rows.{HasFormat, Fits, rows_in};
ghost use Rattle.ccr_store.specs.Shown.{ShowsFormat, ShowsBuilt, ShowsHistory, IsSeenOf};
ghost use Rattle.ccr_store.specs.declared.format.Format.{Format as FormatData};
ghost use Rattle.ccr_store.specs.Texts.{HasTexts, OrNoMemory, OrFault};

use crate::format::Format;
use crate::found::{Built, Seen, read_built, read_seen};
use crate::matching::{
    are_builds, are_meta, are_pairs, are_pins, are_scopes, are_versions, format_in,
};
use crate::reading::{check_text, read_builds, read_tables};
use ccr_history::{History, StoreFault};
use ccr_tables::{Cause, Table, select};
use sqlite::{Alter, Connection, Error as SqlError};
use std::alloc::{AllocError, Global};

/// The fault of a failed read; a read that is refused finds other tables.
fn read_fault_of(error: &SqlError) -> StoreFault
    ensures exact { result ≡ spec.read_fault_of (cause_of error.now) }
    ensures refused { result ≡ NotOurs → cause_of error.now ≡ Cause.Refused }
{
    match Cause::of(error) {
        Cause::Refused => StoreFault::NotOurs,
        Cause::NoMemory => StoreFault::NoMemory,
        Cause::Disk => StoreFault::Disk,
        Cause::Interrupted => StoreFault::Interrupted,
    }
}

/// The fault of rows from which no history was made: they are no history's, unless memory was wanted.
fn rows_fault_of(fault: StoreFault) -> StoreFault
    ensures comes { ComesOfRows result }
    ensures memory { fault ≡ NoMemory → result ≡ NoMemory }
{
    match fault {
        StoreFault::NoMemory => StoreFault::NoMemory,
        _ => StoreFault::NotOurs,
    }
}

/// Reads the first row of `meta`: `NotOurs` where the read is refused, or where the row isn't that of a format.
pub(crate) fn read_format<S: Alter>(conn: &mut Connection<S>) -> Result<Format, StoreFault>
    ensures format { HasCleanDisk (state S.Store conn.new) → IfOk result (λ format. (these : Contents)
        → Holds these (state S.Store conn.old).now → HasFormat format these) }
    ensures shown { HasCleanDisk (state S.Store conn.new)
        → IfOk result (λ format. ShowsFormat format (state S.Store conn.old).now) }
    ensures answered { HasCleanDisk (state S.Store conn.new)
        → IfErr result (IsForeign S.Store (state S.Store conn.old)) }
    ensures reads { OnlyReads (state S.Store conn.old) (state S.Store conn.new) result }
    ensures clean { HasCleanDisk (state S.Store conn.new) → HasCleanDisk (state S.Store conn.old) }
    ensures open { HasCleanDisk (state S.Store conn.new) → OnOk result (IsTrue (state S.Store conn.old).is_open) }
    ensures mode { conn.old.in_transaction ≡ false → conn.new.in_transaction ≡ false }
{
    match select(conn, Table::Meta) {
        Ok(rows) => match format_in(&rows) {
            Some(format) => Ok(format),
            None => Err(StoreFault::NotOurs),
        },
        Err(error) => Err(read_fault_of(&error)),
    }
}

// ---- what was set and seen
/// Whether the rows are those of the history's text and tables.
fn are_seen(
    alloc: Global,
    seen: &Seen,
    format: Format,
    history: &History,
) -> Result<bool, AllocError>
    ensures rows { IfOk result (λ same. IsTrue same
        → ListsSeen format history.now seen.now.meta.items seen.now.scopes.items seen.now.versions.items) }
    ensures only { ListsSeen format history.now seen.now.meta.items seen.now.scopes.items seen.now.versions.items
        → IfOk result IsTrue }
{
    let has_versions = are_versions(alloc, &seen.versions, history)?;
    Ok(
        has_versions
            && are_meta(&seen.meta, format, history.text())
            && are_scopes(&seen.scopes, history),
    )
}

/// `NotOurs` where the rows aren't those of the history's text and tables, or no pipeline can be read from its text.
fn check_seen(
    alloc: Global,
    seen: &Seen,
    format: Format,
    history: &History,
) -> Result<(), StoreFault>
    ensures rows { OnOk result
        (ListsSeen format history.now seen.now.meta.items seen.now.scopes.items seen.now.versions.items) }
    ensures readable { OnOk result (IfSome history.now.text IsReadable) }
    ensures only { IfSome history.now.text IsReadable
        → ListsSeen format history.now seen.now.meta.items seen.now.scopes.items seen.now.versions.items
        → IfErr result (λ fault. fault ≡ NoMemory) }
{
    check_text(alloc, history.text())?;
    if are_seen(alloc, seen, format, history)? {
        Ok(())
    } else {
        Err(StoreFault::NotOurs)
    }
}

/// What was set and seen of the history that has these rows.
fn tables_of(alloc: Global, seen: &Seen, format: Format) -> Result<History, StoreFault>
    ensures rows { IfOk result (λ history.
        ListsSeen format history seen.now.meta.items seen.now.scopes.items seen.now.versions.items) }
    ensures readable { IfOk result (λ history. IfSome history.text IsReadable) }
    ensures only { (h : HistoryData) → IsHistory h → HasTexts h → IfSome h.text IsReadable
        → ListsSeen format h seen.now.meta.items seen.now.scopes.items seen.now.versions.items
        → OrNoMemory (λ history. history ≡ without_builds h) result }
    ensures comes { IfErr result ComesOfRows }
{
    let history = match read_tables(alloc, seen) {
        Ok(history) => history,
        Err(fault) => return Err(rows_fault_of(fault)),
    };
    match check_seen(alloc, seen, format, &history) {
        Ok(()) => Ok(history),
        Err(fault) => Err(rows_fault_of(fault)),
    }
}

/// Reads what was set and seen, and gives the history of it. Its rows are let go before others are read.
fn load_seen<S: Alter>(
    alloc: Global,
    conn: &mut Connection<S>,
    format: Format,
) -> Result<History, StoreFault>
    ensures rows { HasCleanDisk (state S.Store conn.new) → IfOk result (λ history. (these : Contents)
        → Holds these (state S.Store conn.old).now → (meta scopes versions : List Row)
        × AreSeen these meta scopes versions × ListsSeen format history meta scopes versions) }
    ensures readable { IfOk result (λ history. IfSome history.text IsReadable) }
    ensures only { HasCleanDisk (state S.Store conn.new) → (h : HistoryData) → IsHistory h → HasTexts h
        → IfSome h.text IsReadable → Holds (rows_in format h) (state S.Store conn.old).now
        → OrFault (λ history. history ≡ without_builds h) result }
    ensures seen { HasCleanDisk (state S.Store conn.new)
        → IfOk result (λ history. IsSeenOf format (state S.Store conn.old).now history) }
    ensures answered { HasCleanDisk (state S.Store conn.new)
        → IfErr result (IsUnloaded S.Store (state S.Store conn.old) format) }
    ensures reads { OnlyReads (state S.Store conn.old) (state S.Store conn.new) result }
    ensures clean { HasCleanDisk (state S.Store conn.new) → HasCleanDisk (state S.Store conn.old) }
    ensures open { HasCleanDisk (state S.Store conn.new) → IfOk result (λ _. IsTrue (state S.Store conn.old).is_open) }
    ensures mode { conn.old.in_transaction ≡ false → conn.new.in_transaction ≡ false }
{
    match read_seen(conn) {
        Ok(seen) => tables_of(alloc, &seen, format),
        Err(error) => Err(read_fault_of(&error)),
    }
}

// ---- what was built and pinned
/// Whether the rows are those of the history's builds and pins.
fn are_built(alloc: Global, built: &Built, history: &History) -> Result<bool, AllocError>
    ensures rows { IfOk result (λ same. IsTrue same
        → ListsBuilt history.now built.now.builds.items built.now.pairs.items built.now.pins.items) }
    ensures only { ListsBuilt history.now built.now.builds.items built.now.pairs.items built.now.pins.items
        → IfOk result IsTrue }
{
    let has_pins = are_pins(alloc, &built.pins, history.pins())?;
    Ok(has_pins && are_builds(&built.builds, history) && are_pairs(&built.pairs, history))
}

/// Adds the builds and pins of these rows: `NotOurs` where they aren't those of the history after that.
fn add_built(
    alloc: Global,
    format: Format,
    history: &mut History,
    built: &Built,
) -> Result<(), StoreFault>
    ensures rows { OnOk result
        (ListsBuilt history.new built.now.builds.items built.now.pairs.items built.now.pins.items) }
    ensures kept { OnOk result (KeepsSeen history.old history.new) }
    ensures rules { OnOk result (IsHistory history.new) }
    ensures fits { OnOk result (Fits format history.new) }
    ensures only { (h : HistoryData) → IsHistory h → HasTexts h → Fits format h → history.old ≡ without_builds h
        → ListsBuilt h built.now.builds.items built.now.pairs.items built.now.pins.items
        → IfErr result (λ fault. fault ≡ NoMemory) }
{
    read_builds(alloc, history, built)?;
    history.rules();
    if !format.fits(history) {
        return Err(StoreFault::NotOurs);
    }
    if are_built(alloc, built, history)? {
        Ok(())
    } else {
        Err(StoreFault::NotOurs)
    }
}

/// The history with the builds and pins of these rows.
fn history_of(
    alloc: Global,
    format: Format,
    history: History,
    built: &Built,
) -> Result<History, StoreFault>
    ensures rows { IfOk result (λ it. ListsBuilt it built.now.builds.items built.now.pairs.items built.now.pins.items) }
    ensures kept { IfOk result (KeepsSeen history) }
    ensures rules { IfOk result IsHistory }
    ensures fits { IfOk result (Fits format) }
    ensures only { (h : HistoryData) → IsHistory h → HasTexts h → Fits format h → history ≡ without_builds h
        → ListsBuilt h built.now.builds.items built.now.pairs.items built.now.pins.items
        → IfErr result (λ fault. fault ≡ NoMemory) }
    ensures comes { IfErr result ComesOfRows }
{
    let mut history = history;
    match add_built(alloc, format, &mut history, built) {
        Ok(()) => Ok(history),
        Err(fault) => Err(rows_fault_of(fault)),
    }
}

/// Reads what was built and pinned: `NotOurs` where a read is refused, or a row of `pairs` is no history's.
fn found_in<S: Alter>(alloc: Global, conn: &mut Connection<S>) -> Result<Built, StoreFault>
    ensures rows { HasCleanDisk (state S.Store conn.new) → IfOk result (λ built. (these : Contents)
        → Holds these (state S.Store conn.old).now
        → AreBuilt these built.builds.items built.pairs.items built.pins.items) }
    ensures only { HasCleanDisk (state S.Store conn.new) → (format : FormatData) → (h : HistoryData) → IsHistory h
        → HasTexts h → Holds (rows_in format h) (state S.Store conn.old).now → IfErr result (λ fault. fault ≢ NotOurs) }
    ensures shown { HasCleanDisk (state S.Store conn.new) → IfOk result (λ built.
        ShowsBuilt (state S.Store conn.old).now built.builds.items built.pairs.items built.pins.items) }
    ensures answered { HasCleanDisk (state S.Store conn.new) → (format : FormatData)
        → IfErr result (IsUnloaded S.Store (state S.Store conn.old) format) }
    ensures reads { OnlyReads (state S.Store conn.old) (state S.Store conn.new) result }
    ensures clean { HasCleanDisk (state S.Store conn.new) → HasCleanDisk (state S.Store conn.old) }
    ensures mode { conn.old.in_transaction ≡ false → conn.new.in_transaction ≡ false }
{
    match read_built(alloc, conn) {
        Ok(found) => match found {
            Some(built) => Ok(built),
            None => Err(StoreFault::NotOurs),
        },
        Err(error) => Err(read_fault_of(&error)),
    }
}

/// Reads what was built and pinned, and adds it to the history of what was set and seen.
fn load_built<S: Alter>(
    alloc: Global,
    conn: &mut Connection<S>,
    format: Format,
    history: History,
) -> Result<History, StoreFault>
    ensures rows { HasCleanDisk (state S.Store conn.new) → IfOk result (λ it. (these : Contents)
        → Holds these (state S.Store conn.old).now → (builds pairs pins : List Row)
        × AreBuilt these builds pairs pins × ListsBuilt it builds pairs pins) }
    ensures kept { IfOk result (KeepsSeen history) }
    ensures rules { IfOk result IsHistory }
    ensures fits { IfOk result (Fits format) }
    ensures only { HasCleanDisk (state S.Store conn.new) → (h : HistoryData) → IsHistory h → HasTexts h → Fits format h
        → history ≡ without_builds h → Holds (rows_in format h) (state S.Store conn.old).now
        → IfErr result (λ fault. fault ≢ NotOurs) }
    ensures shown { HasCleanDisk (state S.Store conn.new) → IfOk result (λ it. (builds pairs pins : List Row)
        × ShowsBuilt (state S.Store conn.old).now builds pairs pins × ListsBuilt it builds pairs pins) }
    ensures answered { HasCleanDisk (state S.Store conn.new) → IsSeenOf format (state S.Store conn.old).now history
        → IfErr result (IsUnloaded S.Store (state S.Store conn.old) format) }
    ensures reads { OnlyReads (state S.Store conn.old) (state S.Store conn.new) result }
    ensures clean { HasCleanDisk (state S.Store conn.new) → HasCleanDisk (state S.Store conn.old) }
    ensures mode { conn.old.in_transaction ≡ false → conn.new.in_transaction ≡ false }
{
    match found_in(alloc, conn) {
        Ok(built) => history_of(alloc, format, history, &built),
        Err(fault) => Err(fault),
    }
}

// ---- all of it
/// Reads each table once, and gives the history whose rows they have: `NotOurs` where a read is refused, or where no history
/// has the rows.
pub(crate) fn load<S: Alter>(
    alloc: Global,
    conn: &mut Connection<S>,
    format: Format,
) -> Result<History, StoreFault>
    ensures rows { HasCleanDisk (state S.Store conn.new) → IfOk result (λ history. (these : Contents)
        → Holds these (state S.Store conn.old).now → HasSameRows (rows_in format history) these) }
    ensures reads { OnlyReads (state S.Store conn.old) (state S.Store conn.new) result }
    ensures clean { HasCleanDisk (state S.Store conn.new) → HasCleanDisk (state S.Store conn.old) }
    ensures rules { IfOk result IsHistory }
    ensures readable { IfOk result (λ history. IfSome history.text IsReadable) }
    ensures fits { IfOk result (Fits format) }
    ensures not_ours { HasCleanDisk (state S.Store conn.new) → IfErr result (λ fault. fault ≡ NotOurs
        → (h : HistoryData) → IsHistory h → HasTexts h → IfSome h.text IsReadable → Fits format h
        → ¬ Holds (rows_in format h) (state S.Store conn.old).now) }
    ensures shown { HasCleanDisk (state S.Store conn.new)
        → IfOk result (λ history. ShowsHistory format history (state S.Store conn.old).now) }
    ensures answered { HasCleanDisk (state S.Store conn.new)
        → IfErr result (IsUnloaded S.Store (state S.Store conn.old) format) }
    ensures open { HasCleanDisk (state S.Store conn.new) → IfOk result (λ _. IsTrue (state S.Store conn.old).is_open) }
    ensures mode { conn.old.in_transaction ≡ false → conn.new.in_transaction ≡ false }
{
    let history = load_seen(alloc, conn, format)?;
    load_built(alloc, conn, format, history)
}
