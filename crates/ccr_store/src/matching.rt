//! Whether rows are those of a history.
ghost use Rattle.std.specs.Prelude.{◌≡◌, ◌≤◌, ◌++◌, List, [], ◌∷◌, pos, length, map, IsTrue, IfOk, IfSome, IfNone, IsSomeAnd, option_copied};
ghost use Rattle.sqlite.specs.declared.types.Value.TheVariants.{Int, Text, Blob};
ghost use Rattle.sqlite.specs.Order.{Row as RowData};
ghost use Rattle.ccr_store.specs.declared.format.Format.{Format as FormatData};
ghost use Rattle.ccr_history.specs.declared.table.TheConstants.{MOST_VERSIONS};
ghost use Rattle.ccr_store.specs.Listed.{listed_pairs, history_pairs};
ghost use Rattle.ccr_store.specs.Shown.{BeginsWith};
ghost use Rattle.ccr_store.specs.Rows.{meta_rows, scope_row, scope_rows, version_rows, table_rows, build_row, build_rows, used_row, moved_row, pin_row};

use crate::columns::{is_blob, is_number, is_text};
use crate::format::Format;
use crate::writes::number_of;
use ccr_history::{BuildRef, History, Pins, Scope, Version};
use ccr_tables::NamedRow;
use sqlite::Row;
use std::alloc::{AllocError, Global};

// ---- what was set
#[tactic(auto, using(crate::proofs::ListedRows::two))]
fn is_meta(row: &Row, key: u32, bytes: &[u8]) -> bool
    ensures is { IsTrue result → row.now ≡ Int (pos key) ∷ Blob bytes.now ∷ [] }
    ensures only { row.now ≡ Int (pos key) ∷ Blob bytes.now ∷ [] → IsTrue result }
{
    row.column_count() == 2 && is_number(row, 0, key) && is_blob(row, 1, bytes)
}

/// Whether the first row is that of the format.
fn begins_with(rows: &[Row], format: Format) -> bool
    ensures is { IsTrue result → BeginsWith format rows.now }
    ensures only { BeginsWith format rows.now → IsTrue result }
{
    match rows {
        [row, ..] => is_meta(row, 1, format.number()),
        [] => false,
    }
}

/// The format whose row is the first.
pub(crate) fn format_in(rows: &[Row]) -> Option<Format>
    ensures is { IfSome result (λ format. BeginsWith format rows.now) }
    ensures none { IfNone result ((format : FormatData) → ¬ BeginsWith format rows.now) }
{
    if begins_with(rows, Format::Two) {
        Some(Format::Two)
    } else if begins_with(rows, Format::One) {
        Some(Format::One)
    } else {
        None
    }
}

/// Whether the rows are those of the format and of this text.
pub(crate) fn are_meta(rows: &[Row], format: Format, text: Option<&[u8]>) -> bool
    ensures is { IsTrue result → rows.now ≡ meta_rows format (option_copied text.entry) }
    ensures only { rows.now ≡ meta_rows format (option_copied text.entry) → IsTrue result }
{
    let [row, more @ ..] = rows else {
        return false;
    };
    if !is_meta(row, 1, format.number()) {
        return false;
    }
    let Some(text) = text else {
        return more.is_empty();
    };
    match more {
        [row] => is_meta(row, 2, text),
        _ => false,
    }
}

// ---- what was seen
#[tactic(auto, using(crate::proofs::ListedRows::four))]
fn is_scope(row: &Row, id: u32, scope: &Scope) -> bool
    ensures is { IsTrue result → row.now ≡ scope_row id scope.now }
    ensures only { row.now ≡ scope_row id scope.now → IsTrue result }
{
    row.column_count() == 4
        && is_number(row, 0, id)
        && is_text(row, 1, scope.resource.as_str())
        && is_text(row, 2, scope.kind.as_str())
        && is_text(row, 3, scope.source.as_str())
}

/// Whether the rows are those of the scopes.
pub(crate) fn are_scopes(rows: &[Row], history: &History) -> bool
    ensures is { IsTrue result → rows.now ≡ scope_rows 1 history.now.tables }
    ensures only { rows.now ≡ scope_rows 1 history.now.tables → IsTrue result }
{
    if rows.len() != history.scope_count() as usize {
        return false;
    }
    let mut id: u32 = 0;
    for row in rows {
        id += 1;
        let Some(scope) = history.scope_at(id) else {
            return false;
        };
        if !is_scope(row, id, scope) {
            return false;
        }
    }
    true
}

#[tactic(auto, using(crate::proofs::ListedRows::three))]
fn is_version(row: &Row, scope: u32, place: u32, key: &str) -> bool
    ensures is { IsTrue result → row.now ≡ Int (pos scope) ∷ Int (pos place) ∷ Text key.now ∷ [] }
    ensures only { row.now ≡ Int (pos scope) ∷ Int (pos place) ∷ Text key.now ∷ [] → IsTrue result }
{
    row.column_count() == 3
        && is_number(row, 0, scope)
        && is_number(row, 1, place)
        && is_text(row, 2, key)
}

/// Whether the rows are those of a scope's versions.
fn are_bodies(
    alloc: Global,
    rows: &[Row],
    scope: u32,
    versions: &[Version],
) -> Result<bool, AllocError>
    requires { length versions.now ≤ MOST_VERSIONS }
    ensures is { IfOk result (λ same. IsTrue same → rows.now ≡ version_rows scope 1 versions.now) }
    ensures only { rows.now ≡ version_rows scope 1 versions.now → IfOk result IsTrue }
{
    if rows.len() != versions.len() {
        return Ok(false);
    }
    let mut place: u32 = 0;
    for row in rows {
        let key = versions[place as usize].key(alloc)?;
        place += 1;
        if !is_version(row, scope, place, key.as_str()) {
            return Ok(false);
        }
    }
    Ok(true)
}

/// Whether the rows are those of the versions of all scopes.
pub(crate) fn are_versions(
    alloc: Global,
    rows: &[Row],
    history: &History,
) -> Result<bool, AllocError>
    ensures is { IfOk result (λ same. IsTrue same → rows.now ≡ table_rows 1 history.now.tables) }
    ensures only { rows.now ≡ table_rows 1 history.now.tables → IfOk result IsTrue }
{
    let mut rest = rows;
    for index in 0..history.scope_count() {
        let versions = history.versions_at(index + 1);
        if rest.len() < versions.len() {
            return Ok(false);
        }
        let (here, more) = rest.split_at(versions.len());
        if !are_bodies(alloc, here, index + 1, versions)? {
            return Ok(false);
        }
        rest = more;
    }
    Ok(rest.is_empty())
}

// ---- what was built
fn is_build(row: &NamedRow, id: u32, build: &BuildRef<'_>) -> bool
    ensures is { IsTrue result → row.now ≡ build_row id build.now }
    ensures only { row.now ≡ build_row id build.now → IsTrue result }
{
    let (at, job, number, status) = row.columns();
    at == id
        && job == build.job()
        && number == build.number()
        && status == number_of(build.status())
}

/// Whether the rows are those of the builds.
pub(crate) fn are_builds(rows: &[NamedRow], history: &History) -> bool
    ensures is { IsTrue result → rows.now ≡ build_rows 1 history.now.builds }
    ensures only { rows.now ≡ build_rows 1 history.now.builds → IsTrue result }
{
    if rows.len() != history.build_count() {
        return false;
    }
    let mut id: u32 = 0;
    for row in rows {
        let Some(build) = history.build_at(id as usize) else {
            return false;
        };
        id += 1;
        if !is_build(row, id, &build) {
            return false;
        }
    }
    true
}

fn is_pair(pair: &NamedRow, id: u32, input: &str, scope: u32, place: u32) -> bool
    ensures is { IsTrue result
        → pair.now ≡ Int (pos id) ∷ Text input.now ∷ Int (pos scope) ∷ Int (pos place) ∷ [] }
    ensures only { pair.now ≡ Int (pos id) ∷ Text input.now ∷ Int (pos scope) ∷ Int (pos place) ∷ [] → IsTrue result }
{
    let (build, name, of, at) = pair.columns();
    build == id && name == input && of == scope && at == place
}

/// Whether the rows are those of what a build moved.
fn are_moved(rows: &[NamedRow], id: u32, moved: &[(u32, u32)]) -> bool
    ensures is { IsTrue result → rows.now ≡ map (moved_row id) moved.now }
    ensures only { rows.now ≡ map (moved_row id) moved.now → IsTrue result }
{
    if rows.len() != moved.len() {
        return false;
    }
    for (index, row) in rows.iter().enumerate() {
        let (scope, place) = moved[index];
        if !is_pair(row, id, "", scope, place) {
            return false;
        }
    }
    true
}

/// Whether the rows are those of what a build used.
fn are_used(rows: &[NamedRow], id: u32, build: &BuildRef<'_>) -> bool
    ensures is { IsTrue result → rows.now ≡ map (used_row id) build.now.used }
    ensures only { rows.now ≡ map (used_row id) build.now.used → IsTrue result }
{
    if rows.len() != build.used_count() {
        return false;
    }
    for (index, row) in rows.iter().enumerate() {
        let Some((input, scope, place)) = build.used(index) else {
            return false;
        };
        if !is_pair(row, id, input, scope, place) {
            return false;
        }
    }
    true
}

/// What is left of the rows behind those of what a build moved and used, if they begin with these.
#[tactic(auto, using(crate::proofs::ListedRows::parted))]
fn after_build<'a>(rows: &'a [NamedRow], id: u32, build: &BuildRef<'_>) -> Option<&'a [NamedRow]>
    ensures is { IfSome result (λ more. rows.now
        ≡ (map (moved_row id) build.now.moved ++ map (used_row id) build.now.used) ++ more.now) }
    ensures only { (more : List RowData)
        → rows.now ≡ (map (moved_row id) build.now.moved ++ map (used_row id) build.now.used) ++ more
        → IsSomeAnd result (λ left. left.now ≡ more) }
{
    let moved = build.moved();
    if rows.len() < moved.len() {
        return None;
    }
    let (first, rest) = rows.split_at(moved.len());
    if rest.len() < build.used_count() {
        return None;
    }
    let (second, more) = rest.split_at(build.used_count());
    if !are_moved(first, id, moved) {
        return None;
    }
    if !are_used(second, id, build) {
        return None;
    }
    Some(more)
}

/// Whether the rows are those of what the builds moved and used.
fn are_of_builds(rows: &[NamedRow], history: &History) -> bool
    ensures is { IsTrue result → rows.now ≡ listed_pairs 1 history.now.builds }
    ensures only { rows.now ≡ listed_pairs 1 history.now.builds → IsTrue result }
{
    let mut rest = rows;
    for index in 0..history.build_count() {
        let Some(build) = history.build_at(index) else {
            return false;
        };
        let Some(more) = after_build(rest, index as u32 + 1, &build) else {
            return false;
        };
        rest = more;
    }
    rest.is_empty()
}

/// Whether the rows are those of the disabled places, and of what the builds moved and used.
#[tactic(auto, using(crate::proofs::ListedRows::parted))]
pub(crate) fn are_pairs(rows: &[NamedRow], history: &History) -> bool
    ensures is { IsTrue result → rows.now ≡ history_pairs history.now }
    ensures only { rows.now ≡ history_pairs history.now → IsTrue result }
{
    let disabled = history.disabled();
    if rows.len() < disabled.len() {
        return false;
    }
    let (first, rest) = rows.split_at(disabled.len());
    are_moved(first, 0, disabled) && are_of_builds(rest, history)
}

// ---- what is pinned
#[tactic(auto, using(crate::proofs::ListedRows::two))]
fn is_pin(row: &Row, resource: &str, text: &str) -> bool
    ensures is { IsTrue result → row.now ≡ Text resource.now ∷ Text text.now ∷ [] }
    ensures only { row.now ≡ Text resource.now ∷ Text text.now ∷ [] → IsTrue result }
{
    row.column_count() == 2 && is_text(row, 0, resource) && is_text(row, 1, text)
}

/// Whether the rows are those of the pins.
pub(crate) fn are_pins(alloc: Global, rows: &[Row], pins: &Pins) -> Result<bool, AllocError>
    ensures is { IfOk result (λ same. IsTrue same → rows.now ≡ map pin_row pins.now) }
    ensures only { rows.now ≡ map pin_row pins.now → IfOk result IsTrue }
{
    let mut rest = rows;
    for (resource, pin) in pins.as_map().iter() {
        let [row, more @ ..] = rest else {
            return Ok(false);
        };
        let text = pin.text(alloc)?;
        if !is_pin(row, resource.as_str(), text.as_str()) {
            return Ok(false);
        }
        rest = more;
    }
    Ok(rest.is_empty())
}
