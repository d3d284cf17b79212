//! The builds that a page shows of a job, and how they stand.
ghost use Rattle.std.specs.Prelude.{◌≡◌, ◌==◌, ◌++◌, map, take, find, reverse, slice_get, option_to_list, IfOk, OnOk};
ghost use Rattle.std.specs.List.{list_any};
ghost use Rattle.ccr_history.specs.Builds.{is_succeeded};
ghost use Rattle.std.specs.Option.{option_copied};
ghost use Rattle.ccr_overview.specs.PageBuilds.{status_of, newest_status, newest_number, newest_first, is_good_at, listed_of, listed, builds_at, has_row, bar_of, bars_of, bars};

use ccr_history::{BuildRef, History, Status as HistoryStatus};
use ccr_page::{Bar, Status};
use std::alloc::{AllocError, Global};

// ---- how they stand

/// How a build stands.
pub(crate) fn status_of(status: HistoryStatus) -> Status
    ensures { result ≡ status_of status }
{
    match status {
        HistoryStatus::Running => Status::Running,
        HistoryStatus::Succeeded => Status::Succeeded,
        HistoryStatus::Failed => Status::Failed,
        HistoryStatus::Errored => Status::Errored,
        HistoryStatus::Aborted => Status::Aborted,
    }
}

/// How a job's newest build stands, if it has one.
pub(crate) fn newest_status(newest: Option<&BuildRef<'_>>) -> Status
    ensures { result ≡ newest_status (option_copied newest.entry) }
{
    match newest {
        Some(build) => status_of(build.status()),
        None => Status::Missing,
    }
}

/// The number of a job's newest build; 0 if it has none.
pub(crate) fn newest_number(newest: Option<&BuildRef<'_>>) -> u32
    ensures { result ≡ newest_number (option_copied newest.entry) }
{
    match newest {
        Some(build) => build.number(),
        None => 0,
    }
}

/// Whether a build succeeded.
fn is_good(build: &BuildRef<'_>) -> bool
    ensures { result ≡ is_succeeded build.now.status }
{
    match build.status() {
        HistoryStatus::Succeeded => true,
        HistoryStatus::Running
        | HistoryStatus::Failed
        | HistoryStatus::Errored
        | HistoryStatus::Aborted => false,
    }
}

// ---- which builds

/// The positions of a job's builds among all, the newest first.
fn newest_first(alloc: Global, history: &History, job: &str) -> Result<Vec<u32>, AllocError>
    ensures { IfOk result (λ found. found.items ≡ newest_first job.now history.now) }
{
    let mut all = Vec::from_slice(alloc, history.builds_of(job))?;
    all.reverse();
    Ok(all)
}

/// The first of a list, so many.
fn first_ones(positions: &[u32], most: u32) -> &[u32]
    ensures { result.now ≡ take most positions.now }
{
    positions
        .get(..(most as usize).min(positions.len()))
        .unwrap_or(positions)
}

/// Whether the build at a position succeeded.
fn is_good_at(history: &History, position: u32) -> bool
    ensures { result ≡ is_good_at history.now position }
{
    match history.build_at(position as usize) {
        Some(build) => is_good(&build),
        None => false,
    }
}

/// The first of these positions at which a build succeeded.
fn first_good(history: &History, positions: &[u32]) -> Option<u32>
    ensures { result ≡ find (is_good_at history.now) positions.now }
{
    for position in positions {
        if is_good_at(history, *position) {
            return Some(*position);
        }
    }
    None
}

/// Whether a build succeeded at one of these positions.
fn has_good(history: &History, positions: &[u32]) -> bool
    ensures { result ≡ list_any (is_good_at history.now) positions.now }
{
    for position in positions {
        if is_good_at(history, *position) {
            return true;
        }
    }
    false
}

/// Of these positions the first ones, so many, and the first at which a build succeeded, unless it is one of them.
fn listed_of(
    alloc: Global,
    history: &History,
    most: u32,
    all: &[u32],
) -> Result<Vec<u32>, AllocError>
    ensures { IfOk result (λ found. found.items ≡ listed_of history.now most all.now) }
{
    let first = first_ones(all, most);
    let mut listed = Vec::from_slice(alloc, first)?;
    if has_good(history, first) {
        return Ok(listed);
    }
    match first_good(history, all) {
        Some(position) => listed.push(position)?,
        None => {}
    }
    Ok(listed)
}

/// The positions of the builds of a job that have a row.
pub(crate) fn listed(
    alloc: Global,
    history: &History,
    most: u32,
    job: &str,
) -> Result<Vec<u32>, AllocError>
    ensures { IfOk result (λ found. found.items ≡ listed history.now most job.now) }
{
    let all = newest_first(alloc, history, job)?;
    listed_of(alloc, history, most, &all)
}

/// Adds the build at a position, if there is one.
fn push_at<'h>(
    out: &mut Vec<BuildRef<'h>>,
    history: &'h History,
    position: u32,
) -> Result<(), AllocError>
    ensures { OnOk result (out.new.items
        ≡ out.old.items ++ option_to_list (slice_get history.now.builds position)) }
{
    match history.build_at(position as usize) {
        Some(build) => {
            out.push(build)?;
            Ok(())
        }
        None => Ok(()),
    }
}

/// The builds at these positions.
pub(crate) fn builds_at<'h>(
    alloc: Global,
    history: &'h History,
    positions: &[u32],
) -> Result<Vec<BuildRef<'h>>, AllocError>
    ensures { IfOk result (λ found. found.items ≡ builds_at history.now positions.now) }
{
    let mut builds = Vec::new(alloc);
    for position in positions {
        push_at(&mut builds, history, *position)?;
    }
    Ok(builds)
}

/// Whether one of these builds has a number.
fn has_number(builds: &[BuildRef<'_>], number: u32) -> bool
    ensures { result ≡ list_any (λ b. b.number == number) builds.now }
{
    for build in builds {
        if build.number() == number {
            return true;
        }
    }
    false
}

/// Whether the job's build of this number has a row.
pub(crate) fn has_row(
    alloc: Global,
    history: &History,
    most: u32,
    job: &str,
    number: u32,
) -> Result<bool, AllocError>
    ensures { IfOk result (λ has. has ≡ has_row history.now most job.now number) }
{
    let positions = listed(alloc, history, most, job)?;
    let builds = builds_at(alloc, history, &positions)?;
    Ok(has_number(&builds, number))
}

// ---- bars

/// A build, which has a row if one of these has its number.
fn bar_of(rows: &[BuildRef<'_>], build: &BuildRef<'_>) -> Bar
    ensures { result ≡ bar_of rows.now build.now }
{
    Bar {
        number: build.number(),
        status: status_of(build.status()),
        has_row: has_number(rows, build.number()),
    }
}

/// These builds as bars.
fn each_bar(
    alloc: Global,
    rows: &[BuildRef<'_>],
    builds: &[BuildRef<'_>],
) -> Result<Vec<Bar>, AllocError>
    ensures { IfOk result (λ found. found.items ≡ map (bar_of rows.now) builds.now) }
{
    let mut bars = Vec::new(alloc);
    for build in builds {
        bars.push(bar_of(rows, build))?;
    }
    Ok(bars)
}

/// The last 20 of these builds, which stand newest first.
fn last_builds<'h>(
    alloc: Global,
    history: &'h History,
    all: &[u32],
) -> Result<Vec<BuildRef<'h>>, AllocError>
    ensures { IfOk result (λ found. found.items ≡ builds_at history.now (take 20 all.now)) }
{
    builds_at(alloc, history, first_ones(all, 20))
}

/// Those of these builds that have a row.
fn listed_builds<'h>(
    alloc: Global,
    history: &'h History,
    most: u32,
    all: &[u32],
) -> Result<Vec<BuildRef<'h>>, AllocError>
    ensures { IfOk result (λ found. found.items ≡ builds_at history.now (listed_of history.now most all.now)) }
{
    let listed = listed_of(alloc, history, most, all)?;
    let builds = builds_at(alloc, history, &listed)?;
    Ok(builds)
}

/// The last 20 of these builds as bars.
fn bars_of(alloc: Global, history: &History, most: u32, all: &[u32]) -> Result<Vec<Bar>, AllocError>
    ensures { IfOk result (λ found. found.items ≡ bars_of history.now most all.now) }
{
    let rows = listed_builds(alloc, history, most, all)?;
    let last = last_builds(alloc, history, all)?;
    let found = each_bar(alloc, &rows, &last)?;
    Ok(found)
}

/// The last 20 builds of a job, the newest first.
pub(crate) fn bars(
    alloc: Global,
    history: &History,
    most: u32,
    job: &str,
) -> Result<Vec<Bar>, AllocError>
    ensures { IfOk result (λ found. found.items ≡ bars history.now most job.now) }
{
    let all = newest_first(alloc, history, job)?;
    let found = bars_of(alloc, history, most, &all)?;
    Ok(found)
}
