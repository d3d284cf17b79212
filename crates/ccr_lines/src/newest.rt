//! The newest build of a job that passes a test.
ghost use Rattle.std.specs.Prelude.{◌≡◌, ◌==◌, false, length, map};
ghost use Rattle.std.specs.List.{list_any};
ghost use Rattle.std.specs.Option.{option_map_or};
ghost use Rattle.ccr_history.specs.Builds.{build_of, is_running, is_succeeded};
ghost use Rattle.ccr_pipeline.specs.Inputs.{input_data};
ghost use Rattle.ccr_pipeline.specs.Pipelines.{pipeline_data};
ghost use Rattle.ccr_lines.specs.BuildCertificates.{place_for};
ghost use Rattle.ccr_lines.specs.Newest.{has_met, took_each, stands, is_sought, IsSearch, if_so, newest_of, standing_of};
ghost use Rattle.ccr_lines.specs.Releases.{is_pair};

use crate::release::{has_pair, passed_pairs, used_at};
use crate::taken::{place_for, took_no_other};
use ccr_history::{BuildRef, History, Status};
use ccr_pipeline::{Input, Pipeline};

/// What a build is looked for by.
#[derive(Clone, Copy)]
pub enum Sought<'a> {
    /// It took or moved this pair of scope and place.
    Met((u32, u32)),
    /// It succeeded and moved this pair of scope and place.
    Passed((u32, u32)),
    /// It runs, or it has ended.
    Stands(bool),
    /// It succeeded.
    Succeeded,
    /// It took these places for these inputs, one each, and none for any other.
    Took(&'a Pipeline, &'a [Input], &'a [u32]),
}

/// Whether a pair is that of a scope and a place.
fn is_pair(pair: (u32, u32), scope: u32, place: u32) -> bool
    ensures { result ≡ is_pair pair (scope, place) }
{
    pair.0 == scope && pair.1 == place
}

/// Whether a build took a pair of scope and place.
fn has_taken(pair: (u32, u32), build: &BuildRef<'_>) -> bool
    ensures { result ≡ list_any (λ u. is_pair pair (u.scope, u.place)) build.now.used }
{
    for k in 0..build.used_count() {
        let (_, scope, place) = used_at(build, k);
        if is_pair(pair, scope, place) {
            return true;
        }
    }
    false
}

/// Whether a build took or moved a pair of scope and place.
fn has_met(pair: (u32, u32), build: &BuildRef<'_>) -> bool
    ensures { result ≡ has_met pair build.now }
{
    has_taken(pair, build) || has_pair(build.moved(), pair)
}

/// Whether a build took a place for an input, in the scope that the input's resource has today.
fn took_one(
    pipeline: &Pipeline,
    history: &History,
    build: &BuildRef<'_>,
    input: &Input,
    place: u32,
) -> bool
    ensures { result ≡ option_map_or (λ m. m == place)
        (place_for (pipeline_data pipeline.now) history.now build.now.used (input_data input.now)) false }
{
    match place_for(pipeline, history, build, input) {
        Some(other) => other == place,
        None => false,
    }
}

/// Whether a build took a place for each of these inputs.
fn took_each(
    pipeline: &Pipeline,
    history: &History,
    build: &BuildRef<'_>,
    inputs: &[Input],
    places: &[u32],
) -> bool
    requires { length places.now ≡ length inputs.now }
    ensures { result
        ≡ took_each (pipeline_data pipeline.now) history.now (map input_data inputs.now) places.now build.now }
{
    for (k, input) in inputs.iter().enumerate() {
        if !took_one(pipeline, history, build, input, places[k]) {
            return false;
        }
    }
    true
}

/// Whether a build of this status runs.
fn is_running(status: Status) -> bool
    ensures { result ≡ is_running status }
{
    match status {
        Status::Running => true,
        Status::Succeeded | Status::Failed | Status::Errored | Status::Aborted => false,
    }
}

/// Whether a build of this status succeeded.
pub(crate) fn is_succeeded(status: Status) -> bool
    ensures { result ≡ is_succeeded status }
{
    match status {
        Status::Succeeded => true,
        Status::Running | Status::Failed | Status::Errored | Status::Aborted => false,
    }
}

/// Whether a build runs, if it is to run; whether it has ended, if it isn't.
fn stands(runs: bool, build: &BuildRef<'_>) -> bool
    ensures { result ≡ stands runs build.now }
{
    if runs {
        is_running(build.status())
    } else {
        !is_running(build.status())
    }
}

/// Whether a build passes a test.
fn is_sought(history: &History, sought: Sought<'_>, build: &BuildRef<'_>) -> bool
    requires { IsSearch sought }
    ensures { result ≡ is_sought history.now sought.entry build.now }
{
    match sought {
        Sought::Met(pair) => has_met(pair, build),
        Sought::Passed(pair) => has_pair(passed_pairs(build), pair),
        Sought::Stands(runs) => stands(runs, build),
        Sought::Succeeded => is_succeeded(build.status()),
        Sought::Took(pipeline, inputs, places) => {
            took_each(pipeline, history, build, inputs, places) && took_no_other(build, inputs)
        }
    }
}

/// The job's build of this number, if there is one that passes a test.
fn if_sought<'h>(
    history: &'h History,
    sought: Sought<'_>,
    job: &str,
    number: u32,
) -> Option<BuildRef<'h>>
    requires { IsSearch sought }
    ensures { result ≡ if_so (is_sought history.now sought.entry) (build_of job.now number history.now.builds) }
{
    match history.build(job, number) {
        Some(build) => {
            if is_sought(history, sought, &build) {
                Some(build)
            } else {
                None
            }
        }
        None => None,
    }
}

/// The newest build of a job that passes a test.
pub fn newest_of<'h>(history: &'h History, sought: Sought<'_>, job: &str) -> Option<BuildRef<'h>>
    requires { IsSearch sought }
    ensures { result ≡ newest_of (is_sought history.now sought.entry) job.now history.now }
{
    let count = history.count_of(job);
    for newer in 0..count {
        match if_sought(history, sought, job, count - newer) {
            Some(build) => return Some(build),
            None => {}
        }
    }
    None
}

/// The number of a build, and how it stands.
pub(crate) fn standing_of(found: Option<BuildRef<'_>>) -> Option<(u32, Status)>
    ensures { result ≡ standing_of found.entry }
{
    match found {
        Some(build) => Some((build.number(), build.status())),
        None => None,
    }
}
