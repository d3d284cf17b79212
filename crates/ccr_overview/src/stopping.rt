//! Where the newest version stopped that an input doesn't take, as `explain` says it.
ghost use Rattle.std.specs.Prelude.{◌≡◌, not, find, option_map, option_copied, option_and_then, bytes_eq, string_bytes, IfOk};
ghost use Rattle.ccr_history.specs.Builds.{is_running};
ghost use Rattle.ccr_lines.specs.Releases.{is_pair};
ghost use Rattle.ccr_lines.specs.Stops.{is_unpassed, stop_data, stop_words};
ghost use Rattle.ccr_overview.specs.Scenes.{scene_data};
ghost use Rattle.ccr_overview.specs.Stopping.{pair_of, stop_before, if_said, stop_said, has_ended, job_if_ended, stopper_of, stopper};

use crate::scene::Scene;
use ccr_history::{History, Status};
use ccr_lines::{
    Passed, Refusal, Sought, Stop, Taken, history_number, newest_of, push_stop, stop_of,
};
use std::alloc::{AllocError, Global};

/// Whether two pairs are the same.
pub(crate) fn is_same(one: (u32, u32), other: (u32, u32)) -> bool
    ensures { result ≡ is_pair one other }
{
    one.0 == other.0 && one.1 == other.1
}

/// A place, in the scope of what an input takes.
pub(crate) fn pair_of(scene: &Scene<'_>, taken: &Taken, place: u32) -> (u32, u32)
    ensures { result ≡ pair_of (scene_data scene.now) taken.now place }
{
    let scope = history_number(scene.pipeline, scene.history, taken.resource.as_str());
    (scope, place)
}

/// Whether no successful build of a job moved a pair of scope and place.
fn is_unpassed(history: &History, pair: (u32, u32), job: &str) -> bool
    ensures { result ≡ is_unpassed history.now pair job.now }
{
    newest_of(history, Sought::Passed(pair), job).is_none()
}

/// The first of these jobs of which no successful build moved a pair of scope and place.
fn first_unpassed<'j>(history: &History, pair: (u32, u32), jobs: &'j [Passed]) -> Option<&'j Passed>
    ensures { option_copied result ≡ find (λ q. is_unpassed history.now pair q.job) jobs.now }
{
    for job in jobs {
        if is_unpassed(history, pair, job.job.as_str()) {
            return Some(job);
        }
    }
    None
}

/// Where a place stopped: at the first job that the input names and that hasn't passed it, or before.
fn stop_before(
    alloc: Global,
    scene: &Scene<'_>,
    taken: &Taken,
    place: u32,
) -> Result<Option<Stop>, AllocError>
    ensures { IfOk result (λ found. option_map stop_data found ≡ stop_before (scene_data scene.now) taken.now place) }
{
    let pair = pair_of(scene, taken, place);
    match first_unpassed(scene.history, pair, &taken.passed) {
        Some(job) => {
            let stop = stop_of(alloc, scene.pipeline, scene.history, pair, job.job.as_str())?;
            Ok(Some(stop))
        }
        None => Ok(None),
    }
}

/// Whether these are the words of a stop.
fn is_said(alloc: Global, words: &str, stop: &Stop) -> Result<bool, AllocError>
    ensures { IfOk result (λ is. is ≡ bytes_eq (stop_words (stop_data stop.now)) words.now) }
{
    let mut text = String::new(alloc);
    push_stop(&mut text, stop)?;
    Ok(text.as_str() == words)
}

/// The stop, if these are its words.
fn if_said(alloc: Global, words: &str, found: Option<Stop>) -> Result<Option<Stop>, AllocError>
    ensures { IfOk result (λ said. option_map stop_data said
        ≡ option_and_then (if_said words.now) (option_map stop_data found)) }
{
    match found {
        Some(stop) => {
            if is_said(alloc, words, &stop)? {
                Ok(Some(stop))
            } else {
                Ok(None)
            }
        }
        None => Ok(None),
    }
}

/// Where a place stopped that an input doesn't take, if this is what `explain` says of it.
pub(crate) fn stop_said(
    alloc: Global,
    scene: &Scene<'_>,
    taken: &Taken,
    refusal: &Refusal,
) -> Result<Option<Stop>, AllocError>
    ensures { IfOk result (λ found. option_map stop_data found
        ≡ stop_said (scene_data scene.now) taken.now refusal.now) }
{
    let found = stop_before(alloc, scene, taken, refusal.place)?;
    if_said(alloc, refusal.words.as_str(), found)
}

/// Whether a build of this status has ended.
fn is_over(status: Status) -> bool
    ensures { result ≡ not (is_running status) }
{
    match status {
        Status::Running => false,
        Status::Succeeded | Status::Failed | Status::Errored | Status::Aborted => true,
    }
}

/// Whether a build has the version, and has ended.
fn has_ended(stop: &Stop) -> bool
    ensures { result ≡ has_ended (stop_data stop.now) }
{
    match &stop.build {
        Some((_, status)) => is_over(*status),
        None => false,
    }
}

/// The job of a stop, if a build of it has the version and has ended.
fn job_if_ended(found: Option<Stop>) -> Option<String>
    ensures { option_map string_bytes result ≡ option_and_then job_if_ended (option_map stop_data found) }
{
    match found {
        Some(stop) => {
            if has_ended(&stop) {
                Some(stop.job)
            } else {
                None
            }
        }
        None => None,
    }
}

/// The job at which the newest version stopped that an input doesn't take, where a build of it has ended.
pub(crate) fn stopper(
    alloc: Global,
    scene: &Scene<'_>,
    taken: &Taken,
) -> Result<Option<String>, AllocError>
    ensures { IfOk result (λ job. option_map string_bytes job ≡ stopper (scene_data scene.now) taken.now) }
{
    match taken.newer.first() {
        Some(refusal) => {
            let found = stop_said(alloc, scene, taken, refusal)?;
            Ok(job_if_ended(found))
        }
        None => Ok(None),
    }
}
