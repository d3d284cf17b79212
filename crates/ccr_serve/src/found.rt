//! What a check finds.
ghost use Rattle.std.specs.Prelude.{◌≡◌, ◌==◌, IfOk, OnErr, Option, Some};
ghost use Rattle.std.specs.Option.{IfSome, option_copied};
ghost use Rattle.ccr_pipeline.specs.JobData.{resource_data};
ghost use Rattle.ccr_process.specs.Ends.{end_data};
ghost use Rattle.ccr_process.specs.Launches.{launch_data};
ghost use Rattle.ccr_process.specs.Runs.{Pair};
ghost use Rattle.ccr_task.specs.Places.{places_data};
ghost use Rattle.ccr_task.specs.Starting.{started_check};
ghost use Rattle.ccr_serve.specs.Found.{found_data, newest, FindsOutput, FindsExit, FindsBy, Finds, BeginsFind};
ghost use Rattle.ccr_serve.specs.Pairs.{Adds};

use ccr_history::{History, Version};
use ccr_lines::Cause;
use ccr_pipeline::Resource;
use ccr_process::{Ended, Launch, Runner};
use ccr_protocol::{ReplyFault, RequestFault, read_check};
use ccr_task::{Places, Shelf, ShelfFault, check_launch, started_check};
use std::alloc::{AllocError, Global};

/// What a check of a resource finds.
#[derive(Drop)]
pub(crate) enum Found {
    /// Its program listed these versions.
    Versions(Vec<Version>),
    /// Nothing, for this cause.
    Nothing(Cause),
}

/// What the output of a check's program finds, which ended with status 0.
fn found_in(alloc: Global, output: &[u8]) -> Result<Found, AllocError>
    ensures { IfOk result (λ f. FindsOutput output.now (found_data f)) }
{
    match read_check(alloc, output) {
        Ok(versions) => Ok(Found::Versions(versions)),
        Err(ReplyFault::NotJson) => Ok(Found::Nothing(Cause::NotJson)),
        Err(ReplyFault::WrongKind | ReplyFault::MissingVersion) => Ok(Found::Nothing(
            Cause::WrongKind,
        )),
        Err(ReplyFault::VersionNotText) => Ok(Found::Nothing(Cause::VersionNotText)),
        Err(ReplyFault::NoMemory) => Err(AllocError),
    }
}

/// What a check's program finds that ended with this status.
fn found_at(alloc: Global, status: u8, output: &[u8]) -> Result<Found, AllocError>
    ensures { IfOk result (λ f. FindsExit (status == 0) status output.now (found_data f)) }
{
    if status == 0 {
        found_in(alloc, output)
    } else {
        Ok(Found::Nothing(Cause::Status(status)))
    }
}

/// What the end of a check's program finds.
fn found_by(alloc: Global, end: Ended) -> Result<Found, AllocError>
    ensures { IfOk result (λ f. FindsBy (end_data end) (found_data f)) }
{
    match end {
        Ended::Exit(status, output) => found_at(alloc, status, &output),
        Ended::Killed(_) => Ok(Found::Nothing(Cause::Killed)),
        Ended::NotStarted => Ok(Found::Nothing(Cause::NotStarted)),
        Ended::InputFault => Ok(Found::Nothing(Cause::InputFault)),
        Ended::ReadFault => Ok(Found::Nothing(Cause::ReadFault)),
        Ended::OutputTooLong => Ok(Found::Nothing(Cause::OutputTooLong)),
        Ended::NoMemory => Err(AllocError),
    }
}

/// The version of a resource with the greatest place, if there is one.
fn newest_of<'h>(history: &'h History, resource: &Resource) -> Option<&'h Version>
    ensures { option_copied result ≡ newest (resource_data resource.now) history.now }
{
    history.versions(resource.scope()).last()
}

/// Starts what is started of a check's launch, for which the folder of all builds is made, and says what its end finds.
fn find_by_run<R: Runner>(
    alloc: Global,
    runner: &mut R,
    places: &Places,
    resource: &Resource,
    launch: Launch,
) -> Result<Found, AllocError>
    ensures ok { IfOk result (λ f. (pair : Pair) × Adds (R.pairs runner.old) (Some pair) (R.pairs runner.new)
        × (pair.0 ≡ started_check (places_data places.now) (resource_data resource.now) (launch_data launch))
        × FindsBy pair.1 (found_data f)) }
    ensures err { OnErr result ((lost : Option Pair) × Adds (R.pairs runner.old) lost (R.pairs runner.new)
        × IfSome lost (λ pair. pair.0
        ≡ started_check (places_data places.now) (resource_data resource.now) (launch_data launch))) }
{
    let begun = started_check(alloc, places, resource, launch)?;
    found_by(alloc, runner.run(&begun))
}

/// Checks a resource, which is told its newest version: the folder of all builds is made, the one program is run, by the
/// launcher if there is one, and its output is read.
///
/// The only error is out of memory; the program may have run then, and finds nothing.
pub(crate) fn find<R: Runner, S: Shelf>(
    alloc: Global,
    runner: &mut R,
    shelf: &mut S,
    places: &Places,
    resource: &Resource,
    history: &History,
) -> Result<Found, AllocError>
    ensures ok { IfOk result (λ f. (pair : Option Pair) × Adds (R.pairs runner.old) pair (R.pairs runner.new)
        × Finds (places_data places.now) (resource_data resource.now)
        (newest (resource_data resource.now) history.now)
        (S.calls shelf.old) (S.calls shelf.new) pair (found_data f)) }
    ensures err { OnErr result ((lost : Option Pair) × Adds (R.pairs runner.old) lost (R.pairs runner.new)
        × BeginsFind (places_data places.now) (resource_data resource.now)
        (newest (resource_data resource.now) history.now) (S.calls shelf.old) (S.calls shelf.new) lost) }
{
    let launch = match check_launch(alloc, places, resource, newest_of(history, resource)) {
        Ok(launch) => launch,
        Err(RequestFault::TooLong) => return Ok(Found::Nothing(Cause::RequestTooLong)),
        Err(RequestFault::NoMemory) => return Err(AllocError),
    };
    match shelf.make_folder(places.work.as_str()) {
        Ok(()) => {}
        Err(ShelfFault::Failed) => return Ok(Found::Nothing(Cause::FolderFault)),
        Err(ShelfFault::TooLong | ShelfFault::NoMemory) => return Err(AllocError),
    }
    find_by_run(alloc, runner, places, resource, launch)
}
