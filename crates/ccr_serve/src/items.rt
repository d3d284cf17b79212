//! The items of a round that make events: checks and schedules.
ghost use Rattle.std.specs.Prelude.{◌≡◌, ◌+◌, ◌*◌, ◌^◌, ◌≤◌, ◌++◌, [], ◌∷◌, List, length, string_bytes, is_ok, IfOk, OnOk, OnErr, IfSome, IfNone, IsSome, IsSomeAnd, Some, Option, false};
ghost use Rattle.ccr_history.specs.Builds.{count_of};
ghost use Rattle.ccr_history.specs.TextMap.{TextMap};
ghost use Rattle.ccr_history.specs.History.{HistoryData};
ghost use Rattle.ccr_pipeline.specs.JobData.{ResourceData};
ghost use Rattle.ccr_problem.specs.ProblemOf.{resource_of};
ghost use Rattle.ccr_process.specs.Runs.{Pair};
ghost use Rattle.ccr_task.specs.Places.{places_data, abort_folder};
ghost use Rattle.ccr_core.specs.Cores.{core_data};
ghost use Rattle.ccr_core.specs.Events as event;
ghost use Rattle.ccr_lines.specs.Lines.{lines_of};
ghost use Rattle.ccr_serve.specs.Found.{found_data, newest, Finds, BeginsFind};
ghost use Rattle.ccr_serve.specs.Items.{Noting};
ghost use Rattle.ccr_serve.specs.Items as item;
ghost use Rattle.ccr_serve.specs.Pairs.{Adds};
ghost use Rattle.ccr_serve.specs.Serving.{ItemsOf};
ghost use Rattle.ccr_serve.specs.Taken.{all_taken};
ghost use Rattle.ccr_serve.specs.Views.{resources_held, IsReady, bare_view};
ghost use Rattle.ccr_serve.specs.Served.{Serving, AfterItems};

use crate::ended::{ended_at_once, forget};
use crate::fault::ServeFault;
use crate::found::{Found, find};
use crate::server::Server;
use ccr_core::{Core, CoreFault, Event, Reply};
use ccr_history::{History, Storage};
use ccr_lines::{Lines, print_cause, print_full, print_job, print_new, print_refused_job};
use ccr_process::Runner;
use ccr_task::{Places, Shelf};
use std::alloc::{AllocError, Global};

/// Makes room for so many bytes of lines, and copies the name that an event takes with it. There is no room where no
/// number tells it.
pub(crate) fn begin<O: Lines>(
    alloc: Global,
    name: &str,
    room: Option<usize>,
    out: &mut O,
) -> Result<String, AllocError>
    ensures copied { IfOk result (λ copy. string_bytes copy ≡ name.now) }
    ensures room { OnOk result (IsSomeAnd room (λ bytes. bytes ≤ O.room out.new)) }
    ensures same { O.written out.new ≡ O.written out.old }
    ensures notes { O.notes out.new ≡ O.notes out.old }
    ensures waiting { O.waiting out.new ≡ O.waiting out.old }
{
    let Some(bytes) = room else {
        return Err(AllocError);
    };
    out.make_room(bytes)?;
    String::from_str(alloc, name)
}

/// Makes room for the lines of a job, copies its name for the event that may make a build of it, and makes the path of what
/// asks to abort that build.
pub(crate) fn begin_job<O: Lines>(
    alloc: Global,
    places: &Places,
    history: &History,
    job: &str,
    out: &mut O,
) -> Result<(String, String), AllocError>
    ensures copied { IfOk result (λ begun. string_bytes begun.0 ≡ job.now) }
    ensures request { IfOk result (λ begun. string_bytes begun.1
        ≡ abort_folder (places_data places.now) job.now (count_of job.now history.now.builds + 1)) }
    ensures room { OnOk result (2 * length job.now + 64 ≤ O.room out.new) }
    ensures same { O.written out.new ≡ O.written out.old }
    ensures notes { O.notes out.new ≡ O.notes out.old }
    ensures waiting { O.waiting out.new ≡ O.waiting out.old }
{
    let copy = begin(alloc, job, job_room(job), out)?;
    history.rules();
    let request = places.abort_folder(alloc, job, history.count_of(job) + 1)?;
    Ok((copy, request))
}

/// For how many bytes the line of a name needs room; None where no number tells it.
pub(crate) fn line_room(name: &str) -> Option<usize>
    ensures some { IfSome result (λ room. room ≡ length name.now + 64) }
    ensures none { IfNone result (2 ^ 64 ≤ length name.now + 64) }
{
    name.len().checked_add(64)
}

/// For how many bytes the lines of a job need room; None where no number tells it.
pub(crate) fn job_room(job: &str) -> Option<usize>
    ensures some { IfSome result (λ room. room ≡ 2 * length job.now + 64) }
    ensures none { IfNone result (2 ^ 64 ≤ 2 * length job.now + 64) }
{
    job.len().checked_mul(2)?.checked_add(64)
}

/// Finds the versions of a resource that the core's pipeline has under a name.
fn find_named<R: Runner, S: Shelf>(
    alloc: Global,
    runner: &mut R,
    shelf: &mut S,
    places: &Places,
    core: &Core,
    name: &str,
) -> Result<Found, AllocError>
    requires { IsSome (resource_of name.now (resources_held (core_data core.now))) }
    ensures ok { IfOk result (λ f. (one : ResourceData) × (pair : Option Pair)
        × (resource_of name.now (resources_held (core_data core.now)) ≡ Some one)
        × Adds (R.pairs runner.old) pair (R.pairs runner.new)
        × Finds (places_data places.now) one (newest one (core_data core.now).history)
        (S.calls shelf.old) (S.calls shelf.new) pair (found_data f)) }
    ensures err { OnErr result ((one : ResourceData) × (lost : Option Pair)
        × (resource_of name.now (resources_held (core_data core.now)) ≡ Some one)
        × Adds (R.pairs runner.old) lost (R.pairs runner.new)
        × BeginsFind (places_data places.now) one (newest one (core_data core.now).history)
        (S.calls shelf.old) (S.calls shelf.new) lost) }
{
    let pipeline = core.pipeline().unwrap();
    let resource = pipeline.resource(name).unwrap();
    find(alloc, runner, shelf, places, resource, core.history())
}

/// Writes the lines of a check's event.
fn print_checked<O: Lines>(out: &mut O, resource: &str, replied: &Result<Reply, CoreFault>)
    requires { length resource.now + 64 ≤ O.room out.old }
    ensures told { (vs : List TextMap) (h : HistoryData)
        → O.written out.new ≡ O.written out.old ++ lines_of (event.checked resource.now vs) replied.now h }
    ensures shown { O.waiting out.new ≡ [] }
{
    match replied {
        Ok(Reply::New(new)) => print_new(out, resource, *new),
        Err(CoreFault::TableFull) => print_full(out, resource),
        Ok(
            Reply::Set
            | Reply::Made(_)
            | Reply::NoneSatisfies
            | Reply::OverBudget(_)
            | Reply::NotNew
            | Reply::Busy
            | Reply::Goes
            | Reply::Ends(_)
            | Reply::Pinned
            | Reply::Unpinned
            | Reply::Disabled
            | Reply::Enabled
            | Reply::Restarted,
        )
        | Err(
            CoreFault::NoPipeline
            | CoreFault::NoJob
            | CoreFault::NoResource
            | CoreFault::NoBuild
            | CoreFault::BuildsOpen
            | CoreFault::NotWanted
            | CoreFault::TooManyOpen
            | CoreFault::NoVersion
            | CoreFault::NoMemory,
        ) => {}
    }
    out.hand_out();
}

/// Writes the lines of a schedule's event.
fn print_scheduled<O: Lines>(
    out: &mut O,
    job: &str,
    replied: Result<Reply, CoreFault>,
    history: &History,
)
    requires { 2 * length job.now + 64 ≤ O.room out.old }
    ensures told { O.written out.new ≡ O.written out.old ++ lines_of (event.schedule job.now) replied history.now }
    ensures shown { O.waiting out.new ≡ [] }
{
    match replied {
        Ok(reply) => print_job(out, job, reply, history),
        Err(fault) => print_refused_job(out, job, fault),
    }
    out.hand_out();
}

impl<R: Runner, S: Shelf, T: Storage> Server<R, S, T> {
    /// Checks a resource of the pipeline: whether its program listed versions that the core took. Its line is printed
    /// once that is stored.
    ///
    /// - `NoMemory` if out of memory; the program may have run by then.
    /// - `Store` where the storage failed; then the server has closed.
    pub(crate) fn check<O: Lines>(&mut self, name: &str, out: &mut O) -> Result<bool, ServeFault>
        requires ready { IsReady (bare_view R.Runner S.Shelf T.Storage self.old) }
        requires there { IsSome (resource_of name.now (resources_held (core_data self.old.core))) }
        ensures served { Serving R.Runner S.Shelf T.Storage O.Lines
            (λ places. Noting (ItemsOf (item.check name.now ∷ []) places)
            (λ ds. IfOk result (λ good. good ≡ all_taken ds))) result self.old self.new out.old out.new }
        ensures after { AfterItems R.Runner S.Shelf T.Storage O.Lines false result self.old self.new out.old out.new }
    {
        let Ok(copy) = begin(self.alloc, name, line_room(name), out) else {
            return Err(ServeFault::NoMemory);
        };
        let Ok(found) = find_named(
            self.alloc,
            &mut self.runner,
            &mut self.shelf,
            &self.places,
            &self.core,
            name,
        ) else {
            return Err(ServeFault::NoMemory);
        };
        match found {
            Found::Versions(versions) => match self.make(Event::Checked(copy, versions)) {
                Ok(replied) => {
                    print_checked(out, name, &replied);
                    Ok(replied.is_ok())
                }
                Err(fault) => Err(fault),
            },
            Found::Nothing(cause) => {
                print_cause(out, name, cause);
                out.hand_out();
                Ok(false)
            }
        }
    }

    /// Gives a job its chance of a build: one is made if there is something new for it. Its lines are printed once that
    /// is stored; a job that the core refuses to schedule is no error. Where the build has ended at once, what asks for its
    /// abort is removed then.
    ///
    /// - `NoMemory` if out of memory; then nothing has changed.
    /// - `Store` where the storage failed; then the server has closed.
    pub(crate) fn schedule<O: Lines>(&mut self, name: &str, out: &mut O) -> Result<(), ServeFault>
        requires ready { IsReady (bare_view R.Runner S.Shelf T.Storage self.old) }
        ensures served { Serving R.Runner S.Shelf T.Storage O.Lines (ItemsOf (item.schedule name.now ∷ [])) result
            self.old self.new out.old out.new }
        ensures after { AfterItems R.Runner S.Shelf T.Storage O.Lines false result self.old self.new out.old out.new }
    {
        let Ok((copy, request)) = begin_job(
            self.alloc,
            &self.places,
            self.core.history(),
            name,
            out,
        ) else {
            return Err(ServeFault::NoMemory);
        };
        // What a core keeps says that it stands for a state, in which the build's number is known.
        self.core.rules();
        match self.make(Event::Schedule(copy)) {
            Ok(replied) => {
                let history = self.core.history();
                let ended = ended_at_once(history, name, &replied);
                print_scheduled(out, name, replied, history);
                forget(&mut self.shelf, request.as_str(), ended);
                Ok(())
            }
            Err(fault) => Err(fault),
        }
    }
}
