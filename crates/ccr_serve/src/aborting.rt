//! Builds that are asked to be aborted.
ghost use Rattle.std.specs.Prelude.{◌≡◌, ◌+◌, ◌≤◌, length, true, string_bytes, is_ok, Ok, Err, IfOk, IfErr, OnErr, IsSome, Some, false};
ghost use Rattle.ccr_task.specs.Places.{places_data, abort_folder};
ghost use Rattle.ccr_core.specs.Cores.{core_data};
ghost use Rattle.ccr_core.specs.Events.{abort};
ghost use Rattle.ccr_core.specs.Holding.{Stands};
ghost use Rattle.ccr_core.specs.State.{State, running_at};
ghost use Rattle.ccr_serve.specs.Aborts.{AbortIsAsked, AreLeftovers};
ghost use Rattle.ccr_serve.specs.Due.{IsDue};
ghost use Rattle.ccr_serve.specs.Noted.{IsStepHead, NotesOf};
ghost use Rattle.ccr_serve.specs.Views.{IsReady, Made, Unmade, bare_view, CommitsBuild};
ghost use Rattle.ccr_serve.specs.Served.{ServingLooked, AfterItems};

use crate::due::Due;
use crate::ended::{clear_away, print_ended};
use crate::fault::ServeFault;
use crate::leftovers::Leftovers;
use crate::notes::{tell_fault, waiting_head};
use crate::server::Server;
use ccr_core::{Event, Reply};
use ccr_history::Storage;
use ccr_lines::Lines;
use ccr_process::Runner;
use ccr_task::{Places, Shelf, StepFault};
use std::alloc::{AllocError, Global};

/// Whether it is asked that a build be aborted: the directory at this path, which asks for it, is there, and is removed, so
/// that it asks once. Where one of the two can't be done, it is as if it weren't asked.
pub(crate) fn take_request<S: Shelf>(shelf: &mut S, request: &str) -> bool
    ensures { AbortIsAsked request.now result (S.calls shelf.old) (S.calls shelf.new) }
{
    match shelf.has_folder(request) {
        Ok(true) => shelf.remove_folder(request).is_ok(),
        Ok(false) => false,
        Err(_) => false,
    }
}

/// Whether it is asked that a job's build of this number be aborted, as `take_request` says. `AllocError` where nothing was
/// looked for.
pub(crate) fn take_abort<S: Shelf>(
    alloc: Global,
    shelf: &mut S,
    places: &Places,
    job: &str,
    number: u32,
) -> Result<bool, AllocError>
    ensures asked { IfOk result (λ asked. AbortIsAsked (abort_folder (places_data places.now) job.now number) asked
        (S.calls shelf.old) (S.calls shelf.new)) }
    ensures err { OnErr result (S.calls shelf.new ≡ S.calls shelf.old) }
{
    let request = places.abort_folder(alloc, job, number)?;
    Ok(take_request(shelf, request.as_str()))
}

impl<R: Runner, S: Shelf, T: Storage> Server<R, S, T> {
    /// Aborts a build that runs: what it asks is answered so.
    fn abort(&mut self, job: String, number: u32) -> Result<Reply, ServeFault>
        requires ready { IsReady (bare_view R.Runner S.Shelf T.Storage self.old) }
        requires runs { (s : State) → Stands (core_data self.old.core) s
            → IsSome (running_at (string_bytes job) number s.running) }
        ensures made { let view = bare_view R.Runner S.Shelf T.Storage in
            IfOk result (λ reply. Made (abort (string_bytes job) number) (Ok reply) (view self.old) (view self.new)) }
        ensures unmade { let view = bare_view R.Runner S.Shelf T.Storage in
            IfErr result (λ fault. Unmade (abort (string_bytes job) number) fault (view self.old) (view self.new)) }
    {
        self.core.rules();
        match self.make(Event::Abort(job, number)) {
            Ok(Ok(reply)) => Ok(reply),
            Ok(Err(_)) => unreachable!(),
            Err(fault) => Err(fault),
        }
    }

    /// Aborts the build whose turn it is, for which it was just asked. No program is started.
    pub(crate) fn abort_due<O: Lines>(
        &mut self,
        due: Due,
        name: String,
        left: &Leftovers,
        out: &mut O,
    ) -> Result<(), ServeFault>
        requires ready { IsReady (bare_view R.Runner S.Shelf T.Storage self.old) }
        requires due { IsDue (core_data self.old.core) self.old.last (Some due) }
        requires name { string_bytes name ≡ string_bytes due.job }
        requires left { AreLeftovers (places_data self.old.places) (string_bytes due.job) due.number left.now }
        requires room { length (string_bytes due.job) + 64 ≤ O.room out.old }
        ensures served { ServingLooked R.Runner S.Shelf T.Storage O.Lines true (string_bytes due.job) due.number result
            self.old self.new out.old out.new }
        ensures once { let view = bare_view R.Runner S.Shelf T.Storage in
            CommitsBuild result (view self.old) (view self.new) }
        ensures noted { IfOk result (λ _. NotesOf (IsStepHead (core_data self.old.core) (string_bytes due.job) due.number)
            (Some StepFault.Aborted) (O.notes out.old) (O.notes out.new)) }
        ensures quiet { OnErr result (O.notes out.new ≡ O.notes out.old) }
        ensures after { AfterItems R.Runner S.Shelf T.Storage O.Lines false result self.old self.new out.old out.new }
    {
        let job = due.job.as_str();
        let head = waiting_head(self.alloc, &self.core, job, due.number);
        match self.abort(name, due.number) {
            Ok(reply) => {
                self.last = due.rank;
                tell_fault(self.alloc, out, &head, &Some(StepFault::Aborted));
                print_ended(out, job, due.number, reply);
                clear_away(&mut self.shelf, left, reply);
                Ok(())
            }
            Err(fault) => Err(fault),
        }
    }
}
