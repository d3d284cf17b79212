//! Builds that run to their ends.
ghost use Rattle.std.specs.Prelude.{◌≡◌, Some, Err, IfOk, IfErr};
ghost use Rattle.ccr_serve.specs.Commanding.{build_status, trigger_status, Triggered};
ghost use Rattle.ccr_core.specs.Commands.{run, trigger_job};
ghost use Rattle.ccr_serve.specs.Views.{IsReady, bare_view};
ghost use Rattle.ccr_serve.specs.Served.{Serving, Came, AfterCommand};

use crate::ended::{ended_at_once, forget};
use crate::fault::ServeFault;
use crate::items::begin_job;
use crate::server::Server;
use ccr_core::{CoreFault, Event, Reply};
use ccr_history::{BuildRef, History, Status, Storage};
use ccr_lines::{Lines, print_job};
use ccr_process::Runner;
use ccr_task::Shelf;

/// The status of a command that made this build: 0 where it has succeeded.
fn status_of_build(build: &BuildRef<'_>) -> u8
    ensures { result ≡ build_status (Some build.now) }
{
    match build.status() {
        Status::Succeeded => 0,
        Status::Running | Status::Failed | Status::Errored | Status::Aborted => 1,
    }
}

/// The status of a command that triggered a job, which the core replied so.
fn status_of_reply(job: &str, reply: Reply, history: &History) -> u8
    ensures { result ≡ trigger_status job.now reply history.now }
{
    match reply {
        Reply::Made(number) => match history.build(job, number) {
            Some(build) => status_of_build(&build),
            None => 1,
        },
        Reply::OverBudget(_) => 3,
        Reply::Set
        | Reply::New(_)
        | Reply::NoneSatisfies
        | Reply::NotNew
        | Reply::Busy
        | Reply::Goes
        | Reply::Ends(_)
        | Reply::Pinned
        | Reply::Unpinned
        | Reply::Disabled
        | Reply::Enabled
        | Reply::Restarted => 1,
    }
}

impl<R: Runner, S: Shelf, T: Storage> Server<R, S, T> {
    /// Triggers the job of this name: the core's reply. Its lines are printed once that is stored;
    /// where the build has ended at once, what asks for its abort is removed then.
    ///
    /// - `Core` where the core refuses it, and `NoMemory` if out of memory; then nothing has changed.
    /// - `Store` where the storage failed; then the server has closed.
    fn trigger<O: Lines>(&mut self, job: &str, out: &mut O) -> Result<Reply, ServeFault>
        requires ready { IsReady (bare_view R.Runner S.Shelf T.Storage self.old) }
        ensures replied { IfOk result (λ reply. Serving R.Runner S.Shelf T.Storage O.Lines
            (λ places. Triggered places job.now reply) result self.old self.new out.old out.new) }
        ensures came { IfErr result (λ fault. Came R.Runner S.Shelf T.Storage O.Lines (trigger_job job.now) (Err fault)
            self.old self.new out.old out.new) }
        ensures after { AfterCommand R.Runner S.Shelf T.Storage O.Lines result self.old self.new out.old out.new }
    {
        let Ok((copy, request)) = begin_job(self.alloc, &self.places, self.core.history(), job, out)
        else {
            return Err(ServeFault::NoMemory);
        };
        // What a core keeps says that it stands for a state, in which the build's number is known.
        self.core.rules();
        match self.make(Event::Trigger(copy)) {
            Ok(replied) => match replied {
                Ok(reply) => {
                    let history = self.core.history();
                    let ended = ended_at_once(history, job, &Ok(reply));
                    print_job(out, job, reply, history);
                    out.hand_out();
                    forget(&mut self.shelf, request.as_str(), ended);
                    Ok(reply)
                }
                Err(fault) => Err(ServeFault::Core(fault)),
            },
            Err(fault) => Err(fault),
        }
    }

    /// Makes a build of the job of this name, and takes turns until no build runs: status 0 where it succeeded.
    pub(crate) fn trigger_job<O: Lines>(&mut self, job: &str, out: &mut O) -> Result<u8, ServeFault>
        requires ready { IsReady (bare_view R.Runner S.Shelf T.Storage self.old) }
        ensures came { Came R.Runner S.Shelf T.Storage O.Lines (trigger_job job.now) result
            self.old self.new out.old out.new }
        ensures after { AfterCommand R.Runner S.Shelf T.Storage O.Lines result self.old self.new out.old out.new }
    {
        let reply = match self.trigger(job, out) {
            Ok(reply) => reply,
            Err(fault) => return Err(fault),
        };
        let ended = match self.go_to_the_end(out) {
            Ok(ended) => ended,
            Err(fault) => return Err(fault),
        };
        if ended {
            Ok(status_of_reply(job, reply, self.core.history()))
        } else {
            Err(ServeFault::TurnsUsedUp)
        }
    }

    /// Runs so many rounds, and then takes turns until no build runs.
    pub(crate) fn run<O: Lines>(&mut self, rounds: u32, out: &mut O) -> Result<u8, ServeFault>
        requires ready { IsReady (bare_view R.Runner S.Shelf T.Storage self.old) }
        ensures came { Came R.Runner S.Shelf T.Storage O.Lines (run rounds) result
            self.old self.new out.old out.new }
        ensures after { AfterCommand R.Runner S.Shelf T.Storage O.Lines result self.old self.new out.old out.new }
    {
        match self.core.pipeline() {
            Some(_) => {}
            None => return Err(ServeFault::Core(CoreFault::NoPipeline)),
        }
        match self.go_rounds(rounds, out) {
            Ok(()) => {}
            Err(fault) => return Err(fault),
        }
        let ended = match self.go_to_the_end(out) {
            Ok(ended) => ended,
            Err(fault) => return Err(fault),
        };
        if ended {
            Ok(0)
        } else {
            Err(ServeFault::TurnsUsedUp)
        }
    }
}
