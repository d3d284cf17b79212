//! Turns: the one ask of a build is answered, or aborted.
ghost use Rattle.std.specs.Prelude.{◌≡◌, ◌+◌, ◌≤◌, List, [], ◌∷◌, length, string_bytes, true, false, Ok, Err, IfOk, IfErr, OnOk, OnErr, Some};
ghost use Rattle.ccr_steps.specs.Asks.{AnswerData, answer_data, errored};
ghost use Rattle.ccr_steps.specs.declared.ask.Ask.{Ask};
ghost use Rattle.ccr_task.specs.Calls.{CallData};
ghost use Rattle.ccr_task.specs.Places.{places_data};
ghost use Rattle.ccr_core.specs.Cores.{core_data};
ghost use Rattle.ccr_core.specs.Events.{answer};
ghost use Rattle.ccr_core.specs.Holding.{Wants};
ghost use Rattle.ccr_serve.specs.Aborts.{AreLeftovers};
ghost use Rattle.ccr_serve.specs.Due.{IsDue, Gives};
ghost use Rattle.ccr_serve.specs.Noted.{IsFaultOf, NotesAnswer, NotesBuild, NotesTurn};
ghost use Rattle.ccr_serve.specs.Items as item;
ghost use Rattle.ccr_serve.specs.Serving.{ItemsOf};
ghost use Rattle.ccr_serve.specs.Views.{is_running, CommitsOnce, IsReady, Made, Unmade, bare_view, CommitsBuild};
ghost use Rattle.ccr_serve.specs.Served.{Serving, ServingLooked, AfterItems};

use crate::aborting::take_request;
use crate::due::{Due, due_build};
use crate::ended::{clear_away, print_ended};
use crate::fault::ServeFault;
use crate::items::{begin, line_room};
use crate::leftovers::{Leftovers, leftovers_of};
use crate::notes::{asking_head, tell_fault};
use crate::server::Server;
use crate::wanted::answer_wanted;
use ccr_core::{CoreFault, Event, Reply};
use ccr_history::Storage;
use ccr_lines::Lines;
use ccr_process::Runner;
use ccr_steps::Answered;
use ccr_task::{Said, Shelf, StepFault};
use std::alloc::{AllocError, Global};

/// Makes room for the line of a job's build, and copies the job's name for the two events that its answer may take.
fn begin_turn<O: Lines>(
    alloc: Global,
    job: &str,
    out: &mut O,
) -> Result<(String, String), AllocError>
    ensures one { IfOk result (λ names. string_bytes names.0 ≡ job.now) }
    ensures other { IfOk result (λ names. string_bytes names.1 ≡ job.now) }
    ensures room { OnOk result (length job.now + 64 ≤ O.room out.new) }
    ensures same { O.written out.new ≡ O.written out.old }
    ensures notes { O.notes out.new ≡ O.notes out.old }
    ensures waiting { O.waiting out.new ≡ O.waiting out.old }
{
    let one = begin(alloc, job, line_room(job), out)?;
    let other = String::from_str(alloc, job)?;
    Ok((one, other))
}

impl<R: Runner, S: Shelf, T: Storage> Server<R, S, T> {
    /// Gives a build errored in the place of its answer.
    fn give_errored(&mut self, job: String, number: u32, turn: u64) -> Result<Reply, ServeFault>
        requires ready { IsReady (bare_view R.Runner S.Shelf T.Storage self.old) }
        requires wants { (ask : Ask) × Wants (core_data self.old.core) (string_bytes job) number (Some (turn, ask)) }
        ensures made { let view = bare_view R.Runner S.Shelf T.Storage in
            IfOk result (λ reply. Made (answer (string_bytes job) number turn errored) (Ok reply)
            (view self.old) (view self.new)) }
        ensures unmade { let view = bare_view R.Runner S.Shelf T.Storage in
            IfErr result (λ fault. Unmade (answer (string_bytes job) number turn errored) fault
            (view self.old) (view self.new)) }
    {
        self.core.rules();
        match self.make(Event::Answer(job, number, turn, Answered::Errored)) {
            Ok(Ok(reply)) => Ok(reply),
            Ok(Err(_)) => unreachable!(),
            Err(fault) => Err(fault),
        }
    }

    /// Gives a build its answer, or errored in its place where the core has no room for what it pushes; that is the fault
    /// then. The names are both that of its job.
    fn give(
        &mut self,
        names: (String, String),
        number: u32,
        turn: u64,
        answered: Answered,
        fault: &mut Option<StepFault>,
    ) -> Result<Reply, ServeFault>
        requires ready { IsReady (bare_view R.Runner S.Shelf T.Storage self.old) }
        requires same { string_bytes names.1 ≡ string_bytes names.0 }
        requires wants { (ask : Ask)
            × Wants (core_data self.old.core) (string_bytes names.0) number (Some (turn, ask)) }
        ensures fault { OnOk result (IsFaultOf (core_data self.old.core)
            (answer (string_bytes names.0) number turn (answer_data answered)) fault.old fault.new) }
        ensures gives { let view = bare_view R.Runner S.Shelf T.Storage in
            IfOk result (λ reply. Gives (string_bytes names.0) number turn (answer_data answered) reply
            (view self.old) (view self.new)) }
        ensures unmade { let view = bare_view R.Runner S.Shelf T.Storage in
            IfErr result (λ stop. (given : AnswerData) × Unmade (answer (string_bytes names.0) number turn given) stop
            (view self.old) (view self.new)) }
    {
        self.core.rules();
        let (named, again) = names;
        match self.make(Event::Answer(named, number, turn, answered)) {
            Ok(Ok(reply)) => Ok(reply),
            Ok(Err(CoreFault::TableFull)) => {
                *fault = Some(StepFault::TableFull);
                self.give_errored(again, number, turn)
            }
            Ok(Err(_)) => unreachable!(),
            Err(fault) => Err(fault),
        }
    }

    /// Answers what the build asks whose turn it is. It was just looked whether it is asked that it be aborted, and it isn't.
    fn answer_due<O: Lines>(
        &mut self,
        due: Due,
        names: (String, String),
        left: &Leftovers,
        out: &mut O,
    ) -> Result<(), ServeFault>
        requires ready { IsReady (bare_view R.Runner S.Shelf T.Storage self.old) }
        requires due { IsDue (core_data self.old.core) self.old.last (Some due) }
        requires one { string_bytes names.0 ≡ string_bytes due.job }
        requires other { string_bytes names.1 ≡ string_bytes due.job }
        requires left { AreLeftovers (places_data self.old.places) (string_bytes due.job) due.number left.now }
        requires room { length (string_bytes due.job) + 64 ≤ O.room out.old }
        ensures served { ServingLooked R.Runner S.Shelf T.Storage O.Lines false (string_bytes due.job) due.number result
            self.old self.new out.old out.new }
        ensures once { let view = bare_view R.Runner S.Shelf T.Storage in
            CommitsBuild result (view self.old) (view self.new) }
        ensures noted { IfOk result (λ _. (after : List CallData)
            × NotesAnswer (places_data self.old.places) (core_data self.old.core) (string_bytes due.job) due.number
            (R.pairs self.old.runner) (R.pairs self.new.runner) (S.calls self.old.shelf) after
            (O.notes out.old) (O.notes out.new)) }
        ensures quiet { OnErr result (O.notes out.new ≡ O.notes out.old) }
        ensures after { AfterItems R.Runner S.Shelf T.Storage O.Lines false result self.old self.new out.old out.new }
    {
        let job = due.job.as_str();
        let Ok((turn, said)) = answer_wanted(
            self.alloc,
            &mut self.runner,
            &mut self.shelf,
            &self.places,
            &self.core,
            job,
            due.number,
        ) else {
            return Err(ServeFault::NoMemory);
        };
        let head = asking_head(self.alloc, &self.core, job, due.number);
        let Said {
            answered,
            mut fault,
        } = said;
        match self.give(names, due.number, turn, answered, &mut fault) {
            Ok(reply) => {
                self.last = due.rank;
                tell_fault(self.alloc, out, &head, &fault);
                print_ended(out, job, due.number, reply);
                clear_away(&mut self.shelf, left, reply);
                Ok(())
            }
            Err(fault) => Err(fault),
        }
    }

    /// Serves the build whose turn it is: aborts it where that is asked, and else answers what it asks.
    fn serve_build<O: Lines>(&mut self, due: Due, out: &mut O) -> Result<(), ServeFault>
        requires ready { IsReady (bare_view R.Runner S.Shelf T.Storage self.old) }
        requires due { IsDue (core_data self.old.core) self.old.last (Some due) }
        ensures served { Serving R.Runner S.Shelf T.Storage O.Lines (ItemsOf (item.turn ∷ [])) result
            self.old self.new out.old out.new }
        ensures once { let view = bare_view R.Runner S.Shelf T.Storage in
            CommitsBuild result (view self.old) (view self.new) }
        ensures noted { IfOk result (λ _. NotesBuild (places_data self.old.places) (core_data self.old.core)
            (string_bytes due.job) due.number (R.pairs self.old.runner) (R.pairs self.new.runner)
            (S.calls self.old.shelf) (O.notes out.old) (O.notes out.new)) }
        ensures quiet { OnErr result (O.notes out.new ≡ O.notes out.old) }
        ensures after { AfterItems R.Runner S.Shelf T.Storage O.Lines false result self.old self.new out.old out.new }
    {
        let job = due.job.as_str();
        let Ok(names) = begin_turn(self.alloc, job, out) else {
            return Err(ServeFault::NoMemory);
        };
        let Ok(left) = leftovers_of(self.alloc, &self.places, job, due.number) else {
            return Err(ServeFault::NoMemory);
        };
        let asked = take_request(&mut self.shelf, left.request.as_str());
        if asked {
            self.abort_due(due, names.0, &left, out)
        } else {
            self.answer_due(due, names, &left, out)
        }
    }

    /// Serves the build whose turn it is; false where no build runs. What it asks is answered, or aborted where that is asked
    /// by a folder that is there. Where the build ends, its line is printed once that is stored, and its directory is removed,
    /// and one that asks for its abort.
    ///
    /// An answer for which the core has no room is given again as errored.
    ///
    /// - `NoMemory` if out of memory; the program may have run by then, and is run again at the build's next
    ///   turn. What asked for an abort may be removed by then.
    /// - `Store` where the storage failed; then the server has closed.
    pub(crate) fn take_turn<O: Lines>(&mut self, out: &mut O) -> Result<bool, ServeFault>
        requires ready { IsReady (bare_view R.Runner S.Shelf T.Storage self.old) }
        ensures served { Serving R.Runner S.Shelf T.Storage O.Lines (ItemsOf (item.turn ∷ [])) result
            self.old self.new out.old out.new }
        ensures some { IfOk result (λ served. served ≡ is_running (core_data self.old.core)) }
        ensures once { let view = bare_view R.Runner S.Shelf T.Storage in
            CommitsOnce result (view self.old) (view self.new) }
        ensures noted { NotesTurn result (places_data self.old.places) (core_data self.old.core) self.old.last
            (R.pairs self.old.runner) (R.pairs self.new.runner) (S.calls self.old.shelf)
            (O.notes out.old) (O.notes out.new) }
        ensures after { AfterItems R.Runner S.Shelf T.Storage O.Lines false result self.old self.new out.old out.new }
    {
        let due = match due_build(self.alloc, &self.core, self.last) {
            Ok(Some(due)) => due,
            Ok(None) => return Ok(false),
            Err(_) => return Err(ServeFault::NoMemory),
        };
        match self.serve_build(due, out) {
            Ok(()) => Ok(true),
            Err(fault) => Err(fault),
        }
    }
}
