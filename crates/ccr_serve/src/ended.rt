//! What is done of a build that has ended.
ghost use Rattle.std.specs.Prelude.{◌≡◌, ◌+◌, ◌≤◌, ◌++◌, [], ℕ, length, Ok};
ghost use Rattle.std.specs.Option.{IfSome};
ghost use Rattle.ccr_history.specs.Builds.{build_of};
ghost use Rattle.ccr_history.specs.History.{HistoryData};
ghost use Rattle.ccr_history.specs.Text.{Text};
ghost use Rattle.ccr_steps.specs.Asks.{AnswerData};
ghost use Rattle.ccr_task.specs.Places.{PlacesData, abort_folder};
ghost use Rattle.ccr_core.specs.Events.{answer, abort};
ghost use Rattle.ccr_lines.specs.Lines.{lines_of};
ghost use Rattle.ccr_serve.specs.Aborts.{AreLeftovers, Clears, Forgets, ended_at_once, has_ended, is_ended};

use crate::aborting::take_request;
use crate::leftovers::Leftovers;
use ccr_core::{CoreFault, Reply};
use ccr_history::{History, Status};
use ccr_lines::{Lines, print_end};
use ccr_task::Shelf;

/// Writes the line of a build that ended.
pub(crate) fn print_ended<O: Lines>(out: &mut O, job: &str, number: u32, reply: Reply)
    requires { length job.now + 64 ≤ O.room out.old }
    ensures answered { (turn : ℕ) (x : AnswerData) (h : HistoryData)
        → O.written out.new ≡ O.written out.old ++ lines_of (answer job.now number turn x) (Ok reply) h }
    ensures aborted { (h : HistoryData)
        → O.written out.new ≡ O.written out.old ++ lines_of (abort job.now number) (Ok reply) h }
    ensures notes { O.notes out.new ≡ O.notes out.old }
    ensures waiting { O.waiting out.old ≡ [] → O.waiting out.new ≡ [] }
{
    if let Reply::Ends(outcome) = reply {
        print_end(out, job, number, outcome);
        out.hand_out();
    }
}

/// Removes the directory of a build that ended, and one that asks for its abort. A failure changes nothing else.
pub(crate) fn clear_away<S: Shelf>(shelf: &mut S, left: &Leftovers, reply: Reply)
    ensures { (places : PlacesData) (job : Text) (number : ℕ) → AreLeftovers places job number left.now
        → Clears places job number reply (S.calls shelf.old) (S.calls shelf.new) }
{
    if let Reply::Ends(_) = reply {
        let build = left.build.as_str();
        let request = left.request.as_str();
        let _ = shelf.remove_folder(build);
        let _ = take_request(shelf, request);
    }
}

/// Whether a build that stands so has ended.
fn is_ended(status: Status) -> bool
    ensures { result ≡ is_ended status }
{
    match status {
        Status::Running => false,
        Status::Succeeded | Status::Failed | Status::Errored | Status::Aborted => true,
    }
}

/// Whether a job's build of this number has ended.
fn has_ended(history: &History, job: &str, number: u32) -> bool
    ensures { result ≡ has_ended (build_of job.now number history.now.builds) }
{
    match history.build(job, number) {
        Some(build) => is_ended(build.status()),
        None => false,
    }
}

/// The number of the job's build that an event with this reply made, if that build has ended in it.
pub(crate) fn ended_at_once(
    history: &History,
    job: &str,
    replied: &Result<Reply, CoreFault>,
) -> Option<u32>
    ensures { result ≡ ended_at_once job.now replied.now history.now }
{
    match replied {
        Ok(Reply::Made(number)) if has_ended(history, job, *number) => Some(*number),
        Ok(
            Reply::Made(_)
            | Reply::Set
            | Reply::New(_)
            | Reply::NoneSatisfies
            | Reply::OverBudget(_)
            | Reply::NotNew
            | Reply::Busy
            | Reply::Goes
            | Reply::Ends(_)
            | Reply::Pinned
            | Reply::Unpinned
            | Reply::Disabled
            | Reply::Enabled
            | Reply::Restarted,
        )
        | Err(
            CoreFault::NoPipeline
            | CoreFault::NoJob
            | CoreFault::NoResource
            | CoreFault::NoBuild
            | CoreFault::BuildsOpen
            | CoreFault::NotWanted
            | CoreFault::TooManyOpen
            | CoreFault::TableFull
            | CoreFault::NoVersion
            | CoreFault::NoMemory,
        ) => None,
    }
}

/// Removes the directory at this path, which asks to abort the job's build of this number, if there is such a build. A failure
/// changes nothing else.
pub(crate) fn forget<S: Shelf>(shelf: &mut S, request: &str, number: Option<u32>)
    ensures { (places : PlacesData) (job : Text) → IfSome number (λ n. request.now ≡ abort_folder places job n)
        → Forgets places job number (S.calls shelf.old) (S.calls shelf.new) }
{
    match number {
        Some(_) => {
            let _ = take_request(shelf, request);
        }
        None => {}
    }
}
