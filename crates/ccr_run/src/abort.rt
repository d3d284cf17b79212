//! A build is asked to be aborted. No database is opened: another `ccr_run` may have it open, and runs the build.
ghost use Rattle.std.specs.Prelude.{◌≡◌, ◌≤◌, ◌++◌, ◌∷◌, [], Bool, None, Result, true, length, option_map, string_bytes, IfOk, OnOk, OnErr};
ghost use Rattle.ccr_pipeline.specs.Kinds.{is_name};
ghost use Rattle.ccr_task.specs.Calls.{has};
ghost use Rattle.ccr_task.specs.declared.fault.ShelfFault.{ShelfFault as ShelfFaultData};
ghost use Rattle.ccr_run.specs.Aborting.{abort_status, asked_line, Asks};
ghost use Rattle.ccr_run.specs.Aborting as spec;
ghost use Rattle.ccr_run.specs.Explained.{nothing_told, told_data, hint_lines, refusal_lines, TellsLines};
ghost use Rattle.ccr_run.specs.Hints.{hint_data};
ghost use Rattle.ccr_run.specs.Refusals.{refusal_data};
ghost use Rattle.ccr_run.specs.Statuses.{printed_status};
ghost use Rattle.ccr_run.specs.Writers.{GetsLines};

use crate::hint::Hint;
use crate::order::AbortOrder;
use crate::refusal::{Refusal, broken, refused};
use crate::run::places_of;
use crate::tell::tell_unprinted;
use crate::telling::Telling;
use ccr_lines::Lines;
use ccr_pipeline::is_name;
use ccr_task::{Shelf, ShelfFault, ask_abort};
use std::alloc::{AllocError, Global};
use std::io::Write;

/// Why a build isn't asked to be aborted.
#[derive(Clone, Copy, PartialEq, Eq)]
pub enum AbortFault {
    /// No job can have the name.
    NoJob,
    /// The directory that asks for it can't be made.
    NotWritten,
    /// Out of memory.
    NoMemory,
}

/// How it reads that a build isn't asked to be aborted.
fn refusal_of<'a>(fault: AbortFault) -> Refusal<'a>
    ensures { refusal_data result ≡ spec.refusal_of fault }
{
    match fault {
        AbortFault::NoJob => refused("no such job"),
        AbortFault::NotWritten => broken("file: cannot write"),
        AbortFault::NoMemory => broken("out of memory"),
    }
}

/// The line that says that the build is asked to be aborted.
fn asked_line(alloc: Global, order: &AbortOrder<'_>) -> Result<String, AllocError>
    ensures { IfOk result (λ line. string_bytes line ≡ asked_line order.now) }
{
    let job = order.build.job;
    let number = order.build.number;
    format!(in alloc; "abort asked: {job} {number}\n")
}

/// Whether a build runs, by whether its folder is there: it does, where that can't be told.
fn runs<F: Shelf>(shelf: &mut F, folder: &str) -> bool
    ensures { (answer : Result Bool ShelfFaultData)
        × (F.calls shelf.new ≡ F.calls shelf.old ++ has folder.now answer ∷ []) × (result ≡ spec.runs answer) }
{
    match shelf.has_folder(folder) {
        Ok(is_there) => is_there,
        Err(_) => true,
    }
}

/// Asks for the build that is ordered to be aborted, by a directory of the shelf, and says whether it runs, as far as can be
/// told.
fn ask<F: Shelf>(alloc: Global, shelf: &mut F, order: &AbortOrder<'_>) -> Result<bool, AbortFault>
    requires { is_name order.now.build.job.now ≡ true }
    ensures { Asks order.now (F.calls shelf.old) result (F.calls shelf.new) }
{
    let build = order.build;
    let options = order.options;
    let Ok(places) = places_of(alloc, options.types, options.work, options.launcher) else {
        return Err(AbortFault::NoMemory);
    };
    let Ok(folder) = places.build_folder(alloc, build.job, build.number) else {
        return Err(AbortFault::NoMemory);
    };
    let is_running = runs(shelf, folder.as_str());
    match ask_abort(alloc, shelf, &places, build.job, build.number) {
        Ok(()) => Ok(is_running),
        Err(ShelfFault::Failed) => Err(AbortFault::NotWritten),
        Err(ShelfFault::TooLong | ShelfFault::NoMemory) => Err(AbortFault::NoMemory),
    }
}

/// The line that says that the build is asked to be aborted, once there is room for it.
fn line_with_room<O: Lines>(
    alloc: Global,
    order: &AbortOrder<'_>,
    out: &mut O,
) -> Result<String, AllocError>
    ensures line { IfOk result (λ line. string_bytes line ≡ asked_line order.now) }
    ensures room { IfOk result (λ line. length (string_bytes line) ≤ O.room out.new) }
    ensures same { O.written out.new ≡ O.written out.old }
    ensures waiting { O.waiting out.new ≡ O.waiting out.old }
    ensures quiet { O.notes out.new ≡ O.notes out.old }
{
    let line = asked_line(alloc, order)?;
    out.make_room(line.len())?;
    Ok(line)
}

/// Asks for the build that is ordered to be aborted, by a directory of the shelf, and prints that it is asked; nothing
/// is told beside that. Which jobs there are stands in the database; here the name is one that a job may have. Whether the
/// build runs is answered, as far as can be told.
pub fn abort_build<F: Shelf, O: Lines>(
    alloc: Global,
    shelf: &mut F,
    order: &AbortOrder<'_>,
    out: &mut O,
) -> Result<bool, AbortFault>
    ensures asks { Asks order.now (F.calls shelf.old) result (F.calls shelf.new) }
    ensures asked { OnOk result (O.written out.new ≡ O.written out.old ++ asked_line order.now) }
    ensures refused { OnErr result (O.written out.new ≡ O.written out.old) }
    ensures whole { O.waiting out.old ≡ [] → O.waiting out.new ≡ [] }
    ensures quiet { O.notes out.new ≡ O.notes out.old }
{
    if !is_name(order.build.job) {
        return Err(AbortFault::NoJob);
    }
    let Ok(line) = line_with_room(alloc, order, out) else {
        return Err(AbortFault::NoMemory);
    };
    match ask(alloc, shelf, order) {
        Ok(is_running) => {
            out.add(line.as_str().as_bytes());
            out.hand_out();
            Ok(is_running)
        }
        Err(fault) => Err(fault),
    }
}

/// The status of what an order to ask comes to.
fn status_of(end: &Result<bool, AbortFault>) -> u8
    ensures { result ≡ abort_status end.now }
{
    match end {
        Ok(_) => 0,
        Err(fault) => refusal_of(*fault).status,
    }
}

/// Tells why a build isn't asked to be aborted.
fn tell_refusal<E: Write>(telling: &mut Telling<'_, E>, end: &Result<bool, AbortFault>)
    requires { (told_data telling.old).refusal ≡ None }
    ensures told { told_data telling.new ≡ record (told_data telling.old) { refusal = spec.refusal_in end.now } }
    ensures wrote { GetsLines (refusal_lines (spec.refusal_in end.now)) telling.old.errors telling.new.errors }
{
    match end {
        Ok(_) => {}
        Err(fault) => telling.refusal(refusal_of(*fault)),
    }
}

/// What to do about what an order to ask comes to, where that helps.
fn hint_in<'a>(order: &AbortOrder<'a>, end: &Result<bool, AbortFault>) -> Option<Hint<'a>>
    ensures { option_map hint_data result ≡ spec.hint_in order.now end.now }
{
    let (path, words) = match end {
        Ok(true) | Err(AbortFault::NoMemory) => return None,
        Ok(false) => (
            Some(order.build.job),
            "by what --work shows, this build doesn't run now: builds --job JOB --look says whether it is there. It \
             is aborted when it comes; rmdir WORK/JOB/abort-N takes that back",
        ),
        Err(AbortFault::NoJob) => (
            None,
            "a job's name has 1 to 128 bytes and no /: jobs --look shows which there are",
        ),
        Err(AbortFault::NotWritten) => (
            Some(order.options.work),
            "may a directory be made in it? abort-build is for the user whose ccr_run runs the build, with the same \
             --work",
        ),
    };
    Some(Hint { path, words })
}

/// Tells what to do about what an order to ask comes to, where that helps.
fn tell_hint<'e, E: Write>(
    telling: &mut Telling<'e, E>,
    order: &AbortOrder<'e>,
    end: &Result<bool, AbortFault>,
)
    requires { (told_data telling.old).hint ≡ None }
    ensures told { told_data telling.new ≡ record (told_data telling.old) { hint = spec.hint_in order.now end.now } }
    ensures wrote { GetsLines (hint_lines (spec.hint_in order.now end.now)) telling.old.errors telling.new.errors }
{
    match hint_in(order, end) {
        Some(hint) => telling.hint(hint),
        None => {}
    }
}

/// Tells what came of an order to ask, and gives the status: 0 where it is asked, 1 where no job can have the name, and 4 where
/// the directory can't be made, memory runs out, or the line doesn't go out.
pub fn tell_abort<'e, E: Write>(
    telling: &mut Telling<'e, E>,
    order: &AbortOrder<'e>,
    end: &Result<bool, AbortFault>,
    is_printed: bool,
) -> u8
    requires { told_data telling.old ≡ nothing_told }
    ensures status { result ≡ printed_status is_printed (abort_status end.now) }
    ensures told { told_data telling.new ≡ spec.told_of order.now end.now is_printed }
    ensures wrote { TellsLines (spec.told_of order.now end.now is_printed) telling.old.errors telling.new.errors }
{
    tell_refusal(telling, end);
    tell_hint(telling, order, end);
    tell_unprinted(telling, is_printed);
    if is_printed { status_of(end) } else { 4 }
}
