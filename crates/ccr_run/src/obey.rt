//! What the program's words come to.
ghost use Rattle.std.specs.Prelude.{◌≡◌, ◌≤◌, ◌++◌, [], Bool, Result, false, not, IsSome, map, option_map, string_bytes};
ghost use Rattle.sqlite_std_file.specs.File.{IsFresh};
ghost use Rattle.sqlite_wal.specs.Files.{image_at};
ghost use Rattle.ccr_proof.specs.declared.proof.TheConstants.{MOST_NODES};
ghost use Rattle.ccr_serve.specs.declared.fault.ServeFault.{ServeFault as ServeFaultData};
ghost use Rattle.ccr_run.specs.Aborting.{Asks, IsPrinted, abort_status, told_of};
ghost use Rattle.ccr_run.specs.Databases.{from_files};
ghost use Rattle.ccr_run.specs.Explained.{IsToldOf, TellsLines, nothing_told, told_data};
ghost use Rattle.ccr_run.specs.Found.{Validates, validated_status, validation_data};
ghost use Rattle.ccr_run.specs.Left.{text_left};
ghost use Rattle.ccr_run.specs.Looked.{LookedBeside};
ghost use Rattle.ccr_run.specs.Obeyed.{Obeyed, validation_told};
ghost use Rattle.ccr_run.specs.Served.{Served};
ghost use Rattle.ccr_run.specs.Statuses.{exit_status_of, printed_status};
ghost use Rattle.ccr_run.specs.declared.abort.AbortFault.{AbortFault as AbortFaultData};
ghost use Rattle.ccr_run.specs.declared.run.Outcome.{Outcome as OutcomeData};

use crate::abort::{abort_build, tell_abort};
use crate::database::FileDatabase;
use crate::found::{
    Validation, is_validation, tell_gates, tell_validation, validate, validation_of,
};
use crate::left::{Left, Tools};
use crate::look::look_at;
use crate::opener::FileOpener;
use crate::opening::{FileConnection, Opens};
use crate::order::{AbortOrder, Misuse, Order, Ordered, ordered_by};
use crate::page::page_at;
use crate::run::{FilesLeft, run};
use crate::tell::tell;
use crate::telling::Telling;
use ccr_history::Storage;
use ccr_lines::Printed;
use ccr_look::Scratch;
use ccr_process::Runner;
use ccr_task::Shelf;
use sqlite::{FileFrom, FileStore, Start};
use sqlite_trees::store::Store as Trees;
use std::alloc::Global;
use std::io::Write;

/// What words come to, and what is left of what was given.
#[derive(Drop)]
pub struct Done<R, F, T, C> {
    /// The status, or why the words order nothing.
    pub status: Result<u8, Misuse>,
    /// What is left.
    pub left: Left<R, F, T, C>,
}

/// Does a command, and tells what came of it: the status, and what is left.
fn do_command<
    'a,
    R: Runner + Drop,
    F: Shelf + Drop,
    O: Opens,
    S: Start,
    W: Write,
    E: Write,
    P: Write,
>(
    alloc: Global,
    order: &Order<'a>,
    tools: Tools<R, F>,
    opener: &mut FileOpener<O, S>,
    out: &mut Printed<W, E>,
    telling: &mut Telling<'a, P>,
) -> (u8, FilesLeft<R, F, S>)
    requires least { 1 ≤ order.now.options.budget }
    requires most { order.now.options.budget ≤ MOST_NODES }
    requires unopened { IsSome opener.old.start }
    requires unasked { O.asked opener.old.files ≡ [] }
    requires untold { told_data telling.old ≡ nothing_told }
    ensures did { (outcome : OutcomeData) × Served R.Runner F.Shelf ⟦<FileDatabase<S> as Storage>⟧
        (from_files (image_at S.Start) (λ is_log file. IsFresh is_log file) opener.new.answer) order.now
        (O.asked opener.new.files) tools outcome.end result.1
        (out.old.shown ++ out.old.waiting) (out.new.shown ++ out.new.waiting)
        × (outcome.is_printed ≡ not out.new.failed)
        × IsToldOf order.now outcome (text_left result.1) (told_data telling.new)
        × (result.0 ≡ exit_status_of outcome) }
    ensures whole { out.old.waiting ≡ [] → out.new.failed ≡ false → out.new.waiting ≡ [] }
    ensures wrote { TellsLines (told_data telling.new) telling.old.errors telling.new.errors }
{
    let ran = run(alloc, order, tools, opener, out);
    tell_gates(alloc, telling, order, &ran.outcome.end, ran.left.text());
    let status = tell(telling, order, &ran.outcome);
    (status, ran.left)
}

/// Asks for a build to be aborted, and tells what came of it: the status, and what was given.
fn do_abort<'a, R, F: Shelf, W: Write, E: Write, P: Write>(
    alloc: Global,
    order: &AbortOrder<'a>,
    tools: Tools<R, F>,
    out: &mut Printed<W, E>,
    telling: &mut Telling<'a, P>,
) -> (u8, Tools<R, F>)
    requires { told_data telling.old ≡ nothing_told }
    ensures asks { (end : Result Bool AbortFaultData) × Asks order.now (F.calls tools.shelf) end (F.calls result.1.shelf)
        × IsPrinted order.now end (out.old.shown ++ out.old.waiting) (out.new.shown ++ out.new.waiting)
        × (told_data telling.new ≡ told_of order.now end (not out.new.failed))
        × (result.0 ≡ printed_status (not out.new.failed) (abort_status end)) }
    ensures whole { out.old.waiting ≡ [] → out.new.waiting ≡ [] }
    ensures quiet { out.new.notes ≡ out.old.notes }
    ensures wrote { TellsLines (told_data telling.new) telling.old.errors telling.new.errors }
    ensures idle { result.1.runner ≡ tools.runner }
{
    let Tools { runner, mut shelf } = tools;
    let end = abort_build(alloc, &mut shelf, order, out);
    let is_printed = !out.has_failed();
    let status = tell_abort(telling, order, &end, is_printed);
    (status, Tools { runner, shelf })
}

/// Validates a pipeline's file, and tells what came of it: the status, and what was given.
fn do_validation<'a, R, F: Shelf, W: Write, E: Write, P: Write>(
    alloc: Global,
    validation: &Validation<'a>,
    tools: Tools<R, F>,
    out: &mut Printed<W, E>,
    telling: &mut Telling<'a, P>,
) -> (u8, Tools<R, F>)
    requires { told_data telling.old ≡ nothing_told }
    ensures validates { (end : Result Bool ServeFaultData)
        × Validates (validation_data validation.now) end (F.calls tools.shelf) (F.calls result.1.shelf)
        (out.old.shown ++ out.old.waiting) (out.new.shown ++ out.new.waiting)
        × (told_data telling.new ≡ validation_told validation.now.path.now end)
        × (result.0 ≡ validated_status end (not out.new.failed)) }
    ensures whole { out.old.waiting ≡ [] → out.new.waiting ≡ [] }
    ensures quiet { out.new.notes ≡ out.old.notes }
    ensures wrote { TellsLines (told_data telling.new) telling.old.errors telling.new.errors }
    ensures idle { result.1.runner ≡ tools.runner }
{
    let Tools { runner, mut shelf } = tools;
    let end = validate(alloc, &mut shelf, validation, out);
    let is_printed = !out.has_failed();
    let status = tell_validation(telling, validation.path, end, is_printed);
    (status, Tools { runner, shelf })
}

/// Does what the words order, and tells what came of it; or says why they order nothing. What it was given is handed back. A page
/// says when it was made, as the clock has it.
pub fn obey<
    'a,
    R: Runner + Drop,
    F: Shelf + Drop,
    O: Opens,
    S: Start,
    W: Write,
    E: Write,
    P: Write,
>(
    alloc: Global,
    words: &'a [String],
    clock: Option<&str>,
    tools: Tools<R, F>,
    opener: &mut FileOpener<O, S>,
    out: &mut Printed<W, E>,
    telling: &mut Telling<'a, P>,
) -> Done<R, F, FileDatabase<S>, FileConnection<S>>
    requires unopened { IsSome opener.old.start }
    requires unasked { O.asked opener.old.files ≡ [] }
    requires untold { told_data telling.old ≡ nothing_told }
    ensures obeyed { Obeyed R.Runner F.Shelf ⟦<FileDatabase<S> as Storage>⟧
        (from_files (image_at S.Start) (λ is_log file. IsFresh is_log file) opener.new.answer)
        (LookedBeside ⟦<FileStore<Scratch> as Trees>⟧ ⟦<FileStore<FileFrom<S>> as Trees>⟧)
        (option_map (λ t. t.now) clock.entry) (map string_bytes words.now) tools
        (record {
          asked = O.asked opener.new.files;
          old = out.old.shown ++ out.old.waiting;
          new = out.new.shown ++ out.new.waiting;
          old_notes = out.old.notes;
          new_notes = out.new.notes;
          failed = out.new.failed;
          told = told_data telling.new;
          status = result.status;
        }) result.left }
    ensures whole { out.old.waiting ≡ [] → out.new.failed ≡ false → out.new.waiting ≡ [] }
    ensures wrote { TellsLines (told_data telling.new) telling.old.errors telling.new.errors }
{
    if is_validation(words) {
        let Some(validation) = validation_of(words) else {
            return Done {
                status: Err(Misuse::Validation),
                left: Left::Unopened(tools),
            };
        };
        let (status, tools) = do_validation(alloc, &validation, tools, out, telling);
        let (status, left) = (Ok(status), Left::Unopened(tools));
        return Done { status, left };
    }
    match ordered_by(alloc, words) {
        Ok(Ordered::Abort(order)) => {
            let (status, tools) = do_abort(alloc, &order, tools, out, telling);
            let (status, left) = (Ok(status), Left::Unopened(tools));
            Done { status, left }
        }
        Ok(Ordered::Look(order)) => {
            let status = look_at(alloc, order, opener, out, telling);
            let (status, left) = (Ok(status), Left::Unopened(tools));
            Done { status, left }
        }
        Ok(Ordered::Page(order)) => {
            let status = page_at(alloc, order, clock, opener, out, telling);
            let (status, left) = (Ok(status), Left::Unopened(tools));
            Done { status, left }
        }
        Ok(Ordered::Command(order)) => {
            let (status, left) = do_command(alloc, &order, tools, opener, out, telling);
            Done {
                status: Ok(status),
                left,
            }
        }
        Err(misuse) => Done {
            status: Err(misuse),
            left: Left::Unopened(tools),
        },
    }
}
