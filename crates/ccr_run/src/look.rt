//! A look is taken: the database is read, and not opened.
ghost use Rattle.std.specs.Prelude.{◌≡◌, ◌≤◌, ◌++◌, [], not, IfOk, IfErr};
ghost use Rattle.ccr_core.specs.Cores.{core_data};
ghost use Rattle.ccr_proof.specs.declared.proof.TheConstants.{MOST_NODES};
ghost use Rattle.ccr_run.specs.Explained.{explained, nothing_told, told_data, TellsLines};
ghost use Rattle.ccr_run.specs.Looked.{KeepsFromSeeing, Looked, Saw, ShownOf, shown_end};
ghost use Rattle.ccr_run.specs.Statuses.{exit_status_of};
ghost use Rattle.ccr_run.specs.declared.run.Outcome.{Outcome as OutcomeData};

use crate::failure::Failure;
use crate::found::print;
use crate::opener::FileOpener;
use crate::opening::Opens;
use crate::order::LookOrder;
use crate::run::Outcome;
use crate::tell::tell;
use crate::telling::Telling;
use ccr_command::Options;
use ccr_core::{Command, Core};
use ccr_lines::{AsText, Printed, Show, ShowFault};
use ccr_look::{Scratch, look};
use ccr_serve::ServeFault;
use sqlite::{FileStore, Start};
use sqlite_trees::store::Store as Trees;
use std::alloc::Global;
use std::io::Write;

/// How it ended that something was shown.
fn handed_on(end: Result<u8, ShowFault>) -> Result<u8, Failure>
    ensures { result ≡ shown_end end }
{
    match end {
        Ok(status) => Ok(status),
        Err(ShowFault::Lacks(fault)) => Err(Failure::Refused(ServeFault::Core(fault))),
        Err(ShowFault::BadPin) => Err(Failure::Refused(ServeFault::BadPin)),
        Err(ShowFault::NoMemory) => Err(Failure::Refused(ServeFault::NoMemory)),
    }
}

/// Shows of a core what is looked at, and hands all lines out. Nothing is told beside them.
fn show_of<W: Write, E: Write>(
    alloc: Global,
    core: &Core,
    order: &LookOrder<'_>,
    out: &mut Printed<W, E>,
) -> Result<u8, Failure>
    ensures shown { ShownOf order.now (core_data core.now) result
        (out.old.shown ++ out.old.waiting) (out.new.shown ++ out.new.waiting) }
    ensures whole { out.old.waiting ≡ [] → out.new.waiting ≡ [] }
    ensures quiet { out.new.notes ≡ out.old.notes }
{
    let mut lines = Vec::new(alloc);
    let end = AsText.show(alloc, &mut lines, &order.what, core);
    match print(out, &lines) {
        Ok(()) => handed_on(end),
        Err(_) => handed_on(Err(ShowFault::NoMemory)),
    }
}

/// A core over the history in the database that the options name, which is read and not opened; or why nothing is seen.
pub fn see<O: Opens, S: Start>(
    alloc: Global,
    options: &Options<'_>,
    opener: &mut FileOpener<O, S>,
) -> Result<Core, Failure>
    requires unasked { O.asked opener.old.files ≡ [] }
    requires least { 1 ≤ options.now.budget }
    requires most { options.now.budget ≤ MOST_NODES }
    ensures saw { IfOk result (λ core.
        Saw ⟦<FileStore<Scratch> as Trees>⟧ options.now (O.asked opener.new.files) (core_data core)) }
    ensures nothing { IfErr result (λ failure.
        KeepsFromSeeing ⟦<FileStore<Scratch> as Trees>⟧ options.now (O.asked opener.new.files) failure) }
{
    let copied = match opener.read(options.database) {
        Ok(copied) => copied,
        Err(fault) => return Err(Failure::Unread(fault)),
    };
    match look(alloc, copied, options.budget) {
        Ok(core) => Ok(core),
        Err(fault) => Err(Failure::Unfound(fault)),
    }
}

/// Reads the database that is named, and shows what is looked at of the history in it.
fn show_in<O: Opens, S: Start, W: Write, E: Write>(
    alloc: Global,
    order: &LookOrder<'_>,
    opener: &mut FileOpener<O, S>,
    out: &mut Printed<W, E>,
) -> Result<u8, Failure>
    requires unasked { O.asked opener.old.files ≡ [] }
    requires least { 1 ≤ order.now.options.budget }
    requires most { order.now.options.budget ≤ MOST_NODES }
    ensures looked { Looked ⟦<FileStore<Scratch> as Trees>⟧ order.now.options (ShownOf order.now)
        (O.asked opener.new.files) result (out.old.shown ++ out.old.waiting) (out.new.shown ++ out.new.waiting) }
    ensures whole { out.old.waiting ≡ [] → out.new.waiting ≡ [] }
    ensures quiet { out.new.notes ≡ out.old.notes }
{
    match see(alloc, &order.options, opener) {
        Ok(core) => show_of(alloc, &core, order, out),
        Err(failure) => Err(failure),
    }
}

/// Looks at what is ordered, and tells what came of it: the status. No lock is taken, and nothing is written but the lines.
pub fn look_at<'a, O: Opens, S: Start, W: Write, E: Write, P: Write>(
    alloc: Global,
    order: LookOrder<'a>,
    opener: &mut FileOpener<O, S>,
    out: &mut Printed<W, E>,
    telling: &mut Telling<'a, P>,
) -> u8
    requires least { 1 ≤ order.options.budget }
    requires most { order.options.budget ≤ MOST_NODES }
    requires unasked { O.asked opener.old.files ≡ [] }
    requires untold { told_data telling.old ≡ nothing_told }
    ensures looked { (outcome : OutcomeData)
        × Looked ⟦<FileStore<Scratch> as Trees>⟧ order.entry.options (ShownOf order.entry)
        (O.asked opener.new.files) outcome.end (out.old.shown ++ out.old.waiting) (out.new.shown ++ out.new.waiting)
        × (outcome.is_printed ≡ not out.new.failed)
        × (told_data telling.new
        ≡ explained (record { options = order.entry.options; command = Command.Show order.entry.what }) outcome)
        × (result ≡ exit_status_of outcome) }
    ensures whole { out.old.waiting ≡ [] → out.new.waiting ≡ [] }
    ensures quiet { out.new.notes ≡ out.old.notes }
    ensures wrote { TellsLines (told_data telling.new) telling.old.errors telling.new.errors }
{
    let outcome = Outcome {
        end: show_in(alloc, &order, opener, out),
        is_printed: !out.has_failed(),
    };
    tell(telling, &order.into_order(), &outcome)
}
