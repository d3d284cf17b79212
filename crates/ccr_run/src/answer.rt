//! What the program answers to its words.
ghost use Rattle.std.specs.Prelude.{◌≡◌, ◌++◌, [], not, IsSome, map, option_map, string_bytes};
ghost use Rattle.std.specs.Io.KnownBytes.{Appends};
ghost use Rattle.std.specs.Process.{exit_status};
ghost use Rattle.sqlite_std_file.specs.File.{IsFresh};
ghost use Rattle.sqlite_wal.specs.Files.{image_at};
ghost use Rattle.ccr_run.specs.Answered.{EndsWith, IsAnswer};
ghost use Rattle.ccr_run.specs.Databases.{from_files};
ghost use Rattle.ccr_run.specs.Explained.{TellsLines, nothing_told, told_data};
ghost use Rattle.ccr_run.specs.Looked.{LookedBeside};

use crate::database::FileDatabase;
use crate::left::Tools;
use crate::obey::{Done, obey};
use crate::opener::FileOpener;
use crate::opening::{FileConnection, Opens};
use crate::order::Misuse;
use crate::tell::tell_misuse;
use crate::telling::Telling;
use ccr_history::Storage;
use ccr_lines::Printed;
use ccr_look::Scratch;
use ccr_process::Runner;
use ccr_task::Shelf;
use sqlite::{FileFrom, FileStore, Start};
use sqlite_trees::store::Store as Trees;
use std::alloc::Global;
use std::io::Write;
use std::process::ExitCode;

/// The program's answer.
#[derive(Drop)]
pub struct Answered<R, F, T, C> {
    /// The status that it ends with.
    pub code: ExitCode,
    /// What its words came to.
    pub done: Done<R, F, T, C>,
}

/// The status that the program ends with: that of what was done, or 4 where not all lines went out. Or else it is told
/// why the words order nothing, or the help is given that they ask for.
fn code_of<P: Print + Eprint>(
    words: &[String],
    status: &Result<u8, Misuse>,
    is_printed: bool,
    console: &P,
) -> ExitCode
    ensures { EndsWith status.now is_printed (exit_status result) }
{
    match status {
        Ok(_) if !is_printed => ExitCode::from(4),
        Ok(status) => ExitCode::from(*status),
        Err(misuse) => tell_misuse(console, words, misuse),
    }
}

/// Does what the words order with what it is given, and gives the status that the program ends with. It has no runtime:
/// it reaches nothing but what it is given, and hands that back. What the clock says is given too, if it could be read.
pub fn answer<
    'a,
    R: Runner + Drop,
    F: Shelf + Drop,
    O: Opens,
    S: Start,
    W: Write,
    E: Write,
    T: Write,
    P: Print + Eprint,
>(
    alloc: Global,
    words: &'a [String],
    clock: Option<&str>,
    tools: Tools<R, F>,
    opener: &mut FileOpener<O, S>,
    out: &mut Printed<W, E>,
    telling: &mut Telling<'a, T>,
    console: &P,
) -> Answered<R, F, FileDatabase<S>, FileConnection<S>>
    requires unopened { IsSome opener.old.start }
    requires unasked { O.asked opener.old.files ≡ [] }
    requires unwritten { out.old.shown ++ out.old.waiting ≡ [] }
    requires untold { told_data telling.old ≡ nothing_told }
    ensures answered { IsAnswer R.Runner F.Shelf ⟦<FileDatabase<S> as Storage>⟧
        (from_files (image_at S.Start) (λ is_log file. IsFresh is_log file) opener.new.answer)
        (LookedBeside ⟦<FileStore<Scratch> as Trees>⟧ ⟦<FileStore<FileFrom<S>> as Trees>⟧)
        (option_map (λ t. t.now) clock.entry) (map string_bytes words.now) tools
        (record {
          asked = O.asked opener.new.files;
          old = out.old.shown ++ out.old.waiting;
          new = out.new.shown ++ out.new.waiting;
          old_notes = out.old.notes;
          new_notes = out.new.notes;
          failed = out.new.failed;
          told = told_data telling.new;
          status = result.done.status;
        }) result.done.left
        (λ bytes. Appends out.new.before out.new.holds bytes)
        (exit_status result.code) }
    ensures wrote { TellsLines (told_data telling.new) telling.old.errors telling.new.errors }
{
    let done = obey(alloc, words, clock, tools, opener, out, telling);
    let is_printed = !out.has_failed();
    let code = code_of(words, &done.status, is_printed, console);
    Answered { code, done }
}
