//! Stops at each call of a file: a store is run over files of which one fails from a call on, and its history is loaded
//! from what is left.
//!
//! What is left is looked at twice: as a program that is killed leaves it, with all that was written, and as a crash of
//! the machine leaves it, without what wasn't synced.

ghost use Rattle.std.specs.Prelude.{◌≡◌, false};

use super::files::{empty_files, fused, left_by_crash, left_by_kill, options};
use super::foreign::lowered;
use super::kept::Kept;
use super::runs::{Reached, Stage, run};
use super::stored::{held, whole_text};
use anyhow::{Result, anyhow, bail};
use ccr_history::{History, Storage};
use ccr_store::Store;
use sqlite::{Alter, Connection, Files};
use sqlite_disk::{Disk, Memory};
use std::alloc::Global;

/// More calls of a file than any of these runs makes.
const MOST_CALLS: u64 = 1_000_000;

/// What is run: files to begin with, after how many frames the log is copied, the lines that are kept, and the history after each
/// number of them, as text.
#[derive(Drop)]
struct Trial<'t> {
    files: Files<Memory>,
    frames: u32,
    lines: &'t str,
    texts: &'t [String],
}

/// Which file fails.
#[derive(Clone, Copy)]
enum Failing {
    Log,
    Database,
}

/// The name of a file that fails.
fn name_of(failing: Failing) -> &'static str {
    match failing {
        Failing::Log => "log",
        Failing::Database => "database",
    }
}

/// How many of these stops were at a stage.
fn count_at(stops: &[Stage], stage: Stage) -> usize {
    stops.iter().filter(|at| **at == stage).count()
}

// ---- what is expected, and what is found
impl<S: Storage + Drop> Kept<S> {
    /// The history before the first of these lines, and after each of them, as text.
    fn texts_of(&mut self, alloc: Global, lines: &str) -> Result<Vec<String>> {
        let mut pipeline = None;
        let mut texts = Vec::new(alloc);
        texts.push(whole_text(alloc, &self.history)?)?;
        for line in lines.lines() {
            self.play(alloc, &mut pipeline, line)?;
            texts.push(whole_text(alloc, &self.history)?)?;
        }
        Ok(texts)
    }
}

/// The history before the first of these lines, and after each of them, as text.
fn texts_of(alloc: Global, lines: &str) -> Result<Vec<String>> {
    let mut kept = Kept {
        history: History::new(alloc),
        storage: Store::open_in_memory(alloc)?,
    };
    kept.texts_of(alloc, lines)
}

/// The history that is found in files, as text.
fn found<D: Disk + Drop>(alloc: Global, files: Files<D>, frames: u32) -> Result<String> {
    if !files.may_be_used() {
        bail!("the files can't be used")
    }
    match Connection::open_files(alloc, files, options(frames)) {
        Ok(conn) => held_over(alloc, conn),
        Err((error, _)) => Err(error.into()),
    }
}

/// The history in a database, as text.
fn held_over<S: Alter + Drop>(alloc: Global, conn: Connection<S>) -> Result<String>
    requires { conn.in_transaction ≡ false }
{
    let store = Store::adopt(alloc, conn)?;
    held(alloc, store)
}

/// An error where a history isn't the one after so many lines, or, where the next line's change was being committed,
/// the one after that.
fn check_found(texts: &[String], stage: Stage, kept: usize, text: &str) -> Result<()> {
    let allowed = if stage == Stage::Committing { 2 } else { 1 };
    if texts
        .iter()
        .skip(kept)
        .take(allowed)
        .any(|after| after.as_str() == text)
    {
        Ok(())
    } else {
        Err(anyhow!("{stage:?}: {kept} lines were kept, and this is found:\n{text}"))
    }
}

// ---- the runs
impl Trial<'_> {
    /// Runs it over files of which one fails after so many calls.
    fn run_with(&self, alloc: Global, failing: Failing, calls: u64) -> Result<Reached> {
        let (log, db) = match failing {
            Failing::Log => (calls, u64::MAX),
            Failing::Database => (u64::MAX, calls),
        };
        let files = fused(alloc, &self.files, log, db)?;
        run(alloc, files, self.frames, self.lines)
    }

    /// Checks what is found in files that were left after a stop.
    fn check_files<D: Disk + Drop>(
        &self,
        alloc: Global,
        stage: Stage,
        kept: usize,
        files: Files<D>,
    ) -> Result<()> {
        let text = found(alloc, files, self.frames)?;
        check_found(self.texts, stage, kept, text.as_str())
    }

    /// Checks what is found after a stop in files as a program that is killed leaves them.
    fn check_killed(&self, alloc: Global, reached: &Reached) -> Result<()> {
        let files = left_by_kill(alloc, &reached.files)?;
        self.check_files(alloc, reached.stage, reached.kept, files)
    }

    /// The same, and in files as a crash leaves them: at which stage it ended.
    fn check_left(&self, alloc: Global, reached: Reached) -> Result<Stage> {
        self.check_killed(alloc, &reached)?;
        let Reached { stage, kept, files } = reached;
        self.check_files(alloc, stage, kept, left_by_crash(files))?;
        Ok(stage)
    }

    /// Runs it over files of which one fails after so many calls, and checks what is found: at which stage it ended.
    fn stage_at(&self, alloc: Global, failing: Failing, calls: u64) -> Result<Stage> {
        self.check_left(alloc, self.run_with(alloc, failing, calls)?)
    }

    /// Stops it at each call of a file in turn, until a run isn't stopped: adds the stage at which each stopped.
    fn push_stops(&self, alloc: Global, stops: &mut Vec<Stage>, failing: Failing) -> Result<()> {
        for calls in 0..MOST_CALLS {
            let stage = self.stage_at(alloc, failing, calls)?;
            if stage == Stage::Done {
                return Ok(());
            }
            stops.push(stage)?;
        }
        Err(anyhow!("each run stops"))
    }

    /// The stages at which it stops.
    fn stops_of(&self, alloc: Global, failing: Failing) -> Result<Vec<Stage>> {
        let mut stops = Vec::new(alloc);
        self.push_stops(alloc, &mut stops, failing)?;
        Ok(stops)
    }

    /// Stops it at each call of a file in turn: the line that tells how often.
    fn told_of(&self, alloc: Global, what: &str, failing: Failing) -> Result<String> {
        let stops = self.stops_of(alloc, failing)?;
        let opening = count_at(&stops, Stage::Opening);
        let adopting = count_at(&stops, Stage::Adopting);
        let loading = count_at(&stops, Stage::Loading);
        let committing = count_at(&stops, Stage::Committing);
        let name = name_of(failing);
        let count = stops.len();
        Ok(format!(in alloc;
            "{what}, {name}: {count} stops, {opening} at opening, {adopting} at adopting, \
             {loading} at loading, {committing} at commits\n"
        )?)
    }

    /// Adds the same of both files.
    fn push_told(&self, alloc: Global, told: &mut String, what: &str) -> Result<()> {
        for failing in [Failing::Log, Failing::Database] {
            let line = self.told_of(alloc, what, failing)?;
            told.push_str(line.as_str())?;
        }
        Ok(())
    }

    /// The files that a run leaves which isn't stopped.
    fn files_left(&self, alloc: Global) -> Result<Files<Memory>> {
        let Reached {
            stage,
            kept: _,
            files,
        } = self.run_with(alloc, Failing::Log, u64::MAX)?;
        if stage != Stage::Done {
            bail!("{stage:?} is refused")
        }
        left_by_kill(alloc, &files)
    }

    /// Adds the lines that tell how often it is stopped, and gives the files that it leaves if it isn't.
    fn push_and_leave(
        &self,
        alloc: Global,
        told: &mut String,
        what: &str,
    ) -> Result<Files<Memory>> {
        self.push_told(alloc, told, what)?;
        self.files_left(alloc)
    }
}

/// What is run where the history in files is taken and loaded. It is the last of these.
fn loading(files: Files<Memory>, frames: u32, texts: &[String]) -> Trial<'_> {
    Trial {
        files,
        frames,
        lines: "",
        texts: &texts[texts.len().saturating_sub(1)..],
    }
}

/// Stops a store while it is made in empty files and keeps these lines, and then while all of it is loaded.
fn push_stopped(
    alloc: Global,
    told: &mut String,
    lines: &str,
    frames: u32,
    texts: &[String],
) -> Result<()> {
    let made = Trial {
        files: empty_files(alloc),
        frames,
        lines,
        texts,
    };
    let files = made.push_and_leave(alloc, told, "made")?;
    let again = loading(files, frames, texts);
    again.push_told(alloc, told, "loaded")
}

fn stopped(alloc: Global, lines: &str, frames: u32, texts: &[String]) -> Result<String> {
    let mut told = String::new(alloc);
    push_stopped(alloc, &mut told, lines, frames, texts)?;
    Ok(told)
}

/// Stops a store at each call of each of its files: while it is made in empty files and keeps these lines, and while
/// all of it is loaded. The lines that tell how often it was stopped; an error where a stop left another history than
/// the one before the change that it cut short, or after it.
pub(super) fn stops_told(alloc: Global, lines: &str, frames: u32) -> Result<String> {
    let texts = texts_of(alloc, lines)?;
    stopped(alloc, lines, frames, &texts)
}

/// Files in which these lines were kept.
fn files_with(alloc: Global, lines: &str, frames: u32) -> Result<Files<Memory>> {
    let kept = Trial {
        files: empty_files(alloc),
        frames,
        lines,
        texts: &[],
    };
    kept.files_left(alloc)
}

/// Stops a store while it takes a database of the first format, and then while it takes it as it was left.
fn push_raised(
    alloc: Global,
    told: &mut String,
    files: Files<Memory>,
    frames: u32,
    texts: &[String],
) -> Result<()> {
    let first = loading(files, frames, texts);
    let left = first.push_and_leave(alloc, told, "first format")?;
    let again = loading(left, frames, texts);
    again.push_told(alloc, told, "written over")
}

fn raised(alloc: Global, lines: &str, frames: u32, texts: &[String]) -> Result<String> {
    let mut told = String::new(alloc);
    let kept = files_with(alloc, lines, frames)?;
    push_raised(alloc, &mut told, lowered(alloc, kept)?, frames, texts)?;
    Ok(told)
}

/// The same while a database of the first format is taken that holds the history of these lines: it is loaded and
/// written over. And then while it is taken as it was left, which writes nothing.
pub(super) fn raises_told(alloc: Global, lines: &str, frames: u32) -> Result<String> {
    let texts = texts_of(alloc, lines)?;
    raised(alloc, lines, frames, &texts)
}
