//! Runs of a store over files that may fail, up to the first call that is refused.
ghost use Rattle.std.specs.Prelude.{◌≡◌, false};

use super::files::{Fused, options};
use super::kept::Kept;
use anyhow::{Result, bail};
use ccr_history::{History, StoreFault};
use ccr_pipeline::Pipeline;
use ccr_store::{Store, prepare};
use sqlite::{Alter, Connection, FileStore};
use sqlite_disk::{Fuse, Memory};
use std::alloc::Global;

/// What a run was doing when it ended.
#[derive(Clone, Copy, Debug, PartialEq, Eq)]
pub(super) enum Stage {
    Opening,
    Adopting,
    Loading,
    Committing,
    Done,
}

/// How far a run came, how many lines it kept, and its files.
#[derive(Drop)]
pub(super) struct Reached {
    pub(super) stage: Stage,
    pub(super) kept: usize,
    pub(super) files: Fused,
}

impl<S: Alter + Drop> Kept<Store<S>> {
    /// Takes the history that the store holds.
    fn load(&mut self, alloc: Global) -> Result<(), StoreFault> {
        self.history = self.storage.load(alloc)?;
        Ok(())
    }

    /// Makes the changes of these lines, up to the first that the store refuses: how many it kept, and whether that is all.
    fn keep_lines(&mut self, alloc: Global, lines: &str) -> (usize, bool) {
        let mut pipeline: Option<Pipeline> = None;
        let mut count: usize = 0;
        for line in lines.lines() {
            if self.play(alloc, &mut pipeline, line).is_err() {
                return (count, false);
            }
            count = count.saturating_add(1);
        }
        (count, true)
    }

    /// Loads the history, makes the changes of these lines, and loads it again: how far this came, and how many lines were kept.
    fn keep_from_files(&mut self, alloc: Global, lines: &str) -> (Stage, usize) {
        if self.load(alloc).is_err() {
            return (Stage::Loading, 0);
        }
        let (count, is_all) = self.keep_lines(alloc, lines);
        if !is_all {
            return (Stage::Committing, count);
        }
        match self.load(alloc) {
            Ok(()) => (Stage::Done, count),
            Err(_) => (Stage::Loading, count),
        }
    }
}

/// Keeps the lines in a store: how far this came, and how many were kept. Gives the connection back.
fn keep_in<S: Alter + Drop>(
    alloc: Global,
    store: Store<S>,
    lines: &str,
) -> (Stage, usize, Connection<S>) {
    let mut kept = Kept {
        history: History::new(alloc),
        storage: store,
    };
    let (stage, count) = kept.keep_from_files(alloc, lines);
    let Kept {
        history: _,
        storage,
    } = kept;
    (stage, count, storage.into_connection())
}

/// Keeps the lines in a database, if a store takes it: how far this came, and how many were kept. Gives the connection back.
fn keep_over<S: Alter + Drop>(
    alloc: Global,
    conn: Connection<S>,
    lines: &str,
) -> (Stage, usize, Connection<S>)
    requires { conn.in_transaction ≡ false }
{
    let (conn, taken) = prepared(alloc, conn);
    match taken {
        Ok(()) => keep_in(alloc, Store::over(conn), lines),
        Err(_) => (Stage::Adopting, 0, conn),
    }
}

/// Has a store take a database, or refuse it. Gives the connection back.
pub(super) fn prepared<S: Alter + Drop>(
    alloc: Global,
    conn: Connection<S>,
) -> (Connection<S>, Result<(), StoreFault>)
    requires { conn.in_transaction ≡ false }
    ensures { result.0.in_transaction ≡ false }
{
    let mut conn = conn;
    let taken = prepare(alloc, &mut conn);
    (conn, taken)
}

/// Takes a database, keeps the lines in it, and closes it.
fn run_opened(alloc: Global, conn: Connection<FileStore<Fuse<Memory>>>, lines: &str) -> Reached
    requires { conn.in_transaction ≡ false }
{
    let (stage, kept, conn) = keep_over(alloc, conn, lines);
    Reached {
        stage,
        kept,
        files: conn.into_store().close(),
    }
}

/// Opens the files, and keeps the lines in them.
pub(super) fn run(alloc: Global, files: Fused, frames: u32, lines: &str) -> Result<Reached> {
    if !files.may_be_used() {
        bail!("the files can't be used")
    }
    match Connection::open_files(alloc, files, options(frames)) {
        Ok(conn) => Ok(run_opened(alloc, conn, lines)),
        Err((_, left)) => Ok(Reached {
            stage: Stage::Opening,
            kept: 0,
            files: left.into_files(),
        }),
    }
}
