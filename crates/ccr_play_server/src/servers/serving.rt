//! A server over a script.
ghost use Rattle.std.specs.Prelude.{⊤};
ghost use Rattle.ccr_process.specs.Runs.{script_pairs};
ghost use Rattle.ccr_task.specs.Shelves.{script_calls};
ghost use Rattle.ccr_serve.specs.Views.{view_of, IsKept};

use super::script::Script;
use super::told::Told;
use super::unkept::Unkept;
use ccr_core::Command;
use ccr_history::Tally;
use ccr_lines::{AsText, Printed};
use ccr_process::Scripted;
use ccr_rows::{places, places_by_launcher};
use ccr_serve::{ServeFault, Server, Unopened};
use ccr_task::{Places, ShelfScript};
use std::alloc::{AllocError, Global};
use std::io::Write;
use std::marker::Model;

/// The node budget.
const BUDGET: u32 = 100_000;

/// The places of a server, with a launcher or without.
fn places_of(alloc: Global, has_launcher: bool) -> Result<Places, AllocError> {
    if has_launcher {
        places_by_launcher(alloc)
    } else {
        places(alloc)
    }
}

/// A server over a script. It goes on, or has closed.
#[derive(Drop)]
pub(super) struct Serving<W: Write> {
    server: Server<Told<W>, ShelfScript, Unkept>,
}

impl<W: Write> Model for Serving<W> {
    ghost use Rattle.std.specs.Prelude.{[], ⊤};
    ghost use Rattle.ccr_process.specs.Runs.{script_pairs};
    ghost use Rattle.ccr_task.specs.Shelves.{script_calls};
    ghost use Rattle.ccr_serve.specs.Views.{view_of, IsKept};

    ghost Value = { ⊤ };

    ghost view = { λ _. tt };

    ghost invariant = { λ s. IsKept (view_of (λ told. script_pairs told.script) script_calls
        (λ _ _. ⊤) (λ _ _. ⊤) (λ unkept. unkept.tally) s.server []) };
}

impl<W: Write + Drop> Serving<W> {
    /// A server over a script, with the script's history.
    pub(super) fn open<E: Write>(
        alloc: Global,
        writer: W,
        script: Script,
        out: &mut Printed<W, E>,
    ) -> Result<Serving<W>, ServeFault> {
        // A script's history has builds and no pipeline, so there is none that a server couldn't read.
        if script.history.text().is_some() {
            return Err(ServeFault::Closed);
        }
        let Ok(places) = places_of(alloc, script.has_launcher) else {
            return Err(ServeFault::NoMemory);
        };
        let runner = Told {
            alloc,
            writer,
            script: Scripted::new(alloc, script.ends),
        };
        let shelf = ShelfScript::new(script.answers, script.sights);
        let storage = Unkept {
            commits: script.commits,
            fault: script.fault,
            tally: Tally::new(),
        };
        let history = script.history;
        match Server::open(alloc, runner, shelf, storage, history, places, BUDGET, out) {
            Ok(server) => Ok(Serving { server }),
            Err(
                Unopened {
                    fault,
                    runner: _,
                    shelf: _,
                    storage: _,
                },
            ) => Err(fault),
        }
    }

    /// Does a command.
    pub(super) fn command<E: Write>(
        &mut self,
        command: &Command,
        out: &mut Printed<W, E>,
    ) -> Result<u8, ServeFault> {
        self.server.command(&AsText, command, out)
    }

    /// Goes a round.
    pub(super) fn round<E: Write>(&mut self, out: &mut Printed<W, E>) -> Result<u8, ServeFault> {
        self.server.round(out)?;
        Ok(0)
    }

    /// Takes a turn: 0, or 1 where no build runs.
    pub(super) fn turn<E: Write>(&mut self, out: &mut Printed<W, E>) -> Result<u8, ServeFault> {
        if self.server.turn(out)? { Ok(0) } else { Ok(1) }
    }
}
