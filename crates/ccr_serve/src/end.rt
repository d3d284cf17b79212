//! Turns until no build runs.
ghost use Rattle.std.specs.Prelude.{true, false};
ghost use Rattle.ccr_serve.specs.Runs.{TurnsBy};
ghost use Rattle.ccr_serve.specs.Views.{IsReady, bare_view};
ghost use Rattle.ccr_serve.specs.Served.{Serving, AfterItems};

use crate::fault::ServeFault;
use crate::server::Server;
use ccr_history::Storage;
use ccr_lines::Lines;
use ccr_process::Runner;
use ccr_task::Shelf;

// How many turns a command may take beside those of its rounds.
const MOST_TURNS: u32 = 10_000_000;

impl<R: Runner, S: Shelf, T: Storage> Server<R, S, T> {
    /// Takes turns until no build runs, at most 10,000,000; false where a build runs after so many.
    ///
    /// - `NoMemory` if out of memory.
    /// - `Store` where the storage failed; then the server has closed.
    pub(crate) fn go_to_the_end<O: Lines>(&mut self, out: &mut O) -> Result<bool, ServeFault>
        requires ready { IsReady (bare_view R.Runner S.Shelf T.Storage self.old) }
        ensures served { Serving R.Runner S.Shelf T.Storage O.Lines (TurnsBy result) result
            self.old self.new out.old out.new }
        ensures after { AfterItems R.Runner S.Shelf T.Storage O.Lines false result self.old self.new out.old out.new }
    {
        for _turn in 0..MOST_TURNS {
            if self.core.running().is_empty() {
                return Ok(true);
            }
            match self.take_turn(out) {
                Ok(_) => {}
                Err(fault) => return Err(fault),
            }
        }
        Ok(self.core.running().is_empty())
    }
}
