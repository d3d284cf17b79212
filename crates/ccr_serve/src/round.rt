//! Rounds: checks, schedules, and turns.
ghost use Rattle.std.specs.Prelude.{map, replicate, string_bytes, false};
ghost use Rattle.ccr_core.specs.Cores.{core_data};
ghost use Rattle.ccr_serve.specs.Items as item;
ghost use Rattle.ccr_serve.specs.Runs.{AreThere, Round, Rounds};
ghost use Rattle.ccr_serve.specs.Serving.{ItemsOf};
ghost use Rattle.ccr_serve.specs.Views.{resources_held, IsReady, bare_view};
ghost use Rattle.ccr_serve.specs.Served.{Serving, AfterItems};

use crate::fault::ServeFault;
use crate::names::names_held;
use crate::server::Server;
use ccr_history::Storage;
use ccr_lines::Lines;
use ccr_process::Runner;
use ccr_task::Shelf;

impl<R: Runner, S: Shelf, T: Storage> Server<R, S, T> {
    /// Checks the resources of these names, in order; faults as at a check.
    fn check_each<O: Lines>(&mut self, names: &[String], out: &mut O) -> Result<(), ServeFault>
        requires ready { IsReady (bare_view R.Runner S.Shelf T.Storage self.old) }
        requires there { AreThere (map string_bytes names.now) (resources_held (core_data self.old.core)) }
        ensures served { Serving R.Runner S.Shelf T.Storage O.Lines
            (ItemsOf (map (λ name. item.check (string_bytes name)) names.now)) result
            self.old self.new out.old out.new }
        ensures after { AfterItems R.Runner S.Shelf T.Storage O.Lines false result self.old self.new out.old out.new }
    {
        for name in names {
            // What a core keeps says that a check leaves its pipeline.
            self.core.rules();
            match self.check(name.as_str(), out) {
                Ok(_) => {}
                Err(fault) => return Err(fault),
            }
        }
        Ok(())
    }

    /// Gives the jobs of these names their chance of a build, in order; faults as at a schedule.
    fn schedule_each<O: Lines>(&mut self, names: &[String], out: &mut O) -> Result<(), ServeFault>
        requires ready { IsReady (bare_view R.Runner S.Shelf T.Storage self.old) }
        ensures served { Serving R.Runner S.Shelf T.Storage O.Lines
            (ItemsOf (map (λ name. item.schedule (string_bytes name)) names.now)) result
            self.old self.new out.old out.new }
        ensures after { AfterItems R.Runner S.Shelf T.Storage O.Lines false result self.old self.new out.old out.new }
    {
        for name in names {
            match self.schedule(name.as_str(), out) {
                Ok(()) => {}
                Err(fault) => return Err(fault),
            }
        }
        Ok(())
    }

    /// Takes so many turns; faults as at a turn.
    fn take_turns<O: Lines>(&mut self, count: usize, out: &mut O) -> Result<(), ServeFault>
        requires ready { IsReady (bare_view R.Runner S.Shelf T.Storage self.old) }
        ensures served { Serving R.Runner S.Shelf T.Storage O.Lines (ItemsOf (replicate count item.turn)) result
            self.old self.new out.old out.new }
        ensures after { AfterItems R.Runner S.Shelf T.Storage O.Lines false result self.old self.new out.old out.new }
    {
        for _turn in 0..count {
            match self.take_turn(out) {
                Ok(_) => {}
                Err(fault) => return Err(fault),
            }
        }
        Ok(())
    }

    /// A round: a check of each resource, a schedule of each job, and then as many turns as builds run. Each item before
    /// a fault stays done, with its lines.
    ///
    /// - `NoMemory` if out of memory.
    /// - `Store` where the storage failed; then the server has closed.
    pub(crate) fn go_round<O: Lines>(&mut self, out: &mut O) -> Result<(), ServeFault>
        requires ready { IsReady (bare_view R.Runner S.Shelf T.Storage self.old) }
        ensures served { Serving R.Runner S.Shelf T.Storage O.Lines Round result
            self.old self.new out.old out.new }
        ensures after { AfterItems R.Runner S.Shelf T.Storage O.Lines false result self.old self.new out.old out.new }
    {
        let Ok(names) = names_held(self.alloc, &self.core) else {
            return Err(ServeFault::NoMemory);
        };
        match self.check_each(&names.0, out) {
            Ok(()) => {}
            Err(fault) => return Err(fault),
        }
        match self.schedule_each(&names.1, out) {
            Ok(()) => {}
            Err(fault) => return Err(fault),
        }
        let count = self.core.running().len();
        self.take_turns(count, out)
    }

    /// So many rounds, one after another; faults as at a round.
    pub(crate) fn go_rounds<O: Lines>(&mut self, count: u32, out: &mut O) -> Result<(), ServeFault>
        requires ready { IsReady (bare_view R.Runner S.Shelf T.Storage self.old) }
        ensures served { Serving R.Runner S.Shelf T.Storage O.Lines (λ places. Rounds places count) result
            self.old self.new out.old out.new }
        ensures after { AfterItems R.Runner S.Shelf T.Storage O.Lines false result self.old self.new out.old out.new }
    {
        for _round in 0..count {
            match self.go_round(out) {
                Ok(()) => {}
                Err(fault) => return Err(fault),
            }
        }
        Ok(())
    }
}
