//! Checks by command.
ghost use Rattle.ccr_core.specs.Commands.{check_resource};
ghost use Rattle.ccr_serve.specs.Views.{IsReady, bare_view};
ghost use Rattle.ccr_serve.specs.Served.{Came, AfterCommand};

use crate::fault::ServeFault;
use crate::server::Server;
use ccr_history::Storage;
use ccr_lines::{Lines, resource_held};
use ccr_process::Runner;
use ccr_task::Shelf;

impl<R: Runner, S: Shelf, T: Storage> Server<R, S, T> {
    /// Checks the resource of this name: status 0 where versions were taken, else 1.
    pub(crate) fn check_resource<O: Lines>(
        &mut self,
        name: &str,
        out: &mut O,
    ) -> Result<u8, ServeFault>
        requires ready { IsReady (bare_view R.Runner S.Shelf T.Storage self.old) }
        ensures came { Came R.Runner S.Shelf T.Storage O.Lines (check_resource name.now) result
            self.old self.new out.old out.new }
        ensures after { AfterCommand R.Runner S.Shelf T.Storage O.Lines result self.old self.new out.old out.new }
    {
        match resource_held(&self.core, name) {
            Ok(_) => {}
            Err(fault) => return Err(ServeFault::Core(fault)),
        }
        match self.check(name, out) {
            Ok(true) => Ok(0),
            Ok(false) => Ok(1),
            Err(fault) => Err(fault),
        }
    }
}
