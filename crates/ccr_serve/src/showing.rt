//! What commands show.
ghost use Rattle.ccr_core.specs.Commands.{shown_data, shows};
ghost use Rattle.ccr_serve.specs.Views.{IsReady, bare_view};
ghost use Rattle.ccr_serve.specs.Served.{Came, AfterCommand};

use crate::fault::ServeFault;
use crate::server::Server;
use ccr_core::Shown;
use ccr_history::Storage;
use ccr_lines::{Lines, Show, ShowFault};
use ccr_process::Runner;
use ccr_task::Shelf;

impl<R: Runner, S: Shelf, T: Storage> Server<R, S, T> {
    /// Shows it, and changes nothing: status 3 where a search would go over the budget, else 0.
    pub(crate) fn show<V: Show, O: Lines>(
        &mut self,
        show: &V,
        what: &Shown,
        out: &mut O,
    ) -> Result<u8, ServeFault>
        requires ready { IsReady (bare_view R.Runner S.Shelf T.Storage self.old) }
        ensures came { Came R.Runner S.Shelf T.Storage O.Lines (shows (shown_data what.now)) result
            self.old self.new out.old out.new }
        ensures after { AfterCommand R.Runner S.Shelf T.Storage O.Lines result self.old self.new out.old out.new }
    {
        match show.show(self.alloc, out, what, &self.core) {
            Ok(status) => Ok(status),
            Err(ShowFault::Lacks(fault)) => Err(ServeFault::Core(fault)),
            Err(ShowFault::BadPin) => Err(ServeFault::BadPin),
            Err(ShowFault::NoMemory) => Err(ServeFault::NoMemory),
        }
    }
}
