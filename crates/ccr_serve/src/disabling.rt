//! Versions that are disabled and enabled.
ghost use Rattle.ccr_core.specs.Commands.{disable_version, enable_version};
ghost use Rattle.ccr_serve.specs.Views.{IsReady, bare_view};
ghost use Rattle.ccr_serve.specs.Served.{Came, AfterCommand};

use crate::fault::ServeFault;
use crate::items::{begin, line_room};
use crate::server::Server;
use ccr_core::Event;
use ccr_history::Storage;
use ccr_lines::{Lines, print_disabled, print_enabled};
use ccr_process::Runner;
use ccr_task::Shelf;

impl<R: Runner, S: Shelf, T: Storage> Server<R, S, T> {
    /// Disables the version at this place of the resource of this name.
    pub(crate) fn disable_version<O: Lines>(
        &mut self,
        name: &str,
        place: u32,
        out: &mut O,
    ) -> Result<u8, ServeFault>
        requires ready { IsReady (bare_view R.Runner S.Shelf T.Storage self.old) }
        ensures came { Came R.Runner S.Shelf T.Storage O.Lines (disable_version name.now place) result
            self.old self.new out.old out.new }
        ensures after { AfterCommand R.Runner S.Shelf T.Storage O.Lines result self.old self.new out.old out.new }
    {
        let Ok(copy) = begin(self.alloc, name, line_room(name), out) else {
            return Err(ServeFault::NoMemory);
        };
        match self.make(Event::Disable(copy, place)) {
            Ok(Ok(_)) => {
                print_disabled(out, name, place);
                out.hand_out();
                Ok(0)
            }
            Ok(Err(fault)) => Err(ServeFault::Core(fault)),
            Err(fault) => Err(fault),
        }
    }

    /// Enables the version at this place of the resource of this name again.
    pub(crate) fn enable_version<O: Lines>(
        &mut self,
        name: &str,
        place: u32,
        out: &mut O,
    ) -> Result<u8, ServeFault>
        requires ready { IsReady (bare_view R.Runner S.Shelf T.Storage self.old) }
        ensures came { Came R.Runner S.Shelf T.Storage O.Lines (enable_version name.now place) result
            self.old self.new out.old out.new }
        ensures after { AfterCommand R.Runner S.Shelf T.Storage O.Lines result self.old self.new out.old out.new }
    {
        let Ok(copy) = begin(self.alloc, name, line_room(name), out) else {
            return Err(ServeFault::NoMemory);
        };
        match self.make(Event::Enable(copy, place)) {
            Ok(Ok(_)) => {
                print_enabled(out, name, place);
                out.hand_out();
                Ok(0)
            }
            Ok(Err(fault)) => Err(ServeFault::Core(fault)),
            Err(fault) => Err(fault),
        }
    }
}
