//! Pins by command.
ghost use Rattle.ccr_core.specs.Commands.{pin_resource, unpin_resource};
ghost use Rattle.ccr_serve.specs.Views.{IsReady, bare_view};
ghost use Rattle.ccr_serve.specs.Served.{Came, AfterCommand};

use crate::fault::ServeFault;
use crate::items::{begin, line_room};
use crate::server::Server;
use ccr_core::Event;
use ccr_history::Storage;
use ccr_lines::{Lines, pin_of, print_pinned, print_unpinned, resource_held};
use ccr_process::Runner;
use ccr_task::Shelf;

impl<R: Runner, S: Shelf, T: Storage> Server<R, S, T> {
    /// Pins the resource of this name to the versions that meet this JSON text.
    pub(crate) fn pin_resource<O: Lines>(
        &mut self,
        name: &str,
        text: &str,
        out: &mut O,
    ) -> Result<u8, ServeFault>
        requires ready { IsReady (bare_view R.Runner S.Shelf T.Storage self.old) }
        ensures came { Came R.Runner S.Shelf T.Storage O.Lines (pin_resource name.now text.now) result
            self.old self.new out.old out.new }
        ensures after { AfterCommand R.Runner S.Shelf T.Storage O.Lines result self.old self.new out.old out.new }
    {
        match resource_held(&self.core, name) {
            Ok(_) => {}
            Err(fault) => return Err(ServeFault::Core(fault)),
        }
        let pin = match pin_of(self.alloc, text) {
            Ok(Some(pin)) => pin,
            Ok(None) => return Err(ServeFault::BadPin),
            Err(_) => return Err(ServeFault::NoMemory),
        };
        let Ok(copy) = begin(self.alloc, name, line_room(name), out) else {
            return Err(ServeFault::NoMemory);
        };
        match self.make(Event::Pin(copy, pin)) {
            Ok(Ok(_)) => {
                print_pinned(out, name);
                out.hand_out();
                Ok(0)
            }
            Ok(Err(fault)) => Err(ServeFault::Core(fault)),
            Err(fault) => Err(fault),
        }
    }

    /// Takes the pin by command of the resource of this name away.
    pub(crate) fn unpin_resource<O: Lines>(
        &mut self,
        name: &str,
        out: &mut O,
    ) -> Result<u8, ServeFault>
        requires ready { IsReady (bare_view R.Runner S.Shelf T.Storage self.old) }
        ensures came { Came R.Runner S.Shelf T.Storage O.Lines (unpin_resource name.now) result
            self.old self.new out.old out.new }
        ensures after { AfterCommand R.Runner S.Shelf T.Storage O.Lines result self.old self.new out.old out.new }
    {
        let Ok(copy) = begin(self.alloc, name, line_room(name), out) else {
            return Err(ServeFault::NoMemory);
        };
        match self.make(Event::Unpin(copy)) {
            Ok(Ok(_)) => {
                print_unpinned(out, name);
                out.hand_out();
                Ok(0)
            }
            Ok(Err(fault)) => Err(ServeFault::Core(fault)),
            Err(fault) => Err(fault),
        }
    }
}
