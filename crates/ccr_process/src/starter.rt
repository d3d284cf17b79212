//! What tells the system to start programs.
ghost use Rattle.std.specs.Prelude.{◌≡◌, ◌<◌, ◌++◌, ◌∷◌, [], OnOk, vec_len, vec_capacity};
ghost use Rattle.ccr_process.specs.Launches.{launch_data};
ghost use Rattle.ccr_process.specs.Commands.{IsCommandOf};
ghost use Rattle.ccr_process.specs.Runs.{starter_launches};

use crate::launch::Launch;
use std::alloc::{AllocError, Global};
use std::io;
use std::process::{Child, Command, Processes};
use std::snapshot::Snapshot;

/// Tells the system to start programs by a runtime `R`. Nothing else of this crate holds the runtime.
#[derive(Drop)]
pub(crate) struct Starter<R: Processes> {
    rt: R,
    // No bytes: the launches are there for contracts alone.
    launches: Vec<Snapshot<Launch>>,
}

impl<R: Processes> Starter<R> {
    /// The system was told of no launch yet.
    pub(crate) fn new(rt: R, alloc: Global) -> Starter<R>
        ensures { starter_launches result ≡ [] }
    {
        Starter {
            rt,
            launches: Vec::new(alloc),
        }
    }

    /// Makes room for one launch more. The only error is out of memory.
    pub(crate) fn make_room(&mut self) -> Result<(), AllocError>
        ensures room { OnOk result (vec_len self.new.launches < vec_capacity self.new.launches) }
        ensures same { starter_launches self.new ≡ starter_launches self.old }
    {
        self.launches.reserve(1)
    }

    /// Tells the system to start the command of a launch, for which there is room. It counts as told, whatever the system
    /// answers.
    pub(crate) fn spawn(
        &mut self,
        command: &mut Command,
        launch: &Launch,
    ) -> io::Result<Child<R::Started>>
        requires room { vec_len self.old.launches < vec_capacity self.old.launches }
        requires command { IsCommandOf (launch_data launch.now) command.old }
        ensures { starter_launches self.new ≡ starter_launches self.old ++ launch_data launch.now ∷ [] }
    {
        self.launches.push(Snapshot::of(launch)).unwrap();
        command.spawn(&self.rt)
    }
}
