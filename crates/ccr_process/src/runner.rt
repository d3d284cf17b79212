//! What starts programs.
ghost use Rattle.std.specs.Prelude.{List};
ghost use Rattle.ccr_process.specs.Launches.{launch_data};
ghost use Rattle.ccr_process.specs.Ends.{end_data};
ghost use Rattle.ccr_process.specs.Runs.{Pair, AddsPair};

use crate::ended::Ended;
use crate::launch::Launch;

/// What starts programs and keeps the pairs of launch and end.
pub trait Runner {
    ghost pairs: { Self → List Pair };

    /// Runs a launch to its end.
    ///
    /// One pair is added, that of the launch and the end; or none, where memory is refused before the start: then
    /// nothing is started and the end is `NoMemory`. A `NoMemory` after the start adds its pair.
    fn run(&mut self, launch: &Launch) -> Ended
        ensures { AddsPair (pairs self.old) (launch_data launch.now) (end_data result) (pairs self.new) };
}
