//! The server.
ghost use Rattle.std.specs.Prelude.{◌≡◌};
ghost use Rattle.std.specs.Option.{option_copied};
ghost use Rattle.ccr_core.specs.Cores.{core_data};

use ccr_core::Core;
use ccr_task::Places;
use std::alloc::Global;

/// A server over a runner of programs, a shelf of folders and a storage of its history.
///
/// Once its storage fails it answers `Closed` to every call, and another one is made of the database.
#[derive(Drop)]
pub struct Server<R, S, T> {
    pub(crate) alloc: Global,
    pub(crate) core: Core,
    pub(crate) runner: R,
    pub(crate) shelf: S,
    pub(crate) storage: T,
    pub(crate) places: Places,
    // The rank in order of making, from 1, of the build that was served last; 0 where none was.
    pub(crate) last: u64,
    pub(crate) closed: bool,
}

impl<R, S, T> Server<R, S, T> {
    /// The core, as the commands so far have left it.
    pub fn core(&self) -> &Core
        ensures { result.now ≡ self.now.core }
    {
        &self.core
    }

    /// The text of the pipeline that was set last, if one was.
    pub fn text(&self) -> Option<&[u8]>
        ensures { option_copied result ≡ (core_data self.now.core).history.text }
    {
        self.core.history().text()
    }
}
