//! How what a core holds is shown.
ghost use Rattle.std.specs.Prelude.{◌≡◌, []};
ghost use Rattle.ccr_core.specs.Cores.{core_data};
ghost use Rattle.ccr_core.specs.Commands.{shown_data};
ghost use Rattle.ccr_lines.specs.Shown.{Showing};

use crate::lines::Lines;
use crate::shown::ShowFault;
use ccr_core::{Core, Shown};
use std::alloc::Global;

/// Shows what a core holds. The server takes any that keeps these promises, so it knows nothing of how texts are made.
pub trait Show {
    /// Shows it: status 0, or 3 with nothing written where a search would go over the budget.
    ///
    /// `Lacks` and `BadPin` where what it needs isn't there, and `NoMemory` if out of memory; nothing is written then.
    fn show<O: Lines>(
        &self,
        alloc: Global,
        out: &mut O,
        what: &Shown,
        core: &Core,
    ) -> Result<u8, ShowFault>
        ensures shows { Showing (shown_data what.now) (core_data core.now) result (O.written out.old) (O.written out.new) }
        ensures waiting { O.waiting out.old ≡ [] → O.waiting out.new ≡ [] };
}
