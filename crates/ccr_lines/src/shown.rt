//! Why a command shows nothing.
ghost use Rattle.std.specs.Prelude.{◌≡◌};
ghost use Rattle.ccr_lines.specs.declared.shown.ShowFault.TheVariants.{NoMemory};

use ccr_core::CoreFault;
use std::alloc::AllocError;

/// Why nothing is shown.
#[derive(Clone, Copy, PartialEq, Eq)]
pub enum ShowFault {
    /// No pipeline was set, it has no resource or job of this name, or the job has no build of this number.
    Lacks(CoreFault),
    /// A pin's text is no JSON object of texts.
    BadPin,
    /// Out of memory.
    NoMemory,
}

impl From<AllocError> for ShowFault {
    ghost from_gives = { λ error fault. fault ≡ NoMemory };

    fn from(_error: AllocError) -> ShowFault {
        ShowFault::NoMemory
    }
}
