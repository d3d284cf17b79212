//! Where reading a proof stopped.

ghost use Rattle.std.specs.Prelude.{◌≡◌};
ghost use Rattle.ccr_proof.specs.declared.halt.Halt.TheVariants.{Memory};

use ccr_choice::Stop;
use std::alloc::{AllocError, AllocFailed};

/// Where a reader of a proof's lines stopped.
#[derive(Clone, Copy, Debug, PartialEq, Eq)]
pub(crate) enum Halt {
    /// Memory was refused.
    Memory,
    /// So many lines were left, the bad one with them: 0 where a line is missing.
    Left(usize),
    /// More nodes are asked for than a tree may have.
    TooMany,
}

impl From<AllocError> for Halt {
    ghost from_gives = { λ _ e. e ≡ Memory };

    fn from(_e: AllocError) -> Halt {
        Halt::Memory
    }
}

impl<T: Drop> From<AllocFailed<T>> for Halt {
    ghost from_gives = { λ _ e. e ≡ Memory };

    fn from(_e: AllocFailed<T>) -> Halt {
        Halt::Memory
    }
}

impl From<Stop> for Halt {
    ghost use Rattle.ccr_proof.specs.Halts.{halt_of};

    ghost from_gives = { λ s e. e ≡ halt_of s };

    fn from(stop: Stop) -> Halt {
        match stop {
            Stop::Memory => Halt::Memory,
            Stop::Left(lines) => Halt::Left(lines),
        }
    }
}
