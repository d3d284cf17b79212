//! A storage that keeps nothing.
ghost use Rattle.std.specs.Prelude.{⊤};

use ccr_history::{Edit, Storage, StoreFault, Tally};
use std::alloc::Global;

/// Takes so many commits, and fails with this fault at each later one. It keeps nothing of what it is given.
#[derive(Drop)]
pub(super) struct Unkept {
    pub(super) commits: u32,
    pub(super) fault: StoreFault,
    pub(super) tally: Tally,
}

impl Storage for Unkept {
    ghost holds = { λ _ _. ⊤ };

    ghost tally = { λ storage. storage.tally };

    fn commit(&mut self, _alloc: Global, _change: &[Edit]) -> Result<(), StoreFault> {
        let answer = if self.commits == 0 {
            Err(self.fault)
        } else {
            self.commits -= 1;
            Ok(())
        };
        self.tally.note(&answer);
        answer
    }
}
