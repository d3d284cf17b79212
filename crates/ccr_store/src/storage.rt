//! The store as a server's storage.
ghost use Rattle.std.specs.Prelude.{◌≡◌, [], ◌∷◌, OnOk, OnErr};
ghost use Rattle.ccr_history.specs.History.{HistoryData, IsHistory};
ghost use Rattle.ccr_history.specs.Edits.{change_data, Accepts};
ghost use Rattle.ccr_history.specs.Changes.{changed};
ghost use Rattle.ccr_history.specs.Crash.{left_by};
ghost use Rattle.ccr_store.specs.Crash.{Leaves};
ghost use Rattle.ccr_store.specs.StoreData.{IsKept};

use crate::still::writes_nothing;
use crate::store::Store;
use ccr_history::{Edit, Storage, StoreFault};
use sqlite::Alter;
use std::alloc::Global;

impl<S: Alter> Store<S> {
    /// Writes what a change of the history changes. One of nothing needs no transaction, which would wait for the disk.
    fn write(&mut self, alloc: Global, change: &[Edit]) -> Result<(), StoreFault>
        requires { (h : HistoryData) × Accepts h change.now }
        ensures done { (h : HistoryData) → IsKept S.Store self.old h → Accepts h change.now
            → OnOk result (IsKept S.Store self.new (changed (change_data change.now) h)) }
        ensures refused { (h : HistoryData) → IsKept S.Store self.old h → OnErr result (IsKept S.Store self.new h) }
        ensures crash { (h : HistoryData) → IsHistory h → IsKept S.Store self.old h → Leaves S.Store self.old (h ∷ [])
            → Accepts h change.now
            → Leaves S.Store self.new (left_by result h (changed (change_data change.now) h)) }
        ensures tally { self.new.tally ≡ self.old.tally }
    {
        if writes_nothing(change) {
            return Ok(());
        }
        self.commit(alloc, change)
    }
}

impl<S: Alter> Storage for Store<S> {
    ghost use Rattle.ccr_store.specs.Crash.{Leaves};
    ghost use Rattle.ccr_store.specs.StoreData.{IsKept};

    ghost holds = { λ store h. IsKept S.Store store h };

    ghost leaves = { λ store hs. Leaves S.Store store hs };

    ghost tally = { λ store. store.tally };

    fn commit(&mut self, alloc: Global, change: &[Edit]) -> Result<(), StoreFault> {
        let answer = self.write(alloc, change);
        self.tally.note(&answer);
        answer
    }
}
