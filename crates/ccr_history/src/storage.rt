//! Where a history is kept.
ghost use Rattle.std.specs.Prelude.{◌≡◌, List, [], ◌∷◌, OnOk, OnErr, ⊤};
ghost use Rattle.ccr_history.specs.History.{HistoryData, IsHistory};
ghost use Rattle.ccr_history.specs.Edits.{change_data, Accepts};
ghost use Rattle.ccr_history.specs.Changes.{changed};
ghost use Rattle.ccr_history.specs.Counts.{RoseBy, fault_in};
ghost use Rattle.ccr_history.specs.Crash.{left_by};
ghost use Rattle.ccr_history.specs.declared.tally.Tally.{Tally};

use crate::change::Edit;
use crate::store_fault::StoreFault;
use std::alloc::Global;

/// Where a history is kept. Contracts see which history its tables hold, which ones a crash may leave, and the tally of its
/// commits.
pub trait Storage {
    ghost holds: { Self → HistoryData → Type 0 };

    /// A crash at this moment leaves one of these histories. A storage that says nothing of crashes leaves it out.
    ghost leaves: { Self → List HistoryData → Type 0 } = { λ _ _. ⊤ };

    ghost tally: { Self → Tally };

    /// Writes what a change of the history changes: all of it, or nothing.
    ///
    /// The edits are ones that the history takes, each by then, and carry the numbers that it gave them. After an `Err` the
    /// tables hold what they held.
    ///
    /// - `Refused`, `Disk` or `Interrupted` where the database failed so.
    /// - `NoMemory` if out of memory.
    fn commit(&mut self, alloc: Global, change: &[Edit]) -> Result<(), StoreFault>
        requires { (h : HistoryData) × Accepts h change.now }
        ensures done { (h : HistoryData) → holds self.old h → Accepts h change.now
            → OnOk result (holds self.new (changed (change_data change.now) h)) }
        ensures refused { (h : HistoryData) → holds self.old h → OnErr result (holds self.new h) }
        ensures crash { (h : HistoryData) → IsHistory h → holds self.old h → leaves self.old (h ∷ []) → Accepts h change.now
            → leaves self.new (left_by result h (changed (change_data change.now) h)) }
        ensures counted { RoseBy (tally self.old).commits 1 (tally self.new).commits }
        ensures told { (tally self.new).fault ≡ fault_in result };
}
