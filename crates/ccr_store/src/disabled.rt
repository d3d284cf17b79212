//! Disabled places, made of rows by the history's own calls.
ghost use Rattle.std.specs.Prelude.{◌≡◌, ◌++◌, ℕ, List, [], IsTrue, OnOk};
ghost use Rattle.ccr_history.specs.Builds.{BuildData};
ghost use Rattle.ccr_history.specs.Changes.{disabled, edited};
ghost use Rattle.ccr_history.specs.History.{AreDisabled, has_place};
ghost use Rattle.ccr_store.specs.Listed.{listed_pairs, KeepsSeen};
ghost use Rattle.ccr_store.specs.Rows.{moved_row, disabled_rows};
ghost use Rattle.ccr_store.specs.Texts.{OrNoMemory};

use crate::reading::pair_count;
use ccr_history::{History, StoreFault};
use ccr_tables::NamedRow;

/// Disables the place of a row, if the tables have it.
fn disable(history: &mut History, row: &NamedRow) -> Result<(), StoreFault>
    ensures read { (p : ℕ × ℕ) → IsTrue (has_place history.old.tables p.0 p.1) → row.now ≡ moved_row 0 p
        → OrNoMemory (λ _. history.new ≡ edited (disabled p.0 p.1) history.old) result }
    ensures kept { OnOk result (KeepsSeen history.old history.new) }
    ensures builds { OnOk result (history.new.builds ≡ history.old.builds) }
{
    let (_, _, scope, place) = row.columns();
    if !history.has_place(scope, place) {
        return Err(StoreFault::NotOurs);
    }
    history.disable_place(scope, place)?;
    Ok(())
}

fn disable_all(history: &mut History, rows: &[NamedRow]) -> Result<(), StoreFault>
    ensures read { (ps : List (ℕ × ℕ)) → AreDisabled history.old.tables ps → history.old.disabled ≡ []
        → rows.now ≡ disabled_rows ps → OrNoMemory (λ _. history.new ≡ record history.old { disabled = ps }) result }
    ensures kept { OnOk result (KeepsSeen history.old history.new) }
{
    for row in rows {
        disable(history, row)?;
    }
    Ok(())
}

/// Disables the places of the rows of build 0, and gives the rows behind them.
pub(crate) fn add_disabled<'a>(
    history: &mut History,
    rows: &'a [NamedRow],
) -> Result<&'a [NamedRow], StoreFault>
    ensures read { (ps : List (ℕ × ℕ)) (bs : List BuildData) → AreDisabled history.old.tables ps
        → history.old.disabled ≡ [] → rows.now ≡ disabled_rows ps ++ listed_pairs 1 bs
        → OrNoMemory (λ more. (more.now ≡ listed_pairs 1 bs)
        × (history.new ≡ record history.old { disabled = ps })) result }
    ensures kept { OnOk result (KeepsSeen history.old history.new) }
{
    let (front, more) = rows.split_at(pair_count(rows, 0));
    disable_all(history, front)?;
    Ok(more)
}
