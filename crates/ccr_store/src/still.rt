//! Changes that write nothing.
ghost use Rattle.std.specs.Prelude.{◌≡◌, ◌↔◌, [], IsTrue};
ghost use Rattle.ccr_store.specs.Writes.{change_writes, edit_writes};

use ccr_history::Edit;

/// Whether an edit writes nothing: a report of no versions, or a place that is disabled or enabled already.
fn is_still(edit: &Edit) -> bool
    ensures { IsTrue result ↔ (edit_writes edit.now ≡ []) }
{
    match edit {
        Edit::Versions(report) => report.versions.is_empty(),
        Edit::Disabled(place) | Edit::Enabled(place) => !place.is_changed,
        _ => false,
    }
}

/// Whether a change writes nothing.
pub(crate) fn writes_nothing(change: &[Edit]) -> bool
    ensures { IsTrue result ↔ (change_writes change.now ≡ []) }
{
    for edit in change {
        if !is_still(edit) {
            return false;
        }
    }
    true
}
