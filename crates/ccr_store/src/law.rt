//! Laws over the definitions alone: what a change writes gives the rows of the changed history.
ghost use Rattle.std.specs.Prelude.{◌≡◌, List, map};
ghost use Rattle.ccr_history.specs.History.{HistoryData, IsHistory};
ghost use Rattle.ccr_history.specs.Changes.{edited, changed, Admits};
ghost use Rattle.ccr_history.specs.Edits.{edit_data, change_data, HasItsNumbers, Accepts};
ghost use Rattle.ccr_history.specs.declared.change.Edit.{Edit};
ghost use Rattle.ccr_tables.specs.Contents.{Contents, Keeps};
ghost use Rattle.sqlite.specs.Tree.{Trees};
ghost use Rattle.ccr_tables.specs.Written.{all_written};
ghost use Rattle.ccr_tables.specs.declared.write.Write.{Write};
ghost use Rattle.ccr_store.specs.Reordered.{HasSameRows};
ghost use Rattle.ccr_store.specs.Rows.{rows_of};
ghost use Rattle.ccr_store.specs.WriteData.{write_data, all_made};
ghost use Rattle.ccr_store.specs.Writes.{edit_writes, change_writes};

/// The writes of a change take tables that have the rows of a history to tables that have those of the changed history.
///
/// It is a law over the definitions alone; nothing runs.
pub fn changes_write_their_rows()
    // The writes of one edit that the history takes, and whose numbers it gave.
    ensures one { (e : Edit) (h : HistoryData) → IsHistory h → Admits h (edit_data e) → HasItsNumbers h e
        → HasSameRows (rows_of (edited (edit_data e) h)) (all_made (edit_writes e) (rows_of h)) }

    // The writes of any number of them.
    ensures all { (es : List Edit) (h : HistoryData) → IsHistory h → Accepts h es
        → HasSameRows (rows_of (changed (change_data es) h)) (all_made (change_writes es) (rows_of h)) }

    // So tables that show what the writes make show the rows of the changed history.
    ensures kept { (es : List Edit) (h : HistoryData) (trees : Trees) → IsHistory h → Accepts h es
        → Keeps (all_made (change_writes es) (rows_of h)) trees → Keeps (rows_of (changed (change_data es) h)) trees }

    // What a write holds says what it makes.
    ensures written { (ws : List Write) (these : Contents)
        → all_written ws these ≡ all_made (map write_data ws) these }
{}

/// The rows of a history say which history it is.
///
/// It is a law over the definitions alone; nothing runs.
pub fn rows_tell_the_history()
    ensures { (h other : HistoryData) → IsHistory h → IsHistory other → HasSameRows (rows_of h) (rows_of other)
        → h ≡ other }
{}
