//! Laws over the definitions alone: what every history keeps, changes keep.
ghost use Rattle.std.specs.Prelude.{List};
ghost use Rattle.ccr_history.specs.History.{HistoryData, no_history, IsHistory};
ghost use Rattle.ccr_history.specs.Changes.{EditData, edited, changed, Admits, AdmitsAll};

/// What every history keeps, the first one keeps, and each change that a history takes.
///
/// It is a law over the definitions alone; nothing runs.
pub fn changes_keep_histories()
    // Before anything is seen, there is a history.
    ensures first { IsHistory no_history }

    // After a change that it takes, a history is one again.
    ensures one { (e : EditData) (h : HistoryData) → IsHistory h → Admits h e → IsHistory (edited e h) }

    // So it is after any number of them.
    ensures all { (es : List EditData) (h : HistoryData) → IsHistory h → AdmitsAll h es → IsHistory (changed es h) }
{}
