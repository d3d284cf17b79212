//! What was shown and told, which is there for contracts alone.
ghost use Rattle.std.specs.Prelude.{◌≡◌, List, [], ◌∷◌, ◌++◌};
ghost use base.Fml.{ftrue};
ghost use Rattle.ccr_lines.specs.Printed.{EntryData, entry_data};

use std::marker::Model;

/// Something that was shown or told.
#[derive(Clone, Copy, Drop)]
pub(crate) enum Entry<'a> {
    /// These bytes were handed out to be shown.
    Shown(&'a [u8]),
    /// This line was told beside them.
    Told(&'a str),
}

/// Entries in their order. Only contracts read them: they take no byte.
#[derive(Drop)]
pub(crate) struct Log {
    pub ghost list: { List EntryData },
}

impl Model for Log {
    ghost also_owns = { λ _. ftrue };
}

impl Log {
    /// No entries.
    pub(crate) fn new() -> Log
        ensures { result.list ≡ [] }
    {
        Log {}
    }

    /// These entries, and then this one.
    pub(crate) fn and(&self, _entry: &Entry<'_>) -> Log
        ensures { result.list ≡ self.now.list ++ entry_data _entry.now ∷ [] }
    {
        Log {}
    }
}
