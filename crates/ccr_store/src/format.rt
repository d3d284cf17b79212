//! The formats of a database.
ghost use Rattle.std.specs.Prelude.{◌≡◌, ◌↔◌, IsTrue};
ghost use Rattle.ccr_store.specs.Rows.{format_text, Fits};

use ccr_history::History;

/// How a history stands in the six tables.
#[derive(Clone, Copy, PartialEq, Eq)]
pub enum Format {
    /// The first one, which has no disabled places.
    One,
    /// The one that is written: a row of `pairs` with build 0 is a disabled place.
    Two,
}

impl Format {
    /// The number of the format, as row 1 of `meta` has it.
    pub(crate) fn number(self) -> &'static [u8]
        ensures { result.now ≡ format_text self }
    {
        match self {
            Format::One => b"1",
            Format::Two => b"2",
        }
    }

    /// Whether the format has room for a history.
    pub(crate) fn fits(self, history: &History) -> bool
        ensures { IsTrue result ↔ Fits self history.now }
    {
        match self {
            Format::One => history.disabled().is_empty(),
            Format::Two => true,
        }
    }
}
