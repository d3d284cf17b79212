//! What a shelf counts.
ghost use Rattle.std.specs.Prelude.{◌≡◌};
ghost use Rattle.ccr_task.specs.Calls.{no_counts};

/// How often a shelf failed, and how often it said that a folder is there. Each count stays at 2^64 - 1.
#[derive(Clone, Copy, PartialEq, Eq)]
pub struct ShelfCounts {
    /// How many calls answered `Failed`.
    pub failures: u64,
    /// How many calls answered that a folder is there.
    pub seen: u64,
}

impl ShelfCounts {
    /// The counts of a shelf that was asked for nothing yet.
    pub fn new() -> ShelfCounts
        ensures { result ≡ no_counts }
    {
        ShelfCounts {
            failures: 0,
            seen: 0,
        }
    }
}
