//! What a shelf notes of its calls.
ghost use Rattle.std.specs.Prelude.{◌≡◌, [], ◌∷◌, ◌++◌};
ghost use Rattle.ccr_task.specs.Calls.{call_data, counts_of};

use crate::calls::{Call, Calls};
use crate::counts::ShelfCounts;

/// What a shelf has noted: its counts, and for contracts the calls of which they are the counts.
#[derive(Drop)]
pub(crate) struct Noted {
    counts: ShelfCounts,
    calls: Calls,
    ghost follow: { counts ≡ counts_of calls.list },
}

impl Noted {
    /// Nothing: the shelf was asked for nothing yet.
    pub(crate) fn new() -> Noted
        ensures { result.calls.list ≡ [] }
    {
        Noted {
            counts: ShelfCounts::new(),
            calls: Calls::new(),
        }
    }

    /// What was counted.
    pub(crate) fn counts(&self) -> ShelfCounts
        ensures { result ≡ counts_of self.now.calls.list }
    {
        self.counts
    }

    /// Notes a call, and counts what it answered.
    pub(crate) fn note(&mut self, call: &Call<'_>)
        ensures { self.new.calls.list ≡ self.old.calls.list ++ call_data call.now ∷ [] }
    {
        let counts = ShelfCounts {
            failures: self
                .counts
                .failures
                .saturating_add(u64::from(call.is_failed())),
            seen: self
                .counts
                .seen
                .saturating_add(u64::from(call.found_folder())),
        };
        *self = Noted {
            counts,
            calls: self.calls.and(call),
        };
    }
}
