//! Places no worse than one and no better than another, as spans of numbers.

ghost use Rattle.std.specs.Prelude.{◌≡◌, ◌+◌, ◌-◌, ◌^◌, ◌<◌, ◌≤◌, ◌⊎◌, ℕ, Some, Contains, IsTrue};
ghost use Rattle.ccr_choice.specs.Ascending.{AreRising};
ghost use Rattle.ccr_choice.specs.Preference.{prefers_after};
ghost use Rattle.ccr_resolve.specs.Sought.{IsInSpan, span_place};

/// The places from one to another, in ascending or descending order; none where the second is less.
#[derive(Clone, Copy)]
pub(crate) struct Span {
    from: u32,
    to: u32,
    is_rising: bool,
}

impl Span {
    /// How many places there are.
    pub(crate) fn len(&self) -> usize
        ensures value { result ≡ self.now.to + 1 - self.now.from }
        ensures few { result ≤ 2 ^ 32 }
    {
        if self.to < self.from {
            return 0;
        }
        (self.to - self.from) as usize + 1
    }

    /// The place at this step, from 0.
    pub(crate) fn place(&self, step: usize) -> u32
        requires { step < self.now.to + 1 - self.now.from }
        ensures { result ≡ span_place self.now step }
    {
        if self.is_rising {
            self.from + step as u32
        } else {
            self.to - step as u32
        }
    }
}

/// Two spans, of which the first one's places are preferred.
#[derive(Clone, Copy)]
pub(crate) struct Spans {
    pub(crate) first: Span,
    pub(crate) second: Span,
}

impl Spans {
    /// How many places there are.
    pub(crate) fn len(&self) -> usize
        ensures { result ≡ (self.now.first.to + 1 - self.now.first.from)
            + (self.now.second.to + 1 - self.now.second.from) }
    {
        self.first.len() + self.second.len()
    }
}

/// The last of places that ascend, 0 where there is none.
fn last_of(places: &[u32]) -> u32
    requires { AreRising places.now }
    ensures { (place : ℕ) → Contains places.now place → place ≤ result }
{
    if places.len() == 0 {
        return 0;
    }
    places[places.len() - 1]
}

/// Spans with each of these places, which ascend, that is no worse than the one found and no better than the best one.
pub(crate) fn spans_of(after: Option<u32>, places: &[u32], found: u32, best: u32) -> Spans
    requires { AreRising places.now }
    ensures { (place : ℕ) → Contains places.now place → ¬ IsTrue (prefers_after after found place)
        → ¬ IsTrue (prefers_after after place best) → IsInSpan result.first place ⊎ IsInSpan result.second place }
{
    match after {
        Some(kept) if kept < best => spans_above(places, kept, found, best),
        _ => Spans {
            first: Span {
                from: found,
                to: best,
                is_rising: false,
            },
            second: Span {
                from: 1,
                to: 0,
                is_rising: false,
            },
        },
    }
}

/// The same where the best place lies above the one that is kept.
fn spans_above(places: &[u32], kept: u32, found: u32, best: u32) -> Spans
    requires rising { AreRising places.now }
    requires above { kept < best }
    ensures { (place : ℕ) → Contains places.now place → ¬ IsTrue (prefers_after (Some kept) found place)
        → ¬ IsTrue (prefers_after (Some kept) place best) → IsInSpan result.first place ⊎ IsInSpan result.second place }
{
    let end = if kept < found { found } else { last_of(places) };
    Spans {
        first: Span {
            from: best,
            to: end,
            is_rising: true,
        },
        second: Span {
            from: found,
            to: kept,
            is_rising: false,
        },
    }
}
