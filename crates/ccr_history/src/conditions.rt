//! What a build may use and move, as tests.
ghost use Rattle.std.specs.Prelude.{◌≡◌};
ghost use Rattle.std.specs.Bool.{Decides};
ghost use Rattle.ccr_history.specs.Changes.{AreUsed, AreMoved};
ghost use Rattle.std.specs.List.{list_any, list_all};
ghost use Rattle.ccr_history.specs.History.{has_place};
ghost use Rattle.ccr_history.specs.Pairs.{is_same_pair};
ghost use Rattle.ccr_history.specs.Conditions.{are_apart, is_same_input, is_used_in, are_used, are_moved};

use crate::build::Used;
use crate::history::History;

fn has_input(used: &[Used], one: &Used) -> bool
    ensures { result ≡ list_any (is_same_input one.now) used.now }
{
    used.iter()
        .any(|other| one.input.as_str() == other.input.as_str())
}

fn has_pair(moved: &[(u32, u32)], one: &(u32, u32)) -> bool
    ensures { result ≡ list_any (is_same_pair one.now) moved.now }
{
    moved
        .iter()
        .any(|other| one.0 == other.0 && one.1 == other.1)
}

/// Whether each input is given once.
fn inputs_apart(used: &[Used]) -> bool
    ensures { result ≡ are_apart is_same_input used.now }
{
    let mut left = used;
    while let Some((first, rest)) = left.split_first() {
        if has_input(rest, first) {
            return false;
        }
        left = rest;
    }
    true
}

/// Whether each pair is given once.
fn pairs_apart(moved: &[(u32, u32)]) -> bool
    ensures { result ≡ are_apart is_same_pair moved.now }
{
    let mut left = moved;
    while let Some((first, rest)) = left.split_first() {
        if has_pair(rest, first) {
            return false;
        }
        left = rest;
    }
    true
}

fn are_places_used(history: &History, used: &[Used]) -> bool
    ensures { result ≡ list_all (is_used_in history.now.tables) used.now }
{
    used.iter().all(|one| !one.input.is_empty() && history.has_place(one.scope, one.place))
}

fn are_places_moved(history: &History, moved: &[(u32, u32)]) -> bool
    ensures { result ≡ list_all (λ p. has_place history.now.tables p.0 p.1) moved.now }
{
    moved.iter().all(|pair| history.has_place(pair.0, pair.1))
}

fn are_used(history: &History, used: &[Used]) -> bool
    ensures { result ≡ are_used history.now.tables used.now }
{
    inputs_apart(used) && are_places_used(history, used)
}

fn are_moved(history: &History, moved: &[(u32, u32)]) -> bool
    ensures { result ≡ are_moved history.now.tables moved.now }
{
    pairs_apart(moved) && are_places_moved(history, moved)
}

impl History {
    /// Whether `add_build` may be called with these places: each input is given once, by a name that isn't empty, with a
    /// place of the tables. It takes no memory.
    pub fn can_use(&self, used: &[Used]) -> bool
        ensures { Decides result (AreUsed self.now.tables used.now) }
    {
        are_used(self, used)
    }

    /// Whether `end_build` may be called with these pairs of scope and place: each is given once, and is a place of the
    /// tables. It takes no memory.
    pub fn can_move(&self, moved: &[(u32, u32)]) -> bool
        ensures { Decides result (AreMoved self.now.tables moved.now) }
    {
        are_moved(self, moved)
    }
}
