//! Where a value stands in a text.
ghost use Rattle.std.specs.Prelude.{◌≡◌, IfOk, string_bytes};
ghost use Rattle.ccr_pipeline.specs.Faults.{unless, Checks};
ghost use Rattle.ccr_pipeline.specs.Keys.{path_of, path_below, path_at};

use crate::fault::{Checked, ReadFault, Rule};
use std::alloc::{AllocError, Global};

/// Where a value stands. Its path is written only where a fault or an unused key is told.
#[derive(Clone, Copy)]
pub enum Place<'a> {
    /// A path that needs no other.
    Top(&'a str),
    /// A key of the object at a place.
    Key(&'a Place<'a>, &'a str),
    /// A position of the list at a place.
    Member(&'a Place<'a>, usize),
}

impl<'a> Place<'a> {
    /// At a path that needs no other: a list of the pipeline, or a task file. The whole pipeline's is empty here.
    #[tactic(auto, unfolding(crate::specs::Keys::path_of))]
    pub fn top(path: &'a str) -> Place<'a>
        ensures { path_of result ≡ path.now }
    {
        Place::Top(path)
    }

    /// At a key of the object at this place.
    #[tactic(auto, unfolding(crate::specs::Keys::path_of))]
    pub fn key(&'a self, key: &'a str) -> Place<'a>
        ensures { path_of result ≡ path_below (path_of self.now) key.now }
    {
        Place::Key(self, key)
    }

    /// At a position of the list at this place.
    #[tactic(auto, unfolding(crate::specs::Keys::path_of))]
    pub fn member(&'a self, position: usize) -> Place<'a>
        ensures { path_of result ≡ path_at (path_of self.now) position }
    {
        Place::Member(self, position)
    }

    /// Refuses where a test of the value at this place failed.
    pub fn require(&self, alloc: Global, holds: bool, rule: Rule) -> Checked
        ensures { Checks (unless holds rule (path_of self.now)) result }
    {
        if holds {
            return Ok(());
        }
        Err(ReadFault::of(rule, path_of(alloc, self)?))
    }
}

/// The path of a place, in full.
#[tactic(auto, unfolding(crate::specs::Keys::path_of))]
pub fn path_of(alloc: Global, place: &Place) -> Result<String, AllocError>
    ensures { IfOk result (λ p. string_bytes p ≡ path_of place.now) }
{
    match place {
        Place::Top(path) => String::from_str(alloc, path),
        Place::Key(above, key) => {
            let above = path_of(alloc, above)?;
            path_below(alloc, above.as_str(), key)
        }
        Place::Member(above, position) => {
            let above = path_of(alloc, above)?;
            path_at(alloc, above.as_str(), *position)
        }
    }
}

/// The path of a key of the object at a path: the key alone at the top. Fails where memory runs out.
pub fn path_below(alloc: Global, path: &str, key: &str) -> Result<String, AllocError>
    ensures { IfOk result (λ p. string_bytes p ≡ path_below path.now key.now) }
{
    if path.is_empty() {
        return String::from_str(alloc, key);
    }
    format!(in alloc; "{path}.{key}")
}

/// The path of a member of the list at a path, from 0 on. Fails where memory runs out.
pub fn path_at(alloc: Global, path: &str, position: usize) -> Result<String, AllocError>
    ensures { IfOk result (λ p. string_bytes p ≡ path_at path.now position) }
{
    format!(in alloc; "{path}[{position}]")
}
