//! Names that may not be repeated.
ghost use Rattle.std.specs.Prelude.{◌≡◌, [], not, length, take, option_map, IfOk, OnOk, OnErr};
ghost use Rattle.serde_json.specs.View.{view};
ghost use Rattle.ccr_pipeline.specs.Keys.{at_key};
ghost use Rattle.ccr_pipeline.specs.Names.{has_name, with_name, text_at};

use crate::key::at_key;
use indexmap::IndexSet;
use serde_json::Value;
use std::alloc::{AllocError, Global};
use std::marker::Model;

/// Names, each once, in order of first mention.
#[derive(Drop)]
pub struct Names {
    set: IndexSet<String>,
}

impl Model for Names {
    ghost use Rattle.std.specs.Prelude.{ℕ, List};
    ghost use Rattle.ccr_pipeline.specs.Names.{names_of};

    ghost Value = { List (List ℕ) };

    ghost view = { λ names. names_of names.set.keys };
}

impl Names {
    /// No names.
    pub fn new(alloc: Global) -> Names
        ensures { result ≡ [] }
    {
        Names {
            set: IndexSet::new(alloc),
        }
    }

    /// How many names there are.
    pub fn len(&self) -> usize
        ensures { result ≡ length self.now }
    {
        self.set.len()
    }

    /// Whether the name is among them.
    pub fn contains(&self, name: &str) -> bool
        ensures { result ≡ has_name self.now name.now }
    {
        self.set.contains(name)
    }

    /// Adds a name, unless it is there already, and answers whether it was new. Where memory is refused, nothing changes.
    pub fn add(&mut self, alloc: Global, name: &str) -> Result<bool, AllocError>
        ensures new { IfOk result (λ is_new. is_new ≡ not (has_name self.old name.now)) }
        ensures added { OnOk result (self.new ≡ with_name self.old name.now) }
        ensures unchanged { OnErr result (self.new ≡ self.old) }
    {
        let name = String::from_str(alloc, name)?;
        let (_, is_new) = self.set.insert_full(name)?;
        Ok(is_new)
    }

    /// Keeps so many of the names, those that came first, and drops the others.
    pub fn truncate(&mut self, len: usize)
        ensures { self.new ≡ take len self.old }
    {
        self.set.truncate(len);
    }
}

/// The text at a key.
pub fn text_at<'v>(value: &'v Value, key: &str) -> Option<&'v str>
    ensures { option_map (λ text. text.now) result ≡ text_at key.now (view value.now) }
{
    at_key(value, key)?.as_str()
}
