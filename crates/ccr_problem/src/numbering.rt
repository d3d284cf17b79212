//! Names, numbered in order of first mention.
ghost use Rattle.std.specs.Prelude.{◌≡◌, ◌≤◌, [], length, map, string_bytes, OnOk};
ghost use Rattle.ccr_pipeline.specs.Names.{has_name, with_name, with_names};
ghost use Rattle.ccr_problem.specs.Numbering.{number_of};

use std::alloc::{AllocError, Global};
use std::marker::Model;

/// Names, each once, in order of first mention. The number of a name is how many stand before it.
#[derive(Drop)]
pub(crate) struct Numbering {
    names: Vec<String>,
}

impl Model for Numbering {
    ghost use Rattle.std.specs.Prelude.{ℕ, List, map, string_bytes};

    ghost Value = { List (List ℕ) };

    ghost view = { λ n. map string_bytes n.names.items };
}

impl Numbering {
    /// No names.
    pub(crate) fn new(alloc: Global) -> Self
        ensures { result ≡ [] }
    {
        Numbering {
            names: Vec::new(alloc),
        }
    }

    /// The names, in their order.
    pub(crate) fn names(&self) -> &[String]
        ensures { map string_bytes result.now ≡ self.now }
    {
        &self.names
    }

    /// Whether a name is there.
    pub(crate) fn has(&self, name: &str) -> bool
        ensures { result ≡ has_name self.now name.now }
    {
        has_name(&self.names, name)
    }

    /// The number of a name.
    pub(crate) fn number(&self, name: &str) -> u32
        requires { length self.now ≤ 32 }
        ensures { result ≡ number_of self.now name.now }
    {
        number_of(&self.names, name) as u32
    }

    /// Adds a name at the end, unless it is there.
    pub(crate) fn add(&mut self, alloc: Global, name: &str) -> Result<(), AllocError>
        ensures { OnOk result (self.new ≡ with_name self.old name.now) }
    {
        if !has_name(&self.names, name) {
            self.names.push(String::from_str(alloc, name)?)?;
        }
        Ok(())
    }

    /// Adds the names of a list that aren't there, in its order.
    pub(crate) fn add_all(&mut self, alloc: Global, names: &[String]) -> Result<(), AllocError>
        ensures { OnOk result (self.new ≡ with_names self.old (map string_bytes names.now)) }
    {
        for name in names {
            self.add(alloc, name.as_str())?;
        }
        Ok(())
    }
}

fn has_name(names: &[String], name: &str) -> bool
    ensures { result ≡ has_name (map string_bytes names.now) name.now }
{
    for known in names {
        if name == known.as_str() {
            return true;
        }
    }
    false
}

/// How many names stand before a name.
fn number_of(names: &[String], name: &str) -> usize
    ensures value { result ≡ number_of (map string_bytes names.now) name.now }
    ensures within { result ≤ length names.now }
{
    let mut number = 0;
    for known in names {
        if name == known.as_str() {
            return number;
        }
        number += 1;
    }
    number
}
