//! Names, each kept once.
ghost use Rattle.std.specs.Prelude.{◌≡◌, ◌<◌, [], length, slice_get, Some, IfSome, IfNone, IfOk, OnOk, OnErr, false, string_eq};
ghost use Rattle.std.specs.List.{IsDistinct};
ghost use Rattle.ccr_history.specs.Names.{texts_of, has_name, with_name, name_at, AreApart};

use indexmap::IndexSet;
use std::alloc::{AllocError, Global};
use std::marker::Model;

/// Names, each once, in order of adding. A name's number is its position.
#[derive(Drop)]
pub(crate) struct Names {
    set: IndexSet<String>,
}

impl Model for Names {
    ghost use Rattle.std.specs.Prelude.{ℕ, ◌≤◌, ◌^◌, List, length, string_eq};
    ghost use Rattle.indexmap.specs.IndexSet.{IsUnique};
    ghost use Rattle.ccr_history.specs.Names.{texts_of};

    ghost Value = { List (List ℕ) };

    ghost view = { λ names. texts_of names.set.keys };

    ghost invariant = { λ names. (length names.set.keys ≤ 2 ^ 32) × IsUnique string_eq names.set };
}

impl Names {
    /// No names.
    pub(crate) fn new(alloc: Global) -> Names
        ensures { result ≡ [] }
    {
        Names {
            set: IndexSet::new(alloc),
        }
    }

    /// How many names there are.
    pub(crate) fn len(&self) -> usize
        ensures { result ≡ length self.now }
    {
        self.set.len()
    }

    /// The number of a name, if it is there.
    pub(crate) fn find(&self, name: &str) -> Option<u32>
        ensures found { IfSome result (λ n. slice_get self.now n ≡ Some name.now) }
        ensures absent { IfNone result (has_name self.now name.now ≡ false) }
        ensures apart { AreApart self.now }
    {
        let number = self.set.get_index_of(name)?;
        Some(number as u32)
    }

    /// The name of this number.
    pub(crate) fn get(&self, number: u32) -> &str
        requires { number < length self.now }
        ensures { result.now ≡ name_at self.now number }
    {
        let name = &self.set[number as usize];
        name.as_str()
    }

    /// The number of a name, which comes to the end if it is new. Where memory is refused, nothing changes.
    pub(crate) fn add(&mut self, alloc: Global, name: &str) -> Result<u32, AllocError>
        ensures number { IfOk result (λ n. slice_get self.new n ≡ Some name.now) }
        ensures added { OnOk result (self.new ≡ with_name self.old name.now) }
        ensures unchanged { OnErr result (self.new ≡ self.old) }
        ensures apart { OnOk result (AreApart self.new) }
    {
        if let Some(number) = self.find(name) {
            return Ok(number);
        }
        let Ok(number) = u32::try_from(self.len()) else {
            return Err(AllocError);
        };
        let name = String::from_str(alloc, name)?;
        self.set.insert(name)?;
        Ok(number)
    }

    /// A copy of the names.
    pub(crate) fn copy(&self, alloc: Global) -> Result<Names, AllocError>
        ensures { IfOk result (λ names. names ≡ self.now) }
    {
        copy_texts(alloc, self.set.as_slice())
    }
}

/// Names of these texts, each of which stands there once.
fn copy_texts(alloc: Global, texts: &[String]) -> Result<Names, AllocError>
    requires { IsDistinct string_eq texts.now }
    ensures { IfOk result (λ names. names ≡ texts_of texts.now) }
{
    let mut names = Names::new(alloc);
    for text in texts {
        names.add(alloc, text.as_str())?;
    }
    Ok(names)
}
