//! Names that were met, as often as they were.
ghost use Rattle.std.specs.Prelude.{◌≡◌, ◌++◌, ◌∷◌, [], OnOk};
ghost use Rattle.ccr_pipeline.specs.Names.{has_name};

use crate::present::Added;
use ccr_pipeline::Names;
use std::alloc::Global;
use std::marker::Model;

/// Names in the order in which they were met, those that were repeated too.
#[derive(Drop)]
pub(crate) struct Seen {
    all: Vec<String>,
    /// Each of them once: a search among all would take too long.
    once: Names,
}

impl Model for Seen {
    ghost use Rattle.std.specs.Prelude.{List};
    ghost use Rattle.ccr_pipeline.specs.Names.{names_of};
    ghost use Rattle.ccr_findings.specs.Present.{HasSame};
    ghost use Rattle.ccr_pipeline.specs.Tree.{Text};

    ghost Value = { List Text };

    ghost view = { λ seen. names_of seen.all.items };

    ghost invariant = { λ seen. HasSame (names_of seen.all.items) seen.once };
}

impl Seen {
    /// No names.
    pub(crate) fn new(alloc: Global) -> Seen
        ensures { result ≡ [] }
    {
        Seen {
            all: Vec::new(alloc),
            once: Names::new(alloc),
        }
    }

    /// Whether the name is among them.
    pub(crate) fn contains(&self, name: &str) -> bool
        ensures { result ≡ has_name self.now name.now }
    {
        self.once.contains(name)
    }

    /// Adds a name.
    pub(crate) fn push(&mut self, name: &str) -> Added
        ensures { OnOk result (self.new ≡ self.old ++ name.now ∷ []) }
    {
        let alloc = *self.all.allocator();
        self.all.push(String::from_str(alloc, name)?)?;
        match self.once.add(alloc, name) {
            Ok(_) => Ok(()),
            Err(fault) => {
                let _dropped = self.all.pop();
                Err(fault)
            }
        }
    }
}
