//! The faults of a text, all of them.
ghost use Rattle.std.specs.Prelude.{◌≡◌, ◌++◌, [], Some, map, IfOk, OnOk};
ghost use Rattle.ccr_pipeline.specs.Faults.{fault_of, unless};
ghost use Rattle.ccr_pipeline.specs.Keys.{path_of};

use ccr_pipeline::{Place, ReadFault, Rule, path_of};
use std::alloc::{AllocError, Global};
use std::marker::Model;

/// What an addition answers: memory may be refused.
pub(crate) type Added = Result<(), AllocError>;

/// A rule that is broken, and where.
#[derive(Drop)]
pub(crate) struct Breach {
    pub(crate) rule: Rule,
    pub(crate) path: String,
}

/// Faults, in the order in which they count.
#[derive(Drop)]
pub(crate) struct Present {
    breaches: Vec<Breach>,
}

impl Model for Present {
    ghost use Rattle.ccr_pipeline.specs.Faults.{Faults};
    ghost use Rattle.ccr_findings.specs.Present.{faults_in};

    ghost Value = { Faults };

    ghost view = { λ present. faults_in present.breaches.items };
}

impl Present {
    /// No faults.
    pub(crate) fn new(alloc: Global) -> Present
        ensures { result ≡ [] }
    {
        Present {
            breaches: Vec::new(alloc),
        }
    }

    /// Adds the fault that is present where a test of the value at a place failed.
    #[tactic(auto, using(crate::proofs::Lists::and_none))]
    pub(crate) fn require(&mut self, place: &Place, holds: bool, rule: Rule) -> Added
        ensures { OnOk result (self.new ≡ self.old ++ unless holds rule (path_of place.now)) }
    {
        if holds {
            return Ok(());
        }
        let path = path_of(*self.breaches.allocator(), place)?;
        self.breaches.push(Breach { rule, path })?;
        Ok(())
    }

    /// Adds the faults of another list behind its own.
    #[tactic(auto, using(std::proofs::Common::append_assoc, crate::proofs::Lists::and_none))]
    pub(crate) fn append(&mut self, others: Present) -> Added
        ensures { OnOk result (self.new ≡ self.old ++ others) }
    {
        let Present { breaches } = others;
        for breach in breaches {
            self.breaches.push(breach)?;
        }
        Ok(())
    }

    /// The faults as refusals.
    pub(crate) fn into_faults(self, alloc: Global) -> Result<Vec<ReadFault>, AllocError>
        ensures { IfOk result (λ v. map fault_of v.items ≡ map Some self) }
    {
        let mut faults = Vec::new(alloc);
        let Present { breaches } = self;
        for Breach { rule, path } in breaches {
            faults.push(ReadFault::of(rule, path))?;
        }
        Ok(faults)
    }
}
