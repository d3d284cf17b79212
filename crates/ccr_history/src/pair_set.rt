//! Pairs of scope and place, each once.
ghost use Rattle.std.specs.Prelude.{◌≡◌, [], not, IfOk, IfErr, OnErr, OnOk};
ghost use Rattle.ccr_history.specs.Pairs.{ArePairs, has_pair, with_pair, without_pair};

use std::alloc::{AllocError, Global};
use std::marker::Model;

/// Pairs of scope and place, each once, in ascending order. One is found in a time that grows with the logarithm of their
/// number.
#[derive(Drop)]
pub(crate) struct PairSet {
    pairs: Vec<(u32, u32)>,
}

impl Model for PairSet {
    ghost use Rattle.std.specs.Prelude.{ℕ, List};
    ghost use Rattle.ccr_history.specs.Pairs.{ArePairs};

    ghost Value = { List (ℕ × ℕ) };

    ghost view = { λ s. s.pairs.items };

    ghost invariant = { λ s. ArePairs s.pairs.items };
}

impl PairSet {
    /// No pairs.
    pub(crate) fn new(alloc: Global) -> PairSet
        ensures { result ≡ [] }
    {
        PairSet {
            pairs: Vec::new(alloc),
        }
    }

    /// The pairs, in ascending order.
    pub(crate) fn as_slice(&self) -> &[(u32, u32)]
        ensures is { result.now ≡ self.now }
        ensures ascends { ArePairs self.now }
    {
        &self.pairs
    }

    /// Whether the pair is there.
    pub(crate) fn has(&self, pair: (u32, u32)) -> bool
        ensures { result ≡ has_pair pair self.now }
    {
        self.pairs.binary_search(&pair).is_ok()
    }

    /// Adds a pair, and says whether it is new. Where memory is refused, nothing changes.
    pub(crate) fn add(&mut self, pair: (u32, u32)) -> Result<bool, AllocError>
        ensures added { OnOk result (self.new ≡ with_pair pair self.old) }
        ensures is_new { IfOk result (λ b. b ≡ not (has_pair pair self.old)) }
        ensures unchanged { OnErr result (self.new ≡ self.old) }
    {
        match self.pairs.binary_search(&pair) {
            Ok(_) => Ok(false),
            Err(position) => {
                self.pairs.insert(position, pair)?;
                Ok(true)
            }
        }
    }

    /// Removes a pair, and says whether it was there. It takes no memory.
    pub(crate) fn remove(&mut self, pair: (u32, u32)) -> bool
        ensures removed { self.new ≡ without_pair pair self.old }
        ensures was { result ≡ has_pair pair self.old }
    {
        match self.pairs.binary_search(&pair) {
            Ok(position) => {
                self.pairs.remove(position);
                true
            }
            Err(_) => false,
        }
    }

    /// A copy of the pairs.
    pub(crate) fn copy(&self, alloc: Global) -> Result<PairSet, AllocError>
        ensures { IfOk result (λ pairs. pairs ≡ self.now) }
    {
        Ok(PairSet {
            pairs: Vec::from_slice(alloc, &self.pairs)?,
        })
    }
}
