//! Texts that are kept.
ghost use Rattle.std.specs.Prelude.{◌≡◌, ◌++◌, ◌∷◌, [], map, OnErr, OnOk};
ghost use Rattle.ccr_run.specs.Kept.{has_text, nothing_kept, Keeps, KeepsIf};

use std::alloc::{AllocError, Global};
use std::marker::Model;

/// Texts that are kept, in order. One for which there is no memory isn't, and is never forgotten.
#[derive(Drop)]
pub struct Kept {
    alloc: Global,
    texts: Vec<Vec<u8>>,
    is_lost: bool,
}

impl Model for Kept {
    ghost use Rattle.std.specs.Prelude.{map};
    ghost use Rattle.ccr_run.specs.Kept.{KeptData};

    ghost Value = { KeptData };

    ghost view = { λ k. record { texts = map (λ t. t.items) k.texts.items; is_lost = k.is_lost } };
}

/// Whether a text is one of these.
fn has_text(texts: &[Vec<u8>], text: &[u8]) -> bool
    ensures { result ≡ has_text text.now (map (λ t. t.items) texts.now) }
{
    for each in texts {
        if each.as_slice() == text {
            return true;
        }
    }
    false
}

impl Kept {
    /// None are kept yet.
    pub fn new(alloc: Global) -> Kept
        ensures { result ≡ nothing_kept }
    {
        Kept {
            alloc,
            texts: Vec::new(alloc),
            is_lost: false,
        }
    }

    /// Whether memory ran out for one of them.
    pub fn is_lost(&self) -> bool
        ensures { result ≡ self.now.is_lost }
    {
        self.is_lost
    }

    /// The texts.
    pub fn texts(&self) -> &[Vec<u8>]
        ensures { map (λ t. t.items) result.now ≡ self.now.texts }
    {
        &self.texts
    }

    /// Whether this text is among them.
    pub fn has(&self, text: &[u8]) -> bool
        ensures { result ≡ has_text text.now self.now.texts }
    {
        has_text(self.texts(), text)
    }

    /// Adds a text, where there is memory for it.
    fn push(&mut self, text: &[u8]) -> Result<(), AllocError>
        ensures kept { OnOk result (self.new ≡ record self.old { texts = self.old.texts ++ text.now ∷ [] }) }
        ensures same { OnErr result (self.new ≡ self.old) }
    {
        let text = text.to_vec(self.alloc)?;
        self.texts.push(text)?;
        Ok(())
    }

    /// Keeps a text, where there is memory for it.
    pub fn keep(&mut self, text: &[u8])
        ensures { Keeps text.now self.old self.new }
    {
        if self.push(text).is_err() {
            self.is_lost = true;
        }
    }

    /// Keeps a text, if it is to be kept.
    pub fn keep_if(&mut self, is_kept: bool, text: &[u8])
        ensures { KeepsIf is_kept text.now self.old self.new }
    {
        if is_kept {
            self.keep(text);
        }
    }
}
