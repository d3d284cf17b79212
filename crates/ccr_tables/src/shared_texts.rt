//! Texts that many rows share.
ghost use Rattle.std.specs.Prelude.{◌≡◌, [], IfOk, string_bytes};

use std::alloc::{AllocError, Global};
use std::rc::Rc;

/// So many different texts are shared; a further one is kept for its row alone.
const MOST_SHARED: usize = 64;

/// Texts that rows share, so that each takes memory once.
#[derive(Drop)]
pub(crate) struct SharedTexts {
    alloc: Global,
    known: Vec<Rc<String>>,
}

impl SharedTexts {
    /// No text.
    pub(crate) fn new(alloc: Global) -> SharedTexts
        ensures { result.known.items ≡ [] }
    {
        SharedTexts {
            alloc,
            known: Vec::new(alloc),
        }
    }

    /// The text, shared with the rows that had it before.
    pub(crate) fn shared(&mut self, text: &str) -> Result<Rc<String>, AllocError>
        ensures { IfOk result (λ it. string_bytes it.value ≡ text.now) }
    {
        for known in &self.known {
            if known.as_ref().as_str() == text {
                return known.clone();
            }
        }
        let text = Rc::new(self.alloc, String::from_str(self.alloc, text)?)?;
        if self.known.len() < MOST_SHARED {
            self.known.push(text.clone()?)?;
        }
        Ok(text)
    }
}
