//! Pins, which hold a resource to some of its versions.
ghost use Rattle.std.specs.Prelude.{◌≡◌, ◌↔◌, Some, None, IfOk, IfErr, IsTrue, IsErrOf, IsSome, string_bytes};
ghost use Rattle.serde_json.specs.Find.{as_object};
ghost use Rattle.serde_json.specs.View.{view};
ghost use Rattle.ccr_history.specs.Faults.{is_fault_of_value};
ghost use Rattle.ccr_history.specs.TextMap.{text_map_of, key_text, fields_in, IsAscending};

use crate::fault::HistoryFault;
use crate::key_text::key_of;
use serde_json::Value;
use std::alloc::{AllocError, Global};
use std::marker::Model;

/// What a version has to have: a map from texts to texts (Concourse: pinning versions).
#[derive(Drop)]
pub struct Pin {
    key: String,
}

impl Model for Pin {
    ghost use Rattle.std.specs.Prelude.{string_bytes};
    ghost use Rattle.ccr_history.specs.TextMap.{TextMap, fields_in, IsKey};

    ghost Value = { TextMap };

    ghost view = { λ p. fields_in (string_bytes p.key) };

    ghost invariant = { λ p. IsKey (string_bytes p.key) };
}

impl Pin {
    /// The pin that a JSON value is.
    ///
    /// Ok exactly for an object whose fields are all texts, memory aside: `NotObject` for a value of another kind,
    /// `VersionNotText` where a field isn't a text.
    pub fn from_value(alloc: Global, value: &Value) -> Result<Pin, HistoryFault>
        ensures ok { IfOk result (λ p. text_map_of (view value.now) ≡ Some p) }
        ensures not_object { IsErrOf result HistoryFault.NotObject
            ↔ (as_object (view value.now) ≡ None) }
        ensures not_text { IsErrOf result HistoryFault.VersionNotText
            ↔ (IsSome (as_object (view value.now)) × (text_map_of (view value.now) ≡ None)) }
        ensures only { IfErr result (λ fault. IsTrue (is_fault_of_value fault)) }
    {
        Ok(Pin {
            key: key_of(alloc, value)?,
        })
    }

    /// The pin's compact JSON text with keys in ascending byte order.
    pub fn text(&self, alloc: Global) -> Result<String, AllocError>
        ensures is { IfOk result (λ text. string_bytes text ≡ key_text self.now) }
        ensures again { IfOk result (λ text. fields_in (string_bytes text) ≡ self.now) }
        ensures ascends { IsAscending self.now }
    {
        String::from_str(alloc, self.key.as_str())
    }

    /// Every pin keeps its keys in ascending byte order, each once. Nothing runs.
    pub fn rules(&self)
        ensures { IsAscending self.now }
    {
        let _bytes = self.key.as_bytes();
    }

    /// A copy of the pin.
    pub fn copy(&self) -> Result<Pin, AllocError>
        ensures { IfOk result (λ p. p ≡ self.now) }
    {
        Ok(Pin {
            key: self.key.clone()?,
        })
    }

    /// The bytes of the pin's text.
    pub(crate) fn as_bytes(&self) -> &[u8]
        ensures is { result.now ≡ key_text self.now }
        ensures ascends { IsAscending self.now }
    {
        self.key.as_bytes()
    }
}
