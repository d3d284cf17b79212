//! Versions of a resource.
ghost use Rattle.std.specs.Prelude.{◌≡◌, ◌↔◌, Some, None, IfOk, IfErr, IsTrue, IsErrOf, IsSome, string_bytes};
ghost use Rattle.std.specs.Cmp.{partial_equiv_from_equiv};
ghost use Rattle.serde_json.specs.Find.{as_object};
ghost use Rattle.serde_json.specs.View.{view};
ghost use Rattle.ccr_history.specs.Faults.{is_fault_of_value};
ghost use Rattle.ccr_history.specs.Keys.{version_equiv, version_writes, versions_alike};
ghost use Rattle.ccr_history.specs.TextMap.{is_version, text_map_of, key_text, fields_in, meets, IsAscending};

use crate::fault::HistoryFault;
use crate::key_text::{has_members, key_of};
use crate::pin::Pin;
use serde_json::Value;
use std::alloc::{AllocError, Global};
use std::hash::{Hash, Hasher};
use std::marker::Model;

/// What a resource's program calls one state of the resource: a map from texts to texts
/// (Concourse: implementing a resource type).
#[derive(Drop)]
pub struct Version {
    key: String,
}

impl Model for Version {
    ghost use Rattle.std.specs.Prelude.{string_bytes};
    ghost use Rattle.ccr_history.specs.TextMap.{TextMap, fields_in, IsKey};

    ghost Value = { TextMap };

    ghost view = { λ v. fields_in (string_bytes v.key) };

    ghost invariant = { λ v. IsKey (string_bytes v.key) };
}

impl Version {
    /// The version that a JSON value is.
    ///
    /// Ok exactly for an object whose fields are all texts, memory aside: `NotObject` for a value of another kind,
    /// `VersionNotText` where a field isn't a text.
    pub fn from_value(alloc: Global, value: &Value) -> Result<Version, HistoryFault>
        ensures ok { IfOk result (λ v. text_map_of (view value.now) ≡ Some v) }
        ensures not_object { IsErrOf result HistoryFault.NotObject
            ↔ (as_object (view value.now) ≡ None) }
        ensures not_text { IsErrOf result HistoryFault.VersionNotText
            ↔ (IsSome (as_object (view value.now)) × (text_map_of (view value.now) ≡ None)) }
        ensures only { IfErr result (λ fault. IsTrue (is_fault_of_value fault)) }
    {
        Ok(Version {
            key: key_of(alloc, value)?,
        })
    }

    /// The version's key: its compact JSON text with keys in ascending byte order.
    pub fn key(&self, alloc: Global) -> Result<String, AllocError>
        ensures is { IfOk result (λ key. string_bytes key ≡ key_text self.now) }
        ensures again { IfOk result (λ key. fields_in (string_bytes key) ≡ self.now) }
        ensures ascends { IsAscending self.now }
    {
        String::from_str(alloc, self.key.as_str())
    }

    /// The version's key, as it is kept.
    pub(crate) fn as_str(&self) -> &str
        ensures is { result.now ≡ key_text self.now }
        ensures ascends { IsAscending self.now }
    {
        self.key.as_str()
    }

    /// Every version keeps its keys in ascending byte order, each once. Nothing runs.
    pub fn rules(&self)
        ensures { IsAscending self.now }
    {
        let _bytes = self.key.as_bytes();
    }

    /// A copy of the version.
    pub fn copy(&self) -> Result<Version, AllocError>
        ensures { IfOk result (λ v. v ≡ self.now) }
    {
        self.clone()
    }

    /// Whether the version has each field that the pin names, with the same text.
    /// A pin without fields is met by every version.
    pub fn meets(&self, pin: &Pin) -> bool
        ensures { result ≡ meets self.now pin.now }
    {
        has_members(self.key.as_bytes(), pin.as_bytes())
    }
}

impl Clone for Version {
    ghost is_clone = { λ version copy. (copy ≡ version) × IsAscending version };

    fn clone(&self) -> Result<Version, AllocError> {
        Ok(Version {
            key: self.key.clone()?,
        })
    }
}

impl PartialEq for Version {
    ghost eq = { is_version };

    ghost laws = { partial_equiv_from_equiv version_equiv };

    fn eq(&self, other: &Version) -> bool {
        self.as_str() == other.as_str()
    }
}

impl Eq for Version {
    ghost laws = { version_equiv };
}

impl Hash for Version {
    ghost hash_input = { version_writes };

    ghost respects_eq = { versions_alike };

    fn hash<H: Hasher>(&self, state: &mut H) {
        self.as_str().hash(state);
    }
}
