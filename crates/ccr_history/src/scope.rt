//! Scopes of version tables.
ghost use Rattle.std.specs.Prelude.{◌≡◌, IfOk};
ghost use Rattle.std.specs.Cmp.{partial_equiv_from_equiv};
ghost use Rattle.ccr_history.specs.Keys.{scope_equiv, scope_writes, scopes_alike};
ghost use Rattle.ccr_history.specs.Scopes.{is_scope};

use std::alloc::AllocError;
use std::hash::{Hash, Hasher};
use std::marker::Model;

/// What a version table belongs to: a resource with its type and source. A changed source is another scope
/// (Concourse: resource versions).
#[derive(Drop)]
pub struct Scope {
    /// The resource's name.
    pub resource: String,
    /// The name of the resource's type.
    pub kind: String,
    /// The resource's source, as compact JSON text.
    pub source: String,
}

impl Model for Scope {
    ghost use Rattle.std.specs.Prelude.{string_bytes};
    ghost use Rattle.ccr_history.specs.Scopes.{ScopeData};

    ghost Value = { ScopeData };

    ghost view = { λ s. record {
      resource = string_bytes s.resource;
      kind = string_bytes s.kind;
      source = string_bytes s.source;
    } };
}

impl Scope {
    /// A copy of the scope.
    pub fn copy(&self) -> Result<Scope, AllocError>
        ensures { IfOk result (λ scope. scope ≡ self.now) }
    {
        Ok(Scope {
            resource: self.resource.clone()?,
            kind: self.kind.clone()?,
            source: self.source.clone()?,
        })
    }
}

impl Clone for Scope {
    ghost is_clone = { λ scope copy. copy ≡ scope };

    fn clone(&self) -> Result<Scope, AllocError> {
        self.copy()
    }
}

impl PartialEq for Scope {
    ghost eq = { is_scope };

    ghost laws = { partial_equiv_from_equiv scope_equiv };

    fn eq(&self, other: &Scope) -> bool {
        self.resource == other.resource && self.kind == other.kind && self.source == other.source
    }
}

impl Eq for Scope {
    ghost laws = { scope_equiv };
}

impl Hash for Scope {
    ghost hash_input = { scope_writes };

    ghost respects_eq = { scopes_alike };

    fn hash<H: Hasher>(&self, state: &mut H) {
        self.resource.hash(state);
        self.kind.hash(state);
        self.source.hash(state);
    }
}
