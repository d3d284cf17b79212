//! The scopes of resources' versions.
ghost use Rattle.std.specs.Prelude.{◌≡◌, option_map, string_bytes, IfOk};
ghost use Rattle.serde_json.specs.Written.{compact_text};
ghost use Rattle.ccr_history.specs.ObjectData.{object_data};
ghost use Rattle.ccr_history.specs.Sources.{source_or_empty};
ghost use Rattle.ccr_pipeline.specs.JobData.{resource_data, scope_of};
ghost use Rattle.ccr_pipeline.specs.Scopes.{scope_with};

use crate::resource::Resource;
use ccr_history::{Object, Scope};
use std::alloc::{AllocError, Global};

/// A source as compact text; an absent one is the object without members.
fn source_text(alloc: Global, source: &Option<Object>) -> Result<String, AllocError>
    ensures { IfOk result (λ text. string_bytes text
        ≡ compact_text (source_or_empty (option_map object_data source.now))) }
{
    match source {
        Some(source) => source.text(alloc),
        None => String::from_str(alloc, "{}"),
    }
}

/// The scope of versions of a resource with this name, type and source.
pub(crate) fn scope_with(
    alloc: Global,
    name: &str,
    kind: &str,
    source: &Option<Object>,
) -> Result<Scope, AllocError>
    ensures { IfOk result (λ s. s ≡ scope_with name.now kind.now (option_map object_data source.now)) }
{
    Ok(Scope {
        resource: String::from_str(alloc, name)?,
        kind: String::from_str(alloc, kind)?,
        source: source_text(alloc, source)?,
    })
}

impl Resource {
    /// The scope that the resource's versions belong to: its name, its type, and its source as compact JSON text, which is
    /// `{}` where the pipeline gives none (Concourse: resource, source).
    pub fn scope(&self) -> &Scope
        ensures { result.now ≡ scope_of (resource_data self.now) }
    {
        &self.scope
    }
}
