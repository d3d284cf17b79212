//! How the resources of a pipeline stand, as JSON.
ghost use Rattle.std.specs.Prelude.{◌≡◌, ◌++◌, map, flat_map, IfOk, OnOk};
ghost use Rattle.ccr_pipeline.specs.JobData.{resource_data};
ghost use Rattle.ccr_lines.specs.Json.{json_line, after_comma};
ghost use Rattle.ccr_lines.specs.ResourcesJson.{resource_json, resources_json};

use crate::json::array_line;
use crate::object::{Field, push_item};
use ccr_history::History;
use ccr_pipeline::Resource;
use std::alloc::{AllocError, Global};

/// Adds a resource, behind a comma.
fn push_resource<'a>(
    alloc: Global,
    out: &mut Vec<u8>,
    history: &'a History,
    resource: &'a Resource,
) -> Result<(), AllocError>
    ensures { OnOk result (out.new.items
        ≡ out.old.items ++ after_comma (resource_json history.now (resource_data resource.now))) }
{
    let count = history.versions(resource.scope()).len();
    let members = [
        ("name", Field::Text(resource.name.as_str())),
        ("pinned_by_pipeline", Field::Pin(resource.version.as_ref())),
        (
            "pinned_version",
            Field::Pin(history.pin(resource.name.as_str())),
        ),
        ("type", Field::Text(resource.kind.as_str())),
        ("version_count", Field::Number(count as u64)),
    ];
    push_item(alloc, out, &members)
}

/// The resources, each behind a comma.
fn each_resource(
    alloc: Global,
    history: &History,
    resources: &[Resource],
) -> Result<Vec<u8>, AllocError>
    ensures { IfOk result (λ out. out.items
        ≡ flat_map (λ r. after_comma (resource_json history.now (resource_data r))) resources.now) }
{
    let mut out = Vec::new(alloc);
    for resource in resources {
        push_resource(alloc, &mut out, history, resource)?;
    }
    Ok(out)
}

/// The resources as JSON on a line.
pub(crate) fn resources_json(
    alloc: Global,
    history: &History,
    resources: &[Resource],
) -> Result<Vec<u8>, AllocError>
    ensures { IfOk result (λ text. text.items
        ≡ json_line (resources_json history.now (map resource_data resources.now))) }
{
    let items = each_resource(alloc, history, resources)?;
    let text = array_line(alloc, &items)?;
    Ok(text)
}
