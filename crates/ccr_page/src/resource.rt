//! The resources of a page.

ghost use Rattle.std.specs.Prelude.{OnOk};
ghost use Rattle.ccr_page.specs.Pieces.{Adds};
ghost use Rattle.ccr_page.specs.Each.{each_from};
ghost use Rattle.ccr_page.specs.Resources.{newest_pieces, held_open, resource_row, version_cells, held_cell, resource_pieces, resources_table, resources_section};

use crate::data::{Resource, Version};
use crate::piece::Piece::{Cut, Markup, Number, Shown};
use crate::piece::push;
use crate::sentence::push_sentence;
use crate::template::RESOURCES;
use std::alloc::AllocError;

/// Adds the newest version, if there is one.
fn push_newest<'a>(out: &mut Vec<u8>, newest: &'a Option<Version>) -> Result<(), AllocError>
    ensures { OnOk result (Adds out.old.items out.new.items (newest_pieces newest.now)) }
{
    match newest {
        Some(version) => push(
            out,
            &[Markup("<code>"), Cut(&version.key, 72), Markup("</code>")],
        ),
        None => push(out, &[Markup("none yet")]),
    }
}

/// Adds the beginning of the cell of what holds it.
fn push_held_open(out: &mut Vec<u8>, is_pinned: bool) -> Result<(), AllocError>
    ensures { OnOk result (Adds out.old.items out.new.items (held_open is_pinned)) }
{
    if is_pinned {
        push(out, &[Markup("<td class=pin>")])
    } else {
        push(out, &[Markup("<td>")])
    }
}

/// Adds the beginning of a resource's row: its name and its type.
fn push_resource_row<'a>(
    out: &mut Vec<u8>,
    position: usize,
    resource: &'a Resource,
) -> Result<(), AllocError>
    ensures { OnOk result (Adds out.old.items out.new.items (resource_row position resource.now)) }
{
    push(
        out,
        &[
            Markup("<tr id=\"r"),
            Number(position as u64),
            Markup("\"><th scope=\"row\">"),
            Shown(&resource.name),
            Markup(" <i>"),
            Shown(&resource.kind),
            Markup("</i></th><td>"),
        ],
    )
}

/// Adds its newest version, and how many there are.
fn push_version_cells(out: &mut Vec<u8>, resource: &Resource) -> Result<(), AllocError>
    ensures { OnOk result (Adds out.old.items out.new.items (version_cells resource.now)) }
{
    push_newest(out, &resource.newest)?;
    push(
        out,
        &[
            Markup("</td><td>"),
            Number(resource.version_count),
            Markup("</td>"),
        ],
    )?;
    Ok(())
}

/// Adds what holds it.
fn push_held_cell(out: &mut Vec<u8>, resource: &Resource) -> Result<(), AllocError>
    ensures { OnOk result (Adds out.old.items out.new.items (held_cell resource.now)) }
{
    push_held_open(out, resource.pin.is_some())?;
    push_sentence(out, &resource.held)?;
    push(out, &[Markup("</td></tr>\n")])?;
    Ok(())
}

/// Adds a resource: its name and type, its newest version, how many there are, and what holds it.
fn push_resource(out: &mut Vec<u8>, position: usize, resource: &Resource) -> Result<(), AllocError>
    ensures { OnOk result (Adds out.old.items out.new.items (resource_pieces position resource.now)) }
{
    push_resource_row(out, position, resource)?;
    push_version_cells(out, resource)?;
    push_held_cell(out, resource)?;
    Ok(())
}

/// Adds each of these resources.
fn push_each_resource(out: &mut Vec<u8>, resources: &[Resource]) -> Result<(), AllocError>
    ensures { OnOk result (Adds out.old.items out.new.items (each_from resource_pieces 0 resources.now)) }
{
    for position in 0..resources.len() {
        push_resource(out, position, &resources[position])?;
    }
    Ok(())
}

/// Adds the table of resources.
fn push_table(out: &mut Vec<u8>, resources: &[Resource]) -> Result<(), AllocError>
    ensures { OnOk result (Adds out.old.items out.new.items (resources_table resources.now)) }
{
    push(out, &[Markup(RESOURCES)])?;
    push_each_resource(out, resources)?;
    push(out, &[Markup("</tbody></table></div></section>\n")])?;
    Ok(())
}

/// Adds the resources, if there are any.
pub(crate) fn push_resources(out: &mut Vec<u8>, resources: &[Resource]) -> Result<(), AllocError>
    ensures { OnOk result (Adds out.old.items out.new.items (resources_section resources.now)) }
{
    if resources.is_empty() {
        push(out, &[])
    } else {
        push_table(out, resources)
    }
}
