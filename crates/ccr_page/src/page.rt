//! The page.

ghost use Rattle.std.specs.Prelude.{◌+◌, ◌≤◌, [], length, IfOk, OnOk};
ghost use Rattle.ccr_page.specs.Pieces.{Adds};
ghost use Rattle.ccr_page.specs.Pages.{sections, main_pieces, page_pieces, IsPage};

use crate::build::push_builds;
use crate::data::Page;
use crate::drawing::push_picture_section;
use crate::head::{has_picture, push_head, push_header};
use crate::job::push_jobs;
use crate::list::push_lists;
use crate::piece::Piece::Markup;
use crate::piece::push;
use crate::resource::push_resources;
use crate::shape::{edges_of, nodes_of};
use crate::template::{EMPTY, END, UNSET};
use ccr_layout::{Picture, picture_of};
use std::alloc::{AllocError, Global};

/// Adds the picture, what stands still, what goes on, the jobs, the resources and the builds.
fn push_sections(
    alloc: Global,
    out: &mut Vec<u8>,
    page: &Page,
    picture: &Picture,
) -> Result<(), AllocError>
    ensures { OnOk result (Adds out.old.items out.new.items (sections page.entry.now picture.now)) }
{
    push_picture_section(out, page, picture)?;
    push_lists(alloc, out, &page.jobs)?;
    push_jobs(out, &page.jobs)?;
    push_resources(out, &page.resources)?;
    push_builds(out, page)?;
    Ok(())
}

/// Adds what a page has below its header.
fn push_main(
    alloc: Global,
    out: &mut Vec<u8>,
    page: &Page,
    picture: &Picture,
) -> Result<(), AllocError>
    ensures { OnOk result (Adds out.old.items out.new.items (main_pieces page.entry.now picture.now)) }
{
    if has_picture(page) {
        push_sections(alloc, out, page, picture)
    } else if page.has_pipeline {
        push(out, &[Markup(EMPTY)])
    } else {
        push(out, &[Markup(UNSET)])
    }
}

/// Adds a page with this picture.
fn push_page(
    alloc: Global,
    out: &mut Vec<u8>,
    page: &Page,
    picture: &Picture,
) -> Result<(), AllocError>
    ensures { OnOk result (Adds out.old.items out.new.items (page_pieces page.entry.now picture.now)) }
{
    push_head(out, page)?;
    push_header(out, page)?;
    push_main(alloc, out, page, picture)?;
    push(out, &[Markup(END)])?;
    Ok(())
}

/// The bytes of a page with this picture.
fn page_with(alloc: Global, page: &Page, picture: &Picture) -> Result<Vec<u8>, AllocError>
    ensures { IfOk result (λ out. Adds [] out.items (page_pieces page.entry.now picture.now)) }
{
    let mut out = Vec::new(alloc);
    push_page(alloc, &mut out, page, picture)?;
    Ok(out)
}

/// The bytes of a page.
pub fn page_of(alloc: Global, page: &Page) -> Result<Vec<u8>, AllocError>
    requires { length page.now.resources.items + length page.now.jobs.items ≤ 400 }
    ensures { IfOk result (λ out. IsPage page.entry.now out.items) }
{
    let nodes = nodes_of(alloc, page)?;
    let edges = edges_of(alloc, &page.arrows)?;
    let nodes = nodes.as_slice();
    let edges = edges.as_slice();
    let picture = picture_of(alloc, nodes, edges)?;
    let out = page_with(alloc, page, &picture)?;
    Ok(out)
}
