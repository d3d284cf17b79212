//! The picture.

ghost use Rattle.std.specs.Prelude.{◌≡◌, OnOk, drop, flat_map, string_bytes, option_copied};
ghost use Rattle.ccr_page.specs.Pieces.{Adds};
ghost use Rattle.ccr_page.specs.Each.{each_from};
ghost use Rattle.ccr_page.specs.Drawings.{port_in, tab_of, tab_pieces, frame_pieces, title_pieces, label_pieces, resource_open, box_close, resource_frame, resource_text, resource_box, job_box_open, job_frame, job_text, job_box, resource_at, job_at, size_pieces, job_count, resource_count, picture_head, picture_lines, picture_boxes, picture_pieces, picture_section};

use crate::cut::units;
use crate::data::{Job, Page, Port, Resource};
use crate::piece::Piece::{Class, Cut, Markup, Number, Shown};
use crate::piece::push;
use crate::shape::{push_below_job, push_below_resource};
use crate::stroke::{box_at, push_lines};
use crate::template::{ARROWHEAD, LEGEND, PICTURE, SECTION};
use ccr_layout::{NodeBox, Picture, Tab};
use std::alloc::AllocError;

// ---- tabs

/// The port of a job, if there are such a port and such a job.
fn port_at(jobs: &[Job], job: usize, port: usize) -> Option<&Port>
    ensures { option_copied result ≡ port_in jobs.now job port }
{
    match jobs.get(job) {
        Some(job) => job.ports.get(port),
        None => None,
    }
}

/// Adds a tab, with the name of the port's resource.
fn push_tab_of<'a>(out: &mut Vec<u8>, tab: Tab, port: &'a Port) -> Result<(), AllocError>
    ensures { OnOk result (Adds out.old.items out.new.items (tab_of tab port.now)) }
{
    push(
        out,
        &[
            Markup("<svg x="),
            Number(tab.left as u64),
            Markup(" y="),
            Number(tab.top as u64),
            Markup(" width="),
            Number(tab.width as u64),
            Markup(" height=18><rect/><text x=50% y=13>"),
            Cut(&port.resource, 13),
            Markup("</text></svg>"),
        ],
    )
}

/// Adds a tab, if there is such a port.
fn push_tab(out: &mut Vec<u8>, page: &Page, tab: Tab) -> Result<(), AllocError>
    ensures { OnOk result (Adds out.old.items out.new.items (tab_pieces page.entry.now tab)) }
{
    let job = tab.node.saturating_sub(page.resources.len());
    match port_at(page.jobs.as_slice(), job, tab.port) {
        Some(port) => push_tab_of(out, tab, port),
        None => push(out, &[]),
    }
}

/// Adds these tabs.
fn push_tabs(out: &mut Vec<u8>, page: &Page, tabs: &[Tab]) -> Result<(), AllocError>
    ensures { OnOk result (Adds out.old.items out.new.items (flat_map (tab_pieces page.entry.now) tabs.now)) }
{
    for tab in tabs {
        push_tab(out, page, *tab)?;
    }
    Ok(())
}

// ---- boxes

/// Adds where a box lies.
fn push_frame(out: &mut Vec<u8>, frame: NodeBox) -> Result<(), AllocError>
    ensures { OnOk result (Adds out.old.items out.new.items (frame_pieces frame)) }
{
    push(
        out,
        &[
            Markup(" x="),
            Number(frame.left as u64),
            Markup(" y="),
            Number(frame.top as u64),
            Markup(" width="),
            Number(frame.width as u64),
            Markup(" height="),
            Number(frame.height as u64),
            Markup(">"),
        ],
    )
}

/// Adds the whole name, where the box has it cut.
fn push_title<'a>(out: &mut Vec<u8>, name: &'a String) -> Result<(), AllocError>
    ensures { OnOk result (Adds out.old.items out.new.items (title_pieces (string_bytes name.now))) }
{
    if units(name.as_bytes()) > 20 {
        push(out, &[Markup("<title>"), Shown(name), Markup("</title>")])
    } else {
        push(out, &[])
    }
}

/// Adds the name, and where the line below it is.
fn push_label<'a>(out: &mut Vec<u8>, frame: NodeBox, name: &'a String) -> Result<(), AllocError>
    ensures { OnOk result (Adds out.old.items out.new.items (label_pieces frame (string_bytes name.now))) }
{
    let middle = frame.height as u64 / 2;
    push(
        out,
        &[
            Markup("<rect/><text x=50% y="),
            Number(middle.saturating_sub(3)),
            Markup(">"),
            Cut(name, 20),
            Markup("</text><text x=50% y="),
            Number(middle + 13),
            Markup(">"),
        ],
    )
}

/// Adds the beginning of a resource's box.
fn push_resource_open(out: &mut Vec<u8>, position: usize, is_pinned: bool) -> Result<(), AllocError>
    ensures { OnOk result (Adds out.old.items out.new.items (resource_open position is_pinned)) }
{
    if is_pinned {
        push(
            out,
            &[
                Markup("<a href=#r"),
                Number(position as u64),
                Markup("><svg class=q"),
            ],
        )
    } else {
        push(
            out,
            &[
                Markup("<a href=#r"),
                Number(position as u64),
                Markup("><svg class=o"),
            ],
        )
    }
}

/// Adds the end of a box.
fn push_box_close(out: &mut Vec<u8>) -> Result<(), AllocError>
    ensures { OnOk result (Adds out.old.items out.new.items box_close) }
{
    push(out, &[Markup("</text></svg></a>")])
}

/// Adds the upper part of a resource's box: where it lies, and its whole name.
fn push_resource_frame(
    out: &mut Vec<u8>,
    frame: NodeBox,
    position: usize,
    resource: &Resource,
) -> Result<(), AllocError>
    ensures { OnOk result (Adds out.old.items out.new.items (resource_frame frame position resource.now)) }
{
    push_resource_open(out, position, resource.pin.is_some())?;
    push_frame(out, frame)?;
    push_title(out, &resource.name)?;
    Ok(())
}

/// Adds the lower part: what is written in it.
fn push_resource_text(
    out: &mut Vec<u8>,
    frame: NodeBox,
    resource: &Resource,
) -> Result<(), AllocError>
    ensures { OnOk result (Adds out.old.items out.new.items (resource_text frame resource.now)) }
{
    push_label(out, frame, &resource.name)?;
    push_below_resource(out, &resource.pin, &resource.newest)?;
    push_box_close(out)?;
    Ok(())
}

/// Adds the box of a resource.
fn push_resource_box(
    out: &mut Vec<u8>,
    frame: NodeBox,
    position: usize,
    resource: &Resource,
) -> Result<(), AllocError>
    ensures { OnOk result (Adds out.old.items out.new.items (resource_box frame position resource.now)) }
{
    push_resource_frame(out, frame, position, resource)?;
    push_resource_text(out, frame, resource)?;
    Ok(())
}

/// Adds the beginning of a job's box.
fn push_job_box_open(out: &mut Vec<u8>, position: usize, job: &Job) -> Result<(), AllocError>
    ensures { OnOk result (Adds out.old.items out.new.items (job_box_open position job.now)) }
{
    push(
        out,
        &[
            Markup("<a href=#j"),
            Number(position as u64),
            Markup("><svg class="),
            Class(job.status),
        ],
    )
}

/// Adds the upper part of a job's box.
fn push_job_frame(
    out: &mut Vec<u8>,
    frame: NodeBox,
    position: usize,
    job: &Job,
) -> Result<(), AllocError>
    ensures { OnOk result (Adds out.old.items out.new.items (job_frame frame position job.now)) }
{
    push_job_box_open(out, position, job)?;
    push_frame(out, frame)?;
    push_title(out, &job.name)?;
    Ok(())
}

/// Adds the lower part.
fn push_job_text(out: &mut Vec<u8>, frame: NodeBox, job: &Job) -> Result<(), AllocError>
    ensures { OnOk result (Adds out.old.items out.new.items (job_text frame job.now)) }
{
    push_label(out, frame, &job.name)?;
    push_below_job(out, job.status, job.number)?;
    push_box_close(out)?;
    Ok(())
}

/// Adds the box of a job.
fn push_job_box(
    out: &mut Vec<u8>,
    frame: NodeBox,
    position: usize,
    job: &Job,
) -> Result<(), AllocError>
    ensures { OnOk result (Adds out.old.items out.new.items (job_box frame position job.now)) }
{
    push_job_frame(out, frame, position, job)?;
    push_job_text(out, frame, job)?;
    Ok(())
}

/// Adds the box of the resource at a position.
fn push_resource_at(
    out: &mut Vec<u8>,
    boxes: &[NodeBox],
    position: usize,
    resource: &Resource,
) -> Result<(), AllocError>
    ensures { OnOk result (Adds out.old.items out.new.items (resource_at boxes.now position resource.now)) }
{
    let frame = box_at(boxes, position);
    push_resource_box(out, frame, position, resource)?;
    Ok(())
}

/// Adds the box of the job at a position.
fn push_job_at(
    out: &mut Vec<u8>,
    boxes: &[NodeBox],
    position: usize,
    job: &Job,
) -> Result<(), AllocError>
    ensures { OnOk result (Adds out.old.items out.new.items (job_at boxes.now position job.now)) }
{
    let frame = box_at(boxes, position);
    push_job_box(out, frame, position, job)?;
    Ok(())
}

/// Adds the boxes of these resources.
fn push_resource_boxes(
    out: &mut Vec<u8>,
    boxes: &[NodeBox],
    resources: &[Resource],
) -> Result<(), AllocError>
    ensures { OnOk result (Adds out.old.items out.new.items (each_from (resource_at boxes.now) 0 resources.now)) }
{
    for position in 0..resources.len() {
        push_resource_at(out, boxes, position, &resources[position])?;
    }
    Ok(())
}

/// Adds the boxes of these jobs.
fn push_job_boxes(out: &mut Vec<u8>, boxes: &[NodeBox], jobs: &[Job]) -> Result<(), AllocError>
    ensures { OnOk result (Adds out.old.items out.new.items (each_from (job_at boxes.now) 0 jobs.now)) }
{
    for position in 0..jobs.len() {
        push_job_at(out, boxes, position, &jobs[position])?;
    }
    Ok(())
}

/// The boxes behind the first ones.
fn boxes_behind(boxes: &[NodeBox], count: usize) -> &[NodeBox]
    ensures { result.now ≡ drop count boxes.now }
{
    boxes.get(count..).unwrap_or(&[])
}

// ---- the whole

/// Adds how large the picture is.
fn push_size(out: &mut Vec<u8>, picture: &Picture) -> Result<(), AllocError>
    ensures { OnOk result (Adds out.old.items out.new.items (size_pieces picture.now)) }
{
    let width = picture.width as u64;
    push(
        out,
        &[
            Markup("<svg viewBox=\"0 -12 "),
            Number(width),
            Markup(" "),
            Number(picture.height as u64 + 24),
            Markup("\" style=\"max-width:"),
            Number(width),
            Markup("px;min-width:"),
            Number(width * 7 / 10),
        ],
    )
}

/// Adds what it shows, in words: so many jobs.
fn push_job_count(out: &mut Vec<u8>, jobs: &[Job]) -> Result<(), AllocError>
    ensures { OnOk result (Adds out.old.items out.new.items (job_count jobs.now)) }
{
    push(out, &[Markup(PICTURE), Number(jobs.len() as u64)])
}

/// Adds how many resources.
fn push_resource_count(out: &mut Vec<u8>, resources: &[Resource]) -> Result<(), AllocError>
    ensures { OnOk result (Adds out.old.items out.new.items (resource_count resources.now)) }
{
    push(
        out,
        &[
            Markup(" jobs and "),
            Number(resources.len() as u64),
            Markup(ARROWHEAD),
        ],
    )
}

/// Adds how large the picture is, and what it shows, in words.
fn push_picture_head(out: &mut Vec<u8>, page: &Page, picture: &Picture) -> Result<(), AllocError>
    ensures { OnOk result (Adds out.old.items out.new.items (picture_head page.entry.now picture.now)) }
{
    push_size(out, picture)?;
    push_job_count(out, &page.jobs)?;
    push_resource_count(out, &page.resources)?;
    Ok(())
}

/// Adds its lines and its tabs.
fn push_picture_lines(out: &mut Vec<u8>, page: &Page, picture: &Picture) -> Result<(), AllocError>
    ensures { OnOk result (Adds out.old.items out.new.items (picture_lines page.entry.now picture.now)) }
{
    push_lines(out, &page.arrows, picture)?;
    push(out, &[Markup("<g class=i>")])?;
    push_tabs(out, page, &picture.tabs)?;
    push(out, &[Markup("</g></g>")])?;
    Ok(())
}

/// Adds its boxes.
fn push_picture_boxes(out: &mut Vec<u8>, page: &Page, picture: &Picture) -> Result<(), AllocError>
    ensures { OnOk result (Adds out.old.items out.new.items (picture_boxes page.entry.now picture.now)) }
{
    let behind = boxes_behind(&picture.boxes, page.resources.as_slice().len());
    push_resource_boxes(out, &picture.boxes, &page.resources)?;
    push_job_boxes(out, behind, &page.jobs)?;
    push(out, &[Markup("</svg>")])?;
    Ok(())
}

/// Adds the picture.
fn push_picture(out: &mut Vec<u8>, page: &Page, picture: &Picture) -> Result<(), AllocError>
    ensures { OnOk result (Adds out.old.items out.new.items (picture_pieces page.entry.now picture.now)) }
{
    push_picture_head(out, page, picture)?;
    push_picture_lines(out, page, picture)?;
    push_picture_boxes(out, page, picture)?;
    Ok(())
}

/// Adds the picture, with what its colours and lines mean.
pub(crate) fn push_picture_section(
    out: &mut Vec<u8>,
    page: &Page,
    picture: &Picture,
) -> Result<(), AllocError>
    ensures { OnOk result (Adds out.old.items out.new.items (picture_section page.entry.now picture.now)) }
{
    push(out, &[Markup(SECTION)])?;
    push_picture(out, page, picture)?;
    push(
        out,
        &[Markup("</div>"), Markup(LEGEND), Markup("</section>\n")],
    )?;
    Ok(())
}
