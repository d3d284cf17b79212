//! The lines of the picture.

ghost use Rattle.std.specs.Prelude.{◌≡◌, OnOk, length, flat_map};
ghost use Rattle.ccr_layout.specs.Pictures.{box_in};
ghost use Rattle.ccr_layout.specs.declared.picture.Path.TheVariants.{Forward, Back};
ghost use Rattle.ccr_page.specs.Pieces.{Adds};
ghost use Rattle.ccr_page.specs.Each.{at_each};
ghost use Rattle.ccr_page.specs.Strokes.{stroke_rank, is_stroke, forward_stroke, path_stroke, goes_through, is_held_in, triggers_in, some_held, some_triggers, slot_stroke, arrow_in, bow, curve, stub, way_down, way_along, way_up, detour, path_open, path_pieces, slot_pieces, path_in, edge_if, edge_at, slot_if, stroke_pieces, forward_lines, back_lines, red_lines, lines_pieces};

use crate::data::Arrow;
use crate::piece::Piece::{Markup, Number};
use crate::piece::push;
use ccr_layout::{NodeBox, Path, Picture, Point, Slot};
use std::alloc::AllocError;

/// How a line is drawn.
#[derive(Clone, Copy, Drop)]
pub(crate) enum Stroke {
    /// A new version makes no build.
    Dashed,
    Solid,
    /// The same of a line that goes back.
    BackDashed,
    BackSolid,
    /// The same of a line that a newer version didn't take.
    RedDashed,
    Red,
}

// ---- which stroke

/// Its place among the strokes.
fn stroke_rank(stroke: Stroke) -> u8
    ensures { result ≡ stroke_rank stroke }
{
    match stroke {
        Stroke::Dashed => 0,
        Stroke::Solid => 1,
        Stroke::BackDashed => 2,
        Stroke::BackSolid => 3,
        Stroke::RedDashed => 4,
        Stroke::Red => 5,
    }
}

/// Whether two are the same.
fn is_stroke(one: Stroke, other: Stroke) -> bool
    ensures { result ≡ is_stroke one other }
{
    stroke_rank(one) == stroke_rank(other)
}

/// The stroke of a line forward.
fn forward_stroke(is_held: bool, trigger: bool) -> Stroke
    ensures { result ≡ forward_stroke is_held trigger }
{
    match (is_held, trigger) {
        (true, true) => Stroke::Red,
        (true, false) => Stroke::RedDashed,
        (false, true) => Stroke::Solid,
        (false, false) => Stroke::Dashed,
    }
}

/// The stroke of an edge.
fn path_stroke(path: Path, arrow: Arrow) -> Stroke
    ensures { result ≡ path_stroke path arrow }
{
    match path {
        Path::Forward { .. } => forward_stroke(arrow.is_held, arrow.trigger),
        Path::Back { .. } => {
            if arrow.trigger {
                Stroke::BackSolid
            } else {
                Stroke::BackDashed
            }
        }
    }
}

/// The box of a node.
pub(crate) fn box_at(boxes: &[NodeBox], node: usize) -> NodeBox
    ensures { result ≡ box_in boxes.now node }
{
    boxes.get(node).copied().unwrap_or(NodeBox {
        column: 0,
        left: 0,
        top: 0,
        width: 0,
        height: 0,
    })
}

/// Whether an edge goes through a slot.
fn goes_through(boxes: &[NodeBox], slot: Slot, arrow: Arrow) -> bool
    ensures { result ≡ goes_through boxes.now slot arrow }
{
    arrow.source == slot.node && slot.column < box_at(boxes, arrow.target).column
}

/// Whether an edge goes through a slot, and a version is held.
fn is_held_in(boxes: &[NodeBox], slot: Slot, arrow: Arrow) -> bool
    ensures { result ≡ is_held_in boxes.now slot arrow }
{
    goes_through(boxes, slot, arrow) && arrow.is_held
}

/// Whether an edge goes through a slot, and triggers.
fn triggers_in(boxes: &[NodeBox], slot: Slot, arrow: Arrow) -> bool
    ensures { result ≡ triggers_in boxes.now slot arrow }
{
    goes_through(boxes, slot, arrow) && arrow.trigger
}

/// Whether some edge does the one.
fn some_held(boxes: &[NodeBox], arrows: &[Arrow], slot: Slot) -> bool
    ensures { result ≡ some_held boxes.now arrows.now slot }
{
    arrows.iter().any(|arrow| is_held_in(boxes, slot, *arrow))
}

/// Whether some edge does the other.
fn some_triggers(boxes: &[NodeBox], arrows: &[Arrow], slot: Slot) -> bool
    ensures { result ≡ some_triggers boxes.now arrows.now slot }
{
    arrows.iter().any(|arrow| triggers_in(boxes, slot, *arrow))
}

/// The stroke of a slot: that of the edges through it.
fn slot_stroke(boxes: &[NodeBox], arrows: &[Arrow], slot: Slot) -> Stroke
    ensures { result ≡ slot_stroke boxes.now arrows.now slot }
{
    let is_held = some_held(boxes, arrows, slot);
    let trigger = some_triggers(boxes, arrows, slot);
    forward_stroke(is_held, trigger)
}

/// The arrow at a position.
fn arrow_at(arrows: &[Arrow], position: usize) -> Arrow
    ensures { result ≡ arrow_in arrows.now position }
{
    arrows.get(position).copied().unwrap_or(Arrow {
        source: 0,
        target: 0,
        port: 0,
        trigger: false,
        is_held: false,
    })
}

/// The path at a position.
fn path_at(paths: &[Path], position: usize) -> Path
    ensures { result ≡ path_in paths.now position }
{
    let nowhere = Point { x: 0, y: 0 };
    paths.get(position).copied().unwrap_or(Path::Forward {
        from: nowhere,
        bend: nowhere,
        end: 0,
    })
}

// ---- what is written for it

/// Adds a curve that is level at both ends.
fn push_bow(out: &mut Vec<u8>, from: Point, to: Point) -> Result<(), AllocError>
    ensures { OnOk result (Adds out.old.items out.new.items (bow from to)) }
{
    let middle = (from.x as u64 + to.x as u64) / 2;
    push(
        out,
        &[
            Markup("C"),
            Number(middle),
            Markup(" "),
            Number(from.y as u64),
            Markup(" "),
            Number(middle),
        ],
    )?;
    push(
        out,
        &[
            Markup(" "),
            Number(to.y as u64),
            Markup(" "),
            Number(to.x as u64),
            Markup(" "),
            Number(to.y as u64),
        ],
    )?;
    Ok(())
}

/// Adds the same, or a level line.
fn push_curve(out: &mut Vec<u8>, from: Point, to: Point) -> Result<(), AllocError>
    ensures { OnOk result (Adds out.old.items out.new.items (curve from to)) }
{
    if from.y == to.y {
        push(out, &[Markup("H"), Number(to.x as u64)])
    } else {
        push_bow(out, from, to)
    }
}

/// Adds a level end, where there is one.
fn push_stub(out: &mut Vec<u8>, bend: u32, end: u32) -> Result<(), AllocError>
    ensures { OnOk result (Adds out.old.items out.new.items (stub bend end)) }
{
    if end == bend {
        push(out, &[])
    } else {
        push(out, &[Markup("H"), Number(end as u64)])
    }
}

/// Adds the way to a lane: out, and down.
fn push_way_down(out: &mut Vec<u8>, from: Point, lane: u32) -> Result<(), AllocError>
    ensures { OnOk result (Adds out.old.items out.new.items (way_down from lane)) }
{
    let right = from.x as u64 + 28;
    push(
        out,
        &[
            Markup("C"),
            Number(right),
            Markup(" "),
            Number(from.y as u64),
            Markup(" "),
            Number(right),
            Markup(" "),
            Number(lane as u64),
        ],
    )
}

/// Adds the way along it, back over columns.
fn push_way_along(out: &mut Vec<u8>, from: Point, lane: u32, bend: Point) -> Result<(), AllocError>
    ensures { OnOk result (Adds out.old.items out.new.items (way_along from lane bend)) }
{
    push(
        out,
        &[
            Markup(" "),
            Number(from.x as u64),
            Markup(" "),
            Number(lane as u64),
            Markup("H"),
            Number(bend.x as u64),
        ],
    )
}

/// Adds the way up from it.
fn push_way_up(out: &mut Vec<u8>, lane: u32, bend: Point) -> Result<(), AllocError>
    ensures { OnOk result (Adds out.old.items out.new.items (way_up lane bend)) }
{
    let left = (bend.x as u64).saturating_sub(28);
    push(
        out,
        &[
            Markup("C"),
            Number(left),
            Markup(" "),
            Number(lane as u64),
            Markup(" "),
            Number(left),
            Markup(" "),
            Number(bend.y as u64),
        ],
    )
}

/// Adds the way by a lane: out, down, along it, and up.
fn push_detour(out: &mut Vec<u8>, from: Point, lane: u32, bend: Point) -> Result<(), AllocError>
    ensures { OnOk result (Adds out.old.items out.new.items (detour from lane bend)) }
{
    push_way_down(out, from, lane)?;
    push_way_along(out, from, lane, bend)?;
    push_way_up(out, lane, bend)?;
    push(
        out,
        &[
            Markup(" "),
            Number(bend.x as u64),
            Markup(" "),
            Number(bend.y as u64),
        ],
    )?;
    Ok(())
}

/// Adds the beginning of a path.
fn push_path_open(out: &mut Vec<u8>, from: Point) -> Result<(), AllocError>
    ensures { OnOk result (Adds out.old.items out.new.items (path_open from)) }
{
    push(
        out,
        &[
            Markup("<path d=\"M"),
            Number(from.x as u64),
            Markup(" "),
            Number(from.y as u64),
        ],
    )
}

/// Adds the path of an edge that goes forward.
fn push_forward_path(
    out: &mut Vec<u8>,
    from: Point,
    bend: Point,
    end: u32,
) -> Result<(), AllocError>
    ensures { OnOk result (Adds out.old.items out.new.items (path_pieces (Forward from bend end))) }
{
    push_path_open(out, from)?;
    push_curve(out, from, bend)?;
    push_stub(out, bend.x, end)?;
    push(out, &[Markup("\"/>")])?;
    Ok(())
}

/// Adds the path of an edge that goes back.
fn push_back_path(
    out: &mut Vec<u8>,
    from: Point,
    lane: u32,
    bend: Point,
    end: u32,
) -> Result<(), AllocError>
    ensures { OnOk result (Adds out.old.items out.new.items (path_pieces (Back from lane bend end))) }
{
    push_path_open(out, from)?;
    push_detour(out, from, lane, bend)?;
    push_stub(out, bend.x, end)?;
    push(out, &[Markup("\"/>")])?;
    Ok(())
}

/// Adds the path of an edge.
fn push_path(out: &mut Vec<u8>, path: Path) -> Result<(), AllocError>
    ensures { OnOk result (Adds out.old.items out.new.items (path_pieces path)) }
{
    match path {
        Path::Forward { from, bend, end } => push_forward_path(out, from, bend, end),
        Path::Back {
            from,
            lane,
            bend,
            end,
        } => push_back_path(out, from, lane, bend, end),
    }
}

/// Adds the path of a slot.
fn push_slot(out: &mut Vec<u8>, slot: Slot) -> Result<(), AllocError>
    ensures { OnOk result (Adds out.old.items out.new.items (slot_pieces slot)) }
{
    let to = Point {
        x: slot.left,
        y: slot.top,
    };
    push_path_open(out, slot.from)?;
    push_curve(out, slot.from, to)?;
    push(
        out,
        &[Markup("H"), Number(slot.right as u64), Markup("\"/>")],
    )?;
    Ok(())
}

// ---- groups

/// Adds the path of an edge, if it has this stroke.
fn push_edge_if(
    out: &mut Vec<u8>,
    stroke: Stroke,
    arrow: Arrow,
    path: Path,
) -> Result<(), AllocError>
    ensures { OnOk result (Adds out.old.items out.new.items (edge_if stroke arrow path)) }
{
    if is_stroke(stroke, path_stroke(path, arrow)) {
        push_path(out, path)
    } else {
        push(out, &[])
    }
}

/// Adds the path of the edge at a position, if it has this stroke.
fn push_edge_at(
    out: &mut Vec<u8>,
    stroke: Stroke,
    arrows: &[Arrow],
    paths: &[Path],
    position: usize,
) -> Result<(), AllocError>
    ensures { OnOk result (Adds out.old.items out.new.items (edge_at stroke arrows.now paths.now position)) }
{
    let arrow = arrow_at(arrows, position);
    let path = path_at(paths, position);
    push_edge_if(out, stroke, arrow, path)?;
    Ok(())
}

/// Adds the paths of edges that have this stroke.
fn push_edges(
    out: &mut Vec<u8>,
    stroke: Stroke,
    arrows: &[Arrow],
    paths: &[Path],
) -> Result<(), AllocError>
    ensures { OnOk result (Adds out.old.items out.new.items
        (at_each (edge_at stroke arrows.now paths.now) (length paths.now))) }
{
    for position in 0..paths.len() {
        push_edge_at(out, stroke, arrows, paths, position)?;
    }
    Ok(())
}

/// Adds the path of a slot, if it has this stroke.
fn push_slot_if(
    out: &mut Vec<u8>,
    stroke: Stroke,
    boxes: &[NodeBox],
    arrows: &[Arrow],
    slot: Slot,
) -> Result<(), AllocError>
    ensures { OnOk result (Adds out.old.items out.new.items (slot_if stroke boxes.now arrows.now slot)) }
{
    if is_stroke(stroke, slot_stroke(boxes, arrows, slot)) {
        push_slot(out, slot)
    } else {
        push(out, &[])
    }
}

/// Adds the paths of slots that have this stroke.
fn push_slots(
    out: &mut Vec<u8>,
    stroke: Stroke,
    boxes: &[NodeBox],
    arrows: &[Arrow],
    slots: &[Slot],
) -> Result<(), AllocError>
    ensures { OnOk result (Adds out.old.items out.new.items (flat_map (slot_if stroke boxes.now arrows.now) slots.now)) }
{
    for slot in slots {
        push_slot_if(out, stroke, boxes, arrows, *slot)?;
    }
    Ok(())
}

/// Adds the lines of one stroke.
fn push_stroke(
    out: &mut Vec<u8>,
    stroke: Stroke,
    before: &'static str,
    arrows: &[Arrow],
    picture: &Picture,
) -> Result<(), AllocError>
    ensures { OnOk result (Adds out.old.items out.new.items (stroke_pieces stroke before.now arrows.now picture.now)) }
{
    push(out, &[Markup(before)])?;
    push_edges(out, stroke, arrows, &picture.paths)?;
    push_slots(out, stroke, &picture.boxes, arrows, &picture.slots)?;
    push(out, &[Markup("</g>")])?;
    Ok(())
}

/// Adds the lines forward.
fn push_forward_lines(
    out: &mut Vec<u8>,
    arrows: &[Arrow],
    picture: &Picture,
) -> Result<(), AllocError>
    ensures { OnOk result (Adds out.old.items out.new.items (forward_lines arrows.now picture.now)) }
{
    push_stroke(out, Stroke::Dashed, "<g class=d>", arrows, picture)?;
    push_stroke(out, Stroke::Solid, "<g class=l>", arrows, picture)?;
    Ok(())
}

/// Adds those that go back.
fn push_back_lines(out: &mut Vec<u8>, arrows: &[Arrow], picture: &Picture) -> Result<(), AllocError>
    ensures { OnOk result (Adds out.old.items out.new.items (back_lines arrows.now picture.now)) }
{
    push_stroke(out, Stroke::BackDashed, "<g class=c>", arrows, picture)?;
    push_stroke(out, Stroke::BackSolid, "<g class=b>", arrows, picture)?;
    Ok(())
}

/// Adds the red ones.
fn push_red_lines(out: &mut Vec<u8>, arrows: &[Arrow], picture: &Picture) -> Result<(), AllocError>
    ensures { OnOk result (Adds out.old.items out.new.items (red_lines arrows.now picture.now)) }
{
    push_stroke(out, Stroke::RedDashed, "<g class=k>", arrows, picture)?;
    push_stroke(out, Stroke::Red, "<g class=h>", arrows, picture)?;
    Ok(())
}

/// Adds all lines, the red ones above the others.
pub(crate) fn push_lines(
    out: &mut Vec<u8>,
    arrows: &[Arrow],
    picture: &Picture,
) -> Result<(), AllocError>
    ensures { OnOk result (Adds out.old.items out.new.items (lines_pieces arrows.now picture.now)) }
{
    push_forward_lines(out, arrows, picture)?;
    push_back_lines(out, arrows, picture)?;
    push_red_lines(out, arrows, picture)?;
    Ok(())
}
