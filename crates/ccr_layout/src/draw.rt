//! From where everything stands to what is drawn.

ghost use Rattle.std.specs.Prelude.{◌≡◌, ◌+◌, ◌-◌, ◌↔◌, ◌<◌, ◌≤◌, ℕ, Bool, List, true, length, All, IfOk, OnOk, IsTrue, slice_index, slice_index_or, slice_set};
ghost use Rattle.ccr_layout.specs.Spans.{span_in};
ghost use Rattle.ccr_layout.specs.Standing.{tops_in, IsStanding};
ghost use Rattle.ccr_layout.specs.Drawing.{right_end, box_of, bend_of, end_of, path_of, tab_of, HasTabs, slot_of, HasSlots, IsPathOf};
ghost use Rattle.ccr_layout.specs.Lanes.{AreMarked, AreLanes};

use crate::across::band_at;
use crate::at::at;
use crate::band::Band;
use crate::graph::{Edge, Node, has_tab, port_below, tab_count};
use crate::picture::{NodeBox, Path, Point, Slot, Tab};
use crate::span::{Span, height_in, span_at};
use crate::sweep::tops_at;
use std::alloc::{AllocError, Global};

/// How far apart two lanes are, in pixels.
const LANE: u32 = 14;

/// How high a tab is, in pixels.
const TAB: u32 = 18;

/// The top of a node's box or slot in a column.
fn top_at(tops: &[Vec<u32>], node: usize, column: usize) -> u32
    ensures { result ≡ slice_index (tops_in tops.now column) node }
{
    at(tops_at(tops, column), node)
}

/// The right end of a node's box or slot in a column.
fn right_end(spans: &[Span], bands: &[Band], tops: &[Vec<u32>], node: usize, column: usize) -> Point
    requires { IsStanding spans.now tops.now }
    ensures { result ≡ right_end spans.now bands.now tops.now node column }
{
    let height = height_in(span_at(spans, node), column);
    Point {
        x: band_at(bands, column).right,
        y: top_at(tops, node, column) + height / 2,
    }
}

/// The box of a node.
fn box_of(spans: &[Span], bands: &[Band], tops: &[Vec<u32>], node: usize) -> NodeBox
    ensures { result ≡ box_of spans.now bands.now tops.now node }
{
    let span = span_at(spans, node);
    let band = band_at(bands, span.column);
    NodeBox {
        column: span.column,
        left: band.inner,
        top: top_at(tops, node, span.column),
        width: band.right.saturating_sub(band.inner),
        height: span.height,
    }
}

/// Where an edge comes to its target's column.
fn bend_of(spans: &[Span], bands: &[Band], tops: &[Vec<u32>], edge: Edge) -> Point
    requires { IsStanding spans.now tops.now }
    ensures { result ≡ bend_of spans.now bands.now tops.now edge }
{
    let span = span_at(spans, edge.target);
    Point {
        x: band_at(bands, span.column).left,
        y: top_at(tops, edge.target, span.column) + span.first_port + port_below(edge.port),
    }
}

/// Where an edge ends: at its tab, or at the box where it has none.
fn end_of(nodes: &[Node], spans: &[Span], bands: &[Band], edge: Edge) -> u32
    ensures { result ≡ end_of nodes.now spans.now bands.now edge }
{
    let band = band_at(bands, span_at(spans, edge.target).column);
    if has_tab(nodes, edge.target, edge.port) {
        band.left
    } else {
        band.inner
    }
}

/// The way of an edge, from where it begins, with the lane of its target.
fn path_of(from: Point, bend: Point, end: u32, lane: u32, is_forward: bool) -> Path
    ensures { result ≡ path_of from bend end lane is_forward }
{
    if is_forward {
        Path::Forward { from, bend, end }
    } else {
        Path::Back {
            from,
            lane,
            bend,
            end,
        }
    }
}

/// The boxes of the nodes.
pub(crate) fn boxes_of(
    alloc: Global,
    spans: &[Span],
    bands: &[Band],
    tops: &[Vec<u32>],
) -> Result<Vec<NodeBox>, AllocError>
    ensures long { IfOk result (λ boxes. length boxes.items ≡ length spans.now) }
    ensures each { IfOk result (λ boxes. (k : ℕ) (d : NodeBox) → k < length spans.now
        → slice_index_or boxes.items k d ≡ box_of spans.now bands.now tops.now k) }
{
    let mut boxes = Vec::new(alloc);
    for node in 0..spans.len() {
        boxes.push(box_of(spans, bands, tops, node))?;
    }
    Ok(boxes)
}

/// The tab of a port.
fn tab_of(spans: &[Span], bands: &[Band], tops: &[Vec<u32>], node: usize, port: usize) -> Tab
    requires { IsStanding spans.now tops.now }
    ensures { result ≡ tab_of spans.now bands.now tops.now node port }
{
    let span = span_at(spans, node);
    let band = band_at(bands, span.column);
    let middle = top_at(tops, node, span.column) + span.first_port + port_below(port);
    Tab {
        node,
        port,
        left: band.left,
        top: middle.saturating_sub(TAB / 2),
        width: band.inner.saturating_sub(band.left),
        height: TAB,
    }
}

/// Adds the tabs of a node.
fn push_tabs(
    tabs: &mut Vec<Tab>,
    nodes: &[Node],
    spans: &[Span],
    bands: &[Band],
    tops: &[Vec<u32>],
    node: usize,
) -> Result<(), AllocError>
    requires standing { IsStanding spans.now tops.now }
    requires within { node < length nodes.now }
    requires earlier { HasTabs spans.now bands.now tops.now nodes.now node 0 tabs.old.items }
    ensures { OnOk result (HasTabs spans.now bands.now tops.now nodes.now (node + 1) 0 tabs.new.items) }
{
    for port in 0..tab_count(nodes, node) {
        if has_tab(nodes, node, port) {
            tabs.push(tab_of(spans, bands, tops, node, port))?;
        }
    }
    Ok(())
}

/// The tabs of the nodes.
pub(crate) fn tabs_of(
    alloc: Global,
    nodes: &[Node],
    spans: &[Span],
    bands: &[Band],
    tops: &[Vec<u32>],
) -> Result<Vec<Tab>, AllocError>
    requires { IsStanding spans.now tops.now }
    ensures { IfOk result (λ tabs. HasTabs spans.now bands.now tops.now nodes.now (length nodes.now) 0 tabs.items) }
{
    let mut tabs = Vec::new(alloc);
    for node in 0..nodes.len() {
        push_tabs(&mut tabs, nodes, spans, bands, tops, node)?;
    }
    Ok(tabs)
}

/// The slot of a node in a column, with the piece that leads to it.
fn slot_of(spans: &[Span], bands: &[Band], tops: &[Vec<u32>], node: usize, column: usize) -> Slot
    requires { IsStanding spans.now tops.now }
    ensures { result ≡ slot_of spans.now bands.now tops.now node column }
{
    let band = band_at(bands, column);
    Slot {
        node,
        column,
        from: right_end(spans, bands, tops, node, column.saturating_sub(1)),
        left: band.left,
        right: band.right,
        top: top_at(tops, node, column),
    }
}

/// Adds the slots of a node.
fn push_slots(
    slots: &mut Vec<Slot>,
    spans: &[Span],
    bands: &[Band],
    tops: &[Vec<u32>],
    node: usize,
) -> Result<(), AllocError>
    requires standing { IsStanding spans.now tops.now }
    requires within { node < length spans.now }
    requires earlier { HasSlots spans.now bands.now tops.now node 0 slots.old.items }
    ensures { OnOk result (HasSlots spans.now bands.now tops.now (node + 1) 0 slots.new.items) }
{
    let span = span_at(spans, node);
    for before in span.column..span.reach.saturating_sub(1) {
        slots.push(slot_of(spans, bands, tops, node, before + 1))?;
    }
    Ok(())
}

/// The slots of the nodes.
pub(crate) fn slots_of(
    alloc: Global,
    spans: &[Span],
    bands: &[Band],
    tops: &[Vec<u32>],
) -> Result<Vec<Slot>, AllocError>
    requires { IsStanding spans.now tops.now }
    ensures { IfOk result (λ slots. HasSlots spans.now bands.now tops.now (length spans.now) 0 slots.items) }
{
    let mut slots = Vec::new(alloc);
    for node in 0..spans.len() {
        push_slots(&mut slots, spans, bands, tops, node)?;
    }
    Ok(slots)
}

/// Where the lowest box or slot ends.
pub(crate) fn bottom_of(boxes: &[NodeBox], slots: &[Slot]) -> u32
    requires boxes { All (λ b. b.top + b.height ≤ 10301010) boxes.now }
    requires slots { All (λ s. s.top ≤ 10300000) slots.now }
    ensures low { result ≤ 10301010 }
    ensures boxes { All (λ b. b.top + b.height ≤ result) boxes.now }
    ensures slots { All (λ s. s.top ≤ result) slots.now }
{
    let mut bottom = 0;
    for frame in boxes {
        bottom = (frame.top + frame.height).max(bottom);
    }
    for slot in slots {
        bottom = slot.top.max(bottom);
    }
    bottom
}

/// Whether an edge leads to a later column.
fn is_forward(spans: &[Span], edge: Edge) -> bool
    ensures { IsTrue result ↔ ((span_in spans.now edge.source).column < (span_in spans.now edge.target).column) }
{
    span_at(spans, edge.source).column < span_at(spans, edge.target).column
}

/// Marks a node.
fn mark(marks: &mut Vec<bool>, node: usize)
    ensures { marks.new.items ≡ slice_set marks.old.items node true }
{
    if node < marks.len() {
        marks[node] = true;
    }
}

/// For each node whether an edge leads back to it.
fn backward(alloc: Global, edges: &[Edge], spans: &[Span]) -> Result<Vec<bool>, AllocError>
    ensures { IfOk result (λ marks. AreMarked spans.now edges.now (length edges.now) marks.items) }
{
    let mut marks = vec![in alloc; false; spans.len()]?;
    for edge in edges {
        if !is_forward(spans, *edge) {
            mark(&mut marks, edge.target);
        }
    }
    Ok(marks)
}

/// Whether a node is marked.
fn is_marked(marks: &[bool], node: usize) -> bool
    ensures { result ≡ slice_index_or marks.now node true }
{
    marks.get(node).copied().unwrap_or(true)
}

/// The lanes below the bottom: for each node where its lane is, whether it is marked or not, and where the picture ends.
fn lanes_below(alloc: Global, marks: &[bool], bottom: u32) -> Result<(Vec<u32>, u32), AllocError>
    requires low { bottom ≤ 10301010 }
    requires few { length marks.now ≤ 400 }
    ensures { IfOk result (λ r. (next : ℕ) × AreLanes marks.now bottom r.0.items (length marks.now) next r.1) }
{
    let mut lanes = Vec::new(alloc);
    let mut next = bottom + 16;
    let mut end = bottom;
    for node in 0..marks.len() {
        lanes.push(next)?;
        if is_marked(marks, node) {
            next += LANE;
            end = next;
        }
    }
    Ok((lanes, end))
}

/// Where an edge begins: at the right end of its source in the last column before its target, or of its box if it leads back.
fn start_of(spans: &[Span], bands: &[Band], tops: &[Vec<u32>], edge: Edge) -> Point
    requires { IsStanding spans.now tops.now }
    ensures forward { let target = (span_in spans.now edge.target).column in
        (span_in spans.now edge.source).column < target
        → result ≡ right_end spans.now bands.now tops.now edge.source (target - 1) }
    ensures back { let source = (span_in spans.now edge.source).column in
        (span_in spans.now edge.target).column ≤ source
        → result ≡ right_end spans.now bands.now tops.now edge.source source }
{
    let source = span_at(spans, edge.source).column;
    let target = span_at(spans, edge.target).column;
    let column = if source < target { target - 1 } else { source };
    right_end(spans, bands, tops, edge.source, column)
}

/// The lanes of nodes at which edges end that lead back, and where the picture ends.
pub(crate) fn lanes_of(
    alloc: Global,
    edges: &[Edge],
    spans: &[Span],
    bottom: u32,
) -> Result<(Vec<u32>, u32), AllocError>
    requires low { bottom ≤ 10301010 }
    requires few { length spans.now ≤ 400 }
    ensures { IfOk result (λ r. (marks : List Bool) × (next : ℕ) × AreMarked spans.now edges.now (length edges.now) marks
        × AreLanes marks bottom r.0.items (length spans.now) next r.1) }
{
    let marks = backward(alloc, edges, spans)?;
    let marks = marks.as_slice();
    let lanes = lanes_below(alloc, marks, bottom)?;
    Ok(lanes)
}

/// The ways of the edges.
pub(crate) fn paths_of(
    alloc: Global,
    nodes: &[Node],
    edges: &[Edge],
    spans: &[Span],
    bands: &[Band],
    tops: &[Vec<u32>],
    lanes: &[u32],
) -> Result<Vec<Path>, AllocError>
    requires { IsStanding spans.now tops.now }
    ensures long { IfOk result (λ paths. length paths.items ≡ length edges.now) }
    ensures each { IfOk result (λ paths. (k : ℕ) (d : Path) (e : Edge) → k < length edges.now
        → IsPathOf nodes.now spans.now bands.now tops.now lanes.now
        (slice_index_or edges.now k e) (slice_index_or paths.items k d)) }
{
    let mut paths = Vec::new(alloc);
    for edge in edges {
        let from = start_of(spans, bands, tops, *edge);
        let bend = bend_of(spans, bands, tops, *edge);
        let end = end_of(nodes, spans, bands, *edge);
        let lane = at(lanes, edge.target);
        let is_forward = is_forward(spans, *edge);
        paths.push(path_of(from, bend, end, lane, is_forward))?;
    }
    Ok(paths)
}
