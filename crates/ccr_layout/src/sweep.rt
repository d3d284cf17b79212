//! Columns from left to right, and back, and again.

ghost use Rattle.std.specs.Prelude.{◌≡◌, ◌≤◌, ◌<◌, ℕ, length, map, All, IfOk};
ghost use Rattle.ccr_layout.specs.Spans.{height_in};
ghost use Rattle.ccr_layout.specs.Places.{ArePlaced, IsColumn};
ghost use Rattle.ccr_layout.specs.Standing.{tops_in, AreColumns};

use crate::at::at;
use crate::line::{Line, ending};
use crate::place::{place, pulled};
use crate::span::{Span, heights_in, members, order_by};
use crate::wish::{in_picture, near, near_first, wish_at, wishes_left, wishes_right};
use std::alloc::{AllocError, Global};

/// For each node the middle of its box or slot in a column.
fn middles(alloc: Global, tops: &[u32], heights: &[u32]) -> Result<Vec<u32>, AllocError> {
    let mut middles = Vec::new(alloc);
    for node in 0..heights.len() {
        middles.push(at(tops, node).saturating_add(heights[node] / 2))?;
    }
    Ok(middles)
}

/// The tops of a column, none where there is no such column.
pub(crate) fn tops_at(tops: &[Vec<u32>], column: usize) -> &[u32]
    ensures { result.now ≡ tops_in tops.now column }
{
    match tops.get(column) {
        Some(tops) => tops.as_slice(),
        None => &[],
    }
}

/// Those of these nodes that have a wish, by their wishes.
fn wishing(
    alloc: Global,
    members: &[usize],
    wishes: &[Option<u32>],
) -> Result<Vec<usize>, AllocError>
    ensures { IfOk result (λ order. length order.items ≤ length members.now) }
{
    let mut wishing = Vec::new(alloc);
    for node in members {
        if wish_at(wishes, *node).is_some() {
            wishing.push(*node)?;
        }
    }
    wishing.sort_by_key(|node| (wishes.get(*node).copied().flatten(), *node))?;
    Ok(wishing)
}

/// The key of a node that has no wish and is near none.
const LAST: u32 = u32::MAX;

/// The keys by which the nodes of a column stand below each other: the tops of those that have a wish, and for the
/// others what they are near to.
fn keys_of(
    alloc: Global,
    wishes: &[Option<u32>],
    tops: &[u32],
    near: &[Option<u32>],
) -> Result<Vec<u32>, AllocError> {
    let mut keys = Vec::new(alloc);
    for node in 0..wishes.len() {
        let key = match wishes[node] {
            Some(_) => at(tops, node),
            None => wish_at(near, node).unwrap_or(LAST),
        };
        keys.push(key)?;
    }
    Ok(keys)
}

/// The wishes as numbers, this one where there is none.
fn numbers(alloc: Global, wishes: &[Option<u32>], none: u32) -> Result<Vec<u32>, AllocError> {
    let mut numbers = Vec::new(alloc);
    for wish in wishes {
        numbers.push(wish.unwrap_or(none))?;
    }
    Ok(numbers)
}

/// Wishes, and where a node has none, that its middle is what it is near to.
fn with_near(
    alloc: Global,
    wishes: &[Option<u32>],
    near: &[Option<u32>],
    heights: &[u32],
) -> Result<Vec<u32>, AllocError> {
    let mut all = Vec::new(alloc);
    for node in 0..heights.len() {
        let middle = wish_at(near, node).unwrap_or(0);
        let top = middle.saturating_sub(heights[node] / 2);
        all.push(wish_at(wishes, node).unwrap_or(top))?;
    }
    Ok(all)
}

/// The tops of nodes of a column, in this order, each where it wishes to be, or below the one before.
fn placed_in(
    alloc: Global,
    spans: &[Span],
    column: usize,
    order: &[usize],
    wishes: &[u32],
) -> Result<Vec<u32>, AllocError>
    requires few { length order.now ≤ 400 }
    requires low { All (λ s. s.height ≤ 710) spans.now }
    ensures { IfOk result (λ tops. ArePlaced order.now (map (λ s. height_in s column) spans.now) tops.items) }
{
    let heights = heights_in(alloc, spans, column)?;
    let heights = heights.as_slice();
    let placed = place(alloc, order, heights, wishes)?;
    Ok(placed)
}

/// The tops of the nodes of a column in the order of their keys.
fn stood(
    alloc: Global,
    spans: &[Span],
    column: usize,
    keys: &[u32],
    wishes: &[u32],
) -> Result<Vec<u32>, AllocError>
    requires few { length spans.now ≤ 400 }
    requires low { All (λ s. s.height ≤ 710) spans.now }
    ensures { IfOk result (λ tops. IsColumn spans.now column tops.items) }
{
    let order = order_by(alloc, spans, column, keys)?;
    let order = order.as_slice();
    let placed = placed_in(alloc, spans, column, order, wishes)?;
    Ok(placed)
}

/// The tops of the nodes of the first column. No line ends there.
fn first_column(alloc: Global, spans: &[Span], leaving: &[Line]) -> Result<Vec<u32>, AllocError>
    requires few { length spans.now ≤ 400 }
    requires low { All (λ s. s.height ≤ 710) spans.now }
{
    let near = near_first(alloc, leaving, spans.len())?;
    let keys = numbers(alloc, &near, LAST)?;
    stood(alloc, spans, 0, &keys, &[])
}

/// The tops of the nodes of a later column: first of those that have a wish, and then the others among them. `before`
/// are the middles in the column before.
fn next_column(
    alloc: Global,
    spans: &[Span],
    column: usize,
    arriving: &[Line],
    leaving: &[Line],
    before: &[u32],
) -> Result<Vec<u32>, AllocError>
    requires few { length spans.now ≤ 400 }
    requires low { All (λ s. s.height ≤ 710) spans.now }
{
    let heights = heights_in(alloc, spans, column)?;
    let wishes = wishes_left(alloc, arriving, before)?;
    let inside = in_picture(alloc, &wishes)?;
    let first = wishing(alloc, &members(alloc, spans, column)?, &wishes)?;
    let tops = placed_in(alloc, spans, column, &first, &numbers(alloc, &inside, 0)?)?;
    let near = near(alloc, &wishes, leaving, &middles(alloc, &tops, &heights)?)?;
    let keys = keys_of(alloc, &wishes, &tops, &near)?;
    stood(
        alloc,
        spans,
        column,
        &keys,
        &with_near(alloc, &inside, &near, &heights)?,
    )
}

/// Where the nodes of each column stand by what is left of them.
fn arranged(alloc: Global, spans: &[Span], lines: &[Vec<Line>]) -> Result<Vec<Vec<u32>>, AllocError>
    requires few { length spans.now ≤ 400 }
    requires low { All (λ s. s.height ≤ 710) spans.now }
{
    let mut tops = Vec::new(alloc);
    let mut before = Vec::new(alloc);
    for column in 0..lines.len() {
        let leaving = ending(lines, column + 1);
        let placed = if column == 0 {
            first_column(alloc, spans, leaving)?
        } else {
            next_column(alloc, spans, column, &lines[column], leaving, &before)?
        };
        before = middles(alloc, &placed, &heights_in(alloc, spans, column)?)?;
        tops.push(placed)?;
    }
    Ok(tops)
}

/// Where the nodes of a column stand once they are moved down to where they wish to be, but not past each other.
fn moved(
    alloc: Global,
    spans: &[Span],
    column: usize,
    tops: &[u32],
    wishes: &[Option<u32>],
) -> Result<Vec<u32>, AllocError>
    requires few { length spans.now ≤ 400 }
    requires low { All (λ s. s.height ≤ 710) spans.now }
    ensures { IfOk result (λ tops. IsColumn spans.now column tops.items) }
{
    let order = order_by(alloc, spans, column, tops)?;
    let order = order.as_slice();
    let heights = heights_in(alloc, spans, column)?;
    let tops = pulled(alloc, order, &heights, tops, wishes)?;
    let placed = placed_in(alloc, spans, column, order, &tops)?;
    Ok(placed)
}

/// Where the nodes of a column stand once those without lines from the left are moved by their lines to the right.
/// `next` are the tops in the next column.
fn moved_back(
    alloc: Global,
    spans: &[Span],
    lines: &[Vec<Line>],
    column: usize,
    tops: &[u32],
    next: &[u32],
) -> Result<Vec<u32>, AllocError>
    requires few { length spans.now ≤ 400 }
    requires low { All (λ s. s.height ≤ 710) spans.now }
{
    let heights = heights_in(alloc, spans, column)?;
    let leaving = ending(lines, column.saturating_add(1));
    let wishes = wishes_right(alloc, ending(lines, column), leaving, next, &heights)?;
    moved(alloc, spans, column, tops, &wishes)
}

/// Where the nodes of a column stand once they are moved by their lines from the left. `before` are the tops in the
/// column before.
fn moved_on(
    alloc: Global,
    spans: &[Span],
    lines: &[Vec<Line>],
    column: usize,
    tops: &[u32],
    before: &[u32],
) -> Result<Vec<u32>, AllocError>
    requires few { length spans.now ≤ 400 }
    requires low { All (λ s. s.height ≤ 710) spans.now }
    ensures { IfOk result (λ tops. IsColumn spans.now column tops.items) }
{
    let heights = heights_in(alloc, spans, column.saturating_sub(1))?;
    let middles = middles(alloc, before, &heights)?;
    let wishes = wishes_left(alloc, ending(lines, column), &middles)?;
    moved(alloc, spans, column, tops, &in_picture(alloc, &wishes)?)
}

/// The columns from right to left, moved by their lines to the right.
fn swept_back(
    alloc: Global,
    spans: &[Span],
    lines: &[Vec<Line>],
    mut tops: Vec<Vec<u32>>,
) -> Result<Vec<Vec<u32>>, AllocError>
    requires few { length spans.now ≤ 400 }
    requires low { All (λ s. s.height ≤ 710) spans.now }
{
    for column in (0..tops.len()).rev() {
        let next = tops_at(&tops, column + 1);
        let placed = moved_back(alloc, spans, lines, column, tops_at(&tops, column), next)?;
        if column < tops.len() {
            tops[column] = placed;
        }
    }
    Ok(tops)
}

/// The columns from left to right, moved by their lines from the left.
fn swept_on(
    alloc: Global,
    spans: &[Span],
    lines: &[Vec<Line>],
    tops: &[Vec<u32>],
) -> Result<Vec<Vec<u32>>, AllocError>
    requires few { length spans.now ≤ 400 }
    requires low { All (λ s. s.height ≤ 710) spans.now }
    ensures { IfOk result (λ swept. AreColumns spans.now (length lines.now) swept.items) }
{
    let mut swept = Vec::new(alloc);
    for column in 0..lines.len() {
        let before = tops_at(&swept, column.saturating_sub(1));
        let placed = moved_on(alloc, spans, lines, column, tops_at(tops, column), before)?;
        swept.push(placed)?;
    }
    Ok(swept)
}

/// Where each node stands in each of its columns: from left to right by the lines from the left, back by those to the
/// right, and again from left to right.
pub(crate) fn tops_of(
    alloc: Global,
    spans: &[Span],
    lines: &[Vec<Line>],
) -> Result<Vec<Vec<u32>>, AllocError>
    requires few { length spans.now ≤ 400 }
    requires low { All (λ s. s.height ≤ 710) spans.now }
    ensures { IfOk result (λ tops. AreColumns spans.now (length lines.now) tops.items) }
{
    let tops = arranged(alloc, spans, lines)?;
    let tops = swept_back(alloc, spans, lines, tops)?;
    swept_on(alloc, spans, lines, &tops)
}
