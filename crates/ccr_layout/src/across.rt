//! Columns beside each other.

ghost use Rattle.std.specs.Prelude.{◌≡◌, ℕ, ◌+◌, ◌<◌, ◌≤◌, length, IfOk};
ghost use Rattle.ccr_layout.specs.Bands.{AreBands, AreRoomy, HasRoom, band_in};

use crate::band::Band;
use crate::graph::{MOST_WIDTH, Node};
use crate::line::{Line, ending};
use crate::span::{Span, span_at};
use std::alloc::{AllocError, Global};

/// The band of a column.
pub(crate) fn band_at(bands: &[Band], column: usize) -> Band
    ensures { result ≡ band_in bands.now column }
{
    bands.get(column).copied().unwrap_or(Band::NONE)
}

/// The width of the widest tab and of the widest box of a column.
fn widest(nodes: &[Node], spans: &[Span], column: usize) -> (u32, u32)
    ensures tabs { result.0 ≤ 1000 }
    ensures boxes { result.1 ≤ 1000 }
    ensures room { HasRoom nodes.now spans.now (length nodes.now) column result.0 result.1 }
{
    let mut tabs = 0;
    let mut boxes = 0;
    for node in 0..nodes.len() {
        if span_at(spans, node).column == column {
            tabs = nodes[node].widest_tab().max(tabs);
            boxes = nodes[node].width.min(MOST_WIDTH).max(boxes);
        }
    }
    (tabs, boxes)
}

/// How far a column is from the one before, by how many lines end there.
fn gap_before(lines: usize) -> u32
    ensures high { 46 ≤ result }
    ensures low { result ≤ 136 }
{
    46 + 3 * (lines.min(30) as u32)
}

/// The columns beside each other.
pub(crate) fn bands_of(
    alloc: Global,
    nodes: &[Node],
    spans: &[Span],
    lines: &[Vec<Line>],
) -> Result<Vec<Band>, AllocError>
    requires { length lines.now ≤ 403 }
    ensures beside { IfOk result (λ bands. AreBands (length lines.now) bands.items) }
    ensures room { IfOk result (λ bands. AreRoomy nodes.now spans.now bands.items (length lines.now)) }
{
    let mut bands = Vec::new(alloc);
    let mut end = 0;
    for column in 0..lines.len() {
        let (tabs, boxes) = widest(nodes, spans, column);
        let gap = gap_before(ending(lines, column).len());
        let left = if column == 0 { 40 } else { end + gap };
        let inner = left + tabs;
        end = inner + boxes;
        bands.push(Band {
            left,
            inner,
            right: end,
        })?;
    }
    Ok(bands)
}

/// How wide a picture with these columns is, with a margin at the right.
pub(crate) fn width_of(bands: &[Band]) -> u32
    requires { AreBands (length bands.now) bands.now }
    ensures { (c : ℕ) → c < length bands.now → (band_in bands.now c).right + 40 ≤ result }
{
    let last = band_at(bands, bands.len().saturating_sub(1));
    last.right.saturating_add(40)
}
