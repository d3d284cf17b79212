//! Lines from one column to the next.

ghost use Rattle.std.specs.Prelude.{◌≡◌, ◌+◌, ◌*◌, ◌≤◌, length, IfOk, OnOk};
ghost use Rattle.ccr_layout.specs.Lines.{ends_at_box, lines_in, line_count};

use crate::graph::{Edge, port_below};
use crate::span::{Span, passes, span_at};
use std::alloc::{AllocError, Global};

/// A line from a node's box or slot in one column to a node's box or slot in the next. Its end is a slot where both are one node.
#[derive(Clone, Copy, Drop)]
pub(crate) struct Line {
    pub(crate) from: usize,
    pub(crate) to: usize,
    /// How far below the top it ends, in pixels.
    pub(crate) offset: u32,
    pub(crate) trigger: bool,
}

/// Whether a line ends at a box.
pub(crate) fn ends(line: Line) -> bool
    ensures { result ≡ ends_at_box line }
{
    line.from != line.to
}

/// The pieces of long lines that end in the slots of this column.
fn pieces(alloc: Global, spans: &[Span], column: usize) -> Result<Vec<Line>, AllocError>
    ensures { IfOk result (λ lines. length lines.items ≤ length spans.now) }
{
    let mut lines = Vec::new(alloc);
    for node in 0..spans.len() {
        if passes(spans[node], column) {
            lines.push(Line {
                from: node,
                to: node,
                offset: 0,
                trigger: true,
            })?;
        }
    }
    Ok(lines)
}

/// The pieces of long lines, for each column.
fn all_pieces(alloc: Global, spans: &[Span], columns: usize) -> Result<Vec<Vec<Line>>, AllocError>
    ensures long { IfOk result (λ lines. length lines.items ≡ columns) }
    ensures few { IfOk result (λ lines. line_count lines.items ≤ length spans.now * columns) }
{
    let mut lines = Vec::new(alloc);
    for column in 0..columns {
        lines.push(pieces(alloc, spans, column)?)?;
    }
    Ok(lines)
}

/// Adds a line that ends in this column.
fn push_line(lines: &mut Vec<Vec<Line>>, column: usize, line: Line) -> Result<(), AllocError>
    ensures long { length lines.new.items ≡ length lines.old.items }
    ensures few { OnOk result (line_count lines.new.items ≤ line_count lines.old.items + 1) }
{
    if column < lines.len() {
        lines[column].push(line)?;
    }
    Ok(())
}

/// For each column the lines that end there: at most one for each node and column, and one for each edge.
pub(crate) fn lines_of(
    alloc: Global,
    edges: &[Edge],
    spans: &[Span],
    columns: usize,
) -> Result<Vec<Vec<Line>>, AllocError>
    ensures long { IfOk result (λ lines. length lines.items ≡ columns) }
    ensures few { IfOk result (λ lines. line_count lines.items ≤ length spans.now * columns + length edges.now) }
{
    let mut lines = all_pieces(alloc, spans, columns)?;
    for edge in edges {
        let target = span_at(spans, edge.target);
        if span_at(spans, edge.source).column < target.column {
            let line = Line {
                from: edge.source,
                to: edge.target,
                offset: target.first_port.saturating_add(port_below(edge.port)),
                trigger: edge.trigger,
            };
            push_line(&mut lines, target.column, line)?;
        }
    }
    Ok(lines)
}

/// The lines that end in this column, none where there is no such column.
pub(crate) fn ending(lines: &[Vec<Line>], column: usize) -> &[Line]
    ensures { result.now ≡ lines_in lines.now column }
{
    match lines.get(column) {
        Some(lines) => lines.as_slice(),
        None => &[],
    }
}
