//! The whole.

ghost use Rattle.std.specs.Prelude.{◌≤◌, length, IfOk};
ghost use Rattle.ccr_layout.specs.Pictures.{IsPicture};

use crate::across::{bands_of, width_of};
use crate::draw::{bottom_of, boxes_of, lanes_of, paths_of, slots_of, tabs_of};
use crate::graph::{Edge, MOST_NODES, Node};
use crate::line::lines_of;
use crate::picture::Picture;
use crate::span::{column_count, spans_of};
use crate::sweep::tops_of;
use std::alloc::{AllocError, Global};

/// The picture of a graph.
pub fn picture_of(alloc: Global, nodes: &[Node], edges: &[Edge]) -> Result<Picture, AllocError>
    requires { length nodes.now ≤ MOST_NODES }
    ensures { IfOk result (λ p. IsPicture nodes.now edges.now p) }
{
    let spans = spans_of(alloc, nodes, edges)?;
    let spans = spans.as_slice();
    let columns = column_count(spans);
    let lines = lines_of(alloc, edges, spans, columns)?;
    let lines = lines.as_slice();
    let tops = tops_of(alloc, spans, lines)?;
    let tops = tops.as_slice();
    let bands = bands_of(alloc, nodes, spans, lines)?;
    let bands = bands.as_slice();
    let boxes = boxes_of(alloc, spans, bands, tops)?;
    let slots = slots_of(alloc, spans, bands, tops)?;
    let tabs = tabs_of(alloc, nodes, spans, bands, tops)?;
    let bottom = bottom_of(boxes.as_slice(), slots.as_slice());
    let below = lanes_of(alloc, edges, spans, bottom)?;
    let lanes = below.0.as_slice();
    let paths = paths_of(alloc, nodes, edges, spans, bands, tops, lanes)?;
    let width = width_of(bands);
    let height = below.1;
    Ok(Picture {
        boxes,
        tabs,
        slots,
        paths,
        width,
        height,
    })
}
