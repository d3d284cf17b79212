//! The picture: what is drawn where, in pixels.

/// A place.
#[derive(Clone, Copy, Drop)]
pub struct Point {
    pub x: u32,
    pub y: u32,
}

/// The box of a node.
#[derive(Clone, Copy, Drop)]
pub struct NodeBox {
    /// Its column, counted from the left from 0.
    pub column: usize,
    pub left: u32,
    pub top: u32,
    pub width: u32,
    pub height: u32,
}

/// The tab of a port, at the left of its box.
#[derive(Clone, Copy, Drop)]
pub struct Tab {
    pub node: usize,
    pub port: usize,
    pub left: u32,
    pub top: u32,
    pub width: u32,
    pub height: u32,
}

/// A piece of the line that all edges of a node share on their way to later columns: a curve from `from` to the left of
/// the column, and then level to its right.
#[derive(Clone, Copy, Drop)]
pub struct Slot {
    pub node: usize,
    pub column: usize,
    /// The right end of the piece before, or the right side of the box.
    pub from: Point,
    pub left: u32,
    pub right: u32,
    pub top: u32,
}

/// The way of an edge.
#[derive(Clone, Copy, Drop)]
pub enum Path {
    /// A curve from `from` to `bend`, and then level to `end`.
    Forward {
        from: Point,
        bend: Point,
        end: u32,
    },
    /// From `from` down to the lane, along it, and up to `bend`, and then level to `end`.
    Back {
        from: Point,
        lane: u32,
        bend: Point,
        end: u32,
    },
}

/// A picture.
#[derive(Drop)]
pub struct Picture {
    /// The boxes of the nodes, in their order.
    pub boxes: Vec<NodeBox>,
    pub tabs: Vec<Tab>,
    pub slots: Vec<Slot>,
    /// The ways of the edges, in their order.
    pub paths: Vec<Path>,
    pub width: u32,
    pub height: u32,
}
