//! Where the boxes, the tabs and the lines of a pipeline's picture lie, in whole pixels.
//!
//! [`picture_of`] takes the nodes (resources and jobs, with the widths of their boxes and tabs) and the edges of a
//! graph, and knows no names and no texts. What a picture has to be stands in `specs/Pictures.antt`: each node is drawn
//! once, boxes and slots of a column lie apart, columns lie beside each other, and each edge has one path, from its
//! source's box to its target's port.
//!
//! A job stands one column right of the last job that it waits for, a resource left of the first job that gets it, or
//! else right of the last that puts it (`layer`, `span`). A line that leads over columns passes each of them in a slot;
//! all edges of a node share it (`line`). In a column nodes stand where their lines are level, as far as there is room
//! (`wish`, `place`, `sweep`). An edge that leads to no later column goes back by a lane below the picture (`draw`).
//!
//! The only error is out of memory.
#![tactic(auto)]

mod across;
mod at;
mod band;
mod draw;
mod graph;
mod layer;
mod layout;
mod line;
mod mean;
mod picture;
mod place;
mod span;
mod sweep;
mod wish;

pub use graph::{Edge, Kind, MOST_NODES, MOST_PORTS, MOST_WIDTH, Node};
pub use layout::picture_of;
pub use picture::{NodeBox, Path, Picture, Point, Slot, Tab};
