//! A page that shows how a pipeline stands: one HTML file, without a script or another file.
//!
//! [`page_of`] takes a [`Page`], a value of plain texts, numbers and enums, and knows no core, no database and no
//! clock. What it writes stands in `specs/Pages.antt`: pieces of a fixed template, and in its holes numbers and escaped
//! texts (`specs/Pieces.antt`, `specs/Texts.antt`). The picture is one of `ccr_layout`.
//!
//! [`no_text_is_markup`] says what follows from that: the markup of a page is that of its template, whatever the texts
//! are. [`no_link_leaves`] says that no link to a log leads to another server.
//!
//! A text is cut to so many units where room is short. Names that aren't ASCII stand in an element of their own, since
//! their letters may go from right to left. Anchors are made of positions and numbers alone. The only error is out of
//! memory.
#![tactic(auto)]

mod build;
mod cut;
mod data;
mod drawing;
mod escape;
mod head;
mod job;
mod law;
mod list;
mod page;
mod piece;
mod resource;
mod sentence;
mod shape;
mod status;
mod stroke;
mod template;

pub use data::{Arrow, Bar, Cell, Job, Page, Port, Resource, Row, Urgency, Version, Why, Word};
pub use law::{no_link_leaves, no_text_is_markup};
pub use page::page_of;
pub use status::Status;
