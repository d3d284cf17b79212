//! What a job can still get once some of its builds are chosen, without reading its whole history.
//!
//! An [`Index`] stands for a problem ([`ccr_choice::Problem`]). It answers the most preferred place that an input can
//! have while the builds of some named jobs are fixed ([`Index::greatest`]), and how many builds of a job leave each
//! input a place ([`Index::viable`]). The first looks only at the fixed builds' own pairs, whatever the number of
//! builds ever made, the second so at each build of its job.
//!
//! It is made from a problem by [`build_index`], and then follows the problem row by row: [`Index::add_version`] adds an allowed
//! place, [`Index::add_build`] a build. [`Index::make_room`] takes the memory for both beforehand, so that the two aren't refused
//! later. [`Index::set_after`] keeps the place after which an input's places are preferred, and takes none.
//!
//! Contracts see an index as its problem with two numbers, the places and pairs that there is room for (`specs/Index.antt`).
//! The only error is out of memory, and it leaves the index as it was.
#![tactic(auto)]

mod alike;
mod best;
mod build;
mod index;
mod input;
mod raised;
mod ranks;
mod rows;
mod rules;

pub use best::FixedBuilds;
pub use build::build_index;
pub use index::Index;
pub use input::InputRows;
pub use rows::JobRows;
