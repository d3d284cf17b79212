//! Where a build was before an answer.

use crate::moment::Moment;

/// Where a build was before an answer that it took: [`crate::BuildRun::undo`] goes back there.
#[derive(Drop)]
pub struct Before {
    pub(crate) at: Moment,
    pub(crate) names: usize,
    pub(crate) moved: usize,
    pub(crate) turn: u64,
}
