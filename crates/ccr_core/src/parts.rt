//! The parts of a core.

use ccr_history::History;
use ccr_pipeline::Pipeline;
use ccr_problem::Indexes;
use ccr_steps::BuildRun;

/// The parts of a core, which its events change: what each event does is a method.
#[derive(Drop)]
pub(crate) struct Parts {
    pub(crate) history: History,
    pub(crate) pipeline: Option<Pipeline>,
    pub(crate) budget: u32,
    // The builds that run, in order of making: their names, and beside each what it is.
    pub(crate) names: Vec<(String, u32)>,
    pub(crate) runs: Vec<BuildRun>,
    // The index of each job of the pipeline, in order: what the job's next build is chosen by.
    pub(crate) indexes: Indexes,
}
