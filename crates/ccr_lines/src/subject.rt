//! What is explained.

use ccr_choice::Choice;
use ccr_history::History;
use ccr_index::Index;
use ccr_pipeline::{Input, Pipeline};

/// The next build of a job, with the choice for it.
#[derive(Clone, Copy)]
pub struct Subject<'a> {
    pub pipeline: &'a Pipeline,
    pub history: &'a History,
    /// The inputs of the job, in plan order.
    pub inputs: &'a [Input],
    /// The jobs that the inputs name in `passed`, each once, in order of first mention.
    pub jobs: &'a [String],
    /// The index, which stands for the problem of the job.
    pub index: &'a Index,
    pub choice: &'a Choice,
    /// How many nodes a search may take, from 1 to 1,000,000.
    pub budget: u32,
}
