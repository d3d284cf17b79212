//! A build that runs.
ghost use Rattle.std.proofs.Props.{props};
ghost use Rattle.ccr_pipeline.specs.Tree.{tree_of};
ghost use Rattle.ccr_steps.specs.Inputs.{inputs_data, HasEach};

use crate::gains::Gains;
use crate::inputs::Inputs;
use crate::moment::Moment;
use ccr_pipeline::Step;
use std::rc::Rc;

/// A build that runs: it gives one ask at a time, is stopped, and goes on with the answer.
///
/// It shares its plan with its job and the job's other builds.
#[derive(Drop)]
pub struct BuildRun {
    pub(crate) plan: Rc<Step>,
    pub(crate) inputs: Inputs,
    pub(crate) at: Moment,
    pub(crate) gains: Gains,
    pub(crate) turn: u64,
    // Each input of the plan has a version.
    pub(crate) ghost each: { HasEach (inputs_data inputs) (tree_of plan.value) } by { Prim.hlevel props },
}
