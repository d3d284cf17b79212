//! Where a build is: it waits, or it has ended.
ghost use Rattle.std.specs.Prelude.{◌≡◌, Some, IfOk, option_map};
ghost use Rattle.ccr_pipeline.specs.Tree.{Tree, tree_of};
ghost use Rattle.ccr_steps.specs.Asks.{Chosen};
ghost use Rattle.ccr_steps.specs.Frames.{goes_on, leaf_at, NextIs};
ghost use Rattle.ccr_steps.specs.Gains.{gains_data};
ghost use Rattle.ccr_steps.specs.Moments.{moment_data, step_at, GoesTo};
ghost use Rattle.ccr_steps.specs.Play.{Play, and_then};

use crate::advance::advance;
use crate::frame::{Frame, Leaf};
use crate::gains::Gains;
use crate::leaf::Next;
use crate::outcome::Outcome;
use crate::path::leaf_at;
use ccr_pipeline::Step;
use std::alloc::{AllocError, Global};

/// Where a build is: how it ended, or else the path of frames down to the step that waits, and for which of its asks.
#[derive(Drop)]
pub(crate) struct Moment {
    pub(crate) frames: Vec<Frame>,
    pub(crate) leaf: Leaf,
    pub(crate) outcome: Option<Outcome>,
}

impl Moment {
    /// The step of the plan that waits, if the build hasn't ended.
    pub(crate) fn step_of<'r>(&self, plan: &'r Step) -> Option<&'r Step>
        ensures { option_map (λ s. tree_of s.now) result ≡ step_at (moment_data self.now) (tree_of plan.now) }
    {
        if self.outcome.is_some() {
            return None;
        }
        leaf_at(plan, &self.frames, 0)
    }

    /// Where the build is when the step that waited goes on so.
    pub(crate) fn after(
        &self,
        alloc: Global,
        plan: &Step,
        gains: &Gains,
        next: Next,
    ) -> Result<Moment, AllocError>
        ensures { IfOk result (λ m. (c : Chosen) (s : Tree) (p : Play)
            → leaf_at (tree_of plan.now) self.now.frames.items ≡ Some s → NextIs c p s (gains_data gains.now) next
            → GoesTo c (tree_of plan.now) (gains_data gains.now) (moment_data m)
            (and_then p (goes_on c (tree_of plan.now) self.now.frames.items))) }
    {
        let mut frames = Vec::from_slice(alloc, &self.frames)?;
        match next {
            Next::Waits(leaf) => Ok(Moment {
                frames,
                leaf,
                outcome: None,
            }),
            Next::Ended(ended) => {
                let outcome = advance(plan, gains, &mut frames, 0, ended)?;
                Ok(Moment {
                    frames,
                    leaf: Leaf::First,
                    outcome,
                })
            }
        }
    }
}
