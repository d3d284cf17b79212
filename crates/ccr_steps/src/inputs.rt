//! The versions that were chosen for a build's inputs.
ghost use Rattle.std.specs.Prelude.{◌≡◌, length, IfOk, IsTrue};
ghost use Rattle.ccr_pipeline.specs.Inputs.{inputs};
ghost use Rattle.ccr_pipeline.specs.Limits.{input_names};
ghost use Rattle.ccr_pipeline.specs.Names.{has_name};
ghost use Rattle.ccr_pipeline.specs.Tree.{tree_of};
ghost use Rattle.ccr_steps.specs.Asks.{chosen, version_of};
ghost use Rattle.ccr_steps.specs.Inputs.{inputs_data, chosen_names};

use ccr_history::Version;
use ccr_pipeline::{Job, inputs_of};
use std::alloc::{AllocError, Global};

/// An input's name, and the version that was chosen for it.
#[derive(Drop)]
pub(crate) struct ChosenInput {
    pub(crate) name: String,
    pub(crate) version: Version,
}

/// The versions that were chosen for a build's inputs.
#[derive(Drop)]
pub(crate) struct Inputs {
    pub(crate) chosen: Vec<ChosenInput>,
}

impl Inputs {
    /// The inputs of a job, with the versions in their order.
    pub(crate) fn new(alloc: Global, job: &Job, versions: &[Version]) -> Result<Inputs, AllocError>
        requires { length versions.now ≡ length (inputs (tree_of job.now.plan.value)) }
        ensures { IfOk result (λ r.
            inputs_data r ≡ chosen (input_names (tree_of job.now.plan.value)) versions.now) }
    {
        let mut chosen = Vec::new(alloc);
        let wanted = inputs_of(alloc, job)?;
        for i in 0..wanted.len() {
            chosen.push(ChosenInput {
                name: String::from_str(alloc, wanted[i].name.as_str())?,
                version: versions[i].copy()?,
            })?;
        }
        Ok(Inputs { chosen })
    }

    /// The version that was chosen for the input of this name.
    pub(crate) fn version_of(&self, name: &str) -> &Version
        requires { IsTrue (has_name (chosen_names (inputs_data self.now)) name.now) }
        ensures { result.now ≡ version_of (inputs_data self.now) name.now }
    {
        for input in &self.chosen {
            if input.name.as_str() == name {
                return &input.version;
            }
        }
        unreachable!()
    }
}
