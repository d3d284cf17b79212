//! What a problem demands of a choice.

ghost use Rattle.std.specs.Prelude.{◌≡◌, ◌∷◌, ◌++◌, ℕ, List, map, All, IfOk, OnOk};
ghost use Rattle.ccr_choice.specs.Problem.{BuildValue};
ghost use Rattle.ccr_explain.specs.Demand.{demands_from, IsDemandOf};
ghost use Rattle.ccr_explain.specs.declared.demand.Demand.TheVariants.{Allowed, Passed};

use ccr_choice::Input;
use std::alloc::{AllocError, Global};

/// A demand that a problem makes of a choice. Inputs are counted from 0 in plan order, named jobs from 0 in order of first
/// mention.
#[derive(Clone, Copy, PartialEq, Eq)]
pub enum Demand {
    /// This input takes one of its allowed places.
    Allowed(usize),
    /// The place of this input has passed this job, which the input names (Concourse: get step, `passed`).
    Passed(usize, usize),
}

/// All demands of these inputs, in plan order.
pub(crate) fn demands_of(alloc: Global, inputs: &[Input]) -> Result<Vec<Demand>, AllocError>
    ensures { IfOk result (λ ds. ds.items ≡ demands_from 0 inputs.now) }
{
    let mut demands = Vec::new(alloc);
    for i in 0..inputs.len() {
        add_demands(&mut demands, i, &inputs[i])?;
    }
    Ok(demands)
}

/// The demands of some of these inputs, in plan order.
pub(crate) fn demands_of_some(
    alloc: Global,
    inputs: &[Input],
    some: &[usize],
) -> Result<Vec<Demand>, AllocError>
    ensures { IfOk result (λ ds. (jobs : List (List BuildValue))
        → All (IsDemandOf (record { inputs = inputs.now; jobs = jobs })) ds.items) }
{
    let mut demands = Vec::new(alloc);
    for i in 0..inputs.len() {
        if some.contains(&i) {
            add_demands(&mut demands, i, &inputs[i])?;
        }
    }
    Ok(demands)
}

/// Adds the demands of input `number`.
fn add_demands(demands: &mut Vec<Demand>, number: usize, input: &Input) -> Result<(), AllocError>
    ensures { OnOk result (demands.new.items
        ≡ demands.old.items ++ Allowed number ∷ map (λ j. Passed number j) input.now.jobs) }
{
    demands.push(Demand::Allowed(number))?;
    for job in input.jobs() {
        demands.push(Demand::Passed(number, *job as usize))?;
    }
    Ok(())
}
