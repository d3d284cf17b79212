//! Whether some choice meets some of the demands.

ghost use Rattle.std.specs.Prelude.{◌≡◌, ◌≤◌, All, IfOk};
ghost use Rattle.ccr_explain.specs.Demand.{IsDemandOf};
ghost use Rattle.ccr_explain.specs.Cut.{IsChosenOfCut, IsCutTo, IsMet};

use crate::cut::{Cut, cut_to, order_left};
use crate::demand::Demand;
use crate::indexed::Indexed;
use ccr_choice::{Choice, Problem};
use ccr_index::build_index;
use ccr_proof::MOST_NODES;
use ccr_resolve::{Chosen, choose};
use std::alloc::{AllocError, Global};

/// Whether some choice meets demands.
#[derive(Drop)]
pub(crate) enum Met {
    /// Some choice does. Mostly this is one, but nothing is promised of it: look at it before you rely on it.
    Yes(Choice),
    /// No choice does.
    No,
    /// The budget didn't suffice to tell.
    OverBudget,
}

/// A choice of the cut problem as one of the whole: jobs have the numbers that they have there. A job that isn't left
/// has no build.
fn choice_of_cut(
    alloc: Global,
    problem: &Indexed<'_>,
    demands: &[Demand],
    choice: Choice,
) -> Result<Choice, AllocError> {
    let order = order_left(alloc, problem, demands)?;
    let mut builds = Vec::new(alloc);
    for job in 0..problem.job_count() {
        let number = order.iter().position(|m| *m as usize == job);
        builds.push(build_at(&choice.builds, number))?;
    }
    let Choice { places, .. } = choice;
    Ok(Choice { places, builds })
}

fn build_at(builds: &[u32], job: Option<usize>) -> u32 {
    match job {
        Some(number) => builds.get(number).copied().unwrap_or(0),
        None => 0,
    }
}

/// What the resolver chooses for the problem cut to these demands.
fn chosen_of_cut(
    alloc: Global,
    problem: &Indexed<'_>,
    demands: &[Demand],
    cut: &Problem,
    budget: u32,
) -> Result<Chosen, AllocError>
    requires cut { IsCutTo demands.now problem.now cut.now }
    requires least { 1 ≤ budget }
    requires most { budget ≤ MOST_NODES }
    ensures { IfOk result (IsChosenOfCut demands.now problem.now budget) }
{
    let index = build_index(alloc, cut)?;
    choose(alloc, &index, budget)
}

/// What the resolver says of the problem cut to these demands.
fn met_of_cut(
    alloc: Global,
    problem: &Indexed<'_>,
    demands: &[Demand],
    cut: &Problem,
    budget: u32,
) -> Result<Met, AllocError>
    requires demands { All (IsDemandOf problem.now) demands.now }
    requires cut { IsCutTo demands.now problem.now cut.now }
    requires least { 1 ≤ budget }
    requires most { budget ≤ MOST_NODES }
    ensures { IfOk result (IsMet problem.now demands.now budget) }
{
    match chosen_of_cut(alloc, problem, demands, cut, budget)? {
        Chosen::Best(choice) => {
            let choice = choice_of_cut(alloc, problem, demands, choice)?;
            Ok(Met::Yes(choice))
        }
        Chosen::Nothing => Ok(Met::No),
        Chosen::OverBudget(_) => Ok(Met::OverBudget),
    }
}

/// Whether some choice meets these demands of a problem.
pub(crate) fn are_met(
    alloc: Global,
    problem: &Indexed<'_>,
    demands: &[Demand],
    budget: u32,
) -> Result<Met, AllocError>
    requires demands { All (IsDemandOf problem.now) demands.now }
    requires least { 1 ≤ budget }
    requires most { budget ≤ MOST_NODES }
    ensures { IfOk result (IsMet problem.now demands.now budget) }
{
    match cut_to(alloc, problem, demands)? {
        Cut::Left(cut) => met_of_cut(alloc, problem, demands, &cut, budget),
        Cut::Met(choice) => Ok(Met::Yes(choice)),
        Cut::Emptied => Ok(Met::No),
    }
}
