//! Why a problem has no choice.

ghost use Rattle.std.specs.Prelude.{◌≡◌, ◌≤◌, IfOk, IfSome};
ghost use Rattle.ccr_choice.specs.Preference.{order_of};
ghost use Rattle.ccr_resolve.specs.Chosen.{IsChosen};
ghost use Rattle.ccr_explain.specs.Clash.{IsClash, IsExplanation};

use crate::copies::{copied_inputs, copied_jobs, inputs_of};
use crate::demand::{Demand, demands_of};
use crate::explanation::Explanation;
use crate::grown::few_demands;
use crate::indexed::Indexed;
use crate::met::{Met, are_met};
use crate::reduced::reduced;
use ccr_choice::{Choice, Problem};
use ccr_index::{Index, build_index};
use ccr_proof::MOST_NODES;
use ccr_resolve::{Chosen, choose};
use std::alloc::{AllocError, Global};

/// Demands of a problem that exclude each other, and of which none can be left out; or the best choice, if one
/// satisfies. The index stands for the problem.
///
/// Each call of the resolver has the budget, from 1 to 1,000,000, and there are at most twice as many calls as demands,
/// and two where there are none. Where the budget doesn't suffice for one of them, the clash is one all the same, but
/// says that perhaps fewer demands exclude each other. The only error is out of memory.
pub fn clash(alloc: Global, index: &Index, budget: u32) -> Result<Explanation, AllocError>
    requires least { 1 ≤ budget }
    requires most { budget ≤ MOST_NODES }
    ensures { let p = index.now.problem in IfOk result (IsExplanation (order_of p) p budget) }
{
    let inputs = inputs_of(alloc, index)?;
    let problem = Indexed::new(&inputs, index);
    let few = few_demands(alloc, &problem, index, budget)?;
    explained(alloc, &problem, few, None, budget)
}

/// The same, by a few demands that exclude each other, or else by all. A choice that is known to meet all demands but
/// one spares calls of the resolver.
pub(crate) fn explained(
    alloc: Global,
    problem: &Indexed<'_>,
    few: Option<Vec<Demand>>,
    known: Option<&Choice>,
    budget: u32,
) -> Result<Explanation, AllocError>
    requires few { IfSome few (λ ds. IsClash problem.now ds.items) }
    requires least { 1 ≤ budget }
    requires most { budget ≤ MOST_NODES }
    ensures { let p = problem.now in IfOk result (IsExplanation (order_of p) p budget) }
{
    match few {
        None => explained_whole(alloc, problem, known, budget),
        Some(demands) => {
            let clash = reduced(alloc, problem, demands, known, budget)?;
            Ok(Explanation::Clash(clash))
        }
    }
}

/// The same, by all inputs at once.
fn explained_whole(
    alloc: Global,
    problem: &Indexed<'_>,
    known: Option<&Choice>,
    budget: u32,
) -> Result<Explanation, AllocError>
    requires least { 1 ≤ budget }
    requires most { budget ≤ MOST_NODES }
    ensures { let p = problem.now in IfOk result (IsExplanation (order_of p) p budget) }
{
    let demands = demands_of(alloc, problem.inputs())?;
    if let Met::No = are_met(alloc, problem, &demands, budget)? {
        let clash = reduced(alloc, problem, demands, known, budget)?;
        return Ok(Explanation::Clash(clash));
    }
    match chosen_of(alloc, problem, budget)? {
        Chosen::Best(choice) => Ok(Explanation::Fits(choice)),
        Chosen::OverBudget(budget) => Ok(Explanation::OverBudget(budget)),
        Chosen::Nothing => {
            let clash = reduced(alloc, problem, demands, known, budget)?;
            Ok(Explanation::Clash(clash))
        }
    }
}

/// What the resolver chooses for a problem.
fn chosen_of(alloc: Global, problem: &Indexed<'_>, budget: u32) -> Result<Chosen, AllocError>
    requires least { 1 ≤ budget }
    requires most { budget ≤ MOST_NODES }
    ensures { let p = problem.now in IfOk result (IsChosen (order_of p) p budget) }
{
    let inputs = copied_inputs(alloc, problem.inputs())?;
    let jobs = copied_jobs(alloc, problem)?;
    let whole = Problem::new(inputs, jobs);
    let index = build_index(alloc, &whole)?;
    choose(alloc, &index, budget)
}
