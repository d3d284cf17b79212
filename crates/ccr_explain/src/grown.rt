//! A few inputs whose demands already exclude each other, so that the others needn't be looked at.

ghost use Rattle.std.specs.Prelude.{◌≡◌, ◌≤◌, IfOk, IfSome};
ghost use Rattle.ccr_explain.specs.Clash.{IsClash};

use crate::demand::{Demand, demands_of_some};
use crate::indexed::Indexed;
use crate::met::{Met, are_met};
use ccr_choice::{Input, MOST_INPUTS};
use ccr_index::Index;
use ccr_proof::MOST_NODES;
use std::alloc::{AllocError, Global};

/// The demands of an input of an index's problem that alone exclude each other, else those of a few inputs that do so
/// together, looked for from input 0 on; None where that takes all inputs, or the budget doesn't suffice to tell.
pub(crate) fn few_demands(
    alloc: Global,
    problem: &Indexed<'_>,
    index: &Index,
    budget: u32,
) -> Result<Option<Vec<Demand>>, AllocError>
    requires least { 1 ≤ budget }
    requires most { budget ≤ MOST_NODES }
    ensures { IfOk result (λ found. IfSome found (λ ds. IsClash problem.now ds.items)) }
{
    let inputs = problem.inputs();
    for i in 0..inputs.len() {
        if !has_place_alone(index, i) {
            let demands = demands_of_some(alloc, inputs, &[i])?;
            if let Met::No = are_met(alloc, problem, &demands, budget)? {
                return Ok(Some(demands));
            }
        }
    }
    grown(alloc, problem, 0, 1, budget)
}

/// Whether an index knows a place that the input could take if the others had no demands. Most have one, and needn't be
/// asked about.
fn has_place_alone(index: &Index, input: usize) -> bool {
    input < index.input_count() && index.top(input) > 0
}

/// The demands of one input, and of as few more that name a job as it takes until they exclude each other; None where
/// that takes all of them, or the budget doesn't suffice to tell. Inputs that name a job in common are taken before
/// others. Of the first `known` it is known that they don't exclude each other.
pub(crate) fn grown(
    alloc: Global,
    problem: &Indexed<'_>,
    first: usize,
    known: usize,
    budget: u32,
) -> Result<Option<Vec<Demand>>, AllocError>
    requires least { 1 ≤ budget }
    requires most { budget ≤ MOST_NODES }
    ensures { IfOk result (λ found. IfSome found (λ ds. IsClash problem.now ds.items)) }
{
    let inputs = problem.inputs();
    let order = in_turn(alloc, inputs, first)?;
    let mut found = None;
    let mut few = known;
    let mut many = MOST_INPUTS as usize;
    for _ in 0..MOST_TRIES {
        let count = next_count(few, many, order.len());
        if count > few {
            let demands = demands_of_some(alloc, inputs, &order[..count])?;
            if let Met::No = are_met(alloc, problem, &demands, budget)? {
                many = count;
                found = Some(demands);
            } else {
                few = count;
            }
        }
    }
    Ok(found)
}

/// How often numbers of inputs are tried at the most: 1, 2, 4, 8, 16 and 31, and then half as far each time.
const MOST_TRIES: usize = 10;

/// How many inputs are tried next, where the demands of `few` don't exclude each other, and those of `many` do unless
/// there aren't so many: twice as many as the last time, and then half of those between. It is `few` where there is
/// nothing between.
fn next_count(few: usize, many: usize, most: usize) -> usize
    ensures { result ≤ most }
{
    let next = if many > most {
        few.saturating_mul(2).max(1)
    } else {
        few.saturating_add(many.saturating_sub(few) / 2)
    };
    next.min(most)
}

/// The inputs that name a job, but for the last, in the order in which they are taken.
fn in_turn(alloc: Global, inputs: &[Input], first: usize) -> Result<Vec<usize>, AllocError> {
    let mut taken = Vec::new(alloc);
    let mut next = first;
    for _ in 1..count_naming(inputs) {
        taken.push(next)?;
        next = next_input(inputs, &taken);
    }
    Ok(taken)
}

/// How many inputs name a job. The others clash with no input but themselves.
fn count_naming(inputs: &[Input]) -> usize {
    inputs.iter().filter(|x| !x.jobs().is_empty()).count()
}

/// Of the inputs that name a job, the first that isn't taken and names one in common with an input that is, else the first that
/// isn't taken.
fn next_input(inputs: &[Input], taken: &[usize]) -> usize {
    let mut next = 0;
    for i in (0..inputs.len()).rev() {
        if taken.contains(&i) || inputs[i].jobs().is_empty() {
            continue;
        }
        if is_near(inputs, taken, i) {
            return i;
        }
        next = i;
    }
    next
}

/// Whether input `input` names a job in common with one of those taken.
fn is_near(inputs: &[Input], taken: &[usize], input: usize) -> bool {
    let Some(one) = inputs.get(input) else {
        return false;
    };
    for t in taken {
        if let Some(other) = inputs.get(*t) {
            if have_common(one.jobs(), other.jobs()) {
                return true;
            }
        }
    }
    false
}

fn have_common(jobs: &[u32], others: &[u32]) -> bool {
    jobs.iter().any(|j| others.contains(j))
}
