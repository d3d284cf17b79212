//! Why an input doesn't take a place that is preferred to the one it has.

ghost use Rattle.std.specs.Prelude.{◌≡◌, ◌≢◌, ◌↔◌, ◌+◌, ◌<◌, ◌≤◌, length, slice_index, filter, IsTrue, Ok, IfOk};
ghost use Rattle.ccr_choice.specs.Problem.{ChoiceValue, input_at, IsProblem};
ghost use Rattle.ccr_choice.specs.Preference.{order_of};
ghost use Rattle.ccr_choice.specs.Optimal.{IsOptimal};
ghost use Rattle.ccr_explain.specs.Clash.{IsExplanation};
ghost use Rattle.ccr_explain.specs.WhyNot.{may_take, asked, IsWhyNot};

use crate::clashes::explained;
use crate::explanation::Explanation;
use crate::grown::grown;
use crate::indexed::Indexed;
use crate::reduced::clash_of_needed;
use ccr_choice::{Choice, Input, is_preferred};
use ccr_index::Index;
use ccr_proof::MOST_NODES;
use std::alloc::{AllocError, Global};

/// Why an input can't take a place without an input before it getting worse than in a choice: the clash of the problem in which
/// the input takes this place alone, and each input before it none of its allowed places that is worse than the choice's. Or a
/// choice that takes the place so; there is none where the choice is optimal and the place is preferred to the one that the input
/// has.
///
/// In the clash, the demand of the input's allowed places reads: it takes the place, which is allowed. That of an input before
/// it reads: it takes an allowed place that is no worse. The index stands for the problem, and the calls of the
/// resolver and the budget are those of [`crate::clash`].
pub fn why_not(
    alloc: Global,
    index: &Index,
    choice: &Choice,
    input: usize,
    place: u32,
    budget: u32,
) -> Result<Explanation, AllocError>
    requires input { input < length index.now.problem.inputs }
    requires place_each { length choice.now.places ≡ length index.now.problem.inputs }
    requires least { 1 ≤ budget }
    requires most { budget ≤ MOST_NODES }
    ensures shown { let p = index.now.problem in
        IfOk result (IsWhyNot (order_of p) p choice.now.places input place budget) }
    ensures not_of_the_best { let p = index.now.problem in IsOptimal (order_of p) p choice.now.places choice.now.builds
        → IsTrue (order_of p input place (slice_index choice.now.places input))
        → (other : ChoiceValue) → result ≢ Ok (Explanation.Fits other) }
{
    let inputs = narrowed(alloc, index, &choice.places, input, place)?;
    let problem = Indexed::new(&inputs, index);
    asked_of(alloc, &problem, choice, input, budget)
}

/// Why a problem, which asks that input `input` takes a place, has no choice; or its best choice. But for this place,
/// the choice that is known meets all that is asked.
fn asked_of(
    alloc: Global,
    problem: &Indexed<'_>,
    known: &Choice,
    input: usize,
    budget: u32,
) -> Result<Explanation, AllocError>
    requires least { 1 ≤ budget }
    requires most { budget ≤ MOST_NODES }
    ensures { let p = problem.now in IfOk result (IsExplanation (order_of p) p budget) }
{
    if let Some(clash) = clash_of_needed(alloc, problem, known, budget)? {
        return Ok(Explanation::Clash(clash));
    }
    let few = grown(alloc, problem, input, 0, budget)?;
    explained(alloc, problem, few, Some(known), budget)
}

/// The inputs of the problem in which input `input` takes a place and no input before it gets worse.
fn narrowed(
    alloc: Global,
    index: &Index,
    places: &[u32],
    input: usize,
    place: u32,
) -> Result<Vec<Input>, AllocError>
    requires { length places.now ≡ length index.now.problem.inputs }
    ensures value { let p = index.now.problem in IfOk result (λ inputs. record p { inputs = inputs.items }
        ≡ asked (order_of p) p places.now input place) }
    ensures rules { let p = index.now.problem in IfOk result (λ inputs. IsProblem (record p { inputs = inputs.items })) }
{
    let mut inputs = Vec::new(alloc);
    for k in 0..index.input_count() {
        let whole = index.input(k);
        let jobs = Vec::from_slice(alloc, whole.jobs())?;
        let places = may_take_of(alloc, index, places, input, place, k)?;
        inputs.push(Input::new(whole.scope(), jobs, whole.after(), places))?;
    }
    Ok(inputs)
}

/// The allowed places of input `k` that it may take.
fn may_take_of(
    alloc: Global,
    index: &Index,
    places: &[u32],
    input: usize,
    place: u32,
    k: usize,
) -> Result<Vec<u32>, AllocError>
    requires within { k < length index.now.problem.inputs }
    requires place_each { length places.now ≡ length index.now.problem.inputs }
    ensures { let p = index.now.problem in IfOk result
        (λ v. v.items ≡ filter (may_take (order_of p) places.now input place k) (input_at p k).places) }
{
    let now = places[k];
    let whole = index.input(k);
    let after = whole.after();
    whole
        .places()
        .iter()
        .copied()
        .filter(|x| {
            if k < input {
                !is_preferred(after, now, *x)
            } else {
                k != input || *x == place
            }
        })
        .collect(alloc)
}
