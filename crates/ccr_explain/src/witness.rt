//! Demands that are needed, found from choices that meet all others.

ghost use Rattle.std.specs.Prelude.{◌≡◌, length, OnOk};
ghost use Rattle.ccr_explain.specs.Reduced.{AreNeeded};

use crate::carried::{Followed, build_with, carried, place_with};
use crate::copies::copied_choice;
use crate::demand::Demand;
use crate::indexed::Indexed;
use crate::meets::only_unmet;
use ccr_choice::Choice;
use std::alloc::{AllocError, Global};

/// A choice that meets all demands but one.
#[derive(Drop)]
struct Witness {
    choice: Choice,
    /// The demand that it doesn't meet.
    unmet: usize,
}

/// Marks demands that are needed, since some choice meets all others: where a choice meets all but one, this one, and
/// those that are reached from there by changing one place or one build at a time, so that one demand alone isn't met.
pub(crate) fn mark_needed(
    alloc: Global,
    problem: &Indexed<'_>,
    demands: &[Demand],
    choice: Choice,
    is_needed: &mut Vec<bool>,
) -> Result<(), AllocError>
    ensures length { OnOk result (length is_needed.new.items ≡ length is_needed.old.items) }
    ensures needed { OnOk result (let p = problem.now in
        AreNeeded p demands.now is_needed.old.items → AreNeeded p demands.now is_needed.new.items) }
{
    let mut work = Vec::new(alloc);
    mark(problem, demands, choice, is_needed, &mut work)?;
    // Each turn takes what marked a demand.
    for _ in 0..demands.len() {
        let Some(witness) = work.pop() else {
            return Ok(());
        };
        if let Some(other) = with_other_build(alloc, problem, demands, &witness)? {
            mark(problem, demands, other, is_needed, &mut work)?;
        }
        if let Some(other) = with_other_place(alloc, problem, demands, &witness)? {
            mark(problem, demands, other, is_needed, &mut work)?;
        }
    }
    Ok(())
}

/// The same, where each demand that names a job and has no mark is left out in turn, and the input that is asked about
/// takes its place: its demand is the only one that a choice which is known doesn't meet.
pub(crate) fn mark_one_by_one(
    alloc: Global,
    problem: &Indexed<'_>,
    demands: &[Demand],
    known: &Choice,
    is_needed: &mut Vec<bool>,
) -> Result<(), AllocError>
    ensures length { OnOk result (length is_needed.new.items ≡ length is_needed.old.items) }
    ensures needed { OnOk result (let p = problem.now in
        AreNeeded p demands.now is_needed.old.items → AreNeeded p demands.now is_needed.new.items) }
{
    let unmet = only_unmet(problem, demands, known);
    let Some(input) = input_allowed(demands, unmet) else {
        return Ok(());
    };
    for k in 0..demands.len() {
        mark_without(alloc, problem, demands, k, known, input, is_needed)?;
    }
    Ok(())
}

/// The same, where demand `k` alone is left out, if it names a job and has no mark.
fn mark_without(
    alloc: Global,
    problem: &Indexed<'_>,
    demands: &[Demand],
    k: usize,
    known: &Choice,
    input: usize,
    is_needed: &mut Vec<bool>,
) -> Result<(), AllocError>
    ensures length { OnOk result (length is_needed.new.items ≡ length is_needed.old.items) }
    ensures needed { OnOk result (let p = problem.now in
        AreNeeded p demands.now is_needed.old.items → AreNeeded p demands.now is_needed.new.items) }
{
    if !is_to_leave_out(demands, is_needed, k) {
        return Ok(());
    }
    let followed = Followed {
        demands,
        left_out: Some(k),
    };
    match carried(alloc, problem, followed, known, input)? {
        Some(other) => mark_needed(alloc, problem, demands, other, is_needed),
        None => Ok(()),
    }
}

/// The input whose allowed places a demand speaks of.
fn input_allowed(demands: &[Demand], at: Option<usize>) -> Option<usize> {
    match demands.get(at?)? {
        Demand::Allowed(input) => Some(*input),
        Demand::Passed(_, _) => None,
    }
}

/// Whether a demand names a job and has no mark.
pub(crate) fn is_to_leave_out(demands: &[Demand], is_needed: &[bool], k: usize) -> bool {
    matches!(
        (demands.get(k), is_needed.get(k)),
        (Some(Demand::Passed(_, _)), Some(false))
    )
}

/// Marks the demand that a choice doesn't meet, if it is the only one; where it wasn't marked, the choice is one to go on from.
fn mark(
    problem: &Indexed<'_>,
    demands: &[Demand],
    choice: Choice,
    is_needed: &mut Vec<bool>,
    work: &mut Vec<Witness>,
) -> Result<(), AllocError>
    ensures length { OnOk result (length is_needed.new.items ≡ length is_needed.old.items) }
    ensures needed { OnOk result (let p = problem.now in
        AreNeeded p demands.now is_needed.old.items → AreNeeded p demands.now is_needed.new.items) }
{
    let Some(unmet) = only_unmet(problem, demands, &choice) else {
        return Ok(());
    };
    if unmet >= is_needed.len() || is_needed[unmet] {
        return Ok(());
    }
    is_needed[unmet] = true;
    work.push(Witness { choice, unmet })?;
    Ok(())
}

/// The choice with another build of the job that an input's place hasn't passed: the newest with which it did.
fn with_other_build(
    alloc: Global,
    problem: &Indexed<'_>,
    demands: &[Demand],
    witness: &Witness,
) -> Result<Option<Choice>, AllocError> {
    let Some(Demand::Passed(input, job)) = demands.get(witness.unmet) else {
        return Ok(None);
    };
    let Some(number) = build_with(problem, &witness.choice, *input, *job) else {
        return Ok(None);
    };
    let mut other = copied_choice(alloc, &witness.choice)?;
    set(&mut other.builds, *job, number);
    Ok(Some(other))
}

/// The choice with another place of the input whose demand isn't met: one that passed the job, or the newest that is
/// allowed, with what has to change for it.
fn with_other_place(
    alloc: Global,
    problem: &Indexed<'_>,
    demands: &[Demand],
    witness: &Witness,
) -> Result<Option<Choice>, AllocError> {
    match demands.get(witness.unmet) {
        None => Ok(None),
        Some(Demand::Allowed(input)) => {
            let followed = Followed {
                demands,
                left_out: None,
            };
            carried(alloc, problem, followed, &witness.choice, *input)
        }
        Some(Demand::Passed(input, job)) => {
            let Some(place) = place_with(problem, &witness.choice, *input, *job) else {
                return Ok(None);
            };
            let mut other = copied_choice(alloc, &witness.choice)?;
            set(&mut other.places, *input, place);
            Ok(Some(other))
        }
    }
}

/// Sets one of these numbers, if it is there.
pub(crate) fn set(numbers: &mut [u32], at: usize, number: u32) {
    if let Some(place) = numbers.get_mut(at) {
        *place = number;
    }
}
