//! Demands that exclude each other, without those that aren't needed for it.

ghost use Rattle.std.specs.Prelude.{◌≡◌, ◌+◌, ◌-◌, ◌<◌, ◌≤◌, length, remove, IfOk, IfSome};
ghost use Rattle.ccr_explain.specs.Clash.{IsClash, IsClashWithin};
ghost use Rattle.ccr_explain.specs.Cut.{IsMet};
ghost use Rattle.ccr_explain.specs.Reduced.{marked, AreNeeded, IsReduced};

use crate::copies::copied_choice;
use crate::demand::{Demand, demands_of};
use crate::explanation::ClashingDemands;
use crate::indexed::Indexed;
use crate::met::{Met, are_met};
use crate::witness::{is_to_leave_out, mark_needed, mark_one_by_one};
use ccr_choice::Choice;
use ccr_proof::MOST_NODES;
use std::alloc::{AllocError, Global};
use std::marker::Model;

/// Demands that exclude each other, some of which were tried: whether the others exclude each other without them.
#[derive(Drop)]
pub(crate) struct Reduction {
    demands: Vec<Demand>,
    /// Of each demand, whether it is known that it can't be left out.
    is_needed: Vec<bool>,
    /// The first demand that wasn't tried.
    next: usize,
    /// Whether all that were tried can't be left out. Else the budget didn't suffice for one of them.
    is_irreducible: bool,
}

impl Model for Reduction {
    ghost use Rattle.ccr_explain.specs.Reduced.{ReductionValue};

    ghost Value = { ReductionValue };

    ghost view = { λ a. record {
      demands = a.demands.items;
      is_needed = a.is_needed.items;
      next = a.next;
      is_irreducible = a.is_irreducible;
    } };
}

/// What is left of these demands when each is left out in turn, and stays out if the others still exclude each other.
/// Whatever is kept can't be left out later either, when there are fewer others. A choice that is known to meet all but
/// one tells of the first that are needed.
pub(crate) fn reduced(
    alloc: Global,
    problem: &Indexed<'_>,
    demands: Vec<Demand>,
    known: Option<&Choice>,
    budget: u32,
) -> Result<ClashingDemands, AllocError>
    requires clash { IsClash problem.now demands.items }
    requires least { 1 ≤ budget }
    requires most { budget ≤ MOST_NODES }
    ensures { IfOk result (IsClashWithin problem.now budget) }
{
    let count = demands.len();
    let is_needed = needed_each(alloc, problem, &demands, known)?;
    let first = Reduction {
        demands,
        is_needed,
        next: 0,
        is_irreducible: true,
    };
    let mut reduction = begun(alloc, problem, first, budget)?;
    for _ in 0..count {
        reduction = turn(alloc, problem, reduction, budget)?;
    }
    Ok(ClashingDemands {
        demands: reduction.demands,
        is_irreducible: reduction.is_irreducible,
    })
}

/// The demands of a problem of which a choice that is known tells that none can be left out, if there are at least
/// three and they alone exclude each other. The resolver is called once.
pub(crate) fn clash_of_needed(
    alloc: Global,
    problem: &Indexed<'_>,
    known: &Choice,
    budget: u32,
) -> Result<Option<ClashingDemands>, AllocError>
    requires least { 1 ≤ budget }
    requires most { budget ≤ MOST_NODES }
    ensures { IfOk result (λ found. IfSome found (IsClashWithin problem.now budget)) }
{
    let demands = demands_of(alloc, problem.inputs())?;
    let is_needed = needed_first(alloc, problem, &demands, Some(known))?;
    let needed = marked(alloc, &demands, &is_needed)?;
    if needed.len() < FEWEST_NEEDED {
        return Ok(None);
    }
    match are_met(alloc, problem, &needed, budget)? {
        Met::No => Ok(Some(ClashingDemands {
            demands: needed,
            is_irreducible: true,
        })),
        Met::Yes(_) | Met::OverBudget => Ok(None),
    }
}

/// Of fewer demands it isn't asked first whether they exclude each other, since each can be left out in turn for as many calls.
const FEWEST_NEEDED: usize = 3;

/// Marks for the demands that are needed, as far as a choice that is known tells.
fn needed_first(
    alloc: Global,
    problem: &Indexed<'_>,
    demands: &[Demand],
    known: Option<&Choice>,
) -> Result<Vec<bool>, AllocError>
    ensures length { IfOk result (λ marks. length marks.items ≡ length demands.now) }
    ensures needed { IfOk result (λ marks. AreNeeded problem.now demands.now marks.items) }
{
    let mut is_needed = vec![in alloc; false; demands.len()]?;
    if let Some(choice) = known {
        let choice = copied_choice(alloc, choice)?;
        mark_needed(alloc, problem, demands, choice, &mut is_needed)?;
    }
    Ok(is_needed)
}

/// The demands that have a mark where they alone exclude each other, which is asked if there are some; else what was
/// given, perhaps with more marks.
fn begun(
    alloc: Global,
    problem: &Indexed<'_>,
    reduction: Reduction,
    budget: u32,
) -> Result<Reduction, AllocError>
    requires least { 1 ≤ budget }
    requires most { budget ≤ MOST_NODES }
    requires reduced { IsReduced problem.now budget reduction }
    ensures reduced { IfOk result (IsReduced problem.now budget) }
    ensures fewer { IfOk result (λ r.
        length r.demands - r.next ≤ length reduction.demands - reduction.next) }
{
    if count_marks(&reduction.is_needed) == 0 {
        return gathered(alloc, problem, reduction, budget);
    }
    let now = needed_alone(alloc, problem, reduction, budget)?;
    gathered(alloc, problem, now, budget)
}

/// The same, of many demands: those that name a job are left out one at a time, as long as some choice meets the
/// others, since each such choice mostly tells of several that are needed.
fn gathered(
    alloc: Global,
    problem: &Indexed<'_>,
    reduction: Reduction,
    budget: u32,
) -> Result<Reduction, AllocError>
    requires least { 1 ≤ budget }
    requires most { budget ≤ MOST_NODES }
    requires reduced { IsReduced problem.now budget reduction }
    ensures reduced { IfOk result (IsReduced problem.now budget) }
    ensures fewer { IfOk result (λ r.
        length r.demands - r.next ≤ length reduction.demands - reduction.next) }
{
    if reduction.demands.len() < MANY_DEMANDS {
        return Ok(reduction);
    }
    let mut now = reduction;
    for k in 0..now.demands.len() {
        if is_to_try(&now, k) {
            let count = count_marks(&now.is_needed);
            now = marked_without(alloc, problem, now, k, budget)?;
            if count_marks(&now.is_needed) <= count {
                return Ok(now);
            }
        }
    }
    needed_alone(alloc, problem, now, budget)
}

/// How many demands are many.
const MANY_DEMANDS: usize = 8;

/// Whether a demand names a job and has no mark.
fn is_to_try(reduction: &Reduction, k: usize) -> bool {
    is_to_leave_out(&reduction.demands, &reduction.is_needed, k)
}

/// The same demands, with the marks of which a choice tells that meets all but demand `k`, if there is one.
fn marked_without(
    alloc: Global,
    problem: &Indexed<'_>,
    reduction: Reduction,
    k: usize,
    budget: u32,
) -> Result<Reduction, AllocError>
    requires least { 1 ≤ budget }
    requires most { budget ≤ MOST_NODES }
    requires reduced { IsReduced problem.now budget reduction }
    ensures reduced { IfOk result (IsReduced problem.now budget) }
    ensures fewer { IfOk result (λ r.
        length r.demands - r.next ≤ length reduction.demands - reduction.next) }
{
    if k >= reduction.demands.len() {
        return Ok(reduction);
    }
    let mut others = Vec::from_slice(alloc, &reduction.demands)?;
    others.remove(k);
    match are_met(alloc, problem, &others, budget)? {
        Met::Yes(choice) => told_by(alloc, problem, reduction, choice, budget),
        Met::No | Met::OverBudget => Ok(reduction),
    }
}

/// The same demands, with the marks of which a choice tells.
fn told_by(
    alloc: Global,
    problem: &Indexed<'_>,
    reduction: Reduction,
    choice: Choice,
    budget: u32,
) -> Result<Reduction, AllocError>
    requires reduced { IsReduced problem.now budget reduction }
    ensures reduced { IfOk result (IsReduced problem.now budget) }
    ensures fewer { IfOk result (λ r.
        length r.demands - r.next ≤ length reduction.demands - reduction.next) }
{
    let _ = budget;
    let Reduction {
        demands,
        mut is_needed,
        next,
        is_irreducible,
    } = reduction;
    mark_needed(alloc, problem, &demands, choice, &mut is_needed)?;
    Ok(Reduction {
        demands,
        is_needed,
        next,
        is_irreducible,
    })
}

/// The same, with what is told by the choices that meet what can be met once a demand is left out, found without a search.
fn needed_each(
    alloc: Global,
    problem: &Indexed<'_>,
    demands: &[Demand],
    known: Option<&Choice>,
) -> Result<Vec<bool>, AllocError>
    ensures length { IfOk result (λ marks. length marks.items ≡ length demands.now) }
    ensures needed { IfOk result (λ marks. AreNeeded problem.now demands.now marks.items) }
{
    let mut is_needed = needed_first(alloc, problem, demands, known)?;
    if let Some(choice) = known {
        mark_one_by_one(alloc, problem, demands, choice, &mut is_needed)?;
    }
    Ok(is_needed)
}

/// What is left once the next demand was tried, if there is one. Where that marked others, too, and the marks passed a
/// power of two, it is tried whether all that are marked exclude each other alone: if they do, all is done. Each call
/// of the resolver is paid for by a demand of its own.
fn turn(
    alloc: Global,
    problem: &Indexed<'_>,
    reduction: Reduction,
    budget: u32,
) -> Result<Reduction, AllocError>
    requires least { 1 ≤ budget }
    requires most { budget ≤ MOST_NODES }
    requires reduced { IsReduced problem.now budget reduction }
    ensures reduced { IfOk result (IsReduced problem.now budget) }
    ensures fewer { IfOk result (λ r.
        length r.demands - r.next ≤ length reduction.demands - reduction.next - 1) }
{
    let before = count_marks(&reduction.is_needed);
    let after = tried(alloc, problem, reduction, budget)?;
    if has_many_more(before, count_marks(&after.is_needed)) {
        needed_alone(alloc, problem, after, budget)
    } else {
        Ok(after)
    }
}

/// What is left once the next demand was tried, if there is one.
fn tried(
    alloc: Global,
    problem: &Indexed<'_>,
    reduction: Reduction,
    budget: u32,
) -> Result<Reduction, AllocError>
    requires least { 1 ≤ budget }
    requires most { budget ≤ MOST_NODES }
    requires reduced { IsReduced problem.now budget reduction }
    ensures reduced { IfOk result (IsReduced problem.now budget) }
    ensures fewer { IfOk result (λ r.
        length r.demands - r.next ≤ length reduction.demands - reduction.next - 1) }
{
    let next = reduction.next;
    if next >= reduction.demands.len() {
        return Ok(reduction);
    }
    if reduction.is_needed[next] {
        return Ok(past_next(reduction));
    }
    let mut others = Vec::from_slice(alloc, &reduction.demands)?;
    others.remove(next);
    let met = are_met(alloc, problem, &others, budget)?;
    answered(alloc, problem, reduction, met, budget)
}

/// The same demands, where the next one is kept.
fn past_next(reduction: Reduction) -> Reduction
    requires { reduction.next < length reduction.demands }
    ensures { result ≡ record reduction { next = reduction.next + 1 } }
{
    let Reduction {
        demands,
        is_needed,
        next,
        is_irreducible,
    } = reduction;
    Reduction {
        demands,
        is_needed,
        next: next + 1,
        is_irreducible,
    }
}

/// What is left once it is known whether some choice meets all demands but the next.
fn answered(
    alloc: Global,
    problem: &Indexed<'_>,
    reduction: Reduction,
    met: Met,
    budget: u32,
) -> Result<Reduction, AllocError>
    requires within { reduction.next < length reduction.demands }
    requires reduced { IsReduced problem.now budget reduction }
    requires met { IsMet problem.now (remove reduction.demands reduction.next) budget met }
    ensures reduced { IfOk result (IsReduced problem.now budget) }
    ensures fewer { IfOk result (λ r.
        length r.demands - r.next ≤ length reduction.demands - reduction.next - 1) }
{
    let _ = budget;
    let Reduction {
        mut demands,
        mut is_needed,
        next,
        mut is_irreducible,
    } = reduction;
    let mut after = next + 1;
    match met {
        Met::No => {
            demands.remove(next);
            is_needed.remove(next);
            after = next;
        }
        Met::Yes(choice) => {
            mark_needed(alloc, problem, &demands, choice, &mut is_needed)?;
            is_needed[next] = true;
        }
        Met::OverBudget => is_irreducible = false,
    }
    Ok(Reduction {
        demands,
        is_needed,
        next: after,
        is_irreducible,
    })
}

/// Whether a number rose by more than one, and passed a power of two.
fn has_many_more(before: usize, after: usize) -> bool {
    after > before.saturating_add(1) && after.checked_ilog2() > before.checked_ilog2()
}

fn count_marks(marks: &[bool]) -> usize {
    marks.iter().filter(|mark| **mark).count()
}

/// The demands that are known to be needed, where they alone exclude each other; else what was given, perhaps with more that are
/// known to be needed.
fn needed_alone(
    alloc: Global,
    problem: &Indexed<'_>,
    reduction: Reduction,
    budget: u32,
) -> Result<Reduction, AllocError>
    requires least { 1 ≤ budget }
    requires most { budget ≤ MOST_NODES }
    requires reduced { IsReduced problem.now budget reduction }
    ensures reduced { IfOk result (IsReduced problem.now budget) }
    ensures fewer { IfOk result (λ r.
        length r.demands - r.next ≤ length reduction.demands - reduction.next) }
{
    let mut now = reduction;
    for _ in 0..now.demands.len() {
        let count = count_marks(&now.is_needed);
        now = tried_alone(alloc, problem, now, budget)?;
        if count_marks(&now.is_needed) <= count {
            return Ok(now);
        }
    }
    Ok(now)
}

/// The same, tried once: a choice that meets those that are known may tell of more.
fn tried_alone(
    alloc: Global,
    problem: &Indexed<'_>,
    reduction: Reduction,
    budget: u32,
) -> Result<Reduction, AllocError>
    requires least { 1 ≤ budget }
    requires most { budget ≤ MOST_NODES }
    requires reduced { IsReduced problem.now budget reduction }
    ensures reduced { IfOk result (IsReduced problem.now budget) }
    ensures fewer { IfOk result (λ r.
        length r.demands - r.next ≤ length reduction.demands - reduction.next) }
{
    let alone = marked(alloc, &reduction.demands, &reduction.is_needed)?;
    match are_met(alloc, problem, &alone, budget)? {
        Met::OverBudget => Ok(reduction),
        Met::Yes(choice) => told_by(alloc, problem, reduction, choice, budget),
        Met::No => {
            let count = alone.len();
            let is_needed = vec![in alloc; true; count]?;
            Ok(Reduction {
                demands: alone,
                is_needed,
                next: count,
                is_irreducible: true,
            })
        }
    }
}

/// Those of these demands that have a mark.
fn marked(alloc: Global, demands: &[Demand], marks: &[bool]) -> Result<Vec<Demand>, AllocError>
    requires { length marks.now ≡ length demands.now }
    ensures { IfOk result (λ ds. ds.items ≡ marked demands.now marks.now) }
{
    let mut some = Vec::new(alloc);
    for k in 0..demands.len() {
        if marks[k] {
            some.push(demands[k])?;
        }
    }
    Ok(some)
}
