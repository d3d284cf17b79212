//! The places that builds leave to the inputs of a problem, found without a search.

ghost use Rattle.std.specs.Prelude.{◌≡◌, [], ◌+◌, ◌<◌, ◌≤◌, ℕ, length, map, filter, slice_index, slice_index_or, false, IsTrue, IfOk, IfSome, OnOk, All, EachIndex};
ghost use Rattle.ccr_choice.specs.Ascending.{AreRising};
ghost use Rattle.ccr_choice.specs.Problem.{builds_at, no_input};
ghost use Rattle.ccr_explain.specs.Cut.{is_of_use, build_in, AreThose, IsNarrowed, IsEnough, IsInputNarrowed, AreMarked};

use crate::cut::is_among;
use crate::indexed::Indexed;
use crate::useful::{useful_among, useful_in};
use ccr_choice::Input;
use ccr_index::JobRows;
use std::alloc::{AllocError, Global};

/// A job that was looked at, and where builds of it lie, of which those that were of no use are left out.
pub(crate) type Looked = (usize, Vec<usize>);

/// Leaves to each of these inputs only places that came with builds of use of each job that it names, so that no choice
/// is lost. Each job is looked at once: the next is the one whose inputs leave it the least. Then they are looked at
/// once more, the last one first, since what is left to the last inputs rules out places of the first. Gives what was
/// looked at.
pub(crate) fn narrow(
    alloc: Global,
    problem: &Indexed<'_>,
    order: &[u32],
    inputs: &mut Vec<Input>,
) -> Result<Vec<Looked>, AllocError>
    requires known { EachIndex order.now (λ k. slice_index order.now k < length problem.now.jobs) }
    requires few { length order.now ≤ 32 }
    requires rising { All (λ x. AreRising x.places) inputs.old.items }
    ensures narrowed { OnOk result (IsNarrowed problem.now order.now inputs.old.items inputs.new.items) }
    ensures enough { IfOk result
        (λ looked. All (λ s. IsEnough problem.now order.now inputs.new.items s.0 s.1.items) looked.items) }
{
    let looked = narrow_each(alloc, problem, order, inputs)?;
    if let Some(_) = first_emptied(inputs) {
        return Ok(looked);
    }
    for at in (0..looked.len()).rev() {
        narrow_again(alloc, problem, order, &looked[at], inputs)?;
    }
    Ok(looked)
}

/// The same, where each job is looked at once.
fn narrow_each(
    alloc: Global,
    problem: &Indexed<'_>,
    order: &[u32],
    inputs: &mut Vec<Input>,
) -> Result<Vec<Looked>, AllocError>
    requires known { EachIndex order.now (λ k. slice_index order.now k < length problem.now.jobs) }
    requires few { length order.now ≤ 32 }
    requires rising { All (λ x. AreRising x.places) inputs.old.items }
    ensures narrowed { OnOk result (IsNarrowed problem.now order.now inputs.old.items inputs.new.items) }
    ensures enough { IfOk result
        (λ looked. All (λ s. IsEnough problem.now order.now inputs.new.items s.0 s.1.items) looked.items) }
    ensures within { IfOk result (λ looked. All (λ s. s.0 < length order.now) looked.items) }
{
    let mut looked = Vec::new(alloc);
    let mut is_done = vec![in alloc; false; order.len()]?;
    for _ in 0..order.len() {
        if let Some(job) = next_job(inputs, &is_done) {
            is_done[job] = true;
            let useful = narrow_by(alloc, problem, order, job, inputs)?;
            looked.push((job, useful))?;
        }
    }
    Ok(looked)
}

/// Of the jobs that aren't done, one that an input with the fewest places names; None where an input has none, since
/// there is no choice then.
fn next_job(inputs: &[Input], is_done: &[bool]) -> Option<usize>
    ensures { IfSome result (λ job. job < length is_done.now) }
{
    if let Some(_) = first_emptied(inputs) {
        return None;
    }
    let mut next = None;
    let mut fewest = usize::MAX;
    for input in inputs {
        let count = input.places().len();
        if count < fewest {
            if let Some(job) = first_left(input.jobs(), is_done) {
                fewest = count;
                next = Some(job);
            }
        }
    }
    next
}

/// The first of these inputs that has no place.
pub(crate) fn first_emptied(inputs: &[Input]) -> Option<usize>
    ensures { IfSome result (λ i. (i < length inputs.now) × ((slice_index_or inputs.now i no_input).places ≡ [])) }
{
    for i in 0..inputs.len() {
        if inputs[i].places().is_empty() {
            return Some(i);
        }
    }
    None
}

/// The first of these jobs that isn't done.
fn first_left(jobs: &[u32], is_done: &[bool]) -> Option<usize>
    ensures { IfSome result (λ job. job < length is_done.now) }
{
    for job in jobs {
        if let Some(false) = is_done.get(*job as usize) {
            return Some(*job as usize);
        }
    }
    None
}

/// Leaves to each input that names job `job` only places that came with builds of use of this job. Gives where these builds lie.
fn narrow_by(
    alloc: Global,
    problem: &Indexed<'_>,
    order: &[u32],
    job: usize,
    inputs: &mut Vec<Input>,
) -> Result<Vec<usize>, AllocError>
    requires known { EachIndex order.now (λ k. slice_index order.now k < length problem.now.jobs) }
    requires few { length order.now ≤ 32 }
    requires job { job < length order.now }
    requires rising { All (λ x. AreRising x.places) inputs.old.items }
    ensures narrowed { OnOk result (IsNarrowed problem.now order.now inputs.old.items inputs.new.items) }
    ensures useful { let builds = builds_at problem.now (slice_index order.now job) in
        IfOk result (λ useful. AreThose (is_of_use inputs.old.items job) builds builds useful.items) }
{
    let rows = problem.rows(order[job] as usize);
    let useful = useful_in(alloc, inputs, job as u32, rows)?;
    narrow_to(alloc, problem, order, job, &useful, inputs)?;
    Ok(useful)
}

/// The same, where a job was looked at.
fn narrow_again(
    alloc: Global,
    problem: &Indexed<'_>,
    order: &[u32],
    looked: &Looked,
    inputs: &mut Vec<Input>,
) -> Result<(), AllocError>
    requires known { EachIndex order.now (λ k. slice_index order.now k < length problem.now.jobs) }
    requires few { length order.now ≤ 32 }
    requires job { looked.now.0 < length order.now }
    requires rising { All (λ x. AreRising x.places) inputs.old.items }
    requires enough { IsEnough problem.now order.now inputs.old.items looked.now.0 looked.now.1.items }
    ensures { OnOk result (IsNarrowed problem.now order.now inputs.old.items inputs.new.items) }
{
    let rows = problem.rows(order[looked.0] as usize);
    let useful = useful_among(alloc, inputs, looked.0 as u32, rows, &looked.1)?;
    narrow_to(alloc, problem, order, looked.0, &useful, inputs)
}

/// Leaves to each input that names job `job` only places that came with these builds, which are those of use of this job.
fn narrow_to(
    alloc: Global,
    problem: &Indexed<'_>,
    order: &[u32],
    job: usize,
    useful: &[usize],
    inputs: &mut Vec<Input>,
) -> Result<(), AllocError>
    requires known { EachIndex order.now (λ k. slice_index order.now k < length problem.now.jobs) }
    requires few { length order.now ≤ 32 }
    requires job { job < length order.now }
    requires useful { let builds = builds_at problem.now (slice_index order.now job) in
        AreThose (is_of_use inputs.old.items job) builds builds useful.now }
    ensures { OnOk result (IsNarrowed problem.now order.now inputs.old.items inputs.new.items) }
{
    let rows = problem.rows(order[job] as usize);
    for i in 0..inputs.len() {
        if is_among(inputs[i].jobs(), job as u32) {
            let left = narrowed(alloc, &inputs[i], rows, useful, problem.top())?;
            inputs[i] = left;
        }
    }
    Ok(())
}

/// The input without its places that none of these builds has.
fn narrowed(
    alloc: Global,
    input: &Input,
    rows: &JobRows,
    useful: &[usize],
    top: u32,
) -> Result<Input, AllocError>
    requires { All (λ k. k < length rows.now.builds) useful.now }
    ensures { IfOk result (IsInputNarrowed top (map (build_in rows.now.builds) useful.now) input.now) }
{
    let marks = marks_of(alloc, input.scope(), rows, useful, top as usize + 1)?;
    let places = places_marked(alloc, &marks, input.places())?;
    let jobs = Vec::from_slice(alloc, input.jobs())?;
    Ok(Input::new(input.scope(), jobs, input.after(), places))
}

// ---- marks

/// Those of these places that have a mark.
fn places_marked(alloc: Global, marks: &[bool], places: &[u32]) -> Result<Vec<u32>, AllocError>
    ensures { IfOk result (λ left. left.items ≡ filter (λ place. slice_index_or marks.now place false) places.now) }
{
    places
        .iter()
        .copied()
        .filter(|place| is_marked(marks, *place))
        .collect(alloc)
}

/// Whether a place has a mark.
pub(crate) fn is_marked(marks: &[bool], place: u32) -> bool
    ensures { result ≡ slice_index_or marks.now place false }
{
    match marks.get(place as usize) {
        Some(mark) => *mark,
        None => false,
    }
}

/// Marks for the places below `count`: those that these builds have in a scope.
fn marks_of(
    alloc: Global,
    scope: u32,
    rows: &JobRows,
    builds: &[usize],
    count: usize,
) -> Result<Vec<bool>, AllocError>
    requires { All (λ k. k < length rows.now.builds) builds.now }
    ensures length { IfOk result (λ marks. length marks.items ≡ count) }
    ensures marked { IfOk result
        (λ marks. All (λ k. AreMarked scope marks.items (build_in rows.now.builds k).pairs) builds.now) }
{
    let mut marks = vec![in alloc; false; count]?;
    for k in builds {
        mark_pairs(&mut marks, scope, rows.pairs(*k));
    }
    Ok(marks)
}

fn mark_pairs(marks: &mut [bool], scope: u32, pairs: &[(u32, u32)])
    ensures length { length marks.new ≡ length marks.old }
    ensures kept { (n : ℕ) → IsTrue (slice_index_or marks.old n false) → IsTrue (slice_index_or marks.new n false) }
    ensures marked { AreMarked scope marks.new pairs.now }
{
    for pair in pairs {
        if pair.0 == scope {
            mark(marks, pair.1);
        }
    }
}

fn mark(marks: &mut [bool], place: u32)
    ensures length { length marks.new ≡ length marks.old }
    ensures kept { (n : ℕ) → IsTrue (slice_index_or marks.old n false) → IsTrue (slice_index_or marks.new n false) }
    ensures marked { place < length marks.new → IsTrue (slice_index_or marks.new place false) }
{
    if (place as usize) < marks.len() {
        marks[place as usize] = true;
    }
}
