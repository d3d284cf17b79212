//! A problem cut to some of its demands.

ghost use Rattle.std.specs.Prelude.{◌≡◌, ◌==◌, ◌<◌, ◌≤◌, ◌++◌, if◌then◌else◌, length, map, filter, All, EachIndex, slice_index, IfOk, OnOk};
ghost use Rattle.std.specs.List.{list_all, list_any, range_with_len};
ghost use Rattle.ccr_choice.specs.Ascending.{AreRising};
ghost use Rattle.ccr_choice.specs.Problem.{builds_at};
ghost use Rattle.ccr_explain.specs.Cut.{is_allowed_of, is_passed_of, jobs_left, with_job, with_jobs, place_in, top_for, cut_input, cut_from, has_place_of, names, is_of_use, builds_from, order_left, AreThose, IsEnough, IsCut};

use crate::copies::copied_builds;
use crate::demand::Demand;
use crate::guessed::guessed;
use crate::indexed::Indexed;
use crate::meets::meets_all;
use crate::narrow::{Looked, first_emptied, narrow};
use crate::useful::{useful_among, useful_builds};
use ccr_choice::possible::has_place;
use ccr_choice::{Choice, Input, JobBuilds, Problem};
use std::alloc::{AllocError, Global};

/// What becomes of a problem that is cut to demands.
#[derive(Drop)]
pub(crate) enum Cut {
    /// This problem is left.
    Left(Problem),
    /// This choice meets the demands, so that no problem was made.
    Met(Choice),
    /// An input has no place left, so that there is no choice.
    Emptied,
}

/// The problem cut to these demands. An input without the demand of its allowed places may take any place up to a top
/// one. Places that no choice can have are left out, and builds that have none of the others.
pub(crate) fn cut_to(
    alloc: Global,
    problem: &Indexed<'_>,
    demands: &[Demand],
) -> Result<Cut, AllocError>
    ensures { IfOk result (IsCut demands.now problem.now) }
{
    let order = order_left(alloc, problem, demands)?;
    let mut inputs = cut_inputs(alloc, problem.inputs(), demands, &order, problem.top())?;
    let looked = narrow(alloc, problem, &order, &mut inputs)?;
    if let Some(_) = first_emptied(&inputs) {
        return Ok(Cut::Emptied);
    }
    let choice = guessed(alloc, problem, &order, &inputs, &looked)?;
    if meets_all(problem, demands, &choice) {
        return Ok(Cut::Met(choice));
    }
    let jobs = jobs_of(alloc, problem, &inputs, &order, &looked)?;
    Ok(Cut::Left(Problem::new(inputs, jobs)))
}

// ---- the jobs that are left

fn is_passed_of(demand: &Demand, input: usize, job: usize) -> bool
    ensures { result ≡ is_passed_of input job demand.now }
{
    match demand {
        Demand::Allowed(_) => false,
        Demand::Passed(i, j) => *i == input && *j == job,
    }
}

fn is_passed_left(demands: &[Demand], input: usize, job: usize) -> bool
    ensures { result ≡ list_any (is_passed_of input job) demands.now }
{
    demands.iter().any(|d| is_passed_of(d, input, job))
}

/// The jobs among these that input `input` must still have passed.
fn jobs_left(
    alloc: Global,
    demands: &[Demand],
    input: usize,
    jobs: &[u32],
) -> Result<Vec<u32>, AllocError>
    ensures { IfOk result (λ left. left.items ≡ jobs_left demands.now input jobs.now) }
{
    jobs.iter()
        .copied()
        .filter(|j| is_passed_left(demands, input, *j as usize))
        .collect(alloc)
}

/// The jobs that inputs must still have passed, in order of first mention.
pub(crate) fn order_left(
    alloc: Global,
    problem: &Indexed<'_>,
    demands: &[Demand],
) -> Result<Vec<u32>, AllocError>
    ensures value { IfOk result (λ order. order.items ≡ order_left demands.now problem.now) }
    ensures few { IfOk result (λ order. length order.items ≤ 32) }
    ensures known { IfOk result
        (λ order. EachIndex order.items (λ k. slice_index order.items k < length problem.now.jobs)) }
{
    let inputs = problem.inputs();
    let mut order = Vec::new(alloc);
    for i in 0..inputs.len() {
        let jobs = jobs_left(alloc, demands, i, inputs[i].jobs())?;
        add_jobs(&mut order, &jobs)?;
    }
    Ok(order)
}

fn add_jobs(order: &mut Vec<u32>, jobs: &[u32]) -> Result<(), AllocError>
    ensures { OnOk result (order.new.items ≡ with_jobs order.old.items jobs.now) }
{
    for job in jobs {
        add_job(order, *job)?;
    }
    Ok(())
}

fn add_job(order: &mut Vec<u32>, job: u32) -> Result<(), AllocError>
    ensures { OnOk result (order.new.items ≡ with_job order.old.items job) }
{
    if !is_among(order, job) {
        order.push(job)?;
    }
    Ok(())
}

/// Whether a job is among these.
pub(crate) fn is_among(order: &[u32], job: u32) -> bool
    ensures { result ≡ list_any (λ m. m == job) order.now }
{
    order.iter().any(|m| *m == job)
}

/// How many jobs stand before this one.
fn place_in(order: &[u32], job: u32) -> u32
    requires { length order.now ≤ 32 }
    ensures { result ≡ place_in order.now job }
{
    let mut before = 0;
    for m in order {
        if *m == job {
            return before;
        }
        before += 1;
    }
    before
}

// ---- the cut

fn cut_inputs(
    alloc: Global,
    inputs: &[Input],
    demands: &[Demand],
    order: &[u32],
    top: u32,
) -> Result<Vec<Input>, AllocError>
    requires { length order.now ≤ 32 }
    ensures { IfOk result (λ cut. cut.items ≡ cut_from demands.now order.now top 0 inputs.now) }
{
    let mut cut = Vec::new(alloc);
    for i in 0..inputs.len() {
        cut.push(cut_input(alloc, demands, order, top, i, &inputs[i])?)?;
    }
    Ok(cut)
}

/// Input `number` with what is left of its demands.
fn cut_input(
    alloc: Global,
    demands: &[Demand],
    order: &[u32],
    top: u32,
    number: usize,
    input: &Input,
) -> Result<Input, AllocError>
    requires { length order.now ≤ 32 }
    ensures { IfOk result (λ x. x ≡ cut_input demands.now order.now top number input.now) }
{
    let jobs = jobs_left(alloc, demands, number, input.jobs())?;
    let numbers = numbers_of(alloc, order, &jobs)?;
    let places = places_left(alloc, demands, top_for(&jobs, top), number, input.places())?;
    Ok(Input::new(input.scope(), numbers, input.after(), places))
}

/// How far the places go of an input that may take any.
fn top_for(jobs: &[u32], top: u32) -> u32
    ensures { result ≡ top_for jobs.now top }
{
    match jobs {
        [] => 1,
        [_, ..] => top,
    }
}

fn is_allowed_of(demand: &Demand, input: usize) -> bool
    ensures { result ≡ is_allowed_of input demand.now }
{
    match demand {
        Demand::Allowed(i) => *i == input,
        Demand::Passed(_, _) => false,
    }
}

fn is_allowed_left(demands: &[Demand], input: usize) -> bool
    ensures { result ≡ list_any (is_allowed_of input) demands.now }
{
    demands.iter().any(|d| is_allowed_of(d, input))
}

/// The allowed places where they are still demanded, else all up to the top one.
fn places_left(
    alloc: Global,
    demands: &[Demand],
    top: u32,
    input: usize,
    places: &[u32],
) -> Result<Vec<u32>, AllocError>
    ensures { IfOk result (λ left. left.items ≡ (if list_any (is_allowed_of input) demands.now then places.now
        else range_with_len 1 top)) }
{
    if is_allowed_left(demands, input) {
        Vec::from_slice(alloc, places)
    } else {
        places_to(alloc, top)
    }
}

/// The places from 1 to `top`.
fn places_to(alloc: Global, top: u32) -> Result<Vec<u32>, AllocError>
    ensures { IfOk result (λ places. places.items ≡ range_with_len 1 top) }
{
    let mut places = Vec::with_capacity(alloc, top as usize)?;
    for k in 0..top {
        places.push(k + 1)?;
    }
    Ok(places)
}

/// These jobs by their new numbers.
fn numbers_of(alloc: Global, order: &[u32], jobs: &[u32]) -> Result<Vec<u32>, AllocError>
    requires { length order.now ≤ 32 }
    ensures { IfOk result (λ numbers. numbers.items ≡ map (place_in order.now) jobs.now) }
{
    let mut numbers = Vec::new(alloc);
    for job in jobs {
        numbers.push(place_in(order, *job))?;
    }
    Ok(numbers)
}

/// The builds of these jobs that are of use to the cut inputs.
fn jobs_of(
    alloc: Global,
    problem: &Indexed<'_>,
    inputs: &[Input],
    order: &[u32],
    looked: &[Looked],
) -> Result<Vec<JobBuilds>, AllocError>
    requires few { length order.now ≤ 32 }
    requires known { EachIndex order.now (λ k. slice_index order.now k < length problem.now.jobs) }
    requires rising { All (λ x. AreRising x.places) inputs.now }
    requires enough { All (λ s. IsEnough problem.now order.now inputs.now s.0 s.1.items) looked.now }
    ensures { IfOk result (λ jobs. jobs.items ≡ builds_from problem.now inputs.now 0 order.now) }
{
    let mut jobs = Vec::new(alloc);
    for n in 0..order.len() {
        jobs.push(builds_left(alloc, problem, inputs, order, looked, n)?)?;
    }
    Ok(jobs)
}

/// The builds of job `n` among those that are left that are of use to the cut inputs.
fn builds_left(
    alloc: Global,
    problem: &Indexed<'_>,
    inputs: &[Input],
    order: &[u32],
    looked: &[Looked],
    n: usize,
) -> Result<JobBuilds, AllocError>
    requires few { length order.now ≤ 32 }
    requires known { EachIndex order.now (λ k. slice_index order.now k < length problem.now.jobs) }
    requires within { n < length order.now }
    requires rising { All (λ x. AreRising x.places) inputs.now }
    requires enough { All (λ s. IsEnough problem.now order.now inputs.now s.0 s.1.items) looked.now }
    ensures { IfOk result
        (λ builds. builds ≡ filter (is_of_use inputs.now n) (builds_at problem.now (slice_index order.now n))) }
{
    let useful = useful_of(alloc, problem, inputs, order, looked, n)?;
    copied_builds(alloc, problem.rows(order[n] as usize), &useful)
}

/// Where these builds lie: among those that were looked at, if they were.
fn useful_of(
    alloc: Global,
    problem: &Indexed<'_>,
    inputs: &[Input],
    order: &[u32],
    looked: &[Looked],
    n: usize,
) -> Result<Vec<usize>, AllocError>
    requires few { length order.now ≤ 32 }
    requires known { EachIndex order.now (λ k. slice_index order.now k < length problem.now.jobs) }
    requires within { n < length order.now }
    requires rising { All (λ x. AreRising x.places) inputs.now }
    requires enough { All (λ s. IsEnough problem.now order.now inputs.now s.0 s.1.items) looked.now }
    ensures { let builds = builds_at problem.now (slice_index order.now n) in
        IfOk result (λ useful. AreThose (is_of_use inputs.now n) builds builds useful.items) }
{
    let rows = problem.rows(order[n] as usize);
    for one in looked {
        if one.0 == n {
            return useful_among(alloc, inputs, n as u32, rows, &one.1);
        }
    }
    useful_builds(alloc, inputs, n as u32, rows)
}

/// The inputs among these that name job `job`.
pub(crate) fn inputs_naming<'a>(
    alloc: Global,
    inputs: &'a [Input],
    job: u32,
) -> Result<Vec<&'a Input>, AllocError>
    requires { All (λ x. AreRising x.places) inputs.now }
    ensures are { IfOk result (λ naming. map (λ x. x.now) naming.items ≡ filter (names job) inputs.now) }
    ensures rising { IfOk result (λ naming. All (λ x. AreRising x.now.places) naming.items) }
{
    let mut naming = Vec::new(alloc);
    for input in inputs {
        if is_among(input.jobs(), job) {
            naming.push(input)?;
        }
    }
    Ok(naming)
}

/// Whether each of these inputs can have one of its places with a build of these pairs.
pub(crate) fn is_of_use(naming: &[&Input], pairs: &[(u32, u32)]) -> bool
    requires { All (λ x. AreRising x.now.places) naming.now }
    ensures { result ≡ list_all (λ x. has_place_of x.now pairs.now) naming.now }
{
    for input in naming {
        if !has_place_of(input, pairs) {
            return false;
        }
    }
    true
}

fn has_place_of(input: &Input, pairs: &[(u32, u32)]) -> bool
    requires { AreRising input.now.places }
    ensures { result ≡ has_place_of input.now pairs.now }
{
    pairs
        .iter()
        .any(|r| r.0 == input.scope() && is_place_of(input, r.1))
}

fn is_place_of(input: &Input, place: u32) -> bool
    requires { AreRising input.now.places }
    ensures { result ≡ list_any (λ y. y == place) input.now.places }
{
    has_place(input.places(), place)
}
