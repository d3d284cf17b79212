//! The builds of a job that are of use to inputs, by their places in the job's rows.

ghost use Rattle.std.specs.Prelude.{◌≡◌, ◌<◌, ◌≤◌, ◌&&◌, ℕ, map, length, slice_index_or, false, IsTrue, IfOk, IfSome, All};
ghost use Rattle.std.specs.List.{list_all};
ghost use Rattle.ccr_choice.specs.Ascending.{AreRising};
ghost use Rattle.ccr_choice.specs.Problem.{BuildValue};
ghost use Rattle.ccr_explain.specs.Cut.{has_place_of, is_of_use, build_in, AreThose, MarksBuilds};

use crate::cut::{inputs_naming, is_among, is_of_use};
use crate::table::{have_marked, tables_of};
use ccr_choice::Input;
use ccr_index::JobRows;
use std::alloc::{AllocError, Global};

/// The builds that are of use to the inputs as builds of job `job`, of those that the rows hold. Where one of the inputs has few
/// places, only builds with one of them are looked at, and not those of all times.
pub(crate) fn useful_in(
    alloc: Global,
    inputs: &[Input],
    job: u32,
    rows: &JobRows,
) -> Result<Vec<usize>, AllocError>
    requires { All (λ x. AreRising x.places) inputs.now }
    ensures { IfOk result (λ useful. AreThose (is_of_use inputs.now job) rows.now.builds rows.now.builds useful.items) }
{
    match input_with_few(inputs, job) {
        Some(input) => {
            let marks = marks_of_builds(alloc, rows, input.scope(), input.places())?;
            useful_marked(alloc, inputs, job, rows, &marks)
        }
        None => useful_builds(alloc, inputs, job, rows),
    }
}

/// Those of these builds that are of use to the inputs as builds of job `job`.
pub(crate) fn useful_among(
    alloc: Global,
    inputs: &[Input],
    job: u32,
    rows: &JobRows,
    builds: &[usize],
) -> Result<Vec<usize>, AllocError>
    requires rising { All (λ x. AreRising x.places) inputs.now }
    requires within { All (λ k. k < length rows.now.builds) builds.now }
    ensures { IfOk result (λ useful. AreThose (is_of_use inputs.now job) rows.now.builds
        (map (build_in rows.now.builds) builds.now) useful.items) }
{
    let naming = inputs_naming(alloc, inputs, job)?;
    let mut useful = Vec::new(alloc);
    for k in builds {
        if is_of_use(&naming, rows.pairs(*k)) {
            useful.push(*k)?;
        }
    }
    Ok(useful)
}

/// The builds that are of use, where all are looked at.
pub(crate) fn useful_builds(
    alloc: Global,
    inputs: &[Input],
    job: u32,
    rows: &JobRows,
) -> Result<Vec<usize>, AllocError>
    requires { All (λ x. AreRising x.places) inputs.now }
    ensures { IfOk result (λ useful. AreThose (is_of_use inputs.now job) rows.now.builds rows.now.builds useful.items) }
{
    // A job has many builds, and few inputs name it.
    let naming = inputs_naming(alloc, inputs, job)?;
    let tables = tables_of(alloc, &naming)?;
    let mut useful = Vec::new(alloc);
    for k in 0..rows.len() {
        if have_marked(&tables, rows.pairs(k)) {
            useful.push(k)?;
        }
    }
    Ok(useful)
}

/// How many places are few.
const FEW_PLACES: usize = 8;

/// An input that names a job and has few places: each build of the job that is of use has one of them.
fn input_with_few<'a>(inputs: &'a [Input], job: u32) -> Option<&'a Input>
    ensures { IfSome result (λ x. (b : BuildValue) → IsTrue (is_of_use inputs.now job b) → IsTrue (has_place_of x.now b.pairs)) }
{
    for input in inputs {
        if input.places().len() <= FEW_PLACES && is_among(input.jobs(), job) {
            return Some(input);
        }
    }
    None
}

/// Marks for the builds, by their places in the rows, that have one of these places in a scope.
fn marks_of_builds(
    alloc: Global,
    rows: &JobRows,
    scope: u32,
    places: &[u32],
) -> Result<Vec<bool>, AllocError>
    ensures { IfOk result (λ marks. All (λ place. MarksBuilds rows.now.builds marks.items (scope, place)) places.now) }
{
    let mut marks = vec![in alloc; false; rows.len()]?;
    for place in places {
        mark_builds(&mut marks, rows, scope, *place);
    }
    Ok(marks)
}

/// Marks the builds that have a pair.
fn mark_builds(marks: &mut Vec<bool>, rows: &JobRows, scope: u32, place: u32)
    requires { length marks.old.items ≡ length rows.now.builds }
    ensures long { length marks.new.items ≡ length marks.old.items }
    ensures kept { (n : ℕ) → IsTrue (slice_index_or marks.old.items n false) → IsTrue (slice_index_or marks.new.items n false) }
    ensures marked { MarksBuilds rows.now.builds marks.new.items (scope, place) }
{
    let mut left = rows.last_with(scope, place);
    for _ in 0..rows.len() {
        if left == 0 {
            return;
        }
        let build = rows.len() - left;
        marks[build] = true;
        left = rows.last_before(build, scope, place);
    }
}

/// The builds that are of use, where each of them has a mark.
fn useful_marked(
    alloc: Global,
    inputs: &[Input],
    job: u32,
    rows: &JobRows,
    marks: &[bool],
) -> Result<Vec<usize>, AllocError>
    requires rising { All (λ x. AreRising x.places) inputs.now }
    requires marked { (k : ℕ) → k < length rows.now.builds → IsTrue (is_of_use inputs.now job (build_in rows.now.builds k))
        → IsTrue (slice_index_or marks.now k false) }
    ensures { IfOk result (λ useful. AreThose (is_of_use inputs.now job) rows.now.builds rows.now.builds useful.items) }
{
    let naming = inputs_naming(alloc, inputs, job)?;
    let mut useful = Vec::new(alloc);
    for k in 0..rows.len() {
        if is_marked_and_of_use(&naming, rows.pairs(k), marks, k) {
            useful.push(k)?;
        }
    }
    Ok(useful)
}

/// Whether a build has a mark, and each of these inputs can have one of its places with it.
fn is_marked_and_of_use(naming: &[&Input], pairs: &[(u32, u32)], marks: &[bool], k: usize) -> bool
    requires { All (λ x. AreRising x.now.places) naming.now }
    ensures { result ≡ (slice_index_or marks.now k false && list_all (λ x. has_place_of x.now pairs.now) naming.now) }
{
    match marks.get(k) {
        Some(true) => is_of_use(naming, pairs),
        Some(false) | None => false,
    }
}
