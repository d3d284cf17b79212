//! Places that a build which is made brings to indexes.
ghost use Rattle.std.specs.Prelude.{◌≡◌, ◌<◌, ◌≤◌, ℕ, [], true, length, map, slice_index_or, IfOk};
ghost use Rattle.ccr_index.specs.Index.{IndexValue};
ghost use Rattle.ccr_pipeline.specs.JobData.{job_data};
ghost use Rattle.ccr_pipeline.specs.Pipelines.{pipeline_data};
ghost use Rattle.ccr_problem.specs.Passing.{taken_by, with_one, with_taken, AreAfters};
ghost use Rattle.ccr_choice.specs.Problem.{is_after};

use crate::coming::places_taken;
use ccr_history::{History, Used};
use ccr_index::Index;
use ccr_pipeline::{Job, Pipeline};
use std::alloc::{AllocError, Global};

/// The places that a build brings to the inputs of one job: to each its own, in plan order, if it brings one.
pub(crate) type Taken = Vec<Option<u32>>;

/// What a build of the job of a name brings to one job's inputs.
fn taken_by(
    alloc: Global,
    pipeline: &Pipeline,
    history: &History,
    name: &str,
    used: &[Used],
    job: &Job,
) -> Result<Taken, AllocError>
    ensures { IfOk result (λ v. v.items
        ≡ taken_by (pipeline_data pipeline.now) history.now name.now used.now (job_data job.now)) }
{
    if job.name.as_str() == name {
        places_taken(alloc, pipeline, history, used, job)
    } else {
        Ok(Vec::new(alloc))
    }
}

/// What a build of the job of a name brings to each job of a pipeline.
pub(crate) fn taken_of(
    alloc: Global,
    pipeline: &Pipeline,
    history: &History,
    name: &str,
    used: &[Used],
) -> Result<Vec<Taken>, AllocError>
    ensures { IfOk result (λ v. map (λ x. x.items) v.items
        ≡ map (taken_by (pipeline_data pipeline.now) history.now name.now used.now)
        (pipeline_data pipeline.now).jobs) }
{
    let mut taken = Vec::new(alloc);
    for job in pipeline.jobs() {
        taken.push(taken_by(alloc, pipeline, history, name, used, job)?)?;
    }
    Ok(taken)
}

/// Keeps what a build brings to one input. It takes no memory.
fn keep_one(index: &mut Index, input: usize, place: Option<u32>)
    requires input { input < length index.old.problem.inputs }
    requires rule { is_after place ≡ true }
    ensures problem { index.new.problem ≡ with_one index.old.problem input place }
    ensures pairs { index.new.spare_pairs ≡ index.old.spare_pairs }
{
    if let Some(place) = place {
        index.set_after(input, place);
    }
}

/// Keeps what a build brings to one job's inputs. It takes no memory.
fn keep(index: &mut Index, taken: &[Option<u32>])
    requires few { length taken.now ≤ length index.old.problem.inputs }
    requires rules { AreAfters taken.now }
    ensures problem { index.new.problem ≡ with_taken index.old.problem taken.now }
    ensures pairs { index.new.spare_pairs ≡ index.old.spare_pairs }
{
    for i in 0..taken.len() {
        keep_one(index, i, taken[i]);
    }
}

/// Keeps what a build brings to each job's inputs. It takes no memory.
pub(crate) fn keep_all(indexes: &mut [Index], taken: &[Taken])
    requires many { length taken.now ≡ length indexes.old }
    requires few { (k : ℕ) (d : IndexValue) → k < length indexes.old
        → length (slice_index_or (map (λ x. x.items) taken.now) k [])
        ≤ length (slice_index_or indexes.old k d).problem.inputs }
    requires rules { (k : ℕ) → k < length indexes.old
        → AreAfters (slice_index_or (map (λ x. x.items) taken.now) k []) }
    ensures many { length indexes.new ≡ length indexes.old }
    ensures problems { (k : ℕ) (d : IndexValue) → k < length indexes.old
        → (slice_index_or indexes.new k d).problem ≡ with_taken (slice_index_or indexes.old k d).problem
        (slice_index_or (map (λ x. x.items) taken.now) k []) }
    ensures pairs { (k : ℕ) (d : IndexValue) → k < length indexes.old
        → (slice_index_or indexes.new k d).spare_pairs ≡ (slice_index_or indexes.old k d).spare_pairs }
{
    for k in 0..indexes.len() {
        keep(&mut indexes[k], &taken[k]);
    }
}
