//! When a job is busy.
ghost use Rattle.std.specs.Prelude.{◌≡◌, List, false, map, count_by};
ghost use Rattle.std.specs.List.{list_any};
ghost use Rattle.std.specs.Option.{option_map_or};
ghost use Rattle.std.specs.Str.{bytes_eq};
ghost use Rattle.ccr_pipeline.specs.JobData.{job_data};
ghost use Rattle.ccr_pipeline.specs.Names.{has_name};
ghost use Rattle.ccr_pipeline.specs.Pipelines.{pipeline_data};
ghost use Rattle.ccr_problem.specs.ProblemOf.{job_of};
ghost use Rattle.ccr_problem.specs.Limit.{limit_of, has_reached};
ghost use Rattle.ccr_core.specs.Busy.{share, is_busy};
ghost use Rattle.ccr_core.specs.Holding.{name_data};
ghost use Rattle.ccr_core.specs.Picking.{name_of, shuts_out};
ghost use Rattle.ccr_core.specs.State.{RunningData};

use ccr_pipeline::{Job, Pipeline};

/// How many of these builds are the job's.
fn count_of(names: &[(String, u32)], job: &str) -> usize
    ensures { result ≡ count_by (λ n. bytes_eq job.now n.0) (map name_data names.now) }
{
    let mut count = 0;
    for name in names {
        if job == name.0.as_str() {
            count += 1;
        }
    }
    count
}

/// Whether as many of these builds are the job's as may run.
fn has_reached(job: &Job, names: &[(String, u32)]) -> bool
    ensures { result ≡ has_reached (limit_of (job_data job.now))
        (count_by (λ n. bytes_eq (job_data job.now).name n.0) (map name_data names.now)) }
{
    ccr_problem::has_reached(job, count_of(names, job.name.as_str()))
}

/// Whether the job is in this serial group.
fn is_in_group(job: &Job, group: &str) -> bool
    ensures { result ≡ has_name (job_data job.now).serial_groups group.now }
{
    for own in &job.serial_groups {
        if group == own.as_str() {
            return true;
        }
    }
    false
}

/// Whether two jobs share a serial group.
fn share(job: &Job, other: &Job) -> bool
    ensures { result ≡ share (job_data job.now) (job_data other.now) }
{
    for group in &job.serial_groups {
        if is_in_group(other, group.as_str()) {
            return true;
        }
    }
    false
}

/// Whether the job of this name shares a serial group with a job.
fn shares_with(pipeline: &Pipeline, job: &Job, name: &str) -> bool
    ensures { result
        ≡ option_map_or (share (job_data job.now)) (job_of name.now (pipeline_data pipeline.now).jobs) false }
{
    match pipeline.job(name) {
        Some(other) => share(job, other),
        None => false,
    }
}

/// Whether one of these builds is of another job, one that shares a serial group with this job.
fn is_shut_out(pipeline: &Pipeline, job: &Job, names: &[(String, u32)]) -> bool
    ensures { result
        ≡ list_any (shuts_out (pipeline_data pipeline.now).jobs (job_data job.now)) (map name_data names.now) }
{
    for name in names {
        let other = name.0.as_str();
        if job.name.as_str() != other && shares_with(pipeline, job, other) {
            return true;
        }
    }
    false
}

/// Whether a job is busy where builds of these names run: as many of its builds as may, or a build of another job that
/// shares a serial group with it (Concourse: jobs, `serial`, `serial_groups`, `max_in_flight`).
pub(crate) fn is_busy(pipeline: &Pipeline, job: &Job, names: &[(String, u32)]) -> bool
    ensures { (running : List RunningData) → map name_of running ≡ map name_data names.now
        → is_busy (pipeline_data pipeline.now).jobs (job_data job.now) running ≡ result }
{
    has_reached(job, names) || is_shut_out(pipeline, job, names)
}
