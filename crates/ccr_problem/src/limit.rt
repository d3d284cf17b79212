//! How many builds of a job may run.
ghost use Rattle.std.specs.Prelude.{◌≡◌};
ghost use Rattle.ccr_pipeline.specs.JobData.{job_data};
ghost use Rattle.ccr_problem.specs.Limit.{is_grouped, limit_of, has_reached};

use ccr_pipeline::Job;

/// Whether the job is in a serial group.
fn is_grouped(job: &Job) -> bool
    ensures { result ≡ is_grouped (job_data job.now) }
{
    !job.serial_groups.as_slice().is_empty()
}

/// How many builds of the job may run, if there is a limit.
fn limit_of(job: &Job) -> Option<u64>
    ensures { result ≡ limit_of (job_data job.now) }
{
    if job.serial || is_grouped(job) {
        Some(1)
    } else if job.max_in_flight == 0 {
        None
    } else {
        Some(job.max_in_flight)
    }
}

/// Whether so many builds of a job are as many as may run (Concourse: jobs, `serial`, `serial_groups`, `max_in_flight`).
pub fn has_reached(job: &Job, running: usize) -> bool
    ensures { result ≡ has_reached (limit_of (job_data job.now)) running }
{
    match limit_of(job) {
        Some(most) => most <= running as u64,
        None => false,
    }
}
