//! Pipelines, as they are read.
ghost use Rattle.std.specs.Prelude.{map};
ghost use Rattle.std.proofs.Props.{props};
ghost use Rattle.ccr_pipeline.specs.JobData.{resource_data, job_data};
ghost use Rattle.ccr_pipeline.specs.Links.{HasFewMembers, HasDistinctResources, HasDistinctJobs, AreLinked};

use crate::resource::{Job, Resource};

/// A pipeline: its resources and jobs, with the text that it was read from.
///
/// Only [`crate::read`] makes one. It has at most 200 resources and 200 jobs, no two resources and no two jobs of one name,
/// and each resource and job that a plan names is there. The levels of a plan's steps, the products of their attempts, its
/// inputs and its names are within the limits that reading tests: each [`Job`] keeps this, for whoever walks its plan.
#[derive(Drop)]
pub struct Pipeline {
    pub(crate) text: Vec<u8>,
    pub(crate) unused: Vec<String>,
    pub(crate) resources: Vec<Resource>,
    pub(crate) jobs: Vec<Job>,
    // At most 200 resources.
    pub ghost few_resources: { HasFewMembers (map resource_data resources.items) },
    // At most 200 jobs.
    pub ghost few_jobs: { HasFewMembers (map job_data jobs.items) },
    // No two resources have one name.
    pub ghost distinct_resources: { HasDistinctResources (map resource_data resources.items) } by { Prim.hlevel props },
    // No two jobs have one name.
    pub ghost distinct_jobs: { HasDistinctJobs (map job_data jobs.items) } by { Prim.hlevel props },
    // Each resource that a plan's gets and puts mean is there, and each job that its gets name in `passed`.
    pub ghost linked: { AreLinked (map resource_data resources.items) (map job_data jobs.items) },
}
