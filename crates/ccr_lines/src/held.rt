//! What a core has that is named.
ghost use Rattle.std.specs.Prelude.{◌≡◌, IfOk, IfErr, OnOk, IsSome, Some, is_some, option_map, option_copied, unwrap_or};
ghost use Rattle.ccr_pipeline.specs.JobData.{resource_data, job_data};
ghost use Rattle.ccr_pipeline.specs.Pipelines.{pipeline_data};
ghost use Rattle.ccr_problem.specs.ProblemOf.{resource_of, job_of};
ghost use Rattle.ccr_core.specs.Cores.{core_data};
ghost use Rattle.ccr_core.specs.State.{no_pipeline};
ghost use Rattle.ccr_lines.specs.Needs.{IsMet, Lacks, a_pipeline, a_resource, a_job, a_known_job, pin_in};

use ccr_core::{Core, CoreFault};
use ccr_history::{HistoryFault, Pin};
use ccr_pipeline::{Job, Pipeline, Resource};
use serde_json::Value;
use std::alloc::{AllocError, Global};

/// The pipeline; or why there is none.
pub fn pipeline_held(core: &Core) -> Result<&Pipeline, CoreFault>
    ensures held { IfOk result (λ p. (core_data core.now).pipeline ≡ Some (pipeline_data p.now)) }
    ensures lacks { let c = core_data core.now in IfErr result (Lacks a_pipeline c.pipeline c.history) }
{
    match core.pipeline() {
        Some(pipeline) => Ok(pipeline),
        None => Err(CoreFault::NoPipeline),
    }
}

/// The resource of a name; or why there is none.
pub fn resource_held<'c>(core: &'c Core, name: &str) -> Result<&'c Resource, CoreFault>
    ensures held { IfOk result (λ r. resource_of name.now (unwrap_or (core_data core.now).pipeline no_pipeline).resources
        ≡ Some (resource_data r.now)) }
    ensures lacks { let c = core_data core.now in IfErr result (Lacks (a_resource name.now) c.pipeline c.history) }
{
    let Some(pipeline) = core.pipeline() else {
        return Err(CoreFault::NoPipeline);
    };
    match pipeline.resource(name) {
        Some(resource) => Ok(resource),
        None => Err(CoreFault::NoResource),
    }
}

/// The pipeline, which has a job of this name; or why there is none.
pub fn pipeline_with_job<'c>(core: &'c Core, name: &str) -> Result<&'c Pipeline, CoreFault>
    ensures held { IfOk result (λ p. (core_data core.now).pipeline ≡ Some (pipeline_data p.now)) }
    ensures there { IfOk result (λ p. IsSome (job_of name.now (pipeline_data p.now).jobs)) }
    ensures lacks { let c = core_data core.now in IfErr result (Lacks (a_job name.now) c.pipeline c.history) }
{
    let Some(pipeline) = core.pipeline() else {
        return Err(CoreFault::NoPipeline);
    };
    match pipeline.job(name) {
        Some(_) => Ok(pipeline),
        None => Err(CoreFault::NoJob),
    }
}

/// Whether there is a pipeline that has a job of this name.
fn has_job(pipeline: Option<&Pipeline>, name: &str) -> bool
    ensures { let p = unwrap_or (option_map pipeline_data (option_copied pipeline.entry)) no_pipeline in
        result ≡ is_some (job_of name.now p.jobs) }
{
    match pipeline {
        Some(pipeline) => pipeline.job(name).is_some(),
        None => false,
    }
}

/// The job of a name, with the pipeline that has it; or why there is none.
pub fn job_held<'c>(core: &'c Core, name: &str) -> Result<(&'c Pipeline, &'c Job), CoreFault>
    ensures held { IfOk result (λ r. (core_data core.now).pipeline ≡ Some (pipeline_data r.0.now)) }
    ensures there { IfOk result (λ r. job_of name.now (pipeline_data r.0.now).jobs ≡ Some (job_data r.1.now)) }
    ensures lacks { let c = core_data core.now in IfErr result (Lacks (a_job name.now) c.pipeline c.history) }
{
    let Some(pipeline) = core.pipeline() else {
        return Err(CoreFault::NoPipeline);
    };
    match pipeline.job(name) {
        Some(job) => Ok((pipeline, job)),
        None => Err(CoreFault::NoJob),
    }
}

/// Whether the pipeline has a job of this name, or the job has builds; or that neither is so.
pub(crate) fn known_job(core: &Core, name: &str) -> Result<(), CoreFault>
    ensures known { let c = core_data core.now in OnOk result (IsMet (a_known_job name.now) c.pipeline c.history) }
    ensures lacks { let c = core_data core.now in IfErr result (Lacks (a_known_job name.now) c.pipeline c.history) }
{
    if has_job(core.pipeline(), name) || core.history().count_of(name) > 0 {
        Ok(())
    } else {
        Err(CoreFault::NoJob)
    }
}

/// The pin that a JSON text spells, if it spells one. The only error is out of memory.
pub fn pin_of(alloc: Global, text: &str) -> Result<Option<Pin>, AllocError>
    ensures { IfOk result (λ pin. pin ≡ pin_in text.now) }
{
    let value = match Value::from_str(alloc, text) {
        Ok(value) => value,
        Err(error) if error.is_memory() => return Err(AllocError),
        Err(_) => return Ok(None),
    };
    match Pin::from_value(alloc, &value) {
        Ok(pin) => Ok(Some(pin)),
        Err(HistoryFault::NotObject | HistoryFault::VersionNotText) => Ok(None),
        Err(_) => Err(AllocError),
    }
}
