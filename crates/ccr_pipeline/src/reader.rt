//! Reading of pipelines and of task files.
ghost use Rattle.std.specs.Prelude.{◌≡◌, ℕ, List, [], IfOk, IfErr, codes};
ghost use Rattle.serde_json.specs.Data.{Data};
ghost use Rattle.serde_json.specs.Read.{read as json};
ghost use Rattle.serde_json.specs.View.{view};
ghost use Rattle.ccr_pipeline.specs.Breaches.{OfLimits};
ghost use Rattle.ccr_pipeline.specs.Faults.{Checks, fault_of};
ghost use Rattle.ccr_pipeline.specs.JobRules.{members, config_faults};
ghost use Rattle.ccr_pipeline.specs.Meaning.{config_from};
ghost use Rattle.ccr_pipeline.specs.Pipelines.{pipeline_data, IsPipelineOf};
ghost use Rattle.ccr_pipeline.specs.Reading.{pipeline_faults, IsTextOf, IsNoValue, Refuses, IsReading};
ghost use Rattle.ccr_pipeline.specs.Reordered.{IsReordering};
ghost use Rattle.ccr_pipeline.specs.Timeouts.{timeouts_in};
ghost use Rattle.ccr_pipeline.specs.Tree.{config_data};
ghost use Rattle.ccr_pipeline.specs.Unused.{unused_in};
ghost use Rattle.ccr_pipeline.specs.Used.{used_pipeline, bare_pipeline};

use crate::build;
use crate::cursor::Cursor;
use crate::fault::{Checked, ReadFault, Rule};
use crate::lists::{job_list, read_before};
use crate::notes::unused_of;
use crate::object::check_alone;
use crate::pipeline::Pipeline;
use crate::place::Place;
use crate::read_job::read_jobs;
use crate::schema::{NESTED, Schema};
use crate::task::TaskConfig;
use serde_json::Value;
use std::alloc::Global;

/// How many bytes a pipeline or a task file may have.
pub const MOST_BYTES: usize = 1_048_576;

/// The JSON value of a text that isn't too long.
pub fn value_of(alloc: Global, text: &[u8], path: &str) -> Checked<Value>
    ensures ok { IfOk result (λ value. IsTextOf text.now (view value)) }
    ensures err { IfErr result (λ fault. IsNoValue path.now text.now (fault_of fault)) }
{
    Place::top(path).require(alloc, text.len() <= MOST_BYTES, Rule::Length)?;
    match Value::from_slice(alloc, text) {
        Ok(value) => Ok(value),
        Err(error) if error.is_memory() => Err(ReadFault::NoMemory),
        Err(_) => Err(ReadFault::of(Rule::Json, String::from_str(alloc, path)?)),
    }
}

/// Reads a pipeline from the value of its text.
#[tactic(auto, using(crate::proofs::Faulted::first_append), unfolding(crate::specs::Reading::pipeline_faults))]
fn read_value(alloc: Global, text: &[u8], value: Value) -> Checked<Pipeline>
    ensures checked { Checks (pipeline_faults (view value)) result }
    ensures read { IfOk result (λ p. IsPipelineOf text.now (view value) (pipeline_data p)) }
{
    let (mut notes, resources) = read_before(alloc, &value)?;
    let jobs = read_jobs(alloc, &mut notes, job_list(alloc, value))?;
    let unused = unused_of(notes)?;
    Ok(Pipeline {
        text: Vec::from_slice(alloc, text)?,
        unused,
        resources,
        jobs,
    })
}

/// Reads a pipeline from JSON, as `fly get-pipeline --json` prints it (Concourse: pipeline schema).
///
/// `TooLong` above 1,048,576 bytes, `NotJson` where the bytes are no JSON value, both at `pipeline`; else the first
/// fault that is present in the value: the first broken rule of the resources, then of the jobs, keys in the order of
/// the format's table, and then the first name of a resource or a job that isn't there. `NoMemory` where memory
/// runs out.
pub fn read(alloc: Global, text: &[u8]) -> Result<Pipeline, ReadFault>
    // The text is a JSON value in which no fault is present, and the pipeline has its resources and jobs.
    ensures ok { IfOk result
        (λ p. IsReading pipeline_faults text.now (λ d. IsPipelineOf text.now d (pipeline_data p))) }

    // Without the keys that have no effect, no key would be listed but the timeouts, which a launcher is told.
    ensures timeouts_left { IfOk result
        (λ p. (d : Data) → IsTextOf text.now d → unused_in (used_pipeline d) ≡ timeouts_in d) }

    // Without these timeouts too, none would be listed.
    ensures none_left { IfOk result (λ p. (d : Data) → IsTextOf text.now d → unused_in (bare_pipeline d) ≡ []) }

    // The text is too long or no JSON value, or the fault is the first one that is present in its value.
    ensures err { IfErr result
        (λ fault. Refuses (codes "pipeline") pipeline_faults text.now (fault_of fault)) }

    // Too deep is told only where a job's plan is, and bad attempts only where those of a job break their limits.
    ensures limits { IfErr result (λ fault. (d : Data) → IsTextOf text.now d → OfLimits d (fault_of fault)) }

    // A text that differs in the order of an object's members alone, but for those of equal keys, has the same value.
    ensures order { (others : List ℕ) → IsReordering text.now others → json text.now ≡ json others }
{
    let value = value_of(alloc, text, "pipeline")?;
    read_value(alloc, text, value)
}

/// Reads a task file from JSON (Concourse: tasks).
///
/// `TooLong` above 1,048,576 bytes, `NotJson` where the bytes are no JSON value, both at `task`; else the first fault
/// that is present in the value, at a path that begins with `task`. `NoMemory` where memory runs out.
#[tactic(auto, unfolding(crate::specs::JobRules::config_faults))]
pub fn read_task(alloc: Global, text: &[u8]) -> Result<TaskConfig, ReadFault>
    // The text is a JSON value in which no fault is present, and the config has its keys.
    ensures ok { IfOk result (λ c. IsReading (config_faults (codes "task")) text.now
        (λ d. config_data c ≡ config_from d)) }

    // The text is too long or no JSON value, or the fault is the first one that is present in its value.
    ensures err { IfErr result
        (λ fault. Refuses (codes "task") (config_faults (codes "task")) text.now (fault_of fault)) }
{
    let value = value_of(alloc, text, "task")?;
    let (value, place) = (&value, Place::top("task"));
    check_alone(alloc, NESTED, Schema::Config, &Cursor { value, place })?;
    Ok(build::config(alloc, value)?)
}
