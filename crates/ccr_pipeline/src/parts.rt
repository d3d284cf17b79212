//! The parts of a pipeline.
ghost use Rattle.std.specs.Prelude.{◌≡◌, map, option_map, string_bytes};
ghost use Rattle.ccr_pipeline.specs.JobData.{resource_data, job_data};
ghost use Rattle.ccr_pipeline.specs.Named.{resource_of, job_of};
ghost use Rattle.ccr_pipeline.specs.Pipelines.{pipeline_data};

use crate::pipeline::Pipeline;
use crate::resource::{Job, Resource};

impl Pipeline {
    /// The resources, in the order of the text: at most 200, no two of one name.
    pub fn resources(&self) -> &[Resource]
        ensures { map resource_data result.now ≡ (pipeline_data self.now).resources }
    {
        &self.resources
    }

    /// The jobs, in the order of the text: at most 200, no two of one name.
    pub fn jobs(&self) -> &[Job]
        ensures { map job_data result.now ≡ (pipeline_data self.now).jobs }
    {
        &self.jobs
    }

    /// The resource of a name, if there is one.
    pub fn resource(&self, name: &str) -> Option<&Resource>
        ensures { option_map (λ r. resource_data r.now) result
            ≡ resource_of name.now (pipeline_data self.now).resources }
    {
        for resource in &self.resources {
            if name == resource.name.as_str() {
                return Some(resource);
            }
        }
        None
    }

    /// The job of a name, if there is one.
    pub fn job(&self, name: &str) -> Option<&Job>
        ensures { option_map (λ j. job_data j.now) result ≡ job_of name.now (pipeline_data self.now).jobs }
    {
        for job in &self.jobs {
            if name == job.name.as_str() {
                return Some(job);
            }
        }
        None
    }

    /// The bytes that the pipeline was read from.
    pub fn text(&self) -> &[u8]
        ensures { result.now ≡ (pipeline_data self.now).text }
    {
        &self.text
    }

    /// The paths of the keys that have no effect, ascending by bytes, each once.
    pub fn unused(&self) -> &[String]
        ensures { map string_bytes result.now ≡ (pipeline_data self.now).unused }
    {
        &self.unused
    }
}
