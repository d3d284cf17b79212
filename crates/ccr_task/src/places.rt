//! Where programs lie and builds work.
ghost use Rattle.std.specs.Prelude.{◌≡◌, IfOk, string_bytes, codes};
ghost use Rattle.ccr_task.specs.Places.{places_data, below, program_path, build_folder, in_build, abort_folder};

use std::alloc::{AllocError, Global};

/// The two folders that the server is given, and the launcher, if it is given one.
#[derive(Drop)]
pub struct Places {
    /// Holds a folder for each resource type, and in it the type's programs `check`, `in` and `out`.
    pub types: String,
    /// Holds a folder for each job, and in it one for each of its builds.
    pub work: String,
    /// The program that starts all others, if there is one.
    pub launcher: Option<String>,
}

impl Places {
    /// The program of this name of a resource type: `TYPES/KIND/NAME`.
    pub(crate) fn program(
        &self,
        alloc: Global,
        kind: &str,
        name: &str,
    ) -> Result<String, AllocError>
        ensures { IfOk result (λ path. string_bytes path
            ≡ program_path (places_data self.now) kind.now name.now) }
    {
        let types = self.types.as_str();
        format!(in alloc; "{types}/{kind}/{name}")
    }

    /// A build's folder: `WORK/JOB/NUMBER`.
    pub fn build_folder(&self, alloc: Global, job: &str, number: u32) -> Result<String, AllocError>
        ensures { IfOk result (λ path. string_bytes path
            ≡ build_folder (places_data self.now) job.now number) }
    {
        let work = self.work.as_str();
        format!(in alloc; "{work}/{job}/{number}")
    }

    /// What lies in a build's folder under a name, as an artifact or a task's file: `WORK/JOB/NUMBER/NAME`.
    pub fn in_build(
        &self,
        alloc: Global,
        job: &str,
        number: u32,
        name: &str,
    ) -> Result<String, AllocError>
        ensures { IfOk result (λ path. string_bytes path
            ≡ in_build (places_data self.now) job.now number name.now) }
    {
        let work = self.work.as_str();
        format!(in alloc; "{work}/{job}/{number}/{name}")
    }

    /// The folder that asks for a build to be aborted: `WORK/JOB/abort-NUMBER`.
    pub fn abort_folder(&self, alloc: Global, job: &str, number: u32) -> Result<String, AllocError>
        ensures { IfOk result (λ path. string_bytes path
            ≡ abort_folder (places_data self.now) job.now number) }
    {
        let work = self.work.as_str();
        format!(in alloc; "{work}/{job}/abort-{number}")
    }
}
