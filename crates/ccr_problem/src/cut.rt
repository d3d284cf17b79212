//! Builds that are cut short.
ghost use Rattle.std.specs.Prelude.{◌≡◌, []};
ghost use Rattle.ccr_history.specs.declared.build.Status.TheVariants.{Errored};
ghost use Rattle.ccr_history.specs.Changes.{edited, ended, IsRunning};

use ccr_history::{History, Status};
use std::alloc::Global;

/// Cuts the job's build of this number short, which runs: it is errored, and has moved nothing, so no problem changes.
/// It takes no memory.
pub fn cut_short(alloc: Global, history: &mut History, job: &str, number: u32)
    requires { IsRunning job.now number history.old.builds }
    ensures { history.new ≡ edited (ended job.now number Errored []) history.old }
{
    let _ended = history.end_build_with(job, number, Status::Errored, Vec::new(alloc));
}
