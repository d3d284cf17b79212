//! Whether there is something new for a job.
ghost use Rattle.std.specs.Prelude.{◌≡◌, map};
ghost use Rattle.ccr_pipeline.specs.Inputs.{input_data};
ghost use Rattle.ccr_problem.specs.Triggers.{is_new};

use ccr_history::{History, Used};
use ccr_pipeline::Input;

/// Whether one of the inputs with trigger has a place that it had in no earlier build of the job, of whatever status
/// (Concourse: get step, `trigger`).
pub fn is_new(history: &History, job: &str, inputs: &[Input], used: &[Used]) -> bool
    ensures { result ≡ is_new job.now history.now.builds (map input_data inputs.now) used.now }
{
    for (input, used) in inputs.iter().zip(used) {
        let name = used.input.as_str();
        if input.trigger && !history.has_used(job, name, used.scope, used.place) {
            return true;
        }
    }
    false
}
