//! What a build wants, and its answer.
ghost use Rattle.std.specs.Prelude.{◌≡◌, IfOk, OnErr, IsSome};
ghost use Rattle.ccr_task.specs.Faulty.{said_data};
ghost use Rattle.ccr_task.specs.Places.{places_data};
ghost use Rattle.ccr_core.specs.Cores.{core_data};
ghost use Rattle.ccr_core.specs.Holding.{Stands};
ghost use Rattle.ccr_core.specs.State.{State, running_at};
ghost use Rattle.ccr_serve.specs.Due.{AnswersWant, BeginsWant};

use crate::answer::answer_to;
use ccr_core::Core;
use ccr_process::Runner;
use ccr_task::{Places, Said, Shelf, step_label};
use std::alloc::{AllocError, Global};

/// Answers what a job's build of this number wants, which runs, at the step at which it waits. Gives the turn of the answer
/// with it, and what was wrong where the answer is no success.
///
/// The only error is out of memory; the program may have run then, and answers nothing.
pub(crate) fn answer_wanted<R: Runner, S: Shelf>(
    alloc: Global,
    runner: &mut R,
    shelf: &mut S,
    places: &Places,
    core: &Core,
    job: &str,
    number: u32,
) -> Result<(u64, Said), AllocError>
    requires { (s : State) → Stands (core_data core.now) s → IsSome (running_at job.now number s.running) }
    ensures ok { IfOk result (λ r. AnswersWant (places_data places.now) (core_data core.now) job.now number r.0
        (said_data r.1) (R.pairs runner.old) (R.pairs runner.new) (S.calls shelf.old) (S.calls shelf.new)) }
    ensures err { OnErr result (BeginsWant (places_data places.now) (core_data core.now) job.now number
        (R.pairs runner.old) (R.pairs runner.new) (S.calls shelf.old) (S.calls shelf.new)) }
{
    core.rules();
    let (turn, ask) = core.wants(job, number).unwrap();
    let pipeline = core.pipeline().unwrap();
    let label = step_label(core.step_of(job, number).unwrap());
    match answer_to(
        alloc, runner, shelf, places, pipeline, job, number, label, &ask,
    ) {
        Ok(said) => Ok((turn, said)),
        Err(error) => Err(error),
    }
}
