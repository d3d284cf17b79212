//! What ends and task files answer, and what is wrong where that is no success.
ghost use Rattle.std.specs.Prelude.{◌≡◌, IfOk};
ghost use Rattle.ccr_process.specs.Ends.{end_data};
ghost use Rattle.ccr_steps.specs.Asks.{ask_data, done, pushed, errored};
ghost use Rattle.ccr_task.specs.Answering.{AnswersReply, AnswersOutput, AnswersEnd, AnswersConfig, AnswersFile};
ghost use Rattle.ccr_task.specs.Faulty.{said_data, bad};

use crate::fault::ShelfFault;
use crate::said::{Said, StepFault};
use ccr_history::Version;
use ccr_pipeline::{ReadFault, read_task};
use ccr_process::Ended;
use ccr_protocol::{ReplyFault, read_in, read_out};
use ccr_steps::{Answered, Ask};
use std::alloc::{AllocError, Global};

/// The answer where something was wrong that is no failure that a program told.
fn errored(fault: StepFault) -> Said
    ensures { said_data result ≡ bad errored fault }
{
    Said::bad(Answered::Errored, fault)
}

/// What a fetch's output answers.
fn fetched(alloc: Global, output: &[u8]) -> Result<Said, AllocError>
    ensures { IfOk result (λ a. AnswersReply (λ v. done) output.now (said_data a)) }
{
    match read_in(alloc, output) {
        Ok(_) => Ok(Said::well(Answered::Done)),
        Err(ReplyFault::NoMemory) => Err(AllocError),
        Err(fault) => Ok(errored(StepFault::BadReply(fault))),
    }
}

/// What a push's output answers.
fn pushed(alloc: Global, output: &[u8]) -> Result<Said, AllocError>
    ensures { IfOk result (λ a. AnswersReply pushed output.now (said_data a)) }
{
    match read_out(alloc, output) {
        Ok(version) => Ok(Said::well(Answered::Pushed(version))),
        Err(ReplyFault::NoMemory) => Err(AllocError),
        Err(fault) => Ok(errored(StepFault::BadReply(fault))),
    }
}

/// What the output of an ask's program answers, which ended with status 0.
fn exited(alloc: Global, ask: &Ask<'_>, output: &[u8]) -> Result<Said, AllocError>
    ensures { IfOk result (λ a. AnswersOutput (ask_data ask.now) output.now (said_data a)) }
{
    match ask {
        Ask::Fetch { .. } => fetched(alloc, output),
        Ask::Push { .. } => pushed(alloc, output),
        Ask::ReadConfig { .. } => Ok(Said::well(Answered::Errored)),
        Ask::RunTask { .. } => Ok(Said::well(Answered::Done)),
    }
}

/// What the end of an ask's program answers, which was launched at this path (Concourse: implementing a resource type,
/// in and out; task step).
///
/// With status 0 a fetch is done and a push gives its version, where the reply has one and can be read; a task is done.
/// Another status is a failure; all else, an unreadable reply too, is an error. An ask for a file starts no program:
/// its end with status 0 is an error. With it comes what was wrong, where that is no success. `AllocError` where memory
/// runs out, here or in the runner.
pub fn answered_of(
    alloc: Global,
    ask: &Ask<'_>,
    program: String,
    end: Ended,
) -> Result<Said, AllocError>
    ensures { IfOk result (λ a. AnswersEnd program (ask_data ask.now) (end_data end) (said_data a)) }
{
    match end {
        Ended::Exit(0, output) => exited(alloc, ask, &output),
        Ended::Exit(status, _) => Ok(Said::bad(Answered::Failed, StepFault::Status(status))),
        Ended::Killed(signal) => Ok(errored(StepFault::Signal(signal))),
        Ended::NotStarted => Ok(errored(StepFault::NotStarted(program))),
        Ended::InputFault => Ok(errored(StepFault::InputFault)),
        Ended::ReadFault => Ok(errored(StepFault::ReadFault)),
        Ended::OutputTooLong => Ok(errored(StepFault::OutputTooLong)),
        Ended::NoMemory => Err(AllocError),
    }
}

/// What a task file's bytes answer.
fn config_in(alloc: Global, bytes: &[u8]) -> Result<Said, AllocError>
    ensures { IfOk result (λ a. AnswersConfig bytes.now (said_data a)) }
{
    match read_task(alloc, bytes) {
        Ok(config) => Ok(Said::well(Answered::Config(config))),
        Err(ReadFault::NoMemory) => Err(AllocError),
        Err(fault) => Ok(errored(StepFault::NoTask(fault))),
    }
}

/// What a shelf's answer to a task's file answers (Concourse: task step, file).
///
/// The config that the file holds; an error where there is no such file, or a fault is in it. `AllocError` where
/// memory runs out, here or for the shelf.
pub fn config_of(alloc: Global, file: Result<Vec<u8>, ShelfFault>) -> Result<Said, AllocError>
    ensures { IfOk result (λ a. AnswersFile file (said_data a)) }
{
    match file {
        Ok(bytes) => config_in(alloc, &bytes),
        Err(ShelfFault::NoMemory) => Err(AllocError),
        Err(fault) => Ok(errored(StepFault::NoFile(fault))),
    }
}
