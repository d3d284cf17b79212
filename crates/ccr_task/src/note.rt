//! What is told on standard error of a step that isn't a success, and of a build that a restart has cut short: lines,
//! each without its line feed.
ghost use Rattle.std.specs.Prelude.{◌≡◌, IfOk, string_bytes};
ghost use Rattle.ccr_pipeline.specs.Tree.{tree_of};
ghost use Rattle.ccr_steps.specs.Asks.{ask_data};
ghost use Rattle.ccr_task.specs.Notes.{step_words, step_head, ask_head, reply_words, file_fault_words, at, task_words, fault_words, note_text, cut_text};

use crate::fault::ShelfFault;
use crate::said::StepFault;
use ccr_pipeline::{ReadFault, Step};
use ccr_protocol::ReplyFault;
use ccr_steps::Ask;
use std::alloc::{AllocError, Global};

/// A step by what the pipeline calls it.
fn step_words(alloc: Global, step: &Step) -> Result<String, AllocError>
    ensures { IfOk result (λ t. string_bytes t ≡ step_words (tree_of step.now)) }
{
    let (kind, name) = match step {
        Step::Get(get) => ("get ", get.name.as_str()),
        Step::Put(put) => ("put ", put.name.as_str()),
        Step::Task(task) => ("task ", task.name.as_str()),
        _ => ("step", ""),
    };
    format!(in alloc; "{kind}{name}")
}

/// Which step it is, of a job's build of this number: the head of what is told of it.
pub fn step_head(alloc: Global, job: &str, number: u32, step: &Step) -> Result<String, AllocError>
    ensures { IfOk result (λ t. string_bytes t ≡ step_head job.now number (tree_of step.now)) }
{
    let words = step_words(alloc, step)?;
    let words = words.as_str();
    format!(in alloc; "{job} {number}: {words}")
}

/// Which step it is, of a job's build of this number, and which file its ask names: the head of what is told of the ask.
pub fn ask_head(
    alloc: Global,
    job: &str,
    number: u32,
    step: &Step,
    ask: &Ask<'_>,
) -> Result<String, AllocError>
    ensures { IfOk result (λ t. string_bytes t ≡ ask_head job.now number (tree_of step.now) (ask_data ask.now)) }
{
    let head = step_head(alloc, job, number, step)?;
    match ask {
        Ask::ReadConfig { file } => {
            let head = head.as_str();
            format!(in alloc; "{head}: {file}")
        }
        Ask::Fetch { .. } | Ask::Push { .. } | Ask::RunTask { .. } => Ok(head),
    }
}

/// Why a program's output is no reply.
fn reply_words(fault: ReplyFault) -> &'static str
    ensures { result.now ≡ reply_words fault }
{
    match fault {
        ReplyFault::NotJson => "not JSON",
        ReplyFault::WrongKind => "wrong kind",
        ReplyFault::VersionNotText => "version not text",
        ReplyFault::MissingVersion => "missing version",
        ReplyFault::NoMemory => "out of memory",
    }
}

/// Why a task's file can't be read.
fn file_words(fault: ShelfFault) -> &'static str
    ensures { result.now ≡ file_fault_words fault }
{
    match fault {
        ShelfFault::Failed => "cannot read",
        ShelfFault::TooLong => "too long",
        ShelfFault::NoMemory => "out of memory",
    }
}

/// A fault at a path in a task's file.
fn at(alloc: Global, words: &str, path: &String) -> Result<String, AllocError>
    ensures { IfOk result (λ t. string_bytes t ≡ at words.now path.now) }
{
    let path = path.as_str();
    format!(in alloc; "{words} at {path}")
}

/// Why a task's file is no task.
fn task_words(alloc: Global, fault: &ReadFault) -> Result<String, AllocError>
    ensures { IfOk result (λ t. string_bytes t ≡ task_words fault.now) }
{
    match fault {
        ReadFault::TooLong(_) => String::from_str(alloc, "too long"),
        ReadFault::NotJson(_) => String::from_str(alloc, "not JSON"),
        ReadFault::Missing(path) => at(alloc, "missing", path),
        ReadFault::WrongKind(path) => at(alloc, "wrong kind", path),
        ReadFault::BadName(path) => at(alloc, "bad name", path),
        ReadFault::Repeated(path) => at(alloc, "repeated", path),
        ReadFault::NoStep(path) => at(alloc, "no step", path),
        ReadFault::TwoSteps(path) => at(alloc, "two steps", path),
        ReadFault::UnknownResource(path) => at(alloc, "unknown resource", path),
        ReadFault::UnknownJob(path) => at(alloc, "unknown job", path),
        ReadFault::BadAttempts(path) => at(alloc, "bad attempts", path),
        ReadFault::TooDeep(path) => at(alloc, "too deep", path),
        ReadFault::TooMany(path) => at(alloc, "too many", path),
        ReadFault::Unsupported(path) => at(alloc, "unsupported", path),
        ReadFault::NumberNotWhole(path) => at(alloc, "number not whole", path),
        ReadFault::NoMemory => String::from_str(alloc, "out of memory"),
    }
}

/// What was wrong, in words.
fn fault_words(alloc: Global, fault: &StepFault) -> Result<String, AllocError>
    ensures { IfOk result (λ t. string_bytes t ≡ fault_words fault.now) }
{
    match fault {
        StepFault::Status(status) => format!(in alloc; "exit status {status}"),
        StepFault::Signal(signal) => format!(in alloc; "signal {signal}"),
        StepFault::NotStarted(path) => format!(in alloc; "not started: {path}"),
        StepFault::InputFault => String::from_str(alloc, "input fault"),
        StepFault::ReadFault => String::from_str(alloc, "read fault"),
        StepFault::OutputTooLong => String::from_str(alloc, "output too long"),
        StepFault::RequestTooLong => String::from_str(alloc, "request too long"),
        StepFault::FolderFault => String::from_str(alloc, "folder fault"),
        StepFault::BadReply(fault) => String::from_str(alloc, reply_words(*fault)),
        StepFault::NoFile(fault) => String::from_str(alloc, file_words(*fault)),
        StepFault::NoTask(fault) => task_words(alloc, fault),
        StepFault::TableFull => String::from_str(alloc, "table full"),
        StepFault::Aborted => String::from_str(alloc, "aborted"),
    }
}

/// What is told of a step, or of its ask, at which this was wrong: `head` says which it is.
pub fn note_of(alloc: Global, head: &str, fault: &StepFault) -> Result<String, AllocError>
    ensures { IfOk result (λ t. string_bytes t ≡ note_text head.now fault.now) }
{
    let words = fault_words(alloc, fault)?;
    let words = words.as_str();
    format!(in alloc; "{head}: {words}")
}

/// What is told of a build that a restart has cut short: what it was, and how another is made.
pub fn cut_note(alloc: Global, job: &str, number: u32) -> Result<String, AllocError>
    ensures { IfOk result (λ t. string_bytes t ≡ cut_text job.now number) }
{
    format!(in alloc;
        "{job} {number}: cut short by a restart; trigger-job {job} makes another build"
    )
}
