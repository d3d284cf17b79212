//! What is printed of events.
ghost use Rattle.std.specs.Prelude.{◌≡◌, ◌+◌, ◌*◌, ◌<◌, ◌≤◌, ◌++◌, [], ◌∷◌, length, flat_map, codes, decimal, string_bytes, IfSome};
ghost use Rattle.std.specs.List.{sum_by};
ghost use Rattle.ccr_core.specs.Builds.{status_of};
ghost use Rattle.ccr_pipeline.specs.Pipelines.{pipeline_data};
ghost use Rattle.ccr_lines.specs.Lines.{line, check_line, refused_line, cause_words, build_line, end_word_line, status_word, job_line, job_lines, refused_job_lines, place_line, pipeline_lines};

use crate::cause::Cause;
use crate::lines::Lines;
use ccr_core::{CoreFault, Reply};
use ccr_history::{History, Status};
use ccr_pipeline::Pipeline;
use ccr_steps::Outcome;
use itoa::Buffer;

/// Writes a line of these parts, for which there is room.
fn print_line<O: Lines>(out: &mut O, parts: &[&str])
    requires { sum_by (λ part. length part.now) parts.now < O.room out.old }
    ensures told { O.written out.new
        ≡ O.written out.old ++ (flat_map (λ part. part.now) parts.now ++ 10 ∷ []) }
    ensures notes { O.notes out.new ≡ O.notes out.old }
    ensures left { O.room out.old ≤ O.room out.new + (sum_by (λ part. length part.now) parts.now + 1) }
{
    for part in parts {
        out.add(part.as_bytes());
    }
    out.add(b"\n");
}

// ---- checks

/// Writes how many of the versions that a check found are new.
pub fn print_new<O: Lines>(out: &mut O, resource: &str, new: u32)
    requires { length resource.now + 64 ≤ O.room out.old }
    ensures { O.written out.new ≡ O.written out.old ++ check_line resource.now (decimal new ∷ codes " new" ∷ []) }
{
    let mut buffer = Buffer::new();
    print_line(out, &["check ", resource, ": ", buffer.format(new), " new"]);
}

/// Writes, in one word, why a check is refused.
fn print_refusal<O: Lines>(out: &mut O, resource: &str, word: &str)
    requires room { length resource.now + 64 ≤ O.room out.old }
    requires short { length word.now ≤ 16 }
    ensures { O.written out.new ≡ O.written out.old ++ refused_line resource.now (word.now ∷ []) }
{
    print_line(out, &["check ", resource, ": ", "refused: ", word]);
}

/// Writes that a check is refused because its program ended with this status.
fn print_status<O: Lines>(out: &mut O, resource: &str, status: u8)
    requires { length resource.now + 64 ≤ O.room out.old }
    ensures { O.written out.new
        ≡ O.written out.old ++ refused_line resource.now (codes "status " ∷ decimal status ∷ []) }
{
    let mut buffer = Buffer::new();
    print_line(
        out,
        &[
            "check ",
            resource,
            ": ",
            "refused: ",
            "status ",
            buffer.format(status),
        ],
    );
}

/// Writes that a check found nothing, and why.
pub fn print_cause<O: Lines>(out: &mut O, resource: &str, cause: Cause)
    requires { length resource.now + 64 ≤ O.room out.old }
    ensures { O.written out.new ≡ O.written out.old ++ refused_line resource.now (cause_words cause) }
{
    match cause {
        Cause::RequestTooLong => print_refusal(out, resource, "request too long"),
        Cause::FolderFault => print_refusal(out, resource, "folder fault"),
        Cause::NotStarted => print_refusal(out, resource, "not started"),
        Cause::Killed => print_refusal(out, resource, "killed"),
        Cause::InputFault => print_refusal(out, resource, "input fault"),
        Cause::ReadFault => print_refusal(out, resource, "read fault"),
        Cause::OutputTooLong => print_refusal(out, resource, "output too long"),
        Cause::Status(status) => print_status(out, resource, status),
        Cause::NotJson => print_refusal(out, resource, "not JSON"),
        Cause::WrongKind => print_refusal(out, resource, "wrong kind"),
        Cause::VersionNotText => print_refusal(out, resource, "version not text"),
    }
}

/// Writes that the versions that a check found have no place.
pub fn print_full<O: Lines>(out: &mut O, resource: &str)
    requires { length resource.now + 64 ≤ O.room out.old }
    ensures { O.written out.new ≡ O.written out.old ++ refused_line resource.now (codes "table full" ∷ []) }
{
    print_refusal(out, resource, "table full");
}

// ---- builds

/// How a build stands, in a word.
pub fn word_of(status: Status) -> &'static str
    ensures { result.now ≡ status_word status }
{
    match status {
        Status::Running => "running",
        Status::Succeeded => "succeeded",
        Status::Failed => "failed",
        Status::Errored => "errored",
        Status::Aborted => "aborted",
    }
}

/// Writes a job's build with a word.
fn print_build<O: Lines>(out: &mut O, job: &str, number: u32, word: &str)
    requires { length job.now + (length word.now + 13) ≤ O.room out.old }
    ensures told { O.written out.new ≡ O.written out.old ++ build_line job.now number word.now }
    ensures notes { O.notes out.new ≡ O.notes out.old }
    ensures left { O.room out.old ≤ O.room out.new + (length job.now + (length word.now + 13)) }
{
    let mut buffer = Buffer::new();
    print_line(out, &[job, " ", buffer.format(number), " ", word]);
}

/// Writes that a build has ended, if it has.
fn print_ended<O: Lines>(out: &mut O, job: &str, number: u32, status: Status)
    requires { length job.now + 22 ≤ O.room out.old }
    ensures { O.written out.new ≡ O.written out.old ++ end_word_line job.now number status }
{
    match status {
        Status::Running => {}
        Status::Succeeded => print_build(out, job, number, "succeeded"),
        Status::Failed => print_build(out, job, number, "failed"),
        Status::Errored => print_build(out, job, number, "errored"),
        Status::Aborted => print_build(out, job, number, "aborted"),
    }
}

/// Writes that a build has ended so.
pub fn print_end<O: Lines>(out: &mut O, job: &str, number: u32, outcome: Outcome)
    requires { length job.now + 64 ≤ O.room out.old }
    ensures told { O.written out.new ≡ O.written out.old ++ build_line job.now number (status_word (status_of outcome)) }
    ensures notes { O.notes out.new ≡ O.notes out.old }
{
    match outcome {
        Outcome::Succeeded => print_build(out, job, number, "succeeded"),
        Outcome::Failed => print_build(out, job, number, "failed"),
        Outcome::Errored => print_build(out, job, number, "errored"),
        Outcome::Aborted => print_build(out, job, number, "aborted"),
    }
}

/// Writes a job with a word.
fn print_word<O: Lines>(out: &mut O, job: &str, word: &str)
    requires { length job.now + (length word.now + 3) ≤ O.room out.old }
    ensures { O.written out.new ≡ O.written out.old ++ job_line job.now (word.now ∷ []) }
{
    print_line(out, &[job, ": ", word]);
}

/// Writes that the search for a job's versions went over this budget.
fn print_budget<O: Lines>(out: &mut O, job: &str, budget: u32)
    requires { length job.now + 64 ≤ O.room out.old }
    ensures { O.written out.new
        ≡ O.written out.old ++ job_line job.now (codes "over budget " ∷ decimal budget ∷ []) }
{
    let mut buffer = Buffer::new();
    print_line(out, &[job, ": ", "over budget ", buffer.format(budget)]);
}

/// Writes that a build of a job was made, and that it has ended, if it has.
fn print_made<O: Lines>(out: &mut O, job: &str, number: u32, history: &History)
    requires { 2 * length job.now + 64 ≤ O.room out.old }
    ensures { O.written out.new ≡ O.written out.old ++ job_lines job.now (Reply.Made number) history.now }
{
    print_build(out, job, number, "made");
    if let Some(build) = history.build(job, number) {
        print_ended(out, job, number, build.status());
    }
}

/// Writes what came of a job that is scheduled or triggered.
pub fn print_job<O: Lines>(out: &mut O, job: &str, reply: Reply, history: &History)
    requires { 2 * length job.now + 64 ≤ O.room out.old }
    ensures { O.written out.new ≡ O.written out.old ++ job_lines job.now reply history.now }
{
    match reply {
        Reply::Made(number) => print_made(out, job, number, history),
        Reply::NoneSatisfies => print_word(out, job, "none satisfies"),
        Reply::OverBudget(budget) => print_budget(out, job, budget),
        Reply::Busy => print_word(out, job, "busy"),
        Reply::Set
        | Reply::New(_)
        | Reply::NotNew
        | Reply::Goes
        | Reply::Ends(_)
        | Reply::Pinned
        | Reply::Unpinned
        | Reply::Disabled
        | Reply::Enabled
        | Reply::Restarted => {}
    }
}

/// Writes that a job's schedule is refused, where its limits are why.
pub fn print_refused_job<O: Lines>(out: &mut O, job: &str, fault: CoreFault)
    requires { length job.now + 64 ≤ O.room out.old }
    ensures { O.written out.new ≡ O.written out.old ++ refused_job_lines job.now fault }
{
    match fault {
        CoreFault::TooManyOpen => print_word(out, job, "too many builds open"),
        CoreFault::TableFull => print_word(out, job, "table full"),
        CoreFault::NoPipeline
        | CoreFault::NoJob
        | CoreFault::NoResource
        | CoreFault::NoBuild
        | CoreFault::BuildsOpen
        | CoreFault::NotWanted
        | CoreFault::NoVersion
        | CoreFault::NoMemory => {}
    }
}

// ---- pins

/// Writes that a resource was pinned.
pub fn print_pinned<O: Lines>(out: &mut O, resource: &str)
    requires { length resource.now + 64 ≤ O.room out.old }
    ensures { O.written out.new ≡ O.written out.old ++ line (codes "pinned " ∷ resource.now ∷ []) }
{
    print_line(out, &["pinned ", resource]);
}

/// Writes that a resource's pin was taken away.
pub fn print_unpinned<O: Lines>(out: &mut O, resource: &str)
    requires { length resource.now + 64 ≤ O.room out.old }
    ensures { O.written out.new ≡ O.written out.old ++ line (codes "unpinned " ∷ resource.now ∷ []) }
{
    print_line(out, &["unpinned ", resource]);
}

// ---- versions

/// Writes a word with a place of a resource.
fn print_place<O: Lines>(out: &mut O, word: &str, resource: &str, place: u32)
    requires room { length resource.now + 64 ≤ O.room out.old }
    requires short { length word.now ≤ 16 }
    ensures { O.written out.new ≡ O.written out.old ++ place_line word.now resource.now place }
{
    let mut buffer = Buffer::new();
    print_line(out, &[word, resource, " ", buffer.format(place)]);
}

/// Writes that the version at a place of a resource was disabled.
pub fn print_disabled<O: Lines>(out: &mut O, resource: &str, place: u32)
    requires { length resource.now + 64 ≤ O.room out.old }
    ensures { O.written out.new ≡ O.written out.old ++ place_line (codes "disabled ") resource.now place }
{
    print_place(out, "disabled ", resource, place);
}

/// Writes that the version at a place of a resource was enabled again.
pub fn print_enabled<O: Lines>(out: &mut O, resource: &str, place: u32)
    requires { length resource.now + 64 ≤ O.room out.old }
    ensures { O.written out.new ≡ O.written out.old ++ place_line (codes "enabled ") resource.now place }
{
    print_place(out, "enabled ", resource, place);
}

// ---- pipelines

/// Writes the path of a key without effect.
fn print_unused<O: Lines>(out: &mut O, path: &str)
    requires { length path.now + 8 ≤ O.room out.old }
    ensures told { O.written out.new ≡ O.written out.old ++ line (codes "unused " ∷ path.now ∷ []) }
    ensures left { O.room out.old ≤ O.room out.new + (length path.now + 8) }
{
    print_line(out, &["unused ", path]);
}

/// Writes the paths of keys without effect.
fn print_each_unused<O: Lines>(out: &mut O, paths: &[String])
    requires { sum_by (λ path. length (string_bytes path) + 8) paths.now ≤ O.room out.old }
    ensures { O.written out.new ≡ O.written out.old
        ++ flat_map (λ path. line (codes "unused " ∷ string_bytes path ∷ [])) paths.now }
{
    for path in paths {
        print_unused(out, path.as_str());
    }
}

/// Writes that a pipeline was set, and its keys without effect.
pub fn print_pipeline<O: Lines>(out: &mut O, pipeline: &Pipeline)
    requires { sum_by (λ path. length path + 8) (pipeline_data pipeline.now).unused + 80 ≤ O.room out.old }
    ensures { O.written out.new ≡ O.written out.old ++ pipeline_lines (pipeline_data pipeline.now) }
{
    let mut first = Buffer::new();
    let mut second = Buffer::new();
    print_line(
        out,
        &[
            "pipeline set: ",
            first.format(pipeline.resources().len()),
            " resources, ",
            second.format(pipeline.jobs().len()),
            " jobs",
        ],
    );
    print_each_unused(out, pipeline.unused());
}

/// For how many bytes the lines of a pipeline need room; None where no number tells it.
pub fn pipeline_room(pipeline: &Pipeline) -> Option<usize>
    ensures { IfSome result (λ room.
        sum_by (λ path. length path + 8) (pipeline_data pipeline.now).unused + 80 ≤ room) }
{
    let mut room: usize = 80;
    for path in pipeline.unused() {
        room = room.checked_add(path.len())?.checked_add(8)?;
    }
    Some(room)
}
