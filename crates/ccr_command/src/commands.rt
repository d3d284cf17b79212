//! The commands, with their help.
ghost use Rattle.std.specs.Prelude.{◌≡◌, ◌∷◌, [], false, IfOk, codes};
ghost use Rattle.ccr_command.specs.Usage.{IsCommand, value_rule, required_rule, flag_rule, look_rule, as_number};

use crate::argument::{as_number, flag, look, required, value};
use clap::Command;
use std::alloc::{AllocError, Global};

/// A command without arguments, with what it does in a line, and with the rest of its help.
pub(crate) fn command<'a>(
    alloc: Global,
    name: &'a str,
    about: &'a str,
    more: &'a str,
) -> Command<'a>
    ensures { IsCommand name.now [] result }
{
    Command::new(alloc, name).about(about).after_help(more)
}

/// Sets a pipeline.
pub(crate) fn set_pipeline<'a>(alloc: Global) -> Result<Command<'a>, AllocError>
    ensures { IfOk result (IsCommand (codes "set-pipeline") (value_rule (codes "FILE") ∷ [])) }
{
    let file = value(alloc, "FILE", "The file, of at most 1 MiB");
    command(
        alloc,
        "set-pipeline",
        "Sets the pipeline from a file in JSON",
        "\
Prints how many resources and jobs the pipeline has, and `unused PATH` for each key that has no effect. Versions, builds
and pins are kept.

Prints on standard error what each input has to have passed, and keys that look misspelled. The pipeline is set all the
same.

Exit statuses: 0 set; 1 refused, because the file has a fault (its path is printed) or a build is running; 2 usage;
4 the file can't be read, or the disk or the memory failed.

Example:
  ccr_run --db ci.db set-pipeline pipeline.json",
    )
    .arg(file)
}

/// The rest of the help of `validate-pipeline`.
const VALIDATE: &str = "\
Prints what each input has to have passed, keys that look misspelled, what can never happen, and each key that has no effect.
Of a file that is refused it prints all faults. It needs no database, so no option stands before it.

Exit statuses: 0 nothing is wrong; 1 the file has a fault (its path is printed), a key that looks misspelled or something that
can never happen, or with --strict a key that has no effect; 2 usage; 4 the file can't be read, or the disk or the memory failed.

Example:
  ccr_run validate-pipeline pipeline.json";

/// The command `validate-pipeline` without its arguments. No option of the program stands before it.
fn bare_validation<'a>(alloc: Global) -> Command<'a>
    ensures { IsCommand (codes "validate-pipeline") [] result }
{
    Command::new(alloc, "validate-pipeline")
        .about("Says what is in a pipeline's file, and what is wrong with it; needs no database")
        .override_usage("ccr_run validate-pipeline <FILE> [--strict]")
        .after_help(VALIDATE)
}

/// Says what is in a pipeline's file. The program does it before it reads its other words; here it has its help.
pub(crate) fn validate_pipeline<'a>(alloc: Global) -> Result<Command<'a>, AllocError>
    ensures { IfOk result (IsCommand (codes "validate-pipeline")
        (value_rule (codes "FILE") ∷ flag_rule (codes "strict") ∷ [])) }
{
    let file = value(alloc, "FILE", "The file, of at most 1 MiB");
    let strict = flag(
        alloc,
        "strict",
        "Ends with status 1 for a key that has no effect, too",
    );
    bare_validation(alloc).arg(file)?.arg(strict)
}

/// Checks a resource.
pub(crate) fn check_resource<'a>(alloc: Global) -> Result<Command<'a>, AllocError>
    ensures { IfOk result (IsCommand (codes "check-resource") (value_rule (codes "NAME") ∷ [])) }
{
    let name = value(alloc, "NAME", "The resource's name");
    command(
        alloc,
        "check-resource",
        "Looks for new versions of a resource",
        "\
Runs the program `check` of the resource's type once. Prints `check NAME: N new`, or `check NAME: refused: CAUSE` if the
check failed.

Exit statuses: 0 checked; 1 the check failed, or there is no pipeline or no such resource; 2 usage;
4 the disk or the memory failed.

Example:
  ccr_run --db ci.db check-resource repo",
    )
    .arg(name)
}

/// Pins a resource.
pub(crate) fn pin_resource<'a>(alloc: Global) -> Result<Command<'a>, AllocError>
    ensures { IfOk result
        (IsCommand (codes "pin-resource") (value_rule (codes "NAME") ∷ value_rule (codes "JSON") ∷ [])) }
{
    let name = value(alloc, "NAME", "The resource's name");
    let pin = value(alloc, "JSON", "A JSON object whose fields are all strings");
    command(
        alloc,
        "pin-resource",
        "Pins a resource to some of its versions",
        "\
Later builds take only versions that have each field of the object, with the same value. Prints `pinned NAME`.

Exit statuses: 0 pinned; 1 refused, because there is no pipeline or no such resource, or the text isn't a pin; 2 usage;
4 the disk or the memory failed.

Example:
  ccr_run --db ci.db pin-resource repo '{\"ref\":\"61cbef\"}'",
    )
    .arg(name)?
    .arg(pin)
}

/// Removes the pin of a resource.
pub(crate) fn unpin_resource<'a>(alloc: Global) -> Result<Command<'a>, AllocError>
    ensures { IfOk result (IsCommand (codes "unpin-resource") (value_rule (codes "NAME") ∷ [])) }
{
    let name = value(alloc, "NAME", "The resource's name");
    command(
        alloc,
        "unpin-resource",
        "Removes the pin of a resource",
        "\
A pin in the pipeline's file stays. Prints `unpinned NAME`, even if the resource had no pin.

Exit statuses: 0 unpinned; 1 refused, because there is no pipeline or no such resource; 2 usage;
4 the disk or the memory failed.

Example:
  ccr_run --db ci.db unpin-resource repo",
    )
    .arg(name)
}

/// Shows the choice for a job with its proof.
pub(crate) fn resolve<'a>(alloc: Global) -> Result<Command<'a>, AllocError>
    ensures { IfOk result (IsCommand (codes "resolve") (value_rule (codes "JOB") ∷ look_rule ∷ [])) }
{
    let job = value(alloc, "JOB", "The job's name");
    command(
        alloc,
        "resolve",
        "Shows which versions the next build of a job takes, with a proof",
        "\
Prints the best choice of versions, or that none satisfies, with the proof. `ccr_verify` checks the proof, given the text
that the command `problem` prints. No build is made.

Exit statuses: 0 shown; 1 refused, because there is no pipeline or no such job; 2 usage; 3 the proof would go over the
budget; 4 the disk or the memory failed.

Examples:
  ccr_run --db ci.db problem unit >unit.problem
  ccr_run --db ci.db resolve unit >unit.proof
  ccr_verify unit.problem unit.proof",
    )
    .arg(job)?
    .arg(look(alloc))
}

/// Shows the problem of a job.
pub(crate) fn problem<'a>(alloc: Global) -> Result<Command<'a>, AllocError>
    ensures { IfOk result (IsCommand (codes "problem") (value_rule (codes "JOB") ∷ look_rule ∷ [])) }
{
    let job = value(alloc, "JOB", "The job's name");
    command(
        alloc,
        "problem",
        "Shows what the next build of a job has to choose from",
        "\
Prints the places that each input may take, and the versions that passed the jobs named by the inputs.

Exit statuses: 0 shown; 1 refused, because there is no pipeline or no such job; 2 usage;
4 the disk or the memory failed.

Example:
  ccr_run --db ci.db problem unit >unit.problem",
    )
    .arg(job)?
    .arg(look(alloc))
}

/// Triggers a job.
pub(crate) fn trigger_job<'a>(alloc: Global) -> Result<Command<'a>, AllocError>
    ensures { IfOk result (IsCommand (codes "trigger-job") (value_rule (codes "JOB") ∷ [])) }
{
    let job = value(alloc, "JOB", "The job's name");
    command(
        alloc,
        "trigger-job",
        "Makes a build of a job and runs it to its end",
        "\
The build takes the best choice of versions, even if it was built before. Prints `JOB N made`, and at the end `JOB N` with
`succeeded`, `failed`, `errored` or `aborted`. If there is no build, prints why: `JOB: none satisfies`, `JOB: over budget N` or
`JOB: busy`.

Exit statuses: 0 the build succeeded; 1 it ended in another way, no choice satisfies, the job is busy, or the command is
refused; 2 usage; 3 over the budget; 4 the disk or the memory failed.

Example:
  ccr_run --db ci.db trigger-job unit",
    )
    .arg(job)
}

/// Asks that a build be aborted.
pub(crate) fn abort_build<'a>(alloc: Global) -> Result<Command<'a>, AllocError>
    ensures { IfOk result
        (IsCommand (codes "abort-build") (value_rule (codes "JOB") ∷ as_number (value_rule (codes "N")) ∷ [])) }
{
    let job = value(alloc, "JOB", "The job's name");
    let number = value(alloc, "N", "The build's number, from 1 to 1000000");
    command(
        alloc,
        "abort-build",
        "Asks that a build be aborted",
        "\
Stops one build and leaves all others alone. It works while another `ccr_run` has the database open: it makes the directory
WORK/JOB/abort-N and ends; the server looks for it at each turn of the build. Prints `abort asked: JOB N`.

With --launcher, the launcher ends the program that runs. Without one it isn't killed: the build is aborted at its next
turn, once the program has ended. What was asked then is aborted, the build's `on_abort` and `ensure` hooks run, and it
ends as `JOB N aborted`. To end a program that hangs, kill it, or start it under `timeout` to begin with.

A request that comes before its build aborts it at its first turn; for a build that has ended it does nothing. Give the
same --work as the server has.

Exit statuses: 0 asked; 1 refused, because no job can have that name; 2 usage; 4 the disk or the memory failed.

Example:
  ccr_run --db ci.db abort-build unit 7",
    )
    .arg(job)?
    .arg(as_number(number))
}

/// Runs rounds.
pub(crate) fn run<'a>(alloc: Global) -> Result<Command<'a>, AllocError>
    ensures { IfOk result
        (IsCommand (codes "run") (as_number (required_rule (codes "rounds")) ∷ [])) }
{
    let rounds = required(alloc, "rounds", "N", "How many rounds, from 1 to 1000000");
    command(
        alloc,
        "run",
        "Runs rounds, and then all builds to their end",
        "\
A round checks each resource, makes a build for each job that has something new, and advances each running build by one
step. Each line is printed as it happens.

Exit statuses: 0 done, whatever the results of checks and builds; 1 refused, because there is no pipeline; 2 usage;
4 the disk or the memory failed.

Example:
  ccr_run --db ci.db run --rounds 10",
    )
    .arg(as_number(rounds))
}
