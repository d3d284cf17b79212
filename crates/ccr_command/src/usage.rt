//! The command line, with its help.
ghost use Rattle.std.specs.Prelude.{◌≡◌, IfOk};
ghost use Rattle.clap.specs.Words.{app_of};
ghost use Rattle.ccr_command.specs.Usage.{program, options_line, with_all, resource_commands, job_commands, standing_commands, release_commands, choice_commands, line};

use crate::argument::{as_number, option, optional, required};
use crate::commands::{
    abort_build, check_resource, pin_resource, problem, resolve, run, set_pipeline, trigger_job,
    unpin_resource, validate_pipeline,
};
use crate::reading::{
    build, builds, certify, explain, get_pipeline, graph, jobs, live, page, red, resource_versions,
    resources, trace,
};
use crate::versions::{disable_resource_version, enable_resource_version};
use clap::Command;
use std::alloc::{AllocError, Global};

/// What the program does, at the top of its help.
const ABOUT: &str =
    "A pipeline server: checks resources, runs builds of jobs, and keeps both in a database";

/// The end of the program's help.
const MORE: &str = "\
Options come before the command, its arguments after it; ccr_run help COMMAND describes them.
Exit statuses: 0 done; 1 refused, or not succeeded; 2 usage; 3 over the budget; 4 the disk or the memory failed.
What happens is printed on standard output, line by line; a refusal goes to standard error.
A command that only shows something takes --look: it shows what is stored now, also while another ccr_run has the
database open, and changes nothing. A copy of FILE without FILE-wal beside it shows an older state.

Examples:
  ccr_run --db ci.db set-pipeline pipeline.json
  ccr_run --db ci.db run --rounds 10
  ccr_run --db ci.db builds";

/// The program, to which a command has to be given.
fn program<'a>(alloc: Global) -> Command<'a>
    ensures { app_of result ≡ program }
{
    Command::new(alloc, "ccr_run")
        .about(ABOUT)
        .after_help(MORE)
        .subcommand_required(true)
}

/// The program with its options.
fn with_options<'a>(alloc: Global) -> Result<Command<'a>, AllocError>
    ensures { IfOk result (λ made. app_of made ≡ options_line) }
{
    let database = required(
        alloc,
        "db",
        "FILE",
        "The database; created if it does not exist",
    );
    let types = optional(
        alloc,
        "types",
        "DIR",
        "/usr/local/lib/ccr/types",
        "The directory that has a directory of programs for each resource type; begins with /",
    );
    let work = optional(
        alloc,
        "work",
        "DIR",
        "/var/tmp/ccr",
        "The directory in which checks and builds run; begins with /",
    );
    let budget = optional(
        alloc,
        "budget",
        "N",
        "100000",
        "The most nodes that the proof of a choice may have, from 1 to 1000000",
    );
    let launcher = option(
        alloc,
        "launcher",
        "PROGRAM",
        "A program that starts the programs of checks and builds, and is told which each is; begins with /",
    );
    program(alloc)
        .arg(database)?
        .arg(types)?
        .arg(work)?
        .arg(as_number(budget))?
        .arg(launcher)
}

/// The same with the commands for the pipeline and its resources.
fn with_resource_commands<'a>(alloc: Global, line: Command<'a>) -> Result<Command<'a>, AllocError>
    ensures { IfOk result (λ made. app_of made ≡ with_all (app_of line.entry) resource_commands) }
{
    let line = line.subcommand(set_pipeline(alloc)?)?;
    let line = line.subcommand(validate_pipeline(alloc)?)?;
    let line = line.subcommand(check_resource(alloc)?)?;
    let line = line.subcommand(resource_versions(alloc)?)?;
    let line = line.subcommand(pin_resource(alloc)?)?;
    let line = line.subcommand(unpin_resource(alloc)?)?;
    let line = line.subcommand(disable_resource_version(alloc)?)?;
    line.subcommand(enable_resource_version(alloc)?)
}

/// The same with the commands for jobs and builds.
fn with_job_commands<'a>(alloc: Global, line: Command<'a>) -> Result<Command<'a>, AllocError>
    ensures { IfOk result (λ made. app_of made ≡ with_all (app_of line.entry) job_commands) }
{
    let line = line.subcommand(resolve(alloc)?)?;
    let line = line.subcommand(problem(alloc)?)?;
    let line = line.subcommand(trigger_job(alloc)?)?;
    let line = line.subcommand(abort_build(alloc)?)?;
    let line = line.subcommand(builds(alloc)?)?;
    line.subcommand(run(alloc)?)
}

/// The same with the commands that show the pipeline, and how its resources and jobs stand.
fn with_standing_commands<'a>(alloc: Global, line: Command<'a>) -> Result<Command<'a>, AllocError>
    ensures { IfOk result (λ made. app_of made ≡ with_all (app_of line.entry) standing_commands) }
{
    let line = line.subcommand(get_pipeline(alloc)?)?;
    let line = line.subcommand(resources(alloc)?)?;
    let line = line.subcommand(jobs(alloc)?)?;
    let line = line.subcommand(red(alloc)?)?;
    let line = line.subcommand(graph(alloc)?)?;
    line.subcommand(page(alloc)?)
}

/// The same with the commands that show what builds took.
fn with_release_commands<'a>(alloc: Global, line: Command<'a>) -> Result<Command<'a>, AllocError>
    ensures { IfOk result (λ made. app_of made ≡ with_all (app_of line.entry) release_commands) }
{
    let line = line.subcommand(build(alloc)?)?;
    let line = line.subcommand(live(alloc)?)?;
    line.subcommand(trace(alloc)?)
}

/// The same with the commands that show what a job's next build would take: so that it can be checked, and why.
fn with_choice_commands<'a>(alloc: Global, line: Command<'a>) -> Result<Command<'a>, AllocError>
    ensures { IfOk result (λ made. app_of made ≡ with_all (app_of line.entry) choice_commands) }
{
    let line = line.subcommand(certify(alloc)?)?;
    line.subcommand(explain(alloc)?)
}

/// The program's command line: `ccr_run --db FILE [--types DIR] [--work DIR] [--budget N] [--launcher PROGRAM] COMMAND`,
/// with the help of the program and of each of its commands.
///
/// The only error is out of memory.
pub fn command_line<'a>(alloc: Global) -> Result<Command<'a>, AllocError>
    ensures { IfOk result (λ made. app_of made ≡ line) }
{
    let line = with_options(alloc)?;
    let line = with_resource_commands(alloc, line)?;
    let line = with_job_commands(alloc, line)?;
    let line = with_standing_commands(alloc, line)?;
    let line = with_release_commands(alloc, line)?;
    with_choice_commands(alloc, line)
}
