//! The command that a command line names.
ghost use Rattle.std.specs.Prelude.{◌≡◌, Some, IfOk, codes, option_map, string_bytes};
ghost use Rattle.clap.specs.Words.{first_of, found_of, rows_of};
ghost use Rattle.ccr_core.specs.Commands.{command_data, disable_version, enable_version};
ghost use Rattle.ccr_command.specs.Commands.{pin_named, place_named, run_named, form_in, versions_named, builds_named, build_named, explain_named, live_named, trace_named, command_named, command_in};

use crate::abort::text_of;
use crate::certify::certify_of;
use crate::number::{number_of, place_of};
use ccr_core::{Command, Form, Shown};
use clap::ArgMatches;
use std::alloc::{AllocError, Global};

/// A copy of the first value of an argument; None where it has none.
pub(crate) fn value_of(
    alloc: Global,
    values: &ArgMatches<'_>,
    id: &str,
) -> Result<Option<String>, AllocError>
    ensures { IfOk result (λ value. option_map string_bytes value ≡ first_of id.now (rows_of (found_of values.now))) }
{
    match values.get_str(id) {
        Some(text) => Ok(Some(String::from_str(alloc, text)?)),
        None => Ok(None),
    }
}

/// The pin of a resource; None where one of its values is absent.
fn pin_of(alloc: Global, values: &ArgMatches<'_>) -> Result<Option<Command>, AllocError>
    ensures { IfOk result (λ command. option_map command_data command
        ≡ pin_named (first_of (codes "NAME") (rows_of (found_of values.now)))
        (first_of (codes "JSON") (rows_of (found_of values.now)))) }
{
    let resource = value_of(alloc, values, "NAME")?;
    let pin = value_of(alloc, values, "JSON")?;
    match (resource, pin) {
        (Some(resource), Some(pin)) => Ok(Some(Command::PinResource(resource, pin))),
        _ => Ok(None),
    }
}

/// The command that disables a version at a place as it was typed; None where the place is out of its range.
fn disabled(resource: String, place: &str) -> Option<Command>
    ensures { option_map command_data result
        ≡ place_named disable_version (Some (string_bytes resource)) (Some place.now) }
{
    match place_of(place) {
        Some(place) => Some(Command::DisableResourceVersion(resource, place)),
        None => None,
    }
}

/// The command that disables the version of these values; None where one is absent or out of its range.
fn disable_of(alloc: Global, values: &ArgMatches<'_>) -> Result<Option<Command>, AllocError>
    ensures { IfOk result (λ command. option_map command_data command
        ≡ place_named disable_version (first_of (codes "NAME") (rows_of (found_of values.now)))
        (first_of (codes "PLACE") (rows_of (found_of values.now)))) }
{
    let resource = value_of(alloc, values, "NAME")?;
    let place = value_of(alloc, values, "PLACE")?;
    match (resource, place) {
        (Some(resource), Some(place)) => Ok(disabled(resource, place.as_str())),
        _ => Ok(None),
    }
}

/// The command that enables a version at a place as it was typed; None where the place is out of its range.
fn enabled(resource: String, place: &str) -> Option<Command>
    ensures { option_map command_data result
        ≡ place_named enable_version (Some (string_bytes resource)) (Some place.now) }
{
    match place_of(place) {
        Some(place) => Some(Command::EnableResourceVersion(resource, place)),
        None => None,
    }
}

/// The command that enables the version of these values; None where one is absent or out of its range.
fn enable_of(alloc: Global, values: &ArgMatches<'_>) -> Result<Option<Command>, AllocError>
    ensures { IfOk result (λ command. option_map command_data command
        ≡ place_named enable_version (first_of (codes "NAME") (rows_of (found_of values.now)))
        (first_of (codes "PLACE") (rows_of (found_of values.now)))) }
{
    let resource = value_of(alloc, values, "NAME")?;
    let place = value_of(alloc, values, "PLACE")?;
    match (resource, place) {
        (Some(resource), Some(place)) => Ok(enabled(resource, place.as_str())),
        _ => Ok(None),
    }
}

/// The run of so many rounds; None where their number is absent or out of its range.
fn run_of(values: &ArgMatches<'_>) -> Option<Command>
    ensures { option_map command_data result ≡ run_named (first_of (codes "rounds") (rows_of (found_of values.now))) }
{
    match values.get_str("rounds") {
        Some(text) => match number_of(text) {
            Some(rounds) => Some(Command::Run(rounds)),
            None => None,
        },
        None => None,
    }
}

/// The form in which it is to be shown: JSON if the flag was given, else lines.
fn form_of(values: &ArgMatches<'_>) -> Form
    ensures { result ≡ form_in (rows_of (found_of values.now)) }
{
    match text_of(values, "json") {
        Some(given) => {
            if given == "true" {
                Form::Json
            } else {
                Form::Lines
            }
        }
        None => Form::Lines,
    }
}

/// The job of these values, whose next build is to be explained; None where it is absent.
fn explain_of(alloc: Global, values: &ArgMatches<'_>) -> Result<Option<Command>, AllocError>
    ensures { IfOk result (λ command. option_map command_data command
        ≡ explain_named (form_in (rows_of (found_of values.now))) (first_of (codes "JOB") (rows_of (found_of values.now)))) }
{
    let form = form_of(values);
    match value_of(alloc, values, "JOB")? {
        Some(job) => Ok(Some(Command::Show(Shown::Explanation(job, form)))),
        None => Ok(None),
    }
}

/// The build of a job's name and a number as it was typed, which is to be shown; None where the number is out of its range.
fn numbered(form: Form, job: String, number: &str) -> Option<Command>
    ensures { option_map command_data result ≡ build_named form (Some (string_bytes job)) (Some number.now) }
{
    match number_of(number) {
        Some(number) => Some(Command::Show(Shown::Build(job, number, form))),
        None => None,
    }
}

/// The build of these values, which is to be shown; None where one is absent or out of its range.
fn build_of(alloc: Global, values: &ArgMatches<'_>) -> Result<Option<Command>, AllocError>
    ensures { IfOk result (λ command. option_map command_data command
        ≡ build_named (form_in (rows_of (found_of values.now))) (first_of (codes "JOB") (rows_of (found_of values.now)))
        (first_of (codes "N") (rows_of (found_of values.now)))) }
{
    let form = form_of(values);
    let job = value_of(alloc, values, "JOB")?;
    let number = value_of(alloc, values, "N")?;
    match (job, number) {
        (Some(job), Some(number)) => Ok(numbered(form, job, number.as_str())),
        _ => Ok(None),
    }
}

/// The job of these values, of which it is to be shown what is live; None where it is absent.
fn live_of(alloc: Global, values: &ArgMatches<'_>) -> Result<Option<Command>, AllocError>
    ensures { IfOk result (λ command. option_map command_data command
        ≡ live_named (form_in (rows_of (found_of values.now))) (first_of (codes "JOB") (rows_of (found_of values.now)))) }
{
    let form = form_of(values);
    match value_of(alloc, values, "JOB")? {
        Some(job) => Ok(Some(Command::Show(Shown::Live(job, form)))),
        None => Ok(None),
    }
}

/// The version of these values, whose builds are to be shown; None where one is absent.
fn trace_of(alloc: Global, values: &ArgMatches<'_>) -> Result<Option<Command>, AllocError>
    ensures { IfOk result (λ command. option_map command_data command
        ≡ trace_named (form_in (rows_of (found_of values.now))) (first_of (codes "NAME") (rows_of (found_of values.now)))
        (first_of (codes "JSON") (rows_of (found_of values.now)))) }
{
    let form = form_of(values);
    let resource = value_of(alloc, values, "NAME")?;
    let pin = value_of(alloc, values, "JSON")?;
    match (resource, pin) {
        (Some(resource), Some(pin)) => Ok(Some(Command::Show(Shown::Trace(resource, pin, form)))),
        _ => Ok(None),
    }
}

/// The resource of these values, whose versions are to be shown; None where it is absent.
fn versions_of(alloc: Global, values: &ArgMatches<'_>) -> Result<Option<Command>, AllocError>
    ensures { IfOk result (λ command. option_map command_data command
        ≡ versions_named (form_in (rows_of (found_of values.now))) (first_of (codes "NAME") (rows_of (found_of values.now)))) }
{
    let form = form_of(values);
    match value_of(alloc, values, "NAME")? {
        Some(resource) => Ok(Some(Command::Show(Shown::Versions(resource, form)))),
        None => Ok(None),
    }
}

/// The newest builds, of a job if one is named, so many as was typed, which are to be shown; None where the number is out of
/// its range.
fn counted(form: Form, job: Option<String>, count: &str) -> Option<Command>
    ensures { option_map command_data result
        ≡ builds_named form (option_map string_bytes job) (Some count.now) }
{
    match number_of(count) {
        Some(count) => Some(Command::Show(Shown::Builds(job, Some(count), form))),
        None => None,
    }
}

/// The builds of these values, which are to be shown; None where their number is out of its range.
fn builds_of(alloc: Global, values: &ArgMatches<'_>) -> Result<Option<Command>, AllocError>
    ensures { IfOk result (λ command. option_map command_data command
        ≡ builds_named (form_in (rows_of (found_of values.now))) (first_of (codes "job") (rows_of (found_of values.now)))
        (first_of (codes "count") (rows_of (found_of values.now)))) }
{
    let form = form_of(values);
    let job = value_of(alloc, values, "job")?;
    match value_of(alloc, values, "count")? {
        Some(count) => Ok(counted(form, job, count.as_str())),
        None => Ok(Some(Command::Show(Shown::Builds(job, None, form)))),
    }
}

/// The command that a word names, with its values.
fn named(alloc: Global, word: &str, values: &ArgMatches<'_>) -> Result<Option<Command>, AllocError>
    ensures { IfOk result (λ command.
        option_map command_data command ≡ command_named word.now (rows_of (found_of values.now))) }
{
    match word {
        "set-pipeline" => Ok(value_of(alloc, values, "FILE")?.map(Command::SetPipeline)),
        "check-resource" => Ok(value_of(alloc, values, "NAME")?.map(Command::CheckResource)),
        "resource-versions" => versions_of(alloc, values),
        "pin-resource" => pin_of(alloc, values),
        "unpin-resource" => Ok(value_of(alloc, values, "NAME")?.map(Command::UnpinResource)),
        "disable-resource-version" => disable_of(alloc, values),
        "enable-resource-version" => enable_of(alloc, values),
        "resolve" => Ok(
            value_of(alloc, values, "JOB")?
                .map(Shown::Proof)
                .map(Command::Show),
        ),
        "problem" => Ok(
            value_of(alloc, values, "JOB")?
                .map(Shown::Problem)
                .map(Command::Show),
        ),
        "trigger-job" => Ok(value_of(alloc, values, "JOB")?.map(Command::TriggerJob)),
        "builds" => builds_of(alloc, values),
        "run" => Ok(run_of(values)),
        "certify" => certify_of(alloc, values),
        "explain" => explain_of(alloc, values),
        "build" => build_of(alloc, values),
        "live" => live_of(alloc, values),
        "trace" => trace_of(alloc, values),
        "get-pipeline" => Ok(Some(Command::Show(Shown::Pipeline))),
        "resources" => Ok(Some(Command::Show(Shown::Resources(form_of(values))))),
        "jobs" => Ok(Some(Command::Show(Shown::Jobs(form_of(values))))),
        "red" => Ok(Some(Command::Show(Shown::Red(form_of(values))))),
        "graph" => Ok(Some(Command::Show(Shown::Graph))),
        _ => Ok(None),
    }
}

/// The command that the subcommand of the matches names, with the first value of each of its arguments. It is None where
/// there is no such command, or where a value is absent or out of its range (`run --rounds`: 1 to 1,000,000).
///
/// The only error is out of memory.
pub fn command_of(alloc: Global, matches: &ArgMatches<'_>) -> Result<Option<Command>, AllocError>
    ensures { IfOk result (λ command. option_map command_data command ≡ command_in matches.now) }
{
    match matches.subcommand() {
        Some((word, values)) => named(alloc, word, values),
        None => Ok(None),
    }
}
