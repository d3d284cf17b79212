//! The build that a command line asks to be aborted.
ghost use Rattle.std.specs.Prelude.{◌≡◌, Some, codes, option_map};
ghost use Rattle.clap.specs.Words.{first_of, found_of, rows_of};
ghost use Rattle.ccr_command.specs.Aborts.{abort_data, build_named, abort_named, abort_in};

use crate::number::number_of;
use clap::ArgMatches;

/// A build that is to be aborted.
#[derive(Clone, Copy, PartialEq, Eq)]
pub struct AbortRequest<'a> {
    /// The name of its job, as it was typed.
    pub job: &'a str,
    /// Its number, from 1 to 1,000,000.
    pub number: u32,
}

/// The build of a job's name and a number as they were typed; None where the number is out of its range.
fn numbered<'a>(job: &'a str, number: &str) -> Option<AbortRequest<'a>>
    ensures { option_map abort_data result ≡ build_named (Some job.entry.now) (Some number.now) }
{
    match number_of(number) {
        Some(number) => Some(AbortRequest { job, number }),
        None => None,
    }
}

/// The first value of an argument; None where it has none.
pub(crate) fn text_of<'a>(values: &ArgMatches<'a>, id: &str) -> Option<&'a str>
    ensures { option_map (λ text. text.now) result ≡ first_of id.now (rows_of (found_of values.now)) }
{
    values.get_str(id)
}

/// The build of these values; None where one is absent or out of its range.
fn build_of<'a>(values: &ArgMatches<'a>) -> Option<AbortRequest<'a>>
    ensures { option_map abort_data result ≡ build_named (first_of (codes "JOB") (rows_of (found_of values.now)))
        (first_of (codes "N") (rows_of (found_of values.now))) }
{
    match (text_of(values, "JOB"), text_of(values, "N")) {
        (Some(job), Some(number)) => numbered(job, number),
        _ => None,
    }
}

/// The build that a word asks to be aborted.
fn named<'a>(word: &str, values: &ArgMatches<'a>) -> Option<AbortRequest<'a>>
    ensures { option_map abort_data result ≡ abort_named word.now (rows_of (found_of values.now)) }
{
    match word {
        "abort-build" => build_of(values),
        _ => None,
    }
}

/// The build that the subcommand of the matches asks to be aborted, by the first value of each of its arguments. It is None
/// where there is another subcommand, or none, or where a value is absent or out of its range (N: 1 to 1,000,000).
///
/// It is no command for a server: [`command_of`](crate::command_of) answers None for it.
pub fn abort_of<'a>(matches: &ArgMatches<'a>) -> Option<AbortRequest<'a>>
    ensures { option_map abort_data result ≡ abort_in matches.now }
{
    match matches.subcommand() {
        Some((word, values)) => named(word, values),
        None => None,
    }
}
