//! The command `certify`, of a job's next build or of one that was made.
ghost use Rattle.std.specs.Prelude.{◌≡◌, None, Some, IfOk, codes, option_map, string_bytes};
ghost use Rattle.clap.specs.Words.{first_of, found_of, rows_of};
ghost use Rattle.ccr_core.specs.Commands.{command_data};
ghost use Rattle.ccr_command.specs.Commands.{certify_named};

use crate::command::value_of;
use crate::number::number_of;
use ccr_core::{Command, Shown};
use clap::ArgMatches;
use std::alloc::{AllocError, Global};

/// The certificate of the job's build of a number as it was typed; None where the number is out of its range.
fn numbered(job: String, number: &str) -> Option<Command>
    ensures { option_map command_data result ≡ certify_named (Some (string_bytes job)) (Some number.now) }
{
    match number_of(number) {
        Some(number) => Some(Command::Show(Shown::BuildCertificate(job, number))),
        None => None,
    }
}

/// The certificate of these values: of the job's next build where no number was given; None where the job is absent, or the
/// number is out of its range.
pub(crate) fn certify_of(
    alloc: Global,
    values: &ArgMatches<'_>,
) -> Result<Option<Command>, AllocError>
    ensures { IfOk result (λ command. option_map command_data command
        ≡ certify_named (first_of (codes "JOB") (rows_of (found_of values.now)))
        (first_of (codes "N") (rows_of (found_of values.now)))) }
{
    let job = value_of(alloc, values, "JOB")?;
    let number = value_of(alloc, values, "N")?;
    match (job, number) {
        (Some(job), Some(number)) => Ok(numbered(job, number.as_str())),
        (Some(job), None) => Ok(Some(Command::Show(Shown::Certificate(job)))),
        (None, _) => Ok(None),
    }
}
