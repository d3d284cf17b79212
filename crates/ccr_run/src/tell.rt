//! What goes to standard error, and the status that the program ends with.
ghost use Rattle.std.specs.Prelude.{◌≡◌, None, false, map, not, option_map, string_bytes};
ghost use Rattle.std.specs.Process.{exit_status};
ghost use Rattle.ccr_run.specs.Explained.{told_data, nothing_told, shows_proof, is_over_budget, budget_over, refusal_in, explained};
ghost use Rattle.ccr_run.specs.Explained.{budget_lines, refusal_lines, hint_lines, unprinted_lines, TellsLines};
ghost use Rattle.ccr_run.specs.Hints.{hint_of};
ghost use Rattle.ccr_run.specs.Obeyed.{IsTold};
ghost use Rattle.ccr_run.specs.Statuses as spec;
ghost use Rattle.ccr_run.specs.Writers.{GetsLines};

use crate::failure::Failure;
use crate::found::VALIDATE;
use crate::hint::hint_of;
use crate::order::{Misuse, Order};
use crate::refusal::refusal_of;
use crate::run::Outcome;
use crate::telling::Telling;
use crate::typed::has_word;
use ccr_core::{Command, Shown};
use clap::Error as LineError;
use clap::error::ErrorKind;
use std::io;
use std::io::Write;
use std::process::ExitCode;

/// The status of an end.
fn status_of(end: &Result<u8, Failure>) -> u8
    ensures { result ≡ spec.status_of end.now }
{
    match end {
        Ok(status) => *status,
        Err(failure) => refusal_of(failure).status,
    }
}

/// Whether a command is to show a proof.
fn shows_proof(command: &Command) -> bool
    ensures { result ≡ shows_proof command.now }
{
    match command {
        Command::Show(what) => matches!(what, Shown::Proof(_) | Shown::Certificate(_)),
        _ => false,
    }
}

/// Whether a command that is to show a proof has none, since its search would go over the budget.
fn is_over_budget(command: &Command, end: &Result<u8, Failure>) -> bool
    ensures { result ≡ is_over_budget command.now end.now }
{
    match end {
        Ok(status) => *status == 3 && shows_proof(command),
        Err(_) => false,
    }
}

/// Tells the budget of a command that is to show a proof, and goes over it.
fn tell_budget<E: Write>(telling: &mut Telling<'_, E>, order: &Order<'_>, end: &Result<u8, Failure>)
    requires { (told_data telling.old).budget ≡ None }
    ensures told { told_data telling.new ≡ record (told_data telling.old) { budget = budget_over order.now end.now } }
    ensures wrote { GetsLines (budget_lines (budget_over order.now end.now)) telling.old.errors telling.new.errors }
{
    if is_over_budget(&order.command, end) {
        telling.over_budget(order.options.budget);
    }
}

/// Tells why a command is refused.
fn tell_refusal<E: Write>(telling: &mut Telling<'_, E>, end: &Result<u8, Failure>)
    requires { (told_data telling.old).refusal ≡ None }
    ensures told { told_data telling.new ≡ record (told_data telling.old) { refusal = refusal_in end.now } }
    ensures wrote { GetsLines (refusal_lines (refusal_in end.now)) telling.old.errors telling.new.errors }
{
    match end {
        Ok(_) => {}
        Err(failure) => telling.refusal(refusal_of(failure)),
    }
}

/// Tells what to do about how a command ended over the database at a path, where that helps.
fn tell_hint<'e, E: Write>(telling: &mut Telling<'e, E>, path: &'e str, end: &Result<u8, Failure>)
    requires { (told_data telling.old).hint ≡ None }
    ensures told { told_data telling.new ≡ record (told_data telling.old) { hint = hint_of path.now end.now } }
    ensures wrote { GetsLines (hint_lines (hint_of path.now end.now)) telling.old.errors telling.new.errors }
{
    match hint_of(path, end) {
        Some(hint) => telling.hint(hint),
        None => {}
    }
}

/// Tells that not all lines went out, where so.
pub fn tell_unprinted<E: Write>(telling: &mut Telling<'_, E>, is_printed: bool)
    requires { (told_data telling.old).is_unprinted ≡ false }
    ensures told { told_data telling.new ≡ record (told_data telling.old) { is_unprinted = not is_printed } }
    ensures wrote { GetsLines (unprinted_lines (not is_printed)) telling.old.errors telling.new.errors }
{
    if !is_printed {
        telling.unprinted();
    }
}

/// Tells what came of an order, and gives the status: the command's own, or that of its refusal; 4 where not all lines went
/// out. An error of standard error changes nothing. What is found in a pipeline that was set may be told before.
pub fn tell<'e, E: Write>(telling: &mut Telling<'e, E>, order: &Order<'e>, outcome: &Outcome) -> u8
    requires { told_data telling.old ≡ record nothing_told { gates = (told_data telling.old).gates } }
    ensures status { result ≡ spec.exit_status_of outcome.now }
    ensures told { told_data telling.new
        ≡ record (explained order.now outcome.now) { gates = (told_data telling.old).gates } }
    ensures wrote { TellsLines (explained order.now outcome.now) telling.old.errors telling.new.errors }
{
    tell_budget(telling, order, &outcome.end);
    tell_refusal(telling, &outcome.end);
    tell_hint(telling, order.options.database, &outcome.end);
    tell_unprinted(telling, outcome.is_printed);
    if outcome.is_printed {
        status_of(&outcome.end)
    } else {
        4
    }
}

/// About a word that isn't known.
const UNKNOWN_WORD: &str =
    "hint: names stand without -j or -r, but for builds --job JOB; --db, --types, --work, --launcher and --budget stand before the command; ccr_run COMMAND --help has what stands behind it";

/// About a command that isn't known.
const UNKNOWN_COMMAND: &str =
    "hint: ccr_run --help has the commands; ccr (examples/operating) has more, as status, log and watch";

/// Whether a command is named by which a version is named by its place.
fn names_place(words: &[String]) -> bool
    ensures { result ≡ spec.names_place (map string_bytes words.now) }
{
    has_word(words, "disable-resource-version") || has_word(words, "enable-resource-version")
}

/// Whether a command is named by which a build is named by its number.
fn names_build(words: &[String]) -> bool
    ensures { result ≡ spec.names_build (map string_bytes words.now) }
{
    has_word(words, "build") || has_word(words, "abort-build") || has_word(words, "certify")
}

/// About a value that isn't as it should be, where no range says it.
fn wrong_value(words: &[String]) -> Option<&'static str>
    ensures { option_map (λ hint. hint.now) result ≡ spec.wrong_value (map string_bytes words.now) }
{
    if names_place(words) {
        Some(
            "hint: a version is named by its place, which is a number: resource-versions NAME shows the places",
        )
    } else if names_build(words) {
        Some("hint: a build is named by its job and its number, as builds shows them")
    } else {
        None
    }
}

/// What to do about words that are no command line, by the kind of what is wrong with them, where that helps.
fn remedy_of(words: &[String], kind: ErrorKind) -> Option<&'static str>
    ensures { option_map (λ hint. hint.now) result ≡ spec.remedy_of (map string_bytes words.now) kind }
{
    match kind {
        ErrorKind::UnknownArgument => Some(UNKNOWN_WORD),
        ErrorKind::InvalidSubcommand => Some(UNKNOWN_COMMAND),
        ErrorKind::ValueValidation => wrong_value(words),
        _ => None,
    }
}

/// Prints what `clap` says is wrong, or the help that is asked for; and below it what to do.
fn print_line<R: Print + Eprint>(rt: &R, words: &[String], error: &LineError) -> io::Result<()> {
    error.print(rt)?;
    match remedy_of(words, error.kind()) {
        Some(remedy) => eprintln!(rt; "{remedy}"),
        None => Ok(()),
    }
}

/// About words that name no command, or `validate-pipeline` behind options.
fn no_command(words: &[String]) -> &'static str
    ensures { result.now ≡ spec.no_command (map string_bytes words.now) }
{
    if has_word(words, VALIDATE) {
        "error: validate-pipeline needs no database, so no option stands before it: ccr_run validate-pipeline FILE \
         [--strict]"
    } else {
        "error: no command\n\nFor more information, try '--help'."
    }
}

/// Prints what `clap` answers: help to standard output, and a misuse to standard error.
fn print_misuse<R: Print + Eprint>(rt: &R, words: &[String], misuse: &Misuse) -> io::Result<()> {
    match misuse {
        Misuse::NotText => eprintln!(rt; "error: a word isn't UTF-8"),
        Misuse::Line(error) => print_line(rt, words, error),
        Misuse::Option(fault) => {
            eprintln!(rt; "error: {fault}\n\nFor more information, try '--help'.")
        }
        Misuse::NoCommand => eprintln!(rt; "{}", no_command(words)),
        Misuse::Validation => eprintln!(rt; "usage: ccr_run {VALIDATE} FILE [--strict]"),
        Misuse::NoMemory => eprintln!(rt; "refused: out of memory"),
    }
}

/// The status of a misuse.
fn misuse_status(misuse: &Misuse) -> u8
    ensures { result ≡ spec.misuse_status misuse.now }
{
    match misuse {
        Misuse::Line(error) if !error.use_stderr() => 0,
        Misuse::NoMemory => 4,
        _ => 2,
    }
}

/// Tells why these words order nothing, or gives the help that they ask for. The exit status is 0 for help, 4 out of
/// memory or where it isn't printed, and else 2.
pub fn tell_misuse<R: Print + Eprint>(rt: &R, words: &[String], misuse: &Misuse) -> ExitCode
    ensures { IsTold misuse.now (exit_status result) }
{
    match print_misuse(rt, words, misuse) {
        Ok(()) => ExitCode::from(misuse_status(misuse)),
        Err(_) => ExitCode::from(4),
    }
}
