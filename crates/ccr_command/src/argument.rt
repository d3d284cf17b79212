//! The arguments of a command line.
ghost use Rattle.std.specs.Prelude.{◌≡◌, false};
ghost use Rattle.clap.specs.Words.{rule_of};
ghost use Rattle.ccr_command.specs.Usage.{value_rule, extra_rule, option_rule, required_rule, optional_rule, flag_rule, look_rule, as_number, as_place, as_seconds};

use clap::{Arg, ArgAction, value_parser};
use std::alloc::Global;

/// An argument that has to be there, without a name before it.
pub(crate) fn value<'a>(alloc: Global, id: &'a str, help: &'a str) -> Arg<'a>
    ensures rule { rule_of result ≡ value_rule id.now }
    ensures local { result.global ≡ false }
{
    Arg::new(alloc, id).required(true).help(help)
}

/// An argument that may be left out, without a name before it.
pub(crate) fn extra<'a>(alloc: Global, id: &'a str, help: &'a str) -> Arg<'a>
    ensures rule { rule_of result ≡ extra_rule id.now }
    ensures local { result.global ≡ false }
{
    Arg::new(alloc, id).help(help)
}

/// An option, which is named by two dashes and its id; it may be left out.
pub(crate) fn option<'a>(alloc: Global, id: &'a str, value: &'a str, help: &'a str) -> Arg<'a>
    ensures rule { rule_of result ≡ option_rule id.now }
    ensures local { result.global ≡ false }
{
    Arg::new(alloc, id).long(id).value_name(value).help(help)
}

/// An option that has to be there.
pub(crate) fn required<'a>(alloc: Global, id: &'a str, value: &'a str, help: &'a str) -> Arg<'a>
    ensures rule { rule_of result ≡ required_rule id.now }
    ensures local { result.global ≡ false }
{
    option(alloc, id, value, help).required(true)
}

/// An option that has a value where it isn't there.
pub(crate) fn optional<'a>(
    alloc: Global,
    id: &'a str,
    value: &'a str,
    default: &'a str,
    help: &'a str,
) -> Arg<'a>
    ensures rule { rule_of result ≡ optional_rule id.now default.now }
    ensures local { result.global ≡ false }
{
    option(alloc, id, value, help).default_value(default)
}

/// A flag, which is named by two dashes and its id.
pub(crate) fn flag<'a>(alloc: Global, id: &'a str, help: &'a str) -> Arg<'a>
    ensures rule { rule_of result ≡ flag_rule id.now }
    ensures local { result.global ≡ false }
{
    Arg::new(alloc, id)
        .long(id)
        .action(ArgAction::SetTrue)
        .help(help)
}

/// The flag that asks for a look.
pub(crate) fn look<'a>(alloc: Global) -> Arg<'a>
    ensures rule { rule_of result ≡ look_rule }
    ensures local { result.global ≡ false }
{
    flag(
        alloc,
        "look",
        "Shows what is stored now: takes no lock, waits for nobody and changes nothing",
    )
}

/// The same argument, of which the value is a number from 1 to 1,000,000.
pub(crate) fn as_number<'a>(argument: Arg<'a>) -> Arg<'a>
    ensures rule { rule_of result ≡ as_number (rule_of argument.entry) }
    ensures local { result.global ≡ argument.entry.global }
{
    argument.value_parser(value_parser!(u32).range(1..1_000_001))
}

/// The same argument, of which the value is a number from 1 to 100,000.
pub(crate) fn as_place<'a>(argument: Arg<'a>) -> Arg<'a>
    ensures rule { rule_of result ≡ as_place (rule_of argument.entry) }
    ensures local { result.global ≡ argument.entry.global }
{
    argument.value_parser(value_parser!(u32).range(1..100_001))
}

/// The same argument, of which the value is a number of seconds from 1 to 86,400.
pub(crate) fn as_seconds<'a>(argument: Arg<'a>) -> Arg<'a>
    ensures rule { rule_of result ≡ as_seconds (rule_of argument.entry) }
    ensures local { result.global ≡ argument.entry.global }
{
    argument.value_parser(value_parser!(u32).range(1..86_401))
}
