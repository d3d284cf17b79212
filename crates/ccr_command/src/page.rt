//! The page that a command line asks for.
ghost use Rattle.std.specs.Prelude.{◌≡◌, Ok, Err, Some, None, MatchResult, option_map, codes};
ghost use Rattle.clap.specs.Words.{first_of, found_of, rows_of};
ghost use Rattle.ccr_command.specs.declared.options.OptionFault.TheVariants.{Refresh};
ghost use Rattle.ccr_command.specs.Pages.{page_data, title_named, refresh_named, page_with, page_named, page_in};

use crate::abort::text_of;
use crate::number::seconds_of;
use crate::options::OptionFault;
use clap::ArgMatches;

/// What a page is to say of itself.
#[derive(Clone, Copy, PartialEq, Eq)]
pub struct PageRequest<'a> {
    /// The heading: `Pipeline` where none is given.
    pub title: &'a str,
    /// When the page is made, in words.
    pub made: Option<&'a str>,
    /// What runs right now, in words.
    pub now: Option<&'a str>,
    /// After how many seconds a browser reads the page again, from 1 to 86,400.
    pub refresh: Option<u32>,
    /// The directory of the builds' logs, as the reader of the page sees it.
    pub logs: Option<&'a str>,
}

/// The heading of these values.
fn title_of<'a>(values: &ArgMatches<'a>) -> &'a str
    ensures { result.now ≡ title_named (first_of (codes "title") (rows_of (found_of values.now))) }
{
    match text_of(values, "title") {
        Some(title) => title,
        None => "Pipeline",
    }
}

/// The seconds of these values, if any are given. The error is that they are out of their range.
fn refresh_of(values: &ArgMatches<'_>) -> Result<Option<u32>, OptionFault>
    ensures { MatchResult result
        (λ refresh. refresh_named (first_of (codes "refresh") (rows_of (found_of values.now))) ≡ Some refresh)
        (λ fault. (refresh_named (first_of (codes "refresh") (rows_of (found_of values.now))) ≡ None) × (fault ≡ Refresh)) }
{
    match text_of(values, "refresh") {
        Some(text) => match seconds_of(text) {
            Some(seconds) => Ok(Some(seconds)),
            None => Err(OptionFault::Refresh),
        },
        None => Ok(None),
    }
}

/// The page of these values. The error is that its seconds are out of their range.
fn request_of<'a>(values: &ArgMatches<'a>) -> Result<PageRequest<'a>, OptionFault>
    ensures { MatchResult result
        (λ page. page_with (rows_of (found_of values.now))
        (refresh_named (first_of (codes "refresh") (rows_of (found_of values.now)))) ≡ Ok (Some (page_data page)))
        (λ fault. page_with (rows_of (found_of values.now))
        (refresh_named (first_of (codes "refresh") (rows_of (found_of values.now)))) ≡ Err fault) }
{
    let refresh = refresh_of(values)?;
    Ok(PageRequest {
        title: title_of(values),
        made: text_of(values, "made"),
        now: text_of(values, "now"),
        refresh,
        logs: text_of(values, "logs"),
    })
}

/// The page that a word asks for.
fn named<'a>(word: &str, values: &ArgMatches<'a>) -> Result<Option<PageRequest<'a>>, OptionFault>
    ensures { MatchResult result
        (λ page. page_named word.now (rows_of (found_of values.now)) ≡ Ok (option_map page_data page))
        (λ fault. page_named word.now (rows_of (found_of values.now)) ≡ Err fault) }
{
    match word {
        "page" => Ok(Some(request_of(values)?)),
        _ => Ok(None),
    }
}

/// The page that the subcommand of the matches asks for, by the first value of each of its options. It is None where there
/// is another subcommand, or none. The error is that its seconds are out of their range (1 to 86,400).
///
/// It is no command for a server: [`command_of`](crate::command_of) answers None for it.
pub fn page_of<'a>(matches: &ArgMatches<'a>) -> Result<Option<PageRequest<'a>>, OptionFault>
    ensures { MatchResult result (λ page. page_in matches.now ≡ Ok (option_map page_data page))
        (λ fault. page_in matches.now ≡ Err fault) }
{
    match matches.subcommand() {
        Some((word, values)) => named(word, values),
        None => Ok(None),
    }
}
