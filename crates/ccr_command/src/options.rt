//! The options of a command line.
ghost use Rattle.std.specs.Prelude.{◌≡◌, Ok, Err, Some, None, MatchResult, option_map, option_and_then, codes};
ghost use Rattle.clap.specs.Words.{first_value, found_of};
ghost use Rattle.ccr_command.specs.declared.options.OptionFault.TheVariants.{Launcher};
ghost use Rattle.ccr_command.specs.Options.{options_data, is_from_the_top, from_the_top, launcher_in, options_in};

use crate::number::number_of;
use clap::ArgMatches;
use thiserror::Error;

/// The options of the program.
#[derive(Clone, Copy, PartialEq, Eq)]
pub struct Options<'a> {
    /// The database's file.
    pub database: &'a str,
    /// The folder of the programs of resource types. It begins with a slash.
    pub types: &'a str,
    /// The folder in which builds and checks run. It begins with a slash.
    pub work: &'a str,
    /// How many nodes a proof may have, from 1 to 1,000,000.
    pub budget: u32,
    /// The program that starts all others, if one is named. It begins with a slash.
    pub launcher: Option<&'a str>,
}

/// Which option is absent, or out of its range.
#[derive(Clone, Copy, Debug, PartialEq, Eq, Error)]
pub enum OptionFault {
    /// No database is named.
    #[error("--db has to name a file")]
    Database,
    /// The folder of resource types doesn't begin with a slash.
    #[error("--types has to begin with /")]
    Types,
    /// The folder of builds doesn't begin with a slash.
    #[error("--work has to begin with /")]
    Work,
    /// The budget isn't from 1 to 1,000,000.
    #[error("--budget has to be from 1 to 1000000")]
    Budget,
    /// The launcher doesn't begin with a slash.
    #[error("--launcher has to begin with /")]
    Launcher,
    /// The seconds of a page aren't from 1 to 86,400.
    #[error("--refresh has to be from 1 to 86400")]
    Refresh,
}

/// Whether a path begins with a slash.
fn is_from_the_top(path: &str) -> bool
    ensures { result ≡ is_from_the_top path.now }
{
    match path.as_bytes().first() {
        Some(first) => *first == b'/',
        None => false,
    }
}

/// The first value of an option that names a folder; None where it is absent, or doesn't begin with a slash.
fn folder_of<'a>(matches: &ArgMatches<'a>, id: &str) -> Option<&'a str>
    ensures { option_map (λ folder. folder.now) result
        ≡ option_and_then from_the_top (first_value (found_of matches.now) id.now) }
{
    match matches.get_str(id) {
        Some(folder) => {
            if is_from_the_top(folder) {
                Some(folder)
            } else {
                None
            }
        }
        None => None,
    }
}

/// The launcher of the matches, if one is named. The error is that it doesn't begin with a slash.
fn launcher_of<'a>(matches: &ArgMatches<'a>) -> Result<Option<&'a str>, OptionFault>
    ensures { MatchResult result
        (λ launcher. launcher_in (first_value (found_of matches.now) (codes "launcher"))
        ≡ Some (option_map (λ l. l.now) launcher))
        (λ fault. (launcher_in (first_value (found_of matches.now) (codes "launcher")) ≡ None) × (fault ≡ Launcher)) }
{
    match matches.get_str("launcher") {
        Some(launcher) => {
            if is_from_the_top(launcher) {
                Ok(Some(launcher))
            } else {
                Err(OptionFault::Launcher)
            }
        }
        None => Ok(None),
    }
}

/// The five options of the matches.
///
/// The error is that of the first option, in the order of [`OptionFault`], that is absent or out of its range: a folder and
/// a launcher begin with a slash, a budget is from 1 to 1,000,000.
pub fn options_of<'a>(matches: &ArgMatches<'a>) -> Result<Options<'a>, OptionFault>
    ensures { MatchResult result (λ options. options_in (found_of matches.now) ≡ Ok (options_data options))
        (λ fault. options_in (found_of matches.now) ≡ Err fault) }
{
    let database = matches.get_str("db").ok_or(OptionFault::Database)?;
    let types = folder_of(matches, "types").ok_or(OptionFault::Types)?;
    let work = folder_of(matches, "work").ok_or(OptionFault::Work)?;
    let Some(budget) = matches.get_str("budget") else {
        return Err(OptionFault::Budget);
    };
    let budget = number_of(budget).ok_or(OptionFault::Budget)?;
    let launcher = launcher_of(matches)?;
    Ok(Options {
        database,
        types,
        work,
        budget,
        launcher,
    })
}
