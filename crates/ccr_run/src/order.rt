//! What the program's words order.
ghost use Rattle.std.specs.Prelude.{◌≡◌, ◌≢◌, ◌⊎◌, ◌≤◌, IfOk, IfErr, map, string_bytes};
ghost use Rattle.clap.specs.Values.{kind_of};
ghost use Rattle.clap.specs.declared.error.kind.ErrorKind.TheVariants.{OutOfMemory};
ghost use Rattle.ccr_proof.specs.declared.proof.TheConstants.{MOST_NODES};
ghost use Rattle.ccr_core.specs.declared.command.Command.TheVariants.{Show};
ghost use Rattle.ccr_core.specs.declared.shown.Shown.TheVariants.{Pipeline};
ghost use Rattle.ccr_run.specs.Orders.{budget_of, Becomes, IsMisused, Orders};
ghost use Rattle.ccr_run.specs.declared.order.Misuse.TheVariants.{Line, NoMemory};

use ccr_command::{
    AbortRequest, OptionFault, Options, PageRequest, abort_of, asks_look, command_line, command_of,
    options_of, page_of,
};
use ccr_core::{Command, Shown};
use clap::Error as LineError;
use clap::error::ErrorKind;
use std::alloc::{AllocError, AllocFailed, Global};

/// A command, with the options that the program was given.
#[derive(Drop)]
pub struct Order<'a> {
    /// The options.
    pub options: Options<'a>,
    /// The command.
    pub command: Command,
}

/// A build that is to be aborted, with the options that the program was given.
#[derive(Drop)]
pub struct AbortOrder<'a> {
    /// The options.
    pub options: Options<'a>,
    /// The build.
    pub build: AbortRequest<'a>,
}

/// What is to be looked at, with the options that the program was given.
#[derive(Drop)]
pub struct LookOrder<'a> {
    /// The options.
    pub options: Options<'a>,
    /// What is shown.
    pub what: Shown,
}

impl<'a> LookOrder<'a> {
    /// The command that would show it.
    pub fn into_order(self) -> Order<'a>
        ensures options { result.options ≡ self.entry.options }
        ensures command { result.command ≡ Show self.entry.what }
    {
        Order {
            options: self.options,
            command: Command::Show(self.what),
        }
    }
}

/// What a page is to say of itself, with the options that the program was given.
#[derive(Drop)]
pub struct PageOrder<'a> {
    /// The options.
    pub options: Options<'a>,
    /// What the page is to say of itself.
    pub page: PageRequest<'a>,
}

impl<'a> PageOrder<'a> {
    /// The look at the pipeline that tells what a page tells.
    pub fn into_look(self) -> Order<'a>
        ensures options { result.options ≡ self.entry.options }
        ensures command { result.command ≡ Show Pipeline }
    {
        Order {
            options: self.options,
            command: Command::Show(Shown::Pipeline),
        }
    }
}

/// What words order.
#[derive(Drop)]
pub enum Ordered<'a> {
    /// A command, which a server does over the database.
    Command(Order<'a>),
    /// A look at the database. It is read, and not opened.
    Look(LookOrder<'a>),
    /// A page of what is in the database. It is read, and not opened.
    Page(PageOrder<'a>),
    /// That a build be asked to be aborted. No database is opened.
    Abort(AbortOrder<'a>),
}

/// Why words order nothing.
#[derive(Drop)]
pub enum Misuse {
    /// A word isn't text in UTF-8.
    NotText,
    /// The words aren't a command line, or ask for help.
    Line(LineError),
    /// An option is absent, or out of its range.
    Option(OptionFault),
    /// No command is named, or a value of it is out of its range.
    NoCommand,
    /// They are those of `validate-pipeline`, and don't name one file.
    Validation,
    /// Out of memory.
    NoMemory,
}

impl From<AllocError> for Misuse {
    ghost from_gives = { λ _ misuse. misuse ≡ NoMemory };

    fn from(_error: AllocError) -> Misuse {
        Misuse::NoMemory
    }
}

impl<T: Drop> From<AllocFailed<T>> for Misuse {
    ghost from_gives = { λ _ misuse. misuse ≡ NoMemory };

    fn from(_error: AllocFailed<T>) -> Misuse {
        Misuse::NoMemory
    }
}

/// What an answer of `clap` without matches comes to.
fn misuse_of(error: LineError) -> Misuse
    ensures { ((kind_of error ≡ OutOfMemory) × (result ≡ NoMemory))
        ⊎ ((kind_of error ≢ OutOfMemory) × (result ≡ Line error)) }
{
    if error.kind() == ErrorKind::OutOfMemory {
        Misuse::NoMemory
    } else {
        Misuse::Line(error)
    }
}

/// What a command becomes: a look, where one is asked for and the command shows something.
fn ordered_of<'a>(options: Options<'a>, command: Command, asks_look: bool) -> Ordered<'a>
    ensures { Becomes options.entry command asks_look result }
{
    if !asks_look {
        return Ordered::Command(Order { options, command });
    }
    match command {
        Command::Show(what) => Ordered::Look(LookOrder { options, what }),
        command => Ordered::Command(Order { options, command }),
    }
}

/// What the words order, of which the first is the program's name.
pub fn ordered_by<'a>(alloc: Global, words: &'a [String]) -> Result<Ordered<'a>, Misuse>
    ensures ordered { IfOk result (Orders (map string_bytes words.now)) }
    ensures misused { IfErr result (IsMisused (map string_bytes words.now)) }
    ensures least { IfOk result (λ ordered. 1 ≤ budget_of ordered) }
    ensures most { IfOk result (λ ordered. budget_of ordered ≤ MOST_NODES) }
{
    let line = command_line(alloc)?;
    let matches = match line.try_get_matches_from(words) {
        Ok(matches) => matches,
        Err(error) => return Err(misuse_of(error)),
    };
    let options = match options_of(&matches) {
        Ok(options) => options,
        Err(fault) => return Err(Misuse::Option(fault)),
    };
    if let Some(build) = abort_of(&matches) {
        return Ok(Ordered::Abort(AbortOrder { options, build }));
    }
    match page_of(&matches) {
        Ok(Some(page)) => return Ok(Ordered::Page(PageOrder { options, page })),
        Ok(None) => {}
        Err(fault) => return Err(Misuse::Option(fault)),
    }
    match command_of(alloc, &matches)? {
        Some(command) => Ok(ordered_of(options, command, asks_look(&matches))),
        None => Err(Misuse::NoCommand),
    }
}
