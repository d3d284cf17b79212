//! What the server's program reads: its command line.
//!
//! [`command_line`] is the program's command line as `clap` reads it, with all help texts; which commands it has, with
//! which arguments, options and defaults, stands in `specs/Usage.antt`. Of what `clap` answers, [`options_of`] gives the
//! five options, [`abort_of`] the build that is to be aborted, [`page_of`] the page that is to be printed, [`command_of`] the
//! command, and [`asks_look`] whether it is to be a look (`specs/Options.antt`, `specs/Aborts.antt`, `specs/Pages.antt`,
//! `specs/Commands.antt`, `specs/Looking.antt`).
#![tactic(auto)]

mod abort;
mod argument;
mod certify;
mod command;
mod commands;
mod looking;
mod number;
mod options;
mod page;
mod reading;
mod usage;
mod versions;

pub use abort::{AbortRequest, abort_of};
pub use command::command_of;
pub use looking::asks_look;
pub use options::{OptionFault, Options, options_of};
pub use page::{PageRequest, page_of};
pub use usage::command_line;
