//! What a run works with, and what it leaves of that.

use ccr_core::Core;
use ccr_serve::Server;

/// What a server works with.
#[derive(Drop)]
pub struct Tools<R, F> {
    /// It starts programs.
    pub runner: R,
    /// It holds directories and files.
    pub shelf: F,
}

/// What is left of what a run was given, with the storage `T` or the connection `C` of its database.
#[derive(Drop)]
pub enum Left<R, F, T, C> {
    /// The server that did the command.
    Served(Server<R, F, T>),
    /// No server was opened over the storage.
    Unbegun(Tools<R, F>, T),
    /// No history was found in the database that was opened.
    Unfound(Tools<R, F>, C),
    /// No database was opened.
    Unopened(Tools<R, F>),
}

impl<R, F, T, C> Left<R, F, T, C> {
    ghost use Rattle.std.specs.Prelude.{◌≡◌};
    ghost use Rattle.std.specs.Option.{option_copied};
    ghost use Rattle.ccr_run.specs.Left.{core_left, text_left};

    /// The text of the pipeline of the server, if one did the command and has a pipeline.
    pub fn text(&self) -> Option<&[u8]>
        ensures { option_copied result ≡ text_left self.now }
    {
        match self {
            Left::Served(server) => server.text(),
            Left::Unbegun(_, _) | Left::Unfound(_, _) | Left::Unopened(_) => None,
        }
    }

    /// The core of the server, if one did the command.
    pub fn core(&self) -> Option<&Core>
        ensures { option_copied result ≡ core_left self.now }
    {
        match self {
            Left::Served(server) => Some(server.core()),
            Left::Unbegun(_, _) | Left::Unfound(_, _) | Left::Unopened(_) => None,
        }
    }
}
