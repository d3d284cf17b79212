//! The calls on a pipe, which are there for contracts alone.
ghost use Rattle.std.specs.Prelude.{◌≡◌, List, [], ◌∷◌, ◌++◌};
ghost use base.Fml.{ftrue};
ghost use Rattle.ccr_process.specs.Pipes.{CallData, call_data};

use std::marker::Model;

/// Why a call on a pipe moved nothing.
#[derive(Clone, Copy, Drop)]
pub(crate) enum Trouble {
    /// A signal came first. The call is tried again.
    Interrupted,
    /// Nobody holds the other end.
    Closed,
    /// Anything else.
    Failed,
}

/// What one call on a pipe came to.
#[derive(Clone, Copy, Drop)]
pub(crate) enum Call<'a> {
    /// It moved the bytes at the front of these, so many.
    Moved(&'a [u8], usize),
    /// It moved none, for this trouble.
    Troubled(Trouble),
}

/// Calls in their order. Only contracts read them: they take no byte.
#[derive(Drop)]
pub(crate) struct Calls {
    pub ghost list: { List CallData },
}

impl Model for Calls {
    ghost also_owns = { λ _. ftrue };
}

impl Calls {
    /// No calls.
    pub(crate) fn new() -> Calls
        ensures { result.list ≡ [] }
    {
        Calls {}
    }

    /// These calls, and then this one.
    pub(crate) fn and(&self, _call: &Call<'_>) -> Calls
        ensures { result.list ≡ self.now.list ++ call_data _call.now ∷ [] }
    {
        Calls {}
    }
}
