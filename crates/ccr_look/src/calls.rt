//! The calls on files, which are there for contracts alone.
ghost use Rattle.std.specs.Prelude.{◌≡◌, List, [], ◌∷◌, ◌++◌};
ghost use base.Fml.{ftrue};
ghost use Rattle.ccr_look.specs.Calls.{CallData, call_data};

use std::marker::Model;

/// Why a call on a file came to nothing.
#[derive(Clone, Copy, Drop)]
pub(crate) enum Trouble {
    /// A signal came first.
    Interrupted,
    /// Out of memory.
    NoMemory,
    /// Anything else.
    Other,
}

/// What is found at a path.
#[derive(Clone, Copy, Drop)]
pub(crate) enum Found {
    /// A file, so long.
    File(u64),
    /// A directory, a device, or something else that is no file.
    NoFile,
    /// Nothing.
    Nothing,
    /// It can't be seen, for this trouble.
    Unseen(Trouble),
}

/// A call on files, with its answer.
#[derive(Clone, Copy, Drop)]
pub(crate) enum Call<'a> {
    /// What is at a path.
    Look(&'a str, Found),
    /// The file at a path is opened: whether one is there.
    Open(&'a str, Result<bool, Trouble>),
    /// What was opened at a path is read: it gave the bytes at the front of these, so many.
    Read(&'a str, &'a [u8], Result<usize, Trouble>),
}

/// Calls in their order. Only contracts read them: they take no byte.
#[derive(Drop)]
pub(crate) struct Calls {
    pub ghost list: { List CallData },
}

impl Model for Calls {
    ghost also_owns = { λ _. ftrue };
}

impl Calls {
    /// No calls.
    pub(crate) fn new() -> Calls
        ensures { result.list ≡ [] }
    {
        Calls {}
    }

    /// The same calls.
    pub(crate) fn copy(&self) -> Calls
        ensures { result.list ≡ self.now.list }
    {
        Calls {}
    }

    /// These calls, and then this one.
    pub(crate) fn and(&self, _call: &Call<'_>) -> Calls
        ensures { result.list ≡ self.now.list ++ call_data _call.now ∷ [] }
    {
        Calls {}
    }
}
