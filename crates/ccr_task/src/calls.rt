//! The calls of a shelf, which are there for contracts alone.
ghost use Rattle.std.specs.Prelude.{◌≡◌, List, [], ◌∷◌, ◌++◌};
ghost use base.Fml.{ftrue};
ghost use Rattle.ccr_task.specs.Calls.{CallData, call_data, is_failed, found_folder};

use crate::fault::ShelfFault;
use std::marker::Model;

/// A call of a shelf: its path, and what it answered.
#[derive(Clone, Copy, Drop)]
pub(crate) enum Call<'a> {
    /// A folder is made.
    Make(&'a str, &'a Result<(), ShelfFault>),
    /// A file is read.
    Read(&'a str, &'a Result<Vec<u8>, ShelfFault>),
    /// A folder is removed.
    Remove(&'a str, &'a Result<(), ShelfFault>),
    /// It is looked whether a folder is there.
    Has(&'a str, &'a Result<bool, ShelfFault>),
}

/// Calls in their order. Only contracts read them: they take no byte.
#[derive(Drop)]
pub(crate) struct Calls {
    pub ghost list: { List CallData },
}

impl Model for Calls {
    ghost also_owns = { λ _. ftrue };
}

impl Calls {
    /// No calls.
    pub(crate) fn new() -> Calls
        ensures { result.list ≡ [] }
    {
        Calls {}
    }

    /// These calls, and then this one.
    pub(crate) fn and(&self, _call: &Call<'_>) -> Calls
        ensures { result.list ≡ self.now.list ++ call_data _call.now ∷ [] }
    {
        Calls {}
    }
}

impl Call<'_> {
    /// Whether the shelf failed at the call.
    pub(crate) fn is_failed(&self) -> bool
        ensures { result ≡ is_failed (call_data self.now) }
    {
        match self {
            Call::Make(_, answer) | Call::Remove(_, answer) => {
                matches!(answer, Err(ShelfFault::Failed))
            }
            Call::Read(_, answer) => matches!(answer, Err(ShelfFault::Failed)),
            Call::Has(_, answer) => matches!(answer, Err(ShelfFault::Failed)),
        }
    }

    /// Whether the call saw a folder.
    pub(crate) fn found_folder(&self) -> bool
        ensures { result ≡ found_folder (call_data self.now) }
    {
        match self {
            Call::Make(_, _) | Call::Read(_, _) | Call::Remove(_, _) => false,
            Call::Has(_, answer) => matches!(answer, Ok(true)),
        }
    }
}
