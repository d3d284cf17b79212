//! What was asked of the database's files, which is there for contracts alone.
ghost use Rattle.std.specs.Prelude.{◌≡◌, List, [], ◌∷◌, ◌++◌};
ghost use base.Fml.{ftrue};
ghost use Rattle.ccr_run.specs.Asked.{AskedData, asked_data};

use ccr_look::CopyFault;
use sqlite::Error;
use std::marker::Model;

/// Something that was asked of the files of the database at a path.
#[derive(Clone, Copy, Drop)]
pub enum Asked<'a> {
    /// They were to be opened, which was answered with this error, or with none.
    Opened(&'a str, Option<Error>),
    /// They were to be read, which was answered with this fault, or with none.
    Read(&'a str, Option<CopyFault>),
}

/// All that was asked, in order. Only contracts read it: it takes no byte.
#[derive(Drop)]
pub struct AskedList {
    pub ghost list: { List AskedData },
}

impl Model for AskedList {
    ghost also_owns = { λ _. ftrue };
}

impl AskedList {
    /// Nothing was asked.
    pub fn new() -> AskedList
        ensures { result.list ≡ [] }
    {
        AskedList {}
    }

    /// What was asked, and then this.
    pub fn and(&self, _asked: &Asked<'_>) -> AskedList
        ensures { result.list ≡ self.now.list ++ asked_data _asked.now ∷ [] }
    {
        AskedList {}
    }
}
