//! What a storage tells of its commits.
ghost use Rattle.std.specs.Prelude.{◌≡◌, None};
ghost use Rattle.ccr_history.specs.Counts.{RoseBy, fault_in};

use crate::store_fault::StoreFault;

/// How many commits a storage was asked for, modulo 2 to the 64th, and why the last of them failed, if it did.
#[derive(Debug, Drop)]
pub struct Tally {
    commits: u64,
    fault: Option<StoreFault>,
}

impl Tally {
    /// The tally of a storage that has been asked for no commit.
    pub fn new() -> Tally
        ensures commits { result.commits ≡ 0 }
        ensures fault { result.fault ≡ None }
    {
        Tally {
            commits: 0,
            fault: None,
        }
    }

    /// Notes what a commit answered.
    pub fn note(&mut self, answer: &Result<(), StoreFault>)
        ensures counted { RoseBy self.old.commits 1 self.new.commits }
        ensures told { self.new.fault ≡ fault_in answer.now }
    {
        self.commits = self.commits.wrapping_add(1);
        self.fault = match answer {
            Ok(()) => None,
            Err(fault) => Some(*fault),
        };
    }
}
