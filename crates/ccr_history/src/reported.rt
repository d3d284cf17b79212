//! Changes that give their numbers.
ghost use Rattle.std.specs.Prelude.{◌≡◌, ◌≤◌, false, drop, length, IsTrue, IsErrOf, IfOk, IfErr, OnOk, OnErr};
ghost use Rattle.ccr_history.specs.Changes.{versions, edited};
ghost use Rattle.ccr_history.specs.Edits.{edit_data, row_of, HasItsNumbers};
ghost use Rattle.ccr_history.specs.History.{HistoryData, IsHistory};
ghost use Rattle.ccr_history.specs.Faults.{is_fault_of_report};
ghost use Rattle.ccr_history.specs.Tables.{is_table_full, new_count};
ghost use Rattle.ccr_history.specs.declared.change.Edit.TheVariants.{Versions};

use crate::change::Reported;
use crate::fault::HistoryFault;
use crate::history::History;
use crate::scope::Scope;
use crate::version::Version;
use std::alloc::{AllocError, Global};

/// Copies of the versions behind so many.
fn copies_behind(
    alloc: Global,
    known: usize,
    versions: &[Version],
) -> Result<Vec<Version>, AllocError>
    requires { known ≤ length versions.now }
    ensures { IfOk result (λ copies. copies.items ≡ drop known versions.now) }
{
    let new = &versions[known..];
    let mut copies = Vec::with_capacity(alloc, new.len())?;
    for version in new {
        copies.push(version.copy()?)?;
    }
    Ok(copies)
}

impl History {
    /// Reports versions of a scope as `append_versions` does, and gives those that are new, with their numbers.
    ///
    /// The faults are those of `append_versions`.
    pub fn report(
        &mut self,
        alloc: Global,
        scope: Scope,
        seen: &[Version],
    ) -> Result<Reported, HistoryFault>
        ensures ok { OnOk result (self.new ≡ edited (versions scope seen.now) self.old) }
        ensures edit { IfOk result (λ r. self.new ≡ edited (edit_data (Versions r)) self.old) }
        ensures numbered { IfOk result (λ r. HasItsNumbers self.old (Versions r)) }
        ensures scope { IfOk result (λ r. r.scope ≡ scope) }
        ensures count { IfOk result (λ r. length r.versions.items ≡ new_count scope seen.now self.old.tables) }
        ensures fits { OnOk result (is_table_full scope seen.now self.old.tables ≡ false) }
        ensures room { IfOk result (λ r. is_table_full r.scope r.versions.items self.old.tables ≡ false) }
        ensures full { IsErrOf result HistoryFault.TableFull
            → IsTrue (is_table_full scope seen.now self.old.tables) }
        ensures err { OnErr result (self.new ≡ self.old) }
        ensures only { IfErr result (λ fault. IsTrue (is_fault_of_report fault)) }
    {
        self.rules();
        let number = self.scope_number(&scope);
        let known = self.versions(&scope).len();
        let count = self.append_versions(alloc, &scope, seen)?;
        match copies_behind(alloc, known, self.versions(&scope)) {
            Ok(versions) => Ok(Reported {
                number: self.scope_number(&scope),
                is_new: number == 0,
                first: known as u32 + 1,
                versions,
                scope,
            }),
            Err(_) => {
                self.take_back_last(&scope, count);
                Err(HistoryFault::NoMemory)
            }
        }
    }

    /// Takes back the last report. It takes no memory.
    ///
    /// The caller has changed nothing since.
    pub fn take_back(&mut self, report: &Reported)
        requires { (before : HistoryData) × IsHistory before × HasItsNumbers before (Versions report.now)
            × (self.old ≡ edited (edit_data (Versions report.now)) before) }
        ensures { (before : HistoryData) → IsHistory before → HasItsNumbers before (Versions report.now)
            → self.old ≡ edited (edit_data (Versions report.now)) before → self.new ≡ before }
    {
        self.rules();
        self.take_back_last(&report.scope, report.versions.len() as u32);
    }

    /// The row of the job's build of this number: its position among all builds, from 1 in order of making; 0 where
    /// there is none.
    pub fn row_of(&self, job: &str, number: u32) -> u32
        ensures { result ≡ row_of job.now number self.now.builds }
    {
        match self.position_of(job, number) {
            Some(position) => position as u32 + 1,
            None => 0,
        }
    }
}
