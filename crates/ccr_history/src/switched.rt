//! Disabled places: versions that no input takes.
ghost use Rattle.std.specs.Prelude.{◌≡◌, ◌↔◌, IsTrue, IsOk, IsErrOf, IfOk, IfErr, OnOk, OnErr, false};
ghost use Rattle.ccr_history.specs.Pairs.{has_pair};
ghost use Rattle.ccr_history.specs.Tables.{scope_number};
ghost use Rattle.ccr_history.specs.History.{has_place};
ghost use Rattle.ccr_history.specs.Changes.{disabled, enabled, edited};
ghost use Rattle.ccr_history.specs.Edits.{HasItsNumbers};
ghost use Rattle.ccr_history.specs.Faults.{is_fault_of_disable};
ghost use Rattle.ccr_history.specs.declared.change.Edit.TheVariants.{Disabled, Enabled};

use crate::change::Switched;
use crate::fault::HistoryFault;
use crate::history::History;
use crate::scope::Scope;

impl History {
    /// Disables a place of a scope: no input takes its version until it is enabled again (Concourse: disabled versions).
    /// Nothing changes where it is disabled already.
    ///
    /// - `NoVersion` if the scope's table has no such place.
    /// - `NoMemory` if out of memory.
    pub fn disable(&mut self, scope: &Scope, place: u32) -> Result<Switched, HistoryFault>
        ensures ok { OnOk result
            (self.new ≡ edited (disabled (scope_number scope.now self.old.tables) place) self.old) }
        ensures scope { IfOk result (λ s. s.scope ≡ scope_number scope.now self.old.tables) }
        ensures place { IfOk result (λ s. s.place ≡ place) }
        ensures numbered { IfOk result (λ s. HasItsNumbers self.old (Disabled s)) }
        ensures found { OnOk result
            (IsTrue (has_place self.old.tables (scope_number scope.now self.old.tables) place)) }
        ensures there { IsErrOf result HistoryFault.NoVersion
            ↔ (has_place self.old.tables (scope_number scope.now self.old.tables) place ≡ false) }
        ensures err { OnErr result (self.new ≡ self.old) }
        ensures only { IfErr result (λ fault. IsTrue (is_fault_of_disable fault)) }
    {
        let number = self.scope_number(scope);
        if !self.has_place(number, place) {
            return Err(HistoryFault::NoVersion);
        }
        let is_changed = self.disable_place(number, place)?;
        Ok(Switched {
            scope: number,
            place,
            is_changed,
        })
    }

    /// Enables a place of a scope, so that inputs take its version again (Concourse: disabled versions). Nothing changes
    /// where it is enabled already. It takes no memory.
    ///
    /// `NoVersion` if the scope's table has no such place.
    pub fn enable(&mut self, scope: &Scope, place: u32) -> Result<Switched, HistoryFault>
        ensures ok { OnOk result
            (self.new ≡ edited (enabled (scope_number scope.now self.old.tables) place) self.old) }
        ensures scope { IfOk result (λ s. s.scope ≡ scope_number scope.now self.old.tables) }
        ensures place { IfOk result (λ s. s.place ≡ place) }
        ensures numbered { IfOk result (λ s. HasItsNumbers self.old (Enabled s)) }
        ensures there { IsOk result
            ↔ IsTrue (has_place self.old.tables (scope_number scope.now self.old.tables) place) }
        ensures err { OnErr result (self.new ≡ self.old) }
        ensures only { IfErr result (λ fault. fault ≡ HistoryFault.NoVersion) }
    {
        let number = self.scope_number(scope);
        if !self.has_place(number, place) {
            return Err(HistoryFault::NoVersion);
        }
        Ok(Switched {
            scope: number,
            place,
            is_changed: self.enable_place(number, place),
        })
    }
}
