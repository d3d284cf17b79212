//! Restarts.
ghost use Rattle.std.specs.Prelude.{◌≡◌, Ok, Err, map, IfOk, IfErr, OnErr};
ghost use Rattle.ccr_history.specs.Changes.{changed, AdmitsAll};
ghost use Rattle.ccr_history.specs.Edits.{change_data, edit_data, HaveTheirNumbers};
ghost use Rattle.ccr_core.specs.Cores.{core_data};
ghost use Rattle.ccr_core.specs.Events.{restart};
ghost use Rattle.ccr_core.specs.Going.{Changes};
ghost use Rattle.ccr_core.specs.Indexed.{IsIndexed};
ghost use Rattle.ccr_core.specs.Holding.{name_data, HasEdits, IsCore, TakesStep};
ghost use Rattle.ccr_core.specs.Resumed.{cut_name};

use crate::fault::CoreFault;
use crate::parts::Parts;
use crate::reply::Reply;
use ccr_history::{Change, Edit, Ended, History, Status};
use ccr_problem::{builds_change_problems, cut_short};
use std::alloc::{AllocError, Global};

/// The ends of builds that are cut short, in order: each is errored, and has moved nothing.
pub(crate) fn cuts(
    alloc: Global,
    history: &History,
    names: &[(String, u32)],
) -> Result<Change, AllocError>
    ensures is { IfOk result (λ change. map edit_data change.items ≡ map cut_name (map name_data names.now)) }
    ensures numbered { IfOk result (λ change. HaveTheirNumbers history.now change.items) }
{
    let mut change = Vec::new(alloc);
    for name in names {
        let job = name.0.as_str();
        change.push(Edit::Ended(Ended {
            row: history.row_of(job, name.1),
            job: String::from_str(alloc, job)?,
            number: name.1,
            status: Status::Errored,
            moved: Vec::new(alloc),
        }))?;
    }
    Ok(change)
}

/// Cuts builds short that run. It takes no memory.
pub(crate) fn cut_all(alloc: Global, history: &mut History, names: &[(String, u32)])
    requires { AdmitsAll history.old (map cut_name (map name_data names.now)) }
    ensures { history.new ≡ changed (map cut_name (map name_data names.now)) history.old }
{
    for name in names {
        let job = name.0.as_str();
        cut_short(alloc, history, job, name.1);
    }
}

impl Parts {
    /// Each build that runs is errored, with nothing moved. Where it is refused, nothing changes.
    pub(crate) fn restart(&mut self, alloc: Global) -> Result<(Reply, Change), CoreFault>
        requires core { IsCore (core_data self.old) }
        requires indexed { IsIndexed self.old }
        ensures step { IfOk result (λ r. TakesStep (core_data self.old) (core_data self.new) restart (Ok r.0)) }
        ensures change { IfOk result (λ r. Changes r.1.items self.old.history self.new.history) }
        ensures edits { IfOk result (λ r. HasEdits (core_data self.old) restart (Ok r.0)
            (change_data r.1.items)) }
        ensures refused { IfErr result (λ f. TakesStep (core_data self.old) (core_data self.old) restart (Err f)) }
        ensures unchanged { OnErr result (core_data self.new ≡ core_data self.old) }
        ensures budget { self.new.budget ≡ self.old.budget }
        ensures indexed { IsIndexed self.new }
    {
        match cuts(alloc, &self.history, &self.names) {
            Ok(change) => {
                // A build that is cut short passes nothing, so the indexes stay.
                builds_change_problems();
                self.history.rules();
                cut_all(alloc, &mut self.history, &self.names);
                self.names.clear();
                self.runs.clear();
                Ok((Reply::Restarted, change))
            }
            Err(_) => Err(CoreFault::NoMemory),
        }
    }
}
