//! A core over what was read.
ghost use Rattle.std.specs.Prelude.{◌≡◌, ◌≤◌, IfOk, IfErr, IfSome};
ghost use Rattle.ccr_core.specs.Cores.{core_data};
ghost use Rattle.ccr_core.specs.Resumed.{IsOver, IsReadable};
ghost use Rattle.ccr_history.specs.declared.store_fault.StoreFault.TheVariants.{NoMemory};
ghost use Rattle.ccr_proof.specs.declared.proof.TheConstants.{MOST_NODES};
ghost use Rattle.ccr_look.specs.Looks.{image_of, Sees, SeesNothing};

use crate::copied::Copied;
use crate::found::history_in;
use crate::opened::open;
use crate::scratch::Scratch;
use ccr_core::Core;
use ccr_history::History;
use ccr_store::StoreFault;
use sqlite::FileStore;
use sqlite_trees::store::Store as Trees;
use std::alloc::Global;

/// A core over a history, as it is.
fn over(alloc: Global, history: History, budget: u32) -> Result<Core, StoreFault>
    requires least { 1 ≤ budget }
    requires most { budget ≤ MOST_NODES }
    requires readable { IfSome history.text IsReadable }
    ensures over { IfOk result (λ core. IsOver history budget (core_data core)) }
    ensures only { IfErr result (λ fault. fault ≡ NoMemory) }
{
    match Core::over(alloc, history, budget) {
        Ok(core) => Ok(core),
        Err(_) => Err(StoreFault::NoMemory),
    }
}

/// A core over the history in bytes that were read, as it is: a build that runs in it still does. Its searches take at
/// most `budget` nodes, from 1 to 1,000,000.
///
/// The faults are those of an open and a load of the database: `Disk` where the bytes are no database or a damaged one,
/// `NotOurs` where it holds no history, `NoMemory`.
pub fn look(alloc: Global, copied: Copied<'_>, budget: u32) -> Result<Core, StoreFault>
    requires least { 1 ≤ budget }
    requires most { budget ≤ MOST_NODES }
    ensures sees { IfOk result (λ core. Sees ⟦<FileStore<Scratch> as Trees>⟧ (image_of copied.entry) budget (core_data core)) }
    ensures nothing { IfErr result (SeesNothing ⟦<FileStore<Scratch> as Trees>⟧ (image_of copied.entry)) }
{
    let conn = match open(alloc, copied) {
        Ok(conn) => conn,
        Err(fault) => return Err(fault),
    };
    match history_in(alloc, conn) {
        Ok(history) => over(alloc, history, budget),
        Err(fault) => Err(fault),
    }
}
