//! The history in a database over bytes that were read.
ghost use Rattle.std.specs.Prelude.{◌≡◌, false, IfOk, IfErr, IfSome};
ghost use Rattle.sqlite.specs.Files.{file_state};
ghost use Rattle.sqlite_wal.specs.Recovery.{Image};
ghost use Rattle.ccr_history.specs.History.{HistoryData, IsHistory};
ghost use Rattle.ccr_tables.specs.Contents.{Holds};
ghost use Rattle.ccr_core.specs.Resumed.{IsReadable};
ghost use Rattle.ccr_store.specs.Causes.{IsUnread};
ghost use Rattle.ccr_store.specs.Rows.{rows_of};
ghost use Rattle.ccr_store.specs.Shown.{ShowsHistory};
ghost use Rattle.ccr_store.specs.declared.format.Format.TheVariants.{Two};
ghost use Rattle.ccr_look.specs.Looks.{IsOpenedOver, IsFoundIn};
ghost use Rattle.ccr_look.specs.Unfound.{IsUnfound};

use crate::scratch::Scratch;
use ccr_history::History;
use ccr_store::{Store, StoreFault};
use sqlite::{Connection, FileStore};
use sqlite_trees::store::Store as Trees;
use std::alloc::Global;

/// The history that a store holds, which is let go of.
fn loaded(alloc: Global, store: Store<FileStore<Scratch>>) -> Result<History, StoreFault>
    ensures readable { IfOk result (λ history. IfSome history.text IsReadable) }
    ensures loaded { IfOk result (λ history. ShowsHistory Two history (file_state store.conn).now
        × ((h : HistoryData) → IsHistory h → Holds (rows_of h) (file_state store.conn).now → h ≡ history)) }
    ensures unread { IfErr result (IsUnread ⟦<FileStore<Scratch> as Trees>⟧ (file_state store.conn)) }
{
    let mut store = store;
    match store.load(alloc) {
        Ok(history) => Ok(history),
        Err(why) => Err(why),
    }
}

/// The history in a database. One without tables has the empty history, and one of the first format is written over to
/// the second: both in memory alone.
///
/// The errors are those of [`Store::adopt`] and [`Store::load`].
pub(crate) fn history_in(
    alloc: Global,
    conn: Connection<FileStore<Scratch>>,
) -> Result<History, StoreFault>
    requires { (file_state conn).in_transaction ≡ false }
    ensures readable { IfOk result (λ history. IfSome history.text IsReadable) }
    ensures found { IfOk result (λ history. (image : Image) → IsOpenedOver image conn
        → IsFoundIn ⟦<FileStore<Scratch> as Trees>⟧ image history) }
    ensures unfound { IfErr result (λ fault. (image : Image) → IsOpenedOver image conn
        → IsUnfound ⟦<FileStore<Scratch> as Trees>⟧ image fault) }
{
    match Store::adopt(alloc, conn) {
        Ok(store) => loaded(alloc, store),
        Err(fault) => Err(fault),
    }
}
