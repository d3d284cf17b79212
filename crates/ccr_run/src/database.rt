//! The database as a server's storage.
ghost use Rattle.std.specs.Prelude.{◌≡◌, ◌≢◌, [], ◌∷◌, false, IfOk, IfErr, IfSome};
ghost use Rattle.sqlite_wal.specs.Files.{image_at};
ghost use Rattle.sqlite.specs.Files.{file_state, IsOpened};
ghost use Rattle.sqlite.specs.Held.{state, IsNew};
ghost use Rattle.sqlite.specs.Start.{FindsIn};
ghost use Rattle.sqlite.specs.State.{HasCleanDisk, Survives};
ghost use Rattle.ccr_core.specs.Resumed.{IsReadable};
ghost use Rattle.ccr_history.specs.History.{HistoryData, IsHistory, no_history};
ghost use Rattle.ccr_tables.specs.Contents.{Contents, Holds};
ghost use Rattle.ccr_tables.specs.Schema.{no_schema};
ghost use Rattle.ccr_store.specs.Causes.{IsBegun};
ghost use Rattle.ccr_store.specs.Crash.{Leaves};
ghost use Rattle.ccr_store.specs.Rows.{Fits, rows_in, rows_of};
ghost use Rattle.ccr_store.specs.Shown.{IsTaken};
ghost use Rattle.ccr_store.specs.StoreData.{IsKept, IsStored};
ghost use Rattle.ccr_store.specs.declared.format.Format.{Format as FormatData};
ghost use Rattle.ccr_run.specs.Databases.{holds, leaves, tally, BeginsWith, HasNone, IsLeftUnread, IsLeftUntaken};

use ccr_history::{Edit, History, Storage, Tally};
use ccr_store::{Store, StoreFault, prepare};
use sqlite::{Alter, Connection, FileFrom, FileStore, Start};
use sqlite_trees::store::Store as Trees;
use std::alloc::Global;

/// The history in a database, as a server's storage.
///
/// What it holds, and what a crash leaves, is known where the files held a history as they were opened: the six tables with
/// its rows, or nothing.
#[derive(Drop)]
pub struct Database<D: Alter> {
    store: Store<D>,
    // The commits that were asked of this storage.
    tally: Tally,
}

/// Why a database is no storage, with its connection.
#[derive(Drop)]
pub struct Unloaded<C> {
    /// Why it is none.
    pub fault: StoreFault,
    /// Its connection.
    pub conn: C,
}

/// The history in a database's files, as a server's storage.
pub type FileDatabase<S> = Database<FileStore<FileFrom<S>>>;

/// A store over a database, as [`Store::adopt`] makes it; but a fault leaves the connection to the caller.
fn take<D: Alter + Drop>(
    alloc: Global,
    conn: Connection<D>,
) -> Result<Store<D>, Unloaded<Connection<D>>>
    requires idle { (state D.Store conn).in_transaction ≡ false }
    requires fresh { IsNew conn }
    ensures made { IfOk result (λ store. let new = state D.Store store.conn in
        HasCleanDisk new → (state D.Store conn).now.schema ≡ no_schema
        → IsStored no_history new.now × (new.committed ≡ new.now)) }
    ensures found { IfOk result (λ store. (format : FormatData) → (h : HistoryData) → IsHistory h → Fits format h
        → HasCleanDisk (state D.Store store.conn) → Holds (rows_in format h) (state D.Store conn).now
        → IsStored h (state D.Store store.conn).now) }
    ensures taken { IfOk result (λ store. let old = state D.Store conn in
        let new = state D.Store store.conn in
        HasCleanDisk new → old.now.schema ≢ no_schema → IsTaken old new) }
    ensures crash { IfOk result (λ store. let old = state D.Store conn in
        Survives old (state D.Store store.conn) (IsBegun old)) }
    ensures untaken { IfErr result (λ it. IsLeftUntaken D.Store (state D.Store conn) it.fault it.conn) }
{
    let mut conn = conn;
    match prepare(alloc, &mut conn) {
        Ok(()) => Ok(Store::over(conn)),
        Err(fault) => Err(Unloaded { fault, conn }),
    }
}

impl<D: Alter + Drop> Database<D> {
    /// The storage of a store, with the history that it holds.
    fn with_history(
        alloc: Global,
        store: Store<D>,
    ) -> Result<(Database<D>, History), Unloaded<Connection<D>>>
        ensures kept { IfOk result (λ loaded. ((these : Contents) → Holds these (state D.Store store.conn).now
            → IsKept D.Store loaded.0.store loaded.1)
            × ((h : HistoryData) → HasCleanDisk (state D.Store loaded.0.store.conn) → IsHistory h
            → Holds (rows_of h) (state D.Store store.conn).now → h ≡ loaded.1)
            × (HasCleanDisk (state D.Store loaded.0.store.conn) → HasCleanDisk (state D.Store store.conn))
            × ((these : Contents) → Holds these (state D.Store store.conn).now
            → Leaves D.Store loaded.0.store (loaded.1 ∷ []))) }
        ensures readable { IfOk result (λ loaded. IfSome loaded.1.text IsReadable) }
        ensures uncounted { IfOk result (λ loaded. (tally loaded.0).commits ≡ 0) }
        ensures unread { IfErr result (λ it. IsLeftUnread D.Store (state D.Store store.conn) it.fault it.conn) }
    {
        let mut store = store;
        match store.load(alloc) {
            Ok(history) => {
                let database = Database {
                    store,
                    tally: Tally::new(),
                };
                Ok((database, history))
            }
            Err(fault) => Err(Unloaded {
                fault,
                conn: store.into_connection(),
            }),
        }
    }
}

impl<S: Start> Database<FileStore<FileFrom<S>>> {
    /// The storage in a database that was opened, with the history that it holds. A database without tables gets them.
    ///
    /// The faults are those of [`Store::adopt`] and [`Store::load`]. The connection comes back with them.
    pub fn load(
        alloc: Global,
        conn: Connection<FileStore<FileFrom<S>>>,
    ) -> Result<(FileDatabase<S>, History), Unloaded<Connection<FileStore<FileFrom<S>>>>>
        requires idle { (file_state conn).in_transaction ≡ false }
        requires fresh { IsNew conn }
        requires opened { HasCleanDisk (file_state conn) → IsOpened conn }
        requires found { HasCleanDisk (file_state conn) → FindsIn (image_at S.Start) (file_state conn) }
        ensures holds { IfOk result (λ loaded. holds (image_at S.Start) loaded.0 loaded.1) }
        ensures leaves { IfOk result (λ loaded. leaves (image_at S.Start) loaded.0 (loaded.1 ∷ [])) }
        ensures begins { IfOk result (λ loaded. BeginsWith (image_at S.Start) loaded.0 loaded.1) }
        ensures readable { IfOk result (λ loaded. IfSome loaded.1.text IsReadable) }
        ensures unfound { IfErr result (λ it.
            HasNone ⟦<FileStore<FileFrom<S>> as Trees>⟧ (image_at S.Start) conn it.fault it.conn) }
    {
        match take(alloc, conn) {
            Ok(store) => Database::with_history(alloc, store),
            Err(unloaded) => Err(unloaded),
        }
    }
}

impl<S: Start> Storage for Database<FileStore<FileFrom<S>>> {
    ghost use Rattle.sqlite_wal.specs.Files.{image_at};
    ghost use Rattle.ccr_run.specs.Databases.{holds, leaves, tally};

    ghost holds = { λ database h. holds (image_at S.Start) database h };

    ghost leaves = { λ database hs. leaves (image_at S.Start) database hs };

    ghost tally = { tally };

    fn commit(&mut self, alloc: Global, change: &[Edit]) -> Result<(), StoreFault> {
        let answer = Storage::commit(&mut self.store, alloc, change);
        self.tally.note(&answer);
        answer
    }
}
