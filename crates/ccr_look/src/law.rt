//! What a look finds beside a running server.
ghost use Rattle.std.specs.Prelude.{List, IsTrue};
ghost use Rattle.std.specs.List.{AllByRecursion};
ghost use Rattle.sqlite_disk.specs.declared.Files.{Files};
ghost use Rattle.sqlite_store.specs.Unopened.{state_of};
ghost use Rattle.sqlite_store.specs.declared.store.FileStore.{FileStore as FileStoreData};
ghost use Rattle.sqlite_store.specs.declared.store.open.Unopened.{Unopened};
ghost use Rattle.sqlite.specs.declared.file.Leftover.TheVariants as leftover;
ghost use Rattle.sqlite.specs.Files.{file_state, image_of, over_files, IsNothing, IsOpened, LeavesFiles};
ghost use Rattle.sqlite.specs.Held.{Held};
ghost use Rattle.sqlite.specs.Start.{FindsIn};
ghost use Rattle.sqlite.specs.State.{HasCleanDisk, Survives};
ghost use Rattle.sqlite_wal.specs.Files.{outcomes};
ghost use Rattle.sqlite_wal.specs.Recovery.{Image};
ghost use Rattle.ccr_history.specs.History.{HistoryData, IsHistory};
ghost use Rattle.ccr_history.specs.declared.tally.Tally.{Tally as TallyData};
ghost use Rattle.ccr_store.specs.Causes.{IsBegun};
ghost use Rattle.ccr_store.specs.Crash.{Leaves};
ghost use Rattle.ccr_look.specs.Holding.{HoldNothing, HoldsHistory};
ghost use Rattle.ccr_look.specs.Left.{AreLeftBy, IsOneOf, IsSoundStore, IsWhatIsLeft, files_now};
ghost use Rattle.ccr_look.specs.Looks.{IsFoundIn};
ghost use Rattle.ccr_look.specs.Runs.{Run, AreRuns, LeadOn};

use crate::scratch::Scratch;
use sqlite::{Connection, FileStore};
use sqlite_disk::Disk;
use sqlite_trees::store::Store as Trees;

/// What a look finds in bytes that a server's files leave is one of the histories that its storage leaves, and the bytes hold it.
///
/// The connection is the server's, over any disk that has returned what was written. It is a law over the definitions
/// alone; nothing runs.
pub fn a_look_finds_what_is_left<D: Disk>(conn: &Connection<FileStore<D>>)
    ensures { (image : Image) → (found : HistoryData) → IsFoundIn ⟦<FileStore<Scratch> as Trees>⟧ image found
        → IsWhatIsLeft conn.now image found }
{
    // Nothing runs.
}

/// What a run leaves of its files, ended or killed at any moment, also in the midst of a commit, is what the next open
/// takes: they hold one of the histories that its storage leaves.
///
/// The connection is the server's, over any disk that has returned what was written. It is a law over the definitions
/// alone; nothing runs.
pub fn what_is_left_is_taken<D: Disk>(conn: &Connection<FileStore<D>>)
    // The bytes that a kill leaves, and those that stand for them.
    ensures killed { (tally : TallyData) (hs : List HistoryData) → AllByRecursion IsHistory hs
        → Leaves over_files (record { conn = conn.now; tally = tally }) hs
        → HasCleanDisk (file_state conn.now) → IsSoundStore conn.now.store
        → (image : Image) → AreLeftBy conn.now.store image
        → ∥ ((h : HistoryData) × IsOneOf hs h × HoldsHistory image h) ∥₁ }

    // The bytes as an end leaves them.
    ensures ended { (tally : TallyData) (hs : List HistoryData) → AllByRecursion IsHistory hs
        → Leaves over_files (record { conn = conn.now; tally = tally }) hs
        → HasCleanDisk (file_state conn.now) → IsSoundStore conn.now.store
        → ∥ ((h : HistoryData) × IsOneOf hs h × HoldsHistory (files_now conn.now.store) h) ∥₁ }
{}

/// What a kill leaves while a database is being taken is what the next open takes, with the same history: also while
/// the six tables of a new one are made, and while rows of the first format become those of the second.
///
/// The connection is one that [`Store::adopt`](ccr_store::Store::adopt) has begun to take, over any disk that has
/// returned what was written; `before` is the same as it was opened. It is a law over the definitions alone; nothing
/// runs.
pub fn what_is_begun_is_taken<D: Disk>(conn: &Connection<FileStore<D>>)
    ensures { (was : Image) (h : HistoryData) → HoldsHistory was h
        → (before : Held (FileStoreData D D.Disk)) → IsOpened before → FindsIn was (file_state before)
        → Survives (file_state before) (file_state conn.now) (IsBegun (file_state before))
        → HasCleanDisk (file_state conn.now) → IsSoundStore conn.now.store
        → (image : Image) → AreLeftBy conn.now.store image → ∥ HoldsHistory image h ∥₁ }
{}

/// What a kill of the very first run leaves, before it has made the tables, is again files in which nothing was made.
/// So the next run takes them, with the empty history.
///
/// It is a law over the definitions alone; nothing runs.
pub fn a_first_run_leaves_nothing<D: Disk>(conn: &Connection<FileStore<D>>)
    // While the files are being opened, of which a crash left what they held before.
    ensures opening { (files : Files D) (now : Unopened D D.Disk) → IsNothing (image_of D.Disk files)
        → ((image : Image) → outcomes D.Disk files.log files.db image → IsNothing image)
        → LeavesFiles files (leftover.Unopened now)
        → (image : Image) → (state_of now).may_leave image → ∥ HoldNothing image ∥₁ }

    // Once they are open, until something is committed.
    ensures opened { (was : Image) → HoldNothing was → FindsIn was (file_state conn.now)
        → HasCleanDisk (file_state conn.now) → IsTrue (file_state conn.now).is_open → IsSoundStore conn.now.store
        → (image : Image) → AreLeftBy conn.now.store image → ∥ HoldNothing image ∥₁ }
{}

/// However often a database is opened, and whether each run ends or is killed: their events and restarts are one list,
/// and what the files hold in the end is the history to which it leads. So nothing that was stored is lost.
///
/// It is a law over the definitions alone; nothing runs.
pub fn runs_are_one_list()
    ensures { (image : Image) (h : HistoryData) → HoldsHistory image h
        → (runs : List Run) (end : Image) → AreRuns image runs end
        → ∥ ((after : HistoryData) × LeadOn h runs after × HoldsHistory end after) ∥₁ }
{}
