//! The history in a database.
ghost use Rattle.std.specs.Prelude.{◌≡◌, ◌≢◌, ◌↔◌, List, [], ◌∷◌, false, IsTrue, IfOk, IfErr, IfSome, OnOk, OnErr};
ghost use Rattle.sqlite.specs.Effect.{Database};
ghost use Rattle.sqlite.specs.State.{HasCleanDisk, IsUnchanged, Survives};
ghost use Rattle.sqlite.specs.Held.{state};
ghost use Rattle.sqlite.specs.Steps.{over_memory};
ghost use Rattle.ccr_history.specs.History.{HistoryData, IsHistory, no_history};
ghost use Rattle.ccr_history.specs.Edits.{change_data, Accepts};
ghost use Rattle.ccr_history.specs.Changes.{changed};
ghost use Rattle.ccr_tables.specs.Contents.{Contents, Holds, new_contents};
ghost use Rattle.ccr_tables.specs.Schema.{no_schema};
ghost use Rattle.ccr_history.specs.declared.store_fault.StoreFault.TheVariants.{NoMemory, NotOurs};
ghost use Rattle.ccr_store.specs.Causes.{HasAnswer, IsUnloaded, IsUnbegun, IsUnraised, IsUntaken, IsBegun, IsRaised, IsLetGo};
ghost use Rattle.ccr_store.specs.Crash.{IsChangedIn, Leaves};
ghost use Rattle.ccr_store.specs.Left.{IsAsItWas};
ghost use Rattle.ccr_store.specs.Readable.{IsReadable};
ghost use Rattle.ccr_store.specs.Reordered.{HasSameRows};
ghost use Rattle.ccr_store.specs.Rows.{HasFormat, Fits, rows_in, rows_of, raised, in_second};
ghost use Rattle.ccr_store.specs.Shown.{ShowsFormat, ShowsHistory, IsTaken, IsTakenAs, IsOfOurs};
ghost use Rattle.ccr_store.specs.declared.format.Format.{Format as FormatData};
ghost use Rattle.ccr_store.specs.StoreData.{IsStored, IsKept};
ghost use Rattle.ccr_store.specs.Texts.{HasTexts};
ghost use Rattle.ccr_store.specs.Writes.{change_writes};

use crate::fault::fault_of;
use crate::format::Format;
use crate::loading;
use crate::writes::writes_of;
use ccr_history::{Edit, History, StoreFault, Tally};
use ccr_tables::{Creation, Write, commit, create};
use sqlite::{Alter, Connection, MemStore};
use sqlite_schema::schema::Schema;
use std::alloc::Global;
use std::marker::Model;

/// The history in a database, which nothing else writes.
#[derive(Drop)]
pub struct Store<S: Alter> {
    conn: Connection<S>,
    pub(crate) tally: Tally,
}

/// Whether no statement has made anything in the database.
fn is_blank(schema: &Schema) -> bool
    ensures { IsTrue result ↔ (schema.now ≡ no_schema) }
{
    schema.tables.is_empty() && schema.indexes.is_empty() && schema.views.is_empty()
}

/// Makes the six tables, in a database without tables.
fn begin<S: Alter>(conn: &mut Connection<S>) -> Result<(), StoreFault>
    requires idle { (state S.Store conn.old).in_transaction ≡ false }
    requires blank { (state S.Store conn.old).now.schema ≡ no_schema }
    ensures made { let new = state S.Store conn.new in
        HasCleanDisk new → OnOk result (Holds new_contents new.now × (new.committed ≡ new.now)) }
    ensures answered { HasCleanDisk (state S.Store conn.new)
        → IfErr result (IsUnbegun S.Store (state S.Store conn.old)) }
    ensures left { let old = state S.Store conn.old in
        let new = state S.Store conn.new in
        HasCleanDisk new → OnErr result (IsAsItWas old new) }
    ensures not_ours { result ≡ Err NotOurs → Survives (state S.Store conn.old) (state S.Store conn.new) (λ _. ⊥) }
    ensures crash { Survives (state S.Store conn.old) (state S.Store conn.new) (IsBegun (state S.Store conn.old)) }
    ensures mode { (state S.Store conn.new).in_transaction ≡ false }
{
    // Outside a transaction an open database is as it was committed.
    conn.is_autocommit();
    match create(conn) {
        Ok(Creation::Made) => Ok(()),
        Ok(_) => Err(StoreFault::NotOurs),
        Err(error) => Err(fault_of(&error)),
    }
}

/// Writes a database of the first format over to the one that is written, once its history is loaded.
fn raise<S: Alter>(alloc: Global, conn: &mut Connection<S>) -> Result<(), StoreFault>
    requires idle { (state S.Store conn.old).in_transaction ≡ false }
    requires first { HasCleanDisk (state S.Store conn.old) → ShowsFormat Format.One (state S.Store conn.old).now }
    ensures raised { let old = state S.Store conn.old in
        let new = state S.Store conn.new in
        (these : Contents) → HasCleanDisk new → Holds these old.now
        → OnOk result (Holds (raised these) new.now × (new.committed ≡ new.now)) }
    ensures loaded { HasCleanDisk (state S.Store conn.new) → OnOk result ((h : HistoryData) × IsHistory h × Fits Format.One h
        × ShowsHistory Format.One h (state S.Store conn.old).now) }
    ensures answered { HasCleanDisk (state S.Store conn.new)
        → IfErr result (IsUnraised S.Store (state S.Store conn.old)) }
    ensures left { let old = state S.Store conn.old in
        let new = state S.Store conn.new in
        HasCleanDisk new → OnErr result (IsAsItWas old new) }
    ensures not_ours { result ≡ Err NotOurs → Survives (state S.Store conn.old) (state S.Store conn.new) (λ _. ⊥) }
    ensures crash { Survives (state S.Store conn.old) (state S.Store conn.new) (IsRaised (state S.Store conn.old)) }
    ensures mode { (state S.Store conn.new).in_transaction ≡ false }
{
    // Outside a transaction an open database is as it was committed.
    conn.is_autocommit();
    loading::load(alloc, conn, Format::One)?;
    match commit(conn, &[Write::Format]) {
        Ok(()) => Ok(()),
        Err(error) => Err(fault_of(&error)),
    }
}

/// Makes the six tables in a database without tables. In another one nothing is written where it has the number of this
/// format. One of the first format is loaded, and then written over to this one. [`Store::adopt`] begins with this call,
/// which leaves the connection to its caller also where it is refused.
///
/// The faults are those of [`Store::adopt`].
pub fn prepare<S: Alter>(alloc: Global, conn: &mut Connection<S>) -> Result<(), StoreFault>
    requires { (state S.Store conn.old).in_transaction ≡ false }
    ensures made { let new = state S.Store conn.new in
        HasCleanDisk new → (state S.Store conn.old).now.schema ≡ no_schema
        → OnOk result (Holds new_contents new.now × (new.committed ≡ new.now)) }
    ensures found { let old = state S.Store conn.old in
        let new = state S.Store conn.new in
        (these : Contents) → HasCleanDisk new → Holds these old.now
        → OnOk result ((format : FormatData) × HasFormat format these × Holds (in_second format these) new.now) }
    ensures taken { let old = state S.Store conn.old in
        let new = state S.Store conn.new in
        HasCleanDisk new → old.now.schema ≢ no_schema → OnOk result (IsTaken old new) }
    ensures ours { let old = state S.Store conn.old in
        let new = state S.Store conn.new in
        HasCleanDisk new → OnOk result (IsTakenAs old.now new.now) }
    ensures answered { HasCleanDisk (state S.Store conn.new)
        → IfErr result (IsUntaken S.Store (state S.Store conn.old)) }
    ensures left { let old = state S.Store conn.old in
        let new = state S.Store conn.new in
        HasCleanDisk new → OnErr result (IsAsItWas old new) }
    ensures not_ours { result ≡ Err NotOurs → Survives (state S.Store conn.old) (state S.Store conn.new) (λ _. ⊥) }
    ensures crash { Survives (state S.Store conn.old) (state S.Store conn.new) (IsBegun (state S.Store conn.old)) }
    ensures mode { (state S.Store conn.new).in_transaction ≡ false }
{
    // Outside a transaction an open database is as it was committed.
    conn.is_autocommit();
    if is_blank(conn.schema()) {
        return begin(conn);
    }
    match loading::read_format(conn) {
        Ok(Format::Two) => Ok(()),
        Ok(Format::One) => raise(alloc, conn),
        Err(fault) => Err(fault),
    }
}

impl<S: Alter> Model for Store<S> {
    ghost use Rattle.std.specs.Prelude.{◌≡◌, false};
    ghost use Rattle.ccr_store.specs.declared.format.Format.{Format as FormatData};
    ghost use Rattle.ccr_store.specs.StoreData.{StoreData, store_code};

    ghost Value = { StoreData S };

    ghost coded = { store_code S.code };

    ghost view = { λ s. record { conn = s.conn; tally = s.tally } };

    ghost invariant = { λ s. s.conn.in_transaction ≡ false };
}

impl Store<MemStore> {
    /// A store of the empty history in memory.
    ///
    /// `NoMemory` if out of memory.
    pub fn open_in_memory(alloc: Global) -> Result<Store<MemStore>, StoreFault>
        ensures stored { IfOk result (λ store. IsStored no_history (state over_memory store.conn).now) }
        ensures kept { IfOk result (λ store. IsKept over_memory store no_history) }
    {
        Store::adopt(alloc, Connection::open_in_memory(alloc)?)
    }
}

impl<S: Alter + Drop> Store<S> {
    /// A store over a database. One without tables gets the six tables, and has the empty history then. One of the first
    /// format is loaded, and then written over to this one. Nothing is written to other tables that are there:
    /// [`load`](Store::load) says which history they hold.
    ///
    /// - `NotOurs` where there are tables, and they haven't the number of a format, or are of the first one and of no history.
    /// - `Refused`, `Disk` or `Interrupted` where `sqlite` failed so.
    /// - `NoMemory` if out of memory.
    pub fn adopt(alloc: Global, conn: Connection<S>) -> Result<Store<S>, StoreFault>
        requires { (state S.Store conn).in_transaction ≡ false }
        ensures made { IfOk result (λ store. let new = state S.Store store.conn in
            HasCleanDisk new → (state S.Store conn).now.schema ≡ no_schema
            → IsStored no_history new.now × (new.committed ≡ new.now)) }
        ensures kept { IfOk result (λ store. (state S.Store conn).now.schema ≡ no_schema
            → IsKept S.Store store no_history) }
        ensures found { IfOk result (λ store. (format : FormatData) → (h : HistoryData) → IsHistory h → Fits format h
            → HasCleanDisk (state S.Store store.conn) → Holds (rows_in format h) (state S.Store conn).now
            → IsStored h (state S.Store store.conn).now) }
        ensures taken { IfOk result (λ store. let old = state S.Store conn in
            let new = state S.Store store.conn in
            HasCleanDisk new → old.now.schema ≢ no_schema → IsTaken old new) }
        ensures ours { IfOk result (λ store. HasCleanDisk (state S.Store store.conn)
            → IsTakenAs (state S.Store conn).now (state S.Store store.conn).now) }
        ensures answered { IfErr result (IsLetGo S.Store (state S.Store conn)) }
        ensures crash { IfOk result (λ store. let old = state S.Store conn in
            Survives old (state S.Store store.conn) (IsBegun old)) }
    {
        let mut conn = conn;
        prepare(alloc, &mut conn)?;
        Ok(Store {
            conn,
            tally: Tally::new(),
        })
    }
}

impl<S: Alter> Store<S> {
    /// A store over a database that [`prepare`] took: what [`adopt`](Store::adopt) ends with.
    pub fn over(conn: Connection<S>) -> Store<S>
        requires { (state S.Store conn).in_transaction ≡ false }
        ensures { result.conn ≡ conn }
    {
        Store {
            conn,
            tally: Tally::new(),
        }
    }

    /// The connection, which a caller may close, or open again where the disk failed.
    pub fn into_connection(self) -> Connection<S>
        ensures same { result ≡ self.conn }
        ensures idle { (state S.Store result).in_transaction ≡ false }
    {
        let Store { conn, tally: _ } = self;
        conn
    }

    /// Writes what a change of the history changes, in one transaction.
    ///
    /// The edits are ones that the history takes, each by then, and carry the numbers that it gave them. After an `Err`
    /// the tables hold what they held.
    ///
    /// - `Refused`, `Disk` or `Interrupted` where `sqlite` failed so.
    /// - `NoMemory` if out of memory.
    pub fn commit(&mut self, alloc: Global, change: &[Edit]) -> Result<(), StoreFault>
        requires { (h : HistoryData) × Accepts h change.now }
        ensures done { let old = state S.Store self.old.conn in
            let new = state S.Store self.new.conn in
            (h : HistoryData) → IsStored h old.now → Accepts h change.now → HasCleanDisk new
            → OnOk result (IsStored (changed (change_data change.now) h) new.now × (new.committed ≡ new.now)) }
        ensures refused { let old = state S.Store self.old.conn in
            let new = state S.Store self.new.conn in
            HasCleanDisk new → OnErr result (IsAsItWas old new) }
        ensures crash { let old = state S.Store self.old.conn in
            Survives old (state S.Store self.new.conn) (IsChangedIn change.now old) }
        ensures durable { let new = state S.Store self.new.conn in
            IsTrue new.is_open → (trees : _) → new.may_leave trees → trees ≡ new.committed.trees }
        ensures stays_open { HasCleanDisk (state S.Store self.new.conn)
            → OnOk result (IsTrue (state S.Store self.new.conn).is_open) }
        ensures leaves { (hs : List HistoryData) → (h : HistoryData) → Leaves S.Store self.old hs
            → IsKept S.Store self.old h → Accepts h change.now → change_writes change.now ≢ []
            → Leaves S.Store self.new (changed (change_data change.now) h ∷ hs) }
        ensures acknowledged { (h : HistoryData) → IsKept S.Store self.old h → Accepts h change.now
            → OnOk result (Leaves S.Store self.new (changed (change_data change.now) h ∷ [])) }
        ensures open { let old = state S.Store self.old.conn in
            let new = state S.Store self.new.conn in
            HasCleanDisk new → IsTrue new.is_open → HasCleanDisk old × IsTrue old.is_open }
        ensures answered { HasCleanDisk (state S.Store self.new.conn) → IfErr result (λ fault. fault ≢ NoMemory
            → HasAnswer S.Store change.now (state S.Store self.old.conn) fault) }
        ensures only { IfErr result (λ fault. fault ≢ NotOurs) }
        ensures tally { self.new.tally ≡ self.old.tally }
    {
        // Outside a transaction an open database is as it was committed.
        self.conn.is_autocommit();
        let writes = writes_of(alloc, change)?;
        match commit(&mut self.conn, &writes) {
            Ok(()) => {
                // What is committed obeys the schema.
                self.conn.schema();
                Ok(())
            }
            Err(error) => Err(fault_of(&error)),
        }
    }

    /// The history whose rows the tables have. Each table is read once.
    ///
    /// - `NotOurs` where the tables aren't those of a history, or no history of a readable pipeline has their rows.
    /// - `Disk` or `Interrupted` where `sqlite` failed so.
    /// - `NoMemory` if out of memory.
    pub fn load(&mut self, alloc: Global) -> Result<History, StoreFault>
        ensures readable { IfOk result (λ history. IfSome history.text IsReadable) }
        ensures stored { let old = state S.Store self.old.conn in
            let new = state S.Store self.new.conn in
            HasCleanDisk new → IfOk result (λ history. (these : Contents) → Holds these old.now
            → HasSameRows (rows_of history) these × IsStored history new.now) }
        ensures only { HasCleanDisk (state S.Store self.new.conn) → IfOk result (λ history. (h : HistoryData)
            → IsHistory h → Holds (rows_of h) (state S.Store self.old.conn).now → h ≡ history) }
        ensures not_ours { HasCleanDisk (state S.Store self.new.conn) → IfErr result (λ fault. fault ≡ NotOurs
            → (h : HistoryData) → IsHistory h → HasTexts h → IfSome h.text IsReadable → Fits Format.Two h
            → ¬ Holds (rows_of h) (state S.Store self.old.conn).now) }
        ensures shown { HasCleanDisk (state S.Store self.new.conn)
            → IfOk result (λ history. ShowsHistory Format.Two history (state S.Store self.old.conn).now) }
        ensures ours { HasCleanDisk (state S.Store self.new.conn) → IfOk result (λ history. (was : Database)
            → IsTakenAs was (state S.Store self.old.conn).now → IsOfOurs was history) }
        ensures answered { HasCleanDisk (state S.Store self.new.conn)
            → IfErr result (IsUnloaded S.Store (state S.Store self.old.conn) Format.Two) }
        ensures kept { IfOk result (λ history. (these : Contents) → Holds these (state S.Store self.old.conn).now
            → IsKept S.Store self.new history) }
        ensures same { let old = state S.Store self.old.conn in
            let new = state S.Store self.new.conn in
            HasCleanDisk new → OnOk result (IsUnchanged old new) }
        ensures left { let old = state S.Store self.old.conn in
            let new = state S.Store self.new.conn in
            HasCleanDisk new → IsAsItWas old new }
        ensures crash { Survives (state S.Store self.old.conn) (state S.Store self.new.conn) (λ _. ⊥) }
        ensures open { let old = state S.Store self.old.conn in
            HasCleanDisk (state S.Store self.new.conn) → HasCleanDisk old × IfOk result (λ _. IsTrue old.is_open) }
        ensures leaves { IfOk result (λ history. (these : Contents) → Holds these (state S.Store self.old.conn).now
            → Leaves S.Store self.new (history ∷ [])) }
        ensures tally { self.new.tally ≡ self.old.tally }
    {
        // Outside a transaction an open database is as it was committed.
        self.conn.is_autocommit();
        let history = loading::load(alloc, &mut self.conn, Format::Two)?;
        // What is committed obeys the schema.
        self.conn.schema();
        Ok(history)
    }
}
