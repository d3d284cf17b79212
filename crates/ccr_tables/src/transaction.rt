//! Writes in one transaction.

ghost use Rattle.std.specs.Prelude.{◌≡◌, ◌≢◌, [], false, IsTrue, IfErr, OnOk, OnErr};
ghost use Rattle.sqlite.specs.State.{HasCleanDisk, Survives};
ghost use Rattle.sqlite.specs.Held.{state};
ghost use Rattle.sqlite.specs.Effect.{IsDatabase};
ghost use Rattle.ccr_tables.specs.Answered.{FailedAtWrite, IsAnswered};
ghost use Rattle.ccr_tables.specs.Contents.{Contents, Holds};
ghost use Rattle.ccr_tables.specs.Step.{AltersAll, Turns, IsLeftBy};
ghost use Rattle.ccr_tables.specs.Written.{all_written};

use crate::write::{Write, write_one};
use sqlite::{Alter, Connection, Error, Transaction};

fn write_all<S: Alter>(tx: &mut Transaction<'_, S>, writes: &[Write]) -> Result<(), Error>
    ensures same_reference { tx.new.conn.ghost_name ≡ tx.old.conn.ghost_name }
    ensures step { let old = state S.Store tx.old.conn.now in
        let new = state S.Store tx.new.conn.now in
        HasCleanDisk new → IsTrue old.in_transaction → AltersAll old new (all_written writes.now) result }
    ensures opened { let old = state S.Store tx.old.conn.now in
        HasCleanDisk (state S.Store tx.new.conn.now) → IsTrue old.in_transaction
        → OnOk result (writes.now ≢ [] → IsTrue old.is_open) }
    ensures sound { let old = state S.Store tx.old.conn.now in
        let new = state S.Store tx.new.conn.now in
        HasCleanDisk new → IsTrue old.in_transaction
        → OnOk result (writes.now ≢ [] → (these : Contents) → Holds these old.now → IsDatabase new.now) }
    ensures answered { let old = state S.Store tx.old.conn.now in
        HasCleanDisk (state S.Store tx.new.conn.now) → IsTrue old.in_transaction
        → IfErr result (FailedAtWrite S.Store writes.now old) }
    ensures survives { Survives (state S.Store tx.old.conn.now) (state S.Store tx.new.conn.now) (λ _. ⊥) }
{
    for write in writes {
        write_one(tx, write)?;
    }
    Ok(())
}

/// Makes all writes in one transaction, or none. After `Ok` they are on the disk. After an `Err` the tables are as they
/// were, unless the disk failed so that the connection is shut; a later open finds them as they were or with all writes.
pub fn commit<S: Alter>(conn: &mut Connection<S>, writes: &[Write]) -> Result<(), Error>
    requires { (state S.Store conn.old).in_transaction ≡ false }
    ensures done { let old = state S.Store conn.old in
        let new = state S.Store conn.new in
        HasCleanDisk new
        → OnOk result (Turns (all_written writes.now) old.now new.now × (new.committed ≡ new.now)) }
    ensures refused { let old = state S.Store conn.old in
        let new = state S.Store conn.new in
        HasCleanDisk new → IsTrue new.is_open
        → OnErr result ((new.now ≡ old.committed) × (new.committed ≡ old.committed)) }
    ensures crash { let old = state S.Store conn.old in
        Survives old (state S.Store conn.new) (IsLeftBy writes.now old) }
    ensures answered { HasCleanDisk (state S.Store conn.new)
        → IfErr result (IsAnswered S.Store writes.now (state S.Store conn.old)) }
    ensures mode { (state S.Store conn.new).in_transaction ≡ false }
    ensures durable { let new = state S.Store conn.new in
        IsTrue new.is_open → (trees : _) → new.may_leave trees → trees ≡ new.committed.trees }
    ensures open { HasCleanDisk (state S.Store conn.new) → OnOk result (IsTrue (state S.Store conn.new).is_open) }
    ensures was_open { let old = state S.Store conn.old in
        let new = state S.Store conn.new in
        HasCleanDisk new → IsTrue new.is_open → HasCleanDisk old × IsTrue old.is_open }
{
    let mut tx = conn.transaction();
    write_all(&mut tx, writes)?;
    tx.commit()
}
