//! A new database.

ghost use Rattle.std.specs.Prelude.{◌≡◌, ◌≢◌, [], false, IsTrue, IfOk, IfErr, OnOk};
ghost use Rattle.sqlite.specs.State.{HasCleanDisk, KeepsCommit, Survives, ExecutesInside};
ghost use Rattle.sqlite.specs.Effect.{IsDatabase};
ghost use Rattle.sqlite.specs.Held.{state};
ghost use Rattle.ccr_tables.specs.Cause.{cause_of};
ghost use Rattle.ccr_tables.specs.Contents.{Holds, Keeps, ListOurs, new_contents};
ghost use Rattle.ccr_tables.specs.Created.{FailedAtFirst, IsUnmade, WasRefused};
ghost use Rattle.ccr_tables.specs.Schema.{no_schema, meta_schema, our_schema};
ghost use Rattle.ccr_tables.specs.Step.{Creates, Founds, IsBare};
ghost use Rattle.ccr_tables.specs.Tables.{creation_text, schema_before, schema_with, schema_of_all, AreNext};

use crate::cause::Cause;
use crate::table::Table;
use crate::write::{Write, write_one};
use sqlite::{Alter, Connection, Error, Transaction};

/// What `create` found.
#[derive(Clone, Copy, PartialEq, Eq)]
pub enum Creation {
    /// The database was new; it has the six tables now, and the number of the format.
    Made,
    /// The first table was refused, so that tables are there already; nothing is changed.
    Found,
    /// A later table was refused; nothing is changed.
    Foreign,
}

/// The tables behind the first, in the order in which they are made.
const OTHERS: [Table; 5] = [
    Table::Scopes,
    Table::Versions,
    Table::Builds,
    Table::Pairs,
    Table::Pins,
];

/// Makes a table.
fn create_table<S: Alter>(tx: &mut Transaction<'_, S>, table: Table) -> Result<(), Error>
    ensures same_reference { tx.new.conn.ghost_name ≡ tx.old.conn.ghost_name }
    ensures step { let old = state S.Store tx.old.conn.now in
        let new = state S.Store tx.new.conn.now in
        HasCleanDisk new → IsTrue old.in_transaction
        → Creates (schema_before table) (schema_with table) old new result }
    ensures taken { let old = state S.Store tx.old.conn.now in
        HasCleanDisk (state S.Store tx.new.conn.now) → IsTrue old.in_transaction
        → old.now.schema ≡ our_schema → table ≡ Table.Meta → IfOk result (λ _. ⊥) }
    ensures answered { let old = state S.Store tx.old.conn.now in
        let new = state S.Store tx.new.conn.now in
        HasCleanDisk new → IsTrue old.in_transaction
        → IfErr result (λ e. ExecutesInside 0 (creation_text table) [] old new (Err e)) }
    ensures survives { Survives (state S.Store tx.old.conn.now) (state S.Store tx.new.conn.now) (λ _. ⊥) }
{
    tx.execute(table.creation(), &[])?;
    Ok(())
}

/// Makes these tables, each the next behind those before it.
fn create_tables<S: Alter>(tx: &mut Transaction<'_, S>, tables: &[Table]) -> Result<(), Error>
    requires { AreNext meta_schema tables.now }
    ensures same_reference { tx.new.conn.ghost_name ≡ tx.old.conn.ghost_name }
    ensures step { let old = state S.Store tx.old.conn.now in
        let new = state S.Store tx.new.conn.now in
        HasCleanDisk new → IsTrue old.in_transaction
        → Creates meta_schema (schema_of_all meta_schema tables.now) old new result }
    ensures answered { let old = state S.Store tx.old.conn.now in
        HasCleanDisk (state S.Store tx.new.conn.now) → IsTrue old.in_transaction
        → IfErr result (FailedAtFirst S.Store old) }
    ensures survives { Survives (state S.Store tx.old.conn.now) (state S.Store tx.new.conn.now) (λ _. ⊥) }
{
    for table in tables {
        create_table(tx, *table)?;
    }
    Ok(())
}

fn create_all<S: Alter>(tx: &mut Transaction<'_, S>) -> Result<(), Error>
    ensures same_reference { tx.new.conn.ghost_name ≡ tx.old.conn.ghost_name }
    ensures step { let old = state S.Store tx.old.conn.now in
        let new = state S.Store tx.new.conn.now in
        HasCleanDisk new → IsTrue old.in_transaction → Founds meta_schema old new result }
    ensures answered { let old = state S.Store tx.old.conn.now in
        HasCleanDisk (state S.Store tx.new.conn.now) → IsTrue old.in_transaction
        → IfErr result (FailedAtFirst S.Store old) }
    ensures survives { Survives (state S.Store tx.old.conn.now) (state S.Store tx.new.conn.now) (λ _. ⊥) }
{
    create_tables(tx, &OTHERS)?;
    write_one(tx, &Write::Format)?;
    Ok(())
}

/// `otherwise` where the statement was refused, and else the failure.
fn if_refused(error: Error, otherwise: Creation) -> Result<Creation, Error>
    requires { otherwise ≢ Creation.Made }
    ensures ok { IfOk result (λ it. it ≢ Creation.Made) }
    ensures err { IfErr result (λ e. cause_of e ≢ Cause.Refused) }
    ensures same { IfErr result (λ e. e ≡ error) }
    ensures refused { OnOk result (cause_of error ≡ Cause.Refused) }
{
    if Cause::of(&error) == Cause::Refused {
        Ok(otherwise)
    } else {
        Err(error)
    }
}

fn create_rest<S: Alter>(tx: &mut Transaction<'_, S>) -> Result<Creation, Error>
    ensures same_reference { tx.new.conn.ghost_name ≡ tx.old.conn.ghost_name }
    ensures kept { let old = state S.Store tx.old.conn.now in
        let new = state S.Store tx.new.conn.now in
        HasCleanDisk new → IsTrue old.in_transaction → KeepsCommit old new }
    ensures made { let old = state S.Store tx.old.conn.now in
        let new = state S.Store tx.new.conn.now in
        HasCleanDisk new → IsTrue old.in_transaction → result ≡ Ok Creation.Made
        → IsTrue new.in_transaction × (IsBare meta_schema old.now → Holds new_contents new.now) }
    ensures sound { let old = state S.Store tx.old.conn.now in
        let new = state S.Store tx.new.conn.now in
        HasCleanDisk new → IsTrue old.in_transaction → result ≡ Ok Creation.Made
        → IsBare meta_schema old.now → IsDatabase new.now }
    ensures answered { let old = state S.Store tx.old.conn.now in
        HasCleanDisk (state S.Store tx.new.conn.now) → IsTrue old.in_transaction
        → IfErr result (FailedAtFirst S.Store old) }
    ensures refusal { let old = state S.Store tx.old.conn.now in
        HasCleanDisk (state S.Store tx.new.conn.now) → IsTrue old.in_transaction
        → IfOk result (λ it. it ≢ Creation.Made → WasRefused S.Store old) }
    ensures survives { Survives (state S.Store tx.old.conn.now) (state S.Store tx.new.conn.now) (λ _. ⊥) }
{
    match create_all(tx) {
        Ok(()) => Ok(Creation::Made),
        Err(error) => if_refused(error, Creation::Foreign),
    }
}

fn create_in<S: Alter>(tx: &mut Transaction<'_, S>) -> Result<Creation, Error>
    ensures same_reference { tx.new.conn.ghost_name ≡ tx.old.conn.ghost_name }
    ensures kept { let old = state S.Store tx.old.conn.now in
        let new = state S.Store tx.new.conn.now in
        HasCleanDisk new → IsTrue old.in_transaction → KeepsCommit old new }
    ensures made { let old = state S.Store tx.old.conn.now in
        let new = state S.Store tx.new.conn.now in
        HasCleanDisk new → IsTrue old.in_transaction → result ≡ Ok Creation.Made
        → IsTrue new.in_transaction × (old.now.schema ≡ no_schema → Holds new_contents new.now) }
    ensures sound { let old = state S.Store tx.old.conn.now in
        let new = state S.Store tx.new.conn.now in
        HasCleanDisk new → IsTrue old.in_transaction → result ≡ Ok Creation.Made
        → old.now.schema ≡ no_schema → IsDatabase new.now }
    ensures taken { let old = state S.Store tx.old.conn.now in
        HasCleanDisk (state S.Store tx.new.conn.now) → IsTrue old.in_transaction
        → old.now.schema ≡ our_schema → result ≢ Ok Creation.Made }
    ensures answered { let old = state S.Store tx.old.conn.now in
        HasCleanDisk (state S.Store tx.new.conn.now) → IsTrue old.in_transaction
        → IfErr result (FailedAtFirst S.Store old) }
    ensures refusal { let old = state S.Store tx.old.conn.now in
        HasCleanDisk (state S.Store tx.new.conn.now) → IsTrue old.in_transaction
        → IfOk result (λ it. it ≢ Creation.Made → WasRefused S.Store old) }
    ensures survives { Survives (state S.Store tx.old.conn.now) (state S.Store tx.new.conn.now) (λ _. ⊥) }
{
    match create_table(tx, Table::Meta) {
        Ok(_) => create_rest(tx),
        Err(error) => if_refused(error, Creation::Found),
    }
}

/// Makes the six tables and writes the number of the format, in one transaction. Where a CREATE is refused the answer
/// says which; a failure of memory or disk is an `Err`. In both cases the database stays as it was.
pub fn create<S: Alter>(conn: &mut Connection<S>) -> Result<Creation, Error>
    requires { (state S.Store conn.old).in_transaction ≡ false }
    ensures made { let old = state S.Store conn.old in
        let new = state S.Store conn.new in
        HasCleanDisk new → result ≡ Ok Creation.Made
        → (new.committed ≡ new.now) × (old.now.schema ≡ no_schema → Holds new_contents new.now) }
    ensures kept { let old = state S.Store conn.old in
        let new = state S.Store conn.new in
        HasCleanDisk new → IsTrue new.is_open → result ≢ Ok Creation.Made
        → (new.now ≡ old.committed) × (new.committed ≡ old.committed) }
    ensures taken { HasCleanDisk (state S.Store conn.new) → (state S.Store conn.old).now.schema ≡ our_schema
        → result ≢ Ok Creation.Made }
    ensures was_open { let old = state S.Store conn.old in
        let new = state S.Store conn.new in
        HasCleanDisk new → IsTrue new.is_open → result ≢ Ok Creation.Made → IsTrue old.is_open }
    ensures answered { HasCleanDisk (state S.Store conn.new)
        → IfErr result (IsUnmade S.Store (state S.Store conn.old)) }
    ensures refusal { HasCleanDisk (state S.Store conn.new)
        → IfOk result (λ it. it ≢ Creation.Made → WasRefused S.Store (state S.Store conn.old)) }
    ensures crash { let old = state S.Store conn.old in
        Survives old (state S.Store conn.new)
        (λ trees. old.now.schema ≡ no_schema → Keeps new_contents trees × ListOurs trees) }
    ensures refused { IfOk result (λ it. it ≢ Creation.Made
        → Survives (state S.Store conn.old) (state S.Store conn.new) (λ _. ⊥)) }
    ensures mode { (state S.Store conn.new).in_transaction ≡ false }
{
    let mut tx = conn.transaction();
    match create_in(&mut tx)? {
        Creation::Made => {
            tx.commit()?;
            Ok(Creation::Made)
        }
        refused => {
            tx.rollback();
            Ok(refused)
        }
    }
}
