//! One write of a commit.

ghost use Rattle.std.specs.Prelude.{◌≡◌, IsTrue, IfErr};
ghost use Rattle.sqlite.specs.State.{HasCleanDisk, Survives, ExecutesInside};
ghost use Rattle.sqlite.specs.Held.{state};
ghost use Rattle.sqlite.specs.Values.{bound};
ghost use Rattle.ccr_tables.specs.Answered.{text_of, params_of};
ghost use Rattle.ccr_tables.specs.Step.{Alters};
ghost use Rattle.ccr_tables.specs.Written.{written};

use sqlite::types::ValueRef;
use sqlite::{Alter, Error, Transaction, params};

/// The number of the format, as row 1 of `meta` has it.
const FORMAT: &[u8] = b"2";

/// What a commit writes, a row each. The columns are those of the tables; their rules are the caller's.
#[derive(Drop)]
pub enum Write {
    /// Row 1 of `meta`: the number of the format, in place of an earlier one.
    Format,
    /// Row 2 of `meta`: the text of the pipeline, in place of an earlier one.
    PipelineText(Vec<u8>),
    /// A new row of `scopes`: id, resource, kind, source.
    Scope(u32, String, String, String),
    /// A new row of `versions`: scope, place, body.
    Version(u32, u32, String),
    /// A new row of `builds`: id, job, number, status.
    Build(u32, String, u32, u32),
    /// Another status for the build of this id.
    Status(u32, u32),
    /// A new row of `pairs`: build, input, scope, place.
    Pair(u32, String, u32, u32),
    /// No row of `pairs` of this build, input, scope and place.
    NoPair(u32, String, u32, u32),
    /// A row of `pins`, resource and body, in place of an earlier one of the resource.
    Pin(String, String),
    /// No row of `pins` for this resource.
    NoPin(String),
}

impl Write {
    /// The statement that makes the write.
    fn statement(&self) -> &'static str
        ensures { result.now ≡ text_of self.now }
    {
        match self {
            Write::Format | Write::PipelineText(_) => {
                "INSERT INTO meta(k, v) VALUES(?1, ?2) ON CONFLICT(k) DO UPDATE SET v = excluded.v"
            }
            Write::Scope(..) => {
                "INSERT INTO scopes(id, resource, kind, source) VALUES(?1, ?2, ?3, ?4)"
            }
            Write::Version(..) => "INSERT INTO versions(scope, place, body) VALUES(?1, ?2, ?3)",
            Write::Build(..) =>
                "INSERT INTO builds(id, job, number, status) VALUES(?1, ?2, ?3, ?4)",
            Write::Status(..) => "UPDATE builds SET status = ?2 WHERE id = ?1",
            Write::Pair(..) => {
                "INSERT INTO pairs(build, input, scope, place) VALUES(?1, ?2, ?3, ?4)"
            }
            Write::NoPair(..) => {
                "DELETE FROM pairs WHERE build = ?1 AND input = ?2 AND scope = ?3 AND place = ?4"
            }
            Write::Pin(..) => {
                "INSERT INTO pins(resource, body) VALUES(?1, ?2) ON CONFLICT(resource) DO UPDATE SET body = excluded.body"
            }
            Write::NoPin(_) => "DELETE FROM pins WHERE resource = ?1",
        }
    }
}

/// Makes one write, whose values these are.
fn make<S: Alter>(
    tx: &mut Transaction<'_, S>,
    write: &Write,
    values: &[ValueRef<'_>],
) -> Result<(), Error>
    requires { bound values.now ≡ params_of write.now }
    ensures same_reference { tx.new.conn.ghost_name ≡ tx.old.conn.ghost_name }
    ensures step { let old = state S.Store tx.old.conn.now in
        let new = state S.Store tx.new.conn.now in
        HasCleanDisk new → IsTrue old.in_transaction → Alters old new (written write.now) result }
    ensures answered { let old = state S.Store tx.old.conn.now in
        let new = state S.Store tx.new.conn.now in
        HasCleanDisk new → IsTrue old.in_transaction
        → IfErr result (λ e. ExecutesInside 0 (text_of write.now) (params_of write.now) old new (Err e)) }
    ensures survives { Survives (state S.Store tx.old.conn.now) (state S.Store tx.new.conn.now) (λ _. ⊥) }
{
    tx.execute(write.statement(), values)?;
    Ok(())
}

/// Makes one write in a transaction. A failure of `sqlite` is answered.
pub fn write_one<S: Alter>(tx: &mut Transaction<'_, S>, write: &Write) -> Result<(), Error>
    ensures same_reference { tx.new.conn.ghost_name ≡ tx.old.conn.ghost_name }
    ensures step { let old = state S.Store tx.old.conn.now in
        let new = state S.Store tx.new.conn.now in
        HasCleanDisk new → IsTrue old.in_transaction → Alters old new (written write.now) result }
    ensures answered { let old = state S.Store tx.old.conn.now in
        let new = state S.Store tx.new.conn.now in
        HasCleanDisk new → IsTrue old.in_transaction
        → IfErr result (λ e. ExecutesInside 0 (text_of write.now) (params_of write.now) old new (Err e)) }
    ensures survives { Survives (state S.Store tx.old.conn.now) (state S.Store tx.new.conn.now) (λ _. ⊥) }
{
    match write {
        Write::Format => make(tx, write, params![1u32, FORMAT]),
        Write::PipelineText(text) => make(tx, write, params![2u32, text]),
        Write::Scope(id, resource, kind, source) => {
            make(tx, write, params![*id, resource, kind, source])
        }
        Write::Version(scope, place, body) => make(tx, write, params![*scope, *place, body]),
        Write::Build(id, job, number, status) => make(
            tx,
            write,
            params![*id, job, *number, *status],
        ),
        Write::Status(id, status) => make(tx, write, params![*id, *status]),
        Write::Pair(build, input, scope, place) | Write::NoPair(build, input, scope, place) => {
            make(tx, write, params![*build, input, *scope, *place])
        }
        Write::Pin(resource, body) => make(tx, write, params![resource, body]),
        Write::NoPin(resource) => make(tx, write, params![resource]),
    }
}
