//! The rows that the six tables have.
ghost use Rattle.std.specs.Prelude.{◌≡◌, ◌≢◌, ◌⊎◌, false, IsTrue, IfOk, IfErr, IfSome, IfNone};
ghost use Rattle.ccr_tables.specs.Cause.{cause_of};
ghost use Rattle.sqlite.specs.State.{HasCleanDisk};
ghost use Rattle.sqlite.specs.Held.{state};
ghost use Rattle.ccr_tables.specs.NamedRows.{IsNamedRow};
ghost use Rattle.ccr_tables.specs.Contents.{Holds};
ghost use Rattle.ccr_tables.specs.Left.{OnlyReads};
ghost use Rattle.ccr_tables.specs.Read.{FailedToRead};
ghost use Rattle.ccr_tables.specs.Tables.{listing_text};
ghost use Rattle.ccr_tables.specs.declared.table.Table.TheVariants as table;
ghost use Rattle.ccr_tables.specs.Shown.{ShowsOther};
ghost use Rattle.ccr_tables.specs.Schema.{our_schema};
ghost use Rattle.ccr_store.specs.Listed.{AreSeen, AreBuilt, HasOther};
ghost use Rattle.ccr_store.specs.Shown.{ShowsSeen, ShowsBuilt};

use ccr_tables::{Cause, NamedRow, Table, select, select_named};
use sqlite::{Alter, Connection, Error as SqlError, Row};
use std::alloc::Global;

/// The rows of what was set and seen, each table in the order of its key.
#[derive(Drop)]
pub(crate) struct Seen {
    pub(crate) meta: Vec<Row>,
    pub(crate) scopes: Vec<Row>,
    pub(crate) versions: Vec<Row>,
}

/// The rows of what was built and pinned, each table in the order of its key.
#[derive(Drop)]
pub(crate) struct Built {
    pub(crate) builds: Vec<NamedRow>,
    pub(crate) pairs: Vec<NamedRow>,
    pub(crate) pins: Vec<Row>,
}

/// Reads what was set and seen.
pub(crate) fn read_seen<S: Alter>(conn: &mut Connection<S>) -> Result<Seen, SqlError>
    ensures rows { HasCleanDisk (state S.Store conn.new) → IfOk result (λ seen. (these : _)
        → Holds these (state S.Store conn.old).now → AreSeen these seen.meta.items seen.scopes.items seen.versions.items) }
    ensures shown { HasCleanDisk (state S.Store conn.new) → IfOk result (λ seen.
        ShowsSeen (state S.Store conn.old).now seen.meta.items seen.scopes.items seen.versions.items) }
    ensures reads { OnlyReads (state S.Store conn.old) (state S.Store conn.new) result }
    ensures unrefused { HasCleanDisk (state S.Store conn.new) → (state S.Store conn.old).now.schema ≡ our_schema
        → IfErr result (λ e. cause_of e ≢ Cause.Refused) }
    ensures answered { HasCleanDisk (state S.Store conn.new)
        → IfErr result (FailedToRead S.Store (state S.Store conn.old)) }
    ensures clean { HasCleanDisk (state S.Store conn.new) → HasCleanDisk (state S.Store conn.old) }
    ensures open { HasCleanDisk (state S.Store conn.new) → IfOk result (λ _. IsTrue (state S.Store conn.old).is_open) }
    ensures mode { conn.old.in_transaction ≡ false → conn.new.in_transaction ≡ false }
{
    let meta = select(conn, Table::Meta)?;
    let scopes = select(conn, Table::Scopes)?;
    let versions = select(conn, Table::Versions)?;
    Ok(Seen {
        meta,
        scopes,
        versions,
    })
}

/// Reads what was built and pinned; `None` where a row of `builds` or `pairs` is no history's.
pub(crate) fn read_built<S: Alter>(
    alloc: Global,
    conn: &mut Connection<S>,
) -> Result<Option<Built>, SqlError>
    ensures rows { HasCleanDisk (state S.Store conn.new) → IfOk result (λ found. IfSome found (λ built. (these : _)
        → Holds these (state S.Store conn.old).now
        → AreBuilt these built.builds.items built.pairs.items built.pins.items)) }
    ensures none { HasCleanDisk (state S.Store conn.new) → IfOk result (λ found. IfNone found ((these : _)
        → Holds these (state S.Store conn.old).now
        → HasOther IsNamedRow 1 these.builds ⊎ HasOther IsNamedRow 4 these.pairs)) }
    ensures shown { HasCleanDisk (state S.Store conn.new) → IfOk result (λ found. IfSome found (λ built.
        ShowsBuilt (state S.Store conn.old).now built.builds.items built.pairs.items built.pins.items)) }
    ensures other { HasCleanDisk (state S.Store conn.new) → IfOk result (λ found. IfNone found
        (ShowsOther IsNamedRow (listing_text table.Builds) (state S.Store conn.old).now
        ⊎ ShowsOther IsNamedRow (listing_text table.Pairs) (state S.Store conn.old).now)) }
    ensures reads { OnlyReads (state S.Store conn.old) (state S.Store conn.new) result }
    ensures unrefused { HasCleanDisk (state S.Store conn.new) → (state S.Store conn.old).now.schema ≡ our_schema
        → IfErr result (λ e. cause_of e ≢ Cause.Refused) }
    ensures answered { HasCleanDisk (state S.Store conn.new) → IfErr result (λ e. (cause_of e ≡ Cause.NoMemory)
        ⊎ FailedToRead S.Store (state S.Store conn.old) e) }
    ensures clean { HasCleanDisk (state S.Store conn.new) → HasCleanDisk (state S.Store conn.old) }
    ensures mode { conn.old.in_transaction ≡ false → conn.new.in_transaction ≡ false }
{
    let Some(builds) = select_named(alloc, conn, Table::Builds)? else {
        return Ok(None);
    };
    let Some(pairs) = select_named(alloc, conn, Table::Pairs)? else {
        return Ok(None);
    };
    let pins = select(conn, Table::Pins)?;
    Ok(Some(Built {
        builds,
        pairs,
        pins,
    }))
}
