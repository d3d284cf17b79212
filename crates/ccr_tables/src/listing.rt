//! All rows of a table.

ghost use Rattle.std.specs.Prelude.{◌≡◌, ◌≢◌, false, IsTrue, IfOk, IfErr};
ghost use Rattle.sqlite.specs.State.{HasCleanDisk};
ghost use Rattle.sqlite.specs.Held.{state};
ghost use Rattle.ccr_tables.specs.Cause.{cause_of};
ghost use Rattle.ccr_tables.specs.Contents.{Holds};
ghost use Rattle.ccr_tables.specs.Left.{OnlyReads};
ghost use Rattle.ccr_tables.specs.Listing.{IsListed};
ghost use Rattle.ccr_tables.specs.Read.{FailedToRead};
ghost use Rattle.ccr_tables.specs.Schema.{our_schema};
ghost use Rattle.ccr_tables.specs.Shown.{Shows};
ghost use Rattle.ccr_tables.specs.Tables.{key_width, listing_text, rows_of};

use crate::cause::Cause;
use crate::table::Table;
use sqlite::{Alter, Connection, Error, Row};

/// All rows of a table, by its key. A failure of `sqlite` is answered.
pub fn select<S: Alter>(conn: &mut Connection<S>, table: Table) -> Result<Vec<Row>, Error>
    ensures rows { HasCleanDisk (state S.Store conn.new) → IfOk result (λ rows. (these : _)
        → Holds these (state S.Store conn.old).now → IsListed (key_width table) (rows_of table these) rows.items) }
    ensures shown { HasCleanDisk (state S.Store conn.new)
        → IfOk result (λ rows. Shows (listing_text table) (state S.Store conn.old).now rows.items) }
    ensures reads { OnlyReads (state S.Store conn.old) (state S.Store conn.new) result }
    ensures clean { HasCleanDisk (state S.Store conn.new) → HasCleanDisk (state S.Store conn.old) }
    ensures open { HasCleanDisk (state S.Store conn.new) → IfOk result (λ _. IsTrue (state S.Store conn.old).is_open) }
    ensures unrefused { HasCleanDisk (state S.Store conn.new) → (state S.Store conn.old).now.schema ≡ our_schema
        → IfErr result (λ e. cause_of e ≢ Cause.Refused) }
    ensures answered { HasCleanDisk (state S.Store conn.new)
        → IfErr result (FailedToRead S.Store (state S.Store conn.old)) }
    ensures mode { conn.old.in_transaction ≡ false → conn.new.in_transaction ≡ false }
{
    conn.query_all(table.listing(), &[])
}
