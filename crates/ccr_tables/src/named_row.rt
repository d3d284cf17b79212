//! Rows of `builds` and of `pairs`, in less memory than rows of any values.

ghost use Rattle.std.specs.Prelude.{◌≡◌, ◌≢◌, ◌⊎◌, ◌++◌, [], ◌∷◌, List, false, IfOk, IfErr, IfSome, IfNone};
ghost use Rattle.sqlite.specs.Order.{Row as RowData};
ghost use Rattle.sqlite.specs.State.{HasCleanDisk};
ghost use Rattle.sqlite.specs.Held.{state};
ghost use Rattle.ccr_tables.specs.Cause.{cause_of};
ghost use Rattle.ccr_tables.specs.Contents.{Holds};
ghost use Rattle.ccr_tables.specs.Found.{Are, AreFound};
ghost use Rattle.ccr_tables.specs.Left.{OnlyReads};
ghost use Rattle.ccr_tables.specs.NamedRows.{named_row, IsNamedRow};
ghost use Rattle.ccr_tables.specs.Read.{FailedToRead};
ghost use Rattle.ccr_tables.specs.Schema.{our_schema};
ghost use Rattle.ccr_tables.specs.Shown.{ShowsOfKind};
ghost use Rattle.ccr_tables.specs.Tables.{key_width, listing_text, rows_of};

use crate::cause::Cause;
use crate::columns::read_column;
use crate::shared_texts::SharedTexts;
use crate::table::Table;
use sqlite::{Alter, Connection, Error, ErrorCode, Row};
use std::alloc::Global;
use std::marker::Model;
use std::rc::Rc;

/// A row of a number, a name and two more numbers, as `builds` and `pairs` have them. Contracts see the row.
#[derive(Drop)]
pub struct NamedRow {
    first: u32,
    name: Rc<String>,
    second: u32,
    third: u32,
}

impl Model for NamedRow {
    ghost use Rattle.std.specs.Prelude.{List, [], ◌∷◌, pos, string_bytes};
    ghost use Rattle.std.specs.Coded.{coded_list};
    ghost use Rattle.sqlite_value.specs.declared.value.Value.{Value as SqlValue};
    ghost use Rattle.sqlite_value.specs.contracts.value.Value.{the_row};
    ghost use Rattle.ccr_tables.specs.NamedRows.{named_row};

    ghost Value = { List SqlValue };

    ghost coded = { coded_list the_row.coded };

    ghost view = { λ r. named_row r.first (string_bytes r.name.value) r.second r.third };
}

impl NamedRow {
    /// Its columns: id, job, number and status of a build; or build, input, scope and place.
    pub fn columns(&self) -> (u32, &str, u32, u32)
        ensures { self.now ≡ named_row result.0 result.1.now result.2 result.3 }
    {
        let name = self.name.as_ref().as_str();
        (self.first, name, self.second, self.third)
    }
}

/// The row as a named one, with its name among the texts; `None` where it is none.
fn read_named_row(texts: &mut SharedTexts, row: &Row) -> Result<Option<NamedRow>, Error>
    ensures is { IfOk result (λ found. IfSome found (λ it. it ≡ row.now)) }
    ensures none { IfOk result (λ found. IfNone found (¬ IsNamedRow row.now)) }
    ensures only { IfErr result (λ e. cause_of e ≡ Cause.NoMemory) }
{
    if row.column_count() != 4 {
        return Ok(None);
    }
    let Some(first) = read_column(row, 0)? else {
        return Ok(None);
    };
    let Some(name) = read_column::<String>(row, 1)? else {
        return Ok(None);
    };
    let Some(second) = read_column(row, 2)? else {
        return Ok(None);
    };
    let Some(third) = read_column(row, 3)? else {
        return Ok(None);
    };
    let name = texts.shared(name.as_str())?;
    Ok(Some(NamedRow {
        first,
        name,
        second,
        third,
    }))
}

/// The rows so far, and one more; `None` where one of them is no named one.
fn with_row(
    found: Option<Vec<NamedRow>>,
    texts: &mut SharedTexts,
    row: &Row,
) -> Result<Option<Vec<NamedRow>>, Error>
    ensures are { IfOk result (λ more. (rows : List RowData)
        → Are IsNamedRow rows found → Are IsNamedRow (rows ++ row.now ∷ []) more) }
    ensures only { IfErr result (λ e. cause_of e ≡ Cause.NoMemory) }
{
    let Some(mut rows) = found else {
        return Ok(None);
    };
    let Some(named) = read_named_row(texts, row)? else {
        return Ok(None);
    };
    rows.push(named)?;
    Ok(Some(rows))
}

/// All rows of `builds` or of `pairs`, by the table's key; `None` where one of them is no [`NamedRow`]. A failure of
/// `sqlite` is answered.
pub fn select_named<S: Alter>(
    alloc: Global,
    conn: &mut Connection<S>,
    table: Table,
) -> Result<Option<Vec<NamedRow>>, Error>
    ensures rows { HasCleanDisk (state S.Store conn.new) → IfOk result (λ found. (these : _)
        → Holds these (state S.Store conn.old).now → AreFound IsNamedRow (key_width table) (rows_of table these) found) }
    ensures shown { HasCleanDisk (state S.Store conn.new)
        → IfOk result (ShowsOfKind IsNamedRow (listing_text table) (state S.Store conn.old).now) }
    ensures reads { OnlyReads (state S.Store conn.old) (state S.Store conn.new) result }
    ensures clean { HasCleanDisk (state S.Store conn.new) → HasCleanDisk (state S.Store conn.old) }
    ensures unrefused { HasCleanDisk (state S.Store conn.new) → (state S.Store conn.old).now.schema ≡ our_schema
        → IfErr result (λ e. cause_of e ≢ Cause.Refused) }
    ensures answered { HasCleanDisk (state S.Store conn.new) → IfErr result (λ e. (cause_of e ≡ Cause.NoMemory)
        ⊎ FailedToRead S.Store (state S.Store conn.old) e) }
    ensures mode { conn.old.in_transaction ≡ false → conn.new.in_transaction ≡ false }
{
    let mut found = Some(Vec::new(alloc));
    let mut texts = SharedTexts::new(alloc);
    let mut rows = conn.query(table.listing(), &[])?;
    // A loop has to be seen to end, so it has a bound; memory ends before so many rows do. The label names it in its proof.
    'rows: for _ in 0..u64::MAX {
        let Some(row) = rows.next()? else {
            return Ok(found);
        };
        found = with_row(found, &mut texts, row)?;
    }
    Err(Error::SqliteFailure(ErrorCode::OutOfMemory))
}
