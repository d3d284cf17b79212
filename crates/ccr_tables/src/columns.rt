//! Columns of a row as a history has them.
ghost use Rattle.std.specs.Prelude.{◌≡◌, ◌<◌, length, IfOk, IfErr, IfSome, IfNone};
ghost use Rattle.sqlite.specs.Order.{column};
ghost use Rattle.ccr_tables.specs.Cause.{cause_of};

use crate::cause::Cause;
use sqlite::types::FromSql;
use sqlite::{Error, Row};

/// What a row has in a column; `None` where it has another kind of value there.
pub(crate) fn read_column<T: FromSql>(row: &Row, at: usize) -> Result<Option<T>, Error>
    ensures value { IfOk result (λ found. IfSome found (λ x. T.FromSql.reads_as (column row.now at) x)) }
    ensures none { IfOk result (λ found. IfNone found
        (at < length row.now → ¬ T.FromSql.is_readable (column row.now at))) }
    ensures only { IfErr result (λ e. cause_of e ≡ Cause.NoMemory) }
{
    match row.get::<T>(at) {
        Ok(value) => Ok(Some(value)),
        Err(error) if Cause::of(&error) == Cause::NoMemory => Err(error),
        Err(_) => Ok(None),
    }
}
