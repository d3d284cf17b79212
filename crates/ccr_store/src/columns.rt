//! Columns of a row.
ghost use Rattle.std.specs.Prelude.{◌≡◌, ◌<◌, [], pos, length, IsTrue, IfOk, IfErr};
ghost use Rattle.ccr_history.specs.declared.store_fault.StoreFault.TheVariants.{NoMemory};
ghost use Rattle.sqlite.specs.declared.types.Value.TheVariants.{Int, Text, Blob};
ghost use Rattle.sqlite.specs.Order.{column};

use ccr_history::StoreFault;
use ccr_tables::{Cause, NamedRow};
use sqlite::Row;
use sqlite::types::{FromSql, ValueRef};

/// What a history's row has in a column: `NotOurs` where it has another kind of value there, and `NoMemory` if out of memory.
pub(crate) fn read_column<T: FromSql>(row: &Row, at: usize) -> Result<T, StoreFault>
    ensures value { IfOk result (λ x. T.FromSql.reads_as (column row.now at) x) }
    ensures kind { IfErr result (λ fault. at < length row.now
        → T.FromSql.is_readable (column row.now at) → fault ≡ NoMemory) }
{
    match row.get::<T>(at) {
        Ok(value) => Ok(value),
        Err(error) if Cause::of(&error) == Cause::NoMemory => Err(StoreFault::NoMemory),
        Err(_) => Err(StoreFault::NotOurs),
    }
}

/// Whether the column has this number.
pub(crate) fn is_number(row: &Row, at: usize, number: u32) -> bool
    ensures is { IsTrue result → column row.now at ≡ Int (pos number) }
    ensures only { column row.now at ≡ Int (pos number) → IsTrue result }
{
    match row.get_ref(at) {
        Ok(ValueRef::Int(found)) => found == i64::from(number),
        _ => false,
    }
}

/// Whether the column has this text.
pub(crate) fn is_text(row: &Row, at: usize, text: &str) -> bool
    ensures is { IsTrue result → column row.now at ≡ Text text.now }
    ensures only { column row.now at ≡ Text text.now → IsTrue result }
{
    match row.get_ref(at) {
        Ok(ValueRef::Text(found)) => found == text.as_bytes(),
        _ => false,
    }
}

/// Whether the column has these bytes.
pub(crate) fn is_blob(row: &Row, at: usize, bytes: &[u8]) -> bool
    ensures is { IsTrue result → column row.now at ≡ Blob bytes.now }
    ensures only { column row.now at ≡ Blob bytes.now → IsTrue result }
{
    match row.get_ref(at) {
        Ok(ValueRef::Blob(found)) => found == bytes,
        _ => false,
    }
}

/// Whether the pair is one of this build.
pub(crate) fn is_of(pair: &NamedRow, build: u32) -> bool
    ensures is { IsTrue result → column pair.now 0 ≡ Int (pos build) }
    ensures only { column pair.now 0 ≡ Int (pos build) → IsTrue result }
{
    let (found, _, _, _) = pair.columns();
    found == build
}

/// Whether the pair has no input.
pub(crate) fn has_no_input(pair: &NamedRow) -> bool
    ensures is { IsTrue result → column pair.now 1 ≡ Text [] }
    ensures only { column pair.now 1 ≡ Text [] → IsTrue result }
{
    let (_, input, _, _) = pair.columns();
    input.is_empty()
}
