//! Lists by position, with a value for positions past the end.

ghost use Rattle.std.specs.Prelude.{◌≡◌, slice_index, slice_set};

/// The number at a position, 0 where there is none.
pub(crate) fn at(numbers: &[u32], position: usize) -> u32
    ensures { result ≡ slice_index numbers.now position }
{
    numbers.get(position).copied().unwrap_or(0)
}

/// The column at a position, 0 where there is none.
pub(crate) fn column_at(columns: &[usize], position: usize) -> usize
    ensures { result ≡ slice_index columns.now position }
{
    columns.get(position).copied().unwrap_or(0)
}

/// Sets the number at a position, if there is one.
pub(crate) fn set_at(numbers: &mut Vec<u32>, position: usize, number: u32)
    ensures { numbers.new.items ≡ slice_set numbers.old.items position number }
{
    if position < numbers.len() {
        numbers[position] = number;
    }
}

/// Sets the column at a position, if there is one.
pub(crate) fn set_column_at(columns: &mut Vec<usize>, position: usize, column: usize)
    ensures { columns.new.items ≡ slice_set columns.old.items position column }
{
    if position < columns.len() {
        columns[position] = column;
    }
}
