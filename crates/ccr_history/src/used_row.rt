//! Used places as they are kept.
ghost use Rattle.std.specs.Prelude.{◌≡◌, ◌≤◌, ◌<◌, ◌++◌, List, length, map, insert, IfOk};
ghost use Rattle.std.specs.List.{AllByRecursion};
ghost use Rattle.ccr_history.specs.Names.{HasMore};
ghost use Rattle.ccr_history.specs.Builds.{UsedData, with_used, by_input};
ghost use Rattle.ccr_history.specs.Rows.{used_data};

use crate::build::Used;
use crate::names::Names;
use std::alloc::{AllocError, Global};

/// A used place, with its input's number in place of its name.
#[derive(Clone, Copy, PartialEq, Eq, Hash)]
pub(crate) struct UsedRow {
    pub(crate) input: u32,
    pub(crate) scope: u32,
    pub(crate) place: u32,
}

/// An input, by number, in a scope.
#[derive(Clone, Copy, PartialEq, Eq, Hash)]
pub(crate) struct InputScope {
    pub(crate) input: u32,
    pub(crate) scope: u32,
}

/// Where a used place of this input goes among those that are sorted by input name.
fn place_of(rows: &[UsedRow], inputs: &Names, name: &str) -> usize
    requires { AllByRecursion (λ u. u.input < length inputs.now) rows.now }
    ensures within { result ≤ length rows.now }
    ensures place { (u : UsedData) → u.input ≡ name.now
        → insert (map (used_data inputs.now) rows.now) result u ≡ with_used u (map (used_data inputs.now) rows.now) }
{
    for (i, row) in rows.iter().enumerate() {
        if !name.cmp(inputs.get(row.input)).is_gt() {
            return i;
        }
    }
    rows.len()
}

/// The used places by input name, each input by number. A name that is new comes to the end of the names, even where
/// memory is refused afterwards.
pub(crate) fn used_rows(
    alloc: Global,
    inputs: &mut Names,
    used: &[Used],
) -> Result<Vec<UsedRow>, AllocError>
    ensures rows { IfOk result (λ rows. map (used_data inputs.new) rows.items ≡ by_input used.now) }
    ensures named { IfOk result (λ rows. AllByRecursion (λ u. u.input < length inputs.new) rows.items) }
    ensures more { HasMore inputs.old inputs.new }
{
    let mut rows = Vec::with_capacity(alloc, used.len())?;
    let mut left = used.len();
    while left > 0 {
        left -= 1;
        let one = &used[left];
        let input = inputs.add(alloc, one.input.as_str())?;
        let place = place_of(&rows, inputs, one.input.as_str());
        rows.insert(
            place,
            UsedRow {
                input,
                scope: one.scope,
                place: one.place,
            },
        )?;
    }
    Ok(rows)
}
