//! Which places inputs may take, in tables that tell at once whether a build has one.

ghost use Rattle.std.specs.Prelude.{◌≡◌, ◌≤◌, ◌==◌, ◌&&◌, ℕ, List, slice_index_or, false, All, IfOk};
ghost use Rattle.std.specs.List.{list_all, list_any};
ghost use Rattle.ccr_explain.specs.Cut.{has_marked, has_place_of};

use crate::narrow::is_marked;
use ccr_choice::Input;
use std::alloc::{AllocError, Global};

/// Which places an input may take.
#[derive(Drop)]
pub(crate) struct Table {
    scope: u32,
    /// To each place, by its number, whether the input may take it.
    marks: Vec<bool>,
}

/// A table for each of these inputs. They pay off where many builds are looked at.
pub(crate) fn tables_of(alloc: Global, inputs: &[&Input]) -> Result<Vec<Table>, AllocError>
    ensures { IfOk result (λ tables. (pairs : List (ℕ × ℕ))
        → list_all (λ t. has_marked t pairs) tables.items ≡ list_all (λ x. has_place_of x.now pairs) inputs.now) }
{
    let mut tables = Vec::new(alloc);
    for input in inputs {
        tables.push(table_of(alloc, input)?)?;
    }
    Ok(tables)
}

/// Whether each of these tables has a mark for one of these pairs.
pub(crate) fn have_marked(tables: &[Table], pairs: &[(u32, u32)]) -> bool
    ensures { result ≡ list_all (λ t. has_marked t pairs.now) tables.now }
{
    tables.iter().all(|t| has_marked(t, pairs))
}

fn has_marked(table: &Table, pairs: &[(u32, u32)]) -> bool
    ensures { result ≡ has_marked table.now pairs.now }
{
    pairs
        .iter()
        .any(|r| r.0 == table.scope && is_marked(&table.marks, r.1))
}

fn table_of(alloc: Global, input: &Input) -> Result<Table, AllocError>
    ensures { IfOk result (λ t. (pairs : List (ℕ × ℕ)) → has_marked t pairs ≡ has_place_of input.now pairs) }
{
    let marks = marks_for(alloc, input.places())?;
    Ok(Table {
        scope: input.scope(),
        marks,
    })
}

/// Marks for these places, by their numbers.
fn marks_for(alloc: Global, places: &[u32]) -> Result<Vec<bool>, AllocError>
    ensures { IfOk result (λ marks. (y : ℕ) → slice_index_or marks.items y false ≡ list_any (λ x. x == y) places.now) }
{
    let count = greatest(places) as usize + 1;
    let mut marks = vec![in alloc; false; count]?;
    for place in places {
        marks[*place as usize] = true;
    }
    Ok(marks)
}

/// The greatest of these places, 0 where there is none.
fn greatest(places: &[u32]) -> u32
    ensures { All (λ y. y ≤ result) places.now }
{
    places.iter().copied().max().unwrap_or(0)
}
