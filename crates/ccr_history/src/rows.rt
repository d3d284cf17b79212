//! The builds of a history as they are kept, and the places that they used.
ghost use Rattle.std.specs.Prelude.{◌≡◌, ◌+◌, ◌<◌, ◌≤◌, ◌^◌, ◌++◌, ◌∷◌, [], Some, length, map, set, vec_len, vec_capacity, slice_get, option_map, IfOk, OnOk};
ghost use Rattle.ccr_history.specs.Rows.{RowData, new_row, ended_row, with_places};

use crate::build::Status;
use crate::row::Row;
use crate::used_row::UsedRow;
use std::alloc::{AllocError, Global};
use std::marker::Model;

/// Builds, in order of making. The used places of all lie one behind the other, each build's together.
#[derive(Drop)]
pub(crate) struct Rows {
    made: Vec<Row>,
    used: Vec<UsedRow>,
}

impl Model for Rows {
    ghost use Rattle.std.specs.Prelude.{◌-◌, map, vec_len, vec_capacity};
    ghost use Rattle.std.specs.List.{AllByRecursion};
    ghost use Rattle.ccr_history.specs.Rows.{RowsData, row_data, IsWithin};

    ghost Value = { RowsData };

    ghost view = { λ r. record {
      rows = map (row_data r.used.items) r.made.items;
      room = vec_capacity r.made - vec_len r.made;
      places = vec_capacity r.used - vec_len r.used;
    } };

    ghost invariant = { λ r. AllByRecursion (IsWithin r.used.items) r.made.items };
}

/// Makes room for one more row. It grows by half, so that at most a third of the rows' memory is unused.
fn make_room(rows: &mut Vec<Row>) -> Result<(), AllocError>
    ensures same { rows.new.items ≡ rows.old.items }
    ensures room { OnOk result (vec_len rows.new < vec_capacity rows.new) }
{
    if rows.len() == rows.capacity() {
        rows.reserve_exact(rows.len() / 2 + 1)?;
    }
    Ok(())
}

/// Adds a row at the end, where there is room for it.
fn push_within(rows: &mut Vec<Row>, row: Row)
    requires { vec_len rows.old < vec_capacity rows.old }
    ensures { rows.new.items ≡ rows.old.items ++ row ∷ [] }
{
    let _pushed = rows.push(row);
}

/// Adds used places at the end, where there is room for them.
fn extend_within(places: &mut Vec<UsedRow>, used: &[UsedRow])
    requires { vec_len places.old + length used.now ≤ vec_capacity places.old }
    ensures { places.new.items ≡ places.old.items ++ used.now }
{
    let _extended = places.extend_from_slice(used);
}

impl Rows {
    /// No builds.
    pub(crate) fn new(alloc: Global) -> Rows
        ensures { result.rows ≡ [] }
    {
        Rows {
            made: Vec::new(alloc),
            used: Vec::new(alloc),
        }
    }

    /// How many builds there are.
    pub(crate) fn len(&self) -> usize
        ensures { result ≡ length self.now.rows }
    {
        self.made.len()
    }

    /// Makes room for one more build with so many used places. `AllocError` also where those are more than are counted.
    pub(crate) fn reserve(&mut self, count: usize) -> Result<(), AllocError>
        ensures same { self.new.rows ≡ self.old.rows }
        ensures room { OnOk result ((0 < self.new.room) × (count ≤ self.new.places)) }
        ensures counted { OnOk result (count < 2 ^ 32) }
    {
        if count > u32::MAX as usize {
            return Err(AllocError);
        }
        make_room(&mut self.made)?;
        self.used.reserve(count)
    }

    /// Adds a build as it begins, where there is room for it.
    pub(crate) fn add(&mut self, alloc: Global, job: u32, number: u32, used: &[UsedRow])
        requires room { 0 < self.old.room }
        requires places { length used.now ≤ self.old.places }
        requires counted { length used.now < 2 ^ 32 }
        ensures { self.new.rows ≡ self.old.rows ++ new_row job number used.now ∷ [] }
    {
        let row = Row::new(alloc, job, number, self.used.len(), used.len() as u32);
        extend_within(&mut self.used, used);
        push_within(&mut self.made, row);
    }

    /// The build at a position and the places that it used, if there is one.
    pub(crate) fn get(&self, position: usize) -> Option<(&Row, &[UsedRow])>
        ensures { option_map (λ r. with_places r.1.now r.0.now) result ≡ slice_get self.now.rows position }
    {
        let row = self.made.get(position)?;
        let from = row.from();
        Some((row, &self.used[from..from + row.count()]))
    }

    /// How the build at a position stands.
    pub(crate) fn status(&self, position: usize) -> Status
        requires { position < length self.now.rows }
        ensures { (r : RowData) × (slice_get self.now.rows position ≡ Some r) × (r.status ≡ result) }
    {
        let row = &self.made[position];
        row.status()
    }

    /// The build at a position has ended so, with these pairs by scope and place.
    pub(crate) fn end(&mut self, position: usize, status: Status, moved: Vec<(u32, u32)>)
        requires { position < length self.old.rows }
        ensures { (r : RowData) × (slice_get self.old.rows position ≡ Some r)
            × (self.new.rows ≡ set self.old.rows position (ended_row status moved.items r)) }
    {
        let row = &mut self.made[position];
        row.end(status, moved);
    }

    /// A copy of the builds.
    pub(crate) fn copy(&self, alloc: Global) -> Result<Rows, AllocError>
        ensures { IfOk result (λ rows. rows.rows ≡ self.now.rows) }
    {
        Ok(Rows {
            made: copy_rows(alloc, &self.made)?,
            used: Vec::from_slice(alloc, &self.used)?,
        })
    }
}

fn copy_rows(alloc: Global, rows: &[Row]) -> Result<Vec<Row>, AllocError>
    ensures { IfOk result (λ copies. copies.items ≡ rows.now) }
{
    let mut copies = Vec::with_capacity(alloc, rows.len())?;
    for row in rows {
        copies.push(row.copy(alloc)?)?;
    }
    Ok(copies)
}
