//! The tests of objects, key by key in the order of their tables.
ghost use Rattle.std.specs.Prelude.{◌≡◌, ◌++◌, [], OnOk};
ghost use Rattle.serde_json.specs.View.{view};
ghost use Rattle.ccr_pipeline.specs.Keys.{data_of, path_to, here, items_in, path_of};
ghost use Rattle.ccr_pipeline.specs.Faults.{Checks};
ghost use Rattle.ccr_pipeline.specs.Names.{text_at};
ghost use Rattle.ccr_pipeline.specs.Objects.{absent, once, once_names, row_names, new_names, row_faults};
ghost use Rattle.ccr_pipeline.specs.Objects.{key_faults, object_faults, each_object, own_name, inside, value_faults};
ghost use Rattle.ccr_pipeline.specs.Schema.{opening, rows as row_list};

use crate::cursor::Cursor;
use crate::fault::{Checked, Rule};
use crate::key::items_in;
use crate::kind::check;
use crate::names::{Names, text_at};
use crate::place::Place;
use crate::schema::{Kind, NESTED, Need, Row, Schema, opening};
use serde_json::Value;
use std::alloc::Global;

/// Refuses a path other than the artifact's name.
fn check_own_name(alloc: Global, whole: &Value, found: &Cursor) -> Checked
    ensures { Checks (own_name (path_to found.now) (view whole.now) (data_of found.now)) result }
{
    match (found.value.as_str(), text_at(whole, "name")) {
        (Some(text), Some(name)) => found.place.require(alloc, text == name, Rule::Supported),
        _ => Ok(()),
    }
}

/// Refuses what an absent key breaks.
fn check_absent(alloc: Global, need: Need, place: &Place) -> Checked
    ensures { Checks (absent need (path_of place.now)) result }
{
    match need {
        Need::New | Need::Must => place.require(alloc, false, Rule::Presence),
        Need::May => Ok(()),
    }
}

/// Refuses a text that an earlier object has, if none may, and adds it to theirs.
fn check_once(alloc: Global, need: Need, names: &mut Names, found: &Cursor) -> Checked
    ensures checked { Checks (here (once need names.old) found.now) result }
    ensures added { OnOk result (names.new ≡ names.old ++ once_names need (data_of found.now)) }
{
    match (need, found.value.as_str()) {
        (Need::New, Some(name)) => {
            let is_new = names.add(alloc, name)?;
            found.place.require(alloc, is_new, Rule::Once)
        }
        _ => Ok(()),
    }
}

#[cycle(objects)]
fn check_inside(alloc: Global, left: u32, kind: Kind, whole: &Value, found: &Cursor) -> Checked
    ensures { Checks (inside (value_faults left) kind (path_to found.now) (view whole.now) (data_of found.now))
        result }
{
    match kind {
        Kind::Object(schema) => check_alone(alloc, left, schema, found),
        Kind::Objects(schema) => check_objects(alloc, left, schema, found),
        Kind::Parallel if found.value.is_array() => Ok(()),
        Kind::Parallel => check_alone(alloc, left, Schema::Parallel, found),
        Kind::OwnName => check_own_name(alloc, whole, found),
        _ => Ok(()),
    }
}

/// Refuses what the value at a key breaks. What lies too deep isn't looked into.
#[cycle(objects)]
#[tactic(auto, unfolding(crate::specs::Objects::value_faults))]
fn check_value(alloc: Global, left: u32, kind: Kind, whole: &Value, found: &Cursor) -> Checked
    ensures { Checks (value_faults left kind (path_to found.now) (view whole.now) (data_of found.now)) result }
{
    check(alloc, kind, found)?;
    if left == 0 {
        return Ok(());
    }
    check_inside(alloc, left - 1, kind, whole, found)
}

#[cycle(objects)]
#[tactic(auto, using(crate::proofs::Faulted::first_append))]
fn check_row(alloc: Global, left: u32, row: Row, names: &mut Names, object: &Cursor) -> Checked
    ensures checked { Checks (here
        (row_faults (value_faults left) names.old (row.entry.0, row.entry.1, row.entry.2.now)) object.now) result }
    ensures added { OnOk result
        (names.new ≡ names.old ++ row_names (row.entry.0, row.entry.1, row.entry.2.now) (data_of object.now)) }
{
    let (need, kind, key) = row;
    match (&*object).at(key) {
        Some(found) => {
            check_value(alloc, left, kind, object.value, &found)?;
            check_once(alloc, need, names, &found)
        }
        None => check_absent(alloc, need, &(&*object).place.key(key)),
    }
}

/// Refuses what the keys of a table break, in its order, and adds the names that no later object may have.
#[cycle(objects)]
#[tactic(auto, using(crate::proofs::Faulted::first_append))]
pub(crate) fn check_rows(
    alloc: Global,
    left: u32,
    rows: &[Row],
    names: &mut Names,
    object: &Cursor,
) -> Checked
    ensures checked { Checks (here (key_faults (value_faults left) names.old (row_list rows.now)) object.now) result }
    ensures added { OnOk result (names.new ≡ names.old ++ new_names (row_list rows.now) (data_of object.now)) }
{
    for row in rows {
        check_row(alloc, left, *row, names, object)?;
    }
    Ok(())
}

/// Refuses what is no object of a schema, after objects of these names, and adds its own.
#[cycle(objects)]
#[tactic(auto, using(crate::proofs::Faulted::first_append), unfolding(crate::specs::Objects::object_faults))]
pub(crate) fn check_object(
    alloc: Global,
    left: u32,
    schema: Schema,
    names: &mut Names,
    object: &Cursor,
) -> Checked
    ensures checked { Checks (here (object_faults (value_faults left) names.old schema) object.now) result }
    ensures added { OnOk result (names.new ≡ names.old ++ new_names (opening schema) (data_of object.now)) }
{
    let is_object = object.value.is_object();
    object.place.require(alloc, is_object, Rule::Kind)?;
    check_rows(alloc, left, opening(schema), names, object)
}

/// Refuses what is no object of a schema, beside which there are no others.
#[cycle(objects)]
pub(crate) fn check_alone(alloc: Global, left: u32, schema: Schema, object: &Cursor) -> Checked
    ensures { Checks (here (object_faults (value_faults left) [] schema) object.now) result }
{
    check_object(alloc, left, schema, &mut Names::new(alloc), object)
}

#[cycle(objects)]
#[tactic(auto, using(crate::proofs::Faulted::first_append))]
fn check_objects(alloc: Global, left: u32, schema: Schema, list: &Cursor) -> Checked
    ensures { Checks (each_object (value_faults left) [] schema (path_to list.now) 0 (items_in (data_of list.now)))
        result }
{
    let mut names = Names::new(alloc);
    let members = items_in(list.value);
    for (i, value) in members.iter().enumerate() {
        check_object(alloc, left, schema, &mut names, &(&*list).member(value, i))?;
    }
    Ok(())
}

/// Refuses what the keys of a table break, beside which there are no other objects.
pub(crate) fn check_own_keys(alloc: Global, rows: &[Row], object: &Cursor) -> Checked
    ensures { Checks (here (key_faults (value_faults NESTED) [] (row_list rows.now)) object.now) result }
{
    check_rows(alloc, NESTED, rows, &mut Names::new(alloc), object)
}
