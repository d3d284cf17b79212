//! What is broken in objects, key by key in the order of their tables, all of it.
ghost use Rattle.std.specs.Prelude.{◌≡◌, ◌++◌, [], OnOk};
ghost use Rattle.serde_json.specs.View.{view};
ghost use Rattle.ccr_pipeline.specs.Keys.{data_of, path_to, here, items_in, path_of};
ghost use Rattle.ccr_pipeline.specs.Objects.{absent, once, once_names, row_names, new_names, row_faults};
ghost use Rattle.ccr_pipeline.specs.Objects.{key_faults, object_faults, each_object, own_name, inside, value_faults};
ghost use Rattle.ccr_pipeline.specs.Schema.{opening, rows as row_list};

use crate::find_kind::find_broken;
use crate::present::{Added, Present};
use crate::seen::Seen;
use ccr_pipeline::schema::{Kind, NESTED, Need, Row, Schema, opening};
use ccr_pipeline::{Cursor, Place, Rule, items_in, text_at};
use serde_json::Value;
use std::alloc::Global;

/// Adds a path other than the artifact's name.
#[tactic(auto, using(crate::proofs::Lists::and_none))]
fn find_own_name(out: &mut Present, whole: &Value, found: &Cursor) -> Added
    ensures { OnOk result
        (out.new ≡ out.old ++ own_name (path_to found.now) (view whole.now) (data_of found.now)) }
{
    match (found.value.as_str(), text_at(whole, "name")) {
        (Some(text), Some(name)) => out.require(&found.place, text == name, Rule::Supported),
        _ => Ok(()),
    }
}

/// Adds what an absent key breaks.
#[tactic(auto, using(crate::proofs::Lists::and_none))]
fn find_absent(out: &mut Present, need: Need, place: &Place) -> Added
    ensures { OnOk result (out.new ≡ out.old ++ absent need (path_of place.now)) }
{
    match need {
        Need::New | Need::Must => out.require(place, false, Rule::Presence),
        Need::May => Ok(()),
    }
}

/// Adds a text that an earlier object has, if none may, and adds it to theirs.
#[tactic(auto, using(crate::proofs::Lists::and_none))]
fn find_once(out: &mut Present, need: Need, names: &mut Seen, found: &Cursor) -> Added
    ensures found { OnOk result (out.new ≡ out.old ++ here (once need names.old) found.now) }
    ensures added { OnOk result (names.new ≡ names.old ++ once_names need (data_of found.now)) }
{
    match (need, found.value.as_str()) {
        (Need::New, Some(name)) => {
            let is_new = !names.contains(name);
            out.require(&found.place, is_new, Rule::Once)?;
            names.push(name)
        }
        _ => Ok(()),
    }
}

#[cycle(finds)]
#[tactic(auto, using(crate::proofs::Lists::and_none))]
fn find_inside(
    alloc: Global,
    out: &mut Present,
    left: u32,
    kind: Kind,
    whole: &Value,
    found: &Cursor,
) -> Added
    ensures { OnOk result (out.new
        ≡ out.old ++ inside (value_faults left) kind (path_to found.now) (view whole.now) (data_of found.now)) }
{
    match kind {
        Kind::Object(schema) => find_alone(alloc, out, left, schema, found),
        Kind::Objects(schema) => find_objects(alloc, out, left, schema, found),
        Kind::Parallel if found.value.is_array() => Ok(()),
        Kind::Parallel => find_alone(alloc, out, left, Schema::Parallel, found),
        Kind::OwnName => find_own_name(out, whole, found),
        _ => Ok(()),
    }
}

/// Adds what the value at a key breaks. What lies too deep isn't looked into.
#[cycle(finds)]
#[tactic(auto, using(std::proofs::Common::append_assoc), unfolding(ccr_pipeline::specs::Objects::value_faults))]
fn find_value(
    alloc: Global,
    out: &mut Present,
    left: u32,
    kind: Kind,
    whole: &Value,
    found: &Cursor,
) -> Added
    ensures { OnOk result (out.new
        ≡ out.old ++ value_faults left kind (path_to found.now) (view whole.now) (data_of found.now)) }
{
    find_broken(out, kind, found)?;
    if left == 0 {
        return Ok(());
    }
    find_inside(alloc, out, left - 1, kind, whole, found)
}

#[cycle(finds)]
#[tactic(auto, using(std::proofs::Common::append_assoc))]
fn find_row(
    alloc: Global,
    out: &mut Present,
    left: u32,
    row: Row,
    names: &mut Seen,
    object: &Cursor,
) -> Added
    ensures found { OnOk result (out.new ≡ out.old ++ here
        (row_faults (value_faults left) names.old (row.entry.0, row.entry.1, row.entry.2.now)) object.now) }
    ensures added { OnOk result
        (names.new ≡ names.old ++ row_names (row.entry.0, row.entry.1, row.entry.2.now) (data_of object.now)) }
{
    let (need, kind, key) = row;
    match (&*object).at(key) {
        Some(found) => {
            find_value(alloc, out, left, kind, object.value, &found)?;
            find_once(out, need, names, &found)
        }
        None => find_absent(out, need, &(&*object).place.key(key)),
    }
}

/// Adds what the keys of a table break, in its order, and the names that no later object may have.
#[cycle(finds)]
#[tactic(auto, using(std::proofs::Common::append_assoc))]
pub(crate) fn find_rows(
    alloc: Global,
    out: &mut Present,
    left: u32,
    rows: &[Row],
    names: &mut Seen,
    object: &Cursor,
) -> Added
    ensures found { OnOk result
        (out.new ≡ out.old ++ here (key_faults (value_faults left) names.old (row_list rows.now)) object.now) }
    ensures added { OnOk result (names.new ≡ names.old ++ new_names (row_list rows.now) (data_of object.now)) }
{
    for row in rows {
        find_row(alloc, out, left, *row, names, object)?;
    }
    Ok(())
}

/// Adds what keeps a value from being an object of a schema, after objects of these names, and adds its own.
#[cycle(finds)]
#[tactic(auto, using(std::proofs::Common::append_assoc), unfolding(ccr_pipeline::specs::Objects::object_faults))]
pub(crate) fn find_object(
    alloc: Global,
    out: &mut Present,
    left: u32,
    schema: Schema,
    names: &mut Seen,
    object: &Cursor,
) -> Added
    ensures found { OnOk result
        (out.new ≡ out.old ++ here (object_faults (value_faults left) names.old schema) object.now) }
    ensures added { OnOk result (names.new ≡ names.old ++ new_names (opening schema) (data_of object.now)) }
{
    out.require(&object.place, object.value.is_object(), Rule::Kind)?;
    find_rows(alloc, out, left, opening(schema), names, object)
}

/// The same beside no other objects.
#[cycle(finds)]
pub(crate) fn find_alone(
    alloc: Global,
    out: &mut Present,
    left: u32,
    schema: Schema,
    object: &Cursor,
) -> Added
    ensures { OnOk result
        (out.new ≡ out.old ++ here (object_faults (value_faults left) [] schema) object.now) }
{
    find_object(alloc, out, left, schema, &mut Seen::new(alloc), object)
}

#[cycle(finds)]
#[tactic(auto, using(std::proofs::Common::append_assoc))]
fn find_objects(alloc: Global, out: &mut Present, left: u32, schema: Schema, list: &Cursor) -> Added
    ensures { OnOk result (out.new ≡ out.old
        ++ each_object (value_faults left) [] schema (path_to list.now) 0 (items_in (data_of list.now))) }
{
    let mut names = Seen::new(alloc);
    let members = items_in(list.value);
    for (i, value) in members.iter().enumerate() {
        find_object(
            alloc,
            out,
            left,
            schema,
            &mut names,
            &(&*list).member(value, i),
        )?;
    }
    Ok(())
}

/// Adds what the keys of a table break, beside which there are no other objects.
pub(crate) fn find_own_keys(
    alloc: Global,
    out: &mut Present,
    rows: &[Row],
    object: &Cursor,
) -> Added
    ensures { OnOk result
        (out.new ≡ out.old ++ here (key_faults (value_faults NESTED) [] (row_list rows.now)) object.now) }
{
    find_rows(alloc, out, NESTED, rows, &mut Seen::new(alloc), object)
}
