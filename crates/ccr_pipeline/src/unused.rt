//! The keys that have no effect.
ghost use Rattle.std.specs.Prelude.{◌≡◌, ◌++◌, OnOk, IfOk};
ghost use Rattle.ccr_pipeline.specs.Keys.{data_of, path_to, here, items_in, path_of};
ghost use Rattle.ccr_pipeline.specs.Names.{names_of as texts_of};
ghost use Rattle.ccr_pipeline.specs.Schema.{opening, has_key, schema_of};
ghost use Rattle.ccr_pipeline.specs.Unused.{unused_object, unused_value, unused_items, unused_own, IsSortedOnce};

use crate::cursor::Cursor;
use crate::key::items_in;
use crate::place::{Place, path_of};
use crate::schema::{Kind, NESTED, Schema, has_key, opening, schema_of};
use serde_json::Value;
use std::alloc::AllocError;

/// What an addition of paths answers: memory may be refused.
type Pushed = Result<(), AllocError>;

/// Adds the paths of an object's members at keys that it can't have.
fn push_own(out: &mut Vec<String>, schema: Schema, object: &Cursor) -> Pushed
    ensures { OnOk result (texts_of out.new.items ≡ texts_of out.old.items ++ here (unused_own schema) object.now) }
{
    let Some(members) = object.value.as_object() else {
        return Ok(());
    };
    for (key, member) in members.iter() {
        if !member.is_null() && !has_key(schema, key.as_str()) {
            out.push(path_of(*out.allocator(), &object.place.key(key.as_str()))?)?;
        }
    }
    Ok(())
}

/// Adds the unused keys of an object, and of the objects that its keys hold.
#[cycle(unused)]
#[tactic(auto, using(std::proofs::Common::append_assoc), unfolding(crate::specs::Unused::unused_object))]
pub(crate) fn push_keys(out: &mut Vec<String>, left: u32, schema: Schema, object: &Cursor) -> Pushed
    ensures { OnOk result
        (texts_of out.new.items ≡ texts_of out.old.items ++ here (unused_object left schema) object.now) }
{
    if left == 0 {
        return Ok(());
    }
    push_own(out, schema, object)?;
    let rows = opening(schema);
    for (_, kind, key) in rows {
        if let Some(found) = (&*object).at(*key) {
            push_value(out, left - 1, *kind, &found)?;
        }
    }
    Ok(())
}

#[cycle(unused)]
fn push_value(out: &mut Vec<String>, left: u32, kind: Kind, found: &Cursor) -> Pushed
    ensures { OnOk result
        (texts_of out.new.items ≡ texts_of out.old.items ++ here (unused_value (unused_object left) kind) found.now) }
{
    match kind {
        Kind::Object(schema) => push_keys(out, left, schema, found),
        Kind::Parallel => push_keys(out, left, Schema::Parallel, found),
        Kind::Objects(schema) => push_items(out, left, schema, found),
        _ => Ok(()),
    }
}

#[cycle(unused)]
fn push_items(out: &mut Vec<String>, left: u32, schema: Schema, list: &Cursor) -> Pushed
    ensures { OnOk result (texts_of out.new.items ≡ texts_of out.old.items
        ++ unused_items (unused_object left schema) (path_to list.now) 0 (items_in (data_of list.now))) }
{
    let items = items_in(list.value);
    for (i, item) in items.iter().enumerate() {
        push_keys(out, left, schema, &(&*list).member(item, i))?;
    }
    Ok(())
}

/// The paths ascending by bytes, each once.
pub(crate) fn sorted_once(paths: Vec<String>) -> Result<Vec<String>, AllocError>
    ensures { IfOk result (λ v. IsSortedOnce (texts_of paths.items) (texts_of v.items)) }
{
    let mut paths = paths;
    paths.sort()?;
    paths.dedup();
    Ok(paths)
}
