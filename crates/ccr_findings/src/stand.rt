//! What stands at a path of a pipeline's value, and what is wanted there.
ghost use Rattle.std.specs.Prelude.{◌≡◌, Some, None, option_map, IfOk};
ghost use Rattle.serde_json.specs.View.{view, items_view, members_view};
ghost use Rattle.ccr_pipeline.specs.Schema.{rows as row_list};
ghost use Rattle.ccr_findings.specs.Stands as spec;
ghost use Rattle.ccr_findings.specs.Stands.{stand_data};

use ccr_pipeline::schema::{Kind, Row, Schema, closing, opening, schema_of};
use ccr_pipeline::{path_at, path_below};
use serde_json::Value;
use std::alloc::{AllocError, Global};
use std::collections::BTreeMap;

/// The keys that a value has by what is wanted of it.
#[derive(Clone, Copy)]
pub(crate) enum Keys {
    /// Those of an object of this schema.
    Of(Schema),
    /// Any, with a text at each.
    Fields,
    /// None that are known.
    Unknown,
}

/// Where a path is, from another one.
#[derive(Clone, Copy)]
pub(crate) enum Side {
    /// It is the same.
    There,
    /// It is that of a place in it.
    Inside,
    /// It is neither.
    Elsewhere,
}

/// A place: what is wanted there, and what stands there, if anything does.
#[derive(Clone, Copy)]
pub(crate) struct Stand<'v> {
    pub(crate) kind: Kind,
    pub(crate) value: Option<&'v Value>,
}

/// Whether the second path is the first one, or that of a place in it.
pub(crate) fn is_within(path: &str, place: &str) -> bool
    ensures { result ≡ spec.is_within path.now place.now }
{
    let (path, place) = (path.as_bytes(), place.as_bytes());
    if !place.starts_with(path) {
        return false;
    }
    match place.get(path.len()) {
        Some(next) => *next == b'.' || *next == b'[',
        None => true,
    }
}

/// Where a path is, from another one.
fn side_of(path: &str, here: &str) -> Side
    ensures { result ≡ spec.side_of path.now here.now }
{
    if here == path {
        Side::There
    } else if is_within(here, path) {
        Side::Inside
    } else {
        Side::Elsewhere
    }
}

/// The keys of a value of which this kind is wanted.
pub(crate) fn keys_of(kind: Kind, value: &Value) -> Keys
    ensures { result ≡ spec.keys_of kind (view value.now) }
{
    match kind {
        Kind::Object(schema) => Keys::Of(schema),
        Kind::Parallel => Keys::Of(Schema::Parallel),
        Kind::Step => Keys::Of(schema_of(value)),
        Kind::Fields | Kind::Wanted => Keys::Fields,
        Kind::Text | Kind::Name | Kind::OwnName | Kind::Texts | Kind::Truth => Keys::Unknown,
        Kind::Whole | Kind::Params | Kind::Nothing | Kind::Objects(_) => Keys::Unknown,
        Kind::Steps | Kind::Attempts | Kind::Any | Kind::Undone => Keys::Unknown,
    }
}

/// What is wanted at a key by the rows of a table.
pub(crate) fn kind_in(rows: &[Row], key: &str) -> Option<Kind>
    ensures { result ≡ spec.kind_in (row_list rows.now) key.now }
{
    for (_, kind, known) in rows {
        if *known == key {
            return Some(*kind);
        }
    }
    None
}

/// What is wanted at a key, if it is one of these.
pub(crate) fn kind_at(keys: Keys, key: &str) -> Option<Kind>
    ensures { result ≡ spec.kind_at keys key.now }
{
    match keys {
        Keys::Of(schema) => match kind_in(opening(schema), key) {
            Some(kind) => Some(kind),
            None => kind_in(closing(schema), key),
        },
        Keys::Fields => Some(Kind::Text),
        Keys::Unknown => None,
    }
}

/// What is wanted of the members of a list of which this kind is wanted.
pub(crate) fn kind_of_items(kind: Kind) -> Option<Kind>
    ensures { result ≡ spec.kind_of_items kind }
{
    match kind {
        Kind::Objects(schema) => Some(Kind::Object(schema)),
        Kind::Steps | Kind::Parallel => Some(Kind::Step),
        Kind::Texts => Some(Kind::Text),
        Kind::Text | Kind::Name | Kind::OwnName | Kind::Truth | Kind::Whole => None,
        Kind::Params | Kind::Fields | Kind::Nothing | Kind::Wanted | Kind::Object(_) => None,
        Kind::Step | Kind::Attempts | Kind::Any | Kind::Undone => None,
    }
}

/// What is wanted at a path, by the rows of the table of the object at another one.
fn absent_in(
    alloc: Global,
    path: &str,
    here: &str,
    rows: &[Row],
) -> Result<Option<Kind>, AllocError>
    ensures { IfOk result (λ o. o ≡ spec.absent_in path.now here.now (row_list rows.now)) }
{
    for (_, kind, key) in rows {
        let below = path_below(alloc, here, key)?;
        if below.as_str() == path {
            return Ok(Some(*kind));
        }
    }
    Ok(None)
}

/// What is wanted at a path at which the object at another one has a key that isn't there.
fn absent_kind(
    alloc: Global,
    path: &str,
    here: &str,
    keys: Keys,
) -> Result<Option<Kind>, AllocError>
    ensures { IfOk result (λ o. o ≡ spec.absent_kind path.now here.now keys) }
{
    match keys {
        Keys::Of(schema) => match absent_in(alloc, path, here, opening(schema))? {
            Some(kind) => Ok(Some(kind)),
            None => absent_in(alloc, path, here, closing(schema)),
        },
        Keys::Fields | Keys::Unknown => Ok(None),
    }
}

/// The same as a place.
fn absent_stand<'v>(
    alloc: Global,
    path: &str,
    here: &str,
    keys: Keys,
) -> Result<Option<Stand<'v>>, AllocError>
    ensures { IfOk result (λ o. option_map stand_data o ≡ spec.absent_stand path.now here.now keys) }
{
    match absent_kind(alloc, path, here, keys)? {
        Some(kind) => {
            let value = None;
            Ok(Some(Stand { kind, value }))
        }
        None => Ok(None),
    }
}

/// The place at a path in the members of a list at another one.
#[cycle(stands)]
fn stand_in_items<'v>(
    alloc: Global,
    path: &str,
    kind: Kind,
    here: &str,
    list: &'v Vec<Value>,
) -> Result<Option<Stand<'v>>, AllocError>
    ensures { IfOk result (λ o. option_map stand_data o
        ≡ spec.stand_in_items path.now kind here.now 0 (items_view list.now.items)) }
{
    for (i, member) in list.iter().enumerate() {
        let below = path_at(alloc, here, i)?;
        match side_of(path, below.as_str()) {
            Side::There => {
                let value = Some(member);
                return Ok(Some(Stand { kind, value }));
            }
            Side::Inside => {
                if let Some(found) = stand_in(alloc, path, kind, below.as_str(), member)? {
                    return Ok(Some(found));
                }
            }
            Side::Elsewhere => {}
        }
    }
    Ok(None)
}

/// The place at a path in the members of an object at another one.
#[cycle(stands)]
fn stand_in_members<'v>(
    alloc: Global,
    path: &str,
    keys: Keys,
    here: &str,
    members: &'v BTreeMap<String, Value>,
) -> Result<Option<Stand<'v>>, AllocError>
    ensures { IfOk result (λ o. option_map stand_data o
        ≡ spec.stand_in_members path.now keys here.now (members_view members.now.entries)) }
{
    for (key, member) in members.iter() {
        let Some(kind) = kind_at(keys, key.as_str()) else {
            continue;
        };
        let below = path_below(alloc, here, key.as_str())?;
        match side_of(path, below.as_str()) {
            Side::There => {
                let value = Some(member);
                return Ok(Some(Stand { kind, value }));
            }
            Side::Inside => {
                if let Some(found) = stand_in(alloc, path, kind, below.as_str(), member)? {
                    return Ok(Some(found));
                }
            }
            Side::Elsewhere => {}
        }
    }
    Ok(None)
}

/// The place at a path in the value at another one, of which this kind is wanted.
#[cycle(stands)]
fn stand_in<'v>(
    alloc: Global,
    path: &str,
    kind: Kind,
    here: &str,
    value: &'v Value,
) -> Result<Option<Stand<'v>>, AllocError>
    ensures { IfOk result (λ o. option_map stand_data o ≡ spec.stand_in path.now kind here.now (view value.now)) }
{
    match value {
        Value::Array(list) => match kind_of_items(kind) {
            Some(kind) => stand_in_items(alloc, path, kind, here, list),
            None => Ok(None),
        },
        Value::Object(members) => {
            let keys = keys_of(kind, value);
            match stand_in_members(alloc, path, keys, here, members)? {
                Some(found) => Ok(Some(found)),
                None => absent_stand(alloc, path, here, keys),
            }
        }
        Value::Null | Value::Bool(_) | Value::Number(_) | Value::String(_) => Ok(None),
    }
}

/// The place at a path of a pipeline's value, which is called `pipeline` itself.
pub(crate) fn stand_on<'v>(
    alloc: Global,
    value: &'v Value,
    path: &str,
) -> Result<Option<Stand<'v>>, AllocError>
    ensures { IfOk result (λ o. option_map stand_data o ≡ spec.stand_on (view value.now) path.now) }
{
    let kind = Kind::Object(Schema::Pipeline);
    if path == "pipeline" {
        let value = Some(value);
        return Ok(Some(Stand { kind, value }));
    }
    stand_in(alloc, path, kind, "", value)
}
