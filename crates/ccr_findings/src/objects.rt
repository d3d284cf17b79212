//! The search over the objects of a pipeline's value.
ghost use Rattle.std.specs.Prelude.{◌≡◌, ◌++◌, [], OnOk};
ghost use Rattle.serde_json.specs.View.{view, items_view, members_view};
ghost use Rattle.ccr_findings.specs.Findings.{findings_data};
ghost use Rattle.ccr_findings.specs.Objects as spec;
ghost use Rattle.ccr_findings.specs.Objects.{aim_data, own_findings, found_in, found_in_items, found_in_members, found_on};

use crate::finding::Findings;
use crate::keys::find_keys;
use crate::never::find_passed;
use crate::stand::{Keys, keys_of, kind_at, kind_of_items};
use ccr_pipeline::schema::{Kind, Schema};
use ccr_pipeline::{Job, path_at, path_below};
use serde_json::Value;
use std::alloc::{AllocError, Global};
use std::collections::BTreeMap;

/// What is searched for.
#[derive(Clone, Copy)]
pub(crate) enum Aim<'p> {
    /// Keys without effect.
    Keys,
    /// Gates of gets that hold nothing, by the jobs of the pipeline.
    Gates(&'p [Job]),
}

/// What a search answers: memory may be refused.
pub(crate) type Found = Result<(), AllocError>;

/// Whether the schema is that of a get.
fn is_get(schema: Schema) -> bool
    ensures { result ≡ spec.is_get schema }
{
    match schema {
        Schema::Get => true,
        Schema::Put | Schema::Task | Schema::FileTask | Schema::Holder | Schema::Undone => false,
        Schema::Pipeline | Schema::Resource | Schema::Job | Schema::Parallel => false,
        Schema::Config | Schema::Run | Schema::Input | Schema::Output => false,
    }
}

/// Adds what is found in an object of the schema itself.
#[tactic(auto, using(crate::proofs::Lists::and_none))]
fn find_by(
    alloc: Global,
    out: &mut Findings,
    aim: Aim<'_>,
    schema: Schema,
    value: &Value,
    path: &str,
) -> Found
    ensures { OnOk result (findings_data out.new.items
        ≡ findings_data out.old.items ++ spec.found_by (aim_data aim.entry) schema path.now (view value.now)) }
{
    match aim {
        Aim::Keys => find_keys(alloc, out, schema, value, path),
        Aim::Gates(jobs) => {
            if is_get(schema) {
                find_passed(alloc, out, jobs, value, path)
            } else {
                Ok(())
            }
        }
    }
}

/// Adds what is found in an object itself.
#[tactic(auto, using(crate::proofs::Lists::and_none))]
fn find_own(
    alloc: Global,
    out: &mut Findings,
    aim: Aim<'_>,
    keys: Keys,
    value: &Value,
    path: &str,
) -> Found
    ensures { OnOk result (findings_data out.new.items
        ≡ findings_data out.old.items ++ own_findings (aim_data aim.entry) keys path.now (view value.now)) }
{
    match keys {
        Keys::Of(schema) => find_by(alloc, out, aim, schema, value, path),
        Keys::Fields | Keys::Unknown => Ok(()),
    }
}

/// Adds what is found in the members of a list.
#[cycle(objects)]
#[tactic(auto, using(std::proofs::Common::append_assoc, crate::proofs::Lists::and_none))]
fn find_in_items(
    alloc: Global,
    out: &mut Findings,
    aim: Aim<'_>,
    kind: Kind,
    list: &Vec<Value>,
    path: &str,
) -> Found
    ensures { OnOk result (findings_data out.new.items ≡ findings_data out.old.items
        ++ found_in_items (aim_data aim.entry) kind path.now 0 (items_view list.now.items)) }
{
    for (i, member) in list.iter().enumerate() {
        let below = path_at(alloc, path, i)?;
        find_in(alloc, out, aim, kind, member, below.as_str())?;
    }
    Ok(())
}

/// Adds what is found in the members of an object.
#[cycle(objects)]
#[tactic(auto, using(std::proofs::Common::append_assoc, crate::proofs::Lists::and_none))]
fn find_in_members(
    alloc: Global,
    out: &mut Findings,
    aim: Aim<'_>,
    keys: Keys,
    members: &BTreeMap<String, Value>,
    path: &str,
) -> Found
    ensures { OnOk result (findings_data out.new.items ≡ findings_data out.old.items
        ++ found_in_members (aim_data aim.entry) keys path.now (members_view members.now.entries)) }
{
    for (key, member) in members.iter() {
        if let Some(kind) = kind_at(keys, key.as_str()) {
            let below = path_below(alloc, path, key.as_str())?;
            find_in(alloc, out, aim, kind, member, below.as_str())?;
        }
    }
    Ok(())
}

/// Adds what is found in a value of which this kind is wanted, and in what it holds.
#[cycle(objects)]
#[tactic(auto, using(std::proofs::Common::append_assoc, crate::proofs::Lists::and_none))]
fn find_in(
    alloc: Global,
    out: &mut Findings,
    aim: Aim<'_>,
    kind: Kind,
    value: &Value,
    path: &str,
) -> Found
    ensures { OnOk result (findings_data out.new.items
        ≡ findings_data out.old.items ++ found_in (aim_data aim.entry) kind path.now (view value.now)) }
{
    match value {
        Value::Array(list) => match kind_of_items(kind) {
            Some(kind) => find_in_items(alloc, out, aim, kind, list, path),
            None => Ok(()),
        },
        Value::Object(members) => {
            let keys = keys_of(kind, value);
            find_own(alloc, out, aim, keys, value, path)?;
            find_in_members(alloc, out, aim, keys, members, path)
        }
        Value::Null | Value::Bool(_) | Value::Number(_) | Value::String(_) => Ok(()),
    }
}

/// Adds what is found in a pipeline's value.
pub(crate) fn find_on(alloc: Global, out: &mut Findings, aim: Aim<'_>, value: &Value) -> Found
    ensures { OnOk result (findings_data out.new.items
        ≡ findings_data out.old.items ++ found_on (aim_data aim.entry) (view value.now)) }
{
    find_in(alloc, out, aim, Kind::Object(Schema::Pipeline), value, "")
}
