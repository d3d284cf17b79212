//! The keys of an object that have no effect.
ghost use Rattle.std.specs.Prelude.{◌≡◌, ◌++◌, string_bytes, IfOk, OnOk};
ghost use Rattle.serde_json.specs.View.{view, members_view};
ghost use Rattle.ccr_findings.specs.Findings.{finding, findings_data};
ghost use Rattle.ccr_findings.specs.Objects as spec;
ghost use Rattle.ccr_findings.specs.Objects.{key_findings, params_findings, params_at, own_keys};

use crate::finding::{Finding, Findings, Kind};
use crate::known::{is_passed_over, meant_key, name_of, owner_of, remedy_of};
use crate::objects::Found;
use ccr_pipeline::path_below;
use ccr_pipeline::schema::Schema;
use serde_json::Value;
use std::alloc::{AllocError, Global};
use std::collections::BTreeMap;

/// The line of a key that Concourse knows.
fn unused_line(alloc: Global, path: &str, remedy: &str) -> Result<String, AllocError>
    ensures { IfOk result (λ line. string_bytes line ≡ spec.unused_line path.now remedy.now) }
{
    format!(in alloc; "unused {path}: {remedy}")
}

/// The finding of a key that no key looks like.
fn stray_key(alloc: Global, path: &str, key: &str) -> Result<Finding, AllocError>
    ensures { IfOk result (λ f. finding f.kind (string_bytes f.line) ≡ spec.stray_key path.now key.now) }
{
    match owner_of(key) {
        Some(owner) => {
            let owner = name_of(owner);
            let line = format!(in alloc; "misplaced {path}: belongs to {owner}")?;
            let kind = Kind::Misplaced;
            Ok(Finding { kind, line })
        }
        None => {
            let line = format!(in alloc; "unknown {path}")?;
            let kind = Kind::Unknown;
            Ok(Finding { kind, line })
        }
    }
}

/// The finding of a key that Concourse doesn't know in the object.
fn strange_key(alloc: Global, schema: Schema, path: &str, key: &str) -> Result<Finding, AllocError>
    ensures { IfOk result (λ f. finding f.kind (string_bytes f.line) ≡ spec.strange_key schema path.now key.now) }
{
    match meant_key(alloc, schema, key)? {
        Some(known) => {
            let line = format!(in alloc; "misspelt {path}: {known}?")?;
            let kind = Kind::Misspelt;
            Ok(Finding { kind, line })
        }
        None => stray_key(alloc, path, key),
    }
}

/// What a key without effect is.
fn key_finding(
    alloc: Global,
    schema: Schema,
    path: &str,
    key: &str,
    value: &Value,
) -> Result<Finding, AllocError>
    ensures { IfOk result (λ f. finding f.kind (string_bytes f.line)
        ≡ spec.key_finding schema path.now key.now (view value.now)) }
{
    match remedy_of(schema, key, value) {
        Some(remedy) => {
            let line = unused_line(alloc, path, remedy)?;
            let kind = Kind::Unused;
            Ok(Finding { kind, line })
        }
        None => strange_key(alloc, schema, path, key),
    }
}

/// Adds the finding of a key of the object at a path, unless it has an effect or `null` stands there.
#[tactic(auto, using(crate::proofs::Lists::and_none))]
fn find_key(
    alloc: Global,
    out: &mut Findings,
    schema: Schema,
    path: &str,
    key: &str,
    value: &Value,
) -> Found
    ensures { OnOk result (findings_data out.new.items
        ≡ findings_data out.old.items ++ spec.key_at schema path.now key.now (view value.now)) }
{
    if value.is_null() || is_passed_over(schema, key) {
        return Ok(());
    }
    let below = path_below(alloc, path, key)?;
    let found = key_finding(alloc, schema, below.as_str(), key, value)?;
    out.push(found)?;
    Ok(())
}

/// Adds the findings of an object's members at keys without effect.
#[tactic(auto, using(std::proofs::Common::append_assoc, crate::proofs::Lists::and_none))]
fn find_members(
    alloc: Global,
    out: &mut Findings,
    schema: Schema,
    members: &BTreeMap<String, Value>,
    path: &str,
) -> Found
    ensures { OnOk result (findings_data out.new.items
        ≡ findings_data out.old.items ++ key_findings schema path.now (members_view members.now.entries)) }
{
    for (key, member) in members.iter() {
        find_key(alloc, out, schema, path, key.as_str(), member)?;
    }
    Ok(())
}

/// Whether a key of a get stands among what a resource's program is given.
fn is_strayed(key: &str, value: &Value) -> bool
    ensures { result ≡ spec.is_strayed key.now (view value.now) }
{
    !value.is_null() && (key == "passed" || key == "trigger")
}

/// The finding of such a key.
fn strayed_key(alloc: Global, path: &str) -> Result<Finding, AllocError>
    ensures { IfOk result (λ f. finding f.kind (string_bytes f.line) ≡ spec.strayed_key path.now) }
{
    let line = format!(in alloc; "misplaced {path}: belongs to get")?;
    let kind = Kind::Misplaced;
    Ok(Finding { kind, line })
}

/// Adds that of a key of the object at a path.
#[tactic(auto, using(crate::proofs::Lists::and_none))]
fn find_stray(alloc: Global, out: &mut Findings, path: &str, key: &str, value: &Value) -> Found
    ensures { OnOk result (findings_data out.new.items
        ≡ findings_data out.old.items ++ spec.strayed_at path.now key.now (view value.now)) }
{
    if !is_strayed(key, value) {
        return Ok(());
    }
    let below = path_below(alloc, path, key)?;
    let found = strayed_key(alloc, below.as_str())?;
    out.push(found)?;
    Ok(())
}

/// Adds the findings of such keys.
#[tactic(auto, using(std::proofs::Common::append_assoc, crate::proofs::Lists::and_none))]
fn find_strayed(
    alloc: Global,
    out: &mut Findings,
    members: &BTreeMap<String, Value>,
    path: &str,
) -> Found
    ensures { OnOk result (findings_data out.new.items
        ≡ findings_data out.old.items ++ params_findings path.now (members_view members.now.entries)) }
{
    for (key, member) in members.iter() {
        find_stray(alloc, out, path, key.as_str(), member)?;
    }
    Ok(())
}

/// Adds those of the object at a key of a get or put.
#[tactic(auto, using(crate::proofs::Lists::and_none))]
fn find_params(alloc: Global, out: &mut Findings, step: &Value, path: &str, key: &str) -> Found
    ensures { OnOk result (findings_data out.new.items
        ≡ findings_data out.old.items ++ params_at path.now key.now (view step.now)) }
{
    let Some(params) = step.get(key) else {
        return Ok(());
    };
    let Some(members) = params.as_object() else {
        return Ok(());
    };
    let below = path_below(alloc, path, key)?;
    find_strayed(alloc, out, members, below.as_str())
}

/// Whether steps of the schema give a resource's programs something.
fn gives_params(schema: Schema) -> bool
    ensures { result ≡ spec.gives_params schema }
{
    match schema {
        Schema::Get | Schema::Put => true,
        Schema::Task | Schema::FileTask | Schema::Holder | Schema::Undone => false,
        Schema::Pipeline | Schema::Resource | Schema::Job | Schema::Parallel => false,
        Schema::Config | Schema::Run | Schema::Input | Schema::Output => false,
    }
}

/// Adds the findings of an object's own keys.
#[tactic(auto, using(std::proofs::Common::append_assoc, crate::proofs::Lists::and_none))]
pub(crate) fn find_keys(
    alloc: Global,
    out: &mut Findings,
    schema: Schema,
    value: &Value,
    path: &str,
) -> Found
    ensures { OnOk result (findings_data out.new.items
        ≡ findings_data out.old.items ++ own_keys schema path.now (view value.now)) }
{
    let Some(members) = value.as_object() else {
        return Ok(());
    };
    find_members(alloc, out, schema, members, path)?;
    if !gives_params(schema) {
        return Ok(());
    }
    find_params(alloc, out, value, path, "params")?;
    find_params(alloc, out, value, path, "get_params")
}
