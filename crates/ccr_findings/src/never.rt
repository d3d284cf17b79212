//! Jobs in `passed` that never get or put the resource, and a `passed` without jobs.
ghost use Rattle.std.specs.Prelude.{◌≡◌, ◌∷◌, ◌++◌, [], map, option_map, OnOk};
ghost use Rattle.serde_json.specs.View.{view, items_view};
ghost use Rattle.ccr_pipeline.specs.JobData.{job_data};
ghost use Rattle.ccr_pipeline.specs.Tree.{tree_of, trees_of};
ghost use Rattle.ccr_findings.specs.Findings.{findings_data};
ghost use Rattle.ccr_findings.specs.Objects as spec;
ghost use Rattle.ccr_findings.specs.Objects.{never_at, never_in, empty_at, passed_findings, own_passed};

use crate::finding::{Finding, Findings, Kind};
use crate::objects::Found;
use ccr_pipeline::{Job, Step, path_at, path_below, text_at};
use serde_json::Value;
use std::alloc::Global;

/// Whether one of the steps gets or puts the resource.
#[cycle(moves)]
fn moves_in(steps: &Vec<Step>, resource: &str) -> bool
    ensures { result ≡ spec.moves_in resource.now (trees_of (map tree_of steps.now.items)) }
{
    for step in steps {
        if moves(step, resource) {
            return true;
        }
    }
    false
}

/// Whether a step, or one in it, gets or puts the resource.
#[cycle(moves)]
fn moves(step: &Step, resource: &str) -> bool
    ensures { result ≡ spec.moves resource.now (tree_of step.now) }
{
    match step {
        Step::Get(get) => get.resource.as_str() == resource,
        Step::Put(put) => put.resource.as_str() == resource,
        Step::Task(_) => false,
        Step::Do(steps) => moves_in(steps, resource),
        Step::InParallel(steps, _) => moves_in(steps, resource),
        Step::Try(tried) => moves(tried, resource),
        Step::Attempts(_, tried) => moves(tried, resource),
        Step::Hook(_, inner, hook) => moves(inner, resource) || moves(hook, resource),
    }
}

/// Whether the job of this name never gets or puts the resource.
fn is_never(jobs: &[Job], name: &str, resource: &str) -> bool
    ensures { result ≡ spec.is_never (map job_data jobs.now) name.now resource.now }
{
    for job in jobs {
        if job.name.as_str() == name {
            return !moves(&job.plan, resource);
        }
    }
    false
}

/// Adds the finding of a job in `passed` that never gets or puts the resource.
#[tactic(auto, using(crate::proofs::Lists::and_none))]
fn find_never(
    alloc: Global,
    out: &mut Findings,
    jobs: &[Job],
    resource: &str,
    path: &str,
    name: &str,
) -> Found
    ensures { OnOk result (findings_data out.new.items ≡ findings_data out.old.items
        ++ never_at (map job_data jobs.now) resource.now path.now name.now) }
{
    if !is_never(jobs, name, resource) {
        return Ok(());
    }
    let line = format!(in alloc; "never {path}: {name} neither gets nor puts {resource}")?;
    let kind = Kind::Never;
    out.push(Finding { kind, line })?;
    Ok(())
}

/// Adds those of a `passed`.
#[tactic(auto, using(std::proofs::Common::append_assoc, crate::proofs::Lists::and_none))]
fn find_in_passed(
    alloc: Global,
    out: &mut Findings,
    jobs: &[Job],
    resource: &str,
    path: &str,
    list: &[Value],
) -> Found
    ensures { OnOk result (findings_data out.new.items ≡ findings_data out.old.items
        ++ never_in (map job_data jobs.now) resource.now path.now 0 (items_view list.now)) }
{
    for (i, member) in list.iter().enumerate() {
        if let Some(name) = member.as_str() {
            let below = path_at(alloc, path, i)?;
            find_never(alloc, out, jobs, resource, below.as_str(), name)?;
        }
    }
    Ok(())
}

/// Adds the finding of a `passed` that names no job.
fn add_empty(alloc: Global, out: &mut Findings, path: &str) -> Found
    ensures { OnOk result (findings_data out.new.items
        ≡ findings_data out.old.items ++ spec.empty_finding path.now ∷ []) }
{
    let line = format!(in alloc; "empty {path}: no gate")?;
    let kind = Kind::Empty;
    out.push(Finding { kind, line })?;
    Ok(())
}

/// Adds it, if the list is empty.
#[tactic(auto, using(crate::proofs::Lists::and_none, crate::proofs::Strays::empty_on))]
fn find_empty(alloc: Global, out: &mut Findings, path: &str, list: &[Value]) -> Found
    ensures { OnOk result (findings_data out.new.items
        ≡ findings_data out.old.items ++ empty_at path.now (items_view list.now)) }
{
    match list.split_first() {
        Some(_) => Ok(()),
        None => {
            add_empty(alloc, out, path)?;
            Ok(())
        }
    }
}

/// The resource of a get: the one that it says, or that of its name.
fn resource_of(get: &Value) -> Option<&str>
    ensures { option_map (λ name. name.now) result ≡ spec.resource_of (view get.now) }
{
    match text_at(get, "resource") {
        Some(name) => Some(name),
        None => text_at(get, "get"),
    }
}

/// The jobs that stand at a `passed`: `null` names none.
fn passed_list(found: &Value) -> Option<&[Value]>
    ensures { option_map (λ list. items_view list.now) result ≡ spec.passed_list (view found.now) }
{
    match found {
        Value::Null => Some(&[]),
        Value::Array(list) => Some(list),
        Value::Bool(_) | Value::Number(_) | Value::String(_) | Value::Object(_) => None,
    }
}

/// Adds the findings of a `passed` that says these jobs.
#[tactic(auto, using(std::proofs::Common::append_assoc))]
fn find_list(
    alloc: Global,
    out: &mut Findings,
    jobs: &[Job],
    resource: &str,
    path: &str,
    list: &[Value],
) -> Found
    ensures { OnOk result (findings_data out.new.items ≡ findings_data out.old.items
        ++ passed_findings (map job_data jobs.now) resource.now path.now (items_view list.now)) }
{
    find_empty(alloc, out, path, list)?;
    find_in_passed(alloc, out, jobs, resource, path, list)
}

/// Adds those of a get: which jobs in its `passed` never get or put its resource, and that no job is named.
#[tactic(auto, using(crate::proofs::Lists::and_none))]
pub(crate) fn find_passed(
    alloc: Global,
    out: &mut Findings,
    jobs: &[Job],
    get: &Value,
    path: &str,
) -> Found
    ensures { OnOk result (findings_data out.new.items ≡ findings_data out.old.items
        ++ own_passed (map job_data jobs.now) path.now (view get.now)) }
{
    let Some(resource) = resource_of(get) else {
        return Ok(());
    };
    let Some(passed) = get.get("passed") else {
        return Ok(());
    };
    let Some(list) = passed_list(passed) else {
        return Ok(());
    };
    let below = path_below(alloc, path, "passed")?;
    find_list(alloc, out, jobs, resource, below.as_str(), list)
}
