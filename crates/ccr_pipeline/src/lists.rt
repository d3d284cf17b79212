//! The lists of a pipeline, and all that is read of it before its jobs.
ghost use Rattle.std.specs.Prelude.{◌≡◌, ◌++◌, ◌∷◌, [], None, map, option_map, nat_le, codes, IfOk, OnOk};
ghost use Rattle.serde_json.specs.Events.{items_len};
ghost use Rattle.serde_json.specs.Find.{get_member};
ghost use Rattle.serde_json.specs.View.{view, items_view, members_view};
ghost use Rattle.ccr_pipeline.specs.Keys.{data_of, here, at_key, list_at};
ghost use Rattle.ccr_pipeline.specs.Faults.{Checks, ChecksAs};
ghost use Rattle.ccr_pipeline.specs.JobData.{resource_data};
ghost use Rattle.ccr_pipeline.specs.JobRules.{resource_faults, members, list_rule, names_in, list_names};
ghost use Rattle.ccr_pipeline.specs.Names.{names_at, names_of, with_names};
ghost use Rattle.ccr_pipeline.specs.Notes.{notes_data, IsBefore};
ghost use Rattle.ccr_pipeline.specs.Pipelines.{resource_from, resources_in, resources_from, IsResource};
ghost use Rattle.ccr_pipeline.specs.Reading.{faults_before};
ghost use Rattle.ccr_pipeline.specs.Unused.{unused_object};
ghost use Rattle.ccr_pipeline.specs.declared.schema.Schema.TheVariants.{Pipeline};
ghost use Rattle.ccr_pipeline.specs.declared.schema.TheConstants.{NESTED};

use crate::build::{object, pin, text};
use crate::cursor::Cursor;
use crate::fault::{Checked, Rule};
use crate::key::{at_key, list_at};
use crate::names::{Names, text_at};
use crate::notes::Notes;
use crate::object::check_object;
use crate::place::Place;
use crate::resource::Resource;
use crate::schema::{NESTED, Schema};
use crate::scope::scope_with;
use crate::unused::push_keys;
use serde_json::Value;
use std::alloc::{AllocError, Global};
use std::collections::BTreeMap;

/// How many resources, and how many jobs, a pipeline may have.
pub const MOST_MEMBERS: usize = 200;

/// Whether there are no more than a pipeline may have.
pub fn are_few(list: &Vec<Value>) -> bool
    ensures { result ≡ nat_le (items_len (items_view list.now.items)) MOST_MEMBERS }
{
    list.len() <= MOST_MEMBERS
}

/// Refuses what is no list at a key of the pipeline, and a list that is too long.
#[tactic(auto, unfolding(crate::specs::JobRules::list_rule))]
fn check_list(alloc: Global, pipeline: &Value, key: &str) -> Checked
    ensures { Checks (list_rule key.now (view pipeline.now)) result }
{
    let Some(found) = at_key(pipeline, key) else {
        return Ok(());
    };
    match found.as_array() {
        Some(list) => Place::top(key).require(alloc, are_few(list), Rule::Number),
        None => Place::top(key).require(alloc, false, Rule::Kind),
    }
}

/// Adds the names of the members of a list.
fn add_names(alloc: Global, names: &mut Names, list: &[Value]) -> Result<(), AllocError>
    ensures { OnOk result (names.new ≡ with_names names.old (names_in (items_view list.now))) }
{
    for member in list {
        if let Some(name) = text_at(member, "name") {
            names.add(alloc, name)?;
        }
    }
    Ok(())
}

fn resource(alloc: Global, value: &Value) -> Result<Resource, AllocError>
    requires { IsResource (view value.now) }
    ensures { IfOk result (λ r. resource_data r ≡ resource_from (view value.now)) }
{
    let name = text(alloc, value, "name")?;
    let kind = text(alloc, value, "type")?;
    let source = object(value, "source")?;
    Ok(Resource {
        scope: scope_with(alloc, name.as_str(), kind.as_str(), &source)?,
        version: pin(alloc, value, "version")?,
        name,
        kind,
        source,
    })
}

/// Reads a resource (Concourse: resources), after those of these names, and adds its name.
#[tactic(auto, using(crate::proofs::TableNames::resource_names_are))]
fn read_resource(alloc: Global, names: &mut Names, text: &Cursor) -> Checked<Resource>
    ensures checked { ChecksAs (here (resource_faults names.old) text.now) (resource_from (data_of text.now))
        resource_data result }
    ensures named { OnOk result (names.new ≡ names.old ++ names_at (codes "name") (data_of text.now)) }
{
    check_object(alloc, NESTED, Schema::Resource, names, text)?;
    Ok(resource(alloc, text.value)?)
}

/// Reads a resource, and adds it and its name.
fn push_resource(names: &mut Names, resources: &mut Vec<Resource>, text: &Cursor) -> Checked
    ensures checked { Checks (here (resource_faults names.old) text.now) result }
    ensures named { OnOk result (names.new ≡ names.old ++ names_at (codes "name") (data_of text.now)) }
    ensures added { OnOk result (map resource_data resources.new.items
        ≡ map resource_data resources.old.items ++ resource_from (data_of text.now) ∷ []) }
{
    let alloc = *resources.allocator();
    resources.push(read_resource(alloc, names, text)?)?;
    Ok(())
}

/// Reads resources, and adds their names.
#[tactic(auto, using(crate::proofs::Faulted::first_append))]
fn read_resources(alloc: Global, names: &mut Names, list: &[Value]) -> Checked<Vec<Resource>>
    ensures checked { ChecksAs (members resource_faults names.old (codes "resources") 0 (items_view list.now))
        (resources_in (items_view list.now)) (λ v. map resource_data v.items) result }
    ensures named { OnOk result (names.new ≡ names.old ++ names_in (items_view list.now)) }
{
    let mut resources = Vec::new(alloc);
    let all = Place::top("resources");
    for (i, value) in list.iter().enumerate() {
        let place = all.member(i);
        push_resource(names, &mut resources, &Cursor { value, place })?;
    }
    Ok(resources)
}

/// What is known and noted of a pipeline before its jobs are read: the names of its resources, which are given, those of
/// its jobs, and the unused keys of all but the steps.
fn first_notes(alloc: Global, resources: Names, pipeline: &Value) -> Result<Notes, AllocError>
    ensures resources { IfOk result (λ n. n.resources ≡ resources) }
    ensures jobs { IfOk result (λ n. n.jobs ≡ with_names [] (list_names (codes "jobs") (view pipeline.now))) }
    ensures unknown { IfOk result (λ n. n.unknown ≡ None) }
    ensures unused { IfOk result (λ n. names_of n.unused.items ≡ unused_object NESTED Pipeline [] (view pipeline.now)) }
{
    let mut unused = Vec::new(alloc);
    let (value, place) = (pipeline, Place::top(""));
    let whole = Cursor { value, place };
    push_keys(&mut unused, NESTED, Schema::Pipeline, &whole)?;
    let mut jobs = Names::new(alloc);
    add_names(alloc, &mut jobs, list_at(pipeline, "jobs"))?;
    Ok(Notes {
        resources,
        jobs,
        gets: Names::new(alloc),
        unknown: None,
        unused,
    })
}

/// Reads the resources, whose names are the first ones, and refuses jobs that are no list.
#[tactic(auto, using(crate::proofs::Faulted::first_append), unfolding(crate::specs::Reading::faults_before))]
fn read_lists(alloc: Global, names: &mut Names, pipeline: &Value) -> Checked<Vec<Resource>>
    requires { names.old ≡ [] }
    ensures checked { Checks (faults_before (view pipeline.now)) result }
    ensures named { OnOk result (names.new ≡ list_names (codes "resources") (view pipeline.now)) }
    ensures read { IfOk result (λ v. map resource_data v.items ≡ resources_from (view pipeline.now)) }
{
    Place::top("pipeline").require(alloc, pipeline.is_object(), Rule::Kind)?;
    check_list(alloc, pipeline, "resources")?;
    let resources = read_resources(alloc, names, list_at(pipeline, "resources"))?;
    check_list(alloc, pipeline, "jobs")?;
    Ok(resources)
}

/// Reads what comes before the jobs: the resources, the names of both, and the unused keys of all but the steps.
pub(crate) fn read_before(alloc: Global, pipeline: &Value) -> Checked<(Notes, Vec<Resource>)>
    ensures checked { Checks (faults_before (view pipeline.now)) result }
    ensures known { IfOk result (λ before. IsBefore (view pipeline.now) (notes_data before.0)) }
    ensures read { IfOk result (λ before. map resource_data before.1.items ≡ resources_from (view pipeline.now)) }
{
    let mut names = Names::new(alloc);
    let resources = read_lists(alloc, &mut names, pipeline)?;
    let notes = first_notes(alloc, names, pipeline)?;
    Ok((notes, resources))
}

/// What stands at a key of the members, which are dropped.
fn member(members: BTreeMap<String, Value>, key: &str) -> Option<Value>
    ensures { option_map view result ≡ get_member key.now (members_view members.entries) }
{
    let mut members = members;
    members.remove(key)
}

/// The list of jobs of a pipeline, of which nothing else is kept.
pub(crate) fn job_list(alloc: Global, pipeline: Value) -> Vec<Value>
    ensures { items_view result.items ≡ list_at (codes "jobs") (view pipeline) }
{
    let Value::Object(members) = pipeline else {
        return Vec::new(alloc);
    };
    match member(members, "jobs") {
        Some(Value::Array(list)) => list,
        _ => Vec::new(alloc),
    }
}
