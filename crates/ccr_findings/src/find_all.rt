//! All that is wrong with the text of a pipeline.
ghost use Rattle.std.specs.Prelude.{◌≡◌, ◌++◌, ◌∷◌, [], Some, map, codes, IfOk, OnOk};
ghost use Rattle.serde_json.specs.View.{view, items_view};
ghost use Rattle.ccr_pipeline.specs.Keys.{data_of, here};
ghost use Rattle.ccr_pipeline.specs.Faults.{Faults, Path, fault_of};
ghost use Rattle.ccr_pipeline.specs.declared.fault.Rule.{Rule};
ghost use Rattle.ccr_pipeline.specs.JobRules.{resource_faults, members, list_rule, names_in};
ghost use Rattle.ccr_pipeline.specs.Names.{names_at};
ghost use Rattle.ccr_findings.specs.Present.{AreFaults};
ghost use Rattle.ccr_pipeline.specs.Reading.{faults_before, pipeline_faults};

use crate::find_job::find_jobs;
use crate::find_object::find_object;
use crate::find_walk::Hunt;
use crate::present::{Added, Present};
use crate::seen::Seen;
use ccr_pipeline::schema::{NESTED, Schema};
use ccr_pipeline::{Cursor, Place, ReadFault, Rule, are_few, at_key, list_at, text_at, value_of};
use serde_json::Value;
use std::alloc::{AllocError, Global};

/// Adds what is no list at a key of the pipeline, and a list that is too long.
#[tactic(auto, using(crate::proofs::Lists::and_none), unfolding(ccr_pipeline::specs::JobRules::list_rule))]
fn find_length(out: &mut Present, pipeline: &Value, key: &str) -> Added
    ensures { OnOk result (out.new ≡ out.old ++ list_rule key.now (view pipeline.now)) }
{
    let Some(found) = at_key(pipeline, key) else {
        return Ok(());
    };
    match found.as_array() {
        Some(list) => out.require(&Place::top(key), are_few(list), Rule::Number),
        None => out.require(&Place::top(key), false, Rule::Kind),
    }
}

/// The names of the members of a list.
#[tactic(auto, using(std::proofs::Common::append_assoc))]
fn names_in(alloc: Global, list: &[Value]) -> Result<Seen, AllocError>
    ensures { IfOk result (λ names. names ≡ names_in (items_view list.now)) }
{
    let mut names = Seen::new(alloc);
    for member in list {
        if let Some(name) = text_at(member, "name") {
            names.push(name)?;
        }
    }
    Ok(names)
}

/// Adds what a resource breaks, after those of these names, and adds its name.
#[tactic(auto, using(ccr_pipeline::proofs::TableNames::resource_names_are))]
fn find_resource(alloc: Global, out: &mut Present, names: &mut Seen, resource: &Cursor) -> Added
    ensures found { OnOk result (out.new ≡ out.old ++ here (resource_faults names.old) resource.now) }
    ensures named { OnOk result (names.new ≡ names.old ++ names_at (codes "name") (data_of resource.now)) }
{
    find_object(alloc, out, NESTED, Schema::Resource, names, resource)
}

/// Adds what the resources of a list break.
#[tactic(auto, using(std::proofs::Common::append_assoc))]
fn find_resources(alloc: Global, out: &mut Present, list: &[Value]) -> Added
    ensures { OnOk result
        (out.new ≡ out.old ++ members resource_faults [] (codes "resources") 0 (items_view list.now)) }
{
    let mut names = Seen::new(alloc);
    let all = Place::top("resources");
    for (i, value) in list.iter().enumerate() {
        let place = all.member(i);
        find_resource(alloc, out, &mut names, &Cursor { value, place })?;
    }
    Ok(())
}

/// Adds what is broken before the jobs.
#[tactic(auto, using(std::proofs::Common::append_assoc), unfolding(ccr_pipeline::specs::Reading::faults_before))]
fn find_before(alloc: Global, out: &mut Present, pipeline: &Value) -> Added
    ensures { OnOk result (out.new ≡ out.old ++ faults_before (view pipeline.now)) }
{
    out.require(&Place::top("pipeline"), pipeline.is_object(), Rule::Kind)?;
    find_length(out, pipeline, "resources")?;
    find_resources(alloc, out, list_at(pipeline, "resources"))?;
    find_length(out, pipeline, "jobs")
}

/// The faults that are present in the value of a pipeline's text.
#[tactic(auto, using(std::proofs::Common::append_assoc), unfolding(ccr_pipeline::specs::Reading::pipeline_faults))]
fn present_in(alloc: Global, pipeline: &Value) -> Result<Present, AllocError>
    ensures { IfOk result (λ present. present ≡ pipeline_faults (view pipeline.now)) }
{
    let mut present = Present::new(alloc);
    find_before(alloc, &mut present, pipeline)?;
    let mut hunt = Hunt {
        present,
        unknown: Present::new(alloc),
        gets: Seen::new(alloc),
        resources: names_in(alloc, list_at(pipeline, "resources"))?,
        jobs: names_in(alloc, list_at(pipeline, "jobs"))?,
    };
    find_jobs(alloc, &mut hunt, list_at(pipeline, "jobs"))?;
    let Hunt {
        present,
        unknown,
        ..
    } = hunt;
    let mut present = present;
    present.append(unknown)?;
    Ok(present)
}

/// All that is wrong with the value of a pipeline's text, in the order in which it counts.
pub fn faults_in(alloc: Global, pipeline: &Value) -> Result<Vec<ReadFault>, AllocError>
    ensures { IfOk result (λ v. map fault_of v.items ≡ map Some (pipeline_faults (view pipeline.now))) }
{
    present_in(alloc, pipeline)?.into_faults(alloc)
}

/// A fault alone, unless memory ran out.
fn alone(alloc: Global, fault: ReadFault) -> Result<Vec<ReadFault>, AllocError>
    ensures { IfOk result (λ v. (f : Rule × Path) × (fault_of fault ≡ Some f) × (map fault_of v.items ≡ Some f ∷ [])) }
{
    match fault {
        ReadFault::NoMemory => Err(AllocError),
        told => {
            let mut faults = Vec::new(alloc);
            faults.push(told)?;
            Ok(faults)
        }
    }
}

/// All that is wrong with the text of a pipeline, in the order in which it counts; the first is the one that
/// [`ccr_pipeline::read`] tells. There is none exactly where a pipeline can be read.
pub fn faults_of(alloc: Global, text: &[u8]) -> Result<Vec<ReadFault>, AllocError>
    // The text is too long or no JSON value, which is one fault; or each fault that is present in its value.
    ensures { IfOk result (λ v. (fs : Faults) × (map fault_of v.items ≡ map Some fs)
        × AreFaults (codes "pipeline") pipeline_faults text.now fs) }
{
    match value_of(alloc, text, "pipeline") {
        Ok(value) => faults_in(alloc, &value),
        Err(fault) => alone(alloc, fault),
    }
}
