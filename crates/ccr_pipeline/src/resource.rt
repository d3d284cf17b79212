//! Resources and jobs.
ghost use Rattle.std.specs.Prelude.{◌≡◌, IsTrue, ◌&&◌, option_map, string_bytes};
ghost use Rattle.ccr_history.specs.ObjectData.{object_data};
ghost use Rattle.ccr_pipeline.specs.Inputs.{are_few, inputs};
ghost use Rattle.ccr_pipeline.specs.Kinds.{is_name};
ghost use Rattle.ccr_pipeline.specs.Limits.{IsShallow, TriesFit, TriesFit-prop, IsWellNamed, HasDistinctInputs};
ghost use Rattle.ccr_pipeline.specs.Scopes.{scope_with};
ghost use Rattle.std.proofs.Props.{props};
ghost use Rattle.ccr_pipeline.specs.Tree.{tree_of};

use crate::step::Step;
use ccr_history::{Object, Pin, Scope};
use std::rc::Rc;

/// A resource (Concourse: resources).
#[derive(Drop)]
pub struct Resource {
    /// The resource's name; no two resources have the same.
    pub name: String,
    /// Its type, which names its programs.
    pub kind: String,
    /// What its programs are given.
    pub source: Option<Object>,
    /// The pin that the pipeline sets.
    pub version: Option<Pin>,
    pub(crate) scope: Scope,
    // Its scope is that of its name, type and source.
    pub ghost scoped: { scope ≡ scope_with (string_bytes name) (string_bytes kind) (option_map object_data source) },
    // What it and its type are called may be a name.
    pub ghost well_named: { IsTrue (is_name (string_bytes name) && is_name (string_bytes kind)) },
}

/// A job (Concourse: jobs).
#[derive(Drop)]
pub struct Job {
    /// The job's name; no two jobs have the same.
    pub name: String,
    /// The plan as a `do`, in the job's hooks. The job's builds share it, also after the pipeline has gone.
    pub plan: Rc<Step>,
    /// Whether at most one build runs.
    pub serial: bool,
    /// The groups of which at most one build runs.
    pub serial_groups: Vec<String>,
    /// How many builds may run; 0 is no limit.
    pub max_in_flight: u64,
    // What it is called may be a name.
    pub ghost named: { IsTrue (is_name (string_bytes name)) },
    // The plan has at most 32 inputs, and they name at most 32 jobs.
    pub ghost few: { IsTrue (are_few (inputs (tree_of plan.value))) },
    // No two inputs have one name.
    pub ghost distinct: { HasDistinctInputs (tree_of plan.value) } by { Prim.hlevel props },
    // Its steps lie at most 30 levels deep.
    pub ghost shallow: { IsShallow (tree_of plan.value) },
    // Each attempts is from 1 to 100, and the product of those from the job down to a step at most 10,000.
    pub ghost few_tries: { TriesFit 1 (tree_of plan.value) } by { TriesFit-prop 1 (tree_of plan.value) },
    // What its gets, puts, task inputs and task outputs are called may be a name.
    pub ghost well_named: { IsWellNamed (tree_of plan.value) },
}
