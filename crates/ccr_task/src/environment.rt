//! The environment of a task.
ghost use Rattle.std.specs.Prelude.{◌≡◌, ◌∷◌, [], map, IfOk, OnOk, string_bytes};
ghost use Rattle.std.specs.Cmp.Lexicographic.{slice_cmp};
ghost use Rattle.std.specs.List.Sorted.{IsStrictlySortedBy};
ghost use Rattle.std.specs.Map.{keys_of};
ghost use Rattle.std.specs.Ordering.{nat_cmp};
ghost use Rattle.ccr_pipeline.specs.Tree.{variable_data};
ghost use Rattle.ccr_process.specs.Launches.{variables_of};
ghost use Rattle.ccr_task.specs.Environment.{IsEnvironment, GainsNew};

use ccr_pipeline::Variable;
use std::alloc::{AllocError, Global};
use std::collections::BTreeMap;

/// Adds a variable, if its name isn't there.
fn add(env: &mut BTreeMap<String, String>, variable: &Variable) -> Result<(), AllocError>
    ensures { OnOk result (GainsNew env.old (variable_data variable.now ∷ []) env.new) }
{
    if !env.contains_key(variable.name.as_str()) {
        env.insert(variable.name.clone()?, variable.value.clone()?)?;
    }
    Ok(())
}

/// Adds the variables whose names aren't there.
fn add_all(env: &mut BTreeMap<String, String>, variables: &[Variable]) -> Result<(), AllocError>
    ensures { OnOk result (GainsNew env.old (map variable_data variables.now) env.new) }
{
    for variable in variables {
        add(env, variable)?;
    }
    Ok(())
}

/// The entries of a map, whose keys ascend by bytes.
fn entries(
    alloc: Global,
    env: BTreeMap<String, String>,
) -> Result<Vec<(String, String)>, AllocError>
    ensures listed { IfOk result (λ v. v.items ≡ env.entries) }
    ensures ordered { IsStrictlySortedBy (λ x y. slice_cmp nat_cmp (string_bytes x) (string_bytes y))
        (keys_of env.entries) }
{
    env.into_iter().collect(alloc)
}

/// A task's environment: the config's variables, those of the step replacing equal names, names ascending by bytes
/// (Concourse: task step, params).
pub(crate) fn environment(
    alloc: Global,
    config: &[Variable],
    step: &[Variable],
) -> Result<Vec<(String, String)>, AllocError>
    ensures { IfOk result (λ env. IsEnvironment (map variable_data config.now) (map variable_data step.now)
        (variables_of env.items)) }
{
    let mut env = BTreeMap::new(alloc);
    add_all(&mut env, step)?;
    add_all(&mut env, config)?;
    entries(alloc, env)
}
