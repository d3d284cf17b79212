//! What tested text is built into.
//!
//! The text has been tested before, so each value is of its key's kind. What is absent, and only that, is built as
//! empty, false or none.
ghost use Rattle.std.specs.Prelude.{◌≡◌, [], map, option_map, IfOk, string_bytes};
ghost use Rattle.serde_json.specs.View.{view, members_view};
ghost use Rattle.ccr_history.specs.ObjectData.{object_data};
ghost use Rattle.ccr_pipeline.specs.Keys.{at_key, list_at};
ghost use Rattle.ccr_pipeline.specs.Names.{text_at};
ghost use Rattle.ccr_pipeline.specs.Tree.{run_data, input_data, variable_data, config_data, source_data, task_data};
ghost use Rattle.ccr_pipeline.specs.Tree.{wanted_data, get_data, put_data};
ghost use Rattle.ccr_pipeline.specs.Meaning.{text_or, texts_from, truth_from, whole_from, object_at, variable_value};
ghost use Rattle.ccr_pipeline.specs.Meaning.{variables_in, variables_from, run_from, inputs_from};
ghost use Rattle.ccr_pipeline.specs.Meaning.{outputs_from, config_from, source_from, task_from};
ghost use Rattle.ccr_pipeline.specs.Meaning.{wanted_in, wanted_from, get_from, put_from, pin_from};

use crate::key::{at_key, list_at};
use crate::names::text_at;
use crate::step::{Get, Put, Wanted};
use crate::task::{Run, Task, TaskConfig, TaskInput, TaskSource, Variable};
use ccr_history::{HistoryFault, Object, Pin, has_float};
use serde_json::Value;
use std::alloc::{AllocError, Global};
use std::collections::BTreeMap;

/// The text at a key.
pub(crate) fn text(alloc: Global, value: &Value, key: &str) -> Result<String, AllocError>
    ensures { IfOk result (λ s. string_bytes s ≡ text_or [] key.now (view value.now)) }
{
    String::from_str(alloc, text_at(value, key).unwrap_or(""))
}

fn text_or(alloc: Global, value: &Value, key: &str, absent: &str) -> Result<String, AllocError>
    ensures { IfOk result (λ s. string_bytes s ≡ text_or absent.now key.now (view value.now)) }
{
    String::from_str(alloc, text_at(value, key).unwrap_or(absent))
}

fn optional_text(alloc: Global, value: &Value, key: &str) -> Result<Option<String>, AllocError>
    ensures { IfOk result (λ o. option_map string_bytes o ≡ text_at key.now (view value.now)) }
{
    match text_at(value, key) {
        Some(text) => Ok(Some(String::from_str(alloc, text)?)),
        None => Ok(None),
    }
}

/// The texts of the list at a key.
pub(crate) fn texts(alloc: Global, value: &Value, key: &str) -> Result<Vec<String>, AllocError>
    ensures { IfOk result (λ v. map string_bytes v.items ≡ texts_from key.now (view value.now)) }
{
    let mut texts = Vec::new(alloc);
    let list = list_at(value, key);
    for member in list {
        if let Some(text) = member.as_str() {
            texts.push(String::from_str(alloc, text)?)?;
        }
    }
    Ok(texts)
}

/// Whether the key has true.
pub(crate) fn truth(value: &Value, key: &str) -> bool
    ensures { result ≡ truth_from key.now (view value.now) }
{
    match at_key(value, key) {
        Some(found) => found.as_bool().unwrap_or(false),
        None => false,
    }
}

/// The number at a key, or 0.
pub(crate) fn whole(value: &Value, key: &str) -> u64
    ensures { result ≡ whole_from key.now (view value.now) }
{
    match at_key(value, key) {
        Some(found) => found.as_u64().unwrap_or(0),
        None => 0,
    }
}

/// The object at a key.
pub(crate) fn object(value: &Value, key: &str) -> Result<Option<Object>, AllocError>
    ensures { IfOk result (λ o. option_map object_data o ≡ object_at key.now (view value.now)) }
{
    match at_key(value, key) {
        Some(found) => Ok(Object::from_value(found.clone()?)),
        None => Ok(None),
    }
}

/// The pin at a key.
pub(crate) fn pin(alloc: Global, value: &Value, key: &str) -> Result<Option<Pin>, AllocError>
    ensures { IfOk result (λ o. o ≡ pin_from key.now (view value.now)) }
{
    let Some(found) = at_key(value, key) else {
        return Ok(None);
    };
    match Pin::from_value(alloc, found) {
        Ok(pin) => Ok(Some(pin)),
        Err(HistoryFault::NoMemory) => Err(AllocError),
        Err(_) => Ok(None),
    }
}

fn variable_value(alloc: Global, value: &Value) -> Result<String, AllocError>
    ensures { IfOk result (λ s. string_bytes s ≡ variable_value (view value.now)) }
{
    if let Some(text) = value.as_str() {
        return String::from_str(alloc, text);
    }
    if value.is_null() || has_float(value) {
        return Ok(String::new(alloc));
    }
    value.to_string(alloc)
}

fn variables_of(
    alloc: Global,
    members: &BTreeMap<String, Value>,
) -> Result<Vec<Variable>, AllocError>
    ensures { IfOk result
        (λ v. map variable_data v.items ≡ variables_in (members_view members.now.entries)) }
{
    let mut variables = Vec::new(alloc);
    for (key, member) in members.iter() {
        variables.push(Variable {
            name: key.clone()?,
            value: variable_value(alloc, member)?,
        })?;
    }
    Ok(variables)
}

fn variables(alloc: Global, value: &Value, key: &str) -> Result<Vec<Variable>, AllocError>
    ensures { IfOk result
        (λ v. map variable_data v.items ≡ variables_from key.now (view value.now)) }
{
    let Some(found) = at_key(value, key) else {
        return Ok(Vec::new(alloc));
    };
    match found.as_object() {
        Some(members) => variables_of(alloc, members),
        None => Ok(Vec::new(alloc)),
    }
}

fn run(alloc: Global, config: &Value) -> Result<Run, AllocError>
    ensures { IfOk result (λ r. run_data r ≡ run_from (view config.now)) }
{
    let absent = Value::Null;
    let run = at_key(config, "run").unwrap_or(&absent);
    Ok(Run {
        path: text(alloc, run, "path")?,
        args: texts(alloc, run, "args")?,
        dir: optional_text(alloc, run, "dir")?,
    })
}

fn inputs(alloc: Global, config: &Value) -> Result<Vec<TaskInput>, AllocError>
    ensures { IfOk result (λ v. map input_data v.items ≡ inputs_from (view config.now)) }
{
    let mut inputs = Vec::new(alloc);
    let list = list_at(config, "inputs");
    for member in list {
        inputs.push(TaskInput {
            name: text(alloc, member, "name")?,
            optional: truth(member, "optional"),
        })?;
    }
    Ok(inputs)
}

fn outputs(alloc: Global, config: &Value) -> Result<Vec<String>, AllocError>
    ensures { IfOk result (λ v. map string_bytes v.items ≡ outputs_from (view config.now)) }
{
    let mut outputs = Vec::new(alloc);
    let list = list_at(config, "outputs");
    for member in list {
        outputs.push(text(alloc, member, "name")?)?;
    }
    Ok(outputs)
}

/// The config that a tested text is.
pub(crate) fn config(alloc: Global, config: &Value) -> Result<TaskConfig, AllocError>
    ensures { IfOk result (λ c. config_data c ≡ config_from (view config.now)) }
{
    Ok(TaskConfig {
        run: run(alloc, config)?,
        inputs: inputs(alloc, config)?,
        outputs: outputs(alloc, config)?,
        params: variables(alloc, config, "params")?,
    })
}

fn source(alloc: Global, step: &Value) -> Result<TaskSource, AllocError>
    ensures { IfOk result (λ s. source_data s ≡ source_from (view step.now)) }
{
    match at_key(step, "config") {
        Some(found) => Ok(TaskSource::Config(config(alloc, found)?)),
        None => Ok(TaskSource::File(text(alloc, step, "file")?)),
    }
}

/// The task that a tested step is.
pub(crate) fn task(alloc: Global, step: &Value) -> Result<Task, AllocError>
    ensures { IfOk result (λ t. task_data t ≡ task_from (view step.now)) }
{
    Ok(Task {
        name: text(alloc, step, "task")?,
        source: source(alloc, step)?,
        params: variables(alloc, step, "params")?,
        timeout: optional_text(alloc, step, "timeout")?,
    })
}

fn wanted_of(alloc: Global, found: &Value) -> Result<Wanted, AllocError>
    ensures { IfOk result (λ w. wanted_data w ≡ wanted_in (view found.now)) }
{
    if let Some(text) = found.as_str() {
        return if text == "every" {
            Ok(Wanted::Every)
        } else {
            Ok(Wanted::Latest)
        };
    }
    match Pin::from_value(alloc, found) {
        Ok(pin) => Ok(Wanted::Pinned(pin)),
        Err(HistoryFault::NoMemory) => Err(AllocError),
        Err(_) => Ok(Wanted::Latest),
    }
}

fn wanted(alloc: Global, step: &Value) -> Result<Wanted, AllocError>
    ensures { IfOk result (λ w. wanted_data w ≡ wanted_from (view step.now)) }
{
    match at_key(step, "version") {
        Some(found) => wanted_of(alloc, found),
        None => Ok(Wanted::Latest),
    }
}

/// The get that a tested step is.
pub(crate) fn get(alloc: Global, step: &Value) -> Result<Get, AllocError>
    ensures { IfOk result (λ g. get_data g ≡ get_from (view step.now)) }
{
    let name = text(alloc, step, "get")?;
    Ok(Get {
        resource: text_or(alloc, step, "resource", name.as_str())?,
        name,
        passed: texts(alloc, step, "passed")?,
        trigger: truth(step, "trigger"),
        params: object(step, "params")?,
        wanted: wanted(alloc, step)?,
        timeout: optional_text(alloc, step, "timeout")?,
    })
}

/// The put that a tested step is.
pub(crate) fn put(alloc: Global, step: &Value) -> Result<Put, AllocError>
    ensures { IfOk result (λ p. put_data p ≡ put_from (view step.now)) }
{
    let name = text(alloc, step, "put")?;
    Ok(Put {
        resource: text_or(alloc, step, "resource", name.as_str())?,
        name,
        params: object(step, "params")?,
        get_params: object(step, "get_params")?,
        no_get: truth(step, "no_get"),
        timeout: optional_text(alloc, step, "timeout")?,
    })
}
