//! Asks, as JSON. The members of an object are in the order of their keys.

use crate::json::{push_comma, push_text, push_texts};
use ccr_history::{Object, Version};
use ccr_pipeline::{TaskConfig, TaskInput, Variable};
use ccr_steps::Ask;
use std::alloc::{AllocError, Global};

/// Adds variables as an object.
fn push_variables(
    alloc: Global,
    out: &mut String,
    variables: &[Variable],
) -> Result<(), AllocError> {
    out.push_str("{")?;
    for (i, variable) in variables.iter().enumerate() {
        push_comma(out, i)?;
        push_text(alloc, out, "", variable.name.as_str())?;
        push_text(alloc, out, ":", variable.value.as_str())?;
    }
    out.push_str("}")
}

fn push_inputs(alloc: Global, out: &mut String, inputs: &[TaskInput]) -> Result<(), AllocError> {
    for (i, input) in inputs.iter().enumerate() {
        push_comma(out, i)?;
        push_text(alloc, out, "{\"name\":", input.name.as_str())?;
        let optional = input.optional;
        write!(out, ",\"optional\":{optional}}}")?;
    }
    Ok(())
}

/// Adds what a task runs.
fn push_run(alloc: Global, out: &mut String, config: &TaskConfig) -> Result<(), AllocError> {
    out.push_str("{\"args\":")?;
    push_texts(alloc, out, &config.run.args)?;
    if let Some(dir) = &config.run.dir {
        push_text(alloc, out, ",\"dir\":", dir.as_str())?;
    }
    push_text(alloc, out, ",\"path\":", config.run.path.as_str())?;
    out.push_str("}")
}

fn push_config(alloc: Global, out: &mut String, config: &TaskConfig) -> Result<(), AllocError> {
    out.push_str("{\"inputs\":[")?;
    push_inputs(alloc, out, &config.inputs)?;
    out.push_str("],\"outputs\":")?;
    push_texts(alloc, out, &config.outputs)?;
    out.push_str(",\"params\":")?;
    push_variables(alloc, out, &config.params)?;
    out.push_str(",\"run\":")?;
    push_run(alloc, out, config)?;
    out.push_str("}")
}

/// Adds what a program is given at `params`, if there is such.
fn push_params(alloc: Global, out: &mut String, params: Option<&Object>) -> Result<(), AllocError> {
    match params {
        Some(params) => {
            let text = params.text(alloc)?;
            out.push_str(",\"params\":")?;
            out.push_str(text.as_str())
        }
        None => Ok(()),
    }
}

/// Adds the turn, if it is to be told.
fn push_turn(out: &mut String, turn: Option<u64>) -> Result<(), AllocError> {
    match turn {
        Some(turn) => write!(out, ",\"turn\":{turn}"),
        None => Ok(()),
    }
}

fn push_version(alloc: Global, out: &mut String, version: &Version) -> Result<(), AllocError> {
    let key = version.key(alloc)?;
    out.push_str(",\"version\":")?;
    out.push_str(key.as_str())
}

/// Adds the members of a fetch or a push that stand before its turn.
fn push_step(
    alloc: Global,
    out: &mut String,
    ask: &str,
    artifact: &str,
    resource: &str,
    params: Option<&Object>,
) -> Result<(), AllocError> {
    push_text(alloc, out, "{\"artifact\":", artifact)?;
    push_text(alloc, out, ",\"ask\":", ask)?;
    push_params(alloc, out, params)?;
    push_text(alloc, out, ",\"resource\":", resource)
}

fn push_task(
    alloc: Global,
    out: &mut String,
    config: &TaskConfig,
    env: &[Variable],
) -> Result<(), AllocError> {
    out.push_str("{\"ask\":\"task\",\"config\":")?;
    push_config(alloc, out, config)?;
    out.push_str(",\"env\":")?;
    push_variables(alloc, out, env)
}

/// Adds what a build asks, as an object without its end, with the turn if it is to be told.
fn push_ask(
    alloc: Global,
    out: &mut String,
    ask: &Ask<'_>,
    turn: Option<u64>,
) -> Result<(), AllocError> {
    match ask {
        Ask::Fetch {
            artifact,
            resource,
            version,
            params,
        } => {
            push_step(alloc, out, "fetch", artifact, resource, *params)?;
            push_turn(out, turn)?;
            push_version(alloc, out, version)
        }
        Ask::Push {
            artifact,
            resource,
            params,
        } => {
            push_step(alloc, out, "push", artifact, resource, *params)?;
            push_turn(out, turn)
        }
        Ask::ReadConfig { file } => {
            push_text(alloc, out, "{\"ask\":\"config\",\"file\":", file)?;
            push_turn(out, turn)
        }
        Ask::RunTask { config, env } => {
            push_task(alloc, out, config, env)?;
            push_turn(out, turn)
        }
    }
}

/// What a build asks, as an object, with the turn if it is to be told.
pub fn ask_text(alloc: Global, ask: &Ask<'_>, turn: Option<u64>) -> Result<String, AllocError> {
    let mut text = String::new(alloc);
    push_ask(alloc, &mut text, ask, turn)?;
    text.push_str("}")?;
    Ok(text)
}
