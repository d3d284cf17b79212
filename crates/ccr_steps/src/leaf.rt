//! The steps that ask: what they wait for, and how they go on with an answer.
ghost use Rattle.std.specs.Prelude.{◌≡◌, map, option_map, string_bytes, IfOk};
ghost use Rattle.ccr_pipeline.specs.Tree.{tree_of, get_data, put_data, task_data, put as put_tree, task as task_tree};
ghost use Rattle.ccr_steps.specs.Asks.{Chosen, ask_data, answer_data};
ghost use Rattle.ccr_steps.specs.Frames.{first, leaf_data, leaf_ask, leaf_next, source_next, NextIs};
ghost use Rattle.ccr_steps.specs.Gains.{gains_data, Grew, register};
ghost use Rattle.ccr_steps.specs.Inputs.{inputs_data, HasVersion};
ghost use Rattle.ccr_steps.specs.Means.{got_version};
ghost use Rattle.ccr_steps.specs.Play.{ended, after_fetch, after_push, after_read, after_run};

use crate::ask::{Answered, Ask};
use crate::frame::Leaf;
use crate::gains::Gains;
use crate::inputs::Inputs;
use crate::outcome::Outcome;
use ccr_history::Version;
use ccr_pipeline::{Get, Put, Step, Task, TaskSource};
use std::alloc::{AllocError, Global};

fn first_ask<'r>(step: &'r Step, inputs: &'r Inputs) -> Option<Ask<'r>>
    requires { HasVersion (inputs_data inputs.now) (tree_of step.now) }
    ensures { option_map ask_data result ≡ leaf_ask (inputs_data inputs.now) (tree_of step.now) first }
{
    match step {
        Step::Get(get) => Some(Ask::Fetch {
            artifact: get.name.as_str(),
            resource: get.resource.as_str(),
            version: inputs.version_of(get.name.as_str()),
            params: get.params.as_ref(),
        }),
        Step::Put(put) => Some(Ask::Push {
            artifact: put.name.as_str(),
            resource: put.resource.as_str(),
            params: put.params.as_ref(),
        }),
        Step::Task(task) => Some(match &task.source {
            TaskSource::Config(config) => Ask::RunTask {
                config,
                env: task.params.as_slice(),
            },
            TaskSource::File(file) => Ask::ReadConfig {
                file: file.as_str(),
            },
        }),
        _ => None,
    }
}

/// What a step at the end of a path waits for.
pub(crate) fn leaf_ask<'r>(step: &'r Step, leaf: &'r Leaf, inputs: &'r Inputs) -> Option<Ask<'r>>
    requires { HasVersion (inputs_data inputs.now) (tree_of step.now) }
    ensures { option_map ask_data result
        ≡ leaf_ask (inputs_data inputs.now) (tree_of step.now) (leaf_data leaf.now) }
{
    match (step, leaf) {
        (_, Leaf::First) => first_ask(step, inputs),
        (Step::Put(put), Leaf::Fetching(version)) => Some(Ask::Fetch {
            artifact: put.name.as_str(),
            resource: put.resource.as_str(),
            version,
            params: put.get_params.as_ref(),
        }),
        (Step::Task(task), Leaf::Running(config)) => Some(Ask::RunTask {
            config,
            env: task.params.as_slice(),
        }),
        _ => None,
    }
}

/// How a step that asks goes on with an answer.
#[derive(Drop)]
pub(crate) enum Next {
    /// It waits for another ask.
    Waits(Leaf),
    /// It has ended.
    Ended(Outcome),
}

fn answer_get(
    alloc: Global,
    get: &Get,
    version: &Version,
    gains: &mut Gains,
    answer: &Answered,
) -> Result<Outcome, AllocError>
    ensures ok { IfOk result (λ o.
        after_fetch (got_version (get_data get.now) version.now) (answer_data answer.now) (gains_data gains.old)
        ≡ ended o (gains_data gains.new)) }
    ensures grew { Grew (gains_data gains.old) (gains_data gains.new) }
{
    match answer {
        Answered::Done => {
            gains.register(alloc, get.name.as_str())?;
            gains.add_moved(alloc, get.resource.as_str(), version)?;
            Ok(Outcome::Succeeded)
        }
        Answered::Failed => Ok(Outcome::Failed),
        Answered::Aborted => Ok(Outcome::Aborted),
        Answered::Pushed(_) | Answered::Config(_) | Answered::Errored => Ok(Outcome::Errored),
    }
}

fn answer_fetch(
    alloc: Global,
    name: &str,
    gains: &mut Gains,
    answer: &Answered,
) -> Result<Outcome, AllocError>
    ensures ok { IfOk result (λ o.
        after_fetch (register name.now) (answer_data answer.now) (gains_data gains.old)
        ≡ ended o (gains_data gains.new)) }
    ensures grew { Grew (gains_data gains.old) (gains_data gains.new) }
{
    match answer {
        Answered::Done => {
            gains.register(alloc, name)?;
            Ok(Outcome::Succeeded)
        }
        Answered::Failed => Ok(Outcome::Failed),
        Answered::Aborted => Ok(Outcome::Aborted),
        Answered::Pushed(_) | Answered::Config(_) | Answered::Errored => Ok(Outcome::Errored),
    }
}

fn answer_push(
    alloc: Global,
    put: &Put,
    gains: &mut Gains,
    answer: Answered,
) -> Result<Next, AllocError>
    ensures ok { IfOk result (λ n. (c : Chosen)
        → NextIs c (after_push (put_data put.now) (answer_data answer) (gains_data gains.old))
        (put_tree (put_data put.now)) (gains_data gains.new) n) }
    ensures grew { Grew (gains_data gains.old) (gains_data gains.new) }
{
    match answer {
        Answered::Pushed(version) => {
            gains.add_moved(alloc, put.resource.as_str(), &version)?;
            if put.no_get {
                return Ok(Next::Ended(Outcome::Succeeded));
            }
            Ok(Next::Waits(Leaf::Fetching(version)))
        }
        Answered::Failed => Ok(Next::Ended(Outcome::Failed)),
        Answered::Aborted => Ok(Next::Ended(Outcome::Aborted)),
        Answered::Done => Ok(Next::Ended(Outcome::Errored)),
        Answered::Config(_config) => Ok(Next::Ended(Outcome::Errored)),
        Answered::Errored => Ok(Next::Ended(Outcome::Errored)),
    }
}

fn answer_run(
    alloc: Global,
    outputs: &[String],
    gains: &mut Gains,
    answer: &Answered,
) -> Result<Outcome, AllocError>
    ensures ok { IfOk result (λ o.
        after_run (map string_bytes outputs.now) (answer_data answer.now) (gains_data gains.old)
        ≡ ended o (gains_data gains.new)) }
    ensures grew { Grew (gains_data gains.old) (gains_data gains.new) }
{
    let outcome = match answer {
        Answered::Done => Outcome::Succeeded,
        Answered::Failed => Outcome::Failed,
        Answered::Aborted => return Ok(Outcome::Aborted),
        Answered::Pushed(_) | Answered::Config(_) | Answered::Errored => {
            return Ok(Outcome::Errored);
        }
    };
    gains.register_all(alloc, outputs)?;
    Ok(outcome)
}

fn answer_read(task: &Task, gains: &Gains, answer: Answered) -> Next
    ensures { (c : Chosen)
        → NextIs c (after_read (task_data task.now).params (answer_data answer) (gains_data gains.now))
        (task_tree (task_data task.now)) (gains_data gains.now) result }
{
    match answer {
        Answered::Config(config) => {
            if gains.has_inputs(&config.inputs) {
                Next::Waits(Leaf::Running(config))
            } else {
                Next::Ended(Outcome::Errored)
            }
        }
        Answered::Aborted => Next::Ended(Outcome::Aborted),
        Answered::Done => Next::Ended(Outcome::Errored),
        Answered::Pushed(_version) => Next::Ended(Outcome::Errored),
        Answered::Failed => Next::Ended(Outcome::Errored),
        Answered::Errored => Next::Ended(Outcome::Errored),
    }
}

fn answer_task(
    alloc: Global,
    task: &Task,
    gains: &mut Gains,
    answer: Answered,
) -> Result<Next, AllocError>
    ensures ok { let t = task_data task.now in IfOk result (λ n. (c : Chosen)
        → NextIs c (source_next t.source t.params (answer_data answer) (gains_data gains.old))
        (task_tree t) (gains_data gains.new) n) }
    ensures grew { Grew (gains_data gains.old) (gains_data gains.new) }
{
    match &task.source {
        TaskSource::Config(config) => {
            Ok(Next::Ended(answer_run(alloc, &config.outputs, gains, &answer)?))
        }
        TaskSource::File(_) => Ok(answer_read(task, gains, answer)),
    }
}

/// Goes on with an answer in a step at the end of a path. What the build has gained grows at its ends, also where it is
/// out of memory.
pub(crate) fn answer_leaf(
    alloc: Global,
    step: &Step,
    leaf: &Leaf,
    inputs: &Inputs,
    gains: &mut Gains,
    answer: Answered,
) -> Result<Next, AllocError>
    requires { HasVersion (inputs_data inputs.now) (tree_of step.now) }
    ensures ok { let c = inputs_data inputs.now in IfOk result (λ n.
        NextIs c (leaf_next c (tree_of step.now) (leaf_data leaf.now) (answer_data answer) (gains_data gains.old))
        (tree_of step.now) (gains_data gains.new) n) }
    ensures grew { Grew (gains_data gains.old) (gains_data gains.new) }
{
    match (step, leaf) {
        (Step::Get(get), Leaf::First) => {
            let version = inputs.version_of(get.name.as_str());
            Ok(Next::Ended(answer_get(alloc, get, version, gains, &answer)?))
        }
        (Step::Put(put), Leaf::First) => answer_push(alloc, put, gains, answer),
        (Step::Put(put), Leaf::Fetching(_)) => {
            Ok(Next::Ended(answer_fetch(alloc, put.name.as_str(), gains, &answer)?))
        }
        (Step::Task(task), Leaf::First) => answer_task(alloc, task, gains, answer),
        (Step::Task(_), Leaf::Running(config)) => {
            Ok(Next::Ended(answer_run(alloc, &config.outputs, gains, &answer)?))
        }
        _ => Ok(Next::Ended(Outcome::Errored)),
    }
}
