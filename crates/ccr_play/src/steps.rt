//! Builds in one line: what a build asks, step by step, how it ends and which versions it moved.
//!
//! `steps JOB | VERSIONS | ANSWERS`: the job's members but its name, a JSON list of its inputs' versions, and the
//! answers with a blank between: `done`, `failed`, `errored`, `aborted`, `pushed:VERSION`, `config:CONFIG`, or `undo`,
//! which takes the last answer back. In the job `<x>` stands for the members of a task that runs x; the pipeline has the
//! resources a, b and p.
//! `steps-repeated JOB | VERSIONS | ANSWER` gives each ask that answer, up to the build's end, and tells how often each
//! was asked.

use anyhow::{Result, anyhow, bail};
use ccr_history::{Object, Version};
use ccr_pipeline::{Job, Pipeline, Variable, inputs_of, read};
use ccr_rows::{Player, answered_of, split, versions_of};
use ccr_steps::{Answered, Ask, Before, BuildRun, FeedFault, start};
use std::alloc::{AllocError, Global};

const RESOURCES: &str =
    r#""resources":[{"name":"a","type":"t"},{"name":"b","type":"t"},{"name":"p","type":"t"}]"#;

/// Plays lines of builds.
#[derive(Clone, Copy)]
pub(crate) struct Steps;

impl Player for Steps {
    fn answer_to(&mut self, alloc: Global, line: &str) -> Result<String, AllocError> {
        let (kind, given) = split(line);
        let answer = match kind {
            "steps" => played(alloc, given),
            "steps-repeated" => repeated(alloc, given),
            _ => Err(anyhow!("no such line")),
        };
        answer.or_else(|error| format!(in alloc; "no answer: {error}"))
    }
}

/// The text of the pipeline of one job, of which these are the members but its name.
fn text_of(alloc: Global, members: &str) -> Result<String, AllocError> {
    let text = format!(in alloc; "{{{RESOURCES},\"jobs\":[{{\"name\":\"j\",{members}}}]}}")?;
    let opened = text
        .as_str()
        .replace(alloc, "<", r#""task":"t","config":{"run":{"path":""#)?;
    opened.as_str().replace(alloc, ">", r#""}}"#)
}

/// The pipeline of one job, of which these are the members but its name.
pub(crate) fn pipeline_of(alloc: Global, members: &str) -> Result<Pipeline> {
    let text = text_of(alloc, members)?;
    Ok(read(alloc, text.as_bytes())?)
}

/// A build of a job.
fn started(alloc: Global, job: &Job, versions: &[Version]) -> Result<BuildRun> {
    if versions.len() != inputs_of(alloc, job)?.len() {
        bail!("not one version for each input");
    }
    Ok(start(alloc, job, versions)?)
}

/// A build of a job, with versions as JSON.
pub(crate) fn started_of(alloc: Global, job: &Job, versions: &str) -> Result<BuildRun> {
    let versions = versions_of(alloc, versions)?;
    started(alloc, job, &versions)
}

/// A build of the first job of a pipeline, with versions as JSON.
pub(crate) fn started_in(alloc: Global, pipeline: &Pipeline, versions: &str) -> Result<BuildRun> {
    match pipeline.jobs() {
        [job, ..] => started_of(alloc, job, versions),
        [] => Err(anyhow!("no job")),
    }
}

/// A build of the case's job.
fn build_of(alloc: Global, job: &str, versions: &str) -> Result<BuildRun> {
    let pipeline = pipeline_of(alloc, job)?;
    started_in(alloc, &pipeline, versions)
}

fn push_params(alloc: Global, text: &mut String, params: Option<&Object>) -> Result<()> {
    if let Some(params) = params {
        let params = params.text(alloc)?;
        text.push_str(" with ")?;
        text.push_str(params.as_str())?;
    }
    Ok(())
}

/// Adds an artifact's name, and the resource that it is of where that has another.
fn push_name(text: &mut String, artifact: &str, resource: &str) -> Result<()> {
    text.push_str(artifact)?;
    if artifact != resource {
        text.push_str(" of ")?;
        text.push_str(resource)?;
    }
    Ok(())
}

fn push_key(alloc: Global, text: &mut String, version: &Version) -> Result<()> {
    let key = version.key(alloc)?;
    text.push_str(" ")?;
    text.push_str(key.as_str())?;
    Ok(())
}

fn push_task(text: &mut String, path: &str, env: &[Variable]) -> Result<()> {
    write!(text, "task {path}")?;
    for variable in env {
        let name = variable.name.as_str();
        let value = variable.value.as_str();
        write!(text, " {name}={value}")?;
    }
    Ok(())
}

fn push_ask(alloc: Global, text: &mut String, ask: &Ask<'_>) -> Result<()> {
    match ask {
        Ask::Fetch {
            artifact,
            resource,
            version,
            params,
        } => {
            text.push_str("fetch ")?;
            push_name(text, artifact, resource)?;
            push_key(alloc, text, version)?;
            push_params(alloc, text, *params)?;
        }
        Ask::Push {
            artifact,
            resource,
            params,
        } => {
            text.push_str("push ")?;
            push_name(text, artifact, resource)?;
            push_params(alloc, text, *params)?;
        }
        Ask::ReadConfig { file } => write!(text, "config {file}")?,
        Ask::RunTask { config, env } => push_task(text, config.run.path.as_str(), env)?,
    }
    text.push_str("; ")?;
    Ok(())
}

/// Adds what a build moved, each behind this text.
pub(crate) fn push_moved(
    alloc: Global,
    text: &mut String,
    before: &str,
    run: &BuildRun,
) -> Result<(), AllocError> {
    for moved in run.moved() {
        let resource = moved.resource.as_str();
        let key = moved.version.key(alloc)?;
        let key = key.as_str();
        write!(text, "{before} {resource} {key}")?;
    }
    Ok(())
}

/// What the build asks now, or how it ended and what it moved.
fn push_state(alloc: Global, text: &mut String, run: &BuildRun) -> Result<()> {
    if let Some(ask) = run.wants() {
        return push_ask(alloc, text, &ask);
    }
    let Some(outcome) = run.outcome() else {
        bail!("a build that neither asks nor has ended");
    };
    write!(text, "{outcome:?}")?;
    push_moved(alloc, text, ", moved", run)?;
    text.push_str("; ")?;
    Ok(())
}

fn push_turn(text: &mut String, run: &BuildRun) -> Result<()> {
    let turn = run.turn();
    write!(text, "turn {turn}")?;
    Ok(())
}

/// The answer of a word.
fn answer_of(alloc: Global, word: &str) -> Result<Answered> {
    let (kind, given) = word.split_once(":").unwrap_or((word, ""));
    Ok(answered_of(alloc, kind, given)?)
}

/// Feeds an answer, or takes the last one back. A refusal is told.
fn push_fed(
    alloc: Global,
    text: &mut String,
    run: &mut BuildRun,
    last: &mut Option<Before>,
    word: &str,
) -> Result<()> {
    if word == "undo" {
        let before = last.take().ok_or(anyhow!("nothing to take back"))?;
        run.undo(before);
        return Ok(());
    }
    match run.feed_back(answer_of(alloc, word)?) {
        Ok(before) => *last = Some(before),
        Err(FeedFault::NothingAsked) => text.push_str("nothing asked; ")?,
        Err(fault) => return Err(fault.into()),
    }
    Ok(())
}

/// The parts of a case: a job's members, versions and answers.
fn parts_of(given: &str) -> Result<(&str, &str, &str)> {
    let (job, rest) = given.split_once(" | ").ok_or(anyhow!("no versions"))?;
    let (versions, answers) = rest.split_once(" | ").unwrap_or((rest, ""));
    Ok((job, versions, answers))
}

/// Feeds a build an answer for each word, and adds what is seen of it.
fn push_played(alloc: Global, seen: &mut String, run: &mut BuildRun, answers: &str) -> Result<()> {
    let mut last = None;
    push_state(alloc, seen, run)?;
    for word in answers.split_whitespace() {
        push_fed(alloc, seen, run, &mut last, word)?;
        push_state(alloc, seen, run)?;
    }
    push_turn(seen, run)
}

fn seen_of(alloc: Global, run: &mut BuildRun, answers: &str) -> Result<String> {
    let mut seen = String::new(alloc);
    push_played(alloc, &mut seen, run, answers)?;
    Ok(seen)
}

/// What is seen of a build: each ask, its outcome with the versions that it moved, and the number of answers that it took.
/// The proof is dear where a function that can drop a build also loops or returns early behind that, so this one doesn't.
fn played(alloc: Global, given: &str) -> Result<String> {
    let (job, versions, answers) = parts_of(given)?;
    let mut run = build_of(alloc, job, versions)?;
    seen_of(alloc, &mut run, answers)
}

/// An ask that came so often in a row.
fn push_times(text: &mut String, times: u64, ask: &str) -> Result<()> {
    if times > 0 {
        write!(text, "{times} times {ask}")?;
    }
    Ok(())
}

/// What the build asks now, if it asks.
fn asked(alloc: Global, run: &BuildRun) -> Result<Option<String>> {
    match run.wants() {
        Some(ask) => {
            let mut text = String::new(alloc);
            push_ask(alloc, &mut text, &ask)?;
            Ok(Some(text))
        }
        None => Ok(None),
    }
}

/// Counts an ask. Where another one came before it, adds how often that came.
fn count_ask(text: &mut String, last: &mut String, times: &mut u64, ask: String) -> Result<()> {
    if ask.as_str() != last.as_str() {
        push_times(text, *times, last.as_str())?;
        *last = ask;
        *times = 0;
    }
    *times = times.saturating_add(1);
    Ok(())
}

/// Gives each ask of a build the same answer, and adds how often each was asked in a row but for the last.
fn push_repeated(
    alloc: Global,
    seen: &mut String,
    run: &mut BuildRun,
    last: &mut String,
    word: &str,
) -> Result<u64> {
    let mut times = 0u64;
    for _ in 0..100_000u32 {
        match asked(alloc, run)? {
            Some(ask) => count_ask(seen, last, &mut times, ask)?,
            None => break,
        }
        run.feed(answer_of(alloc, word)?)?;
    }
    Ok(times)
}

/// Adds how often each ask came in a row, and how the build ended.
fn push_repeats(alloc: Global, seen: &mut String, run: &mut BuildRun, word: &str) -> Result<()> {
    let mut last = String::new(alloc);
    let times = push_repeated(alloc, seen, run, &mut last, word)?;
    push_times(seen, times, last.as_str())?;
    push_state(alloc, seen, run)?;
    push_turn(seen, run)
}

fn repeats_of(alloc: Global, run: &mut BuildRun, word: &str) -> Result<String> {
    let mut seen = String::new(alloc);
    push_repeats(alloc, &mut seen, run, word)?;
    Ok(seen)
}

/// What is seen of a build whose asks all have one answer: how often each was asked in a row, and then as of any build.
fn repeated(alloc: Global, given: &str) -> Result<String> {
    let (job, versions, word) = parts_of(given)?;
    let mut run = build_of(alloc, job, versions)?;
    repeats_of(alloc, &mut run, word)
}
