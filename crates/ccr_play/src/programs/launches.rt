//! Launches of checks and asks, and what ends and task files answer.

use super::{object, part, some_version, source_text, version};
use anyhow::{Result, anyhow};
use ccr_history::{Object, Version};
use ccr_pipeline::{Pipeline, Resource, TaskConfig, Variable, read, read_task};
use ccr_process::{Ended, Launch};
use ccr_rows::{end_of, fault_of, places};
use ccr_steps::{Answered, Ask};
use ccr_task::{
    Places, Said, StepLabel, answered_of, can_launch, check_launch, config_of, launch_of,
    started_ask, started_check,
};
use std::alloc::{AllocError, Global};

/// Where programs are started, and the timeout of the step that starts them.
#[derive(Clone, Copy, Drop)]
struct Site<'a> {
    places: &'a Places,
    timeout: Option<&'a str>,
}

/// A pipeline of the resource `a` without a source, and of `b` with such a source.
fn pipeline(alloc: Global, part: &str) -> Result<Pipeline> {
    let source = source_text(alloc, if part == "-" { "{}" } else { part })?;
    let source = source.as_str();
    let text = format!(in alloc;
        "{{\"resources\":[{{\"name\":\"a\",\"type\":\"git\"}},{{\"name\":\"b\",\"type\":\"s3\",\"source\":{source}}}]}}"
    )?;
    Ok(read(alloc, text.as_bytes())?)
}

/// The ask of a get of this resource, as an artifact of another name.
fn fetch<'r>(resource: &'r str, version: &'r Version, params: Option<&'r Object>) -> Ask<'r> {
    Ask::Fetch {
        artifact: "code",
        resource,
        version,
        params,
    }
}

/// The ask of a put of this resource, as an artifact of another name.
fn push<'r>(resource: &'r str, params: Option<&'r Object>) -> Ask<'r> {
    Ask::Push {
        artifact: "code",
        resource,
        params,
    }
}

fn run<'r>(config: &'r TaskConfig, env: &'r [Variable]) -> Ask<'r> {
    Ask::RunTask { config, env }
}

/// Adds all that a launch holds, in one line.
fn push_launch(line: &mut String, launch: &Launch) -> Result<()> {
    for (name, value) in &launch.env {
        let (name, value) = (name.as_str(), value.as_str());
        write!(line, "{name}={value} ")?;
    }
    line.push_str(launch.program.as_str())?;
    for arg in &launch.args {
        let arg = arg.as_str();
        write!(line, " [{arg}]")?;
    }
    let folder = launch.folder.as_str();
    let kept = if launch.keep { "kept" } else { "dropped" };
    let input = str::from_utf8(launch.input.as_slice())?;
    write!(line, " in {folder}, {kept}, given {input}")?;
    Ok(())
}

/// All that a launch holds, in one line.
fn told(alloc: Global, launch: &Launch) -> Result<String> {
    let mut line = String::new(alloc);
    push_launch(&mut line, launch)?;
    Ok(line)
}

/// What build 3 of job j starts for an ask, at the step `a step`.
fn launched_by(
    alloc: Global,
    site: &Site<'_>,
    pipeline: &Pipeline,
    ask: &Ask<'_>,
) -> Result<String> {
    if !can_launch(pipeline, ask) {
        return Ok(String::from_str(alloc, "nothing")?);
    }
    let label = StepLabel {
        name: "a step",
        timeout: site.timeout,
    };
    match launch_of(alloc, site.places, pipeline, "j", 3, ask) {
        Ok(launch) => {
            let begun = started_ask(alloc, site.places, "j", 3, label, ask, launch)?;
            told(alloc, &begun)
        }
        Err(fault) => Ok(fault.to_string(alloc)?),
    }
}

/// What a check of a resource starts.
fn check_begun(
    alloc: Global,
    site: &Site<'_>,
    resource: &Resource,
    version: Option<&Version>,
) -> Result<String> {
    match check_launch(alloc, site.places, resource, version) {
        Ok(launch) => {
            let begun = started_check(alloc, site.places, resource, launch)?;
            told(alloc, &begun)
        }
        Err(fault) => Ok(fault.to_string(alloc)?),
    }
}

/// What a check of the resource of this name starts.
fn checked(
    alloc: Global,
    site: &Site<'_>,
    pipeline: &Pipeline,
    name: &str,
    parts: &str,
) -> Result<String> {
    let version = version(alloc, part(parts, 1))?;
    match pipeline.resource(name) {
        Some(resource) => check_begun(alloc, site, resource, version.as_ref()),
        None => Err(anyhow!("no resource")),
    }
}

/// The variable of a word `NAME=VALUE`.
fn variable(alloc: Global, word: &str) -> Result<Variable, AllocError> {
    let (name, value) = word.split_once("=").unwrap_or((word, ""));
    Ok(Variable {
        name: String::from_str(alloc, name)?,
        value: String::from_str(alloc, value)?,
    })
}

/// Adds the variables of words.
fn push_variables(
    alloc: Global,
    variables: &mut Vec<Variable>,
    words: &str,
) -> Result<(), AllocError> {
    for word in words.split_whitespace() {
        variables.push(variable(alloc, word)?)?;
    }
    Ok(())
}

/// The variables of words.
fn variables(alloc: Global, words: &str) -> Result<Vec<Variable>, AllocError> {
    let mut variables = Vec::new(alloc);
    push_variables(alloc, &mut variables, words)?;
    Ok(variables)
}

/// What a task of a config with these variables starts.
fn config_launched(
    alloc: Global,
    site: &Site<'_>,
    words: &str,
    config: &TaskConfig,
) -> Result<String> {
    let env = variables(alloc, words)?;
    let pipeline = pipeline(alloc, "-")?;
    launched_by(alloc, site, &pipeline, &run(config, &env))
}

/// What a task with these variables starts.
fn task_launched(alloc: Global, site: &Site<'_>, words: &str, text: &str) -> Result<String> {
    let config = read_task(alloc, text.as_bytes())?;
    config_launched(alloc, site, words, &config)
}

/// What a fetch starts.
fn fetch_launched(
    alloc: Global,
    site: &Site<'_>,
    pipeline: &Pipeline,
    name: &str,
    parts: &str,
) -> Result<String> {
    let version = some_version(alloc, part(parts, 1))?;
    let params = object(alloc, part(parts, 2))?;
    launched_by(
        alloc,
        site,
        pipeline,
        &fetch(name, &version, params.as_ref()),
    )
}

/// What a push starts.
fn push_launched(
    alloc: Global,
    site: &Site<'_>,
    pipeline: &Pipeline,
    name: &str,
    parts: &str,
) -> Result<String> {
    let params = object(alloc, part(parts, 2))?;
    launched_by(alloc, site, pipeline, &push(name, params.as_ref()))
}

fn launched_in(
    alloc: Global,
    site: &Site<'_>,
    what: &str,
    name: &str,
    parts: &str,
) -> Result<String> {
    let pipeline = pipeline(alloc, part(parts, 0))?;
    match what {
        "check" => checked(alloc, site, &pipeline, name, parts),
        "fetch" => fetch_launched(alloc, site, &pipeline, name, parts),
        "push" => push_launched(alloc, site, &pipeline, name, parts),
        _ => launched_by(alloc, site, &pipeline, &Ask::ReadConfig { file: name }),
    }
}

/// What is started here: `check NAME | SOURCE | VERSION`, `fetch` and `push` of the same form with `| PARAMS`,
/// `task VARIABLES | CONFIG`, `file PATH`. The artifact of a fetch or a push is `code`.
fn launched_at(alloc: Global, site: &Site<'_>, given: &str) -> Result<String> {
    let (what, rest) = given.split_once(" ").unwrap_or((given, "-"));
    let (name, parts) = rest.split_once(" | ").unwrap_or((rest, "-"));
    match what {
        "task" => task_launched(alloc, site, name, parts),
        _ => launched_in(alloc, site, what, name, parts),
    }
}

/// What is started in these places, at a step without a timeout.
pub(super) fn launched(alloc: Global, places: &Places, given: &str) -> Result<String> {
    let timeout = None;
    launched_at(alloc, &Site { places, timeout }, given)
}

/// The same at a step with the timeout that comes first.
pub(super) fn timed(alloc: Global, places: &Places, given: &str) -> Result<String> {
    let (timeout, given) = given.split_once(" ").unwrap_or((given, "-"));
    let timeout = Some(timeout);
    launched_at(alloc, &Site { places, timeout }, given)
}

/// Where something lies in a build's folder: `JOB NUMBER NAME`.
pub(super) fn in_build(alloc: Global, given: &str) -> Result<String> {
    let mut words = given.split_whitespace();
    let (job, number) = (words.next().unwrap_or(""), words.next().unwrap_or(""));
    let name = words.next().unwrap_or("");
    Ok(places(alloc)?.in_build(alloc, job, number.parse::<u32>()?, name)?)
}

/// An answer in a word; a version by its key, a config by its program.
fn answered_word(alloc: Global, answered: &Answered) -> Result<String, AllocError> {
    match answered {
        Answered::Done => String::from_str(alloc, "done"),
        Answered::Pushed(version) => version.key(alloc),
        Answered::Config(config) => config.run.path.clone(),
        Answered::Failed => String::from_str(alloc, "failed"),
        Answered::Errored => String::from_str(alloc, "errored"),
        Answered::Aborted => String::from_str(alloc, "aborted"),
    }
}

/// What is answered in a word, or that there is no memory.
fn word(alloc: Global, said: Result<Said, AllocError>) -> Result<String, AllocError> {
    match &said {
        Ok(said) => answered_word(alloc, &said.answered),
        Err(_) => String::from_str(alloc, "no memory"),
    }
}

/// Adds what an end of an ask answers, in a word.
fn push_ended(alloc: Global, words: &mut String, ask: &Ask<'_>, end: &Ended) -> Result<()> {
    let said = answered_of(alloc, ask, String::new(alloc), end.copy()?);
    let word = word(alloc, said)?;
    words.push_str(word.as_str())?;
    Ok(())
}

fn push_fetched(alloc: Global, words: &mut String, end: &Ended) -> Result<()> {
    let version = some_version(alloc, "{\"n\":\"2\"}")?;
    push_ended(alloc, words, &fetch("a", &version, None), end)
}

fn push_done(alloc: Global, words: &mut String, end: &Ended) -> Result<()> {
    let config = read_task(alloc, b"{\"run\":{\"path\":\"x\"}}")?;
    push_ended(alloc, words, &run(&config, &[]), end)
}

/// Adds what an end of a fetch, of a push and of a task answers.
fn push_ends(alloc: Global, words: &mut String, end: &Ended) -> Result<()> {
    push_fetched(alloc, words, end)?;
    words.push_str(" ")?;
    push_ended(alloc, words, &push("a", None), end)?;
    words.push_str(" ")?;
    push_done(alloc, words, end)
}

fn words_of(alloc: Global, end: &Ended) -> Result<String> {
    let mut words = String::new(alloc);
    push_ends(alloc, &mut words, end)?;
    Ok(words)
}

/// What an end of a fetch, of a push and of a task answers.
pub(super) fn ended(alloc: Global, given: &str) -> Result<String> {
    let end = end_of(alloc, given)?;
    words_of(alloc, &end)
}

/// What the bytes of a task's file answer.
pub(super) fn task_file(alloc: Global, given: &str) -> Result<String> {
    let bytes = Vec::from_slice(alloc, given.as_bytes())?;
    Ok(word(alloc, config_of(alloc, Ok(bytes)))?)
}

/// What a task's file answers that a shelf doesn't give.
pub(super) fn task_file_fault(alloc: Global, given: &str) -> Result<String> {
    Ok(word(alloc, config_of(alloc, Err(fault_of(given))))?)
}
