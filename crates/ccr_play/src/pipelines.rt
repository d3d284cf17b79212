//! Pipelines and task files: a text, and what is read of it or told.
//!
//! `pipeline JSON` reads a pipeline, and `task JSON` a task file. `example JSON` does so too, and gives a text that
//! lines behind it speak of: in place of a text they may have the word `example`, and `pipeline-variant OLD -> NEW`
//! reads the example with a piece of it replaced, where it stands first. `pipeline-parts`, `pipeline-unused` and
//! `pipeline-inputs` tell more of a pipeline, `task-variables` of a task file. `pipeline-bytes` has the bytes of a text
//! in hexadecimal, and `pipeline-of COUNT WHAT` makes one with so many of something.

use ccr_pipeline::{Input, Pipeline, ReadFault, TaskConfig, Wanted, inputs_of, read, read_task};
use ccr_rows::{Player, split};
use std::alloc::{AllocError, Global};

/// Plays lines of pipelines and task files, with the example that was given last.
#[derive(Drop)]
pub(crate) struct Pipelines {
    example: String,
}

impl Pipelines {
    /// The empty example.
    pub(crate) fn new(alloc: Global) -> Pipelines {
        Pipelines {
            example: String::new(alloc),
        }
    }
}

/// The answer to a line, with this example.
fn answered(alloc: Global, example: &str, kind: &str, given: &str) -> Result<String, AllocError> {
    let text = if given == "example" { example } else { given };
    match kind {
        "example" | "pipeline" => told(alloc, read(alloc, text.as_bytes())),
        "pipeline-parts" | "pipeline-unused" | "pipeline-inputs" => parts(alloc, kind, text),
        "pipeline-variant" => variant(alloc, example, given),
        "pipeline-bytes" => told(alloc, read(alloc, &bytes_of(alloc, given)?)),
        "pipeline-of" => generated(alloc, given),
        "task" => told(alloc, read_task(alloc, text.as_bytes())),
        "task-variables" => variables(alloc, text),
        _ => String::from_str(alloc, "no such line"),
    }
}

impl Player for Pipelines {
    fn answer_to(&mut self, alloc: Global, line: &str) -> Result<String, AllocError> {
        let (kind, given) = split(line);
        if kind == "example" {
            self.example = String::from_str(alloc, given)?;
        }
        answered(alloc, self.example.as_str(), kind, given)
    }
}

/// `read`, or what refused the text, in words.
fn told<T: Drop>(alloc: Global, read: Result<T, ReadFault>) -> Result<String, AllocError> {
    match read {
        Ok(_) => String::from_str(alloc, "read"),
        Err(fault) => fault.to_string(alloc),
    }
}

/// Adds how many resources and jobs a pipeline has, and whether it has the text that it was read from.
fn push_parts(out: &mut String, pipeline: &Pipeline, text: &str) -> Result<(), AllocError> {
    let resources = pipeline.resources().len();
    let jobs = pipeline.jobs().len();
    let kept = if pipeline.text() == text.as_bytes() {
        "its text"
    } else {
        "another text"
    };
    write!(out, "{resources} resources, {jobs} jobs, {kept}")
}

/// Adds texts with a blank between.
fn push_joined(out: &mut String, texts: &[String]) -> Result<(), AllocError> {
    for (i, text) in texts.iter().enumerate() {
        out.push_str(if i > 0 { " " } else { "" })?;
        out.push_str(text.as_str())?;
    }
    Ok(())
}

/// Adds an input in words: its name and resource, the jobs that it names, whether it makes builds, and what it wants.
fn push_input(out: &mut String, input: &Input) -> Result<(), AllocError> {
    let (name, resource) = (input.name.as_str(), input.resource.as_str());
    write!(out, "{name} of {resource} [")?;
    push_joined(out, &input.passed)?;
    out.push_str(if input.trigger { "] trigger " } else { "] " })?;
    out.push_str(match &input.wanted {
        Wanted::Latest => "latest",
        Wanted::Every => "every",
        Wanted::Pinned(_) => "pinned",
    })
}

fn push_inputs(out: &mut String, inputs: &[Input]) -> Result<(), AllocError> {
    for (i, input) in inputs.iter().enumerate() {
        out.push_str(if i > 0 { ", " } else { "" })?;
        push_input(out, input)?;
    }
    Ok(())
}

/// Adds the inputs of the only job.
fn push_only(alloc: Global, out: &mut String, pipeline: &Pipeline) -> Result<(), AllocError> {
    match pipeline.jobs() {
        [job] => {
            let inputs = inputs_of(alloc, job)?;
            push_inputs(out, &inputs)
        }
        _ => out.push_str("not one job"),
    }
}

/// What a line of this kind asks of a pipeline: its parts, the paths of the keys without effect, or the inputs of the only job.
fn part_told(
    alloc: Global,
    kind: &str,
    pipeline: &Pipeline,
    text: &str,
) -> Result<String, AllocError> {
    let mut out = String::new(alloc);
    match kind {
        "pipeline-parts" => push_parts(&mut out, pipeline, text)?,
        "pipeline-unused" => push_joined(&mut out, pipeline.unused())?,
        _ => push_only(alloc, &mut out, pipeline)?,
    }
    Ok(out)
}

/// What a line of this kind asks of the pipeline that a text is.
fn parts(alloc: Global, kind: &str, text: &str) -> Result<String, AllocError> {
    match read(alloc, text.as_bytes()) {
        Ok(pipeline) => part_told(alloc, kind, &pipeline, text),
        Err(fault) => fault.to_string(alloc),
    }
}

/// Reads the example with a piece of it replaced, where it stands first: `OLD -> NEW`.
fn variant(alloc: Global, example: &str, given: &str) -> Result<String, AllocError> {
    let (old, new) = given.split_once(" -> ").unwrap_or((given, ""));
    let Some((before, after)) = example.split_once(old) else {
        return String::from_str(alloc, "not in the example");
    };
    let text = format!(in alloc; "{before}{new}{after}")?;
    told(alloc, read(alloc, text.as_bytes()))
}

/// The bytes of hexadecimal numbers with blanks between; a word that is none counts as 0.
fn bytes_of(alloc: Global, given: &str) -> Result<Vec<u8>, AllocError> {
    let mut bytes = Vec::new(alloc);
    for word in given.split(" ") {
        bytes.push(u8::from_str_radix(word, 16).unwrap_or(0))?;
    }
    Ok(bytes)
}

/// Adds so many pieces of text with a comma between: what stands before a number, the number from 0 on, and what stands after it.
fn push_listed(out: &mut String, before: &str, after: &str, count: u32) -> Result<(), AllocError> {
    for i in 0..count {
        let comma = if i > 0 { "," } else { "" };
        write!(out, "{comma}{before}{i}{after}")?;
    }
    Ok(())
}

/// Adds a piece of text so many times.
fn push_repeated(out: &mut String, piece: &str, count: u32) -> Result<(), AllocError> {
    for _ in 0..count {
        out.push_str(piece)?;
    }
    Ok(())
}

/// Adds a text with so many pieces in one another.
fn push_nested(
    out: &mut String,
    front: &str,
    open: &str,
    inner: &str,
    close: &str,
    count: u32,
) -> Result<(), AllocError> {
    out.push_str(front)?;
    push_repeated(out, open, count)?;
    out.push_str(inner)?;
    push_repeated(out, close, count)
}

/// Adds what ends a job whose two gets name the same so many of the 33 jobs before it.
fn push_named(out: &mut String, count: u32) -> Result<(), AllocError> {
    out.push_str("{\"resources\":[{\"name\":\"a\",\"type\":\"t\"}],\"jobs\":[")?;
    push_listed(out, "{\"plan\":[],\"name\":\"j", "\"}", 33)?;
    out.push_str(",{\"name\":\"last\",\"plan\":[{\"get\":\"a\",\"passed\":[")?;
    push_listed(out, "\"j", "\"", count)?;
    out.push_str("]},{\"get\":\"b\",\"resource\":\"a\",\"passed\":[")?;
    push_listed(out, "\"j", "\"", count)
}

/// Adds a text with so many of something but its end, and gives the end.
fn push_text(out: &mut String, count: u32, what: &str) -> Result<&'static str, AllocError> {
    match what {
        "bytes" => {
            push_repeated(out, " ", count)?;
            Ok("")
        }
        "lists in one another" => {
            push_nested(out, "{\"x\":", "[", "", "]", count)?;
            Ok("}")
        }
        "levels of steps" => {
            let above = count.saturating_sub(1);
            let front = "{\"jobs\":[{\"name\":\"j\",\"plan\":[";
            push_nested(out, front, "{\"try\":", "{\"do\":[]}", "}", above)?;
            Ok("]}]}")
        }
        "resources" => {
            out.push_str("{\"resources\":[")?;
            push_listed(out, "{\"type\":\"t\",\"name\":\"r", "\"}", count)?;
            Ok("]}")
        }
        "bytes in a name" => {
            out.push_str("{\"resources\":[{\"name\":\"")?;
            push_repeated(out, "n", count)?;
            Ok("\",\"type\":\"t\"}]}")
        }
        "jobs" => {
            out.push_str("{\"jobs\":[")?;
            push_listed(out, "{\"plan\":[],\"name\":\"j", "\"}", count)?;
            Ok("]}")
        }
        "inputs" => {
            out.push_str(
                "{\"resources\":[{\"name\":\"a\",\"type\":\"t\"}],\"jobs\":[{\"name\":\"j\",\"plan\":[",
            )?;
            push_listed(out, "{\"resource\":\"a\",\"get\":\"g", "\"}", count)?;
            Ok("]}]}")
        }
        "named jobs" => {
            push_named(out, count)?;
            Ok("]}]}]}")
        }
        _ => Ok("nothing known"),
    }
}

/// A text with so many of something.
fn text_of(alloc: Global, count: u32, what: &str) -> Result<String, AllocError> {
    let mut text = String::new(alloc);
    let end = push_text(&mut text, count, what)?;
    text.push_str(end)?;
    Ok(text)
}

/// Reads a text with so many of something: `COUNT WHAT`.
fn generated(alloc: Global, given: &str) -> Result<String, AllocError> {
    let (count, what) = given.split_once(" ").unwrap_or((given, ""));
    let text = text_of(alloc, count.parse::<u32>().unwrap_or(0), what)?;
    told(alloc, read(alloc, text.as_bytes()))
}

/// Adds the variables of a task file.
fn push_variables(out: &mut String, config: &TaskConfig) -> Result<(), AllocError> {
    for (i, variable) in config.params.iter().enumerate() {
        let comma = if i > 0 { ", " } else { "" };
        let (name, value) = (variable.name.as_str(), variable.value.as_str());
        write!(out, "{comma}{name}={value}")?;
    }
    Ok(())
}

fn variables_told(alloc: Global, config: &TaskConfig) -> Result<String, AllocError> {
    let mut words = String::new(alloc);
    push_variables(&mut words, config)?;
    Ok(words)
}

/// The variables of a task file.
fn variables(alloc: Global, text: &str) -> Result<String, AllocError> {
    match read_task(alloc, text.as_bytes()) {
        Ok(config) => variables_told(alloc, &config),
        Err(fault) => fault.to_string(alloc),
    }
}
