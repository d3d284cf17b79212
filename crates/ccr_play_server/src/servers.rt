//! Servers whose programs and folders are a script.
//!
//! What a server prints stands as it is printed; between its lines, two blanks in, stands each launch as it happens,
//! and at last how the line ended, unless with status 0. What it tells on standard error stands behind `! `, if a line
//! `notes` has asked for that.
//!
//! The script of the next server: `ends WORD ..` (`STATUS`, `STATUS:OUTPUT`, `numbers:COUNT` for a check that found so
//! many versions, `killed`, `too-long`, `not-started`: how programs end, in turn), `folders N` and `no-folders N` (N
//! calls for folders are done, or fail), `file TEXT` (a file that is read), `commits N [FAULT]` (the storage fails
//! after N commits: `refused`, `no-memory`, `interrupted`, `not-ours`, or as a disk where no fault is named),
//! `runs JOB [N]` (the history that it begins with has a build of this job that runs, or N of them), `notes` (what it
//! tells on standard error is shown), `launcher` (`/l` starts all programs). `open` makes a server over it, with a
//! history that is empty otherwise, types in `/t` and builds in `/w`. Then `round`, `turn`, and the commands of
//! `ccr_run`, of which `set-pipeline` and tasks read the script's files. `--json` stands before a command's other
//! words.

mod aside;
mod script;
mod serving;
mod tape;
mod told;
mod unkept;

use anyhow::Result;
use aside::Aside;
use ccr_core::{Command, Form, Shown};
use ccr_lines::{Lines, Printed};
use ccr_rows::{Player, split};
use ccr_serve::ServeFault;
use script::Script;
use serving::Serving;
use std::alloc::{AllocError, Global};
use std::mem;
use tape::Tape;

/// A script, the server that was opened last, and what is printed.
#[derive(Drop)]
pub(crate) struct Servers {
    script: Script,
    serving: Option<Serving<Tape>>,
    tape: Tape,
    has_notes: bool,
}

/// The number that words are; 1 where they are none.
fn number_of(words: &str) -> u32 {
    words.parse::<u32>().unwrap_or(1)
}

/// The text of words.
fn text_of(alloc: Global, words: &str) -> Result<String, AllocError> {
    String::from_str(alloc, words)
}

/// The certificate of a job's next build; or of its build of a number, where one follows the name.
fn certificate_of(alloc: Global, words: &str) -> Result<Shown, AllocError> {
    match split(words) {
        (job, "") => Ok(Shown::Certificate(text_of(alloc, job)?)),
        (job, number) => Ok(Shown::BuildCertificate(text_of(alloc, job)?, number_of(number))),
    }
}

/// The form that words ask for, which begin with `--json` for JSON; and the words behind it.
fn form_of(words: &str) -> (Form, &str) {
    let (first, others) = split(words);
    if first == "--json" {
        (Form::Json, others)
    } else {
        (Form::Lines, words)
    }
}

/// The value behind a word that words begin with, if they do; and the words behind it.
fn option_of<'w>(option: &str, words: &'w str) -> (Option<&'w str>, &'w str) {
    let (first, others) = split(words);
    if first != option {
        return (None, words);
    }
    let (value, others) = split(others);
    (Some(value), others)
}

/// Builds, as they are shown where `--job` with a name and `--count` with a number may stand before.
fn builds_of(alloc: Global, form: Form, words: &str) -> Result<Shown, AllocError> {
    let (job, words) = option_of("--job", words);
    let (count, _) = option_of("--count", words);
    let count = count.map(|count| number_of(count));
    match job {
        Some(job) => Ok(Shown::Builds(Some(text_of(alloc, job)?), count, form)),
        None => Ok(Shown::Builds(None, count, form)),
    }
}

/// A version of a resource, whose builds are shown.
fn trace_of(alloc: Global, form: Form, words: &str) -> Result<Shown, AllocError> {
    let (name, json) = split(words);
    let name = text_of(alloc, name)?;
    Ok(Shown::Trace(name, text_of(alloc, json)?, form))
}

/// A build of a job.
fn build_of(alloc: Global, form: Form, words: &str) -> Result<Shown, AllocError> {
    let (job, number) = split(words);
    Ok(Shown::Build(text_of(alloc, job)?, number_of(number), form))
}

/// What a line shows that may ask for JSON, if it shows something.
fn formed_of(alloc: Global, kind: &str, words: &str) -> Result<Option<Shown>, AllocError> {
    let (form, words) = form_of(words);
    Ok(Some(match kind {
        "builds" => builds_of(alloc, form, words)?,
        "resource-versions" => Shown::Versions(text_of(alloc, words)?, form),
        "resources" => Shown::Resources(form),
        "jobs" => Shown::Jobs(form),
        "explain" => Shown::Explanation(text_of(alloc, words)?, form),
        "build" => build_of(alloc, form, words)?,
        "red" => Shown::Red(form),
        "live" => Shown::Live(text_of(alloc, words)?, form),
        "trace" => trace_of(alloc, form, words)?,
        _ => return Ok(None),
    }))
}

/// What a line shows, if it shows something.
fn shown_of(alloc: Global, kind: &str, words: &str) -> Result<Option<Shown>, AllocError> {
    match kind {
        "resolve" => Ok(Some(Shown::Proof(text_of(alloc, words)?))),
        "problem" => Ok(Some(Shown::Problem(text_of(alloc, words)?))),
        "certify" => Ok(Some(certificate_of(alloc, words)?)),
        "get-pipeline" => Ok(Some(Shown::Pipeline)),
        "graph" => Ok(Some(Shown::Graph)),
        _ => formed_of(alloc, kind, words),
    }
}

/// The command that pins a resource.
fn pin_of(alloc: Global, words: &str) -> Result<Command, AllocError> {
    let (resource, pin) = split(words);
    let resource = text_of(alloc, resource)?;
    Ok(Command::PinResource(resource, text_of(alloc, pin)?))
}

/// A resource and a place of it.
fn place_of(alloc: Global, words: &str) -> Result<(String, u32), AllocError> {
    let (resource, place) = split(words);
    Ok((text_of(alloc, resource)?, number_of(place)))
}

fn disable_of(alloc: Global, words: &str) -> Result<Command, AllocError> {
    let (resource, place) = place_of(alloc, words)?;
    Ok(Command::DisableResourceVersion(resource, place))
}

fn enable_of(alloc: Global, words: &str) -> Result<Command, AllocError> {
    let (resource, place) = place_of(alloc, words)?;
    Ok(Command::EnableResourceVersion(resource, place))
}

/// The command of a line, if it is one.
fn command_of(alloc: Global, kind: &str, words: &str) -> Result<Option<Command>, AllocError> {
    Ok(Some(match kind {
        "set-pipeline" => Command::SetPipeline(text_of(alloc, words)?),
        "check-resource" => Command::CheckResource(text_of(alloc, words)?),
        "pin-resource" => pin_of(alloc, words)?,
        "unpin-resource" => Command::UnpinResource(text_of(alloc, words)?),
        "disable-resource-version" => disable_of(alloc, words)?,
        "enable-resource-version" => enable_of(alloc, words)?,
        "trigger-job" => Command::TriggerJob(text_of(alloc, words)?),
        "run" => Command::Run(number_of(words)),
        _ => return Ok(shown_of(alloc, kind, words)?.map(Command::Show)),
    }))
}

/// The status of what a line has a server do; None where it is no line of one.
fn done(
    alloc: Global,
    serving: &mut Serving<Tape>,
    out: &mut Printed<Tape, Aside>,
    kind: &str,
    words: &str,
) -> Result<Option<u8>, ServeFault> {
    match kind {
        "round" => Ok(Some(serving.round(out)?)),
        "turn" => Ok(Some(serving.turn(out)?)),
        _ => match command_of(alloc, kind, words) {
            Ok(Some(command)) => serving.command(&command, out).map(|status| Some(status)),
            Ok(None) => Ok(None),
            Err(_) => Err(ServeFault::NoMemory),
        },
    }
}

/// The same, with what is printed handed out.
fn printed(
    alloc: Global,
    serving: &mut Serving<Tape>,
    out: Printed<Tape, Aside>,
    kind: &str,
    words: &str,
) -> Result<Option<u8>, ServeFault> {
    let mut out = out;
    let status = done(alloc, serving, &mut out, kind, words);
    out.hand_out();
    status
}

impl Servers {
    /// An empty script, and no server.
    pub(crate) fn new(alloc: Global) -> Result<Servers, AllocError> {
        Ok(Servers {
            script: Script::new(alloc),
            serving: None,
            tape: Tape::new(alloc)?,
            has_notes: false,
        })
    }

    /// Adds to the script what a line says; false where it says nothing of one.
    fn add(&mut self, alloc: Global, kind: &str, words: &str) -> Result<bool> {
        match kind {
            "ends" => self.script.add_ends(alloc, words)?,
            "sights" => self.script.add_sights(alloc, words)?,
            "file" => self.script.add_file(alloc, words)?,
            "folders" => self.script.add_folders(number_of(words), true)?,
            "no-folders" => self.script.add_folders(number_of(words), false)?,
            "commits" => self.script.fail_after(words)?,
            "runs" => self.script.add_builds(alloc, words)?,
            "notes" => self.script.has_notes = true,
            "launcher" => self.script.has_launcher = true,
            _ => return Ok(false),
        }
        Ok(true)
    }

    /// What prints on the tape, and tells there if that was asked for.
    fn out(&self, alloc: Global) -> Result<Printed<Tape, Aside>, AllocError> {
        let tape = if self.has_notes {
            Some(self.tape.another()?)
        } else {
            None
        };
        Ok(Printed::new(alloc, self.tape.another()?, Aside { tape }))
    }

    /// Opens a server over the script; another script begins.
    fn open(&mut self, alloc: Global) -> Result<u8, ServeFault> {
        self.has_notes = self.script.has_notes;
        let (Ok(tape), Ok(mut out)) = (self.tape.another(), self.out(alloc)) else {
            return Err(ServeFault::NoMemory);
        };
        let script = mem::replace(&mut self.script, Script::new(alloc));
        self.serving = Some(Serving::open(alloc, tape, script, &mut out)?);
        Ok(0)
    }

    /// Has the server do what a line says: its status. None where there is no server, or it is no line of one.
    fn serve(&mut self, alloc: Global, kind: &str, words: &str) -> Result<Option<u8>, ServeFault> {
        let Ok(out) = self.out(alloc) else {
            return Err(ServeFault::NoMemory);
        };
        match &mut self.serving {
            Some(serving) => printed(alloc, serving, out, kind, words),
            None => Ok(None),
        }
    }

    fn served(&mut self, alloc: Global, kind: &str, words: &str) -> Result<Option<u8>, ServeFault> {
        match kind {
            "open" => self.open(alloc).map(|status| Some(status)),
            _ => self.serve(alloc, kind, words),
        }
    }

    fn played(&mut self, alloc: Global, line: &str) -> Result<String> {
        let (kind, words) = split(line);
        if self.add(alloc, kind, words)? {
            return Ok(String::new(alloc));
        }
        let end = self.served(alloc, kind, words);
        let mut text = self.tape.text()?;
        push_end(&mut text, end)?;
        Ok(text)
    }
}

/// Adds how a line ended, unless with status 0.
fn push_end(text: &mut String, end: Result<Option<u8>, ServeFault>) -> Result<(), AllocError> {
    match end {
        Ok(Some(0)) => Ok(()),
        Ok(Some(status)) => write!(text, "  status {status}"),
        Ok(None) => text.push_str("  no such line"),
        Err(fault) => write!(text, "  {fault:?}"),
    }
}

impl Player for Servers {
    fn answer_to(&mut self, alloc: Global, line: &str) -> Result<String, AllocError> {
        self.played(alloc, line)
            .or_else(|error| format!(in alloc; "{error}"))
    }
}
