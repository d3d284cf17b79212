//! Events of a core.
//!
//! `core BUDGET` begins a core with nothing seen and no pipeline, whose searches take at most so many nodes. Each other
//! line is an event, and its answer the core's reply or its fault: `pipeline JSON`, `checked RESOURCE VERSIONS`,
//! `fill RESOURCE COUNT`, `schedule JOB`, `trigger JOB`, `answer JOB NUMBER TURN ANSWER`, `abort JOB NUMBER`,
//! `pin RESOURCE PIN`, `unpin RESOURCE`, `disable RESOURCE PLACE`, `enable RESOURCE PLACE`, `restart`. Or it asks what
//! the core holds: `builds`, `tables`, `wants JOB NUMBER`, `index JOB`. `docs/FORMATS.md` has the answers.
//!
//! `watched BUDGET` begins a core so, too, and after each event in it the index that it keeps for each job is compared with one
//! that is built anew: where they don't answer alike, the event's answer has a second line.
ghost use Rattle.std.specs.Prelude.{◌≤◌};
ghost use Rattle.ccr_proof.specs.declared.proof.TheConstants.{MOST_NODES};

mod index;

use crate::event::event_of;
use crate::events::index::{first_other, index_text};
use crate::reply::{MOST_BYTES, fault_name, push_reply};
use crate::show::{builds_text, tables_text, wants_text};
use ccr_core::{Core, CoreFault, Event};
use ccr_history::History;
use ccr_rows::{LineFault, Player, number_of, split};
use std::alloc::{AllocError, Global};

/// The core that was begun last, if one was, and whether its indexes are compared after each event.
#[derive(Drop)]
pub(crate) struct Events {
    core: Option<Core>,
    is_watched: bool,
}

/// A core with nothing seen and no pipeline.
fn new_core(alloc: Global, budget: u32) -> Result<Core, LineFault>
    requires least { 1 ≤ budget }
    requires most { budget ≤ MOST_NODES }
{
    match Core::resume(alloc, History::new(alloc), budget) {
        Ok((core, _)) => Ok(core),
        Err(_) => Err(LineFault::NoMemory),
    }
}

/// What an event is replied. Room for the words is made before it, so that it isn't done without them.
fn step(alloc: Global, core: &mut Core, event: Event) -> Result<String, LineFault> {
    let mut text = String::with_capacity(alloc, MOST_BYTES)?;
    match core.step(alloc, event) {
        Ok((reply, _)) => push_reply(&mut text, reply)?,
        Err(CoreFault::NoMemory) => return Err(LineFault::NoMemory),
        Err(fault) => text.push_str(fault_name(fault))?,
    }
    Ok(text)
}

/// What a core answers to an event, or what it holds.
fn answered(alloc: Global, core: &mut Core, line: &str) -> Result<String, LineFault> {
    let (kind, given) = split(line);
    match kind {
        "builds" => Ok(builds_text(alloc, core.history())?),
        "tables" => Ok(tables_text(alloc, core.history())?),
        "wants" => {
            let (job, number) = split(given);
            Ok(wants_text(alloc, core, job, number_of(number)?)?)
        }
        "index" => Ok(index_text(alloc, core, given)?),
        _ => step(alloc, core, event_of(alloc, kind, given)?),
    }
}

/// The answer to an event of a watched core, with a second line where an index isn't as one that is built anew. The event has
/// been done: where memory is refused, the indexes are compared once more.
fn watched(alloc: Global, core: &Core, answer: String) -> Result<String, AllocError> {
    let mut answer = answer;
    let other = match first_other(alloc, core) {
        Ok(other) => other,
        Err(_) => first_other(alloc, core)?,
    };
    if let Some(job) = other {
        write!(answer, "\nthe index of {job} differs")?;
    }
    Ok(answer)
}

impl Events {
    /// No core.
    pub(crate) fn new() -> Events {
        Events {
            core: None,
            is_watched: false,
        }
    }

    fn begin(&mut self, alloc: Global, text: &str, is_watched: bool) -> Result<String, LineFault> {
        let budget = number_of(text)?;
        if budget < 1 || budget > 1_000_000 {
            return Ok(String::from_str(alloc, "no such budget")?);
        }
        self.core = Some(new_core(alloc, budget)?);
        self.is_watched = is_watched;
        Ok(String::from_str(alloc, "begun")?)
    }

    fn told(&mut self, alloc: Global, line: &str) -> Result<String, LineFault> {
        let Some(core) = &mut self.core else {
            return Ok(String::from_str(alloc, "no core")?);
        };
        let answer = answered(alloc, core, line)?;
        if self.is_watched {
            return Ok(watched(alloc, core, answer)?);
        }
        Ok(answer)
    }

    fn played(&mut self, alloc: Global, line: &str) -> Result<String, LineFault> {
        let (kind, given) = split(line);
        match kind {
            "core" => self.begin(alloc, given, false),
            "watched" => self.begin(alloc, given, true),
            _ => self.told(alloc, line),
        }
    }
}

impl Player for Events {
    fn answer_to(&mut self, alloc: Global, line: &str) -> Result<String, AllocError> {
        match self.played(alloc, line) {
            Ok(text) => Ok(text),
            Err(LineFault::NoMemory) => Err(AllocError),
            Err(fault) => format!(in alloc; "refused: {fault}"),
        }
    }
}
