//! What is said of a job's next build.

use crate::outlook::Outlook;
use ccr_history::{Status, Version};
use std::marker::Model;

/// A place that an input doesn't take, and why.
#[derive(Drop)]
pub struct Refusal {
    pub place: u32,
    pub version: Option<Version>,
    /// Why not, in words.
    pub words: String,
}

impl Model for Refusal {
    ghost use Rattle.std.specs.Prelude.{string_bytes};
    ghost use Rattle.ccr_lines.specs.ExplainedData.{RefusalData};

    ghost Value = { RefusalData };

    ghost view = { λ r. record { place = r.place; version = r.version; words = string_bytes r.words } };
}

/// A job, and the number of a build of it.
#[derive(Drop)]
pub struct Passed {
    pub job: String,
    pub build: Option<u32>,
}

impl Model for Passed {
    ghost use Rattle.std.specs.Prelude.{string_bytes};
    ghost use Rattle.ccr_lines.specs.ExplainedData.{PassedData};

    ghost Value = { PassedData };

    ghost view = { λ b. record { job = string_bytes b.job; build = b.build } };
}

/// What an input takes, and why nothing newer.
#[derive(Drop)]
pub struct Taken {
    /// The input's name.
    pub name: String,
    pub resource: String,
    pub place: u32,
    pub version: Option<Version>,
    /// The builds through which it passed the jobs that the input names.
    pub passed: Vec<Passed>,
    /// Those of the three newest places that are newer.
    pub newer: Vec<Refusal>,
}

impl Model for Taken {
    ghost use Rattle.std.specs.Prelude.{string_bytes};
    ghost use Rattle.ccr_lines.specs.ExplainedData.{TakenData};

    ghost Value = { TakenData };

    ghost view = { λ t. record {
      name = string_bytes t.name;
      resource = string_bytes t.resource;
      place = t.place;
      version = t.version;
      passed = t.passed.items;
      newer = t.newer.items;
    } };
}

/// What is said of a job's next build.
#[derive(Drop)]
pub struct Explained {
    /// The job's name.
    pub job: String,
    pub outlook: Outlook,
    /// Where there is nothing new, the newest build of the job that had these versions, and how it stands.
    pub last: Option<(u32, Status)>,
    /// What each input takes, in plan order; empty where there is no choice.
    pub inputs: Vec<Taken>,
    /// Why there is no choice, in words.
    pub why: Option<String>,
}

impl Model for Explained {
    ghost use Rattle.std.specs.Prelude.{option_map, string_bytes};
    ghost use Rattle.ccr_lines.specs.ExplainedData.{ExplainedData};

    ghost Value = { ExplainedData };

    ghost view = { λ e. record {
      job = string_bytes e.job;
      outlook = e.outlook;
      last = e.last;
      inputs = e.inputs.items;
      why = option_map string_bytes e.why;
    } };
}
