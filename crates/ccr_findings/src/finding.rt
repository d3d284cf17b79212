//! What is found in a pipeline.
ghost use Rattle.std.specs.Prelude.{◌≡◌, IfOk};
ghost use Rattle.serde_json.specs.View.{view};
ghost use Rattle.ccr_pipeline.specs.Pipelines.{pipeline_data};
ghost use Rattle.ccr_findings.specs.All.{found_in_pipeline, found_in_value, AreFindings};
ghost use Rattle.ccr_findings.specs.Cycles.{AddsCycle};
ghost use Rattle.ccr_findings.specs.Findings.{findings_data, kinds, is_wrong, is_reason, is_faultless};

use crate::absent::find_absent;
use crate::cycle::find_cycle;
use crate::gate::find_gates;
use crate::objects::{Aim, find_on};
use crate::vars::find_vars;
use ccr_pipeline::Pipeline;
use serde_json::Value;
use std::alloc::{AllocError, Global};

/// What a finding says.
#[derive(Clone, Copy, PartialEq, Eq)]
pub enum Kind {
    /// What has to hold of the version that a job's input takes.
    Gate,
    /// A key of Concourse without effect here.
    Unused,
    /// A key without effect that looks like one with an effect.
    Misspelt,
    /// A key without effect that has one in another object.
    Misplaced,
    /// A key without effect that isn't known.
    Unknown,
    /// A job in `passed` that never gets or puts the resource.
    Never,
    /// A `passed` that names no job.
    Empty,
    /// An input of a task that no step before it gives.
    Absent,
    /// Jobs of which each has the next one in `passed`, and the last the first.
    Cycle,
    /// A text that a variable was to replace.
    Vars,
}

/// A finding: its kind, and its line without a line end.
#[derive(Drop)]
pub struct Finding {
    /// Its kind.
    pub kind: Kind,
    /// Its line.
    pub line: String,
}

/// Findings, with room for more.
pub type Findings = Vec<Finding>;

impl Kind {
    /// Whether a pipeline with such a finding doesn't do what it seems to say.
    pub fn is_wrong(self) -> bool
        ensures { result ≡ is_wrong self }
    {
        match self {
            Kind::Misspelt | Kind::Misplaced | Kind::Never | Kind::Empty => true,
            Kind::Absent | Kind::Cycle | Kind::Vars => true,
            Kind::Gate | Kind::Unused | Kind::Unknown => false,
        }
    }

    /// Whether such a finding is a reason to refuse the pipeline; to be strict, each but a gate is.
    pub fn is_reason(self, is_strict: bool) -> bool
        ensures { result ≡ is_reason is_strict self }
    {
        match self {
            Kind::Gate => false,
            _ => is_strict || self.is_wrong(),
        }
    }
}

/// What is found in a pipeline, whose text is this value: its gates, then its keys without effect, what never passes, the
/// variables, the inputs of tasks that no step before them gives, and jobs that wait for each other.
#[tactic(auto, using(std::proofs::Common::append_assoc))]
pub fn findings_of(
    alloc: Global,
    pipeline: &Pipeline,
    value: &Value,
) -> Result<Findings, AllocError>
    // Behind all that the definitions name is at most one of jobs that wait for each other.
    ensures { IfOk result (λ v. AddsCycle (pipeline_data pipeline.now).jobs
        (found_in_pipeline (pipeline_data pipeline.now).jobs (view value.now)) (findings_data v.items)) }
{
    let mut out = Vec::new(alloc);
    let jobs = pipeline.jobs();
    find_gates(alloc, &mut out, jobs)?;
    find_on(alloc, &mut out, Aim::Keys, value)?;
    find_on(alloc, &mut out, Aim::Gates(jobs), value)?;
    find_vars(alloc, &mut out, value)?;
    find_absent(alloc, &mut out, jobs)?;
    find_cycle(alloc, &mut out, jobs)?;
    Ok(out)
}

/// What is found in a value that is no pipeline.
fn findings_in_value(alloc: Global, value: &Value) -> Result<Findings, AllocError>
    ensures { IfOk result (λ v. findings_data v.items ≡ found_in_value (view value.now)) }
{
    let mut out = Vec::new(alloc);
    find_on(alloc, &mut out, Aim::Keys, value)?;
    find_vars(alloc, &mut out, value)?;
    Ok(out)
}

/// What is found in a text that is no pipeline: its keys without effect, and the variables. There is nothing where it is
/// no JSON value.
pub fn findings_in_text(alloc: Global, text: &[u8]) -> Result<Findings, AllocError>
    ensures { IfOk result (λ v. AreFindings text.now (findings_data v.items)) }
{
    match Value::from_slice(alloc, text) {
        Ok(value) => findings_in_value(alloc, &value),
        Err(error) if error.is_memory() => Err(AllocError),
        Err(_) => Ok(Vec::new(alloc)),
    }
}

/// Whether nothing that was found is a reason to refuse the pipeline.
pub fn is_faultless(findings: &[Finding], is_strict: bool) -> bool
    ensures { result ≡ is_faultless is_strict (kinds findings.now) }
{
    for finding in findings {
        if finding.kind.is_reason(is_strict) {
            return false;
        }
    }
    true
}
