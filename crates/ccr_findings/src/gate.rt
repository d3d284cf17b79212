//! The gates of a pipeline's inputs.
ghost use Rattle.std.specs.Prelude.{◌≡◌, ◌++◌, codes, map, string_bytes, IfOk, OnOk};
ghost use Rattle.std.specs.List.{flat_map};
ghost use Rattle.ccr_pipeline.specs.Inputs.{input_data, inputs};
ghost use Rattle.ccr_pipeline.specs.JobData.{job_data};
ghost use Rattle.ccr_pipeline.specs.Tree.{wanted_data};
ghost use Rattle.ccr_findings.specs.Findings.{findings_data};
ghost use Rattle.ccr_findings.specs.Gates as spec;
ghost use Rattle.ccr_findings.specs.Gates.{gates_of, gates_in};

use crate::finding::{Finding, Findings, Kind};
use ccr_pipeline::{Input, Job, Wanted, inputs_of};
use std::alloc::{AllocError, Global};

/// Adds what further jobs in `passed` say.
#[tactic(auto, using(std::proofs::Common::append_assoc, crate::proofs::Lists::and_none))]
fn add_passed(words: &mut String, jobs: &[String]) -> Result<(), AllocError>
    ensures { OnOk result (string_bytes words.new ≡ string_bytes words.old
        ++ flat_map (λ other. codes ", passed " ++ other) (map string_bytes jobs.now)) }
{
    for job in jobs {
        words.push_str(", passed ")?;
        words.push_str(job.as_str())?;
    }
    Ok(())
}

/// What the jobs in `passed` say.
#[tactic(auto, using(std::proofs::Common::append_assoc))]
fn passed_words(alloc: Global, passed: &[String]) -> Result<String, AllocError>
    ensures { IfOk result (λ words. string_bytes words ≡ spec.passed_words (map string_bytes passed.now)) }
{
    let Some((first, rest)) = passed.split_first() else {
        return String::from_str(alloc, "newest");
    };
    let mut words = String::from_str(alloc, "passed ")?;
    words.push_str(first.as_str())?;
    add_passed(&mut words, rest)?;
    Ok(words)
}

/// What is said of the versions that an input wants.
fn wanted_words(wanted: &Wanted) -> &'static str
    ensures { result.now ≡ spec.wanted_words (wanted_data wanted.now) }
{
    match wanted {
        Wanted::Latest => "",
        Wanted::Every => ", every",
        Wanted::Pinned(_) => ", pinned",
    }
}

/// What is said of an input if a new version triggers its job.
fn trigger_words(input: &Input) -> &'static str
    ensures { result.now ≡ spec.trigger_words (input_data input.now) }
{
    if input.trigger { ", trigger" } else { "" }
}

/// The line of an input's gate.
fn gate_line(alloc: Global, job: &str, input: &Input) -> Result<String, AllocError>
    ensures { IfOk result (λ line. string_bytes line ≡ spec.gate_line job.now (input_data input.now)) }
{
    let name = input.name.as_str();
    let passed = passed_words(alloc, &input.passed)?;
    let passed = passed.as_str();
    let wanted = wanted_words(&input.wanted);
    let trigger = trigger_words(input);
    format!(in alloc; "gate {job} {name}: {passed}{wanted}{trigger}")
}

/// Adds the gates of a job's inputs.
#[tactic(auto, using(std::proofs::Common::append_assoc, crate::proofs::Lists::and_none))]
fn find_inputs(
    alloc: Global,
    out: &mut Findings,
    job: &str,
    inputs: &[Input],
) -> Result<(), AllocError>
    ensures { OnOk result (findings_data out.new.items
        ≡ findings_data out.old.items ++ gates_of job.now (map input_data inputs.now)) }
{
    for input in inputs {
        let line = gate_line(alloc, job, input)?;
        out.push(Finding {
            kind: Kind::Gate,
            line,
        })?;
    }
    Ok(())
}

/// Adds the gates of jobs, in their order.
#[tactic(auto, using(std::proofs::Common::append_assoc, crate::proofs::Lists::and_none))]
pub(crate) fn find_gates(alloc: Global, out: &mut Findings, jobs: &[Job]) -> Result<(), AllocError>
    ensures { OnOk result (findings_data out.new.items
        ≡ findings_data out.old.items ++ gates_in (map job_data jobs.now)) }
{
    for job in jobs {
        let inputs = inputs_of(alloc, job)?;
        find_inputs(alloc, out, job.name.as_str(), &inputs)?;
    }
    Ok(())
}
