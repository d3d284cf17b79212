//! Reasons and clashes in words.
ghost use Rattle.std.specs.Prelude.{◌≡◌, ◌++◌, map, decimal, string_bytes, option_copied, OnOk};
ghost use Rattle.ccr_pipeline.specs.Inputs.{input_data};
ghost use Rattle.ccr_lines.specs.ClashWords.{question_of, input_name, job_name, no_worse_words, allowed_words, demand_words, further_words, demands_words, fewer_words, clash_words};
ghost use Rattle.ccr_lines.specs.Reasons.{subject_data, pinned_words, reason_words};

use crate::asked::Asked;
use crate::joint::push_taking;
use crate::reason::{PinnedBy, Reason};
use crate::stop::push_stop;
use crate::subject::Subject;
use ccr_explain::{ClashingDemands, Demand};
use ccr_pipeline::Input;
use itoa::Buffer;
use std::alloc::{AllocError, Global};

/// The name of an input.
pub(crate) fn input_name(inputs: &[Input], input: usize) -> &str
    ensures { result.now ≡ input_name (map input_data inputs.now) input }
{
    match inputs.get(input) {
        Some(input) => input.name.as_str(),
        None => "",
    }
}

/// The name of a job.
pub(crate) fn job_name(jobs: &[String], job: usize) -> &str
    ensures { result.now ≡ job_name (map string_bytes jobs.now) job }
{
    match jobs.get(job) {
        Some(name) => name.as_str(),
        None => "",
    }
}

/// Adds a number behind words.
pub(crate) fn push_number(text: &mut String, words: &str, number: u32) -> Result<(), AllocError>
    ensures { OnOk result (string_bytes text.new ≡ string_bytes text.old ++ (words.now ++ decimal number)) }
{
    let mut buffer = Buffer::new();
    text.push_str(words)?;
    text.push_str(buffer.format(number))
}

/// Adds that an input takes no worse place than this one.
fn push_no_worse(text: &mut String, place: Option<&u32>) -> Result<(), AllocError>
    ensures { OnOk result (string_bytes text.new ≡ string_bytes text.old ++ no_worse_words (option_copied place.entry)) }
{
    match place {
        None => text.push_str(" takes an allowed version"),
        Some(place) => {
            push_number(text, " takes ", *place)?;
            text.push_str(" or better")
        }
    }
}

/// Adds what an input is to take, after its name.
fn push_allowed(text: &mut String, asked: Asked<'_>, input: usize) -> Result<(), AllocError>
    ensures { OnOk result (string_bytes text.new
        ≡ string_bytes text.old ++ allowed_words (question_of asked.entry) input) }
{
    match asked {
        Asked::Any => text.push_str(" takes an allowed version"),
        Asked::Taking(own, place, places) => {
            if input == own {
                push_number(text, " takes ", place)
            } else if input < own {
                push_no_worse(text, places.get(input))
            } else {
                text.push_str(" takes an allowed version")
            }
        }
    }
}

/// Adds a demand.
fn push_demand(
    text: &mut String,
    asked: Asked<'_>,
    inputs: &[Input],
    jobs: &[String],
    demand: &Demand,
) -> Result<(), AllocError>
    ensures { OnOk result (string_bytes text.new ≡ string_bytes text.old
        ++ demand_words (question_of asked.entry) (map input_data inputs.now) (map string_bytes jobs.now) demand.now) }
{
    match demand {
        Demand::Allowed(input) => {
            text.push_str(input_name(inputs, *input))?;
            push_allowed(text, asked, *input)
        }
        Demand::Passed(input, job) => {
            text.push_str(input_name(inputs, *input))?;
            text.push_str(" passed ")?;
            text.push_str(job_name(jobs, *job))
        }
    }
}

/// Adds the demands behind the first.
fn push_further(
    text: &mut String,
    asked: Asked<'_>,
    inputs: &[Input],
    jobs: &[String],
    demands: &[Demand],
) -> Result<(), AllocError>
    ensures { OnOk result (string_bytes text.new ≡ string_bytes text.old
        ++ further_words (question_of asked.entry) (map input_data inputs.now) (map string_bytes jobs.now) demands.now) }
{
    for demand in demands {
        text.push_str(", ")?;
        push_demand(text, asked, inputs, jobs, demand)?;
    }
    Ok(())
}

/// Adds demands, with commas between them.
fn push_demands(
    text: &mut String,
    asked: Asked<'_>,
    inputs: &[Input],
    jobs: &[String],
    demands: &[Demand],
) -> Result<(), AllocError>
    ensures { OnOk result (string_bytes text.new ≡ string_bytes text.old
        ++ demands_words (question_of asked.entry) (map input_data inputs.now) (map string_bytes jobs.now) demands.now) }
{
    match demands {
        [] => Ok(()),
        [first, others @ ..] => {
            push_demand(text, asked, inputs, jobs, first)?;
            push_further(text, asked, inputs, jobs, others)
        }
    }
}

/// Adds demands that exclude each other.
pub(crate) fn push_clash(
    text: &mut String,
    asked: Asked<'_>,
    inputs: &[Input],
    jobs: &[String],
    clash: &ClashingDemands,
) -> Result<(), AllocError>
    ensures { OnOk result (string_bytes text.new ≡ string_bytes text.old
        ++ clash_words (question_of asked.entry) (map input_data inputs.now) (map string_bytes jobs.now) clash.now) }
{
    text.push_str("clash: ")?;
    push_demands(text, asked, inputs, jobs, &clash.demands)?;
    text.push_str(fewer_words(clash.is_irreducible))
}

/// That perhaps fewer demands exclude each other, unless it is known that none can be left out.
fn fewer_words(is_irreducible: bool) -> &'static str
    ensures { result.now ≡ fewer_words is_irreducible }
{
    if is_irreducible {
        ""
    } else {
        " (perhaps fewer)"
    }
}

/// Which pin leaves out a place.
fn pinned_words(pin: PinnedBy) -> &'static str
    ensures { result.now ≡ pinned_words pin }
{
    match pin {
        PinnedBy::Command => "pinned by pin-resource",
        PinnedBy::Resource => "pinned by the resource",
        PinnedBy::Get => "pinned by the get",
    }
}

/// Adds the reason why an input doesn't take a place.
pub(crate) fn push_reason(
    alloc: Global,
    text: &mut String,
    subject: &Subject<'_>,
    input: usize,
    place: u32,
    reason: &Reason,
) -> Result<(), AllocError>
    ensures { OnOk result (string_bytes text.new ≡ string_bytes text.old
        ++ reason_words (subject_data subject.now) input place reason.now) }
{
    match reason {
        Reason::Disabled => text.push_str("disabled"),
        Reason::Pinned(pin) => text.push_str(pinned_words(*pin)),
        Reason::Stopped(stop) => push_stop(text, stop),
        Reason::Later => text.push_str("others come first"),
        Reason::Clash(clash) => push_taking(alloc, text, subject, input, place, clash),
        Reason::OverBudget(budget) => push_number(text, "over budget ", *budget),
    }
}
