//! That versions of several inputs haven't passed one job together.
ghost use Rattle.std.specs.Prelude.{◌≡◌, ◌++◌, ◌&&◌, not, codes, map, string_bytes, option_copied, IfOk, OnOk};
ghost use Rattle.std.specs.List.{list_any};
ghost use Rattle.ccr_explain.specs.Cut.{is_allowed_of, is_passed_of};
ghost use Rattle.ccr_pipeline.specs.Inputs.{input_data};
ghost use Rattle.ccr_lines.specs.ClashWords.{job_in, first_job, asks_other, names_other, is_together, together_job, or_better, allowed_other, other_words, further_others, others_words, other_in, others_in, together_words, taking_words};
ghost use Rattle.ccr_lines.specs.Reasons.{subject_data};

use crate::asked::Asked;
use crate::subject::Subject;
use crate::words::{input_name, job_name, push_clash, push_number};
use ccr_explain::{ClashingDemands, Demand};
use ccr_pipeline::Input;
use std::alloc::{AllocError, Global};

// ---- which job it is

/// The job of a demand that names one.
fn job_in(demand: &Demand) -> Option<usize>
    ensures { result ≡ job_in demand.now }
{
    match demand {
        Demand::Allowed(_) => None,
        Demand::Passed(_, job) => Some(*job),
    }
}

/// The job of the first demand that names one.
fn first_job(demands: &[Demand]) -> Option<usize>
    ensures { result ≡ first_job demands.now }
{
    for demand in demands {
        match job_in(demand) {
            Some(job) => return Some(job),
            None => {}
        }
    }
    None
}

/// Whether a demand is that of the allowed places of an input.
fn is_allowed_of(input: usize, demand: &Demand) -> bool
    ensures { result ≡ is_allowed_of input demand.now }
{
    match demand {
        Demand::Allowed(other) => *other == input,
        Demand::Passed(_, _) => false,
    }
}

/// Whether a demand is that of an input for a job.
fn is_passed_of(input: usize, job: usize, demand: &Demand) -> bool
    ensures { result ≡ is_passed_of input job demand.now }
{
    match demand {
        Demand::Allowed(_) => false,
        Demand::Passed(other, named) => *other == input && *named == job,
    }
}

/// Whether a demand asks that another input has passed a job.
fn asks_other(own: usize, demand: &Demand) -> bool
    ensures { result ≡ asks_other own demand.now }
{
    match demand {
        Demand::Allowed(_) => false,
        Demand::Passed(input, _) => *input != own,
    }
}

/// Whether a demand names another job.
fn names_other(job: usize, demand: &Demand) -> bool
    ensures { result ≡ names_other job demand.now }
{
    match demand {
        Demand::Allowed(_) => false,
        Demand::Passed(_, named) => *named != job,
    }
}

/// Whether demands are met by an allowed place of an input.
fn has_allowed(input: usize, demands: &[Demand]) -> bool
    ensures { result ≡ list_any (is_allowed_of input) demands.now }
{
    demands.iter().any(|demand| is_allowed_of(input, demand))
}

/// Whether one of these demands is that of an input for a job.
fn has_passed(input: usize, job: usize, demands: &[Demand]) -> bool
    ensures { result ≡ list_any (is_passed_of input job) demands.now }
{
    demands
        .iter()
        .any(|demand| is_passed_of(input, job, demand))
}

/// Whether one of these demands asks that another input has passed a job.
fn has_other(own: usize, demands: &[Demand]) -> bool
    ensures { result ≡ list_any (asks_other own) demands.now }
{
    demands.iter().any(|demand| asks_other(own, demand))
}

/// Whether one of these demands names another job.
fn has_other_job(job: usize, demands: &[Demand]) -> bool
    ensures { result ≡ list_any (names_other job) demands.now }
{
    demands.iter().any(|demand| names_other(job, demand))
}

/// Whether these demands, none of which can be left out, say that the place of an input and those of others haven't passed a job
/// together.
fn are_together(own: usize, demands: &[Demand], job: usize) -> bool
    ensures { result ≡ (list_any (is_allowed_of own) demands.now
        && (list_any (is_passed_of own job) demands.now
        && (list_any (asks_other own) demands.now && not (list_any (names_other job) demands.now)))) }
{
    has_allowed(own, demands)
        && (has_passed(own, job, demands)
            && (has_other(own, demands) && !has_other_job(job, demands)))
}

/// Whether demands say that the place of an input and those of others haven't passed a job together.
fn is_together(own: usize, clash: &ClashingDemands, job: usize) -> bool
    ensures { result ≡ is_together own clash.now job }
{
    clash.is_irreducible && are_together(own, &clash.demands, job)
}

/// The job, where demands say so.
fn together_job(own: usize, clash: &ClashingDemands) -> Option<usize>
    ensures { result ≡ together_job own clash.now }
{
    match first_job(&clash.demands) {
        Some(job) => {
            if is_together(own, clash, job) {
                Some(job)
            } else {
                None
            }
        }
        None => None,
    }
}

// ---- in words

/// Adds that a place is as good as this one.
fn push_or_better(text: &mut String, place: Option<&u32>) -> Result<(), AllocError>
    ensures { OnOk result (string_bytes text.new ≡ string_bytes text.old ++ or_better (option_copied place.entry)) }
{
    match place {
        None => Ok(()),
        Some(place) => {
            push_number(text, " ", *place)?;
            text.push_str(" or better")
        }
    }
}

/// Adds a name behind words.
fn push_name(text: &mut String, words: &str, name: &str) -> Result<(), AllocError>
    ensures { OnOk result (string_bytes text.new ≡ string_bytes text.old ++ (words.now ++ name.now)) }
{
    text.push_str(words)?;
    text.push_str(name)
}

/// Adds a name, and that a place is as good as this one.
fn push_better(text: &mut String, name: &str, place: Option<&u32>) -> Result<(), AllocError>
    ensures { OnOk result (string_bytes text.new
        ≡ string_bytes text.old ++ (name.now ++ or_better (option_copied place.entry))) }
{
    text.push_str(name)?;
    push_or_better(text, place)
}

/// Adds which allowed places of another input are meant.
fn push_allowed_other(
    text: &mut String,
    own: usize,
    places: &[u32],
    inputs: &[Input],
    input: usize,
) -> Result<(), AllocError>
    ensures { OnOk result (string_bytes text.new ≡ string_bytes text.old
        ++ allowed_other own places.now (map input_data inputs.now) input) }
{
    let name = input_name(inputs, input);
    if input < own {
        push_better(text, name, places.get(input))
    } else {
        push_name(text, "any allowed ", name)
    }
}

/// Adds which places of another input are meant.
fn push_other(
    text: &mut String,
    own: usize,
    places: &[u32],
    inputs: &[Input],
    demands: &[Demand],
    input: usize,
) -> Result<(), AllocError>
    ensures { OnOk result (string_bytes text.new ≡ string_bytes text.old
        ++ other_words own places.now (map input_data inputs.now) demands.now input) }
{
    if has_allowed(input, demands) {
        push_allowed_other(text, own, places, inputs, input)
    } else {
        push_name(text, "any ", input_name(inputs, input))
    }
}

/// Adds the other inputs, each behind a comma, of which these demands ask that they have passed a job.
fn push_further_others(
    text: &mut String,
    own: usize,
    places: &[u32],
    inputs: &[Input],
    demands: &[Demand],
    others: &[usize],
) -> Result<(), AllocError>
    ensures { OnOk result (string_bytes text.new ≡ string_bytes text.old
        ++ further_others own places.now (map input_data inputs.now) demands.now others.now) }
{
    for other in others {
        text.push_str(", ")?;
        push_other(text, own, places, inputs, demands, *other)?;
    }
    Ok(())
}

/// Adds the other inputs, with commas between them.
fn push_others(
    text: &mut String,
    own: usize,
    places: &[u32],
    inputs: &[Input],
    demands: &[Demand],
    others: &[usize],
) -> Result<(), AllocError>
    ensures { OnOk result (string_bytes text.new ≡ string_bytes text.old
        ++ others_words own places.now (map input_data inputs.now) demands.now others.now) }
{
    match others {
        [] => Ok(()),
        [first, further @ ..] => {
            push_other(text, own, places, inputs, demands, *first)?;
            push_further_others(text, own, places, inputs, demands, further)
        }
    }
}

/// Adds an input to the others, if a demand asks that it has passed a job.
fn add_other(others: &mut Vec<usize>, own: usize, demand: &Demand) -> Result<(), AllocError>
    ensures { OnOk result (others.new.items ≡ others.old.items ++ other_in own demand.now) }
{
    match demand {
        Demand::Allowed(_) => Ok(()),
        Demand::Passed(input, _) => {
            if *input == own {
                return Ok(());
            }
            others.push(*input)?;
            Ok(())
        }
    }
}

/// The inputs, but for one, of which demands ask that they have passed a job.
fn others_in(alloc: Global, own: usize, demands: &[Demand]) -> Result<Vec<usize>, AllocError>
    ensures { IfOk result (λ others. others.items ≡ others_in own demands.now) }
{
    let mut others = Vec::new(alloc);
    for demand in demands {
        add_other(&mut others, own, demand)?;
    }
    Ok(others)
}

/// Adds that something hasn't passed a job together with what follows.
fn push_not_passed(text: &mut String, job: &str) -> Result<(), AllocError>
    ensures { OnOk result (string_bytes text.new
        ≡ (string_bytes text.old ++ (codes "not passed " ++ job.now)) ++ codes " together with ") }
{
    push_name(text, "not passed ", job)?;
    text.push_str(" together with ")?;
    Ok(())
}

/// Adds that a place hasn't passed a job together with those of the others.
fn push_together(
    alloc: Global,
    text: &mut String,
    own: usize,
    places: &[u32],
    inputs: &[Input],
    demands: &[Demand],
    job: &str,
) -> Result<(), AllocError>
    ensures { OnOk result (string_bytes text.new ≡ string_bytes text.old
        ++ together_words own places.now (map input_data inputs.now) demands.now job.now) }
{
    let others = others_in(alloc, own, demands)?;
    push_not_passed(text, job)?;
    push_others(text, own, places, inputs, demands, &others)?;
    Ok(())
}

/// Adds why an input can't take a place.
pub(crate) fn push_taking(
    alloc: Global,
    text: &mut String,
    subject: &Subject<'_>,
    own: usize,
    place: u32,
    clash: &ClashingDemands,
) -> Result<(), AllocError>
    ensures { let s = subject_data subject.now in OnOk result (string_bytes text.new ≡ string_bytes text.old
        ++ taking_words own place s.choice.places s.inputs s.jobs clash.now) }
{
    let choice = subject.choice;
    match together_job(own, clash) {
        Some(job) => {
            let name = job_name(subject.jobs, job);
            push_together(
                alloc,
                text,
                own,
                &choice.places,
                subject.inputs,
                &clash.demands,
                name,
            )
        }
        None => {
            let asked = Asked::Taking(own, place, &choice.places);
            push_clash(text, asked, subject.inputs, subject.jobs, clash)
        }
    }
}
