//! Why an input of a job's next build doesn't take a place that is newer than the one it takes.
ghost use Rattle.std.specs.Prelude.{◌≡◌, ◌<◌, true, false, length, Some, option_copied, IfOk};
ghost use Rattle.ccr_pipeline.specs.Inputs.{input_data};
ghost use Rattle.ccr_problem.specs.ProblemOf.{is_disabled_at};
ghost use Rattle.ccr_lines.specs.Reasons.{subject_data, scope_at, is_allowed, has_moved, first_unmoved, is_preferred, IsOpen, is_left_out, resource_pin, pinned_by, IsReason, IsSubject};

use crate::explain::scope_at;
use crate::stop::{Stop, stop_of};
use crate::subject::Subject;
use crate::trace::meets_at;
use crate::words::job_name;
use ccr_choice::possible::has_place;
use ccr_explain::{ClashingDemands, Explanation, why_not};
use ccr_history::Pin;
use ccr_index::Index;
use ccr_pipeline::Input;
use std::alloc::{AllocError, Global};

/// Why an input doesn't take a place that is newer than the one it takes.
#[derive(Drop)]
pub enum Reason {
    /// Its version is disabled.
    Disabled,
    /// A pin leaves out its version.
    Pinned(PinnedBy),
    /// It hasn't passed a job that the input names, and stopped here on the way.
    Stopped(Stop),
    /// Others come first, since the input takes every version in turn.
    Later,
    /// These demands exclude each other, where the input takes it and no input before it gets worse.
    Clash(ClashingDemands),
    /// The budget, this many nodes, didn't suffice to find such demands.
    OverBudget(u32),
}

/// Where a pin comes from.
#[derive(Clone, Copy, PartialEq, Eq)]
pub enum PinnedBy {
    /// The command `pin-resource`.
    Command,
    /// The `version` of the resource in the pipeline.
    Resource,
    /// The `version` of the get.
    Get,
}

/// Whether a place is one of those that are allowed to an input.
fn is_allowed(index: &Index, input: usize, place: u32) -> bool
    requires { input < length index.now.problem.inputs }
    ensures { result ≡ is_allowed index.now.problem input place }
{
    has_place(index.input(input).places(), place)
}

/// Whether a successful build of a job moved a place, in the scope of an input.
fn has_moved(index: &Index, input: usize, place: u32, job: u32) -> bool
    requires input { input < length index.now.problem.inputs }
    requires job { job < length index.now.problem.jobs }
    ensures { result ≡ has_moved index.now.problem input place job }
{
    let scope = index.input(input).scope();
    index.rows(job as usize).has_passed(scope, place)
}

/// Of the jobs that an input names, the first of which no successful build moved the place.
fn first_unmoved(index: &Index, input: usize, place: u32) -> Option<u32>
    requires { input < length index.now.problem.inputs }
    ensures { result ≡ first_unmoved index.now.problem input place }
{
    for job in index.input(input).jobs() {
        if !has_moved(index, input, place, *job) {
            return Some(*job);
        }
    }
    None
}

/// Whether a place is preferred to the one that an input takes.
fn is_preferred(subject: &Subject<'_>, input: usize, place: u32) -> bool
    requires subject { IsSubject subject.now }
    requires input { input < length (subject_data subject.now).inputs }
    ensures { result ≡ is_preferred (subject_data subject.now) input place }
{
    let choice = subject.choice;
    let taken = choice.places[input];
    ccr_choice::is_preferred(subject.index.input(input).after(), place, taken)
}

/// Whether a pin, if there is one, leaves out the version at a place of an input's scope.
fn is_left_out(subject: &Subject<'_>, input: &Input, place: u32, found: Option<&Pin>) -> bool
    ensures { result
        ≡ is_left_out (subject_data subject.now) (input_data input.now) place (option_copied found.entry) }
{
    match found {
        Some(pin) => !meets_at(subject.history, pin, scope_at(subject, input), place),
        None => false,
    }
}

/// The pin that an input's resource has in the pipeline.
fn resource_pin<'s>(subject: &Subject<'s>, input: &Input) -> Option<&'s Pin>
    ensures { option_copied result ≡ resource_pin (subject_data subject.now) (input_data input.now) }
{
    match subject.pipeline.resource(input.resource.as_str()) {
        Some(resource) => resource.version.as_ref(),
        None => None,
    }
}

/// Which pin leaves out a place that isn't allowed to an input.
fn pinned_by(subject: &Subject<'_>, input: &Input, place: u32) -> PinnedBy
    ensures { result ≡ pinned_by (subject_data subject.now) (input_data input.now) place }
{
    let by_command = subject.history.pin(input.resource.as_str());
    let by_resource = resource_pin(subject, input);
    if is_left_out(subject, input, place, by_command) {
        PinnedBy::Command
    } else if is_left_out(subject, input, place, by_resource) {
        PinnedBy::Resource
    } else {
        PinnedBy::Get
    }
}

/// Where a place stopped that hasn't passed this job of the problem.
fn stopped(
    alloc: Global,
    subject: &Subject<'_>,
    number: usize,
    input: &Input,
    place: u32,
    job: u32,
) -> Result<Reason, AllocError>
    requires enabled { let s = subject_data subject.now in
        is_disabled_at s.history (scope_at s (input_data input.now)) place ≡ false }
    requires allowed { is_allowed (subject_data subject.now).problem number place ≡ true }
    requires unmoved { first_unmoved (subject_data subject.now).problem number place ≡ Some job }
    ensures { IfOk result (IsReason (subject_data subject.now) number (input_data input.now) place) }
{
    let stop = stop_of(
        alloc,
        subject.pipeline,
        subject.history,
        (scope_at(subject, input), place),
        job_name(subject.jobs, job as usize),
    )?;
    Ok(Reason::Stopped(stop))
}

/// The demands that exclude each other where an input takes a place and no input before it gets worse, and nothing concerns the
/// place alone.
fn clash_at(
    alloc: Global,
    subject: &Subject<'_>,
    number: usize,
    input: &Input,
    place: u32,
) -> Result<Reason, AllocError>
    requires subject { IsSubject subject.now }
    requires input { number < length (subject_data subject.now).inputs }
    requires enabled { let s = subject_data subject.now in
        is_disabled_at s.history (scope_at s (input_data input.now)) place ≡ false }
    requires opened { IsOpen (subject_data subject.now) number place }
    ensures { IfOk result (IsReason (subject_data subject.now) number (input_data input.now) place) }
{
    let shown = why_not(
        alloc,
        subject.index,
        subject.choice,
        number,
        place,
        subject.budget,
    )?;
    match shown {
        Explanation::Clash(clash) => Ok(Reason::Clash(clash)),
        Explanation::OverBudget(budget) => Ok(Reason::OverBudget(budget)),
        Explanation::Fits(_) => unreachable!(),
    }
}

/// Why an input, which has this number, doesn't take a place. The only error is out of memory.
pub(crate) fn reason_of(
    alloc: Global,
    subject: &Subject<'_>,
    number: usize,
    input: &Input,
    place: u32,
) -> Result<Reason, AllocError>
    requires subject { IsSubject subject.now }
    requires input { number < length (subject_data subject.now).inputs }
    ensures { IfOk result (IsReason (subject_data subject.now) number (input_data input.now) place) }
{
    if subject.history.is_disabled(scope_at(subject, input), place) {
        return Ok(Reason::Disabled);
    }
    if !is_allowed(subject.index, number, place) {
        return Ok(Reason::Pinned(pinned_by(subject, input, place)));
    }
    if let Some(job) = first_unmoved(subject.index, number, place) {
        return stopped(alloc, subject, number, input, place, job);
    }
    if is_preferred(subject, number, place) {
        clash_at(alloc, subject, number, input, place)
    } else {
        Ok(Reason::Later)
    }
}
