//! What the next build of a job would take, and why nothing newer; or why there is none.
ghost use Rattle.std.specs.Prelude.{◌≡◌, ◌<◌, ◌≤◌, ◌++◌, ◌∷◌, [], true, Some, map, length, string_bytes, option_map, List, IfOk, IfErr, OnOk};
ghost use Rattle.ccr_history.specs.Tables.{at_place, versions_at};
ghost use Rattle.ccr_choice.specs.Optimal.{IsOptimal};
ghost use Rattle.ccr_choice.specs.Preference.{order_of};
ghost use Rattle.ccr_pipeline.specs.Inputs.{input_data, inputs, named_jobs};
ghost use Rattle.ccr_pipeline.specs.JobData.{job_data};
ghost use Rattle.ccr_pipeline.specs.Pipelines.{pipeline_data};
ghost use Rattle.ccr_problem.specs.ProblemOf.{job_of, IsProblemOf};
ghost use Rattle.ccr_proof.specs.declared.proof.TheConstants.{MOST_NODES};
ghost use Rattle.ccr_core.specs.Choices.{best};
ghost use Rattle.ccr_core.specs.Commands as spec;
ghost use Rattle.ccr_core.specs.Cores.{core_data};
ghost use Rattle.ccr_core.specs.Picking.{IsFound};
ghost use Rattle.ccr_resolve.specs.Chosen.{IsChosen};
ghost use Rattle.ccr_resolve.specs.declared.chosen.Chosen.TheVariants as chosen;
ghost use Rattle.ccr_lines.specs.Each.{AreEach};
ghost use Rattle.ccr_lines.specs.Explained.{version_at, refusal_of, IsRefusedIf, IsNewerRefused, newest_place, newest_three, passed_of, taken_of, IsTaken, last_of, best_of, none_of, pinned_to, none_words, why_of, IsExplainedBy, IsExplained};
ghost use Rattle.ccr_lines.specs.ExplainedData.{RefusalData};
ghost use Rattle.ccr_lines.specs.Reasons.{subject_data, scope_at, IsSubject};
ghost use Rattle.ccr_lines.specs.Shown.{needs, IsMade, IsUnshown};

use crate::asked::Asked;
use crate::explain_json::explained_shown;
use crate::explained::{Explained, Passed, Refusal, Taken};
use crate::held::job_held;
use crate::newest::{Sought, newest_of, standing_of};
use crate::outlook::{Outlook, outlook_at};
use crate::past::named_jobs;
use crate::reason::{Reason, reason_of};
use crate::shown::ShowFault;
use crate::subject::Subject;
use crate::taken::history_number;
use crate::unmet::pinned_out;
use crate::words::{job_name, push_clash, push_number, push_reason};
use ccr_choice::Choice;
use ccr_core::{Core, Form};
use ccr_explain::{ClashingDemands, Explanation, clash};
use ccr_history::{History, Pin, Status, Version};
use ccr_index::Index;
use ccr_pipeline::{Input, Job, Pipeline, inputs_of};
use ccr_resolve::{Chosen, choose};
use std::alloc::{AllocError, Global};

// ---- one input

/// The number that the history has for an input's scope.
pub(crate) fn scope_at(subject: &Subject<'_>, input: &Input) -> u32
    ensures { result ≡ scope_at (subject_data subject.now) (input_data input.now) }
{
    history_number(subject.pipeline, subject.history, input.resource.as_str())
}

/// A copy of the version at a place of the scope of this number.
fn version_copy(history: &History, scope: u32, place: u32) -> Result<Option<Version>, AllocError>
    ensures { IfOk result (λ found. found ≡ at_place place (versions_at scope history.now.tables)) }
{
    match history.version_at(scope, place) {
        Some(version) => Ok(Some(version.copy()?)),
        None => Ok(None),
    }
}

/// The version at a place of an input's scope.
fn version_at(
    subject: &Subject<'_>,
    input: &Input,
    place: u32,
) -> Result<Option<Version>, AllocError>
    ensures { IfOk result (λ found. found ≡ version_at (subject_data subject.now) (input_data input.now) place) }
{
    version_copy(subject.history, scope_at(subject, input), place)
}

/// A place of an input, which has this number, with this reason why the input doesn't take it.
fn refusal_of(
    alloc: Global,
    subject: &Subject<'_>,
    number: usize,
    input: &Input,
    place: u32,
    reason: &Reason,
) -> Result<Refusal, AllocError>
    ensures { IfOk result (λ r.
        r ≡ refusal_of (subject_data subject.now) number (input_data input.now) place reason.now) }
{
    let mut words = String::new(alloc);
    push_reason(alloc, &mut words, subject, number, place, reason)?;
    let version = version_at(subject, input, place)?;
    Ok(Refusal {
        place,
        version,
        words,
    })
}

/// The same, with a reason that holds.
fn refusal(
    alloc: Global,
    subject: &Subject<'_>,
    number: usize,
    input: &Input,
    place: u32,
) -> Result<Refusal, AllocError>
    requires subject { IsSubject subject.now }
    requires within { number < length (subject_data subject.now).inputs }
    ensures { IfOk result (λ r.
        IsRefusedIf true (subject_data subject.now) number (input_data input.now) place (r ∷ [])) }
{
    let reason = reason_of(alloc, subject, number, input, place)?;
    let refusal = refusal_of(alloc, subject, number, input, place, &reason)?;
    Ok(refusal)
}

/// Adds a place of an input, and why the input doesn't take it.
fn push_refusal(
    alloc: Global,
    newer: &mut Vec<Refusal>,
    subject: &Subject<'_>,
    number: usize,
    input: &Input,
    place: u32,
) -> Result<(), AllocError>
    requires subject { IsSubject subject.now }
    requires within { number < length (subject_data subject.now).inputs }
    ensures { OnOk result ((own : List RefusalData)
        × IsRefusedIf true (subject_data subject.now) number (input_data input.now) place own
        × (newer.new.items ≡ newer.old.items ++ own)) }
{
    let own = refusal(alloc, subject, number, input, place)?;
    newer.push(own)?;
    Ok(())
}

/// Adds a place that is newer than the one that an input takes, and why the input doesn't take it; nothing of any other place.
fn push_newer(
    alloc: Global,
    newer: &mut Vec<Refusal>,
    subject: &Subject<'_>,
    number: usize,
    input: &Input,
    place: u32,
) -> Result<(), AllocError>
    requires subject { IsSubject subject.now }
    requires within { number < length (subject_data subject.now).inputs }
    ensures { OnOk result ((own : List RefusalData)
        × IsNewerRefused (subject_data subject.now) number (input_data input.now) place own
        × (newer.new.items ≡ newer.old.items ++ own)) }
{
    let choice = subject.choice;
    if choice.places[number] < place {
        push_refusal(alloc, newer, subject, number, input, place)
    } else {
        Ok(())
    }
}

/// The place of the newest version in an input's scope; 0 where it has none.
fn newest_place(subject: &Subject<'_>, input: &Input) -> u32
    ensures { result ≡ newest_place (subject_data subject.now) (input_data input.now) }
{
    // A scope has few versions.
    subject.history.rules();
    subject.history.versions_at(scope_at(subject, input)).len() as u32
}

/// Why an input takes none of the three newest places that is newer than its own.
fn newer_of(
    alloc: Global,
    subject: &Subject<'_>,
    number: usize,
    input: &Input,
) -> Result<Vec<Refusal>, AllocError>
    requires subject { IsSubject subject.now }
    requires within { number < length (subject_data subject.now).inputs }
    ensures { let s = subject_data subject.now in let x = input_data input.now in
        IfOk result (λ newer. AreEach (λ n. IsNewerRefused s number x) 0 (newest_three s x) newer.items) }
{
    let newest = newest_place(subject, input);
    let mut newer = Vec::new(alloc);
    push_newer(alloc, &mut newer, subject, number, input, newest)?;
    push_newer(
        alloc,
        &mut newer,
        subject,
        number,
        input,
        newest.saturating_sub(1),
    )?;
    push_newer(
        alloc,
        &mut newer,
        subject,
        number,
        input,
        newest.saturating_sub(2),
    )?;
    Ok(newer)
}

/// The build of a job with which what the inputs take passed that job.
fn passed_of(alloc: Global, subject: &Subject<'_>, job: u32) -> Result<Passed, AllocError>
    ensures { IfOk result (λ b. b ≡ passed_of (subject_data subject.now) job) }
{
    let choice = subject.choice;
    let name = String::from_str(alloc, job_name(subject.jobs, job as usize))?;
    let build = choice.builds.get(job as usize).copied();
    Ok(Passed { job: name, build })
}

/// The builds of these jobs.
fn each_passed(
    alloc: Global,
    subject: &Subject<'_>,
    jobs: &[u32],
) -> Result<Vec<Passed>, AllocError>
    ensures { IfOk result (λ all. all.items ≡ map (passed_of (subject_data subject.now)) jobs.now) }
{
    let mut all = Vec::new(alloc);
    for job in jobs {
        all.push(passed_of(alloc, subject, *job)?)?;
    }
    Ok(all)
}

/// What an input takes, with these newer places.
fn taken_of(
    alloc: Global,
    subject: &Subject<'_>,
    number: usize,
    input: &Input,
    newer: Vec<Refusal>,
) -> Result<Taken, AllocError>
    requires subject { IsSubject subject.now }
    requires within { number < length (subject_data subject.now).inputs }
    ensures { IfOk result (λ t. t ≡ taken_of (subject_data subject.now) number (input_data input.now) newer.items) }
{
    let choice = subject.choice;
    let place = choice.places[number];
    let name = String::from_str(alloc, input.name.as_str())?;
    let resource = String::from_str(alloc, input.resource.as_str())?;
    let version = version_at(subject, input, place)?;
    let passed = each_passed(alloc, subject, subject.index.input(number).jobs())?;
    Ok(Taken {
        name,
        resource,
        place,
        version,
        passed,
        newer,
    })
}

/// What an input takes, and why nothing newer.
fn taken(
    alloc: Global,
    subject: &Subject<'_>,
    number: usize,
    input: &Input,
) -> Result<Taken, AllocError>
    requires subject { IsSubject subject.now }
    requires within { number < length (subject_data subject.now).inputs }
    ensures { IfOk result (λ t. IsTaken (subject_data subject.now) number (input_data input.now) (t ∷ [])) }
{
    let newer = newer_of(alloc, subject, number, input)?;
    let taken = taken_of(alloc, subject, number, input, newer)?;
    Ok(taken)
}

/// What each input takes, and why nothing newer.
fn each_taken(alloc: Global, subject: &Subject<'_>) -> Result<Vec<Taken>, AllocError>
    requires { IsSubject subject.now }
    ensures { let s = subject_data subject.now in IfOk result (λ each. AreEach (IsTaken s) 0 s.inputs each.items) }
{
    let mut each = Vec::new(alloc);
    for (number, input) in subject.inputs.iter().enumerate() {
        let own = taken(alloc, subject, number, input)?;
        each.push(own)?;
    }
    Ok(each)
}

// ---- a job

/// The newest build of a job that took these places for its inputs, and how it stands.
fn newest_with(subject: &Subject<'_>, job: &Job) -> Option<(u32, Status)>
    requires subject { IsSubject subject.now }
    requires inputs { let s = subject_data subject.now in s.inputs ≡ inputs (job_data job.now).plan }
    ensures { let s = subject_data subject.now in
        result ≡ last_of s.pipeline s.history (job_data job.now) s.choice.places Outlook.NothingNew }
{
    let choice = subject.choice;
    let sought = Sought::Took(subject.pipeline, subject.inputs, &choice.places);
    standing_of(newest_of(subject.history, sought, job.name.as_str()))
}

/// The same, where the job has nothing new.
fn last_of(subject: &Subject<'_>, job: &Job, outlook: Outlook) -> Option<(u32, Status)>
    requires subject { IsSubject subject.now }
    requires inputs { let s = subject_data subject.now in s.inputs ≡ inputs (job_data job.now).plan }
    ensures { let s = subject_data subject.now in
        result ≡ last_of s.pipeline s.history (job_data job.now) s.choice.places outlook }
{
    match outlook {
        Outlook::NothingNew => newest_with(subject, job),
        Outlook::Due | Outlook::ByCommandOnly | Outlook::NoneSatisfies | Outlook::OverBudget(_) =>
            None,
    }
}

/// What is said of a job for whose next build a choice was found.
fn best_of(alloc: Global, subject: &Subject<'_>, job: &Job) -> Result<Explained, AllocError>
    requires subject { IsSubject subject.now }
    requires inputs { let s = subject_data subject.now in s.inputs ≡ inputs (job_data job.now).plan }
    requires found { let s = subject_data subject.now in
        IsFound s.pipeline s.history s.budget (job_data job.now).name (best s.choice.places) }
    ensures taken { let s = subject_data subject.now in IfOk result (λ e. AreEach (IsTaken s) 0 s.inputs e.inputs) }
    ensures is { let s = subject_data subject.now in IfOk result (λ e. e ≡ best_of s (job_data job.now) e.inputs) }
{
    let choice = subject.choice;
    let outlook = outlook_at(
        alloc,
        subject.pipeline,
        subject.history,
        job,
        &choice.places,
        subject.budget,
    )?;
    let last = last_of(subject, job, outlook);
    let inputs = each_taken(alloc, subject)?;
    let name = String::from_str(alloc, job.name.as_str())?;
    Ok(Explained {
        job: name,
        outlook,
        last,
        inputs,
        why: None,
    })
}

/// What is said of a job by the choice for its problem.
fn explained_best(
    alloc: Global,
    pipeline: &Pipeline,
    history: &History,
    job: &Job,
    index: &Index,
    choice: &Choice,
    budget: u32,
) -> Result<Explained, AllocError>
    requires problem { IsProblemOf (pipeline_data pipeline.now) history.now (job_data job.now).name index.now.problem }
    requires there { let j = job_data job.now in job_of j.name (pipeline_data pipeline.now).jobs ≡ Some j }
    requires best { let q = index.now.problem in IsOptimal (order_of q) q choice.now.places choice.now.builds }
    requires least { 1 ≤ budget }
    requires most { budget ≤ MOST_NODES }
    ensures { IfOk result (IsExplainedBy (pipeline_data pipeline.now) history.now budget (job_data job.now)
        index.now.problem (chosen.Best choice.now)) }
{
    let inputs = inputs_of(alloc, job)?;
    let jobs = named_jobs(alloc, &inputs)?;
    let subject = Subject {
        pipeline,
        history,
        inputs: &inputs,
        jobs: &jobs,
        index,
        choice,
        budget,
    };
    best_of(alloc, &subject, job)
}

// ---- no choice

/// Adds that an input is pinned, and that no version is as its pin says.
fn push_pinned(alloc: Global, text: &mut String, name: &str, pin: &Pin) -> Result<(), AllocError>
    ensures { OnOk result (string_bytes text.new ≡ string_bytes text.old ++ pinned_to (name.now, pin.now)) }
{
    let key = pin.text(alloc)?;
    text.push_str(name)?;
    text.push_str(" is pinned to ")?;
    text.push_str(key.as_str())?;
    text.push_str(", which no version has")
}

/// Adds why demands of these inputs and jobs exclude each other: a pin that no version meets, or the demands.
fn push_none(
    alloc: Global,
    text: &mut String,
    pipeline: &Pipeline,
    history: &History,
    inputs: &[Input],
    jobs: &[String],
    clash: &ClashingDemands,
) -> Result<(), AllocError>
    ensures { OnOk result (string_bytes text.new ≡ string_bytes text.old ++ none_words (pipeline_data pipeline.now)
        history.now (map input_data inputs.now) (map string_bytes jobs.now) clash.now) }
{
    match pinned_out(pipeline, history, inputs, &clash.demands) {
        Some((name, pin)) => push_pinned(alloc, text, name, pin),
        None => push_clash(text, Asked::Any, inputs, jobs, clash),
    }
}

/// Why demands of a job's inputs exclude each other.
fn clash_words(
    alloc: Global,
    pipeline: &Pipeline,
    history: &History,
    job: &Job,
    clash: &ClashingDemands,
) -> Result<String, AllocError>
    ensures { let is = inputs (job_data job.now).plan in IfOk result (λ words. string_bytes words
        ≡ none_words (pipeline_data pipeline.now) history.now is (named_jobs [] is) clash.now) }
{
    let inputs = inputs_of(alloc, job)?;
    let jobs = named_jobs(alloc, &inputs)?;
    let mut words = String::new(alloc);
    push_none(alloc, &mut words, pipeline, history, &inputs, &jobs, clash)?;
    Ok(words)
}

/// Why nothing satisfies.
fn why_of(
    alloc: Global,
    pipeline: &Pipeline,
    history: &History,
    job: &Job,
    shown: &Explanation,
) -> Result<Option<String>, AllocError>
    ensures { IfOk result (λ why. option_map string_bytes why
        ≡ why_of (pipeline_data pipeline.now) history.now (job_data job.now) shown.now) }
{
    match shown {
        Explanation::Fits(_) => Ok(None),
        Explanation::Clash(clash) => Ok(Some(clash_words(alloc, pipeline, history, job, clash)?)),
        Explanation::OverBudget(budget) => {
            let mut words = String::new(alloc);
            push_number(&mut words, "over budget ", *budget)?;
            Ok(Some(words))
        }
    }
}

/// What is said of a job that has no choice.
fn none_of(
    alloc: Global,
    job: &Job,
    outlook: Outlook,
    why: Option<String>,
) -> Result<Explained, AllocError>
    ensures { IfOk result (λ e. e ≡ none_of (job_data job.now) outlook (option_map string_bytes why)) }
{
    let name = String::from_str(alloc, job.name.as_str())?;
    Ok(Explained {
        job: name,
        outlook,
        last: None,
        inputs: Vec::new(alloc),
        why,
    })
}

/// What is said of a job whose problem has no choice.
fn explained_none(
    alloc: Global,
    pipeline: &Pipeline,
    history: &History,
    job: &Job,
    index: &Index,
    budget: u32,
) -> Result<Explained, AllocError>
    requires least { 1 ≤ budget }
    requires most { budget ≤ MOST_NODES }
    ensures { IfOk result (IsExplainedBy (pipeline_data pipeline.now) history.now budget (job_data job.now)
        index.now.problem chosen.Nothing) }
{
    let shown = clash(alloc, index, budget)?;
    let why = why_of(alloc, pipeline, history, job, &shown)?;
    let explained = none_of(alloc, job, Outlook::NoneSatisfies, why)?;
    Ok(explained)
}

// ---- what is shown

/// What is said of a job by what was chosen.
fn explained_by(
    alloc: Global,
    pipeline: &Pipeline,
    history: &History,
    job: &Job,
    index: &Index,
    chosen: &Chosen,
    budget: u32,
) -> Result<Explained, AllocError>
    requires problem { IsProblemOf (pipeline_data pipeline.now) history.now (job_data job.now).name index.now.problem }
    requires there { let j = job_data job.now in job_of j.name (pipeline_data pipeline.now).jobs ≡ Some j }
    requires chosen { let q = index.now.problem in IsChosen (order_of q) q budget chosen.now }
    requires least { 1 ≤ budget }
    requires most { budget ≤ MOST_NODES }
    ensures { IfOk result (IsExplainedBy (pipeline_data pipeline.now) history.now budget (job_data job.now)
        index.now.problem chosen.now) }
{
    match chosen {
        Chosen::Best(choice) => explained_best(
            alloc, pipeline, history, job, index, choice, budget,
        ),
        Chosen::Nothing => explained_none(alloc, pipeline, history, job, index, budget),
        Chosen::OverBudget(most) => none_of(alloc, job, Outlook::OverBudget(*most), None),
    }
}

/// What the next build of a job would take, and why nothing newer, or why there is none, by the index of its problem. A
/// search may take `budget` nodes, from 1 to 1,000,000. The pipeline has the job.
fn explained_of(
    alloc: Global,
    pipeline: &Pipeline,
    history: &History,
    job: &Job,
    index: &Index,
    budget: u32,
) -> Result<Explained, AllocError>
    requires problem { IsProblemOf (pipeline_data pipeline.now) history.now (job_data job.now).name index.now.problem }
    requires there { let j = job_data job.now in job_of j.name (pipeline_data pipeline.now).jobs ≡ Some j }
    requires least { 1 ≤ budget }
    requires most { budget ≤ MOST_NODES }
    ensures { IfOk result (IsExplained (pipeline_data pipeline.now) history.now budget (job_data job.now)) }
{
    let chosen = choose(alloc, index, budget)?;
    let explained = explained_by(alloc, pipeline, history, job, index, &chosen, budget)?;
    Ok(explained)
}

/// What the next build of a job would take, and why nothing newer, or why there is none, by what a core keeps. Its
/// pipeline has the job.
///
/// The only error is out of memory.
pub fn explained_in(
    alloc: Global,
    core: &Core,
    pipeline: &Pipeline,
    job: &Job,
) -> Result<Explained, AllocError>
    requires held { (core_data core.now).pipeline ≡ Some (pipeline_data pipeline.now) }
    requires there { let j = job_data job.now in job_of j.name (pipeline_data pipeline.now).jobs ≡ Some j }
    ensures { let c = core_data core.now in
        IfOk result (IsExplained (pipeline_data pipeline.now) c.history c.budget (job_data job.now)) }
{
    // What a core keeps says that its budget is one that a search takes.
    core.rules();
    match core.index(job.name.as_str()) {
        Some(index) => explained_of(alloc, pipeline, core.history(), job, index, core.budget()),
        None => unreachable!(),
    }
}

/// What is shown of what the next build of the job of this name would take, and why.
pub(crate) fn explained_made(
    alloc: Global,
    core: &Core,
    form: Form,
    name: &str,
) -> Result<(u8, Vec<u8>), ShowFault>
    ensures made { IfOk result (λ r. IsMade (spec.explanation form name.now) (core_data core.now) r.0 r.1.items) }
    ensures unshown { let c = core_data core.now in
        IfErr result (IsUnshown (needs (spec.explanation form name.now)) c.pipeline c.history) }
{
    let (pipeline, job) = match job_held(core, name) {
        Ok(held) => held,
        Err(fault) => return Err(ShowFault::Lacks(fault)),
    };
    let explained = explained_in(alloc, core, pipeline, job)?;
    let shown = explained_shown(alloc, form, &explained)?;
    Ok(shown)
}
