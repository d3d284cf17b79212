//! What is said of a job beside its name.
ghost use Rattle.std.specs.Prelude.{◌≡◌, ◌++◌, ◌∷◌, [], length, map, nat_lt, string_bytes, IfOk, OnOk};
ghost use Rattle.std.specs.Option.{option_copied};
ghost use Rattle.ccr_pipeline.specs.Inputs.{input_data, inputs};
ghost use Rattle.ccr_pipeline.specs.JobData.{resource_data, job_data};
ghost use Rattle.ccr_overview.specs.Abouts.{took_word, took_words, newest_said, good_words, good_beside, passed_words, after_words, trigger_words, input_words, takes_words, put_at, puts_of, put_word, puts_words, next_words, about_words};
ghost use Rattle.ccr_overview.specs.PageData.{Plain, word_data};
ghost use Rattle.ccr_overview.specs.Each.{each_from};
ghost use Rattle.ccr_overview.specs.Scenes.{told_data, scene_data};

use crate::hold::push_resource as push_input_name;
use crate::linked::push_job;
use crate::scene::{Scene, Told};
use crate::short::push_version;
use crate::word::{push_name, push_plain, push_row, push_separator, standing};
use ccr_history::{BuildRef, History, Status};
use ccr_lines::{Outlook, Sought, newest_of, push_outlook, puts, used_at};
use ccr_page::Word;
use ccr_pipeline::{Input, Job, Resource, inputs_of};
use std::alloc::{AllocError, Global};

// ---- what a build took

/// Adds what a build took for an input, a name, a scope and a place, behind the others: the version, with the name where it took
/// several.
fn push_took(
    alloc: Global,
    out: &mut Vec<Word>,
    history: &History,
    build: &BuildRef<'_>,
    k: usize,
    used: (&str, u32, u32),
) -> Result<(), AllocError>
    ensures { OnOk result (map word_data out.new.items ≡ map word_data out.old.items
        ++ took_word history.now (nat_lt 1 (length build.now.used)) k
        (record { input = used.entry.0.now; scope = used.entry.1; place = used.entry.2 })) }
{
    let (input, scope, place) = used;
    push_separator(alloc, out, ", ", k)?;
    push_input_name(alloc, out, build.used_count() > 1, input)?;
    push_version(alloc, out, history.version_at(scope, place), place)
}

/// Adds each version that a build took.
fn push_each_took(
    alloc: Global,
    out: &mut Vec<Word>,
    history: &History,
    build: &BuildRef<'_>,
) -> Result<(), AllocError>
    ensures { OnOk result (map word_data out.new.items ≡ map word_data out.old.items
        ++ each_from (took_word history.now (nat_lt 1 (length build.now.used))) 0 build.now.used) }
{
    for k in 0..build.used_count() {
        push_took(alloc, out, history, build, k, used_at(build, k))?;
    }
    Ok(())
}

/// Adds the versions that a build took, if it took any.
fn push_taken(
    alloc: Global,
    out: &mut Vec<Word>,
    history: &History,
    build: &BuildRef<'_>,
) -> Result<(), AllocError>
    ensures { OnOk result (map word_data out.new.items
        ≡ map word_data out.old.items ++ took_words history.now build.now.used) }
{
    if build.used_count() == 0 {
        return Ok(());
    }
    push_plain(alloc, out, " with ")?;
    push_each_took(alloc, out, history, build)
}

// ---- builds

/// Adds how the newest build stands.
fn push_newest(
    alloc: Global,
    out: &mut Vec<Word>,
    newest: Option<&BuildRef<'_>>,
) -> Result<(), AllocError>
    ensures { OnOk result (map word_data out.new.items
        ≡ map word_data out.old.items ++ Plain (newest_said (option_copied newest.entry)) ∷ []) }
{
    match newest {
        Some(build) => {
            let words = standing(alloc, build.number(), build.status())?;
            push_plain(alloc, out, words.as_str())
        }
        None => push_plain(alloc, out, "no builds"),
    }
}

/// Adds the newest build of the job at a position that succeeded, and what it took; or that none did.
fn push_good(
    alloc: Global,
    out: &mut Vec<Word>,
    history: &History,
    at: usize,
    found: Option<&BuildRef<'_>>,
) -> Result<(), AllocError>
    ensures { OnOk result (map word_data out.new.items
        ≡ map word_data out.old.items ++ good_words history.now at (option_copied found.entry)) }
{
    match found {
        Some(build) => {
            let words = standing(alloc, build.number(), build.status())?;
            push_plain(alloc, out, ", ")?;
            push_row(out, at, build.number(), words)?;
            push_taken(alloc, out, history, build)
        }
        None => push_plain(alloc, out, ", none succeeded"),
    }
}

/// Adds the newest build of a job that succeeded, where its newest one is another, and what it took.
fn push_good_beside(
    alloc: Global,
    out: &mut Vec<Word>,
    history: &History,
    job: &str,
    at: usize,
    newest: Option<&BuildRef<'_>>,
) -> Result<(), AllocError>
    ensures { OnOk result (map word_data out.new.items
        ≡ map word_data out.old.items ++ good_beside history.now job.now at (option_copied newest.entry)) }
{
    let Some(build) = newest else {
        return Ok(());
    };
    match build.status() {
        Status::Succeeded => push_taken(alloc, out, history, build),
        Status::Running | Status::Failed | Status::Errored | Status::Aborted => {
            let found = newest_of(history, Sought::Succeeded, job);
            push_good(alloc, out, history, at, found.as_ref())
        }
    }
}

// ---- inputs

/// Adds a job that an input names, behind the others.
fn push_passed(
    alloc: Global,
    out: &mut Vec<Word>,
    scene: &Scene<'_>,
    k: usize,
    name: &str,
) -> Result<(), AllocError>
    ensures { OnOk result (map word_data out.new.items
        ≡ map word_data out.old.items ++ passed_words (scene_data scene.now) k name.now) }
{
    push_separator(alloc, out, ", ", k)?;
    push_job(alloc, out, scene, name)
}

/// Adds the jobs that an input names.
fn push_each_passed(
    alloc: Global,
    out: &mut Vec<Word>,
    scene: &Scene<'_>,
    names: &[String],
) -> Result<(), AllocError>
    ensures { OnOk result (map word_data out.new.items ≡ map word_data out.old.items
        ++ each_from (passed_words (scene_data scene.now)) 0 (map string_bytes names.now)) }
{
    for (k, name) in names.iter().enumerate() {
        push_passed(alloc, out, scene, k, name.as_str())?;
    }
    Ok(())
}

/// Adds that an input's version has to have passed these jobs, if there are any.
fn push_after(
    alloc: Global,
    out: &mut Vec<Word>,
    scene: &Scene<'_>,
    names: &[String],
) -> Result<(), AllocError>
    ensures { OnOk result (map word_data out.new.items
        ≡ map word_data out.old.items ++ after_words (scene_data scene.now) (map string_bytes names.now)) }
{
    if names.is_empty() {
        return Ok(());
    }
    push_plain(alloc, out, " after ")?;
    push_each_passed(alloc, out, scene, names)
}

/// Adds that a new version makes no build.
fn push_trigger(alloc: Global, out: &mut Vec<Word>, trigger: bool) -> Result<(), AllocError>
    ensures { OnOk result (map word_data out.new.items ≡ map word_data out.old.items ++ trigger_words trigger) }
{
    if trigger {
        return Ok(());
    }
    push_plain(alloc, out, " (no trigger)")
}

/// Adds an input.
fn push_input(
    alloc: Global,
    out: &mut Vec<Word>,
    scene: &Scene<'_>,
    k: usize,
    input: &Input,
) -> Result<(), AllocError>
    ensures { OnOk result (map word_data out.new.items
        ≡ map word_data out.old.items ++ input_words (scene_data scene.now) k (input_data input.now)) }
{
    push_separator(alloc, out, "; ", k)?;
    push_name(alloc, out, input.resource.as_str(), 40)?;
    push_after(alloc, out, scene, &input.passed)?;
    push_trigger(alloc, out, input.trigger)
}

/// Adds inputs.
fn push_each_input(
    alloc: Global,
    out: &mut Vec<Word>,
    scene: &Scene<'_>,
    inputs: &[Input],
) -> Result<(), AllocError>
    ensures { OnOk result (map word_data out.new.items ≡ map word_data out.old.items
        ++ each_from (input_words (scene_data scene.now)) 0 (map input_data inputs.now)) }
{
    for (k, input) in inputs.iter().enumerate() {
        push_input(alloc, out, scene, k, input)?;
    }
    Ok(())
}

/// Adds what a job takes.
fn push_takes(
    alloc: Global,
    out: &mut Vec<Word>,
    scene: &Scene<'_>,
    inputs: &[Input],
) -> Result<(), AllocError>
    ensures { OnOk result (map word_data out.new.items
        ≡ map word_data out.old.items ++ takes_words (scene_data scene.now) (map input_data inputs.now)) }
{
    if inputs.is_empty() {
        return push_plain(alloc, out, "takes nothing");
    }
    push_plain(alloc, out, "takes ")?;
    push_each_input(alloc, out, scene, inputs)
}

// ---- outputs

/// Adds the resource at a position, if a job puts it.
fn push_put<'r>(
    found: &mut Vec<(usize, &'r str)>,
    job: &Job,
    k: usize,
    resource: &'r Resource,
) -> Result<(), AllocError>
    ensures { OnOk result (map (λ r. (r.0, r.1.now)) found.new.items ≡ map (λ r. (r.0, r.1.now)) found.old.items
        ++ put_at (job_data job.now).plan k (resource_data resource.now)) }
{
    if puts(&job.plan, resource.name.as_str()) {
        found.push((k, resource.name.as_str()))?;
    }
    Ok(())
}

/// The resources that a job puts, with their positions.
fn puts_of<'r>(
    alloc: Global,
    job: &Job,
    resources: &'r [Resource],
) -> Result<Vec<(usize, &'r str)>, AllocError>
    ensures { IfOk result (λ puts. map (λ r. (r.0, r.1.now)) puts.items
        ≡ puts_of (job_data job.now).plan (map resource_data resources.now)) }
{
    let mut found = Vec::new(alloc);
    for (k, resource) in resources.iter().enumerate() {
        push_put(&mut found, job, k, resource)?;
    }
    Ok(found)
}

/// Adds a resource, behind the others.
fn push_resource(
    alloc: Global,
    out: &mut Vec<Word>,
    k: usize,
    at: usize,
    name: &str,
) -> Result<(), AllocError>
    ensures { OnOk result (map word_data out.new.items ≡ map word_data out.old.items ++ put_word k (at, name.now)) }
{
    let words = String::from_str(alloc, name)?;
    push_separator(alloc, out, ", ", k)?;
    out.push(Word::Resource(at, words))?;
    Ok(())
}

/// Adds resources.
fn push_each_put(
    alloc: Global,
    out: &mut Vec<Word>,
    puts: &[(usize, &str)],
) -> Result<(), AllocError>
    ensures { OnOk result (map word_data out.new.items ≡ map word_data out.old.items
        ++ each_from put_word 0 (map (λ r. (r.0, r.1.now)) puts.now)) }
{
    for (k, put) in puts.iter().enumerate() {
        let (at, name) = *put;
        push_resource(alloc, out, k, at, name)?;
    }
    Ok(())
}

/// Adds what a job puts, if it puts something.
fn push_puts(alloc: Global, out: &mut Vec<Word>, puts: &[(usize, &str)]) -> Result<(), AllocError>
    ensures { OnOk result (map word_data out.new.items
        ≡ map word_data out.old.items ++ puts_words (map (λ r. (r.0, r.1.now)) puts.now)) }
{
    if puts.is_empty() {
        return Ok(());
    }
    push_plain(alloc, out, ". Puts ")?;
    push_each_put(alloc, out, puts)
}

// ---- all

/// Adds what the next build would be.
fn push_next(alloc: Global, out: &mut Vec<Word>, outlook: Outlook) -> Result<(), AllocError>
    ensures { OnOk result (map word_data out.new.items ≡ map word_data out.old.items ++ next_words outlook) }
{
    let mut words = String::from_str(alloc, "; ")?;
    push_outlook(&mut words, outlook)?;
    words.push_str("; ")?;
    push_plain(alloc, out, words.as_str())
}

/// Adds what a job takes and puts.
fn push_plan(
    alloc: Global,
    out: &mut Vec<Word>,
    scene: &Scene<'_>,
    job: &Job,
) -> Result<(), AllocError>
    ensures { let s = scene_data scene.now in let j = job_data job.now in
        OnOk result (map word_data out.new.items ≡ map word_data out.old.items
        ++ (takes_words s (inputs j.plan) ++ puts_words (puts_of j.plan s.pipeline.resources))) }
{
    let inputs = inputs_of(alloc, job)?;
    let puts = puts_of(alloc, job, scene.pipeline.resources())?;
    push_takes(alloc, out, scene, &inputs)?;
    push_puts(alloc, out, &puts)
}

/// What is said of the job at a position, whose newest build is this one.
pub(crate) fn about_words(
    alloc: Global,
    scene: &Scene<'_>,
    at: usize,
    told: &Told<'_>,
    newest: Option<&BuildRef<'_>>,
) -> Result<Vec<Word>, AllocError>
    ensures { IfOk result (λ words. map word_data words.items
        ≡ about_words (scene_data scene.now) at (told_data told.now) (option_copied newest.entry)) }
{
    let mut words = Vec::new(alloc);
    let job = told.job.name.as_str();
    push_newest(alloc, &mut words, newest)?;
    push_good_beside(alloc, &mut words, scene.history, job, at, newest)?;
    push_next(alloc, &mut words, told.explained.outlook)?;
    push_plan(alloc, &mut words, scene, told.job)?;
    Ok(words)
}
