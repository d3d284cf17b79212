//! Why a job stands still, in a sentence.
ghost use Rattle.std.specs.Prelude.{◌≡◌, ◌++◌, ◌∷◌, [], true, codes, nat_lt, if◌then◌else◌, Option, length, map, filter, string_bytes, option_map, IfOk, OnOk};
ghost use Rattle.std.specs.Option.{option_copied};
ghost use Rattle.ccr_pipeline.specs.Inputs.{input_data, inputs};
ghost use Rattle.ccr_pipeline.specs.JobData.{job_data};
ghost use Rattle.ccr_lines.specs.Lines.{status_word};
ghost use Rattle.ccr_overview.specs.Each.{each_from};
ghost use Rattle.ccr_lines.specs.Live.{live_of};
ghost use Rattle.ccr_overview.specs.Holds.{hold_data, holds, urgent_ones};
ghost use Rattle.ccr_overview.specs.PageData.{Plain, word_data, why_data};
ghost use Rattle.ccr_overview.specs.Scenes.{told_data, scene_data};
ghost use Rattle.ccr_overview.specs.PageRows.{used_for};
ghost use Rattle.ccr_overview.specs.Sentences.{build_row, running_why, only, due_of, due_words, none_why, budget_words, took_same, stays, start_words, told_hold, more_words, holds_words, is_bad, took_on, on_words, stopped_words, bad_words, alone_words, beside_words, bad_why, held_by, held_why, ended_why, standing_why, outlook_why, why_of};

use crate::hold::{Hold, holds, push_hold_words, push_resource, urgent_holds, worst};
use crate::row::used_for;
use crate::scene::{Scene, Told};
use crate::short::push_version;
use crate::stopping::{is_same, pair_of};
use crate::wait::none_words;
use crate::word::{counted, numbered, push_plain, push_row};
use ccr_history::{BuildRef, History, Status};
use ccr_lines::{Outlook, Sought, Taken, newest_of, word_of};
use ccr_page::{Urgency, Why, Word};
use ccr_pipeline::{Input, Job, inputs_of};
use std::alloc::{AllocError, Global};

// ---- the next build

/// Adds the newest build of the job at a position.
fn push_build(
    alloc: Global,
    out: &mut Vec<Word>,
    at: usize,
    build: &BuildRef<'_>,
) -> Result<(), AllocError>
    ensures { OnOk result (map word_data out.new.items ≡ map word_data out.old.items ++ build_row at build.now ∷ []) }
{
    let words = numbered(alloc, "build ", build.number())?;
    push_row(out, at, build.number(), words)
}

/// That the newest build of the job at a position runs.
fn running_why(alloc: Global, at: usize, build: &BuildRef<'_>) -> Result<Why, AllocError>
    ensures { IfOk result (λ why. why_data why ≡ running_why at build.now) }
{
    let mut words = Vec::new(alloc);
    push_plain(alloc, &mut words, "is running ")?;
    push_build(alloc, &mut words, at, build)?;
    Ok(Why {
        urgency: Urgency::Going,
        words,
    })
}

/// What the only input takes, if there is only one.
fn only_taken(inputs: &[Taken]) -> Option<&Taken>
    ensures { option_copied result ≡ only inputs.now }
{
    if inputs.len() == 1 {
        inputs.first()
    } else {
        None
    }
}

/// That a build is due.
fn due_words(alloc: Global, inputs: &[Taken]) -> Result<Vec<Word>, AllocError>
    ensures { IfOk result (λ words. map word_data words.items ≡ due_words inputs.now) }
{
    let mut words = Vec::new(alloc);
    match only_taken(inputs) {
        Some(taken) => {
            push_plain(alloc, &mut words, "is due: the next round builds ")?;
            push_version(alloc, &mut words, taken.version.as_ref(), taken.place)?;
        }
        None => push_plain(alloc, &mut words, "is due in the next round")?,
    }
    Ok(words)
}

/// That there is no choice of versions, and why.
fn none_why(alloc: Global, scene: &Scene<'_>, told: &Told<'_>) -> Result<Why, AllocError>
    ensures { IfOk result (λ why. why_data why ≡ none_why (scene_data scene.now) (told_data told.now)) }
{
    let inputs = inputs_of(alloc, told.job)?;
    let words = none_words(alloc, scene, &inputs, &told.explained.why)?;
    Ok(Why {
        urgency: Urgency::Stopped,
        words,
    })
}

/// That the search went over the budget.
fn budget_words(alloc: Global) -> Result<Vec<Word>, AllocError>
    ensures { IfOk result (λ words. map word_data words.items ≡ budget_words) }
{
    let mut words = Vec::new(alloc);
    push_plain(
        alloc,
        &mut words,
        "isn't decided: the search goes over the budget; --budget N allows more",
    )?;
    Ok(words)
}

// ---- what holds it

/// Whether a build took for an input the version that the next build would take.
fn took_same(scene: &Scene<'_>, taken: &Taken, build: &BuildRef<'_>) -> bool
    ensures { result ≡ took_same (scene_data scene.now) taken.now (used_for build.now (taken.now).name) }
{
    match used_for(build, taken.name.as_str()) {
        Some((scope, place)) => is_same(pair_of(scene, taken, taken.place), (scope, place)),
        None => false,
    }
}

/// Whether an input stays at a version: the newest good build took it, and the next build would take it.
fn stays(scene: &Scene<'_>, taken: &Taken, live: Option<&BuildRef<'_>>) -> bool
    ensures { result ≡ stays (scene_data scene.now) taken.now (option_copied live.entry) }
{
    match live {
        Some(build) => took_same(scene, taken, build),
        None => false,
    }
}

/// The words before what an input of a job takes that schedules build.
fn scheduled_words(same: bool, position: usize) -> &'static str
    ensures { result.now ≡ start_words true same position }
{
    if same {
        if position == 0 {
            "stays at "
        } else {
            "; stays at "
        }
    } else if position == 0 {
        "would take "
    } else {
        "; would take "
    }
}

/// The words before what holds an input.
fn start_words(by_itself: bool, same: bool, position: usize) -> &'static str
    ensures { result.now ≡ start_words by_itself same position }
{
    if by_itself {
        scheduled_words(same, position)
    } else if position == 0 {
        "is built by command only; the next build would take "
    } else {
        "; "
    }
}

/// Adds what holds an input of a job with this newest good build, behind the others; nothing behind the first three.
fn push_told(
    alloc: Global,
    out: &mut Vec<Word>,
    scene: &Scene<'_>,
    live: Option<&BuildRef<'_>>,
    several: bool,
    by_itself: bool,
    position: usize,
    hold: &Hold<'_>,
) -> Result<(), AllocError>
    ensures { OnOk result (map word_data out.new.items ≡ map word_data out.old.items
        ++ told_hold (scene_data scene.now) (option_copied live.entry) several by_itself position
        (hold_data hold.now)) }
{
    if position >= 3 {
        return Ok(());
    }
    let same = stays(scene, hold.taken, live);
    push_plain(alloc, out, start_words(by_itself, same, position))?;
    push_hold_words(alloc, out, scene, several, hold)
}

/// Adds what holds these inputs: the first three.
fn push_each(
    alloc: Global,
    out: &mut Vec<Word>,
    scene: &Scene<'_>,
    live: Option<&BuildRef<'_>>,
    several: bool,
    by_itself: bool,
    holds: &[Hold<'_>],
) -> Result<(), AllocError>
    ensures { OnOk result (map word_data out.new.items ≡ map word_data out.old.items
        ++ each_from (told_hold (scene_data scene.now) (option_copied live.entry) several by_itself) 0
        (map hold_data holds.now)) }
{
    for (position, hold) in holds.iter().enumerate() {
        push_told(alloc, out, scene, live, several, by_itself, position, hold)?;
    }
    Ok(())
}

/// Adds that there are more, if there are.
fn push_more(alloc: Global, out: &mut Vec<Word>, more: usize) -> Result<(), AllocError>
    ensures { OnOk result (map word_data out.new.items ≡ map word_data out.old.items ++ more_words more) }
{
    if more == 0 {
        return Ok(());
    }
    let words = counted(alloc, "; and ", more, " more")?;
    push_plain(alloc, out, words.as_str())
}

/// Adds what holds the inputs of a job: the first three, and how many more there are.
fn push_holds(
    alloc: Global,
    out: &mut Vec<Word>,
    scene: &Scene<'_>,
    live: Option<&BuildRef<'_>>,
    several: bool,
    by_itself: bool,
    holds: &[Hold<'_>],
) -> Result<(), AllocError>
    ensures { OnOk result (map word_data out.new.items ≡ map word_data out.old.items
        ++ holds_words (scene_data scene.now) (option_copied live.entry) several by_itself
        (map hold_data holds.now)) }
{
    push_each(alloc, out, scene, live, several, by_itself, holds)?;
    push_more(alloc, out, holds.len().saturating_sub(3))
}

/// Adds the most urgent of what holds the inputs of a job.
fn push_urgent(
    alloc: Global,
    out: &mut Vec<Word>,
    scene: &Scene<'_>,
    live: Option<&BuildRef<'_>>,
    by_itself: bool,
    inputs: &[Taken],
    urgency: Urgency,
) -> Result<(), AllocError>
    ensures { let s = scene_data scene.now in let ts = inputs.now in
        OnOk result (map word_data out.new.items ≡ map word_data out.old.items
        ++ holds_words s (option_copied live.entry) (nat_lt 1 (length ts)) by_itself
        (urgent_ones urgency (holds s ts))) }
{
    let told = urgent_holds(alloc, scene, urgency, inputs)?;
    push_holds(alloc, out, scene, live, inputs.len() > 1, by_itself, &told)?;
    Ok(())
}

// ---- a build that wasn't good

/// Whether a build failed, errored or was aborted.
fn is_bad(status: Status) -> bool
    ensures { result ≡ is_bad status }
{
    match status {
        Status::Failed | Status::Errored | Status::Aborted => true,
        Status::Running | Status::Succeeded => false,
    }
}

/// Adds an input, if it makes builds by itself.
fn push_trigger<'i>(all: &mut Vec<&'i Input>, input: &'i Input) -> Result<(), AllocError>
    ensures { OnOk result (map (λ i. input_data i.now) all.new.items ≡ map (λ i. input_data i.now) all.old.items
        ++ (if (input_data input.now).trigger then input_data input.now ∷ [] else [])) }
{
    if input.trigger {
        all.push(input)?;
    }
    Ok(())
}

/// The inputs that make builds by themselves.
fn triggers<'i>(alloc: Global, inputs: &'i [Input]) -> Result<Vec<&'i Input>, AllocError>
    ensures { IfOk result (λ all. map (λ i. input_data i.now) all.items
        ≡ filter (λ i. i.trigger) (map input_data inputs.now)) }
{
    let mut all = Vec::new(alloc);
    for input in inputs {
        push_trigger(&mut all, input)?;
    }
    Ok(all)
}

/// The only one of these inputs, if there is only one.
fn only_input<'i>(inputs: &[&'i Input]) -> Option<&'i Input>
    ensures { option_map (λ i. input_data i.now) result ≡ only (map (λ i. input_data i.now) inputs.now) }
{
    if inputs.len() == 1 {
        Some(inputs[0])
    } else {
        None
    }
}

/// Adds the version that a build took for an input, if it took one.
fn push_took(
    alloc: Global,
    out: &mut Vec<Word>,
    history: &History,
    build: &BuildRef<'_>,
    name: &str,
) -> Result<(), AllocError>
    ensures { OnOk result (map word_data out.new.items ≡ map word_data out.old.items
        ++ on_words history.now (nat_lt 1 (length build.now.used)) (used_for build.now name.now)) }
{
    let Some((scope, place)) = used_for(build, name) else {
        return Ok(());
    };
    push_plain(alloc, out, " on ")?;
    push_resource(alloc, out, build.used_count() > 1, name)?;
    push_version(alloc, out, history.version_at(scope, place), place)
}

/// Adds the version on which a build wasn't good.
fn push_on(
    alloc: Global,
    out: &mut Vec<Word>,
    history: &History,
    job: &Job,
    build: &BuildRef<'_>,
) -> Result<(), AllocError>
    ensures { OnOk result (map word_data out.new.items ≡ map word_data out.old.items
        ++ on_words history.now (nat_lt 1 (length build.now.used)) (took_on build.now (inputs (job_data job.now).plan))) }
{
    let inputs = inputs_of(alloc, job)?;
    let triggers = triggers(alloc, &inputs)?;
    match only_input(&triggers) {
        Some(input) => push_took(alloc, out, history, build, input.name.as_str())?,
        None => {}
    }
    Ok(())
}

/// Adds how a build stands, behind its number.
fn push_status(alloc: Global, out: &mut Vec<Word>, status: Status) -> Result<(), AllocError>
    ensures { OnOk result (map word_data out.new.items
        ≡ map word_data out.old.items ++ Plain (codes " " ++ status_word status) ∷ []) }
{
    let mut words = String::from_str(alloc, " ")?;
    words.push_str(word_of(status))?;
    push_plain(alloc, out, words.as_str())
}

/// Adds the newest build of the job at a position, and how it stands.
fn push_stopped(
    alloc: Global,
    out: &mut Vec<Word>,
    at: usize,
    build: &BuildRef<'_>,
) -> Result<(), AllocError>
    ensures { OnOk result (map word_data out.new.items ≡ map word_data out.old.items ++ stopped_words at build.now) }
{
    push_plain(alloc, out, "stopped: ")?;
    push_build(alloc, out, at, build)?;
    push_status(alloc, out, build.status())
}

/// The newest build of the job at a position, how it stands, and on which version.
fn bad_words(
    alloc: Global,
    history: &History,
    at: usize,
    job: &Job,
    build: &BuildRef<'_>,
) -> Result<Vec<Word>, AllocError>
    ensures { IfOk result (λ words. map word_data words.items ≡ bad_words history.now at (job_data job.now) build.now) }
{
    let mut words = Vec::new(alloc);
    push_stopped(alloc, &mut words, at, build)?;
    push_on(alloc, &mut words, history, job, build)?;
    Ok(words)
}

/// That nothing holds an input of the job.
fn alone_words(by_itself: bool) -> &'static str
    ensures { result.now ≡ alone_words by_itself }
{
    if by_itself {
        ", and nothing newer has come"
    } else {
        ", and only a command makes the next"
    }
}

/// Adds what holds inputs of a job that are so urgent, behind a semicolon.
fn push_further(
    alloc: Global,
    out: &mut Vec<Word>,
    scene: &Scene<'_>,
    live: Option<&BuildRef<'_>>,
    by_itself: bool,
    inputs: &[Taken],
    urgency: Urgency,
) -> Result<(), AllocError>
    ensures { let s = scene_data scene.now in let ts = inputs.now in
        OnOk result (map word_data out.new.items ≡ map word_data out.old.items
        ++ Plain (codes "; ") ∷ holds_words s (option_copied live.entry) (nat_lt 1 (length ts)) by_itself
        (urgent_ones urgency (holds s ts))) }
{
    push_plain(alloc, out, "; ")?;
    push_urgent(alloc, out, scene, live, by_itself, inputs, urgency)
}

/// Adds what else holds a job, pins and the like included; or that nothing holds an input of it.
fn push_beside(
    alloc: Global,
    out: &mut Vec<Word>,
    scene: &Scene<'_>,
    live: Option<&BuildRef<'_>>,
    by_itself: bool,
    inputs: &[Taken],
) -> Result<(), AllocError>
    ensures { let s = scene_data scene.now in let ts = inputs.now in
        OnOk result (map word_data out.new.items ≡ map word_data out.old.items
        ++ beside_words s (option_copied live.entry) by_itself ts (holds s ts)) }
{
    let all = holds(alloc, scene, inputs)?;
    if all.is_empty() {
        return push_plain(alloc, out, alone_words(by_itself));
    }
    push_further(alloc, out, scene, live, by_itself, inputs, worst(&all))
}

/// The newest good build of a job.
fn live_of<'h>(scene: &Scene<'h>, told: &Told<'_>) -> Option<BuildRef<'h>>
    ensures { result ≡ live_of (told_data told.now).job.name (scene_data scene.now).history }
{
    newest_of(scene.history, Sought::Succeeded, told.job.name.as_str())
}

/// That a job's newest build wasn't good, where this is its newest good one.
fn bad_beside(
    alloc: Global,
    scene: &Scene<'_>,
    at: usize,
    told: &Told<'_>,
    live: Option<&BuildRef<'_>>,
    by_itself: bool,
    build: &BuildRef<'_>,
) -> Result<Vec<Word>, AllocError>
    ensures { let s = scene_data scene.now in let t = told_data told.now in
        IfOk result (λ words. map word_data words.items ≡ bad_words s.history at t.job build.now
        ++ beside_words s (option_copied live.entry) by_itself t.explained.inputs (holds s t.explained.inputs)) }
{
    let mut words = bad_words(alloc, scene.history, at, told.job, build)?;
    push_beside(
        alloc,
        &mut words,
        scene,
        live,
        by_itself,
        &told.explained.inputs,
    )?;
    Ok(words)
}

/// That a job's newest build wasn't good.
fn bad_why(
    alloc: Global,
    scene: &Scene<'_>,
    at: usize,
    told: &Told<'_>,
    by_itself: bool,
    build: &BuildRef<'_>,
) -> Result<Why, AllocError>
    ensures { IfOk result (λ why. why_data why
        ≡ bad_why (scene_data scene.now) at (told_data told.now) by_itself build.now) }
{
    let live = live_of(scene, told);
    let words = bad_beside(alloc, scene, at, told, live.as_ref(), by_itself, build)?;
    Ok(Why {
        urgency: Urgency::Stopped,
        words,
    })
}

/// What holds the inputs of a job, the most urgent of which is so urgent.
fn urgent_why(
    alloc: Global,
    scene: &Scene<'_>,
    live: Option<&BuildRef<'_>>,
    by_itself: bool,
    inputs: &[Taken],
    urgency: Urgency,
) -> Result<Why, AllocError>
    ensures { let s = scene_data scene.now in let ts = inputs.now in
        IfOk result (λ why. why_data why ≡ record {
          urgency = urgency;
          words =
              holds_words s (option_copied live.entry) (nat_lt 1 (length ts)) by_itself
              (urgent_ones urgency (holds s ts));
        }) }
{
    let mut words = Vec::new(alloc);
    push_urgent(alloc, &mut words, scene, live, by_itself, inputs, urgency)?;
    Ok(Why { urgency, words })
}

/// What holds the inputs of a job with this newest good build, if something does.
fn held_by(
    alloc: Global,
    scene: &Scene<'_>,
    live: Option<&BuildRef<'_>>,
    by_itself: bool,
    inputs: &[Taken],
) -> Result<Option<Why>, AllocError>
    ensures { let s = scene_data scene.now in let ts = inputs.now in
        IfOk result (λ why. option_map why_data why
        ≡ held_by s (option_copied live.entry) by_itself ts (holds s ts)) }
{
    let all = holds(alloc, scene, inputs)?;
    if all.is_empty() {
        return Ok(None);
    }
    let why = urgent_why(alloc, scene, live, by_itself, inputs, worst(&all))?;
    Ok(Some(why))
}

/// What holds the inputs of a job, if something does.
fn held_why(
    alloc: Global,
    scene: &Scene<'_>,
    by_itself: bool,
    told: &Told<'_>,
) -> Result<Option<Why>, AllocError>
    ensures { IfOk result (λ why. option_map why_data why
        ≡ held_why (scene_data scene.now) by_itself (told_data told.now)) }
{
    let live = live_of(scene, told);
    held_by(
        alloc,
        scene,
        live.as_ref(),
        by_itself,
        &told.explained.inputs,
    )
}

/// Why a job has no newer build, where its newest one has ended.
fn ended_why(
    alloc: Global,
    scene: &Scene<'_>,
    at: usize,
    told: &Told<'_>,
    by_itself: bool,
    build: &BuildRef<'_>,
) -> Result<Option<Why>, AllocError>
    ensures { IfOk result (λ why. option_map why_data why
        ≡ ended_why (scene_data scene.now) at (told_data told.now) by_itself build.now) }
{
    if is_bad(build.status()) {
        let why = bad_why(alloc, scene, at, told, by_itself, build)?;
        return Ok(Some(why));
    }
    held_why(alloc, scene, by_itself, told)
}

/// The same of a job that may have no build: nothing is said of one that only a command builds.
fn standing_why(
    alloc: Global,
    scene: &Scene<'_>,
    at: usize,
    told: &Told<'_>,
    by_itself: bool,
    newest: Option<&BuildRef<'_>>,
) -> Result<Option<Why>, AllocError>
    ensures { IfOk result (λ why. option_map why_data why
        ≡ standing_why (scene_data scene.now) at (told_data told.now) by_itself (option_copied newest.entry)) }
{
    if let Some(build) = newest {
        return ended_why(alloc, scene, at, told, by_itself, build);
    }
    if by_itself {
        held_why(alloc, scene, by_itself, told)
    } else {
        Ok(None)
    }
}

// ---- the table

/// Why a job has no newer build, by what its next build would be.
fn outlook_why(
    alloc: Global,
    scene: &Scene<'_>,
    at: usize,
    told: &Told<'_>,
    newest: Option<&BuildRef<'_>>,
    outlook: Outlook,
) -> Result<Option<Why>, AllocError>
    ensures { IfOk result (λ why. option_map why_data why
        ≡ outlook_why (scene_data scene.now) at (told_data told.now) (option_copied newest.entry) outlook) }
{
    match outlook {
        Outlook::Due => Ok(Some(Why {
            urgency: Urgency::Going,
            words: due_words(alloc, &told.explained.inputs)?,
        })),
        Outlook::NothingNew => standing_why(alloc, scene, at, told, true, newest),
        Outlook::ByCommandOnly => standing_why(alloc, scene, at, told, false, newest),
        Outlook::NoneSatisfies => Ok(Some(none_why(alloc, scene, told)?)),
        Outlook::OverBudget(_) => Ok(Some(Why {
            urgency: Urgency::Stopped,
            words: budget_words(alloc)?,
        })),
    }
}

/// Why the job at a position stands still, whose newest build is this one.
pub(crate) fn why_of(
    alloc: Global,
    scene: &Scene<'_>,
    at: usize,
    told: &Told<'_>,
    newest: Option<&BuildRef<'_>>,
) -> Result<Option<Why>, AllocError>
    ensures { IfOk result (λ why. option_map why_data why
        ≡ why_of (scene_data scene.now) at (told_data told.now) (option_copied newest.entry)) }
{
    let outlook = told.explained.outlook;
    let Some(build) = newest else {
        return outlook_why(alloc, scene, at, told, newest, outlook);
    };
    match build.status() {
        Status::Running => Ok(Some(running_why(alloc, at, build)?)),
        Status::Succeeded | Status::Failed | Status::Errored | Status::Aborted => {
            outlook_why(alloc, scene, at, told, newest, outlook)
        }
    }
}
