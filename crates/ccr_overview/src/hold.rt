//! What holds an input of a job at an older version than there is, by what `explain` says.
ghost use Rattle.std.specs.Prelude.{◌≡◌, ◌++◌, ◌∷◌, [], if◌then◌else◌, map, option_map, IfOk, OnOk};
ghost use Rattle.std.specs.List.{list_any};
ghost use Rattle.std.specs.Option.{option_copied};
ghost use Rattle.ccr_history.specs.Builds.{is_running};
ghost use Rattle.ccr_lines.specs.JobsJson.{is_due};
ghost use Rattle.ccr_lines.specs.Releases.{is_pair};
ghost use Rattle.ccr_lines.specs.Stops.{stop_data};
ghost use Rattle.ccr_page.specs.Statuses.{urgency_rank, is_as_urgent};
ghost use Rattle.ccr_overview.specs.Holds.{refused, stands_said, takes_pair, refuses_pair, takes_due, has_due, has_refused, unbuilt_said, stop_words, is_pinned_words, unmet_words, other_words, reason_words, is_held_words, is_due_job, goes_on, reason_urgency, hold_data, hold_of, hold_in, holds, resource_words, hold_words, has_urgency, worst, urgent_ones};
ghost use Rattle.ccr_overview.specs.PageData.{Plain, word_data};
ghost use Rattle.ccr_overview.specs.Scenes.{told_data, scene_data};
ghost use Rattle.ccr_overview.specs.Stopping.{pair_of};

use crate::clash::behind_clash;
use crate::linked::{push_build, push_job};
use crate::scene::{Scene, Told};
use crate::short::push_version;
use crate::stopping::{is_same, pair_of, stop_said};
use crate::word::{push_name, push_plain, push_text};
use ccr_history::Status;
use ccr_lines::{Outlook, Refusal, Stop, Taken};
use ccr_page::{Urgency, Word};
use std::alloc::{AllocError, Global};

/// What holds an input.
#[derive(Drop)]
pub(crate) struct Hold<'t> {
    /// What it takes.
    pub(crate) taken: &'t Taken,
    /// A newer place that it doesn't take.
    pub(crate) refusal: &'t Refusal,
    /// Where that stopped, if `explain` says so.
    pub(crate) stop: Option<Stop>,
    pub(crate) urgency: Urgency,
}

// ---- where it stopped

/// How a build stands that has a version, between the two.
fn stands_said(status: Status) -> &'static str
    ensures { result.now ≡ stands_said status }
{
    match status {
        Status::Running => " is running with ",
        Status::Succeeded => " succeeded without ",
        Status::Failed => " failed on ",
        Status::Errored => " errored on ",
        Status::Aborted => " aborted on ",
    }
}

/// Whether an input takes a pair of scope and place.
fn takes_pair(scene: &Scene<'_>, pair: (u32, u32), taken: &Taken) -> bool
    ensures { result ≡ takes_pair (scene_data scene.now) pair taken.now }
{
    is_same(pair, pair_of(scene, taken, taken.place))
}

/// Whether a pair of scope and place is one of these that an input doesn't take.
fn is_among(scene: &Scene<'_>, pair: (u32, u32), taken: &Taken, newer: &[Refusal]) -> bool
    ensures { let s = scene_data scene.now in result
        ≡ list_any (λ r. is_pair pair (pair_of s taken.now r.place)) newer.now }
{
    for refusal in newer {
        if is_same(pair, pair_of(scene, taken, refusal.place)) {
            return true;
        }
    }
    false
}

/// Whether an input says why it doesn't take a pair of scope and place, which is newer than what it takes.
fn refuses_pair(scene: &Scene<'_>, pair: (u32, u32), taken: &Taken) -> bool
    ensures { result ≡ refuses_pair (scene_data scene.now) pair taken.now }
{
    is_among(scene, pair, taken, &taken.newer)
}

/// Whether one of these inputs takes a pair of scope and place.
fn has_taker(scene: &Scene<'_>, pair: (u32, u32), inputs: &[Taken]) -> bool
    ensures { result ≡ list_any (takes_pair (scene_data scene.now) pair) inputs.now }
{
    for taken in inputs {
        if takes_pair(scene, pair, taken) {
            return true;
        }
    }
    false
}

/// Whether one of these inputs says why it doesn't take a pair of scope and place.
fn has_refuser(scene: &Scene<'_>, pair: (u32, u32), inputs: &[Taken]) -> bool
    ensures { result ≡ list_any (refuses_pair (scene_data scene.now) pair) inputs.now }
{
    for taken in inputs {
        if refuses_pair(scene, pair, taken) {
            return true;
        }
    }
    false
}

/// Whether a job is due with a pair of scope and place.
fn takes_due(scene: &Scene<'_>, pair: (u32, u32), told: &Told<'_>) -> bool
    ensures { result ≡ takes_due (scene_data scene.now) pair (told_data told.now) }
{
    is_due(told.explained.outlook) && has_taker(scene, pair, &told.explained.inputs)
}

/// Whether one of these is the job of a name, and due with a pair of scope and place.
fn has_due(scene: &Scene<'_>, all: &[Told<'_>], name: &str, pair: (u32, u32)) -> bool
    ensures { result ≡ has_due (scene_data scene.now) name.now pair (map told_data all.now) }
{
    for it in all {
        if name == it.job.name.as_str() && takes_due(scene, pair, it) {
            return true;
        }
    }
    false
}

/// Whether one of these is the job of a name, and has an input that says why it doesn't take a pair of scope and place.
fn has_refused(scene: &Scene<'_>, all: &[Told<'_>], name: &str, pair: (u32, u32)) -> bool
    ensures { result ≡ has_refused (scene_data scene.now) name.now pair (map told_data all.now) }
{
    for it in all {
        if name == it.job.name.as_str() && has_refuser(scene, pair, &it.explained.inputs) {
            return true;
        }
    }
    false
}

/// How the job of a name stands to a version that no build of it has, between the two.
fn unbuilt_said(scene: &Scene<'_>, name: &str, pair: (u32, u32)) -> &'static str
    ensures { result.now ≡ unbuilt_said (scene_data scene.now) name.now pair }
{
    if has_due(scene, scene.told, name, pair) {
        " is due with "
    } else if has_refused(scene, scene.told, name, pair) {
        " doesn't take "
    } else {
        " hasn't built "
    }
}

/// Adds where a version stopped, up to the version.
fn push_stop(
    alloc: Global,
    out: &mut Vec<Word>,
    scene: &Scene<'_>,
    pair: (u32, u32),
    job: &str,
    build: Option<(u32, Status)>,
) -> Result<(), AllocError>
    ensures { OnOk result (map word_data out.new.items
        ≡ map word_data out.old.items ++ stop_words (scene_data scene.now) pair job.now build) }
{
    match build {
        Some((number, status)) => {
            push_build(alloc, out, scene, job, number)?;
            push_plain(alloc, out, stands_said(status))
        }
        None => {
            push_job(alloc, out, scene, job)?;
            push_plain(alloc, out, unbuilt_said(scene, job, pair))
        }
    }
}

// ---- the reason

/// Whether these words say that a pin leaves out a version.
fn is_pinned_words(words: &str) -> bool
    ensures { result ≡ is_pinned_words words.now }
{
    words == "pinned by pin-resource"
        || words == "pinned by the resource"
        || words == "pinned by the get"
}

/// Adds a version, and words behind it.
fn push_behind(
    alloc: Global,
    out: &mut Vec<Word>,
    refusal: &Refusal,
    words: &str,
) -> Result<(), AllocError>
    ensures { OnOk result (map word_data out.new.items
        ≡ map word_data out.old.items ++ refused refusal.now ∷ Plain words.now ∷ []) }
{
    push_version(alloc, out, refusal.version.as_ref(), refusal.place)?;
    push_plain(alloc, out, words)
}

/// Between a version and demands that exclude each other.
const UNMET: &str = " can't be taken, since these can't all hold: ";

/// Adds a version, and demands that exclude each other, if there are any, or else words.
fn push_unmet(
    alloc: Global,
    out: &mut Vec<Word>,
    refusal: &Refusal,
    demands: Option<&str>,
) -> Result<(), AllocError>
    ensures { OnOk result (map word_data out.new.items ≡ map word_data out.old.items
        ++ unmet_words (refused refusal.now) (refusal.now).words (option_map (λ d. d.now) demands.entry)) }
{
    match demands {
        Some(demands) => {
            push_behind(alloc, out, refusal, UNMET)?;
            push_text(alloc, out, demands, 200)
        }
        None => {
            push_behind(alloc, out, refusal, ": ")?;
            push_text(alloc, out, refusal.words.as_str(), 200)
        }
    }
}

/// Adds a version that an input doesn't take, by the words of `explain`.
fn push_other(alloc: Global, out: &mut Vec<Word>, refusal: &Refusal) -> Result<(), AllocError>
    ensures { OnOk result (map word_data out.new.items
        ≡ map word_data out.old.items ++ other_words (refused refusal.now) (refusal.now).words) }
{
    let words = refusal.words.as_str();
    if words == "disabled" {
        return push_behind(alloc, out, refusal, " is disabled");
    }
    if words == "others come first" {
        return push_behind(alloc, out, refusal, " has its turn later");
    }
    if is_pinned_words(words) {
        push_plain(alloc, out, "a pin leaves out ")?;
        return push_version(alloc, out, refusal.version.as_ref(), refusal.place);
    }
    push_unmet(alloc, out, refusal, behind_clash(words))
}

/// Adds why an input doesn't take a place: where it stopped, or else what `explain` says.
fn push_reason(
    alloc: Global,
    out: &mut Vec<Word>,
    scene: &Scene<'_>,
    taken: &Taken,
    refusal: &Refusal,
    found: Option<&Stop>,
) -> Result<(), AllocError>
    ensures { let stop = option_map stop_data (option_copied found.entry) in
        OnOk result (map word_data out.new.items
        ≡ map word_data out.old.items ++ reason_words (scene_data scene.now) taken.now refusal.now stop) }
{
    match found {
        Some(stop) => {
            let pair = pair_of(scene, taken, refusal.place);
            push_stop(alloc, out, scene, pair, stop.job.as_str(), stop.build)?;
            push_version(alloc, out, refusal.version.as_ref(), refusal.place)
        }
        None => push_other(alloc, out, refusal),
    }
}

// ---- how urgent it is

/// Whether these words say that a pin or the like leaves out a version.
fn is_held_words(words: &str) -> bool
    ensures { result ≡ is_held_words words.now }
{
    words == "disabled" || words == "others come first" || is_pinned_words(words)
}

/// Whether a schedule would make a build.
fn is_due(outlook: Outlook) -> bool
    ensures { result ≡ is_due outlook }
{
    match outlook {
        Outlook::Due => true,
        Outlook::NothingNew
        | Outlook::ByCommandOnly
        | Outlook::NoneSatisfies
        | Outlook::OverBudget(_) => false,
    }
}

/// Whether the job of a name is due.
fn is_due_job(told: &[Told<'_>], name: &str) -> bool
    ensures { result ≡ is_due_job (map told_data told.now) name.now }
{
    for it in told {
        if name == it.job.name.as_str() && is_due(it.explained.outlook) {
            return true;
        }
    }
    false
}

/// Whether a build runs.
fn is_running(status: Status) -> bool
    ensures { result ≡ is_running status }
{
    match status {
        Status::Running => true,
        Status::Succeeded | Status::Failed | Status::Errored | Status::Aborted => false,
    }
}

/// Whether a version goes on by itself that stopped at a job, or in a build of it.
fn goes_on(told: &[Told<'_>], job: &str, build: Option<(u32, Status)>) -> bool
    ensures { result ≡ goes_on (map told_data told.now) job.now build }
{
    match build {
        Some((_, status)) => is_running(status),
        None => is_due_job(told, job),
    }
}

/// How urgent it is that an input doesn't take a place, which stopped there, or else of which these are the words.
fn reason_urgency(told: &[Told<'_>], words: &str, found: Option<&Stop>) -> Urgency
    ensures { result
        ≡ reason_urgency (map told_data told.now) words.now (option_map stop_data (option_copied found.entry)) }
{
    match found {
        Some(stop) => {
            if goes_on(told, stop.job.as_str(), stop.build) {
                Urgency::Going
            } else {
                Urgency::Stopped
            }
        }
        None => {
            if is_held_words(words) {
                Urgency::Held
            } else {
                Urgency::Stopped
            }
        }
    }
}

// ---- one input

/// What holds an input that doesn't take a newer place.
fn hold_of<'t>(
    alloc: Global,
    scene: &Scene<'_>,
    taken: &'t Taken,
    refusal: &'t Refusal,
) -> Result<Hold<'t>, AllocError>
    ensures { IfOk result (λ h. hold_data h ≡ hold_of (scene_data scene.now) taken.now refusal.now) }
{
    let stop = stop_said(alloc, scene, taken, refusal)?;
    let urgency = reason_urgency(scene.told, refusal.words.as_str(), stop.as_ref());
    Ok(Hold {
        taken,
        refusal,
        stop,
        urgency,
    })
}

/// Adds what holds an input, if something does.
fn push_hold<'t>(
    alloc: Global,
    out: &mut Vec<Hold<'t>>,
    scene: &Scene<'_>,
    taken: &'t Taken,
) -> Result<(), AllocError>
    ensures { OnOk result (map hold_data out.new.items
        ≡ map hold_data out.old.items ++ hold_in (scene_data scene.now) taken.now (taken.now).newer) }
{
    match taken.newer.first() {
        Some(refusal) => {
            let hold = hold_of(alloc, scene, taken, refusal)?;
            out.push(hold)?;
            Ok(())
        }
        None => Ok(()),
    }
}

/// What holds the inputs of a job.
pub(crate) fn holds<'t>(
    alloc: Global,
    scene: &Scene<'_>,
    inputs: &'t [Taken],
) -> Result<Vec<Hold<'t>>, AllocError>
    ensures { IfOk result (λ all. map hold_data all.items ≡ holds (scene_data scene.now) inputs.now) }
{
    let mut all = Vec::new(alloc);
    for taken in inputs {
        push_hold(alloc, &mut all, scene, taken)?;
    }
    Ok(all)
}

// ---- in words

/// Adds the name of a resource or an input, where there are several.
pub(crate) fn push_resource(
    alloc: Global,
    out: &mut Vec<Word>,
    several: bool,
    name: &str,
) -> Result<(), AllocError>
    ensures { OnOk result (map word_data out.new.items
        ≡ map word_data out.old.items ++ resource_words several name.now) }
{
    if !several {
        return Ok(());
    }
    push_name(alloc, out, name, 40)?;
    push_plain(alloc, out, " ")
}

/// Adds what an input takes, and why nothing newer.
pub(crate) fn push_hold_words(
    alloc: Global,
    out: &mut Vec<Word>,
    scene: &Scene<'_>,
    several: bool,
    hold: &Hold<'_>,
) -> Result<(), AllocError>
    ensures { OnOk result (map word_data out.new.items
        ≡ map word_data out.old.items ++ hold_words (scene_data scene.now) several (hold_data hold.now)) }
{
    let taken = hold.taken;
    push_resource(alloc, out, several, taken.resource.as_str())?;
    push_version(alloc, out, taken.version.as_ref(), taken.place)?;
    push_plain(alloc, out, ": ")?;
    push_reason(alloc, out, scene, taken, hold.refusal, hold.stop.as_ref())
}

// ---- together

/// The rank of an urgency.
fn rank(urgency: Urgency) -> u8
    ensures { result ≡ urgency_rank urgency }
{
    match urgency {
        Urgency::Stopped => 0,
        Urgency::Held => 1,
        Urgency::Going => 2,
    }
}

/// Whether two are the same.
pub(crate) fn is_as_urgent(one: Urgency, other: Urgency) -> bool
    ensures { result ≡ is_as_urgent one other }
{
    rank(one) == rank(other)
}

/// Whether one of these is so urgent.
fn has_urgency(urgency: Urgency, holds: &[Hold<'_>]) -> bool
    ensures { result ≡ has_urgency urgency (map hold_data holds.now) }
{
    for hold in holds {
        if is_as_urgent(urgency, hold.urgency) {
            return true;
        }
    }
    false
}

/// The most urgent of these.
pub(crate) fn worst(holds: &[Hold<'_>]) -> Urgency
    ensures { result ≡ worst (map hold_data holds.now) }
{
    if has_urgency(Urgency::Stopped, holds) {
        Urgency::Stopped
    } else if has_urgency(Urgency::Held, holds) {
        Urgency::Held
    } else {
        Urgency::Going
    }
}

/// Adds what holds an input that doesn't take a newer place, if it is so urgent.
fn push_if_urgent<'t>(
    out: &mut Vec<Hold<'t>>,
    urgency: Urgency,
    hold: Hold<'t>,
) -> Result<(), AllocError>
    ensures { OnOk result (map hold_data out.new.items
        ≡ map hold_data out.old.items
        ++ (if is_as_urgent urgency (hold_data hold.entry).urgency then hold_data hold.entry ∷ [] else [])) }
{
    if is_as_urgent(urgency, hold.urgency) {
        out.push(hold)?;
    }
    Ok(())
}

/// Adds what holds an input, if something does that is so urgent.
fn push_urgent<'t>(
    alloc: Global,
    out: &mut Vec<Hold<'t>>,
    scene: &Scene<'_>,
    urgency: Urgency,
    taken: &'t Taken,
) -> Result<(), AllocError>
    ensures { OnOk result (map hold_data out.new.items ≡ map hold_data out.old.items
        ++ urgent_ones urgency (hold_in (scene_data scene.now) taken.now (taken.now).newer)) }
{
    match taken.newer.first() {
        Some(refusal) => {
            let hold = hold_of(alloc, scene, taken, refusal)?;
            push_if_urgent(out, urgency, hold)
        }
        None => Ok(()),
    }
}

/// What holds the inputs of a job and is so urgent.
pub(crate) fn urgent_holds<'t>(
    alloc: Global,
    scene: &Scene<'_>,
    urgency: Urgency,
    inputs: &'t [Taken],
) -> Result<Vec<Hold<'t>>, AllocError>
    ensures { IfOk result (λ all. map hold_data all.items ≡ urgent_ones urgency (holds (scene_data scene.now) inputs.now)) }
{
    let mut all = Vec::new(alloc);
    for taken in inputs {
        push_urgent(alloc, &mut all, scene, urgency, taken)?;
    }
    Ok(all)
}
