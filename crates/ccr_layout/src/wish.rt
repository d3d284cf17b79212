//! Where nodes wish to be, so that their lines are level.

ghost use Rattle.std.specs.Prelude.{◌≡◌, ℕ, ◌-◌, ◌/◌, ◌<◌, ◌==◌, true, if◌then◌else◌, List, length, map, option_map, IfOk};
ghost use Rattle.std.specs.List.{list_any};
ghost use Rattle.std.specs.Option.{option_or};
ghost use Rattle.ccr_layout.specs.declared.mean.Mean.{Mean};
ghost use Rattle.ccr_layout.specs.Lines.{ends_at_box};
ghost use Rattle.ccr_layout.specs.Means.{nothing, mean_of, mean_got, mean_in, AreAdded};
ghost use Rattle.ccr_layout.specs.Wishes.{wish_in, inside, counts_left, left_mean, left_wish, right_mean, right_wish, is_heard, hears, middle_mean, job_mean};

use crate::at::at;
use crate::graph::MOST_NODES;
use crate::line::{Line, ends};
use crate::mean::{Mean, add_at, clear_at, join_at, mean_at, means_of};
use std::alloc::{AllocError, Global};

/// Heights are counted from so far above the picture, in pixels, since a wish may lie above it.
const ABOVE: u32 = 1024;

/// The wish of a node.
pub(crate) fn wish_at(wishes: &[Option<u32>], node: usize) -> Option<u32>
    ensures { result ≡ wish_in wishes.now node }
{
    wishes.get(node).copied().flatten()
}

// ---- by the lines from the left

/// Whether a line counts: each does, or each that triggers.
fn counts_left(all: bool, line: Line) -> bool
    ensures { result ≡ counts_left all line }
{
    all || line.trigger
}

/// The top at which a line from the left is level, counted from above the picture.
fn left_height(middles: &[u32], line: Line) -> u32
    ensures { mean_of result ≡ left_mean middles.now line }
{
    at(middles, line.from)
        .saturating_add(ABOVE)
        .saturating_sub(line.offset)
}

/// What lines from the left add for the nodes at which they end: all of them, or those that trigger.
fn added_left(
    alloc: Global,
    lines: &[Line],
    middles: &[u32],
    all: bool,
) -> Result<Vec<Mean>, AllocError>
    ensures { IfOk result (λ means. AreAdded (counts_left all) (λ l. l.to) (left_mean middles.now) lines.now
        (length middles.now) means.items) }
{
    let mut means = vec![in alloc; Mean::EMPTY; middles.len()]?;
    for line in lines {
        if counts_left(all, *line) {
            add_at(&mut means, line.to, left_height(middles, *line));
        }
    }
    Ok(means)
}

/// The first of two means that isn't empty.
fn first_mean(first: Mean, second: Mean) -> Option<u32>
    ensures { result ≡ option_or (mean_got first) (mean_got second) }
{
    match first.get() {
        Some(height) => Some(height),
        None => second.get(),
    }
}

/// For each node the top at which its lines from the left are level, or those of them that trigger, if any does,
/// counted from above the picture; none where no line comes from the left. `middles` are the heights in the column
/// before.
pub(crate) fn wishes_left(
    alloc: Global,
    lines: &[Line],
    middles: &[u32],
) -> Result<Vec<Option<u32>>, AllocError>
    ensures long { IfOk result (λ wishes. length wishes.items ≡ length middles.now) }
    ensures each { IfOk result (λ wishes. (k : ℕ) → k < length middles.now
        → wish_in wishes.items k ≡ left_wish middles.now lines.now k) }
{
    let triggers = added_left(alloc, lines, middles, false)?;
    let triggers = triggers.as_slice();
    let all = added_left(alloc, lines, middles, true)?;
    let all = all.as_slice();
    let mut wishes = Vec::new(alloc);
    for node in 0..middles.len() {
        let wish = first_mean(mean_at(triggers, node), mean_at(all, node));
        wishes.push(wish)?;
    }
    Ok(wishes)
}

/// A wish, counted from the top of the picture.
fn inside(wish: Option<u32>) -> Option<u32>
    ensures { result ≡ inside wish }
{
    match wish {
        Some(height) => Some(height.saturating_sub(ABOVE)),
        None => None,
    }
}

/// The same, counted from the top of the picture.
pub(crate) fn in_picture(
    alloc: Global,
    wishes: &[Option<u32>],
) -> Result<Vec<Option<u32>>, AllocError>
    ensures { IfOk result (λ found. found.items ≡ map inside wishes.now) }
{
    wishes.iter().map(|wish| inside(*wish)).collect(alloc)
}

// ---- by the lines to the right

/// The height at which a line to the right ends.
fn right_level(tops: &[u32], line: Line) -> u32
    ensures { mean_of result ≡ right_mean tops.now line }
{
    at(tops, line.to).saturating_add(line.offset)
}

/// What lines to the right add for the nodes from which they lead.
fn added_right(
    alloc: Global,
    leaving: &[Line],
    tops: &[u32],
    nodes: usize,
) -> Result<Vec<Mean>, AllocError>
    ensures { IfOk result (λ means. AreAdded (λ l. true) (λ l. l.from) (right_mean tops.now) leaving.now nodes means.items) }
{
    let mut means = vec![in alloc; Mean::EMPTY; nodes]?;
    for line in leaving {
        add_at(&mut means, line.from, right_level(tops, *line));
    }
    Ok(means)
}

/// Forgets what was added for the nodes at which these lines end.
fn clear_arriving(means: &mut Vec<Mean>, arriving: &[Line])
    ensures long { length means.new.items ≡ length means.old.items }
    ensures each { (k : ℕ) → k < length means.old.items → mean_in means.new.items k
        ≡ (if list_any (λ l. l.to == k) arriving.now then nothing else mean_in means.old.items k) }
{
    for line in arriving {
        clear_at(means, line.to);
    }
}

/// A level, with the middle of a box of this height there.
fn top_for(level: Option<u32>, height: u32) -> Option<u32>
    ensures { result ≡ option_map (λ level. level - height / 2) level }
{
    match level {
        Some(level) => Some(level.saturating_sub(height / 2)),
        None => None,
    }
}

/// For each node the top at which its lines to the right are level; none where it has none, or where lines come from the left.
/// `arriving` are those lines; `leaving` and `tops` are those of the next column.
pub(crate) fn wishes_right(
    alloc: Global,
    arriving: &[Line],
    leaving: &[Line],
    tops: &[u32],
    heights: &[u32],
) -> Result<Vec<Option<u32>>, AllocError>
    ensures long { IfOk result (λ wishes. length wishes.items ≡ length heights.now) }
    ensures each { IfOk result (λ wishes. (k : ℕ) → k < length heights.now
        → wish_in wishes.items k ≡ right_wish arriving.now leaving.now tops.now heights.now k) }
{
    let mut levels = added_right(alloc, leaving, tops, heights.len())?;
    clear_arriving(&mut levels, arriving);
    let levels = levels.as_slice();
    let mut wishes = Vec::new(alloc);
    for node in 0..heights.len() {
        let wish = top_for(mean_at(levels, node).get(), at(heights, node));
        wishes.push(wish)?;
    }
    Ok(wishes)
}

// ---- by what leads to the same boxes

/// Whether a line leads from a node that has a wish to a box.
fn is_heard(wishes: &[Option<u32>], line: Line) -> bool
    ensures { result ≡ is_heard wishes.now line }
{
    ends(line) && wish_at(wishes, line.from).is_some()
}

/// Whether a line leads from a node without a wish to a box.
fn hears(wishes: &[Option<u32>], line: Line) -> bool
    ensures { result ≡ hears wishes.now line }
{
    ends(line) && wish_at(wishes, line.from).is_none()
}

/// What nodes that have a wish add for the boxes to which they lead: their middles.
fn heard_at(
    alloc: Global,
    wishes: &[Option<u32>],
    leaving: &[Line],
    middles: &[u32],
) -> Result<Vec<Mean>, AllocError>
    ensures { IfOk result (λ means. AreAdded (is_heard wishes.now) (λ l. l.to) (middle_mean middles.now) leaving.now
        (length middles.now) means.items) }
{
    let mut means = vec![in alloc; Mean::EMPTY; middles.len()]?;
    for line in leaving {
        if is_heard(wishes, *line) {
            add_at(&mut means, line.to, at(middles, line.from));
        }
    }
    Ok(means)
}

/// What boxes have heard, for the nodes without a wish that lead to them.
fn hearing(
    alloc: Global,
    wishes: &[Option<u32>],
    leaving: &[Line],
    heard: &[Mean],
) -> Result<Vec<Mean>, AllocError>
    ensures { IfOk result (λ means. AreAdded (hears wishes.now) (λ l. l.from) (λ l. mean_in heard.now l.to) leaving.now
        (length heard.now) means.items) }
{
    let mut means = vec![in alloc; Mean::EMPTY; heard.len()]?;
    for line in leaving {
        if hears(wishes, *line) {
            join_at(&mut means, line.from, mean_at(heard, line.to));
        }
    }
    Ok(means)
}

/// For nodes without lines from the left the mean height of the others that lead to the same boxes: `leaving` are their
/// lines, and `middles` their heights.
pub(crate) fn near(
    alloc: Global,
    wishes: &[Option<u32>],
    leaving: &[Line],
    middles: &[u32],
) -> Result<Vec<Option<u32>>, AllocError>
    ensures long { IfOk result (λ near. length near.items ≡ length middles.now) }
    ensures each { IfOk result (λ near. (heard means : List Mean) × (near.items ≡ map mean_got means)
        × AreAdded (is_heard wishes.now) (λ l. l.to) (middle_mean middles.now) leaving.now (length middles.now) heard
        × AreAdded (hears wishes.now) (λ l. l.from) (λ l. mean_in heard l.to) leaving.now (length middles.now) means) }
{
    let heard = heard_at(alloc, wishes, leaving, middles)?;
    let heard = heard.as_slice();
    let means = hearing(alloc, wishes, leaving, heard)?;
    let means = means.as_slice();
    let found = means_of(alloc, means)?;
    Ok(found)
}

/// The job to which a line leads, in steps of 64.
fn job_height(line: Line) -> u32
    ensures { mean_of result ≡ job_mean line }
{
    64 * (line.to.min(MOST_NODES) as u32)
}

/// What lines add for the nodes of the first column: the jobs to which they lead.
fn added_first(alloc: Global, leaving: &[Line], nodes: usize) -> Result<Vec<Mean>, AllocError>
    ensures { IfOk result (λ means. AreAdded ends_at_box (λ l. l.from) job_mean leaving.now nodes means.items) }
{
    let mut means = vec![in alloc; Mean::EMPTY; nodes]?;
    for line in leaving {
        if ends(*line) {
            add_at(&mut means, line.from, job_height(*line));
        }
    }
    Ok(means)
}

/// For nodes of the first column the mean of the jobs in the next to which they lead, with steps of 64.
pub(crate) fn near_first(
    alloc: Global,
    leaving: &[Line],
    nodes: usize,
) -> Result<Vec<Option<u32>>, AllocError>
    ensures long { IfOk result (λ near. length near.items ≡ nodes) }
    ensures each { IfOk result (λ near. (means : List Mean) × (near.items ≡ map mean_got means)
        × AreAdded ends_at_box (λ l. l.from) job_mean leaving.now nodes means) }
{
    let means = added_first(alloc, leaving, nodes)?;
    let means = means.as_slice();
    let found = means_of(alloc, means)?;
    Ok(found)
}
