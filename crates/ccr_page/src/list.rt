//! The lists of jobs that stand still, and of those that go on by themselves.

ghost use Rattle.std.specs.Prelude.{◌≡◌, ◌++◌, ◌∷◌, IfOk, OnOk, option_copied, slice_get, take, drop};
ghost use Rattle.ccr_page.specs.Pieces.{Adds};
ghost use Rattle.ccr_page.specs.Lists.{is_urgent, positions, why_pieces, still_pieces, items_pieces, folded_pieces, more_pieces, list_pieces, still_positions, nothing_still, still_list, still_section, going_list, going_section};
ghost use Rattle.ccr_page.specs.declared.data.Urgency.TheVariants.{Going};

use crate::data::{Job, Urgency, Why};
use crate::piece::Piece::{Kind, Markup, Number};
use crate::piece::push;
use crate::sentence::{push_anchor, push_sentence};
use crate::status::is_as_urgent;
use crate::template::{GOING, STILL};
use std::alloc::{AllocError, Global};

/// How many jobs a list shows before it folds the rest away.
const SHOWN: usize = 12;

/// Whether what stands still is so urgent.
fn is_urgent(urgency: Urgency, why: &Option<Why>) -> bool
    ensures { result ≡ is_urgent urgency why.now }
{
    match why {
        Some(why) => is_as_urgent(urgency, why.urgency),
        None => false,
    }
}

/// Adds the positions of jobs that are so urgent.
fn push_positions(found: &mut Vec<usize>, urgency: Urgency, jobs: &[Job]) -> Result<(), AllocError>
    ensures { OnOk result (found.new.items ≡ found.old.items ++ positions urgency 0 jobs.now) }
{
    for (position, job) in jobs.iter().enumerate() {
        if is_urgent(urgency, &job.why) {
            found.push(position)?;
        }
    }
    Ok(())
}

/// Adds a job and why it stands still.
fn push_why(out: &mut Vec<u8>, position: usize, job: &Job, why: &Why) -> Result<(), AllocError>
    ensures { OnOk result (Adds out.old.items out.new.items (why_pieces position job.now why.now)) }
{
    push(
        out,
        &[Markup("<li class="), Kind(why.urgency), Markup("><b>")],
    )?;
    push_anchor(out, "<a href=#j", position, ">", &job.name)?;
    push(out, &[Markup("</b> ")])?;
    push_sentence(out, &why.words)?;
    push(out, &[Markup(".</li>")])?;
    Ok(())
}

/// Adds the job at a position, if there is one, and why it stands still, if it does.
fn push_still(out: &mut Vec<u8>, jobs: &[Job], position: usize) -> Result<(), AllocError>
    ensures { OnOk result (Adds out.old.items out.new.items (still_pieces jobs.now position)) }
{
    match jobs.get(position) {
        Some(job) => match &job.why {
            Some(why) => push_why(out, position, job, why),
            None => push(out, &[]),
        },
        None => push(out, &[]),
    }
}

/// Adds the jobs at these positions.
fn push_items(out: &mut Vec<u8>, jobs: &[Job], positions: &[usize]) -> Result<(), AllocError>
    ensures { OnOk result (Adds out.old.items out.new.items (items_pieces jobs.now positions.now)) }
{
    for position in positions {
        push_still(out, jobs, *position)?;
    }
    Ok(())
}

/// Adds those that are folded away, with their number.
fn push_folded(out: &mut Vec<u8>, jobs: &[Job], positions: &[usize]) -> Result<(), AllocError>
    ensures { OnOk result (Adds out.old.items out.new.items (folded_pieces jobs.now positions.now)) }
{
    push(
        out,
        &[
            Markup("<details><summary>"),
            Number(positions.len() as u64),
            Markup(" more</summary><ul class=why>"),
        ],
    )?;
    push_items(out, jobs, positions)?;
    push(out, &[Markup("</ul></details>")])?;
    Ok(())
}

/// Adds the same, if there are any.
fn push_more(out: &mut Vec<u8>, jobs: &[Job], positions: &[usize]) -> Result<(), AllocError>
    ensures { OnOk result (Adds out.old.items out.new.items (more_pieces jobs.now positions.now)) }
{
    if positions.is_empty() {
        push(out, &[])
    } else {
        push_folded(out, jobs, positions)
    }
}

/// The first of these, that a list shows.
fn positions_shown(positions: &[usize]) -> &[usize]
    ensures { result.now ≡ take 12 positions.now }
{
    positions.get(..SHOWN).unwrap_or(positions)
}

/// The others, that it folds away.
fn positions_folded(positions: &[usize]) -> &[usize]
    ensures { result.now ≡ drop 12 positions.now }
{
    positions.get(SHOWN..).unwrap_or(&[])
}

/// Adds a list: the first jobs, and the others folded away.
fn push_list(out: &mut Vec<u8>, jobs: &[Job], positions: &[usize]) -> Result<(), AllocError>
    ensures { OnOk result (Adds out.old.items out.new.items (list_pieces jobs.now positions.now)) }
{
    push(out, &[Markup("<ul class=why>")])?;
    push_items(out, jobs, positions_shown(positions))?;
    push(out, &[Markup("</ul>")])?;
    push_more(out, jobs, positions_folded(positions))?;
    Ok(())
}

/// The jobs that stand still: first those that something stopped, then those that a pin or the like holds.
fn still_positions(alloc: Global, jobs: &[Job]) -> Result<Vec<usize>, AllocError>
    ensures { IfOk result (λ found. found.items ≡ still_positions jobs.now) }
{
    let mut found = Vec::new(alloc);
    push_positions(&mut found, Urgency::Stopped, jobs)?;
    push_positions(&mut found, Urgency::Held, jobs)?;
    Ok(found)
}

/// Adds that no job stands still, where there are jobs.
fn push_nothing_still(out: &mut Vec<u8>, jobs: &[Job]) -> Result<(), AllocError>
    ensures { OnOk result (Adds out.old.items out.new.items (nothing_still jobs.now)) }
{
    if jobs.is_empty() {
        push(out, &[])
    } else {
        push(out, &[Markup("<p class=ok>Nothing stands still.</p>\n")])
    }
}

/// Adds the list of those that stand still.
fn push_still_list(out: &mut Vec<u8>, jobs: &[Job], positions: &[usize]) -> Result<(), AllocError>
    ensures { OnOk result (Adds out.old.items out.new.items (still_list jobs.now positions.now)) }
{
    push(out, &[Markup(STILL)])?;
    push_list(out, jobs, positions)?;
    push(out, &[Markup("</section>\n")])?;
    Ok(())
}

/// Adds what stands still.
fn push_still_section(
    out: &mut Vec<u8>,
    jobs: &[Job],
    positions: &[usize],
) -> Result<(), AllocError>
    ensures { OnOk result (Adds out.old.items out.new.items (still_section jobs.now positions.now)) }
{
    if positions.is_empty() {
        push_nothing_still(out, jobs)
    } else {
        push_still_list(out, jobs, positions)
    }
}

/// Adds the list of those that go on by themselves.
fn push_going_list(out: &mut Vec<u8>, jobs: &[Job], positions: &[usize]) -> Result<(), AllocError>
    ensures { OnOk result (Adds out.old.items out.new.items (going_list jobs.now positions.now)) }
{
    push(out, &[Markup(GOING)])?;
    push_list(out, jobs, positions)?;
    push(out, &[Markup("</section>\n")])?;
    Ok(())
}

/// Adds what goes on by itself.
fn push_going_section(
    out: &mut Vec<u8>,
    jobs: &[Job],
    positions: &[usize],
) -> Result<(), AllocError>
    ensures { OnOk result (Adds out.old.items out.new.items (going_section jobs.now positions.now)) }
{
    if positions.is_empty() {
        push(out, &[])
    } else {
        push_going_list(out, jobs, positions)
    }
}

/// Adds what stands still, and what goes on by itself.
pub(crate) fn push_lists(alloc: Global, out: &mut Vec<u8>, jobs: &[Job]) -> Result<(), AllocError>
    ensures { OnOk result (Adds out.old.items out.new.items
        (still_section jobs.now (still_positions jobs.now) ++ going_section jobs.now (positions Going 0 jobs.now))) }
{
    let still = still_positions(alloc, jobs)?;
    let mut going = Vec::new(alloc);
    push_positions(&mut going, Urgency::Going, jobs)?;
    push_still_section(out, jobs, &still)?;
    push_going_section(out, jobs, &going)?;
    Ok(())
}
