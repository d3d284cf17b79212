//! The beginning of a page: its head, the counts of its jobs, what runs right now, and when it was made.

ghost use Rattle.std.specs.Prelude.{◌≡◌, OnOk, count_by, string_bytes};
ghost use Rattle.std.specs.List.{list_any};
ghost use Rattle.ccr_page.specs.Pieces.{Adds};
ghost use Rattle.ccr_page.specs.Heads.{count_of, is_still, still_count, is_there, is_any, state_piece, noted_pieces, state_pieces, worst, refresh_pieces, title_end, head_pieces, has_picture, skip_pieces, sum_pieces, sums_pieces, plural, standing_pieces, stands_pieces, heading, now_pieces, made_pieces, header_pieces};

use crate::data::{Job, Page, Urgency, Why};
use crate::piece::Piece::{Class, Colour, Markup, Number, Shown, Standing};
use crate::piece::push;
use crate::status::{Status, is_as_urgent};
use crate::template::{BODY, CSS, HEAD, ICON, SKIP, STYLE, TITLE};
use std::alloc::AllocError;

/// All statuses, the worst first.
const ALL: [Status; 6] = [
    Status::Failed,
    Status::Errored,
    Status::Aborted,
    Status::Running,
    Status::Succeeded,
    Status::Missing,
];

// ---- counts

/// How many jobs' newest builds stand so.
fn count_of(status: Status, jobs: &[Job]) -> usize
    ensures { result ≡ count_of status jobs.now }
{
    jobs.iter().filter(|job| status.is(job.status)).count()
}

/// Whether a job stands still, and needs somebody.
pub(crate) fn is_still(why: &Option<Why>) -> bool
    ensures { result ≡ is_still why.now }
{
    match why {
        Some(why) => !is_as_urgent(Urgency::Going, why.urgency),
        None => false,
    }
}

/// Whether this job stands still, and needs somebody.
fn stands_still(job: &Job) -> bool
    ensures { result ≡ is_still job.now.why }
{
    is_still(&job.why)
}

/// How many jobs stand still.
pub(crate) fn still_count(jobs: &[Job]) -> usize
    ensures { result ≡ still_count jobs.now }
{
    let mut count = 0;
    for job in jobs {
        if stands_still(job) {
            count += 1;
        }
    }
    count
}

// ---- the tab's words and dot

/// Whether some job's newest build stands so.
fn is_there(jobs: &[Job], status: Status) -> bool
    ensures { result ≡ is_there jobs.now status }
{
    jobs.iter().any(|job| status.is(job.status))
}

/// Whether some job's newest build stands in one of these ways.
fn is_any(statuses: &[Status], jobs: &[Job]) -> bool
    ensures { result ≡ is_any statuses.now jobs.now }
{
    statuses.iter().any(|status| is_there(jobs, *status))
}

/// Adds how many jobs stand so, unless none does; behind a comma where some stand in one of the ways before.
fn push_state(
    out: &mut Vec<u8>,
    before: &[Status],
    status: Status,
    jobs: &[Job],
) -> Result<(), AllocError>
    ensures { OnOk result (Adds out.old.items out.new.items (state_piece before.now status jobs.now)) }
{
    let count = count_of(status, jobs);
    if count == 0 {
        push(out, &[])
    } else if is_any(before, jobs) {
        push(
            out,
            &[
                Markup(", "),
                Number(count as u64),
                Markup(" "),
                Standing(status),
            ],
        )
    } else {
        push(out, &[Number(count as u64), Markup(" "), Standing(status)])
    }
}

/// Adds how many jobs' newest builds aren't good.
fn push_noted(out: &mut Vec<u8>, jobs: &[Job]) -> Result<(), AllocError>
    ensures { OnOk result (Adds out.old.items out.new.items (noted_pieces jobs.now)) }
{
    push_state(out, &[], Status::Failed, jobs)?;
    push_state(out, &[Status::Failed], Status::Errored, jobs)?;
    push_state(
        out,
        &[Status::Failed, Status::Errored],
        Status::Aborted,
        jobs,
    )?;
    push_state(
        out,
        &[Status::Failed, Status::Errored, Status::Aborted],
        Status::Running,
        jobs,
    )?;
    Ok(())
}

/// Adds how the jobs stand, in words.
fn push_states(out: &mut Vec<u8>, jobs: &[Job]) -> Result<(), AllocError>
    ensures { OnOk result (Adds out.old.items out.new.items (state_pieces jobs.now)) }
{
    let noted = [
        Status::Failed,
        Status::Errored,
        Status::Aborted,
        Status::Running,
    ];
    if is_any(&noted, jobs) {
        push_noted(out, jobs)
    } else if jobs.is_empty() {
        push(out, &[Markup("no jobs")])
    } else {
        push(out, &[Markup("all succeeded")])
    }
}

/// The worst of the ways in which jobs stand.
fn worst(jobs: &[Job]) -> Status
    ensures { result ≡ worst jobs.now }
{
    if is_there(jobs, Status::Failed) {
        Status::Failed
    } else if is_there(jobs, Status::Errored) {
        Status::Errored
    } else if is_there(jobs, Status::Aborted) {
        Status::Aborted
    } else if is_there(jobs, Status::Running) {
        Status::Running
    } else if is_there(jobs, Status::Succeeded) {
        Status::Succeeded
    } else {
        Status::Missing
    }
}

// ---- the head

/// Adds after how many seconds the page is to be read again.
fn push_refresh(out: &mut Vec<u8>, refresh: Option<u32>) -> Result<(), AllocError>
    ensures { OnOk result (Adds out.old.items out.new.items (refresh_pieces refresh)) }
{
    match refresh {
        Some(seconds) => push(
            out,
            &[
                Markup("<meta http-equiv=\"refresh\" content=\""),
                Number(seconds as u64),
                Markup("\">\n"),
            ],
        ),
        None => push(out, &[]),
    }
}

/// Adds the title, and what follows it: the tab's dot and the style.
fn push_title_end<'a>(out: &mut Vec<u8>, title: &'a String, worst: Status) -> Result<(), AllocError>
    ensures { OnOk result (Adds out.old.items out.new.items (title_end (string_bytes title.now) worst)) }
{
    push(
        out,
        &[
            Markup(": "),
            Shown(title),
            Markup(ICON),
            Colour(worst),
            Markup(STYLE),
            Markup(CSS),
            Markup(BODY),
        ],
    )
}

/// Adds the head.
pub(crate) fn push_head(out: &mut Vec<u8>, page: &Page) -> Result<(), AllocError>
    ensures { OnOk result (Adds out.old.items out.new.items (head_pieces page.entry.now)) }
{
    let worst = worst(&page.jobs);
    push(out, &[Markup(HEAD)])?;
    push_refresh(out, page.refresh)?;
    push(out, &[Markup(TITLE)])?;
    push_states(out, &page.jobs)?;
    push_title_end(out, &page.title, worst)?;
    Ok(())
}

// ---- the header

/// Whether a page has a picture, which can be skipped.
pub(crate) fn has_picture(page: &Page) -> bool
    ensures { result ≡ has_picture page.entry.now }
{
    page.has_pipeline && !(page.jobs.is_empty() && page.resources.is_empty())
}

/// Adds the link that skips the picture.
fn push_skip(out: &mut Vec<u8>, page: &Page) -> Result<(), AllocError>
    ensures { OnOk result (Adds out.old.items out.new.items (skip_pieces page.entry.now)) }
{
    if has_picture(page) {
        push(out, &[Markup(SKIP)])
    } else {
        push(out, &[])
    }
}

/// Adds how many jobs stand so, unless none does.
fn push_sum(out: &mut Vec<u8>, jobs: &[Job], status: Status) -> Result<(), AllocError>
    ensures { OnOk result (Adds out.old.items out.new.items (sum_pieces jobs.now status)) }
{
    let count = count_of(status, jobs);
    if count == 0 {
        push(out, &[])
    } else {
        push(
            out,
            &[
                Markup("<li class="),
                Class(status),
                Markup("><b>"),
                Number(count as u64),
                Markup("</b> "),
                Standing(status),
                Markup("</li>"),
            ],
        )
    }
}

/// Adds the same of each status.
fn push_sums(out: &mut Vec<u8>, jobs: &[Job], statuses: &[Status]) -> Result<(), AllocError>
    ensures { OnOk result (Adds out.old.items out.new.items (sums_pieces jobs.now statuses.now)) }
{
    for status in statuses {
        push_sum(out, jobs, *status)?;
    }
    Ok(())
}

/// Adds the verb behind a number.
fn push_verb(out: &mut Vec<u8>, count: usize) -> Result<(), AllocError>
    ensures { OnOk result (Adds out.old.items out.new.items (plural count)) }
{
    if count == 1 {
        push(out, &[Markup("</b> stands still</a></li>")])
    } else {
        push(out, &[Markup("</b> stand still</a></li>")])
    }
}

/// Adds how many jobs stand still.
fn push_standing(out: &mut Vec<u8>, count: usize) -> Result<(), AllocError>
    ensures { OnOk result (Adds out.old.items out.new.items (standing_pieces count)) }
{
    push(
        out,
        &[Markup("<li class=w><a href=#hs><b>"), Number(count as u64)],
    )?;
    push_verb(out, count)?;
    Ok(())
}

/// Adds the same, unless none does.
fn push_stands(out: &mut Vec<u8>, count: usize) -> Result<(), AllocError>
    ensures { OnOk result (Adds out.old.items out.new.items (stands_pieces count)) }
{
    if count == 0 {
        push(out, &[])
    } else {
        push_standing(out, count)
    }
}

/// Adds the beginning of the header: the title.
fn push_heading<'a>(out: &mut Vec<u8>, title: &'a String) -> Result<(), AllocError>
    ensures { OnOk result (Adds out.old.items out.new.items (heading (string_bytes title.now))) }
{
    push(
        out,
        &[
            Markup("<header><h1>"),
            Shown(title),
            Markup("</h1><ul class=sum>"),
        ],
    )
}

/// Adds the end of the counts, and what runs right now, if that is told.
fn push_now<'a>(out: &mut Vec<u8>, words: &'a Option<String>) -> Result<(), AllocError>
    ensures { OnOk result (Adds out.old.items out.new.items (now_pieces words.now)) }
{
    match words {
        Some(words) => push(
            out,
            &[
                Markup("</ul><p class=now>now: "),
                Shown(words),
                Markup("</p>"),
            ],
        ),
        None => push(out, &[Markup("</ul>")]),
    }
}

/// Adds the end of the header: when the page was made, if that is told.
fn push_made<'a>(out: &mut Vec<u8>, made: &'a Option<String>) -> Result<(), AllocError>
    ensures { OnOk result (Adds out.old.items out.new.items (made_pieces made.now)) }
{
    match made {
        Some(words) => push(
            out,
            &[
                Markup("<p>made "),
                Shown(words),
                Markup("</p></header>\n<main>\n"),
            ],
        ),
        None => push(out, &[Markup("</header>\n<main>\n")]),
    }
}

/// Adds the header.
pub(crate) fn push_header(out: &mut Vec<u8>, page: &Page) -> Result<(), AllocError>
    ensures { OnOk result (Adds out.old.items out.new.items (header_pieces page.entry.now)) }
{
    let still = still_count(&page.jobs);
    push_skip(out, page)?;
    push_heading(out, &page.title)?;
    push_sums(out, &page.jobs, &ALL)?;
    push_stands(out, still)?;
    push_now(out, &page.now)?;
    push_made(out, &page.made)?;
    Ok(())
}
