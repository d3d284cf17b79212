//! The jobs of a page.

ghost use Rattle.std.specs.Prelude.{OnOk, flat_map};
ghost use Rattle.ccr_page.specs.Pieces.{Adds};
ghost use Rattle.ccr_page.specs.Each.{each_from};
ghost use Rattle.ccr_page.specs.Jobs.{bar_pieces, job_open, job_pieces, jobs_list, jobs_section};

use crate::data::{Bar, Job};
use crate::piece::Piece::{Class, Markup, Number, Shown};
use crate::piece::push;
use crate::sentence::push_sentence;
use crate::template::JOBS;
use std::alloc::AllocError;

/// Adds a build of the job at a position, which leads to its row if it has one.
fn push_bar(out: &mut Vec<u8>, position: usize, bar: Bar) -> Result<(), AllocError>
    ensures { OnOk result (Adds out.old.items out.new.items (bar_pieces position bar)) }
{
    if bar.has_row {
        push(
            out,
            &[
                Markup("<li class="),
                Class(bar.status),
                Markup("><a href=#b"),
                Number(position as u64),
                Markup("-"),
                Number(bar.number as u64),
                Markup(">"),
                Number(bar.number as u64),
                Markup("</a>"),
            ],
        )
    } else {
        push(
            out,
            &[
                Markup("<li class="),
                Class(bar.status),
                Markup(">"),
                Number(bar.number as u64),
            ],
        )
    }
}

/// Adds the last builds of the job at a position.
fn push_bars(out: &mut Vec<u8>, position: usize, bars: &[Bar]) -> Result<(), AllocError>
    ensures { OnOk result (Adds out.old.items out.new.items (flat_map (bar_pieces position) bars.now)) }
{
    for bar in bars {
        push_bar(out, position, *bar)?;
    }
    Ok(())
}

/// Adds the beginning of a job: its name, coloured by its newest build.
fn push_job_open<'a>(out: &mut Vec<u8>, position: usize, job: &'a Job) -> Result<(), AllocError>
    ensures { OnOk result (Adds out.old.items out.new.items (job_open position job.now)) }
{
    push(
        out,
        &[
            Markup("<article id=\"j"),
            Number(position as u64),
            Markup("\"><h3 class="),
            Class(job.status),
            Markup(">"),
            Shown(&job.name),
            Markup("</h3><p>"),
        ],
    )
}

/// Adds a job: its name, what is said of it, and its last builds.
fn push_job(out: &mut Vec<u8>, position: usize, job: &Job) -> Result<(), AllocError>
    ensures { OnOk result (Adds out.old.items out.new.items (job_pieces position job.now)) }
{
    push_job_open(out, position, job)?;
    push_sentence(out, &job.about)?;
    push(out, &[Markup("<ol>")])?;
    push_bars(out, position, &job.bars)?;
    push(out, &[Markup("</ol></article>\n")])?;
    Ok(())
}

/// Adds each of these jobs.
fn push_each_job(out: &mut Vec<u8>, jobs: &[Job]) -> Result<(), AllocError>
    ensures { OnOk result (Adds out.old.items out.new.items (each_from job_pieces 0 jobs.now)) }
{
    for position in 0..jobs.len() {
        push_job(out, position, &jobs[position])?;
    }
    Ok(())
}

/// Adds the list of jobs.
fn push_job_list(out: &mut Vec<u8>, jobs: &[Job]) -> Result<(), AllocError>
    ensures { OnOk result (Adds out.old.items out.new.items (jobs_list jobs.now)) }
{
    push(out, &[Markup(JOBS)])?;
    push_each_job(out, jobs)?;
    push(out, &[Markup("</section>\n")])?;
    Ok(())
}

/// Adds the jobs, if there are any.
pub(crate) fn push_jobs(out: &mut Vec<u8>, jobs: &[Job]) -> Result<(), AllocError>
    ensures { OnOk result (Adds out.old.items out.new.items (jobs_section jobs.now)) }
{
    if jobs.is_empty() {
        push(out, &[])
    } else {
        push_job_list(out, jobs)
    }
}
