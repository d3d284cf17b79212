//! The builds of a page, and what they took.

ghost use Rattle.std.specs.Prelude.{◌≡◌, OnOk, flat_map, string_bytes};
ghost use Rattle.ccr_page.specs.Texts.{Stays};
ghost use Rattle.ccr_page.specs.Pieces.{Adds, written};
ghost use Rattle.ccr_page.specs.Each.{each_from};
ghost use Rattle.ccr_page.specs.Builds.{cell_pieces, rest_words, rest_pieces, log_link, log_cell, log_pieces, row_open, row_pieces, has_rest, column_pieces, rest_head, log_head, table_pieces, builds_pieces, has_rows, builds_tables, builds_section};

use crate::data::{Cell, Job, Page, Row};
use crate::piece::Piece::{Class, Cut, Isolated, Link, Markup, Number, Shown, Standing, Way};
use crate::piece::push;
use crate::sentence::push_sentence;
use crate::template::{BUILDS, NOTE};
use std::alloc::AllocError;

// ---- one build

/// Adds what a build took for an input, if it took something.
fn push_cell<'a>(out: &mut Vec<u8>, cell: &'a Option<Cell>) -> Result<(), AllocError>
    ensures { OnOk result (Adds out.old.items out.new.items (cell_pieces cell.now)) }
{
    match cell {
        Some(cell) => push(
            out,
            &[
                Markup("<td>"),
                Number(cell.place as u64),
                Markup(" "),
                Cut(&cell.short, 18),
            ],
        ),
        None => push(out, &[Markup("<td>")]),
    }
}

/// Adds what a build took for each of the inputs.
fn push_cells(out: &mut Vec<u8>, cells: &[Option<Cell>]) -> Result<(), AllocError>
    ensures { OnOk result (Adds out.old.items out.new.items (flat_map cell_pieces cells.now)) }
{
    for cell in cells {
        push_cell(out, cell)?;
    }
    Ok(())
}

/// Adds through which builds that went together, and what was put.
fn push_rest_words(out: &mut Vec<u8>, row: &Row) -> Result<(), AllocError>
    ensures { OnOk result (Adds out.old.items out.new.items (rest_words row.now)) }
{
    push(out, &[Markup("<td>")])?;
    push_sentence(out, &row.rest)?;
    Ok(())
}

/// Adds the same, if there is a column for it.
fn push_rest(out: &mut Vec<u8>, has_rest: bool, row: &Row) -> Result<(), AllocError>
    ensures { OnOk result (Adds out.old.items out.new.items (rest_pieces has_rest row.now)) }
{
    if has_rest {
        push_rest_words(out, row)
    } else {
        push(out, &[])
    }
}

/// Adds the link to the log of a build: whatever the texts are, it stays at the server of its page.
fn push_log_link<'a>(
    out: &mut Vec<u8>,
    directory: &'a String,
    job: &'a String,
    number: u32,
) -> Result<(), AllocError>
    ensures written { OnOk result (Adds out.old.items out.new.items
        (log_link (string_bytes directory.now) (string_bytes job.now) number)) }
    ensures stays { Stays (written (log_link (string_bytes directory.now) (string_bytes job.now) number)) }
{
    push(
        out,
        &[
            Way(directory),
            Markup("/"),
            Link(job),
            Markup("/"),
            Number(number as u64),
            Markup("/"),
        ],
    )
}

/// Adds the cell with the link to a log.
fn push_log_cell(
    out: &mut Vec<u8>,
    directory: &String,
    job: &Job,
    number: u32,
) -> Result<(), AllocError>
    ensures { OnOk result (Adds out.old.items out.new.items
        (log_cell (string_bytes directory.now) (string_bytes job.now.name) number)) }
{
    push(out, &[Markup("<td><a href=\"")])?;
    push_log_link(out, directory, &job.name, number)?;
    push(out, &[Markup("\">log</a>")])?;
    Ok(())
}

/// Adds the same, if it's known where logs are.
fn push_log(
    out: &mut Vec<u8>,
    logs: &Option<String>,
    job: &Job,
    number: u32,
) -> Result<(), AllocError>
    ensures { OnOk result (Adds out.old.items out.new.items (log_pieces logs.now job.now number)) }
{
    match logs {
        Some(directory) => push_log_cell(out, directory, job, number),
        None => push(out, &[]),
    }
}

/// Adds the beginning of a build's row: its number, and how it stands.
fn push_row_open(out: &mut Vec<u8>, position: usize, row: &Row) -> Result<(), AllocError>
    ensures { OnOk result (Adds out.old.items out.new.items (row_open position row.now)) }
{
    push(
        out,
        &[
            Markup("<tr id=b"),
            Number(position as u64),
            Markup("-"),
            Number(row.number as u64),
            Markup("><th class="),
            Class(row.status),
            Markup(">"),
            Number(row.number as u64),
            Markup(" "),
            Standing(row.status),
        ],
    )
}

/// Adds a build of the job at a position.
fn push_row(
    out: &mut Vec<u8>,
    page: &Page,
    position: usize,
    job: &Job,
    has_rest: bool,
    row: &Row,
) -> Result<(), AllocError>
    ensures { OnOk result (Adds out.old.items out.new.items
        (row_pieces page.entry.now position job.now has_rest row.now)) }
{
    push_row_open(out, position, row)?;
    push_cells(out, &row.cells)?;
    push_rest(out, has_rest, row)?;
    push_log(out, &page.logs, job, row.number)?;
    Ok(())
}

/// Adds the builds of the job at a position.
fn push_rows(
    out: &mut Vec<u8>,
    page: &Page,
    position: usize,
    job: &Job,
    has_rest: bool,
) -> Result<(), AllocError>
    ensures { OnOk result (Adds out.old.items out.new.items
        (flat_map (row_pieces page.entry.now position job.now has_rest) job.now.rows.items)) }
{
    for row in job.rows.as_slice() {
        push_row(out, page, position, job, has_rest, row)?;
    }
    Ok(())
}

// ---- one job

/// Whether some build of these went together with others, or put something.
fn has_rest(rows: &[Row]) -> bool
    ensures { result ≡ has_rest rows.now }
{
    for row in rows {
        if !row.rest.is_empty() {
            return true;
        }
    }
    false
}

/// Adds the names of inputs, each at the head of its column.
fn push_columns<'a>(out: &mut Vec<u8>, columns: &'a [String]) -> Result<(), AllocError>
    ensures { OnOk result (Adds out.old.items out.new.items (flat_map column_pieces columns.now)) }
{
    for column in columns {
        push(out, &[Markup("<th>"), Isolated(column, 30)])?;
    }
    Ok(())
}

/// Adds the head of the column for what went together, if there is one.
fn push_rest_head(out: &mut Vec<u8>, has_rest: bool) -> Result<(), AllocError>
    ensures { OnOk result (Adds out.old.items out.new.items (rest_head has_rest)) }
{
    if has_rest {
        push(out, &[Markup("<th>together, and put")])
    } else {
        push(out, &[])
    }
}

/// Adds the head of the column of logs, if there is one.
fn push_log_head(out: &mut Vec<u8>, logs: &Option<String>) -> Result<(), AllocError>
    ensures { OnOk result (Adds out.old.items out.new.items (log_head logs.now)) }
{
    match logs {
        Some(_) => push(out, &[Markup("<th>log")]),
        None => push(out, &[]),
    }
}

/// Adds the builds of a job, in a table.
fn push_table<'a>(
    out: &mut Vec<u8>,
    page: &'a Page,
    position: usize,
    job: &'a Job,
) -> Result<(), AllocError>
    ensures { OnOk result (Adds out.old.items out.new.items (table_pieces page.entry.now position job.now)) }
{
    let has_rest = has_rest(job.rows.as_slice());
    push(
        out,
        &[
            Markup("<table><caption>"),
            Shown(&job.name),
            Markup("</caption><tr><th>build"),
        ],
    )?;
    push_columns(out, &job.columns)?;
    push_rest_head(out, has_rest)?;
    push_log_head(out, &page.logs)?;
    push_rows(out, page, position, job, has_rest)?;
    push(out, &[Markup("</table>\n")])?;
    Ok(())
}

/// Adds the builds of a job, if any has a row.
fn push_builds_of(
    out: &mut Vec<u8>,
    page: &Page,
    position: usize,
    job: &Job,
) -> Result<(), AllocError>
    ensures { OnOk result (Adds out.old.items out.new.items (builds_pieces page.entry.now position job.now)) }
{
    if job.rows.is_empty() {
        push(out, &[])
    } else {
        push_table(out, page, position, job)
    }
}

// ---- all

/// Whether some build has a row.
fn has_rows(jobs: &[Job]) -> bool
    ensures { result ≡ has_rows jobs.now }
{
    for job in jobs {
        if !job.rows.is_empty() {
            return true;
        }
    }
    false
}

/// Adds the builds of each job.
fn push_each(out: &mut Vec<u8>, page: &Page, jobs: &[Job]) -> Result<(), AllocError>
    ensures { OnOk result (Adds out.old.items out.new.items (each_from (builds_pieces page.entry.now) 0 jobs.now)) }
{
    for position in 0..jobs.len() {
        push_builds_of(out, page, position, &jobs[position])?;
    }
    Ok(())
}

/// Adds the tables of builds.
fn push_tables(out: &mut Vec<u8>, page: &Page) -> Result<(), AllocError>
    ensures { OnOk result (Adds out.old.items out.new.items (builds_tables page.entry.now)) }
{
    push(
        out,
        &[Markup(BUILDS), Number(page.row_count as u64), Markup(NOTE)],
    )?;
    push_each(out, page, &page.jobs)?;
    push(out, &[Markup("</section>\n")])?;
    Ok(())
}

/// Adds the builds, if any has a row.
pub(crate) fn push_builds(out: &mut Vec<u8>, page: &Page) -> Result<(), AllocError>
    ensures { OnOk result (Adds out.old.items out.new.items (builds_section page.entry.now)) }
{
    if has_rows(&page.jobs) {
        push_tables(out, page)
    } else {
        push(out, &[])
    }
}
