//! A page is made: the database is read, and not opened.
ghost use Rattle.std.specs.Prelude.{◌≡◌, ◌≤◌, ◌++◌, [], not, IfOk, option_map, string_bytes};
ghost use Rattle.ccr_core.specs.Cores.{core_data};
ghost use Rattle.ccr_overview.specs.Overviews.{options_data};
ghost use Rattle.ccr_proof.specs.declared.proof.TheConstants.{MOST_NODES};
ghost use Rattle.ccr_run.specs.Explained.{nothing_told, told_data, TellsLines};
ghost use Rattle.ccr_run.specs.Looked.{Looked};
ghost use Rattle.ccr_run.specs.Paged.{IsCorePage, PagedOf, made_at, overview_options, page_told};
ghost use Rattle.ccr_run.specs.Statuses.{exit_status_of};
ghost use Rattle.ccr_run.specs.declared.run.Outcome.{Outcome as OutcomeData};

use crate::failure::Failure;
use crate::found::print;
use crate::look::see;
use crate::opener::FileOpener;
use crate::opening::Opens;
use crate::order::PageOrder;
use crate::run::Outcome;
use crate::tell::tell;
use crate::telling::Telling;
use ccr_core::Core;
use ccr_lines::Printed;
use ccr_look::Scratch;
use ccr_overview::{Options, overview};
use ccr_page::page_of;
use sqlite::{FileStore, Start};
use sqlite_trees::store::Store as Trees;
use std::alloc::{AllocError, Global};
use std::io::Write;

/// A copy of a text, if there is one.
fn copied(alloc: Global, text: Option<&str>) -> Result<Option<String>, AllocError>
    ensures { IfOk result (λ copied. option_map string_bytes copied ≡ option_map (λ t. t.now) text.entry) }
{
    match text {
        Some(text) => Ok(Some(String::from_str(alloc, text)?)),
        None => Ok(None),
    }
}

/// When a page is made: as the words say, or else what the clock says.
fn made_at<'a>(words: Option<&'a str>, clock: Option<&'a str>) -> Option<&'a str>
    ensures { option_map (λ t. t.now) result
        ≡ made_at (option_map (λ t. t.now) words.entry) (option_map (λ t. t.now) clock.entry) }
{
    match words {
        Some(words) => Some(words),
        None => clock,
    }
}

/// What a page is to say of itself.
fn options_of(
    alloc: Global,
    order: &PageOrder<'_>,
    clock: Option<&str>,
) -> Result<Options, AllocError>
    ensures { IfOk result (λ options.
        options_data options ≡ overview_options order.now (option_map (λ t. t.now) clock.entry)) }
{
    Ok(Options {
        title: String::from_str(alloc, order.page.title)?,
        made: copied(alloc, made_at(order.page.made, clock))?,
        now: copied(alloc, order.page.now)?,
        refresh: order.page.refresh,
        logs: copied(alloc, order.page.logs)?,
    })
}

/// The bytes of a core's page.
fn bytes_of(
    alloc: Global,
    core: &Core,
    order: &PageOrder<'_>,
    clock: Option<&str>,
) -> Result<Vec<u8>, AllocError>
    ensures { IfOk result (λ bytes.
        IsCorePage (overview_options order.now (option_map (λ t. t.now) clock.entry)) (core_data core.now) bytes.items) }
{
    let options = options_of(alloc, order, clock)?;
    let page = overview(alloc, core, options)?;
    page_of(alloc, &page)
}

/// Prints a core's page. The only failure is out of memory.
fn print_page<W: Write, E: Write>(
    alloc: Global,
    core: &Core,
    order: &PageOrder<'_>,
    clock: Option<&str>,
    out: &mut Printed<W, E>,
) -> Result<u8, Failure>
    ensures paged { PagedOf (overview_options order.now (option_map (λ t. t.now) clock.entry)) (core_data core.now) result
        (out.old.shown ++ out.old.waiting) (out.new.shown ++ out.new.waiting) }
    ensures whole { out.old.waiting ≡ [] → out.new.waiting ≡ [] }
    ensures quiet { out.new.notes ≡ out.old.notes }
{
    let bytes = bytes_of(alloc, core, order, clock)?;
    print(out, &bytes)?;
    Ok(0)
}

/// Reads the database that is named, and prints the page of the history in it.
fn page_in<O: Opens, S: Start, W: Write, E: Write>(
    alloc: Global,
    order: &PageOrder<'_>,
    clock: Option<&str>,
    opener: &mut FileOpener<O, S>,
    out: &mut Printed<W, E>,
) -> Result<u8, Failure>
    requires unasked { O.asked opener.old.files ≡ [] }
    requires least { 1 ≤ order.now.options.budget }
    requires most { order.now.options.budget ≤ MOST_NODES }
    ensures looked { Looked ⟦<FileStore<Scratch> as Trees>⟧ order.now.options
        (PagedOf (overview_options order.now (option_map (λ t. t.now) clock.entry)))
        (O.asked opener.new.files) result (out.old.shown ++ out.old.waiting) (out.new.shown ++ out.new.waiting) }
    ensures whole { out.old.waiting ≡ [] → out.new.waiting ≡ [] }
    ensures quiet { out.new.notes ≡ out.old.notes }
{
    match see(alloc, &order.options, opener) {
        Ok(core) => print_page(alloc, &core, order, clock, out),
        Err(failure) => Err(failure),
    }
}

/// Makes the page that is ordered, and tells what came of it: the status. The clock says when, unless the words do. No lock
/// is taken, and nothing is written but the page.
pub fn page_at<'a, O: Opens, S: Start, W: Write, E: Write, P: Write>(
    alloc: Global,
    order: PageOrder<'a>,
    clock: Option<&str>,
    opener: &mut FileOpener<O, S>,
    out: &mut Printed<W, E>,
    telling: &mut Telling<'a, P>,
) -> u8
    requires least { 1 ≤ order.options.budget }
    requires most { order.options.budget ≤ MOST_NODES }
    requires unasked { O.asked opener.old.files ≡ [] }
    requires untold { told_data telling.old ≡ nothing_told }
    ensures paged { (outcome : OutcomeData)
        × Looked ⟦<FileStore<Scratch> as Trees>⟧ order.entry.options
        (PagedOf (overview_options order.entry (option_map (λ t. t.now) clock.entry)))
        (O.asked opener.new.files) outcome.end (out.old.shown ++ out.old.waiting) (out.new.shown ++ out.new.waiting)
        × (outcome.is_printed ≡ not out.new.failed)
        × (told_data telling.new ≡ page_told order.entry outcome)
        × (result ≡ exit_status_of outcome) }
    ensures whole { out.old.waiting ≡ [] → out.new.waiting ≡ [] }
    ensures quiet { out.new.notes ≡ out.old.notes }
    ensures wrote { TellsLines (told_data telling.new) telling.old.errors telling.new.errors }
{
    let outcome = Outcome {
        end: page_in(alloc, &order, clock, opener, out),
        is_printed: !out.has_failed(),
    };
    tell(telling, &order.into_look(), &outcome)
}
