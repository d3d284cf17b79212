//! A command is done.
ghost use Rattle.std.specs.Prelude.{◌≡◌, ◌≤◌, ◌++◌, ℕ, [], ◌∷◌, None, Result, false, not, IsSome, IfOk, IfSome, option_map, string_bytes};
ghost use Rattle.sqlite_std_file.specs.File.{IsFresh};
ghost use Rattle.sqlite_wal.specs.Files.{image_at};
ghost use Rattle.sqlite.specs.Files.{file_state, IsOpened};
ghost use Rattle.sqlite.specs.Held.{IsNew};
ghost use Rattle.sqlite.specs.Start.{FindsIn};
ghost use Rattle.sqlite.specs.State.{HasCleanDisk};
ghost use Rattle.ccr_core.specs.Resumed.{IsReadable};
ghost use Rattle.ccr_proof.specs.declared.proof.TheConstants.{MOST_NODES};
ghost use Rattle.ccr_task.specs.Places.{places_data};
ghost use Rattle.ccr_serve.specs.Commanding.{CameOf};
ghost use Rattle.ccr_core.specs.Commands.{command_data};
ghost use Rattle.ccr_serve.specs.Views.{view_of, bare_view, IsKept, IsReady};
ghost use Rattle.ccr_run.specs.Asked.{opened};
ghost use Rattle.ccr_run.specs.Databases.{from_conn, from_files, from_history, BeginsWith};
ghost use Rattle.ccr_run.specs.Served.{Did, Served, handed_on, places_in};

use crate::database::{Database, FileDatabase, Unloaded};
use crate::failure::Failure;
use crate::left::{Left, Tools};
use crate::opener::FileOpener;
use crate::opening::{FileConnection, Opens};
use crate::order::Order;
use ccr_core::Command;
use ccr_history::{History, Storage};
use ccr_lines::{AsText, Lines, Printed};
use ccr_process::Runner;
use ccr_serve::{ServeFault, Server, Unopened};
use ccr_task::{Places, Shelf};
use sqlite::Start;
use std::alloc::{AllocError, Global};
use std::io::Write;

/// What came of an order.
#[derive(Drop)]
pub struct Outcome {
    /// The command's status, or why it has none.
    pub end: Result<u8, Failure>,
    /// Whether all lines went out.
    pub is_printed: bool,
}

/// What is left of a run over the database's files.
pub type FilesLeft<R, F, S> = Left<R, F, FileDatabase<S>, FileConnection<S>>;

/// What came of an order, and what is left.
#[derive(Drop)]
pub struct Ran<R, F, T, C> {
    /// What came of the order.
    pub outcome: Outcome,
    /// What is left of what was given.
    pub left: Left<R, F, T, C>,
}

/// A copy of a path, if there is one.
fn copy_path(alloc: Global, path: Option<&str>) -> Result<Option<String>, AllocError>
    ensures { IfOk result (λ copied. option_map string_bytes copied ≡ option_map (λ p. p.now) path.entry) }
{
    match path {
        Some(path) => Ok(Some(String::from_str(alloc, path)?)),
        None => Ok(None),
    }
}

/// The server's two folders, and its launcher, if there is one.
pub fn places_of(
    alloc: Global,
    types: &str,
    work: &str,
    launcher: Option<&str>,
) -> Result<Places, AllocError>
    ensures types { IfOk result (λ places. string_bytes places.types ≡ types.now) }
    ensures work { IfOk result (λ places. string_bytes places.work ≡ work.now) }
    ensures launcher { IfOk result (λ places. option_map string_bytes places.launcher
        ≡ option_map (λ p. p.now) launcher.entry) }
{
    Ok(Places {
        types: String::from_str(alloc, types)?,
        work: String::from_str(alloc, work)?,
        launcher: copy_path(alloc, launcher)?,
    })
}

/// Has a server do a command, and hands all its lines out.
fn command<R: Runner, F: Shelf, T: Storage, W: Write, E: Write>(
    server: &mut Server<R, F, T>,
    command: &Command,
    out: &mut Printed<W, E>,
) -> Result<u8, Failure>
    requires ready { IsReady (bare_view R.Runner F.Shelf T.Storage server.old) }
    ensures came { let view = view_of R.pairs F.calls T.holds T.leaves T.tally in
        (answer : Result ℕ ServeFault) × (result ≡ handed_on answer)
        × CameOf (places_data server.old.places) (command_data command.now) answer
        (view server.old (out.old.shown ++ out.old.waiting)) (view server.new (out.new.shown ++ out.new.waiting)) }
    ensures stands { IsKept (bare_view R.Runner F.Shelf T.Storage server.new) }
    ensures printed { out.new.failed ≡ false → out.new.waiting ≡ [] }
{
    let end = server.command(&AsText, command, out);
    out.hand_out();
    Ok(end?)
}

/// Has a server do the command, and hands it back.
fn serve_by<R: Runner, F: Shelf, T: Storage, W: Write, E: Write>(
    server: Server<R, F, T>,
    order: &Order<'_>,
    out: &mut Printed<W, E>,
) -> (Result<u8, Failure>, Server<R, F, T>)
    requires ready { IsReady (bare_view R.Runner F.Shelf T.Storage server) }
    requires places { places_data server.places ≡ places_in order.now }
    ensures did { Did R.Runner F.Shelf T.Storage order.now server result.0 result.1
        (out.old.shown ++ out.old.waiting) (out.new.shown ++ out.new.waiting) }
    ensures printed { out.new.failed ≡ false → out.new.waiting ≡ [] }
{
    let mut server = server;
    let end = command(&mut server, &order.command, out);
    (end, server)
}

/// Has a server over a database with its history do the command.
fn serve_history<R: Runner + Drop, F: Shelf + Drop, S: Start, W: Write, E: Write>(
    alloc: Global,
    order: &Order<'_>,
    tools: Tools<R, F>,
    database: FileDatabase<S>,
    history: History,
    places: Places,
    out: &mut Printed<W, E>,
) -> (Result<u8, Failure>, FilesLeft<R, F, S>)
    requires least { 1 ≤ order.now.options.budget }
    requires most { order.now.options.budget ≤ MOST_NODES }
    requires holds { ⟦<FileDatabase<S> as Storage>⟧.holds database history }
    requires leaves { ⟦<FileDatabase<S> as Storage>⟧.leaves database (history ∷ []) }
    requires found { BeginsWith (image_at S.Start) database history }
    requires readable { IfSome history.text IsReadable }
    requires places { places_data places ≡ places_in order.now }
    ensures served { Served R.Runner F.Shelf ⟦<FileDatabase<S> as Storage>⟧ (from_history (image_at S.Start)) order.now
        (opened order.now.options.database.now None ∷ []) tools result.0 result.1
        (out.old.shown ++ out.old.waiting) (out.new.shown ++ out.new.waiting) }
    ensures printed { out.old.waiting ≡ [] → out.new.failed ≡ false → out.new.waiting ≡ [] }
{
    let Tools { runner, shelf } = tools;
    let budget = order.options.budget;
    match Server::open(alloc, runner, shelf, database, history, places, budget, out) {
        Ok(server) => {
            let (end, server) = serve_by(server, order, out);
            (end, Left::Served(server))
        }
        Err(
            Unopened {
                fault,
                runner,
                shelf,
                storage,
            },
        ) => (
            Err(Failure::Refused(fault)),
            Left::Unbegun(Tools { runner, shelf }, storage),
        ),
    }
}

/// Has a server over a database that was opened do the command.
fn serve_database<R: Runner + Drop, F: Shelf + Drop, S: Start, W: Write, E: Write>(
    alloc: Global,
    order: &Order<'_>,
    tools: Tools<R, F>,
    conn: FileConnection<S>,
    places: Places,
    out: &mut Printed<W, E>,
) -> (Result<u8, Failure>, FilesLeft<R, F, S>)
    requires least { 1 ≤ order.now.options.budget }
    requires most { order.now.options.budget ≤ MOST_NODES }
    requires idle { (file_state conn).in_transaction ≡ false }
    requires fresh { IsNew conn }
    requires opened { HasCleanDisk (file_state conn) → IsOpened conn }
    requires found { HasCleanDisk (file_state conn) → FindsIn (image_at S.Start) (file_state conn) }
    requires places { places_data places ≡ places_in order.now }
    ensures served { Served R.Runner F.Shelf ⟦<FileDatabase<S> as Storage>⟧ (from_conn (image_at S.Start) conn) order.now
        (opened order.now.options.database.now None ∷ []) tools result.0 result.1
        (out.old.shown ++ out.old.waiting) (out.new.shown ++ out.new.waiting) }
    ensures printed { out.old.waiting ≡ [] → out.new.failed ≡ false → out.new.waiting ≡ [] }
{
    match Database::load(alloc, conn) {
        Ok((database, history)) => serve_history(
            alloc, order, tools, database, history, places, out,
        ),
        Err(Unloaded { fault, conn }) => (Err(Failure::from(fault)), Left::Unfound(tools, conn)),
    }
}

/// Opens the database, and has a server over it do the command.
fn serve<R: Runner + Drop, F: Shelf + Drop, O: Opens, S: Start, W: Write, E: Write>(
    alloc: Global,
    order: &Order<'_>,
    tools: Tools<R, F>,
    opener: &mut FileOpener<O, S>,
    out: &mut Printed<W, E>,
) -> (Result<u8, Failure>, FilesLeft<R, F, S>)
    requires least { 1 ≤ order.now.options.budget }
    requires most { order.now.options.budget ≤ MOST_NODES }
    requires unopened { IsSome opener.old.start }
    requires unasked { O.asked opener.old.files ≡ [] }
    ensures served { Served R.Runner F.Shelf ⟦<FileDatabase<S> as Storage>⟧
        (from_files (image_at S.Start) (λ is_log file. IsFresh is_log file) opener.new.answer) order.now
        (O.asked opener.new.files) tools result.0 result.1 (out.old.shown ++ out.old.waiting) (out.new.shown ++ out.new.waiting) }
    ensures printed { out.old.waiting ≡ [] → out.new.failed ≡ false → out.new.waiting ≡ [] }
{
    let options = order.options;
    let Ok(places) = places_of(alloc, options.types, options.work, options.launcher) else {
        return (
            Err(Failure::Refused(ServeFault::NoMemory)),
            Left::Unopened(tools),
        );
    };
    match opener.open(order.options.database) {
        Ok(conn) => serve_database(alloc, order, tools, conn, places, out),
        Err(failure) => (Err(failure), Left::Unopened(tools)),
    }
}

/// Does what is ordered. The lines go out as they come.
pub fn run<R: Runner + Drop, F: Shelf + Drop, O: Opens, S: Start, W: Write, E: Write>(
    alloc: Global,
    order: &Order<'_>,
    tools: Tools<R, F>,
    opener: &mut FileOpener<O, S>,
    out: &mut Printed<W, E>,
) -> Ran<R, F, FileDatabase<S>, FileConnection<S>>
    requires least { 1 ≤ order.now.options.budget }
    requires most { order.now.options.budget ≤ MOST_NODES }
    requires unopened { IsSome opener.old.start }
    requires unasked { O.asked opener.old.files ≡ [] }
    ensures served { Served R.Runner F.Shelf ⟦<FileDatabase<S> as Storage>⟧
        (from_files (image_at S.Start) (λ is_log file. IsFresh is_log file) opener.new.answer) order.now
        (O.asked opener.new.files) tools result.outcome.end result.left
        (out.old.shown ++ out.old.waiting) (out.new.shown ++ out.new.waiting) }
    ensures printed { result.outcome.is_printed ≡ not out.new.failed }
    ensures whole { out.old.waiting ≡ [] → out.new.failed ≡ false → out.new.waiting ≡ [] }
{
    let (end, left) = serve(alloc, order, tools, opener, out);
    Ran {
        outcome: Outcome {
            end,
            is_printed: !out.has_failed(),
        },
        left,
    }
}
