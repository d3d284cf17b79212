//! Databases that hold no history. What refuses them leaves their bytes as they were.
ghost use Rattle.std.specs.Prelude.{◌≡◌, ◌&&◌, false, IsTrue, IfOk};
ghost use Rattle.sqlite_disk.specs.Memory.{memory_is_usable};

use super::files::{bytes_of, empty_files, file_of};
use super::runs::prepared;
use anyhow::{Result, anyhow, bail};
use ccr_history::StoreFault;
use ccr_store::{Store, open_fault_of, prepare};
use sqlite::{Alter, Connection, FileStore, Files, Options};
use sqlite_disk::Memory;
use std::alloc::Global;

/// A connection to a database whose files are in memory.
type Filed = Connection<FileStore<Memory>>;

/// What a file holds.
#[derive(Clone, Copy)]
pub(super) enum Content<'t> {
    /// A database that these statements make.
    Foreign(&'t str),
    /// A database with the six tables of an empty history, to which these statements are given.
    Spoiled(&'t str),
    /// This text.
    Text(&'t str),
}

// ---- the files
/// Closes a database.
fn closed(conn: Filed) -> Result<Files<Memory>> {
    match conn.close_files() {
        Ok(files) => Ok(files),
        Err((error, _)) => Err(error.into()),
    }
}

/// Makes the six tables, if they are wanted, and runs statements.
fn fill(alloc: Global, conn: &mut Filed, has_tables: bool, statements: &str) -> Result<()>
    requires { conn.old.in_transaction ≡ false }
{
    if has_tables {
        prepare(alloc, conn)?;
    }
    Ok(conn.execute_batch(statements)?)
}

/// Fills a database and closes it.
fn filled(alloc: Global, conn: Filed, has_tables: bool, statements: &str) -> Result<Files<Memory>>
    requires { conn.in_transaction ≡ false }
{
    let mut conn = conn;
    fill(alloc, &mut conn, has_tables, statements)?;
    closed(conn)
}

/// A database in files in memory, made by these statements.
fn made(alloc: Global, has_tables: bool, statements: &str) -> Result<Files<Memory>> {
    match Connection::open_files(alloc, empty_files(alloc), Options::new(1)) {
        Ok(conn) => filled(alloc, conn, has_tables, statements),
        Err((error, _)) => Err(error.into()),
    }
}

/// Files in which a history is kept, given the number of the first format.
pub(super) fn lowered(alloc: Global, files: Files<Memory>) -> Result<Files<Memory>> {
    if !files.may_be_used() {
        bail!("the files can't be used")
    }
    match Connection::open_files(alloc, files, Options::new(1)) {
        Ok(conn) => filled(alloc, conn, false, "UPDATE meta SET v = x'31' WHERE k = 1"),
        Err((error, _)) => Err(error.into()),
    }
}

/// The files of this content.
fn files_of(alloc: Global, content: Content<'_>) -> Result<Files<Memory>> {
    match content {
        Content::Foreign(statements) => made(alloc, false, statements),
        Content::Spoiled(statements) => made(alloc, true, statements),
        Content::Text(text) => Ok(Files {
            log: Memory::new(alloc),
            db: file_of(alloc, text.as_bytes())?,
        }),
    }
}

// ---- their refusal
/// Why no history was found, if none was, and the files after that.
#[derive(Drop)]
struct Looked {
    fault: Option<StoreFault>,
    files: Files<Memory>,
}

/// Loads the history of a store: why it holds none, if so. Gives the connection back.
fn loaded<S: Alter + Drop>(alloc: Global, store: Store<S>) -> (Option<StoreFault>, Connection<S>) {
    let mut store = store;
    let fault = store.load(alloc).err();
    (fault, store.into_connection())
}

/// Has a store take a database, and loads its history: why there is none, if so. Gives the connection back.
fn taken<S: Alter + Drop>(alloc: Global, conn: Connection<S>) -> (Option<StoreFault>, Connection<S>)
    requires { conn.in_transaction ≡ false }
{
    let (conn, taken) = prepared(alloc, conn);
    match taken {
        Ok(()) => loaded(alloc, Store::over(conn)),
        Err(fault) => (Some(fault), conn),
    }
}

/// Takes a database, loads its history, and closes it.
fn try_opened(alloc: Global, conn: Filed) -> Looked
    requires { conn.in_transaction ≡ false }
{
    let (fault, conn) = taken(alloc, conn);
    Looked {
        fault,
        files: conn.into_store().close(),
    }
}

/// Opens files, and loads the history in them.
fn tried(alloc: Global, files: Files<Memory>) -> Result<Looked> {
    if !files.may_be_used() {
        bail!("the files can't be used")
    }
    match Connection::open_files(alloc, files, Options::new(1)) {
        Ok(conn) => Ok(try_opened(alloc, conn)),
        Err((error, left)) => Ok(Looked {
            fault: Some(open_fault_of(&error)),
            files: left.into_files(),
        }),
    }
}

/// How a database is refused, and whether its files have the bytes that they had. An error where a history is found.
fn looked_told(alloc: Global, looked: &Looked, before: &(Vec<u8>, Vec<u8>)) -> Result<String> {
    let Some(fault) = &looked.fault else {
        return Err(anyhow!("a history"));
    };
    let is_same = looked.files.log.bytes() == before.0.as_slice()
        && looked.files.db.bytes() == before.1.as_slice();
    let change = if is_same { "unchanged" } else { "changed" };
    Ok(format!(in alloc; "{fault}, {change}")?)
}

/// The same, of files.
fn tried_told(alloc: Global, files: Files<Memory>) -> Result<String> {
    let before = bytes_of(alloc, &files)?;
    let looked = tried(alloc, files)?;
    looked_told(alloc, &looked, &before)
}

/// The same, of a database of this content.
pub(super) fn refusal_told(alloc: Global, content: Content<'_>) -> Result<String> {
    tried_told(alloc, files_of(alloc, content)?)
}
