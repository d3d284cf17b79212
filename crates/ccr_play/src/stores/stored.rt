//! Histories that a store keeps, and what it loads.
//!
//! The proof is dear where a function that owns a store also loops or returns early, so these do neither behind it.

use super::kept::Kept;
use anyhow::{Result, bail};
use ccr_history::History;
use ccr_rows::text_of;
use ccr_store::Store;
use sqlite::Alter;
use std::alloc::Global;

/// All of a history as text: what it holds, and the text of its pipeline.
pub(super) fn whole_text(alloc: Global, history: &History) -> Result<String> {
    let mut whole = text_of(alloc, history)?;
    if let Some(bytes) = history.text() {
        whole.push_str(str::from_utf8(bytes)?)?;
    }
    Ok(whole)
}

/// The history that a store loads, as text.
fn loaded_text<S: Alter + Drop>(alloc: Global, store: &mut Store<S>) -> Result<String> {
    match store.load(alloc) {
        Ok(history) => whole_text(alloc, &history),
        Err(fault) => Err(fault.into()),
    }
}

/// The history in a store, with the store that keeps it.
fn loaded<S: Alter + Drop>(alloc: Global, store: Store<S>) -> Result<Kept<Store<S>>> {
    let mut storage = store;
    match storage.load(alloc) {
        Ok(history) => Ok(Kept { history, storage }),
        Err(fault) => Err(fault.into()),
    }
}

impl<S: Alter + Drop> Kept<Store<S>> {
    /// Makes the history of these lines, change by change in the store too, and gives it as text. An error where the store
    /// loads another one.
    fn played(&mut self, alloc: Global, lines: &str) -> Result<String> {
        self.play_lines(alloc, lines)?;
        let made = whole_text(alloc, &self.history)?;
        let loaded = loaded_text(alloc, &mut self.storage)?;
        if made.as_str() != loaded.as_str() {
            bail!("made:\n{made}\nloaded:\n{loaded}")
        }
        Ok(made)
    }
}

/// The history that a store holds, as text.
pub(super) fn held<S: Alter + Drop>(alloc: Global, store: Store<S>) -> Result<String> {
    let mut store = store;
    loaded_text(alloc, &mut store)
}

/// Makes the history of these lines, change by change in a store too, and gives it as text. An error where the store loads
/// another one.
pub(super) fn keep<S: Alter + Drop>(alloc: Global, store: Store<S>, lines: &str) -> Result<String> {
    let mut kept = loaded(alloc, store)?;
    kept.played(alloc, lines)
}
