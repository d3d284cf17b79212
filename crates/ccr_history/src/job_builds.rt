//! What is kept of a job beside its builds, so that they are found without a search.
ghost use Rattle.std.specs.Prelude.{◌≡◌, ◌≤◌, ◌++◌, ◌∷◌, [], ◌||◌, length, IfOk, OnOk, OnErr};
ghost use Rattle.std.specs.List.{list_any};
ghost use Rattle.std.specs.Map.{lookup};
ghost use Rattle.std.specs.Option.{option_or};
ghost use Rattle.indexmap.specs.IndexMap.{spare};
ghost use Rattle.ccr_history.specs.Newest.{last_given};
ghost use Rattle.ccr_history.specs.Rows.{is_same, is_input_scope, row_if_at, no_job};
ghost use Rattle.ccr_history.specs.declared.used_row.UsedRow.{UsedRow as Place};
ghost use Rattle.ccr_history.specs.declared.used_row.InputScope.{InputScope as InputIn};

use crate::used_row::{InputScope, UsedRow};
use indexmap::{IndexMap, IndexSet};
use std::alloc::{AllocError, Global};
use std::marker::Model;

/// The positions of a job's builds, the places that they used, and of each input in each scope the place that the newest
/// of them had.
#[derive(Drop)]
pub(crate) struct JobBuilds {
    at: Vec<u32>,
    used: IndexSet<UsedRow>,
    newest: IndexMap<InputScope, u32>,
}

impl Model for JobBuilds {
    ghost use Rattle.ccr_history.specs.Rows.{JobData};

    ghost Value = { JobData };

    ghost view = { λ b. record { at = b.at.items; used = b.used.keys; newest = b.newest.entries } };
}

/// Inserts used places. Where memory is refused, nothing changes.
fn insert_all(set: &mut IndexSet<UsedRow>, used: &[UsedRow]) -> Result<(), AllocError>
    ensures ok { OnOk result ((u : Place) → list_any (is_same u) set.new.keys
        ≡ (list_any (is_same u) set.old.keys || list_any (is_same u) used.now)) }
    ensures err { OnErr result (set.new.keys ≡ set.old.keys) }
{
    set.reserve(used.len())?;
    for one in used {
        set.insert(*one)?;
    }
    Ok(())
}

/// Keeps used places as the newest ones of their inputs and scopes, where there is room for so many.
fn keep_newest(newest: &mut IndexMap<InputScope, u32>, used: &[UsedRow])
    requires { length used.now ≤ spare newest.old }
    ensures { (s : InputIn) → lookup (is_input_scope s) newest.new.entries
        ≡ option_or (last_given (row_if_at s) used.now) (lookup (is_input_scope s) newest.old.entries) }
{
    for one in used {
        let at = InputScope {
            input: one.input,
            scope: one.scope,
        };
        let _kept = newest.insert(at, one.place);
    }
}

impl JobBuilds {
    /// No builds.
    pub(crate) fn new(alloc: Global) -> JobBuilds
        ensures { result ≡ no_job }
    {
        JobBuilds {
            at: Vec::new(alloc),
            used: IndexSet::new(alloc),
            newest: IndexMap::new(alloc),
        }
    }

    /// The positions of the builds, oldest first.
    pub(crate) fn positions(&self) -> &[u32]
        ensures { result.now ≡ self.now.at }
    {
        &self.at
    }

    /// Whether a build used this place.
    pub(crate) fn has_used(&self, used: UsedRow) -> bool
        ensures { result ≡ list_any (is_same used) self.now.used }
    {
        self.used.contains(&used)
    }

    /// The place that the newest build which used this input in this scope had.
    pub(crate) fn newest_used(&self, at: InputScope) -> Option<u32>
        ensures { result ≡ lookup (is_input_scope at) self.now.newest }
    {
        self.newest.get(&at).copied()
    }

    /// Adds a build, by its position and what it used. Where memory is refused, nothing changes.
    pub(crate) fn add(&mut self, position: u32, used: &[UsedRow]) -> Result<(), AllocError>
        ensures at { OnOk result (self.new.at ≡ self.old.at ++ position ∷ []) }
        ensures used { OnOk result ((u : Place) → list_any (is_same u) self.new.used
            ≡ (list_any (is_same u) self.old.used || list_any (is_same u) used.now)) }
        ensures newest { OnOk result ((s : InputIn) → lookup (is_input_scope s) self.new.newest
            ≡ option_or (last_given (row_if_at s) used.now) (lookup (is_input_scope s) self.old.newest)) }
        ensures unchanged { OnErr result (self.new ≡ self.old) }
    {
        self.at.reserve(1)?;
        self.newest.reserve(used.len())?;
        insert_all(&mut self.used, used)?;
        keep_newest(&mut self.newest, used);
        self.at.push(position)?;
        Ok(())
    }

    /// A copy.
    pub(crate) fn copy(&self, alloc: Global) -> Result<JobBuilds, AllocError>
        ensures { IfOk result (λ b. b ≡ self.now) }
    {
        Ok(JobBuilds {
            at: Vec::from_slice(alloc, &self.at)?,
            used: self.used.clone()?,
            newest: self.newest.clone()?,
        })
    }
}
