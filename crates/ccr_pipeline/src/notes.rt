//! What is noted of jobs while they are read, and told once all of them are.
ghost use Rattle.std.specs.Prelude.{◌≡◌, None, OnOk, IfOk, IfErr};
ghost use Rattle.ccr_pipeline.specs.Keys.{here};
ghost use Rattle.ccr_pipeline.specs.Faults.{fault_of};
ghost use Rattle.ccr_pipeline.specs.Names.{names_of as texts_of};
ghost use Rattle.ccr_pipeline.specs.Notes.{notes_data, with_step};
ghost use Rattle.ccr_pipeline.specs.Unused.{IsSortedOnce};

use crate::cursor::Cursor;
use crate::fault::{Checked, ReadFault, Rule};
use crate::names::Names;
use crate::schema::{NESTED, schema_of};
use crate::unknown::unknown_name;
use crate::unused::{push_keys, sorted_once};
use std::alloc::{AllocError, Global};

/// What is known while jobs are read, and what is noted: it is told after all jobs, whose own faults come first.
#[derive(Drop)]
pub(crate) struct Notes {
    /// The names of the pipeline's resources.
    pub(crate) resources: Names,
    /// The names of its jobs.
    pub(crate) jobs: Names,
    /// The names of the gets that were met in the job that is read.
    pub(crate) gets: Names,
    /// The first name that a step mentions and that isn't there.
    pub(crate) unknown: Option<(Rule, String)>,
    /// The paths of the keys without effect, in the order in which they were met.
    pub(crate) unused: Vec<String>,
}

/// Notes a step; the steps that it holds are noted for themselves.
#[tactic(auto, using(crate::proofs::NoteLemmas::told_or), unfolding(crate::specs::Notes::with_step))]
pub(crate) fn note_step(alloc: Global, notes: &mut Notes, step: &Cursor) -> Result<(), AllocError>
    ensures noted { OnOk result (notes_data notes.new ≡ here (with_step (notes_data notes.old)) step.now) }
    ensures gets { OnOk result (notes.new.gets ≡ notes.old.gets) }
{
    let found = unknown_name(alloc, &notes.resources, &notes.jobs, step)?;
    notes.unknown = notes.unknown.take().or(found);
    push_keys(&mut notes.unused, NESTED, schema_of(step.value), step)
}

/// The keys without effect, ascending by bytes, each once; refuses the name that isn't there, if one was noted.
pub(crate) fn unused_of(notes: Notes) -> Checked<Vec<String>>
    ensures known { IfOk result (λ v. (notes_data notes).unknown ≡ None) }
    ensures unknown { IfErr result (λ fault. fault_of fault ≡ (notes_data notes).unknown) }
    ensures sorted { IfOk result (λ v. IsSortedOnce (notes_data notes).unused (texts_of v.items)) }
{
    let Notes {
        unknown,
        unused,
        ..
    } = notes;
    match unknown {
        Some((rule, path)) => Err(ReadFault::of(rule, path)),
        None => Ok(sorted_once(unused)?),
    }
}
