//! The machine: a core, and what it is told.

use crate::event::Event;
use crate::fault::CoreFault;
use crate::parts::Parts;
use crate::position::position_of;
use crate::reply::Reply;
use crate::resumed::{begin, over};
use ccr_history::{Change, History};
use ccr_index::Index;
use ccr_pipeline::{Pipeline, Step};
use ccr_steps::Ask;
use std::alloc::Global;
use std::marker::Model;

/// The server without the world: a history, a pipeline if one was set, how many nodes a search may take, and the builds
/// that run.
///
/// What it stands for is reached by events from a state in which nothing runs.
#[derive(Drop)]
pub struct Core {
    parts: Parts,
}

impl Model for Core {
    ghost use Rattle.ccr_core.specs.contracts.parts.Parts.{the_row};
    ghost use Rattle.ccr_core.specs.declared.parts.Parts.{Parts};
    ghost use Rattle.ccr_core.specs.Cores.{core_data};
    ghost use Rattle.ccr_core.specs.Holding.{IsCore};
    ghost use Rattle.ccr_core.specs.Indexed.{IsIndexed};

    ghost Value = { Parts };

    ghost coded = { the_row.coded };

    ghost view = { λ c. c.parts };

    ghost invariant = { λ c. IsCore (core_data c.parts) × IsIndexed c.parts };
}

impl Core {
    ghost use Rattle.std.specs.Prelude.{◌≡◌, ◌≤◌, None, Ok, Err, map, option_map, IfOk, IfErr, IfNone, IsSomeAnd, OnErr};
    ghost use Rattle.std.specs.Option.{IfSome, option_copied};
    ghost use Rattle.ccr_history.specs.Edits.{change_data, edit_data};
    ghost use Rattle.ccr_pipeline.specs.Pipelines.{pipeline_data};
    ghost use Rattle.ccr_pipeline.specs.Tree.{tree_of};
    ghost use Rattle.ccr_problem.specs.ProblemOf.{job_of, IsProblemOf};
    ghost use Rattle.ccr_proof.specs.declared.proof.TheConstants.{MOST_NODES};
    ghost use Rattle.ccr_core.specs.Cores.{core_data};
    ghost use Rattle.ccr_core.specs.Events.{event_data};
    ghost use Rattle.ccr_core.specs.Going.{Changes};
    ghost use Rattle.ccr_steps.specs.Asks.{ask_data};
    ghost use Rattle.ccr_core.specs.Holding.{name_data, step_in, HasEdits, IsCore, NamesResource, Stands, TakesStep, Wants};
    ghost use Rattle.ccr_core.specs.Kept.{IsEvent};
    ghost use Rattle.ccr_core.specs.Positions.{IsMadeAt, AreInOrder};
    ghost use Rattle.ccr_core.specs.State.{State};
    ghost use Rattle.ccr_core.specs.Resumed.{resumed, IsOver, IsReadable, IsResumed};
    ghost use Rattle.ccr_core.specs.declared.fault.CoreFault.TheVariants.{NoMemory};

    /// A core that begins with a history, whose searches take at most so many nodes, and what changed of the history:
    /// each build that runs in it is errored, with nothing moved, in order of making. The pipeline is that of the
    /// history's text, if it has one.
    ///
    /// The caller gives a text that `ccr_pipeline::read` accepts, and a budget from 1 to 1,000,000. The only error is
    /// `NoMemory`.
    pub fn resume(alloc: Global, history: History, budget: u32) -> Result<(Core, Change), CoreFault>
        requires least { 1 ≤ budget }
        requires most { budget ≤ MOST_NODES }
        requires readable { IfSome history.text IsReadable }
        ensures begun { IfOk result (λ r. IsResumed history budget (core_data r.0)) }
        ensures is { IfOk result (λ r. map edit_data r.1.items ≡ resumed history) }
        ensures change { IfOk result (λ r. Changes r.1.items history (core_data r.0).history) }
        ensures only { IfErr result (λ fault. fault ≡ NoMemory) }
    {
        match begin(alloc, history, budget) {
            Ok((parts, change)) => Ok((Core { parts }, change)),
            Err(fault) => Err(fault),
        }
    }

    /// A core over a history as it stands, for what only shows: a build that runs in it still does, though no machine runs it.
    ///
    /// The caller gives a text that `ccr_pipeline::read` accepts, and a budget from 1 to 1,000,000. The only error is
    /// `NoMemory`.
    pub fn over(alloc: Global, history: History, budget: u32) -> Result<Core, CoreFault>
        requires least { 1 ≤ budget }
        requires most { budget ≤ MOST_NODES }
        requires readable { IfSome history.text IsReadable }
        ensures over { IfOk result (λ core. IsOver history budget (core_data core)) }
        ensures only { IfErr result (λ fault. fault ≡ NoMemory) }
    {
        match over(alloc, history, budget) {
            Ok(parts) => Ok(Core { parts }),
            Err(fault) => Err(fault),
        }
    }

    /// One step: the reply to an event, and what changed of the history.
    ///
    /// From each state that the core stood for, the event may have this reply, and leads to a state that the core
    /// stands for then: so it met no fault. The change holds the step's edits and no others. A refusal names the first
    /// fault that the event meets in such a state, and changes nothing; `NoMemory` where memory runs out.
    ///
    /// Each event that it is given, refused or not, is one that the laws over lists of events speak of.
    pub fn step(&mut self, alloc: Global, event: Event) -> Result<(Reply, Change), CoreFault>
        ensures step { IfOk result (λ r. TakesStep (core_data self.old) (core_data self.new) (event_data event) (Ok r.0)) }
        ensures change { IfOk result (λ r. Changes r.1.items
            (core_data self.old).history (core_data self.new).history) }
        ensures edits { IfOk result (λ r. HasEdits (core_data self.old) (event_data event) (Ok r.0)
            (change_data r.1.items)) }
        ensures refused { IfErr result (λ f. TakesStep (core_data self.old) (core_data self.old)
            (event_data event) (Err f)) }
        ensures unchanged { OnErr result (core_data self.new ≡ core_data self.old) }
        ensures kept { IsEvent (event_data event) }
    {
        self.parts.take(alloc, event)
    }

    /// The builds that run, in order of making: the name of the job, and the number. Each of them wants something.
    pub fn running(&self) -> &[(String, u32)]
        ensures names { map name_data result.now ≡ (core_data self.now).names }
        ensures ordered { AreInOrder (core_data self.now).history.builds 0 (core_data self.now).names }
    {
        &self.parts.names
    }

    /// What the job's build of this number waits for, and at which turn; None exactly where it doesn't run. A resource
    /// that it names is one of the pipeline's. No memory is taken.
    pub fn wants(&self, job: &str, number: u32) -> Option<(u64, Ask<'_>)>
        ensures asked { Wants (core_data self.now) job.now number result }
        ensures named { (s : State) → Stands (core_data self.now) s
            → IfSome result (λ w. NamesResource s (ask_data w.1)) }
    {
        self.parts.wants(job, number)
    }

    /// The step of its plan at which the job's build of this number waits; None where it doesn't run. No memory is taken.
    pub fn step_of(&self, job: &str, number: u32) -> Option<&Step>
        ensures { option_map (λ s. tree_of s.now) result ≡ step_in (core_data self.now) job.now number }
    {
        self.parts.step_of(job, number)
    }

    /// Where the job's build of this number stands among all builds of the history, counted from 0 in order of making;
    /// None where there is no such build. So turns can go round, though builds in between end. No memory is taken.
    pub fn made_at(&self, job: &str, number: u32) -> Option<u32>
        ensures { IsMadeAt (core_data self.now).history.builds job.now number result }
    {
        position_of(&self.parts.history, job, number)
    }

    /// The history.
    pub fn history(&self) -> &History
        ensures { result.now ≡ (core_data self.now).history }
    {
        &self.parts.history
    }

    /// The pipeline, if one was set.
    pub fn pipeline(&self) -> Option<&Pipeline>
        ensures { option_map pipeline_data (option_copied result) ≡ (core_data self.now).pipeline }
    {
        self.parts.pipeline.as_ref()
    }

    /// The index by which the next build of the job of a name is chosen; None exactly where the pipeline has no such job, or
    /// none is set. It stands for the problem of the job. No memory is taken.
    pub fn index(&self, job: &str) -> Option<&Index>
        ensures some { IfSome result (λ index. IsSomeAnd (core_data self.now).pipeline
            (λ p. IsProblemOf p (core_data self.now).history job.now index.now.problem)) }
        ensures none { IfNone result (IfSome (core_data self.now).pipeline (λ p. job_of job.now p.jobs ≡ None)) }
    {
        match &self.parts.pipeline {
            Some(pipeline) => {
                let indexes = &self.parts.indexes;
                indexes.of_job(pipeline, &self.parts.history, job)
            }
            None => None,
        }
    }

    /// How many nodes a search may take.
    pub fn budget(&self) -> u32
        ensures { result ≡ (core_data self.now).budget }
    {
        self.parts.budget
    }

    /// Every core keeps the rules of cores: what it stands for is reached by events from a state in which nothing runs.
    /// Nothing runs.
    pub fn rules(&self)
        ensures { IsCore (core_data self.now) }
    {
        let _parts = &self.parts;
    }
}
