//! Builds that run.
ghost use Rattle.std.specs.Prelude.{◌≡◌, [], ◌∷◌, ◌++◌, ◌↔◌, List, None, length, map, option_map};
ghost use Rattle.std.specs.Prelude.{IfOk, OnOk, OnErr, IsErrOf};
ghost use Rattle.std.specs.Option.{IfSome};
ghost use Rattle.ccr_pipeline.specs.Inputs.{inputs};
ghost use Rattle.ccr_pipeline.specs.Limits.{input_names};
ghost use Rattle.ccr_pipeline.specs.Tree.{Tree, tree_of};
ghost use Rattle.ccr_steps.specs.Aborts.{LeavesHooks};
ghost use Rattle.ccr_steps.specs.Asks.{AskData, Chosen, Exchange, NamesResourceOf};
ghost use Rattle.ccr_steps.specs.Asks.{ask_data, answer_data, chosen, exchange};
ghost use Rattle.ccr_steps.specs.Gains.{gains_data, moved_data, Grew};
ghost use Rattle.ccr_steps.specs.Moments.{moment_data, step_at};
ghost use Rattle.ccr_steps.specs.Progress.{IsAllowed, Begins, IsNext, IsWanted, IsOutcome, HasMoved};
ghost use Rattle.ccr_steps.specs.Runs.{run_data, StandsFor, TakesAnswer, HasTurn, Grown, undone};

use crate::ask::{Answered, Ask};
use crate::before::Before;
use crate::begin::begin;
use crate::build::BuildRun;
use crate::fault::FeedFault;
use crate::frame::Leaf;
use crate::gains::Gains;
use crate::inputs::Inputs;
use crate::leaf::{answer_leaf, leaf_ask};
use crate::moment::Moment;
use crate::moved::Moved;
use crate::outcome::Outcome;
use ccr_history::Version;
use ccr_pipeline::{Job, Step};
use std::alloc::{AllocError, Global};
use std::mem;

/// A build of a job that has had no answer yet, with a version for each of the job's inputs, in their order
/// (`ccr_pipeline::inputs_of`). A build whose plan asks nothing has ended already.
///
/// The plan isn't copied: the build shares it with the job, and keeps it when the pipeline changes.
pub fn start(alloc: Global, job: &Job, versions: &[Version]) -> Result<BuildRun, AllocError>
    requires { length versions.now ≡ length (inputs (tree_of job.now.plan.value)) }
    ensures { IfOk result (λ run. StandsFor (run_data run) (tree_of job.now.plan.value)
        (chosen (input_names (tree_of job.now.plan.value)) versions.now) []) }
{
    let plan = job.plan.clone()?;
    let inputs = Inputs::new(alloc, job, versions)?;
    let gains = Gains::new(alloc);
    let mut frames = Vec::new(alloc);
    let outcome = begin(&plan, &gains, &mut frames)?;
    let at = Moment {
        frames,
        leaf: Leaf::First,
        outcome,
    };
    Ok(BuildRun {
        plan,
        inputs,
        at,
        gains,
        turn: 0,
    })
}

impl BuildRun {
    /// What the build waits for; None where it has ended. A resource that it names is one of the plan's. No memory is
    /// taken.
    pub fn wants(&self) -> Option<Ask<'_>>
        ensures next { (plan : Tree) (inputs : Chosen) (es : List Exchange)
            → StandsFor (run_data self.now) plan inputs es
            → IsWanted inputs plan es (option_map ask_data result) }
        ensures named { (plan : Tree) (inputs : Chosen) (es : List Exchange)
            → StandsFor (run_data self.now) plan inputs es
            → IfSome (option_map ask_data result) (NamesResourceOf plan) }
    {
        let Some(step) = self.at.step_of(&self.plan) else {
            return None;
        };
        leaf_ask(step, &self.at.leaf, &self.inputs)
    }

    /// The step of the plan that waits for an answer; None where the build has ended. No memory is taken.
    pub fn step(&self) -> Option<&Step>
        ensures { option_map (λ s. tree_of s.now) result ≡ step_at (run_data self.now).at (run_data self.now).plan }
    {
        self.at.step_of(&self.plan)
    }

    /// How the build ended; None where it hasn't. No memory is taken.
    pub fn outcome(&self) -> Option<Outcome>
        ensures outcome { (plan : Tree) (inputs : Chosen) (es : List Exchange)
            → StandsFor (run_data self.now) plan inputs es
            → IsOutcome inputs plan es result }
        // What it stands for begins a list that its plan allows.
        ensures begun { (plan : Tree) (inputs : Chosen) (es : List Exchange)
            → StandsFor (run_data self.now) plan inputs es
            → Begins inputs plan es }
        // After an abort only hooks of the plan ran, and the build is aborted.
        ensures aborts { (plan : Tree) (inputs : Chosen) (es : List Exchange)
            → StandsFor (run_data self.now) plan inputs es
            → IfSome result (LeavesHooks inputs plan es) }
    {
        self.at.outcome
    }

    /// The versions that the build moved, each once: those of the inputs that were fetched, and those that were pushed.
    /// No memory is taken.
    pub fn moved(&self) -> &[Moved]
        ensures { (plan : Tree) (inputs : Chosen) (es : List Exchange)
            → StandsFor (run_data self.now) plan inputs es
            → HasMoved inputs plan es (map moved_data result.now) }
    {
        &self.gains.moved
    }

    /// The number of answers so far, modulo 2 to the 64th. No memory is taken.
    pub fn turn(&self) -> u64
        ensures { (plan : Tree) (inputs : Chosen) (es : List Exchange)
            → StandsFor (run_data self.now) plan inputs es
            → HasTurn es result }
    {
        self.turn
    }

    /// Goes on with an answer to what the build waits for. An answer of a kind that the ask doesn't have counts as
    /// `Errored`.
    ///
    /// `NothingAsked` where the build has ended; it and `NoMemory` leave the build as it was.
    pub fn feed(&mut self, answer: Answered) -> Result<(), FeedFault>
        ensures fed { OnOk result ((plan : Tree) (inputs : Chosen) (es : List Exchange)
            → StandsFor (run_data self.old) plan inputs es
            → (a : AskData) × IsNext inputs plan es a
            × StandsFor (run_data self.new) plan inputs (es ++ exchange a (answer_data answer) ∷ [])) }
        ensures nothing { (plan : Tree) (inputs : Chosen) (es : List Exchange)
            → StandsFor (run_data self.old) plan inputs es
            → (IsErrOf result FeedFault.NothingAsked ↔ IsAllowed inputs plan es) }
        ensures unchanged { OnErr result (run_data self.new ≡ run_data self.old) }
    {
        let _before = self.feed_back(answer)?;
        Ok(())
    }

    /// Goes on with an answer as [`BuildRun::feed`] does, and gives what [`BuildRun::undo`] takes the answer back with.
    ///
    /// `NothingAsked` where the build has ended; it and `NoMemory` leave the build as it was.
    pub fn feed_back(&mut self, answer: Answered) -> Result<Before, FeedFault>
        ensures fed { OnOk result ((plan : Tree) (inputs : Chosen) (es : List Exchange)
            → StandsFor (run_data self.old) plan inputs es
            → (a : AskData) × IsNext inputs plan es a
            × StandsFor (run_data self.new) plan inputs (es ++ exchange a (answer_data answer) ∷ [])) }
        ensures nothing { (plan : Tree) (inputs : Chosen) (es : List Exchange)
            → StandsFor (run_data self.old) plan inputs es
            → (IsErrOf result FeedFault.NothingAsked ↔ IsAllowed inputs plan es) }
        ensures unchanged { OnErr result (run_data self.new ≡ run_data self.old) }
        ensures back { IfOk result (λ before. undone before (run_data self.new) ≡ run_data self.old) }
    {
        let names = self.gains.names.len();
        let moved = self.gains.moved.len();
        let turn = self.turn;
        match self.take(answer) {
            Ok(at) => Ok(Before {
                at,
                names,
                moved,
                turn,
            }),
            Err(fault) => {
                self.gains.cut(names, moved);
                Err(fault)
            }
        }
    }

    /// Takes back the last answer: `before` is what [`BuildRun::feed_back`] gave for it. No memory is taken.
    pub fn undo(&mut self, before: Before)
        ensures { run_data self.new ≡ undone before (run_data self.old) }
    {
        self.gains.cut(before.names, before.moved);
        self.turn = before.turn;
        self.at = before.at;
    }

    /// Goes on with an answer, and gives where the build was. A refusal changes nothing, but out of memory may leave
    /// more at the ends of what the build has gained.
    fn take(&mut self, answer: Answered) -> Result<Moment, FeedFault>
        ensures taken { OnOk result (TakesAnswer (run_data self.old) (run_data self.new) (answer_data answer)) }
        ensures before { IfOk result (λ m. moment_data m ≡ moment_data self.old.at) }
        ensures grew { Grew (gains_data self.old.gains) (gains_data self.new.gains) }
        ensures nothing { IsErrOf result FeedFault.NothingAsked
            ↔ (step_at (moment_data self.old.at) (tree_of self.old.plan.value) ≡ None) }
        ensures refused { OnErr result (Grown (run_data self.old) (run_data self.new)) }
    {
        let alloc = *self.at.frames.allocator();
        let Some(step) = self.at.step_of(&self.plan) else {
            return Err(FeedFault::NothingAsked);
        };
        let next = answer_leaf(
            alloc,
            step,
            &self.at.leaf,
            &self.inputs,
            &mut self.gains,
            answer,
        )?;
        let at = self.at.after(alloc, &self.plan, &self.gains, next)?;
        self.turn = self.turn.wrapping_add(1);
        Ok(mem::replace(&mut self.at, at))
    }
}
