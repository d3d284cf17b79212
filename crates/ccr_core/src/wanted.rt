//! What running builds want.
ghost use Rattle.std.specs.Prelude.{◌≡◌, map, option_map};
ghost use Rattle.std.specs.Option.{IfSome};
ghost use Rattle.ccr_pipeline.specs.Tree.{tree_of};
ghost use Rattle.ccr_steps.specs.Asks.{ask_data};
ghost use Rattle.ccr_core.specs.Cores.{core_data};
ghost use Rattle.ccr_core.specs.Holding.{name_data, name_index, step_in, IsCore, NamesResource, Stands, Wants};
ghost use Rattle.ccr_core.specs.State.{State};
ghost use Rattle.ccr_core.specs.Wanting.{EachWants, WantedIsTaken, AbortIsTaken};

use crate::parts::Parts;
use ccr_pipeline::Step;
use ccr_steps::Ask;

/// Where the job's build of this number stands among names; past the end if it isn't there.
pub(crate) fn index_of(names: &[(String, u32)], job: &str, number: u32) -> usize
    ensures { result ≡ name_index job.now number (map name_data names.now) }
{
    for (i, name) in names.iter().enumerate() {
        if job == name.0.as_str() && number == name.1 {
            return i;
        }
    }
    names.len()
}

impl Parts {
    /// What the job's build of this number waits for, and at which turn; None where it doesn't run. A resource that it
    /// names is one of the pipeline's.
    pub(crate) fn wants(&self, job: &str, number: u32) -> Option<(u64, Ask<'_>)>
        requires { IsCore (core_data self.now) }
        ensures asked { Wants (core_data self.now) job.now number result }
        ensures named { (s : State) → Stands (core_data self.now) s
            → IfSome result (λ w. NamesResource s (ask_data w.1)) }
    {
        let k = index_of(&self.names, job, number);
        if k >= self.runs.len() {
            return None;
        }
        let run = &self.runs[k];
        match run.wants() {
            Some(ask) => Some((run.turn(), ask)),
            None => None,
        }
    }

    /// The step at which the job's build of this number waits; None where it doesn't run.
    pub(crate) fn step_of(&self, job: &str, number: u32) -> Option<&Step>
        ensures { option_map (λ s. tree_of s.now) result ≡ step_in (core_data self.now) job.now number }
    {
        let k = index_of(&self.names, job, number);
        self.runs.get(k)?.step()
    }
}

/// Each build that runs in a core wants something. An answer to what a build wants, at its turn, is refused only as
/// `TableFull`, where what it pushes has no place, or out of memory; an abort of the build only out of memory.
///
/// It is a law over the definitions alone; nothing runs.
pub fn wants_are_answered()
    ensures each { EachWants }
    ensures taken { WantedIsTaken }
    ensures aborted { AbortIsTaken }
{}
