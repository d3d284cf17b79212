//! A runner that starts nothing.
ghost use Rattle.std.specs.Prelude.{◌≡◌, ◌++◌, ◌∷◌, [], drop, map, IfOk, MatchResult};
ghost use Rattle.ccr_process.specs.Launches.{launch_data};
ghost use Rattle.ccr_process.specs.Ends.{end_data};
ghost use Rattle.ccr_process.specs.Runs.{pairs_of, script_pairs, ends_left, next_end, AddsPair, Plays};

use crate::ended::Ended;
use crate::launch::Launch;
use crate::runner::Runner;
use std::alloc::{AllocError, Global};
use std::collections::VecDeque;

/// Ends that were handed in, answered in their order; `NotStarted` when they run out.
#[derive(Drop)]
pub struct Scripted {
    ends: VecDeque<Ended>,
    done: Vec<(Launch, Ended)>,
}

impl Scripted {
    /// A runner that answers these ends.
    pub fn new(alloc: Global, ends: VecDeque<Ended>) -> Scripted
        ensures ends { ends_left result ≡ map end_data ends.items }
        ensures none { script_pairs result ≡ [] }
    {
        Scripted {
            ends,
            done: Vec::new(alloc),
        }
    }

    /// The pairs so far, in their order.
    pub fn pairs(&self) -> &[(Launch, Ended)]
        ensures { pairs_of result.now ≡ script_pairs self.now }
    {
        &self.done
    }

    /// A copy of the end that comes next.
    fn next(&self) -> Result<Ended, AllocError>
        ensures { IfOk result (λ end. end_data end ≡ next_end (ends_left self.now)) }
    {
        match self.ends.front() {
            Some(end) => end.copy(),
            None => Ok(Ended::NotStarted),
        }
    }

    /// Adds the pair of a launch and the next end, or changes nothing.
    fn play(&mut self, launch: &Launch) -> Result<Ended, AllocError>
        ensures ends { MatchResult result (λ _. ends_left self.new ≡ drop 1 (ends_left self.old))
            (λ _. ends_left self.new ≡ ends_left self.old) }
        ensures pairs { MatchResult result
            (λ end. (end_data end ≡ next_end (ends_left self.old))
            × (script_pairs self.new ≡ script_pairs self.old ++ (launch_data launch.now, end_data end) ∷ []))
            (λ _. script_pairs self.new ≡ script_pairs self.old) }
    {
        let kept = launch.copy()?;
        let end = self.next()?;
        let kept_end = end.copy()?;
        self.done.push((kept, kept_end))?;
        self.ends.pop_front();
        Ok(end)
    }
}

impl Runner for Scripted {
    ghost pairs = { script_pairs };

    fn run(&mut self, launch: &Launch) -> Ended
        ensures added { AddsPair (script_pairs self.old) (launch_data launch.now) (end_data result)
            (script_pairs self.new) }
        ensures plays { Plays (ends_left self.old) (script_pairs self.old) (launch_data launch.now)
            (end_data result) (ends_left self.new) (script_pairs self.new) }
    {
        self.play(launch).unwrap_or(Ended::NoMemory)
    }
}
