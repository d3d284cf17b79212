//! What the end of a build brings to the indexes.
ghost use Rattle.std.specs.Prelude.{◌≡◌, ◌≢◌, [], None, map, option_map, slice_index_or, AllPairs, IfOk};
ghost use Rattle.ccr_pipeline.specs.Inputs.{inputs};
ghost use Rattle.ccr_pipeline.specs.Pipelines.{pipeline_data};
ghost use Rattle.ccr_problem.specs.Follows.{passed_to};
ghost use Rattle.ccr_problem.specs.Indexes.{IsBrought};
ghost use Rattle.ccr_problem.specs.Passing.{passed_value};

use crate::coming::{Passed, passed_to};
use ccr_history::{History, Status};
use ccr_pipeline::Pipeline;
use std::alloc::{AllocError, Global};
use std::marker::Model;

/// What the end of a build brings to the index of each job of a pipeline, in order: something where the build succeeded and
/// the job's inputs name the build's job.
#[derive(Drop)]
pub struct Brought {
    number: u32,
    to: Vec<Option<Passed>>,
}

impl Model for Brought {
    ghost use Rattle.std.specs.Prelude.{ℕ, List, Option, map};
    ghost use Rattle.ccr_choice.specs.Problem.{BuildValue};
    ghost use Rattle.ccr_problem.specs.Passing.{passed_value};

    ghost Value = { List (Option (ℕ × BuildValue)) };

    ghost view = { λ b. map (passed_value b.number) b.to.items };
}

/// What the success of a build with these pairs brings to each job.
fn passed_to_all(
    alloc: Global,
    pipeline: &Pipeline,
    history: &History,
    pairs: &[(u32, u32)],
    name: &str,
    number: u32,
) -> Result<Vec<Option<Passed>>, AllocError>
    requires { AllPairs (λ p q. p ≢ q) pairs.now }
    ensures { IfOk result (λ v. map (passed_value number) v.items
        ≡ map (λ j. passed_to (pipeline_data pipeline.now) history.now (inputs j.plan) name.now number pairs.now)
        (pipeline_data pipeline.now).jobs) }
{
    let mut to = Vec::new(alloc);
    for job in pipeline.jobs() {
        to.push(passed_to(alloc, pipeline, history, pairs, name, number, job)?)?;
    }
    Ok(to)
}

impl Brought {
    /// Nothing.
    pub fn nothing(alloc: Global) -> Brought
        ensures { result ≡ [] }
    {
        Brought {
            number: 0,
            to: Vec::new(alloc),
        }
    }

    /// What the end of a build, with these pairs, brings to the indexes of a pipeline's jobs.
    ///
    /// Of the history it reads the numbers of scopes alone. The caller gives each pair once. The only error is out of memory.
    pub fn of(
        alloc: Global,
        pipeline: &Pipeline,
        history: &History,
        job: &str,
        number: u32,
        status: Status,
        pairs: &[(u32, u32)],
    ) -> Result<Brought, AllocError>
        requires { AllPairs (λ p q. p ≢ q) pairs.now }
        ensures { IfOk result (IsBrought (pipeline_data pipeline.now) history.now job.now number status pairs.now) }
    {
        let to = match status {
            Status::Succeeded => passed_to_all(alloc, pipeline, history, pairs, job, number)?,
            Status::Running | Status::Failed | Status::Errored | Status::Aborted => {
                Vec::new(alloc)
            }
        };
        Ok(Brought { number, to })
    }

    /// What comes to the index at a position, with the build's number.
    pub(crate) fn at(&self, position: usize) -> Option<(&Passed, u32)>
        ensures { option_map (λ x. (x.0.now.job, record { number = x.1; pairs = x.0.now.pairs.items })) result
            ≡ slice_index_or self.now position None }
    {
        match self.to.get(position) {
            Some(Some(passed)) => Some((passed, self.number)),
            _ => None,
        }
    }
}
