//! A problem whose builds an index holds.

ghost use Rattle.std.specs.Prelude.{◌≡◌, ◌<◌, length, All};
ghost use Rattle.ccr_choice.specs.Ascending.{AreRising};
ghost use Rattle.ccr_choice.specs.Problem.{builds_at, IsProblem};
ghost use Rattle.ccr_explain.specs.Cut.{IsTop};

use ccr_choice::Input;
use ccr_index::{Index, JobRows};
use std::marker::Model;

/// A problem: these inputs, and the builds of the problem that an index stands for. So other inputs are asked about
/// without a copy of all builds.
#[derive(Drop)]
pub(crate) struct Indexed<'a> {
    inputs: &'a [Input],
    index: &'a Index,
    /// No build has a pair of a greater place.
    top: u32,
}

impl<'a> Model for Indexed<'a> {
    ghost use Rattle.ccr_choice.specs.Problem.{ProblemValue};
    ghost use Rattle.ccr_explain.specs.Cut.{IsProblemUpTo};

    ghost Value = { ProblemValue };

    ghost view = { λ a. record a.index.now.problem { inputs = a.inputs.now } };

    ghost invariant = { λ a. IsProblemUpTo (record a.index.now.problem { inputs = a.inputs.now }) a.top };
}

impl<'a> Indexed<'a> {
    /// The problem of these inputs and an index's builds.
    pub(crate) fn new(inputs: &'a [Input], index: &'a Index) -> Indexed<'a>
        requires { IsProblem (record index.now.problem { inputs = inputs.now }) }
        ensures { result ≡ record index.now.problem { inputs = inputs.now } }
    {
        let top = top_place(index);
        Indexed { inputs, index, top }
    }

    /// The inputs, in plan order.
    pub(crate) fn inputs(&self) -> &'a [Input]
        ensures value { result.now ≡ self.now.inputs }
        ensures rising { All (λ x. AreRising x.places) result.now }
        ensures kept { IsProblem self.now }
    {
        self.inputs
    }

    /// How many named jobs there are, at most 32.
    pub(crate) fn job_count(&self) -> usize
        ensures { result ≡ length self.now.jobs }
    {
        self.index.job_count()
    }

    /// The builds of named job `job`, newest first.
    pub(crate) fn rows(&self, job: usize) -> &'a JobRows
        requires { job < length self.now.jobs }
        ensures value { result.now.builds ≡ builds_at self.now job }
        ensures kept { IsProblem self.now }
    {
        self.index.rows(job)
    }

    /// A place from 1 to 100,000 than which no build has a pair of a greater one.
    pub(crate) fn top(&self) -> u32
        ensures { IsTop self.now result }
    {
        self.top
    }
}

/// The greatest place of a pair, at least 1.
fn top_place(index: &Index) -> u32
    ensures { IsTop index.now.problem result }
{
    let mut top = 1;
    for job in 0..index.job_count() {
        top = index.rows(job).top_place().max(top);
    }
    top
}
