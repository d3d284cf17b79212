//! Problems, and readers of their parts.

use std::marker::Model;

/// How many inputs a problem has at the most.
pub const MOST_INPUTS: u32 = 32;
/// How many named jobs a problem has at the most.
pub const MOST_JOBS: u32 = 32;
/// The greatest place of a scope; places begin at 1.
pub const MOST_PLACES: u32 = 100_000;
/// The greatest number of a build, and how many builds a job has at the most; numbers begin at 1.
pub const MOST_BUILDS: u32 = 1_000_000;

/// An input of a job: its scope, its allowed places, the jobs that its version must have passed, and for an input that
/// takes every version the place that the newest build which used it had.
#[derive(Drop)]
pub struct Input {
    scope: u32,
    places: Vec<u32>,
    jobs: Vec<u32>,
    after: Option<u32>,
}

impl Model for Input {
    ghost use Rattle.ccr_choice.specs.Problem.{InputValue};

    ghost Value = { InputValue };

    ghost view = { λ a. record { scope = a.scope; places = a.places.items; jobs = a.jobs.items; after = a.after } };
}

/// A successful build of a job, with the pairs of scope and place that passed the job with it.
#[derive(Drop)]
pub struct Build {
    number: u32,
    pairs: Vec<(u32, u32)>,
}

impl Model for Build {
    ghost use Rattle.ccr_choice.specs.Problem.{BuildValue};

    ghost Value = { BuildValue };

    ghost view = { λ a. record { number = a.number; pairs = a.pairs.items } };
}

/// The successful builds of a named job, newest first.
#[derive(Drop)]
pub struct JobBuilds {
    builds: Vec<Build>,
}

impl Model for JobBuilds {
    ghost use Rattle.std.specs.Prelude.{List};
    ghost use Rattle.ccr_choice.specs.Problem.{BuildValue};

    ghost Value = { List BuildValue };

    ghost view = { λ a. a.builds.items };
}

/// The inputs of a job in plan order, and for each named job its successful builds, newest first.
///
/// Every problem keeps the rules of its text (`specs/Problem.antt`): at most 32 inputs and 32 named jobs; scopes and
/// jobs numbered in order of first mention; places from 1 to 100,000, allowed ones and pairs strictly ascending; build
/// numbers from 1 to 1,000,000 strictly descending.
#[derive(Drop)]
pub struct Problem {
    inputs: Vec<Input>,
    jobs: Vec<JobBuilds>,
}

impl Model for Problem {
    ghost use Rattle.ccr_choice.specs.Problem.{ProblemValue, IsProblem};

    ghost Value = { ProblemValue };

    ghost view = { λ a. record { inputs = a.inputs.items; jobs = a.jobs.items } };

    ghost invariant = { λ a. IsProblem (record { inputs = a.inputs.items; jobs = a.jobs.items }) };
}

ghost use Rattle.std.specs.Prelude.{◌≡◌, ◌<◌, ◌≤◌, length, EachIndex, IsTrue, slice_index};
ghost use Rattle.ccr_choice.specs.Problem.{are_builds, builds_at, input_at, scopes_after, IsProblem};

impl Input {
    /// An input of these parts.
    pub fn new(scope: u32, jobs: Vec<u32>, after: Option<u32>, places: Vec<u32>) -> Self
        ensures { result ≡ record { scope = scope; places = places.items; jobs = jobs.items; after = after } }
    {
        Input {
            scope,
            places,
            jobs,
            after,
        }
    }

    /// The number of the scope whose versions this input takes, from 0 in order of first mention.
    pub fn scope(&self) -> u32
        ensures { result ≡ self.now.scope }
    {
        self.scope
    }

    /// The allowed places, ascending.
    pub fn places(&self) -> &[u32]
        ensures { result.now ≡ self.now.places }
    {
        &self.places
    }

    /// The named jobs, in the order in which the input names them (Concourse: get step, `passed`).
    pub fn jobs(&self) -> &[u32]
        ensures { result.now ≡ self.now.jobs }
    {
        &self.jobs
    }

    /// The place that is kept of the newest build which used this input in this scope, from 1; it needn't be allowed
    /// (Concourse: get step, `version: every`). None where no such build was made, and for every other input.
    pub fn after(&self) -> Option<u32>
        ensures { result ≡ self.now.after }
    {
        self.after
    }
}

impl Build {
    /// A build of these parts.
    pub fn new(number: u32, pairs: Vec<(u32, u32)>) -> Self
        ensures { result ≡ record { number = number; pairs = pairs.items } }
    {
        Build { number, pairs }
    }

    /// The build's number in its job, from 1.
    pub fn number(&self) -> u32
        ensures { result ≡ self.now.number }
    {
        self.number
    }

    /// The pairs of scope and place that passed the job with this build, ascending.
    pub fn pairs(&self) -> &[(u32, u32)]
        ensures { result.now ≡ self.now.pairs }
    {
        &self.pairs
    }
}

impl JobBuilds {
    /// The builds of one job.
    pub fn new(builds: Vec<Build>) -> Self
        ensures { result ≡ builds.items }
    {
        JobBuilds { builds }
    }

    /// The successful builds, newest first.
    pub fn builds(&self) -> &[Build]
        ensures { result.now ≡ self.now }
    {
        &self.builds
    }
}

impl Problem {
    /// A problem of parts that keep the rules.
    pub fn new(inputs: Vec<Input>, jobs: Vec<JobBuilds>) -> Self
        requires { IsProblem (record { inputs = inputs.items; jobs = jobs.items }) }
        ensures { result ≡ record { inputs = inputs.items; jobs = jobs.items } }
    {
        Problem { inputs, jobs }
    }

    /// The inputs, in plan order.
    pub fn inputs(&self) -> &[Input]
        ensures value { result.now ≡ self.now.inputs }
        ensures kept { IsProblem self.now }
        ensures few { length result.now ≤ MOST_INPUTS }
    {
        &self.inputs
    }

    /// The builds of each named job, in order of first mention.
    pub fn jobs(&self) -> &[JobBuilds]
        ensures value { result.now ≡ self.now.jobs }
        ensures kept { IsProblem self.now }
        ensures few { length result.now ≤ MOST_JOBS }
    {
        self.jobs.as_slice()
    }

    /// The jobs that input `input` names; each of them is a named job of the problem.
    pub fn named(&self, input: usize) -> &[u32]
        requires { input < length self.now.inputs }
        ensures value { result.now ≡ (input_at self.now input).jobs }
        ensures below { EachIndex result.now (λ k. slice_index result.now k < length self.now.jobs) }
    {
        self.inputs()[input].jobs()
    }

    /// The place that is kept for input `input`. None where none is, or where there is no such input.
    pub fn after(&self, input: usize) -> Option<u32>
        ensures { result ≡ (input_at self.now input).after }
    {
        match self.inputs().get(input) {
            Some(found) => found.after(),
            None => None,
        }
    }

    /// The successful builds of named job `job`, newest first.
    pub fn builds(&self, job: usize) -> &[Build]
        requires { job < length self.now.jobs }
        ensures value { result.now ≡ builds_at self.now job }
        ensures kept { IsTrue (are_builds (scopes_after 0 self.now.inputs) result.now) }
    {
        self.jobs()[job].builds()
    }
}
