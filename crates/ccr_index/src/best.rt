//! The best possible places while some builds are fixed, and how many builds leave a place.

ghost use Rattle.std.specs.Prelude.{◌≡◌, ◌<◌, ◌≤◌, ◌↔◌, ℕ, length, slice_index, IsTrue, IfSome, IfNone, None, EachIndex, Contains};
ghost use Rattle.std.specs.Option.{option_copied, option_map};
ghost use Rattle.ccr_choice.specs.Problem.{input_at};
ghost use Rattle.ccr_choice.specs.Preference.{order_of};
ghost use Rattle.ccr_choice.specs.Possible.{CanHavePassed, IsPossible, IsBestPossible, IsBestPlace};
ghost use Rattle.ccr_choice.specs.Ascending.{AreAscending};
ghost use Rattle.ccr_choice.specs.Table.{assigned};
ghost use Rattle.ccr_index.specs.Index.{fixed_by, HasPassed, LeavesPlaces, IsViableCount};

use crate::index::Index;
use crate::ranks::ranks_in;
use ccr_choice::MOST_JOBS;
use ccr_choice::possible::{Fixed, has_pair, has_place};

/// For each named job the number of one of its successful builds, or 0 where the job is free.
pub type FixedBuilds = [u32; MOST_JOBS as usize];

/// Whether job `job` is among these.
pub(crate) fn names(jobs: &[u32], job: usize) -> bool
    ensures { IsTrue result ↔ Contains jobs.now job }
{
    jobs.iter().any(|j| *j as usize == job)
}

impl Index {
    /// The most preferred possible place of input `input` while these builds are fixed, or 0 where it has none.
    pub fn greatest(&self, input: usize, fixed: &FixedBuilds) -> u32
        requires { input < length self.now.problem.inputs }
        ensures { let p = self.now.problem in IsBestPlace (order_of p) p (fixed_by p fixed.now) input result }
    {
        self.greatest_at(input, &self.positions(fixed))
    }

    /// How many builds of job `job`, each fixed in place of any that `fixed` has for the job, leave each input that names the
    /// job a possible place.
    pub fn viable(&self, job: usize, fixed: &FixedBuilds) -> u32
        requires { job < length self.now.problem.jobs }
        ensures { IsViableCount self.now.problem (fixed_by self.now.problem fixed.now) job result }
    {
        self.viable_at(job, &self.positions(fixed))
    }

    /// The positions of the builds with these numbers.
    pub fn positions(&self, fixed: &FixedBuilds) -> Fixed
        ensures { assigned self.now.problem result ≡ fixed_by self.now.problem fixed.now }
    {
        let mut positions = [0; MOST_JOBS as usize];
        for j in 0..self.job_count() {
            positions[j] = self.rows(j).position(fixed[j]);
        }
        positions
    }

    /// As [`Index::greatest`], where the builds are fixed by their positions.
    pub fn greatest_at(&self, input: usize, fixed: &Fixed) -> u32
        requires { input < length self.now.problem.inputs }
        ensures { let p = self.now.problem in IsBestPlace (order_of p) p (assigned p fixed.now) input result }
    {
        match self.source(input, fixed) {
            Some(pairs) => self.best_in(input, fixed, pairs).unwrap_or(0),
            None => self.top(input),
        }
    }

    /// As [`Index::viable`], where the builds are fixed by their positions.
    pub fn viable_at(&self, job: usize, fixed: &Fixed) -> u32
        requires { job < length self.now.problem.jobs }
        ensures { IsViableCount self.now.problem (assigned self.now.problem fixed.now) job result }
    {
        let mut count = 0;
        for build in 0..self.rows(job).len() {
            let mut inner = *fixed;
            inner[job] = build + 1;
            if self.leaves_places(job, &inner) {
                count += 1;
            }
        }
        count
    }

    /// The jobs that input `input` names.
    pub(crate) fn named(&self, input: usize) -> &[u32]
        requires { input < length self.now.problem.inputs }
        ensures value { result.now ≡ (input_at self.now.problem input).jobs }
        ensures below { EachIndex result.now (λ k. slice_index result.now k < length self.now.problem.jobs) }
    {
        self.input(input).jobs()
    }

    /// The pairs of the fixed build of job `job`, if it has one.
    fn fixed_pairs(&self, job: usize, fixed: &Fixed) -> Option<&[(u32, u32)]>
        requires { job < length self.now.problem.jobs }
        ensures value { option_copied result ≡ option_map (λ b. b.pairs) (assigned self.now.problem fixed.now job) }
        ensures ascending { IfSome result (λ pairs. AreAscending pairs.now) }
    {
        let rows = self.rows(job);
        let build = fixed[job].checked_sub(1)?;
        if build < rows.len() {
            Some(rows.pairs(build))
        } else {
            None
        }
    }

    fn can_have_passed(&self, job: usize, fixed: &Fixed, scope: u32, place: u32) -> bool
        requires { job < length self.now.problem.jobs }
        ensures { let p = self.now.problem in IsTrue result ↔ CanHavePassed p (assigned p fixed.now) (scope, place) job }
    {
        match self.fixed_pairs(job, fixed) {
            Some(pairs) => has_pair(pairs, scope, place),
            None => self.rows(job).has_passed(scope, place),
        }
    }

    /// Whether a place can have passed each job that input `input` names.
    pub(crate) fn has_passed(&self, input: usize, fixed: &Fixed, place: u32) -> bool
        requires { input < length self.now.problem.inputs }
        ensures { IsTrue result ↔ HasPassed self.now.problem (assigned self.now.problem fixed.now) input place }
    {
        let scope = self.input(input).scope();
        for job in self.named(input) {
            if !self.can_have_passed(*job as usize, fixed, scope, place) {
                return false;
            }
        }
        true
    }

    fn is_possible(&self, input: usize, fixed: &Fixed, place: u32) -> bool
        requires { input < length self.now.problem.inputs }
        ensures { IsTrue result ↔ IsPossible self.now.problem (assigned self.now.problem fixed.now) input place }
    {
        has_place(self.input(input).places(), place) && self.has_passed(input, fixed, place)
    }

    /// The pairs of the first fixed build among those of the jobs that input `input` names.
    fn source(&self, input: usize, fixed: &Fixed) -> Option<&[(u32, u32)]>
        requires { input < length self.now.problem.inputs }
        ensures some { let p = self.now.problem in IfSome result
            (λ pairs. (place : ℕ) → IsPossible p (assigned p fixed.now) input place
            → Contains pairs.now ((input_at p input).scope, place)) }
        ensures none { IfNone result (EachIndex (input_at self.now.problem input).jobs
            (λ k. assigned self.now.problem fixed.now (slice_index (input_at self.now.problem input).jobs k) ≡ None)) }
        ensures ascending { IfSome result (λ pairs. AreAscending pairs.now) }
    {
        for job in self.named(input) {
            if let Some(pairs) = self.fixed_pairs(*job as usize, fixed) {
                return Some(pairs);
            }
        }
        None
    }

    /// The best possible place among a build's pairs, of which each possible one is one. The first one that is found is the best.
    fn best_in(&self, input: usize, fixed: &Fixed, pairs: &[(u32, u32)]) -> Option<u32>
        requires input { input < length self.now.problem.inputs }
        requires ascending { AreAscending pairs.now }
        requires all { (place : ℕ) → IsPossible self.now.problem (assigned self.now.problem fixed.now) input place
            → Contains pairs.now ((input_at self.now.problem input).scope, place) }
        ensures { let p = self.now.problem in IsBestPossible (order_of p) p (assigned p fixed.now) input result }
    {
        let rows = self.input(input);
        let scope = rows.scope();
        let ranks = ranks_in(rows.after(), pairs, scope);
        for rank in 0..ranks.to {
            let (at, place) = pairs[ranks.position(rank)];
            if at != scope {
                return None;
            }
            if self.is_possible(input, fixed, place) {
                return Some(place);
            }
        }
        None
    }

    /// Whether each input that names job `job` has a possible place.
    fn leaves_places(&self, job: usize, fixed: &Fixed) -> bool
        ensures { IsTrue result ↔ LeavesPlaces self.now.problem (assigned self.now.problem fixed.now) job }
    {
        for i in 0..self.input_count() {
            if names(self.named(i), job) && self.greatest_at(i, fixed) == 0 {
                return false;
            }
        }
        true
    }
}
