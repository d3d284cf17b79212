//! The index of a problem: its parts, and how it follows the problem row by row.

ghost use Rattle.std.specs.Prelude.{◌≡◌, ◌<◌, ◌≤◌, ◌+◌, ◌↔◌, ℕ, length, map, max, slice_index, IsTrue, EachIndex, All, OnOk, OnErr, IsOk};
ghost use Rattle.ccr_choice.specs.Problem.{input_at, builds_at, IsProblem};
ghost use Rattle.ccr_choice.specs.Preference.{order_of};
ghost use Rattle.ccr_choice.specs.Assignment.{nothing_fixed};
ghost use Rattle.ccr_choice.specs.Possible.{IsBestPlace};
ghost use Rattle.ccr_choice.specs.Ascending.{AreAscending, AreRising};
ghost use Rattle.ccr_choice.specs.Dominated.{IsNamedIn};
ghost use Rattle.ccr_index.specs.Rows.{AreDescending};
ghost use Rattle.ccr_index.specs.Alike.{does_count, AreCounted};
ghost use Rattle.ccr_index.specs.Index.{problem_in, AreTops, with_version, with_after, with_new_build, left_after};

use crate::input::InputRows;
use crate::rows::JobRows;
use ccr_choice::{MOST_INPUTS, MOST_PLACES};
use std::alloc::AllocError;
use std::marker::Model;

/// A problem, with the best place of each input where nothing is fixed.
#[derive(Drop)]
pub struct Index {
    inputs: Vec<InputRows>,
    jobs: Vec<JobRows>,
    /// The best place of each input where nothing is fixed, 0 where it has none.
    tops: [u32; MOST_INPUTS as usize],
    /// How many further places each input has room for.
    spare_places: usize,
    /// How many further pairs and builds each job has room for.
    spare_pairs: usize,
}

impl Model for Index {
    ghost use Rattle.ccr_index.specs.Index.{IndexValue, problem_in, IsIndex};

    ghost Value = { IndexValue };

    ghost view = { λ a. record {
      problem = problem_in a.inputs.items a.jobs.items;
      spare_places = a.spare_places;
      spare_pairs = a.spare_pairs;
    } };

    ghost invariant = { λ a. IsIndex a.inputs.items a.jobs.items a.tops a.spare_places a.spare_pairs };
}

impl Index {
    /// An index of these parts, without room for more.
    pub(crate) fn new(
        inputs: Vec<InputRows>,
        jobs: Vec<JobRows>,
        tops: [u32; MOST_INPUTS as usize],
    ) -> Self
        requires tops { AreTops (problem_in inputs.items jobs.items) tops }
        requires counted { AreCounted (map (λ x. x.input) inputs.items) (map (λ r. r.scopes) jobs.items) }
        ensures { result ≡ record { problem = problem_in inputs.items jobs.items; spare_places = 0; spare_pairs = 0 } }
    {
        Index {
            inputs,
            jobs,
            tops,
            spare_places: 0,
            spare_pairs: 0,
        }
    }

    /// How many inputs there are, at most 32.
    pub fn input_count(&self) -> usize
        ensures value { result ≡ length self.now.problem.inputs }
        ensures few { result ≤ 32 }
        ensures kept { IsProblem self.now.problem }
    {
        self.inputs.len()
    }

    /// How many named jobs there are, at most 32.
    pub fn job_count(&self) -> usize
        ensures value { result ≡ length self.now.problem.jobs }
        ensures few { result ≤ 32 }
        ensures kept { IsProblem self.now.problem }
    {
        self.jobs.len()
    }

    /// Input `input`, in plan order from 0.
    pub fn input(&self, input: usize) -> &InputRows
        requires { input < length self.now.problem.inputs }
        ensures value { result.now.input ≡ input_at self.now.problem input }
        ensures rising { AreRising result.now.input.places }
        ensures below { EachIndex result.now.input.jobs
            (λ k. slice_index result.now.input.jobs k < length self.now.problem.jobs) }
        ensures kept { IsProblem self.now.problem }
    {
        &self.inputs[input]
    }

    /// The successful builds of named job `job`, in order of first mention from 0.
    pub fn rows(&self, job: usize) -> &JobRows
        requires { job < length self.now.problem.jobs }
        ensures value { result.now.builds ≡ builds_at self.now.problem job }
        ensures few { length result.now.builds ≤ 1000000 }
        ensures descending { AreDescending result.now.builds }
        ensures limit { length self.now.problem.jobs ≤ 32 }
        ensures counted { (scope : ℕ) → IsTrue (does_count result.now.scopes scope) ↔ IsNamedIn self.now.problem job scope }
    {
        &self.jobs[job]
    }

    /// The most preferred possible place of input `input` where nothing is fixed, or 0.
    pub fn top(&self, input: usize) -> u32
        requires { input < length self.now.problem.inputs }
        ensures { IsBestPlace (order_of self.now.problem) self.now.problem nothing_fixed input result }
    {
        let tops = &self.tops;
        tops[input]
    }

    /// Makes room for at least so many further places of each input, and so many further pairs and builds of each job.
    pub fn make_room(&mut self, places: usize, pairs: usize) -> Result<(), AllocError>
        ensures ok { OnOk result (self.new ≡ record {
          problem = self.old.problem;
          spare_places = max self.old.spare_places places;
          spare_pairs = max self.old.spare_pairs pairs;
        }) }
        ensures err { OnErr result (self.new ≡ self.old) }
    {
        let places = self.spare_places.max(places);
        let pairs = self.spare_pairs.max(pairs);
        room_in_inputs(&mut self.inputs, places)?;
        room_in_jobs(&mut self.jobs, pairs)?;
        self.spare_places = places;
        self.spare_pairs = pairs;
        Ok(())
    }

    /// Adds an allowed place of input `input` that is greater than all its others.
    ///
    /// Where there is room for a place, it is used up, and the call isn't refused.
    pub fn add_version(&mut self, input: usize, place: u32) -> Result<(), AllocError>
        requires input { input < length self.old.problem.inputs }
        requires rules { IsProblem (with_version self.old.problem input place) }
        ensures ok { OnOk result (self.new ≡ record {
          problem = with_version self.old.problem input place;
          spare_places = left_after self.old.spare_places 1;
          spare_pairs = self.old.spare_pairs;
        }) }
        ensures err { OnErr result (self.new ≡ self.old) }
        ensures succeeds { 1 ≤ self.old.spare_places → IsOk result }
    {
        let left = self.spare_places.saturating_sub(1);
        let top = self.top_with_place(input, place);
        let rows = &mut self.inputs[input];
        rows.make_room(left + 1)?;
        rows.add(place);
        self.tops[input] = top;
        self.spare_places = left;
        Ok(())
    }

    /// Keeps a place for input `input`, that of a build which used it, in place of any that was kept: the places above
    /// it now come first (Concourse: get step, `version: every`). It takes no memory.
    pub fn set_after(&mut self, input: usize, place: u32)
        requires input { input < length self.old.problem.inputs }
        requires some { 0 < place }
        requires most { place ≤ MOST_PLACES }
        ensures { self.new ≡ record {
          problem = with_after self.old.problem input place;
          spare_places = self.old.spare_places;
          spare_pairs = self.old.spare_pairs;
        } }
    {
        let first = self.top_after(input, place);
        self.inputs[input].keep(place);
        self.tops[input] = first;
    }

    /// Adds a build of named job `job`, with its pairs of scope and place, that is newer than all others.
    ///
    /// Where there is room for its pairs and one more, this is used up, and the call isn't refused.
    pub fn add_build(
        &mut self,
        job: usize,
        number: u32,
        pairs: &[(u32, u32)],
    ) -> Result<(), AllocError>
        requires job { job < length self.old.problem.jobs }
        requires rules { IsProblem
            (with_new_build self.old.problem job (record { number = number; pairs = pairs.now })) }
        ensures ok { OnOk result (self.new ≡ record {
          problem = with_new_build self.old.problem job (record { number = number; pairs = pairs.now });
          spare_places = self.old.spare_places;
          spare_pairs = left_after self.old.spare_pairs (length pairs.now + 1);
        }) }
        ensures err { OnErr result (self.new ≡ self.old) }
        ensures succeeds { length pairs.now + 1 ≤ self.old.spare_pairs → IsOk result }
    {
        let added = pairs.len() + 1;
        let left = if added <= self.spare_pairs {
            self.spare_pairs - added
        } else {
            self.spare_pairs
        };
        let tops = self.tops_with(job, pairs);
        let rows = &mut self.jobs[job];
        rows.make_room(left + added)?;
        rows.add(number, pairs);
        self.tops = tops;
        self.spare_pairs = left;
        Ok(())
    }
}

/// Makes room for so many places in each of these inputs.
fn room_in_inputs(inputs: &mut [InputRows], places: usize) -> Result<(), AllocError>
    ensures inputs { map (λ x. x.input) inputs.new ≡ map (λ x. x.input) inputs.old }
    ensures room { OnOk result (All (λ x. places ≤ x.spare) inputs.new) }
    ensures kept { (n : ℕ) → All (λ x. n ≤ x.spare) inputs.old → All (λ x. n ≤ x.spare) inputs.new }
{
    for i in 0..inputs.len() {
        inputs[i].make_room(places)?;
    }
    Ok(())
}

/// Makes room for so many pairs and builds in each of these jobs.
fn room_in_jobs(jobs: &mut [JobRows], pairs: usize) -> Result<(), AllocError>
    ensures builds { map (λ r. r.builds) jobs.new ≡ map (λ r. r.builds) jobs.old }
    ensures scopes { map (λ r. r.scopes) jobs.new ≡ map (λ r. r.scopes) jobs.old }
    ensures room { OnOk result (All (λ r. pairs ≤ r.spare) jobs.new) }
    ensures kept { (n : ℕ) → All (λ r. n ≤ r.spare) jobs.old → All (λ r. n ≤ r.spare) jobs.new }
{
    for j in 0..jobs.len() {
        jobs[j].make_room(pairs)?;
    }
    Ok(())
}
