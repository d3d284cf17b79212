//! The best places where nothing is fixed, once a place or a build is added, or a place is kept.

ghost use Rattle.std.specs.Prelude.{◌<◌, ◌↔◌, ℕ, length, IsTrue};
ghost use Rattle.ccr_choice.specs.Problem.{IsProblem};
ghost use Rattle.ccr_choice.specs.Preference.{order_of};
ghost use Rattle.ccr_choice.specs.Assignment.{nothing_fixed};
ghost use Rattle.ccr_choice.specs.Possible.{IsBestPlace};
ghost use Rattle.ccr_choice.specs.Ascending.{AreAscending};
ghost use Rattle.ccr_index.specs.Index.{AreTops, with_version, with_after, with_new_build, IsTopWith, IsPossibleWith};

use crate::index::Index;
use crate::ranks::{ranks_in, ranks_of};
use ccr_choice::possible::has_place;
use ccr_choice::{MOST_INPUTS, MOST_JOBS, is_preferred};

impl Index {
    /// The best place of input `input`, once it has one more allowed place, the last.
    pub(crate) fn top_with_place(&self, input: usize, place: u32) -> u32
        requires input { input < length self.now.problem.inputs }
        requires rules { IsProblem (with_version self.now.problem input place) }
        ensures { let after = with_version self.now.problem input place
            in IsBestPlace (order_of after) after nothing_fixed input result }
    {
        let top = self.top(input);
        let is_first = is_preferred(self.input(input).after(), place, top);
        if is_first && self.has_passed(input, &[0; MOST_JOBS as usize], place) {
            place
        } else {
            top
        }
    }

    /// The best place of input `input`, once this place is kept for it.
    pub(crate) fn top_after(&self, input: usize, kept: u32) -> u32
        requires { input < length self.now.problem.inputs }
        ensures { let after = with_after self.now.problem input kept
            in IsBestPlace (order_of after) after nothing_fixed input result }
    {
        let places = self.input(input).places();
        let ranks = ranks_of(Some(kept), places);
        for rank in 0..ranks.to {
            let place = places[ranks.position(rank)];
            if self.has_passed(input, &[0; MOST_JOBS as usize], place) {
                return place;
            }
        }
        0
    }

    /// The best place of each input, once job `job` has one more build, with these pairs.
    pub(crate) fn tops_with(&self, job: usize, pairs: &[(u32, u32)]) -> [u32; MOST_INPUTS as usize]
        requires job { job < length self.now.problem.jobs }
        requires ascending { AreAscending pairs.now }
        ensures { (number : ℕ)
            → IsProblem (with_new_build self.now.problem job (record { number = number; pairs = pairs.now }))
            → AreTops (with_new_build self.now.problem job (record { number = number; pairs = pairs.now })) result }
    {
        let mut tops = [0; MOST_INPUTS as usize];
        for i in 0..self.input_count() {
            tops[i] = self.top_with(i, job, pairs);
        }
        tops
    }

    /// The best place of input `input`, once job `job` has one more build, with these pairs.
    fn top_with(&self, input: usize, job: usize, pairs: &[(u32, u32)]) -> u32
        requires input { input < length self.now.problem.inputs }
        requires job { job < length self.now.problem.jobs }
        requires ascending { AreAscending pairs.now }
        ensures { (number : ℕ) → IsTopWith self.now.problem job number pairs.now input result }
    {
        let top = self.top(input);
        let rows = self.input(input);
        let (scope, after) = (rows.scope(), rows.after());
        let ranks = ranks_in(after, pairs, scope);
        for rank in 0..ranks.to {
            let (at, place) = pairs[ranks.position(rank)];
            if at != scope || !is_preferred(after, place, top) {
                return top;
            }
            if self.is_possible_with(input, place, job) {
                return place;
            }
        }
        top
    }

    /// Whether a place of input `input` is possible where nothing is fixed, once job `job` has a build with it.
    fn is_possible_with(&self, input: usize, place: u32, job: usize) -> bool
        requires { input < length self.now.problem.inputs }
        ensures { IsTrue result ↔ IsPossibleWith self.now.problem job input place }
    {
        let scope = self.input(input).scope();
        for name in self.named(input) {
            let named = *name as usize;
            if named != job && !self.rows(named).has_passed(scope, place) {
                return false;
            }
        }
        has_place(self.input(input).places(), place)
    }
}
