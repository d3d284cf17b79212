//! Whether a row may be added to an index.

ghost use Rattle.std.specs.Prelude.{◌≡◌, ◌<◌, ◌↔◌, length, IsTrue};
ghost use Rattle.ccr_choice.specs.Problem.{IsProblem, scopes_after, are_pairs_after};
ghost use Rattle.ccr_index.specs.Index.{with_version, with_new_build};
ghost use Rattle.ccr_index.specs.Rows.{last_after};

use crate::index::Index;
use ccr_choice::{MOST_BUILDS, MOST_PLACES};

impl Index {
    /// Whether [`Index::add_version`] may be called so: there is such an input, and the place is greater than all its allowed
    /// places and within the limit.
    pub fn can_add_version(&self, input: usize, place: u32) -> bool
        ensures { IsTrue result ↔ (input < length self.now.problem.inputs)
            × IsProblem (with_version self.now.problem input place) }
    {
        if input >= self.input_count() {
            return false;
        }
        let last = last_place(self.input(input).places());
        last < place && place <= MOST_PLACES
    }

    /// Whether [`Index::add_build`] may be called so: there is such a job, the number is greater than those of all its builds and
    /// within the limit, and the pairs ascend and lie in the inputs' scopes.
    pub fn can_add_build(&self, job: usize, number: u32, pairs: &[(u32, u32)]) -> bool
        ensures { IsTrue result ↔ (job < length self.now.problem.jobs)
            × IsProblem (with_new_build self.now.problem job (record { number = number; pairs = pairs.now })) }
    {
        if job >= self.job_count() {
            return false;
        }
        let rows = self.rows(job);
        if number <= rows.newest_number() || number > MOST_BUILDS {
            return false;
        }
        if rows.len() >= MOST_BUILDS as usize {
            return false;
        }
        are_pairs(self.scope_count(), pairs)
    }

    /// How many scopes the inputs have.
    fn scope_count(&self) -> u32
        ensures { result ≡ scopes_after 0 self.now.problem.inputs }
    {
        let mut scopes = 0;
        for i in 0..self.input_count() {
            if self.input(i).scope() == scopes {
                scopes += 1;
            }
        }
        scopes
    }
}

/// The last of these places, 0 where there is none.
fn last_place(places: &[u32]) -> u32
    ensures { result ≡ last_after 0 places.now }
{
    if places.len() == 0 {
        return 0;
    }
    places[places.len() - 1]
}

/// Whether pairs strictly ascend, with scopes below this one.
fn are_pairs(scopes: u32, pairs: &[(u32, u32)]) -> bool
    ensures { result ≡ are_pairs_after scopes 0 0 pairs.now }
{
    let mut scope: u32 = 0;
    let mut place: u32 = 0;
    let mut rest = pairs;
    while let [(s, p), others @ ..] = rest {
        let ascends = scope < *s || (scope == *s && place < *p);
        if !ascends || *s >= scopes || *p == 0 || *p > MOST_PLACES {
            return false;
        }
        scope = *s;
        place = *p;
        rest = others;
    }
    true
}
