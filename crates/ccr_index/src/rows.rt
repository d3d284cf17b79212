//! The builds of a named job, in the order in which they were made.

ghost use Rattle.std.specs.Prelude.{◌≡◌, ◌+◌, ◌-◌, ◌<◌, ◌≤◌, ◌^◌, ◌↔◌, ◌++◌, ◌==◌, ℕ, [], ◌∷◌, length, map, max, drop, if◌then◌else◌, slice_index_or, IsTrue, not, IfSome, IfNone, All, Any, Contains, OnOk, IsOk, vec_len, vec_capacity};
ghost use Rattle.std.specs.HashMap.{spare};
ghost use Rattle.ccr_choice.specs.Ascending.{AreAscending};
ghost use Rattle.ccr_choice.specs.Table.{build_of};
ghost use Rattle.ccr_index.specs.Rows.{no_build, number_for, size_for, is_among, last_with, AreDescending, numbered, IsTopPlace};
ghost use Rattle.ccr_index.specs.Alike.{does_count, counting, AreAmong, HasSmall, row_for};

use crate::alike::{Scopes, does_count, has_first, print_of};
use std::alloc::{AllocError, Global};
use std::collections::HashMap;
use std::marker::Model;

/// A build's number, and where its pairs lie in the pool.
#[derive(Clone, Copy, Drop)]
pub(crate) struct Row {
    number: u32,
    /// How many pairs the build has.
    count: u32,
    from: usize,
}

/// The last build with a pair, and the greatest one.
#[derive(Clone, Copy, Drop)]
pub(crate) struct Seen {
    /// One more than the row of the last build that has it.
    row: u32,
    /// How many pairs that count a build with it has at the most.
    size: u32,
}

/// Nothing is known of a pair that no build has.
const UNSEEN: Seen = Seen { row: 0, size: 0 };

/// The successful builds of a named job. Rows and pairs only grow, at their ends.
///
/// All pairs lie in one pool. With a list for each build, no room could be promised to a build that comes later.
#[derive(Drop)]
pub struct JobRows {
    /// The builds, the oldest first.
    rows: Vec<Row>,
    /// The pairs of all builds, those of each beside each other.
    pairs: Vec<(u32, u32)>,
    /// To each pair of the pool, one more than the row of the last earlier build with the same pair, or 0.
    earlier: Vec<u32>,
    /// What is known of each pair that a build has.
    seen: HashMap<(u32, u32), Seen>,
    /// Which scopes count.
    scopes: Scopes,
    /// To the print of builds of one kind, one more than the row of the last one with this print. A build with a pair
    /// that no earlier one has is of a new kind, and isn't noted here.
    prints: HashMap<u32, u32>,
    /// The greatest place of a pair, 0 where there is none.
    top: u32,
}

impl Model for JobRows {
    ghost use Rattle.std.specs.Prelude.{◌-◌, vec_len, vec_capacity, min};
    ghost use Rattle.std.specs.HashMap.{spare as room};
    ghost use Rattle.ccr_index.specs.Rows.{JobRowsValue, builds_of, AreRows, IsTopPlace, number_for, size_for, least};
    ghost use Rattle.ccr_index.specs.Alike.{ArePrinted, row_for};

    ghost Value = { JobRowsValue };

    ghost view = { λ a. record {
      builds = builds_of a.pairs.items a.rows.items;
      scopes = a.scopes;
      spare = min (room a.prints) (least (vec_capacity a.rows - vec_len a.rows) (vec_capacity a.pairs - vec_len a.pairs)
          (vec_capacity a.earlier - vec_len a.earlier) (room a.seen));
    } };

    ghost invariant = { λ a. AreRows a.pairs.items a.rows.items a.earlier.items (λ pair. number_for a.seen pair)
        × ArePrinted a.scopes (builds_of a.pairs.items a.rows.items) (λ n. row_for a.prints n) (λ pair. size_for a.seen pair)
        × IsTopPlace (builds_of a.pairs.items a.rows.items) a.top };
}

impl JobRows {
    /// No builds of a job for which these scopes count.
    pub(crate) fn new(alloc: Global, scopes: Scopes) -> Self
        ensures builds { result.builds ≡ [] }
        ensures scopes { result.scopes ≡ scopes }
    {
        JobRows {
            rows: Vec::new(alloc),
            pairs: Vec::new(alloc),
            earlier: Vec::new(alloc),
            seen: HashMap::new(alloc),
            scopes,
            prints: HashMap::new(alloc),
            top: 0,
        }
    }

    /// How many builds there are.
    pub fn len(&self) -> usize
        ensures { result ≡ length self.now.builds }
    {
        self.rows.len()
    }

    /// The number of build `build`, the newest being build 0.
    pub fn number(&self, build: usize) -> u32
        requires { build < length self.now.builds }
        ensures { result ≡ (slice_index_or self.now.builds build no_build).number }
    {
        self.rows[self.rows.len() - 1 - build].number
    }

    /// The number of the newest build, 0 where there is none.
    pub(crate) fn newest_number(&self) -> u32
        ensures { result ≡ (slice_index_or self.now.builds 0 no_build).number }
    {
        if self.len() == 0 {
            return 0;
        }
        self.number(0)
    }

    /// The pairs of build `build`, ascending, the newest build being build 0.
    pub fn pairs(&self, build: usize) -> &[(u32, u32)]
        requires { build < length self.now.builds }
        ensures value { result.now ≡ (slice_index_or self.now.builds build no_build).pairs }
        ensures ascending { AreAscending result.now }
    {
        let row = self.rows[self.rows.len() - 1 - build];
        &self.pairs[row.from..row.from + row.count as usize]
    }

    /// One more than the position of the build with this number, the newest being at position 0; 0 where no build has the
    /// number.
    pub(crate) fn position(&self, number: u32) -> usize
        requires { AreDescending self.now.builds }
        ensures { build_of self.now.builds result ≡ numbered self.now.builds number }
    {
        let at = self.rows.partition_point(|row| row.number < number);
        match self.rows.get(at) {
            Some(row) if row.number == number => self.rows.len() - at,
            _ => 0,
        }
    }

    /// The greatest place of a pair of these builds, 0 where there is none.
    pub fn top_place(&self) -> u32
        ensures { IsTopPlace self.now.builds result }
    {
        self.top
    }

    /// Whether some build has this pair.
    pub fn has_passed(&self, scope: u32, place: u32) -> bool
        ensures { IsTrue result ↔ Any (λ b. Contains b.pairs (scope, place)) self.now.builds }
    {
        self.last_with(scope, place) > 0
    }

    /// How many builds there are up to the newest one with this pair, counted from the oldest; 0 where none has the pair.
    pub fn last_with(&self, scope: u32, place: u32) -> usize
        ensures { result ≡ last_with self.now.builds (scope, place) }
    {
        self.seen
            .get(&(scope, place))
            .copied()
            .unwrap_or(UNSEEN)
            .row as usize
    }

    /// The same among the builds that are older than build `build`, which has the pair.
    pub fn last_before(&self, build: usize, scope: u32, place: u32) -> usize
        requires build { build < length self.now.builds }
        requires has { Contains (slice_index_or self.now.builds build no_build).pairs (scope, place) }
        ensures { result ≡ last_with (drop (build + 1) self.now.builds) (scope, place) }
    {
        let row = self.rows[self.rows.len() - 1 - build];
        let at = place_of(self.pairs(build), scope, place);
        self.earlier[row.from + at] as usize
    }

    /// Whether pairs in this scope count: whether an input of the scope names the job.
    pub fn does_count(&self, scope: u32) -> bool
        ensures { result ≡ does_count self.now.scopes scope }
    {
        does_count(&self.scopes, scope)
    }

    /// A build to look at first, where a build is sought that is newer than build `build` and has all its pairs that
    /// count: the newest one with the same print, which may be build `build` itself; None where it is known at once
    /// that there is none.
    pub fn newest_alike(&self, build: usize) -> Option<usize>
        requires { build < length self.now.builds }
        ensures some { IfSome result (λ q. q < length self.now.builds) }
        ensures none { IfNone result ((q : ℕ) → q < build → ¬ AreAmong self.now.scopes
            (slice_index_or self.now.builds build no_build).pairs (slice_index_or self.now.builds q no_build).pairs) }
    {
        let print = print_of(&self.scopes, self.pairs(build));
        let last = self.prints.get(&print.number).copied().unwrap_or(0) as usize;
        let alike = self.rows.len().saturating_sub(last);
        if alike >= build && self.has_small(build, print.size) {
            return None;
        }
        Some(alike.min(build))
    }

    /// Whether build `build` has a pair that counts, and no build with this pair has more than `most` pairs that count.
    fn has_small(&self, build: usize, most: usize) -> bool
        requires { build < length self.now.builds }
        ensures { IsTrue result → (x : ℕ × ℕ) × Contains (slice_index_or self.now.builds build no_build).pairs x
            × IsTrue (does_count self.now.scopes x.0)
            × All (λ b. Contains b.pairs x → length (counting self.now.scopes b.pairs) ≤ most) self.now.builds }
    {
        has_small(&self.scopes, &self.seen, self.pairs(build), most)
    }

    /// Makes room for so many builds and pairs.
    pub(crate) fn make_room(&mut self, pairs: usize) -> Result<(), AllocError>
        ensures builds { self.new.builds ≡ self.old.builds }
        ensures scopes { self.new.scopes ≡ self.old.scopes }
        ensures room { OnOk result (pairs ≤ self.new.spare) }
        ensures kept { self.old.spare ≤ self.new.spare }
        ensures succeeds { pairs ≤ self.old.spare → IsOk result }
    {
        self.rows.reserve(pairs)?;
        self.pairs.reserve(pairs)?;
        self.earlier.reserve(pairs)?;
        self.seen.reserve(pairs)?;
        self.prints.reserve(pairs)?;
        Ok(())
    }

    /// Adds a build that is newer than all others, for which there is room.
    pub(crate) fn add(&mut self, number: u32, pairs: &[(u32, u32)])
        requires ascending { AreAscending pairs.now }
        requires room { length pairs.now < self.old.spare }
        requires few { length pairs.now < 2 ^ 32 }
        requires limit { length self.old.builds < 1000000 }
        ensures builds { self.new.builds ≡ record { number = number; pairs = pairs.now } ∷ self.old.builds }
        ensures scopes { self.new.scopes ≡ self.old.scopes }
        ensures spare { self.old.spare ≤ self.new.spare + length pairs.now + 1 }
    {
        let row = self.rows.len();
        let from = self.pairs.len();
        let count = pairs.len() as u32;
        let print = print_of(&self.scopes, pairs);
        let next = row as u32 + 1;
        let size = print.size as u32;
        let top = self.top.max(top_of(pairs));
        note(&mut self.earlier, &mut self.seen, pairs, next, size);
        let is_new_kind = has_first(&self.scopes, pairs, &self.earlier[from..]);
        let has_pairs = self.pairs.extend_from_slice(pairs).is_ok();
        prove!(has_pairs);
        let has_row = self
            .rows
            .push(Row {
                number,
                count,
                from,
            })
            .is_ok();
        prove!(has_row);
        note_print(&mut self.prints, is_new_kind, print.number, row as u32 + 1);
        self.top = top;
    }
}

/// The greatest place of these pairs, 0 where there is none.
fn top_of(pairs: &[(u32, u32)]) -> u32
    ensures covers { All (λ q. q.1 ≤ result) pairs.now }
    ensures least { (n : ℕ) → All (λ q. q.1 ≤ n) pairs.now → result ≤ n }
{
    let mut top: u32 = 0;
    for pair in pairs {
        top = top.max(pair.1);
    }
    top
}

/// Where a pair stands among pairs that ascend, if it does.
fn place_of(pairs: &[(u32, u32)], scope: u32, place: u32) -> usize
    requires { AreAscending pairs.now }
    ensures { Contains pairs.now (scope, place)
        → (result < length pairs.now) × (slice_index_or pairs.now result (0, 0) ≡ (scope, place)) }
{
    pairs.partition_point(|q| q.0 < scope || (q.0 == scope && q.1 < place))
}

/// Notes of each of these pairs which row had it last, and that a row, by one more than its number, is now the last one
/// that has it, with so many pairs that count.
fn note(
    earlier: &mut Vec<u32>,
    seen: &mut HashMap<(u32, u32), Seen>,
    pairs: &[(u32, u32)],
    row: u32,
    size: u32,
)
    requires ascending { AreAscending pairs.now }
    requires earlier { length pairs.now ≤ vec_capacity earlier.old - vec_len earlier.old }
    requires seen { length pairs.now ≤ spare seen.old }
    ensures items { earlier.new.items ≡ earlier.old.items ++ map (λ q. number_for seen.old q) pairs.now }
    ensures spare_earlier { vec_capacity earlier.old - vec_len earlier.old
        ≤ vec_capacity earlier.new - vec_len earlier.new + length pairs.now }
    ensures spare_seen { spare seen.old ≤ spare seen.new + length pairs.now }
    ensures told { (pair : ℕ × ℕ) → number_for seen.new pair
        ≡ (if is_among pairs.now pair then row else number_for seen.old pair) }
    ensures sized { (pair : ℕ × ℕ) → size_for seen.new pair
        ≡ (if is_among pairs.now pair then max (size_for seen.old pair) size else size_for seen.old pair) }
{
    for pair in pairs {
        let before = seen.get(pair).copied().unwrap_or(UNSEEN);
        let has_room = earlier.push(before.row).is_ok();
        prove!(has_room);
        let has_place = seen
            .insert(
                *pair,
                Seen {
                    row,
                    size: before.size.max(size),
                },
            )
            .is_ok();
        prove!(has_place);
    }
}

/// Whether one of these pairs counts, and no build with it has more than `most` pairs that count.
fn has_small(
    scopes: &Scopes,
    seen: &HashMap<(u32, u32), Seen>,
    pairs: &[(u32, u32)],
    most: usize,
) -> bool
    ensures { IsTrue result → HasSmall scopes.now pairs.now (λ q. size_for seen.now q) most }
{
    for (scope, place) in pairs {
        let size = seen.get(&(*scope, *place)).copied().unwrap_or(UNSEEN).size;
        if does_count(scopes, *scope) && size as usize <= most {
            return true;
        }
    }
    false
}

/// Notes that a row, by one more than its number, is the last one with this print, unless it is of a new kind.
fn note_print(prints: &mut HashMap<u32, u32>, is_new_kind: bool, print: u32, row: u32)
    requires { 0 < spare prints.old }
    ensures spare { spare prints.old ≤ spare prints.new + 1 }
    ensures unless { IsTrue is_new_kind → (n : ℕ) → row_for prints.new n ≡ row_for prints.old n }
    ensures told { IsTrue (not is_new_kind) → (n : ℕ) → row_for prints.new n
        ≡ (if print == n then row else row_for prints.old n) }
{
    if is_new_kind {
        return;
    }
    let has_room = prints.insert(print, row).is_ok();
    prove!(has_room);
}
