//! An input of a problem, with room for further places.

ghost use Rattle.std.specs.Prelude.{◌≡◌, ◌+◌, ◌<◌, ◌≤◌, [], ◌∷◌, ◌++◌, IfOk, OnOk, IsOk};
ghost use Rattle.ccr_index.specs.Rows.{with_place, with_kept};

use ccr_choice::Input;
use std::alloc::{AllocError, Global};
use std::marker::Model;

/// An input: its scope, its allowed places, the jobs that it names, and the place that is kept for it, if one is.
#[derive(Drop)]
pub struct InputRows {
    scope: u32,
    places: Vec<u32>,
    jobs: Vec<u32>,
    after: Option<u32>,
}

impl Model for InputRows {
    ghost use Rattle.std.specs.Prelude.{◌-◌, vec_len, vec_capacity};
    ghost use Rattle.ccr_index.specs.Rows.{InputRowsValue};

    ghost Value = { InputRowsValue };

    ghost view = { λ a. record {
      input = record { scope = a.scope; places = a.places.items; jobs = a.jobs.items; after = a.after };
      spare = vec_capacity a.places - vec_len a.places;
    } };
}

impl InputRows {
    /// A copy of an input of a problem.
    pub(crate) fn of(alloc: Global, input: &Input) -> Result<Self, AllocError>
        ensures { IfOk result (λ copy. copy.input ≡ input.now) }
    {
        let places = Vec::from_slice(alloc, input.places())?;
        let jobs = Vec::from_slice(alloc, input.jobs())?;
        Ok(InputRows {
            scope: input.scope(),
            places,
            jobs,
            after: input.after(),
        })
    }

    /// The number of the scope whose versions the input takes.
    pub fn scope(&self) -> u32
        ensures { result ≡ self.now.input.scope }
    {
        self.scope
    }

    /// The allowed places, ascending.
    pub fn places(&self) -> &[u32]
        ensures { result.now ≡ self.now.input.places }
    {
        &self.places
    }

    /// The jobs that the input's version must have passed (Concourse: get step, `passed`).
    pub fn jobs(&self) -> &[u32]
        ensures { result.now ≡ self.now.input.jobs }
    {
        &self.jobs
    }

    /// The place that is kept of the newest build which used the input: the places above it come first (Concourse: get step,
    /// `version: every`). None where the last allowed place comes first.
    pub fn after(&self) -> Option<u32>
        ensures { result ≡ self.now.input.after }
    {
        self.after
    }

    /// Keeps a place.
    pub(crate) fn keep(&mut self, place: u32)
        ensures input { self.new.input ≡ with_kept self.old.input place }
        ensures spare { self.new.spare ≡ self.old.spare }
    {
        self.after = Some(place);
    }

    /// Makes room for so many places.
    pub(crate) fn make_room(&mut self, places: usize) -> Result<(), AllocError>
        ensures input { self.new.input ≡ self.old.input }
        ensures room { OnOk result (places ≤ self.new.spare) }
        ensures kept { self.old.spare ≤ self.new.spare }
        ensures succeeds { places ≤ self.old.spare → IsOk result }
    {
        self.places.reserve(places)
    }

    /// Adds a place behind all others, for which there is room.
    pub(crate) fn add(&mut self, place: u32)
        requires { 0 < self.old.spare }
        ensures input { self.new.input ≡ with_place self.old.input place }
        ensures spare { self.old.spare ≤ self.new.spare + 1 }
    {
        let has_room = self.places.push(place).is_ok();
        prove!(has_room);
    }
}
