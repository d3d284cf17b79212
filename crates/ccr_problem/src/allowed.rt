//! Which versions an input may take.
ghost use Rattle.std.specs.Prelude.{◌≡◌, ◌≤◌, ◌+◌, length, IfOk};
ghost use Rattle.std.specs.Option.{option_copied};
ghost use Rattle.ccr_history.specs.TextMap.{meets};
ghost use Rattle.ccr_problem.specs.Allowed.{meets_if, meets_all, places_from, allowed_places};
ghost use Rattle.ccr_problem.specs.ProblemOf.{is_disabled_at};

use ccr_history::{History, Pin, Version};
use std::alloc::{AllocError, Global};
use std::marker::Model;

/// The pins that hold an input to some of its versions, as far as there are such.
#[derive(Drop)]
pub(crate) struct Pins<'p> {
    /// The pin that the pipeline sets on the resource.
    pub(crate) by_resource: Option<&'p Pin>,
    /// The pin that the get sets.
    pub(crate) by_get: Option<&'p Pin>,
    /// The pin that was set on the resource by command.
    pub(crate) by_command: Option<&'p Pin>,
}

impl<'p> Model for Pins<'p> {
    ghost use Rattle.std.specs.Option.{option_copied};
    ghost use Rattle.ccr_problem.specs.Allowed.{PinsData};

    ghost Value = { PinsData };

    ghost view = { λ p. record {
      by_resource = option_copied p.by_resource;
      by_get = option_copied p.by_get;
      by_command = option_copied p.by_command;
    } };
}

fn meets_if(version: &Version, pin: Option<&Pin>) -> bool
    ensures { result ≡ meets_if (option_copied pin.entry) version.now }
{
    match pin {
        Some(pin) => version.meets(pin),
        None => true,
    }
}

impl<'p> Pins<'p> {
    /// Whether a version meets all of the pins together (Concourse: pinning versions).
    fn are_met_by(&self, version: &Version) -> bool
        ensures { result ≡ meets_all self.now version.now }
    {
        meets_if(version, self.by_resource)
            && meets_if(version, self.by_get)
            && meets_if(version, self.by_command)
    }
}

/// The places of the versions that meet all of the pins, ascending, where the first version has this place.
pub(crate) fn places_from(
    alloc: Global,
    first: u32,
    pins: &Pins<'_>,
    versions: &[Version],
) -> Result<Vec<u32>, AllocError>
    requires { first + length versions.now ≤ 100001 }
    ensures { IfOk result (λ v. v.items ≡ places_from first pins.now versions.now) }
{
    let mut places = Vec::new(alloc);
    for (before, version) in versions.iter().enumerate() {
        if pins.are_met_by(version) {
            places.push(first + before as u32)?;
        }
    }
    Ok(places)
}

/// The places that an input may take, ascending: of versions of the scope of this number those that meet all of the pins
/// and aren't disabled (Concourse: disabled versions).
pub(crate) fn allowed_places(
    alloc: Global,
    pins: &Pins<'_>,
    history: &History,
    scope: u32,
    versions: &[Version],
) -> Result<Vec<u32>, AllocError>
    requires { length versions.now ≤ 100000 }
    ensures { IfOk result (λ v. v.items
        ≡ allowed_places pins.now (is_disabled_at history.now scope) versions.now) }
{
    let mut places = Vec::new(alloc);
    for (before, version) in versions.iter().enumerate() {
        let place = before as u32 + 1;
        if pins.are_met_by(version) && !history.is_disabled(scope, place) {
            places.push(place)?;
        }
    }
    Ok(places)
}
