//! The pins by command.
ghost use Rattle.std.specs.Prelude.{◌≡◌, [], is_some, IfOk, OnOk, OnErr, option_copied};
ghost use Rattle.ccr_history.specs.Changes.{with_pin, without_pin, pin_of};
ghost use Rattle.ccr_history.specs.History.{ArePins};
ghost use Rattle.ccr_history.specs.Pins.{pins_of};

use crate::pin::Pin;
use std::alloc::{AllocError, Global};
use std::collections::BTreeMap;
use std::marker::Model;

/// The pins by command: at most one for each resource (Concourse: pinning versions).
#[derive(Drop)]
pub struct Pins {
    map: BTreeMap<String, Pin>,
}

impl Model for Pins {
    ghost use Rattle.std.specs.Prelude.{List};
    ghost use Rattle.ccr_history.specs.Text.{Text};
    ghost use Rattle.ccr_history.specs.TextMap.{TextMap};
    ghost use Rattle.ccr_history.specs.Pins.{pins_of};
    ghost use Rattle.ccr_history.specs.History.{ArePins};

    ghost Value = { List (Text × TextMap) };

    ghost view = { λ p. pins_of p.map.entries };

    ghost invariant = { λ p. ArePins (pins_of p.map.entries) };
}

impl Pins {
    /// No pins.
    pub(crate) fn new(alloc: Global) -> Pins
        ensures { result ≡ [] }
    {
        Pins {
            map: BTreeMap::new(alloc),
        }
    }

    /// Pins a resource. A pin that it had is replaced. Out of memory, the pins stay.
    pub(crate) fn set(&mut self, alloc: Global, resource: &str, pin: Pin) -> Result<(), AllocError>
        ensures ok { OnOk result (self.new ≡ with_pin resource.now pin self.old) }
        ensures err { OnErr result (self.new ≡ self.old) }
        ensures kept { OnOk result (ArePins self.new) }
    {
        let resource = String::from_str(alloc, resource)?;
        pin.rules();
        self.map.insert(resource, pin)?;
        Ok(())
    }

    /// Clears the pin of a resource: whether it had one.
    pub(crate) fn clear(&mut self, resource: &str) -> bool
        ensures cleared { self.new ≡ without_pin resource.now self.old }
        ensures had { result ≡ is_some (pin_of resource.now self.old) }
    {
        self.map.remove(resource).is_some()
    }

    /// The pin of a resource, if it has one.
    pub fn get(&self, resource: &str) -> Option<&Pin>
        ensures { option_copied result ≡ pin_of resource.now self.now }
    {
        self.map.get(resource)
    }

    /// The resources that have a pin, with their pins, in ascending order of the names.
    pub fn as_map(&self) -> &BTreeMap<String, Pin>
        ensures { pins_of result.now.entries ≡ self.now }
    {
        &self.map
    }

    /// A copy of the pins.
    pub fn copy(&self, alloc: Global) -> Result<Pins, AllocError>
        ensures { IfOk result (λ pins. pins ≡ self.now) }
    {
        let mut pins = Pins::new(alloc);
        for (resource, pin) in self.map.iter() {
            pins.set(alloc, resource.as_str(), pin.copy()?)?;
        }
        Ok(pins)
    }
}
