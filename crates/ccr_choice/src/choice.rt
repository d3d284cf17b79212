//! Choices: what the resolver looks for.

use std::marker::Model;

/// A place for each input of a problem, and the number of a build for each named job.
#[derive(Drop)]
pub struct Choice {
    /// The place of each input, in plan order.
    pub places: Vec<u32>,
    /// The build of each named job, in order of first mention.
    pub builds: Vec<u32>,
}

impl Model for Choice {
    ghost use Rattle.ccr_choice.specs.Problem.{ChoiceValue};

    ghost Value = { ChoiceValue };

    ghost view = { λ a. record { places = a.places.items; builds = a.builds.items } };
}
