//! What is answered about a problem.

use crate::demand::Demand;
use ccr_choice::Choice;
use std::marker::Model;

/// Demands of a problem that exclude each other: no choice meets all of them.
#[derive(Drop)]
pub struct ClashingDemands {
    /// The demands, in plan order.
    pub demands: Vec<Demand>,
    /// Whether, with any one of the demands left out, some choice meets the others. Else the budget didn't suffice to tell, and
    /// perhaps fewer exclude each other.
    pub is_irreducible: bool,
}

impl Model for ClashingDemands {
    ghost use Rattle.ccr_explain.specs.ClashValue.{ClashValue};

    ghost Value = { ClashValue };

    ghost view = { λ a. record { demands = a.demands.items; is_irreducible = a.is_irreducible } };
}

/// Why a problem has no choice, or the choice that it has.
#[derive(Drop)]
pub enum Explanation {
    /// These demands exclude each other.
    Clash(ClashingDemands),
    /// This choice satisfies.
    Fits(Choice),
    /// The budget, this many boxes, doesn't suffice to tell whether a choice satisfies.
    OverBudget(u32),
}
