//! Why a job gets nothing, or an older version than there is.
//!
//! A problem makes demands of a choice ([`Demand`]): that an input takes one of its allowed places, and that its place
//! has passed a job that the input names. [`clash`] finds demands that exclude each other, such that none of them can
//! be left out; or the best choice, where there is one. [`why_not`] says why an input doesn't take a place that is
//! preferred to the one it has: the clash of the problem in which it does and no input before it gets worse. Both take
//! an index ([`ccr_index::Index`]), which stands for its problem.
//!
//! What a demand, a clash and a place that can't be taken are, is said of problems and choices alone
//! (`specs/Demand.antt`, `specs/Clash.antt`, `specs/WhyNot.antt`). The resolver is called on the problem cut to some of
//! its demands; no definition speaks of that. Before it is, places are left out that no build leaves to their input,
//! since most questions are decided by that, and builds without a place that is left. Where an input has few places,
//! the index finds the builds with one of them, so that such a question doesn't look at the builds of all times. Then a
//! choice is guessed among what is left: one job after the other takes a build that agrees with the places taken by
//! then. Mostly it meets the demands, and the resolver isn't called.
//!
//! A choice that meets all demands but one shows that this one is needed; where one place or one build of it is
//! changed, it may meet all but another one, which is needed, too. The best choice is such a choice where an input is
//! asked about: so it is asked first whether the demands of which it tells exclude each other alone, which is one call
//! of the resolver. Else a few inputs are looked for whose demands exclude each other: one input alone, else one with
//! those that name a job in common with it, and so on. Then each demand is left out in turn, and stays out if the
//! others still exclude each other. Most demands of a long clash need no call for that, and there are at most twice as
//! many calls as demands.
#![tactic(auto)]

mod carried;
mod clashes;
mod copies;
mod cut;
mod demand;
mod explanation;
mod grown;
mod guessed;
mod indexed;
mod law;
mod meets;
mod met;
mod narrow;
mod reduced;
mod table;
mod useful;
mod why;
mod witness;

pub use clashes::clash;
pub use demand::Demand;
pub use explanation::{ClashingDemands, Explanation};
pub use law::{
    better_place_costs_an_earlier_one, clash_leaves_no_choice, clash_of_the_question_shows_it,
    fewer_demands_are_met_too, satisfying_is_meeting_all_demands,
};
pub use why::why_not;
