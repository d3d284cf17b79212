//! Laws over the definitions alone: what demands say of a problem, and what a clash and a better place cost.

ghost use Rattle.std.specs.Prelude.{◌↔◌, ℕ, ◌<◌, List, length, slice_index, IsTrue, All, Contains};
ghost use Rattle.ccr_choice.specs.Problem.{ProblemValue, IsProblem};
ghost use Rattle.ccr_choice.specs.Satisfies.{Satisfies};
ghost use Rattle.ccr_choice.specs.Optimal.{IsOptimal, HasNoChoice};
ghost use Rattle.ccr_choice.specs.Preference.{Preference, IsOrder};
ghost use Rattle.ccr_explain.specs.Demand.{demands_of, MeetsAll, CanBeMet};
ghost use Rattle.ccr_explain.specs.Clash.{IsClash};
ghost use Rattle.ccr_explain.specs.WhyNot.{CannotTake, asked};
ghost use Rattle.ccr_explain.specs.declared.demand.Demand.{Demand};

/// A choice satisfies a problem exactly where it meets all demands of the problem. That each named job has a successful build
/// of the chosen number is no demand of its own: the job is named by an input, whose place must have passed it.
///
/// It is a law over the definitions alone; nothing runs.
pub fn satisfying_is_meeting_all_demands()
    ensures { (p : ProblemValue) → IsProblem p → (places builds : List ℕ)
        → Satisfies p places builds ↔ MeetsAll p (demands_of p) places builds }
{}

/// What meets demands meets any of them. So a demand without which the others can be met is needed still where there are fewer
/// others, and to leave out each once is enough.
///
/// It is a law over the definitions alone; nothing runs.
pub fn fewer_demands_are_met_too()
    ensures { (p : ProblemValue) (fewer ds : List Demand) → All (Contains ds) fewer
        → CanBeMet p ds → CanBeMet p fewer }
{}

/// Where demands of a problem exclude each other, no choice satisfies it.
///
/// It is a law over the definitions alone; nothing runs.
pub fn clash_leaves_no_choice()
    ensures { (p : ProblemValue) (ds : List Demand) → IsClash p ds → HasNoChoice p }
{}

/// A clash of the problem in which an input takes a place and no input before it gets worse shows that it can't.
///
/// It is a law over the definitions alone; nothing runs.
pub fn clash_of_the_question_shows_it()
    ensures { (prefers : Preference) (p : ProblemValue) (places : List ℕ) (i place : ℕ) (ds : List Demand)
        → IsClash (asked prefers p places i place) ds → CannotTake prefers p places i place }
{}

/// Where a choice is optimal, no input can take a place that is preferred to its own without an input before it getting worse.
///
/// It is a law over the definitions alone; nothing runs.
pub fn better_place_costs_an_earlier_one()
    ensures { (prefers : Preference) → IsOrder prefers → (p : ProblemValue) (places builds : List ℕ)
        → IsOptimal prefers p places builds → (i place : ℕ) → i < length p.inputs
        → IsTrue (prefers i place (slice_index places i)) → CannotTake prefers p places i place }
{}
