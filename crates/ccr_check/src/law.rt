//! What an accepted proof means, whoever wrote it.

ghost use Rattle.std.specs.Prelude.{◌≡◌, ◌↔◌, ℕ, List, None};
ghost use Rattle.ccr_choice.specs.Problem.{ProblemValue, IsProblem, input_at};
ghost use Rattle.ccr_choice.specs.Later.{IsLater};
ghost use Rattle.ccr_proof.specs.declared.claim.Claim.{Claim};
ghost use Rattle.ccr_proof.specs.Tree.{Tree};
ghost use Rattle.ccr_choice.specs.Preference.{Preference, IsOrder, IsBetter, order_of};
ghost use Rattle.ccr_proof.specs.Refutes.{IsAccepted};
ghost use Rattle.ccr_proof.specs.Right.{IsRight};

/// The law behind [`check`](crate::check): whatever the order of preference, an accepted claim is right. The choice
/// that it names satisfies and no choice that satisfies has better places; or it names none, and none satisfies.
///
/// It is a law over the definitions alone: no checker, resolver or text is spoken of, and nothing runs.
pub fn accepted_is_right()
    ensures right { (prefers : Preference) → IsOrder prefers → (p : ProblemValue) → IsProblem p
        → (c : Claim) (t : Tree) → IsAccepted prefers p c t → IsRight prefers p c }

    // The order of each problem is an order. Where no place is kept for any input, what is better in it is later.
    ensures order { (p : ProblemValue) → IsOrder (order_of p) }
    ensures later { (p : ProblemValue) → ((i : ℕ) → (input_at p i).after ≡ None) → (places others : List ℕ)
        → IsBetter (order_of p) places others ↔ IsLater places others }
{}
