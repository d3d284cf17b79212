//! The laws of what steps mean.
ghost use Rattle.ccr_steps.specs.Fetches.{FetchesItsOwn};
ghost use Rattle.ccr_steps.specs.Moves.{MovesItsOwn};
ghost use Rattle.ccr_steps.specs.Progress.{AnswersDecide, BeginningsDecide};

/// The answers decide: two lists of exchanges that one plan allows for the same input versions, and whose answers
/// agree, have the same asks, outcome and moved versions, whatever stands between them.
pub fn answers_decide()
    ensures { AnswersDecide }
{}

/// The answers decide in builds that still run, too: two lists of exchanges that one plan allows as beginnings for the
/// same input versions, and whose answers agree, have the same asks as far as both go, and the same next ask.
pub fn beginnings_decide()
    ensures { BeginningsDecide }
{}

/// What a build fetches next is the version that was chosen for an input of its plan, or one that it pushed before.
pub fn fetches_its_own()
    ensures { FetchesItsOwn }
{}

/// Each version that a build moved is one that was chosen for an input of its plan, whose fetch was done, or one that it
/// pushed.
pub fn moves_its_own()
    ensures { MovesItsOwn }
{}
