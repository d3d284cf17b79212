//! The laws over every list of events.
ghost use Rattle.ccr_core.specs.Aborting.{AbortIsAnswer, AbortMeetsNoBuild};
ghost use Rattle.ccr_core.specs.EndedInRun.{EachEndedInRun, EndedStays};
ghost use Rattle.ccr_core.specs.FetchedInRun.{EachFetchesWhatItUsed};
ghost use Rattle.ccr_core.specs.MovedInRun.{EachStepMovesItsOwn, EachMovesItsOwn};
ghost use Rattle.ccr_core.specs.MadeInRun.{EachStepMakesBest, EachIsMadeBest, EachIsMadeSo, UsedStays, NoneIsSaidRightly};
ghost use Rattle.ccr_core.specs.Kept.{EachChangeIsTaken, EachChangeIsOne};
ghost use Rattle.ccr_core.specs.Limits.{LimitsAreKept};
ghost use Rattle.ccr_core.specs.EachBuild.{EachHasItsOwn, EachEndsAsMeant, EachIsCutShort, RunsAgree, EndsAgree, NoneRunsOn};

use ccr_steps::{answers_decide, beginnings_decide};

/// Whatever events come, from a state in which nothing runs: each build in the history after them was there before them and used
/// the same, or one of them made it. Then it used the best places for its job's inputs, by the pipeline and the history at that
/// moment: places that went together through builds that had succeeded, one for each job that an input names in passed, and no
/// places that went together so are better, input by input in the order of the plan. What a build used stays. That no choice
/// satisfies is replied only where no places go together.
///
/// It is a law over the definitions alone; nothing runs.
pub fn each_is_made_best()
    // By the step that makes it.
    ensures step { EachStepMakesBest }

    // Over a list of events.
    ensures best { EachIsMadeBest }

    // Where nothing was before.
    ensures all { EachIsMadeSo }
    ensures stays { UsedStays }
    ensures none { NoneIsSaidRightly }
{
    // Nothing runs.
}

/// Whatever events come, from a state in which nothing runs: what a build that runs fetches next is the version at the place that
/// the history's build used for the input of this name, or one that it has pushed.
///
/// It is a law over the definitions alone; nothing runs.
pub fn each_fetches_what_it_used()
    ensures { EachFetchesWhatItUsed }
{
    // Nothing runs.
}

/// Whatever events come, from a state in which nothing runs: a build that ends, other than by a restart, has moved only
/// places that it used for inputs of its job's plan, and whose versions it fetched, and places of versions that it
/// pushed. So each build that has succeeded in the history after them had succeeded before them, or moved only these.
///
/// It is a law over the definitions alone; nothing runs.
pub fn each_moves_its_own()
    // By the step that ends it.
    ensures step { EachStepMovesItsOwn }

    // Over a list of events.
    ensures moves { EachMovesItsOwn }
{
    // Nothing runs.
}

/// Whatever events come, from a state in which nothing runs: each build that runs has had the answers that were
/// addressed to it and not refused, in order, and no others. Its plan is that of its job, and its exchanges begin a
/// list that the plan allows, and aren't whole.
///
/// It is a law over the definitions alone; nothing runs.
pub fn each_has_its_own()
    ensures { EachHasItsOwn }
{}

/// Whatever events come, from a state in which nothing runs: a build that a step ends had its own answers and no
/// others. Its exchanges are a whole list that its job's plan allows for the versions at the places that it used; its
/// status is their outcome, its moved pairs are what they moved, each once, and these passed the job only if it
/// succeeded. A build that a restart ends is errored, and has moved nothing.
///
/// It is a law over the definitions alone; nothing runs.
pub fn each_ends_as_meant()
    // By an answer, or in the event that made it.
    ensures meant { EachEndsAsMeant }

    // By a restart.
    ensures cut { EachIsCutShort }
{}

/// Whatever events come, from a state in which nothing runs: each build that has ended in the history after them had
/// ended before them, or ended in the step of one of them. Then that event was its own answer or made it, and it ended as
/// its plan means, by the answers that were its own in all of them; or that event was a restart, while it ran. What has
/// ended stays as it is.
///
/// It is a law over the definitions alone; nothing runs.
pub fn each_has_its_fate()
    ensures fate { EachEndedInRun }
    ensures stays { EndedStays }
{}

/// Two runs that give a build the same plan, the same input versions and the same answers of its own give it the same
/// exchanges, whatever stands between them; if it has ended in both, it ended the same; and it never runs in one of them
/// and has ended in the other, unless a restart ended it.
///
/// It is a law over the definitions alone; nothing runs.
pub fn runs_agree()
    // Where it runs.
    ensures running { RunsAgree }

    // Where it has ended.
    ensures ended { EndsAgree }

    // Not in one of them alone.
    ensures apart { NoneRunsOn }
{
    answers_decide();
    beginnings_decide();
}

/// Whatever events come, from a state in which nothing runs: at most 64 builds run, of each job at most as many as its
/// limit, and two jobs that share a serial group never both have a running build.
///
/// It is a law over the definitions alone; nothing runs.
pub fn limits_are_kept()
    ensures { LimitsAreKept }
{}

/// Whatever events come, from a state in which nothing runs: each step has one change, a list of edits, which is the one
/// that [`crate::Core::step`] gives. It is one that the history takes, and the history after the step is the one before it
/// with exactly these edits. The places that a new build uses are in the tables, one for each input; a build that ends had
/// run; what it moved are places of the tables, each once; and no table grows past its limit. Each build that runs does so
/// in the history, and its inputs are the versions at the places that it used there.
///
/// It is a law over the definitions alone; nothing runs.
pub fn each_change_is_taken()
    // Step by step.
    ensures taken { EachChangeIsTaken }

    // No step has another.
    ensures one { EachChangeIsOne }
{
    answers_decide();
}

/// An abort of a build that runs is the answer, at its turn, that what it asks was aborted: it has the same replies and
/// does the same. It meets no fault but `NoBuild`, and that exactly where no such build runs.
///
/// It is a law over the definitions alone; nothing runs.
pub fn aborts_are_answers()
    ensures same { AbortIsAnswer }
    ensures meets { AbortMeetsNoBuild }
{}
