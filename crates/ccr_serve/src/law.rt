//! Laws over the definitions alone.
ghost use Rattle.ccr_serve.specs.Openings.{ResumedBegins, OpeningsMakeBest, AllIsMadeBest, UsedStaysOverOpenings};
ghost use Rattle.ccr_serve.specs.MadeInCall.{CoresAreReached, CommandsMakeBest, RoundsMakeBest, TurnsMakeBest};
ghost use Rattle.ccr_serve.specs.Told.{ItemsAreRuns, RoundsAreRuns, CommandsAreRuns, UnendedAreRuns};
ghost use Rattle.ccr_serve.specs.Turns.{TurnsGoRound};

use ccr_history::Storage;
use ccr_lines::Lines;
use ccr_process::Runner;
use ccr_task::Shelf;

/// Turns go round: of the builds that run, in order of making, those made after the one served last come first, and
/// then the others. A build that ends between keeps its rank in that order.
///
/// It is a law over the definitions alone; nothing runs.
pub fn turns_go_round()
    ensures { TurnsGoRound }
{
    // Nothing runs.
}

/// What a call does, the whole of it or cut short, is a run of the core: the events of its items lead from the state before it to
/// the one after it, with their replies, and each of them is one that the laws over lists of events speak of. So what holds
/// after every list of events holds after a call.
///
/// It is a law over the definitions alone; nothing runs.
pub fn calls_are_runs()
    ensures items { ItemsAreRuns }
    ensures rounds { RoundsAreRuns }
    ensures commands { CommandsAreRuns }

    // Whose turns were used up.
    ensures unended { UnendedAreRuns }
{}

/// Whatever came of a call, of its whole or of a part: each build in the history that the storage holds after it was there before
/// it and used the same, or one of the call's items made it. Then the build used the best places for its job's inputs, by the
/// pipeline and the history at that moment, and the line that says that it was made is printed there. What a build used stays.
///
/// It is a law over the definitions alone; nothing runs. [`crate::Server::command`], [`crate::Server::round`] and
/// [`crate::Server::turn`] say what came of a call. It is so from each state that events lead to; every core stands for one, and
/// a call leads to the next.
pub fn calls_make_best<R: Runner, S: Shelf, T: Storage, O: Lines>()
    ensures commands { CommandsMakeBest R.Runner S.Shelf T.Storage O.Lines }
    ensures rounds { RoundsMakeBest R.Runner S.Shelf T.Storage O.Lines }
    ensures turns { TurnsMakeBest R.Runner S.Shelf T.Storage O.Lines }

    // What it begins from.
    ensures reached { CoresAreReached R.Runner S.Shelf T.Storage O.Lines }
{}

/// However often a database is opened, and whatever its servers are called for: each build in its history was there
/// before the first opening and used the same, or one event of one opening made it, with the best places then. What a
/// build used stays. A server begins with the history that the last one left, in which nothing runs.
///
/// It is a law over the definitions alone; nothing runs.
pub fn openings_make_best()
    // What a server begins with.
    ensures begins { ResumedBegins }
    ensures best { OpeningsMakeBest }

    // From an empty database.
    ensures all { AllIsMadeBest }
    ensures stays { UsedStaysOverOpenings }
{}
