//! How builds stand, and how urgent it is that jobs stand still.

ghost use Rattle.std.specs.Prelude.{◌≡◌};
ghost use Rattle.ccr_page.specs.Statuses.{urgency_text, urgency_rank, is_as_urgent};

use crate::data::Urgency;

/// How a build stands, or that there is none.
#[derive(Clone, Copy, Drop)]
pub enum Status {
    Failed,
    Errored,
    Aborted,
    Running,
    Succeeded,
    /// There is no build.
    Missing,
}

impl Status {
    ghost use Rattle.std.specs.Prelude.{◌≡◌};
    ghost use Rattle.ccr_page.specs.Statuses.{class_text, status_text, colour_text, rank, is_same};

    /// The class that colours it.
    pub(crate) fn class(self) -> &'static str
        ensures { result.now ≡ class_text self }
    {
        match self {
            Status::Failed => "f",
            Status::Errored => "e",
            Status::Aborted => "a",
            Status::Running => "r",
            Status::Succeeded => "s",
            Status::Missing => "n",
        }
    }

    /// It in a word.
    pub(crate) fn word(self) -> &'static str
        ensures { result.now ≡ status_text self }
    {
        match self {
            Status::Failed => "failed",
            Status::Errored => "errored",
            Status::Aborted => "aborted",
            Status::Running => "running",
            Status::Succeeded => "succeeded",
            Status::Missing => "without builds",
        }
    }

    /// Its colour.
    pub(crate) fn colour(self) -> &'static str
        ensures { result.now ≡ colour_text self }
    {
        match self {
            Status::Failed => "d23c28",
            Status::Errored => "f5a623",
            Status::Aborted => "8b572a",
            Status::Running => "fad43b",
            Status::Succeeded => "11c560",
            Status::Missing => "9b9b9b",
        }
    }

    /// Its place among the statuses.
    fn rank(self) -> u8
        ensures { result ≡ rank self }
    {
        match self {
            Status::Failed => 0,
            Status::Errored => 1,
            Status::Aborted => 2,
            Status::Running => 3,
            Status::Succeeded => 4,
            Status::Missing => 5,
        }
    }

    /// Whether it's this one.
    pub(crate) fn is(self, other: Status) -> bool
        ensures { result ≡ is_same self other }
    {
        self.rank() == other.rank()
    }
}

/// The class of what stands still.
pub(crate) fn class_of(urgency: Urgency) -> &'static str
    ensures { result.now ≡ urgency_text urgency }
{
    match urgency {
        Urgency::Stopped => "x",
        Urgency::Held => "p",
        Urgency::Going => "r",
    }
}

/// Its place among the urgencies.
fn urgency_rank(urgency: Urgency) -> u8
    ensures { result ≡ urgency_rank urgency }
{
    match urgency {
        Urgency::Stopped => 0,
        Urgency::Held => 1,
        Urgency::Going => 2,
    }
}

/// Whether two are the same.
pub(crate) fn is_as_urgent(one: Urgency, other: Urgency) -> bool
    ensures { result ≡ is_as_urgent one other }
{
    urgency_rank(one) == urgency_rank(other)
}
