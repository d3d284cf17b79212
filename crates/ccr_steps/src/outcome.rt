//! How a step ends.
ghost use Rattle.std.specs.Prelude.{◌≡◌};
ghost use Rattle.ccr_steps.specs.Means.{worse, runs_after};
ghost use Rattle.ccr_steps.specs.Frames.{is_succeeded, is_aborted, tried_outcome, is_tried_again};

use ccr_pipeline::When;

/// How a step, a build or a try of it ended, from best to worst.
#[derive(Clone, Copy, Debug, PartialEq, Eq)]
pub enum Outcome {
    /// It did what it was to do.
    Succeeded,
    /// A program reported a failure.
    Failed,
    /// A program couldn't be run, or its reply couldn't be read.
    Errored,
    /// It was stopped by command.
    Aborted,
}

impl Outcome {
    /// The worse of two.
    pub fn worse(self, other: Outcome) -> Outcome
        ensures { result ≡ worse self other }
    {
        match (self, other) {
            (Outcome::Aborted, _) | (_, Outcome::Aborted) => Outcome::Aborted,
            (Outcome::Errored, _) | (_, Outcome::Errored) => Outcome::Errored,
            (Outcome::Failed, _) | (_, Outcome::Failed) => Outcome::Failed,
            (Outcome::Succeeded, Outcome::Succeeded) => Outcome::Succeeded,
        }
    }

    /// Whether a `do` goes on after a step that ended so.
    pub(crate) fn is_succeeded(self) -> bool
        ensures { result ≡ is_succeeded self }
    {
        self == Outcome::Succeeded
    }

    /// Whether an `in_parallel` stops after a step that ended so.
    pub(crate) fn is_aborted(self) -> bool
        ensures { result ≡ is_aborted self }
    {
        self == Outcome::Aborted
    }

    /// The outcome of a `try` whose step ended so.
    pub(crate) fn tried(self) -> Outcome
        ensures { result ≡ tried_outcome self }
    {
        match self {
            Outcome::Aborted => Outcome::Aborted,
            _ => Outcome::Succeeded,
        }
    }

    /// Whether a step with attempts is tried again after a try that ended so.
    pub(crate) fn is_tried_again(self) -> bool
        ensures { result ≡ is_tried_again self }
    {
        matches!(self, Outcome::Failed | Outcome::Errored)
    }
}

/// Whether a hook runs after a step that ended so.
pub(crate) fn runs_after(when: When, outcome: Outcome) -> bool
    ensures { result ≡ runs_after when outcome }
{
    match when {
        When::OnSuccess => outcome == Outcome::Succeeded,
        When::OnFailure => outcome == Outcome::Failed,
        When::OnError => outcome == Outcome::Errored,
        When::OnAbort => outcome == Outcome::Aborted,
        When::Ensure => true,
    }
}
