//! Of which lines it is told what to do.
ghost use Rattle.std.specs.Prelude.{◌≡◌, map, option_map, string_bytes};
ghost use Rattle.ccr_run.specs.Topics.{topic_data};
ghost use Rattle.ccr_run.specs.Topics as spec;

use crate::typed::{has_option, has_word};

/// What a check has to print.
const LIST: &str =
    "a check prints a list of versions on standard output, as [{\"ref\":\"61cbef\"}], and nothing else there";

/// What a get's or a put's program has to print.
const REPLY: &str =
    "a get's or put's program prints an object with its version on standard output, as \
     {\"version\":{\"ref\":\"61cbef\"}}, and nothing else there";

/// What a version has to be.
const TEXTS: &str = "a version's values are texts: {\"number\":\"4\"}, not {\"number\":4}";

/// Where builds run.
const WORK: &str = "builds run below --work DIR: may it be made and written?";

/// A line of which it is told what to do: by its words, those of standard output first.
#[derive(Clone, Copy)]
pub enum Topic {
    /// A check's output is no JSON.
    CheckNotJson,
    /// A check's output is no list.
    CheckWrongKind,
    /// A version that a check found has a number.
    CheckNotText,
    /// A check has no directory.
    CheckFolder,
    /// A job's inputs find no versions, where that is no round: a round has checks before it.
    NoneSatisfies,
    /// A clash has the demand that a version is allowed.
    NoneAllowed,
    /// A clash has the demand that a version has passed a job, and none that one is allowed.
    NonePassed,
    /// A build that is shown errored.
    BuildErrored,
    /// An output is no JSON.
    StepNotJson,
    /// An output is no object.
    StepWrongKind,
    /// An output has no version.
    StepNoVersion,
    /// An output's version has a number.
    StepNotText,
    /// A task's file is no JSON.
    FileNotJson,
    /// A task's file can't be read.
    FileUnread,
    /// A task's file is no task.
    NoTask,
    /// A get's or put's program doesn't start.
    StepNotStarted,
    /// A task's program doesn't start.
    TaskNotStarted,
    /// A task's program ends with a status, other than that of a limit.
    StepStatus,
    /// A step has no directory.
    StepFolder,
}

impl Topic {
    /// Its words.
    pub fn words(self) -> &'static str
        ensures { result.now ≡ (topic_data self).words }
    {
        match self {
            Topic::CheckNotJson => ": refused: not JSON\n",
            Topic::CheckWrongKind => ": refused: wrong kind\n",
            Topic::CheckNotText => ": refused: version not text\n",
            Topic::CheckFolder => ": refused: folder fault\n",
            Topic::NoneSatisfies => ": none satisfies\n",
            Topic::NoneAllowed | Topic::NonePassed => "\nclash: ",
            Topic::BuildErrored => " errored\n",
            Topic::StepNotJson | Topic::FileNotJson => ": not JSON\n",
            Topic::StepWrongKind => ": wrong kind\n",
            Topic::StepNoVersion => ": missing version\n",
            Topic::StepNotText => ": version not text\n",
            Topic::FileUnread => ": cannot read\n",
            Topic::NoTask => " at task",
            Topic::StepNotStarted | Topic::TaskNotStarted => ": not started: ",
            Topic::StepStatus => ": exit status ",
            Topic::StepFolder => ": folder fault\n",
        }
    }

    /// Words that have to stand beside them.
    pub fn beside(self) -> &'static str
        ensures { result.now ≡ (topic_data self).beside }
    {
        match self {
            Topic::NoneAllowed => " takes an allowed version",
            Topic::NonePassed => " passed ",
            Topic::FileNotJson | Topic::FileUnread | Topic::NoTask => ": task ",
            Topic::TaskNotStarted | Topic::StepStatus => ": task ",
            _ => "",
        }
    }

    /// Words beside which nothing is told of it, if there are any.
    pub fn but(self) -> Option<&'static str>
        ensures { option_map (λ words. words.now) result ≡ (topic_data self).but }
    {
        match self {
            Topic::NonePassed => Some(" takes an allowed version"),
            Topic::StepNotJson | Topic::StepNotStarted => Some(": task "),
            Topic::StepStatus => Some(": exit status 124\n"),
            _ => None,
        }
    }

    /// Words behind which nothing is told of it any more, if there are any.
    pub fn unless(self) -> Option<&'static str>
        ensures { option_map (λ words. words.now) result ≡ (topic_data self).unless }
    {
        match self {
            Topic::NoneSatisfies => Some("check "),
            _ => None,
        }
    }

    /// What to do.
    pub fn hint(self) -> &'static str
        ensures { result.now ≡ (topic_data self).hint }
    {
        match self {
            Topic::CheckNotJson | Topic::CheckWrongKind => LIST,
            Topic::CheckNotText | Topic::StepNotText => TEXTS,
            Topic::CheckFolder | Topic::StepFolder => WORK,
            Topic::NoneSatisfies =>
                "nothing is there that passed the jobs before it, and that no pin leaves out and nobody disabled: \
                 explain JOB says more, check-resource NAME looks for new versions",
            Topic::NoneAllowed =>
                "an allowed version meets each pin, and nobody disabled it; with passed beside it, none of these has \
                 passed. resource-versions NAME shows versions, resources the pins; check-resource NAME looks for \
                 more",
            Topic::NonePassed =>
                "no build of the job behind passed has succeeded with a version that is allowed here: explain that \
                 job, too. If two jobs wait for each other, ccr_run validate-pipeline FILE names them",
            Topic::BuildErrored =>
                "what was said of it as it ended isn't in the database: trigger-job JOB has it said again; where ccr keeps logs, ccr log JOB N shows it",
            Topic::StepNotJson | Topic::StepWrongKind | Topic::StepNoVersion => REPLY,
            Topic::FileNotJson =>
                "a task's file is JSON: examples/operating/pipeline-json --task FILE makes it of YAML",
            Topic::FileUnread =>
                "a task's file is named by its path in the build's directory, as repo/unit.json, and is that of the \
                 version that the build got: is it in there?",
            Topic::NoTask => "a task's file has what a task's config has, as \
                 {\"inputs\":[{\"name\":\"repo\"}],\"run\":{\"path\":\"make\",\"args\":[\"test\"]}}",
            Topic::StepNotStarted =>
                "is it there, and executable, and is the program of its first line (#!) there?",
            Topic::TaskNotStarted =>
                "is it there, and executable? Is run.dir there, and the program of its first line (#!)? run.path is one program; its arguments belong into run.args",
            Topic::StepStatus =>
                "what a program prints on standard output isn't shown; what it prints on standard error is (>&2)",
        }
    }

    /// Whether nothing is told of it, by the words that were typed.
    pub fn is_silent(self, words: &[String]) -> bool
        ensures { result ≡ spec.is_silent self (map string_bytes words.now) }
    {
        match self {
            Topic::NoneAllowed | Topic::NonePassed => !has_word(words, "explain"),
            Topic::BuildErrored => !has_word(words, "build"),
            Topic::StepStatus => has_option(words, "--launcher"),
            _ => has_word(words, "explain"),
        }
    }
}
