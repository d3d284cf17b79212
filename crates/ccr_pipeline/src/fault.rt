//! Why a pipeline or a task file is refused.
ghost use Rattle.std.specs.Prelude.{◌≡◌, Some, string_bytes};
ghost use Rattle.ccr_pipeline.specs.Faults.{fault_of};
ghost use Rattle.ccr_pipeline.specs.declared.fault.ReadFault.TheVariants.{NoMemory};

use std::alloc::{AllocError, AllocFailed};
use thiserror::Error;

/// Why a text is refused, with the path of the place that breaks the rule: keys joined by `.`, positions as `[i]`.
/// The whole is `pipeline`, or `task` for a task file.
#[derive(Debug, Drop, Error)]
pub enum ReadFault {
    /// The text has more than 1,048,576 bytes.
    #[error("too long at {0}")]
    TooLong(String),
    /// The bytes are no JSON value.
    #[error("not JSON at {0}")]
    NotJson(String),
    /// A required key is absent.
    #[error("missing at {0}")]
    Missing(String),
    /// The value is of another kind than its key has.
    #[error("wrong kind at {0}")]
    WrongKind(String),
    /// A name is empty, longer than 128 bytes, `.` or `..`, or has a control byte or `/`.
    #[error("bad name at {0}")]
    BadName(String),
    /// An earlier member has the same name.
    #[error("repeated at {0}")]
    Repeated(String),
    /// A step has none of the keys `get`, `put`, `task`, `do`, `in_parallel`, `try`.
    #[error("no step at {0}")]
    NoStep(String),
    /// A step has two of these keys.
    #[error("two steps at {0}")]
    TwoSteps(String),
    /// No resource has the name.
    #[error("unknown resource at {0}")]
    UnknownResource(String),
    /// No job has the name.
    #[error("unknown job at {0}")]
    UnknownJob(String),
    /// `attempts` isn't from 1 to 100, or all attempts from the job down come to more than 10,000.
    #[error("bad attempts at {0}")]
    BadAttempts(String),
    /// A step lies deeper than 30.
    #[error("too deep at {0}")]
    TooDeep(String),
    /// More than 200 resources or jobs, or more than 32 inputs or named jobs in a plan.
    #[error("too many at {0}")]
    TooMany(String),
    /// What this server doesn't do.
    #[error("unsupported at {0}")]
    Unsupported(String),
    /// A number that isn't whole, or is out of the range of 64 bits, in `source`, `params` or `get_params`.
    #[error("number not whole at {0}")]
    NumberNotWhole(String),
    /// Out of memory.
    #[error("out of memory")]
    NoMemory,
}

/// What was read of a text, or the first rule that it breaks.
pub type Checked<T = ()> = Result<T, ReadFault>;

/// The rule that a fault breaks.
#[derive(Clone, Copy)]
pub enum Rule {
    /// A text has no more bytes than it may.
    Length,
    /// The bytes are a JSON value.
    Json,
    /// A required key is there.
    Presence,
    /// A value is of the kind of its key.
    Kind,
    /// A name may be one.
    Name,
    /// No earlier member has the same name.
    Once,
    /// A step has a key that says its kind.
    OneStep,
    /// A step has one such key alone.
    OnlyOneStep,
    /// A resource has the name.
    KnownResource,
    /// A job has the name.
    KnownJob,
    /// Attempts are within their limits.
    Attempts,
    /// A step lies no deeper than it may.
    Depth,
    /// There are no more members, inputs or named jobs than there may be.
    Number,
    /// This server does it.
    Supported,
    /// A number is whole, and within 64 bits.
    Whole,
}

impl ReadFault {
    /// The fault of breaking a rule at a path.
    pub fn of(rule: Rule, path: String) -> ReadFault
        ensures { fault_of result ≡ Some (rule, string_bytes path) }
    {
        match rule {
            Rule::Length => ReadFault::TooLong(path),
            Rule::Json => ReadFault::NotJson(path),
            Rule::Presence => ReadFault::Missing(path),
            Rule::Kind => ReadFault::WrongKind(path),
            Rule::Name => ReadFault::BadName(path),
            Rule::Once => ReadFault::Repeated(path),
            Rule::OneStep => ReadFault::NoStep(path),
            Rule::OnlyOneStep => ReadFault::TwoSteps(path),
            Rule::KnownResource => ReadFault::UnknownResource(path),
            Rule::KnownJob => ReadFault::UnknownJob(path),
            Rule::Attempts => ReadFault::BadAttempts(path),
            Rule::Depth => ReadFault::TooDeep(path),
            Rule::Number => ReadFault::TooMany(path),
            Rule::Supported => ReadFault::Unsupported(path),
            Rule::Whole => ReadFault::NumberNotWhole(path),
        }
    }
}

impl From<AllocError> for ReadFault {
    ghost from_gives = { λ _ fault. fault ≡ NoMemory };

    fn from(_error: AllocError) -> ReadFault {
        ReadFault::NoMemory
    }
}

impl<T: Drop> From<AllocFailed<T>> for ReadFault {
    ghost from_gives = { λ _ fault. fault ≡ NoMemory };

    fn from(_error: AllocFailed<T>) -> ReadFault {
        ReadFault::NoMemory
    }
}
