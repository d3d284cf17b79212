//! Why a text is no problem.

use std::fmt;
use thiserror::Error;

/// Why a text is no problem. Its words are those of `docs/FORMATS.md`.
#[derive(Clone, Copy, Debug, PartialEq, Eq, Drop, Error)]
pub enum ProblemFault {
    /// The first line, counted from 1, that breaks a rule, lacks its line feed or is missing.
    BadLine(usize),
    /// More bytes after the last line.
    Trailing,
    /// Memory was refused; nothing is said of the text.
    NoMemory,
}

impl fmt::Display for ProblemFault {
    ghost use Rattle.std.specs.Prelude.{Some};
    ghost use Rattle.ccr_choice.specs.Words.{problem_fault_words};

    ghost output = { λ fault. Some (problem_fault_words fault) };

    fn fmt<W: fmt::Write>(&self, f: &mut fmt::Formatter<W>) -> fmt::Result {
        match self {
            ProblemFault::BadLine(n) => write!(f, "problem line {n}"),
            ProblemFault::Trailing => write!(f, "problem trailing"),
            ProblemFault::NoMemory => write!(f, "out of memory"),
        }
    }
}
