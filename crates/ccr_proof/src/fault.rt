//! Why a text is no claim's or no proof's.

use std::fmt;
use thiserror::Error;

/// Why a text is no claim's.
#[derive(Clone, Copy, Debug, PartialEq, Eq, Drop, Error)]
pub enum ClaimFault {
    /// The line, which is line 1, is no claim, lacks its line feed or is missing.
    #[error("claim line {0}")]
    BadLine(usize),
    /// More bytes after the line.
    #[error("claim trailing")]
    Trailing,
    /// Memory was refused; nothing is said of the text.
    #[error("out of memory")]
    NoMemory,
}

/// Why a text is no proof's. Its words are those of `docs/FORMATS.md`.
#[derive(Clone, Copy, Debug, PartialEq, Eq, Drop, Error)]
pub enum ProofFault {
    /// The first line, counted from 1, that breaks a rule, lacks its line feed or is missing.
    BadLine(usize),
    /// The tree isn't whole after 1,000,000 nodes.
    TooManyNodes,
    /// More bytes after the last line.
    Trailing,
    /// Memory was refused; nothing is said of the text.
    NoMemory,
}

impl fmt::Display for ProofFault {
    ghost use Rattle.std.specs.Prelude.{Some};
    ghost use Rattle.ccr_proof.specs.Words.{proof_fault_words};

    ghost output = { λ fault. Some (proof_fault_words fault) };

    fn fmt<W: fmt::Write>(&self, f: &mut fmt::Formatter<W>) -> fmt::Result {
        match self {
            ProofFault::BadLine(n) => write!(f, "proof line {n}"),
            ProofFault::TooManyNodes => write!(f, "too many nodes"),
            ProofFault::Trailing => write!(f, "proof trailing"),
            ProofFault::NoMemory => write!(f, "out of memory"),
        }
    }
}
