//! Why a proof isn't accepted.

use ccr_choice::Verdict;
use std::fmt;
use thiserror::Error;

/// What is wrong with a proof first. Nodes are counted from 0, in preorder. Its words are those of `docs/FORMATS.md`.
#[derive(Clone, Copy, Debug, PartialEq, Eq, Drop, Error)]
pub enum CheckFault {
    /// The claim names a choice that doesn't satisfy the problem.
    BadChoice(Verdict),
    /// The node names a job that the problem doesn't have.
    NoSuchJob(u32),
    /// The node names a job whose build is fixed already.
    JobTwice(u32),
    /// The node hasn't one child for each successful build of its job.
    WrongChildren(u32),
    /// The node names an input that has a possible place.
    NotEmpty(u32),
    /// The best places are better than the claim's, or there is no claim to bound them.
    NotBounded(u32),
    /// The node names an input that the problem doesn't have.
    NoSuchInput(u32),
    /// The node says that it is the same case as another child, and isn't: it is the root, or that child doesn't stand
    /// before it, is the same as another itself, or has a build that lacks a pair which counts.
    NotSame(u32),
}

impl fmt::Display for CheckFault {
    ghost use Rattle.std.specs.Prelude.{Some};
    ghost use Rattle.ccr_check.specs.Words.{check_fault_words};

    ghost output = { λ fault. Some (check_fault_words fault) };

    fn fmt<W: fmt::Write>(&self, f: &mut fmt::Formatter<W>) -> fmt::Result {
        match self {
            CheckFault::BadChoice(verdict) => write!(f, "choice: {verdict}"),
            CheckFault::NoSuchJob(n) => write!(f, "node {n}: no such job"),
            CheckFault::JobTwice(n) => write!(f, "node {n}: job twice"),
            CheckFault::WrongChildren(n) => write!(f, "node {n}: wrong children"),
            CheckFault::NotEmpty(n) => write!(f, "node {n}: not empty"),
            CheckFault::NotBounded(n) => write!(f, "node {n}: not bounded"),
            CheckFault::NoSuchInput(n) => write!(f, "node {n}: no such input"),
            CheckFault::NotSame(n) => write!(f, "node {n}: not same"),
        }
    }
}
