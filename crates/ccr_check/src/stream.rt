//! Accepts a proof while it is read, without its tree in memory.

ghost use Rattle.std.specs.Prelude.{◌≡◌, ◌<◌, ◌≤◌, ◌++◌, length, None, IsTrue, IfOk, IfSome, codes};
ghost use Rattle.std.specs.Option.{option_copied};
ghost use Rattle.ccr_choice.specs.Problem.{builds_at};
ghost use Rattle.ccr_choice.specs.Table.{assigned};
ghost use Rattle.ccr_choice.specs.declared.problem.TheConstants.{MOST_JOBS};
ghost use Rattle.ccr_check.specs.Streamed.{IsCase, IsShown, IsStreamed};

use crate::accept::bound_of;
use crate::node_line::{NodeLine, next_line};
use crate::tree::{has_no_place, is_under};
use ccr_choice::possible::{Fixed, fixed_build};
use ccr_choice::{MOST_JOBS, Problem};
use ccr_proof::{Claim, ClaimFault, MOST_LEVELS, MOST_NODES, read_claim};
use std::alloc::{AllocError, Global};

/// Whether a job is free and has so many builds.
fn is_open(problem: &Problem, fixed: &Fixed, job: usize, builds: u32) -> bool
    ensures within { IsTrue result → job < length problem.now.jobs }
    ensures few { IsTrue result → job < MOST_JOBS }
    ensures free { IsTrue result → assigned problem.now fixed.now job ≡ None }
    ensures counted { IsTrue result → builds ≡ length (builds_at problem.now job) }
{
    if job >= problem.jobs().len() || fixed_build(problem, fixed, job).is_some() {
        return false;
    }
    builds as usize == problem.builds(job).len()
}

/// Goes through the tree at the front, which has at most `levels` levels of job nodes, where `nodes` nodes were read
/// before: how many were read with it, and the text behind it. None where it doesn't refute, isn't whole, or has a node
/// that is the same as another.
fn next_case<'a>(
    problem: &Problem,
    bound: Option<&[u32]>,
    fixed: &Fixed,
    levels: u32,
    nodes: u32,
    text: &'a [u8],
) -> Option<(u32, &'a [u8])>
    ensures { IfSome result (λ x. IsCase problem.now (option_copied bound.entry) (assigned problem.now fixed.now)
        levels nodes x.0 text.now x.1.now) }
{
    if nodes >= MOST_NODES {
        return None;
    }
    let Some((line, rest)) = next_line(text) else {
        return None;
    };
    match line {
        NodeLine::Empty(input) => {
            let input = input as usize;
            if input < problem.inputs().len() && has_no_place(problem, fixed, input) {
                Some((nodes + 1, rest))
            } else {
                None
            }
        }
        NodeLine::Bounded => {
            if is_under(problem, fixed, bound) {
                Some((nodes + 1, rest))
            } else {
                None
            }
        }
        NodeLine::Job(job, children) => {
            let job = job as usize;
            if levels == 0 || !is_open(problem, fixed, job, children) {
                return None;
            }
            let mut inner = *fixed;
            let mut read = nodes + 1;
            let mut behind = rest;
            for k in 0..problem.builds(job).len() {
                inner[job] = k + 1;
                let Some(next) = next_case(problem, bound, &inner, levels - 1, read, behind) else {
                    return None;
                };
                read = next.0;
                behind = next.1;
            }
            Some((read, behind))
        }
    }
}

/// How many bytes the first line has with its line feed: all, where there is none.
fn line_end(text: &[u8]) -> usize
    ensures { result ≤ length text.now }
{
    match text.iter().position(|b| *b == b'\n') {
        Some(end) => end + 1,
        None => text.len(),
    }
}

/// Whether the claim's choice satisfies, if it names one, and this is the text of a tree that shows the claim.
#[tactic(auto, using(crate::proofs::Streams::shown, crate::proofs::Claims::empty_table))]
fn is_shown(problem: &Problem, claim: &Claim, text: &[u8]) -> bool
    ensures { IsTrue result → IsShown problem.now claim.now text.now }
{
    let Ok(bound) = bound_of(problem, claim) else {
        return false;
    };
    let fixed = [0; MOST_JOBS as usize];
    matches!(
        next_case(problem, bound, &fixed, MOST_LEVELS, 0, text),
        Some((_, []))
    )
}

/// What follows the line `proof 1`.
fn behind_head(text: &[u8]) -> Option<&[u8]>
    ensures { IfSome result (λ behind. text.now ≡ codes "proof 1\n" ++ behind.now) }
{
    match text {
        [b'p', b'r', b'o', b'o', b'f', b' ', b'1', b'\n', behind @ ..] => Some(behind),
        _ => None,
    }
}

/// The claim of a proof that is accepted, if this is its text and no node of it is the same as another. None says nothing
/// of the text.
#[tactic(auto, using(crate::proofs::Streams::streamed))]
pub(crate) fn accepted_claim(
    alloc: Global,
    problem: &Problem,
    text: &[u8],
) -> Result<Option<Claim>, AllocError>
    ensures { IfOk result (λ found. IfSome found (λ claim. IsStreamed problem.now claim text.now)) }
{
    let Some(rest) = behind_head(text) else {
        return Ok(None);
    };
    let (line, tree) = rest.split_at(line_end(rest));
    let claim = match read_claim(alloc, line) {
        Ok(claim) => claim,
        Err(ClaimFault::NoMemory) => return Err(AllocError),
        Err(_) => return Ok(None),
    };
    if is_shown(problem, &claim, tree) {
        Ok(Some(claim))
    } else {
        Ok(None)
    }
}
