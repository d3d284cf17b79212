//! Problems, claims, proofs and what is said of them.
//!
//! A text is given in one line, with `\n` where a line of it ends. `problem TEXT`, `claim TEXT` and `proof TEXT` read
//! one, and write it again. `judge TEXT` is what the checker says of a text, and its status. `example TEXT` reads a
//! problem that lines behind it speak of: `judge-behind TEXT` is `judge` of the example with a text behind it,
//! `satisfies PLACES / BUILDS` what is said of a choice, `check TEXT` of a proof, and `resolve BUDGET` finds the best
//! choice. `later PLACES / PLACES` compares two lists, and `preferred PLACES / PLACES` compares them in the order of
//! the example.
ghost use Rattle.std.specs.Prelude.{◌≤◌};
ghost use Rattle.ccr_proof.specs.Claim.{IsClaim};

use anyhow::{Result, anyhow};
use ccr_check::{CheckFault, check, judge};
use ccr_choice::{Choice, Problem, later, preferred, read_problem, satisfies, write_problem};
use ccr_index::build_index;
use ccr_proof::{Claim, Proof, count, read_claim, read_proof, write_claim, write_proof};
use ccr_resolve::{Answer, resolve};
use ccr_rows::{Player, number_of, split};
use std::alloc::{AllocError, Global};

/// Plays lines of problems, with the example that was given last.
#[derive(Drop)]
pub(crate) struct Problems {
    example: String,
}

/// A text with line ends where `\n` stands.
fn text_of(alloc: Global, given: &str) -> Result<String, AllocError> {
    given.replace(alloc, "\\n", "\n")
}

fn numbers_of(alloc: Global, words: &str) -> Result<Vec<u32>> {
    let mut numbers = Vec::new(alloc);
    for word in words.split_whitespace() {
        numbers.push(number_of(word)?)?;
    }
    Ok(numbers)
}

fn back(is_same: bool) -> &'static str {
    if is_same {
        "written back"
    } else {
        "written otherwise"
    }
}

/// Adds numbers, each behind a blank.
pub(crate) fn push_numbers(text: &mut String, numbers: &[u32]) -> Result<(), AllocError> {
    for number in numbers {
        write!(text, " {number}")?;
    }
    Ok(())
}

/// How many inputs and jobs a problem has, and whether it is written as it was read.
fn problem_told(alloc: Global, problem: &Problem, text: &str) -> Result<String> {
    let (inputs, jobs) = (problem.inputs().len(), problem.jobs().len());
    let back = back(write_problem(alloc, problem)?.as_str() == text);
    Ok(format!(in alloc; "{inputs} inputs, {jobs} jobs, {back}")?)
}

fn problem(alloc: Global, text: &str) -> Result<String> {
    let problem = read_problem(alloc, text.as_bytes())?;
    problem_told(alloc, &problem, text)
}

/// Adds the places and builds that a claim names.
fn push_claim(text: &mut String, claim: &Claim) -> Result<(), AllocError> {
    match claim {
        Claim::Best(choice) => {
            text.push_str("places")?;
            push_numbers(text, &choice.places)?;
            text.push_str(", builds")?;
            push_numbers(text, &choice.builds)
        }
        Claim::Nothing => text.push_str("nothing"),
    }
}

/// What a claim names, and whether it is written as it was read.
fn claim_told(alloc: Global, claim: &Claim, text: &str) -> Result<String>
    requires { IsClaim claim.now }
{
    let mut told = String::new(alloc);
    push_claim(&mut told, claim)?;
    told.push_str(", ")?;
    told.push_str(back(write_claim(alloc, claim)?.as_str() == text))?;
    Ok(told)
}

fn claim(alloc: Global, text: &str) -> Result<String> {
    let claim = read_claim(alloc, text.as_bytes())?;
    claim_told(alloc, &claim, text)
}

/// How many nodes a proof has, and whether it is written as it was read.
fn proof_told(alloc: Global, proof: &Proof, text: &str) -> Result<String> {
    let nodes = count(proof);
    let back = back(write_proof(alloc, proof)?.as_str() == text);
    Ok(format!(in alloc; "{nodes} nodes, {back}")?)
}

fn proof(alloc: Global, text: &str) -> Result<String> {
    let proof = read_proof(alloc, text.as_bytes())?;
    proof_told(alloc, &proof, text)
}

fn judged(alloc: Global, text: &str) -> Result<String> {
    let (line, status) = judge(alloc, text.as_bytes())?;
    Ok(format!(in alloc; "{line}, status {status}")?)
}

/// The two lists of numbers before and behind a stroke.
fn lists_of(alloc: Global, given: &str) -> Result<(Vec<u32>, Vec<u32>)> {
    let (first, second) = given.split_once("/").ok_or(anyhow!("no stroke"))?;
    Ok((numbers_of(alloc, first)?, numbers_of(alloc, second)?))
}

fn compared(alloc: Global, given: &str) -> Result<String> {
    let (first, second) = lists_of(alloc, given)?;
    let word = if later(&first, &second) {
        "later"
    } else {
        "not later"
    };
    Ok(String::from_str(alloc, word)?)
}

/// Whether the first of two lists is preferred.
fn weighed(alloc: Global, problem: &Problem, given: &str) -> Result<String> {
    let (first, second) = lists_of(alloc, given)?;
    let word = if preferred(problem, &first, &second) {
        "preferred"
    } else {
        "not preferred"
    };
    Ok(String::from_str(alloc, word)?)
}

/// What is said of a choice.
fn said(alloc: Global, problem: &Problem, given: &str) -> Result<String> {
    let (places, builds) = lists_of(alloc, given)?;
    Ok(satisfies(problem, &Choice { places, builds }).to_string(alloc)?)
}

fn found(alloc: Global, found: Result<(), CheckFault>) -> Result<String> {
    match found {
        Ok(()) => Ok(String::from_str(alloc, "accepted")?),
        Err(fault) => Ok(fault.to_string(alloc)?),
    }
}

/// What is said of a proof.
fn checked(alloc: Global, problem: &Problem, text: &str) -> Result<String> {
    let proof = read_proof(alloc, text.as_bytes())?;
    found(alloc, check(problem, &proof))
}

/// The claim of a proof that is accepted and has at most so many nodes.
fn accepted(alloc: Global, problem: &Problem, proof: &Proof, budget: u32) -> Result<String> {
    check(problem, proof)?;
    let within = if count(proof) <= budget {
        "within"
    } else {
        "over"
    };
    let mut told = String::new(alloc);
    push_claim(&mut told, &proof.claim)?;
    write!(told, ", accepted {within} {budget} nodes")?;
    Ok(told)
}

/// The claim of a proof's text.
fn accepted_text(alloc: Global, problem: &Problem, text: &str, budget: u32) -> Result<String> {
    let proof = read_proof(alloc, text.as_bytes())?;
    accepted(alloc, problem, &proof, budget)
}

/// The claim of a proof whose text, read again, is accepted; or that the budget is over.
fn answer_told(
    alloc: Global,
    problem: &Problem,
    text: Option<String>,
    budget: u32,
) -> Result<String> {
    match text {
        Some(text) => accepted_text(alloc, problem, text.as_str(), budget),
        None => Ok(format!(in alloc; "over budget {budget}")?),
    }
}

/// The text of the proof that the resolver gives; None where the budget is over.
pub(crate) fn proof_text(
    alloc: Global,
    problem: &Problem,
    budget: u32,
) -> Result<Option<String>, AllocError>
    requires least { 1 ≤ budget }
    requires most { budget ≤ 1000000 }
{
    let index = build_index(alloc, problem)?;
    match resolve(alloc, problem, &index, budget)? {
        Answer::Best(proof) | Answer::Nothing(proof) => Ok(Some(write_proof(alloc, &proof)?)),
        Answer::OverBudget(_) => Ok(None),
    }
}

fn resolved(alloc: Global, problem: &Problem, given: &str) -> Result<String> {
    let budget = number_of(given)?;
    if budget < 1 || budget > 1_000_000 {
        return Err(anyhow!("no such budget"));
    }
    answer_told(alloc, problem, proof_text(alloc, problem, budget)?, budget)
}

/// What a line asks of the example.
fn asked(alloc: Global, example: &str, kind: &str, text: &str) -> Result<String> {
    let problem = read_problem(alloc, example.as_bytes())?;
    match kind {
        "satisfies" => said(alloc, &problem, text),
        "check" => checked(alloc, &problem, text),
        "preferred" => weighed(alloc, &problem, text),
        "resolve" => resolved(alloc, &problem, text),
        _ => Err(anyhow!("no such line")),
    }
}

/// What the checker says of a text behind the example.
fn judged_behind(alloc: Global, example: &str, text: &str) -> Result<String> {
    judged(alloc, format!(in alloc; "{example}{text}")?.as_str())
}

fn told(alloc: Global, example: &str, kind: &str, text: &str) -> Result<String> {
    match kind {
        "example" | "problem" => problem(alloc, text),
        "claim" => claim(alloc, text),
        "proof" => proof(alloc, text),
        "judge" => judged(alloc, text),
        "judge-behind" => judged_behind(alloc, example, text),
        "later" => compared(alloc, text),
        _ => asked(alloc, example, kind, text),
    }
}

fn answered(alloc: Global, example: &str, kind: &str, given: &str) -> Result<String> {
    told(alloc, example, kind, text_of(alloc, given)?.as_str())
}

impl Problems {
    /// No example.
    pub(crate) fn new(alloc: Global) -> Problems {
        Problems {
            example: String::new(alloc),
        }
    }
}

impl Player for Problems {
    fn answer_to(&mut self, alloc: Global, line: &str) -> Result<String, AllocError> {
        let (kind, given) = split(line);
        if kind == "example" {
            self.example = text_of(alloc, given)?;
        }
        answered(alloc, self.example.as_str(), kind, given).or_else(|error| format!(in alloc;
            "refused: {error}"
        ))
    }
}
