//! Reading a problem from its text, from the first line to the last.

ghost use Rattle.std.specs.Prelude.{◌≡◌, ◌+◌, ◌≤◌, ◌==◌, Some, length, IfOk};
ghost use Rattle.std.specs.Option.{option_map};
ghost use Rattle.ccr_choice.specs.Problem.{ProblemValue, IsProblem, used_after, scopes_after, jobs_after};
ghost use Rattle.ccr_choice.specs.Reading.{one_line, Gives};
ghost use Rattle.ccr_choice.specs.ProblemText.{format_of, after_on, input_on, pairs_on, build_on, next_input, next_build, next_inputs, next_builds, next_job, next_jobs, problem_head, input_count, job_count, build_count, next_problem, problem_in, problem_text, IsRead, IsReadAs, NothingFollows};

use crate::fault::ProblemFault;
use crate::format::{AFTER_FORMAT, PLAIN_FORMAT, format_of};
use crate::line::{Line, Lines};
use crate::numbers::front_numbers;
use crate::problem::{Build, Input, JobBuilds, MOST_BUILDS, MOST_INPUTS, Problem};
use crate::rules::{is_build, jobs_after_input, next_used};
use crate::stop::Stop;
use crate::word::Word;
use std::alloc::{AllocError, Global};

/// The next line, which must be there.
fn next_line(alloc: Global, lines: &mut Lines<'_>) -> Result<Line, Stop>
    ensures { Gives (λ line. (line, lines.new)) result (one_line Some lines.old) }
{
    match lines.next(alloc)? {
        Some(line) => Ok(line),
        None => Err(Stop::Left(0)),
    }
}

/// The line before the ones that are left as the bad one.
fn bad_line(lines: &Lines<'_>) -> Stop
    ensures { result ≡ Stop.Left (length lines.now + 1) }
{
    Stop::Left(lines.count() + 1)
}

/// The place that is kept, if the words begin with it, and the words after it.
fn after_on(words: &[Word]) -> (Option<u32>, &[Word])
    ensures kept { result.0 ≡ (after_on words.now).0 }
    ensures behind { result.1.now ≡ (after_on words.now).1 }
{
    match words {
        [Word::After, Word::Number(kept), rest @ ..] => (Some(*kept), rest),
        _ => (None, words),
    }
}

#[tactic(auto, unfolding(crate::specs::ProblemText::input_on))]
fn input_on(alloc: Global, words: &[Word]) -> Result<Option<Input>, AllocError>
    ensures { IfOk result (λ o. o ≡ input_on words.now) }
{
    let [Word::Number(scope), Word::Jobs, rest @ ..] = words else {
        return Ok(None);
    };
    let (jobs, rest) = front_numbers(alloc, rest)?;
    let (after, rest) = after_on(rest);
    let [Word::Places, rest @ ..] = rest else {
        return Ok(None);
    };
    let (places, rest) = front_numbers(alloc, rest)?;
    if !rest.is_empty() {
        return Ok(None);
    }
    Ok(Some(Input::new(*scope, jobs, after, places)))
}

fn pairs_on(alloc: Global, words: &[Word]) -> Result<Option<Vec<(u32, u32)>>, AllocError>
    ensures { IfOk result (λ o. option_map (λ v. v.items) o ≡ pairs_on words.now) }
{
    let mut pairs = Vec::with_capacity(alloc, words.len() / 2)?;
    let mut rest = words;
    while let [Word::Number(scope), Word::Number(place), others @ ..] = rest {
        pairs.push((*scope, *place))?;
        rest = others;
    }
    if !rest.is_empty() {
        return Ok(None);
    }
    Ok(Some(pairs))
}

#[tactic(auto, unfolding(crate::specs::ProblemText::build_on))]
fn build_on(alloc: Global, words: &[Word]) -> Result<Option<Build>, AllocError>
    ensures { IfOk result (λ o. o ≡ build_on words.now) }
{
    let [Word::Number(number), Word::Pairs, rest @ ..] = words else {
        return Ok(None);
    };
    let Some(pairs) = pairs_on(alloc, rest)? else {
        return Ok(None);
    };
    Ok(Some(Build::new(*number, pairs)))
}

/// The next input, and how many jobs are mentioned after it.
#[tactic(auto, unfolding(crate::specs::ProblemText::next_input))]
fn next_input(
    alloc: Global,
    format: u32,
    scopes: u32,
    jobs: u32,
    lines: &mut Lines<'_>,
) -> Result<(Input, u32), Stop>
    ensures read { Gives (λ x. (x.0, lines.new)) result (next_input format (scopes, jobs) lines.old) }
    ensures counted { IfOk result (λ x. x.1 ≡ used_after jobs x.0.jobs) }
{
    let line = next_line(alloc, lines)?;
    let Some(input) = input_on(alloc, line.words())? else {
        return Err(bad_line(lines));
    };
    if format != AFTER_FORMAT && input.after().is_some() {
        return Err(bad_line(lines));
    }
    let Some(jobs) = jobs_after_input(scopes, jobs, &input) else {
        return Err(bad_line(lines));
    };
    Ok((input, jobs))
}

#[tactic(auto, unfolding(crate::specs::ProblemText::next_build))]
fn next_build(alloc: Global, scopes: u32, high: u32, lines: &mut Lines<'_>) -> Result<Build, Stop>
    ensures { Gives (λ x. (x, lines.new)) result (next_build scopes high lines.old) }
{
    let line = next_line(alloc, lines)?;
    let Some(build) = build_on(alloc, line.words())? else {
        return Err(bad_line(lines));
    };
    if !is_build(scopes, high, &build) {
        return Err(bad_line(lines));
    }
    Ok(build)
}

/// The inputs, with how many scopes and jobs they mention, and whether the format that was announced is theirs.
#[derive(Drop)]
struct Inputs {
    inputs: Vec<Input>,
    scopes: u32,
    jobs: u32,
    written: bool,
}

fn next_inputs(
    alloc: Global,
    format: u32,
    count: u32,
    lines: &mut Lines<'_>,
) -> Result<Inputs, Stop>
    requires { count ≤ MOST_INPUTS }
    ensures read { Gives (λ x. (x.inputs.items, lines.new)) result (next_inputs format count lines.old) }
    ensures scopes { IfOk result (λ x. x.scopes ≡ scopes_after 0 x.inputs.items) }
    ensures jobs { IfOk result (λ x. x.jobs ≡ jobs_after 0 x.inputs.items) }
    ensures written { IfOk result (λ x. x.written ≡ (format == format_of x.inputs.items)) }
{
    let mut inputs = Vec::new(alloc);
    let mut scopes: u32 = 0;
    let mut jobs: u32 = 0;
    for _ in 0..count {
        let (input, after) = next_input(alloc, format, scopes, jobs, lines)?;
        jobs = after;
        scopes = next_used(scopes, input.scope());
        inputs.push(input)?;
    }
    let written = format == format_of(&inputs);
    Ok(Inputs {
        inputs,
        scopes,
        jobs,
        written,
    })
}

fn next_builds(
    alloc: Global,
    scopes: u32,
    count: u32,
    lines: &mut Lines<'_>,
) -> Result<Vec<Build>, Stop>
    ensures { Gives (λ x. (x.items, lines.new)) result (next_builds scopes count lines.old) }
{
    let mut builds = Vec::new(alloc);
    let mut high: u32 = MOST_BUILDS + 1;
    for _ in 0..count {
        let build = next_build(alloc, scopes, high, lines)?;
        high = build.number();
        builds.push(build)?;
    }
    Ok(builds)
}

#[tactic(auto, unfolding(crate::specs::ProblemText::next_job))]
fn next_job(alloc: Global, scopes: u32, lines: &mut Lines<'_>) -> Result<JobBuilds, Stop>
    ensures { Gives (λ x. (x, lines.new)) result (next_job scopes lines.old) }
{
    let count = build_count(alloc, lines)?;
    let builds = next_builds(alloc, scopes, count, lines)?;
    Ok(JobBuilds::new(builds))
}

fn next_jobs(
    alloc: Global,
    scopes: u32,
    count: u32,
    lines: &mut Lines<'_>,
) -> Result<Vec<JobBuilds>, Stop>
    ensures { Gives (λ x. (x.items, lines.new)) result (next_jobs scopes count lines.old) }
{
    let mut jobs = Vec::new(alloc);
    for _ in 0..count {
        let job = next_job(alloc, scopes, lines)?;
        jobs.push(job)?;
    }
    Ok(jobs)
}

/// The line `problem 1` or `problem 2`.
fn head(alloc: Global, lines: &mut Lines<'_>) -> Result<u32, Stop>
    ensures { Gives (λ x. (x, lines.new)) result (one_line problem_head lines.old) }
{
    let line = next_line(alloc, lines)?;
    match line.words() {
        [Word::Problem, Word::Number(n)] if *n == PLAIN_FORMAT || *n == AFTER_FORMAT => Ok(*n),
        _ => Err(bad_line(lines)),
    }
}

/// The line `inputs N`.
fn input_count(alloc: Global, lines: &mut Lines<'_>) -> Result<u32, Stop>
    ensures read { Gives (λ x. (x, lines.new)) result (one_line input_count lines.old) }
    ensures few { IfOk result (λ x. x ≤ MOST_INPUTS) }
{
    let line = next_line(alloc, lines)?;
    match line.words() {
        [Word::Inputs, Word::Number(n)] if *n <= MOST_INPUTS => Ok(*n),
        _ => Err(bad_line(lines)),
    }
}

/// The line `jobs M`, where so many jobs were mentioned, and the format that was announced is that of the inputs.
fn job_count(
    alloc: Global,
    written: bool,
    mentioned: u32,
    lines: &mut Lines<'_>,
) -> Result<u32, Stop>
    ensures read { Gives (λ x. (x, lines.new)) result (one_line (job_count written mentioned) lines.old) }
    ensures same { IfOk result (λ x. x ≡ mentioned) }
{
    let line = next_line(alloc, lines)?;
    match line.words() {
        [Word::Jobs, Word::Number(n)] if written && *n == mentioned => Ok(*n),
        _ => Err(bad_line(lines)),
    }
}

/// The line `builds B`.
fn build_count(alloc: Global, lines: &mut Lines<'_>) -> Result<u32, Stop>
    ensures { Gives (λ x. (x, lines.new)) result (one_line build_count lines.old) }
{
    let line = next_line(alloc, lines)?;
    match line.words() {
        [Word::Builds, Word::Number(n)] if *n <= MOST_BUILDS => Ok(*n),
        _ => Err(bad_line(lines)),
    }
}

/// The problem at the front.
#[tactic(auto, unfolding(crate::specs::ProblemText::next_problem))]
fn next_problem(alloc: Global, lines: &mut Lines<'_>) -> Result<Problem, Stop>
    ensures read { Gives (λ x. (x, lines.new)) result (next_problem lines.old) }
    ensures kept { IfOk result IsProblem }
{
    let format = head(alloc, lines)?;
    let count = input_count(alloc, lines)?;
    let front = next_inputs(alloc, format, count, lines)?;
    let count = job_count(alloc, front.written, front.jobs, lines)?;
    let jobs = next_jobs(alloc, front.scopes, count, lines)?;
    Ok(Problem::new(front.inputs, jobs))
}

#[tactic(auto, unfolding(crate::specs::ProblemText::problem_in))]
fn read_whole(alloc: Global, bytes: &[u8]) -> Result<Problem, ProblemFault>
    ensures read { IsRead result (problem_in bytes.now) }
    ensures kept { IfOk result IsProblem }
{
    let mut lines = Lines::new(bytes);
    match next_problem(alloc, &mut lines) {
        Ok(problem) => {
            if lines.is_empty() {
                Ok(problem)
            } else {
                Err(ProblemFault::Trailing)
            }
        }
        Err(Stop::Left(left)) => {
            let count = Lines::new(bytes).count();
            Err(ProblemFault::BadLine((count + 1).saturating_sub(left)))
        }
        Err(Stop::Memory) => Err(ProblemFault::NoMemory),
    }
}

/// The problem that a text stands for.
///
/// BadLine(n): line n, counted from 1, is the first that breaks a rule, lacks its line feed or is missing. Trailing:
/// more bytes follow the last line. NoMemory: memory was refused, and nothing is said of the text.
pub fn read_problem(alloc: Global, bytes: &[u8]) -> Result<Problem, ProblemFault>
    // What is read keeps the rules, and the text is its text.
    ensures kept { IfOk result IsProblem }
    ensures found { IfOk result (λ p. bytes.now ≡ problem_text p) }

    // A problem's text is read as this problem, unless memory runs out.
    ensures only { (p : ProblemValue) → IsProblem p → bytes.now ≡ problem_text p → IsReadAs result p }

    // No problem's text begins another's.
    ensures alone { IfOk result (λ _. NothingFollows bytes.now) }

    // A refusal is the first bad line, or more than a problem.
    ensures exact { IsRead result (problem_in bytes.now) }
{
    read_whole(alloc, bytes)
}
