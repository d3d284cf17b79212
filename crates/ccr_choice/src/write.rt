//! Writing a problem as its text.

ghost use Rattle.std.specs.Prelude.{◌≡◌, ◌<◌, ◌≤◌, ◌++◌, ◌∷◌, [], length, map, Ok, OnOk, IfOk, string_bytes};
ghost use Rattle.std.specs.List.{flat_map, AllByRecursion};
ghost use Rattle.ccr_choice.specs.declared.word.Word.TheVariants.{Number};
ghost use Rattle.ccr_choice.specs.Text.{line_text, text_of};
ghost use Rattle.ccr_choice.specs.ProblemText.{after_words, input_line, build_line, job_lines, problem_text, problem_in};

use crate::format::format_of;
use crate::numbers::push_numbers;
use crate::problem::{Build, Input, JobBuilds, MOST_BUILDS, Problem};
use crate::put::put_line;
use crate::word::Word;
use std::alloc::{AllocError, Global};

/// Adds `after` and the place that is kept, if one is.
fn push_after(words: &mut Vec<Word>, after: Option<u32>) -> Result<(), AllocError>
    ensures { OnOk result (words.new.items ≡ words.old.items ++ after_words after) }
{
    if let Some(kept) = after {
        words.push(Word::After)?;
        words.push(Word::Number(kept))?;
    }
    Ok(())
}

fn input_words(alloc: Global, input: &Input) -> Result<Vec<Word>, AllocError>
    ensures { IfOk result (λ v. v.items ≡ input_line input.now) }
{
    let mut words = Vec::new(alloc);
    words.push(Word::Number(input.scope()))?;
    words.push(Word::Jobs)?;
    push_numbers(&mut words, input.jobs())?;
    push_after(&mut words, input.after())?;
    words.push(Word::Places)?;
    push_numbers(&mut words, input.places())?;
    Ok(words)
}

fn build_words(alloc: Global, build: &Build) -> Result<Vec<Word>, AllocError>
    ensures { IfOk result (λ v. v.items ≡ build_line build.now) }
{
    let mut words = Vec::new(alloc);
    words.push(Word::Number(build.number()))?;
    words.push(Word::Pairs)?;
    let mut rest = build.pairs();
    while let [(scope, place), others @ ..] = rest {
        words.push(Word::Number(*scope))?;
        words.push(Word::Number(*place))?;
        rest = others;
    }
    Ok(words)
}

/// Adds a line of a keyword and a number.
fn put_count(out: &mut String, keyword: Word, count: u32) -> Result<(), AllocError>
    ensures { OnOk result (string_bytes out.new ≡ string_bytes out.old ++ line_text (keyword ∷ Number count ∷ [])) }
{
    put_line(out, &[keyword, Word::Number(count)])
}

fn put_inputs(alloc: Global, out: &mut String, inputs: &[Input]) -> Result<(), AllocError>
    ensures { OnOk result (string_bytes out.new ≡ string_bytes out.old ++ text_of (map input_line inputs.now)) }
{
    let mut rest = inputs;
    while let [input, others @ ..] = rest {
        let words = input_words(alloc, input)?;
        put_line(out, &words)?;
        rest = others;
    }
    Ok(())
}

fn put_builds(alloc: Global, out: &mut String, builds: &[Build]) -> Result<(), AllocError>
    ensures { OnOk result (string_bytes out.new ≡ string_bytes out.old ++ text_of (map build_line builds.now)) }
{
    let mut rest = builds;
    while let [build, others @ ..] = rest {
        let words = build_words(alloc, build)?;
        put_line(out, &words)?;
        rest = others;
    }
    Ok(())
}

fn put_job(alloc: Global, out: &mut String, job: &JobBuilds) -> Result<(), AllocError>
    requires { length job.now ≤ MOST_BUILDS }
    ensures { OnOk result (string_bytes out.new ≡ string_bytes out.old ++ text_of (job_lines job.now)) }
{
    let builds = job.builds();
    put_count(out, Word::Builds, builds.len() as u32)?;
    put_builds(alloc, out, builds)
}

fn put_jobs(alloc: Global, out: &mut String, jobs: &[JobBuilds]) -> Result<(), AllocError>
    requires { AllByRecursion (λ bs. length bs ≤ MOST_BUILDS) jobs.now }
    ensures { OnOk result (string_bytes out.new ≡ string_bytes out.old ++ text_of (flat_map job_lines jobs.now)) }
{
    let mut rest = jobs;
    while let [job, others @ ..] = rest {
        put_job(alloc, out, job)?;
        rest = others;
    }
    Ok(())
}

/// The one text of a problem. Reading it gives the problem back.
pub fn write_problem(alloc: Global, problem: &Problem) -> Result<String, AllocError>
    ensures text { IfOk result (λ s. string_bytes s ≡ problem_text problem.now) }
    ensures again { IfOk result (λ s. problem_in (string_bytes s) ≡ Ok problem.now) }
{
    let inputs = problem.inputs();
    let jobs = problem.jobs();
    let mut out = String::new(alloc);
    put_count(&mut out, Word::Problem, format_of(inputs))?;
    put_count(&mut out, Word::Inputs, inputs.len() as u32)?;
    put_inputs(alloc, &mut out, inputs)?;
    put_count(&mut out, Word::Jobs, jobs.len() as u32)?;
    put_jobs(alloc, &mut out, jobs)?;
    Ok(out)
}
