//! What is said of a job's next build, as lines.
ghost use Rattle.std.specs.Prelude.{◌≡◌, ◌++◌, ◌∷◌, [], codes, decimal, flat_map, option_map, option_copied, string_bytes, IfOk, OnOk};
ghost use Rattle.ccr_lines.specs.ExplainLines.{version_words, passed_words, further_passed, through_words, refusal_line, taken_lines, last_words, why_lines, explained_lines};
ghost use Rattle.ccr_lines.specs.Lines.{line};
ghost use Rattle.ccr_lines.specs.Outlooks.{outlook_words};

use crate::explained::{Explained, Passed, Refusal, Taken};
use crate::outlook::push_outlook;
use crate::stop::push_stands;
use crate::texts::push_line;
use crate::words::push_number;
use ccr_history::{Status, Version};
use itoa::Buffer;
use std::alloc::{AllocError, Global};

// ---- one input

/// A version's key.
fn version_words(alloc: Global, version: Option<&Version>) -> Result<String, AllocError>
    ensures { IfOk result (λ text. string_bytes text ≡ version_words (option_copied version.entry)) }
{
    match version {
        Some(version) => version.key(alloc),
        None => Ok(String::new(alloc)),
    }
}

/// Adds a build of a job.
fn push_passed(text: &mut String, passed: &Passed) -> Result<(), AllocError>
    ensures { OnOk result (string_bytes text.new ≡ string_bytes text.old ++ passed_words passed.now) }
{
    text.push_str(passed.job.as_str())?;
    match passed.build {
        Some(number) => push_number(text, " ", number),
        None => Ok(()),
    }
}

/// Adds the builds behind the first.
fn push_further(text: &mut String, passed: &[Passed]) -> Result<(), AllocError>
    ensures { OnOk result (string_bytes text.new ≡ string_bytes text.old ++ further_passed passed.now) }
{
    for one in passed {
        text.push_str(", ")?;
        push_passed(text, one)?;
    }
    Ok(())
}

/// Adds through which builds a version passed; nothing where there are none.
fn push_through(text: &mut String, passed: &[Passed]) -> Result<(), AllocError>
    ensures { OnOk result (string_bytes text.new ≡ string_bytes text.old ++ through_words passed.now) }
{
    match passed {
        [] => Ok(()),
        [first, others @ ..] => {
            text.push_str(": ")?;
            push_passed(text, first)?;
            push_further(text, others)
        }
    }
}

/// Adds a place that the input of this name doesn't take, and why.
fn push_refusal(
    alloc: Global,
    text: &mut String,
    name: &str,
    refusal: &Refusal,
) -> Result<(), AllocError>
    ensures { OnOk result (string_bytes text.new ≡ string_bytes text.old ++ refusal_line name.now refusal.now) }
{
    let mut buffer = Buffer::new();
    let key = version_words(alloc, refusal.version.as_ref())?;
    push_line(
        text,
        &[
            name,
            " ",
            buffer.format(refusal.place),
            " ",
            key.as_str(),
            ": ",
            refusal.words.as_str(),
        ],
    )
}

/// Adds the places that the input of this name doesn't take, and why.
fn push_refusals(
    alloc: Global,
    text: &mut String,
    name: &str,
    refusals: &[Refusal],
) -> Result<(), AllocError>
    ensures { OnOk result (string_bytes text.new
        ≡ string_bytes text.old ++ flat_map (refusal_line name.now) refusals.now) }
{
    for refusal in refusals {
        push_refusal(alloc, text, name, refusal)?;
    }
    Ok(())
}

/// Adds the line of what an input takes.
fn push_place(alloc: Global, text: &mut String, taken: &Taken) -> Result<(), AllocError>
    ensures { let t = taken.now in OnOk result (string_bytes text.new ≡ string_bytes text.old
        ++ line (t.name ∷ codes " " ∷ decimal t.place ∷ codes " " ∷ version_words t.version ∷ through_words t.passed ∷ [])) }
{
    let mut buffer = Buffer::new();
    let key = version_words(alloc, taken.version.as_ref())?;
    let mut through = String::new(alloc);
    push_through(&mut through, &taken.passed)?;
    push_line(
        text,
        &[
            taken.name.as_str(),
            " ",
            buffer.format(taken.place),
            " ",
            key.as_str(),
            through.as_str(),
        ],
    )
}

/// Adds what an input takes, and the newer places that it doesn't.
fn push_taken(alloc: Global, text: &mut String, taken: &Taken) -> Result<(), AllocError>
    ensures { OnOk result (string_bytes text.new ≡ string_bytes text.old ++ taken_lines taken.now) }
{
    push_place(alloc, text, taken)?;
    push_refusals(alloc, text, taken.name.as_str(), &taken.newer)
}

/// Adds what each input takes.
fn push_each(alloc: Global, text: &mut String, inputs: &[Taken]) -> Result<(), AllocError>
    ensures { OnOk result (string_bytes text.new
        ≡ string_bytes text.old ++ flat_map (λ t. taken_lines t) inputs.now) }
{
    for taken in inputs {
        push_taken(alloc, text, taken)?;
    }
    Ok(())
}

// ---- a job

/// Adds the build that has the same versions already.
fn push_last(text: &mut String, job: &str, last: Option<(u32, Status)>) -> Result<(), AllocError>
    ensures { OnOk result (string_bytes text.new ≡ string_bytes text.old ++ last_words job.now last) }
{
    match last {
        Some((number, status)) => {
            text.push_str(": ")?;
            push_stands(text, job, number, status)?;
            text.push_str(" with these")
        }
        None => Ok(()),
    }
}

/// Adds what the job's next build would be, and the build that has the same versions already.
fn push_next(alloc: Global, text: &mut String, explained: &Explained) -> Result<(), AllocError>
    ensures { let e = explained.now in OnOk result (string_bytes text.new ≡ string_bytes text.old
        ++ line (e.job ∷ codes ": " ∷ outlook_words e.outlook ∷ last_words e.job e.last ∷ [])) }
{
    let mut outlook = String::new(alloc);
    push_outlook(&mut outlook, explained.outlook)?;
    let mut last = String::new(alloc);
    push_last(&mut last, explained.job.as_str(), explained.last)?;
    push_line(
        text,
        &[
            explained.job.as_str(),
            ": ",
            outlook.as_str(),
            last.as_str(),
        ],
    )
}

/// Adds why there is no choice, if it is said.
fn push_why(text: &mut String, why: Option<&String>) -> Result<(), AllocError>
    ensures { OnOk result (string_bytes text.new
        ≡ string_bytes text.old ++ why_lines (option_map (λ words. string_bytes words.now) why.entry)) }
{
    match why {
        Some(words) => push_line(text, &[words.as_str()]),
        None => Ok(()),
    }
}

/// The lines of what is said of a job.
pub(crate) fn explained_lines(alloc: Global, explained: &Explained) -> Result<String, AllocError>
    ensures { IfOk result (λ text. string_bytes text ≡ explained_lines explained.now) }
{
    let mut text = String::new(alloc);
    push_next(alloc, &mut text, explained)?;
    push_each(alloc, &mut text, &explained.inputs)?;
    push_why(&mut text, explained.why.as_ref())?;
    Ok(text)
}
