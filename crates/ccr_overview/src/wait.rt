//! Why no choice of versions satisfies a job's inputs, by what `explain` says.
ghost use Rattle.std.specs.Prelude.{◌≡◌, map, option_map, bytes_eq, string_bytes, IfOk};
ghost use Rattle.ccr_pipeline.specs.Inputs.{input_data};
ghost use Rattle.ccr_overview.specs.Clashes.{behind_clash};
ghost use Rattle.ccr_overview.specs.PageData.{word_data};
ghost use Rattle.ccr_overview.specs.Scenes.{scene_data};
ghost use Rattle.ccr_overview.specs.Waits.{unpassed_said, lacking_said, unallowed_said, unpassed_here, unpassed_words, wait_for, wait_among, lacking_words, wait_of, waits, unmet_all, said_words, none_words};

use crate::clash::behind_clash;
use crate::linked::push_job;
use crate::scene::Scene;
use crate::word::{push_name, push_plain, push_text};
use ccr_lines::history_number;
use ccr_page::Word;
use ccr_pipeline::Input;
use std::alloc::{AllocError, Global};

// ---- the words of `explain`

/// Whether these words say that no version that an input has passed a job.
fn is_unpassed_said(alloc: Global, words: &str, input: &str, job: &str) -> Result<bool, AllocError>
    ensures { IfOk result (λ is. is ≡ bytes_eq (unpassed_said input.now job.now) words.now) }
{
    let mut text = String::from_str(alloc, "clash: ")?;
    text.push_str(input)?;
    text.push_str(" passed ")?;
    text.push_str(job)?;
    Ok(text.as_str() == words)
}

/// Whether these words say that no version is allowed to an input.
fn is_lacking_said(alloc: Global, words: &str, input: &str) -> Result<bool, AllocError>
    ensures { IfOk result (λ is. is ≡ bytes_eq (lacking_said input.now) words.now) }
{
    let mut text = String::from_str(alloc, "clash: ")?;
    text.push_str(input)?;
    text.push_str(" takes an allowed version")?;
    Ok(text.as_str() == words)
}

/// Whether these words say that no version that is allowed to an input has passed a job.
fn is_unallowed_said(alloc: Global, words: &str, input: &str, job: &str) -> Result<bool, AllocError>
    ensures { IfOk result (λ is. is ≡ bytes_eq (unallowed_said input.now job.now) words.now) }
{
    let mut text = String::from_str(alloc, "clash: ")?;
    text.push_str(input)?;
    text.push_str(" takes an allowed version, ")?;
    text.push_str(input)?;
    text.push_str(" passed ")?;
    text.push_str(job)?;
    Ok(text.as_str() == words)
}

// ---- one input

/// Which versions haven't passed a job that an input names, if the words say so of the two.
fn unpassed_here(
    alloc: Global,
    words: &str,
    input: &str,
    job: &str,
) -> Result<Option<&'static str>, AllocError>
    ensures { IfOk result (λ found. option_map (λ t. t.now) found ≡ unpassed_here words.now input.now job.now) }
{
    if is_unpassed_said(alloc, words, input, job)? {
        Ok(Some(" has passed "))
    } else if is_unallowed_said(alloc, words, input, job)? {
        Ok(Some(" that is allowed has passed "))
    } else {
        Ok(None)
    }
}

/// That no version of an input's resource has passed a job.
fn unpassed_words(
    alloc: Global,
    scene: &Scene<'_>,
    input: &Input,
    job: &str,
    said: &str,
) -> Result<Vec<Word>, AllocError>
    ensures { IfOk result (λ words. map word_data words.items
        ≡ unpassed_words (scene_data scene.now) (input_data input.now) job.now said.now) }
{
    let mut words = Vec::new(alloc);
    push_plain(alloc, &mut words, "waits: no version of ")?;
    push_name(alloc, &mut words, input.resource.as_str(), 40)?;
    push_plain(alloc, &mut words, said)?;
    push_job(alloc, &mut words, scene, job)?;
    Ok(words)
}

/// The same, if the words say so.
fn wait_for(
    alloc: Global,
    scene: &Scene<'_>,
    words: &str,
    input: &Input,
    job: &str,
) -> Result<Option<Vec<Word>>, AllocError>
    ensures { IfOk result (λ found. option_map (λ ws. map word_data ws.items) found
        ≡ wait_for (scene_data scene.now) words.now (input_data input.now) job.now) }
{
    match unpassed_here(alloc, words, input.name.as_str(), job)? {
        Some(said) => Ok(Some(unpassed_words(alloc, scene, input, job, said)?)),
        None => Ok(None),
    }
}

/// The same of the first of these jobs of which they say so.
fn wait_among(
    alloc: Global,
    scene: &Scene<'_>,
    words: &str,
    input: &Input,
    jobs: &[String],
) -> Result<Option<Vec<Word>>, AllocError>
    ensures { IfOk result (λ found. option_map (λ ws. map word_data ws.items) found
        ≡ wait_among (scene_data scene.now) words.now (input_data input.now) (map string_bytes jobs.now)) }
{
    for job in jobs {
        let told = wait_for(alloc, scene, words, input, job.as_str())?;
        match told {
            Some(found) => return Ok(Some(found)),
            None => {}
        }
    }
    Ok(None)
}

/// That an input has no version to take: there is none yet, or none is left.
fn lacking_words(alloc: Global, scene: &Scene<'_>, input: &Input) -> Result<Vec<Word>, AllocError>
    ensures { IfOk result (λ words. map word_data words.items ≡ lacking_words (scene_data scene.now) (input_data input.now)) }
{
    let resource = input.resource.as_str();
    let number = history_number(scene.pipeline, scene.history, resource);
    let mut words = Vec::new(alloc);
    if scene.history.versions_at(number).is_empty() {
        push_plain(alloc, &mut words, "waits: ")?;
        push_name(alloc, &mut words, resource, 40)?;
        push_plain(alloc, &mut words, " has no version yet")?;
    } else {
        let start = "can't be built: pins and disabled versions leave no version of ";
        push_plain(alloc, &mut words, start)?;
        push_name(alloc, &mut words, resource, 40)?;
    }
    Ok(words)
}

/// What an input waits for, if the words say that it waits.
fn wait_of(
    alloc: Global,
    scene: &Scene<'_>,
    words: &str,
    input: &Input,
) -> Result<Option<Vec<Word>>, AllocError>
    ensures { IfOk result (λ found. option_map (λ ws. map word_data ws.items) found
        ≡ wait_of (scene_data scene.now) words.now (input_data input.now)) }
{
    if is_lacking_said(alloc, words, input.name.as_str())? {
        return Ok(Some(lacking_words(alloc, scene, input)?));
    }
    wait_among(alloc, scene, words, input, &input.passed)
}

/// The same of the first of these inputs of which they say so.
fn waits(
    alloc: Global,
    scene: &Scene<'_>,
    words: &str,
    inputs: &[Input],
) -> Result<Option<Vec<Word>>, AllocError>
    ensures { IfOk result (λ found. option_map (λ ws. map word_data ws.items) found
        ≡ waits (scene_data scene.now) words.now (map input_data inputs.now)) }
{
    for input in inputs {
        let told = wait_of(alloc, scene, words, input)?;
        match told {
            Some(found) => return Ok(Some(found)),
            None => {}
        }
    }
    Ok(None)
}

// ---- all

/// That there is no choice of versions: demands exclude each other, or these words.
fn unmet_all(alloc: Global, words: &str) -> Result<Vec<Word>, AllocError>
    ensures { IfOk result (λ all. map word_data all.items ≡ unmet_all words.now (behind_clash words.now)) }
{
    let mut all = Vec::new(alloc);
    match behind_clash(words) {
        Some(demands) => {
            push_plain(alloc, &mut all, "can't be built: these can't all hold: ")?;
            push_text(alloc, &mut all, demands, 400)?;
        }
        None => {
            push_plain(alloc, &mut all, "can't be built: ")?;
            push_text(alloc, &mut all, words, 400)?;
        }
    }
    Ok(all)
}

/// The same, unless an input waits.
fn said_words(
    alloc: Global,
    scene: &Scene<'_>,
    inputs: &[Input],
    words: &str,
) -> Result<Vec<Word>, AllocError>
    ensures { IfOk result (λ all. map word_data all.items
        ≡ said_words (scene_data scene.now) (map input_data inputs.now) words.now) }
{
    match waits(alloc, scene, words, inputs)? {
        Some(found) => Ok(found),
        None => unmet_all(alloc, words),
    }
}

/// Why nothing satisfies these inputs of a job.
pub(crate) fn none_words(
    alloc: Global,
    scene: &Scene<'_>,
    inputs: &[Input],
    why: &Option<String>,
) -> Result<Vec<Word>, AllocError>
    ensures { IfOk result (λ words. map word_data words.items
        ≡ none_words (scene_data scene.now) (map input_data inputs.now) (option_map string_bytes why.now)) }
{
    match why {
        Some(words) => said_words(alloc, scene, inputs, words.as_str()),
        None => {
            let mut all = Vec::new(alloc);
            push_plain(alloc, &mut all, "can't be built")?;
            Ok(all)
        }
    }
}
