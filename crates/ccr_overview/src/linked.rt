//! Words that lead to a job or a build.
ghost use Rattle.std.specs.Prelude.{◌≡◌, ◌++◌, ◌∷◌, [], map, string_bytes, IfOk, OnOk};
ghost use Rattle.ccr_pipeline.specs.JobData.{job_data};
ghost use Rattle.ccr_overview.specs.Linked.{job_position, job_word, build_at, build_word};
ghost use Rattle.ccr_overview.specs.PageData.{word_data};
ghost use Rattle.ccr_overview.specs.Scenes.{scene_data};

use crate::build::has_row;
use crate::scene::Scene;
use ccr_page::Word;
use ccr_pipeline::Job;
use std::alloc::{AllocError, Global};

/// The position of the job of a name, if it is one of these.
fn job_position(jobs: &[Job], name: &str) -> Option<usize>
    ensures { result ≡ job_position name.now (map job_data jobs.now) }
{
    for (k, job) in jobs.iter().enumerate() {
        if name == job.name.as_str() {
            return Some(k);
        }
    }
    None
}

/// A job, which leads to what is said of it.
fn job_word(alloc: Global, scene: &Scene<'_>, name: &str) -> Result<Word, AllocError>
    ensures { IfOk result (λ w. word_data w ≡ job_word (scene_data scene.now) name.now) }
{
    let words = String::from_str(alloc, name)?;
    match job_position(scene.pipeline.jobs(), name) {
        Some(at) => Ok(Word::Job(at, words)),
        None => Ok(Word::Name(words, 40)),
    }
}

/// Adds a job, which leads to what is said of it.
pub(crate) fn push_job(
    alloc: Global,
    out: &mut Vec<Word>,
    scene: &Scene<'_>,
    name: &str,
) -> Result<(), AllocError>
    ensures { OnOk result (map word_data out.new.items
        ≡ map word_data out.old.items ++ job_word (scene_data scene.now) name.now ∷ []) }
{
    let word = job_word(alloc, scene, name)?;
    out.push(word)?;
    Ok(())
}

/// A build of the job at a position, which leads to its row if it has one.
fn build_at(
    alloc: Global,
    scene: &Scene<'_>,
    name: &str,
    number: u32,
    at: usize,
) -> Result<Word, AllocError>
    ensures { IfOk result (λ w. word_data w ≡ build_at (scene_data scene.now) name.now number at) }
{
    let words = String::from_str(alloc, name)?;
    if has_row(alloc, scene.history, scene.row_count, name, number)? {
        Ok(Word::Build(at, number, words))
    } else {
        Ok(Word::Past(words, number))
    }
}

/// A build of a job, which leads to its row if it has one.
fn build_word(alloc: Global, scene: &Scene<'_>, name: &str, number: u32) -> Result<Word, AllocError>
    ensures { IfOk result (λ w. word_data w ≡ build_word (scene_data scene.now) name.now number) }
{
    match job_position(scene.pipeline.jobs(), name) {
        Some(at) => build_at(alloc, scene, name, number, at),
        None => Ok(Word::Past(String::from_str(alloc, name)?, number)),
    }
}

/// Adds a build of a job, which leads to its row if it has one.
pub(crate) fn push_build(
    alloc: Global,
    out: &mut Vec<Word>,
    scene: &Scene<'_>,
    name: &str,
    number: u32,
) -> Result<(), AllocError>
    ensures { OnOk result (map word_data out.new.items
        ≡ map word_data out.old.items ++ build_word (scene_data scene.now) name.now number ∷ []) }
{
    let word = build_word(alloc, scene, name, number)?;
    out.push(word)?;
    Ok(())
}
