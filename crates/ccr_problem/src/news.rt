//! Versions that come to indexes.
ghost use Rattle.std.specs.Prelude.{◌≡◌, ◌+◌, ◌<◌, ◌≤◌, ℕ, [], true, length, map, slice_index_or, IfOk, OnOk, OnErr};
ghost use Rattle.ccr_choice.specs.Problem.{IsProblem, are_places_after, input_at};
ghost use Rattle.ccr_index.specs.Index.{IndexValue};
ghost use Rattle.ccr_index.specs.Rows.{last_after};
ghost use Rattle.ccr_pipeline.specs.Inputs.{inputs};
ghost use Rattle.ccr_pipeline.specs.Pipelines.{pipeline_data};
ghost use Rattle.ccr_problem.specs.Follows.{new_places};
ghost use Rattle.ccr_problem.specs.Passing.{how_many, with_more, with_news};

use crate::coming::new_places;
use ccr_history::{History, Reported};
use ccr_index::Index;
use ccr_pipeline::Pipeline;
use std::alloc::{AllocError, Global};

/// The places that come to the inputs of one job with a report: to each its own, in plan order.
pub(crate) type News = Vec<Vec<u32>>;

/// The places that come to each job of a pipeline with a report.
pub(crate) fn news_of(
    alloc: Global,
    pipeline: &Pipeline,
    history: &History,
    report: &Reported,
) -> Result<Vec<News>, AllocError>
    requires { report.now.first + length report.now.versions.items ≤ 100001 }
    ensures { IfOk result (λ v. map (λ x. map (λ y. y.items) x.items) v.items
        ≡ map (λ j. map (new_places (pipeline_data pipeline.now) history.now report.now.scope report.now.first
        report.now.versions.items) (inputs j.plan)) (pipeline_data pipeline.now).jobs) }
{
    let mut news = Vec::new(alloc);
    for job in pipeline.jobs() {
        news.push(new_places(alloc, pipeline, history, report, job)?)?;
    }
    Ok(news)
}

/// How many places come to one job's inputs.
fn how_many(news: &[Vec<u32>]) -> Result<usize, AllocError>
    ensures { IfOk result (λ n. n ≡ how_many (map (λ y. y.items) news.now)) }
{
    let mut count: usize = 0;
    for places in news {
        count = count.checked_add(places.len()).ok_or(AllocError)?;
    }
    Ok(count)
}

/// Makes room for the places that come to one job's inputs.
fn room_for(index: &mut Index, news: &[Vec<u32>]) -> Result<(), AllocError>
    ensures problem { index.new.problem ≡ index.old.problem }
    ensures pairs { index.new.spare_pairs ≡ index.old.spare_pairs }
    ensures room { OnOk result (how_many (map (λ y. y.items) news.now) ≤ index.new.spare_places) }
{
    index.make_room(how_many(news)?, 0)
}

/// Makes room for the places that come to each job's inputs.
fn room_for_all(indexes: &mut [Index], news: &[News]) -> Result<(), AllocError>
    requires { length news.now ≡ length indexes.old }
    ensures many { length indexes.new ≡ length indexes.old }
    ensures problems { (k : ℕ) (d : IndexValue) → k < length indexes.old
        → (slice_index_or indexes.new k d).problem ≡ (slice_index_or indexes.old k d).problem }
    ensures pairs { (k : ℕ) (d : IndexValue) → k < length indexes.old
        → (slice_index_or indexes.new k d).spare_pairs ≡ (slice_index_or indexes.old k d).spare_pairs }
    ensures room { OnOk result ((k : ℕ) (d : IndexValue) → k < length indexes.old
        → how_many (slice_index_or (map (λ x. map (λ y. y.items) x.items) news.now) k [])
        ≤ (slice_index_or indexes.new k d).spare_places) }
{
    for k in 0..indexes.len() {
        room_for(&mut indexes[k], &news[k])?;
    }
    Ok(())
}

/// Adds places behind those of one input, for which there is room.
fn add_places(index: &mut Index, input: usize, places: &[u32])
    requires input { input < length index.old.problem.inputs }
    requires rules { are_places_after (last_after 0 (input_at index.old.problem input).places) places.now ≡ true }
    requires room { length places.now ≤ index.old.spare_places }
    ensures problem { index.new.problem ≡ with_more index.old.problem input places.now }
    ensures spare { index.old.spare_places ≡ index.new.spare_places + length places.now }
    ensures pairs { index.new.spare_pairs ≡ index.old.spare_pairs }
{
    for place in places {
        // An index keeps the rules of problems.
        let _count = index.input_count();
        let has_room = index.add_version(input, *place).is_ok();
        prove!(has_room);
    }
}

/// Adds the places that come to one job's inputs, for which there is room.
fn add_news(index: &mut Index, news: &[Vec<u32>])
    requires each { length news.now ≡ length index.old.problem.inputs }
    requires rules { IsProblem (with_news index.old.problem (map (λ y. y.items) news.now)) }
    requires room { how_many (map (λ y. y.items) news.now) ≤ index.old.spare_places }
    ensures problem { index.new.problem ≡ with_news index.old.problem (map (λ y. y.items) news.now) }
    ensures pairs { index.new.spare_pairs ≡ index.old.spare_pairs }
{
    for i in 0..news.len() {
        add_places(index, i, &news[i]);
    }
}

/// Adds the places that come to each job's inputs, for which there is room.
fn add_all_news(indexes: &mut [Index], news: &[News])
    requires many { length news.now ≡ length indexes.old }
    requires each { (k : ℕ) (d : IndexValue) → k < length indexes.old
        → length (slice_index_or (map (λ x. map (λ y. y.items) x.items) news.now) k [])
        ≡ length (slice_index_or indexes.old k d).problem.inputs }
    requires rules { (k : ℕ) (d : IndexValue) → k < length indexes.old
        → IsProblem (with_news (slice_index_or indexes.old k d).problem
        (slice_index_or (map (λ x. map (λ y. y.items) x.items) news.now) k [])) }
    requires room { (k : ℕ) (d : IndexValue) → k < length indexes.old
        → how_many (slice_index_or (map (λ x. map (λ y. y.items) x.items) news.now) k [])
        ≤ (slice_index_or indexes.old k d).spare_places }
    ensures many { length indexes.new ≡ length indexes.old }
    ensures problems { (k : ℕ) (d : IndexValue) → k < length indexes.old
        → (slice_index_or indexes.new k d).problem ≡ with_news (slice_index_or indexes.old k d).problem
        (slice_index_or (map (λ x. map (λ y. y.items) x.items) news.now) k []) }
    ensures pairs { (k : ℕ) (d : IndexValue) → k < length indexes.old
        → (slice_index_or indexes.new k d).spare_pairs ≡ (slice_index_or indexes.old k d).spare_pairs }
{
    for k in 0..indexes.len() {
        add_news(&mut indexes[k], &news[k]);
    }
}

/// Adds the places that come to each job's inputs. Where memory is refused, the problems stay.
pub(crate) fn follow(indexes: &mut [Index], news: &[News]) -> Result<(), AllocError>
    requires many { length news.now ≡ length indexes.old }
    requires each { (k : ℕ) (d : IndexValue) → k < length indexes.old
        → length (slice_index_or (map (λ x. map (λ y. y.items) x.items) news.now) k [])
        ≡ length (slice_index_or indexes.old k d).problem.inputs }
    requires rules { (k : ℕ) (d : IndexValue) → k < length indexes.old
        → IsProblem (with_news (slice_index_or indexes.old k d).problem
        (slice_index_or (map (λ x. map (λ y. y.items) x.items) news.now) k [])) }
    ensures many { length indexes.new ≡ length indexes.old }
    ensures ok { OnOk result ((k : ℕ) (d : IndexValue) → k < length indexes.old
        → (slice_index_or indexes.new k d).problem ≡ with_news (slice_index_or indexes.old k d).problem
        (slice_index_or (map (λ x. map (λ y. y.items) x.items) news.now) k [])) }
    ensures err { OnErr result ((k : ℕ) (d : IndexValue) → k < length indexes.old
        → (slice_index_or indexes.new k d).problem ≡ (slice_index_or indexes.old k d).problem) }
    ensures pairs { (k : ℕ) (d : IndexValue) → k < length indexes.old
        → (slice_index_or indexes.new k d).spare_pairs ≡ (slice_index_or indexes.old k d).spare_pairs }
{
    match room_for_all(indexes, news) {
        Ok(()) => {
            add_all_news(indexes, news);
            Ok(())
        }
        Err(fault) => Err(fault),
    }
}
