//! The rows of a page: what each build took and put, and through which builds that had gone together.
ghost use Rattle.std.specs.Prelude.{◌≡◌, ◌++◌, ◌∷◌, [], ◌≤◌, if◌then◌else◌, map, filter, flat_map, find, take, length, not, string_bytes, option_map, option_to_list, IfOk, OnOk};
ghost use Rattle.std.specs.List.{list_any};
ghost use Rattle.std.specs.Str.{bytes_eq};
ghost use Rattle.ccr_history.specs.Builds.{UsedData};
ghost use Rattle.ccr_pipeline.specs.Inputs.{input_data};
ghost use Rattle.ccr_pipeline.specs.JobData.{job_data};
ghost use Rattle.ccr_pipeline.specs.Names.{has_name, with_name, with_names};
ghost use Rattle.ccr_lines.specs.Releases.{is_pair, resource_at, together_data};
ghost use Rattle.ccr_overview.specs.PageData.{word_data, cell_data, row_data, Plain, Named};
ghost use Rattle.ccr_overview.specs.PageRows.{taken_names, names_in, names_beyond, columns_of, columns, used_for, cell_of, cell, witness_words, together_words, all_together_words, has_taken, put_pairs, moved_words, pair_words, put_words, rest_words, row_of, row_at, rows_at};
ghost use Rattle.ccr_overview.specs.Each.{each_from};
ghost use Rattle.ccr_overview.specs.Scenes.{scene_data};

use crate::build::status_of;
use crate::linked::{push_build, push_job};
use crate::scene::Scene;
use crate::short::short_there;
use crate::word::{counted, join, push_name, push_plain, push_separator, push_text};
use ccr_history::{BuildRef, History};
use ccr_lines::{Together, all_together, used_at};
use ccr_page::{Cell, Row, Word};
use ccr_pipeline::{Input, Job, inputs_of};
use std::alloc::{AllocError, Global};

// ---- columns

/// Whether a name is among these.
fn has_name(names: &[String], name: &str) -> bool
    ensures { result ≡ has_name (map string_bytes names.now) name.now }
{
    for other in names {
        if name == other.as_str() {
            return true;
        }
    }
    false
}

/// Adds a name at the end, unless it is there.
fn add_name(alloc: Global, names: &mut Vec<String>, name: &str) -> Result<(), AllocError>
    ensures { OnOk result (map string_bytes names.new.items ≡ with_name (map string_bytes names.old.items) name.now) }
{
    if !has_name(names, name) {
        names.push(String::from_str(alloc, name)?)?;
    }
    Ok(())
}

/// Adds the names of the inputs for which a build took something.
fn add_taken(alloc: Global, names: &mut Vec<String>, build: &BuildRef<'_>) -> Result<(), AllocError>
    ensures { OnOk result (map string_bytes names.new.items
        ≡ with_names (map string_bytes names.old.items) (map (λ u. u.input) build.now.used)) }
{
    for k in 0..build.used_count() {
        let (input, _, _) = used_at(build, k);
        add_name(alloc, names, input)?;
    }
    Ok(())
}

/// The names of the inputs for which these builds took something, each once.
fn taken_names(alloc: Global, builds: &[BuildRef<'_>]) -> Result<Vec<String>, AllocError>
    ensures { IfOk result (λ names. map string_bytes names.items ≡ taken_names builds.now) }
{
    let mut names = Vec::new(alloc);
    for build in builds {
        add_taken(alloc, &mut names, build)?;
    }
    Ok(names)
}

/// The names of inputs.
fn input_names(alloc: Global, inputs: &[Input]) -> Result<Vec<String>, AllocError>
    ensures { IfOk result (λ names. map string_bytes names.items ≡ map (λ i. i.name) (map input_data inputs.now)) }
{
    let mut names = Vec::new(alloc);
    for input in inputs {
        names.push(String::from_str(alloc, input.name.as_str())?)?;
    }
    Ok(names)
}

/// Adds a name, if it is to be.
fn push_if(alloc: Global, out: &mut Vec<String>, is: bool, name: &str) -> Result<(), AllocError>
    ensures { OnOk result (map string_bytes out.new.items
        ≡ map string_bytes out.old.items ++ (if is then name.now ∷ [] else [])) }
{
    if is {
        out.push(String::from_str(alloc, name)?)?;
    }
    Ok(())
}

/// Adds those of these names that are among the others.
fn push_names_in(
    alloc: Global,
    out: &mut Vec<String>,
    others: &[String],
    names: &[String],
) -> Result<(), AllocError>
    ensures { OnOk result (map string_bytes out.new.items ≡ map string_bytes out.old.items
        ++ names_in (map string_bytes others.now) (map string_bytes names.now)) }
{
    for name in names {
        push_if(alloc, out, has_name(others, name.as_str()), name.as_str())?;
    }
    Ok(())
}

/// Adds those of these names that aren't among the others.
fn push_names_beyond(
    alloc: Global,
    out: &mut Vec<String>,
    others: &[String],
    names: &[String],
) -> Result<(), AllocError>
    ensures { OnOk result (map string_bytes out.new.items ≡ map string_bytes out.old.items
        ++ names_beyond (map string_bytes others.now) (map string_bytes names.now)) }
{
    for name in names {
        push_if(alloc, out, !has_name(others, name.as_str()), name.as_str())?;
    }
    Ok(())
}

/// The names of a plan's inputs for which something was taken, and the others for which something was.
fn columns_of(alloc: Global, plan: &[String], taken: &[String]) -> Result<Vec<String>, AllocError>
    ensures { IfOk result (λ names. map string_bytes names.items
        ≡ columns_of (map string_bytes plan.now) (map string_bytes taken.now)) }
{
    let mut names = Vec::new(alloc);
    push_names_in(alloc, &mut names, taken, plan)?;
    push_names_beyond(alloc, &mut names, plan, taken)?;
    Ok(names)
}

/// The columns of these builds of a job.
pub(crate) fn columns(
    alloc: Global,
    job: &Job,
    builds: &[BuildRef<'_>],
) -> Result<Vec<String>, AllocError>
    ensures { IfOk result (λ names. map string_bytes names.items ≡ columns (job_data job.now) builds.now) }
{
    let inputs = inputs_of(alloc, job)?;
    let plan = input_names(alloc, &inputs)?;
    let taken = taken_names(alloc, builds)?;
    columns_of(alloc, &plan, &taken)
}

// ---- cells

/// The scope and the place that a build took for the input of a name, if it took something.
pub(crate) fn used_for(build: &BuildRef<'_>, input: &str) -> Option<(u32, u32)>
    ensures { option_map (λ u. record { input = input.now; scope = u.0; place = u.1 }) result ≡ used_for build.now input.now }
{
    for k in 0..build.used_count() {
        let (name, scope, place) = used_at(build, k);
        if input == name {
            return Some((scope, place));
        }
    }
    None
}

/// What a build took for the input of a name, if it took something.
fn cell(
    alloc: Global,
    history: &History,
    build: &BuildRef<'_>,
    input: &str,
) -> Result<Option<Cell>, AllocError>
    ensures { IfOk result (λ found. option_map cell_data found ≡ cell history.now build.now input.now) }
{
    match used_for(build, input) {
        Some((scope, place)) => {
            let short = short_there(alloc, history, scope, place)?;
            Ok(Some(Cell { place, short }))
        }
        None => Ok(None),
    }
}

/// The same for each of these names.
fn cells(
    alloc: Global,
    history: &History,
    build: &BuildRef<'_>,
    names: &[String],
) -> Result<Vec<Option<Cell>>, AllocError>
    ensures { IfOk result (λ all. map (option_map cell_data) all.items
        ≡ map (cell history.now build.now) (map string_bytes names.now)) }
{
    let mut all = Vec::new(alloc);
    for name in names {
        let found = cell(alloc, history, build, name.as_str())?;
        all.push(found)?;
    }
    Ok(all)
}

// ---- what went together

/// Adds the build of a job through which what a build took had gone together; or that there is none.
fn push_witness(
    alloc: Global,
    out: &mut Vec<Word>,
    scene: &Scene<'_>,
    job: &str,
    found: Option<u32>,
) -> Result<(), AllocError>
    ensures { OnOk result (map word_data out.new.items
        ≡ map word_data out.old.items ++ witness_words (scene_data scene.now) job.now found) }
{
    match found {
        Some(number) => push_build(alloc, out, scene, job, number),
        None => {
            push_plain(alloc, out, "no build of ")?;
            push_job(alloc, out, scene, job)
        }
    }
}

/// The same behind the others.
fn push_together(
    alloc: Global,
    out: &mut Vec<Word>,
    scene: &Scene<'_>,
    position: usize,
    together: &Together<'_>,
) -> Result<(), AllocError>
    ensures { OnOk result (map word_data out.new.items ≡ map word_data out.old.items
        ++ together_words (scene_data scene.now) position (together_data together.now)) }
{
    push_separator(alloc, out, ", ", position)?;
    push_witness(alloc, out, scene, together.job, together.number)
}

/// The same of all jobs.
fn all_together_words(
    alloc: Global,
    scene: &Scene<'_>,
    together: &[Together<'_>],
) -> Result<Vec<Word>, AllocError>
    ensures { IfOk result (λ words. map word_data words.items
        ≡ all_together_words (scene_data scene.now) (map together_data together.now)) }
{
    let mut words = Vec::new(alloc);
    for (k, it) in together.iter().enumerate() {
        push_together(alloc, &mut words, scene, k, it)?;
    }
    Ok(words)
}

// ---- what was put

/// Whether a pair is that of a scope and a place.
fn is_pair(pair: (u32, u32), scope: u32, place: u32) -> bool
    ensures { result ≡ is_pair pair (scope, place) }
{
    pair.0 == scope && pair.1 == place
}

/// Whether a build took a pair of scope and place.
fn has_taken(build: &BuildRef<'_>, pair: (u32, u32)) -> bool
    ensures { result ≡ has_taken build.now pair }
{
    for k in 0..build.used_count() {
        let (_, scope, place) = used_at(build, k);
        if is_pair(pair, scope, place) {
            return true;
        }
    }
    false
}

/// Adds a pair, unless a build took it.
fn push_put(
    out: &mut Vec<(u32, u32)>,
    build: &BuildRef<'_>,
    pair: (u32, u32),
) -> Result<(), AllocError>
    ensures { OnOk result (out.new.items
        ≡ out.old.items ++ (if not (has_taken build.now pair) then pair ∷ [] else [])) }
{
    if !has_taken(build, pair) {
        out.push(pair)?;
    }
    Ok(())
}

/// What a build moved and didn't take.
fn put_pairs(alloc: Global, build: &BuildRef<'_>) -> Result<Vec<(u32, u32)>, AllocError>
    ensures { IfOk result (λ pairs. pairs.items ≡ put_pairs build.now) }
{
    let mut pairs = Vec::new(alloc);
    for pair in build.moved() {
        push_put(&mut pairs, build, *pair)?;
    }
    Ok(pairs)
}

/// The name of the resource of the scope of this number.
fn resource_at(history: &History, scope: u32) -> &str
    ensures { result.now ≡ resource_at history.now.tables scope }
{
    match history.scope_at(scope) {
        Some(scope) => scope.resource.as_str(),
        None => "",
    }
}

/// Adds a version that was put: its resource, its place, and it in a few letters.
fn push_moved(
    alloc: Global,
    out: &mut Vec<Word>,
    history: &History,
    pair: (u32, u32),
) -> Result<(), AllocError>
    ensures { OnOk result (map word_data out.new.items ≡ map word_data out.old.items ++ moved_words history.now pair) }
{
    let place = counted(alloc, " ", pair.1 as usize, " ")?;
    let short = short_there(alloc, history, pair.0, pair.1)?;
    push_name(alloc, out, resource_at(history, pair.0), 30)?;
    push_plain(alloc, out, place.as_str())?;
    push_text(alloc, out, short.as_str(), 18)
}

/// The same behind the others.
fn push_pair(
    alloc: Global,
    out: &mut Vec<Word>,
    history: &History,
    position: usize,
    pair: (u32, u32),
) -> Result<(), AllocError>
    ensures { OnOk result (map word_data out.new.items
        ≡ map word_data out.old.items ++ pair_words history.now position pair) }
{
    push_separator(alloc, out, ", ", position)?;
    push_moved(alloc, out, history, pair)
}

/// Adds versions that were put.
fn push_pairs(
    alloc: Global,
    out: &mut Vec<Word>,
    history: &History,
    pairs: &[(u32, u32)],
) -> Result<(), AllocError>
    ensures { OnOk result (map word_data out.new.items
        ≡ map word_data out.old.items ++ each_from (pair_words history.now) 0 pairs.now) }
{
    for (k, pair) in pairs.iter().enumerate() {
        push_pair(alloc, out, history, k, *pair)?;
    }
    Ok(())
}

/// What was put, if something was.
fn put_words(
    alloc: Global,
    history: &History,
    pairs: &[(u32, u32)],
) -> Result<Vec<Word>, AllocError>
    ensures { IfOk result (λ words. map word_data words.items ≡ put_words history.now pairs.now) }
{
    let mut words = Vec::new(alloc);
    if pairs.is_empty() {
        return Ok(words);
    }
    push_plain(alloc, &mut words, "put ")?;
    push_pairs(alloc, &mut words, history, pairs)?;
    Ok(words)
}

/// Through which builds what a build took had gone together, and what it put. So many builds were made before it.
fn rest_words(
    alloc: Global,
    scene: &Scene<'_>,
    before: usize,
    build: &BuildRef<'_>,
) -> Result<Vec<Word>, AllocError>
    requires { before ≤ length (scene_data scene.now).history.builds }
    ensures { let s = scene_data scene.now in IfOk result (λ words. map word_data words.items
        ≡ rest_words s (take before s.history.builds) build.now) }
{
    let found = all_together(alloc, Some(scene.pipeline), scene.history, build, before)?;
    let together = all_together_words(alloc, scene, &found)?;
    let pairs = put_pairs(alloc, build)?;
    let put = put_words(alloc, scene.history, &pairs)?;
    join(alloc, together, put)
}

// ---- rows

/// A build in a row. So many builds were made before it.
fn row_of(
    alloc: Global,
    scene: &Scene<'_>,
    names: &[String],
    before: usize,
    build: &BuildRef<'_>,
) -> Result<Row, AllocError>
    requires { before ≤ length (scene_data scene.now).history.builds }
    ensures { let s = scene_data scene.now in IfOk result (λ row. row_data row
        ≡ row_of s (map string_bytes names.now) (take before s.history.builds) build.now) }
{
    let cells = cells(alloc, scene.history, build, names)?;
    let rest = rest_words(alloc, scene, before, build)?;
    Ok(Row {
        number: build.number(),
        status: status_of(build.status()),
        cells,
        rest,
    })
}

/// Adds the row of the build at a position.
fn push_row(
    alloc: Global,
    out: &mut Vec<Row>,
    scene: &Scene<'_>,
    names: &[String],
    position: usize,
) -> Result<(), AllocError>
    ensures { OnOk result (map row_data out.new.items ≡ map row_data out.old.items
        ++ row_at (scene_data scene.now) (map string_bytes names.now) position) }
{
    let Some(build) = scene.history.build_at(position) else {
        return Ok(());
    };
    let row = row_of(alloc, scene, names, position, &build)?;
    out.push(row)?;
    Ok(())
}

/// The rows of the builds at these positions.
pub(crate) fn rows_at(
    alloc: Global,
    scene: &Scene<'_>,
    names: &[String],
    positions: &[u32],
) -> Result<Vec<Row>, AllocError>
    ensures { let s = scene_data scene.now in IfOk result (λ rows. map row_data rows.items
        ≡ rows_at s (map string_bytes names.now) positions.now) }
{
    let mut rows = Vec::new(alloc);
    for position in positions {
        push_row(alloc, &mut rows, scene, names, *position as usize)?;
    }
    Ok(rows)
}
