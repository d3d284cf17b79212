//! What a build took and moved, and the earlier builds through which that went together, as JSON.
ghost use Rattle.std.specs.Prelude.{◌≡◌, ◌++◌, List, map, flat_map, IfOk, OnOk};
ghost use Rattle.serde_json.specs.Written.{compact_text};
ghost use Rattle.serde_json.specs.Data.{Data};
ghost use Rattle.ccr_lines.specs.Json.{list, json_line, after_comma, array_of};
ghost use Rattle.ccr_lines.specs.Objects.{field_text};
ghost use Rattle.ccr_lines.specs.ReleaseJson.{took_json, moved_json, number_json, witness_json, release_object, release_json};
ghost use Rattle.ccr_lines.specs.Releases.{together_data};

use crate::json::on_a_line;
use crate::object::{Field, push_item, push_object};
use crate::print::word_of;
use crate::release::{Together, resource_at, used_at};
use ccr_history::{BuildRef, History};
use std::alloc::{AllocError, Global};

// ---- versions

/// Adds what a build took for an input, behind a comma.
fn push_took<'a>(
    alloc: Global,
    out: &mut Vec<u8>,
    history: &'a History,
    input: &'a str,
    scope: u32,
    place: u32,
) -> Result<(), AllocError>
    ensures { OnOk result (out.new.items ≡ out.old.items ++ after_comma (took_json history.now.tables
        (record { input = input.now; scope = scope; place = place }))) }
{
    let members = [
        ("name", Field::Text(input)),
        ("place", Field::Number(place as u64)),
        ("resource", Field::Text(resource_at(history, scope))),
        ("version", Field::Version(history.version_at(scope, place))),
    ];
    push_item(alloc, out, &members)
}

/// What a build took, each behind a comma.
pub(crate) fn each_taken(
    alloc: Global,
    history: &History,
    build: &BuildRef<'_>,
) -> Result<Vec<u8>, AllocError>
    ensures { IfOk result (λ out. out.items
        ≡ flat_map (λ u. after_comma (took_json history.now.tables u)) build.now.used) }
{
    let mut out = Vec::new(alloc);
    for k in 0..build.used_count() {
        let (input, scope, place) = used_at(build, k);
        push_took(alloc, &mut out, history, input, scope, place)?;
    }
    Ok(out)
}

/// Adds what a build moved, behind a comma.
fn push_moved<'a>(
    alloc: Global,
    out: &mut Vec<u8>,
    history: &'a History,
    moved: (u32, u32),
) -> Result<(), AllocError>
    ensures { OnOk result (out.new.items ≡ out.old.items ++ after_comma (moved_json history.now.tables moved)) }
{
    let members = [
        ("place", Field::Number(moved.1 as u64)),
        ("resource", Field::Text(resource_at(history, moved.0))),
        (
            "version",
            Field::Version(history.version_at(moved.0, moved.1)),
        ),
    ];
    push_item(alloc, out, &members)
}

/// What a build moved, each behind a comma.
fn each_moved(alloc: Global, history: &History, moved: &[(u32, u32)]) -> Result<Vec<u8>, AllocError>
    ensures { IfOk result (λ out. out.items
        ≡ flat_map (λ q. after_comma (moved_json history.now.tables q)) moved.now) }
{
    let mut out = Vec::new(alloc);
    for pair in moved {
        push_moved(alloc, &mut out, history, *pair)?;
    }
    Ok(out)
}

// ---- what went together

/// The number of a build, as it is named; null where there is none.
fn number_field<'a>(found: Option<u32>) -> Field<'a>
    ensures { field_text result ≡ compact_text (number_json found) }
{
    match found {
        Some(number) => Field::Numeral(number),
        None => Field::Null,
    }
}

/// Adds the build of a job that shows that pairs passed it together, behind a comma; null where there is none.
pub(crate) fn push_witness<'a>(
    alloc: Global,
    out: &mut Vec<u8>,
    job: &'a str,
    found: Option<u32>,
) -> Result<(), AllocError>
    ensures { OnOk result (out.new.items ≡ out.old.items ++ after_comma (witness_json job.now found)) }
{
    let members = [
        ("job_name", Field::Text(job)),
        ("name", number_field(found)),
    ];
    push_item(alloc, out, &members)
}

/// Jobs with the builds through which what a build took had gone together, each behind a comma.
fn each_together(alloc: Global, together: &[Together<'_>]) -> Result<Vec<u8>, AllocError>
    ensures { IfOk result (λ out. out.items
        ≡ flat_map (λ t. after_comma (witness_json (together_data t).job (together_data t).number)) together.now) }
{
    let mut out = Vec::new(alloc);
    for it in together {
        push_witness(alloc, &mut out, it.job, it.number)?;
    }
    Ok(out)
}

// ---- a build

/// A build with what it took, what it moved, and the builds through which that had gone together, of which each stands behind
/// a comma.
fn release_object<'a>(
    alloc: Global,
    build: &'a BuildRef<'_>,
    inputs: &'a [u8],
    moved: &'a [u8],
    together: &'a [u8],
) -> Result<Vec<u8>, AllocError>
    ensures { (us ms ts : List Data) → array_of inputs.now ≡ compact_text (list us)
        → array_of moved.now ≡ compact_text (list ms) → array_of together.now ≡ compact_text (list ts)
        → IfOk result (λ text. text.items ≡ compact_text (release_object build.now us ms ts)) }
{
    let members = [
        ("inputs", Field::Items(inputs)),
        ("job_name", Field::Text(build.job())),
        ("moved", Field::Items(moved)),
        ("name", Field::Numeral(build.number())),
        ("status", Field::Text(word_of(build.status()))),
        ("together", Field::Items(together)),
    ];
    let mut out = Vec::new(alloc);
    push_object(alloc, &mut out, &members)?;
    Ok(out)
}

/// A build with what it took, through which builds that had gone together, and what it moved, as JSON on a line.
pub(crate) fn release_json(
    alloc: Global,
    history: &History,
    build: &BuildRef<'_>,
    together: &[Together<'_>],
) -> Result<Vec<u8>, AllocError>
    ensures { IfOk result (λ text. text.items
        ≡ json_line (release_json history.now.tables build.now (map together_data together.now))) }
{
    let inputs = each_taken(alloc, history, build)?;
    let moved = each_moved(alloc, history, build.moved())?;
    let together = each_together(alloc, together)?;
    let text = release_object(alloc, build, &inputs, &moved, &together)?;
    let line = on_a_line(text)?;
    Ok(line)
}
