//! Where a version went, as JSON.
ghost use Rattle.std.specs.Prelude.{◌≡◌, ◌++◌, ◌&&◌, flat_map, IfOk, OnOk};
ghost use Rattle.ccr_history.specs.Builds.{is_succeeded};
ghost use Rattle.ccr_lines.specs.Json.{json_line, after_comma};
ghost use Rattle.ccr_lines.specs.TraceJson.{went_json, trace_json};

use crate::json::array_line;
use crate::object::{Field, push_item};
use crate::print::word_of;
use crate::trace::{Went, is_succeeded};
use ccr_history::Status;
use std::alloc::{AllocError, Global};

/// Whether a version that was moved, if it was, passed the job of a build of this status.
fn has_passed(moved: bool, status: Status) -> bool
    ensures { result ≡ (moved && is_succeeded status) }
{
    if moved { is_succeeded(status) } else { false }
}

/// Adds a build with what became of a version there, behind a comma.
fn push_went<'a>(alloc: Global, out: &mut Vec<u8>, went: &'a Went<'_>) -> Result<(), AllocError>
    ensures { OnOk result (out.new.items ≡ out.old.items ++ after_comma (went_json went.now)) }
{
    let status = went.build.status();
    let members = [
        ("job_name", Field::Text(went.build.job())),
        ("moved", Field::Flag(went.moved)),
        ("name", Field::Numeral(went.build.number())),
        ("passed", Field::Flag(has_passed(went.moved, status))),
        ("status", Field::Text(word_of(status))),
        ("took", Field::Flag(went.took)),
    ];
    push_item(alloc, out, &members)
}

/// The builds, each behind a comma.
fn each_went(alloc: Global, trace: &[Went<'_>]) -> Result<Vec<u8>, AllocError>
    ensures { IfOk result (λ out. out.items ≡ flat_map (λ w. after_comma (went_json w)) trace.now) }
{
    let mut out = Vec::new(alloc);
    for went in trace {
        push_went(alloc, &mut out, went)?;
    }
    Ok(out)
}

/// The builds as JSON on a line.
pub(crate) fn trace_json(alloc: Global, trace: &[Went<'_>]) -> Result<Vec<u8>, AllocError>
    ensures { IfOk result (λ text. text.items ≡ json_line (trace_json trace.now)) }
{
    let items = each_went(alloc, trace)?;
    let text = array_line(alloc, &items)?;
    Ok(text)
}
