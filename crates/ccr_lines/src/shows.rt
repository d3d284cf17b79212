//! What commands show.
ghost use Rattle.std.specs.Prelude.{◌≡◌, ◌++◌, [], IfOk, IfErr, OnOk, OnErr, option_map, string_bytes};
ghost use Rattle.std.specs.Option.{option_copied};
ghost use Rattle.ccr_core.specs.Cores.{core_data};
ghost use Rattle.ccr_core.specs.Commands.{shown_data};
ghost use Rattle.ccr_core.specs.Commands as spec;
ghost use Rattle.ccr_lines.specs.Shown.{needs, IsMade, IsUnshown};

use crate::build_certificate::build_certificate_made;
use crate::builds::builds_made;
use crate::certificate::certificate_made;
use crate::explain::explained_made;
use crate::graph::graph_made;
use crate::held::pipeline_held;
use crate::lines::Lines;
use crate::live::live_made;
use crate::problem::{problem_made, proof_made};
use crate::red::red_made;
use crate::release::release_made;
use crate::show::Show;
use crate::shown::ShowFault;
use crate::standing::{jobs_made, resources_made};
use crate::trace::trace_made;
use crate::versions::versions_made;
use ccr_core::{Core, Shown};
use std::alloc::{AllocError, Global};

// ---- the pipeline

/// What is shown of a core's pipeline: the bytes that it was read from.
fn pipeline_made(alloc: Global, core: &Core) -> Result<(u8, Vec<u8>), ShowFault>
    ensures made { IfOk result (λ r. IsMade spec.pipeline (core_data core.now) r.0 r.1.items) }
    ensures unshown { let c = core_data core.now in IfErr result (IsUnshown (needs spec.pipeline) c.pipeline c.history) }
{
    match pipeline_held(core) {
        Ok(pipeline) => Ok((0, Vec::from_slice(alloc, pipeline.text())?)),
        Err(fault) => Err(ShowFault::Lacks(fault)),
    }
}

// ---- all that is shown

/// The text, if there is one.
fn text_of(text: &Option<String>) -> Option<&str>
    ensures { option_copied result ≡ option_map string_bytes text.now }
{
    match text {
        Some(text) => Some(text.as_str()),
        None => None,
    }
}

/// What is shown of what the core holds: the status, and the lines; or why nothing is.
fn made(alloc: Global, what: &Shown, core: &Core) -> Result<(u8, Vec<u8>), ShowFault>
    ensures made { IfOk result (λ r. IsMade (shown_data what.now) (core_data core.now) r.0 r.1.items) }
    ensures unshown { let c = core_data core.now in
        IfErr result (IsUnshown (needs (shown_data what.now)) c.pipeline c.history) }
{
    match what {
        Shown::Builds(job, count, form) => builds_made(alloc, core, *form, text_of(job), *count),
        Shown::Versions(resource, form) => versions_made(alloc, core, *form, resource.as_str()),
        Shown::Problem(job) => problem_made(alloc, core, job.as_str()),
        Shown::Proof(job) => proof_made(alloc, core, job.as_str()),
        Shown::Certificate(job) => certificate_made(alloc, core, job.as_str()),
        Shown::Explanation(job, form) => explained_made(alloc, core, *form, job.as_str()),
        Shown::Pipeline => pipeline_made(alloc, core),
        Shown::Resources(form) => resources_made(alloc, core, *form),
        Shown::Jobs(form) => jobs_made(alloc, core, *form),
        Shown::Red(form) => red_made(alloc, core, *form),
        Shown::Live(job, form) => live_made(alloc, core, *form, job.as_str()),
        Shown::Graph => graph_made(alloc, core),
        Shown::Build(job, number, form) => {
            release_made(alloc, core, *form, job.as_str(), *number)
        }
        Shown::Trace(resource, pin, form) => {
            trace_made(alloc, core, *form, resource.as_str(), pin.as_str())
        }
        Shown::BuildCertificate(job, number) => {
            build_certificate_made(alloc, core, job.as_str(), *number)
        }
    }
}

/// Writes these bytes.
fn write<O: Lines>(out: &mut O, bytes: &[u8]) -> Result<(), AllocError>
    ensures shown { OnOk result (O.written out.new ≡ O.written out.old ++ bytes.now) }
    ensures refused { OnErr result (O.written out.new ≡ O.written out.old) }
    ensures waiting { O.waiting out.old ≡ [] → O.waiting out.new ≡ [] }
{
    out.make_room(bytes.len())?;
    out.add(bytes);
    out.hand_out();
    Ok(())
}

/// Shows what a core holds as texts: lines, or JSON on a line.
#[derive(Clone, Copy)]
pub struct AsText;

impl Show for AsText {
    fn show<O: Lines>(
        &self,
        alloc: Global,
        out: &mut O,
        what: &Shown,
        core: &Core,
    ) -> Result<u8, ShowFault> {
        let (status, bytes) = match made(alloc, what, core) {
            Ok(made) => made,
            Err(fault) => return Err(fault),
        };
        match write(out, &bytes) {
            Ok(()) => Ok(status),
            Err(_) => Err(ShowFault::NoMemory),
        }
    }
}
