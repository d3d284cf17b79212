//! What the edits of a change write.
ghost use Rattle.std.specs.Prelude.{◌≡◌, ◌+◌, ◌≤◌, ◌++◌, [], ◌∷◌, length, map, OnOk, IfOk, IfErr};
ghost use Rattle.std.specs.List.{AllByRecursion};
ghost use Rattle.ccr_history.specs.declared.change.Edit.TheVariants as edits;
ghost use Rattle.ccr_history.specs.declared.table.TheConstants.{MOST_VERSIONS};
ghost use Rattle.ccr_history.specs.TextMap.{key_text};
ghost use Rattle.ccr_history.specs.declared.store_fault.StoreFault.TheVariants.{NoMemory};
ghost use Rattle.ccr_store.specs.Rows.{status_number};
ghost use Rattle.ccr_store.specs.WriteData.{write_data};
ghost use Rattle.ccr_store.specs.WriteData as write;
ghost use Rattle.ccr_store.specs.Writes.{scope_writes, version_writes, used_write, moved_write, edit_writes, change_writes, HasPlaces};

use ccr_history::{
    Edit, Ended, Made, Pin, Reported, Scope, Status, StoreFault, Switched, Used, Version,
};
use ccr_tables::Write;
use std::alloc::Global;

/// How a build stands, as a number.
pub(crate) fn number_of(status: Status) -> u32
    ensures { result ≡ status_number status }
{
    match status {
        Status::Running => 0,
        Status::Succeeded => 1,
        Status::Failed => 2,
        Status::Errored => 3,
        Status::Aborted => 4,
    }
}

/// Writes the scope of a report, if it is new.
fn write_scope(
    is_new: bool,
    id: u32,
    scope: &Scope,
    writes: &mut Vec<Write>,
) -> Result<(), StoreFault>
    ensures ok { OnOk result (map write_data writes.new.items ≡ map write_data writes.old.items
        ++ scope_writes is_new id scope.now) }
    ensures only { IfErr result (λ fault. fault ≡ NoMemory) }
{
    if !is_new {
        return Ok(());
    }
    let resource = scope.resource.clone()?;
    let kind = scope.kind.clone()?;
    let source = scope.source.clone()?;
    writes.push(Write::Scope(id, resource, kind, source))?;
    Ok(())
}

/// Writes versions of a scope, at the places from this one up.
fn write_versions(
    alloc: Global,
    scope: u32,
    first: u32,
    versions: &[Version],
    writes: &mut Vec<Write>,
) -> Result<(), StoreFault>
    requires { first + length versions.now ≤ MOST_VERSIONS + 1 }
    ensures ok { OnOk result (map write_data writes.new.items
        ≡ map write_data writes.old.items ++ version_writes scope first versions.now) }
    ensures only { IfErr result (λ fault. fault ≡ NoMemory) }
{
    let mut place = first;
    for version in versions {
        writes.push(Write::Version(scope, place, version.key(alloc)?))?;
        place += 1;
    }
    Ok(())
}

/// Writes what a report adds: its scope, if it is new, and its versions.
fn write_report(alloc: Global, report: &Reported, writes: &mut Vec<Write>) -> Result<(), StoreFault>
    requires { HasPlaces (edits.Versions report.now) }
    ensures ok { OnOk result (map write_data writes.new.items
        ≡ map write_data writes.old.items ++ edit_writes (edits.Versions report.now)) }
    ensures only { IfErr result (λ fault. fault ≡ NoMemory) }
{
    let versions = report.versions.as_slice();
    if versions.is_empty() {
        return Ok(());
    }
    write_scope(report.is_new, report.number, &report.scope, writes)?;
    write_versions(alloc, report.number, report.first, versions, writes)
}

/// Writes what a build uses.
fn write_used(id: u32, used: &[Used], writes: &mut Vec<Write>) -> Result<(), StoreFault>
    ensures ok { OnOk result (map write_data writes.new.items
        ≡ map write_data writes.old.items ++ map (used_write id) used.now) }
    ensures only { IfErr result (λ fault. fault ≡ NoMemory) }
{
    for one in used {
        writes.push(Write::Pair(id, one.input.clone()?, one.scope, one.place))?;
    }
    Ok(())
}

/// Writes what a build moved.
fn write_moved(
    alloc: Global,
    id: u32,
    moved: &[(u32, u32)],
    writes: &mut Vec<Write>,
) -> Result<(), StoreFault>
    ensures ok { OnOk result (map write_data writes.new.items
        ≡ map write_data writes.old.items ++ map (moved_write id) moved.now) }
    ensures only { IfErr result (λ fault. fault ≡ NoMemory) }
{
    for &(scope, place) in moved {
        writes.push(Write::Pair(id, String::new(alloc), scope, place))?;
    }
    Ok(())
}

/// Writes the text of the pipeline.
fn write_text(alloc: Global, text: &[u8], writes: &mut Vec<Write>) -> Result<(), StoreFault>
    ensures ok { OnOk result (map write_data writes.new.items
        ≡ map write_data writes.old.items ++ write.text text.now ∷ []) }
    ensures only { IfErr result (λ fault. fault ≡ NoMemory) }
{
    writes.push(Write::PipelineText(Vec::from_slice(alloc, text)?))?;
    Ok(())
}

/// Writes the pin of a resource.
fn write_pin(
    alloc: Global,
    resource: &str,
    pin: &Pin,
    writes: &mut Vec<Write>,
) -> Result<(), StoreFault>
    ensures ok { OnOk result (map write_data writes.new.items
        ≡ map write_data writes.old.items ++ write.pin resource.now (key_text pin.now) ∷ []) }
    ensures only { IfErr result (λ fault. fault ≡ NoMemory) }
{
    let name = String::from_str(alloc, resource)?;
    writes.push(Write::Pin(name, pin.text(alloc)?))?;
    Ok(())
}

/// Writes that a resource has no pin.
fn write_no_pin(alloc: Global, resource: &str, writes: &mut Vec<Write>) -> Result<(), StoreFault>
    ensures ok { OnOk result (map write_data writes.new.items
        ≡ map write_data writes.old.items ++ write.no_pin resource.now ∷ []) }
    ensures only { IfErr result (λ fault. fault ≡ NoMemory) }
{
    writes.push(Write::NoPin(String::from_str(alloc, resource)?))?;
    Ok(())
}

/// Writes that a place is disabled, if it wasn't.
fn write_disabled(
    alloc: Global,
    place: &Switched,
    writes: &mut Vec<Write>,
) -> Result<(), StoreFault>
    ensures ok { OnOk result (map write_data writes.new.items
        ≡ map write_data writes.old.items ++ edit_writes (edits.Disabled place.now)) }
    ensures only { IfErr result (λ fault. fault ≡ NoMemory) }
{
    if place.is_changed {
        writes.push(Write::Pair(0, String::new(alloc), place.scope, place.place))?;
    }
    Ok(())
}

/// Writes that a place is enabled, if it wasn't.
fn write_enabled(alloc: Global, place: &Switched, writes: &mut Vec<Write>) -> Result<(), StoreFault>
    ensures ok { OnOk result (map write_data writes.new.items
        ≡ map write_data writes.old.items ++ edit_writes (edits.Enabled place.now)) }
    ensures only { IfErr result (λ fault. fault ≡ NoMemory) }
{
    if place.is_changed {
        writes.push(Write::NoPair(0, String::new(alloc), place.scope, place.place))?;
    }
    Ok(())
}

/// Writes a new build and what it uses.
fn write_build(build: &Made, writes: &mut Vec<Write>) -> Result<(), StoreFault>
    ensures ok { OnOk result (map write_data writes.new.items
        ≡ map write_data writes.old.items ++ edit_writes (edits.Build build.now)) }
    ensures only { IfErr result (λ fault. fault ≡ NoMemory) }
{
    writes.push(Write::Build(build.row, build.job.clone()?, build.number, 0))?;
    write_used(build.row, &build.used, writes)
}

/// Writes the end of a build and what it moved.
fn write_end(alloc: Global, end: &Ended, writes: &mut Vec<Write>) -> Result<(), StoreFault>
    ensures ok { OnOk result (map write_data writes.new.items
        ≡ map write_data writes.old.items ++ edit_writes (edits.Ended end.now)) }
    ensures only { IfErr result (λ fault. fault ≡ NoMemory) }
{
    writes.push(Write::Status(end.row, number_of(end.status)))?;
    write_moved(alloc, end.row, &end.moved, writes)
}

/// Writes what an edit changes, under the numbers that it carries.
fn write_edit(alloc: Global, edit: &Edit, writes: &mut Vec<Write>) -> Result<(), StoreFault>
    requires { HasPlaces edit.now }
    ensures ok { OnOk result (map write_data writes.new.items
        ≡ map write_data writes.old.items ++ edit_writes edit.now) }
    ensures only { IfErr result (λ fault. fault ≡ NoMemory) }
{
    match edit {
        Edit::Text(text) => write_text(alloc, text, writes),
        Edit::Versions(report) => write_report(alloc, report, writes),
        Edit::Build(build) => write_build(build, writes),
        Edit::Ended(end) => write_end(alloc, end, writes),
        Edit::PinSet(resource, pin) => write_pin(alloc, resource, pin, writes),
        Edit::PinCleared(resource) => write_no_pin(alloc, resource, writes),
        Edit::Disabled(place) => write_disabled(alloc, place, writes),
        Edit::Enabled(place) => write_enabled(alloc, place, writes),
    }
}

/// What a change writes, in order. `NoMemory` if out of memory.
pub(crate) fn writes_of(alloc: Global, change: &[Edit]) -> Result<Vec<Write>, StoreFault>
    requires { AllByRecursion HasPlaces change.now }
    ensures written { IfOk result (λ writes. map write_data writes.items ≡ change_writes change.now) }
    ensures only { IfErr result (λ fault. fault ≡ NoMemory) }
{
    let mut writes = Vec::new(alloc);
    for edit in change {
        write_edit(alloc, edit, &mut writes)?;
    }
    Ok(writes)
}
