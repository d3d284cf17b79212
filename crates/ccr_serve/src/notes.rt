//! What is told of a turn's step that isn't a success, and of builds that a restart has cut short.
ghost use Rattle.std.specs.Prelude.{◌≡◌, IfSome, Some, option_map, string_bytes};
ghost use Rattle.ccr_history.specs.Edits.{change_data, edit_data};
ghost use Rattle.ccr_task.specs.Notes.{cut_text};
ghost use Rattle.ccr_core.specs.Cores.{core_data};
ghost use Rattle.ccr_lines.specs.Noted.{IsNoted};
ghost use Rattle.ccr_serve.specs.Noted.{IsHead, IsStepHead, NotesOf, NotesEdit, NotesCut};

use ccr_core::Core;
use ccr_history::Edit;
use ccr_lines::Lines;
use ccr_task::{StepFault, ask_head, cut_note, note_of, step_head};
use std::alloc::Global;

/// Which step of the job's build of this number asks, and for which file: the head of what is told of its answer. None where
/// the build doesn't run, and out of memory.
pub(crate) fn asking_head(alloc: Global, core: &Core, job: &str, number: u32) -> Option<String>
    ensures { IfSome result (λ head. IsHead (core_data core.now) job.now number (string_bytes head)) }
{
    let (_, ask) = core.wants(job, number)?;
    let step = core.step_of(job, number)?;
    ask_head(alloc, job, number, step, &ask).ok()
}

/// Which step of the job's build of this number waits: the head of what is told of its abort. None where the build doesn't
/// run, and out of memory.
pub(crate) fn waiting_head(alloc: Global, core: &Core, job: &str, number: u32) -> Option<String>
    ensures { IfSome result (λ head. IsStepHead (core_data core.now) job.now number (string_bytes head)) }
{
    let step = core.step_of(job, number)?;
    step_head(alloc, job, number, step).ok()
}

/// Tells what was wrong with a step, if anything was: `head` says which it is. Out of memory nothing is told.
pub(crate) fn tell_fault<O: Lines>(
    alloc: Global,
    out: &mut O,
    head: &Option<String>,
    fault: &Option<StepFault>,
)
    ensures noted { NotesOf (λ text. option_map string_bytes head.now ≡ Some text) fault.now
        (O.notes out.old) (O.notes out.new) }
    ensures same { O.written out.new ≡ O.written out.old }
    ensures waiting { O.waiting out.new ≡ O.waiting out.old }
    ensures room { O.room out.new ≡ O.room out.old }
{
    let (Some(head), Some(fault)) = (head, fault) else {
        return;
    };
    if let Ok(line) = note_of(alloc, head.as_str(), fault) {
        out.note(line);
    }
}

/// Tells that a restart has cut this build short. Out of memory nothing is told.
fn tell_cut_build<O: Lines>(alloc: Global, out: &mut O, job: &str, number: u32)
    ensures noted { IsNoted (cut_text job.now number) (O.notes out.old) (O.notes out.new) }
    ensures same { O.written out.new ≡ O.written out.old }
    ensures waiting { O.waiting out.new ≡ O.waiting out.old }
{
    if let Ok(line) = cut_note(alloc, job, number) {
        out.note(line);
    }
}

/// Tells that a restart has cut short the build that an edit ends, if it ends one. Out of memory nothing is told.
fn tell_cut_edit<O: Lines>(alloc: Global, out: &mut O, edit: &Edit)
    ensures noted { NotesEdit (edit_data edit.now) (O.notes out.old) (O.notes out.new) }
    ensures same { O.written out.new ≡ O.written out.old }
    ensures waiting { O.waiting out.new ≡ O.waiting out.old }
{
    match edit {
        Edit::Ended(ended) => tell_cut_build(alloc, out, ended.job.as_str(), ended.number),
        Edit::Text(_)
        | Edit::Versions(_)
        | Edit::Build(_)
        | Edit::PinSet(_, _)
        | Edit::PinCleared(_)
        | Edit::Disabled(_)
        | Edit::Enabled(_) => {}
    }
}

/// Tells of each build that a restart's change ends that it has cut the build short. Out of memory nothing is told.
pub(crate) fn tell_cut<O: Lines>(alloc: Global, out: &mut O, change: &[Edit])
    ensures noted { NotesCut (change_data change.now) (O.notes out.old) (O.notes out.new) }
    ensures same { O.written out.new ≡ O.written out.old }
    ensures waiting { O.waiting out.new ≡ O.waiting out.old }
{
    for edit in change {
        tell_cut_edit(alloc, out, edit);
    }
}
