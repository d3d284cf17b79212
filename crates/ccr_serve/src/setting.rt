//! Sets a pipeline.
ghost use Rattle.std.specs.Prelude.{◌≡◌, ◌++◌, ◌≤◌, ℕ, List, unwrap_or, IfOk, IfErr, OnOk, IsSomeAnd, Ok, Err, []};
ghost use Rattle.ccr_pipeline.specs.Pipelines.{pipeline_data};
ghost use Rattle.ccr_history.specs.Text.{Text};
ghost use Rattle.ccr_task.specs.Calls.{CallData};
ghost use Rattle.ccr_task.specs.declared.fault.ShelfFault.TheVariants.{TooLong};
ghost use Rattle.ccr_core.specs.Cores.{core_data};
ghost use Rattle.ccr_core.specs.State.{no_pipeline};
ghost use Rattle.ccr_lines.specs.Lines.{pipeline_lines};
ghost use Rattle.ccr_serve.specs.Commanding.{IsRead, ArePipeline};
ghost use Rattle.ccr_core.specs.Commands.{set_pipeline};
ghost use Rattle.ccr_serve.specs.Reads.{lines_room, KeepsFromReading};
ghost use Rattle.ccr_serve.specs.Views.{IsReady, bare_view};
ghost use Rattle.ccr_serve.specs.Served.{Came, AfterCommand};

use crate::fault::ServeFault;
use crate::server::Server;
use ccr_core::{Core, Event};
use ccr_history::Storage;
use ccr_lines::{Lines, pipeline_room, print_pipeline};
use ccr_pipeline::{Pipeline, ReadFault, read};
use ccr_process::Runner;
use ccr_task::{Shelf, ShelfFault};
use std::alloc::{AllocError, Global};

/// The fault of a pipeline's file that is too long.
fn too_long(alloc: Global) -> ServeFault
    ensures { (path : Text) (before after : List CallData) → IsRead path (Err TooLong) before after
        → KeepsFromReading path result before after }
{
    match String::from_str(alloc, "pipeline") {
        Ok(path) => ServeFault::Read(ReadFault::TooLong(path)),
        Err(_) => ServeFault::NoMemory,
    }
}

/// The pipeline in the file at this path. `Read` where the file is too long or its text is refused, `File` where it
/// can't be read, and `NoMemory`; no other fault.
fn read_pipeline<S: Shelf>(alloc: Global, shelf: &mut S, path: &str) -> Result<Pipeline, ServeFault>
    ensures ok { IfOk result (λ p. (bytes : List ℕ)
        × IsRead path.now (Ok bytes) (S.calls shelf.old) (S.calls shelf.new) × ArePipeline bytes (pipeline_data p)) }
    ensures err { IfErr result (λ fault.
        KeepsFromReading path.now fault (S.calls shelf.old) (S.calls shelf.new)) }
{
    let bytes = match shelf.read_file(path) {
        Ok(bytes) => bytes,
        Err(ShelfFault::TooLong) => return Err(too_long(alloc)),
        Err(ShelfFault::Failed) => return Err(ServeFault::File),
        Err(ShelfFault::NoMemory) => return Err(ServeFault::NoMemory),
    };
    match read(alloc, &bytes) {
        Ok(pipeline) => Ok(pipeline),
        Err(ReadFault::NoMemory) => Err(ServeFault::NoMemory),
        Err(fault) => Err(ServeFault::Read(fault)),
    }
}

/// Makes room for the lines of a pipeline. There is no room where no number tells it.
fn make_pipeline_room<O: Lines>(pipeline: &Pipeline, out: &mut O) -> Result<(), AllocError>
    ensures room { OnOk result (lines_room (pipeline_data pipeline.now) ≤ O.room out.new) }
    ensures same { O.written out.new ≡ O.written out.old }
    ensures waiting { O.waiting out.new ≡ O.waiting out.old }
{
    match pipeline_room(pipeline) {
        Some(bytes) => out.make_room(bytes),
        None => Err(AllocError),
    }
}

/// Writes the lines of the pipeline that was set.
fn print_set<O: Lines>(out: &mut O, core: &Core)
    requires { IsSomeAnd (core_data core.now).pipeline (λ p. lines_room p ≤ O.room out.old) }
    ensures told { O.written out.new ≡ O.written out.old
        ++ pipeline_lines (unwrap_or (core_data core.now).pipeline no_pipeline) }
    ensures shown { O.waiting out.new ≡ [] }
{
    if let Some(pipeline) = core.pipeline() {
        print_pipeline(out, pipeline);
    }
    out.hand_out();
}

impl<R: Runner, S: Shelf, T: Storage> Server<R, S, T> {
    /// Sets the pipeline in the file at this path, which is read first. Its lines tell how many resources and jobs it
    /// has, and which keys have no effect.
    pub(crate) fn set_pipeline<O: Lines>(
        &mut self,
        path: &str,
        out: &mut O,
    ) -> Result<u8, ServeFault>
        requires ready { IsReady (bare_view R.Runner S.Shelf T.Storage self.old) }
        ensures came { Came R.Runner S.Shelf T.Storage O.Lines (set_pipeline path.now) result
            self.old self.new out.old out.new }
        ensures after { AfterCommand R.Runner S.Shelf T.Storage O.Lines result self.old self.new out.old out.new }
    {
        let pipeline = match read_pipeline(self.alloc, &mut self.shelf, path) {
            Ok(pipeline) => pipeline,
            Err(fault) => return Err(fault),
        };
        let Ok(()) = make_pipeline_room(&pipeline, out) else {
            return Err(ServeFault::NoMemory);
        };
        // What a core keeps says that it stands for a state, in which the event sets the pipeline that is told.
        self.core.rules();
        match self.make(Event::SetPipeline(pipeline)) {
            Ok(Ok(_)) => {
                print_set(out, &self.core);
                Ok(0)
            }
            Ok(Err(fault)) => Err(ServeFault::Core(fault)),
            Err(fault) => Err(fault),
        }
    }
}
