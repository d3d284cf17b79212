//! Launches that are told as they happen.
ghost use Rattle.std.specs.Prelude.{◌≡◌};
ghost use Rattle.ccr_process.specs.Runs.{script_pairs};

use ccr_process::{Ended, Launch, Runner, Scripted};
use std::alloc::{AllocError, Global};
use std::io::Write;

/// A script of ends, which tells each launch to a writer before it plays the launch's end.
#[derive(Drop)]
pub(super) struct Told<W: Write> {
    pub(super) alloc: Global,
    pub(super) writer: W,
    pub(super) script: Scripted,
}

/// Adds what a launch starts: its program, its arguments, and what it is given.
fn push_launch(line: &mut Vec<u8>, launch: &Launch) -> Result<(), AllocError> {
    line.extend_from_slice(launch.program.as_str().as_bytes())?;
    for arg in &launch.args {
        line.push(b' ')?;
        line.extend_from_slice(arg.as_str().as_bytes())?;
    }
    if !launch.input.is_empty() {
        line.extend_from_slice(b" given ")?;
        line.extend_from_slice(&launch.input)?;
    }
    line.push(b'\n')?;
    Ok(())
}

/// The line of a launch.
fn line_of(alloc: Global, launch: &Launch) -> Result<Vec<u8>, AllocError> {
    let mut line = Vec::from_slice(alloc, b"  starts ")?;
    push_launch(&mut line, launch)?;
    Ok(line)
}

impl<W: Write> Runner for Told<W> {
    ghost pairs = { λ told. script_pairs told.script };

    // A launch that can't be told is played all the same.
    fn run(&mut self, launch: &Launch) -> Ended {
        if let Ok(line) = line_of(self.alloc, launch) {
            let _ = self.writer.write_all(&line);
        }
        self.script.run(launch)
    }
}
