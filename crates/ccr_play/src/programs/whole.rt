//! Whole builds whose programs end by a script: `MEMBERS | VERSIONS | FILE | ENDS`.
//!
//! The members are those of the only job, but its name; `<x>` stands for the members of a task that runs x. The file is
//! what the build's tasks read. An end is a status, `0:OUTPUT`, `killed`, `not-started` or `too-long`.

use super::part;
use crate::steps::{pipeline_of, push_moved, started_in};
use anyhow::{Result, anyhow};
use ccr_pipeline::Pipeline;
use ccr_process::{Launch, Runner, Scripted};
use ccr_rows::{ends_of, places};
use ccr_steps::{Answered, Ask, BuildRun};
use ccr_task::{
    Places, Shelf, ShelfAnswer, ShelfScript, answered_of, can_launch, config_of, launch_of,
};
use std::alloc::{AllocError, Global};
use std::collections::VecDeque;

/// The most asks that a build of a case makes.
const MOST_ASKS: u32 = 100;

/// What the shelf gives: a file, unless it is absent.
fn files_of(alloc: Global, part: &str) -> Result<VecDeque<ShelfAnswer>> {
    let mut files = VecDeque::new(alloc);
    if part != "-" {
        let bytes = Vec::from_slice(alloc, part.as_bytes())?;
        files.push_back(ShelfAnswer::Read(bytes))?;
    }
    Ok(files)
}

/// A server's way from an ask to its answer, for build 1 of job j.
#[derive(Drop)]
struct World<'w> {
    places: &'w Places,
    pipeline: &'w Pipeline,
    runner: &'w mut Scripted,
    shelf: &'w mut ShelfScript,
}

impl World<'_> {
    fn answer(&mut self, alloc: Global, ask: &Ask<'_>) -> Result<Answered> {
        if let Ask::ReadConfig { file } = ask {
            let path = self.places.in_build(alloc, "j", 1, file)?;
            return Ok(config_of(alloc, self.shelf.read_file(path.as_str()))?.answered);
        }
        if !can_launch(self.pipeline, ask) {
            return Err(anyhow!("an unknown resource"));
        }
        let launch = launch_of(alloc, self.places, self.pipeline, "j", 1, ask)?;
        let end = self.runner.run(&launch);
        Ok(answered_of(alloc, ask, launch.program, end)?.answered)
    }

    /// Plays a build to its end.
    fn play(&mut self, alloc: Global, run: &mut BuildRun) -> Result<()> {
        for _ in 0..MOST_ASKS {
            let Some(ask) = run.wants() else {
                return Ok(());
            };
            let answer = self.answer(alloc, &ask)?;
            run.feed(answer)?;
        }
        Err(anyhow!("too many asks"))
    }
}

fn push_launch(line: &mut String, launch: &Launch) -> Result<(), AllocError> {
    line.push_str(launch.program.as_str())?;
    for arg in &launch.args {
        line.push_str(" ")?;
        line.push_str(arg.as_str())?;
    }
    line.push_str("; ")
}

/// Adds what is seen of a build: each launch, its outcome, and the versions that it moved.
fn push_seen(alloc: Global, line: &mut String, runner: &Scripted, run: &BuildRun) -> Result<()> {
    for (launch, _) in runner.pairs() {
        push_launch(line, launch)?;
    }
    if let Some(outcome) = run.outcome() {
        write!(line, "{outcome:?}")?;
    }
    push_moved(alloc, line, ", moved", run)?;
    Ok(())
}

fn seen(alloc: Global, runner: &Scripted, run: &BuildRun) -> Result<String> {
    let mut line = String::new(alloc);
    push_seen(alloc, &mut line, runner, run)?;
    Ok(line)
}

/// Plays a build of a pipeline to its end.
fn play_in(alloc: Global, world: &mut World<'_>, given: &str) -> Result<BuildRun> {
    let mut run = started_in(alloc, world.pipeline, part(given, 1))?;
    world.play(alloc, &mut run)?;
    Ok(run)
}

/// Plays a build of a pipeline, with what a runner and a shelf give: what is seen of it.
fn played_by(
    alloc: Global,
    pipeline: &Pipeline,
    runner: &mut Scripted,
    shelf: &mut ShelfScript,
    given: &str,
) -> Result<String> {
    let places = places(alloc)?;
    let mut world = World {
        places: &places,
        pipeline,
        runner,
        shelf,
    };
    let run = play_in(alloc, &mut world, given)?;
    seen(alloc, world.runner, &run)
}

/// The same, with the programs' ends and the file of a case.
fn played_of(alloc: Global, pipeline: &Pipeline, given: &str) -> Result<String> {
    let ends = ends_of(alloc, part(given, 3))?;
    let files = files_of(alloc, part(given, 2))?;
    let mut runner = Scripted::new(alloc, ends);
    let mut shelf = ShelfScript::new(files, VecDeque::new(alloc));
    played_by(alloc, pipeline, &mut runner, &mut shelf, given)
}

/// What is seen of the build of a case.
pub(super) fn played(alloc: Global, given: &str) -> Result<String> {
    let pipeline = pipeline_of(alloc, part(given, 0))?;
    played_of(alloc, &pipeline, given)
}
