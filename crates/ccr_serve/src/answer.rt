//! How what a build asks is answered, and what was wrong where that is no success.
ghost use Rattle.std.specs.Prelude.{◌≡◌, [], ◌∷◌, map, string_bytes, IfOk, OnErr, Option, Some};
ghost use Rattle.std.specs.Option.{IfSome};
ghost use Rattle.ccr_pipeline.specs.Pipelines.{pipeline_data};
ghost use Rattle.ccr_process.specs.Launches.{launch_data};
ghost use Rattle.ccr_process.specs.Runs.{Pair};
ghost use Rattle.ccr_steps.specs.Asks.{ask_data};
ghost use Rattle.ccr_task.specs.Faulty.{said_data};
ghost use Rattle.ccr_task.specs.Launching.{can_launch, starts_program};
ghost use Rattle.ccr_task.specs.Calls.{making, removing, Does};
ghost use Rattle.ccr_task.specs.Places.{places_data, abort_folder, build_folder, in_build};
ghost use Rattle.ccr_task.specs.Starting.{step_label_data, started_ask};
ghost use Rattle.ccr_serve.specs.Asked.{ask_folders, unless_asked, LooksAgain, Settles, AnswersByFile, AnswersByRun, AnswersByLaunch, Answers, BeginsByFile, BeginsByLaunch, BeginsAnswer};
ghost use Rattle.ccr_serve.specs.Pairs.{Adds};

use crate::aborting::take_abort;
use ccr_pipeline::Pipeline;
use ccr_process::{Launch, Runner};
use ccr_protocol::RequestFault;
use ccr_steps::{Answered, Ask};
use ccr_task::{
    Places, Said, Shelf, ShelfFault, StepFault, StepLabel, answered_of, config_of, launch_of,
    started_ask,
};
use std::alloc::{AllocError, Global};

/// Makes the folder of an artifact anew.
fn make_anew<S: Shelf>(shelf: &mut S, path: &str) -> Result<(), ShelfFault>
    ensures { Does (removing path.now ∷ making path.now ∷ []) (S.calls shelf.old) result (S.calls shelf.new) }
{
    match shelf.remove_folder(path) {
        Ok(()) => shelf.make_folder(path),
        Err(fault) => Err(fault),
    }
}

/// Makes a folder in a build's folder for each of these names, those that aren't there yet.
fn make_each<S: Shelf>(
    alloc: Global,
    shelf: &mut S,
    places: &Places,
    job: &str,
    number: u32,
    names: &[String],
) -> Result<(), ShelfFault>
    ensures { Does (map (λ name. making (in_build (places_data places.now) job.now number name))
        (map string_bytes names.now)) (S.calls shelf.old) result (S.calls shelf.new) }
{
    for name in names {
        let Ok(path) = places.in_build(alloc, job, number, name.as_str()) else {
            return Err(ShelfFault::NoMemory);
        };
        match shelf.make_folder(path.as_str()) {
            Ok(()) => {}
            Err(fault) => return Err(fault),
        }
    }
    Ok(())
}

/// Makes the folders that an ask's program finds: for a fetch the artifact's folder, anew; for a push and a task the
/// build's folder, and for a task those of its outputs. Those that are there are left.
fn make_folders<S: Shelf>(
    alloc: Global,
    shelf: &mut S,
    places: &Places,
    job: &str,
    number: u32,
    ask: &Ask<'_>,
) -> Result<(), ShelfFault>
    ensures { Does (ask_folders (build_folder (places_data places.now) job.now number) (ask_data ask.now))
        (S.calls shelf.old) result (S.calls shelf.new) }
{
    if let Ask::Fetch { artifact, .. } = ask {
        let Ok(path) = places.in_build(alloc, job, number, artifact) else {
            return Err(ShelfFault::NoMemory);
        };
        return make_anew(shelf, path.as_str());
    }
    let Ok(build) = places.build_folder(alloc, job, number) else {
        return Err(ShelfFault::NoMemory);
    };
    match shelf.make_folder(build.as_str()) {
        Ok(()) => {}
        Err(fault) => return Err(fault),
    }
    match ask {
        Ask::RunTask { config, .. } => make_each(
            alloc,
            shelf,
            places,
            job,
            number,
            &config.outputs,
        ),
        _ => Ok(()),
    }
}

/// What a program answered, or that its step was aborted, where that is asked.
fn unless_asked(asked: bool, said: Said) -> Said
    ensures { said_data result ≡ unless_asked asked (said_data said) }
{
    if asked {
        Said::bad(Answered::Aborted, StepFault::Aborted)
    } else {
        said
    }
}

/// What a step comes to whose program answered so, where there is a launcher. A success stands. After any other answer it
/// is looked whether the build's abort is asked by then, and the step is aborted where it is. `AllocError` where nothing
/// was looked for.
fn look_again<S: Shelf>(
    alloc: Global,
    shelf: &mut S,
    places: &Places,
    job: &str,
    number: u32,
    said: Said,
) -> Result<Said, AllocError>
    ensures ok { IfOk result (λ a. LooksAgain (said_data said).fault
        (abort_folder (places_data places.now) job.now number) (said_data said)
        (S.calls shelf.old) (S.calls shelf.new) (said_data a)) }
    ensures err { OnErr result (S.calls shelf.new ≡ S.calls shelf.old) }
{
    match &said.fault {
        Some(_) => {}
        None => return Ok(said),
    }
    match take_abort(alloc, shelf, places, job, number) {
        Ok(asked) => Ok(unless_asked(asked, said)),
        Err(error) => Err(error),
    }
}

/// What a step comes to whose program answered so: where there is a launcher, by a second look; else it is that answer.
/// `AllocError` where nothing was looked for.
fn settle<S: Shelf>(
    alloc: Global,
    shelf: &mut S,
    places: &Places,
    job: &str,
    number: u32,
    said: Said,
) -> Result<Said, AllocError>
    ensures ok { IfOk result (λ a. Settles (places_data places.now).launcher
        (abort_folder (places_data places.now) job.now number) (said_data said)
        (S.calls shelf.old) (S.calls shelf.new) (said_data a)) }
    ensures err { OnErr result (S.calls shelf.new ≡ S.calls shelf.old) }
{
    match &places.launcher {
        Some(_) => look_again(alloc, shelf, places, job, number, said),
        None => Ok(said),
    }
}

/// Starts what is started of an ask's launch, whose folders are made, and says what the step comes to.
fn answer_by_run<R: Runner, S: Shelf>(
    alloc: Global,
    runner: &mut R,
    shelf: &mut S,
    places: &Places,
    job: &str,
    number: u32,
    label: StepLabel<'_>,
    ask: &Ask<'_>,
    launch: Launch,
) -> Result<Said, AllocError>
    ensures ok { IfOk result (λ a. (pair : Pair) × Adds (R.pairs runner.old) (Some pair) (R.pairs runner.new)
        × AnswersByRun (places_data places.now) job.now number (step_label_data label.entry) (ask_data ask.now)
        (launch_data launch) (S.calls shelf.old) (S.calls shelf.new) pair (said_data a)) }
    ensures err { OnErr result ((lost : Option Pair) × Adds (R.pairs runner.old) lost (R.pairs runner.new)
        × IfSome lost (λ pair. pair.0
        ≡ started_ask (places_data places.now) job.now number (step_label_data label.entry) (ask_data ask.now)
        (launch_data launch))) }
    ensures same { OnErr result (S.calls shelf.new ≡ S.calls shelf.old) }
{
    let begun = started_ask(alloc, places, job, number, label, ask, launch)?;
    let end = runner.run(&begun);
    let said = answered_of(alloc, ask, begun.program, end)?;
    settle(alloc, shelf, places, job, number, said)
}

/// Answers an ask by its launch, once its folders are made.
fn answer_by_launch<R: Runner, S: Shelf>(
    alloc: Global,
    runner: &mut R,
    shelf: &mut S,
    places: &Places,
    job: &str,
    number: u32,
    label: StepLabel<'_>,
    ask: &Ask<'_>,
    launch: Result<Launch, RequestFault>,
) -> Result<Said, AllocError>
    ensures ok { IfOk result (λ a. (pair : Option Pair) × Adds (R.pairs runner.old) pair (R.pairs runner.new)
        × AnswersByLaunch (places_data places.now) job.now number (step_label_data label.entry) (ask_data ask.now) launch
        (S.calls shelf.old) (S.calls shelf.new) pair (said_data a)) }
    ensures err { OnErr result ((lost : Option Pair) × Adds (R.pairs runner.old) lost (R.pairs runner.new)
        × BeginsByLaunch (places_data places.now) job.now number (step_label_data label.entry) (ask_data ask.now) launch
        (S.calls shelf.old) (S.calls shelf.new) lost) }
{
    let launch = match launch {
        Ok(launch) => launch,
        Err(RequestFault::TooLong) => {
            return Ok(Said::bad(Answered::Errored, StepFault::RequestTooLong));
        }
        Err(RequestFault::NoMemory) => return Err(AllocError),
    };
    match make_folders(alloc, shelf, places, job, number, ask) {
        Ok(()) => {}
        Err(ShelfFault::Failed) => {
            return Ok(Said::bad(Answered::Errored, StepFault::FolderFault));
        }
        Err(ShelfFault::TooLong | ShelfFault::NoMemory) => return Err(AllocError),
    }
    answer_by_run(
        alloc, runner, shelf, places, job, number, label, ask, launch,
    )
}

/// Reads a task's file, which is taken from the build's folder.
fn answer_by_file<S: Shelf>(
    alloc: Global,
    shelf: &mut S,
    places: &Places,
    job: &str,
    number: u32,
    file: &str,
) -> Result<Said, AllocError>
    ensures ok { IfOk result (λ a. AnswersByFile (in_build (places_data places.now) job.now number file.now)
        (S.calls shelf.old) (S.calls shelf.new) (said_data a)) }
    ensures err { OnErr result (BeginsByFile (in_build (places_data places.now) job.now number file.now)
        (S.calls shelf.old) (S.calls shelf.new)) }
{
    let Ok(path) = places.in_build(alloc, job, number, file) else {
        return Err(AllocError);
    };
    config_of(alloc, shelf.read_file(path.as_str()))
}

/// Answers what a job's build of this number asks at a step with this label: its one program is run once its folders are made,
/// by the launcher if there is one, or its task's file is read.
///
/// Errored where the request is too long, or a folder can't be made or removed; then no program is started. Aborted where
/// there is a launcher, the program didn't succeed, and the build's abort is asked by then. The only error is out of
/// memory; the program may have run then, and answers nothing.
pub(crate) fn answer_to<R: Runner, S: Shelf>(
    alloc: Global,
    runner: &mut R,
    shelf: &mut S,
    places: &Places,
    pipeline: &Pipeline,
    job: &str,
    number: u32,
    label: StepLabel<'_>,
    ask: &Ask<'_>,
) -> Result<Said, AllocError>
    requires { can_launch (pipeline_data pipeline.now).resources (ask_data ask.now)
        ≡ starts_program (ask_data ask.now) }
    ensures ok { IfOk result (λ a. (pair : Option Pair) × Adds (R.pairs runner.old) pair (R.pairs runner.new)
        × Answers (places_data places.now) (pipeline_data pipeline.now).resources
        job.now number (step_label_data label.entry) (ask_data ask.now)
        (S.calls shelf.old) (S.calls shelf.new) pair (said_data a)) }
    ensures err { OnErr result ((lost : Option Pair) × Adds (R.pairs runner.old) lost (R.pairs runner.new)
        × BeginsAnswer (places_data places.now) (pipeline_data pipeline.now).resources
        job.now number (step_label_data label.entry) (ask_data ask.now)
        (S.calls shelf.old) (S.calls shelf.new) lost) }
{
    if let Ask::ReadConfig { file } = ask {
        return answer_by_file(alloc, shelf, places, job, number, file);
    }
    let launch = launch_of(alloc, places, pipeline, job, number, ask);
    answer_by_launch(
        alloc, runner, shelf, places, job, number, label, ask, launch,
    )
}
