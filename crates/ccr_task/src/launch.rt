//! What checks and asks are launched as.
ghost use Rattle.std.specs.Prelude.{◌≡◌, ◌∷◌, [], map, option_map, IfOk, IsTrue, codes, string_bytes};
ghost use Rattle.std.specs.List.{Contains};
ghost use Rattle.std.specs.Option.{option_copied};
ghost use Rattle.ccr_pipeline.specs.JobData.{JobData, resource_data};
ghost use Rattle.ccr_pipeline.specs.Pipelines.{pipeline_data};
ghost use Rattle.ccr_pipeline.specs.Tree.{config_data, variable_data};
ghost use Rattle.ccr_protocol.specs.Requests.{data_of};
ghost use Rattle.ccr_process.specs.Launches.{launch_data, texts_of};
ghost use Rattle.ccr_steps.specs.Asks.{ask_data, NamesResourceOf};
ghost use Rattle.ccr_task.specs.Places.{places_data, below, build_folder};
ghost use Rattle.ccr_task.specs.Launching.{check_launch, fetch_launch, push_launch, task_program, task_folder, begins_with_slash, Launches, LaunchesAsk, IsTaskLaunch, can_launch, starts_program};

use crate::environment::environment;
use crate::places::Places;
use ccr_history::{Object, Version};
use ccr_pipeline::{Pipeline, Resource, TaskConfig, Variable};
use ccr_process::Launch;
use ccr_protocol::{RequestFault, check_request, in_request, out_request};
use ccr_steps::Ask;
use std::alloc::{AllocError, Global};

/// A path below a folder.
fn below(alloc: Global, folder: &str, name: &str) -> Result<String, AllocError>
    ensures { IfOk result (λ path. string_bytes path ≡ below folder.now name.now) }
{
    format!(in alloc; "{folder}/{name}")
}

/// A list of one argument.
fn only(alloc: Global, arg: String) -> Result<Vec<String>, AllocError>
    ensures { IfOk result (λ v. texts_of v.items ≡ string_bytes arg ∷ []) }
{
    let mut args = Vec::new(alloc);
    args.push(arg)?;
    Ok(args)
}

/// The launch of a check of a resource, which is told the version with the greatest place, if there is one
/// (Concourse: implementing a resource type, check).
///
/// It runs in the folder of all builds, without an argument. `TooLong` exactly where its request has more than 65,536
/// bytes; `NoMemory` where memory runs out.
pub fn check_launch(
    alloc: Global,
    places: &Places,
    resource: &Resource,
    version: Option<&Version>,
) -> Result<Launch, RequestFault>
    ensures { Launches (check_launch (places_data places.now) (resource_data resource.now)
        (option_copied version.entry)) result }
{
    let input = check_request(alloc, resource.source.as_ref(), version)?;
    Ok(Launch {
        program: places.program(alloc, resource.kind.as_str(), "check")?,
        args: Vec::new(alloc),
        folder: String::from_str(alloc, places.work.as_str())?,
        env: Vec::new(alloc),
        input,
        keep: true,
    })
}

fn fetch_launch(
    alloc: Global,
    places: &Places,
    build: String,
    artifact: &str,
    resource: &Resource,
    version: &Version,
    params: Option<&Object>,
) -> Result<Launch, RequestFault>
    ensures { Launches (fetch_launch (places_data places.now) (string_bytes build) artifact.now
        (resource_data resource.now) version.now (data_of params.entry)) result }
{
    let input = in_request(alloc, resource.source.as_ref(), version, params)?;
    let artifact = below(alloc, build.as_str(), artifact)?;
    Ok(Launch {
        program: places.program(alloc, resource.kind.as_str(), "in")?,
        args: only(alloc, artifact)?,
        folder: build,
        env: Vec::new(alloc),
        input,
        keep: true,
    })
}

fn push_launch(
    alloc: Global,
    places: &Places,
    build: String,
    resource: &Resource,
    params: Option<&Object>,
) -> Result<Launch, RequestFault>
    ensures { Launches (push_launch (places_data places.now) (string_bytes build)
        (resource_data resource.now) (data_of params.entry)) result }
{
    let input = out_request(alloc, resource.source.as_ref(), params)?;
    Ok(Launch {
        program: places.program(alloc, resource.kind.as_str(), "out")?,
        args: only(alloc, build.clone()?)?,
        folder: build,
        env: Vec::new(alloc),
        input,
        keep: true,
    })
}

fn begins_with_slash(path: &str) -> bool
    ensures { result ≡ begins_with_slash path.now }
{
    path.as_bytes().first() == Some(&b'/')
}

/// The program of a task: its path as it stands, or taken from the build folder.
fn task_program(alloc: Global, build: &str, path: &str) -> Result<String, AllocError>
    ensures { IfOk result (λ program. string_bytes program ≡ task_program build.now path.now) }
{
    if begins_with_slash(path) || !path.as_bytes().contains(&b'/') {
        return String::from_str(alloc, path);
    }
    below(alloc, build, path)
}

/// The folder that a task runs in.
fn task_folder(alloc: Global, build: &str, dir: &Option<String>) -> Result<String, AllocError>
    ensures { IfOk result (λ folder. string_bytes folder
        ≡ task_folder build.now (option_map string_bytes dir.now)) }
{
    match dir {
        Some(dir) => below(alloc, build, dir.as_str()),
        None => String::from_str(alloc, build),
    }
}

fn copy_texts(texts: &Vec<String>) -> Result<Vec<String>, AllocError>
    ensures { IfOk result (λ v. texts_of v.items ≡ texts_of texts.now.items) }
{
    let copied = texts.clone()?;
    Ok(copied)
}

fn task_launch(
    alloc: Global,
    build: &str,
    config: &TaskConfig,
    step: &[Variable],
) -> Result<Launch, AllocError>
    ensures { IfOk result (λ l. IsTaskLaunch build.now (config_data config.now) (map variable_data step.now)
        (launch_data l)) }
{
    Ok(Launch {
        program: task_program(alloc, build, config.run.path.as_str())?,
        args: copy_texts(&config.run.args)?,
        folder: task_folder(alloc, build, &config.run.dir)?,
        env: environment(alloc, &config.params, step)?,
        input: Vec::new(alloc),
        keep: false,
    })
}

/// Whether an ask of a build starts a program: it asks for no file, and the pipeline has the resource that it names, if
/// it names one. It has each resource that a build of one of its jobs asks for.
pub fn can_launch(pipeline: &Pipeline, ask: &Ask<'_>) -> bool
    ensures exact { result ≡ can_launch (pipeline_data pipeline.now).resources (ask_data ask.now) }

    // What a build of one of the pipeline's jobs asks can be launched, unless it asks for a file.
    ensures named { (job : JobData) → Contains (pipeline_data pipeline.now).jobs job
        → NamesResourceOf job.plan (ask_data ask.now) → result ≡ starts_program (ask_data ask.now) }
{
    match ask {
        Ask::Fetch { resource, .. } => pipeline.resource(resource).is_some(),
        Ask::Push { resource, .. } => pipeline.resource(resource).is_some(),
        Ask::ReadConfig { .. } => false,
        Ask::RunTask { .. } => true,
    }
}

/// The launch of a build's ask: a fetch, a push or a task's program
/// (Concourse: implementing a resource type, in and out; task config, run).
///
/// The ask is one that [`can_launch`] tells. A fetch and a push run in the build folder, a task in the build folder or
/// in the folder below it that its config names. The only argument of `in` is the artifact's folder, that of `out` the
/// build folder. A task's path that begins with `/` or has none is used as it stands, another is taken from the build
/// folder; its variables are the config's, those of the step replacing equal names, names ascending. `TooLong` exactly
/// where the request has more than 65,536 bytes; `NoMemory` where memory runs out.
pub fn launch_of(
    alloc: Global,
    places: &Places,
    pipeline: &Pipeline,
    job: &str,
    number: u32,
    ask: &Ask<'_>,
) -> Result<Launch, RequestFault>
    requires { IsTrue (can_launch (pipeline_data pipeline.now).resources (ask_data ask.now)) }
    ensures { LaunchesAsk (places_data places.now) (pipeline_data pipeline.now).resources
        (build_folder (places_data places.now) job.now number) (ask_data ask.now) result }
{
    let build = places.build_folder(alloc, job, number)?;
    match ask {
        Ask::Fetch {
            artifact,
            resource,
            version,
            params,
        } => {
            let resource = pipeline.resource(resource).unwrap();
            fetch_launch(alloc, places, build, artifact, resource, version, *params)
        }
        Ask::Push {
            resource,
            params,
            ..
        } => {
            let resource = pipeline.resource(resource).unwrap();
            push_launch(alloc, places, build, resource, *params)
        }
        Ask::ReadConfig { .. } => unreachable!(),
        Ask::RunTask { config, env } => Ok(task_launch(alloc, build.as_str(), config, env)?),
    }
}
