//! What is started of a launch: its program, or a launcher in the program's place.
ghost use Rattle.std.specs.Prelude.{◌≡◌, ◌∷◌, ◌++◌, Some, IfOk, OnOk, option_copied, option_map, string_bytes};
ghost use Rattle.ccr_pipeline.specs.JobData.{resource_data};
ghost use Rattle.ccr_pipeline.specs.Tree.{tree_of};
ghost use Rattle.ccr_process.specs.Launches.{launch_data, texts_of, variable_of, variables_of};
ghost use Rattle.ccr_steps.specs.Asks.{ask_data};
ghost use Rattle.ccr_task.specs.Places.{places_data};
ghost use Rattle.ccr_task.specs.Starting.{step_label_data, step_label, purpose_data, ask_kind, timeout_words, launcher_words};
ghost use Rattle.ccr_task.specs.Starting.{launcher_variable, launcher_env, started, started_check, started_ask};

use crate::places::Places;
use ccr_pipeline::{Resource, Step};
use ccr_process::Launch;
use ccr_steps::Ask;
use std::alloc::{AllocError, Global};

/// What a launcher is told of a step.
#[derive(Clone, Copy, Drop)]
pub struct StepLabel<'a> {
    /// What the pipeline calls it; nothing for a step that holds others.
    pub name: &'a str,
    /// Its timeout as the pipeline has it.
    pub timeout: Option<&'a str>,
}

/// Which program it is that a launcher is to start.
#[derive(Clone, Copy, Drop)]
pub struct Purpose<'a> {
    /// `check`, `get`, `put` or `task`.
    pub kind: &'a str,
    /// The job of its build; `-` for a check, which is of none.
    pub job: &'a str,
    /// The build's number; 0 for a check.
    pub number: u32,
    /// What the pipeline calls the step; for a check the resource's name.
    pub name: &'a str,
    /// The build's directory; for a check that of all builds.
    pub directory: &'a str,
    /// The step's timeout as the pipeline has it; a check has none.
    pub timeout: Option<&'a str>,
}

/// What is at an optional text.
fn borrowed(text: &Option<String>) -> Option<&str>
    ensures { option_copied result ≡ option_map string_bytes text.now }
{
    match text {
        Some(text) => Some(text.as_str()),
        None => None,
    }
}

/// What a launcher is told of a step; nothing of a step that holds others.
pub fn step_label(step: &Step) -> StepLabel<'_>
    ensures { step_label_data result ≡ step_label (tree_of step.now) }
{
    match step {
        Step::Get(get) => StepLabel {
            name: get.name.as_str(),
            timeout: borrowed(&get.timeout),
        },
        Step::Put(put) => StepLabel {
            name: put.name.as_str(),
            timeout: borrowed(&put.timeout),
        },
        Step::Task(task) => StepLabel {
            name: task.name.as_str(),
            timeout: borrowed(&task.timeout),
        },
        _ => StepLabel {
            name: "",
            timeout: None,
        },
    }
}

/// The kind of an ask's program; nothing for an ask for a file, which starts none.
fn ask_kind(ask: &Ask<'_>) -> &'static str
    ensures { result.now ≡ ask_kind (ask_data ask.now) }
{
    match ask {
        Ask::Fetch { .. } => "get",
        Ask::Push { .. } => "put",
        Ask::ReadConfig { .. } => "",
        Ask::RunTask { .. } => "task",
    }
}

/// Adds the word of a timeout, where there is one.
fn push_timeout(
    alloc: Global,
    words: &mut Vec<String>,
    timeout: Option<&str>,
) -> Result<(), AllocError>
    ensures { OnOk result
        (texts_of words.new.items ≡ texts_of words.old.items ++ timeout_words (option_copied timeout.entry)) }
{
    if let Some(timeout) = timeout {
        words.push(format!(in alloc; "timeout={timeout}")?)?;
    }
    Ok(())
}

/// The words that a launcher is given before the program and its own.
fn launcher_words(alloc: Global, purpose: &Purpose<'_>) -> Result<Vec<String>, AllocError>
    ensures { IfOk result (λ v. texts_of v.items ≡ launcher_words (purpose_data purpose.now)) }
{
    let number = purpose.number;
    let mut words = Vec::new(alloc);
    words.push(String::from_str(alloc, purpose.kind)?)?;
    words.push(String::from_str(alloc, purpose.job)?)?;
    words.push(format!(in alloc; "{number}")?)?;
    words.push(String::from_str(alloc, purpose.name)?)?;
    words.push(String::from_str(alloc, purpose.directory)?)?;
    push_timeout(alloc, &mut words, purpose.timeout)?;
    words.push(String::from_str(alloc, "--")?)?;
    Ok(words)
}

/// The arguments of a launcher: its words, the program, and the program's own.
fn launcher_args(
    alloc: Global,
    purpose: &Purpose<'_>,
    program: String,
    args: Vec<String>,
) -> Result<Vec<String>, AllocError>
    ensures { IfOk result (λ v. texts_of v.items
        ≡ launcher_words (purpose_data purpose.now) ++ (string_bytes program ∷ texts_of args.items)) }
{
    let mut args = args;
    let mut words = launcher_words(alloc, purpose)?;
    words.push(program)?;
    words.append(&mut args)?;
    Ok(words)
}

/// A variable under the name that a launcher is given it by.
fn launcher_variable(
    alloc: Global,
    variable: &(String, String),
) -> Result<(String, String), AllocError>
    ensures { IfOk result (λ v. variable_of v
        ≡ (launcher_variable (string_bytes variable.now.0), string_bytes variable.now.1)) }
{
    let name = variable.0.as_str();
    let name = format!(in alloc; "CCR_VAR_{name}")?;
    Ok((name, variable.1.clone()?))
}

/// The variables of a task under the names that a launcher is given them by.
fn launcher_env(
    alloc: Global,
    env: &[(String, String)],
) -> Result<Vec<(String, String)>, AllocError>
    ensures { IfOk result (λ v. variables_of v.items ≡ launcher_env (variables_of env.now)) }
{
    let mut renamed = Vec::new(alloc);
    for variable in env {
        renamed.push(launcher_variable(alloc, variable)?)?;
    }
    Ok(renamed)
}

/// The launch of a launcher, which is to start this one.
fn by_launcher(
    alloc: Global,
    launcher: &str,
    purpose: &Purpose<'_>,
    launch: Launch,
) -> Result<Launch, AllocError>
    ensures { IfOk result (λ l. launch_data l
        ≡ started (Some launcher.now) (purpose_data purpose.now) (launch_data launch)) }
{
    let Launch {
        program,
        args,
        folder,
        env,
        input,
        keep,
    } = launch;
    Ok(Launch {
        program: String::from_str(alloc, launcher)?,
        args: launcher_args(alloc, purpose, program, args)?,
        folder,
        env: launcher_env(alloc, &env)?,
        input,
        keep,
    })
}

/// What is started of a launch: itself, where there is no launcher; else the launcher, which is given the program and its
/// arguments behind words that say which program it is.
///
/// Folder, input and output are those of the launch. Its variables have the prefix `CCR_VAR_`, so that they do nothing to
/// the launcher, which takes it off for the program. The only error is out of memory.
pub fn started_of(
    alloc: Global,
    places: &Places,
    purpose: &Purpose<'_>,
    launch: Launch,
) -> Result<Launch, AllocError>
    ensures { IfOk result (λ l. launch_data l
        ≡ started (places_data places.now).launcher (purpose_data purpose.now) (launch_data launch)) }
{
    match &places.launcher {
        Some(launcher) => by_launcher(alloc, launcher.as_str(), purpose, launch),
        None => Ok(launch),
    }
}

/// What is started of a check's launch. The only error is out of memory.
pub fn started_check<'a>(
    alloc: Global,
    places: &'a Places,
    resource: &'a Resource,
    launch: Launch,
) -> Result<Launch, AllocError>
    ensures { IfOk result (λ l. launch_data l
        ≡ started_check (places_data places.now) (resource_data resource.now) (launch_data launch)) }
{
    let purpose = Purpose {
        kind: "check",
        job: "-",
        number: 0,
        name: resource.name.as_str(),
        directory: places.work.as_str(),
        timeout: None,
    };
    started_of(alloc, places, &purpose, launch)
}

/// What is started of the launch of an ask of a job's build of this number, at a step with this label. The only error is
/// out of memory.
pub fn started_ask(
    alloc: Global,
    places: &Places,
    job: &str,
    number: u32,
    label: StepLabel<'_>,
    ask: &Ask<'_>,
    launch: Launch,
) -> Result<Launch, AllocError>
    ensures { IfOk result (λ l. launch_data l ≡ started_ask (places_data places.now) job.now number
        (step_label_data label.entry) (ask_data ask.now) (launch_data launch)) }
{
    let directory = places.build_folder(alloc, job, number)?;
    let purpose = Purpose {
        kind: ask_kind(ask),
        job,
        number,
        name: label.name,
        directory: directory.as_str(),
        timeout: label.timeout,
    };
    started_of(alloc, places, &purpose, launch)
}
