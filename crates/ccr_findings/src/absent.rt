//! Inputs of tasks that no step before them gives.
ghost use Rattle.std.specs.Prelude.{◌≡◌, ◌++◌, map, string_bytes, IfOk, OnOk};
ghost use Rattle.ccr_pipeline.specs.JobData.{job_data};
ghost use Rattle.ccr_pipeline.specs.Tree.{tree_of, trees_of, input_data, source_data, task_data};
ghost use Rattle.ccr_findings.specs.Absent.{nothing_given, given_by, given_by_all, leaving, is_given, absent_line};
ghost use Rattle.ccr_findings.specs.Absent.{absent_input, absent_of, absent_in_source, absent, absent_in_all};
ghost use Rattle.ccr_findings.specs.Absent.{absent_in_jobs, given_data, giving};
ghost use Rattle.ccr_findings.specs.Findings.{findings_data};

use crate::finding::{Finding, Findings, Kind};
use ccr_pipeline::{Job, Names, Step, Task, TaskInput, TaskSource};
use std::alloc::{AllocError, Global};

/// What steps may have given.
#[derive(Drop)]
pub(crate) struct Artifacts {
    /// Whatever there is: the outputs of a task file aren't known.
    whatever: bool,
    /// The names of artifacts.
    names: Names,
}

impl Artifacts {
    fn new(alloc: Global) -> Artifacts
        ensures { given_data result ≡ nothing_given }
    {
        Artifacts {
            whatever: false,
            names: Names::new(alloc),
        }
    }

    /// Adds an artifact.
    fn give(&mut self, alloc: Global, name: &str) -> Result<(), AllocError>
        ensures { OnOk result (given_data self.new ≡ giving name.now (given_data self.old)) }
    {
        self.names.add(alloc, name)?;
        Ok(())
    }

    /// Adds what a task may leave.
    fn leave(&mut self, alloc: Global, source: &TaskSource) -> Result<(), AllocError>
        ensures { OnOk result (given_data self.new ≡ leaving (source_data source.now) (given_data self.old)) }
    {
        match source {
            TaskSource::Config(config) => {
                for output in &config.outputs {
                    self.names.add(alloc, output.as_str())?;
                }
            }
            TaskSource::File(_) => self.whatever = true,
        }
        Ok(())
    }

    /// Whether an input may be absent, or may have been given.
    fn has(&self, input: &TaskInput) -> bool
        ensures { result ≡ is_given (given_data self.now) (input_data input.now) }
    {
        input.optional || self.whatever || self.names.contains(input.name.as_str())
    }
}

/// Adds what the steps of a list may give.
#[cycle(given)]
fn give_each(alloc: Global, given: &mut Artifacts, steps: &Vec<Step>) -> Result<(), AllocError>
    ensures { OnOk result
        (given_data given.new ≡ given_by_all (given_data given.old) (trees_of (map tree_of steps.now.items))) }
{
    for step in steps {
        give_step(alloc, given, step)?;
    }
    Ok(())
}

/// Adds what a step may give.
#[cycle(given)]
fn give_step(alloc: Global, given: &mut Artifacts, step: &Step) -> Result<(), AllocError>
    ensures { OnOk result (given_data given.new ≡ given_by (given_data given.old) (tree_of step.now)) }
{
    match step {
        Step::Get(get) => given.give(alloc, get.name.as_str()),
        Step::Put(put) if put.no_get => Ok(()),
        Step::Put(put) => given.give(alloc, put.name.as_str()),
        Step::Task(task) => given.leave(alloc, &task.source),
        Step::Do(steps) => give_each(alloc, given, steps),
        Step::InParallel(steps, _) => give_each(alloc, given, steps),
        Step::Try(tried) => give_step(alloc, given, tried),
        Step::Attempts(n, tried) => {
            // A second try begins with what the first one may have given.
            if *n > 1 {
                give_step(alloc, given, tried)?;
            }
            give_step(alloc, given, tried)
        }
        Step::Hook(_, inner, hook) => {
            give_step(alloc, given, inner)?;
            give_step(alloc, given, hook)
        }
    }
}

/// The line of an input that isn't given.
fn absent_line(alloc: Global, job: &str, task: &str, input: &str) -> Result<String, AllocError>
    ensures { IfOk result (λ line. string_bytes line ≡ absent_line job.now task.now input.now) }
{
    format!(in alloc; "absent {job} {task}: no step before it gives {input}")
}

/// Adds the finding of a task's input, if it isn't optional and can't have been given.
#[tactic(auto, using(crate::proofs::Lists::and_none), unfolding(crate::specs::Absent::absent_input))]
fn find_input(
    alloc: Global,
    out: &mut Findings,
    job: &str,
    task: &str,
    given: &Artifacts,
    input: &TaskInput,
) -> Result<(), AllocError>
    ensures { OnOk result (findings_data out.new.items ≡ findings_data out.old.items
        ++ absent_input job.now task.now (given_data given.now) (input_data input.now)) }
{
    if given.has(input) {
        return Ok(());
    }
    let line = absent_line(alloc, job, task, input.name.as_str())?;
    out.push(Finding {
        kind: Kind::Absent,
        line,
    })?;
    Ok(())
}

/// Adds the findings of a task's inputs.
#[tactic(auto, using(std::proofs::Common::append_assoc))]
fn find_inputs(
    alloc: Global,
    out: &mut Findings,
    job: &str,
    task: &str,
    given: &Artifacts,
    inputs: &[TaskInput],
) -> Result<(), AllocError>
    ensures { OnOk result (findings_data out.new.items ≡ findings_data out.old.items
        ++ absent_of job.now task.now (given_data given.now) (map input_data inputs.now)) }
{
    for input in inputs {
        find_input(alloc, out, job, task, given, input)?;
    }
    Ok(())
}

/// Adds the findings of a task, and what it may leave.
fn find_task(
    alloc: Global,
    out: &mut Findings,
    job: &str,
    given: &mut Artifacts,
    task: &Task,
) -> Result<(), AllocError>
    ensures found { OnOk result (findings_data out.new.items ≡ findings_data out.old.items
        ++ absent_in_source job.now (string_bytes task.now.name) (given_data given.old) (source_data task.now.source)) }
    ensures given { OnOk result (given_data given.new ≡ leaving (source_data task.now.source) (given_data given.old)) }
{
    if let TaskSource::Config(config) = &task.source {
        find_inputs(alloc, out, job, task.name.as_str(), &*given, &config.inputs)?;
    }
    given.leave(alloc, &task.source)
}

/// Adds the findings of the steps of a list, and what they may give.
#[cycle(absent)]
#[tactic(auto, using(std::proofs::Common::append_assoc))]
fn find_each(
    alloc: Global,
    out: &mut Findings,
    job: &str,
    given: &mut Artifacts,
    steps: &Vec<Step>,
) -> Result<(), AllocError>
    ensures found { OnOk result (findings_data out.new.items ≡ findings_data out.old.items
        ++ absent_in_all job.now (given_data given.old) (trees_of (map tree_of steps.now.items))) }
    ensures given { OnOk result
        (given_data given.new ≡ given_by_all (given_data given.old) (trees_of (map tree_of steps.now.items))) }
{
    for step in steps {
        find_step(alloc, out, job, given, step)?;
    }
    Ok(())
}

/// Adds the findings of a step, and what it may give.
#[cycle(absent)]
#[tactic(auto, using(std::proofs::Common::append_assoc, crate::proofs::Lists::and_none))]
fn find_step(
    alloc: Global,
    out: &mut Findings,
    job: &str,
    given: &mut Artifacts,
    step: &Step,
) -> Result<(), AllocError>
    ensures found { OnOk result (findings_data out.new.items
        ≡ findings_data out.old.items ++ absent job.now (given_data given.old) (tree_of step.now)) }
    ensures given { OnOk result (given_data given.new ≡ given_by (given_data given.old) (tree_of step.now)) }
{
    match step {
        Step::Get(_) | Step::Put(_) => give_step(alloc, given, step),
        Step::Task(task) => find_task(alloc, out, job, given, task),
        Step::Do(steps) => find_each(alloc, out, job, given, steps),
        Step::InParallel(steps, _) => find_each(alloc, out, job, given, steps),
        Step::Try(tried) => find_step(alloc, out, job, given, tried),
        Step::Attempts(n, tried) => {
            if *n > 1 {
                give_step(alloc, given, tried)?;
            }
            find_step(alloc, out, job, given, tried)
        }
        Step::Hook(_, inner, hook) => {
            find_step(alloc, out, job, given, inner)?;
            find_step(alloc, out, job, given, hook)
        }
    }
}

/// Adds the findings of inputs that no step before their task gives.
#[tactic(auto, using(std::proofs::Common::append_assoc))]
pub(crate) fn find_absent(alloc: Global, out: &mut Findings, jobs: &[Job]) -> Result<(), AllocError>
    ensures { OnOk result (findings_data out.new.items
        ≡ findings_data out.old.items ++ absent_in_jobs (map job_data jobs.now)) }
{
    for job in jobs {
        find_step(
            alloc,
            out,
            job.name.as_str(),
            &mut Artifacts::new(alloc),
            &job.plan,
        )?;
    }
    Ok(())
}
