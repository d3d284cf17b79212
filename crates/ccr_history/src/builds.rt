//! The builds of a history, in order of making.
ghost use Rattle.std.specs.Prelude.{◌≡◌, ◌≢◌, ◌⊎◌, ◌↔◌, ◌+◌, ◌<◌, ◌≤◌, [], None, Some, length, map, slice_get, false, AllPairs, IsTrue, IsOk, IfSome, IfNone, IfOk, IfErr, OnOk, OnErr, IsErrOf};
ghost use Rattle.std.specs.List.{AllByRecursion};
ghost use Rattle.std.specs.Str.{bytes_eq};
ghost use Rattle.ccr_history.specs.declared.build.Status.TheVariants.{Running};
ghost use Rattle.ccr_history.specs.Names.{AreApart, HasMore};
ghost use Rattle.ccr_history.specs.Rows.{used_data, HasOneMore};
ghost use Rattle.ccr_history.specs.Builds.{positions_of, count_of, build_of, is_build_of, by_input, has_used, with_build, with_end, HasEnded};
ghost use Rattle.ccr_history.specs.Newest.{newest_used};
ghost use Rattle.ccr_history.specs.Orderly.{AreOrderly, IsOnly};
ghost use Rattle.ccr_history.specs.Changes.{IsRunning};
ghost use Rattle.ccr_history.specs.Faults.{is_fault_of_add, is_fault_of_end};

use crate::build::{Status, Used};
use crate::build_ref::BuildRef;
use crate::fault::HistoryFault;
use crate::job_builds::JobBuilds;
use crate::names::Names;
use crate::rows::Rows;
use crate::used_row::{InputScope, UsedRow, used_rows};
use std::alloc::{AllocError, Global};
use std::marker::Model;

/// At most so many builds are kept.
pub const MOST_BUILDS: usize = 1_000_000;

/// The builds of a history.
///
/// A build keeps numbers in place of the names of its job and its inputs. Each job keeps the positions of its builds, the
/// places that they used, and the newest of these for each input in each scope. So a build is added, ended and found in a
/// time that doesn't grow with the history.
#[derive(Drop)]
pub(crate) struct Builds {
    made: Rows,
    jobs: Names,
    // By the number of the job. There may be one more, left by a call that was out of memory.
    of_jobs: Vec<JobBuilds>,
    inputs: Names,
}

impl Model for Builds {
    ghost use Rattle.std.specs.Prelude.{List};
    ghost use Rattle.ccr_history.specs.Builds.{BuildData};
    ghost use Rattle.ccr_history.specs.Rows.{builds_data, IsLinked};
    ghost use Rattle.ccr_history.specs.Orderly.{AreOrderly};

    ghost Value = { List BuildData };

    ghost view = { λ b. builds_data b.jobs b.inputs b.made.rows };

    ghost invariant = { λ b. IsLinked b.jobs b.inputs b.made.rows b.of_jobs.items
        × AreOrderly (builds_data b.jobs b.inputs b.made.rows) };
}

/// The number of a job's name and what it used, by numbers. Names that are new come to the ends of the names.
fn numbers(
    alloc: Global,
    jobs: &mut Names,
    of_jobs: &mut Vec<JobBuilds>,
    inputs: &mut Names,
    job: &str,
    used: &[Used],
) -> Result<(u32, Vec<UsedRow>), AllocError>
    requires { length jobs.old ≤ length of_jobs.old.items }
    ensures job { IfOk result (λ r. slice_get jobs.new r.0 ≡ Some job.now) }
    ensures used { IfOk result (λ r. map (used_data inputs.new) r.1.items ≡ by_input used.now) }
    ensures named { IfOk result (λ r. AllByRecursion (λ u. u.input < length inputs.new) r.1.items) }
    ensures jobs_more { HasMore jobs.old jobs.new }
    ensures inputs_more { HasMore inputs.old inputs.new }
    ensures kept { HasOneMore of_jobs.old.items of_jobs.new.items }
    ensures enough { length jobs.new ≤ length of_jobs.new.items }
    ensures apart { OnOk result (AreApart jobs.new) }
{
    if of_jobs.len() == jobs.len() {
        of_jobs.push(JobBuilds::new(alloc))?;
    }
    let used = used_rows(alloc, inputs, used)?;
    let job = jobs.add(alloc, job)?;
    Ok((job, used))
}

impl Builds {
    /// No builds.
    pub(crate) fn new(alloc: Global) -> Builds
        ensures { result ≡ [] }
    {
        Builds {
            made: Rows::new(alloc),
            jobs: Names::new(alloc),
            of_jobs: Vec::new(alloc),
            inputs: Names::new(alloc),
        }
    }

    /// Adds a build of a job, which used these places, and answers its number.
    ///
    /// The caller gives each input once. `BuildsFull` comes exactly where `MOST_BUILDS` builds are kept, and else only
    /// `NoMemory`. Where it is refused, nothing changes.
    pub(crate) fn add(
        &mut self,
        alloc: Global,
        job: &str,
        used: &[Used],
    ) -> Result<u32, HistoryFault>
        requires { AllPairs (λ u v. bytes_eq u.input v.input ≡ false) used.now }
        ensures number { IfOk result (λ n. n ≡ count_of job.now self.old + 1) }
        ensures added { OnOk result (self.new ≡ with_build job.now used.now self.old) }
        ensures unchanged { OnErr result (self.new ≡ self.old) }
        ensures full { IsErrOf result HistoryFault.BuildsFull ↔ (length self.old ≡ MOST_BUILDS) }
        ensures only { IfErr result (λ fault. IsTrue (is_fault_of_add fault)) }
    {
        if self.made.len() == MOST_BUILDS {
            return Err(HistoryFault::BuildsFull);
        }
        let (job, used) = numbers(
            alloc,
            &mut self.jobs,
            &mut self.of_jobs,
            &mut self.inputs,
            job,
            used,
        )?;
        self.made.reserve(used.len())?;
        let position = self.made.len() as u32;
        let kept = &mut self.of_jobs[job as usize];
        let number = kept.positions().len() as u32 + 1;
        kept.add(position, &used)?;
        self.made.add(alloc, job, number, &used);
        Ok(number)
    }

    /// How many builds there are.
    pub(crate) fn len(&self) -> usize
        ensures is { result ≡ length self.now }
        ensures orderly { AreOrderly self.now }
    {
        self.made.len()
    }

    /// The positions of a job's builds, oldest first.
    pub(crate) fn builds_of(&self, job: &str) -> &[u32]
        ensures is { result.now ≡ positions_of job.now self.now }
        ensures orderly { AreOrderly self.now }
    {
        match self.jobs.find(job) {
            Some(job) => {
                let kept = &self.of_jobs[job as usize];
                kept.positions()
            }
            None => &[],
        }
    }

    /// How many builds of a job were made.
    pub(crate) fn count_of(&self, job: &str) -> u32
        ensures { result ≡ count_of job.now self.now }
    {
        self.builds_of(job).len() as u32
    }

    /// Where the job's build of this number is.
    pub(crate) fn position_of(&self, job: &str, number: u32) -> Option<usize>
        ensures only { IfSome result (IsOnly (is_build_of job.now number) self.now) }
        ensures none { IfNone result (build_of job.now number self.now ≡ None) }
    {
        let positions = self.builds_of(job);
        let index = number.checked_sub(1)?;
        let position = *positions.get(index as usize)?;
        Some(position as usize)
    }

    /// The build at a position, if there is one.
    pub(crate) fn at(&self, position: usize) -> Option<BuildRef<'_>>
        ensures { result ≡ slice_get self.now position }
    {
        let (row, used) = self.made.get(position)?;
        Some(BuildRef::new(row, used, &self.jobs, &self.inputs))
    }

    /// The job's build of this number, if there is one.
    pub(crate) fn build(&self, job: &str, number: u32) -> Option<BuildRef<'_>>
        ensures { result ≡ build_of job.now number self.now }
    {
        let position = self.position_of(job, number)?;
        self.at(position)
    }

    /// Whether a build of the job used this place for this input.
    pub(crate) fn has_used(&self, job: &str, input: &str, scope: u32, place: u32) -> bool
        ensures { result ≡ has_used job.now (record { input = input.now; scope = scope; place = place }) self.now }
    {
        let Some(job) = self.jobs.find(job) else {
            return false;
        };
        let Some(input) = self.inputs.find(input) else {
            return false;
        };
        let kept = &self.of_jobs[job as usize];
        kept.has_used(UsedRow {
            input,
            scope,
            place,
        })
    }

    /// The place that the newest build of the job which used this input in this scope had.
    pub(crate) fn newest_used(&self, job: &str, input: &str, scope: u32) -> Option<u32>
        ensures { result ≡ newest_used job.now input.now scope self.now }
    {
        let job = self.jobs.find(job)?;
        let input = self.inputs.find(input)?;
        let kept = &self.of_jobs[job as usize];
        kept.newest_used(InputScope { input, scope })
    }

    /// Where the job's build of this number is, if it runs.
    fn running_at(&self, job: &str, number: u32) -> Result<usize, HistoryFault>
        ensures only { IfOk result (IsOnly (is_build_of job.now number) self.now) }
        ensures no_build { IsErrOf result HistoryFault.NoBuild ↔ (build_of job.now number self.now ≡ None) }
        ensures already { IsErrOf result HistoryFault.AlreadyEnded ↔ HasEnded job.now number self.now }
        ensures running { IsOk result ↔ IsRunning job.now number self.now }
        ensures faults { IfErr result (λ fault. IsTrue (is_fault_of_end fault)) }
    {
        let Some(position) = self.position_of(job, number) else {
            return Err(HistoryFault::NoBuild);
        };
        if self.made.status(position).is_running() {
            Ok(position)
        } else {
            Err(HistoryFault::AlreadyEnded)
        }
    }

    /// Ends the job's build of this number, with the pairs that it moved. It takes no memory.
    ///
    /// The caller gives each pair once, and a status other than `Running`. `NoBuild` comes exactly where the job has no
    /// build of this number, and `AlreadyEnded` exactly where that build doesn't run. There is no other fault. Where it
    /// is refused, nothing changes.
    pub(crate) fn end_with(
        &mut self,
        job: &str,
        number: u32,
        status: Status,
        mut moved: Vec<(u32, u32)>,
    ) -> Result<(), HistoryFault>
        requires ended { status ≢ Running }
        requires once { AllPairs (λ p q. p ≢ q) moved.items }
        ensures ended { OnOk result (self.new ≡ with_end job.now number status moved.items self.old) }
        ensures unchanged { OnErr result (self.new ≡ self.old) }
        ensures no_build { IsErrOf result HistoryFault.NoBuild ↔ (build_of job.now number self.old ≡ None) }
        ensures already { IsErrOf result HistoryFault.AlreadyEnded ↔ HasEnded job.now number self.old }
        ensures running { IsOk result ↔ IsRunning job.now number self.old }
        ensures only { IfErr result (λ fault. IsTrue (is_fault_of_end fault)) }
    {
        let position = self.running_at(job, number)?;
        moved.sort_unstable();
        moved.shrink_to_fit();
        self.made.end(position, status, moved);
        Ok(())
    }

    /// Ends the job's build of this number as `end_with` does, with a copy of the pairs.
    ///
    /// Beside the faults of `end_with` it answers `NoMemory`.
    pub(crate) fn end(
        &mut self,
        alloc: Global,
        job: &str,
        number: u32,
        status: Status,
        moved: &[(u32, u32)],
    ) -> Result<(), HistoryFault>
        requires ended { status ≢ Running }
        requires once { AllPairs (λ p q. p ≢ q) moved.now }
        ensures ended { OnOk result (self.new ≡ with_end job.now number status moved.now self.old) }
        ensures unchanged { OnErr result (self.new ≡ self.old) }
        ensures no_build { IsErrOf result HistoryFault.NoBuild ↔ (build_of job.now number self.old ≡ None) }
        ensures already { IsErrOf result HistoryFault.AlreadyEnded ↔ HasEnded job.now number self.old }
        ensures only { IfErr result (λ fault. (fault ≡ HistoryFault.NoMemory) ⊎ IsTrue (is_fault_of_end fault)) }
    {
        self.running_at(job, number)?;
        let moved = Vec::from_slice(alloc, moved)?;
        self.end_with(job, number, status, moved)
    }

    /// A copy of the builds.
    pub(crate) fn copy(&self, alloc: Global) -> Result<Builds, AllocError>
        ensures { IfOk result (λ builds. builds ≡ self.now) }
    {
        Ok(Builds {
            made: self.made.copy(alloc)?,
            jobs: self.jobs.copy(alloc)?,
            of_jobs: copy_jobs(alloc, &self.of_jobs)?,
            inputs: self.inputs.copy(alloc)?,
        })
    }
}

fn copy_jobs(alloc: Global, of_jobs: &[JobBuilds]) -> Result<Vec<JobBuilds>, AllocError>
    ensures { IfOk result (λ copies. copies.items ≡ of_jobs.now) }
{
    let mut copies = Vec::with_capacity(alloc, of_jobs.len())?;
    for kept in of_jobs {
        copies.push(kept.copy(alloc)?)?;
    }
    Ok(copies)
}
