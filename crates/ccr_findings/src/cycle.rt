//! Jobs that wait for each other.
ghost use Rattle.std.specs.Prelude.{◌≡◌, ◌<◌, ◌≤◌, [], ◌∷◌, ◌++◌, length, drop, None, IfSome, IsTrue, MatchOption, codes, map, option_map, string_bytes, IfOk, OnOk};
ghost use Rattle.std.specs.List.{flat_map};
ghost use Rattle.ccr_pipeline.specs.JobData.{job_data};
ghost use Rattle.ccr_findings.specs.Cycles as spec;
ghost use Rattle.ccr_findings.specs.Cycles.{AddsCycle, TellsCycle, TellsOf, waiter_data, wait_of, waits_in};
ghost use Rattle.ccr_findings.specs.Findings.{findings_data};
ghost use Rattle.ccr_findings.specs.Waits as search;
ghost use Rattle.ccr_findings.specs.Waits.{HaveSameCycles, idle_in, is_named};

use crate::finding::{Finding, Findings, Kind};
use ccr_pipeline::{Job, Names, add_named_jobs, inputs_of};
use std::alloc::{AllocError, Global};

/// A job, and the jobs that it waits for.
#[derive(Drop)]
pub(crate) struct Waiter {
    name: String,
    waits: Names,
}

/// A job with the jobs that it waits for: those that its inputs name in `passed`.
fn waiter_of(alloc: Global, job: &Job) -> Result<Waiter, AllocError>
    ensures { IfOk result (λ w. waiter_data w ≡ wait_of (job_data job.now)) }
{
    let inputs = inputs_of(alloc, job)?;
    let mut waits = Names::new(alloc);
    add_named_jobs(alloc, &mut waits, &inputs)?;
    let name = String::from_str(alloc, job.name.as_str())?;
    Ok(Waiter { name, waits })
}

/// The jobs with those that they wait for.
#[tactic(auto, using(std::proofs::Common::append_assoc))]
fn waiters_of(alloc: Global, jobs: &[Job]) -> Result<Vec<Waiter>, AllocError>
    ensures { IfOk result (λ v. map waiter_data v.items ≡ waits_in (map job_data jobs.now)) }
{
    let mut waiters = Vec::new(alloc);
    for job in jobs {
        waiters.push(waiter_of(alloc, job)?)?;
    }
    Ok(waiters)
}

/// The first of the jobs whose name is among these.
fn waited<'w>(waiters: &'w [Waiter], names: &Names) -> Option<&'w str>
    ensures { option_map (λ name. name.now) result ≡ search.waited (map waiter_data waiters.now) names.now }
{
    for waiter in waiters {
        if names.contains(waiter.name.as_str()) {
            return Some(waiter.name.as_str());
        }
    }
    None
}

/// The first of the jobs that the job of this name waits for.
fn next_of<'w>(waiters: &'w [Waiter], name: &str) -> Option<&'w str>
    ensures { option_map (λ next. next.now) result
        ≡ search.next_in (map waiter_data waiters.now) (map waiter_data waiters.now) name.now }
{
    for waiter in waiters {
        if waiter.name.as_str() == name {
            if let Some(next) = waited(waiters, &waiter.waits) {
                return Some(next);
            }
        }
    }
    None
}

/// Where the first of the jobs is that waits for none of them.
fn idle_at(waiters: &[Waiter]) -> Option<usize>
    ensures first { result ≡ idle_in (map waiter_data waiters.now) }
    ensures within { IfSome result (λ i. i < length waiters.now) }
{
    for (i, waiter) in waiters.iter().enumerate() {
        if waited(waiters, &waiter.waits).is_none() {
            return Some(i);
        }
    }
    None
}

/// Takes out jobs that wait for none of those that are left, until each waits for one.
fn trim(waiters: &mut Vec<Waiter>)
    ensures same { HaveSameCycles (map waiter_data waiters.old.items) (map waiter_data waiters.new.items) }
    ensures stuck { idle_in (map waiter_data waiters.new.items) ≡ None }
{
    while let Some(i) = idle_at(waiters) {
        let _waiter = waiters.remove(i);
    }
}

/// Where a name is among names.
fn place_of(names: &[String], name: &str) -> Option<usize>
    ensures first { result ≡ search.place_from 0 name.now (map string_bytes names.now) }
    ensures within { IfSome result (λ i. i < length names.now) }
{
    for (i, known) in names.iter().enumerate() {
        if known.as_str() == name {
            return Some(i);
        }
    }
    None
}

/// Adds the names of further jobs to a line.
#[tactic(auto, using(std::proofs::Common::append_assoc, crate::proofs::Lists::and_none))]
fn add_others(line: &mut String, others: &[String]) -> Result<(), AllocError>
    ensures { OnOk result (string_bytes line.new ≡ string_bytes line.old
        ++ flat_map (λ other. codes ", " ++ other) (map string_bytes others.now)) }
{
    for other in others {
        line.push_str(", ")?;
        line.push_str(other.as_str())?;
    }
    Ok(())
}

/// The names of further jobs, each behind a comma.
fn others_words(alloc: Global, others: &[String]) -> Result<String, AllocError>
    ensures { IfOk result (λ words. string_bytes words
        ≡ flat_map (λ other. codes ", " ++ other) (map string_bytes others.now)) }
{
    let mut words = String::new(alloc);
    add_others(&mut words, others)?;
    Ok(words)
}

/// The line of jobs that wait for each other, of which this one is the first.
fn line_from(alloc: Global, first: &str, others: &[String]) -> Result<String, AllocError>
    ensures { IfOk result (λ line. string_bytes line ≡ spec.cycle_line (first.now ∷ map string_bytes others.now)) }
{
    let others = others_words(alloc, others)?;
    let others = others.as_str();
    format!(in alloc;
        "cycle {first}{others}: each waits for the next by passed, and the last for the first"
    )
}

/// The line of jobs that wait for each other.
fn cycle_line(alloc: Global, names: &[String]) -> Result<String, AllocError>
    ensures { IfOk result (λ line. string_bytes line ≡ spec.cycle_line (map string_bytes names.now)) }
{
    match names.split_first() {
        Some((first, others)) => line_from(alloc, first.as_str(), others),
        None => Ok(String::new(alloc)),
    }
}

/// That of names from a position on.
fn end_line(alloc: Global, names: &[String], from: usize) -> Result<String, AllocError>
    requires { from ≤ length names.now }
    ensures { IfOk result
        (λ line. string_bytes line ≡ spec.cycle_line (map string_bytes (drop from names.now))) }
{
    cycle_line(alloc, &names[from..])
}

/// The line of jobs that wait for each other, among jobs each of which waits for one of them: from one of them on always
/// the next one, until one comes again.
fn line_of(alloc: Global, waiters: &[Waiter], start: &str) -> Result<String, AllocError>
    requires stuck { idle_in (map waiter_data waiters.now) ≡ None }
    requires known { IsTrue (is_named (map waiter_data waiters.now) start.now) }
    ensures { IfOk result (λ line. TellsCycle (map waiter_data waiters.now) (string_bytes line)) }
{
    let mut path = Vec::new(alloc);
    let mut name = start;
    loop {
        if let Some(from) = place_of(&path, name) {
            let line = end_line(alloc, &path, from)?;
            return Ok(line);
        }
        path.push(String::from_str(alloc, name)?)?;
        name = match next_of(waiters, name) {
            Some(next) => next,
            None => unreachable!(),
        };
    }
}

/// The name of the first of the jobs.
#[tactic(auto, using(crate::proofs::Rings::first_named))]
fn start_of(waiters: &[Waiter]) -> Option<&str>
    ensures { MatchOption result (map waiter_data waiters.now ≡ [])
        (λ name. IsTrue (is_named (map waiter_data waiters.now) name.now)) }
{
    match waiters.split_first() {
        Some((first, _)) => Some(first.name.as_str()),
        None => None,
    }
}

/// The line of jobs that wait for each other, exactly if there are such.
#[tactic(auto, using(crate::proofs::Rings::tells_none, crate::proofs::Rings::tells_some))]
fn line_in(alloc: Global, jobs: &[Job]) -> Result<Option<String>, AllocError>
    ensures { IfOk result (λ o. TellsOf (waits_in (map job_data jobs.now)) (option_map string_bytes o)) }
{
    let mut waiters = waiters_of(alloc, jobs)?;
    trim(&mut waiters);
    match start_of(&waiters) {
        Some(start) => {
            let line = line_of(alloc, &waiters, start)?;
            Ok(Some(line))
        }
        None => Ok(None),
    }
}

/// Adds the finding of jobs that wait for each other, exactly if there are such.
#[tactic(auto, using(crate::proofs::Rings::told_none, crate::proofs::Rings::told_some))]
pub(crate) fn find_cycle(alloc: Global, out: &mut Findings, jobs: &[Job]) -> Result<(), AllocError>
    ensures { OnOk result (AddsCycle (map job_data jobs.now)
        (findings_data out.old.items) (findings_data out.new.items)) }
{
    if let Some(line) = line_in(alloc, jobs)? {
        let kind = Kind::Cycle;
        out.push(Finding { kind, line })?;
    }
    Ok(())
}
