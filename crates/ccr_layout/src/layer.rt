//! Layers: a job's is the longest chain of jobs before it.

ghost use Rattle.std.specs.Prelude.{◌≡◌, ◌+◌, ◌≤◌, ℕ, [], true, false, length, find, All, Contains, IfOk, IfSome, IfNone, OnSome, slice_index, slice_index_or, slice_set};
ghost use Rattle.ccr_layout.specs.Layers.{named_in, AreLayers};
ghost use Rattle.ccr_layout.specs.Turns.{is_left, step_back, steps_back, IsNext, NoneIsReady};

use crate::at::{column_at, set_column_at};
use std::alloc::{AllocError, Global};

/// Whether a node is done.
fn is_done(done: &[bool], node: usize) -> bool
    ensures { result ≡ slice_index_or done.now node true }
{
    done.get(node).copied().unwrap_or(true)
}

/// Notes that a node is done.
fn set_done(done: &mut Vec<bool>, node: usize)
    ensures { done.new.items ≡ slice_set done.old.items node true }
{
    if node < done.len() {
        done[node] = true;
    }
}

/// The first of these that isn't done.
fn first_left(jobs: &[usize], done: &[bool]) -> Option<usize>
    ensures value { result ≡ find (λ s. is_left done.now s) jobs.now }
    ensures some { IfSome result (λ s. Contains jobs.now s) }
    ensures left { IfSome result (λ s. slice_index_or done.now s true ≡ false) }
    ensures none { IfNone result ((s : ℕ) → Contains jobs.now s → slice_index_or done.now s true ≡ true) }
{
    for job in jobs {
        if !is_done(done, *job) {
            return Some(*job);
        }
    }
    None
}

/// The nodes that this one names.
fn named_by(named: &[Vec<usize>], node: usize) -> &[usize]
    ensures { result.now ≡ named_in named.now node }
{
    match named.get(node) {
        Some(jobs) => jobs.as_slice(),
        None => &[],
    }
}

/// The first node that isn't done and names only nodes that are.
fn first_ready(named: &[Vec<usize>], done: &[bool]) -> Option<usize>
    requires { length done.now ≡ length named.now }
    ensures some { OnSome result (IsNext named.now done.now result) }
    ensures none { IfNone result (NoneIsReady named.now done.now) }
{
    for node in 0..named.len() {
        if !is_done(done, node) && first_left(named_by(named, node), done).is_none() {
            return Some(node);
        }
    }
    None
}

/// The first node that isn't done.
fn first_waiting(done: &[bool]) -> Option<usize>
    ensures left { IfSome result (λ t. slice_index_or done.now t true ≡ false) }
    ensures none { IfNone result ((t : ℕ) → slice_index_or done.now t true ≡ true) }
{
    for node in 0..done.len() {
        if !is_done(done, node) {
            return Some(node);
        }
    }
    None
}

/// The first node that isn't done of those that this one names; where there is none, this one.
fn step_back(named: &[Vec<usize>], done: &[bool], node: usize) -> usize
    ensures { result ≡ step_back named.now done.now node }
{
    first_left(named_by(named, node), done).unwrap_or(node)
}

/// The node to which as many such steps lead as there are nodes.
fn walked_back(named: &[Vec<usize>], done: &[bool], start: usize) -> usize
    ensures { result ≡ steps_back named.now done.now (length named.now) start }
{
    let mut node = start;
    for step in 0..named.len() {
        node = step_back(named, done, node);
    }
    node
}

/// A node on a cycle, where all that are left wait for one another.
///
/// So many steps back as there are nodes end on a cycle, wherever they begin.
fn on_cycle(named: &[Vec<usize>], done: &[bool]) -> Option<usize>
    requires long { length done.now ≡ length named.now }
    requires none { NoneIsReady named.now done.now }
    ensures { IsNext named.now done.now result }
{
    match first_waiting(done) {
        Some(start) => Some(walked_back(named, done, start)),
        None => None,
    }
}

/// The node that comes next: the first one that names only nodes that are done, and where there is none, one on a cycle.
fn next_node(named: &[Vec<usize>], done: &[bool]) -> Option<usize>
    requires { length done.now ≡ length named.now }
    ensures { IsNext named.now done.now result }
{
    match first_ready(named, done) {
        Some(node) => Some(node),
        None => on_cycle(named, done),
    }
}

/// One more than the greatest layer of those of these that are done, or 0.
fn layer_above(jobs: &[usize], layers: &[usize], done: &[bool]) -> usize
    requires { All (λ l. l ≤ 400) layers.now }
    ensures low { (most : ℕ) → All (λ l. l ≤ most) layers.now → result ≤ most + 1 }
    ensures first { jobs.now ≡ [] → result ≡ 0 }
    ensures above { (s : ℕ) → Contains jobs.now s → slice_index_or done.now s true ≡ true
        → slice_index layers.now s + 1 ≤ result }
{
    let mut above = 0;
    for job in jobs {
        if is_done(done, *job) {
            above = (column_at(layers, *job) + 1).max(above);
        }
    }
    above
}

/// The layer of each node, from the nodes that each one names.
///
/// A node that lies on a cycle, where nothing else can come next, doesn't wait for the nodes that it names.
pub(crate) fn layers_of(alloc: Global, named: &[Vec<usize>]) -> Result<Vec<usize>, AllocError>
    requires { length named.now ≤ 400 }
    ensures { IfOk result (λ layers. AreLayers named.now layers.items) }
{
    let mut layers = vec![in alloc; 0; named.len()]?;
    let mut done = vec![in alloc; false; named.len()]?;
    for turn in 0..named.len() {
        match next_node(named, &done) {
            Some(node) => {
                let above = layer_above(named_by(named, node), &layers, &done);
                set_column_at(&mut layers, node, above);
                set_done(&mut done, node);
            }
            None => {}
        }
    }
    Ok(layers)
}
