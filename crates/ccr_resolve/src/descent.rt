//! The search over an index: depth first, newest builds first, with a bound that rises.

ghost use Rattle.std.specs.Prelude.{◌≡◌, IfOk};
ghost use Rattle.ccr_choice.specs.Preference.{order_of};
ghost use Rattle.ccr_choice.specs.Table.{assigned};
ghost use Rattle.ccr_proof.specs.Tree.{tree_of};
ghost use Rattle.ccr_resolve.specs.Cases.{case_of};
ghost use Rattle.ccr_resolve.specs.Search.{AreUpper, FixesKnown, FoundSatisfies, Searched};

use crate::choice::full_choice;
use crate::dominator::dominator;
use crate::pick::cheapest_job;
use crate::upper::{BestPlaces, first_empty, is_closed, lowered};
use ccr_choice::Choice;
use ccr_choice::possible::Fixed;
use ccr_index::Index;
use ccr_proof::Node;
use std::alloc::{AllocError, Global};

/// The child whose case this one is: the one that it is the same as, or else itself.
fn case_of(node: &Node, child: u32) -> u32
    ensures { result ≡ case_of (tree_of node.now) child }
{
    match node {
        Node::Same(other) => *other,
        Node::Job(_, _) | Node::Empty(_) | Node::Bounded => child,
    }
}

/// A tree that refutes what is better than the best choice found in the end, and that choice; None where it would need
/// more nodes than are left. `upper` has the best places while these builds are fixed.
pub(crate) fn descend(
    alloc: Global,
    index: &Index,
    fixed: &Fixed,
    upper: &BestPlaces,
    best: &mut Option<Choice>,
    left: &mut u32,
) -> Result<Option<Node>, AllocError>
    requires known { FixesKnown index.now.problem fixed.now }
    requires upper { AreUpper index.now.problem (assigned index.now.problem fixed.now) upper.now }
    requires found { FoundSatisfies index.now.problem best.old }
    ensures { IfOk result (λ tree. Searched (order_of index.now.problem) index.now.problem fixed.now
        best.old best.new left.old left.new tree) }
{
    if *left == 0 {
        return Ok(None);
    }
    *left -= 1;
    if let Some(i) = first_empty(index, upper) {
        return Ok(Some(Node::Empty(i)));
    }
    if is_closed(index, upper, best) {
        return Ok(Some(Node::Bounded));
    }
    let Some(j) = cheapest_job(index, fixed, upper, best) else {
        *best = Some(full_choice(alloc, index, fixed, upper)?);
        return Ok(Some(Node::Bounded));
    };
    let rows = index.rows(j);
    let count = rows.len();
    let mut children = Vec::new(alloc);
    for k in 0..count {
        if is_closed(index, upper, best) {
            return Ok(Some(Node::Bounded));
        }
        if let Some(newer) = dominator(index, j, k) {
            let Some(rest) = left.checked_sub(1) else {
                return Ok(None);
            };
            *left = rest;
            let case = case_of(&children[newer], newer as u32);
            children.push(Node::Same(case))?;
            continue;
        }
        let mut inner = *fixed;
        inner[j] = k + 1;
        let places = lowered(index, upper, &inner, j);
        let Some(child) = descend(alloc, index, &inner, &places, best, left)? else {
            return Ok(None);
        };
        children.push(child)?;
    }
    if is_closed(index, upper, best) {
        return Ok(Some(Node::Bounded));
    }
    Ok(Some(Node::Job(j as u32, children)))
}
