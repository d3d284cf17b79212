//! The walk over a refutation tree.

ghost use Rattle.std.specs.Prelude.{◌≡◌, ◌<◌, ◌+◌, ◌^◌, ◌↔◌, false, length, slice_get, Some, IsTrue, MatchResult};
ghost use Rattle.std.specs.Option.{option_copied};
ghost use Rattle.ccr_choice.specs.Problem.{BuildValue, builds_at};
ghost use Rattle.ccr_choice.specs.Dominated.{IsDominated};
ghost use Rattle.ccr_choice.specs.Preference.{order_of};
ghost use Rattle.ccr_proof.specs.Tree.{tree_of, trees_of, count, is_same};
ghost use Rattle.ccr_proof.specs.Refutes.{HasNoPlace, IsBounded, IsSameCase, IsSame, Refutes};
ghost use Rattle.ccr_check.specs.Fault.{IsFirstFault};
ghost use Rattle.ccr_choice.specs.Table.{assigned};

use crate::fault::CheckFault;
use ccr_choice::possible::{Fixed, best_possible, fixed_build, is_bounded};
use ccr_choice::{Problem, is_dominated};
use ccr_proof::Node;

/// Whether an input has no possible place while these builds are fixed.
pub(crate) fn has_no_place(problem: &Problem, fixed: &Fixed, input: usize) -> bool
    requires { input < length problem.now.inputs }
    ensures { IsTrue result ↔ HasNoPlace problem.now (assigned problem.now fixed.now) input }
{
    best_possible(problem, fixed, input).is_none()
}

/// Whether the best possible places aren't better than a bound's, if there is a bound.
pub(crate) fn is_under(problem: &Problem, fixed: &Fixed, bound: Option<&[u32]>) -> bool
    ensures { IsTrue result
        ↔ IsBounded (order_of problem.now) problem.now (option_copied bound.entry) (assigned problem.now fixed.now) }
{
    match bound {
        Some(places) => is_bounded(problem, fixed, places),
        None => false,
    }
}

/// Whether a node is a case of its own.
fn is_own(node: &Node) -> bool
    ensures { IsTrue result ↔ (is_same (tree_of node.now) ≡ false) }
{
    !matches!(node, Node::Same(_))
}

/// Whether build `build` of job `job` is dominated by its build `other`, the newest being build 0.
fn is_below(problem: &Problem, job: u32, build: usize, other: usize) -> bool
    requires job { job < length problem.now.jobs }
    requires build { build < length (builds_at problem.now job) }
    requires other { other < length (builds_at problem.now job) }
    ensures { (b o : BuildValue) → slice_get (builds_at problem.now job) build ≡ Some b
        → slice_get (builds_at problem.now job) other ≡ Some o
        → (IsTrue result ↔ IsDominated problem.now job b o) }
{
    let builds = problem.builds(job as usize);
    is_dominated(problem, job, &builds[build], &builds[other])
}

/// Whether child `k` of a node of job `job` is the same case as child `earlier`.
fn is_same_case(problem: &Problem, job: u32, children: &[Node], k: usize, earlier: usize) -> bool
    requires job { job < length problem.now.jobs }
    requires child { k < length children.now }
    requires builds { length children.now ≡ length (builds_at problem.now job) }
    ensures { (b : BuildValue) → slice_get (builds_at problem.now job) k ≡ Some b
        → (IsTrue result ↔ IsSameCase problem.now job (trees_of children.now) k b earlier) }
{
    if earlier >= k {
        return false;
    }
    if !is_own(&children[earlier]) {
        return false;
    }
    is_below(problem, job, k, earlier)
}

/// Whether child `k` of a node of job `job` says that it is the same case as an earlier child, and is.
fn is_same(problem: &Problem, job: u32, children: &[Node], k: usize, child: &Node) -> bool
    requires job { job < length problem.now.jobs }
    requires child { k < length children.now }
    requires builds { length children.now ≡ length (builds_at problem.now job) }
    ensures { (b : BuildValue) → slice_get (builds_at problem.now job) k ≡ Some b
        → (IsTrue result ↔ IsSame problem.now job (trees_of children.now) k b (tree_of child.now)) }
{
    match child {
        Node::Same(earlier) => is_same_case(problem, job, children, k, *earlier as usize),
        Node::Job(_, _) | Node::Empty(_) | Node::Bounded => false,
    }
}

/// The number of the node after this tree, or the first fault of the tree, whose root is node `node`.
pub(crate) fn walk(
    problem: &Problem,
    bound: Option<&[u32]>,
    fixed: &Fixed,
    node: u32,
    tree: &Node,
) -> Result<u32, CheckFault>
    requires { node + count (tree_of tree.now) < 2 ^ 32 }
    ensures { MatchResult result
        (λ next. (next ≡ node + count (tree_of tree.now))
        × Refutes (order_of problem.now) problem.now (option_copied bound.entry) (assigned problem.now fixed.now)
        (tree_of tree.now))
        (IsFirstFault (order_of problem.now) problem.now (option_copied bound.entry)
        (assigned problem.now fixed.now) node (tree_of tree.now)) }
{
    match tree {
        Node::Empty(input) => {
            let input = *input as usize;
            if input >= problem.inputs().len() {
                return Err(CheckFault::NoSuchInput(node));
            }
            if !has_no_place(problem, fixed, input) {
                return Err(CheckFault::NotEmpty(node));
            }
            Ok(node + 1)
        }
        Node::Bounded => {
            if !is_under(problem, fixed, bound) {
                return Err(CheckFault::NotBounded(node));
            }
            Ok(node + 1)
        }
        Node::Same(_) => Err(CheckFault::NotSame(node)),
        Node::Job(named, children) => {
            let job = *named as usize;
            if job >= problem.jobs().len() {
                return Err(CheckFault::NoSuchJob(node));
            }
            if fixed_build(problem, fixed, job).is_some() {
                return Err(CheckFault::JobTwice(node));
            }
            let children: &[Node] = children;
            if children.len() != problem.builds(job).len() {
                return Err(CheckFault::WrongChildren(node));
            }
            let mut next = node + 1;
            for (k, child) in children.iter().enumerate() {
                if is_same(problem, *named, children, k, child) {
                    next += 1;
                    continue;
                }
                let mut inner = *fixed;
                inner[job] = k + 1;
                next = walk(problem, bound, &inner, next, child)?;
            }
            Ok(next)
        }
    }
}
