//! Reading a proof from its text, from the first line to the last.

ghost use Rattle.std.specs.Prelude.{◌≡◌, ◌≤◌, ◌+◌, IfOk, OnOk};
ghost use Rattle.ccr_choice.specs.Reading.{one_line, Gives};
ghost use Rattle.ccr_proof.specs.declared.claim.Claim.{Claim};
ghost use Rattle.ccr_proof.specs.Tree.{Tree, tree_of, count};
ghost use Rattle.ccr_proof.specs.Proof.{IsProof};
ghost use Rattle.ccr_proof.specs.Halts.{GivesNode};
ghost use Rattle.ccr_proof.specs.ProofRead.{IsRead, IsReadAs};
ghost use Rattle.ccr_proof.specs.ProofText.{proof_head, node_on, next_tree, next_whole, next_proof, proof_in, proof_text, NothingFollows};

use crate::claim::Claim;
use crate::fault::ProofFault;
use crate::format::{PROOF_FORMAT, SAME_FORMAT, format_of};
use crate::halt::Halt;
use crate::node::Node;
use crate::proof::{MOST_LEVELS, MOST_NODES, Proof};
use crate::read::next_claim;
use ccr_choice::{Line, Lines, Stop, Word};
use std::alloc::Global;

/// What a node's line says.
#[derive(Clone, Copy)]
pub(crate) enum NodeLine {
    /// A job, and how many children follow.
    Job(u32, u32),
    /// An input without a possible place.
    Empty(u32),
    /// Nothing better.
    Bounded,
    /// The same case as an earlier child's.
    Same(u32),
}

#[tactic(auto, unfolding(crate::specs::ProofText::node_on))]
fn node_on(format: u32, words: &[Word]) -> Option<NodeLine>
    ensures { result ≡ node_on format words.now }
{
    match words {
        [Word::Job, Word::Number(job), Word::Number(children)] => {
            if *children <= MOST_NODES {
                Some(NodeLine::Job(*job, *children))
            } else {
                None
            }
        }
        [Word::Empty, Word::Number(input)] => Some(NodeLine::Empty(*input)),
        [Word::Bounded] => Some(NodeLine::Bounded),
        [Word::Same, Word::Number(child)] => {
            if format == SAME_FORMAT {
                Some(NodeLine::Same(*child))
            } else {
                None
            }
        }
        _ => None,
    }
}

/// The line `proof 1` or `proof 2`, which says the format.
fn head(alloc: Global, lines: &mut Lines<'_>) -> Result<u32, Stop>
    ensures { Gives (λ x. (x, lines.new)) result (one_line proof_head lines.old) }
{
    let Some(line) = lines.next(alloc)? else {
        return Err(Stop::Left(0));
    };
    match line.words() {
        [Word::Proof, Word::Number(n)] if *n == PROOF_FORMAT || *n == SAME_FORMAT => Ok(*n),
        _ => Err(Stop::Left(lines.count() + 1)),
    }
}

/// The tree at the front, in this format, with at most `levels` levels of job nodes. `nodes` is how many nodes were read
/// before, and after.
fn next_tree(
    alloc: Global,
    format: u32,
    levels: u32,
    nodes: &mut u32,
    lines: &mut Lines<'_>,
) -> Result<Node, Halt>
    requires { nodes.old ≤ MOST_NODES }
    ensures read { GivesNode (λ x. (tree_of x, lines.new)) result (next_tree format levels nodes.old lines.old) }
    ensures counted { IfOk result (λ x. nodes.new ≡ nodes.old + count (tree_of x)) }
    ensures few { nodes.new ≤ MOST_NODES }
{
    if *nodes >= MOST_NODES {
        return Err(Halt::TooMany);
    }
    let Some(line) = lines.next(alloc)? else {
        return Err(Halt::Left(0));
    };
    *nodes += 1;
    match node_on(format, line.words()) {
        Some(NodeLine::Empty(input)) => Ok(Node::Empty(input)),
        Some(NodeLine::Bounded) => Ok(Node::Bounded),
        Some(NodeLine::Same(child)) => Ok(Node::Same(child)),
        Some(NodeLine::Job(job, count)) => {
            if levels == 0 {
                return Err(Halt::Left(lines.count() + 1));
            }
            let mut children = Vec::new(alloc);
            for _ in 0..count {
                let child = next_tree(alloc, format, levels - 1, nodes, lines)?;
                children.push(child)?;
            }
            Ok(Node::Job(job, children))
        }
        None => Err(Halt::Left(lines.count() + 1)),
    }
}

/// The whole tree at the front, in this format. A tree of format 2 in which no child is the same as another is bad at
/// its last line.
fn whole_tree(alloc: Global, format: u32, lines: &mut Lines<'_>) -> Result<Node, Halt>
    ensures { GivesNode (λ x. (tree_of x, lines.new)) result (next_whole format lines.old) }
{
    let mut nodes = 0;
    let tree = next_tree(alloc, format, MOST_LEVELS, &mut nodes, lines)?;
    if format != format_of(&tree) {
        return Err(Halt::Left(lines.count() + 1));
    }
    Ok(tree)
}

/// The claim and the tree at the front.
#[tactic(auto, unfolding(crate::specs::ProofText::next_proof))]
fn next_parts(alloc: Global, lines: &mut Lines<'_>) -> Result<(Claim, Node), Halt>
    ensures { GivesNode (λ x. ((x.0, tree_of x.1), lines.new)) result (next_proof lines.old) }
{
    let format = head(alloc, lines)?;
    let claim = next_claim(alloc, lines)?;
    let tree = whole_tree(alloc, format, lines)?;
    Ok((claim, tree))
}

#[tactic(auto, unfolding(crate::specs::ProofText::proof_in))]
fn read_whole(alloc: Global, bytes: &[u8]) -> Result<Proof, ProofFault>
    ensures { IsRead result (proof_in bytes.now) }
{
    let mut lines = Lines::new(bytes);
    match next_parts(alloc, &mut lines) {
        Ok((claim, tree)) => {
            if lines.is_empty() {
                Ok(Proof { claim, tree })
            } else {
                Err(ProofFault::Trailing)
            }
        }
        Err(Halt::Left(left)) => {
            let count = Lines::new(bytes).count();
            Err(ProofFault::BadLine((count + 1).saturating_sub(left)))
        }
        Err(Halt::TooMany) => Err(ProofFault::TooManyNodes),
        Err(Halt::Memory) => Err(ProofFault::NoMemory),
    }
}

/// The proof that a text stands for.
///
/// BadLine(n): line n, counted from 1, is the first that breaks a rule, lacks its line feed or is missing; the last
/// line of a tree of format 2 does where no child is the same as another. TooManyNodes: the tree isn't whole after
/// 1,000,000 nodes, which is tested before the next line is looked at. Trailing: more bytes follow the last line.
/// NoMemory: memory was refused, and nothing is said of the text.
pub fn read_proof(alloc: Global, bytes: &[u8]) -> Result<Proof, ProofFault>
    // What is read keeps the rules, and the text is its text.
    ensures kept { IfOk result (λ p. IsProof p.claim (tree_of p.tree)) }
    ensures found { IfOk result (λ p. bytes.now ≡ proof_text p.claim (tree_of p.tree)) }

    // A proof's text is read as this proof, unless memory runs out.
    ensures only { (c : Claim) (t : Tree) → IsProof c t → bytes.now ≡ proof_text c t → IsReadAs result c t }

    // No proof's text begins another's.
    ensures alone { IfOk result (λ _. NothingFollows bytes.now) }

    // A refusal is the first bad line, a node too many, or more than a proof.
    ensures exact { IsRead result (proof_in bytes.now) }
{
    read_whole(alloc, bytes)
}
