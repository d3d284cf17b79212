//! Proofs: a claim with the tree that shows it.

ghost use Rattle.std.specs.Prelude.{◌≡◌, ◌<◌, ◌≤◌, ◌^◌};
ghost use Rattle.ccr_proof.specs.declared.proof.TheConstants.{MOST_LEVELS, MOST_NODES};
ghost use Rattle.ccr_proof.specs.Claim.{IsClaim};
ghost use Rattle.ccr_proof.specs.Tree.{tree_of, count, levels};
ghost use Rattle.ccr_proof.specs.Proof.{IsClaim-prop};

use crate::claim::Claim;
use crate::node::Node;
use ccr_choice::MOST_JOBS;

/// How many nodes a tree has at the most.
pub const MOST_NODES: u32 = 1_000_000;
/// How many job nodes lie below one another at the most: each names a job of its own, so the deepest has depth 31, the
/// root's being 0.
pub const MOST_LEVELS: u32 = MOST_JOBS;

/// A claim with a tree that is to show it. Whether it does is for the checker to say.
#[derive(Drop)]
pub struct Proof {
    /// What is said of the problem.
    pub claim: Claim,
    /// Why nothing is better.
    pub tree: Node,
    /// Each list of the claim has at most 32 numbers.
    pub ghost short: { IsClaim claim } by { IsClaim-prop claim },
    /// The tree has at most 1,000,000 nodes.
    pub ghost few_nodes: { count (tree_of tree) ≤ MOST_NODES },
    /// Job nodes have depth at most 31, the root's being 0.
    pub ghost shallow: { levels (tree_of tree) ≤ MOST_LEVELS },
}

/// The number of nodes of the tree with this root.
fn nodes_of(node: &Node) -> u32
    requires { count (tree_of node.now) < 2 ^ 32 }
    ensures { result ≡ count (tree_of node.now) }
{
    match node {
        Node::Empty(_) | Node::Bounded | Node::Same(_) => 1,
        Node::Job(_, children) => {
            let children: &[Node] = children;
            let mut nodes: u32 = 1;
            for child in children {
                nodes += nodes_of(child);
            }
            nodes
        }
    }
}

/// The number of nodes of a proof's tree, from 1 to 1,000,000.
pub fn count(proof: &Proof) -> u32
    ensures { result ≡ count (tree_of proof.now.tree) }
{
    nodes_of(&proof.tree)
}
