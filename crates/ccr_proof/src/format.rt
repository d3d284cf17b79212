//! The two formats of a proof's text.

ghost use Rattle.std.specs.Prelude.{◌≡◌};
ghost use Rattle.ccr_proof.specs.Tree.{tree_of, has_same};
ghost use Rattle.ccr_proof.specs.ProofText.{format_of};

use crate::node::Node;

/// The version of the format of a tree in which no child is the same as another.
pub(crate) const PROOF_FORMAT: u32 = 1;

/// The version of the format of every other tree.
pub(crate) const SAME_FORMAT: u32 = 2;

fn has_same(node: &Node) -> bool
    ensures { result ≡ has_same (tree_of node.now) }
{
    match node {
        Node::Same(_) => true,
        Node::Empty(_) | Node::Bounded => false,
        Node::Job(_, children) => {
            let children: &[Node] = children;
            for child in children {
                if has_same(child) {
                    return true;
                }
            }
            false
        }
    }
}

/// The version of the format in which the tree with this root is written.
pub(crate) fn format_of(node: &Node) -> u32
    ensures { result ≡ format_of (tree_of node.now) }
{
    if has_same(node) {
        SAME_FORMAT
    } else {
        PROOF_FORMAT
    }
}
