//! Writing a proof as its text.

ghost use Rattle.std.specs.Prelude.{◌≡◌, ◌≤◌, ◌++◌, Ok, OnOk, IfOk, string_bytes};
ghost use Rattle.ccr_choice.specs.Text.{text_of};
ghost use Rattle.ccr_proof.specs.Tree.{tree_of, count};
ghost use Rattle.ccr_proof.specs.Proof.{IsSmall, IsProof};
ghost use Rattle.ccr_proof.specs.ProofText.{tree_lines, proof_text, proof_in};

use crate::format::format_of;
use crate::node::Node;
use crate::proof::{MOST_NODES, Proof};
use crate::write::claim_words;
use ccr_choice::{Word, put_line};
use std::alloc::{AllocError, Global};

/// Adds the lines of the tree with this root, in preorder.
fn put_tree(out: &mut String, node: &Node) -> Result<(), AllocError>
    requires { count (tree_of node.now) ≤ MOST_NODES }
    ensures text { OnOk result
        (string_bytes out.new ≡ string_bytes out.old ++ text_of (tree_lines (tree_of node.now))) }
    ensures small { OnOk result (IsSmall (tree_of node.now)) }
{
    match node {
        Node::Empty(input) => put_line(out, &[Word::Empty, Word::Number(*input)]),
        Node::Bounded => put_line(out, &[Word::Bounded]),
        Node::Same(child) => put_line(out, &[Word::Same, Word::Number(*child)]),
        Node::Job(job, children) => {
            let children: &[Node] = children;
            let count = children.len() as u32;
            put_line(out, &[Word::Job, Word::Number(*job), Word::Number(count)])?;
            for child in children {
                put_tree(out, child)?;
            }
            Ok(())
        }
    }
}

/// The one text of a proof. Reading it gives the proof back.
pub fn write_proof(alloc: Global, proof: &Proof) -> Result<String, AllocError>
    ensures text { IfOk result (λ s. string_bytes s ≡ proof_text proof.now.claim (tree_of proof.now.tree)) }
    ensures again { IfOk result (λ s. proof_in (string_bytes s) ≡ Ok (proof.now.claim, tree_of proof.now.tree)) }

    // What is written keeps the rules of a proof.
    ensures kept { OnOk result (IsProof proof.now.claim (tree_of proof.now.tree)) }
{
    let words = claim_words(alloc, &proof.claim)?;
    let mut out = String::new(alloc);
    put_line(
        &mut out,
        &[Word::Proof, Word::Number(format_of(&proof.tree))],
    )?;
    put_line(&mut out, &words)?;
    put_tree(&mut out, &proof.tree)?;
    Ok(out)
}
