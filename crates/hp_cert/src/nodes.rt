//! The texts of the nodes of a tree, put at the end of one text.
//! What each text is, is said on the data alone, in `specs/Trees.antt`.
//!
//! Where a call here wants memory and has none, a part of its text may be in `out` already, behind what was there.

ghost use Rattle.std.specs.Prelude.{◌≡◌, ◌++◌, OnOk};
ghost use Rattle.std.specs.List.{flat_map};
ghost use Rattle.hp_cert.specs.Trees.{leaf_text, link_text, node_text, share_text, step_text};

use hp_leaf::{LeafProof, Node};
use hp_lit::{Share, Step};
use hp_num::Text;
use hp_text::{put_text, put_whole};
use std::alloc::AllocError;

/// Puts a node.
pub fn put_node(out: &mut Text, node: &Node) -> Result<(), AllocError>
    ensures { OnOk result (out.new ≡ out.old ++ node_text node.now) }
{
    match node {
        Node::Split { line } => {
            put_text(out, b"split ")?;
            put_whole(out, i128::from(*line))
        }
        Node::Leaf(proof) => put_leaf(out, proof),
        Node::Unopened => put_text(out, b"open"),
    }
}

/// Puts a leaf: its kind and its literals.
fn put_leaf(out: &mut Text, proof: &LeafProof) -> Result<(), AllocError>
    ensures { OnOk result (out.new ≡ out.old ++ leaf_text proof.now) }
{
    match proof {
        LeafProof::Num(shares) => {
            put_text(out, b"leaf num")?;
            put_shares(out, shares.as_slice())
        }
        LeafProof::Idx(steps) => {
            put_text(out, b"leaf idx")?;
            put_steps(out, steps.as_slice())
        }
        LeafProof::Ptr { ne, path } => {
            put_text(out, b"leaf ptr ")?;
            put_whole(out, i128::from(*ne))?;
            put_text(out, b":")?;
            put_links(out, path.as_slice())
        }
    }
}

/// Puts literals with their multipliers.
fn put_shares(out: &mut Text, shares: &[Share]) -> Result<(), AllocError>
    ensures { OnOk result (out.new ≡ out.old ++ flat_map share_text shares.now) }
{
    for share in shares {
        put_text(out, b" ")?;
        put_whole(out, i128::from(share.lit))?;
        put_text(out, b":")?;
        put_whole(out, share.times)?;
    }
    Ok(())
}

/// Puts literals with the directions in which they are taken.
fn put_steps(out: &mut Text, steps: &[Step]) -> Result<(), AllocError>
    ensures { OnOk result (out.new ≡ out.old ++ flat_map step_text steps.now) }
{
    for step in steps {
        put_step(out, *step)?;
    }
    Ok(())
}

/// Puts a literal with the direction in which it is taken.
fn put_step(out: &mut Text, step: Step) -> Result<(), AllocError>
    ensures { OnOk result (out.new ≡ out.old ++ step_text step) }
{
    if step.forward {
        put_text(out, b" +")?;
    } else {
        put_text(out, b" -")?;
    }
    put_whole(out, i128::from(step.lit))
}

/// Puts the numbers of literals.
fn put_links(out: &mut Text, links: &[u32]) -> Result<(), AllocError>
    ensures { OnOk result (out.new ≡ out.old ++ flat_map link_text links.now) }
{
    for link in links {
        put_text(out, b" ")?;
        put_whole(out, i128::from(*link))?;
    }
    Ok(())
}
