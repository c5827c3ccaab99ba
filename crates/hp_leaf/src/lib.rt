//! Proofs of leaves, their check and their renumbering, trees, and what a closed tree and a tree that was given up say.
#![tactic(auto)]

ghost use Rattle.hp_leaf.specs.Laws.{ClosedTreesRefute, SpentTreesAreSmall};
ghost use Rattle.hp_leaf.specs.Nested.{ClosedIsNested};
ghost use Rattle.hp_leaf.specs.Renumbered.{RenumberingKeepsLeaves};

mod cycle;
mod leaf;
mod pointer;
mod renumbering;
mod side;
mod tree;

pub use leaf::check_leaf;
pub use renumbering::{place_at, renumber_links, renumber_shares, renumber_steps};
pub use tree::{LeafProof, Node};

/// No values make all lines of a closed tree true.
pub fn closed_trees_refute()
    ensures { ClosedTreesRefute }
{}

/// An honest tree with an open place has fewer splits and leaves than the product of one plus the literal counts.
pub fn spent_trees_are_small()
    ensures { SpentTreesAreSmall }
{}

/// A closed reading is a tree whose splits have a tree for each literal, and nothing after it.
pub fn closed_is_nested()
    ensures { ClosedIsNested }
{}

/// Evidence over literals that stand in a path, in their order, is evidence over the path, once each literal has its
/// number along the path.
pub fn renumbering_keeps_leaves()
    ensures { RenumberingKeepsLeaves }
{}
