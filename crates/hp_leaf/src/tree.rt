//! Trees of splits over the lines of a ground problem, with a proof at each leaf that its path can't be true.
//!
//! A tree is a list of nodes in preorder: a split is followed by the trees of its children, one for each literal of
//! its line. So a split on a line without literals closes its place alone.
use hp_lit::{Share, Step};
use hp_num::List;

/// Evidence that the literals of a path can't all be true. Literals count from 1, from the root on.
#[derive(Drop)]
pub enum LeafProof {
    /// Literals over fractions with multipliers, which add to nothing below 0.
    Num(List<Share>),
    /// Literals over whole numbers that form a cycle whose bounds add to less than 0.
    Idx(List<Step>),
    /// An inequality of pointers, and equalities that lead from its left to its right name.
    Ptr { ne: u32, path: List<u32> },
}

/// A node of a tree. Lines count from 1.
#[derive(Drop)]
pub enum Node {
    /// One child for each literal of the line.
    Split { line: u32 },
    /// A place whose literals can't all be true.
    Leaf(LeafProof),
    /// A place that wasn't looked at.
    Unopened,
}
