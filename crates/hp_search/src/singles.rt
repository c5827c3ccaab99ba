//! Lines of one literal. Each of them has to be true, so their literals are decided together.
ghost use Rattle.std.specs.Prelude.{◌≡◌, ◌≤◌, ◌<◌, ◌∷◌, [], ◌++◌, IfOk, IfSome, length, map};
ghost use Rattle.std.specs.List.{All};
ghost use Rattle.hp_tree.specs.Limits.{most_lines};
ghost use Rattle.hp_leaf.specs.Leaf.{IsValid};
ghost use Rattle.hp_leaf.specs.Tree.{IsClosed, place_lits};
ghost use Rattle.hp_search.specs.Lines.{AreFit};
ghost use Rattle.hp_search.specs.inner.Singles.{AreSinglesOf, line_at, lines_of_links, lines_of_shares, lines_of_steps, links_in_order, shares_in_order, splits_of, steps_in_order};

use crate::literals::lits_of;
use hp_leaf::{LeafProof, Node};
use hp_lit::{Choice, Line, Share, Step};
use hp_num::List;
use hp_path::{Quick, decide_quickly};
use hp_tree::Sort;
use std::alloc::{AllocError, Global};

/// The choices of the only literal of each line that has one.
pub fn singles_of(alloc: Global, lines: &[Line]) -> Result<List<Choice>, AllocError>
    requires lines { length lines.now ≤ most_lines }
    ensures { IfOk result (λ singles. AreSinglesOf lines.now singles) }
{
    let mut singles = List::new(alloc);
    for (at, line) in lines.iter().enumerate() {
        if line.lits.len() == 1 {
            singles.push(Choice {
                line: at as u32 + 1,
                lit: 1,
            })?;
        }
    }
    Ok(singles)
}

/// The line of the choice of this number, counted from 1; 0 where there is none.
fn line_of(singles: &[Choice], number: u32) -> u32
    ensures { result ≡ line_at singles.now number }
{
    match singles.get((number as usize).saturating_sub(1)) {
        Some(single) => single.line,
        None => 0,
    }
}

/// A split for the line of each step, and a leaf of these steps over them.
fn tree_of_steps(
    alloc: Global,
    singles: &[Choice],
    steps: &[Step],
) -> Result<List<Node>, AllocError>
    requires { length steps.now < 4000000000 }
    ensures { IfOk result (λ tree. tree ≡ splits_of (lines_of_steps singles.now steps.now) ++ Node.Leaf (LeafProof.Idx (steps_in_order 0 steps.now)) ∷ []) }
{
    let mut tree = List::new(alloc);
    let mut ordered = List::new(alloc);
    for (at, step) in steps.iter().enumerate() {
        tree.push(Node::Split {
            line: line_of(singles, step.lit),
        })?;
        ordered.push(Step {
            lit: at as u32 + 1,
            forward: step.forward,
        })?;
    }
    tree.push(Node::Leaf(LeafProof::Idx(ordered)))?;
    Ok(tree)
}

/// A split for the line of each share, and a leaf of these shares over them.
fn tree_of_shares(
    alloc: Global,
    singles: &[Choice],
    shares: &[Share],
) -> Result<List<Node>, AllocError>
    requires { length shares.now < 4000000000 }
    ensures { IfOk result (λ tree. tree ≡ splits_of (lines_of_shares singles.now shares.now) ++ Node.Leaf (LeafProof.Num (shares_in_order 0 shares.now)) ∷ []) }
{
    let mut tree = List::new(alloc);
    let mut ordered = List::new(alloc);
    for (at, share) in shares.iter().enumerate() {
        tree.push(Node::Split {
            line: line_of(singles, share.lit),
        })?;
        ordered.push(Share {
            lit: at as u32 + 1,
            times: share.times,
        })?;
    }
    tree.push(Node::Leaf(LeafProof::Num(ordered)))?;
    Ok(tree)
}

/// A split for the line of an inequality and for that of each equality, and a leaf of these over them.
fn tree_of_links(
    alloc: Global,
    singles: &[Choice],
    ne: u32,
    links: &[u32],
) -> Result<List<Node>, AllocError>
    requires { length links.now < 4000000000 }
    ensures { IfOk result (λ tree. tree ≡ splits_of (line_at singles.now ne ∷ lines_of_links singles.now links.now) ++ Node.Leaf (LeafProof.Ptr 1 (links_in_order 1 links.now)) ∷ []) }
{
    let mut tree = List::new(alloc);
    let mut ordered = List::new(alloc);
    tree.push(Node::Split {
        line: line_of(singles, ne),
    })?;
    for (at, link) in links.iter().enumerate() {
        tree.push(Node::Split {
            line: line_of(singles, *link),
        })?;
        ordered.push(at as u32 + 2)?;
    }
    tree.push(Node::Leaf(LeafProof::Ptr {
        ne: 1,
        path: ordered,
    }))?;
    Ok(tree)
}

/// The closed tree of a leaf over the literals of lines of one literal. One that is too long for its numbers is left to
/// the search.
fn tree_of(
    alloc: Global,
    lines: &[Line],
    singles: &[Choice],
    proof: &LeafProof,
) -> Result<Option<List<Node>>, AllocError>
    requires singles { AreSinglesOf lines.now singles.now }
    requires valid { IsValid (place_lits lines.now singles.now) proof.now }
    ensures { IfOk result (λ closed. IfSome closed (λ tree. IsClosed lines.now tree)) }
{
    match proof {
        LeafProof::Idx(steps) => {
            if steps.len() >= 4_000_000_000 {
                return Ok(None);
            }
            Ok(Some(tree_of_steps(alloc, singles, steps.as_slice())?))
        }
        LeafProof::Num(shares) => {
            if shares.len() >= 4_000_000_000 {
                return Ok(None);
            }
            Ok(Some(tree_of_shares(alloc, singles, shares.as_slice())?))
        }
        LeafProof::Ptr { ne, path } => {
            if path.len() >= 4_000_000_000 {
                return Ok(None);
            }
            Ok(Some(tree_of_links(alloc, singles, *ne, path.as_slice())?))
        }
    }
}

/// A closed tree over lines of one literal alone, where they can't all be true and this shows quickly.
pub fn close_singles(
    alloc: Global,
    sorts: &[Sort],
    lines: &[Line],
    singles: &[Choice],
) -> Result<Option<List<Node>>, AllocError>
    requires fit { All (λ line. AreFit sorts.now line.lits) lines.now }
    requires singles { AreSinglesOf lines.now singles.now }
    requires lines { length lines.now ≤ most_lines }
    ensures { IfOk result (λ closed. IfSome closed (λ tree. IsClosed lines.now tree)) }
{
    let lits = lits_of(alloc, lines, singles)?;
    match decide_quickly(alloc, sorts, lits.as_slice())? {
        Quick::Values(_) => Ok(None),
        Quick::Unknown(_) => Ok(None),
        Quick::Leaf(proof) => tree_of(alloc, lines, singles, &proof),
    }
}

/// Appends the line of the literal of this number, where it is one of those after the first `own`.
fn push_suspect(
    singles: &[Choice],
    own: usize,
    number: u32,
    lines: &mut List<u32>,
) -> Result<(), AllocError> {
    let number = number as usize;
    if number > own {
        match singles.get(number - own - 1) {
            Some(single) => lines.push(single.line)?,
            None => {}
        }
    }
    Ok(())
}

/// The lines of one literal whose literals stand after the first `own` and are named by the leaf. Only the order in which
/// lines are split hangs on them.
pub fn suspects(
    alloc: Global,
    singles: &[Choice],
    own: usize,
    proof: &LeafProof,
) -> Result<List<u32>, AllocError> {
    let mut lines = List::new(alloc);
    match proof {
        LeafProof::Idx(steps) => {
            for step in steps.as_slice() {
                push_suspect(singles, own, step.lit, &mut lines)?;
            }
        }
        LeafProof::Num(shares) => {
            for share in shares.as_slice() {
                push_suspect(singles, own, share.lit, &mut lines)?;
            }
        }
        LeafProof::Ptr { ne, path } => {
            push_suspect(singles, own, *ne, &mut lines)?;
            for link in path.as_slice() {
                push_suspect(singles, own, *link, &mut lines)?;
            }
        }
    }
    Ok(lines)
}
