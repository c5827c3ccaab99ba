//! The literals of a path, decided together with those of lines of one literal.
ghost use Rattle.std.specs.Prelude.{◌≡◌, ◌≤◌, IfOk, length, true};
ghost use Rattle.std.specs.List.{All};
ghost use Rattle.hp_tree.specs.Limits.{most_lines};
ghost use Rattle.hp_leaf.specs.Tree.{place_lits};
ghost use Rattle.hp_search.specs.Lines.{AreFit};
ghost use Rattle.hp_search.specs.Search.{FindsAhead};
ghost use Rattle.hp_search.specs.inner.Singles.{AreSinglesOf, IsLeafWithin};

use crate::literals::{lits_of, push_lits};
use crate::parts::unnamed;
use crate::singles::suspects;
use hp_leaf::LeafProof;
use hp_lit::{Choice, Line, Share, Step, Valuation};
use hp_num::List;
use hp_path::{Quick, decide_patiently, decide_quickly};
use hp_tree::Sort;
use std::alloc::{AllocError, Global};

/// What is found of the literals of a path.
#[derive(Drop)]
pub enum Ahead {
    /// Values that make them true, with lines to look at first.
    Values {
        values: Valuation,
        suspects: List<u32>,
    },
    /// A leaf over them.
    Leaf(LeafProof),
    /// Over the literals of a component a number of the descent is too wide. They are named by their numbers, which
    /// count from 1 and rise.
    Strained(List<u32>),
}

/// Whether no step names a literal after the first `count`.
fn are_steps_within(steps: &[Step], count: usize) -> bool
    ensures { result ≡ true → All (λ step. step.lit ≤ count) steps.now }
{
    for step in steps {
        if step.lit as usize > count {
            return false;
        }
    }
    true
}

/// Whether no share names a literal after the first `count`.
fn are_shares_within(shares: &[Share], count: usize) -> bool
    ensures { result ≡ true → All (λ share. share.lit ≤ count) shares.now }
{
    for share in shares {
        if share.lit as usize > count {
            return false;
        }
    }
    true
}

/// Whether no equality is a literal after the first `count`.
fn are_links_within(links: &[u32], count: usize) -> bool
    ensures { result ≡ true → All (λ link. link ≤ count) links.now }
{
    for link in links {
        if *link as usize > count {
            return false;
        }
    }
    true
}

/// Whether a leaf names no literal after the first `count`.
fn is_within(proof: &LeafProof, count: usize) -> bool
    ensures { result ≡ true → IsLeafWithin count proof.now }
{
    match proof {
        LeafProof::Idx(steps) => are_steps_within(steps.as_slice(), count),
        LeafProof::Num(shares) => are_shares_within(shares.as_slice(), count),
        LeafProof::Ptr { ne, path } => {
            *ne as usize <= count && are_links_within(path.as_slice(), count)
        }
    }
}

/// One of these components.
fn one_of(alloc: Global, mut components: List<List<u32>>) -> List<u32> {
    match components.pop() {
        Some(places) => places,
        None => List::new(alloc),
    }
}

/// Decides the literals of a path alone, with these lines to look at first. Each component of them for which the simplex
/// gives up goes to the descent.
fn decide_alone(
    alloc: Global,
    sorts: &[Sort],
    lines: &[Line],
    path: &[Choice],
    suspects: List<u32>,
) -> Result<Ahead, AllocError>
    requires fit { All (λ line. AreFit sorts.now line.lits) lines.now }
    requires path { length path.now ≤ most_lines }
    ensures { IfOk result (FindsAhead sorts.now (place_lits lines.now path.now)) }
{
    let lits = lits_of(alloc, lines, path)?;
    match decide_patiently(alloc, sorts, lits.as_slice())? {
        Quick::Values(values) => Ok(Ahead::Values { values, suspects }),
        Quick::Leaf(proof) => Ok(Ahead::Leaf(proof)),
        Quick::Unknown(components) => Ok(Ahead::Strained(one_of(alloc, components))),
    }
}

/// Decides the literals of a path, together with those of these choices where they agree. Each component of them that
/// has no answer goes to the descent.
fn decide_beside(
    alloc: Global,
    sorts: &[Sort],
    lines: &[Line],
    others: &[Choice],
    path: &[Choice],
) -> Result<Ahead, AllocError>
    requires fit { All (λ line. AreFit sorts.now line.lits) lines.now }
    requires others { length others.now ≤ most_lines }
    requires path { length path.now ≤ most_lines }
    ensures { IfOk result (FindsAhead sorts.now (place_lits lines.now path.now)) }
{
    let mut lits = lits_of(alloc, lines, path)?;
    push_lits(alloc, lines, others, &mut lits)?;
    match decide_patiently(alloc, sorts, lits.as_slice())? {
        Quick::Values(values) => Ok(Ahead::Values {
            values,
            suspects: List::new(alloc),
        }),
        Quick::Unknown(components) => Ok(Ahead::Strained(one_of(alloc, components))),
        Quick::Leaf(proof) => {
            if is_within(&proof, path.len()) {
                return Ok(Ahead::Leaf(proof));
            }
            decide_alone(alloc, sorts, lines, path, List::new(alloc))
        }
    }
}

/// Decides the literals of a path, together with the lines of one literal where they agree. Lines that belong to a
/// component for which the simplex gives up are left out.
pub fn decide_ahead(
    alloc: Global,
    sorts: &[Sort],
    lines: &[Line],
    singles: &[Choice],
    path: &[Choice],
) -> Result<Ahead, AllocError>
    requires fit { All (λ line. AreFit sorts.now line.lits) lines.now }
    requires lines { length lines.now ≤ most_lines }
    requires singles { AreSinglesOf lines.now singles.now }
    requires path { length path.now ≤ most_lines }
    ensures { IfOk result (FindsAhead sorts.now (place_lits lines.now path.now)) }
{
    let mut lits = lits_of(alloc, lines, path)?;
    push_lits(alloc, lines, singles, &mut lits)?;
    match decide_quickly(alloc, sorts, lits.as_slice())? {
        Quick::Values(values) => Ok(Ahead::Values {
            values,
            suspects: List::new(alloc),
        }),
        Quick::Unknown(components) => {
            let others = unnamed(alloc, singles, path.len(), components.as_slice())?;
            decide_beside(alloc, sorts, lines, others.as_slice(), path)
        }
        Quick::Leaf(proof) => {
            if is_within(&proof, path.len()) {
                return Ok(Ahead::Leaf(proof));
            }
            let suspects = suspects(alloc, singles, path.len(), &proof)?;
            decide_alone(alloc, sorts, lines, path, suspects)
        }
    }
}
