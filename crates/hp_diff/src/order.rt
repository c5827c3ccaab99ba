//! The order in which edges are relaxed. Any order gives the same answers; a good one settles them in few rounds.
//!
//! An edge comes after those that may lower its start, as far as cycles allow it: nodes are numbered as a search in
//! depth leaves them, and edges are sorted by the number of their start (Tarjan, Depth-first search and linear graph
//! algorithms, 1972).
ghost use Rattle.std.specs.Prelude.{IfOk};
ghost use Rattle.std.specs.List.Sorted.{IsPermutation};

use crate::edges::Edge;
use std::alloc::{AllocError, Global};

/// The edges of `edges` in such an order.
pub fn in_order(alloc: Global, nodes: usize, mut edges: Vec<Edge>) -> Result<Vec<Edge>, AllocError>
    ensures { IfOk result (λ sorted. IsPermutation edges.items sorted.items) }
{
    let place = places(alloc, nodes, &edges)?;
    edges.sort_by_key(|edge| place.get(edge.from).copied().unwrap_or(0))?;
    Ok(edges)
}

/// The edges that leave each node as a list: the first of a node, and the next one after each edge. Edges count from 1,
/// and 0 ends a list.
#[derive(Drop)]
struct Leaving {
    first: Vec<usize>,
    next: Vec<usize>,
}

/// A search in depth: the edges to follow, the nodes that it has met, the path from its root, and the place of each node
/// that it has left, the last one first.
#[derive(Drop)]
struct Search {
    leaving: Leaving,
    met: Vec<bool>,
    path: Vec<usize>,
    place: Vec<usize>,
    unplaced: usize,
}

/// The place of each node among the starts of edges.
fn places(alloc: Global, nodes: usize, edges: &[Edge]) -> Result<Vec<usize>, AllocError> {
    let mut search = Search {
        leaving: leaving_lists(alloc, nodes, edges)?,
        met: vec![in alloc; false; nodes]?,
        path: Vec::new(alloc),
        place: vec![in alloc; 0usize; nodes]?,
        unplaced: nodes,
    };
    for root in 0..nodes {
        explore(&mut search, edges, root)?;
    }
    Ok(search.place)
}

/// Leads the search through all that a root reaches. Each turn follows an edge or leaves a node.
fn explore(search: &mut Search, edges: &[Edge], root: usize) -> Result<(), AllocError> {
    enter(search, root)?;
    for _ in 0..search.met.len().saturating_add(edges.len()) {
        match search.path.pop() {
            Some(node) => follow(search, edges, node)?,
            None => break,
        }
    }
    Ok(())
}

/// Goes on from a node over its next edge, or leaves it.
fn follow(search: &mut Search, edges: &[Edge], node: usize) -> Result<(), AllocError> {
    match take_edge(&mut search.leaving, node) {
        Some(at) => {
            search.path.push(node)?;
            match edges.get(at) {
                Some(edge) => enter(search, edge.to),
                None => Ok(()),
            }
        }
        None => {
            search.unplaced = search.unplaced.saturating_sub(1);
            if let Some(place) = search.place.get_mut(node) {
                *place = search.unplaced;
            }
            Ok(())
        }
    }
}

/// Goes on to a node, unless it was met before.
fn enter(search: &mut Search, node: usize) -> Result<(), AllocError> {
    if let Some(met) = search.met.get_mut(node) {
        if !*met {
            *met = true;
            search.path.push(node)?;
        }
    }
    Ok(())
}

/// The lists of leaving edges.
fn leaving_lists(alloc: Global, nodes: usize, edges: &[Edge]) -> Result<Leaving, AllocError> {
    let mut first = vec![in alloc; 0usize; nodes]?;
    let mut next = Vec::new(alloc);
    for (at, edge) in edges.iter().enumerate() {
        match first.get_mut(edge.from) {
            Some(slot) => {
                next.push(*slot)?;
                *slot = at + 1;
            }
            None => next.push(0)?,
        }
    }
    Ok(Leaving { first, next })
}

/// Takes the first edge off a node's list, and answers its number.
fn take_edge(leaving: &mut Leaving, node: usize) -> Option<usize> {
    let slot = leaving.first.get_mut(node)?;
    let at = slot.checked_sub(1)?;
    *slot = leaving.next.get(at).copied().unwrap_or(0);
    Some(at)
}
