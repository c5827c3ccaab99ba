//! The cycle that a repair comes upon: back over the edges that lowered the nodes. What is found so is added up before it
//! is answered.
ghost use Rattle.std.specs.Prelude.{◌≡◌, ◌≤◌, ◌<◌, ◌+ℤ◌, FitsSigned, IfOk, IfSome, length};
ghost use Rattle.hp_diff.specs.inner.Labels.{EdgesFit, edge_at};
ghost use Rattle.hp_diff.specs.inner.Cycles.{IsNegativeCycle};

use crate::edges::Edge;
use crate::parents::with_bound;
use std::alloc::{AllocError, Global};

/// The edge that lowered the node last.
fn edge_before(edges: &[Edge], parent: &[usize], node: usize) -> Option<usize>
    requires { node < length parent.now }
    ensures within { IfSome result (λ number. number < length edges.now) }
    ensures to { IfSome result (λ number. (edge_at edges.now number).to ≡ node) }
{
    let number = parent[node];
    if number < edges.len() {
        let edge = edges[number];
        if edge.to == node { Some(number) } else { None }
    } else {
        None
    }
}

/// The cycle over an edge that leads back, if there is one to be seen.
pub fn closed_walk(
    alloc: Global,
    edges: &[Edge],
    parent: &[usize],
    nodes: usize,
    back: usize,
) -> Result<Option<Vec<usize>>, AllocError>
    requires nodes { nodes ≤ 200001 }
    requires fit { EdgesFit nodes edges.now }
    requires parent { length parent.now ≡ nodes }
    ensures { IfOk result (λ found. IfSome found (λ cycle. IsNegativeCycle edges.now cycle.items)) }
{
    if back >= edges.len() {
        return Ok(None);
    }
    let start = edges[back].to;
    let mut cycle = Vec::new(alloc);
    let mut sum: i128 = 0;
    let mut number = back;
    for turn in 0..nodes {
        cycle.push(number)?;
        sum = with_bound(sum, &edges[number]);
        let node = edges[number].from;
        if node == start {
            if sum < 0 {
                return Ok(Some(cycle));
            }
            return Ok(None);
        }
        match edge_before(edges, parent, node) {
            None => return Ok(None),
            Some(before) => number = before,
        }
    }
    Ok(None)
}
