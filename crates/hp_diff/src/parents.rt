//! Cycles that show early: the edges of the nodes' latest labels, followed back from node to node, close a cycle soon
//! after there is one to be found. What is found so is added up before it is answered.
ghost use Rattle.std.specs.Prelude.{◌≡◌, ◌≤◌, ◌<◌, ◌+ℤ◌, FitsSigned, IfOk, IfSome, length};
ghost use Rattle.std.specs.Int.{w128};
ghost use Rattle.hp_diff.specs.inner.Labels.{AreLabels, AreLatest, EdgesFit, edge_at};
ghost use Rattle.hp_diff.specs.inner.Cycles.{IsClosed};

use crate::edges::Edge;
use crate::labels::{Labels, latest_label};
use std::alloc::{AllocError, Global};

/// Whether a cycle of edges whose bounds add to less than 0 has shown.
#[derive(Drop)]
pub enum Closed {
    Cycle(Vec<usize>),
    Open,
}

/// A cycle among the edges of the nodes' latest labels.
pub fn shown_cycle(
    alloc: Global,
    labels: &Labels,
    nodes: usize,
    edges: &[Edge],
) -> Result<Closed, AllocError>
    requires nodes { nodes ≤ 200001 }
    requires edges { EdgesFit nodes edges.now }
    requires labels { AreLabels edges.now nodes labels.now.made }
    requires latest { AreLatest nodes labels.now }
    ensures { IfOk result (λ closed. IsClosed edges.now closed) }
{
    let mut marks = vec![in alloc; 0usize; nodes]?;
    for root in 0..nodes {
        if let Some(start) = met_again(&mut marks, labels, nodes, edges, root) {
            return closed_walk(alloc, labels, nodes, edges, start);
        }
    }
    Ok(Closed::Open)
}

/// The edge of a node's latest label, if it is not the node's first one.
fn edge_before(labels: &Labels, nodes: usize, edges: &[Edge], node: usize) -> Option<usize>
    requires labels { AreLabels edges.now nodes labels.now.made }
    requires latest { AreLatest nodes labels.now }
    requires node { node < nodes }
    ensures within { IfSome result (λ number. number < length edges.now) }
    ensures to { IfSome result (λ number. (edge_at edges.now number).to ≡ node) }
{
    let label = latest_label(labels, nodes, node);
    if label.depth == 0 {
        None
    } else {
        Some(label.edge)
    }
}

/// Follows the nodes back from a root, marks them, and answers the first that is met twice.
fn met_again(
    marks: &mut Vec<usize>,
    labels: &Labels,
    nodes: usize,
    edges: &[Edge],
    root: usize,
) -> Option<usize>
    requires nodes { nodes ≤ 200001 }
    requires edges { EdgesFit nodes edges.now }
    requires labels { AreLabels edges.now nodes labels.now.made }
    requires latest { AreLatest nodes labels.now }
    requires root { root < nodes }
    requires marks { length marks.old.items ≡ nodes }
    ensures marks { length marks.new.items ≡ nodes }
    ensures within { IfSome result (λ node. node < nodes) }
{
    let mut node = root;
    for _ in 0..=nodes {
        let mark = marks.as_slice()[node];
        if mark == root + 1 {
            return Some(node);
        }
        if mark > 0 {
            return None;
        }
        marks[node] = root + 1;
        node = edges[edge_before(labels, nodes, edges, node)?].from;
    }
    None
}

/// The sum with the bound of one edge more.
pub fn with_bound(sum: i128, edge: &Edge) -> i128
    requires { FitsSigned w128 (sum +ℤ edge.now.bound) }
    ensures { result ≡ sum +ℤ edge.now.bound }
{
    sum + edge.bound
}

/// Follows the nodes back from a start until it comes again, and adds up the bounds.
fn closed_walk(
    alloc: Global,
    labels: &Labels,
    nodes: usize,
    edges: &[Edge],
    start: usize,
) -> Result<Closed, AllocError>
    requires nodes { nodes ≤ 200001 }
    requires edges { EdgesFit nodes edges.now }
    requires labels { AreLabels edges.now nodes labels.now.made }
    requires latest { AreLatest nodes labels.now }
    requires start { start < nodes }
    ensures { IfOk result (λ closed. IsClosed edges.now closed) }
{
    let mut cycle = Vec::new(alloc);
    let mut sum: i128 = 0;
    let mut node = start;
    for turn in 0..nodes {
        match edge_before(labels, nodes, edges, node) {
            None => return Ok(Closed::Open),
            Some(number) => {
                cycle.push(number)?;
                sum = with_bound(sum, &edges[number]);
                node = edges[number].from;
            }
        }
        if node == start {
            if sum < 0 {
                return Ok(Closed::Cycle(cycle));
            }
            return Ok(Closed::Open);
        }
    }
    Ok(Closed::Open)
}
