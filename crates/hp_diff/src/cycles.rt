//! A cycle from a walk that is as long as there are nodes: two of its labels stand at one node, and the edges between
//! them add to less than 0, since the values of a node's labels fall.
ghost use Rattle.std.specs.Prelude.{◌≡◌, ◌≤◌, ◌<◌, IfOk, length};
ghost use Rattle.hp_diff.specs.inner.Labels.{EdgesFit, AreLabels, label_at};
ghost use Rattle.hp_diff.specs.inner.Cycles.{Above, IsNegativeCycle, IsRepeated};

use crate::edges::Edge;
use crate::labels::Label;
use std::alloc::{AllocError, Global};

/// Two labels of one node on the walk to a label that is as deep as there are nodes, the later one first.
fn repeated(
    alloc: Global,
    edges: &[Edge],
    nodes: usize,
    labels: &[Label],
    end: usize,
) -> Result<(usize, usize), AllocError>
    requires labels { AreLabels edges.now nodes labels.now }
    requires end { end < length labels.now }
    requires deep { nodes ≤ (label_at labels.now end).depth }
    ensures { IfOk result (λ pair. IsRepeated labels.now pair.0 pair.1) }
{
    let mut seen = vec![in alloc; 0usize; nodes]?;
    let mut current = end;
    'search: loop {
        let label = labels[current];
        let mark = seen.as_slice()[label.node];
        if mark > 0 {
            return Ok((mark - 1, current));
        }
        seen[label.node] = current + 1;
        current = label.prev;
    }
}

/// The edges from a later label of a node back to an earlier one.
fn between(
    alloc: Global,
    edges: &[Edge],
    nodes: usize,
    labels: &[Label],
    later: usize,
    earlier: usize,
) -> Result<Vec<usize>, AllocError>
    requires labels { AreLabels edges.now nodes labels.now }
    requires pair { IsRepeated labels.now later earlier }
    ensures { IfOk result (λ cycle. IsNegativeCycle edges.now cycle.items) }
{
    let mut cycle = Vec::new(alloc);
    let mut current = later;
    'back: while current != earlier {
        let label = labels[current];
        cycle.push(label.edge)?;
        current = label.prev;
    }
    Ok(cycle)
}

/// A cycle of edges whose bounds add to less than 0, from a label that is as deep as there are nodes.
pub fn cycle_of(
    alloc: Global,
    edges: &[Edge],
    nodes: usize,
    labels: &[Label],
    end: usize,
) -> Result<Vec<usize>, AllocError>
    requires labels { AreLabels edges.now nodes labels.now }
    requires end { end < length labels.now }
    requires deep { nodes ≤ (label_at labels.now end).depth }
    ensures { IfOk result (λ cycle. IsNegativeCycle edges.now cycle.items) }
{
    let (later, earlier) = repeated(alloc, edges, nodes, labels, end)?;
    between(alloc, edges, nodes, labels, later, earlier)
}
