//! Rounds of relaxations until all edges hold or a cycle shows, and the values that the nodes have then.
ghost use Rattle.std.specs.Prelude.{◌≡◌, ◌≤◌, ◌<◌, IfOk, length};
ghost use Rattle.hp_diff.specs.inner.Labels.{EdgesFit, AreLatest};
ghost use Rattle.hp_diff.specs.inner.Settled.{AreValuesOf, IsSettled};

use crate::cycles::cycle_of;
use crate::edges::Edge;
use crate::labels::{Labels, Round, relax_all, roots};
use crate::parents::{Closed, shown_cycle};
use std::alloc::{AllocError, Global};

/// Values of the nodes that keep every edge, or a cycle of edges whose bounds add to less than 0.
#[derive(Drop)]
pub enum Settled {
    Values(Vec<i128>),
    Cycle(Vec<usize>),
}

/// The value that each node has now.
fn values_of(alloc: Global, labels: &Labels, nodes: usize) -> Result<Vec<i128>, AllocError>
    requires { AreLatest nodes labels.now }
    ensures { IfOk result (λ values. AreValuesOf labels.now nodes values.items) }
{
    let mut values = Vec::new(alloc);
    for number in labels.latest.as_slice() {
        values.push(labels.made.as_slice()[*number].value)?;
    }
    Ok(values)
}

/// Relaxes all edges as many times as there are nodes, which settles them unless a cycle shows.
pub fn settle(alloc: Global, nodes: usize, edges: &[Edge]) -> Result<Settled, AllocError>
    requires nodes { nodes ≤ 200001 }
    requires edges { EdgesFit nodes edges.now }
    ensures { IfOk result (λ settled. IsSettled nodes edges.now settled) }
{
    let mut labels = roots(alloc, nodes)?;
    for depth in 0..nodes {
        match relax_all(&mut labels, nodes, edges, depth)? {
            Round::Settled => return Ok(Settled::Values(values_of(alloc, &labels, nodes)?)),
            Round::Changed => {
                if let Closed::Cycle(cycle) = shown_cycle(alloc, &labels, nodes, edges)? {
                    return Ok(Settled::Cycle(cycle));
                }
            }
            Round::Deep => {
                let made = labels.made.as_slice();
                return Ok(Settled::Cycle(cycle_of(alloc, edges, nodes, made, made.len() - 1)?));
            }
        }
    }
    Ok(Settled::Values(values_of(alloc, &labels, nodes)?))
}
