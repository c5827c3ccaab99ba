//! Edges linked by the node that they start from, so that they can be added and taken off at the end.
ghost use Rattle.std.specs.Prelude.{◌≡◌, ◌<◌, OnOk, OnErr, length};
ghost use Rattle.hp_diff.specs.inner.Labels.{EdgesFit};
ghost use Rattle.hp_diff.specs.inner.Net.{IsCut, IsLinked, with_edge};

use crate::edges::Edge;
use hp_num::List;
use std::alloc::AllocError;

/// Edges in the order of their adding. Each node has its last edge, and each edge the one before it from the same node.
/// Both count from 1, and 0 is for none.
#[derive(Drop)]
pub struct Net {
    pub edges: List<Edge>,
    pub next: List<usize>,
    pub first: List<usize>,
}

/// Adds an edge at the end. `Err` says that memory was wanting, and leaves all as it was.
pub fn link(net: &mut Net, nodes: usize, edge: Edge) -> Result<(), AllocError>
    requires linked { IsLinked nodes net.old }
    requires from { edge.from < nodes }
    ensures ok { OnOk result (net.new ≡ with_edge net.old edge) }
    ensures err { OnErr result (net.new ≡ net.old) }
{
    let before = net.first.as_slice()[edge.from];
    net.edges.push(edge)?;
    match net.next.push(before) {
        Ok(()) => {
            let count = net.edges.len();
            net.first.set(edge.from, count);
            Ok(())
        }
        Err(error) => {
            let _ = net.edges.pop();
            Err(error)
        }
    }
}

/// Takes the last edge off, of which there has to be one.
pub fn cut(net: &mut Net, nodes: usize)
    requires linked { IsLinked nodes net.old }
    requires fit { EdgesFit nodes net.old.edges }
    requires some { 0 < length net.old.edges }
    ensures { IsCut nodes net.old net.new }
{
    if let Some(edge) = net.edges.pop() {
        if let Some(before) = net.next.pop() {
            net.first.set(edge.from, before);
        }
    }
}
