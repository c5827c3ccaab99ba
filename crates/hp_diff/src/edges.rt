//! Edges between nodes, and how each row gives one or two of them.
ghost use Rattle.std.specs.Prelude.{◌≡◌, ◌≤◌, IfOk, length};
ghost use Rattle.std.specs.List.{All};
ghost use Rattle.std.specs.List.Sorted.{IsStrictlyIncreasing};
ghost use Rattle.hp_tree.specs.Limits.{most_rows};
ghost use Rattle.hp_lit.specs.Cycle.{turned};
ghost use Rattle.hp_nodes.specs.Nodes.{IsNamed};
ghost use Rattle.hp_diff.specs.inner.Edges.{AreEdges, IsOver};
ghost use Rattle.hp_lit.specs.Fit.{IsSmallBound};

use hp_lit::IdxLit;
use hp_nodes::node_of;
use std::alloc::{AllocError, Global};

/// The value at `to` is at most the value at `from` plus the bound. The edge stands for the row of that number, counted
/// from 1, as it stands, or turned about where it is not `forward`.
#[derive(Clone, Copy, Drop)]
pub struct Edge {
    pub to: usize,
    pub from: usize,
    pub bound: i128,
    pub lit: u32,
    pub forward: bool,
}

/// The edge of a row with its number, as it stands or turned about.
fn edge_of(names: &[u32], row: &IdxLit, lit: u32, forward: bool) -> Edge
    requires rising { IsStrictlyIncreasing names.now }
    requires left { IsNamed names.now row.now.left }
    requires right { IsNamed names.now row.now.right }
    requires bound { IsSmallBound row.now.bound }
    ensures over { IsOver names.now result (turned row.now forward) }
    ensures lit { result.lit ≡ lit }
    ensures forward { result.forward ≡ forward }
{
    let left = node_of(names, row.left);
    let right = node_of(names, row.right);
    if forward {
        Edge {
            to: left,
            from: right,
            bound: row.bound,
            lit,
            forward,
        }
    } else {
        Edge {
            to: right,
            from: left,
            bound: -row.bound,
            lit,
            forward,
        }
    }
}

/// The edges of all rows: one for each, and for an equality a second one, turned about.
pub fn edges_of(alloc: Global, names: &[u32], rows: &[IdxLit]) -> Result<Vec<Edge>, AllocError>
    requires few { length rows.now ≤ most_rows }
    requires bounds { All (λ row. IsSmallBound row.bound) rows.now }
    requires rising { IsStrictlyIncreasing names.now }
    requires left { All (λ row. IsNamed names.now row.left) rows.now }
    requires right { All (λ row. IsNamed names.now row.right) rows.now }
    ensures { IfOk result (λ edges. AreEdges names.now rows.now edges.items) }
{
    let mut edges = Vec::new(alloc);
    for at in 0..rows.len() {
        let row = rows[at];
        let lit = at as u32 + 1;
        edges.push(edge_of(names, &row, lit, true))?;
        if row.exact {
            edges.push(edge_of(names, &row, lit, false))?;
        }
    }
    Ok(edges)
}
