//! The edges that rows stand for.
ghost use Rattle.std.specs.Prelude.{◌≡◌, ◌^◌, ◌+ℤ◌, ◌≤ℤ◌, pos};
ghost use Rattle.hp_diff.specs.inner.RowEdges.{edge_of, node_of};

use crate::edges::Edge;
use hp_lit::{IdxLit, Name};

/// The node of a name, or of none.
fn node_of(name: Option<Name>) -> usize
    ensures { result ≡ node_of name }
{
    match name {
        None => 0,
        Some(name) => name.0 as usize + 1,
    }
}

/// The edge of a row with its number, as it stands or turned about.
pub fn edge_of(row: &IdxLit, lit: u32, forward: bool) -> Edge
    requires low { pos 0 ≤ℤ (row.now.bound +ℤ pos (10 ^ 32)) }
    ensures { result ≡ edge_of lit row.now forward }
{
    let left = node_of(row.left);
    let right = node_of(row.right);
    if forward {
        Edge {
            to: left,
            from: right,
            bound: row.bound,
            lit,
            forward,
        }
    } else {
        Edge {
            to: right,
            from: left,
            bound: -row.bound,
            lit,
            forward,
        }
    }
}
