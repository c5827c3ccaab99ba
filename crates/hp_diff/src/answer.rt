//! The decision over rows: names to nodes, rows to edges, and what settling the edges says of the rows.
ghost use Rattle.std.specs.Prelude.{◌≡◌, ◌≤◌, ◌<◌, ◌+◌, ◌-◌, ◌^◌, pos, neg_ℤ, ◌-ℤ◌, ◌≤ℤ◌, IfOk, length, map};
ghost use Rattle.std.specs.List.{All};
ghost use Rattle.hp_math.specs.Rational.{whole};
ghost use Rattle.hp_tree.specs.Limits.{most_rows, largest_value};
ghost use Rattle.hp_nodes.specs.Nodes.{AreNamedValues, AreNames};
ghost use Rattle.hp_diff.specs.inner.Edges.{AreEdges, offset_at, step_at};
ghost use Rattle.hp_diff.specs.Rows.{IsDiffAnswer, mentioned};
ghost use Rattle.hp_lit.specs.Fit.{IsSmallBound};
ghost use Rattle.hp_diff.specs.inner.Settled.{AreValues, value_at};

use crate::edges::{Edge, edges_of};
use crate::order::in_order;
use crate::outcome::{Settled, settle};
use hp_lit::{IdxLit, Name, NameValue, Step};
use hp_nodes::distinct_names;
use hp_num::{Frac, List};
use std::alloc::{AllocError, Global};

/// Values of the names that make all rows true, or steps over rows that lead back to their start and whose bounds add to
/// less than 0.
#[derive(Drop)]
pub enum DiffAnswer {
    Point(List<NameValue>),
    Cycle(List<Step>),
}

/// A whole number as a fraction.
fn whole_number(number: i128) -> Frac
    requires { neg_ℤ (pos (2 ^ 127 - 1)) ≤ℤ number }
    ensures { result ≡ whole number }
{
    Frac::new(number, 1)
}

/// The value of a node, counted from the value of the node for no name.
fn offset(names: &[u32], edges: &[Edge], values: &[i128], node: usize) -> i128
    requires few { length names.now ≤ 200000 }
    requires values { AreValues (length names.now + 1) edges.now values.now }
    requires node { node ≤ length names.now }
    ensures value { result ≡ value_at values.now node -ℤ value_at values.now 0 }
    ensures small { neg_ℤ (pos largest_value) ≤ℤ result }
{
    values[node] - values[0]
}

/// The values of the nodes as values of the names, counted from the value of the node for no name.
fn named_values(
    alloc: Global,
    names: &[u32],
    edges: &[Edge],
    values: &[i128],
) -> Result<List<NameValue>, AllocError>
    requires few { length names.now ≤ 200000 }
    requires values { AreValues (length names.now + 1) edges.now values.now }
    ensures { IfOk result (λ named. AreNamedValues names.now (offset_at values.now) named) }
{
    let mut named = List::new(alloc);
    for (at, name) in names.iter().enumerate() {
        named.push(NameValue {
            name: Name(*name),
            value: whole_number(offset(names, edges, values, at + 1)),
        })?;
    }
    Ok(named)
}

/// The steps over edges of these numbers.
pub fn steps_of(alloc: Global, edges: &[Edge], cycle: &[usize]) -> Result<List<Step>, AllocError>
    requires { All (λ k. k < length edges.now) cycle.now }
    ensures { IfOk result (λ steps. steps ≡ map (step_at edges.now) cycle.now) }
{
    let mut steps = List::new(alloc);
    for number in cycle {
        let edge = edges[*number];
        steps.push(Step {
            lit: edge.lit,
            forward: edge.forward,
        })?;
    }
    Ok(steps)
}

/// What settling the edges of the rows says of the rows.
fn answer_of(
    alloc: Global,
    rows: &[IdxLit],
    names: &[u32],
    edges: &[Edge],
) -> Result<DiffAnswer, AllocError>
    requires few { length rows.now ≤ most_rows }
    requires bounds { All (λ row. IsSmallBound row.bound) rows.now }
    requires names { AreNames (mentioned rows.now) names.now }
    requires edges { AreEdges names.now rows.now edges.now }
    ensures { IfOk result (λ answer. IsDiffAnswer rows.now answer) }
{
    match settle(alloc, names.len() + 1, edges)? {
        Settled::Values(values) => {
            let named = named_values(alloc, names, edges, &values)?;
            Ok(DiffAnswer::Point(named))
        }
        Settled::Cycle(cycle) => {
            let steps = steps_of(alloc, edges, &cycle)?;
            Ok(DiffAnswer::Cycle(steps))
        }
    }
}

/// Whether values of the names make all rows true.
///
/// `Point` has one value for each name that the rows mention, in rising order of names: whole numbers of a magnitude of
/// at most 10^37. `Cycle` has steps over the rows, which count from 1: each step's right name is the next one's left
/// name, the last one's right name is the first one's left name, only equalities are turned about, and the bounds add to
/// less than 0. `Err` says that memory was wanting. Nothing else can be answered, and every call returns. It asks for at
/// most 100,000 rows, with bounds of a magnitude of at most 10^25.
///
/// Rows become edges between numbered names, and rounds over all edges lower values until nothing changes or a cycle
/// shows (Bellman, On a routing problem, 1958). At worst this takes one round more than there are names, and memory for
/// one label whenever a value falls.
pub fn decide(alloc: Global, rows: &[IdxLit]) -> Result<DiffAnswer, AllocError>
    requires few { length rows.now ≤ most_rows }
    requires bounds { All (λ row. IsSmallBound row.bound) rows.now }
    ensures { IfOk result (λ answer. IsDiffAnswer rows.now answer) }
{
    let names = distinct_names(alloc, rows)?;
    let edges = in_order(alloc, names.len() + 1, edges_of(alloc, &names, rows)?)?;
    answer_of(alloc, rows, &names, &edges)
}
