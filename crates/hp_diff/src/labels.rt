//! Labels: what walks along edges give the nodes. A label is never changed, and each new one of a node has a smaller
//! value than the last, so that the labels of a walk stay true (Bellman, On a routing problem, 1958). Rounds go to and
//! fro over the edges (Yen, An algorithm for finding shortest routes from all source nodes to a given destination in
//! general networks, 1970).
ghost use Rattle.std.specs.Prelude.{◌+ℤ◌, ◌<ℤ◌, ◌≤ℤ◌, FitsSigned, false, ◌≡◌, ◌≤◌, ◌<◌, ◌+◌, ◌^◌, ◌++◌, ◌∷◌, [], IfOk, IfSome, IfNone, OnErr, OnOk, length, slice_set};
ghost use Rattle.std.specs.Int.{w128};
ghost use Rattle.hp_diff.specs.inner.Labels.{EdgesFit, AreLabels, AreLatest, AreRoots, AreShallow, Found, Holds, IsNext, IsRound, Turn, now_at, turn_at, with_label};

use crate::edges::Edge;
use hp_num::List;
use std::alloc::{AllocError, Global};

/// What a walk along edges gives a node: the sum of its bounds and their number.
#[derive(Clone, Copy, Drop)]
pub struct Label {
    pub node: usize,
    pub value: i128,
    pub depth: usize,
    pub prev: usize,
    pub edge: usize,
}

/// All labels in the order of their making, and the number of each node's latest one.
#[derive(Drop)]
pub struct Labels {
    pub made: List<Label>,
    pub latest: List<usize>,
}

/// Whether a relaxation changed nothing, made a label, or made one as deep as there are nodes.
#[derive(Clone, Copy, Drop)]
pub enum Relaxed {
    Kept,
    Made,
    Deep,
}

/// Makes a label, which is then its node's latest.
fn put(labels: &mut Labels, label: Label) -> Result<(), AllocError>
    requires { label.node < length labels.old.latest }
    ensures ok { OnOk result (labels.new ≡ with_label labels.old label) }
    ensures err { OnErr result (labels.new ≡ labels.old) }
{
    let number = labels.made.len();
    labels.made.push(label)?;
    labels.latest.set(label.node, number);
    Ok(())
}

/// The label that a node has now.
pub fn latest_label(labels: &Labels, nodes: usize, node: usize) -> Label
    requires latest { AreLatest nodes labels.now }
    requires node { node < nodes }
    ensures { result ≡ now_at labels.now node }
{
    let number = labels.latest.as_slice()[node];
    labels.made.as_slice()[number]
}

/// The sum, where it is less than the old value.
pub fn lowered(old: i128, start: i128, bound: i128) -> Option<i128>
    requires { FitsSigned w128 (start +ℤ bound) }
    ensures lower { IfSome result (λ value. (value ≡ start +ℤ bound) × (value <ℤ old)) }
    ensures none { IfNone result (old ≤ℤ (start +ℤ bound)) }
{
    let value = start + bound;
    if value < old { Some(value) } else { None }
}

/// The label that the edge gives its `to`, where the edge does not hold.
fn next_label(labels: &Labels, nodes: usize, edges: &[Edge], at: usize) -> Option<Label>
    requires nodes { nodes ≤ 200001 }
    requires at { at < length edges.now }
    requires edges { EdgesFit nodes edges.now }
    requires labels { AreLabels edges.now nodes labels.now.made }
    requires latest { AreLatest nodes labels.now }
    requires shallow { AreShallow nodes labels.now.made }
    ensures next { IfSome result (λ label. IsNext edges.now labels.now at label) }
    ensures holds { IfNone result (Holds edges.now labels.now at) }
{
    let edge = edges[at];
    let start = latest_label(labels, nodes, edge.from);
    let old = latest_label(labels, nodes, edge.to);
    let value = lowered(old.value, start.value, edge.bound)?;
    Some(Label {
        node: edge.to,
        value,
        depth: start.depth + 1,
        prev: labels.latest.as_slice()[edge.from],
        edge: at,
    })
}

/// Gives `to` of the edge a new label where the edge does not hold.
pub fn relax(
    labels: &mut Labels,
    nodes: usize,
    edges: &[Edge],
    at: usize,
) -> Result<Relaxed, AllocError>
    requires nodes { nodes ≤ 200001 }
    requires at { at < length edges.now }
    requires edges { EdgesFit nodes edges.now }
    requires labels { AreLabels edges.now nodes labels.old.made }
    requires latest { AreLatest nodes labels.old }
    requires shallow { AreShallow nodes labels.old.made }
    ensures labels { OnOk result (AreLabels edges.now nodes labels.new.made) }
    ensures latest { OnOk result (AreLatest nodes labels.new) }
    ensures turn { IfOk result (λ relaxed. Turn edges.now nodes labels.old labels.new at relaxed) }
{
    match next_label(labels, nodes, edges, at) {
        None => Ok(Relaxed::Kept),
        Some(label) => {
            put(labels, label)?;
            if label.depth < nodes {
                Ok(Relaxed::Made)
            } else {
                Ok(Relaxed::Deep)
            }
        }
    }
}

/// What a round over all edges found.
#[derive(Clone, Copy, Drop)]
pub enum Round {
    Settled,
    Changed,
    Deep,
}

/// A label for each node, of the value 0.
pub fn roots(alloc: Global, nodes: usize) -> Result<Labels, AllocError>
    ensures { IfOk result (λ labels. AreRoots nodes labels) }
{
    let mut made = List::new(alloc);
    let mut latest = List::new(alloc);
    for node in 0..nodes {
        made.push(Label {
            node,
            value: 0,
            depth: 0,
            prev: 0,
            edge: 0,
        })?;
        latest.push(node)?;
    }
    Ok(Labels { made, latest })
}

/// The edge of a turn: edges in order, or from the last to the first.
fn edge_of_turn(edges: usize, backward: bool, turn: usize) -> usize
    requires { turn < edges }
    ensures within { result < edges }
    ensures turn { result ≡ turn_at edges backward turn }
{
    if backward { edges - 1 - turn } else { turn }
}

/// Relaxes each edge once: in rounds of an odd depth from the last edge to the first.
pub fn relax_all(
    labels: &mut Labels,
    nodes: usize,
    edges: &[Edge],
    depth: usize,
) -> Result<Round, AllocError>
    requires nodes { nodes ≤ 200001 }
    requires edges { EdgesFit nodes edges.now }
    requires before { IsRound edges.now nodes labels.old false 0 depth false }
    ensures labels { OnOk result (AreLabels edges.now nodes labels.new.made) }
    ensures latest { OnOk result (AreLatest nodes labels.new) }
    ensures found { IfOk result (λ found. Found edges.now nodes labels.new depth found) }
{
    let backward = depth % 2 == 1;
    let mut changed = false;
    for turn in 0..edges.len() {
        let at = edge_of_turn(edges.len(), backward, turn);
        match relax(labels, nodes, edges, at)? {
            Relaxed::Kept => {}
            Relaxed::Made => changed = true,
            Relaxed::Deep => return Ok(Round::Deep),
        }
    }
    if changed {
        Ok(Round::Changed)
    } else {
        Ok(Round::Settled)
    }
}
