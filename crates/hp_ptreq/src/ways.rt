//! A way between two nodes of one class over the equalities that made it. A search goes from the way's end over all of
//! them, again and again, until its start is met; there are fewer of them than nodes.
ghost use Rattle.std.specs.Prelude.{◌≡◌, ◌≤◌, ◌<◌, ◌+◌, IfOk, OnOk, length};
ghost use Rattle.std.specs.List.{All};
ghost use Rattle.hp_ptreq.specs.inner.Classes.{AreJoined};
ghost use Rattle.hp_ptreq.specs.inner.Ways.{AreMet, IsHop, IsWithin, MeetsOne, Spreads, Steps, Way, mark_at, met_at};

use crate::classes::Join;
use hp_num::List;
use std::alloc::{AllocError, Global};

/// A node that was met over an equality with that row's number, from the node of an earlier meeting. Meetings count
/// from 0, and the first is where the search began.
#[derive(Clone, Copy, Drop)]
pub struct Met {
    pub node: usize,
    pub lit: u32,
    pub from: usize,
}

/// All meetings in order, and for each node one more than the number of its meeting, or 0.
#[derive(Drop)]
pub struct Search {
    pub marks: List<usize>,
    pub met: List<Met>,
}

/// A search that has met the node where it begins.
fn begin(alloc: Global, nodes: usize, joins: &[Join], start: usize) -> Result<Search, AllocError>
    requires { start < nodes }
    ensures { IfOk result (λ search. AreMet joins.now nodes start search) }
{
    let mut marks = List::from_vec(vec![in alloc; 0usize; nodes]?);
    marks.set(start, 1);
    let mut met = List::new(alloc);
    met.push(Met {
        node: start,
        lit: 0,
        from: 0,
    })?;
    Ok(Search { marks, met })
}

/// The mark of a node.
fn mark_of(search: &Search, joins: &[Join], nodes: usize, start: usize, node: usize) -> usize
    requires met { AreMet joins.now nodes start search.now }
    requires node { node < nodes }
    ensures { result ≡ mark_at search.now node }
{
    search.marks.as_slice()[node]
}

/// Meets a node over an equality from the node of an earlier meeting.
fn meet(
    search: &mut Search,
    joins: &[Join],
    nodes: usize,
    start: usize,
    met: Met,
) -> Result<(), AllocError>
    requires met { AreMet joins.now nodes start search.old }
    requires node { met.node < nodes }
    requires new { mark_at search.old met.node ≡ 0 }
    requires from { met.from < length search.old.met }
    requires hop { IsHop joins.now met.lit met.node (met_at search.old.met met.from).node }
    ensures { OnOk result (MeetsOne joins.now nodes start search.old search.new) }
{
    search.met.push(met)?;
    let mark = search.met.len();
    search.marks.set(met.node, mark);
    Ok(())
}

/// Goes over an equality, where one of its nodes was met and the other was not.
fn go_over(
    search: &mut Search,
    joins: &[Join],
    nodes: usize,
    start: usize,
    at: usize,
) -> Result<(), AllocError>
    requires met { AreMet joins.now nodes start search.old }
    requires within { All (IsWithin nodes) joins.now }
    requires at { at < length joins.now }
    ensures met { OnOk result (AreMet joins.now nodes start search.new) }
    ensures steps { OnOk result (Steps joins.now search.old search.new at) }
{
    let link = joins[at];
    let left = mark_of(search, joins, nodes, start, link.left);
    let right = mark_of(search, joins, nodes, start, link.right);
    if left == 0 && right > 0 {
        let met = Met {
            node: link.left,
            lit: link.lit,
            from: right - 1,
        };
        meet(search, joins, nodes, start, met)?;
    } else if left > 0 && right == 0 {
        let met = Met {
            node: link.right,
            lit: link.lit,
            from: left - 1,
        };
        meet(search, joins, nodes, start, met)?;
    }
    Ok(())
}

/// Goes over each equality once.
fn spread(search: &mut Search, joins: &[Join], nodes: usize, start: usize) -> Result<(), AllocError>
    requires met { AreMet joins.now nodes start search.old }
    requires within { All (IsWithin nodes) joins.now }
    ensures met { OnOk result (AreMet joins.now nodes start search.new) }
    ensures spreads { OnOk result (Spreads joins.now search.old search.new (length joins.now)) }
{
    for at in 0..joins.len() {
        go_over(search, joins, nodes, start, at)?;
    }
    Ok(())
}

/// The rows from the node of a meeting to the node where the search began.
fn way_back(
    alloc: Global,
    search: &Search,
    joins: &[Join],
    nodes: usize,
    start: usize,
    number: usize,
) -> Result<List<u32>, AllocError>
    requires met { AreMet joins.now nodes start search.now }
    requires number { number < length search.now.met }
    ensures { IfOk result (λ way. Way joins.now (met_at search.now.met number).node way start) }
{
    let mut way = List::new(alloc);
    let mut current = number;
    'back: while current > 0 {
        let met = search.met.as_slice()[current];
        way.push(met.lit)?;
        current = met.from;
    }
    Ok(way)
}

/// The numbers of the rows that lead from a node to another one of its class.
pub fn way_between(
    alloc: Global,
    joins: &[Join],
    nodes: usize,
    left: usize,
    right: usize,
) -> Result<List<u32>, AllocError>
    requires within { All (IsWithin nodes) joins.now }
    requires left { left < nodes }
    requires right { right < nodes }
    requires joined { AreJoined joins.now left right }
    ensures { IfOk result (λ way. Way joins.now left way right) }
{
    let mut search = begin(alloc, nodes, joins, right)?;
    'spread: loop {
        let mark = mark_of(&search, joins, nodes, right, left);
        if mark > 0 {
            return way_back(alloc, &search, joins, nodes, right, mark - 1);
        }
        spread(&mut search, joins, nodes, right)?;
    }
}
