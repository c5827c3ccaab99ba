//! Linked edges with values that keep all of them, to which an edge is added.
ghost use Rattle.std.specs.Prelude.{◌≡◌, ◌≤◌, ◌<◌, ◌+◌, ◌++◌, ◌∷◌, [], ◌⊎◌, ◌^◌, ◌+ℤ◌, ◌≤ℤ◌, pos, IfOk, OnOk, OnErr, length, Bool};
ghost use Rattle.hp_diff.specs.inner.Labels.{EdgeFits, EdgesFit};
ghost use Rattle.hp_diff.specs.inner.RowEdges.{edge_of, row_edges, ShowsIfAny};
ghost use Rattle.hp_diff.specs.inner.State.{EndsWith, IsAdded, IsCutBack, IsDecided, IsEmpty, IsReady, IsRowOff, IsState, IsStill, IsZeros, AreZero};

use crate::answer::steps_of;
use crate::edges::Edge;
use crate::net::{Net, cut, link};
use crate::outcome::{Settled, settle};
use crate::repair::{Turn, Work, copy_all, copy_queued, repair};
use crate::row_edges::edge_of;
use crate::walk::closed_walk;
use hp_lit::{IdxLit, Step};
use hp_num::List;
use std::alloc::{AllocError, Global};

/// Linked edges, values that keep all of them, and what repairs work with.
#[derive(Drop)]
pub struct State {
    pub net: Net,
    pub values: List<i128>,
    pub work: Work,
}

/// Decides all edges anew, without the values so far.
fn decide_anew(
    alloc: Global,
    state: &mut State,
    nodes: usize,
) -> Result<Option<List<Step>>, AllocError>
    requires nodes { nodes ≤ 200001 }
    requires ready { IsReady nodes state.old }
    ensures ok { IfOk result (λ found. IsDecided nodes state.old state.new found) }
    ensures err { OnErr result (IsStill nodes state.old state.new) }
{
    match settle(alloc, nodes, state.net.edges.as_slice())? {
        Settled::Values(values) => {
            copy_all(nodes, &values, &mut state.values);
            copy_all(nodes, &values, &mut state.work.draft);
            Ok(None)
        }
        Settled::Cycle(cycle) => {
            let steps = steps_of(alloc, state.net.edges.as_slice(), &cycle)?;
            Ok(Some(steps))
        }
    }
}

/// The steps of the cycle over an edge that leads back, if there is one to be seen.
fn shown_steps(
    alloc: Global,
    state: &State,
    nodes: usize,
    back: Option<usize>,
) -> Result<Option<List<Step>>, AllocError>
    requires nodes { nodes ≤ 200001 }
    requires fit { EdgesFit nodes state.now.net.edges }
    requires parent { length state.now.work.parent ≡ nodes }
    ensures { IfOk result (λ found. ShowsIfAny state.now.net.edges found) }
{
    let edges = state.net.edges.as_slice();
    let Some(back) = back else {
        return Ok(None);
    };
    match closed_walk(alloc, edges, state.work.parent.as_slice(), nodes, back)? {
        None => Ok(None),
        Some(cycle) => {
            let steps = steps_of(alloc, edges, &cycle)?;
            Ok(Some(steps))
        }
    }
}

/// Decides all edges, where the values keep all but the last.
fn decide_last(
    alloc: Global,
    state: &mut State,
    nodes: usize,
    source: usize,
) -> Result<Option<List<Step>>, AllocError>
    requires nodes { nodes ≤ 200001 }
    requires ready { IsReady nodes state.old }
    ensures ok { IfOk result (λ found. IsDecided nodes state.old state.new found) }
    ensures err { OnErr result (IsStill nodes state.old state.new) }
{
    let last = state.net.edges.len() - 1;
    match repair(
        &state.net,
        &mut state.work,
        nodes,
        last,
        source,
        &state.values,
    ) {
        Turn::Go(tail) => {
            let queue = state.work.queue.as_slice();
            let draft = state.work.draft.as_slice();
            copy_queued(queue, tail, nodes, draft, &mut state.values);
            Ok(None)
        }
        Turn::Stop(tail, back) => {
            let queue = state.work.queue.as_slice();
            let values = state.values.as_slice();
            copy_queued(queue, tail, nodes, values, &mut state.work.draft);
            match shown_steps(alloc, state, nodes, back)? {
                Some(steps) => Ok(Some(steps)),
                None => decide_anew(alloc, state, nodes),
            }
        }
    }
}

/// Adds an edge, unless there is a cycle with it. Where there is, and at `Err`, the edges are as before.
fn add_edge(
    alloc: Global,
    state: &mut State,
    nodes: usize,
    edge: Edge,
) -> Result<Option<List<Step>>, AllocError>
    requires nodes { nodes ≤ 200001 }
    requires fit { EdgeFits nodes edge }
    requires state { IsState nodes state.old }
    ensures ok { IfOk result (λ found. IsAdded nodes state.old state.new (edge ∷ []) found) }
    ensures err { OnErr result (IsAdded nodes state.old state.new [] None) }
{
    link(&mut state.net, nodes, edge)?;
    match decide_last(alloc, state, nodes, edge.from) {
        Ok(None) => Ok(None),
        Ok(Some(steps)) => {
            cut(&mut state.net, nodes);
            Ok(Some(steps))
        }
        Err(error) => {
            cut(&mut state.net, nodes);
            Err(error)
        }
    }
}

/// Takes the last edge off.
fn drop_edge(state: &mut State, nodes: usize)
    requires state { IsState nodes state.old }
    requires some { 0 < length state.old.net.edges }
    ensures { IsCutBack nodes state.old state.new }
{
    cut(&mut state.net, nodes);
}

/// Takes the edges of a row off.
pub fn drop_row(state: &mut State, nodes: usize, row: &IdxLit)
    requires state { IsState nodes state.old }
    requires last { EndsWith state.old.net.edges row.now }
    ensures { IsRowOff nodes state.old state.new row.now }
{
    if row.exact {
        drop_edge(state, nodes);
        drop_edge(state, nodes);
    } else {
        drop_edge(state, nodes);
    }
}

/// Adds the edges of a row with its number, unless there is a cycle with them. Where there is, and at `Err`, the edges are
/// as before.
pub fn add_row(
    alloc: Global,
    state: &mut State,
    nodes: usize,
    row: &IdxLit,
    lit: u32,
) -> Result<Option<List<Step>>, AllocError>
    requires nodes { nodes ≤ 200001 }
    requires low { pos 0 ≤ℤ (row.now.bound +ℤ pos (10 ^ 32)) }
    requires fit { (forward : Bool) → EdgeFits nodes (edge_of lit row.now forward) }
    requires state { IsState nodes state.old }
    ensures ok { IfOk result (λ found. IsAdded nodes state.old state.new (row_edges lit row.now) found) }
    ensures err { OnErr result (IsAdded nodes state.old state.new [] None) }
{
    if let Some(steps) = add_edge(alloc, state, nodes, edge_of(row, lit, true))? {
        return Ok(Some(steps));
    }
    if row.exact {
        match add_edge(alloc, state, nodes, edge_of(row, lit, false)) {
            Ok(None) => Ok(None),
            Ok(Some(steps)) => {
                drop_edge(state, nodes);
                Ok(Some(steps))
            }
            Err(error) => {
                drop_edge(state, nodes);
                Err(error)
            }
        }
    } else {
        Ok(None)
    }
}

/// A list of so many zeros.
fn zeros(alloc: Global, count: usize) -> Result<List<usize>, AllocError>
    ensures { IfOk result (λ list. IsZeros count list) }
{
    let mut list = List::new(alloc);
    for _done in 0..count {
        list.push(0)?;
    }
    Ok(list)
}

/// A value of 0 for each node.
fn zero_values(alloc: Global, count: usize) -> Result<List<i128>, AllocError>
    ensures { IfOk result (λ list. AreZero count list) }
{
    let mut list = List::new(alloc);
    for _done in 0..count {
        list.push(0)?;
    }
    Ok(list)
}

/// No edges, and no room for values.
pub fn empty(alloc: Global) -> State
    ensures { IsEmpty result }
{
    State {
        net: Net {
            edges: List::new(alloc),
            next: List::new(alloc),
            first: List::new(alloc),
        },
        values: List::new(alloc),
        work: Work {
            draft: List::new(alloc),
            queue: List::new(alloc),
            place: List::new(alloc),
            parent: List::new(alloc),
        },
    }
}

/// No edges, and a value of 0 for each node.
fn built(alloc: Global, nodes: usize) -> Result<State, AllocError>
    requires { nodes ≤ 200001 }
    ensures { IfOk result (λ state. IsState nodes state × (state.net.edges ≡ [])) }
{
    Ok(State {
        net: Net {
            edges: List::new(alloc),
            next: List::new(alloc),
            first: zeros(alloc, nodes)?,
        },
        values: zero_values(alloc, nodes)?,
        work: Work {
            draft: zero_values(alloc, nodes)?,
            queue: zeros(alloc, 8 * nodes)?,
            place: zeros(alloc, nodes)?,
            parent: zeros(alloc, nodes)?,
        },
    })
}

/// Makes room for the nodes, if there is none yet. `Err` says that memory was wanting, and leaves all as it was.
pub fn make_room(alloc: Global, state: &mut State, nodes: usize) -> Result<(), AllocError>
    requires nodes { nodes ≤ 200001 }
    requires some { 0 < nodes }
    requires state { IsState nodes state.old ⊎ IsEmpty state.old }
    ensures ok { OnOk result (IsState nodes state.new) }
    ensures edges { OnOk result (state.new.net.edges ≡ state.old.net.edges) }
    ensures err { OnErr result (state.new ≡ state.old) }
{
    if state.values.len() == 0 {
        *state = built(alloc, nodes)?;
    }
    Ok(())
}
