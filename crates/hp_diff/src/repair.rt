//! The repair of values after an edge was added: nodes whose value falls wait in a queue, and each one's edges are seen
//! to when its turn comes (Cotton and Maler, Fast and flexible difference constraint propagation for DPLL(T), 2006). It
//! stops where it comes back to the start of the new edge, which shows a cycle, where a value would be too low, and where
//! the queue is full.
ghost use Rattle.std.specs.Prelude.{◌≡◌, ◌≤◌, ◌<◌, ◌+◌, ◌-◌, ◌^◌, pos, ◌+ℤ◌, ◌<ℤ◌, ◌≤ℤ◌, FitsSigned, IsTrue, IfSome, IfNone, length, false, slice_index, ◌⊎◌, ℕ};
ghost use Rattle.hp_diff.specs.inner.Labels.{edge_at, EdgesFit};
ghost use Rattle.hp_diff.specs.inner.Settled.{value_at};
ghost use Rattle.hp_diff.specs.inner.Net.{IsLinked};
ghost use Rattle.hp_diff.specs.inner.Repair.{Agrees, AreSame, AreWithin, Holds, InQueue, IsFallen, IsQueued, IsWork, Relaxes, Repairs, Turns};

use crate::edges::Edge;
use crate::labels::lowered;
use crate::net::Net;
use hp_num::List;

/// The least value of a node.
const FLOOR: i128 = -10_000_000_000_000_000_000_000_000_000_000_000_000;

/// What repairs work with: values in the making, a queue of nodes, the place that each node had last in the queue, and
/// the edge that lowered each node last. What the last two hold is looked at before it is used.
#[derive(Drop)]
pub struct Work {
    pub draft: List<i128>,
    pub queue: List<usize>,
    pub place: List<usize>,
    pub parent: List<usize>,
}

/// What the relaxation of an edge came to: the queue's new end, that the edge leads back to the start, or that the repair
/// can't go on.
#[derive(Clone, Copy, Drop)]
pub enum Relaxed {
    Go(usize),
    Back,
    Lost,
}

/// Where a repair stands: the queue's end, and where it has stopped, the edge that led back, if one did.
#[derive(Clone, Copy, Drop)]
pub enum Turn {
    Go(usize),
    Stop(usize, Option<usize>),
}

/// The value that the edge gives its end, where the edge does not hold.
fn fallen(edges: &[Edge], draft: &[i128], nodes: usize, at: usize) -> Option<i128>
    requires fit { EdgesFit nodes edges.now }
    requires at { at < length edges.now }
    requires draft { AreWithin nodes draft.now }
    ensures lower { IfSome result (λ value. IsFallen edges.now draft.now at value) }
    ensures holds { IfNone result (Holds edges.now draft.now at) }
{
    let edge = edges[at];
    lowered(draft[edge.to], draft[edge.from], edge.bound)
}

/// Whether a value is below the least one.
fn is_low(value: i128) -> bool
    ensures { result ≡ false → pos 0 ≤ℤ (value +ℤ pos (10 ^ 37)) }
{
    value < FLOOR
}

/// Whether the node waits in the queue.
fn waits(work: &Work, head: usize, tail: usize, node: usize) -> bool
    requires node { node < length work.now.place }
    requires tail { tail ≤ length work.now.queue }
    ensures { IsTrue result → InQueue work.now.queue head tail node }
{
    let at = work.place.as_slice()[node];
    head <= at && at < tail && work.queue.as_slice()[at] == node
}

/// Lets the node wait in the queue, and answers the queue's new end, or `None` where it is full.
fn enqueue(work: &mut Work, head: usize, tail: usize, node: usize) -> Option<usize>
    requires node { node < length work.old.place }
    requires tail { tail ≤ length work.old.queue }
    requires head { head ≤ tail }
    ensures queued { IfSome result (λ more. IsQueued work.old work.new head tail more node) }
    ensures full { IfNone result (work.new ≡ work.old) }
{
    if waits(work, head, tail, node) {
        return Some(tail);
    }
    if tail == work.queue.len() {
        return None;
    }
    work.queue.set(tail, node);
    work.place.set(node, tail);
    Some(tail + 1)
}

/// Lowers the end of the edge where the edge does not hold.
fn relax(
    edges: &[Edge],
    work: &mut Work,
    nodes: usize,
    head: usize,
    tail: usize,
    at: usize,
    source: usize,
) -> Relaxed
    requires fit { EdgesFit nodes edges.now }
    requires at { at < length edges.now }
    requires head { head ≤ tail }
    requires work { IsWork nodes work.old tail }
    ensures { Relaxes nodes edges.now work.old work.new head tail at result }
{
    let edge = edges[at];
    match fallen(edges, work.draft.as_slice(), nodes, at) {
        None => Relaxed::Go(tail),
        Some(value) => {
            if edge.to == source {
                return Relaxed::Back;
            }
            if is_low(value) {
                return Relaxed::Lost;
            }
            match enqueue(work, head, tail, edge.to) {
                None => Relaxed::Lost,
                Some(more) => {
                    work.draft.set(edge.to, value);
                    work.parent.set(edge.to, at);
                    Relaxed::Go(more)
                }
            }
        }
    }
}

/// Relaxes all edges from a node.
fn scan(
    net: &Net,
    work: &mut Work,
    nodes: usize,
    head: usize,
    tail: usize,
    node: usize,
    source: usize,
) -> Turn
    requires linked { IsLinked nodes net.now }
    requires fit { EdgesFit nodes net.now.edges }
    requires head { head ≤ tail }
    requires node { node < nodes }
    requires work { IsWork nodes work.old tail }
    ensures { Turns nodes net.now.edges work.old work.new head tail (λ k. (edge_at net.now.edges k).from ≡ node) result }
{
    let mut end = tail;
    let mut after = net.first.as_slice()[node];
    'edges: while after > 0 {
        let at = after - 1;
        match relax(net.edges.as_slice(), work, nodes, head, end, at, source) {
            Relaxed::Go(more) => end = more,
            Relaxed::Back => return Turn::Stop(end, Some(at)),
            Relaxed::Lost => return Turn::Stop(end, None),
        }
        after = net.next.as_slice()[at];
    }
    Turn::Go(end)
}

/// Repairs the draft, in which only the last edge may fail to hold.
pub fn repair(
    net: &Net,
    work: &mut Work,
    nodes: usize,
    last: usize,
    source: usize,
    values: &List<i128>,
) -> Turn
    requires linked { IsLinked nodes net.now }
    requires fit { EdgesFit nodes net.now.edges }
    requires last { length net.now.edges ≡ last + 1 }
    requires work { IsWork nodes work.old 0 }
    requires same { AreSame nodes work.old.draft values.now }
    requires holds { (k : ℕ) → k < last → Holds net.now.edges work.old.draft k }
    ensures { Repairs nodes net.now.edges values.now work.new result }
{
    let mut tail = match relax(net.edges.as_slice(), work, nodes, 0, 0, last, source) {
        Relaxed::Go(more) => more,
        Relaxed::Back => return Turn::Stop(0, Some(last)),
        Relaxed::Lost => return Turn::Stop(0, None),
    };
    let size = work.queue.len();
    for head in 0..size {
        if head == tail {
            return Turn::Go(tail);
        }
        let node = work.queue.as_slice()[head];
        match scan(net, work, nodes, head + 1, tail, node, source) {
            Turn::Go(more) => tail = more,
            Turn::Stop(more, back) => return Turn::Stop(more, back),
        }
    }
    Turn::Stop(tail, None)
}

/// Copies the values of the queue's nodes.
pub fn copy_queued(queue: &[usize], tail: usize, nodes: usize, from: &[i128], to: &mut List<i128>)
    requires tail { tail ≤ length queue.now }
    requires queued { (i : ℕ) → i < tail → slice_index queue.now i < nodes }
    requires from { length from.now ≡ nodes }
    requires to { length to.old ≡ nodes }
    requires agree { (x : ℕ) → x < nodes → (value_at to.old x ≡ value_at from.now x) ⊎ InQueue queue.now 0 tail x }
    ensures count { length to.new ≡ nodes }
    ensures same { AreSame nodes to.new from.now }
{
    for at in 0..tail {
        let node = queue[at];
        to.set(node, from[node]);
    }
}

/// Copies all values.
pub fn copy_all(nodes: usize, from: &[i128], to: &mut List<i128>)
    requires from { length from.now ≡ nodes }
    requires to { length to.old ≡ nodes }
    ensures count { length to.new ≡ nodes }
    ensures same { AreSame nodes to.new from.now }
{
    for node in 0..nodes {
        to.set(node, from[node]);
    }
}
