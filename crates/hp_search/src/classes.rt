//! Names that known equalities join: classes with the distance between each two of their members, and the equalities that
//! a distance comes from.
//!
//! Nothing is proved of them: what they lead to is tested, a leaf by the check of leaves and values at each literal.
use crate::gaps::{Gap, Order, link_of};
use hp_lit::Lit;
use hp_num::List;
use std::alloc::{AllocError, Global};

/// A node of a class.
#[derive(Clone, Copy)]
struct Member {
    /// The node that names the class.
    label: usize,
    /// The value of this node less that of the class's label.
    distance: i128,
    /// The next member of the class, in a ring.
    next: usize,
    /// How many members the class has, where this is its label.
    count: usize,
    /// The node that an equality joins this one with, on the way to the root of its tree; a root has itself.
    above: usize,
    /// The number of that equality.
    by: u32,
    /// Whether this node is the left one of that equality.
    is_left: bool,
}

/// The classes of all nodes.
#[derive(Drop)]
pub struct Classes {
    members: List<Member>,
}

/// One equality of a way, from its left node to its right one where forward.
#[derive(Clone, Copy)]
pub struct Hop {
    pub by: u32,
    pub forward: bool,
}

/// What classes make of a literal.
#[derive(Clone, Copy)]
pub enum Standing {
    True,
    False,
    Open,
}

/// A class of this node alone.
fn alone(at: usize) -> Member {
    Member {
        label: at,
        distance: 0,
        next: at,
        count: 1,
        above: at,
        by: 0,
        is_left: false,
    }
}

/// The member at a node.
fn at_node(classes: &Classes, at: usize) -> Member {
    match classes.members.as_slice().get(at) {
        Some(found) => *found,
        None => alone(at),
    }
}

/// Puts a member in the place of a node.
fn put(classes: &mut Classes, at: usize, found: Member) {
    if at < classes.members.len() {
        classes.members.set(at, found);
    }
}

/// Each of the nodes of so many names alone.
fn apart(alloc: Global, names: usize) -> Result<Classes, AllocError> {
    let mut members = List::new(alloc);
    members.push(alone(0))?;
    for at in 0..names {
        members.push(alone(at.saturating_add(1)))?;
    }
    Ok(Classes { members })
}

/// The node that names the class of a node.
pub fn label_of(classes: &Classes, at: usize) -> usize {
    at_node(classes, at).label
}

/// The value of a node less that of its class's label.
pub fn distance_of(classes: &Classes, at: usize) -> i128 {
    at_node(classes, at).distance
}

/// The value of the left node less that of the right one, where they are of one class.
pub fn difference(classes: &Classes, gap: Gap) -> Option<i128> {
    let left = at_node(classes, gap.left);
    let right = at_node(classes, gap.right);
    if left.label == right.label {
        Some(left.distance.saturating_sub(right.distance))
    } else {
        None
    }
}

/// Whether a difference stands to the bound as the order says.
fn meets(difference: i128, order: Order, bound: i128) -> Standing {
    let met = match order {
        Order::Less => difference < bound,
        Order::AtMost => difference <= bound,
        Order::Same => difference == bound,
        Order::Apart => difference != bound,
    };
    if met { Standing::True } else { Standing::False }
}

/// What classes make of a difference.
pub fn judge(classes: &Classes, gap: Gap) -> Standing {
    match difference(classes, gap) {
        Some(difference) => meets(difference, gap.order, gap.bound),
        None => Standing::Open,
    }
}

/// Makes a node the root of its tree of equalities.
fn reroot(classes: &mut Classes, node: usize) {
    let mut at = node;
    let mut above = node;
    let mut by = 0;
    let mut is_left = false;
    for _ in 0..classes.members.len() {
        let found = at_node(classes, at);
        let mut turned = found;
        turned.above = above;
        turned.by = by;
        turned.is_left = is_left;
        put(classes, at, turned);
        if found.above == at {
            return;
        }
        by = found.by;
        is_left = !found.is_left;
        above = at;
        at = found.above;
    }
}

/// Gives so many members of the ring, from a node on, another label, whose distance from the old one is added.
fn relabel(classes: &mut Classes, node: usize, count: usize, label: usize, distance: i128) {
    let mut at = node;
    for _ in 0..count {
        let mut found = at_node(classes, at);
        found.label = label;
        found.distance = found.distance.saturating_add(distance);
        put(classes, at, found);
        at = found.next;
    }
}

/// Joins the ring of one node with that of another.
fn splice(classes: &mut Classes, one: usize, other: usize) {
    let mut first = at_node(classes, one);
    let mut second = at_node(classes, other);
    let next = first.next;
    first.next = second.next;
    second.next = next;
    put(classes, one, first);
    put(classes, other, second);
}

/// Moves the class of a node to that of another by an equality between the two. The distance is that of the labels.
fn attach(
    classes: &mut Classes,
    moved: usize,
    kept: usize,
    distance: i128,
    by: u32,
    is_left: bool,
) {
    let old = at_node(classes, moved).label;
    let label = at_node(classes, kept).label;
    let count = at_node(classes, old).count;
    reroot(classes, moved);
    let mut root = at_node(classes, moved);
    root.above = kept;
    root.by = by;
    root.is_left = is_left;
    put(classes, moved, root);
    relabel(classes, moved, count, label, distance);
    splice(classes, moved, kept);
    let mut named = at_node(classes, label);
    named.count = named.count.saturating_add(count);
    put(classes, label, named);
}

/// Joins the classes of the nodes of an equality of this number, where they are two.
pub fn join(classes: &mut Classes, link: Gap, by: u32) {
    let left = at_node(classes, link.left);
    let right = at_node(classes, link.right);
    if left.label == right.label {
        return;
    }
    let distance = right
        .distance
        .saturating_add(link.bound)
        .saturating_sub(left.distance);
    if at_node(classes, left.label).count < at_node(classes, right.label).count {
        attach(classes, link.left, link.right, distance, by, true);
    } else {
        attach(
            classes,
            link.right,
            link.left,
            0i128.saturating_sub(distance),
            by,
            false,
        );
    }
}

/// The classes of so many names by the equalities among literals, whose numbers count from 1.
pub fn classes_of(alloc: Global, names: usize, lits: &[Lit]) -> Result<Classes, AllocError> {
    let mut classes = apart(alloc, names)?;
    let mut number = 0u32;
    for lit in lits {
        number = number.saturating_add(1);
        match link_of(lit) {
            Some(link) => join(&mut classes, link, number),
            None => {}
        }
    }
    Ok(classes)
}

/// For each node whether it is on the way from this one to the root of its tree.
fn marks_above(alloc: Global, classes: &Classes, node: usize) -> Result<List<bool>, AllocError> {
    let mut marks = List::new(alloc);
    for _ in 0..classes.members.len() {
        marks.push(false)?;
    }
    let mut at = node;
    for _ in 0..classes.members.len() {
        if at < marks.len() {
            marks.set(at, true);
        }
        let above = at_node(classes, at).above;
        if above == at {
            return Ok(marks);
        }
        at = above;
    }
    Ok(marks)
}

/// Appends the hops from one node up to another. `forward` is that of a hop whose lower node is the left one.
fn push_hops(
    classes: &Classes,
    node: usize,
    end: usize,
    forward: bool,
    hops: &mut List<Hop>,
) -> Result<(), AllocError> {
    let mut at = node;
    for _ in 0..classes.members.len() {
        if at == end {
            return Ok(());
        }
        let found = at_node(classes, at);
        hops.push(Hop {
            by: found.by,
            forward: found.is_left == forward,
        })?;
        at = found.above;
    }
    Ok(())
}

/// The first marked node on the way to the root.
fn first_marked(classes: &Classes, node: usize, marks: &[bool]) -> usize {
    let mut at = node;
    for _ in 0..classes.members.len() {
        match marks.get(at) {
            Some(true) => return at,
            _ => {}
        }
        at = at_node(classes, at).above;
    }
    at
}

/// The equalities that lead from one node to another of its class.
pub fn way(
    alloc: Global,
    classes: &Classes,
    from: usize,
    to: usize,
) -> Result<List<Hop>, AllocError> {
    let marks = marks_above(alloc, classes, from)?;
    let meeting = first_marked(classes, to, marks.as_slice());
    let mut hops = List::new(alloc);
    push_hops(classes, from, meeting, true, &mut hops)?;
    let mut others = List::new(alloc);
    push_hops(classes, to, meeting, false, &mut others)?;
    for _ in 0..others.len() {
        match others.pop() {
            Some(hop) => hops.push(hop)?,
            None => {}
        }
    }
    Ok(hops)
}
