//! Classes of nodes that equalities join, as trees: each node but a root has a lesser one as its parent, so that a root
//! is the least node of its class (Galler and Fischer, An improved equivalence algorithm, 1964). A way to a root is
//! halved whenever it is gone (Tarjan and van Leeuwen, Worst-case analysis of set union algorithms, 1984).
ghost use Rattle.std.specs.Prelude.{◌≡◌, ◌≤◌, ◌<◌, ◌+◌, IfOk, OnOk, length, true};
ghost use Rattle.std.specs.List.{All};
ghost use Rattle.std.specs.List.Sorted.{IsStrictlyIncreasing};
ghost use Rattle.hp_tree.specs.Limits.{most_rows};
ghost use Rattle.hp_ptreq.specs.inner.Nodes.{AreNodes};
ghost use Rattle.hp_nodes.specs.Nodes.{IsNamed};
ghost use Rattle.hp_ptreq.specs.inner.Classes.{AreApart, AreLabels, AreTrees, IsJoined, IsRootOf, label_at, parent_at};
ghost use Rattle.hp_ptreq.specs.inner.Built.{AreClasses};

use hp_lit::PtrLit;
use hp_nodes::node_of;
use hp_num::List;
use std::alloc::{AllocError, Global};

/// An equality between the names of two nodes, with the number of its row, counted from 1.
#[derive(Clone, Copy, Drop)]
pub struct Join {
    pub left: usize,
    pub right: usize,
    pub lit: u32,
}

/// The parent of each node, itself at a root, and the equalities that made one class of two.
#[derive(Drop)]
pub struct Classes {
    pub parents: List<usize>,
    pub joins: List<Join>,
}

/// Each node as a class of its own.
fn apart(alloc: Global, nodes: usize) -> Result<Classes, AllocError>
    ensures { IfOk result (λ classes. AreApart nodes classes) }
{
    let mut parents = List::new(alloc);
    for node in 0..nodes {
        parents.push(node)?;
    }
    Ok(Classes {
        parents,
        joins: List::new(alloc),
    })
}

/// The parent of a node.
fn parent_of(parents: &List<usize>, nodes: usize, node: usize) -> usize
    requires trees { AreTrees nodes parents.now }
    requires node { node < nodes }
    ensures { result ≡ parent_at parents.now node }
{
    parents.as_slice()[node]
}

/// The root of a node's class. Each second node on the way there takes its parent's parent as its own.
fn root_of(parents: &mut List<usize>, nodes: usize, node: usize) -> usize
    requires trees { AreTrees nodes parents.old }
    requires node { node < nodes }
    ensures trees { AreTrees nodes parents.new }
    ensures root { IsRootOf parents.old parents.new node result }
{
    let mut at = node;
    'up: loop {
        let parent = parent_of(parents, nodes, at);
        if parent == at {
            return at;
        }
        let next = parent_of(parents, nodes, parent);
        parents.set(at, next);
        at = next;
    }
}

/// Makes one class of those of an equality's nodes, unless they are one.
fn unite(classes: &mut Classes, nodes: usize, link: Join) -> Result<(), AllocError>
    requires trees { AreTrees nodes classes.old.parents }
    requires left { link.left < nodes }
    requires right { link.right < nodes }
    ensures { OnOk result (IsJoined nodes classes.old classes.new link) }
{
    let left = root_of(&mut classes.parents, nodes, link.left);
    let right = root_of(&mut classes.parents, nodes, link.right);
    if left < right {
        classes.joins.push(link)?;
        classes.parents.set(right, left);
    } else if right < left {
        classes.joins.push(link)?;
        classes.parents.set(left, right);
    }
    Ok(())
}

/// The equality of a row of that number.
fn join_of(names: &[u32], row: &PtrLit, lit: u32) -> Join
    requires rising { IsStrictlyIncreasing names.now }
    requires left { IsNamed names.now row.now.left }
    requires right { IsNamed names.now row.now.right }
    ensures nodes { AreNodes names.now row.now result.left result.right }
    ensures lit { result.lit ≡ lit }
{
    Join {
        left: node_of(names, row.left),
        right: node_of(names, row.right),
        lit,
    }
}

/// The classes that the equalities among the rows make of null and the names.
pub fn classes_of(alloc: Global, names: &[u32], rows: &[PtrLit]) -> Result<Classes, AllocError>
    requires few { length rows.now ≤ most_rows }
    requires rising { IsStrictlyIncreasing names.now }
    requires left { All (λ row. IsNamed names.now row.left) rows.now }
    requires right { All (λ row. IsNamed names.now row.right) rows.now }
    ensures { IfOk result (λ classes. AreClasses names.now rows.now (length rows.now) classes) }
{
    let nodes = names.len() + 1;
    let mut classes = apart(alloc, nodes)?;
    for at in 0..rows.len() {
        let row = rows[at];
        if row.same {
            unite(&mut classes, nodes, join_of(names, &row, at as u32 + 1))?;
        }
    }
    Ok(classes)
}

/// The label of a node after the first ones: its parent's, or itself where it is a root.
fn next_label(parents: &List<usize>, nodes: usize, labels: &List<usize>, node: usize) -> usize
    requires trees { AreTrees nodes parents.now }
    requires node { node < nodes }
    requires labels { AreLabels node parents.now labels.now }
    ensures root { parent_at parents.now node ≡ node → result ≡ node }
    ensures child { parent_at parents.now node < node → result ≡ label_at labels.now (parent_at parents.now node) }
{
    let parent = parent_of(parents, nodes, node);
    if parent < node {
        labels.as_slice()[parent]
    } else {
        node
    }
}

/// The label of each node, which is the least node of its class.
pub fn labels_of(
    alloc: Global,
    parents: &List<usize>,
    nodes: usize,
) -> Result<List<usize>, AllocError>
    requires { AreTrees nodes parents.now }
    ensures { IfOk result (λ labels. AreLabels nodes parents.now labels) }
{
    let mut labels = List::new(alloc);
    for node in 0..nodes {
        let label = next_label(parents, nodes, &labels, node);
        labels.push(label)?;
    }
    Ok(labels)
}
