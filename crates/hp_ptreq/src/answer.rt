//! The decision over rows: names to nodes, equalities to classes, and what the inequalities say of the classes.
ghost use Rattle.std.specs.Prelude.{◌≡◌, ◌≤◌, ◌<◌, ◌+◌, pos, IfOk, IfSome, IfNone, length};
ghost use Rattle.std.specs.List.{All};
ghost use Rattle.std.specs.List.Sorted.{IsStrictlyIncreasing};
ghost use Rattle.hp_math.specs.Rational.{whole};
ghost use Rattle.hp_tree.specs.Limits.{most_rows};
ghost use Rattle.hp_nodes.specs.Nodes.{AreNamedValues, AreNames, IsNamed};
ghost use Rattle.hp_ptreq.specs.Rows.{IsPtrAnswer, mentioned};
ghost use Rattle.hp_ptreq.specs.inner.Built.{AreClasses, IsApart, IsClash};
ghost use Rattle.hp_ptreq.specs.inner.Classes.{AreLabels};
ghost use Rattle.hp_ptreq.specs.inner.Nodes.{label_value};

use crate::classes::{Classes, classes_of, labels_of};
use crate::ways::way_between;
use hp_lit::{Name, NameValue, PtrLit};
use hp_nodes::{distinct_names, node_of};
use hp_num::{Frac, List};
use std::alloc::{AllocError, Global};

/// Values of the names that make all rows true, or an inequality, and equalities that lead from its left to its right
/// name.
#[derive(Drop)]
pub enum PtrAnswer {
    Classes(List<NameValue>),
    Conflict { ne: u32, path: List<u32> },
}

/// An inequality between nodes of one class, by the place of its row, counted from 0.
#[derive(Clone, Copy, Drop)]
pub struct Clash {
    pub row: usize,
    pub left: usize,
    pub right: usize,
}

/// The first inequality between nodes of one label.
fn first_clash(names: &[u32], rows: &[PtrLit], labels: &[usize]) -> Option<Clash>
    requires rising { IsStrictlyIncreasing names.now }
    requires left { All (λ row. IsNamed names.now row.left) rows.now }
    requires right { All (λ row. IsNamed names.now row.right) rows.now }
    requires labels { length labels.now ≡ length names.now + 1 }
    ensures clash { IfSome result (λ clash. IsClash names.now rows.now labels.now clash) }
    ensures none { IfNone result (All (IsApart names.now labels.now) rows.now) }
{
    for at in 0..rows.len() {
        let row = rows[at];
        if !row.same {
            let left = node_of(names, row.left);
            let right = node_of(names, row.right);
            if labels[left] == labels[right] {
                return Some(Clash {
                    row: at,
                    left,
                    right,
                });
            }
        }
    }
    None
}

/// A whole number from 0 as a fraction.
fn whole_number(number: usize) -> Frac
    ensures { result ≡ whole (pos number) }
{
    Frac::new(number as i128, 1)
}

/// The labels of the nodes as values of the names.
fn named_values(
    alloc: Global,
    names: &[u32],
    labels: &[usize],
) -> Result<List<NameValue>, AllocError>
    requires { length labels.now ≡ length names.now + 1 }
    ensures { IfOk result (λ named. AreNamedValues names.now (label_value labels.now) named) }
{
    let mut named = List::new(alloc);
    for (at, name) in names.iter().enumerate() {
        named.push(NameValue {
            name: Name(*name),
            value: whole_number(labels[at + 1]),
        })?;
    }
    Ok(named)
}

/// What the classes and labels of the nodes say of the rows.
fn answer_of(
    alloc: Global,
    rows: &[PtrLit],
    names: &[u32],
    classes: &Classes,
    labels: &[usize],
) -> Result<PtrAnswer, AllocError>
    requires few { length rows.now ≤ most_rows }
    requires names { AreNames (mentioned rows.now) names.now }
    requires classes { AreClasses names.now rows.now (length rows.now) classes.now }
    requires labels { AreLabels (length names.now + 1) classes.now.parents labels.now }
    ensures { IfOk result (λ answer. IsPtrAnswer rows.now answer) }
{
    match first_clash(names, rows, labels) {
        Some(clash) => {
            let joins = classes.joins.as_slice();
            let nodes = names.len() + 1;
            let path = way_between(alloc, joins, nodes, clash.left, clash.right)?;
            Ok(PtrAnswer::Conflict {
                ne: clash.row as u32 + 1,
                path,
            })
        }
        None => {
            let named = named_values(alloc, names, labels)?;
            Ok(PtrAnswer::Classes(named))
        }
    }
}

/// Whether values of the names make all rows true, where null is 0.
///
/// `Classes` has one value for each name that the rows mention, in rising order of names: whole numbers from 0. `Conflict`
/// has an inequality `ne` and equalities that lead from its left to its right name, each taken in either direction, as
/// numbers of rows, which count from 1; the path is empty where both sides are one name, or both null. `Err` says that
/// memory was wanting. Nothing else can be answered, and every call returns. It asks for at most 100,000 rows.
///
/// Equalities make classes in nearly linear time. Where an inequality stands within a class, a path takes at worst as
/// many turns as there are names, each over the equalities that made one class of two, which are fewer than the names.
pub fn decide(alloc: Global, rows: &[PtrLit]) -> Result<PtrAnswer, AllocError>
    requires few { length rows.now ≤ most_rows }
    ensures { IfOk result (λ answer. IsPtrAnswer rows.now answer) }
{
    let names = distinct_names(alloc, rows)?;
    let classes = classes_of(alloc, &names, rows)?;
    let labels = labels_of(alloc, &classes.parents, names.len() + 1)?;
    answer_of(alloc, rows, &names, &classes, labels.as_slice())
}
