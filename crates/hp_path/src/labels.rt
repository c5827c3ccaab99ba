//! Labels of names: names that literals tie together, directly or through others, have one label.
ghost use Rattle.std.specs.Prelude.{◌≡◌, ◌<◌, ◌≤◌, IfOk, length, map};
ghost use Rattle.std.specs.List.{All, Contains};
ghost use Rattle.hp_lit.specs.Fit.{IsNumOver};
ghost use Rattle.hp_path.specs.Components.{AreLabels, AreNamesOf, IsCoarser, IsOneLabel, first_label, merged};

use hp_lit::{NumLit, Part};
use hp_num::List;
use hp_tree::Sort;
use std::alloc::{AllocError, Global};

/// The label of the first name of these summands, and 0 where there is none.
pub fn first_label(labels: &List<usize>, parts: &[Part]) -> usize
    requires { AreNamesOf labels.now parts.now }
    ensures { result ≡ first_label labels.now parts.now }
{
    match parts.first() {
        None => 0,
        Some(part) => *labels.get(part.name.0 as usize),
    }
}

/// A label of its own for each of `count` names.
fn own_labels(alloc: Global, count: usize) -> Result<List<usize>, AllocError>
    ensures count { IfOk result (λ labels. length labels ≡ count) }
    ensures below { IfOk result (λ labels. All (λ label. label < count) labels) }
{
    let mut labels = List::new(alloc);
    for at in 0..count {
        labels.push(at)?;
    }
    Ok(labels)
}

/// Gives the names of one label another one.
fn merge(labels: &mut List<usize>, kept: usize, gone: usize)
    ensures { labels.new ≡ map (merged kept gone) labels.old }
{
    for at in 0..labels.len() {
        if *labels.get(at) == gone {
            labels.set(at, kept);
        }
    }
}

/// Gives the names of these summands one label.
fn join(labels: &mut List<usize>, parts: &[Part])
    requires names { AreNamesOf labels.old parts.now }
    ensures coarser { IsCoarser labels.old labels.new }
    ensures one { IsOneLabel labels.new parts.now }
{
    for part in parts {
        let kept = first_label(labels, parts);
        let gone = *labels.get(part.name.0 as usize);
        if kept != gone {
            merge(labels, kept, gone);
        }
    }
}

/// A label for each name: where a literal has two names, they have one label.
pub fn labels_of(alloc: Global, sorts: &[Sort], nums: &[NumLit]) -> Result<List<usize>, AllocError>
    requires { All (IsNumOver sorts.now) nums.now }
    ensures { IfOk result (λ labels. AreLabels labels nums.now) }
{
    let mut labels = own_labels(alloc, sorts.len())?;
    for lit in nums {
        join(&mut labels, lit.parts.as_slice());
    }
    Ok(labels)
}
