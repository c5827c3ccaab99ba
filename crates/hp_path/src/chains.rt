//! Labels of names with the literals of each label in their order, found without going over those of other labels.
ghost use Rattle.std.specs.Prelude.{◌≡◌, ◌+◌, ◌<◌, IfOk, length, replicate, slice_index, slice_set};
ghost use Rattle.std.specs.List.{All};
ghost use Rattle.hp_lit.specs.Fit.{IsNumOver};
ghost use Rattle.hp_path.specs.Components.{AreLabels};
ghost use Rattle.hp_path.specs.inner.Chains.{AreChained, AreLabelled};

use crate::labels::{first_label, labels_of};
use hp_lit::NumLit;
use hp_num::List;
use hp_tree::Sort;
use std::alloc::{AllocError, Global};

/// For each label the first literal that has it, and for each literal the next one of its label, both counted from 0; the
/// count of literals where there is none.
#[derive(Drop)]
pub struct Chains {
    pub firsts: List<usize>,
    pub nexts: List<usize>,
}

/// A label for each name, and the chains of the literals that have one label.
#[derive(Drop)]
pub struct Labelled {
    pub labels: List<usize>,
    pub chains: Chains,
}

/// One more than `last` times this number.
fn filled(alloc: Global, last: usize, number: usize) -> Result<List<usize>, AllocError>
    ensures { IfOk result (λ numbers. numbers ≡ replicate (last + 1) number) }
{
    let mut numbers = List::new(alloc);
    for _at in 0..last {
        numbers.push(number)?;
    }
    numbers.push(number)?;
    Ok(numbers)
}

/// Puts a literal before the first one of its label.
fn put_before(chains: &mut Chains, label: usize, at: usize)
    requires label { label < length chains.old.firsts }
    requires at { at < length chains.old.nexts }
    ensures { chains.new ≡ record { firsts = slice_set chains.old.firsts label at; nexts = slice_set chains.old.nexts at (slice_index chains.old.firsts label) } }
{
    let next = chains.firsts.as_slice()[label];
    chains.nexts.set(at, next);
    chains.firsts.set(label, at);
}

/// The first literal of each label, and the next one of each literal's label.
fn chains_of(alloc: Global, labels: &List<usize>, nums: &[NumLit]) -> Result<Chains, AllocError>
    requires { AreLabels labels.now nums.now }
    ensures { IfOk result (AreChained labels.now nums.now 0) }
{
    let count = nums.len();
    let mut chains = Chains {
        firsts: filled(alloc, labels.len(), count)?,
        nexts: filled(alloc, count, count)?,
    };
    for done in 0..count {
        let at = count - 1 - done;
        let label = first_label(labels, nums[at].parts.as_slice());
        put_before(&mut chains, label, at);
    }
    Ok(chains)
}

/// A label for each name, where a literal has two names the same one, and the chains of each label's literals.
pub fn with_labels(alloc: Global, sorts: &[Sort], nums: &[NumLit]) -> Result<Labelled, AllocError>
    requires { All (IsNumOver sorts.now) nums.now }
    ensures { IfOk result (AreLabelled nums.now) }
{
    let labels = labels_of(alloc, sorts, nums)?;
    let chains = chains_of(alloc, &labels, nums)?;
    Ok(Labelled { labels, chains })
}
