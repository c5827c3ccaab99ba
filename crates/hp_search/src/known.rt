//! What shows at a place by the equalities of its path alone: a leaf where they make one of its literals false, and values
//! that give each class of names values of its own.
ghost use Rattle.std.specs.Prelude.{◌≡◌, ◌≤ℤ◌, IfOk, IfSome, pos, true};
ghost use Rattle.hp_tree.specs.declared.problem.Sort.TheVariants.{Ptr};
ghost use Rattle.std.specs.List.{All};
ghost use Rattle.hp_lit.specs.Truth.{IsTrueAt};
ghost use Rattle.hp_lit.specs.Fit.{IsFit};
ghost use Rattle.hp_leaf.specs.Check.{HasNarrowBound};
ghost use Rattle.hp_leaf.specs.Leaf.{IsValid};
ghost use Rattle.hp_path.specs.Decided.{AreValuesFor};
ghost use Rattle.hp_path.specs.Placed.{IsValueOf};
ghost use Rattle.hp_search.specs.Lines.{IsReadable, IsSmallIndex};
ghost use Rattle.hp_search.specs.inner.Spread.{AreValuesOf};

use crate::classes::{
    Classes, Hop, Standing, classes_of, difference, distance_of, judge, label_of, way,
};
use crate::gaps::{Gap, Order, gap_of};
use crate::truth::is_true;
use hp_leaf::{LeafProof, check_leaf};
use hp_lit::{Lit, Share, Step, Valuation};
use hp_num::{Frac, List, Whole};
use hp_tree::Sort;
use std::alloc::{AllocError, Global};

/// The largest magnitude of a value that is given.
const MOST: i128 = 10_000_000_000_000_000_000_000_000_000_000_000_000;

/// A literal that is false by its class, as a difference, with its number.
#[derive(Clone, Copy)]
struct Dead {
    number: u32,
    gap: Gap,
    /// Whether the difference is above the bound, or at a strict one.
    is_above: bool,
}

/// The first literal that classes make false.
fn first_dead(classes: &Classes, lits: &[Lit]) -> Option<Dead> {
    let mut number = 0u32;
    for lit in lits {
        number = number.saturating_add(1);
        match dead_at(classes, lit, number) {
            Some(dead) => return Some(dead),
            None => {}
        }
    }
    None
}

/// This literal, where classes make it false.
fn dead_at(classes: &Classes, lit: &Lit, number: u32) -> Option<Dead> {
    let gap = gap_of(lit)?;
    match judge(classes, gap) {
        Standing::True | Standing::Open => None,
        Standing::False => {
            let difference = difference(classes, gap)?;
            Some(Dead {
                number,
                gap,
                is_above: gap.bound <= difference,
            })
        }
    }
}

/// A multiplier with this sign.
fn signed(is_plus: bool) -> i128 {
    if is_plus { 1 } else { -1 }
}

/// A combination of a false literal with the equalities that lead from its left node to its right one.
fn combination(
    alloc: Global,
    dead: Dead,
    hops: &[Hop],
    count: usize,
) -> Result<List<Share>, AllocError> {
    let mut times = List::new(alloc);
    times.push(0i128)?;
    for _ in 0..count {
        times.push(0)?;
    }
    set_times(&mut times, dead.number, signed(dead.is_above));
    for hop in hops {
        set_times(&mut times, hop.by, signed(hop.forward != dead.is_above));
    }
    let mut shares = List::new(alloc);
    let mut lit = 0u32;
    for multiplier in times.as_slice() {
        if *multiplier != 0 {
            shares.push(Share {
                lit,
                times: *multiplier,
            })?;
        }
        lit = lit.saturating_add(1);
    }
    Ok(shares)
}

/// Puts the multiplier of a literal.
fn set_times(times: &mut List<i128>, number: u32, multiplier: i128) {
    let at = number as usize;
    if at < times.len() {
        times.set(at, multiplier);
    }
}

/// A cycle of a false literal with the equalities that lead back from its end.
fn cycle(alloc: Global, dead: Dead, hops: &[Hop]) -> Result<List<Step>, AllocError> {
    let mut steps = List::new(alloc);
    steps.push(Step {
        lit: dead.number,
        forward: dead.is_above,
    })?;
    for hop in hops {
        steps.push(Step {
            lit: hop.by,
            forward: hop.forward,
        })?;
    }
    Ok(steps)
}

/// The numbers of equalities.
fn numbers_of(alloc: Global, hops: &[Hop]) -> Result<List<u32>, AllocError> {
    let mut numbers = List::new(alloc);
    for hop in hops {
        numbers.push(hop.by)?;
    }
    Ok(numbers)
}

/// The evidence against a false literal, among so many.
fn evidence(
    alloc: Global,
    classes: &Classes,
    lit: &Lit,
    dead: Dead,
    count: usize,
) -> Result<LeafProof, AllocError> {
    let left = dead.gap.left;
    let right = dead.gap.right;
    match lit {
        Lit::Num(_) => {
            let hops = way(alloc, classes, left, right)?;
            let shares = combination(alloc, dead, hops.as_slice(), count)?;
            Ok(LeafProof::Num(shares))
        }
        Lit::Idx(_) => {
            let hops = if dead.is_above {
                way(alloc, classes, right, left)?
            } else {
                way(alloc, classes, left, right)?
            };
            Ok(LeafProof::Idx(cycle(alloc, dead, hops.as_slice())?))
        }
        Lit::Ptr(_) => {
            let hops = way(alloc, classes, left, right)?;
            Ok(LeafProof::Ptr {
                ne: dead.number,
                path: numbers_of(alloc, hops.as_slice())?,
            })
        }
    }
}

/// Whether the equalities among these literals make one of them false.
pub fn are_contrary(alloc: Global, names: usize, lits: &[Lit]) -> Result<bool, AllocError> {
    let classes = classes_of(alloc, names, lits)?;
    match first_dead(&classes, lits) {
        Some(_) => Ok(true),
        None => Ok(false),
    }
}

/// A leaf over these literals, where the equalities among them make one of them false.
pub fn leaf_by(
    alloc: Global,
    classes: &Classes,
    lits: &[Lit],
) -> Result<Option<LeafProof>, AllocError>
    requires { All HasNarrowBound lits.now }
    ensures { IfOk result (λ leaf. IfSome leaf (λ proof. IsValid lits.now proof)) }
{
    let Some(dead) = first_dead(classes, lits) else {
        return Ok(None);
    };
    let Some(lit) = lits.get((dead.number as usize).saturating_sub(1)) else {
        return Ok(None);
    };
    let proof = evidence(alloc, classes, lit, dead, lits.len())?;
    match check_leaf(lits, &proof) {
        Ok(true) => Ok(Some(proof)),
        Ok(false) | Err(_) => Ok(None),
    }
}

/// This number where it can be a value of this sort, and else 0.
fn kept(sort: Sort, number: i128) -> i128
    ensures small { IsSmallIndex result }
    ensures from { sort ≡ Ptr → pos 0 ≤ℤ result }
{
    if number < -MOST || MOST < number {
        return 0;
    }
    match sort {
        Sort::Num | Sort::Idx => number,
        Sort::Ptr => { if number < 0 { 0 } else { number } }
    }
}

/// This number as a value of this sort, and 0 where it can't be one.
fn value_of(sort: &Sort, number: i128) -> Frac
    ensures { IsValueOf sort.now result }
{
    Frac::whole(Whole::new(kept(*sort, number)))
}

/// The value of the label of a class: what is known of that of 0 and null, and else one of its own, so far from others that
/// no two classes have members of one value.
fn value_of_label(classes: &Classes, label: usize, span: i128) -> i128 {
    if label == label_of(classes, 0) {
        return 0i128.saturating_sub(distance_of(classes, 0));
    }
    span.saturating_mul((label as i128).saturating_add(1))
}

/// More than how far apart two members of a class are.
fn span_of(classes: &Classes, names: usize) -> i128 {
    let mut least = 0i128;
    let mut most = 0i128;
    for node in 0..names {
        let distance = distance_of(classes, node.saturating_add(1));
        if distance < least {
            least = distance;
        }
        if most < distance {
            most = distance;
        }
    }
    most.saturating_sub(least)
        .saturating_mul(2)
        .saturating_add(1)
}

/// Values by classes: those that are known, and else values of its own for each class.
fn values_by(alloc: Global, sorts: &[Sort], classes: &Classes) -> Result<Valuation, AllocError>
    ensures { IfOk result (λ v. AreValuesOf sorts.now v.values) }
{
    let span = span_of(classes, sorts.len());
    let mut values = List::new(alloc);
    for (at, sort) in sorts.iter().enumerate() {
        let node = at.saturating_add(1);
        let base = value_of_label(classes, label_of(classes, node), span);
        let number = base.saturating_add(distance_of(classes, node));
        values.push(value_of(sort, number))?;
    }
    Ok(Valuation { values })
}

/// Whether all of these literals are true.
fn all_hold(v: &Valuation, lits: &[Lit]) -> bool
    requires { All (IsReadable v.now.values) lits.now }
    ensures { result ≡ true → All (IsTrueAt v.now.values) lits.now }
{
    for lit in lits {
        if !is_true(v, lit) {
            return false;
        }
    }
    true
}

/// Values by classes, where these make all of these literals true.
pub fn values_at(
    alloc: Global,
    sorts: &[Sort],
    lits: &[Lit],
    classes: &Classes,
) -> Result<Option<Valuation>, AllocError>
    requires { All (IsFit sorts.now) lits.now }
    ensures { IfOk result (λ found. IfSome found (λ v. AreValuesFor sorts.now lits.now v.values)) }
{
    let values = values_by(alloc, sorts, classes)?;
    if all_hold(&values, lits) {
        Ok(Some(values))
    } else {
        Ok(None)
    }
}
