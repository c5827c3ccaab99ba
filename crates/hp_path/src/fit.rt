//! Which literals can be decided.

ghost use Rattle.std.specs.Prelude.{◌≡◌, ◌↔◌, Some, slice_get, true};
ghost use Rattle.std.specs.List.{All};
ghost use Rattle.hp_tree.specs.declared.problem.Sort.TheVariants.{Num};
ghost use Rattle.hp_lit.specs.Fit.{IsFit, IsNumOver, IsPairOver, IsRowOver, IsSide, IsSmallBound};

use hp_lit::{IdxLit, Lit, Name, NumLit, Part, PtrLit};
use hp_tree::{LARGEST_BOUND, Sort};
use std::slice;

/// Whether each literal is one that can be decided: a literal over fractions whose names have sort num and rise strictly,
/// with no number above 2^127 - 1 in magnitude; one over whole numbers whose names have sort idx and whose bound has a
/// magnitude of at most 10^25; or one over pointers whose names have sort ptr. `sorts` has a sort for each name.
pub fn are_fit(sorts: &[Sort], lits: &[Lit]) -> bool
    ensures { result ≡ true ↔ All (IsFit sorts.now) lits.now }
{
    for lit in lits {
        if !is_fit(sorts, lit) {
            return false;
        }
    }
    true
}

/// Whether the literal is one that can be decided.
fn is_fit(sorts: &[Sort], lit: &Lit) -> bool
    ensures { result ≡ true ↔ IsFit sorts.now lit.now }
{
    match lit {
        Lit::Num(num) => is_num(sorts, num),
        Lit::Idx(row) => is_row(sorts, row),
        Lit::Ptr(pair) => is_pair(sorts, pair),
    }
}

/// Whether the names have sort num and rise strictly, and no number has a magnitude above 2^127 - 1.
fn is_num(sorts: &[Sort], num: &NumLit) -> bool
    ensures { result ≡ true ↔ IsNumOver sorts.now num.now }
{
    hp_descent::are_fit(slice::from_ref(num)) && are_num(sorts, num.parts.as_slice())
}

/// Whether the names have sort num.
fn are_num(sorts: &[Sort], parts: &[Part]) -> bool
    ensures { result ≡ true ↔ All (λ p. slice_get sorts.now p.name.0 ≡ Some Num) parts.now }
{
    for part in parts {
        if !has_sort(sorts, part.name, Sort::Num) {
            return false;
        }
    }
    true
}

/// Whether the bound has a magnitude of at most 10^25, and the names have sort idx.
fn is_row(sorts: &[Sort], row: &IdxLit) -> bool
    ensures { result ≡ true ↔ IsRowOver sorts.now row.now }
{
    is_small(row.bound)
        && is_side(sorts, row.left, Sort::Idx)
        && is_side(sorts, row.right, Sort::Idx)
}

/// Whether the magnitude is at most 10^25.
fn is_small(bound: i128) -> bool
    ensures { result ≡ true ↔ IsSmallBound bound }
{
    -LARGEST_BOUND <= bound && bound <= LARGEST_BOUND
}

/// Whether the names have sort ptr.
fn is_pair(sorts: &[Sort], pair: &PtrLit) -> bool
    ensures { result ≡ true ↔ IsPairOver sorts.now pair.now }
{
    is_side(sorts, pair.left, Sort::Ptr) && is_side(sorts, pair.right, Sort::Ptr)
}

/// Whether there is no name, or one of this sort.
fn is_side(sorts: &[Sort], side: Option<Name>, sort: Sort) -> bool
    ensures { result ≡ true ↔ IsSide sort sorts.now side }
{
    match side {
        None => true,
        Some(name) => has_sort(sorts, name, sort),
    }
}

/// Whether the name is one of these, and of this sort.
fn has_sort(sorts: &[Sort], name: Name, sort: Sort) -> bool
    ensures { result ≡ true ↔ (slice_get sorts.now name.0 ≡ Some sort) }
{
    match sorts.get(name.0 as usize) {
        Some(found) => *found == sort,
        None => false,
    }
}
