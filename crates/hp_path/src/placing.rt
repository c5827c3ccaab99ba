//! A value for each name: given ones in the places of their names, and 0 in all other places.
ghost use Rattle.std.specs.Prelude.{◌≡◌, ◌<◌, ◌++◌, ℕ, IfOk, OnOk, Some, length, pos, replicate, slice_get};
ghost use Rattle.std.specs.List.{All};
ghost use Rattle.hp_math.specs.Rational.{whole};
ghost use Rattle.hp_tree.specs.declared.problem.Sort.TheVariants.{Num};
ghost use Rattle.hp_lit.specs.Truth.{name_value};
ghost use Rattle.hp_lit.specs.Sorts.{AreOfSorts};
ghost use Rattle.hp_descent.specs.Values.{value_in};
ghost use Rattle.hp_diff.specs.Rows.{IsPoint};
ghost use Rattle.hp_ptreq.specs.Rows.{ArePointers};
ghost use Rattle.hp_lit.specs.Fit.{IsFit};
ghost use Rattle.hp_path.specs.Kinds.{idx_lits, num_lits, ptr_lits};
ghost use Rattle.hp_path.specs.Decided.{AreSmallIdx, AreValuesFor};
ghost use Rattle.hp_path.specs.Placed.{AreApart, AreSolving, IsValueOver, put_all};

use hp_lit::{Lit, NameValue, Valuation};
use hp_num::{Frac, List};
use hp_tree::Sort;
use std::alloc::{AllocError, Global};

/// The value 0 for each of `count` names.
fn zeros(alloc: Global, count: usize) -> Result<List<Frac>, AllocError>
    ensures { IfOk result (λ values. values ≡ replicate count (whole (pos 0))) }
{
    let mut values = List::new(alloc);
    for _at in 0..count {
        values.push(Frac::new(0, 1))?;
    }
    Ok(values)
}

/// Gives each name of the list its value.
fn put(values: &mut List<Frac>, point: &[NameValue])
    requires { All (λ nv. nv.name.0 < length values.old) point.now }
    ensures { values.new ≡ put_all values.old point.now }
{
    for nv in point {
        values.set(nv.name.0 as usize, nv.value);
    }
}

/// Values for all names: those of the list, and 0 for names that it doesn't have.
fn values_of(alloc: Global, sorts: &[Sort], point: &[NameValue]) -> Result<Valuation, AllocError>
    requires apart { AreApart point.now }
    requires over { All (IsValueOver sorts.now) point.now }
    ensures sorted { IfOk result (λ v. AreOfSorts sorts.now v.values) }
    ensures small { IfOk result (λ v. AreSmallIdx sorts.now v.values) }
    ensures given { IfOk result (λ v. (n : ℕ) → name_value v.values n ≡ value_in point.now n) }
{
    let mut values = zeros(alloc, sorts.len())?;
    put(&mut values, point);
    Ok(Valuation { values })
}

/// Adds values of further names.
pub fn push_values(values: &mut List<NameValue>, more: &[NameValue]) -> Result<(), AllocError>
    ensures { OnOk result (values.new ≡ values.old ++ more.now) }
{
    for nv in more {
        values.push(*nv)?;
    }
    Ok(())
}

/// Values for all names that make all literals true, from those that make the literals over pointers true, those of the
/// point of the literals over whole numbers, and those that make the literals over fractions true.
pub fn values_for(
    alloc: Global,
    sorts: &[Sort],
    lits: &[Lit],
    mut pointers: List<NameValue>,
    point: &[NameValue],
    values: &[NameValue],
) -> Result<Valuation, AllocError>
    requires fit { All (IsFit sorts.now) lits.now }
    requires pointers { ArePointers (ptr_lits lits.now) pointers }
    requires point { IsPoint (idx_lits lits.now) point.now }
    requires values { AreSolving sorts.now (num_lits lits.now) values.now }
    ensures values { IfOk result (λ v. AreValuesFor sorts.now lits.now v.values) }
    ensures agree { IfOk result (λ v. (n : ℕ) → slice_get sorts.now n ≡ Some Num → name_value v.values n ≡ value_in values.now n) }
{
    push_values(&mut pointers, point)?;
    push_values(&mut pointers, values)?;
    let all = values_of(alloc, sorts, pointers.as_slice())?;
    Ok(all)
}
