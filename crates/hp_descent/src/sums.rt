//! How the left side of a literal stands to its bound, at the values of a valuation.
//!
//! The products of coefficient and value are added in the order of the parts, each product and each sum checked.

ghost use Rattle.std.specs.Prelude.{◌≡◌, ◌↔◌, ◌<◌, ◌^◌, Ok, IfErr, IfOk, map, pos, true, false, unsigned_abs};
ghost use Rattle.std.specs.List.{All};
ghost use Rattle.std.specs.List.Sorted.{IsStrictlyIncreasing};
ghost use Rattle.hp_math.specs.Rational.{whole};
ghost use Rattle.hp_lit.specs.Truth.{NumIsTrue, name_value, parts_value};
ghost use Rattle.hp_lit.specs.Fit.{IsNumFit};
ghost use Rattle.hp_descent.specs.Values.{IsFalseAmong, IsTrueAmong, Stands, add_product, is_met, sum_at, value_in};

use hp_lit::{Name, NameValue, NumLit, Part, Rel, Valuation};
use hp_num::{Frac, Whole, Wide};
use std::cmp::Ordering;

/// How the sum of the literal's parts stands to its bound at these values: a name by its number, a name past the end
/// with 0. The error is the first operation that passes 2^127 - 1. It asks for a literal whose names rise strictly, with
/// no number above 2^127 - 1 in magnitude.
pub fn compare(v: &Valuation, other: &NumLit) -> Result<Ordering, Wide>
    requires { IsNumFit other.now }
    ensures exact { IfOk result (λ ordering. Stands ordering (parts_value v.now.values other.now.parts) (whole other.now.bound)) }
    ensures decides { IfOk result (λ ordering. is_met other.now.rel ordering ≡ true ↔ NumIsTrue v.now.values other.now) }
    ensures wide { IfErr result (λ wide. sum_at (name_value v.now.values) (whole (pos 0)) other.now.parts ≡ Err wide) }
{
    match sum_over(v, other.parts.as_slice()) {
        Ok(sum) => Ok(standing(sum, other.bound)),
        Err(wide) => Err(wide),
    }
}

/// Whether the literal is true at these values: a name by its number, a name past the end with 0. The error is the
/// first operation that passes 2^127 - 1. It asks for a literal as `compare` does.
pub fn holds(v: &Valuation, other: &NumLit) -> Result<bool, Wide>
    requires { IsNumFit other.now }
    ensures yes { result ≡ Ok true → NumIsTrue v.now.values other.now }
    ensures no { result ≡ Ok false → NumIsTrue v.now.values other.now → ⊥ }
    ensures wide { IfErr result (λ wide. sum_at (name_value v.now.values) (whole (pos 0)) other.now.parts ≡ Err wide) }
{
    match compare(v, other) {
        Ok(ordering) => Ok(is_met(other.rel, ordering)),
        Err(wide) => Err(wide),
    }
}

/// Whether the literal is true wherever its names have these values, and 0 where they have none among them. The error is
/// the first operation that passes 2^127 - 1. It asks for a literal as `compare` does, and for values in rising order of
/// names, among which each name is looked up by halving.
pub fn holds_among(values: &[NameValue], other: &NumLit) -> Result<bool, Wide>
    requires other { IsNumFit other.now }
    requires values { IsStrictlyIncreasing (map (λ nv. nv.name.0) values.now) }
    ensures yes { result ≡ Ok true → IsTrueAmong values.now other.now }
    ensures no { result ≡ Ok false → IsFalseAmong values.now other.now }
    ensures wide { IfErr result (λ wide. sum_at (value_in values.now) (whole (pos 0)) other.now.parts ≡ Err wide) }
{
    match sum_among(values, other.parts.as_slice()) {
        Ok(sum) => Ok(is_met(other.rel, standing(sum, other.bound))),
        Err(wide) => Err(wide),
    }
}

/// Whether a literal of this relation is true where its left side stands so to its bound.
fn is_met(rel: Rel, ordering: Ordering) -> bool
    ensures { result ≡ is_met rel ordering }
{
    match rel {
        Rel::Le => !matches!(ordering, Ordering::Greater),
        Rel::Lt => matches!(ordering, Ordering::Less),
        Rel::Eq => matches!(ordering, Ordering::Equal),
    }
}

/// How a fraction stands to a bound.
pub fn standing(left: Frac, bound: i128) -> Ordering
    requires { unsigned_abs bound < 2 ^ 127 }
    ensures { Stands result left (whole bound) }
{
    Frac::cmp(left, fraction(bound))
}

/// The sum of the parts at the values of a valuation.
fn sum_over(v: &Valuation, parts: &[Part]) -> Result<Frac, Wide>
    requires { All (λ p. unsigned_abs p.coef < 2 ^ 127) parts.now }
    ensures { result ≡ sum_at (name_value v.now.values) (whole (pos 0)) parts.now }
{
    let mut sum = fraction(0);
    for part in parts {
        sum = add_product(sum, part.coef, name_value(v, part.name))?;
    }
    Ok(sum)
}

/// The sum of the parts at these values, a name that is not among them with 0.
pub fn sum_among(values: &[NameValue], parts: &[Part]) -> Result<Frac, Wide>
    requires values { IsStrictlyIncreasing (map (λ nv. nv.name.0) values.now) }
    requires parts { All (λ p. unsigned_abs p.coef < 2 ^ 127) parts.now }
    ensures { result ≡ sum_at (value_in values.now) (whole (pos 0)) parts.now }
{
    let mut sum = fraction(0);
    for part in parts {
        sum = add_product(sum, part.coef, value_in(values, part.name))?;
    }
    Ok(sum)
}

/// The value of a name, 0 past the end.
fn name_value(v: &Valuation, name: Name) -> Frac
    ensures { result ≡ name_value v.now.values name.0 }
{
    let values = v.values.as_slice();
    match values.get(name.0 as usize) {
        Some(value) => *value,
        None => fraction(0),
    }
}

/// The value of a name among these, 0 where it has none.
fn value_in(values: &[NameValue], name: Name) -> Frac
    requires { IsStrictlyIncreasing (map (λ nv. nv.name.0) values.now) }
    ensures { result ≡ value_in values.now name.0 }
{
    match values.binary_search_by_key(&name.0, |named| named.name.0) {
        Ok(at) => values[at].value,
        Err(_) => fraction(0),
    }
}

/// The product of coefficient and value, added to a sum.
fn add_product(sum: Frac, coef: i128, value: Frac) -> Result<Frac, Wide>
    requires { unsigned_abs coef < 2 ^ 127 }
    ensures { result ≡ add_product sum coef value }
{
    let product = Frac::mul(fraction(coef), value)?;
    Frac::add(sum, product)
}

/// A whole number as a fraction.
fn fraction(value: i128) -> Frac
    requires { unsigned_abs value < 2 ^ 127 }
    ensures { result ≡ whole value }
{
    Frac::whole(Whole::new(value))
}
