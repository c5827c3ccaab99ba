//! The product of a coefficient and a value, and the comparison of a sum with a bound.

ghost use Rattle.std.specs.Prelude.{◌≡◌, true, false};
ghost use Rattle.hp_math.specs.Rational.{whole, ◌<ℚ◌, ◌≤ℚ◌};
ghost use Rattle.hp_num.specs.Wide.{mul_of};

use hp_num::{Frac, Whole, Wide};
use std::cmp::Ordering;

/// Coefficient times value.
pub fn product(coefficient: Whole, value: Frac) -> Result<Frac, Wide>
    ensures { result ≡ mul_of (whole coefficient) value }
{
    Frac::mul(Frac::whole(coefficient), value)
}

/// Whether the sum is over the bound.
pub fn is_over(sum: Frac, bound: Whole) -> bool
    ensures yes { result ≡ true → whole bound <ℚ sum }
    ensures no { result ≡ false → sum ≤ℚ whole bound }
{
    matches!(Frac::cmp(sum, Frac::whole(bound)), Ordering::Greater)
}
