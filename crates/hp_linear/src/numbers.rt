//! Sums and products of fractions, and least common multiples, each refused where it is too wide.

ghost use Rattle.std.specs.Prelude.{◌≡◌, ◌<◌, ◌^◌, unsigned_abs};
ghost use Rattle.hp_linear.specs.Steps.{unless_wide};
ghost use Rattle.hp_linear.specs.Lins.{sum_of, product_of};
ghost use Rattle.hp_linear.specs.Wholes.{lcm_of, scaled_number};

use hp_lit::Refusal;
use hp_num::{Frac, gcd, times};

/// The sum of two fractions.
pub fn sum(left: Frac, right: Frac) -> Result<Frac, Refusal>
    ensures { result ≡ sum_of left right }
{
    match Frac::add(left, right) {
        Ok(sum) => Ok(sum),
        Err(_) => Err(Refusal::Wide),
    }
}

/// The product of two fractions.
pub fn product(left: Frac, right: Frac) -> Result<Frac, Refusal>
    ensures { result ≡ product_of left right }
{
    match Frac::mul(left, right) {
        Ok(product) => Ok(product),
        Err(_) => Err(Refusal::Wide),
    }
}

/// How far a number is from 0.
pub fn magnitude(number: i128) -> u128
    requires { unsigned_abs number < 2 ^ 127 }
    ensures value { result ≡ unsigned_abs number }
    ensures narrow { result < 2 ^ 127 }
{
    number.unsigned_abs()
}

/// The least common multiple of two positive numbers.
pub fn lcm(left: u128, right: u128) -> Result<u128, Refusal>
    requires { 0 < right }
    ensures { result ≡ lcm_of left right }
{
    let share = left / gcd(left, right);
    match share.checked_mul(right) {
        Some(multiple) if multiple < 1 << 127 => Ok(multiple),
        _ => Err(Refusal::Wide),
    }
}

/// So many copies of a fraction whose denominator divides their number.
pub fn scaled(multiple: u128, number: Frac) -> Result<i128, Refusal>
    requires { multiple < 2 ^ 127 }
    ensures { result ≡ scaled_number multiple number }
{
    let share = multiple / number.den().unsigned_abs();
    match times(number.num(), share as i128) {
        Ok(scaled) => Ok(scaled),
        Err(_) => Err(Refusal::Wide),
    }
}
