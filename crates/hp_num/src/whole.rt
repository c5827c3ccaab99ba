//! Whole numbers within 128 bits that contracts see as numbers of ℤ, with no word about bits.
//!
//! Fractions and exact rows are made of these, so the arithmetic of their contracts is that of ℤ.

ghost use Rattle.std.specs.Prelude.{◌≡◌, ◌<◌, ◌^◌, ◌-◌, pos, neg_ℤ, ◌≤ℤ◌, int_div, unsigned_abs};
ghost use Rattle.std.specs.Int.{IsGcd};
ghost use Rattle.hp_num.specs.Divisor.{gcd};
ghost use Rattle.hp_num.specs.Wide.{times_of, plus_of, minus_of, mul_sub_of};

use crate::wide::{Wide, minus, plus, times, whole_mul_sub};
use std::marker::Model;

/// A whole number of magnitude at most 2^127 - 1.
#[derive(Clone, Copy, Debug, PartialEq, Eq)]
pub struct Whole {
    value: i128,
}

impl Model for Whole {
    ghost use Rattle.std.specs.Prelude.{ℤ, unsigned_abs, ◌<◌, ◌^◌};

    ghost Value = { ℤ };

    ghost view = { λ whole. whole.value };

    ghost invariant = { λ whole. unsigned_abs whole.value < 2 ^ 127 };

    ghost inverse = { λ z. record { value = z } };
}

impl Whole {
    /// A number that is not the least `i128`.
    pub fn new(value: i128) -> Whole
        requires not_least { neg_ℤ (pos (2 ^ 127 - 1)) ≤ℤ value }
        ensures { result ≡ value }
    {
        Whole { value }
    }

    /// The number, which is never the least `i128`.
    pub fn value(self) -> i128
        ensures value { result ≡ self }
        ensures narrow { unsigned_abs self < 2 ^ 127 }
    {
        self.value
    }

    /// How far the number is from 0.
    pub fn magnitude(self) -> u128
        ensures value { result ≡ unsigned_abs self }
        ensures narrow { result < 2 ^ 127 }
    {
        self.value.unsigned_abs()
    }

    /// The number with its sign turned.
    pub fn negated(self) -> Whole
        ensures { result ≡ neg_ℤ self }
    {
        Whole { value: -self.value }
    }

    /// The product, or a `Wide` where its magnitude is above 2^127 - 1.
    pub fn times(self, other: Whole) -> Result<Whole, Wide>
        ensures { result ≡ times_of self other }
    {
        Ok(Whole {
            value: times(self.value, other.value)?,
        })
    }

    /// The sum, or a `Wide` where its magnitude is above 2^127 - 1.
    pub fn plus(self, other: Whole) -> Result<Whole, Wide>
        ensures { result ≡ plus_of self other }
    {
        Ok(Whole {
            value: plus(self.value, other.value)?,
        })
    }

    /// The difference, or a `Wide` where its magnitude is above 2^127 - 1.
    pub fn minus(self, other: Whole) -> Result<Whole, Wide>
        ensures { result ≡ minus_of self other }
    {
        Ok(Whole {
            value: minus(self.value, other.value)?,
        })
    }

    /// `d * a - c * b`, or a `Wide` as of `whole_mul_sub`.
    pub fn mul_sub(d: Whole, a: Whole, c: Whole, b: Whole) -> Result<Whole, Wide>
        ensures { result ≡ mul_sub_of d a c b }
    {
        Ok(Whole {
            value: whole_mul_sub(d.value, a.value, c.value, b.value)?,
        })
    }

    /// The quotient, rounded toward 0.
    pub fn over(self, divisor: u128) -> Whole
        requires positive { 0 < divisor }
        requires small { divisor < 2 ^ 127 }
        ensures { result ≡ int_div self (pos divisor) }
    {
        Whole {
            value: self.value / divisor as i128,
        }
    }
}

/// The greatest common divisor, `right` where `left` is 0.
pub fn gcd(left: u128, right: u128) -> u128
    ensures value { result ≡ gcd left right }
    ensures greatest { IsGcd left right result }
    ensures narrow { left < 2 ^ 127 → right < 2 ^ 127 → result < 2 ^ 127 }
{
    let mut x = left;
    let mut y = right;
    while y != 0 {
        let rest = x % y;
        x = y;
        y = rest;
    }
    x
}
