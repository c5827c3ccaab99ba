//! Quotients and signs of whole numbers.

ghost use Rattle.std.specs.Prelude.{◌≡◌, ◌<◌, ◌^◌, pos, unsigned_abs};
ghost use Rattle.hp_rows.specs.Arithmetic.{over, signed_by};

use hp_num::Whole;

/// The quotient, rounded toward 0; 0 where the divisor is 0.
pub fn over(value: Whole, divisor: u128) -> Whole
    requires { divisor < 2 ^ 127 }
    ensures { result ≡ over value divisor }
{
    if divisor == 0 {
        Whole::new(0)
    } else {
        value.over(divisor)
    }
}

/// The number without its sign.
pub fn absolute(value: Whole) -> Whole
    ensures { result ≡ pos (unsigned_abs value) }
{
    if value.value() < 0 {
        value.negated()
    } else {
        value
    }
}

/// The number, its sign turned where `sign` is negative.
pub fn signed_by(sign: Whole, value: Whole) -> Whole
    ensures { result ≡ signed_by sign value }
{
    if sign.value() < 0 {
        value.negated()
    } else {
        value
    }
}
