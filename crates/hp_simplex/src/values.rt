//! Numbers with an infinitesimal part, by which a strict bound is a weak one: `c < b` says `c <= b - delta` for some
//! delta over 0, which is chosen at the end.
//!
//! No clause says what is computed here: an answer is checked before it is given.
use hp_num::{Frac, Wide};
use std::cmp::Ordering;

/// The number `real + small * delta`.
#[derive(Clone, Copy)]
pub struct Value {
    pub real: Frac,
    pub small: Frac,
}

/// `value + times * step`, or the first operation that is too wide.
pub fn plus_times(value: Value, times: Frac, step: Value) -> Result<Value, Wide> {
    Ok(Value {
        real: fraction_plus_times(value.real, times, step.real)?,
        small: fraction_plus_times(value.small, times, step.small)?,
    })
}

/// `left + times * right`, or the first operation that is too wide.
pub fn fraction_plus_times(left: Frac, times: Frac, right: Frac) -> Result<Frac, Wide> {
    if right.is_zero() {
        return Ok(left);
    }
    let product = Frac::mul(times, right)?;
    Frac::add(left, product)
}

/// How two numbers stand to one another at every delta that is small enough.
pub fn order(left: Value, right: Value) -> Ordering {
    match Frac::cmp(left.real, right.real) {
        Ordering::Equal => Frac::cmp(left.small, right.small),
        other => other,
    }
}
