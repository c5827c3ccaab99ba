//! Values of the names, once all columns are within their bounds: a number in place of delta, and the values at it.
//!
//! No clause says what is computed here: an answer is checked before it is given.
use crate::bounds::{Bound, Bounds};
use crate::halt::Halt;
use crate::tableau::Tableau;
use crate::values::{Value, fraction_plus_times};
use hp_num::{Frac, Wide};
use std::alloc::Global;
use std::cmp::Ordering;

/// The values of the names, in the order of their columns.
pub fn numbers_of(alloc: Global, bounds: &Bounds, tableau: &Tableau) -> Result<Vec<Frac>, Halt> {
    let delta = delta_of(bounds, tableau)?;
    let mut numbers = Vec::new(alloc);
    for column in 0..bounds.names {
        let Some(value) = tableau.values.get(column) else {
            return Err(Halt::Unknown);
        };
        numbers.push(fraction_plus_times(value.real, delta, value.small)?)?;
    }
    Ok(numbers)
}

/// A number at most 1 and over 0, so small that every value is within its bound with it in place of delta.
fn delta_of(bounds: &Bounds, tableau: &Tableau) -> Result<Frac, Halt> {
    let mut delta = Frac::new(1, 1);
    let (_, values) = tableau
        .values
        .split_at(bounds.names.min(tableau.values.len()));
    for (bound, value) in bounds.each.iter().zip(values.iter()) {
        delta = least(delta, *bound, *value)?;
    }
    Ok(delta)
}

/// The lesser of `delta` and the greatest number at which the value is within the bound.
fn least(delta: Frac, bound: Bound, value: Value) -> Result<Frac, Wide> {
    let most = bound.most;
    let slope = Frac::sub(value.small, most.small)?;
    if slope.num() < 0 || slope.is_zero() {
        return Ok(delta);
    }
    let room = Frac::sub(most.real, value.real)?;
    let limit = Frac::div(room, slope)?;
    match Frac::cmp(limit, delta) {
        Ordering::Less => Ok(limit),
        Ordering::Equal | Ordering::Greater => Ok(delta),
    }
}
