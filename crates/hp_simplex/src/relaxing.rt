//! Values by relaxation: they are reflected at each literal that they break, until they break none.
//!
//! The method is that of Theodore Motzkin and Isaac Schoenberg, The relaxation method for linear inequalities (1954), which
//! ends where there is room around some values that break none. It goes over no vertices, whose numbers may be long: the
//! values are whole multiples of one fraction. No clause says what is computed here: an answer is checked before it is given.
use crate::halt::Halt;
use hp_lit::{NumLit, Part, Rel};
use hp_num::Frac;
use std::alloc::Global;

/// The values are multiples of one over this.
const UNITS: i128 = 64;

/// How often the literals are gone through.
const ROUNDS: usize = 500;

/// Values of the names, in their order, that break none of the literals, where such are found.
pub fn relax(alloc: Global, names: &[u32], lits: &[NumLit]) -> Result<Vec<Frac>, Halt> {
    let mut units = vec![in alloc; 0i128; names.len()]?;
    for _round in 0..ROUNDS {
        if !reflect_all(names, lits, &mut units)? {
            return fractions_of(alloc, &units);
        }
    }
    Err(Halt::Unknown)
}

/// Reflects the values at each literal that they break, and answers whether there was one.
fn reflect_all(names: &[u32], lits: &[NumLit], units: &mut Vec<i128>) -> Result<bool, Halt> {
    let mut moved = false;
    for at in 0..lits.len() {
        if reflect(names, &lits[at], units)? {
            moved = true;
        }
    }
    Ok(moved)
}

/// Reflects the values at the literal where they break it, and answers whether they do. An equality has no room, so it is
/// not tried.
fn reflect(names: &[u32], lit: &NumLit, units: &mut Vec<i128>) -> Result<bool, Halt> {
    let strict = match lit.rel {
        Rel::Le => 0,
        Rel::Lt => 1,
        Rel::Eq => return Err(Halt::Unknown),
    };
    let parts = lit.parts.as_slice();
    let bound = product(lit.bound, UNITS)?;
    let excess = sum(difference(side(names, parts, units)?, bound)?, strict)?;
    if excess <= 0 {
        return Ok(false);
    }
    let length = square(parts)?;
    let twice = product(2, excess)?;
    for part in parts {
        let step = quotient(product(part.coef, twice)?, length)?;
        move_back(names, *part, step, units)?;
    }
    Ok(true)
}

/// The left side of a literal at the values.
fn side(names: &[u32], parts: &[Part], units: &[i128]) -> Result<i128, Halt> {
    let mut total = 0;
    for part in parts {
        let Ok(column) = names.binary_search(&part.name.0) else {
            return Err(Halt::Unknown);
        };
        let Some(value) = units.get(column) else {
            return Err(Halt::Unknown);
        };
        total = sum(total, product(part.coef, *value)?)?;
    }
    Ok(total)
}

/// The sum of the squares of the coefficients.
fn square(parts: &[Part]) -> Result<i128, Halt> {
    let mut total = 0;
    for part in parts {
        total = sum(total, product(part.coef, part.coef)?)?;
    }
    Ok(total)
}

/// Takes the step off the value of the part's name.
fn move_back(names: &[u32], part: Part, step: i128, units: &mut Vec<i128>) -> Result<(), Halt> {
    let Ok(column) = names.binary_search(&part.name.0) else {
        return Err(Halt::Unknown);
    };
    let Some(value) = units.get_mut(column) else {
        return Err(Halt::Unknown);
    };
    *value = difference(*value, step)?;
    Ok(())
}

/// The values as fractions.
fn fractions_of(alloc: Global, units: &[i128]) -> Result<Vec<Frac>, Halt> {
    let mut numbers = Vec::new(alloc);
    for value in units {
        if *value == i128::MIN {
            return Err(Halt::Unknown);
        }
        numbers.push(Frac::new(*value, UNITS))?;
    }
    Ok(numbers)
}

/// The quotient, away from 0 where it isn't whole.
fn quotient(left: i128, right: i128) -> Result<i128, Halt> {
    match (left.checked_div(right), left.checked_rem(right)) {
        (Some(whole), Some(rest)) => sum(whole, rest.signum()),
        _ => Err(Halt::Unknown),
    }
}

fn product(left: i128, right: i128) -> Result<i128, Halt> {
    left.checked_mul(right).ok_or(Halt::Unknown)
}

fn sum(left: i128, right: i128) -> Result<i128, Halt> {
    left.checked_add(right).ok_or(Halt::Unknown)
}

fn difference(left: i128, right: i128) -> Result<i128, Halt> {
    left.checked_sub(right).ok_or(Halt::Unknown)
}
