//! Columns and their bounds. The names of the literals come first and are free; then comes a column for each literal,
//! the sum of its parts, which is at most its bound, and equal to it where the literal is an equality.
//!
//! No clause says what is computed here: an answer is checked before it is given.
use crate::halt::Halt;
use crate::values::{Value, order};
use hp_lit::{NumLit, Rel};
use hp_num::Frac;
use std::alloc::Global;
use std::cmp::Ordering;

/// Which way the value of a column has to go, or may go.
#[derive(Clone, Copy)]
pub enum Way {
    Up,
    Down,
}

/// The bound from above of a literal's column. Where exact, it is one from below too.
#[derive(Clone, Copy)]
pub struct Bound {
    pub most: Value,
    pub exact: bool,
}

/// The bounds of the literals' columns, of which the first follows `names` columns of names.
#[derive(Drop)]
pub struct Bounds {
    pub names: usize,
    pub each: Vec<Bound>,
}

/// The bounds of the literals.
pub fn bounds_of(alloc: Global, names: usize, lits: &[NumLit]) -> Result<Bounds, Halt> {
    let mut each = Vec::new(alloc);
    for at in 0..lits.len() {
        each.push(bound_of(&lits[at])?)?;
    }
    Ok(Bounds { names, each })
}

/// The bound of a literal: a strict one lies by delta below.
fn bound_of(lit: &NumLit) -> Result<Bound, Halt> {
    if lit.bound == i128::MIN {
        return Err(Halt::Unknown);
    }
    let small = match lit.rel {
        Rel::Lt => -1,
        Rel::Le | Rel::Eq => 0,
    };
    Ok(Bound {
        most: Value {
            real: Frac::new(lit.bound, 1),
            small: Frac::new(small, 1),
        },
        exact: lit.rel == Rel::Eq,
    })
}

/// The bound of a column, where it has one.
fn bound_at(bounds: &Bounds, column: usize) -> Option<Bound> {
    let at = column.checked_sub(bounds.names)?;
    bounds.each.get(at).copied()
}

/// Which way a column has to go from a value that breaks its bounds, and to which value.
pub fn wanted(bounds: &Bounds, column: usize, value: Value) -> Option<(Way, Value)> {
    let bound = bound_at(bounds, column)?;
    match order(value, bound.most) {
        Ordering::Greater => Some((Way::Down, bound.most)),
        Ordering::Less if bound.exact => Some((Way::Up, bound.most)),
        Ordering::Less | Ordering::Equal => None,
    }
}

/// Whether a column may go some way from a value within its bounds.
pub fn may_go(bounds: &Bounds, column: usize, value: Value, way: Way) -> bool {
    let Some(bound) = bound_at(bounds, column) else {
        return true;
    };
    match way {
        Way::Up => matches!(order(value, bound.most), Ordering::Less),
        Way::Down => !bound.exact || matches!(order(value, bound.most), Ordering::Greater),
    }
}
