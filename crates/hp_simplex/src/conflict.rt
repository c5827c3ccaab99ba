//! The combination of literals that a conflict gives: the row of a basic column that can't go the way that it has to.
//!
//! The row says that the basic column less the multiples of the others is nothing, and each of these columns is at the
//! bound that keeps it, so the literals' bounds, multiplied in the same way, add to less than 0. No clause says what is
//! computed here: an answer is checked before it is given.
use crate::bounds::{Bounds, Way};
use crate::halt::Halt;
use crate::tableau::{Entry, Row, put_entry};
use hp_lit::Share;
use hp_num::{Frac, List, Whole};
use std::alloc::Global;

/// The multipliers of the literals, which count from 1 and rise. They have no common divisor, since the least fractions
/// that they are multiples of have 1 or -1 among them.
pub fn shares_of(alloc: Global, bounds: &Bounds, row: &Row, way: Way) -> Result<List<Share>, Halt> {
    let entries = combination(alloc, row, way)?;
    let scale = denominator(&entries)?;
    let mut shares = List::new(alloc);
    for entry in entries.as_slice() {
        let product = Frac::mul(entry.times, scale)?;
        let Some(at) = entry.column.checked_sub(bounds.names) else {
            return Err(Halt::Unknown);
        };
        let Ok(lit) = u32::try_from(at.saturating_add(1)) else {
            return Err(Halt::Unknown);
        };
        shares.push(Share {
            lit,
            times: product.num(),
        })?;
    }
    Ok(shares)
}

/// The basic column and the others with their factors: the basic one is 1 where it has to go down, and -1 where up.
fn combination(alloc: Global, row: &Row, way: Way) -> Result<Vec<Entry>, Halt> {
    let own = match way {
        Way::Down => Frac::new(1, 1),
        Way::Up => Frac::new(-1, 1),
    };
    let mut entries = Vec::new(alloc);
    for entry in row.entries.as_slice() {
        entries.push(Entry {
            column: entry.column,
            times: match way {
                Way::Down => entry.times.negated(),
                Way::Up => entry.times,
            },
        })?;
    }
    put_entry(
        &mut entries,
        Entry {
            column: row.basic,
            times: own,
        },
    )?;
    Ok(entries)
}

/// The least number that makes all factors whole.
fn denominator(entries: &[Entry]) -> Result<Frac, Halt> {
    let mut scale = Whole::new(1);
    for entry in entries {
        // What is left of the entry's denominator, once it is reduced by the number so far.
        let rest = Frac::new(scale.value(), entry.times.den()).den();
        scale = scale.times(Whole::new(rest))?;
    }
    Ok(Frac::new(scale.value(), 1))
}
