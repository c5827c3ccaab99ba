//! The search for values within all bounds: pivots, until no column breaks its bounds or a row shows that one must.
//!
//! The method is the simplex of Bruno Dutertre and Leonardo de Moura, A fast linear-arithmetic solver for DPLL(T)
//! (2006). At first it takes the shortest row whose basic column breaks its bounds, and of the columns that may enter a
//! name that few rows hold, which keeps the rows short. After as many pivots as there are rows and columns it takes the
//! least of the columns each time, with which no pivots go round in a circle (Robert Bland, New finite pivoting rules
//! for the simplex method, 1977). No clause says what is computed here: an answer is checked before it is given.
use crate::bounds::{Bounds, Way, may_go, wanted};
use crate::halt::Halt;
use crate::pivot::pivot;
use crate::tableau::{Entry, Row, Tableau, counts_of};
use crate::values::Value;
use std::alloc::Global;

/// How many pivots may be made for each row and each column.
const PIVOTS: usize = 50;

/// What the search came to: all columns are within their bounds, or the basic column of the row at this place has to go
/// this way, which no other column lets it.
#[derive(Clone, Copy)]
pub enum Outcome {
    Within,
    Conflict { at: usize, way: Way },
}

/// A row whose basic column breaks its bounds, the way that it has to go, and the value that it has to come to.
#[derive(Clone, Copy)]
struct Broken {
    at: usize,
    way: Way,
    to: Value,
}

/// Which row and which column are taken: one that keeps the rows short, or the least.
#[derive(Clone, Copy, PartialEq, Eq)]
enum Rule {
    Short,
    Least,
}

/// Pivots until the values are within the bounds, or a conflict is found, or so many pivots were made that it gives up.
pub fn search(alloc: Global, bounds: &Bounds, tableau: &mut Tableau) -> Result<Outcome, Halt> {
    let size = tableau.rows.len().saturating_add(tableau.values.len());
    for turn in 0..size.saturating_mul(PIVOTS) {
        let rule = if turn < size {
            Rule::Short
        } else {
            Rule::Least
        };
        let Some(broken) = broken_row(bounds, tableau, rule) else {
            return Ok(Outcome::Within);
        };
        let Some(column) = entering(alloc, bounds, tableau, &broken, rule)? else {
            return Ok(Outcome::Conflict {
                at: broken.at,
                way: broken.way,
            });
        };
        pivot(alloc, tableau, broken.at, column, &broken.to)?;
    }
    Err(Halt::Unknown)
}

/// The row of the least basic column that breaks its bounds, or the shortest such row.
fn broken_row(bounds: &Bounds, tableau: &Tableau, rule: Rule) -> Option<Broken> {
    let mut least = None;
    let mut least_key = (usize::MAX, usize::MAX);
    for (at, row) in tableau.rows.iter().enumerate() {
        let key = match rule {
            Rule::Short => (row.entries.len(), row.basic),
            Rule::Least => (0, row.basic),
        };
        if least_key < key {
            continue;
        }
        if let Some(broken) = broken_at(bounds, tableau, at, row) {
            least = Some(broken);
            least_key = key;
        }
    }
    least
}

/// The row, where its basic column breaks its bounds.
fn broken_at(bounds: &Bounds, tableau: &Tableau, at: usize, row: &Row) -> Option<Broken> {
    let value = tableau.values.get(row.basic)?;
    let (way, to) = wanted(bounds, row.basic, *value)?;
    Some(Broken { at, way, to })
}

/// The column of a row whose change moves the row's basic column the way that it has to go: the least one, or a name
/// that the fewest rows hold, or where there is no name another such column.
fn entering(
    alloc: Global,
    bounds: &Bounds,
    tableau: &Tableau,
    broken: &Broken,
    rule: Rule,
) -> Result<Option<usize>, Halt> {
    let Some(row) = tableau.rows.get(broken.at) else {
        return Err(Halt::Unknown);
    };
    let counts = match rule {
        Rule::Short => counts_of(alloc, tableau)?,
        Rule::Least => Vec::new(alloc),
    };
    let mut least = None;
    let mut least_key = (true, usize::MAX);
    for entry in row.entries.as_slice() {
        let count = counts.get(entry.column).copied().unwrap_or(0);
        let key = (entry.column >= bounds.names, count);
        let first = least.is_none() || rule == Rule::Short && key < least_key;
        if first && may_enter(bounds, tableau, broken, *entry) {
            least = Some(entry.column);
            least_key = key;
        }
    }
    Ok(least)
}

/// Whether the change of a column moves the basic column the way that it has to go.
fn may_enter(bounds: &Bounds, tableau: &Tableau, broken: &Broken, entry: Entry) -> bool {
    let way = if entry.times.num() < 0 {
        turned(broken.way)
    } else {
        broken.way
    };
    match tableau.values.get(entry.column) {
        Some(value) => may_go(bounds, entry.column, *value, way),
        None => false,
    }
}

/// The other way.
fn turned(way: Way) -> Way {
    match way {
        Way::Up => Way::Down,
        Way::Down => Way::Up,
    }
}
