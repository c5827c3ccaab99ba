//! The pivot: a basic column and another one change places.
//!
//! No clause says what is computed here: an answer is checked before it is given.
use crate::halt::Halt;
use crate::tableau::{Entry, Row, Tableau, put_entry, times_at};
use crate::values::{Value, fraction_plus_times, plus_times};
use hp_num::{Frac, Wide};
use std::alloc::Global;

/// Makes `column` basic in the row at place `at`, whose basic column becomes free to move and takes the value `to`; the
/// values of the others follow.
pub fn pivot(
    alloc: Global,
    tableau: &mut Tableau,
    at: usize,
    column: usize,
    to: &Value,
) -> Result<(), Halt> {
    let Some(row) = tableau.rows.get(at) else {
        return Err(Halt::Unknown);
    };
    let leaving = row.basic;
    let solved = solve_for(alloc, row, column)?;
    let Some(inverse) = times_at(&solved.entries, leaving) else {
        return Err(Halt::Unknown);
    };
    let step = step_to(tableau, leaving, inverse, to)?;
    for other in 0..tableau.rows.len() {
        if other != at {
            substitute(alloc, tableau, other, &solved, &step)?;
        }
    }
    move_by(tableau, column, Frac::new(1, 1), &step)?;
    set_value(tableau, leaving, to);
    if let Some(row) = tableau.rows.get_mut(at) {
        *row = solved;
    }
    Ok(())
}

/// The step of the column that becomes basic, by which the leaving one comes to the value `to`.
fn step_to(tableau: &Tableau, leaving: usize, inverse: Frac, to: &Value) -> Result<Value, Halt> {
    let Some(from) = tableau.values.get(leaving) else {
        return Err(Halt::Unknown);
    };
    let way = Value {
        real: Frac::sub(to.real, from.real)?,
        small: Frac::sub(to.small, from.small)?,
    };
    Ok(Value {
        real: Frac::mul(way.real, inverse)?,
        small: Frac::mul(way.small, inverse)?,
    })
}

/// The row solved for one of its columns.
fn solve_for(alloc: Global, row: &Row, column: usize) -> Result<Row, Halt> {
    let inverse = match times_at(&row.entries, column) {
        Some(times) if !times.is_zero() => times.reciprocal(),
        _ => return Err(Halt::Unknown),
    };
    let turned = inverse.negated();
    let mut entries = Vec::new(alloc);
    for entry in row.entries.as_slice() {
        if entry.column != column {
            entries.push(Entry {
                column: entry.column,
                times: Frac::mul(entry.times, turned)?,
            })?;
        }
    }
    put_entry(
        &mut entries,
        Entry {
            column: row.basic,
            times: inverse,
        },
    )?;
    Ok(Row {
        basic: column,
        entries,
    })
}

/// Takes a column that became basic out of another row, and moves that row's value by the column's step.
fn substitute(
    alloc: Global,
    tableau: &mut Tableau,
    other: usize,
    solved: &Row,
    step: &Value,
) -> Result<(), Halt> {
    let Some(row) = tableau.rows.get_mut(other) else {
        return Err(Halt::Unknown);
    };
    let Some(times) = times_at(&row.entries, solved.basic) else {
        return Ok(());
    };
    row.entries = combined(alloc, &row.entries, solved, times)?;
    let basic = row.basic;
    move_by(tableau, basic, times, step)
}

/// Adds a multiple of a step to the value of a column.
fn move_by(tableau: &mut Tableau, column: usize, times: Frac, step: &Value) -> Result<(), Halt> {
    let Some(value) = tableau.values.get_mut(column) else {
        return Err(Halt::Unknown);
    };
    *value = plus_times(*value, times, *step)?;
    Ok(())
}

/// Gives a column a value.
fn set_value(tableau: &mut Tableau, column: usize, to: &Value) {
    if let Some(value) = tableau.values.get_mut(column) {
        *value = *to;
    }
}

/// The entries without the basic column of `solved`, and with the multiple of its entries in its stead.
fn combined(
    alloc: Global,
    entries: &[Entry],
    solved: &Row,
    times: Frac,
) -> Result<Vec<Entry>, Halt> {
    let others = solved.entries.as_slice();
    let mut sum = Vec::new(alloc);
    let mut at = 0;
    let mut other = 0;
    for _ in 0..entries.len().saturating_add(others.len()) {
        match next_entry(entries.get(at), others.get(other), times)? {
            Next::Left(entry) => {
                if entry.column != solved.basic {
                    sum.push(entry)?;
                }
                at = at.saturating_add(1);
            }
            Next::Right(entry) => {
                sum.push(entry)?;
                other = other.saturating_add(1);
            }
            Next::Both(entry) => {
                if !entry.times.is_zero() {
                    sum.push(entry)?;
                }
                at = at.saturating_add(1);
                other = other.saturating_add(1);
            }
            Next::End => break,
        }
    }
    Ok(sum)
}

/// The next entry of a sum, and whether it is one of the left, one of the right, or the sum of one of each.
#[derive(Clone, Copy)]
enum Next {
    Left(Entry),
    Right(Entry),
    Both(Entry),
    End,
}

/// The next entry of `left + times * right`, where these are the next entries of both.
fn next_entry(left: Option<&Entry>, right: Option<&Entry>, times: Frac) -> Result<Next, Wide> {
    match (left, right) {
        (Some(left), Some(right)) if left.column == right.column => Ok(Next::Both(Entry {
            column: left.column,
            times: fraction_plus_times(left.times, times, right.times)?,
        })),
        (Some(left), Some(right)) if left.column < right.column => Ok(Next::Left(*left)),
        (_, Some(right)) => Ok(Next::Right(Entry {
            column: right.column,
            times: Frac::mul(times, right.times)?,
        })),
        (Some(left), None) => Ok(Next::Left(*left)),
        (None, None) => Ok(Next::End),
    }
}
