//! The tableau: each basic column as a sum of multiples of the other columns, and a value for each column.
//!
//! No clause says what is computed here: an answer is checked before it is given.
use crate::halt::Halt;
use crate::values::Value;
use hp_lit::{NumLit, Part};
use hp_num::Frac;
use std::alloc::Global;

/// A multiple of a column. The factor isn't 0.
#[derive(Clone, Copy)]
pub struct Entry {
    pub column: usize,
    pub times: Frac,
}

/// A basic column, and the multiples of other columns whose sum it is, in rising order of columns.
#[derive(Drop)]
pub struct Row {
    pub basic: usize,
    pub entries: Vec<Entry>,
}

/// The rows of the basic columns, and the value of every column.
#[derive(Drop)]
pub struct Tableau {
    pub rows: Vec<Row>,
    pub values: Vec<Value>,
}

/// The tableau of the literals over these names: the columns of the literals are basic, and all values are 0.
pub fn tableau_of(alloc: Global, names: &[u32], lits: &[NumLit]) -> Result<Tableau, Halt> {
    let mut rows = Vec::new(alloc);
    let mut values = vec![in alloc; zero(); names.len()]?;
    for at in 0..lits.len() {
        let entries = entries_of(alloc, names, lits[at].parts.as_slice())?;
        rows.push(Row {
            basic: names.len().saturating_add(at),
            entries,
        })?;
        values.push(zero())?;
    }
    Ok(Tableau { rows, values })
}

/// The number 0.
fn zero() -> Value {
    Value {
        real: Frac::new(0, 1),
        small: Frac::new(0, 1),
    }
}

/// The parts of a literal over the columns of the names.
fn entries_of(alloc: Global, names: &[u32], parts: &[Part]) -> Result<Vec<Entry>, Halt> {
    let mut entries = Vec::new(alloc);
    for part in parts {
        let Ok(column) = names.binary_search(&part.name.0) else {
            return Err(Halt::Unknown);
        };
        if part.coef == i128::MIN {
            return Err(Halt::Unknown);
        }
        if part.coef != 0 {
            entries.push(Entry {
                column,
                times: Frac::new(part.coef, 1),
            })?;
        }
    }
    Ok(entries)
}

/// The factor of a column, where the entries have it.
pub fn times_at(entries: &[Entry], column: usize) -> Option<Frac> {
    match entries.binary_search_by_key(&column, |entry| entry.column) {
        Ok(at) => entries.get(at).map(|entry| entry.times),
        Err(_) => None,
    }
}

/// How many rows have each column among their entries.
pub fn counts_of(alloc: Global, tableau: &Tableau) -> Result<Vec<usize>, Halt> {
    let mut counts = vec![in alloc; 0usize; tableau.values.len()]?;
    for row in tableau.rows.as_slice() {
        count_entries(&mut counts, &row.entries);
    }
    Ok(counts)
}

/// Counts one more for the column of each entry.
fn count_entries(counts: &mut Vec<usize>, entries: &[Entry]) {
    for entry in entries {
        if let Some(count) = counts.get_mut(entry.column) {
            *count = count.saturating_add(1);
        }
    }
}

/// Puts an entry in its place among entries of other columns.
pub fn put_entry(entries: &mut Vec<Entry>, entry: Entry) -> Result<(), Halt> {
    match entries.binary_search_by_key(&entry.column, |entry| entry.column) {
        Ok(_) => Err(Halt::Unknown),
        Err(at) => {
            entries.insert(at, entry)?;
            Ok(())
        }
    }
}
