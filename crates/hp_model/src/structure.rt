//! The data of a structure. What it makes true is said in the definitions of values and truth.

use hp_num::{Frac, List, Text};
use hp_tree::{Atom, Term};

/// The value of a constant: a whole number for an index, a whole number below the universe for a pointer.
#[derive(Drop)]
pub struct ConstValue {
    pub name: Text,
    pub value: Frac,
}

/// A row of a table: where all atoms of its guard are true, the function has the value of the term.
#[derive(Drop)]
pub struct Row {
    pub guard: List<Atom>,
    pub value: Term,
}

/// The table of a function of `args` arguments, which its atoms and terms call `$1` to `$4`. The first row whose
/// guard is true gives the value, or else `otherwise` does.
#[derive(Drop)]
pub struct Table {
    pub func: Text,
    pub args: u8,
    pub rows: List<Row>,
    pub otherwise: Term,
}

/// Pointers from 0 to `universe` - 1, 0 being null; the constants and the functions, both in the order of their
/// declarations.
#[derive(Drop)]
pub struct Structure {
    pub universe: u32,
    pub consts: List<ConstValue>,
    pub tables: List<Table>,
}
