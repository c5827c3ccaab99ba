use crate::literal::Name;
use hp_num::{Frac, List};

/// A value for each name, in the order of names: a whole number for an index, a whole number from 0 for a pointer.
#[derive(Drop)]
pub struct Valuation {
    pub values: List<Frac>,
}

/// The value of one name.
#[derive(Clone, Copy)]
pub struct NameValue {
    pub name: Name,
    pub value: Frac,
}
