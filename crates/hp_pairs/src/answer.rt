//! Why clauses can't be taken.

use hp_descent::RowStrain;
use hp_num::{Frac, List, Text};

/// A word and its value at a point.
#[derive(Drop)]
pub struct PlaceValue {
    pub name: Text,
    pub value: Frac,
}

/// A clause that breaks a rule of the profile.
#[derive(Drop)]
pub struct Outside {
    /// The number of the clause, counted from 1.
    pub clause: u32,
    /// The number of the rule.
    pub rule: u8,
    /// The number of the clause that it breaks rule 8 or 9 with, and 0 for other rules.
    pub other: u32,
    /// The point at which it breaks rule 8 or 9: the values of the arguments, and then those of the names that occur in the
    /// rows that are tested, in their order. Empty for other rules.
    pub at: List<PlaceValue>,
}

/// A number that passes 2^127 - 1 over the rows of two clauses.
#[derive(Drop)]
pub struct PairStrain {
    pub rule: u8,
    /// The numbers of the clauses, counted from 1, the greater one first.
    pub clause: u32,
    pub other: u32,
    pub row: RowStrain,
}

/// Why pairs of cases can't be taken.
#[derive(Drop)]
pub enum PairErr {
    /// Values meet all rows of a pair.
    Outside(Outside),
    /// A number is too wide.
    Strain(PairStrain),
    /// Memory was wanting.
    Memory,
}
