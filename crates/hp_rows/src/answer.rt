//! What the descent answers, and what comes of a chain.

use hp_num::{Frac, List, Whole, Wide};

/// Where a number passes: as a chain is eliminated from the row of this number, counted from 0; as the point of a
/// chain is computed; as this row's left side is summed at the point of a chain; or as a coordinate of the point of a
/// chain is divided by the last one, where every row holds.
#[derive(Clone, Copy)]
pub enum Place {
    Line(usize),
    Point,
    Sum(usize),
    Value,
}

/// The first number that passes 2^127 - 1 over this chain, with the operation that made it. The chain lists row numbers
/// from 0 in the order in which the rows are taken as equations.
#[derive(Drop)]
pub struct Strain {
    pub chain: List<usize>,
    pub place: Place,
    pub wide: Wide,
}

/// The answer of the descent.
#[derive(Drop)]
pub enum Answer {
    /// A point at which every row holds, one fraction for each column. It is the point of this chain, whose row numbers
    /// fall and count from 0.
    Point {
        chain: List<usize>,
        point: List<Frac>,
    },
    /// A multiplier for each row, none negative: the left sides add to nothing, and the bounds to less than 0.
    Contradiction(List<Whole>),
    /// A number on the way passes 2^127 - 1.
    Strain(Strain),
    /// Memory was wanting.
    Memory,
}

/// What comes of a chain that is given.
#[derive(Drop)]
pub enum Located {
    /// Its point, one fraction for each column.
    Point(List<Frac>),
    /// The chain has no point: a multiplier for each row, none negative, by which the left sides add to nothing, and
    /// the bounds to less than 0.
    Contradiction(List<Whole>),
    /// A number on the way passes 2^127 - 1.
    Strain(Strain),
    /// Memory was wanting.
    Memory,
}
