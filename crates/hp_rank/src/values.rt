//! Values of names with a universe of pointers.
use hp_lit::Valuation;

/// Values by rank: the values of null and of the first names of sort ptr are the numbers below `universe`, which is at
/// least 1, and those of other names of sort ptr are these or the numbers from there on.
#[derive(Drop)]
pub struct Ranked {
    pub universe: u32,
    pub values: Valuation,
}
