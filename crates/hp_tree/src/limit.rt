//! The limits of texts and of ground problems, and what is said where one is passed. The tests are made by the crates that
//! count.

/// The most bytes of a problem's text.
pub const MOST_BYTES: usize = 1_048_576;

/// The most clauses of a problem.
pub const MOST_CLAUSES: usize = 2_000;

/// The most variables of a clause.
pub const MOST_VARIABLES: usize = 6;

/// The most arguments of a declared function.
pub const MOST_ARGUMENTS: usize = 4;

/// The most names of a ground problem: constants and definitions together.
pub const MOST_NAMES: usize = 4_000;

/// The most lines of a ground problem.
pub const MOST_LINES: usize = 50_000;

/// The largest magnitude of a bound on a difference of whole numbers.
pub const LARGEST_BOUND: i128 = 10_000_000_000_000_000_000_000_000;

/// What there is too much of.
#[derive(Clone, Copy, Debug, PartialEq, Eq)]
pub enum Which {
    /// Bytes of a whole input.
    Input,
    /// Bytes of a problem's text.
    Bytes,
    /// Clauses of a problem.
    Clauses,
    /// Variables of a clause.
    Variables,
    /// Arguments of a function.
    Arguments,
    /// Names of a ground problem.
    Names,
    /// Lines of a ground problem.
    Lines,
    /// A number in the computation of a normal form, above 2^127 - 1 in magnitude.
    Coefficient,
}

/// A limit that is passed.
#[derive(Clone, Copy, Debug, PartialEq, Eq)]
pub struct Limit {
    /// What there is too much of.
    pub which: Which,
    /// How many there may be: 0 for a coefficient.
    pub most: u64,
    /// The item in which a coefficient is too large, counted from 1 over declarations and clauses together: 0 for all
    /// else.
    pub item: u32,
}
