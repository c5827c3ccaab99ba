//! The syntax tree of problems: plain data, and an equal copy of each part. What its terms and atoms say at
//! values is defined in specs/.
//! A tree may be any value of these types: whether its names are declared and its sorts fit is judged above.
#![tactic(auto)]

mod limit;
mod problem;
mod sides;
mod term;

pub use limit::{
    LARGEST_BOUND, Limit, MOST_ARGUMENTS, MOST_BYTES, MOST_CLAUSES, MOST_LINES, MOST_NAMES,
    MOST_VARIABLES, Which,
};
pub use problem::{Atom, Clause, Cmp, Decl, Problem, Sort, Var};
pub use sides::{negated, signed};
pub use term::Term;
