//! The rules of the profile that clauses keep one by one.
#![tactic(auto)]

mod arrays;
mod branches;
mod copies;
mod reading;
mod rows;
mod ruled;
mod same;
mod shape;

pub use copies::{copy_atoms, copy_clause};
pub use reading::rules;
pub use ruled::{ArrayClause, CaseClause, RuleErr, Ruled};
