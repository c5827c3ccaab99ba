//! The class of functions by cases: clauses that bound the value of a function where their guards are true, of which no two
//! are true together; the bounds may apply lower functions.
#![tactic(auto)]

mod cases;

pub use cases::Cases;
