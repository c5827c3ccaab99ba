//! Lines of clauses at all tuples over a list of arguments, made one tuple after the other.
#![tactic(auto)]

mod lines;

pub use lines::add_tuple_lines;
