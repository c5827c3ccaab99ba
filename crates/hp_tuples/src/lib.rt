//! Tuples of places, one after the other in lexicographic order.
#![tactic(auto)]

mod tuples;

pub use tuples::{first_tuple, next_tuple};
