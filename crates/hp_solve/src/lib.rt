//! The verdict on a problem: a structure that satisfies it, a refutation, a search that came to its limit, or a number
//! that is too wide on the way; and which problems have none of these.
#![tactic(auto)]

mod solving;

pub use solving::{Solved, solve};
