//! Literals over fractions, decided by the simplex method, by relaxation where that gives up, and by the descent over their
//! rows where both do.
//!
//! Simplex and relaxation are only proved safe and ending. Their answers are checked before they are given: values by
//! summing each literal at them, a combination by the check of Farkas combinations. The promise rests on these checks alone.
#![tactic(auto)]

mod bounds;
mod checks;
mod conflict;
mod deciding;
mod halt;
mod pivot;
mod relaxing;
mod search;
mod solution;
mod tableau;
mod values;

pub use checks::Attempt;
pub use deciding::{attempt, decide};
