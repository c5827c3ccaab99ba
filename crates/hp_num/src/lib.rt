//! Whole numbers within 128 bits, exact fractions over them, and lists and texts that contracts see as plain lists.
//!
//! No call wraps: arithmetic gives the exact result or names the first operation that is too wide.
#![tactic(auto)]

mod frac;
mod list;
mod text;
mod whole;
mod wide;

pub use frac::Frac;
pub use list::List;
pub use text::Text;
pub use whole::{Whole, gcd};
pub use wide::{Op, Wide, minus, plus, times, whole_mul_sub};
