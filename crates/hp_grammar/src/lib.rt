//! What a text spells, by the whole grammar, and what its fault is: relations over the tokens of its bytes, and the limits on parentheses and
//! signs, counted beside. Of code there are only the tokens with what they say, the counts of the limits, and the faults; reading is left to others.
#![tactic(auto)]

mod counts;
mod fault;
mod symbol;

pub use counts::Counts;
pub use fault::ReadErr;
pub use symbol::{Symbol, same, symbol_at};
