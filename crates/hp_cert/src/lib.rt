//! The texts of ground lines, definitions and trees, refutations made of them, and the text of a strain.
#![tactic(auto)]

mod forms;
mod ground;
mod listing;
mod literals;
mod nodes;
mod overflow;
mod refutation;

pub use ground::{def_text, line_text};
pub use listing::entries;
pub use overflow::{overflow_text, pair_overflow_text};
pub use refutation::{Entry, Refutation, body, write};
