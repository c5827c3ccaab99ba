//! Lists of distinct names, each found again by its bytes.
#![tactic(auto)]

mod names;

pub use names::NameIndex;
