//! The fault of a text is one: whoever names a fault of it names that cause at that place.
#![tactic(auto)]

mod laws;

pub use laws::one_fault;
