//! What clauses say that keep the rules one by one, where no pair of their cases is met.
#![tactic(auto)]

mod laws;

pub use laws::ruled_clauses_have_classes;
