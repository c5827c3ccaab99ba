//! A group of pointer fields as a local class.
#![tactic(auto)]

mod fields;

pub use fields::Fields;
