//! The groups of a problem: each function with its class.
#![tactic(auto)]

mod arrays;
mod classing;
mod copies;
mod group;
mod owning;

pub use classing::groups;
pub use group::Group;
pub use owning::owned;
