//! A search for values that make every line of a ground problem true, with a tree of splits as its evidence where
//! there are none or where it is given up, or a strain where a number is too wide.
#![tactic(auto)]

mod ahead;
mod bounds;
mod classes;
mod following;
mod gaps;
mod known;
mod leading;
mod literals;
mod looking;
mod parts;
mod places;
mod plan;
mod searching;
mod singles;
mod spread;
mod truth;

pub use searching::{Found, SearchErr, search};
