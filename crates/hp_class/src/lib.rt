//! Local classes of functions behind one trait, what a group of a class adds to a ground set, and its callers.
#![tactic(auto)]

mod class;
mod congruence;
mod groups;
mod laws;

pub use class::{LocalClass, Slope};
pub use congruence::add_function_lines;
pub use groups::{TablesErr, ascend_groups, descend_groups};
pub use laws::{
    clauses_hold_with_points, clauses_pass, facts_are_congruent, group_makes_only, group_says,
    own_facts_are_points, plans_stay, points_stay, turns_are_modelled,
};
