//! The groups of a problem, its ground set, and what ties that to the structures of the problem.
#![tactic(auto)]

mod answer;
mod chain;
mod declared;
mod laws;
mod order;
mod structures;

pub use answer::ChainErr;
pub use chain::{Chain, Classified, classify, descend};
pub use laws::{ground_sets_are_fit, structures_give_values, values_give_a_structure};
pub use structures::ascend;
