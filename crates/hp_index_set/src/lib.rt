//! The index set of a group of arrays, and the rules on the clauses of such a group.
#![tactic(auto)]

mod applied;
mod bounds;
mod guards;
mod indexes;
mod laws;
mod literals;
mod reads;
mod sets;
mod words;

pub use guards::{has_index_guards, is_convex};
pub use laws::{index_sets_have, index_sets_stay, indexes_are_small, passes_cover};
pub use reads::reads_at_variables;
pub use sets::index_set;
