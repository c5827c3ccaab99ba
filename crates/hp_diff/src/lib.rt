//! Bounds on differences of named whole numbers: values that keep all of them, or a cycle of them that adds to less
//! than 0.
//!
//! Rows become edges between numbered nodes. `decide` decides rows at once: the edges are relaxed until all hold or a walk
//! repeats a node. `Kept` decides them one by one, as they are pushed and popped.
#![tactic(auto)]

mod answer;
mod cycles;
mod edges;
mod kept;
mod labels;
mod net;
mod order;
mod outcome;
mod parents;
mod repair;
mod row_edges;
mod state;
mod walk;

pub use answer::{DiffAnswer, decide};
pub use kept::Kept;
