//! Names as numbered nodes: node 0 is for no name, and the names follow in rising order.
#![tactic(auto)]

mod names;
mod sided;

pub use names::node_of;
pub use sided::{Sided, distinct_names};
